//! Arguments that are kept as they are written.
ghost use Rattle.std.specs.Prelude.{◌≡◌};
ghost use Rattle.css_selector_text.specs.reading.Grammar.{argument, is_argument as is_argument_of, parenthesis as parenthesis_of};
ghost use Rattle.css_selector_text.specs.internal.Reads.{reading_of, Reads};
ghost use Rattle.std.specs.Cow.{cow_str_bytes};

use crate::reading::texts::split_ascii;
use crate::refusal::{Refusal, Why};
use css_syntax::parts::{Parts, Stops, read_parts};
use css_syntax::printing::ends_lone;
use css_syntax::quality::is_whole;
use css_syntax::texts::past_gap;
use std::borrow::CowStr;

/// Whether this is an argument: it has something in it, brackets are closed, and no lone backslash is
/// at its end.
fn is_argument(parts: &Parts<'_>) -> bool
    ensures { result ≡ is_argument_of (record {
      text = parts.now.text.now;
      quality = parts.now.quality;
    }) }
{
    is_whole(parts.quality) && !parts.text.is_empty() && !ends_lone(parts.text.as_bytes())
}

/// Consumes a closing parenthesis.
fn read_parenthesis(text: &str) -> Result<((), &str), Refusal<'_>>
    ensures { reading_of (λ u. u) result ≡ parenthesis_of text.now }
{
    match split_ascii(text) {
        Some((b')', rest)) => Ok(((), rest)),
        _ => Err(Refusal::new(Why::Unexpected, text)),
    }
}

/// Reads an argument that is kept as it is written, from after its parenthesis.
#[tactic(auto, unfolding(crate::specs::reading::Grammar::argument))]
pub(crate) fn read_kept(text: &str) -> Result<(&str, &str), Refusal<'_>>
    ensures { reading_of (λ a. a.now) result ≡ argument text.now }
{
    let stops = Stops {
        semicolon: false,
        open_brace: false,
        close_brace: false,
        comma: false,
        in_value: true,
    };
    let start = past_gap(text);
    let parts = read_parts(stops, start);
    if !is_argument(&parts) {
        return Err(Refusal::new(Why::Unexpected, start));
    }
    let (_, rest) = read_parenthesis(parts.rest)?;
    Ok((parts.text, rest))
}
