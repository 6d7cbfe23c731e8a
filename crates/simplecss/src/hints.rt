//! Hints: parts of a style sheet that are kept, and that its author hardly meant.
ghost use Rattle.std.specs.Prelude.{◌≡◌, ◌++◌, IfOk, None, OnOk, drop, option_map, if◌then◌else◌};
ghost use Rattle.std.specs.Str.{IsCharBoundary};
ghost use Rattle.simplecss.specs.OpenParentheses.{leaves_open};
ghost use Rattle.simplecss.specs.Hints.{hints, mark_hints, rule_set_hints, statement_hints};
ghost use Rattle.simplecss.specs.HintViews.{hints_of};
ghost use Rattle.css_text.specs.ThisEdition.{this_edition};
ghost use Rattle.simplecss_declaration.specs.ValueStarts.{value_from};

mod heads;
mod kinds;
mod parentheses;
mod values;

use crate::StatementReader;
use crate::hints::heads::{keeps_one, push_head, read_head};
pub use crate::hints::kinds::{Hint, HintKind};
use crate::hints::parentheses::is_left_open;
use crate::hints::values::push_block;
use css_text::readers;
use css_text::stream::Stream;
use simplecss_declaration::find_value;
use simplecss_grammar::report::Silent;
use std::alloc::{AllocError, Global};

/// Returns the rest of the text from a declaration's value on, if the value leaves a parenthesis open.
/// The declaration begins with the text, as a reporter receives it.
pub fn rest_of_open_value<'a>(from: &'a str, value: &'a str) -> Option<&'a str>
    ensures { option_map (λ stated. stated.now) result
        ≡ (if leaves_open value.now then value_from this_edition from.now else None) }
{
    if value.contains('(') && is_left_open(value) {
        find_value(from)
    } else {
        None
    }
}

/// Returns the text from an offset on.
fn from_offset(text: &str, offset: usize) -> &str
    requires { IsCharBoundary text.now offset }
    ensures { result.now ≡ drop offset text.now }
{
    &text[offset..]
}

/// Adds the hint on a byte order mark at the start of the text, if there is one.
fn push_mark<'a>(hints: &mut Vec<Hint<'a>>, text: &'a str) -> Result<(), AllocError>
    ensures { OnOk result
        (hints_of hints.new.items ≡ hints_of hints.old.items ++ mark_hints text.now) }
{
    if text.starts_with("\u{feff}") {
        hints.push(Hint {
            from: text,
            kind: HintKind::ByteOrderMark,
        })?;
    }
    Ok(())
}

/// Adds the hints on the rule set at the start of the text.
fn push_rule_set<'a>(
    hints: &mut Vec<Hint<'a>>,
    alloc: Global,
    text: &'a str,
) -> Result<(), AllocError>
    ensures { OnOk result (hints_of hints.new.items
        ≡ hints_of hints.old.items ++ rule_set_hints this_edition text.now) }
{
    let mut s = Stream::new(text);
    readers::skip_byte(&mut s, b',');
    let parts = read_head(alloc, &mut s)?;
    push_head(hints, text, parts.as_slice())?;
    if keeps_one(parts.as_slice()) {
        push_block(hints, readers::from_brace(s.slice_tail()))?;
    }
    Ok(())
}

/// Adds the hints on the statement at the start of the text.
fn push_statement<'a>(
    hints: &mut Vec<Hint<'a>>,
    alloc: Global,
    text: &'a str,
) -> Result<(), AllocError>
    ensures { OnOk result (hints_of hints.new.items
        ≡ hints_of hints.old.items ++ statement_hints this_edition text.now) }
{
    if readers::starts(text, b'@') {
        return Ok(());
    }
    push_rule_set(hints, alloc, text)
}

/// Returns the hints on a style sheet's text: on a byte order mark, and then on its statements, in
/// order. Fails only if an allocation fails. The text is read a second time for them. No rule is kept, so
/// time and memory are linear in the text.
/// [`Place::find`](crate::Place::find) finds the position of each.
pub fn find_hints<'a>(alloc: Global, text: &'a str) -> Result<Vec<Hint<'a>>, AllocError>
    ensures { IfOk result (λ found. hints_of found.items ≡ hints this_edition text.now) }
{
    let mut found = Vec::new(alloc);
    push_mark(&mut found, text)?;
    let mut reader = StatementReader::new(text);
    'statements: loop {
        let next = reader.next_range(&mut Silent, alloc)?;
        match next {
            Some((start, _)) => push_statement(&mut found, alloc, from_offset(text, start))?,
            None => return Ok(found),
        }
    }
}
