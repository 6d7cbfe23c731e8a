//! Hints on the values of declarations.
ghost use Rattle.std.specs.Prelude.{◌≡◌, ◌++◌, OnOk, option_map};
ghost use Rattle.css_text.specs.Reading.{got};
ghost use Rattle.simplecss_grammar.specs.Declarations.{declaration as declaration_read};
ghost use Rattle.simplecss.specs.Hints.{block_hints, declaration_hints, ends_value, opened_hints};
ghost use Rattle.simplecss.specs.Hints.{value_surprise};
ghost use Rattle.simplecss.specs.HintViews.{hints_of, surprise_of};
ghost use Rattle.css_text.specs.Cursor.{rest_of};
ghost use Rattle.css_text.specs.ThisEdition.{this_edition};
ghost use Rattle.simplecss_declaration.specs.DeclarationViews.{declaration_of};

use crate::hints::parentheses::is_left_open;
use crate::hints::{Hint, HintKind};
use css_text::readers;
use css_text::stream::Stream;
use simplecss_declaration::{Declaration, find_value, find_value_end, take_in_block};
use std::alloc::AllocError;

/// Whether a declaration, its block or the text ends at the start of the text, which is after a value.
fn ends_value(after: &str) -> bool
    ensures { result ≡ ends_value after.now }
{
    after.is_empty() || readers::starts(after, b';') || readers::starts(after, b'}')
}

/// Returns what is surprising about the value of a declaration, with the text after the value and that
/// after the declaration.
fn kind_of_value<'a>(declaration: Declaration<'a>, after: &str, left: &str) -> Option<HintKind<'a>>
    ensures { option_map surprise_of result
        ≡ value_surprise (declaration_of declaration.entry) after.now left.now }
{
    let value = declaration.value;
    if is_left_open(value) {
        return Some(HintKind::OpenParenthesis(value));
    }
    if readers::starts(after, b'!') {
        if declaration.important {
            return None;
        }
        return Some(HintKind::MarkWithoutImportant(value));
    }
    if ends_value(after) || left.is_empty() {
        return None;
    }
    Some(HintKind::CutValue(value))
}

/// Adds the hint on the value of the declaration at the start of the text, if there is one. The
/// declaration was read, and this text is left after it.
fn push_value<'a>(
    hints: &mut Vec<Hint<'a>>,
    text: &'a str,
    declaration: Declaration<'a>,
    left: &str,
) -> Result<(), AllocError>
    ensures { declaration_read this_edition text.now
        ≡ got (declaration_of declaration.entry) left.now → OnOk result (hints_of hints.new.items
        ≡ hints_of hints.old.items ++ declaration_hints this_edition text.now) }
{
    let Some(from) = find_value(text) else {
        return Ok(());
    };
    let Some(after) = find_value_end(text) else {
        return Ok(());
    };
    if let Some(kind) = kind_of_value(declaration, after, left) {
        hints.push(Hint { from, kind })?;
    }
    Ok(())
}

/// Adds the hints on the values of a block, from after its opening brace.
fn push_values<'a>(hints: &mut Vec<Hint<'a>>, s: &mut Stream<'a>) -> Result<(), AllocError>
    ensures { OnOk result (hints_of hints.new.items
        ≡ hints_of hints.old.items ++ block_hints this_edition (rest_of s.old)) }
{
    'list: loop {
        let text = s.slice_tail();
        match take_in_block(s) {
            Some(declaration) => push_value(hints, text, declaration, s.slice_tail())?,
            None => return Ok(()),
        }
    }
}

/// Adds the hints on the values of the block that begins at the start of the text, if one does.
pub(crate) fn push_block<'a>(hints: &mut Vec<Hint<'a>>, text: &'a str) -> Result<(), AllocError>
    ensures { OnOk result (hints_of hints.new.items
        ≡ hints_of hints.old.items ++ opened_hints this_edition text.now) }
{
    let mut s = Stream::new(text);
    if readers::skip_byte(&mut s, b'{') {
        push_values(hints, &mut s)?;
    }
    Ok(())
}
