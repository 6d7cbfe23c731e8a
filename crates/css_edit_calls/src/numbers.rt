//! Edits from numbers and strings.
ghost use Rattle.std.specs.Prelude.{◌≡◌, IfOk, IfSome, map};
ghost use Rattle.css_edit_calls.specs.EditCalls.{number_of, ArePassed};

use css_edits::edits::{Change, Edit};
use std::alloc::{AllocError, Global};

/// Returns the change of a number, if it has one.
fn change_of(number: usize) -> Option<Change>
    ensures { IfSome result (λ change. number_of change ≡ number) }
{
    match number {
        1 => Some(Change::Prelude),
        2 => Some(Change::Value),
        3 => Some(Change::Block),
        4 => Some(Change::Statements),
        5 => Some(Change::Contents),
        _ => None,
    }
}

/// Returns the edits of numbers, three of each, and texts, if they are those of edits.
pub(crate) fn edits_of<'a>(
    alloc: Global,
    numbers: &[usize],
    texts: &[&'a str],
) -> Result<Option<Vec<Edit<'a>>>, AllocError>
    ensures { IfOk result (λ found. IfSome found (λ edits.
        ArePassed numbers.now (map (λ text. text.now) texts.now) edits.items)) }
{
    let mut found = Vec::new(alloc);
    let mut left = texts;
    let mut rest = numbers;
    'edits: while let [number, from, to, after @ ..] = rest {
        let Some(change) = change_of(*number) else {
            return Ok(None);
        };
        match left {
            [text, more @ ..] => {
                found.push(Edit {
                    change,
                    from: *from,
                    to: *to,
                    text,
                })?;
                left = more;
                rest = after;
            }
            _ => return Ok(None),
        }
    }
    if !rest.is_empty() || !left.is_empty() {
        return Ok(None);
    }
    Ok(Some(found))
}
