//! Texts without the declarations whose values no browser takes.

ghost use Rattle.std.specs.Prelude.{◌≡◌, ◌++◌, IfOk, OnOk, map, replicate};
ghost use Rattle.std.specs.List.{slice_range};
ghost use Rattle.call_answers.specs.Outcomes.{numbers_outcome};
ghost use Rattle.css_lint.specs.Places.{place_of};
ghost use Rattle.lint_calls.specs.Taken.{IsTakenCall, refused_of, spaced as spaced_of};

use crate::lint::has_power;
use call_answers::answer::CallError;
use call_answers::texts::text_of;
use css_lint::{Finding, refused_in_attribute, refused_in_sheet};
use std::alloc::{AllocError, Global};

/// The text is a style attribute.
const STYLE: usize = 1;
/// The page is in quirks mode.
const QUIRKS: usize = 2;

/// Returns the bytes of a text between two offsets, as far as there are some.
fn between(text: &[u8], from: usize, to: usize) -> &[u8]
    ensures { result.now ≡ slice_range text.now from to }
{
    let end = to.min(text.len());
    if from < end { &text[from..end] } else { &[] }
}

/// Appends spaces.
fn push_spaces(out: &mut Vec<u8>, count: usize) -> Result<(), AllocError>
    ensures { OnOk result (out.new.items ≡ out.old.items ++ replicate count 32) }
{
    let mut done = 0;
    'spaces: while done < count {
        out.push(b' ')?;
        done += 1;
    }
    Ok(())
}

/// Returns a text with as many spaces in place of each of these parts, which are in order.
fn spaced(alloc: Global, text: &[u8], parts: &[Finding]) -> Result<Vec<u8>, AllocError>
    ensures { IfOk result (λ out. out.items ≡ spaced_of text.now 0 (map place_of parts.now)) }
{
    let mut out = Vec::new(alloc);
    let mut last = 0;
    let mut left = parts;
    'parts: while let [part, others @ ..] = left {
        out.extend_from_slice(between(text, last, part.start))?;
        push_spaces(&mut out, part.end.saturating_sub(part.start))?;
        last = part.end;
        left = others;
    }
    out.extend_from_slice(between(text, last, text.len()))?;
    Ok(out)
}

/// Returns the declarations of a style attribute or of a sheet whose values no browser takes.
fn refused(
    alloc: Global,
    text: &str,
    style: bool,
    in_quirks: bool,
) -> Result<Vec<Finding>, AllocError>
    ensures { IfOk result (λ found. map place_of found.items ≡ refused_of style in_quirks text.now) }
{
    if style {
        refused_in_attribute(alloc, text, in_quirks)
    } else {
        refused_in_sheet(alloc, text, in_quirks)
    }
}

/// A style attribute or a sheet with as many spaces in place of each declaration whose value no browser takes: on pages in
/// quirks mode, or on others.
pub fn taken(alloc: Global, text: &[u8], asked: usize) -> Result<Vec<u8>, CallError>
    ensures { IsTakenCall asked text.now (numbers_outcome result) }
{
    let text = text_of(text)?;
    let style = has_power(STYLE, asked);
    let found = refused(alloc, text, style, has_power(QUIRKS, asked))?;
    Ok(spaced(alloc, text.as_bytes(), &found)?)
}
