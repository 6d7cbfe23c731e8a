//! What the call answers.

ghost use Rattle.std.specs.Prelude.{◌≡◌, IfOk};
ghost use Rattle.css_inline.specs.Inlining.{IsStyled};
ghost use Rattle.inline_calls.specs.InlineCalls.{IsInlined};

use css_inline::inlining::{InlineError, Options, inline};
use std::alloc::Global;

const MARK: &[u8] = &[0xEF, 0xBB, 0xBF];

/// Returns the text that bytes are.
fn text_of(bytes: &[u8]) -> Result<&str, InlineError>
    ensures { IfOk result (λ text. text.now ≡ bytes.now) }
{
    match std::str::from_utf8(bytes) {
        Ok(text) => Ok(text),
        Err(_) => Err(InlineError::NoText),
    }
}

/// Returns the texts that lie one after another in a buffer, by where each ends.
fn texts_of<'t>(
    alloc: Global,
    buffer: &'t [u8],
    ends: &[usize],
) -> Result<Vec<&'t str>, InlineError> {
    let mut texts = Vec::new(alloc);
    let mut start = 0;
    for end in ends {
        let Some(bytes) = buffer.get(start..*end) else {
            return Err(InlineError::NoText);
        };
        texts.push(text_of(bytes)?)?;
        start = *end;
    }
    Ok(texts)
}

/// Returns a page with sheets in its attributes.
fn styled(
    alloc: Global,
    page: &[u8],
    sheets: &[&str],
    options: &Options,
) -> Result<Vec<u8>, InlineError>
    ensures { IfOk result (λ text. IsStyled page.now text.items) }
{
    inline(alloc, text_of(page)?, sheets, options)
}

/// Returns a page with sheets in its attributes, of which a mark of the order of bytes at its front is no part.
fn past_mark(
    alloc: Global,
    page: &[u8],
    sheets: &[&str],
    options: &Options,
) -> Result<Vec<u8>, InlineError>
    ensures { IfOk result (λ text. IsInlined page.now text.items) }
{
    let Some(rest) = page.strip_prefix(MARK) else {
        return styled(alloc, page, sheets, options);
    };
    let text = styled(alloc, rest, sheets, options)?;
    let mut out = Vec::from_slice(alloc, MARK)?;
    out.extend_from_slice(text.as_slice())?;
    Ok(out)
}

/// Returns a page with the sheets of a buffer in its attributes, and then its own. Its `style` elements may stay
/// as they are, and so much work is done at most.
pub fn inline_page(
    alloc: Global,
    page: &[u8],
    sheets: &[u8],
    ends: &[usize],
    keep_style: bool,
    limit: usize,
) -> Result<Vec<u8>, InlineError>
    ensures { IfOk result (λ text. IsInlined page.now text.items) }
{
    let texts = texts_of(alloc, sheets, ends)?;
    let options = Options { keep_style, limit };
    past_mark(alloc, page, texts.as_slice(), &options)
}
