//! Pages with style sheets in their `style` attributes.

ghost use Rattle.std.specs.Prelude.{◌≡◌};
ghost use Rattle.simplecss_c.specs.InlineCalls.{IsInlineCall};

use call_answers::answer::copy_whole;
use css_inline::inlining::InlineError;
use inline_calls::calls::inline_page;
use std::alloc::Global;

/// The flag that the `style` elements of the page stay as they are.
const KEEPS_STYLE: usize = 1;

/// Returns the status of an error.
fn status_of(error: InlineError) -> u32
    ensures { ¬ (result ≡ 0) }
{
    match error {
        InlineError::Doubtful | InlineError::Misplaced | InlineError::Differs => 1,
        InlineError::Memory => 3,
        InlineError::TooDeep | InlineError::TooLong => 4,
        InlineError::NoText => 5,
    }
}

/// Writes a page with style sheets in its `style` attributes: those of a buffer, and then its own.
#[unsafe(no_mangle)]
pub extern "C" fn simplecss_inline(
    alloc: Global,
    text: &[u8],
    sheets: &[u8],
    ends: &[usize],
    flags: usize,
    limit: usize,
    out: &mut [u8],
    len: &mut usize,
) -> u32
    ensures { IsInlineCall text.now result out.old out.new len.new }
{
    *len = 0;
    let keeps_style = flags & KEEPS_STYLE != 0;
    match inline_page(alloc, text, sheets, ends, keeps_style, limit) {
        Ok(page) => copy_whole(page.as_slice(), out, len),
        Err(error) => status_of(error),
    }
}
