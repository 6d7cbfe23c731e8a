//! Rows and columns, which begin at 1.
ghost use Rattle.std.specs.Prelude.{◌≡◌, ◌+◌, ◌==◌, length, min, count_by, chars};
ghost use Rattle.std.specs.List.{after_last};
ghost use Rattle.css_text.specs.AsciiBytes.{newline};

use crate::TextPos;

/// Returns the row of the position after the text.
fn row_after(before: &str) -> u32
    ensures { result ≡ min u32.MAX (1 + count_by (λ b. b == newline) before.now) }
{
    one_more(
        before
            .as_bytes()
            .iter()
            .filter(|byte| **byte == b'\n')
            .count(),
    )
}

/// Returns the column of the position after the text.
fn column_after(before: &str) -> u32
    ensures { result ≡ min u32.MAX (1 + length (chars (after_last (λ b. b == newline) before.now))) }
{
    let line = match before.rfind('\n') {
        Some(newline) => &before[newline + 1..],
        None => before,
    };
    one_more(char_count(line))
}

/// Returns the number of characters in the text.
fn char_count(text: &str) -> usize
    ensures { result ≡ length (chars text.now) }
{
    text.chars().count()
}

/// Returns `count + 1`, or the greatest `u32` if that is less.
fn one_more(count: usize) -> u32
    ensures { result ≡ min u32.MAX (1 + count) }
{
    u32::try_from(count).unwrap_or(u32::MAX).saturating_add(1)
}

/// Returns the position after the text.
pub(crate) fn position_after(before: &str) -> TextPos
    ensures row { result.row ≡ min u32.MAX (1 + count_by (λ b. b == newline) before.now) }
    ensures col { result.col
        ≡ min u32.MAX (1 + length (chars (after_last (λ b. b == newline) before.now))) }
{
    TextPos::new(row_after(before), column_after(before))
}
