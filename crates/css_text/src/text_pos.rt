//! Positions in texts.
ghost use Rattle.std.specs.Prelude.{◌≡◌};
ghost use Rattle.css_text.specs.Positions.{in_whole};

/// A position in a text: row and column, which begin at 1.
///
/// The row is one more than the number of newlines before the position, and the column one more
/// than the number of characters since the last newline, or since the start. Both stop at
/// 4294967295.
#[derive(Clone, Copy, PartialEq, Debug)]
pub struct TextPos {
    /// The row. The first row is 1.
    pub row: u32,
    /// The column, counted in characters. The first column is 1.
    pub col: u32,
}

impl TextPos {
    /// Returns the position with this row and column. Both begin at 1, which is not checked.
    pub fn new(row: u32, col: u32) -> TextPos
        ensures { result ≡ record { row = row; col = col } }
    {
        TextPos { row, col }
    }

    /// Returns the position in a whole text of `inner`, a position in the text that begins at
    /// `self`.
    pub fn in_whole(self, inner: TextPos) -> TextPos
        ensures { result ≡ in_whole self inner }
    {
        TextPos {
            row: self.row.saturating_add(inner.row.saturating_sub(1)),
            col: if inner.row == 1 {
                self.col.saturating_add(inner.col.saturating_sub(1))
            } else {
                inner.col
            },
        }
    }
}
