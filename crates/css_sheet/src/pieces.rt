//! The pieces of what a style sheet says.

/// A piece.
#[derive(Clone, Copy)]
pub(crate) enum Piece<'a> {
    /// A token as it is written, or what has to be between two.
    Word(&'a [u8]),
    /// A text that is kept byte for byte.
    Verbatim(&'a [u8]),
    /// An at-rule begins, by its name.
    AtRule(&'a [u8]),
    /// The colon after the name of a property.
    Colon,
    /// A declaration, or an at-rule without a block, ends.
    Semicolon,
    /// The block of a rule begins.
    Opens,
    /// The block of a rule ends.
    Closes,
}
