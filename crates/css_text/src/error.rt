//! The errors of tokenizers and of the cursor.
ghost use Rattle.std.specs.Prelude.{◌≡◌};

use crate::TextPos;

/// What is wrong with a text, with the position where one is known.
#[derive(Clone, Copy, PartialEq, Debug)]
pub enum Error {
    /// The text ends where more is required.
    UnexpectedEndOfStream,
    /// No name begins at the position (CSS 2.1 section 4.1.3).
    InvalidIdent(TextPos),
    /// No comment begins at the position, or one that is not closed (CSS 2.1 section 4.1.9).
    InvalidComment(TextPos),
    /// The value that begins at the position is empty.
    InvalidValue(TextPos),
    /// The byte at the position is not the required one.
    InvalidByte {
        /// The required byte.
        expected: u8,
        /// The byte that was found.
        actual: u8,
        /// The position of that byte.
        pos: TextPos,
    },
    /// A selector is missing at the start of the text or after a combinator (CSS 2.1 section 5.2).
    SelectorMissing,
    /// A type or universal selector directly follows another simple selector (CSS 2.1 section 5.2).
    UnexpectedSelector,
    /// A combinator appears where a selector is required (CSS 2.1 section 5.2).
    UnexpectedCombinator,
    /// The attribute selector has no known form (CSS 2.1 section 5.8).
    InvalidAttributeSelector,
    /// The language of a `:lang` is empty (CSS 2.1 section 5.11.4).
    InvalidLanguagePseudoClass,
}

impl Error {
    ghost use Rattle.css_text.specs.Errors.{error_position, error_words};

    /// Returns the position in the error, if it has one.
    pub fn pos(&self) -> Option<TextPos>
        ensures { result ≡ error_position self.now }
    {
        match *self {
            Error::InvalidIdent(pos)
            | Error::InvalidComment(pos)
            | Error::InvalidValue(pos)
            | Error::InvalidByte { pos, .. } => Some(pos),
            Error::UnexpectedEndOfStream
            | Error::SelectorMissing
            | Error::UnexpectedSelector
            | Error::UnexpectedCombinator
            | Error::InvalidAttributeSelector
            | Error::InvalidLanguagePseudoClass => None,
        }
    }

    /// Returns the error in a few words, without its position.
    pub fn words(&self) -> &'static str
        ensures { result.now ≡ error_words self.now }
    {
        match *self {
            Error::UnexpectedEndOfStream => "unexpected end of stream",
            Error::InvalidIdent(_) => "invalid ident",
            Error::InvalidComment(_) => "invalid comment",
            Error::InvalidValue(_) => "invalid value",
            Error::InvalidByte { .. } => "invalid byte",
            Error::SelectorMissing => "selector missing",
            Error::UnexpectedSelector => "unexpected selector",
            Error::UnexpectedCombinator => "unexpected combinator",
            Error::InvalidAttributeSelector => "invalid attribute selector",
            Error::InvalidLanguagePseudoClass => "invalid language pseudo-class",
        }
    }
}

/// Has no `source`: none of these errors is caused by another.
impl std::error::Error for Error {}
