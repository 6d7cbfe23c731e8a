//! What a hint says.
use simplecss_grammar::quoting::first_line;
use std::fmt;

/// A part of a style sheet that is kept, and that its author hardly meant.
#[derive(Clone, Copy, Debug, PartialEq)]
pub struct Hint<'a> {
    /// The text from the start of the part on.
    pub from: &'a str,
    /// What is surprising about it.
    pub kind: HintKind<'a>,
}

/// What is surprising about a part of a style sheet that is kept.
#[derive(Clone, Copy, Debug, PartialEq)]
pub enum HintKind<'a> {
    /// The text begins with a byte order mark, which belongs to the first name.
    ByteOrderMark,
    /// A selector is the `*` of a `*/` that closes no comment.
    StrayCommentEnd,
    /// A selector of the rule set is refused, and the others are kept. In CSS 2.1 (section 4.1.7)
    /// the rule set is dropped.
    OtherSelectors,
    /// This value ends before something that cannot be part of a value.
    CutValue(&'a str),
    /// This value leaves a parenthesis open.
    OpenParenthesis(&'a str),
    /// A `!` without `important` follows this value.
    MarkWithoutImportant(&'a str),
}

/// Prints what is surprising in a few words, without a position.
impl fmt::Display for HintKind<'_> {
    fn fmt<W: fmt::Write>(&self, f: &mut fmt::Formatter<W>) -> fmt::Result {
        let (value, words) = match *self {
            HintKind::ByteOrderMark => {
                return f.write_str("a byte order mark is part of the first name");
            }
            HintKind::StrayCommentEnd => {
                return f.write_str("a '*/' that closes no comment is read as the selector '*'");
            }
            HintKind::OtherSelectors => {
                return f.write_str("a selector is refused, and the others are kept");
            }
            HintKind::CutValue(value) => (value, "the value is cut here"),
            HintKind::OpenParenthesis(value) => (value, "a parenthesis of the value is left open"),
            HintKind::MarkWithoutImportant(value) => (value, "'!' without 'important' follows"),
        };
        let quote = first_line(value);
        write!(f, "'{quote}': {words}")
    }
}
