//! Where a document type ends (XML 1.0, section 2.8).
ghost use Rattle.std.specs.Prelude.{◌≡◌};
ghost use Rattle.css_text.specs.Strings.{is_quote as is_quote_byte};
ghost use Rattle.css_xml.specs.Doctypes.{part_after as part_after_byte, may_end as may_end_in, from_end};

use crate::characters::is_blank;

/// A part of a document type.
#[derive(Clone, Copy, Debug, PartialEq)]
pub enum Part {
    /// Before the subset.
    Front,
    /// In quotes there.
    FrontQuoted(u8),
    /// In the subset.
    Subset,
    /// After `<` there.
    Opened,
    /// After `<!` there.
    Marked,
    /// After `<!E` there.
    Element,
    /// After `<!-` there.
    Hyphen,
    /// In a declaration.
    Declaration,
    /// In quotes there.
    DeclarationQuoted(u8),
    /// In a comment.
    Comment,
    /// After `-` there.
    CommentHyphen,
    /// After `--` there.
    CommentHyphens,
    /// In an instruction.
    Instruction,
    /// After `?` there.
    InstructionMark,
    /// After the subset.
    Back,
    /// After what may not be there.
    Wrong,
}

/// Whether the byte is a quote.
#[inline(always)]
fn is_quote(byte: u8) -> bool
    ensures { result ≡ is_quote_byte byte }
{
    byte == b'\'' || byte == b'"'
}

/// Returns the part of a document type after one more byte.
fn part_after(part: Part, byte: u8) -> Part
    ensures { result ≡ part_after_byte part byte }
{
    match part {
        Part::Front if byte == b'[' => Part::Subset,
        Part::Front if is_quote(byte) => Part::FrontQuoted(byte),
        Part::Front => Part::Front,
        Part::FrontQuoted(quote) if byte == quote => Part::Front,
        Part::FrontQuoted(quote) => Part::FrontQuoted(quote),
        Part::Subset if is_blank(byte) => Part::Subset,
        Part::Subset if byte == b'<' => Part::Opened,
        Part::Subset if byte == b']' => Part::Back,
        Part::Opened if byte == b'!' => Part::Marked,
        Part::Opened if byte == b'?' => Part::Instruction,
        Part::Marked if byte == b'-' => Part::Hyphen,
        Part::Marked if byte == b'E' => Part::Element,
        Part::Marked if byte == b'N' => Part::Declaration,
        Part::Element if byte == b'L' => Part::Declaration,
        Part::Hyphen if byte == b'-' => Part::Comment,
        Part::Declaration if byte == b'>' => Part::Subset,
        Part::Declaration if is_quote(byte) => Part::DeclarationQuoted(byte),
        Part::Declaration => Part::Declaration,
        Part::DeclarationQuoted(quote) if byte == quote => Part::Declaration,
        Part::DeclarationQuoted(quote) => Part::DeclarationQuoted(quote),
        Part::Comment if byte == b'-' => Part::CommentHyphen,
        Part::CommentHyphen if byte == b'-' => Part::CommentHyphens,
        Part::Comment | Part::CommentHyphen => Part::Comment,
        Part::CommentHyphens if byte == b'>' => Part::Subset,
        Part::InstructionMark if byte == b'>' => Part::Subset,
        Part::Instruction | Part::InstructionMark if byte == b'?' => Part::InstructionMark,
        Part::Instruction | Part::InstructionMark => Part::Instruction,
        Part::Back if is_blank(byte) => Part::Back,
        _ => Part::Wrong,
    }
}

/// Whether a `>` ends a document type in this part.
fn may_end(part: Part) -> bool
    ensures { result ≡ may_end_in part }
{
    matches!(part, Part::Front | Part::Back)
}

/// Returns the rest from the `>` that ends a document type on, or nothing.
#[tactic(auto, unfolding(crate::specs::Doctypes::from_end))]
pub(crate) fn from_doctype_end(bytes: &[u8]) -> &[u8]
    ensures { result.now ≡ from_end Part.Front bytes.now }
{
    let mut part = Part::Front;
    let mut rest = bytes;
    'doctype: while let [byte, after @ ..] = rest {
        if may_end(part) && *byte == b'>' {
            return rest;
        }
        part = part_after(part, *byte);
        rest = after;
    }
    rest
}
