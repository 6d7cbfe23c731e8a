//! The encoding that a `meta` in the front of a page names (HTML Standard, section 13.2.3.2).
ghost use Rattle.std.specs.Prelude.{◌≡◌, ◌≤◌, length, drop, option_map};
ghost use Rattle.std.specs.List.{prefix_len};
ghost use Rattle.css_text.specs.AsciiBytes.{greater_than_sign};
ghost use Rattle.css_text.specs.Bytes.{past, starts_by, after_byte as after_byte_of};
ghost use Rattle.css_html.specs.Attributes.{past_attributes as past_attributes_of};
ghost use Rattle.css_html.specs.Marks.{is_between as is_between_of, is_in_bare_value};
ghost use Rattle.html_encodings.specs.Prescan.{after_comment as after_comment_of, after_tag as after_tag_of};
ghost use Rattle.html_encodings.specs.Prescan.{begins_meta as begins_meta_of, begins_tag as begins_tag_of};
ghost use Rattle.html_encodings.specs.Prescan.{begins_comment as begins_comment_of, is_mark};
ghost use Rattle.html_encodings.specs.Prescan.{naming as naming_of, marked_piece as marked_piece_of};
ghost use Rattle.html_encodings.specs.Prescan.{next_piece as next_piece_of, prescan as prescan_of};
ghost use Rattle.html_encodings.specs.Finding.{encoding_of_meta as encoding_of_meta_of};
ghost use Rattle.html_encodings.specs.Views.{piece_of};

use crate::bytes::{is_space, past_letters};
use crate::content::encoding_of_meta;
use crate::encoding::Encoding;
use css_html::attributes::next_attribute;

/// A piece of the front of a page.
#[derive(Clone, Copy)]
struct Piece<'a> {
    /// The encoding that it names.
    encoding: Option<Encoding>,
    /// What is left after it.
    rest: &'a [u8],
}

/// Returns a piece that names this encoding, if there is a rest after it.
fn naming(encoding: Option<Encoding>, rest: Option<&[u8]>) -> Option<Piece<'_>>
    ensures { naming_of encoding (option_map (λ r. r.now) rest.entry) ≡ option_map piece_of result }
{
    match rest {
        Some(rest) => Some(Piece { encoding, rest }),
        None => None,
    }
}

/// Returns the rest after the first `-->`.
#[tactic(auto, unfolding(crate::specs::Prescan::after_comment))]
fn after_comment(bytes: &[u8]) -> Option<&[u8]>
    ensures { after_comment_of bytes.now ≡ option_map (λ rest. rest.now) result }
{
    let mut rest = bytes;
    'comment: while let [_, after @ ..] = rest {
        if let [b'-', b'-', b'>', end @ ..] = rest {
            return Some(end);
        }
        rest = after;
    }
    None
}

/// Returns the rest after the first `>`.
fn after_close(bytes: &[u8]) -> Option<&[u8]>
    ensures { after_byte_of greater_than_sign bytes.now ≡ option_map (λ rest. rest.now) result }
{
    let mut rest = bytes;
    'close: while let [byte, after @ ..] = rest {
        if *byte == b'>' {
            return Some(after);
        }
        rest = after;
    }
    None
}

/// Returns the number of space bytes and slashes at the start.
fn between_count(bytes: &[u8]) -> usize
    ensures count { result ≡ prefix_len is_between_of bytes.now }
    ensures within { result ≤ length bytes.now }
{
    bytes
        .iter()
        .take_while(|byte| is_space(**byte) || **byte == b'/')
        .count()
}

/// Returns the rest after space bytes and slashes.
fn past_between(bytes: &[u8]) -> &[u8]
    ensures { result.now ≡ past is_between_of bytes.now }
{
    &bytes[between_count(bytes)..]
}

/// Returns the rest after the attributes of a tag and what is between them.
#[tactic(auto, unfolding(css_html::specs::Attributes::past_attributes))]
fn past_attributes(bytes: &[u8]) -> &[u8]
    ensures { result.now ≡ past_attributes_of bytes.now }
{
    let mut rest = bytes;
    'attributes: while let Some(attribute) = next_attribute(rest) {
        rest = attribute.rest;
    }
    past_between(rest)
}

/// Returns the rest after the attributes of a tag and its `>`.
fn after_tag(bytes: &[u8]) -> Option<&[u8]>
    ensures { after_tag_of bytes.now ≡ option_map (λ rest. rest.now) result }
{
    after_close(past_attributes(bytes))
}

/// Whether what follows a `<` is the front of the tag of a `meta`.
fn begins_meta(bytes: &[u8]) -> bool
    ensures { result ≡ begins_meta_of bytes.now }
{
    matches!(past_letters(b"meta", bytes), Some([end, ..]) if is_space(*end) || *end == b'/')
}

/// Whether what follows a `<` is a letter, also after a slash.
fn begins_tag(bytes: &[u8]) -> bool
    ensures { result ≡ begins_tag_of bytes.now }
{
    match bytes {
        [b'/', after @ ..] => matches!(after, [byte, ..] if byte.is_ascii_alphabetic()),
        _ => matches!(bytes, [byte, ..] if byte.is_ascii_alphabetic()),
    }
}

/// Returns the number of bytes before a space byte or a `>`.
fn name_count(bytes: &[u8]) -> usize
    ensures count { result ≡ prefix_len is_in_bare_value bytes.now }
    ensures within { result ≤ length bytes.now }
{
    bytes
        .iter()
        .take_while(|byte| !(is_space(**byte) || **byte == b'>'))
        .count()
}

/// Returns the rest after the name of a tag, and what is with it up to a space byte or a `>`.
fn past_tag_name(bytes: &[u8]) -> &[u8]
    ensures { result.now ≡ past is_in_bare_value bytes.now }
{
    &bytes[name_count(bytes)..]
}

/// Returns the rest after these bytes, or nothing.
fn past_bytes(bytes: &[u8], n: usize) -> &[u8]
    ensures { result.now ≡ drop n bytes.now }
{
    &bytes[n.min(bytes.len())..]
}

/// Whether what follows a `<` is the front of a comment.
fn begins_comment(bytes: &[u8]) -> bool
    ensures { result ≡ begins_comment_of bytes.now }
{
    matches!(bytes, [b'!', b'-', b'-', ..])
}

/// Whether what follows a `<` is `!`, a slash or `?`.
fn begins_mark(bytes: &[u8]) -> bool
    ensures { result ≡ starts_by is_mark bytes.now }
{
    matches!(bytes, [b'!' | b'/' | b'?', ..])
}

/// Returns the piece of a `meta` whose attributes begin here.
fn meta_piece(attributes: &[u8]) -> Option<Piece<'_>>
    ensures { naming_of (encoding_of_meta_of attributes.now) (after_tag_of attributes.now) ≡ option_map piece_of result }
{
    naming(encoding_of_meta(attributes), after_tag(attributes))
}

/// Reads what a `<` before this text begins.
#[tactic(auto, using(crate::proofs::Marked::comment_marked, crate::proofs::Marked::meta_marked, crate::proofs::Marked::tag_marked, crate::proofs::Marked::mark_marked, crate::proofs::Marked::none_marked))]
fn marked_piece(bytes: &[u8]) -> Option<Piece<'_>>
    ensures { marked_piece_of bytes.now ≡ option_map piece_of result }
{
    if begins_comment(bytes) {
        naming(None, after_comment(past_bytes(bytes, 1)))
    } else if begins_meta(bytes) {
        meta_piece(past_bytes(bytes, 4))
    } else if begins_tag(bytes) {
        naming(None, after_tag(past_tag_name(bytes)))
    } else if begins_mark(bytes) {
        naming(None, after_close(bytes))
    } else {
        Some(Piece {
            encoding: None,
            rest: bytes,
        })
    }
}

/// Reads the next piece of the front of a page: what a `<` begins, or one byte.
#[tactic(auto, unfolding(crate::specs::Prescan::next_piece))]
fn next_piece(bytes: &[u8]) -> Option<Piece<'_>>
    ensures { next_piece_of bytes.now ≡ option_map piece_of result }
{
    match bytes {
        [] => None,
        [b'<', after @ ..] => marked_piece(after),
        [_, after @ ..] => Some(Piece {
            encoding: None,
            rest: after,
        }),
    }
}

/// Returns the encoding that the first `meta` names that names one.
pub(crate) fn prescan(front: &[u8]) -> Option<Encoding>
    ensures { result ≡ prescan_of front.now }
{
    let mut rest = front;
    'pieces: while let Some(piece) = next_piece(rest) {
        if let Some(encoding) = piece.encoding {
            return Some(encoding);
        }
        rest = piece.rest;
    }
    None
}
