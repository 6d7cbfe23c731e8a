//! The kinds of what may follow a gap in a selector.
ghost use Rattle.std.specs.Prelude.{◌≡◌};
ghost use Rattle.simplecss_grammar.specs.Pieces.{next_kind};
ghost use Rattle.css_text.specs.Cursor.{rest_of};

use css_text::readers;
use css_text::stream::Stream;

/// What follows a gap, by its first byte.
#[derive(Clone, Copy)]
pub enum NextKind {
    /// The end of the text, `,` or `{`.
    Stop,
    /// A `/`. It opens no comment, since a gap ends before it.
    Slash,
    /// The combinator `>`.
    Child,
    /// The combinator `+`.
    Adjacent,
    /// A `*`.
    Universal,
    /// The `#` of an id.
    Id,
    /// The `.` of a class.
    Class,
    /// The `[` of an attribute.
    Attribute,
    /// The `:` of a pseudo-class.
    Colon,
    /// Any other byte. If a piece follows, it is a type selector.
    Other,
}

/// Returns the kind of what follows, by its first byte.
#[inline(always)]
#[tactic(auto, unfolding(crate::specs::Pieces::next_kind))]
pub fn next_kind(stream: &Stream<'_>) -> NextKind
    ensures { result ≡ next_kind (rest_of stream.now) }
{
    match readers::peek(stream) {
        None | Some(b',' | b'{') => NextKind::Stop,
        Some(b'/') => NextKind::Slash,
        Some(b'>') => NextKind::Child,
        Some(b'+') => NextKind::Adjacent,
        Some(b'*') => NextKind::Universal,
        Some(b'#') => NextKind::Id,
        Some(b'.') => NextKind::Class,
        Some(b'[') => NextKind::Attribute,
        Some(b':') => NextKind::Colon,
        Some(_) => NextKind::Other,
    }
}
