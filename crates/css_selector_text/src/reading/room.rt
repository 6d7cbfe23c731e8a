//! Where a condition is read: which lists of pseudo-classes may be open, and what is declared.
ghost use Rattle.std.specs.Prelude.{◌≡◌, ◌<◌};
ghost use Rattle.css_selector_text.specs.reading.Grammar.{is_relative as is_relative_of, may_open as may_open_of, outside as outside_of, room_in};
ghost use Rattle.css_selector_text.specs.NameViews.{names_of, room_seen};

use crate::components::ListKind;
use crate::names::Names;

/// How many lists may be open at once.
const DEEPEST: usize = 32;

/// Which lists may be open where a condition is read, and which names are declared.
#[derive(Clone, Copy)]
pub(crate) struct Room<'n> {
    /// How many of them, one within another.
    pub(crate) depth: usize,
    /// Whether one that is open already is of `:has()`. Then no other one may be.
    pub(crate) in_has: bool,
    /// What is declared.
    pub(crate) names: &'n Names<'n>,
}

/// Returns which lists may be open in a selector that is in none.
pub(crate) fn outside<'n>(names: &'n Names<'n>) -> Room<'n>
    ensures { room_seen result ≡ outside_of (names_of names.now) }
{
    Room {
        depth: DEEPEST,
        in_has: false,
        names,
    }
}

/// Whether the selectors of a list of this kind may begin with a combinator.
pub(crate) fn is_relative(kind: ListKind) -> bool
    ensures { result ≡ is_relative_of kind }
{
    match kind {
        ListKind::Not | ListKind::Is | ListKind::Where => false,
        ListKind::Has => true,
    }
}

/// Whether a list of this kind may be open, where one that is open may be of `:has()`.
pub(crate) fn may_open(kind: ListKind, in_has: bool) -> bool
    ensures { result ≡ may_open_of kind in_has }
{
    !(is_relative(kind) && in_has)
}

/// Returns which lists may be open in a list of this kind.
pub(crate) fn within<'n>(kind: ListKind, room: Room<'n>) -> Room<'n>
    requires { 0 < room.depth }
    ensures { room_seen result ≡ room_in kind (room_seen room.entry) }
{
    Room {
        depth: room.depth - 1,
        in_has: is_relative(kind) || room.in_has,
        names: room.names,
    }
}
