//! Places of a text: offsets whose positions are known.
ghost use Rattle.std.specs.Prelude.{◌≡◌, ◌≤◌};
ghost use Rattle.std.specs.Str.{IsCharBoundary};
ghost use Rattle.css_text.specs.Positions.{position};
ghost use Rattle.simplecss.specs.Places.{IsPlace};

use css_text::TextPos;
use css_text::stream::Stream;

/// An offset of a text with its position. The positions of later offsets are counted from it, so
/// that those of many parts, in order, are counted once.
///
/// <!-- from crates/example_linter/src/main.rt -->
/// ```rust
/// let mut place = Place::START;
/// for part in &skipped {
///     place = place.find(text, part.from);
///     println!(rt; "{file}:{}: {part}", place.pos)?;
/// }
/// ```
#[derive(Clone, Copy, Debug, PartialEq)]
pub struct Place {
    /// The offset, in bytes.
    pub offset: usize,
    /// Its position.
    pub pos: TextPos,
}

/// Returns the position of an offset, from that of an earlier one.
fn position_from(text: &str, known: Place, offset: usize) -> TextPos
    ensures { IsPlace text.now known → IsCharBoundary text.now offset → known.offset ≤ offset
        → result ≡ position text.now offset }
{
    match text.get(known.offset..offset) {
        Some(between) => known
            .pos
            .in_whole(Stream::new(between).gen_text_pos_from(between.len())),
        None => known.pos,
    }
}

impl Place {
    ghost use Rattle.css_text.specs.Reading.{Ends, rest_offset};
    ghost use Rattle.simplecss.specs.Places.{IsPlace};

    /// The start of a text.
    pub const START: Place = Place {
        offset: 0,
        pos: TextPos { row: 1, col: 1 },
    };

    /// Returns the place where the rest of a text begins, as [`Skipped::from`] is one. It is counted
    /// from this place, or from the start of the text if it is before that.
    ///
    /// [`Skipped::from`]: crate::Skipped::from
    pub fn find(self, text: &str, rest: &str) -> Place
        ensures { IsPlace text.now self → Ends text.now rest.now
            → IsPlace text.now result × (result.offset ≡ rest_offset text.now rest.now) }
    {
        let offset = text.len().saturating_sub(rest.len());
        let from = if offset < self.offset {
            Place::START
        } else {
            self
        };
        let pos = position_from(text, from, offset);
        Place { offset, pos }
    }
}
