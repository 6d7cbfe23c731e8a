//! What reading a sheet's text skips.

use simplecss::{Error, Place, Refusal, TextPos, Why, find_skipped};
use std::test::Fail;

/// A position in an error counts from the start of the selector.
#[test]
fn returns_the_error(rt: HostRuntime) -> Result<(), Fail> {
    let text = "x { y:z }\n a[b=] { c:d }";
    let skipped = find_skipped(rt.alloc(), text)?;
    assert_eq!(rt; skipped.len(), 1);
    let (within, error) = (&text[11..], Error::InvalidIdent(TextPos::new(1, 5)));
    assert_eq!(rt;
        skipped[0].why,
        Why::Selector(Refusal::Faulty { within, error })
    );
    Ok(())
}

/// Where places are counted from an earlier one or, if that is later, from the start.
const PLACES: &[(usize, TextPos)] = &[
    (0, TextPos { row: 1, col: 1 }),
    (4, TextPos { row: 1, col: 4 }),
    (7, TextPos { row: 2, col: 2 }),
    (3, TextPos { row: 1, col: 3 }),
    (8, TextPos { row: 2, col: 3 }),
];

#[test]
fn counts_places(rt: HostRuntime) -> Result<(), Fail> {
    let text = "a\u{e9}b.\ncde";
    let mut place = Place::START;
    for (offset, pos) in PLACES {
        place = place.find(text, &text[*offset..]);
        assert_eq!(rt; (place.offset, place.pos), (*offset, *pos));
    }
    Ok(())
}
