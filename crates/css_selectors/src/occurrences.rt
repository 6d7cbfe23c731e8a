//! Whether a text occurs in a value, by the Two-Way search of Crochemore and Perrin: in time that
//! grows as both lengths, and without memory.
ghost use Rattle.std.specs.Prelude.{◌≡◌, ◌≢◌, ◌↔◌, ◌+◌, ◌<◌, ◌≤◌, ℕ, length, IsTrue};
ghost use Rattle.memchr.specs.Critical.{IsSuffixAt, IsCutPlace};
ghost use Rattle.css_selector_text.specs.AttributeTests.{occurs_in};
ghost use Rattle.css_selectors.specs.internal.Occurrences.{folded as folded_byte, folded_at, IsBefore, IsCut};

/// A suffix of a text.
#[derive(Clone, Copy, Debug)]
struct Suffix {
    /// Where it begins.
    place: usize,
    /// Its least period.
    period: usize,
}

/// Where a search cuts a text, and how far it moves after a mismatch before the cut.
#[derive(Clone, Copy, Debug)]
struct Cut {
    /// The place of the cut.
    place: usize,
    /// How far the search moves.
    shift: usize,
}

/// Returns the byte at an index, as a lower-case letter if case is ignored.
#[inline(always)]
fn folded_at(ignores_case: bool, bytes: &[u8], index: usize) -> u8
    requires { index < length bytes.now }
    ensures { result ≡ folded_at ignores_case bytes.now index }
{
    let byte = bytes[index];
    if ignores_case {
        byte.to_ascii_lowercase()
    } else {
        byte
    }
}

/// Whether one byte is before the other, or after it in the reverse order.
#[inline(always)]
fn is_before(reverse: bool, one: u8, other: u8) -> bool
    ensures { IsTrue result ↔ IsBefore reverse one other }
{
    if reverse { other < one } else { one < other }
}

/// Returns the greatest suffix of a text by an order of bytes.
fn greatest_suffix(ignores_case: bool, reverse: bool, text: &[u8]) -> Suffix
    requires { 0 < length text.now }
    ensures { IsSuffixAt (IsBefore reverse) (folded_at ignores_case text.now) (length text.now)
        result.place result.period }
{
    let (mut place, mut period) = (0, 1);
    let (mut candidate, mut offset) = (1, 0);
    while candidate + offset < text.len() {
        let own = folded_at(ignores_case, text, place + offset);
        let other = folded_at(ignores_case, text, candidate + offset);
        if is_before(reverse, own, other) {
            place = candidate;
            period = 1;
            candidate += 1;
            offset = 0;
        } else if is_before(reverse, other, own) {
            candidate += offset + 1;
            offset = 0;
            period = candidate - place;
        } else if offset + 1 == period {
            candidate += period;
            offset = 0;
        } else {
            offset += 1;
        }
    }
    Suffix { place, period }
}

/// Whether the bytes before a place are those a period after them.
fn repeats(ignores_case: bool, text: &[u8], place: usize, period: usize) -> bool
    requires { place + period ≤ length text.now }
    ensures { IsTrue result ↔ ((k : ℕ) → k < place → folded_at ignores_case text.now k
        ≡ folded_at ignores_case text.now (k + period)) }
{
    for k in 0..place {
        if folded_at(ignores_case, text, k) != folded_at(ignores_case, text, k + period) {
            return false;
        }
    }
    true
}

/// Returns the cut at the place of a suffix.
fn cut_at(ignores_case: bool, text: &[u8], suffix: Suffix) -> Cut
    requires { IsCutPlace (folded_at ignores_case text.now) (length text.now) suffix.place
        suffix.period }
    ensures { IsCut (folded_at ignores_case text.now) (length text.now) result.place result.shift }
{
    let Suffix { place, period } = suffix;
    let is_long = place * 2 >= text.len() || !repeats(ignores_case, text, place, period);
    let shift = if is_long {
        place.max(text.len() - place)
    } else {
        period
    };
    Cut { place, shift }
}

/// Returns the cut of a text: at the later of its greatest suffixes by the two orders.
fn cut_of(ignores_case: bool, text: &[u8]) -> Cut
    requires { 0 < length text.now }
    ensures { IsCut (folded_at ignores_case text.now) (length text.now) result.place result.shift }
{
    let one = greatest_suffix(ignores_case, false, text);
    let other = greatest_suffix(ignores_case, true, text);
    let later = if one.place < other.place { other } else { one };
    cut_at(ignores_case, text, later)
}

/// Returns up to where the text, from this place of it on, stands in the value at an index.
#[inline(always)]
fn same_until(ignores_case: bool, text: &[u8], value: &[u8], index: usize, from: usize) -> usize
    requires fits { index + length text.now ≤ length value.now }
    requires from { from ≤ length text.now }
    ensures low { from ≤ result }
    ensures high { result ≤ length text.now }
    ensures same { (k : ℕ) → from ≤ k → k < result → folded_at ignores_case text.now k
        ≡ folded_at ignores_case value.now (index + k) }
    ensures differs { result < length text.now → folded_at ignores_case text.now result
        ≢ folded_at ignores_case value.now (index + result) }
{
    let mut to = from;
    while to < text.len()
        && folded_at(ignores_case, text, to) == folded_at(ignores_case, value, index + to)
    {
        to += 1;
    }
    to
}

/// Whether the text up to this place of it stands in the value at an index.
#[inline(always)]
fn is_same_before(ignores_case: bool, text: &[u8], value: &[u8], index: usize, to: usize) -> bool
    requires fits { index + length text.now ≤ length value.now }
    requires to { to ≤ length text.now }
    ensures { IsTrue result ↔ ((k : ℕ) → k < to → folded_at ignores_case text.now k
        ≡ folded_at ignores_case value.now (index + k)) }
{
    for k in 0..to {
        if folded_at(ignores_case, text, k) != folded_at(ignores_case, value, index + k) {
            return false;
        }
    }
    true
}

/// Whether the text, which is not empty, occurs in the value.
pub(crate) fn has_occurrence(ignores_case: bool, text: &[u8], value: &[u8]) -> bool
    requires { 0 < length text.now }
    ensures { result ≡ occurs_in ignores_case text.now value.now }
{
    let cut = cut_of(ignores_case, text);
    let mut index = 0;
    while index + text.len() <= value.len() {
        let to = same_until(ignores_case, text, value, index, cut.place);
        if to < text.len() {
            index += to - cut.place + 1;
        } else if is_same_before(ignores_case, text, value, index, cut.place) {
            return true;
        } else {
            index += cut.shift;
        }
    }
    false
}
