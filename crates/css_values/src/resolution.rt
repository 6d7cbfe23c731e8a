//! The computed values of the properties of an element.
ghost use Rattle.std.specs.Prelude.{◌≡◌, ◌<◌, ◌≤◌, ◌+◌, ◌++◌, ◌∷◌, ℕ, List, [], true, false, IfOk, OnOk, Option, Some, None, length, map, option_map, get_or, set};
ghost use Rattle.css_values.specs.Resolution.{Resolved, property_at};
ghost use Rattle.css_values.specs.Resolution.{kept as kept_of, value_instead as value_instead_of};
ghost use Rattle.css_values.specs.Views.{borrowed_value, draft_of, meanings_of, property_of, stage_from, stage_of, value_of};
ghost use Rattle.css_values.specs.declared.drafts.Value.{Value as StoredValue};
ghost use Rattle.css_values.specs.declared.table.Slot.TheVariants.{Computed, Open, Unread};
ghost use Rattle.css_values.specs.internal.Readings.{IsUnknown};
ghost use Rattle.css_values.specs.internal.Paths.{AreWithin, Cleared, Ends, EndsCurrent, GoesOn, Grows, HasLast, IsPath, Resolving, Waits};
ghost use Rattle.css_values.specs.internal.Paths.{circle_of, circles_of, hidden_from as hidden_from_of, is_open as is_open_of};
ghost use Rattle.css_values.specs.internal.Paths.{is_unread as is_unread_of, open_place as open_place_of, slot_at, unread, unread_circle, with_last};

use crate::circles::{Circle, merged, push_last, take_last};
use crate::drafts::{Draft, Value};
use crate::readings::Reading;
use crate::registering::is_keyword;
use crate::table::{Declared, Meanings, Seen, Slot, Table, is_custom_name};
use css_syntax::decode;
use std::alloc::{AllocError, Global};

/// Returns the same value once more, if there is one.
pub(crate) fn copied(alloc: Global, value: Option<&Value>) -> Result<Option<Value>, AllocError>
    ensures { IfOk result (λ copy. borrowed_value value.entry ≡ option_map value_of copy) }
{
    let Some(value) = value else {
        return Ok(None);
    };
    Ok(Some(Value {
        text: value.text.to_string(alloc)?,
        last: value.last,
        replaced: value.replaced,
    }))
}

/// Returns what stands for a value, if it is one of the keywords.
fn value_instead(
    alloc: Global,
    instead: Meanings<'_>,
    value: Value,
) -> Result<Option<Value>, AllocError>
    ensures { IfOk result (λ found. value_instead_of (meanings_of instead.entry) (value_of value)
        ≡ option_map value_of found) }
{
    if is_keyword("initial", &value.text) {
        return copied(alloc, instead.initial);
    }
    if is_keyword("inherit", &value.text) {
        return copied(alloc, instead.inherited);
    }
    if is_keyword("unset", &value.text) {
        return copied(alloc, instead.unset);
    }
    Ok(Some(value))
}

/// Returns the computed value of a property, by what its value comes to.
fn kept(alloc: Global, property: Declared<'_>, draft: Draft) -> Result<Option<Value>, AllocError>
    ensures { IfOk result (λ value. kept_of (property_of property.entry) (draft_of draft)
        ≡ option_map value_of value) }
{
    if !draft.valid {
        return Ok(None);
    }
    let decoded = decode(alloc, property.name)?;
    if is_custom_name(decoded.as_bytes()) {
        value_instead(alloc, property.instead, draft.value)
    } else {
        Ok(Some(draft.value))
    }
}

/// Returns at which place the property of this number was begun, if its value is being read.
fn open_place(slots: &[Slot], number: usize) -> Option<usize>
    ensures { result ≡ open_place_of (slot_at slots.now number) }
{
    match slots.get(number) {
        Some(Slot::Open(place)) => Some(*place),
        _ => None,
    }
}

/// Makes this the computed value of the property of this number.
fn settle(slots: &mut [Slot], number: usize, value: Option<Value>)
    requires { number < length slots.old }
    ensures { slots.new ≡ set slots.old number (Computed value) }
{
    slots[number] = Slot::Computed(value);
}

/// Makes properties invalid.
fn clear(slots: &mut [Slot], numbers: &[usize])
    requires { AreWithin (length slots.old) numbers.now }
    ensures { Cleared slots.old numbers.now slots.new }
{
    let mut index = 0;
    'members: while index < numbers.len() {
        settle(slots, numbers[index], None);
        index += 1;
    }
}

/// The properties that are being read.
#[derive(Drop)]
struct Path<'a> {
    /// Circles of them, of which each waits for the next.
    circles: Vec<Circle<'a>>,
    /// How many properties were begun.
    begun: usize,
}

/// Begins to read the value of the property of this number.
fn open<'a>(
    alloc: Global,
    table: &Table<'a>,
    slots: &mut [Slot],
    begun: &mut usize,
    number: usize,
) -> Circle<'a>
    requires within { number < length slots.old }
    requires room { begun.old < length slots.old }
    ensures slots { slots.new ≡ set slots.old number (Open begun.old) }
    ensures begun { begun.new ≡ begun.old + 1 }
    ensures circle { circle_of result ≡ unread_circle table.now begun.old number }
{
    let start = *begun;
    slots[number] = Slot::Open(start);
    if start < slots.len() {
        *begun = start + 1;
    }
    Circle {
        start,
        closed: false,
        current: Reading::new(alloc, number, table.property(number).text),
        others: Vec::new(alloc),
        ended: Vec::new(alloc),
    }
}

/// Ends the value of a property that is in no circle. Returns what is read next, if there is anything.
fn end_value<'a>(
    alloc: Global,
    table: &Table<'_>,
    slots: &mut [Slot],
    path: &mut Path<'a>,
    last: Reading<'_>,
) -> Result<Option<Circle<'a>>, AllocError>
    requires within { last.number < length slots.old }
    ensures settled { IfOk result (λ next. (value : Option StoredValue)
        × (slots.new ≡ set slots.old last.entry.number (Computed value))
        × (kept_of (property_at table.now last.entry.number) (draft_of last.entry.draft) ≡ option_map value_of value)) }
    ensures begun { IfOk result (λ next. path.new.begun ≡ path.old.begun) }
    ensures parts { IfOk result (λ next. circles_of path.old.circles.items
        ≡ with_last (option_map circle_of next) (circles_of path.new.circles.items)) }
    ensures ends { IfOk result (λ next. HasLast (circles_of path.new.circles.items) (option_map circle_of next)) }
{
    let value = kept(alloc, table.property(last.number), last.draft)?;
    settle(slots, last.number, value);
    Ok(take_last(&mut path.circles))
}

/// Ends the value of the property that is read of a closed circle. Returns what is read next, if there
/// is anything. If no value of the circle is left to read, its properties are invalid.
fn end_member<'a>(
    slots: &mut [Slot],
    path: &mut Path<'a>,
    last: Circle<'a>,
) -> Result<Option<Circle<'a>>, AllocError>
    requires within { AreWithin (length slots.old) (last.ended.items ++ last.current.number ∷ []) }
    ensures begun { IfOk result (λ next. path.new.begun ≡ path.old.begun) }
    ensures ended { IfOk result (λ next. Ends slots.old (circle_of last.entry) (circles_of path.old.circles.items)
        slots.new (option_map circle_of next) (circles_of path.new.circles.items)) }
{
    let mut others = last.others;
    let mut ended = last.ended;
    ended.push(last.current.number)?;
    match others.pop() {
        Some(current) => Ok(Some(Circle {
            start: last.start,
            closed: last.closed,
            current,
            others,
            ended,
        })),
        None => {
            clear(slots, &ended);
            Ok(take_last(&mut path.circles))
        }
    }
}

/// Leaves the last circle of a path for the property of this number, for which it waits. Returns what
/// is read next.
fn wait_for<'a>(
    alloc: Global,
    table: &Table<'a>,
    slots: &mut [Slot],
    path: &mut Path<'a>,
    last: Circle<'a>,
    other: usize,
) -> Result<Circle<'a>, AllocError>
    requires unknown { IsUnknown table.now (stage_from (hidden_from_of (circle_of last) path.old.begun) slots.old) other }
    requires same_length { length slots.old ≡ length table.now }
    requires room { path.old.begun + unread slots.old ≤ length slots.old }
    ensures goes_on { (limit : ℕ)
        → Waits limit table.now slots.old path.old.begun (circle_of last.entry) (circles_of path.old.circles.items) other
        → IfOk result (λ next. GoesOn limit table.now slots.old
        (circle_of last.entry ∷ circles_of path.old.circles.items)
        slots.new path.new.begun (circle_of next ∷ circles_of path.new.circles.items)) }
{
    match open_place(slots, other) {
        Some(place) => {
            let next = merged(&mut path.circles, last, place)?;
            Ok(next)
        }
        None => {
            push_last(&mut path.circles, last)?;
            Ok(open(alloc, table, slots, &mut path.begun, other))
        }
    }
}

/// Returns the place from which the circle hides its properties.
fn hidden_from(circle: &Circle<'_>, begun: usize) -> usize
    ensures { result ≡ hidden_from_of (circle_of circle.now) begun }
{
    if circle.closed { circle.start } else { begun }
}

/// Ends the value of the property that is read of a circle. Returns what is read next, if there is
/// anything.
fn end_current<'a>(
    alloc: Global,
    table: &Table<'_>,
    slots: &mut [Slot],
    path: &mut Path<'a>,
    last: Circle<'a>,
) -> Result<Option<Circle<'a>>, AllocError>
    requires within { AreWithin (length slots.old) (last.ended.items ++ last.current.number ∷ []) }
    ensures goes_on { (limit : ℕ)
        → EndsCurrent limit table.now slots.old path.old.begun (circle_of last.entry) (circles_of path.old.circles.items)
        → IfOk result (λ next. GoesOn limit table.now slots.old
        (circle_of last.entry ∷ circles_of path.old.circles.items)
        slots.new path.new.begun (with_last (option_map circle_of next) (circles_of path.new.circles.items))) }
    ensures ends { IfOk result (λ next. HasLast (circles_of path.new.circles.items) (option_map circle_of next)) }
{
    if last.closed {
        let next = end_member(slots, path, last)?;
        Ok(next)
    } else {
        let below = end_value(alloc, table, slots, path, last.current)?;
        Ok(below)
    }
}

/// Reads on in the last circle of a path. Returns what is read next, if there is anything.
fn advance<'a>(
    alloc: Global,
    limit: usize,
    table: &Table<'a>,
    slots: &mut [Slot],
    path: &mut Path<'a>,
    last: Circle<'a>,
) -> Result<Option<Circle<'a>>, AllocError>
    requires { IsPath limit table.now slots.old path.old.begun (circle_of last ∷ circles_of path.old.circles.items) }
    ensures goes_on { IfOk result (λ next. GoesOn limit table.now slots.old
        (circle_of last.entry ∷ circles_of path.old.circles.items)
        slots.new path.new.begun (with_last (option_map circle_of next) (circles_of path.new.circles.items))) }
    ensures ends { IfOk result (λ next. HasLast (circles_of path.new.circles.items) (option_map circle_of next)) }
{
    let mut last = last;
    let from = hidden_from(&last, path.begun);
    match last
        .current
        .read_on(alloc, limit, table, Seen { slots, from })?
    {
        None => {
            let next = end_current(alloc, table, slots, path, last)?;
            Ok(next)
        }
        Some(other) => {
            let next = wait_for(alloc, table, slots, path, last, other)?;
            Ok(Some(next))
        }
    }
}

/// Returns this many slots, of which nothing is known.
fn unread_slots(alloc: Global, properties: &[Declared<'_>]) -> Result<Vec<Slot>, AllocError>
    ensures { IfOk result (λ slots. slots.items ≡ map (λ p. Unread) properties.now) }
{
    let mut slots = Vec::new(alloc);
    let mut left = properties;
    'properties: while let [_, others @ ..] = left {
        slots.push(Slot::Unread)?;
        left = others;
    }
    Ok(slots)
}

/// Whether nothing is read of the property of this number.
fn is_unread(slots: &[Slot], number: usize) -> bool
    ensures { result ≡ is_unread_of (slot_at slots.now number) }
{
    match slots.get(number) {
        Some(slot) => matches!(slot, Slot::Unread),
        None => true,
    }
}

/// Computes the value of the property of this number, and those that it reads, unless it is computed.
fn compute(
    alloc: Global,
    limit: usize,
    table: &Table<'_>,
    slots: &mut [Slot],
    number: usize,
) -> Result<(), AllocError>
    requires within { number < length table.now }
    requires before { Resolving limit table.now slots.old number }
    ensures { OnOk result (Resolving limit table.now slots.new (number + 1)) }
{
    if !is_unread(slots, number) {
        return Ok(());
    }
    let mut path = Path {
        circles: Vec::new(alloc),
        begun: 0,
    };
    let mut last = Some(open(alloc, table, slots, &mut path.begun, number));
    'path: while let Some(circle) = last {
        last = advance(alloc, limit, table, slots, &mut path, circle)?;
    }
    Ok(())
}

/// Computes the values of the first `wanted` of the properties of a table.
fn compute_first(
    alloc: Global,
    limit: usize,
    table: &Table<'_>,
    slots: &mut [Slot],
    wanted: usize,
) -> Result<(), AllocError>
    requires { Resolving limit table.now slots.old 0 }
    ensures { OnOk result (Resolved limit table.now wanted (stage_of slots.new)) }
{
    let count = wanted.min(slots.len());
    let mut number = 0;
    'numbers: while number < count {
        compute(alloc, limit, table, slots, number)?;
        number += 1;
    }
    Ok(())
}

/// Computes the values of the first `wanted` of an element's properties.
pub(crate) fn computed_slots(
    alloc: Global,
    limit: usize,
    properties: &[Declared<'_>],
    wanted: usize,
) -> Result<Vec<Slot>, AllocError>
    ensures { IfOk result (λ slots. Resolved limit (map property_of properties.now) wanted
        (stage_of slots.items)) }
{
    let table = Table::new(alloc, properties)?;
    let mut slots = unread_slots(alloc, properties)?;
    compute_first(alloc, limit, &table, &mut slots, wanted)?;
    Ok(slots)
}
