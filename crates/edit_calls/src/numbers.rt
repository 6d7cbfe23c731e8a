//! Edits from numbers and strings.

use html_edits::edits::{Change, Edit, NewValue};
use std::alloc::{AllocError, Global};

/// How many numbers an edit has.
const WIDTH: usize = 3;

/// What the numbers of an edit stand for.
#[derive(Clone, Copy)]
struct Row {
    kind: usize,
    place: usize,
    end: usize,
}

/// The numbers of edits, and their strings.
#[derive(Clone, Copy)]
pub(crate) struct Numbers<'a> {
    /// Three of each edit: its kind, its tag or its place, and where what it replaces ends.
    pub(crate) rows: &'a [usize],
    /// Two strings of each edit, one after another: a name, and a value or a text.
    pub(crate) strings: &'a [u8],
    /// Where each string ends.
    pub(crate) ends: &'a [usize],
    /// How many bytes come before the page.
    pub(crate) start: usize,
}

impl<'a> Numbers<'a> {
    /// Returns the number of edits.
    fn count(&self) -> usize {
        self.rows.len() / WIDTH
    }

    /// Returns the numbers of an edit, if it is there.
    fn row(&self, index: usize) -> Option<Row> {
        let at = index.checked_mul(WIDTH)?;
        match self.rows.get(at..) {
            Some([kind, place, end, ..]) => Some(Row {
                kind: *kind,
                place: *place,
                end: *end,
            }),
            _ => None,
        }
    }

    /// Returns a string, if it is there.
    fn string(&self, index: usize) -> Option<&'a [u8]> {
        let start = match index.checked_sub(1) {
            Some(last) => *self.ends.get(last)?,
            None => 0,
        };
        let end = *self.ends.get(index)?;
        self.strings.get(start..end)
    }

    /// Returns the name of an edit.
    fn name(&self, index: usize) -> Option<&'a [u8]> {
        self.string(index.checked_mul(2)?)
    }

    /// Returns the value or the text of an edit.
    fn text(&self, index: usize) -> Option<&'a [u8]> {
        self.string(index.checked_mul(2)?.checked_add(1)?)
    }

    /// Returns the change of an attribute that an edit is, if it is one.
    fn change(&self, index: usize) -> Option<Change<'a>> {
        let value = self.text(index)?;
        let value = match self.row(index)?.kind {
            1 => NewValue::Set(value),
            2 => NewValue::Before(value),
            3 => NewValue::Removed,
            _ => return None,
        };
        Some(Change {
            name: self.name(index)?,
            value,
        })
    }

    /// Returns the changes of attributes among the edits.
    pub(crate) fn changes(&self, alloc: Global) -> Result<Vec<Change<'a>>, AllocError> {
        let mut found = Vec::new(alloc);
        for index in 0..self.count() {
            if let Some(change) = self.change(index) {
                found.push(change)?;
            }
        }
        Ok(found)
    }

    /// Returns an edit that changes no attribute, if it is one.
    fn edit(&self, index: usize) -> Option<Edit<'a>> {
        let row = self.row(index)?;
        let place = row.place.saturating_sub(self.start);
        let end = row.end.saturating_sub(self.start);
        let text = self.text(index)?;
        match row.kind {
            4 => Some(Edit::Text(row.place, end, text)),
            5 => Some(Edit::PutIn(place, self.name(index)?, text)),
            6 => Some(Edit::TakeOut(row.place, end)),
            7 => Some(Edit::Replace(row.place, end, text)),
            8 => Some(Edit::TakeOutInstruction(place, end)),
            _ => None,
        }
    }

    /// Returns how many edits from one on change attributes of the same tag, or 0 if that one does not.
    fn run_from(&self, index: usize) -> usize {
        let Some(first) = self.row(index) else {
            return 0;
        };
        let mut count: usize = 0;
        for at in index..self.count() {
            match self.row(at) {
                Some(row) if matches!(row.kind, 1..=3) && row.place == first.place => {
                    count = count.saturating_add(1);
                }
                _ => break,
            }
        }
        count
    }

    /// Returns the edits, with these changes of attributes among them, if all are edits.
    pub(crate) fn edits<'c>(
        &self,
        alloc: Global,
        changes: &'c [Change<'c>],
    ) -> Result<Option<Vec<Edit<'c>>>, AllocError>
    where
        'a: 'c,
    {
        let mut found = Vec::new(alloc);
        let (mut at, mut from): (usize, usize) = (0, 0);
        for _ in 0..self.count() {
            let run = self.run_from(at);
            let edit = match self.row(at) {
                Some(row) if run > 0 => tag_edit(row.place, changes, from, run),
                Some(_) => self.edit(at),
                None => break,
            };
            let Some(edit) = edit else {
                return Ok(None);
            };
            found.push(edit)?;
            from = from.saturating_add(run);
            at = at.saturating_add(run.max(1));
        }
        Ok(Some(found))
    }
}

/// Returns the edit that changes the attributes of a tag, by so many of these changes.
fn tag_edit<'c>(
    tag: usize,
    changes: &'c [Change<'c>],
    from: usize,
    count: usize,
) -> Option<Edit<'c>> {
    let these = changes.get(from..from.saturating_add(count))?;
    Some(Edit::Tag(tag, these))
}
