//! Style sheets behind a pointer.

ghost use Rattle.std.specs.Prelude.{◌≡◌, ℕ, List, Option, None, Some, option_map};
ghost use Rattle.kept_sheets.specs.Kept.{IsAnsweredIfOpen};

use crate::sheet::{KeptSheet, Question};
use handles::Slot;
use std::alloc::Global;
use std::marker::Model;
use std::mem::replace;

/// A style sheet that is kept, or none, as a caller in C holds it: one pointer, null where there is none. In clauses its
/// value is the text of the sheet.
#[repr(C)]
pub struct SheetHandle {
    at: *mut u8,
    alloc: Global,
    pub ghost value: { Option (List ℕ) },
}

impl Model for SheetHandle {
    ghost use Rattle.kept_sheets.specs.Handle.{handle_at};

    ghost also_owns = { λ h. handle_at h.alloc h.value h.at };
}

impl SheetHandle {
    /// No sheet.
    pub fn none(alloc: Global) -> SheetHandle
        ensures { result.value ≡ None }
    {
        SheetHandle::of_slot(Slot::none(alloc))
    }

    /// The sheet of a box.
    pub fn of(sheet: Box<KeptSheet>) -> SheetHandle
        ensures { result.value ≡ Some sheet.value }
    {
        SheetHandle::of_slot(Slot::of(sheet))
    }

    /// The box again, or none.
    pub fn into_box(self) -> Option<Box<KeptSheet>>
        ensures { option_map (λ whole. whole.value) result ≡ self.value }
    {
        self.into_slot().into_box()
    }

    /// The answer to a question, or none where there is no sheet. What the handle has stays.
    pub fn ask<Q: Question + Drop>(&mut self, alloc: Global, question: Q) -> Option<Q::Answer>
        ensures kept { self.new.value ≡ self.old.value }
        ensures answer { IsAnsweredIfOpen (Q.is_answer question) self.old.value result }
    {
        let mut whole = replace(self, SheetHandle::none(alloc)).into_box()?;
        let answer = question.ask(alloc, &mut *whole);
        *self = SheetHandle::of(whole);
        Some(answer)
    }

    fn of_slot(slot: Slot<KeptSheet>) -> SheetHandle
        ensures { result.value ≡ slot.value }
    {
        let Slot { at, alloc } = slot;
        SheetHandle {
            at: at as *mut u8,
            alloc,
        }
    }

    fn into_slot(self) -> Slot<KeptSheet>
        ensures { result.value ≡ self.value }
    {
        let SheetHandle { at, alloc } = self;
        Slot {
            at: at as *mut KeptSheet,
            alloc,
        }
    }
}

impl Drop for SheetHandle {
    fn drop(self) {
        drop(self.into_box());
    }
}
