//! Lists behind a pointer.

ghost use Rattle.std.specs.Prelude.{◌≡◌, Option, None, Some, option_map};
ghost use Rattle.kept_lists.specs.Lists.{ListSource};
ghost use Rattle.kept_lists.specs.Visits.{IsAnsweredIfOpen};

use crate::list::KeptList;
use crate::read_list::Question;
use handles::Slot;
use std::alloc::Global;
use std::marker::Model;
use std::mem::replace;

/// A list that is kept, or none, as a caller in C holds it: one pointer, null where there is none. In clauses its
/// value is what the list is made of.
#[repr(C)]
pub struct ListHandle {
    at: *mut u8,
    alloc: Global,
    pub ghost value: { Option ListSource },
}

impl Model for ListHandle {
    ghost use Rattle.kept_lists.specs.Handle.{handle_at};

    ghost also_owns = { λ h. handle_at h.alloc h.value h.at };
}

impl ListHandle {
    /// No list.
    pub fn none(alloc: Global) -> ListHandle
        ensures { result.value ≡ None }
    {
        ListHandle::of_slot(Slot::none(alloc))
    }

    /// The list of a box.
    pub fn of(list: Box<KeptList>) -> ListHandle
        ensures { result.value ≡ Some list.value }
    {
        ListHandle::of_slot(Slot::of(list))
    }

    /// The box again, or none.
    pub fn into_box(self) -> Option<Box<KeptList>>
        ensures { option_map (λ whole. whole.value) result ≡ self.value }
    {
        self.into_slot().into_box()
    }

    /// The answer to a question, or none where there is no list. What the handle has stays.
    pub fn ask<Q: Question + Drop>(&mut self, alloc: Global, question: Q) -> Option<Q::Answer>
        ensures kept { self.new.value ≡ self.old.value }
        ensures answer { IsAnsweredIfOpen (Q.is_answer question) self.old.value result }
    {
        let mut whole = replace(self, ListHandle::none(alloc)).into_box()?;
        let answer = whole.ask(question);
        *self = ListHandle::of(whole);
        Some(answer)
    }

    fn of_slot(slot: Slot<KeptList>) -> ListHandle
        ensures { result.value ≡ slot.value }
    {
        let Slot { at, alloc } = slot;
        ListHandle {
            at: at as *mut u8,
            alloc,
        }
    }

    fn into_slot(self) -> Slot<KeptList>
        ensures { result.value ≡ self.value }
    {
        let ListHandle { at, alloc } = self;
        Slot {
            at: at as *mut KeptList,
            alloc,
        }
    }
}

impl Drop for ListHandle {
    fn drop(self) {
        drop(self.into_box());
    }
}
