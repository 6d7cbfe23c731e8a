//! Pages behind a pointer.

ghost use Rattle.std.specs.Prelude.{◌≡◌, Option, None, Some, option_map};
ghost use Rattle.kept_pages.specs.Pages.{question_of};
ghost use Rattle.kept_pages.specs.Sources.{PageSource};
ghost use Rattle.kept_pages.specs.Visits.{IsSelectedIfOpen};

use crate::page::KeptPage;
use crate::read_page::Selection;
use call_answers::answer::CallError;
use handles::Slot;
use std::alloc::Global;
use std::marker::Model;
use std::mem::replace;

/// A page that is kept, or none, as a caller in C holds it: one pointer, null where there is none. In clauses its
/// value is what the page is made of.
#[repr(C)]
pub struct PageHandle {
    at: *mut u8,
    alloc: Global,
    pub ghost value: { Option PageSource },
}

impl Model for PageHandle {
    ghost use Rattle.kept_pages.specs.Handle.{handle_at};

    ghost also_owns = { λ h. handle_at h.alloc h.value h.at };
}

impl PageHandle {
    /// No page.
    pub fn none(alloc: Global) -> PageHandle
        ensures { result.value ≡ None }
    {
        PageHandle::of_slot(Slot::none(alloc))
    }

    /// The page of a box.
    pub fn of(page: Box<KeptPage>) -> PageHandle
        ensures { result.value ≡ Some page.value }
    {
        PageHandle::of_slot(Slot::of(page))
    }

    /// The box again, or none.
    pub fn into_box(self) -> Option<Box<KeptPage>>
        ensures { option_map (λ whole. whole.value) result ≡ self.value }
    {
        self.into_slot().into_box()
    }

    /// The numbers of the elements that a list of selectors matches, or none where there is no page. What the handle
    /// has stays.
    pub fn select(
        &mut self,
        alloc: Global,
        asked: Selection<'_>,
    ) -> Option<Result<Vec<usize>, CallError>>
        ensures kept { self.new.value ≡ self.old.value }
        ensures answer { IsSelectedIfOpen (question_of asked.entry) self.old.value result }
    {
        let mut whole = replace(self, PageHandle::none(alloc)).into_box()?;
        let answer = whole.select(asked);
        *self = PageHandle::of(whole);
        Some(answer)
    }

    fn of_slot(slot: Slot<KeptPage>) -> PageHandle
        ensures { result.value ≡ slot.value }
    {
        let Slot { at, alloc } = slot;
        PageHandle {
            at: at as *mut u8,
            alloc,
        }
    }

    fn into_slot(self) -> Slot<KeptPage>
        ensures { result.value ≡ self.value }
    {
        let PageHandle { at, alloc } = self;
        Slot {
            at: at as *mut KeptPage,
            alloc,
        }
    }
}

impl Drop for PageHandle {
    fn drop(self) {
        drop(self.into_box());
    }
}
