//! Queries behind a pointer.

ghost use Rattle.std.specs.Prelude.{◌≡◌, Option, None, Some, option_map};
ghost use Rattle.kept_queries.specs.Sources.{QuerySource};
ghost use Rattle.kept_queries.specs.Visits.{IsAnsweredIfOpen};

use crate::query::KeptQuery;
use crate::read_query::Question;
use handles::Slot;
use std::alloc::Global;
use std::marker::Model;
use std::mem::replace;

/// A query that is kept, or none, as a caller in C holds it: one pointer, null where there is none. In clauses its
/// value is what the query is made of.
#[repr(C)]
pub struct QueryHandle {
    at: *mut u8,
    alloc: Global,
    pub ghost value: { Option QuerySource },
}

impl Model for QueryHandle {
    ghost use Rattle.kept_queries.specs.Handle.{handle_at};

    ghost also_owns = { λ h. handle_at h.alloc h.value h.at };
}

impl QueryHandle {
    /// No query.
    pub fn none(alloc: Global) -> QueryHandle
        ensures { result.value ≡ None }
    {
        QueryHandle::of_slot(Slot::none(alloc))
    }

    /// The query of a box.
    pub fn of(query: Box<KeptQuery>) -> QueryHandle
        ensures { result.value ≡ Some query.value }
    {
        QueryHandle::of_slot(Slot::of(query))
    }

    /// The box again, or none.
    pub fn into_box(self) -> Option<Box<KeptQuery>>
        ensures { option_map (λ whole. whole.value) result ≡ self.value }
    {
        self.into_slot().into_box()
    }

    /// The answer to a question, or none where there is no query. What the handle has stays.
    pub fn ask<Q: Question + Drop>(&mut self, alloc: Global, question: Q) -> Option<Q::Answer>
        ensures kept { self.new.value ≡ self.old.value }
        ensures answer { IsAnsweredIfOpen (Q.is_answer question) self.old.value result }
    {
        let mut whole = replace(self, QueryHandle::none(alloc)).into_box()?;
        let answer = whole.ask(question);
        *self = QueryHandle::of(whole);
        Some(answer)
    }

    fn of_slot(slot: Slot<KeptQuery>) -> QueryHandle
        ensures { result.value ≡ slot.value }
    {
        let Slot { at, alloc } = slot;
        QueryHandle {
            at: at as *mut u8,
            alloc,
        }
    }

    fn into_slot(self) -> Slot<KeptQuery>
        ensures { result.value ≡ self.value }
    {
        let QueryHandle { at, alloc } = self;
        Slot {
            at: at as *mut KeptQuery,
            alloc,
        }
    }
}

impl Drop for QueryHandle {
    fn drop(self) {
        drop(self.into_box());
    }
}
