//! A copy of what a query is made of, and the query that was read of it.

ghost use Rattle.std.specs.Prelude.{◌≡◌, ℕ, Option, None, Some, MatchResult};
ghost use denote.RawPtr.{null_ptr};
ghost use Rattle.kept_queries.specs.Kept.{kept_at, query_code};
ghost use Rattle.kept_queries.specs.Queries.{QueryText, IsNoQuery};
ghost use Rattle.kept_queries.specs.Sources.{made_of};
ghost use Rattle.kept_queries.specs.Visits.{AnswersAs, HoldsQuery, IsRead};
ghost use Rattle.kept_queries.specs.declared.arrays.QueryArrays.{QueryArrays};

use crate::arrays::QueryArrays;
use crate::read_query::{Question, ReadQuery};
use call_answers::answer::CallError;
use handles::{Parts, Slot};
use std::alloc::Global;
use std::marker::Model;
use std::ptr::null_mut;

/// What is done with a copy and with the query that was read of it.
pub trait Visit {
    /// What comes of it.
    type Answer;

    ghost is_visit: { Self → QueryArrays → Option QueryText → Option QueryText → Self.Answer → Type 0 };

    /// Does it.
    fn visit<'a>(
        self,
        arrays: &'a QueryArrays,
        query: Slot<ReadQuery<'a>>,
    ) -> (Slot<ReadQuery<'a>>, Self::Answer)
        ensures { is_visit self arrays.now query.entry.value result.0.value result.1 };
}

/// Does what is wanted.
fn step<'a, V: Visit>(
    arrays: &'a QueryArrays,
    query: Slot<ReadQuery<'a>>,
    visit: V,
) -> (Slot<ReadQuery<'a>>, V::Answer)
    ensures { V.is_visit visit arrays.now query.entry.value result.0.value result.1 }
{
    visit.visit(arrays, query)
}

/// A copy of what a query is made of, and the query that was read of it, if it was.
///
/// The query borrows the copy for a lifetime that begins and ends with the object.
pub struct Kept {
    arrays: *mut QueryArrays,
    query: *mut u8,
    alloc: Global,
    pub ghost read_of: { QueryArrays },
    pub ghost value: { Option QueryText } by { query_code },
    ghost life: { ℕ },
}

impl Model for Kept {
    ghost also_owns = { λ k. kept_at k.alloc k.read_of k.value k.life k.arrays k.query };
}

impl Kept {
    /// A copy of which nothing was read.
    pub fn of(arrays: Box<QueryArrays>) -> Kept
        ensures { (result.read_of ≡ arrays.value) × (result.value ≡ None) }
    {
        let at = null_mut::<u8>();
        let kept = Kept::of_parts(Parts::of(arrays), at);
        kept
    }

    fn of_parts(arrays: Parts<QueryArrays, Global>, query: *mut u8) -> Kept
        requires { query ≡ null_ptr }
        ensures { (result.read_of ≡ arrays.value) × (result.value ≡ None) }
    {
        let Parts { ptr, alloc } = arrays;
        Kept {
            arrays: ptr,
            query,
            alloc,
        }
    }

    /// Does what is wanted.
    pub fn visit<V: Visit>(self, visit: V) -> (Kept, V::Answer)
        ensures { V.is_visit visit self.read_of self.value result.0.value result.1 × (result.0.read_of ≡ self.read_of) }
    {
        let Kept {
            arrays,
            query,
            alloc,
        } = self;
        let slot = Slot {
            at: query as *mut ReadQuery<'_>,
            alloc,
        };
        let (slot, answer) = step(unsafe { &*arrays }, slot, visit);
        let Slot { at, alloc } = slot;
        let kept = Kept {
            arrays,
            query: at as *mut u8,
            alloc,
        };
        (kept, answer)
    }

    fn into_parts(self) -> Parts<QueryArrays, Global>
        ensures { result.value ≡ self.read_of }
    {
        let Kept {
            arrays,
            query: _,
            alloc,
        } = self;
        Parts { ptr: arrays, alloc }
    }

    /// Lets the query and the copy go.
    pub fn close(self, alloc: Global) {
        let (kept, _) = self.visit(Close { alloc });
        drop(kept.into_parts().into_box());
    }
}

/// Reads the copy, in place of what was read before.
pub struct Read {
    pub alloc: Global,
}

/// Asks the query, where it was read.
pub struct Asked<Q> {
    pub alloc: Global,
    pub question: Q,
}

/// Lets the query go.
struct Close {
    alloc: Global,
}

/// The query of the copy, on the heap.
fn read_box<'a>(alloc: Global, arrays: &'a QueryArrays) -> Result<Box<ReadQuery<'a>>, CallError>
    ensures { let source = made_of arrays.now in
        MatchResult result (λ whole. HoldsQuery source (Some whole.value)) (IsNoQuery source) }
{
    let query = ReadQuery::new(alloc, arrays.passed())?;
    Ok(Box::new(alloc, query)?)
}

impl Visit for Read {
    type Answer = Result<(), CallError>;

    ghost is_visit = { λ read arrays before after answer. IsRead (made_of arrays) after answer };

    fn visit<'a>(
        self,
        arrays: &'a QueryArrays,
        query: Slot<ReadQuery<'a>>,
    ) -> (Slot<ReadQuery<'a>>, Result<(), CallError>) {
        let Read { alloc } = self;
        drop(query.into_box());
        match read_box(alloc, arrays) {
            Ok(query) => (Slot::of(query), Ok(())),
            Err(error) => (Slot::none(alloc), Err(error)),
        }
    }
}

impl<Q: Question + Drop> Visit for Asked<Q> {
    type Answer = Option<Q::Answer>;

    ghost is_visit = { λ asked arrays before after answer. (after ≡ before)
        × AnswersAs (Q.is_answer asked.question) before answer };

    fn visit<'a>(
        self,
        _arrays: &'a QueryArrays,
        query: Slot<ReadQuery<'a>>,
    ) -> (Slot<ReadQuery<'a>>, Option<Q::Answer>) {
        let Asked { alloc, question } = self;
        match query.into_box() {
            Some(query) => {
                let mut query = query;
                let answer = question.ask(alloc, &mut query);
                (Slot::of(query), Some(answer))
            }
            None => (Slot::none(alloc), None),
        }
    }
}

impl Visit for Close {
    type Answer = ();

    ghost is_visit = { λ close arrays before after answer. after ≡ None };

    fn visit<'a>(
        self,
        _arrays: &'a QueryArrays,
        query: Slot<ReadQuery<'a>>,
    ) -> (Slot<ReadQuery<'a>>, ()) {
        let Close { alloc } = self;
        drop(query.into_box());
        (Slot::none(alloc), ())
    }
}
