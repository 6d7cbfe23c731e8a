//! A copy of a tree and the page that was read of it.

ghost use Rattle.std.specs.Prelude.{◌≡◌, ℕ, Option, None, Some, MatchResult};
ghost use denote.RawPtr.{null_ptr};
ghost use Rattle.call_answers.specs.Outcomes.{numbers_outcome};
ghost use Rattle.kept_pages.specs.Kept.{kept_at, page_code};
ghost use Rattle.kept_pages.specs.Pages.{PageText, IsNoPage, question_of};
ghost use Rattle.kept_pages.specs.Sources.{made_of};
ghost use Rattle.kept_pages.specs.Visits.{AnswersAs, HoldsPage, IsRead};
ghost use Rattle.kept_pages.specs.declared.arrays.PageArrays.{PageArrays};

use crate::arrays::PageArrays;
use crate::read_page::{ReadPage, Selection};
use call_answers::answer::CallError;
use handles::{Parts, Slot};
use page_calls::modern::DocumentKind;
use std::alloc::Global;
use std::marker::Model;
use std::ptr::null_mut;

/// What is done with a copy of a tree and with the page that was read of it.
pub trait Visit {
    /// What comes of it.
    type Answer;

    ghost is_visit: { Self → PageArrays → Option PageText → Option PageText → Self.Answer → Type 0 };

    /// Does it.
    fn visit<'a>(
        self,
        arrays: &'a PageArrays,
        page: Slot<ReadPage<'a>>,
    ) -> (Slot<ReadPage<'a>>, Self::Answer)
        ensures { is_visit self arrays.now page.entry.value result.0.value result.1 };
}

/// Does what is wanted.
fn step<'a, V: Visit>(
    arrays: &'a PageArrays,
    page: Slot<ReadPage<'a>>,
    visit: V,
) -> (Slot<ReadPage<'a>>, V::Answer)
    ensures { V.is_visit visit arrays.now page.entry.value result.0.value result.1 }
{
    visit.visit(arrays, page)
}

/// A copy of a tree, and the page that was read of it, if it was.
///
/// The page borrows the copy for a lifetime that begins and ends with the object.
pub struct Kept {
    arrays: *mut PageArrays,
    page: *mut u8,
    alloc: Global,
    pub ghost read_of: { PageArrays },
    pub ghost value: { Option PageText } by { page_code },
    ghost life: { ℕ },
}

impl Model for Kept {
    ghost also_owns = { λ k. kept_at k.alloc k.read_of k.value k.life k.arrays k.page };
}

impl Kept {
    /// A copy of which nothing was read.
    pub fn of(arrays: Box<PageArrays>) -> Kept
        ensures { (result.read_of ≡ arrays.value) × (result.value ≡ None) }
    {
        let at = null_mut::<u8>();
        let kept = Kept::of_parts(Parts::of(arrays), at);
        kept
    }

    fn of_parts(arrays: Parts<PageArrays, Global>, page: *mut u8) -> Kept
        requires { page ≡ null_ptr }
        ensures { (result.read_of ≡ arrays.value) × (result.value ≡ None) }
    {
        let Parts { ptr, alloc } = arrays;
        Kept {
            arrays: ptr,
            page,
            alloc,
        }
    }

    /// Does what is wanted.
    pub fn visit<V: Visit>(self, visit: V) -> (Kept, V::Answer)
        ensures { V.is_visit visit self.read_of self.value result.0.value result.1 × (result.0.read_of ≡ self.read_of) }
    {
        let Kept {
            arrays,
            page,
            alloc,
        } = self;
        let slot = Slot {
            at: page as *mut ReadPage<'_>,
            alloc,
        };
        let (slot, answer) = step(unsafe { &*arrays }, slot, visit);
        let Slot { at, alloc } = slot;
        let kept = Kept {
            arrays,
            page: at as *mut u8,
            alloc,
        };
        (kept, answer)
    }

    fn into_parts(self) -> Parts<PageArrays, Global>
        ensures { result.value ≡ self.read_of }
    {
        let Kept {
            arrays,
            page: _,
            alloc,
        } = self;
        Parts { ptr: arrays, alloc }
    }

    /// Lets the page and the copy go.
    pub fn close(self, alloc: Global) {
        let (kept, _) = self.visit(Close { alloc });
        drop(kept.into_parts().into_box());
    }
}

/// Reads the copy, in place of what was read before.
pub struct Read {
    pub alloc: Global,
    pub kind: DocumentKind,
}

/// Asks the page, where it was read.
pub struct Asked<'q> {
    pub alloc: Global,
    pub asked: Selection<'q>,
}

/// Lets the page go.
struct Close {
    alloc: Global,
}

/// The page of the copy, on the heap.
fn read_box<'a>(
    alloc: Global,
    kind: DocumentKind,
    arrays: &'a PageArrays,
) -> Result<Box<ReadPage<'a>>, CallError>
    ensures { let source = made_of kind arrays.now in
        MatchResult result (λ whole. HoldsPage source (Some whole.value)) (IsNoPage source) }
{
    let page = ReadPage::new(alloc, kind, arrays.passed())?;
    Ok(Box::new(alloc, page)?)
}

impl Visit for Read {
    type Answer = Result<(), CallError>;

    ghost is_visit = { λ read arrays before after answer. IsRead (made_of read.kind arrays) after answer };

    fn visit<'a>(
        self,
        arrays: &'a PageArrays,
        page: Slot<ReadPage<'a>>,
    ) -> (Slot<ReadPage<'a>>, Result<(), CallError>) {
        let Read { alloc, kind } = self;
        drop(page.into_box());
        match read_box(alloc, kind, arrays) {
            Ok(page) => (Slot::of(page), Ok(())),
            Err(error) => (Slot::none(alloc), Err(error)),
        }
    }
}

impl<'q> Visit for Asked<'q> {
    type Answer = Option<Result<Vec<usize>, CallError>>;

    ghost is_visit = { λ visit arrays before after answer. (after ≡ before) × AnswersAs (question_of visit.asked) before answer };

    fn visit<'a>(
        self,
        _arrays: &'a PageArrays,
        page: Slot<ReadPage<'a>>,
    ) -> (Slot<ReadPage<'a>>, Option<Result<Vec<usize>, CallError>>) {
        let Asked { alloc, asked } = self;
        match page.into_box() {
            Some(page) => {
                let mut page = page;
                let answer = page.select(alloc, asked);
                (Slot::of(page), Some(answer))
            }
            None => (Slot::none(alloc), None),
        }
    }
}

impl Visit for Close {
    type Answer = ();

    ghost is_visit = { λ close arrays before after answer. after ≡ None };

    fn visit<'a>(
        self,
        _arrays: &'a PageArrays,
        page: Slot<ReadPage<'a>>,
    ) -> (Slot<ReadPage<'a>>, ()) {
        let Close { alloc } = self;
        drop(page.into_box());
        (Slot::none(alloc), ())
    }
}
