//! A text and the selectors that were read of it.

ghost use Rattle.std.specs.Prelude.{◌≡◌, ℕ, Option, None, Some, MatchResult, string_bytes};
ghost use denote.RawPtr.{null_ptr};
ghost use Rattle.handles.specs.Text.{Text};
ghost use Rattle.kept_lists.specs.Kept.{kept_at, list_code};
ghost use Rattle.kept_lists.specs.Visits.{AnswersAs, HoldsList, IsRead, source_of};
ghost use Rattle.kept_lists.specs.Lists.{IsNoList};
ghost use Rattle.kept_lists.specs.declared.read_list.ReadList.{ReadList};
ghost use Rattle.kept_lists.specs.declared.read_list.ListError.TheVariants.{Memory};

use crate::read_list::{ListError, ListGrammar, Question, ReadList, read_list};
use handles::{Parts, Slot};
use std::alloc::{AllocFailed, Global};
use std::marker::Model;
use std::ptr::null_mut;

/// What is done with a text and with the selectors that were read of it.
pub trait Visit {
    /// What comes of it.
    type Answer;

    ghost is_visit: { Self → Text → Option ReadList → Option ReadList → Self.Answer → Type 0 };

    /// Does it.
    fn visit<'a>(
        self,
        text: &'a String,
        list: Slot<ReadList<'a>>,
    ) -> (Slot<ReadList<'a>>, Self::Answer)
        ensures { is_visit self text.now list.entry.value result.0.value result.1 };
}

/// Does what is wanted.
fn step<'a, V: Visit>(
    text: &'a String,
    list: Slot<ReadList<'a>>,
    visit: V,
) -> (Slot<ReadList<'a>>, V::Answer)
    ensures { V.is_visit visit text.now list.entry.value result.0.value result.1 }
{
    visit.visit(text, list)
}

/// A text, and the selectors that were read of it, if they were.
///
/// The selectors borrow the text for a lifetime that begins and ends with the object.
pub struct Kept {
    text: *mut String,
    list: *mut u8,
    alloc: Global,
    pub ghost read_of: { Text },
    pub ghost value: { Option ReadList } by { list_code },
    ghost life: { ℕ },
}

impl Model for Kept {
    ghost also_owns = { λ k. kept_at k.alloc k.read_of k.value k.life k.text k.list };
}

impl Kept {
    /// A text of which nothing was read.
    pub fn of(text: Box<String>) -> Kept
        ensures { (result.read_of ≡ text.value) × (result.value ≡ None) }
    {
        let at = null_mut::<u8>();
        let kept = Kept::of_parts(Parts::of(text), at);
        kept
    }

    fn of_parts(text: Parts<String, Global>, list: *mut u8) -> Kept
        requires { list ≡ null_ptr }
        ensures { (result.read_of ≡ text.value) × (result.value ≡ None) }
    {
        let Parts { ptr, alloc } = text;
        Kept {
            text: ptr,
            list,
            alloc,
        }
    }

    /// Does what is wanted.
    pub fn visit<V: Visit>(self, visit: V) -> (Kept, V::Answer)
        ensures { V.is_visit visit self.read_of self.value result.0.value result.1 × (result.0.read_of ≡ self.read_of) }
    {
        let Kept { text, list, alloc } = self;
        let slot = Slot {
            at: list as *mut ReadList<'_>,
            alloc,
        };
        let (slot, answer) = step(unsafe { &*text }, slot, visit);
        let Slot { at, alloc } = slot;
        let kept = Kept {
            text,
            list: at as *mut u8,
            alloc,
        };
        (kept, answer)
    }

    fn into_parts(self) -> Parts<String, Global>
        ensures { result.value ≡ self.read_of }
    {
        let Kept {
            text,
            list: _,
            alloc,
        } = self;
        Parts { ptr: text, alloc }
    }

    /// Lets the selectors and the text go.
    pub fn close(self, alloc: Global) {
        let (kept, _) = self.visit(Close { alloc });
        drop(kept.into_parts().into_box());
    }
}

/// Reads the text, in place of what was read before.
pub struct Read {
    pub alloc: Global,
    pub grammar: ListGrammar,
}

/// Asks the selectors, where they were read.
pub struct Asked<Q> {
    pub alloc: Global,
    pub question: Q,
}

/// Lets the selectors go.
struct Close {
    alloc: Global,
}

impl<T: Drop> From<AllocFailed<T>> for ListError {
    ghost from_gives = { λ _ failure. failure ≡ Memory };

    fn from(_error: AllocFailed<T>) -> ListError {
        ListError::Memory
    }
}

/// The selectors of the text, on the heap.
fn read_box<'a>(
    alloc: Global,
    grammar: ListGrammar,
    text: &'a String,
) -> Result<Box<ReadList<'a>>, ListError>
    ensures { let source = source_of grammar text.now in
        MatchResult result (λ whole. HoldsList source (Some whole.value)) (IsNoList source) }
{
    let list = read_list(alloc, grammar, text.as_str())?;
    Ok(Box::new(alloc, list)?)
}

impl Visit for Read {
    type Answer = Result<(), ListError>;

    ghost is_visit = { λ read text before after answer. IsRead (source_of read.grammar text) after answer };

    fn visit<'a>(
        self,
        text: &'a String,
        list: Slot<ReadList<'a>>,
    ) -> (Slot<ReadList<'a>>, Result<(), ListError>) {
        let Read { alloc, grammar } = self;
        drop(list.into_box());
        match read_box(alloc, grammar, text) {
            Ok(list) => (Slot::of(list), Ok(())),
            Err(error) => (Slot::none(alloc), Err(error)),
        }
    }
}

impl<Q: Question + Drop> Visit for Asked<Q> {
    type Answer = Option<Q::Answer>;

    ghost is_visit = { λ asked text before after answer. (after ≡ before)
        × AnswersAs (Q.is_answer asked.question (string_bytes text)) before answer };

    fn visit<'a>(
        self,
        text: &'a String,
        list: Slot<ReadList<'a>>,
    ) -> (Slot<ReadList<'a>>, Option<Q::Answer>) {
        let Asked { alloc, question } = self;
        match list.into_box() {
            Some(list) => {
                let answer = question.ask(text.as_str(), &list);
                (Slot::of(list), Some(answer))
            }
            None => (Slot::none(alloc), None),
        }
    }
}

impl Visit for Close {
    type Answer = ();

    ghost is_visit = { λ close text before after answer. after ≡ None };

    fn visit<'a>(self, text: &'a String, list: Slot<ReadList<'a>>) -> (Slot<ReadList<'a>>, ()) {
        let Close { alloc } = self;
        drop(list.into_box());
        (Slot::none(alloc), ())
    }
}
