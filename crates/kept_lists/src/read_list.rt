//! The selectors of a list, and questions on them.

ghost use Rattle.std.specs.Prelude.{◌≡◌, None, Some, is_none, map, MatchResult};
ghost use Rattle.css_text.specs.ThisEdition.{this_edition};
ghost use Rattle.css_selector_text.specs.reading.ReadViews.{placed_of};
ghost use Rattle.css_selector_text.specs.reading.Supported.{first_unsupported};
ghost use Rattle.simplecss_selector.specs.SelectorLists.{list_of};
ghost use Rattle.kept_lists.specs.Lists.{IsNoList, listed_in, list_made_of, made_of, selectors_in};
ghost use Rattle.kept_lists.specs.declared.read_list.ListError.TheVariants.{Memory, Refused};

use css_selector_text::{Listed, Why};
use simplecss_selector::Selector as PortSelector;
use std::alloc::{AllocError, Global};

/// By which grammar a list is read.
#[derive(Clone, Copy, Debug, PartialEq)]
pub enum ListGrammar {
    /// That of modern CSS.
    Modern,
    /// That of the port: CSS 2.1.
    Port,
}

/// Why there is no list.
#[derive(Clone, Copy, Debug, PartialEq)]
pub enum ListError {
    /// The text is no list of supported selectors.
    Refused,
    /// An allocation failed.
    Memory,
}

/// The selectors of a list, which borrow its text.
#[derive(Drop)]
pub enum ReadList<'a> {
    /// Modern ones, each with where it is.
    Modern(Vec<Listed<'a>>),
    /// Those of the port.
    Port(Vec<PortSelector<'a>>),
}

/// A question on a list: on its text and the selectors that were read of it.
pub trait Question {
    /// The answer to it.
    type Answer;

    ghost use Rattle.std.specs.Prelude.{ℕ, List};
    ghost use Rattle.kept_lists.specs.declared.read_list.ReadList.{ReadList};

    ghost is_answer: { Self → List ℕ → ReadList → Self.Answer → Type 0 };

    /// The answer of these selectors of this text.
    fn ask(self, text: &str, list: &ReadList<'_>) -> Self::Answer
        ensures { is_answer self text.now list.now result };
}

impl From<AllocError> for ListError {
    ghost from_gives = { λ _ failure. failure ≡ Memory };

    fn from(_error: AllocError) -> ListError {
        ListError::Memory
    }
}

/// Whether all selectors of a list are supported.
fn are_supported(all: &[Listed<'_>]) -> bool
    ensures { result ≡ is_none (first_unsupported (map placed_of all.now)) }
{
    let mut left = all;
    'selectors: while let [listed, others @ ..] = left {
        if !listed.selector.is_supported() {
            return false;
        }
        left = others;
    }
    true
}

/// The modern selectors of a list, if all are supported.
pub fn read_modern<'a>(alloc: Global, text: &'a str) -> Result<Vec<Listed<'a>>, ListError>
    ensures { MatchResult result (λ all. listed_in text.now ≡ Some (map placed_of all.items))
        (λ error. error ≡ Refused → listed_in text.now ≡ None) }
{
    match css_selector_text::Selector::read_list(alloc, text) {
        Ok(all) => {
            if are_supported(&all) {
                Ok(all)
            } else {
                Err(ListError::Refused)
            }
        }
        Err(refusal) => match refusal.why {
            Why::Memory => Err(ListError::Memory),
            _ => Err(ListError::Refused),
        },
    }
}

/// The selectors of a list by a grammar.
pub fn read_list<'a>(
    alloc: Global,
    grammar: ListGrammar,
    text: &'a str,
) -> Result<ReadList<'a>, ListError>
    ensures { let source = made_of grammar text.now in
        MatchResult result (λ list. list_made_of source ≡ Some (selectors_in list)) (IsNoList source) }
{
    match grammar {
        ListGrammar::Modern => Ok(ReadList::Modern(read_modern(alloc, text)?)),
        ListGrammar::Port => match PortSelector::read_list(alloc, text)? {
            Ok(all) => Ok(ReadList::Port(all)),
            Err(_) => Err(ListError::Refused),
        },
    }
}
