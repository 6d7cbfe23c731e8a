//! Pages that the library keeps.

ghost use Rattle.std.specs.Prelude.{◌≡◌, None};
ghost use Rattle.call_answers.specs.Calls.{passed_of};
ghost use Rattle.kept_pages.specs.PageCalls.{AnswersOfPage, IsMade};
ghost use Rattle.kept_pages.specs.Pages.{question};
ghost use Rattle.simplecss_calls.specs.Grammars.{document_kind_of, grammar_of};

use call_answers::answer::TreeFault;
use call_answers::elements::PassedTree;
use kept_pages::{PageHandle, Selection, calls};
use page_calls::modern::ElementRange;
use simplecss_calls::grammar::document_kind;
use std::alloc::Global;

/// Keeps a copy of a tree, made ready to be asked. What the handle had before is let go.
#[unsafe(no_mangle)]
pub extern "C" fn simplecss_page_new(
    alloc: Global,
    tree: &PassedTree<'_>,
    grammar: usize,
    out: &mut PageHandle,
    fault: &mut TreeFault,
) -> u32
    ensures { IsMade (document_kind_of (grammar_of grammar)) (passed_of tree.now) result out.new.value
        fault.old fault.new }
{
    calls::page_new(alloc, *tree, document_kind(grammar), out, fault)
}

/// Writes the number of each element of a range of a page that one of the selectors of a list matches.
#[unsafe(no_mangle)]
pub extern "C" fn simplecss_page_select(
    alloc: Global,
    page: &mut PageHandle,
    selectors: &[u8],
    scope: usize,
    from: usize,
    to: usize,
    most: usize,
    out: &mut [usize],
    len: &mut usize,
) -> u32
    ensures answer { AnswersOfPage (question selectors.now scope from to most) page.old.value
        result out.old out.new len.new }
    ensures kept { page.new.value ≡ page.old.value }
{
    let range = ElementRange { from, to };
    let asked = Selection {
        selectors,
        scope,
        range,
        most,
    };
    calls::page_select(alloc, page, asked, out, len)
}

/// Lets a page go, where the handle has one.
#[unsafe(no_mangle)]
pub extern "C" fn simplecss_page_free(alloc: Global, page: &mut PageHandle)
    ensures { page.new.value ≡ None }
{
    calls::page_free(alloc, page)
}
