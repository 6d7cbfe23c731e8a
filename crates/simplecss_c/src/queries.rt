//! Queries that the library keeps.

ghost use Rattle.std.specs.Prelude.{◌≡◌, None};
ghost use Rattle.kept_queries.specs.Queries.{AreTextsAsked};
ghost use Rattle.kept_queries.specs.QueryCalls.{AnswersInNumbers, AnswersOfQuery, IsMade};
ghost use Rattle.simplecss_c.specs.QueryNumbers.{numbers_asked as numbers_asked_of, source_passed};

use call_answers::answer::TreeFault;
use call_answers::elements::PassedTree;
use kept_queries::{ElementNumbers, NumbersAsked, PassedQuery, QueryHandle, calls};
use page_calls::modern::ElementRange;
use simplecss_calls::contents::{AskedNames, ElementContent, OwnTexts};
use simplecss_calls::grammar::document_kind;
use simplecss_calls::winners::Sheets;
use std::alloc::Global;

/// What is asked by a number, of the elements from an index up to another.
fn numbers_asked<'q>(
    asked: usize,
    names: AskedNames<'q>,
    range: ElementRange,
    most: usize,
) -> Option<NumbersAsked<'q>>
    ensures { result ≡ numbers_asked_of asked names.entry range most }
{
    let content = match asked {
        0 => ElementContent::Winners,
        1 => ElementContent::Named(names),
        2 => ElementContent::Matches,
        3 => ElementContent::Explained(names),
        4 => return Some(NumbersAsked::Rules),
        _ => return None,
    };
    Some(NumbersAsked::Elements(ElementNumbers {
        content,
        range,
        most,
    }))
}

/// Keeps a copy of a tree, of style sheets and of elements' own declarations, made ready to be asked. What the handle
/// had before is let go.
#[unsafe(no_mangle)]
pub extern "C" fn simplecss_query_new(
    alloc: Global,
    tree: &PassedTree<'_>,
    grammar: usize,
    sheets: &Sheets<'_>,
    limit: usize,
    own: &OwnTexts<'_>,
    out: &mut QueryHandle,
    fault: &mut TreeFault,
) -> u32
    ensures { IsMade (source_passed tree.now grammar sheets.now limit own.now) result out.new.value
        fault.old fault.new }
{
    let passed = match document_kind(grammar) {
        Some(kind) => Some(PassedQuery {
            kind,
            tree: *tree,
            sheets: *sheets,
            limit,
            own: *own,
        }),
        None => None,
    };
    calls::query_new(alloc, passed, out, fault)
}

/// Writes what is asked of the elements of a range: how many declarations win on each, and two numbers for each of
/// these, of where it is, by its rule in the order of the cascade, and of its place there; or the two numbers for each
/// property that is asked for; or how many rules match it, and the number of each; or how many declarations apply to it,
/// the strongest first, and three numbers of each, of which the third says by what it loses to the one before it. Or
/// writes the numbers of the rules.
#[unsafe(no_mangle)]
pub extern "C" fn simplecss_query_numbers(
    alloc: Global,
    query: &mut QueryHandle,
    asked: usize,
    names: &AskedNames<'_>,
    from: usize,
    to: usize,
    most: usize,
    out: &mut [usize],
    len: &mut usize,
) -> u32
    ensures answer { AnswersInNumbers (numbers_asked_of asked names.now (record { from = from; to = to }) most)
        query.old.value result out.old out.new len.new }
    ensures kept { query.new.value ≡ query.old.value }
{
    let range = ElementRange { from, to };
    let question = numbers_asked(asked, *names, range, most);
    calls::query_numbers(alloc, query, question, out, len)
}

/// Writes the texts of the selectors of the rules of a query, in the order of the cascade, one after another.
#[unsafe(no_mangle)]
pub extern "C" fn simplecss_query_text(
    alloc: Global,
    query: &mut QueryHandle,
    most: usize,
    out: &mut [u8],
    len: &mut usize,
) -> u32
    ensures answer { AnswersOfQuery (AreTextsAsked most) query.old.value result out.old out.new len.new }
    ensures kept { query.new.value ≡ query.old.value }
{
    calls::query_text(alloc, query, most, out, len)
}

/// Lets a query go, where the handle has one.
#[unsafe(no_mangle)]
pub extern "C" fn simplecss_query_free(alloc: Global, query: &mut QueryHandle)
    ensures { query.new.value ≡ None }
{
    calls::query_free(alloc, query)
}
