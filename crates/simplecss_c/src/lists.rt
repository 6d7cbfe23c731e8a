//! Lists of selectors that the library keeps.

ghost use Rattle.std.specs.Prelude.{◌≡◌, None, option_map};
ghost use Rattle.list_calls.specs.ListCalls.{IsMade, AnswersOfList, AreListNumbers, AreListTexts};
ghost use Rattle.simplecss_calls.specs.Grammars.{grammar_of, list_grammar_of};

use kept_lists::ListHandle;
use list_calls::calls;
use simplecss_calls::grammar::list_grammar;
use std::alloc::Global;

/// Keeps a copy of a text and the selectors of the list that it is. What the handle had before is let go.
#[unsafe(no_mangle)]
pub extern "C" fn simplecss_list_new(
    alloc: Global,
    text: &[u8],
    grammar: usize,
    out: &mut ListHandle,
) -> u32
    ensures { IsMade (option_map list_grammar_of (grammar_of grammar)) text.now result out.new.value }
{
    calls::list_new(alloc, text, list_grammar(grammar), out)
}

/// Writes ten numbers of each selector of a list: nine of where it is, of its specificity and of its
/// pseudo-element, and the length of its printed text.
#[unsafe(no_mangle)]
pub extern "C" fn simplecss_list_numbers(
    alloc: Global,
    list: &mut ListHandle,
    out: &mut [usize],
    len: &mut usize,
) -> u32
    ensures answer { AnswersOfList AreListNumbers list.old.value result out.old out.new len.new }
    ensures kept { list.new.value ≡ list.old.value }
{
    calls::list_numbers(alloc, list, out, len)
}

/// Writes the printed texts of the selectors of a list, one after another.
#[unsafe(no_mangle)]
pub extern "C" fn simplecss_list_text(
    alloc: Global,
    list: &mut ListHandle,
    out: &mut [u8],
    len: &mut usize,
) -> u32
    ensures answer { AnswersOfList AreListTexts list.old.value result out.old out.new len.new }
    ensures kept { list.new.value ≡ list.old.value }
{
    calls::list_text(alloc, list, out, len)
}

/// Lets a list go, where the handle has one.
#[unsafe(no_mangle)]
pub extern "C" fn simplecss_list_free(alloc: Global, list: &mut ListHandle)
    ensures { list.new.value ≡ None }
{
    calls::list_free(alloc, list)
}
