//! What each call answers that the grammars share, and the others that read modern CSS.

ghost use Rattle.std.specs.Prelude.{◌≡◌};
ghost use Rattle.call_answers.specs.Outcomes.{numbers_outcome, outcome_of};
ghost use Rattle.call_answers.specs.Calls.{IsCloseCall, passed_of};
ghost use Rattle.call_answers.specs.ItemNumbers.{IsDeclarationsCall};
ghost use Rattle.simplecss_calls.specs.Grammars.{grammar_of};
ghost use Rattle.simplecss_calls.specs.GrammarCalls.{IsMatchSelectorsCall, IsRefusalCall};

use crate::grammar::Grammar;
use call_answers::answer::CallError;
use call_answers::elements::PassedTree;
use call_answers::items::item_numbers;
use call_answers::texts::text_of;
use css_syntax::closed_value;
use page_calls::modern;
use port_calls::port;
use std::alloc::Global;

/// Where a text is no list of selectors, and why, or nothing where it is one, where a tree declares names.
pub fn refusal(
    alloc: Global,
    text: &[u8],
    grammar: usize,
    tree: PassedTree<'_>,
) -> Result<String, CallError>
    ensures { IsRefusalCall (grammar_of grammar) text.now (passed_of tree.entry) (outcome_of result) }
{
    match Grammar::from_number(grammar)? {
        Grammar::Modern(_) => modern::refusal(alloc, text, tree),
        Grammar::Port => port::refusal(alloc, text),
    }
}

/// The numbers of the selectors that match each element of a tree.
pub fn match_selectors(
    alloc: Global,
    buffer: &[u8],
    ends: &[usize],
    grammar: usize,
    tree: PassedTree<'_>,
    most: usize,
) -> Result<String, CallError>
    ensures { IsMatchSelectorsCall (grammar_of grammar) most buffer.now ends.now
        (passed_of tree.entry) (outcome_of result) }
{
    match Grammar::from_number(grammar)? {
        Grammar::Modern(kind) => { modern::match_selectors(alloc, buffer, ends, kind, tree, most) }
        Grammar::Port => port::match_selectors(alloc, buffer, ends, tree, most),
    }
}

/// The numbers of the items of a style attribute by the modern grammar.
pub fn declarations(alloc: Global, text: &[u8]) -> Result<Vec<usize>, CallError>
    ensures { IsDeclarationsCall text.now (numbers_outcome result) }
{
    let text = text_of(text)?;
    Ok(item_numbers(alloc, text, text.len(), false)?)
}

/// The value with what closes it.
pub fn close(alloc: Global, value: &[u8]) -> Result<String, CallError>
    ensures { IsCloseCall value.now (outcome_of result) }
{
    let Some(closed) = closed_value(alloc, text_of(value)?)? else {
        return Err(CallError::Refused);
    };
    Ok(closed)
}
