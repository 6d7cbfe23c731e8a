//! The functions that callers in C see.
//!
//! Each returns a status: 0 done, 1 refused, 2 a fault of the tree, 3 out of memory, 4 more
//! declarations than `limit` or an answer of more bytes than `most`, 5 not UTF-8, 6 the buffer is too
//! small, 7 more than 1,024 layers. At 0 the answer is at the front of `out`, and `len` is its length. At
//! 6 nothing was written, and `len` is the length that the call needs. At any other status nothing was
//! written, and `len` is 0. `fault` is set at 2 only.

ghost use Rattle.call_answers.specs.Answers.{Answers, IsAnswered, IsAnsweredOfTree, IsHandedOver};
ghost use Rattle.call_answers.specs.Calls.{IsCloseCall, passed_of};
ghost use Rattle.call_answers.specs.Outcomes.{numbers_outcome};
ghost use Rattle.port_calls.specs.PortCalls.{IsPortCall, question_of as question_of_port};
ghost use Rattle.sheet_calls.specs.Conditions.{IsMediaCall, IsSupportsCall};
ghost use Rattle.call_answers.specs.ItemNumbers.{IsDeclarationsCall};
ghost use Rattle.sheet_calls.specs.NumberLines.{IsTokensCall, IsNamesCall};
ghost use Rattle.lint_calls.specs.Linting.{IsLintCall};
ghost use Rattle.lint_calls.specs.Taken.{IsTakenCall};
ghost use Rattle.sheet_calls.specs.Spellings.{IsSpellCall};
ghost use Rattle.sheet_calls.specs.Values.{IsPropertyCall, IsResolveCall, IsValidCall, question_of};
ghost use Rattle.simplecss_calls.specs.Grammars.{grammar_of};
ghost use Rattle.simplecss_calls.specs.GrammarCalls.{IsMatchSelectorsCall, IsRefusalCall};

use call_answers::answer::{
    CallError, TreeFault, copy_whole, hand_over, hand_over_numbers, hand_over_of_tree,
    hand_over_truth,
};
use call_answers::elements::PassedTree;
use css_values::{INHERITED, LOGICAL, SHORTHANDS};
use lint_calls::{lint, taken};
use port_calls::port;
use sheet_calls::conditions::DeviceNumbers;
use sheet_calls::{conditions, spellings, tokens, values};
use simplecss_calls::calls;
use std::alloc::Global;

/// The version of the library. The changelog begins with it.
const VERSION: &str = "0.3.0";

/// Writes the version of the library.
#[unsafe(no_mangle)]
pub extern "C" fn simplecss_version(out: &mut [u8], len: &mut usize) -> u32
    ensures { IsHandedOver VERSION.now result out.old out.new len.new }
{
    copy_whole(VERSION.as_bytes(), out, len)
}

/// Writes the row, the column and the reason of why a text is no list of selectors, with a space between
/// them, where a tree declares names. Nothing where it is one.
#[unsafe(no_mangle)]
pub extern "C" fn simplecss_refusal(
    alloc: Global,
    text: &[u8],
    grammar: usize,
    tree: &PassedTree<'_>,
    out: &mut [u8],
    len: &mut usize,
    fault: &mut TreeFault,
) -> u32
    ensures { IsAnsweredOfTree (IsRefusalCall (grammar_of grammar) text.now (passed_of tree.now))
        result out.old out.new len.new fault.old fault.new }
{
    let outcome = calls::refusal(alloc, text, grammar, *tree);
    hand_over_of_tree(outcome, out, len, fault)
}

/// Writes a line for each element of a tree: its number, a colon, the number of each of the
/// selectors that matches it after a space, and a newline. Each text is a selector. Numbers begin
/// at 1.
#[unsafe(no_mangle)]
pub extern "C" fn simplecss_match_selectors(
    alloc: Global,
    texts: &[u8],
    ends: &[usize],
    grammar: usize,
    tree: &PassedTree<'_>,
    most: usize,
    out: &mut [u8],
    len: &mut usize,
    fault: &mut TreeFault,
) -> u32
    ensures { IsAnsweredOfTree (IsMatchSelectorsCall (grammar_of grammar) most texts.now ends.now
        (passed_of tree.now)) result out.old out.new len.new fault.old fault.new }
{
    let outcome = calls::match_selectors(alloc, texts, ends, grammar, *tree, most);
    hand_over_of_tree(outcome, out, len, fault)
}

/// Writes ten numbers of each item of a style attribute by the modern grammar, with offsets into the text.
#[unsafe(no_mangle)]
pub extern "C" fn simplecss_declarations(
    alloc: Global,
    text: &[u8],
    out: &mut [usize],
    len: &mut usize,
) -> u32
    ensures { IsAnswered (IsDeclarationsCall text.now) result out.old out.new len.new }
{
    hand_over_numbers(calls::declarations(alloc, text), out, len)
}

/// Writes a line of each mistake in a style sheet, or in a style attribute if `asked` has 2 in it; if it has 1 in it, of what is
/// unsupported, too. A line has the kind, the offsets of the first byte and after the last one, and what was probably
/// meant; and if one answer is right, the offsets between which it is written, and the answer; with tabs between them.
#[unsafe(no_mangle)]
pub extern "C" fn simplecss_lint(
    alloc: Global,
    text: &[u8],
    asked: usize,
    out: &mut [u8],
    len: &mut usize,
) -> u32
    ensures { IsAnswered (IsLintCall asked text.now) result out.old out.new len.new }
{
    hand_over(lint::lint(alloc, text, asked), out, len)
}

/// Hands over bytes, and returns the status of the call.
fn hand_over_bytes(outcome: Result<Vec<u8>, CallError>, out: &mut [u8], len: &mut usize) -> u32
    ensures { Answers (numbers_outcome outcome) result out.old out.new len.new }
{
    match outcome {
        Ok(bytes) => copy_whole(bytes.as_slice(), out, len),
        Err(failure) => {
            *len = 0;
            failure.status()
        }
    }
}

/// Writes a style sheet with spaces in place of each declaration whose value no browser takes; or a style attribute if `asked`
/// has 1 in it. If it has 2 in it, the page is in quirks mode.
#[unsafe(no_mangle)]
pub extern "C" fn simplecss_taken(
    alloc: Global,
    text: &[u8],
    asked: usize,
    out: &mut [u8],
    len: &mut usize,
) -> u32
    ensures { IsAnswered (IsTakenCall asked text.now) result out.old out.new len.new }
{
    hand_over_bytes(taken::taken(alloc, text, asked), out, len)
}

/// Writes the value of a declaration with what closes it, where the end of the text left a string, a
/// url, a comment or brackets open.
#[unsafe(no_mangle)]
pub extern "C" fn simplecss_close(
    alloc: Global,
    value: &[u8],
    out: &mut [u8],
    len: &mut usize,
) -> u32
    ensures { IsAnswered (IsCloseCall value.now) result out.old out.new len.new }
{
    hand_over(calls::close(alloc, value), out, len)
}

/// Writes five numbers for each token of a text: its kind, where it begins and ends, and where what is
/// in it does.
#[unsafe(no_mangle)]
pub extern "C" fn simplecss_tokens(
    alloc: Global,
    text: &[u8],
    out: &mut [usize],
    len: &mut usize,
) -> u32
    ensures { IsAnswered (IsTokensCall text.now) result out.old out.new len.new }
{
    hand_over_numbers(tokens::tokens(alloc, text), out, len)
}

/// Writes six numbers for each name in lists of selectors, by the tokens of each text: its kind, where
/// its sign, the name and what follows it begin, how many parentheses are open around it, and how many
/// up to the first one of `:not()`.
#[unsafe(no_mangle)]
pub extern "C" fn simplecss_names(
    alloc: Global,
    texts: &[u8],
    ends: &[usize],
    out: &mut [usize],
    len: &mut usize,
) -> u32
    ensures { IsAnswered (IsNamesCall texts.now ends.now) result out.old out.new len.new }
{
    hand_over_numbers(tokens::names(alloc, texts, ends), out, len)
}

/// Writes what a text denotes as a name, or between the quotes of a string; or the identifier or the string, in double
/// quotes, that denotes it. A NUL of these is written as U+FFFD.
#[unsafe(no_mangle)]
pub extern "C" fn simplecss_spell(
    alloc: Global,
    text: &[u8],
    asked: usize,
    out: &mut [u8],
    len: &mut usize,
) -> u32
    ensures { IsAnswered (IsSpellCall asked text.now) result out.old out.new len.new }
{
    hand_over(spellings::spell(alloc, text, asked), out, len)
}

/// Writes what a list of media queries says on a device: `true`, `false` or `unknown`. It holds if that is
/// `true`.
#[unsafe(no_mangle)]
pub extern "C" fn simplecss_media(
    text: &[u8],
    device: &DeviceNumbers,
    out: &mut [u8],
    len: &mut usize,
) -> u32
    ensures { IsAnswered (IsMediaCall text.now device.now) result out.old out.new len.new }
{
    hand_over_truth(conditions::media(text, device), out, len)
}

/// Writes `true` if a condition of `@supports` holds where the properties of a buffer are known, else
/// `false`.
#[unsafe(no_mangle)]
pub extern "C" fn simplecss_supports(
    alloc: Global,
    text: &[u8],
    properties: &[u8],
    ends: &[usize],
    out: &mut [u8],
    len: &mut usize,
) -> u32
    ensures { IsAnswered (IsSupportsCall text.now properties.now ends.now) result out.old out.new len.new }
{
    let outcome = conditions::supports(alloc, text, properties, ends);
    hand_over_truth(outcome, out, len)
}

/// Writes the values of properties, whose names and values lie one after another in a buffer: of the first
/// `wanted`, which an element declares, each the length, a newline and the value, or only a newline where it
/// has none. So many after them are `@property` rules.
#[unsafe(no_mangle)]
pub extern "C" fn simplecss_values(
    alloc: Global,
    texts: &[u8],
    ends: &[usize],
    wanted: usize,
    registered: usize,
    limit: usize,
    most: usize,
    out: &mut [u8],
    len: &mut usize,
) -> u32
    ensures { IsAnswered (IsResolveCall wanted registered limit most texts.now ends.now)
        result out.old out.new len.new }
{
    hand_over(
        values::values(alloc, texts, ends, wanted, registered, limit, most),
        out,
        len,
    )
}

/// Writes `true` if each reference of a value is valid, else `false`.
#[unsafe(no_mangle)]
pub extern "C" fn simplecss_valid_value(
    alloc: Global,
    value: &[u8],
    out: &mut [u8],
    len: &mut usize,
) -> u32
    ensures { IsAnswered (IsValidCall value.now) result out.old out.new len.new }
{
    hand_over_truth(values::is_valid_value(alloc, value), out, len)
}

/// Writes what is asked of a property: the longhands that it sets, with spaces between them; the shorthands that set it,
/// each with a newline after it; its logical or physical counterpart; or whether it is inherited, as `true` or `false`.
#[unsafe(no_mangle)]
pub extern "C" fn simplecss_property(
    alloc: Global,
    name: &[u8],
    asked: usize,
    out: &mut [u8],
    len: &mut usize,
) -> u32
    ensures { IsAnswered (IsPropertyCall SHORTHANDS.now LOGICAL.now INHERITED.now (question_of asked) name.now)
        result out.old out.new len.new }
{
    hand_over(values::property(alloc, name, asked), out, len)
}

/// Writes what is asked by the grammar of the port: the printed sheet of the texts in a buffer; its rules, each with its
/// specificity and its declarations; what is skipped of the buffer as one text; the rules that match each element of a
/// tree; all that wins on each; or the elements that the list of selectors matches which the buffer is.
#[unsafe(no_mangle)]
pub extern "C" fn simplecss_port(
    alloc: Global,
    texts: &[u8],
    ends: &[usize],
    limit: usize,
    asked: usize,
    tree: &PassedTree<'_>,
    most: usize,
    out: &mut [u8],
    len: &mut usize,
    fault: &mut TreeFault,
) -> u32
    ensures { IsAnsweredOfTree (IsPortCall (question_of_port asked) most texts.now ends.now limit
        (passed_of tree.now)) result out.old out.new len.new fault.old fault.new }
{
    let outcome = port::ask(alloc, texts, ends, limit, asked, *tree, most);
    hand_over_of_tree(outcome, out, len, fault)
}
