//! What the program's commands do, over any writer.

ghost use Rattle.std.specs.Prelude.{◌≡◌, ◌+◌, ◌^◌, ◌<◌, ◌++◌, Some, All, OnOk, OnErr, IfErr, IfOk, Ok};
ghost use Rattle.std.specs.Prelude.{List, length, map, string_bytes};
ghost use Rattle.std.specs.List.{flat_map};
ghost use Rattle.std.specs.Option.{option_map};
ghost use Rattle.std.specs.Fmt.{WritesStyledOnOk};
ghost use Rattle.std.specs.Io.KnownBytes.{Appends};
ghost use Rattle.cssq.specs.Writing.{AppendsProperPrefix, Writes, FailsBeforeWriting};
ghost use Rattle.cssq.specs.Faults.{status_of, message_of, run_fault};
ghost use Rattle.cssq.specs.SelectorRuns.{selector_line, IsSelectorRun};
ghost use Rattle.cssq.specs.SheetRuns.{sheet_output, IsSheetRun};
ghost use Rattle.cssq.specs.MatchRuns.{numbers_line, IsMatchRun};
ghost use Rattle.cssq.specs.StyleRuns.{style_line, IsStyleRun};
ghost use Rattle.cssq.specs.Showing.{IsShown};
ghost use Rattle.cssq.specs.internal.PageRuns.{AppendsElementLine, AreElementLines, IsPageOutput};
ghost use Rattle.cssq_tree.specs.PageNodes.{spot, page_tree};
ghost use Rattle.cssq_tree.specs.TreeText.{Row};
ghost use Rattle.cssq_tree.specs.ParentsAndSiblings.{depths_of, parent_index};
ghost use Rattle.simplecss.specs.Matching.{AreMatches};
ghost use Rattle.cssq.specs.internal.Walks.{IsWalkOf, place_before};
ghost use Rattle.cssq.specs.declared.runs.RunFault.TheVariants.{Memory};
ghost use Rattle.simplecss.specs.DeclarationViews.{declaration_of};
ghost use Rattle.simplecss.specs.Sheets.{sheet as sheet_of};
ghost use Rattle.simplecss.specs.ThisEdition.{this_edition};
ghost use Rattle.simplecss.specs.RuleViews.{rules_of, rules_in};

use crate::cascade::winning_among;
use crate::digits::push_number;
use crate::show::{View, show};
use crate::walk::Walk;
use cssq_tree::tree::{Node, Page, TreeFault};
use log::Log;
use simplecss::{Declaration, Reading, Rule, RuleIndex, Selector, StyleSheet, Warnings};
use std::alloc::{AllocError, AllocFailed, Global};
use std::error::Error;
use std::fmt;
use std::fmt::{InlineText, Write as _};
use std::io::Write;

/// Why a run failed.
#[derive(Clone, Copy, PartialEq, Debug)]
pub enum RunFault {
    /// The text is no selector.
    Refused,
    /// The text of a tree has a fault. If a tree runs out of memory, the fault is `Memory`.
    Tree(TreeFault),
    /// Memory was refused.
    Memory,
    /// A write failed, or took no byte while bytes were left.
    Output,
}

impl RunFault {
    /// The exit status of the program: 1 if a text has a fault, 3 if out of memory, 4 if the writer
    /// failed. Allocates nothing.
    pub fn status(&self) -> u8
        ensures { result ≡ status_of self.now }
    {
        match self {
            RunFault::Refused | RunFault::Tree(_) => 1,
            RunFault::Memory => 3,
            RunFault::Output => 4,
        }
    }
}

/// Prints the line that the program writes to standard error, without its newline. Width, fill and
/// flags of the formatter change nothing.
impl fmt::Display for RunFault {
    ghost output = { λ fault. Some (message_of fault) };

    ghost styled_output = { λ fault _. Some (message_of fault) };

    #[tactic(auto, using(crate::proofs::FaultWrites::plain_of_styled))]
    fn fmt<W: fmt::Write>(&self, f: &mut fmt::Formatter<W>) -> fmt::Result {
        match *self {
            RunFault::Refused => f.write_str("cssq: selector refused"),
            RunFault::Tree(fault) => write_tree_fault(f, fault),
            RunFault::Memory => f.write_str("cssq: want of memory"),
            RunFault::Output => f.write_str("cssq: cannot write"),
        }
    }
}

/// Writes the line of a tree's fault: its number and that of the line. It has at most 49 bytes.
fn write_tree_fault<W: fmt::Write>(f: &mut fmt::Formatter<W>, fault: TreeFault) -> fmt::Result
    ensures { WritesStyledOnOk W.write_str_gives f.old result
        (message_of (RunFault.Tree fault)) f.new }
{
    let number = fault.number();
    let line = fault.line();
    let mut text = InlineText::<49>::new();
    write!(text, "cssq: tree fault {number} at line {line}")?;
    f.write_str(text.as_str())
}

impl Error for RunFault {}

impl From<AllocError> for RunFault {
    ghost from_gives = { λ _ fault. fault ≡ Memory };

    fn from(_error: AllocError) -> RunFault {
        RunFault::Memory
    }
}

impl<T: Drop> From<AllocFailed<T>> for RunFault {
    ghost from_gives = { λ _ fault. fault ≡ Memory };

    fn from(_error: AllocFailed<T>) -> RunFault {
        RunFault::Memory
    }
}

impl From<TreeFault> for RunFault {
    ghost from_gives = { λ reported fault. fault ≡ run_fault reported };

    fn from(reported: TreeFault) -> RunFault {
        match reported {
            TreeFault::Memory(_) => RunFault::Memory,
            other => RunFault::Tree(other),
        }
    }
}

/// Writes all the bytes, or fails with `Output` while bytes are left.
pub(crate) fn write_out<W: Write>(out: &mut W, bytes: &[u8]) -> Result<(), RunFault>
    ensures ok { OnOk result (Appends (W.contents out.old) (W.contents out.new) bytes.now) }
    ensures err { OnErr result
        (AppendsProperPrefix (W.contents out.old) (W.contents out.new) bytes.now) }
    ensures fault { IfErr result (λ fault. fault ≡ RunFault.Output) }
{
    let mut rest = bytes;
    while !rest.is_empty() {
        match out.write(rest) {
            Ok(0) | Err(_) => return Err(RunFault::Output),
            Ok(n) => rest = &rest[n..],
        }
    }
    Ok(())
}

/// The line that `run_selector` writes for a selector.
pub fn selector_line(alloc: Global, selector: Selector<'_>) -> Result<String, AllocError>
    ensures { IfOk result (λ line. string_bytes line ≡ selector_line selector.entry) }
{
    let specificity = selector.specificity();
    let (ids, others, types) = (specificity[0], specificity[1], specificity[2]);
    format!(in alloc; "{selector}\t{ids},{others},{types}\n")
}

/// Writes the selector of the text, a TAB, the three numbers of its specificity with commas between
/// them, and a newline.
///
/// The whole line is built first: after `Refused` and `Memory` nothing was written. After `Output`
/// a beginning of the line was, and never all of it.
pub fn run_selector<R: Log, W: Write>(
    rt: &R,
    alloc: Global,
    text: &str,
    out: &mut W,
) -> Result<(), RunFault>
    ensures { Writes (IsSelectorRun text.now) result (W.contents out.old) (W.contents out.new) }
{
    let Some(selector) = Selector::parse(rt, alloc, text)? else {
        return Err(RunFault::Refused);
    };
    let line = selector_line(alloc, selector)?;
    write_out(out, line.as_bytes())
}

/// The printed sheet, and a newline where it has a rule.
pub fn sheet_text(alloc: Global, sheet: &StyleSheet<'_>) -> Result<String, AllocError>
    ensures { IfOk result (λ text. string_bytes text ≡ sheet_output (rules_in sheet.now)) }
{
    if sheet.rules.is_empty() {
        return Ok(String::new(alloc));
    }
    format!(in alloc; "{sheet}\n")
}

/// Adds the line of an element: its number, and the numbers of the rules with these indices.
pub fn push_numbers(out: &mut String, number: usize, indices: &[usize]) -> Result<(), AllocError>
    requires { All (λ index. index + 1 < 2 ^ 64) indices.now }
    ensures { OnOk result (string_bytes out.new
        ≡ string_bytes out.old ++ numbers_line number (map (λ index. index + 1) indices.now)) }
{
    push_number(out, number)?;
    out.push(':')?;
    for index in indices {
        out.push(' ')?;
        push_number(out, *index + 1)?;
    }
    out.push('\n')
}

/// Adds the line of an element: its number, and the value of the declaration that wins there, if
/// one does.
pub fn push_winner(
    out: &mut String,
    number: usize,
    winner: Option<Declaration<'_>>,
) -> Result<(), AllocError>
    ensures { OnOk result (string_bytes out.new
        ≡ string_bytes out.old ++ style_line number (option_map declaration_of winner.entry)) }
{
    let Some(declaration) = winner else {
        return writeln!(out, "{number}:");
    };
    let value = declaration.value;
    let mark = if declaration.important {
        " !important"
    } else {
        ""
    };
    writeln!(out, "{number}: {value}{mark}")
}

/// What the lines say of the elements of a page.
#[derive(Clone, Copy)]
pub(crate) enum LineContent<'n> {
    /// The numbers of the rules that match the element.
    Rules,
    /// The declaration of the name that wins on the element.
    Winner(&'n str),
}

/// Adds the line of the element at an index, of whose rules those with these indices match it.
fn push_answer(
    out: &mut String,
    content: LineContent<'_>,
    rules: &[Rule<'_>],
    element: usize,
    indices: &[usize],
) -> Result<(), AllocError>
    requires number { element + 1 < 2 ^ 64 }
    requires within { All (λ index. index < length rules.now) indices.now }
    ensures { (rows : List Row) → AreMatches page_tree (spot rows element)
        (map (λ rule. rule.selector) rules.now) indices.now
        → OnOk result (AppendsElementLine content.entry (rules_of rules.now) rows element
        (string_bytes out.old) (string_bytes out.new)) }
{
    match content {
        LineContent::Rules => push_numbers(out, element + 1, indices),
        LineContent::Winner(name) => push_winner(
            out,
            element + 1,
            winning_among::<Node<'_, '_>>(rules, indices, name),
        ),
    }
}

/// Adds the line of an element of a page by an index of the rules and the open elements; `element`
/// is the index of the element. The previous items of `indices` are dropped.
fn push_element<'a>(
    out: &mut String,
    content: LineContent<'_>,
    index: &RuleIndex<'a>,
    rules: &[Rule<'a>],
    page: &Page<'_>,
    element: usize,
    indices: &mut Vec<usize>,
    walk: &mut Walk<'a>,
) -> Result<(), AllocError>
    requires index { index.now ≡ map (λ rule. rule.selector) rules.now }
    requires element { element < length page.now }
    requires number { element + 1 < 2 ^ 64 }
    requires path { walk.old.path.selectors ≡ index.now }
    requires walk { IsWalkOf page.now walk.old }
    requires before { walk.old.place ≡ place_before (depths_of page.now) element }
    ensures reported { OnOk result (AppendsElementLine content.entry
        (rules_of rules.now) page.now element
        (string_bytes out.old) (string_bytes out.new)) }
    ensures walk { OnOk result (IsWalkOf page.now walk.new) }
    ensures path { OnOk result (walk.new.path.selectors ≡ walk.old.path.selectors) }
    ensures at { OnOk result (walk.new.place ≡ parent_index (depths_of page.now) element) }
{
    walk.matching(index, rules, page, element, indices)?;
    push_answer(out, content, rules, element, indices.as_slice())
}

/// The lines of the elements of a page by a sheet without rules, for which nobody need walk.
fn bare_lines(
    alloc: Global,
    content: LineContent<'_>,
    rules: &[Rule<'_>],
    page: &Page<'_>,
) -> Result<String, RunFault>
    requires { length rules.now ≡ 0 }
    ensures ok { IfOk result
        (λ text. AreElementLines content.entry (rules_of rules.now) page.now (string_bytes text)) }
    ensures fault { IfErr result (λ fault. fault ≡ RunFault.Memory) }
{
    let mut text = String::with_capacity(alloc, page.len().saturating_mul(8))?;
    for element in 0..page.len() {
        push_answer(&mut text, content, rules, element, &[])?;
    }
    Ok(text)
}

/// The lines of the elements of a page, by an index of the rules.
fn page_lines<'a>(
    alloc: Global,
    content: LineContent<'_>,
    index: &RuleIndex<'a>,
    rules: &[Rule<'a>],
    page: &Page<'_>,
) -> Result<String, RunFault>
    requires { index.now ≡ map (λ rule. rule.selector) rules.now }
    ensures ok { IfOk result
        (λ text. AreElementLines content.entry (rules_of rules.now) page.now (string_bytes text)) }
    ensures fault { IfErr result (λ fault. fault ≡ RunFault.Memory) }
{
    let mut indices = Vec::new(alloc);
    let mut walk = Walk::new(alloc, index)?;
    let mut text = String::with_capacity(alloc, page.len().saturating_mul(8))?;
    for element in 0..page.len() {
        push_element(
            &mut text,
            content,
            index,
            rules,
            page,
            element,
            &mut indices,
            &mut walk,
        )?;
    }
    Ok(text)
}

/// Returns the lines of the elements of a tree, by the rules of a sheet.
pub(crate) fn tree_output(
    alloc: Global,
    content: LineContent<'_>,
    rules: &[Rule<'_>],
    tree: &str,
) -> Result<String, RunFault>
    ensures ok { IfOk result
        (λ lines. IsPageOutput content.entry (rules_of rules.now) tree.now (Ok (string_bytes lines))) }
    ensures fault { IfErr result
        (FailsBeforeWriting (IsPageOutput content.entry (rules_of rules.now) tree.now)) }
{
    let page = Page::read(alloc, tree)?;
    if rules.is_empty() {
        return bare_lines(alloc, content, rules, &page);
    }
    let index = RuleIndex::new(alloc, rules)?;
    page_lines(alloc, content, &index, rules, &page)
}

/// Shows a view of the sheet of texts, as [`show`] does of a new sheet, without a limit.
fn run<R: Log, W: Write>(
    view: View<'_>,
    rt: &R,
    alloc: Global,
    texts: &[&str],
    out: &mut W,
) -> Result<(), RunFault>
    ensures { Writes
        (IsShown view.entry (sheet_of this_edition (map (λ text. text.now) texts.now))) result
        (W.contents out.old) (W.contents out.new) }
{
    let mut sheet = StyleSheet::new(alloc);
    let how = Reading {
        report: &mut Warnings::new(rt),
        most: usize::MAX,
    };
    match show(view, &mut sheet, how, alloc, texts, out) {
        Ok(()) => Ok(()),
        Err(error) => Err(error.fault()),
    }
}

/// Reads the texts one after another into one sheet, and writes the printed sheet, and one newline
/// if it has a rule.
///
/// The whole output is built first: after `Memory` nothing was written. After `Output` a proper
/// prefix of it was. There is no other fault.
pub fn run_sheet<R: Log, W: Write>(
    rt: &R,
    alloc: Global,
    texts: &[&str],
    out: &mut W,
) -> Result<(), RunFault>
    ensures { Writes (IsSheetRun (map (λ text. text.now) texts.now)) result (W.contents out.old)
        (W.contents out.new) }
{
    run(View::Rules, rt, alloc, texts, out)
}

/// Writes for each element of a tree its number from 1, a colon, a space and the number of each
/// rule of the sheet that matches it, and a newline.
///
/// The sheet is read first, then the tree, and then the whole output is built: after `Tree` and
/// `Memory` nothing was written. After `Output` a beginning of it was, and never all of it.
/// `Refused` does not occur.
pub fn run_match<R: Log, W: Write>(
    rt: &R,
    alloc: Global,
    sheet: &str,
    tree: &str,
    out: &mut W,
) -> Result<(), RunFault>
    ensures { Writes (IsMatchRun sheet.now tree.now) result (W.contents out.old)
        (W.contents out.new) }
{
    run(View::Matches(tree), rt, alloc, &[sheet], out)
}

/// Writes for each element of a tree its number from 1, a colon, and where a declaration of the
/// name wins there, a space, its value and, if it is important, ` !important`; and a newline.
///
/// The sheet is read first, then the tree, and then the whole output is built: after `Tree` and
/// `Memory` nothing was written. After `Output` a beginning of it was, and never all of it.
/// `Refused` does not occur.
pub fn run_style<R: Log, W: Write>(
    rt: &R,
    alloc: Global,
    sheet: &str,
    tree: &str,
    name: &str,
    out: &mut W,
) -> Result<(), RunFault>
    ensures { Writes (IsStyleRun sheet.now tree.now name.now) result (W.contents out.old)
        (W.contents out.new) }
{
    run(View::Winners(tree, name), rt, alloc, &[sheet], out)
}
