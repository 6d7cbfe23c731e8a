//! What the program shows of style sheets, with a reporter and a limit.
ghost use Rattle.std.specs.Prelude.{◌≡◌, Ok, IfOk, IfErr, map, string_bytes};
ghost use Rattle.simplecss.specs.RuleViews.{rules_in};
ghost use Rattle.cssq.specs.Showing.{IsShown, Shows, run_fault_of};
ghost use Rattle.cssq.specs.Writing.{Writes, FailsBeforeWriting};

use crate::runs::{LineContent, RunFault, sheet_text, tree_output, write_out};
use simplecss::{Reading, Report, SheetError, StyleSheet};
use std::alloc::Global;
use std::io::Write;

/// What is shown of a style sheet.
#[derive(Clone, Copy, Debug)]
pub enum View<'v> {
    /// Its rules.
    Rules,
    /// The numbers of the rules that match each element of a tree, which is given by its text.
    Matches(&'v str),
    /// The declaration that wins on each element of a tree, which is given by its text, for a name.
    Winners(&'v str, &'v str),
}

/// Why a style sheet was not shown.
#[derive(Clone, Copy, PartialEq, Debug)]
pub enum ShowError {
    /// The rules of the texts would hold more declarations than the limit.
    TooManyDeclarations,
    /// A run fails for the same reason.
    Run(RunFault),
}

impl ShowError {
    /// The fault of a run for the same reason: [`RunFault::Memory`] beyond the limit.
    pub fn fault(&self) -> RunFault
        ensures { result ≡ run_fault_of self.now }
    {
        match *self {
            ShowError::TooManyDeclarations => RunFault::Memory,
            ShowError::Run(fault) => fault,
        }
    }
}

/// Returns what must be written of a sheet.
fn shown_text(view: View<'_>, alloc: Global, sheet: &StyleSheet<'_>) -> Result<String, RunFault>
    ensures ok { IfOk result
        (λ text. IsShown view.entry (rules_in sheet.now) (Ok (string_bytes text))) }
    ensures fault { IfErr result (FailsBeforeWriting (IsShown view.entry (rules_in sheet.now))) }
{
    match view {
        View::Rules => Ok(sheet_text(alloc, sheet)?),
        View::Matches(tree) => tree_output(alloc, LineContent::Rules, &sheet.rules, tree),
        View::Winners(tree, name) => {
            tree_output(alloc, LineContent::Winner(name), &sheet.rules, tree)
        }
    }
}

/// Writes a view of a sheet.
fn write_view<W: Write>(
    view: View<'_>,
    alloc: Global,
    sheet: &StyleSheet<'_>,
    out: &mut W,
) -> Result<(), RunFault>
    ensures { Writes (IsShown view.entry (rules_in sheet.now)) result (W.contents out.old)
        (W.contents out.new) }
{
    let text = shown_text(view, alloc, sheet)?;
    write_out(out, text.as_bytes())
}

/// Reads texts into a style sheet, one after another, as [`StyleSheet::read`] does, and writes a
/// view of the sheet.
///
/// The texts are read first, then the tree, and then the whole output is built: after
/// `TooManyDeclarations`, `Tree` and `Memory` nothing was written. After `Output` a proper prefix of
/// the output was. `Refused` does not occur.
pub fn show<'a, P: Report<'a>, W: Write>(
    view: View<'_>,
    sheet: &mut StyleSheet<'a>,
    how: Reading<'_, P>,
    alloc: Global,
    texts: &[&'a str],
    out: &mut W,
) -> Result<(), ShowError>
    ensures { Shows P.begun P.add view.entry (rules_in sheet.old)
        (map (λ text. text.now) texts.now) how.entry.most (P.state how.entry.report.now) result
        (rules_in sheet.new) (P.state how.exit.0.now) (W.contents out.old) (W.contents out.new) }
{
    match sheet.read(how, alloc, texts) {
        Ok(()) => match write_view(view, alloc, sheet, out) {
            Ok(()) => Ok(()),
            Err(fault) => Err(ShowError::Run(fault)),
        },
        Err(SheetError::TooManyDeclarations) => Err(ShowError::TooManyDeclarations),
        Err(SheetError::Memory) => Err(ShowError::Run(RunFault::Memory)),
    }
}
