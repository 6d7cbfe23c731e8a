//! The statements of a style sheet by the modern grammar, as numbers.

ghost use Rattle.std.specs.Prelude.{◌≡◌, ◌<◌, ◌^◌, ◌-◌, ◌+◌, ◌++◌, ◌≤◌, OnOk, IfOk, MatchResult};
ghost use Rattle.std.specs.Prelude.{length, map, option_map};
ghost use Rattle.std.specs.List.{flat_map};
ghost use Rattle.css_syntax.specs.Views.{prelude_of, block_of, statement_of, sheet_part_of};
ghost use Rattle.css_sheet.specs.Places.{places_of};
ghost use Rattle.css_sheet.specs.ReaderViews.{level_of, condition_at};
ghost use Rattle.css_sheet.specs.SheetItems.{sheet_items};
ghost use Rattle.css_selector_text.specs.NameViews.{names_of};
ghost use Rattle.call_answers.specs.Calls.{FailsLonger};
ghost use Rattle.call_answers.specs.SheetNumbers.{level_row as level_row_of, level_numbers as level_numbers_of};
ghost use Rattle.call_answers.specs.SheetNumbers.{shown_of, rule_row as rule_row_of, shown_row as shown_row_of};
ghost use Rattle.call_answers.specs.SheetNumbers.{shown_selectors as shown_selectors_of};
ghost use Rattle.call_answers.specs.SheetNumbers.{shown_items as shown_items_of, counted};
ghost use Rattle.call_answers.specs.SheetNumbers.{statement_numbers, sheet_numbers as sheet_numbers_of};
ghost use Rattle.sheet_calls.specs.internal.Shown.{shown_text};

use call_answers::answer::{CallError, check_count};
use call_answers::items::{at_rule_row, fault_row, item_numbers};
use call_answers::selector_numbers::selector_numbers;
use css_selectors::{Listed, Names};
use css_sheet::{Level, Places, SheetNamespaces, SheetReader, read_listed};
use css_syntax::{AtRule, Fault, RuleSet, SheetPart, Statement};
use std::alloc::{AllocError, Global};

/// The kind of a rule set.
const RULE: usize = 3;

/// Returns the numbers of a group rule that an item is in.
fn level_row(level: &Level<'_>) -> [usize; 6]
    ensures { result ≡ level_row_of (condition_at (level_of level.now)) }
{
    let places = level.places;
    let end = level.after_end - level.after.len();
    [
        places.start,
        end.saturating_sub(places.start),
        places.start + 1,
        level.name.len(),
        places.prelude,
        level.prelude.len(),
    ]
}

/// Returns the numbers of the group rules that an item is in.
fn level_numbers(alloc: Global, levels: &[Level<'_>]) -> Result<Vec<usize>, AllocError>
    ensures { IfOk result (λ out. out.items
        ≡ level_numbers_of (map (λ level. condition_at (level_of level)) levels.now)) }
{
    let mut out = Vec::new(alloc);
    let mut left = levels;
    'levels: while let [level, others @ ..] = left {
        out.extend_from_slice(&level_row(level))?;
        left = others;
    }
    Ok(out)
}

/// What a statement is in an answer.
#[derive(Drop)]
enum Shown<'s, 'a> {
    /// A rule set, with its selectors.
    Rule(&'s RuleSet<'a>, Vec<Listed<'a>>),
    /// An at-rule.
    AtRule(&'s AtRule<'a>),
    /// Something that is skipped.
    Skipped(Fault),
}

/// Returns what a statement is in an answer: a rule set with an invalid prelude is skipped.
fn show<'s, 'a>(
    alloc: Global,
    names: &Names<'_>,
    statement: &'s Statement<'a>,
) -> Result<Shown<'s, 'a>, AllocError>
    ensures { IfOk result (λ shown. shown_text shown
        ≡ shown_of (names_of names.now) (statement_of statement.now)) }
{
    match statement {
        Statement::RuleSet(rule) => match read_listed(alloc, names, None, &rule.prelude)? {
            Ok(selectors) => Ok(Shown::Rule(rule, selectors)),
            Err(fault) => Ok(Shown::Skipped(fault)),
        },
        Statement::AtRule(rule) => Ok(Shown::AtRule(rule)),
        Statement::Skipped(fault) => Ok(Shown::Skipped(*fault)),
    }
}

/// Returns the numbers of a rule set of this length.
fn rule_row(rule: &RuleSet<'_>, places: Places, count: usize) -> [usize; 10]
    ensures { result ≡ rule_row_of (places_of places) count (prelude_of rule.now.prelude)
        (block_of rule.now.block) }
{
    [
        RULE,
        places.start,
        count,
        usize::from(rule.block.closed),
        places.prelude,
        rule.prelude.text.len(),
        places.block,
        places.block_end.saturating_sub(places.block),
        0,
        0,
    ]
}

/// Returns the numbers of a statement of this length.
fn shown_row(shown: &Shown<'_, '_>, places: Places, count: usize) -> [usize; 10]
    ensures { result ≡ shown_row_of (places_of places) count (shown_text shown.now) }
{
    match shown {
        Shown::Rule(rule, _) => rule_row(rule, places, count),
        Shown::AtRule(rule) => {
            at_rule_row(rule, places.start, count, places.prelude, places.block)
        }
        Shown::Skipped(fault) => fault_row(*fault, places.start, count),
    }
}

/// Returns the numbers of the selectors of a rule set. Anything else has none.
fn shown_selectors(
    alloc: Global,
    shown: Shown<'_, '_>,
    places: Places,
) -> Result<Vec<usize>, AllocError>
    ensures { IfOk result (λ out. out.items
        ≡ shown_selectors_of (places_of places) (shown_text shown.entry)) }
{
    let Shown::Rule(rule, selectors) = shown else {
        return Ok(Vec::new(alloc));
    };
    let end = (places.prelude + rule.prelude.text.len()).min(places.block);
    selector_numbers(alloc, selectors, end)
}

/// Returns the numbers of the items of a rule set. Anything else has none.
fn shown_items(
    alloc: Global,
    shown: &Shown<'_, '_>,
    places: Places,
) -> Result<Vec<usize>, AllocError>
    ensures { IfOk result (λ out. out.items
        ≡ shown_items_of (places_of places) (shown_text shown.now)) }
{
    let Shown::Rule(rule, _) = shown else {
        return Ok(Vec::new(alloc));
    };
    item_numbers(alloc, rule.block.text, places.block_end, true)
}

/// Appends a row, and three numbers more.
fn push_head(out: &mut Vec<usize>, row: &[usize], more: [usize; 3]) -> Result<(), AllocError>
    ensures { OnOk result (out.new.items ≡ out.old.items ++ (row.now ++ more)) }
{
    out.extend_from_slice(row)?;
    out.extend_from_slice(&more)
}

/// Appends a row, how many numbers there are of group rules, of selectors and of items, and these.
fn push_counted(
    out: &mut Vec<usize>,
    row: &[usize],
    levels: &[usize],
    selectors: &[usize],
    items: &[usize],
) -> Result<(), AllocError>
    ensures { OnOk result (out.new.items
        ≡ out.old.items ++ counted row.now levels.now selectors.now items.now) }
{
    push_head(out, row, [levels.len(), selectors.len(), items.len()])?;
    out.extend_from_slice(levels)?;
    out.extend_from_slice(selectors)?;
    out.extend_from_slice(items)
}

/// Appends the numbers of a statement that is in these group rules, where these names are declared.
fn push_part(
    out: &mut Vec<usize>,
    alloc: Global,
    names: &Names<'_>,
    levels: &[Level<'_>],
    places: Places,
    part: &SheetPart<'_>,
) -> Result<(), AllocError>
    ensures { OnOk result (out.new.items ≡ out.old.items ++ statement_numbers (names_of names.now) (record {
      conditions = map (λ level. condition_at (level_of level)) levels.now;
      part = sheet_part_of part.now;
      places = places_of places;
    })) }
{
    let shown = show(alloc, names, &part.statement)?;
    let row = shown_row(&shown, places, part.text.len());
    let levels = level_numbers(alloc, levels)?;
    let items = shown_items(alloc, &shown, places)?;
    let selectors = shown_selectors(alloc, shown, places)?;
    push_counted(out, &row, &levels, &selectors, &items)
}

/// Returns the numbers of the statements of a sheet where these names are declared, at most so many.
fn numbers_with(
    alloc: Global,
    names: &Names<'_>,
    text: &str,
    most: usize,
) -> Result<Vec<usize>, CallError>
    ensures { let due = flat_map (statement_numbers (names_of names.now)) (sheet_items text.now) in
        MatchResult result (λ out. (out.items ≡ due) × (length out.items ≤ most))
        (FailsLonger (most < length due)) }
{
    let mut out = Vec::new(alloc);
    let mut reader = SheetReader::new(alloc, text);
    'items: while let Some(part) = reader.read_next()? {
        push_part(
            &mut out,
            alloc,
            names,
            reader.levels(),
            reader.places(),
            &part,
        )?;
        check_count(&out, most)?;
    }
    Ok(out)
}

/// Returns the numbers of the statements of a sheet, which declares names, at most so many.
pub fn sheet_numbers(alloc: Global, text: &str, most: usize) -> Result<Vec<usize>, CallError>
    ensures { MatchResult result
        (λ out. (out.items ≡ sheet_numbers_of text.now) × (length out.items ≤ most))
        (FailsLonger (most < length (sheet_numbers_of text.now))) }
{
    let namespaces = SheetNamespaces::read(alloc, text, &[])?;
    let declared = namespaces.declare(alloc)?;
    numbers_with(alloc, &declared.names(), text, most)
}
