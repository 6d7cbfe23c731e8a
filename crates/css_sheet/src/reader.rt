//! The reader of sheets.
ghost use Rattle.std.specs.Prelude.{◌≡◌, ◌≤◌, ◌++◌, ◌∷◌, [], ℕ, Bool, List, true, map, IfOk, length};
ghost use Rattle.css_sheet.specs.SheetItems.{sheet_items};
ghost use Rattle.css_sheet.specs.NothingLost.{AreSheetItems};
ghost use Rattle.css_sheet.specs.ReaderViews.{level_of, to_come};
ghost use Rattle.css_sheet.specs.ReaderViews.{conditions_of, condition_at, GivesItem, Leaves, Steps};
ghost use Rattle.css_sheet.specs.ReaderViews.{end_of, places_now};
ghost use Rattle.css_sheet.specs.Places.{prelude_in, block_length, no_places, places_by, places_of};
ghost use Rattle.std.specs.Prelude.{None, IfSome, option_map};
ghost use Rattle.css_syntax.specs.Contents.{statement_contents};
ghost use Rattle.css_syntax.specs.Statements.{next_statement, past_between};
ghost use Rattle.css_syntax.specs.Views.{sheet_part_of, statement_of};
ghost use Rattle.css_sheet.specs.SheetItems.{next_part, stray_brace};

use crate::groups::group_of;
use crate::state::{Level, Places, SheetReader};
use css_syntax::places::at_rule_prelude;
use css_syntax::statements::{FoundPart, read_next};
use css_syntax::texts::{front, past_byte, past_gap};
use css_syntax::{Fault, SheetPart, Statement};
use std::alloc::{AllocError, Global};

/// How many group rules may be open at once.
const DEEPEST: usize = 64;

/// What a step of the reader does.
#[derive(Clone, Copy)]
pub(crate) enum Step<'a> {
    /// It read an item.
    Found(SheetPart<'a>),
    /// It entered this group rule.
    Entered(Level<'a>),
    /// It left a group rule.
    Left,
    /// Nothing is left.
    Ended,
}

/// Returns what is left from the prelude of a statement on.
fn prelude_from<'a>(found: &FoundPart<'a>) -> &'a str
    ensures read { result.now
        ≡ prelude_in (statement_of found.now.part.statement) found.now.from.now }
    ensures within { length result.now ≤ length found.now.from.now }
{
    match found.part.statement {
        Statement::AtRule(_) => at_rule_prelude(found.from),
        _ => found.from,
    }
}

/// Returns how many bytes the contents of the block of a statement have, if it has one.
fn block_len(statement: &Statement<'_>) -> usize
    ensures { result ≡ block_length (statement_of statement.now) }
{
    match statement {
        Statement::RuleSet(rule) => rule.block.text.len(),
        Statement::AtRule(rule) => match &rule.block {
            Some(block) => block.text.len(),
            None => 0,
        },
        Statement::Skipped(_) => 0,
    }
}

/// Reads a brace that closes nothing, if one is next.
fn read_brace(text: &str, in_block: bool) -> Option<FoundPart<'_>>
    requires { next_statement in_block text.now ≡ None }
    ensures read { stray_brace (past_between in_block text.now)
        ≡ option_map (λ found. (sheet_part_of found.part, found.rest.now)) result }
    ensures from { IfSome result (λ found. found.from.now ≡ past_between in_block text.now) }
    ensures inside { IfSome result (λ found.
        found.inside.now ≡ statement_contents in_block (past_between in_block text.now)) }
{
    let from = past_gap(text);
    if !in_block || from.is_empty() {
        return None;
    }
    let rest = past_byte(from, b'}');
    Some(FoundPart {
        part: SheetPart {
            text: front(from, rest),
            statement: Statement::Skipped(Fault::StrayBracket),
        },
        from,
        inside: from,
        rest,
    })
}

/// Reads the next statement. In the contents of a group rule, a brace that closes nothing is one.
#[tactic(auto, unfolding(crate::specs::SheetItems::next_part))]
fn read_part(text: &str, in_block: bool) -> Option<FoundPart<'_>>
    ensures read { next_part in_block text.now
        ≡ option_map (λ found. (sheet_part_of found.part, found.rest.now)) result }
    ensures from { IfSome result (λ found. found.from.now ≡ past_between in_block text.now) }
    ensures inside { IfSome result (λ found.
        found.inside.now ≡ statement_contents in_block (past_between in_block text.now)) }
{
    match read_next(text, in_block) {
        Some(found) => Some(found),
        None => read_brace(text, in_block),
    }
}

impl<'a> SheetReader<'a> {
    /// Returns a reader at the start of a sheet. Allocates nothing.
    ///
    /// Every byte of the sheet is in one of the items that are read, in the head or the closing brace of a
    /// group rule, or in what is between these: space bytes, comments, `<!--` and `-->`.
    pub fn new(alloc: Global, text: &'a str) -> SheetReader<'a>
        ensures items { to_come result ≡ sheet_items text.now }
        ensures all { AreSheetItems text.now (to_come result) }
        ensures levels { conditions_of result ≡ [] }
        ensures places { places_now result ≡ no_places }
    {
        SheetReader {
            levels: Vec::new(alloc),
            rest: text,
            end: text.len(),
            places: Places {
                start: 0,
                prelude: 0,
                block: 0,
                block_end: 0,
            },
        }
    }

    /// Returns the group rules that the item which was read last is in, from the outermost.
    pub fn levels(&self) -> &[Level<'a>]
        ensures { map (λ level. condition_at (level_of level)) result.now ≡ conditions_of self.now }
    {
        &self.levels
    }

    /// Returns where the item is that was read last.
    pub fn places(&self) -> Places
        ensures { places_of result ≡ places_now self.now }
    {
        self.places
    }

    /// Where a statement of the innermost text is.
    fn find(&self, found: &FoundPart<'a>) -> Places
        requires from { length found.now.from.now ≤ end_of self.now }
        requires inside { length found.now.inside.now ≤ end_of self.now }
        requires block { block_length (statement_of found.now.part.statement)
            ≤ length found.now.inside.now }
        ensures { places_of result ≡ places_by (end_of self.now) (statement_of found.now.part.statement)
            found.now.from.now found.now.inside.now }
    {
        let block = self.end - found.inside.len();
        Places {
            start: self.end - found.from.len(),
            prelude: self.end - prelude_from(found).len(),
            block,
            block_end: block + block_len(&found.part.statement),
        }
    }

    /// Leaves the innermost group rule, whatever is left of it.
    fn leave(&mut self) -> Step<'a>
        ensures { Leaves self.old result self.new }
    {
        match self.levels.pop() {
            Some(level) => {
                self.rest = level.after;
                self.end = level.after_end;
                Step::Left
            }
            None => Step::Ended,
        }
    }

    /// Reads a statement, and enters it if it is a group rule.
    fn step(&mut self) -> Result<Step<'a>, AllocError>
        ensures { IfOk result (λ step. Steps self.old step self.new) }
    {
        let Some(found) = read_part(self.rest, !self.levels.is_empty()) else {
            return Ok(self.leave());
        };
        let places = self.find(&found);
        match group_of(&found.part.statement) {
            Some(group) if self.levels.len() < DEEPEST => {
                let level = Level {
                    name: group.name,
                    prelude: group.prelude,
                    after: found.rest,
                    after_end: self.end,
                    places,
                };
                self.levels.push(level)?;
                self.rest = group.text;
                self.end = places.block + group.text.len();
                Ok(Step::Entered(level))
            }
            _ => {
                self.rest = found.rest;
                self.places = places;
                Ok(Step::Found(found.part))
            }
        }
    }

    /// Reads the next item: a statement that is no group rule. Returns `None` at the end of the
    /// sheet. Fails only if an allocation fails; after an error the reader is of no use.
    pub fn read_next(&mut self) -> Result<Option<SheetPart<'a>>, AllocError>
        ensures { IfOk result (λ item. GivesItem self.old item self.new) }
    {
        let mut step = self.step()?;
        'moves: while matches!(step, Step::Entered(_) | Step::Left) {
            step = self.step()?;
        }
        match step {
            Step::Found(part) => Ok(Some(part)),
            _ => Ok(None),
        }
    }
}
