//! The parts of a sheet, one after another and in place: declarations, and rules that begin and end.
ghost use Rattle.std.specs.Prelude.{◌≡◌, ◌++◌, ◌∷◌, [], ℕ, Bool, List, true, map, IfOk, IfSome, option_map, length};
ghost use Rattle.css_text.specs.Reading.{Ends};
ghost use Rattle.css_syntax.specs.DeclarationLists.{past_separators};
ghost use Rattle.css_syntax.specs.Statements.{past_between};
ghost use Rattle.css_syntax.specs.Views.{prelude_of};
ghost use Rattle.css_syntax.specs.BlockViews.{block_part_of};
ghost use Rattle.css_selector_text.specs.NameViews.{names_of};
ghost use Rattle.css_sheet.specs.SheetItems.{group_keyword as group_keyword_of};
ghost use Rattle.css_sheet.specs.SheetParts.{nesting_of as nesting_of_rules, applies_in as applies_in_rules};
ghost use Rattle.css_sheet.specs.SheetParts.{nesting_in as nesting_in_kind, kind_holds as kind_holds_by};
ghost use Rattle.css_sheet.specs.SheetParts.{after_at_rule, run_part as run_part_of, past_run as past_run_of};
ghost use Rattle.css_sheet.specs.SheetParts.{stated_from, at_rule_in, part_inside as inside_of};
ghost use Rattle.css_sheet.specs.SheetParts.{at_rule_outside, part_outside as outside_of, next_inside, next_outside};
ghost use Rattle.css_sheet.specs.SheetParts.{is_more_open as is_more_open_in, from_part, next_in, opened, open_after, offset_in};
ghost use Rattle.css_sheet.specs.SheetParts.{begins, given_kind, open_given, parts_given, Source};
ghost use Rattle.css_sheet.specs.GroupViews.{group_rule_of};
ghost use Rattle.css_sheet.specs.ContentViews.{kind_of, part_of};
ghost use Rattle.css_sheet.specs.internal.PartViews.{nesting_text, open_of, open_in, from_in, left_in, given_in};
ghost use Rattle.css_sheet.specs.internal.PartViews.{parts_to_come, source_of, GivesPart, PartShrinks};
ghost use Rattle.css_sheet.specs.internal.PartViews.{GivesNext, NextShrinks};
ghost use Rattle.css_sheet.specs.SheetRuleViews.{Answers, sheet_of};

use crate::groups::group_keyword;
use crate::sheet_rules::{GroupRule, Sheet};
use css_selector_text::Names;
use css_syntax::blocks::{BlockPart, FoundBlockPart, read_next_block_part, read_next_rule_part};
use css_syntax::statements::read_block;
use css_syntax::texts::front;
use css_syntax::{AtRule, Item, Prelude};
use std::alloc::{AllocError, Global};

/// A rule.
#[derive(Clone, Copy)]
pub enum RuleKind<'a> {
    /// A style rule, by what is before its block.
    Style(Prelude<'a>),
    /// A group rule, by the keyword that its name is and by its prelude.
    Group(&'a str, &'a str),
}

/// How many style rules something is in.
#[derive(Clone, Copy)]
pub(crate) enum Nesting<'a> {
    /// None.
    Outside,
    /// One, by what is before its block.
    Within(Prelude<'a>),
    /// More.
    Nested,
}

/// A rule that is open.
#[derive(Clone, Copy)]
pub(crate) struct OpenRule<'a> {
    /// The rule.
    pub(crate) kind: RuleKind<'a>,
    /// What its contents are in.
    pub(crate) nesting: Nesting<'a>,
    /// Whether they apply, since it and all group rules that it is in hold.
    pub(crate) applies: bool,
    /// The place of its contents: the number of the sheet that it is in, and an offset there.
    pub(crate) place: [usize; 2],
}

/// A part of a sheet.
#[derive(Clone, Copy)]
pub enum Part<'a> {
    /// Declarations in a style rule, with what is skipped between them, as they stand there.
    States(&'a str),
    /// A rule begins, and its contents follow.
    Begins(RuleKind<'a>),
    /// The innermost rule ends.
    Ends,
    /// An item outside of style rules.
    Stands(Item<'a>),
}

/// A part and the rest after it.
#[derive(Clone, Copy)]
struct OpenedPart<'a> {
    part: Part<'a>,
    rest: &'a str,
}

/// A part, what is left of its text from it on, and the rest after it.
#[derive(Clone, Copy)]
struct FoundPart<'a> {
    part: Part<'a>,
    from: &'a str,
    rest: &'a str,
}

/// Reads the parts of a sheet.
#[derive(Drop)]
pub(crate) struct SheetParts<'s, 'a> {
    /// The rules that are open, from the outermost.
    pub(crate) around: Vec<OpenRule<'a>>,
    /// The group rules that are still to begin of those that all of the sheet is in.
    pub(crate) given: &'s [GroupRule<'a>],
    /// How many group rules all of it is in.
    pub(crate) depth: usize,
    /// What is left of the sheet from the part on that was read last.
    pub(crate) from: &'a str,
    /// What is left of the sheet.
    pub(crate) rest: &'a str,
    /// The number of the sheet.
    pub(crate) sheet: usize,
    /// How many bytes it has.
    pub(crate) size: usize,
    /// The names that it declares.
    pub(crate) names: &'s Names<'s>,
}

/// Returns what the next part is in.
fn nesting_of<'a>(around: &[OpenRule<'a>]) -> Nesting<'a>
    ensures { nesting_text result ≡ nesting_of_rules (map open_of around.now) }
{
    match around.last() {
        Some(rule) => rule.nesting,
        None => Nesting::Outside,
    }
}

/// Whether the next part applies.
fn applies_in(around: &[OpenRule<'_>]) -> bool
    ensures { result ≡ applies_in_rules (map open_of around.now) }
{
    match around.last() {
        Some(rule) => rule.applies,
        None => true,
    }
}

/// Whether more than `depth` rules are open.
fn is_more_open(around: &[OpenRule<'_>], depth: usize) -> bool
    ensures { result ≡ is_more_open_in depth (map open_of around.now) }
{
    depth < around.len()
}

/// Returns what is in a rule that is in this.
fn nesting_in<'a>(kind: &RuleKind<'a>, outer: Nesting<'a>) -> Nesting<'a>
    ensures { nesting_text result ≡ nesting_in_kind (kind_of kind.now) (nesting_text outer.entry) }
{
    match kind {
        RuleKind::Style(prelude) => match outer {
            Nesting::Outside => Nesting::Within(*prelude),
            _ => Nesting::Nested,
        },
        RuleKind::Group(_, _) => outer,
    }
}

/// Whether a rule holds. A group rule is asked about.
fn kind_holds<C: Fn(&str, &str) -> bool>(kind: &RuleKind<'_>, holds: &C) -> bool
    requires { C.IsAlwaysCallable holds.now }
    ensures { (answers : List ℕ → List ℕ → Bool) → Answers (C.post holds.now) answers
        → result ≡ kind_holds_by answers (kind_of kind.now) }
{
    match kind {
        RuleKind::Style(_) => true,
        RuleKind::Group(keyword, prelude) => holds(*keyword, *prelude),
    }
}

/// Returns the rest after an at-rule among declarations, from its contents on. A group rule is not
/// among them.
fn past_at_rule<'a>(name: &str, rest: &'a str) -> Option<&'a str>
    ensures { after_at_rule (group_keyword_of name.now) rest.now
        ≡ option_map (λ after. (tt, after.now)) result }
{
    match group_keyword(name) {
        None => Some(read_block(rest).rest),
        Some(_) => None,
    }
}

/// Returns the rest after the next part of a block, if it is among declarations.
#[tactic(auto, unfolding(crate::specs::SheetParts::run_part))]
fn run_part(text: &str) -> Option<&str>
    ensures { run_part_of text.now ≡ option_map (λ after. (tt, after.now)) result }
{
    match read_next_block_part(text) {
        None => None,
        Some(found) => match found.part {
            BlockPart::Listed(_) => Some(found.rest),
            BlockPart::OpensAtRule(name, _) => past_at_rule(name, found.rest),
            BlockPart::OpensRule(_) => None,
            BlockPart::Closes => None,
        },
    }
}

/// Returns the rest after all declarations that follow one another.
fn past_run(text: &str) -> &str
    ensures { result.now ≡ past_run_of text.now }
{
    let mut rest = text;
    'parts: while let Some(after) = run_part(rest) {
        rest = after;
    }
    rest
}

/// Reads the declarations from this start on, of which this is left after the first.
fn state_from<'a>(start: &'a str, rest: &'a str) -> OpenedPart<'a>
    requires { Ends start.now rest.now }
    ensures { stated_from start.now rest.now ≡ (part_of result.part, result.rest.now) }
{
    let after = past_run(rest);
    OpenedPart {
        part: Part::States(front(start, after)),
        rest: after,
    }
}

/// Begins a group rule in a style rule, or reads declarations from another at-rule on.
fn begin_inside<'a>(
    start: &'a str,
    name: &'a str,
    prelude: Prelude<'a>,
    rest: &'a str,
) -> OpenedPart<'a>
    requires { Ends start.now rest.now }
    ensures { at_rule_in start.now (prelude_of prelude.entry) rest.now (group_keyword_of name.now)
        ≡ (part_of result.part, result.rest.now) }
{
    match group_keyword(name) {
        None => state_from(start, read_block(rest).rest),
        Some(keyword) => OpenedPart {
            part: Part::Begins(RuleKind::Group(keyword, prelude.text)),
            rest,
        },
    }
}

/// Goes on from a part of the block of a style rule.
fn go_on_inside(found: FoundBlockPart<'_>) -> OpenedPart<'_>
    requires { Ends found.from.now found.rest.now }
    ensures { inside_of found.entry.from.now (block_part_of found.entry.part, found.entry.rest.now)
        ≡ (part_of result.part, result.rest.now) }
{
    match found.part {
        BlockPart::Listed(_) => state_from(found.from, found.rest),
        BlockPart::OpensRule(prelude) => OpenedPart {
            part: Part::Begins(RuleKind::Style(prelude)),
            rest: found.rest,
        },
        BlockPart::OpensAtRule(name, prelude) => {
            begin_inside(found.from, name, prelude, found.rest)
        }
        BlockPart::Closes => OpenedPart {
            part: Part::Ends,
            rest: found.rest,
        },
    }
}

/// Returns a part that begins at this text.
fn found_from<'a>(from: &'a str, opened: OpenedPart<'a>) -> FoundPart<'a>
    ensures part { result.part ≡ opened.entry.part }
    ensures from { result.from.now ≡ from.now }
    ensures rest { result.rest.now ≡ opened.entry.rest.now }
{
    FoundPart {
        part: opened.part,
        from,
        rest: opened.rest,
    }
}

/// Reads the next part of the block of a style rule.
fn read_inside(text: &str) -> Option<FoundPart<'_>>
    ensures read { next_inside text.now
        ≡ option_map (λ found. (part_of found.part, found.rest.now)) result }
    ensures from { IfSome result (λ found. found.from.now ≡ past_separators text.now) }
{
    match read_next_block_part(text) {
        None => None,
        Some(found) => Some(found_from(found.from, go_on_inside(found))),
    }
}

/// Begins a group rule outside of style rules, or reads another at-rule.
fn begin_outside<'a>(name: &'a str, prelude: Prelude<'a>, rest: &'a str) -> OpenedPart<'a>
    ensures { at_rule_outside name.now (prelude_of prelude.entry) rest.now (group_keyword_of name.now)
        ≡ (part_of result.part, result.rest.now) }
{
    match group_keyword(name) {
        None => {
            let found = read_block(rest);
            OpenedPart {
                part: Part::Stands(Item::AtRule(AtRule {
                    name,
                    prelude,
                    block: Some(found.block),
                })),
                rest: found.rest,
            }
        }
        Some(keyword) => OpenedPart {
            part: Part::Begins(RuleKind::Group(keyword, prelude.text)),
            rest,
        },
    }
}

/// Goes on from a part outside of style rules.
fn go_on_outside(found: FoundBlockPart<'_>) -> OpenedPart<'_>
    ensures { outside_of (block_part_of found.entry.part, found.entry.rest.now)
        ≡ (part_of result.part, result.rest.now) }
{
    match found.part {
        BlockPart::Listed(item) => OpenedPart {
            part: Part::Stands(item),
            rest: found.rest,
        },
        BlockPart::OpensRule(prelude) => OpenedPart {
            part: Part::Begins(RuleKind::Style(prelude)),
            rest: found.rest,
        },
        BlockPart::OpensAtRule(name, prelude) => begin_outside(name, prelude, found.rest),
        BlockPart::Closes => OpenedPart {
            part: Part::Ends,
            rest: found.rest,
        },
    }
}

/// Reads the next part outside of style rules.
fn read_outside(text: &str, in_block: bool) -> Option<FoundPart<'_>>
    ensures read { next_outside in_block text.now
        ≡ option_map (λ found. (part_of found.part, found.rest.now)) result }
    ensures from { IfSome result (λ found. found.from.now ≡ past_between in_block text.now) }
{
    match read_next_rule_part(text, in_block) {
        None => None,
        Some(found) => Some(found_from(found.from, go_on_outside(found))),
    }
}

/// Reads the next part, by the grammar of what it is in. The text is in `depth` group rules.
#[tactic(auto, unfolding(crate::specs::SheetParts::next_in))]
fn read_next_in<'a>(around: &[OpenRule<'_>], depth: usize, text: &'a str) -> Option<FoundPart<'a>>
    ensures read { next_in depth (map open_of around.now) text.now
        ≡ option_map (λ found. (part_of found.part, found.rest.now)) result }
    ensures from { IfSome result (λ found.
        found.from.now ≡ from_part depth (map open_of around.now) text.now) }
{
    match nesting_of(around) {
        Nesting::Outside => read_outside(text, is_more_open(around, depth)),
        Nesting::Within(_) => read_inside(text),
        Nesting::Nested => read_inside(text),
    }
}

impl<'s, 'a> SheetParts<'s, 'a> {
    /// Returns a reader at the start of the sheet, which has this number and declares these names. Allocates
    /// nothing.
    pub(crate) fn new(
        alloc: Global,
        sheet: &Sheet<'s, 'a>,
        names: &'s Names<'s>,
        number: usize,
    ) -> SheetParts<'s, 'a>
        ensures open { open_in result ≡ [] }
        ensures sheet { (source_of result).sheet ≡ number }
        ensures size { (source_of result).size ≡ length sheet.now.text.now }
        ensures names { (source_of result).names ≡ names_of names.now }
        ensures parts { let text = sheet_of sheet.now in
            let source : Source = record {
              sheet = number;
              size = length text.text;
              depth = length text.around;
              names = names_of names.now;
            } in
            (answers : List ℕ → List ℕ → Bool)
            → parts_to_come answers result ≡ parts_given answers source [] text.around text.text }
    {
        SheetParts {
            around: Vec::new(alloc),
            given: sheet.around,
            depth: sheet.around.len(),
            from: sheet.text,
            rest: sheet.text,
            sheet: number,
            size: sheet.text.len(),
            names,
        }
    }

    /// Returns the offset in the sheet from which on this is left of it.
    fn offset(&self, rest: &str) -> usize
        ensures { result ≡ offset_in (source_of self.now) rest.now }
    {
        self.size.saturating_sub(rest.len())
    }

    /// Returns the offset in the sheet at which the part that was read last ends.
    pub(crate) fn end(&self) -> usize
        ensures { result ≡ offset_in (source_of self.now) (left_in self.now) }
    {
        self.offset(self.rest)
    }

    /// Whether the part that was read last applies.
    pub(crate) fn applies(&self) -> bool
        ensures { result ≡ applies_in_rules (open_in self.now) }
    {
        applies_in(&self.around)
    }

    /// Opens a rule, whose contents have this place. A group rule is asked about, if all that it is in
    /// hold.
    fn begin<C: Fn(&str, &str) -> bool>(
        &mut self,
        kind: RuleKind<'a>,
        place: [usize; 2],
        holds: &C,
    ) -> Result<(), AllocError>
        requires { C.IsAlwaysCallable holds.now }
        ensures rest { left_in self.new ≡ left_in self.old }
        ensures given { given_in self.new ≡ given_in self.old }
        ensures source { source_of self.new ≡ source_of self.old }
        ensures around { (answers : List ℕ → List ℕ → Bool) → Answers (C.post holds.now) answers
            → IfOk result (λ _. open_in self.new
            ≡ open_in self.old ++ opened answers (open_in self.old) (kind_of kind.entry) place ∷ []) }
    {
        let nesting = nesting_in(&kind, nesting_of(&self.around));
        let applies = applies_in(&self.around) && kind_holds(&kind, holds);
        self.around.push(OpenRule {
            kind,
            nesting,
            applies,
            place,
        })?;
        Ok(())
    }

    /// Opens or closes what a part does, which ends at this place.
    fn go_through<C: Fn(&str, &str) -> bool>(
        &mut self,
        part: &Part<'a>,
        place: [usize; 2],
        holds: &C,
    ) -> Result<(), AllocError>
        requires { C.IsAlwaysCallable holds.now }
        ensures rest { left_in self.new ≡ left_in self.old }
        ensures given { given_in self.new ≡ given_in self.old }
        ensures source { source_of self.new ≡ source_of self.old }
        ensures around { (answers : List ℕ → List ℕ → Bool) → Answers (C.post holds.now) answers
            → IfOk result (λ _. open_in self.new
            ≡ open_after answers (open_in self.old) (part_of part.now) place) }
    {
        match part {
            Part::Begins(kind) => self.begin(*kind, place, holds),
            Part::Ends => {
                self.around.pop();
                Ok(())
            }
            Part::States(_) => Ok(()),
            Part::Stands(_) => Ok(()),
        }
    }

    /// Begins a group rule that all of the sheet is in.
    fn begin_given<C: Fn(&str, &str) -> bool>(
        &mut self,
        rule: &GroupRule<'a>,
        holds: &C,
    ) -> Result<Part<'a>, AllocError>
        requires { C.IsAlwaysCallable holds.now }
        ensures rest { left_in self.new ≡ left_in self.old }
        ensures source { source_of self.new ≡ source_of self.old }
        ensures from { IfOk result (λ part. from_in self.new ≡ left_in self.old) }
        ensures part { IfOk result (λ part. part_of part ≡ begins (given_kind (group_rule_of rule.now))) }
        ensures around { (answers : List ℕ → List ℕ → Bool) → Answers (C.post holds.now) answers
            → IfOk result (λ _. open_in self.new
            ≡ open_given answers (open_in self.old) (group_rule_of rule.now)) }
    {
        let part = Part::Begins(RuleKind::Group(rule.keyword, rule.prelude));
        self.go_through(&part, [rule.number, 0], holds)?;
        self.from = self.rest;
        Ok(part)
    }

    /// Reads the next part of the text.
    fn read_next<C: Fn(&str, &str) -> bool>(
        &mut self,
        holds: &C,
    ) -> Result<Option<Part<'a>>, AllocError>
        requires { C.IsAlwaysCallable holds.now }
        ensures given { given_in self.new ≡ given_in self.old }
        ensures source { source_of self.new ≡ source_of self.old }
        ensures size { IfOk result (λ part. NextShrinks self.old part self.new) }
        ensures parts { (answers : List ℕ → List ℕ → Bool) → Answers (C.post holds.now) answers
            → IfOk result (λ part. GivesNext answers self.old part self.new) }
    {
        match read_next_in(&self.around, self.depth, self.rest) {
            None => Ok(None),
            Some(found) => {
                let place = [self.sheet, self.offset(found.rest)];
                self.go_through(&found.part, place, holds)?;
                self.from = found.from;
                self.rest = found.rest;
                Ok(Some(found.part))
            }
        }
    }

    /// Returns the next part: the group rules that all of the sheet is in begin first. What a part begins is
    /// open then; what it ends is not. Each group rule is asked about once, by its keyword and its prelude,
    /// if all that it is in hold.
    pub(crate) fn next<C: Fn(&str, &str) -> bool>(
        &mut self,
        holds: &C,
    ) -> Result<Option<Part<'a>>, AllocError>
        requires { C.IsAlwaysCallable holds.now }
        ensures source { source_of self.new ≡ source_of self.old }
        ensures size { IfOk result (λ part. PartShrinks self.old part self.new) }
        ensures parts { (answers : List ℕ → List ℕ → Bool) → Answers (C.post holds.now) answers
            → IfOk result (λ part. GivesPart answers self.old part self.new) }
    {
        match self.given {
            [rule, more @ ..] => {
                let part = self.begin_given(rule, holds)?;
                self.given = more;
                Ok(Some(part))
            }
            [] => self.read_next(holds),
        }
    }
}
