//! Which declarations are written into the attributes of each element, and which statements are left for some.
ghost use Rattle.std.specs.Prelude.{◌≡◌, ◌<◌, length};

use crate::elements::{Element, Elements};
use crate::sheets::{Rule, Rules, Stated, goes_back, is_all};
use css_selectors::{Numbering, Selector, Tests};
use css_tree::{MarkingError, NumberedTree, TreeWalk};
use std::alloc::{AllocError, AllocFailed, Global};

/// How many tests of a selector on an element are as much work as one declaration.
const MOST_TESTS: usize = 64;

/// Why the elements of a page are not written.
#[derive(Clone, Copy)]
pub(crate) enum Stop {
    /// An allocation failed.
    Memory,
    /// It would take more work than the limit.
    TooLong,
}

impl From<AllocError> for Stop {
    fn from(_error: AllocError) -> Stop {
        Stop::Memory
    }
}

impl From<MarkingError> for Stop {
    fn from(error: MarkingError) -> Stop {
        match error {
            MarkingError::Memory => Stop::Memory,
            MarkingError::TooManyAnswers => Stop::TooLong,
        }
    }
}

impl<T: Drop> From<AllocFailed<T>> for Stop {
    fn from(_error: AllocFailed<T>) -> Stop {
        Stop::Memory
    }
}

/// What is marked in a round, by numbers.
#[derive(Drop)]
struct Marks {
    rounds: Vec<usize>,
}

impl Marks {
    /// Returns marks for this many numbers.
    fn new(alloc: Global, count: usize) -> Result<Marks, AllocError> {
        Ok(Marks {
            rounds: Vec::from_elem(alloc, 0, count)?,
        })
    }

    /// Marks a number.
    fn mark(&mut self, round: usize, number: usize) {
        if let Some(last) = self.rounds.get_mut(number) {
            *last = round;
        }
    }

    /// Whether a number is marked.
    fn has(&self, round: usize, number: usize) -> bool {
        self.rounds.get(number) == Some(&round)
    }
}

/// Families of properties, of declarations that are all important or all not: which are left in the sheets, and how
/// strong what stays of each may be.
#[derive(Drop)]
struct Families {
    left: Marks,
    /// The last round in which all are left.
    all_left: usize,
    /// The families of which something stays that may apply.
    rivals: Marks,
    /// The place of the strongest of these in the cascade, of each family.
    tops: Vec<usize>,
    /// The same of what sets all properties.
    top_of_all: usize,
}

impl Families {
    /// Returns this many families.
    fn new(alloc: Global, count: usize) -> Result<Families, AllocError> {
        Ok(Families {
            left: Marks::new(alloc, count)?,
            all_left: 0,
            rivals: Marks::new(alloc, count)?,
            tops: Vec::from_elem(alloc, 0, count)?,
            top_of_all: 0,
        })
    }

    /// Begins an element.
    fn begin(&mut self) {
        self.top_of_all = 0;
    }

    /// Leaves all families.
    fn leave_all(&mut self, round: usize) {
        self.all_left = round;
    }

    /// Leaves a family.
    fn leave(&mut self, round: usize, family: usize) {
        if is_all(family) {
            self.all_left = round;
        }
        self.left.mark(round, family);
    }

    /// Whether a family is left.
    fn is_left(&self, round: usize, family: usize) -> bool {
        self.all_left == round || self.left.has(round, family)
    }

    /// Notes that something of a family stays, at a place in the cascade, the first of which is 1.
    fn meet(&mut self, round: usize, family: usize, place: usize) {
        if is_all(family) {
            self.top_of_all = self.top_of_all.max(place);
        }
        let is_met = self.rivals.has(round, family);
        self.rivals.mark(round, family);
        if let Some(top) = self.tops.get_mut(family) {
            *top = if is_met {
                usize::max(*top, place)
            } else {
                place
            };
        }
    }

    /// Whether something that stays may be stronger than what is at a place in the cascade.
    fn may_lose(&self, round: usize, family: usize, place: usize) -> bool {
        let top = if self.rivals.has(round, family) {
            self.tops.get(family).copied().unwrap_or(0)
        } else {
            0
        };
        place < top || place < self.top_of_all
    }
}

/// What is decided for the elements of a page, one after another.
#[derive(Drop)]
struct Decider {
    /// The number of the element, from 1.
    round: usize,
    /// How often declarations were chosen.
    pass: usize,
    normal: Families,
    important: Families,
    /// The properties that an important declaration sets with a known value.
    settled: Marks,
    /// The properties of which no further declaration is written, by importance.
    done_normal: Marks,
    done_important: Marks,
    /// The declarations that were seen.
    seen: Marks,
    /// How much work may yet be done.
    room: usize,
}

/// A declaration that is written.
#[derive(Clone, Copy)]
struct Chosen {
    /// Its index among all.
    index: usize,
    /// The place of its rule in the cascade, the first of which is 1.
    place: usize,
}

/// What is written, and what is left.
#[derive(Drop)]
pub(crate) struct Decided {
    /// What is written into the attribute of each tag, if something is.
    pub(crate) texts: Vec<Option<String>>,
    /// Whether something of each statement is left in its sheet.
    pub(crate) left: Vec<bool>,
    /// Whether each statement matches an element.
    pub(crate) matched: Vec<bool>,
}

/// Sets a flag.
fn set(flags: &mut Vec<bool>, index: usize) {
    if let Some(flag) = flags.get_mut(index) {
        *flag = true;
    }
}

/// Appends the name of a property: in lower case, unless it is a custom one.
fn push_name(out: &mut String, name: &str) -> Result<(), AllocError> {
    if name.starts_with("--") {
        return out.push_str(name);
    }
    for letter in name.chars() {
        out.push(letter.to_ascii_lowercase())?;
    }
    Ok(())
}

/// Appends a declaration as it is written in an attribute.
fn push_declaration(out: &mut String, stated: &Stated<'_>) -> Result<(), AllocError> {
    if !out.is_empty() {
        out.push_str("; ")?;
    }
    push_name(out, stated.declaration.name)?;
    out.push_str(": ")?;
    out.push_str(stated.declaration.value)?;
    if stated.declaration.important {
        out.push_str(" !important")?;
    }
    Ok(())
}

/// Returns how many bytes a declaration has.
fn size_of(stated: &Stated<'_>) -> usize {
    let value = stated.declaration.value.len().saturating_add(16);
    stated.declaration.name.len().saturating_add(value)
}

impl Decider {
    /// Returns what decides by rules, with so much room for work.
    fn new(alloc: Global, rules: &Rules<'_>, room: usize) -> Result<Decider, AllocError> {
        Ok(Decider {
            round: 0,
            pass: 0,
            normal: Families::new(alloc, rules.families)?,
            important: Families::new(alloc, rules.families)?,
            settled: Marks::new(alloc, rules.properties)?,
            done_normal: Marks::new(alloc, rules.properties)?,
            done_important: Marks::new(alloc, rules.properties)?,
            seen: Marks::new(alloc, rules.stated.len())?,
            room,
        })
    }

    /// Takes work from the room.
    fn spend(&mut self, work: usize) -> Result<(), Stop> {
        match self.room.checked_sub(work) {
            Some(room) => {
                self.room = room;
                Ok(())
            }
            None => Err(Stop::TooLong),
        }
    }

    /// Leaves all families of the element.
    fn leave_all(&mut self) {
        self.normal.leave_all(self.round);
        self.important.leave_all(self.round);
    }

    /// Leaves a family of the element.
    fn leave(&mut self, family: usize, important: bool) {
        if important {
            self.important.leave(self.round, family);
        } else {
            self.normal.leave(self.round, family);
        }
    }

    /// Notes that a declaration stays, of a rule at a place in the cascade.
    fn meet(&mut self, stated: &Stated<'_>, place: usize) {
        if stated.declaration.important {
            self.important.meet(self.round, stated.family, place);
        } else {
            self.normal.meet(self.round, stated.family, place);
        }
    }

    /// Whether a declaration is left in its sheet.
    fn is_left(&self, stated: &Stated<'_>) -> bool {
        if stated.declaration.important {
            self.important.is_left(self.round, stated.family)
        } else {
            self.normal.is_left(self.round, stated.family)
        }
    }

    /// Whether a declaration of a rule at a place in the cascade may lose to one that stays.
    fn may_lose(&self, stated: &Stated<'_>, place: usize) -> bool {
        if stated.declaration.important {
            self.important.may_lose(self.round, stated.family, place)
        } else {
            self.normal.may_lose(self.round, stated.family, place)
        }
    }

    /// Leaves what a declaration of a rule may not be written for.
    fn leave_for(&mut self, rule: &Rule, stated: &Stated<'_>, place: usize) {
        let important = stated.declaration.important;
        if rule.is_written && (is_all(stated.family) || stated.goes_back) {
            self.leave(stated.family, important);
        }
        if !rule.is_written {
            self.meet(stated, if rule.is_layered { usize::MAX } else { place });
        }
        // It may begin to match, or cease to, when something is written.
        if rule.asks_style && important {
            self.leave(stated.family, false);
        }
    }

    /// Leaves what may not be written of an element that rules match.
    fn leave_by(&mut self, rules: &Rules<'_>, indices: &[usize]) -> Result<(), Stop> {
        for index in indices {
            let Some(rule) = rules.rules.get(*index) else {
                continue;
            };
            if rule.says_anything {
                self.leave_all();
            }
            let stated = rules.stated_by(rule);
            self.spend(stated.len().saturating_add(1))?;
            for one in stated {
                self.leave_for(rule, one, index.saturating_add(1));
            }
        }
        Ok(())
    }

    /// Notes the properties that an important declaration sets with a known value.
    fn settle_by(&mut self, rules: &Rules<'_>, indices: &[usize]) {
        for index in indices {
            let Some(rule) = rules.rules.get(*index) else {
                continue;
            };
            if rule.is_written {
                for one in rules.stated_by(rule) {
                    if one.declaration.important && one.is_known && !self.is_left(one) {
                        self.settled.mark(self.pass, one.property);
                    }
                }
            }
        }
    }

    /// Whether a declaration is beaten by one with a known value that is written.
    fn is_beaten(&self, stated: &Stated<'_>) -> bool {
        if stated.declaration.important {
            self.done_important.has(self.pass, stated.property)
        } else {
            self.settled.has(self.pass, stated.property)
                || self.done_normal.has(self.pass, stated.property)
        }
    }

    /// Notes that a declaration is written.
    fn finish(&mut self, stated: &Stated<'_>) {
        if !stated.is_known {
            return;
        }
        if stated.declaration.important {
            self.done_important.mark(self.pass, stated.property);
        } else {
            self.done_normal.mark(self.pass, stated.property);
        }
    }

    /// Appends a declaration, if it is written.
    fn choose(
        &mut self,
        stated: &Stated<'_>,
        one: Chosen,
        chosen: &mut Vec<Chosen>,
    ) -> Result<(), Stop> {
        let is_new = !self.seen.has(self.pass, one.index);
        self.seen.mark(self.pass, one.index);
        if is_new && !self.is_left(stated) && !self.is_beaten(stated) {
            self.spend(size_of(stated))?;
            chosen.push(one)?;
            self.finish(stated);
        }
        Ok(())
    }

    /// Appends the declarations of a rule at a place that are written, the last first.
    fn choose_in(
        &mut self,
        rules: &Rules<'_>,
        rule: &Rule,
        place: usize,
        chosen: &mut Vec<Chosen>,
    ) -> Result<(), Stop> {
        for index in (rule.from..rule.to).rev() {
            if let Some(stated) = rules.stated.get(index) {
                self.choose(stated, Chosen { index, place }, chosen)?;
            }
        }
        Ok(())
    }

    /// Finds the declarations that are written of an element that rules match, the strongest first.
    fn choose_by(
        &mut self,
        rules: &Rules<'_>,
        indices: &[usize],
        chosen: &mut Vec<Chosen>,
    ) -> Result<(), Stop> {
        chosen.clear();
        self.pass = self.pass.saturating_add(1);
        self.settle_by(rules, indices);
        for index in indices.iter().rev() {
            if let Some(rule) = rules.rules.get(*index) {
                if rule.is_written {
                    self.choose_in(rules, rule, index.saturating_add(1), chosen)?;
                }
            }
        }
        Ok(())
    }

    /// Leaves the families of declarations that may lose to what stays. Returns whether there are such.
    fn leave_losers(&mut self, rules: &Rules<'_>, chosen: &[Chosen]) -> bool {
        let mut has_losers = false;
        for one in chosen {
            if let Some(stated) = rules.stated.get(one.index) {
                if self.may_lose(stated, one.place) {
                    self.leave(stated.family, stated.declaration.important);
                    has_losers = true;
                }
            }
        }
        has_losers
    }

    /// Whether something of a rule is left.
    fn has_left(&self, rules: &Rules<'_>, rule: &Rule) -> bool {
        rules
            .stated_by(rule)
            .iter()
            .any(|stated| self.is_left(stated))
    }

    /// Notes which statements match, and of which something is left.
    fn note(&self, rules: &Rules<'_>, indices: &[usize], decided: &mut Decided) {
        for index in indices {
            if let Some(rule) = rules.rules.get(*index) {
                if rule.is_written {
                    set(&mut decided.matched, rule.statement);
                    if self.has_left(rules, rule) {
                        set(&mut decided.left, rule.statement);
                    }
                }
            }
        }
    }

    /// Begins an element, which may be written into or not and has this style of its own.
    fn begin(&mut self, may_write: bool, own: &str) {
        self.round = self.round.saturating_add(1);
        self.normal.begin();
        self.important.begin();
        if !may_write || goes_back(own) {
            self.leave_all();
        }
    }

    /// Decides what is written of an element that rules match, the strongest first.
    fn decide(
        &mut self,
        rules: &Rules<'_>,
        indices: &[usize],
        decided: &mut Decided,
        chosen: &mut Vec<Chosen>,
    ) -> Result<(), Stop> {
        self.leave_by(rules, indices)?;
        self.choose_by(rules, indices, chosen)?;
        if self.leave_losers(rules, chosen.as_slice()) {
            self.choose_by(rules, indices, chosen)?;
        }
        self.note(rules, indices, decided);
        Ok(())
    }
}

/// Returns the text of declarations, of which the last comes first.
fn text_of(alloc: Global, rules: &Rules<'_>, chosen: &[Chosen]) -> Result<String, AllocError> {
    let mut out = String::new(alloc);
    for one in chosen.iter().rev() {
        if let Some(stated) = rules.stated.get(one.index) {
            push_declaration(&mut out, stated)?;
        }
    }
    Ok(out)
}

/// Notes what is written into the attribute of a tag before its own value.
fn push_text(
    decided: &mut Decided,
    tag: Option<usize>,
    text: String,
    own: &str,
) -> Result<(), AllocError> {
    let mut text = text;
    if text.is_empty() {
        return Ok(());
    }
    if !own.as_bytes().trim_ascii().is_empty() {
        text.push_str("; ")?;
    }
    if let Some(index) = tag {
        if let Some(place) = decided.texts.get_mut(index) {
            *place = Some(text);
        }
    }
    Ok(())
}

/// What decides about the elements of a page.
#[derive(Clone, Copy)]
pub(crate) struct Asked<'r, 'a> {
    /// The rules.
    pub(crate) rules: &'r Rules<'a>,
    /// The elements.
    pub(crate) elements: &'r Elements,
    /// The tags that are not written into.
    pub(crate) excluded: &'r [usize],
    /// How much work may be done.
    pub(crate) room: usize,
}

/// Returns the tag of an element that may be written into.
fn tag_of(asked: &Asked<'_, '_>, element: &Element) -> Option<usize> {
    match element.tag {
        Some(tag) if !asked.excluded.contains(&tag) => Some(tag),
        _ => None,
    }
}

/// Decides what is written of an element that rules match.
fn decide_element(
    alloc: Global,
    asked: &Asked<'_, '_>,
    element: &Element,
    indices: &[usize],
    decider: &mut Decider,
    decided: &mut Decided,
) -> Result<(), Stop> {
    if !element.is_shown {
        return Ok(());
    }
    let own = asked.elements.style_of(element).unwrap_or("");
    let tag = tag_of(asked, element);
    decider.begin(tag.is_some(), own);
    let mut chosen = Vec::new(alloc);
    decider.decide(asked.rules, indices, decided, &mut chosen)?;
    let text = text_of(alloc, asked.rules, chosen.as_slice())?;
    push_text(decided, tag, text, own)?;
    Ok(())
}

/// Decides what is written of the element at an index.
fn decide_at(
    alloc: Global,
    walk: &mut TreeWalk<'_, '_, '_, '_>,
    index: usize,
    asked: &Asked<'_, '_>,
    decider: &mut Decider,
    decided: &mut Decided,
) -> Result<(), Stop>
    requires { index < length walk.old.page.rows }
    ensures { walk.new.page ≡ walk.old.page }
{
    let mut indices = Vec::new(alloc);
    walk.matching(index, &mut indices, &mut Tests::new())?;
    if let Some(element) = asked.elements.all.get(index) {
        decide_element(alloc, asked, element, indices.as_slice(), decider, decided)?;
    }
    Ok(())
}

/// Decides what is written of each element of a page.
fn decide_each(
    alloc: Global,
    walk: &mut TreeWalk<'_, '_, '_, '_>,
    asked: &Asked<'_, '_>,
    decider: &mut Decider,
    decided: &mut Decided,
) -> Result<(), Stop> {
    for index in 0..walk.element_count() {
        decide_at(alloc, walk, index, asked, decider, decided)?;
    }
    Ok(())
}

/// Returns nothing decided yet, of a page with this many tags.
fn undecided(alloc: Global, tags: usize, statements: usize) -> Result<Decided, AllocError> {
    let mut texts = Vec::with_capacity(alloc, tags)?;
    for _ in 0..tags {
        texts.push(None)?;
    }
    Ok(Decided {
        texts,
        left: Vec::from_elem(alloc, false, statements)?,
        matched: Vec::from_elem(alloc, false, statements)?,
    })
}

/// Decides what is written of the elements of a page with this many tags, by selectors of the rules as the page
/// reads them. The page is marked with the lists that they ask.
pub(crate) fn decide(
    alloc: Global,
    page: &mut NumberedTree<'_, '_>,
    selectors: Vec<Selector<'_>>,
    asked: &Asked<'_, '_>,
    tags: usize,
) -> Result<Decided, Stop> {
    let tests = selectors.len().saturating_mul(page.len());
    if tests / MOST_TESTS > asked.room {
        return Err(Stop::TooLong);
    }
    let mut numbering = Numbering::new(alloc);
    let selectors = numbering.number_all(alloc, selectors)?;
    page.mark(alloc, numbering.lists(), asked.room)?;
    let mut walk = TreeWalk::new(alloc, &selectors, page)?;
    let mut decider = Decider::new(alloc, asked.rules, asked.room)?;
    let mut decided = undecided(alloc, tags, asked.rules.statements.len())?;
    decide_each(alloc, &mut walk, asked, &mut decider, &mut decided)?;
    Ok(decided)
}
