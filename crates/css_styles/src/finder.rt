//! Which declarations win by the rules that match an element.
ghost use Rattle.std.specs.Prelude.{◌≡◌, ◌<◌, [], IfOk, IfSome, OnErr, OnOk, length, map, option_map};
ghost use Rattle.std.specs.List.{All};
ghost use Rattle.css_styles.specs.Contenders.{contenders};
ghost use Rattle.css_styles.specs.StyleViews.{names_of, own_of, winner_of};
ghost use Rattle.css_styles.specs.Winners.{AreWinners, winners};
ghost use Rattle.css_styles.specs.internal.Remembered.{no_own};

use crate::asked::find_asked;
use crate::contenders::Contender;
use crate::contest::{Numbered, find_winners, make_room};
use crate::floors::Standing;
use crate::gathering::gather;
use crate::{Own, StyleRules, Winner};
use css_cascade::Weight;
use std::alloc::{AllocError, Global};
use std::marker::Model;

/// How many results are remembered.
const SLOTS: usize = 64;

/// How many rules and how many declarations a result that is remembered has at most.
const MOST: usize = 64;

/// What wins on an element that has no declarations of its own.
#[derive(Drop)]
pub(crate) struct Slot<'a> {
    /// The indices of the rules that match the element.
    pub(crate) indices: Vec<usize>,
    /// The declarations that win.
    pub(crate) found: Vec<Winner<'a>>,
}

impl<'a> Slot<'a> {
    /// Returns a slot with these.
    fn new(alloc: Global, indices: &[usize], found: &[Winner<'a>]) -> Result<Slot<'a>, AllocError>
        ensures indices { IfOk result (λ slot. slot.indices.items ≡ indices.now) }
        ensures found { IfOk result (λ slot. slot.found.items ≡ found.now) }
    {
        Ok(Slot {
            indices: Vec::from_slice(alloc, indices)?,
            found: Vec::from_slice(alloc, found)?,
        })
    }
}

/// Returns a number for these indices.
fn number_of(indices: &[usize]) -> usize {
    let mut number: u64 = 0;
    for index in indices {
        number = number.wrapping_mul(37).wrapping_add(*index as u64);
    }
    (number.wrapping_mul(0x9E37_79B9_7F4A_7C15) >> 32) as usize
}

/// Whether this number was the last one at its place, where it is from now on.
fn comes_again(numbers: &mut [usize], number: usize) -> bool {
    let Some(last) = numbers.get_mut(number % SLOTS) else {
        return false;
    };
    let is_last = *last == number;
    *last = number;
    is_last
}

/// Finds which declarations win by the rules that match an element. What wins on an element with no declarations of its own
/// is remembered for later ones that the same rules match: at most 64 results, none of more than 64 rules or declarations.
#[derive(Drop)]
pub(crate) struct Finder<'s, 'a> {
    /// The rules.
    rules: &'s StyleRules<'a>,
    /// What is remembered, each result at the number of its indices.
    slots: Vec<Option<Slot<'a>>>,
    /// The last number at each place. What wins is remembered when its number comes again.
    numbers: [usize; SLOTS],
    /// The declarations that apply to an element. This list and the others are reused.
    contenders: Vec<Numbered<'a>>,
    /// Those of them that contend for one property.
    rivals: Vec<Contender<'a>>,
    /// The best of each property, by its number.
    best: Vec<Option<Weight>>,
    /// What each property is rolled back to, by its number.
    standings: Vec<Standing>,
    /// Allocates what a call needs.
    alloc: Global,
}

impl<'s, 'a> Model for Finder<'s, 'a> {
    ghost use Rattle.std.specs.Prelude.{List};
    ghost use Rattle.std.specs.Coded.{Coded, codes};
    ghost use Rattle.std.specs.List.{All};
    ghost use Rattle.css_selector_text.specs.Codes.{condition_code, selectors_code};
    ghost use Rattle.css_selector_text.specs.Components.{Simple};
    ghost use Rattle.css_sheet.specs.SheetOrder.{SheetRuleText};
    ghost use Rattle.css_styles.specs.internal.Remembered.{IsSlotOf};

    ghost Value = { List SheetRuleText };

    ghost coded = { let simples : Coded Simple = Prim.hlevel codes in
        Prim.hlevel (codes, condition_code simples, selectors_code simples) };

    ghost view = { λ f. f.rules.now.rules };

    ghost invariant = { λ f. All (IsSlotOf f.rules.now.rules) f.slots.items };
}

impl<'s, 'a> Finder<'s, 'a> {
    /// Returns a finder that remembers nothing. Fails only if an allocation fails.
    pub(crate) fn new(
        alloc: Global,
        rules: &'s StyleRules<'a>,
    ) -> Result<Finder<'s, 'a>, AllocError>
        ensures { IfOk result (λ finder. finder ≡ rules.now.rules) }
    {
        let mut slots = Vec::with_capacity(alloc, SLOTS)?;
        'slots: for _ in 0..SLOTS {
            slots.push(None)?;
        }
        Ok(Finder {
            rules,
            slots,
            numbers: [0; SLOTS],
            contenders: Vec::new(alloc),
            rivals: Vec::new(alloc),
            best: Vec::new(alloc),
            standings: Vec::new(alloc),
            alloc,
        })
    }

    /// Returns what is remembered to win where the rules with these indices match, if it is.
    fn remembered(&self, indices: &[usize]) -> Option<&[Winner<'a>]>
        ensures { IfSome result (λ found. map winner_of found.now ≡ winners self.now indices.now no_own) }
    {
        match self.slots.get(number_of(indices) % SLOTS) {
            Some(Some(slot)) if slot.indices.as_slice() == indices => Some(slot.found.as_slice()),
            _ => None,
        }
    }

    /// Remembers what wins where the rules with these indices match, if they come again and it is not long.
    fn remember(&mut self, indices: &[usize], found: &[Winner<'a>]) -> Result<(), AllocError>
        requires { map winner_of found.now ≡ winners self.old indices.now no_own }
        ensures { self.new ≡ self.old }
    {
        let number = number_of(indices);
        if !comes_again(&mut self.numbers, number) {
            return Ok(());
        }
        let place = number % SLOTS;
        if place >= self.slots.len() || indices.len() > MOST || found.len() > MOST {
            return Ok(());
        }
        let slot = Slot::new(self.alloc, indices, found)?;
        self.slots[place] = Some(slot);
        Ok(())
    }

    /// Finds what wins on an element that the rules with these indices match and that has these declarations of its own.
    fn find(
        &mut self,
        indices: &[usize],
        own: Own<'a>,
        found: &mut Vec<Winner<'a>>,
    ) -> Result<(), AllocError>
        requires { All (λ index. index < length self.old) indices.now }
        ensures winners { OnOk result
            (map winner_of found.new.items ≡ winners self.old indices.now (own_of own.entry)) }
        ensures rules { self.new ≡ self.old }
        ensures err { OnErr result (found.new.items ≡ []) }
    {
        found.clear();
        let all = &mut self.contenders;
        let count = gather(self.alloc, self.rules, indices, own, all)?;
        make_room(&mut self.best, &mut self.standings, count)?;
        let best = &mut self.best;
        find_winners(
            self.alloc,
            &mut self.contenders,
            best,
            &mut self.standings,
            found,
        )
    }

    /// Finds what wins where the rules with these indices match and the element has no declarations of its own, and remembers it.
    fn find_anew(
        &mut self,
        indices: &[usize],
        own: Own<'a>,
        found: &mut Vec<Winner<'a>>,
    ) -> Result<(), AllocError>
        requires within { All (λ index. index < length self.old) indices.now }
        requires none { own_of own ≡ no_own }
        ensures winners { OnOk result
            (map winner_of found.new.items ≡ winners self.old indices.now no_own) }
        ensures rules { self.new ≡ self.old }
        ensures err { OnErr result (found.new.items ≡ []) }
    {
        self.find(indices, own, found)?;
        let remembered = self.remember(indices, found);
        if remembered.is_err() {
            found.clear();
        }
        remembered
    }

    /// Finds what wins on an element that the rules with these indices match and that has these declarations of its own.
    /// The previous items of `found` are dropped. After an error none are left.
    pub(crate) fn winners(
        &mut self,
        indices: &[usize],
        own: Own<'a>,
        found: &mut Vec<Winner<'a>>,
    ) -> Result<(), AllocError>
        requires { All (λ index. index < length self.old) indices.now }
        ensures winners { OnOk result
            (map winner_of found.new.items ≡ winners self.old indices.now (own_of own.entry)) }
        ensures rules { self.new ≡ self.old }
        ensures err { OnErr result (found.new.items ≡ []) }
    {
        if !own.is_empty() {
            return self.find(indices, own, found);
        }
        found.clear();
        if let Some(known) = self.remembered(indices) {
            return found.extend_from_slice(known);
        }
        self.find_anew(indices, own, found)
    }

    /// Finds for each of these properties, which may have several names, what wins on such an element. The previous items of
    /// `found` are dropped. After an error none are left.
    pub(crate) fn winners_named(
        &mut self,
        indices: &[usize],
        own: Own<'a>,
        asked: &[&[&str]],
        found: &mut Vec<Option<Winner<'a>>>,
    ) -> Result<(), AllocError>
        requires { All (λ index. index < length self.old) indices.now }
        ensures winners { OnOk result (AreWinners (contenders self.old indices.now (own_of own.entry))
            (names_of asked.now) (map (option_map winner_of) found.new.items)) }
        ensures rules { self.new ≡ self.old }
        ensures err { OnErr result (found.new.items ≡ []) }
    {
        found.clear();
        let all = &mut self.contenders;
        gather(self.alloc, self.rules, indices, own, all)?;
        find_asked(self.alloc, asked, &self.contenders, &mut self.rivals, found)
    }
}
