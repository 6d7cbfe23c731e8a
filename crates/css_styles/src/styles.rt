//! A walk along a page, for the declarations that win.
ghost use Rattle.std.specs.Prelude.{◌≡◌, ◌<◌, ◌^◌, ℕ, List, [], IfOk, OnOk, OnErr, length, map, option_map};
ghost use Rattle.css_matching.specs.ListTrees.{spot};
ghost use Rattle.css_index.specs.Found.{AreMatches};
ghost use Rattle.css_index.specs.Tested.{AreTried};
ghost use Rattle.css_tree.specs.Marks.{AreMarked};
ghost use Rattle.css_tree.specs.Pages.{page_document};
ghost use Rattle.css_tree.specs.Reports.{reported_of};
ghost use Rattle.css_styles.specs.Contenders.{contenders};
ghost use Rattle.css_styles.specs.StyleViews.{IsMarkedInHtml, StylesText, names_of, own_of, winner_of};
ghost use Rattle.css_styles.specs.Winners.{AreWinners, winners};

use crate::finder::Finder;
use crate::{Own, StyleRules, Winner};
use css_selectors::{Selector, Tests};
use css_tree::{NumberedTree, TreeWalk};
use std::alloc::{AllocError, Global};
use std::marker::Model;

/// A walk over the elements of a page: which declarations win on each. The page is marked with the lists that the
/// selectors of the rules ask by numbers ([`NumberedTree::mark`]), and while the walk lives it does not change.
///
/// Elements may be asked in any order. Where each comes after the last one in the order of the document,
/// it opens each element at most once, and only those with children. What a call takes beside the tests is
/// linear in the declarations of the rules that match the element and of its style attribute, but
/// for finding the names of the latter, and for sorting those that win, or all of them where one is rolled back.
#[derive(Drop)]
pub struct Styles<'s, 'a, 'w, 'p, 't> {
    /// The rules.
    rules: &'s StyleRules<'a>,
    /// The page.
    page: &'s NumberedTree<'p, 't>,
    /// The walk with their selectors.
    walk: TreeWalk<'s, 'w, 'p, 't>,
    /// The indices of the rules that match an element. This list is reused.
    matching: Vec<usize>,
    /// Finds what wins by these rules.
    finder: Finder<'s, 'a>,
}

impl<'s, 'a, 'w, 'p, 't> Model for Styles<'s, 'a, 'w, 'p, 't> {
    ghost use Rattle.std.specs.Prelude.{◌≡◌, length};
    ghost use Rattle.std.specs.Coded.{Coded, codes};
    ghost use Rattle.css_selector_text.specs.Codes.{condition_code};
    ghost use Rattle.css_selector_text.specs.Components.{Simple};
    ghost use Rattle.css_styles.specs.StyleViews.{StylesText};

    ghost Value = { StylesText };

    ghost coded = { let simples : Coded Simple = Prim.hlevel codes in
        Prim.hlevel (codes, condition_code simples) };

    ghost view = { λ s. record { rules = s.rules.now.rules; page = s.page.now; walk = s.walk.walk } };

    ghost invariant = { λ s. (length s.walk.walk.selectors ≡ length s.rules.now.rules)
        × (s.walk.page ≡ s.page.now) × (s.finder ≡ s.rules.now.rules) };
}

impl<'s, 'a, 'w, 'p, 't> Styles<'s, 'a, 'w, 'p, 't> {
    /// Returns these rules with a walk over a page.
    fn with_walk(
        alloc: Global,
        rules: &'s StyleRules<'a>,
        page: &'s NumberedTree<'p, 't>,
        walk: TreeWalk<'s, 'w, 'p, 't>,
    ) -> Result<Styles<'s, 'a, 'w, 'p, 't>, AllocError>
        requires selectors { length walk.walk.selectors ≡ length rules.now.rules }
        requires page { walk.page ≡ page.now }
        ensures { IfOk result (λ styles. styles
            ≡ record { rules = rules.now.rules; page = page.now; walk = walk.entry.walk }) }
    {
        Ok(Styles {
            rules,
            page,
            walk,
            matching: Vec::new(alloc),
            finder: Finder::new(alloc, rules)?,
        })
    }

    /// Returns a walk over a page that is marked with the lists of the rules ([`StyleRules::lists`]), with an index of
    /// the rules. No element is open. Fails only if an allocation fails.
    pub fn new(
        alloc: Global,
        rules: &'s StyleRules<'a>,
        page: &'s NumberedTree<'p, 't>,
    ) -> Result<Styles<'s, 'a, 'a, 'p, 't>, AllocError>
        requires marked { AreMarked rules.now.lists page.now }
        ensures rules { IfOk result (λ styles. styles.rules ≡ rules.now.rules) }
        ensures page { IfOk result (λ styles. styles.page ≡ page.now) }
        ensures selectors { IfOk result (λ styles. styles.walk.selectors
            ≡ map (λ rule. rule.selector) rules.now.rules) }
    {
        let walk = rules.walk(alloc, page)?;
        Styles::with_walk(alloc, rules, page, walk)
    }

    /// Returns a walk over a page of an HTML document, with an index of these selectors, which are those of the rules as
    /// the document reads them. So are the lists that the page is marked with. No element is open. Fails only if an
    /// allocation fails.
    pub fn in_html(
        alloc: Global,
        rules: &'s StyleRules<'a>,
        selectors: &'s [Selector<'w>],
        page: &'s NumberedTree<'p, 't>,
    ) -> Result<Styles<'s, 'a, 'w, 'p, 't>, AllocError>
        requires marked { IsMarkedInHtml rules.now selectors.now page.now }
        ensures rules { IfOk result (λ styles. styles.rules ≡ rules.now.rules) }
        ensures page { IfOk result (λ styles. styles.page ≡ page.now) }
        ensures selectors { IfOk result (λ styles. styles.walk.selectors ≡ selectors.now) }
    {
        let walk = rules.walk_in_html(alloc, selectors, page)?;
        Styles::with_walk(alloc, rules, page, walk)
    }

    /// Returns how many rules there are.
    pub fn rule_count(&self) -> usize
        ensures count { result ≡ length self.now.rules }
        ensures few { result < 2 ^ 63 }
    {
        self.rules.count()
    }

    /// Returns how many elements the page has.
    pub fn element_count(&self) -> usize
        ensures { result ≡ length self.now.page.rows }
    {
        self.page.len()
    }

    /// Finds the declarations that win on the element at an index that has these of its own, and counts the
    /// tests as [`TreeWalk::matching`] does: for each property the one that counts and that no other that does
    /// beats. They are in the order of the cascade, the strongest last, so that each is to be applied after those
    /// before it: those of origins and layers in turn, presentation declarations before the author's rules,
    /// and those of the style attribute after all rules; then the important ones, of which those of an earlier
    /// origin or layer are later.
    ///
    /// An important declaration wins over others; then the origins decide, the presentation declarations being
    /// hints; then one of the attribute wins over those of rules; of those that are not important one in a
    /// later layer, and of important ones one in an earlier layer; then one of greater specificity, and then
    /// the one that is later. Rules with a pseudo-element do not apply to the element. A name is compared as
    /// it is written, in any case of its ASCII letters if it is not that of a custom property (`--x`);
    /// shorthands are not expanded.
    ///
    /// As long as the one that wins for a property has the value `revert` or `revert-layer`, what is of its
    /// origin, or in its layer, and what is after that do not count for the property: hints are the author's
    /// for `revert`, and a style attribute is a layer after all others. `revert` of the user agent's wins as
    /// it is, and so does a `revert` or `revert-layer` with nothing before it, in no origin and no layer and of no
    /// property: it leaves what the declarations before it set. Else, if none counts, none wins. Where something is
    /// rolled back, all that apply are sorted once, however many layers and origins are rolled back.
    ///
    /// The previous items of `found` are dropped. Fails only if an allocation fails; then no items are
    /// left, and the walk goes on.
    pub fn winners(
        &mut self,
        element: usize,
        own: Own<'a>,
        found: &mut Vec<Winner<'a>>,
        tests: &mut Tests,
    ) -> Result<(), AllocError>
        requires { element < length self.old.page.rows }
        ensures winners { OnOk result ((indices : List ℕ)
            × AreMatches page_document (spot self.old.page element) self.old.walk.selectors indices
            × (map winner_of found.new.items ≡ winners self.old.rules indices (own_of own.entry))) }
        ensures tests { OnOk result ((tried : List ℕ)
            × AreTried page_document (spot self.old.page element) (reported_of (spot self.old.page element))
            self.new.walk tried tests.old tests.new) }
        ensures rules { self.new.rules ≡ self.old.rules }
        ensures page { self.new.page ≡ self.old.page }
        ensures selectors { self.new.walk.selectors ≡ self.old.walk.selectors }
        ensures err { OnErr result (found.new.items ≡ []) }
    {
        found.clear();
        self.walk.matching(element, &mut self.matching, tests)?;
        self.finder.winners(&self.matching, own, found)
    }

    /// Finds for each of these properties the declaration that wins on the element at an index that has these
    /// of its own, as [`Styles::winners`] does. A property has one name or several, as a longhand and the
    /// shorthands that set it: of the declarations that apply, have one of its names and count, no other
    /// beats the one that wins. If there are none, none wins.
    ///
    /// They are in the order of the properties, and the previous items of `found` are dropped. For each
    /// property the time grows as the declarations that apply times its names. Fails only if an allocation
    /// fails; then no items are left, and the walk goes on.
    pub fn winners_named(
        &mut self,
        element: usize,
        own: Own<'a>,
        asked: &[&[&str]],
        found: &mut Vec<Option<Winner<'a>>>,
        tests: &mut Tests,
    ) -> Result<(), AllocError>
        requires { element < length self.old.page.rows }
        ensures winners { OnOk result ((indices : List ℕ)
            × AreMatches page_document (spot self.old.page element) self.old.walk.selectors indices
            × AreWinners (contenders self.old.rules indices (own_of own.entry))
            (names_of asked.now) (map (option_map winner_of) found.new.items)) }
        ensures tests { OnOk result ((tried : List ℕ)
            × AreTried page_document (spot self.old.page element) (reported_of (spot self.old.page element))
            self.new.walk tried tests.old tests.new) }
        ensures rules { self.new.rules ≡ self.old.rules }
        ensures page { self.new.page ≡ self.old.page }
        ensures selectors { self.new.walk.selectors ≡ self.old.walk.selectors }
        ensures err { OnErr result (found.new.items ≡ []) }
    {
        found.clear();
        self.walk.matching(element, &mut self.matching, tests)?;
        self.finder.winners_named(&self.matching, own, asked, found)
    }
}
