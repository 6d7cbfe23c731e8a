//! The rules of sheets, with their declarations.
ghost use Rattle.std.specs.Prelude.{◌≡◌, ◌≤◌, ◌<◌, ◌^◌, ℕ, Bool, List, IfErr, IfOk, OnOk, IfSome, map, length, slice_get};
ghost use Rattle.css_sheet.specs.SheetOrder.{cascade_rules, nested_lists, source_rules, declarations_in};
ghost use Rattle.css_sheet.specs.SheetRuleViews.{Answers, sheet_of, sheet_rule_of};
ghost use Rattle.css_sheet.specs.declared.sheet_error.SheetError.TheVariants.{TooManyDeclarations, TooManyLayers};
ghost use Rattle.css_sheet.specs.SheetLayers.{layer_count};
ghost use Rattle.css_cascade.specs.Layers.{most_layers};
ghost use Rattle.css_selectors.specs.MarkedLists.{list_of};
ghost use Rattle.css_styles.specs.NumberedRules.{numbered_sheets};
ghost use Rattle.css_styles.specs.StyleViews.{AreAnswered, IsMarkedInHtml};
ghost use Rattle.css_tree.specs.Marks.{AreMarked};
ghost use Rattle.css_styles.specs.internal.Numbered.{AllStated, AreStated};

use crate::contest::Numbered;
use crate::numbered_rules::number_rules;
use crate::properties::Properties;
use crate::stated::read_stated;
use css_selectors::{MarkedList, Numbering, Selector};
use css_sheet::{Sheet, SheetError, SheetRule, SheetRules, read_sheets};
use css_tree::{NumberedTree, TreeWalk};
use std::alloc::{AllocError, Global};
use std::marker::Model;

/// Returns the declarations of each rule, with the numbers of their properties. The rules are all.
fn read_all<'a>(
    alloc: Global,
    rules: &[SheetRule<'a>],
    properties: &mut Properties<'a>,
) -> Result<Vec<Vec<Numbered<'a>>>, AllocError>
    ensures { IfOk result (λ lists. AllStated properties.new (map sheet_rule_of rules.now) lists.items) }
{
    let mut lists: Vec<Vec<Numbered<'a>>> = Vec::with_capacity(alloc, rules.len())?;
    for rule in rules {
        let list = read_stated(alloc, rule, lists.len(), properties)?;
        lists.push(list)?;
    }
    Ok(lists)
}

/// The style rules of sheets in the order of the cascade, and their declarations, each read once.
#[derive(Drop)]
pub struct StyleRules<'a> {
    /// The rules.
    rules: Vec<SheetRule<'a>>,
    /// The lists that have numbers in their selectors.
    lists: Vec<MarkedList<'a>>,
    /// The declarations of each rule.
    stated: Vec<Vec<Numbered<'a>>>,
    /// The properties that are stated.
    properties: Properties<'a>,
}

impl<'a> Model for StyleRules<'a> {
    ghost use Rattle.std.specs.Prelude.{map};
    ghost use Rattle.std.specs.Coded.{Coded, codes};
    ghost use Rattle.css_selector_text.specs.Codes.{condition_code, selectors_code};
    ghost use Rattle.css_selector_text.specs.Components.{Simple};
    ghost use Rattle.css_selectors.specs.MarkedLists.{list_of};
    ghost use Rattle.css_sheet.specs.SheetRuleViews.{sheet_rule_of};
    ghost use Rattle.css_styles.specs.StyleViews.{AreAnswered, StyleRulesText};
    ghost use Rattle.css_styles.specs.internal.Numbered.{AllStated};

    ghost Value = { StyleRulesText };

    ghost coded = { let simples : Coded Simple = Prim.hlevel codes in
        Prim.hlevel (codes, condition_code simples, selectors_code simples) };

    ghost view = { λ r. record {
      rules = map sheet_rule_of r.rules.items;
      lists = map list_of r.lists.items;
      properties = r.properties;
    } };

    ghost invariant = { λ r. AllStated r.properties (map sheet_rule_of r.rules.items) r.stated.items
        × AreAnswered (map sheet_rule_of r.rules.items) (map list_of r.lists.items) };
}

impl<'a> StyleRules<'a> {
    /// Reads the style rules of sheets, one after another, as [`read_sheets`] does, and their declarations.
    /// Their selectors ask lists by numbers ([`Numbering`](css_selectors::Numbering)), which [`lists`] returns:
    /// those that `&` stands for in nested rules, and those of pseudo-classes such as `:has()`.
    ///
    /// [`lists`]: StyleRules::lists
    ///
    /// Fails if the rules hold more than `most` declarations, if there are more than 1,024 layers, or if an
    /// allocation fails.
    pub fn read<C: Fn(&str, &str) -> bool>(
        alloc: Global,
        sheets: &[Sheet<'_, 'a>],
        most: usize,
        holds: C,
    ) -> Result<StyleRules<'a>, SheetError>
        requires { C.IsAlwaysCallable holds }
        ensures rules { (answers : List ℕ → List ℕ → Bool) → Answers (C.post holds) answers
            → IfOk result (λ read. read.rules
            ≡ (numbered_sheets (nested_lists answers (map sheet_of sheets.now))
            (cascade_rules answers (map sheet_of sheets.now))).0) }
        ensures lists { (answers : List ℕ → List ℕ → Bool) → Answers (C.post holds) answers
            → IfOk result (λ read. read.lists
            ≡ (numbered_sheets (nested_lists answers (map sheet_of sheets.now))
            (cascade_rules answers (map sheet_of sheets.now))).1.lists) }
        ensures within { (answers : List ℕ → List ℕ → Bool) → Answers (C.post holds) answers
            → OnOk result
            (declarations_in (source_rules answers (map sheet_of sheets.now)) ≤ most) }
        ensures refused { (answers : List ℕ → List ℕ → Bool) → Answers (C.post holds) answers
            → IfErr result (λ error. error ≡ TooManyDeclarations
            → most < declarations_in (source_rules answers (map sheet_of sheets.now))) }
        ensures few_layers { (answers : List ℕ → List ℕ → Bool) → Answers (C.post holds) answers
            → OnOk result (layer_count answers (map sheet_of sheets.now) ≤ most_layers) }
        ensures many_layers { (answers : List ℕ → List ℕ → Bool) → Answers (C.post holds) answers
            → IfErr result (λ error. error ≡ TooManyLayers
            → most_layers < layer_count answers (map sheet_of sheets.now)) }
    {
        let SheetRules { rules, lists } = read_sheets(alloc, sheets, most, holds)?;
        let mut numbering = Numbering::of_lists(alloc, lists)?;
        let rules = number_rules(alloc, &mut numbering, rules)?;
        let mut properties = Properties::new(alloc);
        let stated = read_all(alloc, &rules, &mut properties)?;
        Ok(StyleRules {
            rules,
            lists: numbering.into_lists(),
            stated,
            properties,
        })
    }

    /// Returns the rules, in the order of the cascade.
    pub fn as_slice(&self) -> &[SheetRule<'a>]
        ensures { map sheet_rule_of result.now ≡ self.now.rules }
    {
        &self.rules
    }

    /// Returns how many rules there are.
    pub fn count(&self) -> usize
        ensures count { result ≡ length self.now.rules }
        ensures few { result < 2 ^ 63 }
    {
        self.rules.len()
    }

    /// Returns the lists that selectors ask by numbers, each at its number less one.
    pub fn lists(&self) -> &[MarkedList<'a>]
        ensures { map list_of result.now ≡ self.now.lists }
    {
        &self.lists
    }

    /// Returns how many lists there are, and says that the rules ask no others.
    fn list_count(&self) -> usize
        ensures { AreAnswered self.now.rules self.now.lists }
    {
        self.lists.len()
    }

    /// Returns a walk with an index of the rules over a page that is marked with [`lists`](StyleRules::lists). Fails only
    /// if an allocation fails.
    pub fn walk<'s, 'p, 't>(
        &'s self,
        alloc: Global,
        page: &'s NumberedTree<'p, 't>,
    ) -> Result<TreeWalk<'s, 'a, 'p, 't>, AllocError>
        requires { AreMarked self.now.lists page.now }
        ensures page { IfOk result (λ walk. walk.page ≡ page.now) }
        ensures selectors { IfOk result (λ walk. walk.walk.selectors
            ≡ map (λ rule. rule.selector) self.now.rules) }
    {
        let _count = self.list_count();
        TreeWalk::new(alloc, self.as_slice(), page)
    }

    /// Returns a walk over a page of an HTML document with an index of these selectors, which are those of the rules as
    /// the document reads them. So are the lists that the page is marked with. Fails only if an allocation fails.
    pub fn walk_in_html<'s, 'w, 'p, 't>(
        &self,
        alloc: Global,
        selectors: &'s [Selector<'w>],
        page: &'s NumberedTree<'p, 't>,
    ) -> Result<TreeWalk<'s, 'w, 'p, 't>, AllocError>
        requires { IsMarkedInHtml self.now selectors.now page.now }
        ensures page { IfOk result (λ walk. walk.page ≡ page.now) }
        ensures selectors { IfOk result (λ walk. walk.walk.selectors ≡ selectors.now) }
    {
        let _count = self.list_count();
        TreeWalk::new(alloc, selectors, page)
    }

    /// Returns the declarations of the rule at an index.
    pub(crate) fn stated(&self, index: usize) -> &[Numbered<'a>]
        requires { index < length self.now.rules }
        ensures { IfSome (slice_get self.now.rules index) (λ rule.
            AreStated self.now.properties index rule result.now) }
    {
        &self.stated[index]
    }

    /// Returns the properties that are stated.
    pub(crate) fn properties(&self) -> &Properties<'a>
        ensures { result.now ≡ self.now.properties }
    {
        &self.properties
    }
}
