//! The style rules that are open where a sheet is read, and the lists of selectors that `&` stands for in
//! the rules in them.
ghost use Rattle.std.specs.Prelude.{◌≡◌, ◌++◌, ◌∷◌, [], IfOk, None, map, option_map};
ghost use Rattle.css_syntax.specs.Views.{prelude_of};
ghost use Rattle.css_selector_text.specs.NameViews.{names_of};
ghost use Rattle.css_sheet.specs.RuleSelectors.{context, is_listed as is_listed_of, listed_under};
ghost use Rattle.css_sheet.specs.RuleViews.{listed_result};
ghost use Rattle.css_sheet.specs.OpenParents.{none_open, with_selectors, with_list, parent_in as parent_in_of};
ghost use Rattle.css_sheet.specs.OpenParents.{entered, begun, begun_style, left_innermost, before_rule, after_part_of};
ghost use Rattle.css_sheet.specs.OpenParents.{checked, checked_for, or_same as or_same_of};
ghost use Rattle.css_sheet.specs.ParentViews.{parent_of, parents_of};
ghost use Rattle.css_sheet.specs.internal.OpenViews.{is_known_dropped as is_known_dropped_of};
ghost use Rattle.css_sheet.specs.ContentViews.{kind_of, part_of};
ghost use Rattle.css_sheet.specs.internal.PartViews.{open_of};
ghost use Rattle.css_sheet.specs.SheetParts.{applies_in as applies_in_rules};

use crate::nested_selectors::list_of;
use crate::open_layers::is_layer;
use crate::parts::{OpenRule, Part, RuleKind};
use crate::selectors::{RuleSelector, read_listed, read_selectors};
use css_selector_text::{Names, Nesting, Selector};
use css_syntax::{Fault, Prelude};
use std::alloc::{AllocError, Global};

/// What is known of the list of selectors of a style rule.
#[derive(Clone, Copy)]
pub(crate) enum OwnList {
    /// Nothing, as long as it was not needed.
    Unread,
    /// It is valid: a layer is in the rule.
    Valid,
    /// What `&` stands for in the rules in it: there was one.
    Numbered(Nesting),
}

/// A style rule that is open.
#[derive(Clone, Copy)]
pub(crate) struct StyleRule<'n, 'a> {
    /// What is before its block.
    pub(crate) prelude: Prelude<'a>,
    /// What `&` stands for there, if the rule is in another one.
    pub(crate) under: Option<Nesting>,
    /// The names that its sheet declares.
    pub(crate) names: &'n Names<'n>,
    /// What is known of its list.
    pub(crate) own: OwnList,
}

/// The style rule that something is in.
#[derive(Clone, Copy)]
pub(crate) enum Parent<'n, 'a> {
    /// None.
    NoRule,
    /// One that has no rules: it does not apply, or a rule that it is in is invalid.
    Dropped,
    /// This one.
    Style(StyleRule<'n, 'a>),
}

/// The style rules that are open, and the lists of those with rules in them.
#[derive(Drop)]
pub(crate) struct OpenParents<'n, 'a> {
    /// The style rule that is innermost.
    pub(crate) innermost: Parent<'n, 'a>,
    /// Of each rule that is open, from the outermost: the style rule that it is in, if it is a style rule.
    pub(crate) outer: Vec<Option<Parent<'n, 'a>>>,
    /// The lists so far.
    pub(crate) lists: Vec<Vec<Selector<'a>>>,
}

/// Returns a style rule with this prelude, in this one, where these names are declared.
fn parent_in<'n, 'a>(
    names: &'n Names<'n>,
    prelude: Prelude<'a>,
    outer: Parent<'n, 'a>,
) -> Parent<'n, 'a>
    ensures { parent_of result
        ≡ parent_in_of (names_of names.now) (prelude_of prelude.entry) (parent_of outer.entry) }
{
    let under = match outer {
        Parent::NoRule => None,
        Parent::Style(
            StyleRule {
                own: OwnList::Numbered(own),
                ..
            },
        ) => Some(own),
        _ => return Parent::Dropped,
    };
    Parent::Style(StyleRule {
        prelude,
        under,
        names,
        own: OwnList::Unread,
    })
}

/// Whether the list of a style rule is valid.
fn is_listed(alloc: Global, rule: &StyleRule<'_, '_>) -> Result<bool, AllocError>
    ensures { IfOk result (λ valid. is_listed_of (listed_under
        (context rule.now.under (names_of rule.now.names.now)) (prelude_of rule.now.prelude)) ≡ valid) }
{
    let read = read_listed(alloc, rule.names, rule.under, &rule.prelude)?;
    Ok(read.is_ok())
}

/// Returns the same style rule, of whose list it is known whether it is valid.
fn check<'n, 'a>(alloc: Global, parent: Parent<'n, 'a>) -> Result<Parent<'n, 'a>, AllocError>
    ensures { IfOk result (λ same. parent_of same ≡ checked (parent_of parent.entry)) }
{
    match parent {
        Parent::Style(rule) if matches!(rule.own, OwnList::Unread) => {
            if !is_listed(alloc, &rule)? {
                return Ok(Parent::Dropped);
            }
            Ok(Parent::Style(StyleRule {
                own: OwnList::Valid,
                ..rule
            }))
        }
        _ => Ok(parent),
    }
}

/// Returns the style rule that the rule was in which ends, if it is a style rule, or else the same.
fn or_same<'n, 'a>(innermost: Parent<'n, 'a>, last: Option<Parent<'n, 'a>>) -> Parent<'n, 'a>
    ensures { parent_of result ≡ or_same_of (parent_of innermost.entry) (option_map parent_of last.entry) }
{
    last.unwrap_or(innermost)
}

impl<'n, 'a> OpenParents<'n, 'a> {
    /// Returns that nothing is open, and no list.
    pub(crate) fn new(alloc: Global) -> OpenParents<'n, 'a>
        ensures { parents_of result ≡ none_open [] }
    {
        OpenParents {
            innermost: Parent::NoRule,
            outer: Vec::new(alloc),
            lists: Vec::new(alloc),
        }
    }

    /// Adds the list of the innermost rule, if its selectors are valid.
    fn add_list(
        &mut self,
        alloc: Global,
        rule: StyleRule<'n, 'a>,
        selectors: Result<Vec<RuleSelector<'a>>, Fault>,
    ) -> Result<(), AllocError>
        ensures { IfOk result (λ _. parents_of self.new ≡ with_selectors (parents_of self.old)
            (prelude_of rule.entry.prelude) (context rule.entry.under (names_of rule.entry.names.now))
            (listed_result (λ l. l.items) selectors.entry)) }
    {
        match selectors {
            Err(_) => self.innermost = Parent::Dropped,
            Ok(all) => {
                let (list, specificity) = list_of(alloc, all)?;
                self.lists.push(list)?;
                self.innermost = Parent::Style(StyleRule {
                    own: OwnList::Numbered(Nesting {
                        number: self.lists.len(),
                        specificity,
                    }),
                    ..rule
                });
            }
        }
        Ok(())
    }

    /// Adds the list of the innermost rule, if it has none.
    fn add_own_list(&mut self, alloc: Global) -> Result<(), AllocError>
        ensures { IfOk result (λ _. parents_of self.new ≡ with_list (parents_of self.old)) }
    {
        let innermost = self.innermost;
        match innermost {
            Parent::Style(rule) if !matches!(rule.own, OwnList::Numbered(_)) => {
                let selectors = read_selectors(alloc, rule.names, rule.under, &rule.prelude)?;
                self.add_list(alloc, rule, selectors)
            }
            _ => Ok(()),
        }
    }

    /// Enters a style rule, of which this is innermost then.
    fn enter(&mut self, parent: Parent<'n, 'a>) -> Result<(), AllocError>
        ensures { IfOk result (λ _. parents_of self.new
            ≡ entered (parents_of self.old) (parent_of parent.entry)) }
    {
        self.outer.push(Some(self.innermost))?;
        self.innermost = parent;
        Ok(())
    }

    /// Begins a style rule, which applies or not.
    fn begin_style(
        &mut self,
        alloc: Global,
        names: &'n Names<'n>,
        prelude: Prelude<'a>,
        applies: bool,
    ) -> Result<(), AllocError>
        ensures { IfOk result (λ _. parents_of self.new
            ≡ begun_style (names_of names.now) applies (prelude_of prelude.entry) (parents_of self.old)) }
    {
        if !applies {
            return self.enter(Parent::Dropped);
        }
        self.add_own_list(alloc)?;
        self.enter(parent_in(names, prelude, self.innermost))
    }

    /// Enters a group rule. If it is a layer that applies, the list of the innermost rule is needed.
    fn enter_group(&mut self, alloc: Global, is_needed: bool) -> Result<(), AllocError>
        ensures { IfOk result (λ _. parents_of self.new ≡ record {
          innermost = checked_for is_needed (parents_of self.old).innermost;
          outer = (parents_of self.old).outer ++ None ∷ [];
          lists = (parents_of self.old).lists;
        }) }
    {
        if is_needed {
            self.innermost = check(alloc, self.innermost)?;
        }
        self.outer.push(None)?;
        Ok(())
    }

    /// Begins a rule, which applies or not.
    fn begin(
        &mut self,
        alloc: Global,
        names: &'n Names<'n>,
        kind: &RuleKind<'a>,
        applies: bool,
    ) -> Result<(), AllocError>
        ensures { IfOk result (λ _. parents_of self.new
            ≡ begun (names_of names.now) applies (kind_of kind.now) (parents_of self.old)) }
    {
        match kind {
            RuleKind::Style(prelude) => self.begin_style(alloc, names, *prelude, applies),
            RuleKind::Group(keyword, _) => {
                let is_needed = applies && is_layer(*keyword);
                self.enter_group(alloc, is_needed)
            }
        }
    }

    /// Leaves the innermost rule.
    fn leave(&mut self)
        ensures { parents_of self.new ≡ left_innermost (parents_of self.old) }
    {
        if let Some(last) = self.outer.pop() {
            self.innermost = or_same(self.innermost, last);
        }
    }

    /// Leaves all that is open, if only one rule is open then.
    fn leave_others(&mut self, around: &[OpenRule<'a>])
        ensures { parents_of self.new ≡ before_rule (map open_of around.now) (parents_of self.old) }
    {
        if around.len() == 1 {
            self.outer.clear();
            self.innermost = Parent::NoRule;
        }
    }

    /// Whether the innermost rule is dropped, as far as it is known.
    pub(crate) fn is_known_dropped(&self) -> bool
        ensures { result ≡ is_known_dropped_of (parents_of self.now).innermost }
    {
        matches!(self.innermost, Parent::Dropped)
    }

    /// Enters what a part begins, and leaves what it ends. These rules are open then, and its sheet declares
    /// these names.
    pub(crate) fn go_through(
        &mut self,
        alloc: Global,
        names: &'n Names<'n>,
        part: &Part<'a>,
        around: &[OpenRule<'a>],
        applies: bool,
    ) -> Result<(), AllocError>
        requires { applies ≡ applies_in_rules (map open_of around.now) }
        ensures { IfOk result (λ _. parents_of self.new
            ≡ after_part_of (names_of names.now) (parents_of self.old) (part_of part.now)
            (map open_of around.now)) }
    {
        match part {
            Part::Begins(kind) => {
                self.leave_others(around);
                self.begin(alloc, names, kind, applies)
            }
            Part::Ends => {
                self.leave();
                Ok(())
            }
            Part::States(_) => Ok(()),
            Part::Stands(_) => Ok(()),
        }
    }
}
