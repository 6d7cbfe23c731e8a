//! Style rules, each with one selector.
ghost use Rattle.std.specs.Prelude.{◌≡◌, true, option_map};
ghost use Rattle.css_syntax.specs.ListReaders.{BeginsList};
ghost use Rattle.css_selector_text.specs.SpecificityViews.{counts_of};
ghost use Rattle.css_sheet.specs.NestedSelectors.{with_element};
ghost use Rattle.css_sheet.specs.SheetOrder.{rule_counts, rule_key};
ghost use Rattle.css_sheet.specs.SheetRuleViews.{sheet_rule_of};

use css_cascade::Origin;
use css_selector_text::{HasSelector, Selector, Specificity};
use css_syntax::Declarations;

/// Returns the specificity with that of a pseudo-element, if there is one.
pub(crate) fn with_pseudo_element(
    specificity: Specificity,
    pseudo_element: Option<&str>,
) -> Specificity
    ensures { counts_of result
        ≡ with_element (counts_of specificity) (option_map (λ name. name.now) pseudo_element.entry) }
{
    match pseudo_element {
        Some(_) => Specificity {
            names: specificity.names.saturating_add(1),
            ..specificity
        },
        None => specificity,
    }
}

/// A group rule that all of a style sheet is in.
#[derive(Clone, Copy)]
pub struct GroupRule<'a> {
    /// The keyword that its name is, in lower case, such as `layer` or `media`.
    pub keyword: &'a str,
    /// What is between its name and its block.
    pub prelude: &'a str,
    /// Of layers without a name in one layer those with the same number are one, in several sheets too. Of
    /// other rules it changes nothing.
    pub number: usize,
}

/// A style sheet that is to be read.
#[derive(Clone, Copy)]
pub struct Sheet<'s, 'a> {
    /// Its text.
    pub text: &'a str,
    /// Where it comes from.
    pub origin: Origin,
    /// The group rules that all of it is in, from the outermost: those of the `@import` rule that names it, for
    /// instance. Its own top level stays one, which no `}` closes.
    pub around: &'s [GroupRule<'a>],
    /// The urls of the namespaces that are known: the first has number 1, of which
    /// `Element::is_in_namespace` of `css_selectors` is asked. If there are none, a selector with a prefix
    /// that is declared is unsupported, and no default namespace counts.
    pub namespaces: &'s [&'s str],
}

/// A style rule with one selector. The rules of one rule set share the text of its block.
///
/// With a `pseudo_element` it is one of these pseudo-elements of the elements that the selector
/// matches, and of no element itself.
#[derive(Drop)]
pub struct SheetRule<'a> {
    /// The origin of its sheet.
    pub origin: Origin,
    /// The rank of its layer: of two rules of one origin, the one whose layer is later in the order of the
    /// cascade has the greater. Rules in no layer have the greatest of their origin; of the author's, it is
    /// how many layers are before.
    pub layer: usize,
    /// The number of the sheet that it is in, among those that were read together.
    pub sheet: usize,
    /// The offset in the sheet, in bytes, at which the block's contents begin. Rules of one rule set,
    /// and no others, have the same sheet and the same offset.
    pub start: usize,
    /// The text of the selector, with its pseudo-element.
    pub text: &'a str,
    /// The selector without its pseudo-element.
    pub selector: Selector<'a>,
    /// The name of the pseudo-element, as written, with what it has in parentheses.
    pub pseudo_element: Option<&'a str>,
    /// The contents of the block of the rule set, or the part of them that is between nested rules.
    pub block: &'a str,
}

impl<'a> SheetRule<'a> {
    /// Returns the declarations of the block, with what is skipped between them.
    pub fn declarations(&self) -> Declarations<'a>
        ensures { BeginsList true self.now.block.now result }
    {
        Declarations::of_block(self.block)
    }

    /// Returns the specificity: that of the selector, and a name more for a pseudo-element.
    pub fn specificity(&self) -> Specificity
        ensures { counts_of result ≡ rule_counts (sheet_rule_of self.now) }
    {
        with_pseudo_element(self.selector.specificity(), self.pseudo_element)
    }

    /// Returns by what rules are ordered: the origin, the rank of the layer, and the counts of the
    /// specificity.
    pub(crate) fn key(&self) -> [usize; 5]
        ensures { result ≡ rule_key (sheet_rule_of self.now) }
    {
        let counts = self.specificity();
        [
            self.origin.rank(),
            self.layer,
            counts.ids as usize,
            counts.classes as usize,
            counts.names as usize,
        ]
    }
}

/// An index of rules finds one with a pseudo-element too, where its selector matches.
impl<'a> HasSelector<'a> for SheetRule<'a> {
    ghost selector_in = { λ rule. rule.selector };

    #[inline(always)]
    fn selector(&self) -> &Selector<'a> {
        &self.selector
    }
}
