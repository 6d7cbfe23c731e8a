//! What `&` stands for in the rules in a style rule.
ghost use Rattle.std.specs.Prelude.{◌≡◌, IfOk, map};
ghost use Rattle.css_selector_text.specs.SpecificityViews.{counts_of};
ghost use Rattle.css_sheet.specs.NestedSelectors.{element_selectors, element_selector, nesting_counts, read_counts};
ghost use Rattle.css_sheet.specs.RuleViews.{rule_selector_of};

use crate::selectors::RuleSelector;
use crate::sheet_rules::with_pseudo_element;
use css_selector_text::{NOTHING, Selector, Specificity, greater};
use std::alloc::{AllocError, Global};

impl<'a> RuleSelector<'a> {
    /// Returns the specificity with the pseudo-element, or nothing if it is unsupported.
    pub fn specificity(&self) -> Specificity
        ensures { counts_of result ≡ read_counts (rule_selector_of self.now) }
    {
        match &self.selector {
            Some(selector) => with_pseudo_element(selector.specificity(), self.pseudo_element),
            None => NOTHING,
        }
    }
}

/// Returns the selector, if it is one of elements and supported.
fn of_elements<'a>(one: RuleSelector<'a>) -> Option<Selector<'a>>
    ensures { result ≡ element_selector (rule_selector_of one.entry) }
{
    match one.pseudo_element {
        Some(_) => None,
        None => one.selector,
    }
}

/// Returns the selectors of these that are of elements and supported, and the greatest specificity of those.
pub(crate) fn list_of<'a>(
    alloc: Global,
    selectors: Vec<RuleSelector<'a>>,
) -> Result<(Vec<Selector<'a>>, Specificity), AllocError>
    ensures list { IfOk result (λ it. it.0.items
        ≡ element_selectors (map rule_selector_of selectors.entry.items)) }
    ensures counts { IfOk result (λ it. counts_of it.1
        ≡ nesting_counts (map rule_selector_of selectors.entry.items)) }
{
    let mut list = Vec::new(alloc);
    let mut most = NOTHING;
    'selectors: for one in selectors {
        if let Some(selector) = of_elements(one) {
            most = greater(most, selector.specificity());
            list.push(selector)?;
        }
    }
    Ok((list, most))
}
