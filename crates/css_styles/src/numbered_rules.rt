//! Numbers in the selectors of rules.
ghost use Rattle.std.specs.Prelude.{◌≡◌, IfOk, map};
ghost use Rattle.css_sheet.specs.SheetRuleViews.{sheet_rule_of};
ghost use Rattle.css_styles.specs.NumberedRules.{numbered_rule, numbered_rules};

use css_selectors::Numbering;
use css_sheet::SheetRule;
use std::alloc::{AllocError, Global};

/// Returns a rule with numbers in its selector.
fn number_rule<'a>(
    alloc: Global,
    numbering: &mut Numbering<'a>,
    rule: SheetRule<'a>,
) -> Result<SheetRule<'a>, AllocError>
    ensures { IfOk result (λ numbered. (sheet_rule_of numbered, numbering.new)
        ≡ numbered_rule numbering.old (sheet_rule_of rule.entry)) }
{
    let SheetRule {
        origin,
        layer,
        sheet,
        start,
        text,
        selector,
        pseudo_element,
        block,
    } = rule;
    let selector = numbering.number(alloc, selector)?;
    Ok(SheetRule {
        origin,
        layer,
        sheet,
        start,
        text,
        selector,
        pseudo_element,
        block,
    })
}

/// Returns rules with numbers in their selectors.
pub(crate) fn number_rules<'a>(
    alloc: Global,
    numbering: &mut Numbering<'a>,
    rules: Vec<SheetRule<'a>>,
) -> Result<Vec<SheetRule<'a>>, AllocError>
    ensures { IfOk result (λ numbered. (map sheet_rule_of numbered.items, numbering.new)
        ≡ numbered_rules numbering.old (map sheet_rule_of rules.entry.items)) }
{
    let mut numbered = Vec::with_capacity(alloc, rules.len())?;
    'rules: for rule in rules {
        numbered.push(number_rule(alloc, numbering, rule)?)?;
    }
    Ok(numbered)
}
