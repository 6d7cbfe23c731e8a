//! The order of rules by specificity.
ghost use Rattle.std.specs.Prelude.{◌≡◌, ◌++◌, OnErr, OnOk, IfOk, filter, length};
ghost use Rattle.std.specs.List.{range_with_len};
ghost use Rattle.simplecss_grammar.specs.Statements.{has_declaration};
ghost use Rattle.simplecss_grammar.specs.Sheets.{ordered};
ghost use Rattle.simplecss.specs.RuleViews.{rule_of, rules_of};
ghost use Rattle.simplecss.specs.internal.RuleOrders.{weight_at, IsOrder, OrdersRules, IsMovedBy};

use crate::sheet::Rule;
use std::alloc::{AllocError, Global};

/// Returns the numbers from 0 to before `len`.
fn numbers(alloc: Global, len: usize) -> Result<Vec<usize>, AllocError>
    ensures { IfOk result (λ list. list.items ≡ range_with_len 0 len) }
{
    let mut list = Vec::with_capacity(alloc, len)?;
    for number in 0..len {
        list.push(number)?;
    }
    Ok(list)
}

/// Returns the specificity of the rule at the index, and zeros past the end.
fn weight_at(rules: &[Rule], index: usize) -> [u8; 3]
    ensures { result ≡ weight_at (rules_of rules.now) index }
{
    match rules.get(index) {
        Some(rule) => rule.selector.specificity(),
        None => [0; 3],
    }
}

/// Returns the indices of the rules, stably sorted by specificity.
fn indices_in_order(alloc: Global, rules: &[Rule]) -> Result<Vec<usize>, AllocError>
    ensures { IfOk result (λ indices. OrdersRules (rules_of rules.now) indices.items) }
{
    let mut indices = numbers(alloc, rules.len())?;
    indices.sort_by_cached_key(
        |index: &usize| -> [u8; 3]
            ensures { result ≡ weight_at (rules_of rules.entry.now) index.now }
        { weight_at(rules, *index) },
    )?;
    Ok(indices)
}

/// Moves the rules to where `order` says, by exchanges only. `who` has the rule at each index, and
/// `at` the index of each rule.
fn arrange(rules: &mut Vec<Rule>, order: &[usize], mut who: Vec<usize>, mut at: Vec<usize>)
    requires order { IsOrder (length rules.old.items) order.now }
    requires who { who.items ≡ range_with_len 0 (length rules.old.items) }
    requires at { at.items ≡ range_with_len 0 (length rules.old.items) }
    ensures len { length rules.new.items ≡ length rules.old.items }
    ensures moved { IsMovedBy order.now rules.old.items rules.new.items }
{
    for (index, first) in order.iter().enumerate() {
        let from = at[*first];
        let other = who[index];
        rules.swap(index, from);
        who.swap(index, from);
        at.swap(*first, other);
    }
}

/// Sorts the rules stably by specificity, in place. After an error `rules` is unchanged.
fn sort_rules(rules: &mut Vec<Rule>) -> Result<(), AllocError>
    ensures ok { OnOk result (rules_of rules.new.items ≡ ordered (rules_of rules.old.items)) }
    ensures err { OnErr result (rules.new.items ≡ rules.old.items) }
{
    let alloc = *rules.allocator();
    let order = indices_in_order(alloc, rules)?;
    let who = numbers(alloc, rules.len())?;
    let at = numbers(alloc, rules.len())?;
    arrange(rules, order.as_slice(), who, at);
    Ok(())
}

/// Appends `more`; an empty `rules` takes its buffer. After an error `rules` is unchanged.
pub(crate) fn join<'a>(rules: &mut Vec<Rule<'a>>, mut more: Vec<Rule<'a>>) -> Result<(), AllocError>
    ensures ok { OnOk result (rules.new.items ≡ rules.old.items ++ more.entry.items) }
    ensures err { OnErr result (rules.new.items ≡ rules.old.items) }
{
    if rules.is_empty() {
        std::mem::swap(rules, &mut more);
        return Ok(());
    }
    rules.append(&mut more)
}

/// Adds rules, orders all that have a declaration, and drops the others. After an error
/// `rules` is unchanged.
pub(crate) fn merge<'a>(rules: &mut Vec<Rule<'a>>, more: Vec<Rule<'a>>) -> Result<(), AllocError>
    ensures ok { OnOk result (rules_of rules.new.items
        ≡ ordered (filter has_declaration (rules_of rules.old.items ++ rules_of more.entry.items))) }
    ensures err { OnErr result (rules.new.items ≡ rules.old.items) }
{
    let len = rules.len();
    join(rules, more)?;
    if let Err(e) = sort_rules(rules) {
        rules.truncate(len);
        return Err(e);
    }
    rules.retain(
        |rule: &Rule| -> bool
            ensures { result ≡ has_declaration (rule_of rule.now) }
        { !rule.declarations.is_empty() },
    );
    Ok(())
}
