//! The group rules that all of a sheet is in, which are passed as numbers of those that hold.

ghost use Rattle.std.specs.Prelude.{◌≡◌, IfOk, map, take, drop};
ghost use Rattle.css_sheet.specs.GroupViews.{group_rule_of};
ghost use Rattle.simplecss_calls.specs.WinnerNumbers.{group_rule_at as group_rule_at_of};

use crate::contents::text_at;
use css_sheet::GroupRule;
use std::alloc::{AllocError, Global};

/// Returns the group rule of this number, by two texts for each.
fn group_rule_at<'a>(groups: &[&'a str], number: usize) -> GroupRule<'a>
    ensures { group_rule_of result ≡ group_rule_at_of (map (λ text. text.now) groups.now) number }
{
    if number >= groups.len() {
        return GroupRule {
            keyword: "",
            prelude: "",
            number,
        };
    }
    GroupRule {
        keyword: text_at(groups, 2 * number),
        prelude: text_at(groups, 2 * number + 1),
        number,
    }
}

/// Returns the group rules of these numbers.
pub fn group_rules<'a>(
    alloc: Global,
    groups: &[&'a str],
    numbers: &[usize],
) -> Result<Vec<GroupRule<'a>>, AllocError>
    ensures { IfOk result (λ rules. map group_rule_of rules.items
        ≡ map (group_rule_at_of (map (λ text. text.now) groups.now)) numbers.now) }
{
    let mut rules = Vec::new(alloc);
    let mut left = numbers;
    'numbers: while let [number, others @ ..] = left {
        rules.push(group_rule_at(groups, *number))?;
        left = others;
    }
    Ok(rules)
}

/// Returns the first group rules, so many if they are there.
pub fn first_rules<'s, 'a>(rules: &'s [GroupRule<'a>], count: usize) -> &'s [GroupRule<'a>]
    ensures { map group_rule_of result.now ≡ take count (map group_rule_of rules.now) }
{
    if count < rules.len() {
        &rules[..count]
    } else {
        rules
    }
}

/// Returns the group rules after these.
pub fn later_rules<'s, 'a>(rules: &'s [GroupRule<'a>], count: usize) -> &'s [GroupRule<'a>]
    ensures { map group_rule_of result.now ≡ drop count (map group_rule_of rules.now) }
{
    if count < rules.len() {
        &rules[count..]
    } else {
        &[]
    }
}
