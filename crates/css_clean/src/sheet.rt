//! Sheets, cleaned.
ghost use Rattle.std.specs.Prelude.{◌≡◌, ◌∷◌, [], ◌++◌, List, length, true, false, IfOk, OnOk, map, option_map, Some, string_bytes};
ghost use Rattle.css_syntax.specs.Statements.{statements};
ghost use Rattle.css_syntax.specs.Placed.{placed_statements};
ghost use Rattle.css_syntax.specs.Views.{at_rule_of, block_of, prelude_of, statement_of};
ghost use Rattle.css_clean.specs.Sheets.{is_clean};
ghost use Rattle.std.specs.Cow.{cow_str_bytes};
ghost use Rattle.css_clean.specs.Groups.{group_name};
ghost use Rattle.css_clean.specs.KeptSheets.{kept_rule, kept_inner, kept_inner_statement, kept_statement};
ghost use Rattle.css_clean.specs.KeptSheets.{KeptRule, kept_statements, group_with_rules, kept_group};
ghost use Rattle.css_clean.specs.KeptSheets.{group_from, group_with, group_rule as group_rule_of};
ghost use Rattle.css_clean.specs.KeptSheets.{rule_of, rules_text, sheet_text, kept_text, cleaned_sheet};
ghost use Rattle.css_clean.specs.DroppedSheets.{whole_dropped, empty_dropped, stop_of_block as stop_of_block_of};
ghost use Rattle.css_clean.specs.DroppedSheets.{dropped_rule, dropped_inner, dropped_inner_statement, dropped_group};
ghost use Rattle.css_clean.specs.DroppedSheets.{dropped_statement, dropped_statements, dropped_of_sheet};
ghost use Rattle.css_clean.specs.Views.{sheet_policy_of, dropped_of, place_of_part, written_of, group_text_of};

use crate::check::is_clean_sheet;
use crate::dropped::{Dropped, Reason};
use crate::groups::{Group, group_of, has_frames, name_of};
use crate::preludes::{group_prelude, rule_prelude};
use crate::selectors::SheetPolicy;
use crate::style::{Cleaned, dropped_at, dropped_whole, read_kept};
use crate::written::{Written, printed};
use css_syntax::quality::is_whole;
use css_syntax::statements::{FoundPart, read_next};
use css_syntax::{AtRule, Block, RuleSet, Statement};
use std::alloc::{AllocError, Global};
use std::borrow::CowStr;
use std::fmt::Write as _;

/// A statement, and where the text ends in which it is.
#[derive(Clone, Copy)]
struct Part<'a> {
    /// The statement.
    found: FoundPart<'a>,
    /// The offset of the end of that text in the whole sheet.
    stop: usize,
}

/// An at-rule with rules in its block that is allowed.
#[derive(Drop)]
struct GroupRule<'a> {
    /// Which it is.
    group: Group,
    /// Its prelude, written anew.
    prelude: CowStr<'a>,
    /// Its block.
    block: Block<'a>,
}

/// Drops the whole statement.
fn drop_whole(dropped: &mut Vec<Dropped>, part: Part<'_>, reason: Reason) -> Result<(), AllocError>
    ensures { OnOk result (map dropped_of dropped.new.items ≡ map dropped_of dropped.old.items
        ++ whole_dropped (place_of_part part.entry) reason ∷ []) }
{
    let found = part.found;
    dropped.push(dropped_at(part.stop, found.from, found.part.text, reason))?;
    Ok(())
}

/// Drops the whole rule, if none of its declarations is kept.
fn drop_empty(
    dropped: &mut Vec<Dropped>,
    part: Part<'_>,
    declarations: &[Written<'_>],
) -> Result<(), AllocError>
    ensures { OnOk result (map dropped_of dropped.new.items ≡ map dropped_of dropped.old.items
        ++ empty_dropped (place_of_part part.entry) (map written_of declarations.now)) }
{
    if declarations.is_empty() {
        return drop_whole(dropped, part, Reason::Empty);
    }
    Ok(())
}

/// Returns the offset after the contents of a block, of which this is the text.
fn stop_of_block(part: Part<'_>, text: &str) -> usize
    ensures { result ≡ stop_of_block_of (place_of_part part.entry) text.now }
{
    part.stop
        .saturating_sub(part.found.inside.len().saturating_sub(text.len()))
}

/// Appends a rule of these, if there is a declaration.
fn push_rule(
    alloc: Global,
    out: &mut String,
    selectors: &str,
    declarations: &[Written<'_>],
) -> Result<(), AllocError>
    ensures { OnOk result (string_bytes out.new ≡ string_bytes out.old
        ++ rules_text (rule_of (Some selectors.now) (map written_of declarations.now))) }
{
    if declarations.is_empty() {
        return Ok(());
    }
    let list = printed(alloc, declarations)?;
    writeln!(out, "{selectors} {{{list}}}")
}

/// Appends a rule, if its selectors, or its frames, are allowed and a declaration of it is.
fn keep_rule(
    alloc: Global,
    out: &mut String,
    dropped: &mut Vec<Dropped>,
    policy: SheetPolicy<'_>,
    in_frames: bool,
    part: Part<'_>,
    rule: &RuleSet<'_>,
) -> Result<(), AllocError>
    ensures kept { OnOk result (string_bytes out.new ≡ string_bytes out.old ++ rules_text
        (kept_rule (sheet_policy_of policy.entry) in_frames
        (prelude_of rule.now.prelude) (block_of rule.now.block))) }
    ensures dropped { OnOk result (map dropped_of dropped.new.items ≡ map dropped_of dropped.old.items
        ++ dropped_rule (sheet_policy_of policy.entry) in_frames (place_of_part part.entry)
        (prelude_of rule.now.prelude) (block_of rule.now.block)) }
{
    let Some(selectors) = rule_prelude(alloc, policy, in_frames, rule.prelude.text)? else {
        return drop_whole(dropped, part, Reason::Selector);
    };
    let text = rule.block.text;
    let stop = stop_of_block(part, text);
    let declarations = read_kept(alloc, dropped, policy.declarations, text, true, stop)?;
    drop_empty(dropped, part, declarations.as_slice())?;
    push_rule(alloc, out, selectors.as_str(), declarations.as_slice())
}

/// Appends a statement of the block of a group rule, if it is a rule that is kept.
fn keep_inner_statement(
    alloc: Global,
    out: &mut String,
    dropped: &mut Vec<Dropped>,
    policy: SheetPolicy<'_>,
    in_frames: bool,
    part: Part<'_>,
) -> Result<(), AllocError>
    ensures kept { OnOk result (string_bytes out.new ≡ string_bytes out.old ++ rules_text
        (kept_inner_statement (sheet_policy_of policy.entry) in_frames
        (statement_of part.entry.found.part.statement))) }
    ensures dropped { OnOk result (map dropped_of dropped.new.items ≡ map dropped_of dropped.old.items
        ++ dropped_inner_statement (sheet_policy_of policy.entry) in_frames (place_of_part part.entry)
        (statement_of part.entry.found.part.statement)) }
{
    match part.found.part.statement {
        Statement::RuleSet(rule) => {
            keep_rule(alloc, out, dropped, policy, in_frames, part, &rule)
        }
        Statement::AtRule(_) => drop_whole(dropped, part, Reason::AtRule),
        Statement::Skipped(_) => drop_whole(dropped, part, Reason::Broken),
    }
}

/// Appends the rules that are kept of the block of a group rule.
fn keep_inner(
    alloc: Global,
    out: &mut String,
    dropped: &mut Vec<Dropped>,
    policy: SheetPolicy<'_>,
    in_frames: bool,
    text: &str,
    stop: usize,
) -> Result<(), AllocError>
    ensures kept { OnOk result (string_bytes out.new ≡ string_bytes out.old ++ rules_text
        (kept_inner (sheet_policy_of policy.entry) in_frames (statements true text.now))) }
    ensures dropped { OnOk result (map dropped_of dropped.new.items ≡ map dropped_of dropped.old.items
        ++ dropped_inner (sheet_policy_of policy.entry) in_frames stop (placed_statements true text.now)) }
{
    let mut rest = text;
    'parts: while let Some(found) = read_next(rest, true) {
        let part = Part { found, stop };
        keep_inner_statement(alloc, out, dropped, policy, in_frames, part)?;
        rest = found.rest;
    }
    Ok(())
}

/// Returns a group rule with this block, if it has one, and if its prelude is allowed.
fn group_with_block<'a>(
    group: Group,
    prelude: Option<CowStr<'a>>,
    block: Option<Block<'a>>,
) -> Option<GroupRule<'a>>
    ensures { option_map group_text_of result
        ≡ group_from group (option_map cow_str_bytes prelude.entry) (option_map block_of block.entry) }
{
    Some(GroupRule {
        group,
        prelude: prelude?,
        block: block?,
    })
}

/// Returns an at-rule as a group rule, if it is one, and its prelude is allowed.
fn group_with_prelude<'a>(
    alloc: Global,
    policy: SheetPolicy<'_>,
    group: Option<Group>,
    rule: &AtRule<'a>,
) -> Result<Option<GroupRule<'a>>, AllocError>
    ensures { IfOk result (λ out. option_map group_text_of out
        ≡ group_with (sheet_policy_of policy.entry) group (at_rule_of rule.now)) }
{
    let Some(group) = group else {
        return Ok(None);
    };
    let prelude = group_prelude(alloc, policy, group, rule.prelude.text)?;
    Ok(group_with_block(group, prelude, rule.block))
}

/// Returns an at-rule as a group rule, if it is one that is allowed, and its prelude is.
fn group_rule<'a>(
    alloc: Global,
    policy: SheetPolicy<'_>,
    rule: &AtRule<'a>,
) -> Result<Option<GroupRule<'a>>, AllocError>
    ensures { IfOk result (λ out. option_map group_text_of out
        ≡ group_rule_of (sheet_policy_of policy.entry) (at_rule_of rule.now)) }
{
    if !is_whole(rule.prelude.quality) {
        return Ok(None);
    }
    group_with_prelude(
        alloc,
        policy,
        group_of(policy.media, rule.name.as_bytes()),
        rule,
    )
}

/// Appends a group rule with these rules, if there is one.
fn push_group(out: &mut String, name: &str, prelude: &str, rules: &str) -> Result<(), AllocError>
    ensures { (group : Group) (all : List KeptRule) → name.now ≡ group_name group
        → rules.now ≡ rules_text all → OnOk result (string_bytes out.new
        ≡ string_bytes out.old ++ sheet_text (group_with_rules group prelude.now all)) }
{
    if rules.is_empty() {
        return Ok(());
    }
    writeln!(out, "@{name} {prelude} {{\n{rules}}}")
}

/// Appends what is kept of a group rule.
fn keep_rules(
    alloc: Global,
    out: &mut String,
    dropped: &mut Vec<Dropped>,
    policy: SheetPolicy<'_>,
    part: Part<'_>,
    found: &GroupRule<'_>,
) -> Result<(), AllocError>
    ensures kept { OnOk result (string_bytes out.new ≡ string_bytes out.old ++ sheet_text
        (kept_group (sheet_policy_of policy.entry) (Some (group_text_of found.now)))) }
    ensures dropped { OnOk result (map dropped_of dropped.new.items ≡ map dropped_of dropped.old.items
        ++ dropped_group (sheet_policy_of policy.entry) (place_of_part part.entry)
        (Some (group_text_of found.now))) }
{
    let text = found.block.text;
    let mut rules = String::new(alloc);
    let stop = stop_of_block(part, text);
    let in_frames = has_frames(found.group);
    keep_inner(alloc, &mut rules, dropped, policy, in_frames, text, stop)?;
    push_group(out, name_of(found.group), &found.prelude, rules.as_str())
}

/// Appends an at-rule, if it is a group rule that is allowed and a rule of it is kept.
fn keep_at_rule(
    alloc: Global,
    out: &mut String,
    dropped: &mut Vec<Dropped>,
    policy: SheetPolicy<'_>,
    part: Part<'_>,
    rule: &AtRule<'_>,
) -> Result<(), AllocError>
    ensures kept { OnOk result (string_bytes out.new ≡ string_bytes out.old ++ sheet_text
        (kept_group (sheet_policy_of policy.entry)
        (group_rule_of (sheet_policy_of policy.entry) (at_rule_of rule.now)))) }
    ensures dropped { OnOk result (map dropped_of dropped.new.items ≡ map dropped_of dropped.old.items
        ++ dropped_group (sheet_policy_of policy.entry) (place_of_part part.entry)
        (group_rule_of (sheet_policy_of policy.entry) (at_rule_of rule.now))) }
{
    match group_rule(alloc, policy, rule)? {
        Some(found) => keep_rules(alloc, out, dropped, policy, part, &found),
        None => drop_whole(dropped, part, Reason::AtRule),
    }
}

/// Appends a statement of a sheet, if it is a rule or a group rule that is kept.
fn keep_statement(
    alloc: Global,
    out: &mut String,
    dropped: &mut Vec<Dropped>,
    policy: SheetPolicy<'_>,
    part: Part<'_>,
) -> Result<(), AllocError>
    ensures kept { OnOk result (string_bytes out.new ≡ string_bytes out.old ++ sheet_text
        (kept_statement (sheet_policy_of policy.entry) (statement_of part.entry.found.part.statement))) }
    ensures dropped { OnOk result (map dropped_of dropped.new.items ≡ map dropped_of dropped.old.items
        ++ dropped_statement (sheet_policy_of policy.entry) (place_of_part part.entry)
        (statement_of part.entry.found.part.statement)) }
{
    match part.found.part.statement {
        Statement::RuleSet(rule) => keep_rule(alloc, out, dropped, policy, false, part, &rule),
        Statement::AtRule(rule) => keep_at_rule(alloc, out, dropped, policy, part, &rule),
        Statement::Skipped(_) => drop_whole(dropped, part, Reason::Broken),
    }
}

/// Returns what is kept of a sheet of any length, before it is read again.
fn keep_statements(
    alloc: Global,
    policy: SheetPolicy<'_>,
    text: &str,
) -> Result<Cleaned, AllocError>
    ensures kept { IfOk result (λ out. string_bytes out.text
        ≡ sheet_text (kept_statements (sheet_policy_of policy.entry) (statements false text.now))) }
    ensures dropped { IfOk result (λ out. map dropped_of out.dropped.items
        ≡ dropped_statements (sheet_policy_of policy.entry) (length text.now)
        (placed_statements false text.now)) }
{
    let mut out = String::new(alloc);
    let mut dropped = Vec::new(alloc);
    let stop = text.len();
    let mut rest = text;
    'parts: while let Some(found) = read_next(rest, false) {
        keep_statement(alloc, &mut out, &mut dropped, policy, Part { found, stop })?;
        rest = found.rest;
    }
    Ok(Cleaned { text: out, dropped })
}

/// Returns what the policy allows of a sheet, in its order: rules under the scope, with the declarations
/// that are allowed, and group rules with such rules. `html`, `body`, `:root` and `:host` at the front of a
/// selector mean the scope. A list of selectors is kept whole or not at all,
/// and a rule without a declaration that is allowed is dropped. What is dropped is said with its place and
/// its reason, in order, a rule after its declarations.
///
/// What is returned was read again, and is clean as `is_clean_sheet` says. If it were not, nothing would
/// be returned, and the whole sheet would be dropped. Fails only if an allocation fails.
pub fn clean_sheet(
    alloc: Global,
    policy: SheetPolicy<'_>,
    text: &str,
) -> Result<Cleaned, AllocError>
    ensures text { IfOk result (λ out. string_bytes out.text
        ≡ cleaned_sheet (sheet_policy_of policy.entry) text.now) }
    ensures clean { IfOk result (λ out. is_clean (sheet_policy_of policy.entry) (string_bytes out.text) ≡ true) }
    ensures dropped { IfOk result (λ out. map dropped_of out.dropped.items
        ≡ dropped_of_sheet (sheet_policy_of policy.entry) text.now) }
{
    if text.len() > policy.declarations.longest {
        return dropped_whole(alloc, text, Reason::Limit);
    }
    let kept = keep_statements(alloc, policy, text)?;
    if is_clean_sheet(alloc, policy, kept.text.as_str())? {
        return Ok(kept);
    }
    dropped_whole(alloc, text, Reason::Unclean)
}
