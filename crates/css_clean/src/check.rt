//! Whether a sheet is one that a policy allows.
ghost use Rattle.std.specs.Prelude.{◌≡◌, false, IfOk, option_map};
ghost use Rattle.css_syntax.specs.Statements.{statements};
ghost use Rattle.css_syntax.specs.DeclarationLists.{items};
ghost use Rattle.css_syntax.specs.Views.{block_of, item_of, prelude_of, at_rule_of, statement_of};
ghost use Rattle.css_clean.specs.Sheets.{are_sheet_bytes as are_sheet_bytes_of, is_item_clean as is_item_clean_of};
ghost use Rattle.css_clean.specs.Sheets.{are_items_clean as are_items_clean_of, is_rule_clean as is_rule_clean_of};
ghost use Rattle.css_clean.specs.Sheets.{is_inner_clean as is_inner_clean_of, are_inner_clean as are_inner_clean_of};
ghost use Rattle.css_clean.specs.Sheets.{is_block_clean as is_block_clean_of, is_group_clean as is_group_clean_of};
ghost use Rattle.css_clean.specs.Sheets.{is_at_rule_clean as is_at_rule_clean_of};
ghost use Rattle.css_clean.specs.Sheets.{is_statement_clean as is_statement_clean_of};
ghost use Rattle.css_clean.specs.Sheets.{are_statements_clean as are_statements_clean_of, is_clean};
ghost use Rattle.css_clean.specs.Sheets.{is_style_clean};
ghost use Rattle.css_clean.specs.Sheets.{is_sheet_byte as is_sheet_byte_of};
ghost use Rattle.css_clean.specs.Policies.{any_value as any_value_of};
ghost use Rattle.css_clean.specs.Views.{policy_of, sheet_policy_of, place_of};

use crate::groups::{Group, group_of, has_frames};
use crate::policy::{
    Place, Policy, ValuePlace, are_safe, are_tokens_allowed, is_allowed, is_safe_byte,
};
use crate::preludes::{is_prelude_clean, is_rule_prelude};
use crate::selectors::SheetPolicy;
use css_syntax::declarations::read_part;
use css_syntax::quality::is_whole;
use css_syntax::statements::read_next;
use css_syntax::{AtRule, Block, Item, Prelude, Statement};
use std::alloc::{AllocError, Global};

/// Whether a sheet may have the byte.
fn is_sheet_byte(byte: u8) -> bool
    ensures { result ≡ is_sheet_byte_of byte }
{
    is_safe_byte(byte) || matches!(byte, b'>' | b'{' | b'}' | b'@' | b'\\')
}

/// Whether a sheet may have each byte.
fn are_sheet_bytes(bytes: &[u8]) -> bool
    ensures { result ≡ are_sheet_bytes_of bytes.now }
{
    let mut left = bytes;
    'bytes: while let [byte, more @ ..] = left {
        if !is_sheet_byte(*byte) {
            return false;
        }
        left = more;
    }
    true
}

/// Whether an item is a declaration that is allowed.
fn is_item_clean(policy: Policy<'_>, item: &Item<'_>) -> bool
    ensures { result ≡ is_item_clean_of (policy_of policy.entry) (item_of item.now) }
{
    match item {
        Item::Declaration(declaration) => is_allowed(policy, declaration),
        Item::AtRule(_) | Item::Skipped(_) => false,
    }
}

/// Whether each item of a list is a declaration that is allowed.
fn are_items_clean(policy: Policy<'_>, text: &str) -> bool
    ensures { result ≡ are_items_clean_of (policy_of policy.entry) (items false text.now) }
{
    let mut rest = text;
    'parts: while let Some(found) = read_part(rest, false) {
        if !is_item_clean(policy, &found.part.item) {
            return false;
        }
        rest = found.rest;
    }
    true
}

/// Whether a rule, or one of frames, is clean.
fn is_rule_clean(
    alloc: Global,
    policy: SheetPolicy<'_>,
    in_frames: bool,
    prelude: &Prelude<'_>,
    block: &Block<'_>,
) -> Result<bool, AllocError>
    ensures { IfOk result (λ holds. holds ≡ is_rule_clean_of (sheet_policy_of policy.entry) in_frames
        (prelude_of prelude.now) (block_of block.now)) }
{
    if is_whole(prelude.quality)
        && block.closed
        && are_items_clean(policy.declarations, block.text)
    {
        return is_rule_prelude(alloc, policy, in_frames, prelude.text);
    }
    Ok(false)
}

/// Whether a statement of the block of a group rule is a rule, or one of frames, that is clean.
fn is_inner_clean(
    alloc: Global,
    policy: SheetPolicy<'_>,
    in_frames: bool,
    statement: &Statement<'_>,
) -> Result<bool, AllocError>
    ensures { IfOk result (λ holds. holds
        ≡ is_inner_clean_of (sheet_policy_of policy.entry) in_frames (statement_of statement.now)) }
{
    match statement {
        Statement::RuleSet(rule) => {
            is_rule_clean(alloc, policy, in_frames, &rule.prelude, &rule.block)
        }
        Statement::AtRule(_) | Statement::Skipped(_) => Ok(false),
    }
}

/// Whether each statement of the block of a group rule is a rule, or one of frames, that is clean.
fn are_inner_clean(
    alloc: Global,
    policy: SheetPolicy<'_>,
    in_frames: bool,
    text: &str,
) -> Result<bool, AllocError>
    ensures { IfOk result (λ holds. holds
        ≡ are_inner_clean_of (sheet_policy_of policy.entry) in_frames (statements false text.now)) }
{
    let mut rest = text;
    'parts: while let Some(found) = read_next(rest, false) {
        if !is_inner_clean(alloc, policy, in_frames, &found.part.statement)? {
            return Ok(false);
        }
        rest = found.rest;
    }
    Ok(true)
}

/// Whether there is a block that is closed and has nothing but rules, or rules of frames, that are clean.
fn is_block_clean(
    alloc: Global,
    policy: SheetPolicy<'_>,
    in_frames: bool,
    block: Option<Block<'_>>,
) -> Result<bool, AllocError>
    ensures { IfOk result (λ holds. holds
        ≡ is_block_clean_of (sheet_policy_of policy.entry) in_frames (option_map block_of block.entry)) }
{
    match block {
        Some(block) if block.closed => are_inner_clean(alloc, policy, in_frames, block.text),
        _ => Ok(false),
    }
}

/// Whether an at-rule that is a group rule is clean.
fn is_group_clean(
    alloc: Global,
    policy: SheetPolicy<'_>,
    group: Group,
    rule: &AtRule<'_>,
) -> Result<bool, AllocError>
    ensures { IfOk result (λ holds. holds
        ≡ is_group_clean_of (sheet_policy_of policy.entry) group (at_rule_of rule.now)) }
{
    if is_whole(rule.prelude.quality) && is_prelude_clean(policy, group, rule.prelude.text) {
        return is_block_clean(alloc, policy, has_frames(group), rule.block);
    }
    Ok(false)
}

/// Whether an at-rule is a group rule that is clean.
fn is_at_rule_clean(
    alloc: Global,
    policy: SheetPolicy<'_>,
    rule: &AtRule<'_>,
) -> Result<bool, AllocError>
    ensures { IfOk result (λ holds. holds
        ≡ is_at_rule_clean_of (sheet_policy_of policy.entry) (at_rule_of rule.now)) }
{
    match group_of(policy.media, rule.name.as_bytes()) {
        Some(group) => is_group_clean(alloc, policy, group, rule),
        None => Ok(false),
    }
}

/// Whether a statement is a rule or a group rule that is clean.
fn is_statement_clean(
    alloc: Global,
    policy: SheetPolicy<'_>,
    statement: &Statement<'_>,
) -> Result<bool, AllocError>
    ensures { IfOk result (λ holds. holds
        ≡ is_statement_clean_of (sheet_policy_of policy.entry) (statement_of statement.now)) }
{
    match statement {
        Statement::RuleSet(rule) => {
            is_rule_clean(alloc, policy, false, &rule.prelude, &rule.block)
        }
        Statement::AtRule(rule) => is_at_rule_clean(alloc, policy, rule),
        Statement::Skipped(_) => Ok(false),
    }
}

/// Whether each statement of a sheet is clean.
fn are_statements_clean(
    alloc: Global,
    policy: SheetPolicy<'_>,
    text: &str,
) -> Result<bool, AllocError>
    ensures { IfOk result (λ holds. holds
        ≡ are_statements_clean_of (sheet_policy_of policy.entry) (statements false text.now)) }
{
    let mut rest = text;
    'parts: while let Some(found) = read_next(rest, false) {
        if !is_statement_clean(alloc, policy, &found.part.statement)? {
            return Ok(false);
        }
        rest = found.rest;
    }
    Ok(true)
}

/// Whether a sheet is one that the policy allows, as it is. Each statement of it is a rule, or a group
/// rule that is listed with nothing but rules: a media rule of words that are listed, or `@keyframes` with a name that has
/// the prefix, in which each rule is of frames. Each other selector of a rule is the scope, a space or ` > `, and
/// a selector that begins with no combinator, whose pseudo-classes are listed; or, if that may be, the scope. So it is
/// read by `css_selector_text`, too. Each item of its block is a
/// declaration that is allowed. There is no url, no comment, no function and no at-rule but those that are
/// listed, no control character and no `<`, and nothing is open at the end. Fails only if an allocation fails.
pub fn is_clean_sheet(
    alloc: Global,
    policy: SheetPolicy<'_>,
    text: &str,
) -> Result<bool, AllocError>
    ensures { IfOk result (λ holds. holds ≡ is_clean (sheet_policy_of policy.entry) text.now) }
{
    let place = Place::Sheet(policy.declarations.functions, policy.pseudos, policy.media);
    if are_sheet_bytes(text.as_bytes()) && are_tokens_allowed(place, text.as_bytes()) {
        return are_statements_clean(alloc, policy, text);
    }
    Ok(false)
}

/// Returns what any value may have.
fn any_value(policy: Policy<'_>) -> Place<'_>
    ensures { place_of result ≡ any_value_of (policy_of policy.entry) }
{
    Place::Value(ValuePlace {
        functions: policy.functions,
        strings: true,
        sources: false,
        loads: false,
        named: false,
        changes: policy.changes,
    })
}

/// Whether a style attribute is one that the policy allows, as it is: each item of it is a declaration that is
/// allowed. There is no comment, no url and no byte that a value may not have between them, either.
pub fn is_clean_style(policy: Policy<'_>, text: &str) -> bool
    ensures { result ≡ is_style_clean (policy_of policy.entry) text.now }
{
    are_safe(text.as_bytes())
        && are_tokens_allowed(any_value(policy), text.as_bytes())
        && are_items_clean(policy, text)
}
