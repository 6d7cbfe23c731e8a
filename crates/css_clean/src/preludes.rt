//! What group rules and rules have before their blocks.
ghost use Rattle.std.specs.Prelude.{◌≡◌, IfOk, option_map, string_bytes};
ghost use Rattle.std.specs.Cow.{cow_str_bytes};
ghost use Rattle.css_clean.specs.Preludes.{condition_place as condition_place_of, condition_allowed, is_name as is_name_text};
ghost use Rattle.css_clean.specs.Preludes.{is_own_name as is_own_name_of, own_name as own_name_of};
ghost use Rattle.css_clean.specs.Preludes.{is_prelude_clean as is_prelude_clean_of, group_prelude as group_prelude_of};
ghost use Rattle.css_clean.specs.Preludes.{are_frames as are_frames_text, is_rule_prelude as is_rule_prelude_of};
ghost use Rattle.css_clean.specs.Preludes.{rule_prelude as rule_prelude_of};
ghost use Rattle.css_clean.specs.Views.{place_of, sheet_policy_of};

use crate::groups::{Group, has_name};
use crate::policy::{Place, are_safe, are_tokens_allowed};
use crate::scoping::scoped_list;
use crate::selectors::{SheetPolicy, is_list_scoped};
use clean_values::checks::begins_with;
use std::alloc::{AllocError, Global};
use std::borrow::CowStr;

/// Returns where the tokens of a condition of a group rule are.
fn condition_place<'p>(policy: SheetPolicy<'p>, group: Group) -> Place<'p>
    ensures { place_of result ≡ condition_place_of (sheet_policy_of policy.entry) group }
{
    match group {
        Group::Supports => Place::Supports,
        _ => Place::Media(policy.media),
    }
}

/// Whether a group rule may have the condition.
fn is_condition_allowed(policy: SheetPolicy<'_>, group: Group, text: &str) -> bool
    ensures { result ≡ condition_allowed (sheet_policy_of policy.entry) group text.now }
{
    let bytes = text.as_bytes();
    are_safe(bytes) && are_tokens_allowed(condition_place(policy, group), bytes)
}

/// Whether the text is one name.
fn is_name(text: &str) -> bool
    ensures { result ≡ is_name_text text.now }
{
    let bytes = text.as_bytes();
    !bytes.is_empty() && are_safe(bytes) && are_tokens_allowed(Place::Name, bytes)
}

/// Whether the text is one name that begins with the prefix, of which there is one.
fn is_own_name(prefix: &str, text: &str) -> bool
    ensures { result ≡ is_own_name_of prefix.now text.now }
{
    !prefix.is_empty() && begins_with(prefix.as_bytes(), text.as_bytes()) && is_name(text)
}

/// Returns the text with the prefix, if both are a name.
fn own_name<'a>(alloc: Global, prefix: &str, text: &str) -> Result<Option<CowStr<'a>>, AllocError>
    ensures { IfOk result (λ out. option_map cow_str_bytes out ≡ own_name_of prefix.now text.now) }
{
    if !is_name(text) {
        return Ok(None);
    }
    let mut out = String::new(alloc);
    out.push_str(prefix)?;
    out.push_str(text)?;
    if is_own_name(prefix, out.as_str()) {
        return Ok(Some(CowStr::Owned(out)));
    }
    Ok(None)
}

/// Whether a group rule may have the prelude as it is.
pub(crate) fn is_prelude_clean(policy: SheetPolicy<'_>, group: Group, text: &str) -> bool
    ensures { result ≡ is_prelude_clean_of (sheet_policy_of policy.entry) group text.now }
{
    if has_name(group) {
        is_own_name(policy.declarations.changes.prefix, text)
    } else {
        is_condition_allowed(policy, group, text)
    }
}

/// Returns the prelude of a group rule, with the prefix if it is a name, if it is allowed.
pub(crate) fn group_prelude<'a>(
    alloc: Global,
    policy: SheetPolicy<'_>,
    group: Group,
    text: &'a str,
) -> Result<Option<CowStr<'a>>, AllocError>
    ensures { IfOk result (λ out. option_map cow_str_bytes out
        ≡ group_prelude_of (sheet_policy_of policy.entry) group text.now) }
{
    if has_name(group) {
        return own_name(alloc, policy.declarations.changes.prefix, text);
    }
    if is_condition_allowed(policy, group, text) {
        return Ok(Some(CowStr::Borrowed(text)));
    }
    Ok(None)
}

/// Whether the text is a list of frames, as `from, 50%`.
fn are_frames(text: &str) -> bool
    ensures { result ≡ are_frames_text text.now }
{
    let bytes = text.as_bytes();
    !bytes.is_empty() && are_safe(bytes) && are_tokens_allowed(Place::Frames, bytes)
}

/// Whether a rule may have the prelude as it is: frames, or selectors under the scope.
pub(crate) fn is_rule_prelude(
    alloc: Global,
    policy: SheetPolicy<'_>,
    in_frames: bool,
    text: &str,
) -> Result<bool, AllocError>
    ensures { IfOk result (λ holds. holds
        ≡ is_rule_prelude_of (sheet_policy_of policy.entry) in_frames text.now) }
{
    if in_frames {
        return Ok(are_frames(text));
    }
    is_list_scoped(alloc, policy, text)
}

/// Returns the prelude of a rule, written anew, if it is allowed: frames, or selectors under the scope.
pub(crate) fn rule_prelude(
    alloc: Global,
    policy: SheetPolicy<'_>,
    in_frames: bool,
    text: &str,
) -> Result<Option<String>, AllocError>
    ensures { IfOk result (λ out. option_map string_bytes out
        ≡ rule_prelude_of (sheet_policy_of policy.entry) in_frames text.now) }
{
    if !in_frames {
        return scoped_list(alloc, policy, text);
    }
    if are_frames(text) {
        return Ok(Some(String::from_str(alloc, text)?));
    }
    Ok(None)
}
