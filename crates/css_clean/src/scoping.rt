//! Lists of selectors, put under the scope.
ghost use Rattle.std.specs.Prelude.{◌≡◌, ◌++◌, IfOk, option_map, map, string_bytes};
ghost use Rattle.clean_values.specs.Selectors.{named_selector as named_selector_of};
ghost use Rattle.css_clean.specs.Scoping.{joint as joint_of, under_scope, scoped_inner as scoped_inner_of};
ghost use Rattle.css_clean.specs.Scoping.{scoped as scoped_of, scoped_bytes as scoped_bytes_of, scoped_selectors as scoped_selectors_of};
ghost use Rattle.css_clean.specs.Scoping.{joined as joined_of, if_scoped, scoped_list as scoped_list_of};
ghost use Rattle.css_clean.specs.Views.{sheet_policy_of, inner_view};

use crate::escaping::escaped_anew;
use crate::fronts::{Inner, inner_of};
use crate::selectors::{SheetPolicy, is_list_scoped, is_selector_allowed, read_selector};
use clean_values::names::has_backslash;
use clean_values::selectors::named_selector;
use std::alloc::{AllocError, Global};

/// Returns what is between the scope and a selector.
fn joint(is_child: bool) -> &'static str
    ensures { result.now ≡ joint_of is_child }
{
    if is_child { " > " } else { " " }
}

/// Returns a text under the scope.
fn under(alloc: Global, scope: &str, is_child: bool, text: &str) -> Result<String, AllocError>
    ensures { IfOk result (λ out. string_bytes out ≡ scope.now ++ joint_of is_child ++ text.now) }
{
    let mut out = String::new(alloc);
    out.push_str(scope)?;
    out.push_str(joint(is_child))?;
    out.push_str(text)?;
    Ok(out)
}

/// Returns a selector under the scope, with the prefix of ids and classes.
fn named_under(
    alloc: Global,
    policy: SheetPolicy<'_>,
    inner: Inner<'_>,
) -> Result<Option<String>, AllocError>
    ensures { let p = sheet_policy_of policy.entry in IfOk result (λ out. option_map string_bytes out
        ≡ under_scope p inner.entry.is_child
        (named_selector_of p.declarations.changes.prefix inner.entry.text.now)) }
{
    let prefix = policy.declarations.changes.prefix;
    match named_selector(alloc, prefix, inner.text)? {
        Some(text) => Ok(Some(under(alloc, policy.scope, inner.is_child, &text)?)),
        None => Ok(None),
    }
}

/// Returns what is left of a selector under the scope, if it is allowed there.
fn scoped_inner(
    alloc: Global,
    policy: SheetPolicy<'_>,
    inner: Inner<'_>,
) -> Result<Option<String>, AllocError>
    ensures { IfOk result (λ out. option_map string_bytes out
        ≡ scoped_inner_of (sheet_policy_of policy.entry) (inner_view inner.entry)) }
{
    if inner.text.is_empty() {
        if !policy.itself || inner.is_child {
            return Ok(None);
        }
        return Ok(Some(String::from_str(alloc, policy.scope)?));
    }
    if !is_selector_allowed(policy, inner.text.as_bytes()) {
        return Ok(None);
    }
    named_under(alloc, policy, inner)
}

/// Returns the same of bytes, which are UTF-8.
#[tactic(auto, using(clean_values::proofs::ValueLemmas::utf8_true, clean_values::proofs::ValueLemmas::utf8_false))]
fn scoped_bytes(
    alloc: Global,
    policy: SheetPolicy<'_>,
    bytes: &[u8],
) -> Result<Option<String>, AllocError>
    ensures { IfOk result (λ out. option_map string_bytes out
        ≡ scoped_bytes_of (sheet_policy_of policy.entry) bytes.now) }
{
    match std::str::from_utf8(bytes) {
        Ok(text) => scoped_inner(alloc, policy, inner_of(text)),
        Err(_) => Ok(None),
    }
}

/// Returns a selector under the scope, with its escapes written anew, if it is allowed there.
fn scoped(alloc: Global, policy: SheetPolicy<'_>, text: &str) -> Result<Option<String>, AllocError>
    ensures { IfOk result (λ out. option_map string_bytes out
        ≡ scoped_of (sheet_policy_of policy.entry) text.now) }
{
    if has_backslash(text.as_bytes()) {
        return scoped_bytes(alloc, policy, &escaped_anew(alloc, text.as_bytes())?);
    }
    scoped_inner(alloc, policy, inner_of(text))
}

/// Returns the selectors of a list under the scope, if each is allowed there.
fn scoped_selectors(
    alloc: Global,
    policy: SheetPolicy<'_>,
    text: &str,
) -> Result<Option<Vec<String>>, AllocError>
    ensures { IfOk result (λ out. option_map (λ all. map string_bytes all.items) out
        ≡ scoped_selectors_of (sheet_policy_of policy.entry) text.now) }
{
    let mut out = Vec::new(alloc);
    let mut rest = text;
    'selectors: while let Some(found) = read_selector(policy, false, rest) {
        match scoped(alloc, policy, found.text)? {
            Some(selector) => out.push(selector)?,
            None => return Ok(None),
        }
        rest = found.rest;
    }
    if rest.is_empty() {
        return Ok(Some(out));
    }
    Ok(None)
}

/// Returns selectors as a list, if `css_selector_text` reads it as a list under the scope, too.
fn joined(
    alloc: Global,
    policy: SheetPolicy<'_>,
    selectors: &[String],
) -> Result<Option<String>, AllocError>
    ensures { IfOk result (λ out. option_map string_bytes out
        ≡ if_scoped (sheet_policy_of policy.entry) (joined_of (map string_bytes selectors.now))) }
{
    let list = selectors.join(alloc, ", ")?;
    if is_list_scoped(alloc, policy, list.as_str())? {
        return Ok(Some(list));
    }
    Ok(None)
}

/// Returns a list of selectors under the scope, if all of it is allowed there.
pub(crate) fn scoped_list(
    alloc: Global,
    policy: SheetPolicy<'_>,
    text: &str,
) -> Result<Option<String>, AllocError>
    ensures { IfOk result (λ out. option_map string_bytes out
        ≡ scoped_list_of (sheet_policy_of policy.entry) text.now) }
{
    match scoped_selectors(alloc, policy, text)? {
        Some(selectors) => joined(alloc, policy, selectors.as_slice()),
        None => Ok(None),
    }
}
