//! Selectors under a scope.
ghost use Rattle.std.specs.Prelude.{◌≡◌, ◌&&◌, true, not, IfOk, option_map};
ghost use Rattle.css_text.specs.Reading.{each};
ghost use Rattle.css_syntax.specs.DeclarationLists.{is_empty};
ghost use Rattle.css_text.specs.Bytes.{starts_by};
ghost use Rattle.css_clean.specs.Selectors.{is_escapable as is_escapable_byte, is_selector_safe as is_selector_safe_of};
ghost use Rattle.css_clean.specs.Selectors.{begins_compound as begins_compound_of, selector_allowed, inner_allowed};
ghost use Rattle.css_clean.specs.Selectors.{is_scope_text as is_scope_text_of, scope_of, is_scope as is_scope_of};
ghost use Rattle.css_clean.specs.Selectors.{selector_ends as selector_ends_of};
ghost use Rattle.css_clean.specs.Selectors.{goes_on as goes_on_of, next_selector, after_front as after_front_of};
ghost use Rattle.css_clean.specs.Selectors.{is_under as is_under_of, fits as fits_of, past_child as past_child_of};
ghost use Rattle.css_clean.specs.Selectors.{is_list_scoped as is_list_scoped_of};
ghost use Rattle.css_clean.specs.Views.{sheet_policy_of};

use crate::policy::{Place, Policy, are_tokens_allowed, is_safe_byte};
use crate::scopes::{is_read_under_scope, read_compound};
use clean_values::selectors::is_selector_named;
use css_selector_text::Selector as ReadSelector;
use css_syntax::parts::{Stops, ends_at, read_parts};
use css_syntax::quality::is_whole;
use css_syntax::statements::begins_ident;
use css_syntax::texts::{past_byte, past_gap};
use std::alloc::{AllocError, Global};

/// What is allowed in a sheet. Names are in lower case, and match names in any case.
#[derive(Clone, Copy)]
pub struct SheetPolicy<'p> {
    /// What is allowed of declarations.
    pub declarations: Policy<'p>,
    /// The selector under which all selectors are: one compound of names, ids and classes, as `.mail`.
    /// Under another, as `a > b`, nothing is allowed.
    pub scope: &'p str,
    /// Whether rules may be for the elements that the scope matches, and not only for those within them:
    /// `body`, `html`, `:root` and `:host` mean the scope.
    pub itself: bool,
    /// The names of pseudo-classes and pseudo-elements, with arguments or without.
    pub pseudos: &'p [&'p str],
    /// The words of media queries and of conditions of `@container`; and `@supports`, `@container`, `@layer` and
    /// `@keyframes`, if these at-rules are kept, too. Names of the last two get the prefix, and without one both are dropped.
    pub media: &'p [&'p str],
}

/// A selector of a list.
#[derive(Clone, Copy)]
pub(crate) struct Selector<'a> {
    /// Its text.
    pub text: &'a str,
    /// What is left after the comma that follows it.
    pub rest: &'a str,
}

/// Whether a backslash may escape the byte.
pub(crate) fn is_escapable(byte: u8) -> bool
    ensures { result ≡ is_escapable_byte byte }
{
    matches!(byte, b'!' | 35..=38 | 40..=58 | b'[' | b']' | b'A'..=b'F' | b'a'..=b'f')
}

/// Whether an escape that may be written goes on here, after its backslash.
fn begins_escapable(bytes: &[u8]) -> bool
    ensures { result ≡ starts_by is_escapable_byte bytes.now }
{
    match bytes {
        [] => false,
        [byte, ..] => is_escapable(*byte),
    }
}

/// Whether each byte of a selector may be written.
fn is_selector_safe(bytes: &[u8]) -> bool
    ensures { result ≡ is_selector_safe_of bytes.now }
{
    let mut left = bytes;
    'bytes: while let [byte, more @ ..] = left {
        if !(is_safe_byte(*byte) || *byte == b'>' || *byte == b'\\' && begins_escapable(more)) {
            return false;
        }
        left = more;
    }
    true
}

/// Whether a compound begins here, and no combinator.
fn begins_compound(bytes: &[u8]) -> bool
    ensures { result ≡ begins_compound_of bytes.now }
{
    matches!(bytes, [b'#' | b'.' | b'*' | b':' | b'[', ..]) || begins_ident(bytes)
}

/// Whether a selector may be under the scope.
pub(crate) fn is_selector_allowed(policy: SheetPolicy<'_>, bytes: &[u8]) -> bool
    ensures { result ≡ selector_allowed (sheet_policy_of policy.entry).pseudos bytes.now }
{
    begins_compound(bytes)
        && is_selector_safe(bytes)
        && are_tokens_allowed(Place::Selector(policy.pseudos), bytes)
}

/// Whether the text may be that of a scope.
fn is_scope_text(text: &str) -> bool
    ensures { result ≡ is_scope_text_of text.now }
{
    let bytes = text.as_bytes();
    begins_compound(bytes) && is_selector_safe(bytes) && are_tokens_allowed(Place::Scope, bytes)
}

/// Reads a scope: one compound of names, ids and classes.
fn read_scope<'a>(alloc: Global, text: &'a str) -> Result<Option<ReadSelector<'a>>, AllocError>
    ensures { IfOk result (λ scope. scope ≡ scope_of text.now) }
{
    if !is_scope_text(text) {
        return Ok(None);
    }
    read_compound(alloc, text)
}

/// Whether the text may be a scope: one compound of names, ids and classes. Fails only if an allocation fails.
pub fn is_scope(alloc: Global, text: &str) -> Result<bool, AllocError>
    ensures { IfOk result (λ holds. holds ≡ is_scope_of text.now) }
{
    Ok(read_scope(alloc, text)?.is_some())
}

/// What ends a selector of a list.
fn selector_ends() -> Stops
    ensures { result ≡ selector_ends_of }
{
    Stops {
        semicolon: true,
        open_brace: true,
        close_brace: true,
        comma: true,
        in_value: true,
    }
}

/// Whether a list ends here after a selector, or goes on after a comma.
fn goes_on(rest: &str) -> bool
    ensures { result ≡ goes_on_of rest.now }
{
    match rest.as_bytes() {
        [] => true,
        [byte, ..] => *byte == b',' && !past_gap(past_byte(rest, b',')).is_empty(),
    }
}

/// Returns what follows the bytes `front`, if they are next.
fn after_front<'a>(front: &[u8], text: &'a [u8]) -> Option<&'a [u8]>
    ensures { after_front_of front.now text.now ≡ option_map (λ rest. rest.now) result }
{
    let mut left = front;
    let mut rest = text;
    'bytes: while let [byte, more @ ..] = left {
        match rest {
            [next, after @ ..] if *next == *byte => rest = after,
            _ => return None,
        }
        left = more;
    }
    Some(rest)
}

/// Returns what follows `> `, if that is next.
fn past_child(bytes: &[u8]) -> &[u8]
    ensures { result.now ≡ past_child_of bytes.now }
{
    match bytes {
        [b'>', b' ', rest @ ..] => rest,
        _ => bytes,
    }
}

/// Whether a selector may be under the scope, with the prefix of ids and classes.
#[tactic(auto, unfolding(crate::specs::Selectors::inner_allowed))]
fn is_inner_allowed(policy: SheetPolicy<'_>, bytes: &[u8]) -> bool
    ensures { result ≡ inner_allowed (sheet_policy_of policy.entry) bytes.now }
{
    is_selector_allowed(policy, bytes)
        && is_selector_named(policy.declarations.changes.prefix, bytes)
}

/// Whether nothing follows the scope, if that may be, or a space or ` > `, and then a selector that may be
/// under it.
fn is_under(policy: SheetPolicy<'_>, after: Option<&[u8]>) -> bool
    ensures { result ≡ is_under_of (sheet_policy_of policy.entry) (option_map (λ rest. rest.now) after.entry) }
{
    match after {
        Some([]) => policy.itself,
        Some([b' ', inner @ ..]) => is_inner_allowed(policy, past_child(inner)),
        _ => false,
    }
}

/// Whether a selector is under the scope, or is to be put there.
fn fits(policy: SheetPolicy<'_>, is_scoped: bool, text: &[u8]) -> bool
    ensures { result ≡ fits_of (sheet_policy_of policy.entry) is_scoped text.now }
{
    !is_scoped || is_under(policy, after_front(policy.scope.as_bytes(), text))
}

/// Reads the next selector of a list, if it fits.
#[tactic(auto, unfolding(crate::specs::Selectors::next_selector))]
pub(crate) fn read_selector<'a>(
    policy: SheetPolicy<'_>,
    is_scoped: bool,
    text: &'a str,
) -> Option<Selector<'a>>
    ensures { next_selector (sheet_policy_of policy.entry) is_scoped text.now
        ≡ option_map (λ found. (found.text.now, found.rest.now)) result }
{
    if ends_at(selector_ends(), text.as_bytes()) {
        return None;
    }
    let found = read_parts(selector_ends(), text);
    if is_whole(found.quality)
        && fits(policy, is_scoped, found.text.as_bytes())
        && goes_on(found.rest)
    {
        return Some(Selector {
            text: found.text,
            rest: past_gap(past_byte(found.rest, b',')),
        });
    }
    None
}

/// Whether each selector of a list is under the scope, as it is written.
fn is_list_written(policy: SheetPolicy<'_>, text: &str) -> bool
    ensures { result ≡ not (is_empty text.now)
        && is_empty (each (next_selector (sheet_policy_of policy.entry) true) text.now).1 }
{
    if text.is_empty() {
        return false;
    }
    let mut rest = text;
    'selectors: while let Some(found) = read_selector(policy, true, rest) {
        rest = found.rest;
    }
    rest.is_empty()
}

/// Whether each selector of a list is under the scope, as it is written, and as `css_selector_text` reads
/// it. Fails only if an allocation fails.
pub(crate) fn is_list_scoped(
    alloc: Global,
    policy: SheetPolicy<'_>,
    text: &str,
) -> Result<bool, AllocError>
    ensures { IfOk result (λ holds. holds ≡ is_list_scoped_of (sheet_policy_of policy.entry) text.now) }
{
    let Some(scope) = read_scope(alloc, policy.scope)? else {
        return Ok(false);
    };
    if !is_list_written(policy, text) {
        return Ok(false);
    }
    is_read_under_scope(alloc, policy.itself, &scope, text)
}
