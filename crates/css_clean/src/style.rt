//! Style attributes, cleaned.
ghost use Rattle.std.specs.Prelude.{◌≡◌, ◌∷◌, [], ◌++◌, Some, length, true, false, IfOk, OnOk, map, string_bytes};
ghost use Rattle.css_syntax.specs.DeclarationLists.{declared, items};
ghost use Rattle.css_syntax.specs.Placed.{placed_items};
ghost use Rattle.css_syntax.specs.Printing.{list_text, printed_part};
ghost use Rattle.css_syntax.specs.Views.{declaration_of, item_of};
ghost use Rattle.css_clean.specs.Cleaning.{refusal, refusal_of, piece_dropped, kept_written, written as written_text};
ghost use Rattle.css_clean.specs.Policies.{are_safe};
ghost use Rattle.css_clean.specs.Cleaning.{kept, kept_item, cleaned, read_of, dropped_piece};
ghost use Rattle.css_clean.specs.Cleaning.{dropped as dropped_in, dropped_of as dropped_of_text, item_dropped};
ghost use Rattle.css_clean.specs.Views.{policy_of, dropped_of, written_of};

use crate::dropped::{Dropped, Reason, reason_of};
use crate::policy::Policy;
use crate::written::{
    Written, declaration, is_kept, is_new, printed, renamed, rewritten, without_escapes,
};
use clean_values::checks::changes_nothing;
use css_syntax::declarations::read_part;
use css_syntax::laws::printed_declarations_read_back;
use css_syntax::{Declaration, Item};
use std::alloc::{AllocError, Global};

/// What is kept of a text, and what is dropped.
#[derive(Debug, Drop)]
pub struct Cleaned {
    /// The text that is kept.
    pub text: String,
    /// What is dropped, in its order.
    pub dropped: Vec<Dropped>,
}

/// Returns the piece of a text that is dropped, of which these many bytes are left from the piece on, and
/// which ends at the offset `stop`.
pub(crate) fn dropped_at(stop: usize, from: &str, text: &str, reason: Reason) -> Dropped
    ensures { dropped_of result ≡ dropped_piece stop from.now text.now reason }
{
    Dropped {
        start: stop.saturating_sub(from.len()),
        end: stop.saturating_sub(from.len().saturating_sub(text.len())),
        reason,
    }
}

/// Appends a declaration that the policy keeps. Returns why it does not, or `None`.
fn keep<'a>(
    alloc: Global,
    out: &mut Vec<Written<'a>>,
    policy: Policy<'_>,
    is_new: bool,
    one: Written<'a>,
) -> Result<Option<Reason>, AllocError>
    ensures kept { OnOk result (map written_of out.new.items ≡ map written_of out.old.items
        ++ kept_written (policy_of policy.entry) is_new (Some (written_of one.entry))) }
    ensures refused { let d = written_of one.entry in
        IfOk result (λ reason. reason ≡ refusal_of (policy_of policy.entry) is_new d (Some d)) }
{
    if is_kept(alloc, policy, is_new, &declaration(&one))? {
        out.push(one)?;
        return Ok(None);
    }
    Ok(Some(reason_of(policy, &declaration(&one))))
}

/// Appends a declaration without escapes that, written anew, the policy keeps. Returns why it does not, or `None`.
fn keep_plain<'a>(
    alloc: Global,
    out: &mut Vec<Written<'a>>,
    policy: Policy<'_>,
    is_new: bool,
    plain: Written<'a>,
) -> Result<Option<Reason>, AllocError>
    ensures kept { let p = policy_of policy.entry in let d = written_of plain.entry in
        OnOk result (map written_of out.new.items
        ≡ map written_of out.old.items ++ kept_written p is_new (written_text p.changes d)) }
    ensures refused { let p = policy_of policy.entry in let d = written_of plain.entry in
        IfOk result (λ reason. reason ≡ refusal_of p is_new d (written_text p.changes d)) }
{
    if changes_nothing(policy.changes) {
        return keep(alloc, out, policy, is_new, plain);
    }
    let Some(one) = rewritten(alloc, policy.changes, &plain)? else {
        let named = renamed(alloc, policy.changes, &declaration(&plain))?;
        return Ok(Some(reason_of(policy, &declaration(&named))));
    };
    keep(alloc, out, policy, is_new, one)
}

/// Appends a declaration that, written anew without escapes, the policy keeps. Returns why it does not, or `None`.
fn keep_declaration<'a>(
    alloc: Global,
    out: &mut Vec<Written<'a>>,
    policy: Policy<'_>,
    found: &Declaration<'a>,
) -> Result<Option<Reason>, AllocError>
    ensures kept { OnOk result (map written_of out.new.items ≡ map written_of out.old.items
        ++ kept_item (policy_of policy.entry) (declared (declaration_of found.now))) }
    ensures refused { IfOk result (λ reason. reason
        ≡ refusal (policy_of policy.entry) (declaration_of found.now)) }
{
    let plain = without_escapes(alloc, found)?;
    let is_new = is_new(policy.changes, found);
    keep_plain(alloc, out, policy, is_new, plain)
}

/// Appends a piece that is dropped, if there is a reason.
fn push_dropped(
    dropped: &mut Vec<Dropped>,
    stop: usize,
    from: &str,
    text: &str,
    reason: Option<Reason>,
) -> Result<(), AllocError>
    ensures { OnOk result (map dropped_of dropped.new.items ≡ map dropped_of dropped.old.items
        ++ piece_dropped stop from.now text.now reason) }
{
    if let Some(reason) = reason {
        dropped.push(dropped_at(stop, from, text, reason))?;
    }
    Ok(())
}

/// Appends a declaration that the policy keeps, or why an item is dropped.
fn push_item<'a>(
    alloc: Global,
    out: &mut Vec<Written<'a>>,
    dropped: &mut Vec<Dropped>,
    policy: Policy<'_>,
    stop: usize,
    from: &str,
    text: &str,
    item: Item<'a>,
) -> Result<(), AllocError>
    ensures kept { OnOk result (map written_of out.new.items
        ≡ map written_of out.old.items ++ kept_item (policy_of policy.entry) (item_of item.entry)) }
    ensures dropped { OnOk result (map dropped_of dropped.new.items ≡ map dropped_of dropped.old.items
        ++ item_dropped (policy_of policy.entry) stop from.now text.now (item_of item.entry)) }
{
    match item {
        Item::Declaration(found) => {
            let reason = keep_declaration(alloc, out, policy, &found)?;
            push_dropped(dropped, stop, from, text, reason)?;
        }
        Item::AtRule(_) => dropped.push(dropped_at(stop, from, text, Reason::AtRule))?,
        Item::Skipped(_) => dropped.push(dropped_at(stop, from, text, Reason::Broken))?,
    }
    Ok(())
}

/// Returns the declarations of a list that the policy allows, and appends what is dropped of it. The list
/// ends at the offset `stop`.
pub(crate) fn read_kept<'a>(
    alloc: Global,
    dropped: &mut Vec<Dropped>,
    policy: Policy<'_>,
    text: &'a str,
    in_block: bool,
    stop: usize,
) -> Result<Vec<Written<'a>>, AllocError>
    ensures kept { IfOk result (λ out. map written_of out.items
        ≡ kept (policy_of policy.entry) (items in_block text.now)) }
    ensures dropped { OnOk result (map dropped_of dropped.new.items ≡ map dropped_of dropped.old.items
        ++ dropped_in (policy_of policy.entry) stop (placed_items in_block text.now)) }
{
    let mut out = Vec::new(alloc);
    let mut rest = text;
    'parts: while let Some(found) = read_part(rest, in_block) {
        push_item(
            alloc,
            &mut out,
            dropped,
            policy,
            stop,
            found.from,
            found.part.text,
            found.part.item,
        )?;
        rest = found.rest;
    }
    Ok(out)
}

/// Cleans a text of any length.
fn clean_any(alloc: Global, policy: Policy<'_>, text: &str) -> Result<Cleaned, AllocError>
    ensures text { IfOk result (λ out. string_bytes out.text ≡ cleaned (policy_of policy.entry) text.now) }
    ensures dropped { IfOk result (λ out. map dropped_of out.dropped.items
        ≡ dropped_in (policy_of policy.entry) (length text.now) (placed_items false text.now)) }
{
    let mut dropped = Vec::new(alloc);
    let declarations = read_kept(alloc, &mut dropped, policy, text, false, text.len())?;
    let text = printed(alloc, declarations.as_slice())?;
    Ok(Cleaned { text, dropped })
}

/// Returns nothing of a text, which is dropped whole.
pub(crate) fn dropped_whole(
    alloc: Global,
    text: &str,
    reason: Reason,
) -> Result<Cleaned, AllocError>
    ensures text { IfOk result (λ out. string_bytes out.text ≡ []) }
    ensures dropped { IfOk result (λ out. map dropped_of out.dropped.items
        ≡ record { start = 0; after = length text.now; reason = reason } ∷ []) }
{
    let mut dropped = Vec::new(alloc);
    dropped.push(Dropped {
        start: 0,
        end: text.len(),
        reason,
    })?;
    Ok(Cleaned {
        text: String::new(alloc),
        dropped,
    })
}

/// Returns the declarations of a style attribute that the policy allows, in their order, as the text of a
/// style attribute. Read again, that text is those declarations and nothing else. It has no byte but
/// those that may be written in a value. What is dropped is said with its place and its reason, in order.
/// Fails only if an allocation fails.
pub fn clean_style(alloc: Global, policy: Policy<'_>, text: &str) -> Result<Cleaned, AllocError>
    ensures text { IfOk result (λ out. string_bytes out.text
        ≡ cleaned (policy_of policy.entry) (read_of (policy_of policy.entry) text.now)) }
    ensures read { IfOk result (λ out. items false (string_bytes out.text) ≡ map printed_part
        (kept (policy_of policy.entry) (items false (read_of (policy_of policy.entry) text.now)))) }
    ensures bytes { IfOk result (λ out. are_safe (string_bytes out.text) ≡ true) }
    ensures dropped { IfOk result (λ out. map dropped_of out.dropped.items
        ≡ dropped_of_text (policy_of policy.entry) text.now) }
{
    printed_declarations_read_back();
    if text.len() > policy.longest {
        return dropped_whole(alloc, text, Reason::Limit);
    }
    clean_any(alloc, policy, text)
}
