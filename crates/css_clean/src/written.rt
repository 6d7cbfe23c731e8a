//! Declarations, written anew: without escapes, urls by their answers, and names with a prefix.
ghost use Rattle.std.specs.Prelude.{◌≡◌, false, IfOk, option_map, map, string_bytes};
ghost use Rattle.css_syntax.specs.DeclarationLists.{items};
ghost use Rattle.css_syntax.specs.Printing.{list_text};
ghost use Rattle.css_syntax.specs.Views.{declaration_of, item_of};
ghost use Rattle.css_clean.specs.Cleaning.{renamed as renamed_of, rewritten as rewritten_of, is_same as is_same_of};
ghost use Rattle.css_clean.specs.Cleaning.{has_escape as has_escape_of, without_escapes as without_escapes_of, is_new as is_new_of};
ghost use Rattle.css_clean.specs.Cleaning.{is_item as is_item_of, is_first as is_first_of};
ghost use Rattle.css_clean.specs.Cleaning.{reads_back as reads_back_of, is_kept as is_kept_of};
ghost use Rattle.css_clean.specs.Views.{policy_of, written_of};
ghost use Rattle.clean_values.specs.Views.{changes_of};

use crate::policy::{Policy, is_allowed};
use clean_values::changes::Changes;
use clean_values::checks::changes_nothing;
use clean_values::names::has_backslash;
use clean_values::plain::{plain_name, plain_value};
use clean_values::values::{written_name, written_value};
use css_syntax::declarations::read_part;
use css_syntax::{Declaration, DeclarationList, Item};
use std::alloc::{AllocError, Global};
use std::borrow::CowStr;

/// A declaration, as it is or written anew.
#[derive(Drop)]
pub(crate) struct Written<'a> {
    /// The name of the property.
    pub name: CowStr<'a>,
    /// The value.
    pub value: CowStr<'a>,
    /// Whether it is important.
    pub important: bool,
    /// Whether nothing of the value is open at the end of the text.
    pub closed: bool,
}

/// Returns the declaration that is written.
pub(crate) fn declaration<'w>(written: &'w Written<'_>) -> Declaration<'w>
    ensures { declaration_of result ≡ written_of written.now }
{
    Declaration {
        name: &written.name,
        value: &written.value,
        important: written.important,
        closed: written.closed,
    }
}

/// Returns the declaration as it is.
fn unchanged<'a>(declaration: &Declaration<'a>) -> Written<'a>
    ensures { written_of result ≡ declaration_of declaration.now }
{
    Written {
        name: CowStr::Borrowed(declaration.name),
        value: CowStr::Borrowed(declaration.value),
        important: declaration.important,
        closed: declaration.closed,
    }
}

/// Whether the declaration has a backslash, and so perhaps an escape.
fn has_escape(declaration: &Declaration<'_>) -> bool
    ensures { result ≡ has_escape_of (declaration_of declaration.now) }
{
    has_backslash(declaration.name.as_bytes()) || has_backslash(declaration.value.as_bytes())
}

/// Returns the declaration with its escapes decoded, but for those that it needs.
pub(crate) fn without_escapes<'a>(
    alloc: Global,
    declaration: &Declaration<'a>,
) -> Result<Written<'a>, AllocError>
    ensures { IfOk result (λ out. written_of out ≡ without_escapes_of (declaration_of declaration.now)) }
{
    if !has_escape(declaration) {
        return Ok(unchanged(declaration));
    }
    Ok(Written {
        name: CowStr::Owned(plain_name(alloc, declaration.name)?),
        value: CowStr::Owned(plain_value(alloc, declaration.value)?),
        important: declaration.important,
        closed: declaration.closed,
    })
}

/// Whether the declaration is not written as it is.
pub(crate) fn is_new(changes: Changes<'_>, declaration: &Declaration<'_>) -> bool
    ensures { result ≡ is_new_of (changes_of changes.entry) (declaration_of declaration.now) }
{
    has_escape(declaration) || !changes_nothing(changes)
}

/// Returns the declaration with the prefix, if it is of a custom property.
pub(crate) fn renamed<'a>(
    alloc: Global,
    changes: Changes<'_>,
    declaration: &Declaration<'a>,
) -> Result<Written<'a>, AllocError>
    ensures { IfOk result (λ out. written_of out
        ≡ renamed_of (changes_of changes.entry) (declaration_of declaration.now)) }
{
    Ok(Written {
        name: CowStr::Owned(written_name(alloc, changes, declaration.name)?),
        value: CowStr::Borrowed(declaration.value),
        important: declaration.important,
        closed: declaration.closed,
    })
}

/// Returns the declaration with its urls by their answers, and with the prefix of names, if each url has an
/// answer.
pub(crate) fn rewritten<'a>(
    alloc: Global,
    changes: Changes<'_>,
    plain: &Written<'_>,
) -> Result<Option<Written<'a>>, AllocError>
    ensures { IfOk result (λ out. option_map written_of out
        ≡ rewritten_of (changes_of changes.entry) (written_of plain.now)) }
{
    let Some(value) = written_value(alloc, changes, &plain.name, &plain.value)? else {
        return Ok(None);
    };
    Ok(Some(Written {
        name: CowStr::Owned(written_name(alloc, changes, &plain.name)?),
        value: CowStr::Owned(value),
        important: plain.important,
        closed: plain.closed,
    }))
}

/// Whether both hold, or neither does.
fn is_same(one: bool, other: bool) -> bool
    ensures { result ≡ is_same_of one other }
{
    if one { other } else { !other }
}

/// Whether the item is the declaration.
fn is_item(declaration: &Declaration<'_>, item: &Item<'_>) -> bool
    ensures { result ≡ is_item_of (declaration_of declaration.now) (item_of item.now) }
{
    match item {
        Item::Declaration(found) => {
            found.name == declaration.name
                && found.value == declaration.value
                && is_same(found.important, declaration.important)
                && is_same(found.closed, declaration.closed)
        }
        Item::AtRule(_) | Item::Skipped(_) => false,
    }
}

/// Whether the first item of a text is the declaration.
#[tactic(auto, using(crate::proofs::CleanLemmas::first_some, crate::proofs::CleanLemmas::first_none))]
fn is_first(declaration: &Declaration<'_>, text: &str) -> bool
    ensures { result ≡ is_first_of (declaration_of declaration.now) (items false text.now) }
{
    match read_part(text, false) {
        Some(found) => is_item(declaration, &found.part.item),
        None => false,
    }
}

/// Whether the text of the declaration is read as it.
fn reads_back(alloc: Global, declaration: &Declaration<'_>) -> Result<bool, AllocError>
    ensures { IfOk result (λ holds. holds ≡ reads_back_of (declaration_of declaration.now)) }
{
    let one = *declaration;
    let text = format!(in alloc; "{one}")?;
    Ok(is_first(declaration, text.as_str()))
}

/// Whether the policy allows the declaration, which reads back, if it is new.
pub(crate) fn is_kept(
    alloc: Global,
    policy: Policy<'_>,
    is_new: bool,
    declaration: &Declaration<'_>,
) -> Result<bool, AllocError>
    ensures { IfOk result (λ holds. holds
        ≡ is_kept_of (policy_of policy.entry) is_new (declaration_of declaration.now)) }
{
    if !is_allowed(policy, declaration) {
        return Ok(false);
    }
    if !is_new {
        return Ok(true);
    }
    reads_back(alloc, declaration)
}

/// Returns declarations, printed.
pub(crate) fn printed(alloc: Global, all: &[Written<'_>]) -> Result<String, AllocError>
    ensures { IfOk result (λ out. string_bytes out ≡ list_text (map written_of all.now)) }
{
    let mut declarations = Vec::new(alloc);
    for one in all {
        declarations.push(declaration(one))?;
    }
    let list = DeclarationList {
        declarations: declarations.as_slice(),
    };
    format!(in alloc; "{list}")
}
