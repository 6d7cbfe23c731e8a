//! What an `@namespace` rule has: a prefix and a url.
ghost use Rattle.std.specs.Prelude.{◌≡◌, IfOk, option_map};
ghost use Rattle.std.specs.Cow.{cow_str_bytes};
ghost use Rattle.css_sheet.specs.ImportViews.{url_of};
ghost use Rattle.css_sheet.specs.NamespaceRules.{if_last as if_last_of, declares, prefixed_here};
ghost use Rattle.css_sheet.specs.NamespaceRules.{namespace_here, decoded_url};
ghost use Rattle.css_sheet.specs.internal.FoundViews.{found_url, found_namespace};

use crate::import_rules::{FoundUrl, ImportUrl, read_url};
use css_syntax::statements::begins_ident;
use css_syntax::texts::{front, past_gap, past_word};
use css_syntax::{decode, decode_string};
use std::alloc::{AllocError, Global};
use std::borrow::CowStr;

/// A namespace rule.
#[derive(Clone, Copy)]
pub(crate) struct FoundNamespace<'a> {
    /// The prefix with its escapes as written, or `None` for the default namespace.
    pub(crate) prefix: Option<&'a str>,
    /// The url.
    pub(crate) url: ImportUrl<'a>,
}

/// Returns the url, if only blanks follow it.
fn if_last<'a>(found: Option<FoundUrl<'a>>) -> Option<ImportUrl<'a>>
    ensures { if_last_of (option_map found_url found.entry) ≡ option_map url_of result }
{
    match found {
        Some(one) if past_gap(one.rest).is_empty() => Some(one.url),
        _ => None,
    }
}

/// Reads a prefix and a url.
#[tactic(auto, using(css_syntax::proofs::PartTexts::word_ends))]
fn read_prefixed(text: &str) -> Option<FoundNamespace<'_>>
    ensures { prefixed_here text.now ≡ option_map found_namespace result }
{
    if !begins_ident(text.as_bytes()) {
        return None;
    }
    let rest = past_word(text);
    let url = if_last(read_url(past_gap(rest)))?;
    Some(FoundNamespace {
        prefix: Some(front(text, rest)),
        url,
    })
}

/// Reads what an `@namespace` rule with this prelude has, if it is valid.
#[tactic(auto, unfolding(crate::specs::NamespaceRules::namespace_here))]
pub(crate) fn read_namespace(text: &str) -> Option<FoundNamespace<'_>>
    ensures { namespace_here text.now ≡ option_map found_namespace result }
{
    match if_last(read_url(text)) {
        Some(url) => Some(FoundNamespace { prefix: None, url }),
        None => read_prefixed(text),
    }
}

/// Returns what a url denotes.
pub(crate) fn decode_url<'a>(alloc: Global, url: ImportUrl<'a>) -> Result<CowStr<'a>, AllocError>
    ensures { IfOk result (λ found. cow_str_bytes found ≡ decoded_url (url_of url.entry)) }
{
    match url {
        ImportUrl::Quoted(text) => decode_string(alloc, text),
        ImportUrl::Bare(text) => decode(alloc, text),
    }
}
