//! The selectors of a style rule.
ghost use Rattle.std.specs.Prelude.{◌≡◌, IfOk, map};
ghost use Rattle.css_syntax.specs.Views.{prelude_of};
ghost use Rattle.css_selector_text.specs.reading.ReadSelectors.{ParsesPlaced};
ghost use Rattle.css_selector_text.specs.NameViews.{names_of};
ghost use Rattle.css_selector_text.specs.reading.ReadViews.{placed_of};
ghost use Rattle.css_sheet.specs.RuleSelectors.{text_between as text_between_of, past_colons as past_colons_of};
ghost use Rattle.css_sheet.specs.RuleSelectors.{if_supported as if_supported_of, element_read, selector_read, selector_of};
ghost use Rattle.css_sheet.specs.RuleSelectors.{context, list_under, listed_under, selectors_under};
ghost use Rattle.css_sheet.specs.RuleViews.{rule_selector_of, listed_result, placed_result};

use css_selector_text::{Listed, Names, Nesting, Refusal, Selector, Why};
use css_syntax::quality::{fault_of, is_good};
use css_syntax::texts::{past_byte, past_gap};
use css_syntax::{Fault, Prelude};
use std::alloc::{AllocError, Global};

/// A selector of a style rule.
///
/// With a `selector` and no `pseudo_element` it is one of elements, and matches those that
/// `Matching::matches` of `css_selectors` says. With both it is one of a pseudo-element of these, and of no element
/// itself. Without a `selector` it is valid, but unsupported.
#[derive(Drop)]
pub struct RuleSelector<'a> {
    /// Its text, without blanks at either end.
    pub text: &'a str,
    /// The selector without its pseudo-element, if it is supported.
    pub selector: Option<Selector<'a>>,
    /// The name of the pseudo-element at its end, as written, with what it has in parentheses.
    pub pseudo_element: Option<&'a str>,
}

/// Reads a text as a selector, or returns `None` if it is none that is supported. Fails only if an
/// allocation fails.
pub fn read_supported<'a>(alloc: Global, text: &'a str) -> Result<Option<Selector<'a>>, AllocError>
    ensures { IfOk result (λ selector. selector ≡ selector_of text.now) }
{
    match Selector::parse(alloc, text) {
        Ok(selector) => Ok(Some(selector)),
        Err(refusal) if refusal.why == Why::Memory => Err(AllocError),
        Err(_) => Ok(None),
    }
}

/// Returns the text from one place to another, by what is left of one text at each.
fn text_between<'a>(from: &'a str, to: &str) -> &'a str
    ensures { result.now ≡ text_between_of from.now to.now }
{
    let count = from.len().saturating_sub(to.len());
    if from.is_char_boundary(count) {
        &from[..count]
    } else {
        ""
    }
}

/// Returns what is left after the colons of a pseudo-element, and after comments that follow them.
fn past_colons(element: &str) -> &str
    ensures { result.now ≡ past_colons_of element.now }
{
    past_gap(past_byte(past_gap(past_byte(element, b':')), b':'))
}

/// Returns the selector, if it is supported.
fn if_supported(selector: Selector<'_>) -> Option<Selector<'_>>
    ensures { result ≡ if_supported_of selector.entry }
{
    if selector.is_supported() {
        Some(selector)
    } else {
        None
    }
}

/// Returns what a selector of a list is in a rule that has a pseudo-element at its end.
fn with_element<'a>(alloc: Global, listed: Listed<'a>) -> Result<RuleSelector<'a>, AllocError>
    ensures { IfOk result (λ read. element_read (placed_of listed.entry) ≡ rule_selector_of read) }
{
    Ok(RuleSelector {
        text: text_between(listed.from, listed.to),
        selector: if_supported(listed.selector.originating(alloc)?),
        pseudo_element: Some(text_between(past_colons(listed.element), listed.to)),
    })
}

/// Returns what a selector of a list is in a rule. Fails only if an allocation fails.
pub fn rule_selector<'a>(alloc: Global, listed: Listed<'a>) -> Result<RuleSelector<'a>, AllocError>
    ensures { IfOk result (λ read. selector_read (placed_of listed.entry) ≡ rule_selector_of read) }
{
    let text = text_between(listed.from, listed.to);
    match listed.selector.pseudo_element() {
        None => Ok(RuleSelector {
            text,
            selector: if_supported(listed.selector),
            pseudo_element: None,
        }),
        Some(element) if element.after.is_empty() => with_element(alloc, listed),
        Some(_) => Ok(RuleSelector {
            text,
            selector: None,
            pseudo_element: None,
        }),
    }
}

/// Reads a text that is the list of a rule.
fn read_list<'a>(
    alloc: Global,
    names: &Names<'_>,
    under: Option<Nesting>,
    text: &'a str,
) -> Result<Vec<Listed<'a>>, Refusal<'a>>
    ensures { ParsesPlaced result (list_under (context under (names_of names.now)) text.now) }
{
    match under {
        None => Selector::read_list_in(alloc, text, names),
        Some(list) => Selector::read_nested_list_in(alloc, list, text, names),
    }
}

/// Reads the list of selectors of a rule with this prelude: of one that is in no other rule, or of a nested
/// one in which `&` stands for `under`. `names` are those that its sheet declares, as
/// [`SheetNamespaces`](crate::SheetNamespaces) reads them: a prefix that is not declared is no selector. The
/// inner error is why the rule is dropped: CSS drops it as a whole for one part that is no selector. Fails only
/// if an allocation fails.
pub fn read_listed<'a>(
    alloc: Global,
    names: &Names<'_>,
    under: Option<Nesting>,
    prelude: &Prelude<'a>,
) -> Result<Result<Vec<Listed<'a>>, Fault>, AllocError>
    ensures { IfOk result (λ read. listed_under (context under (names_of names.now)) (prelude_of prelude.now)
        ≡ placed_result (λ l. l.items) read) }
{
    if !is_good(prelude.quality) {
        return Ok(Err(fault_of(prelude.quality)));
    }
    match read_list(alloc, names, under, prelude.text) {
        Ok(all) => Ok(Ok(all)),
        Err(refusal) if refusal.why == Why::Memory => Err(AllocError),
        Err(_) => Ok(Err(Fault::InvalidSelector)),
    }
}

/// Returns what the selectors of a list are in a rule.
fn rule_selectors<'a>(
    alloc: Global,
    all: Vec<Listed<'a>>,
) -> Result<Vec<RuleSelector<'a>>, AllocError>
    ensures { IfOk result (λ selectors. map selector_read (map placed_of all.entry.items)
        ≡ map rule_selector_of selectors.items) }
{
    let mut selectors = Vec::with_capacity(alloc, all.len())?;
    'selectors: for listed in all {
        selectors.push(rule_selector(alloc, listed)?)?;
    }
    Ok(selectors)
}

/// Reads the selectors of a rule with this prelude, in order, as `read_listed` does.
pub fn read_selectors<'a>(
    alloc: Global,
    names: &Names<'_>,
    under: Option<Nesting>,
    prelude: &Prelude<'a>,
) -> Result<Result<Vec<RuleSelector<'a>>, Fault>, AllocError>
    ensures { IfOk result (λ read. selectors_under (context under (names_of names.now)) (prelude_of prelude.now)
        ≡ listed_result (λ l. l.items) read) }
{
    match read_listed(alloc, names, under, prelude)? {
        Ok(all) => Ok(Ok(rule_selectors(alloc, all)?)),
        Err(fault) => Ok(Err(fault)),
    }
}
