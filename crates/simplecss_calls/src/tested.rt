//! Which rules match one element, by asking each: for one element this costs less than an index.

ghost use Rattle.std.specs.Prelude.{◌≡◌, ◌-◌, ◌<◌, ◌↔◌, ◌++◌, ◌∷◌, [], if◌then◌else◌, true, IfOk, IfSome, IsTrue, OnOk, length, map};
ghost use Rattle.css_selector_text.specs.Components.{conditions_from};
ghost use Rattle.css_selector_text.specs.Components.Condition.{simple as simply};
ghost use Rattle.css_selector_text.specs.Views.{condition_of, simple_of};
ghost use Rattle.css_selectors.specs.Keys.{conditions_at};
ghost use Rattle.css_selectors.specs.Meanings.{AreMet, Matches, holds};
ghost use Rattle.css_index.specs.Found.{AreMatches};
ghost use Rattle.css_sheet.specs.SheetRuleViews.{sheet_rule_of};
ghost use Rattle.css_tree.specs.Html.{condition_in, html_selector as html_selector_of};
ghost use Rattle.css_matching.specs.ListTrees.{spot};
ghost use Rattle.css_tree.specs.Pages.{page_document};
ghost use Rattle.css_tree.specs.declared.html.HtmlMode.TheVariants.{NoQuirks};
ghost use Rattle.page_calls.specs.Readings.{selector_as};
ghost use Rattle.simplecss_calls.specs.WinnerNumbers.{selectors_read};

use css_selectors::on_marked::{matches_counted, meets};
use css_selectors::{Combinator, Condition, Element, Part, Selector, Simple, Tests};
use css_sheet::SheetRule;
use css_tree::html::{HtmlMode, html_selector};
use css_tree::{NumberedNode, NumberedTree};
use page_calls::modern::DocumentKind;
use std::alloc::{AllocError, Global};
use std::borrow::CowStr;

/// Returns the id or the class that a condition is: an HTML document that is not in quirks mode reads it as it is
/// written.
fn plain_key<'s>(condition: &'s Condition<'_>) -> Option<Simple<'s>>
    ensures { IfSome result (λ key. condition_in NoQuirks (condition_of condition.now) ≡ simply (simple_of key)) }
{
    match condition {
        Condition::Simple(Simple::Id(text)) => Some(Simple::Id(CowStr::Borrowed(text.as_str()))),
        Condition::Simple(Simple::Class(word)) => {
            Some(Simple::Class(CowStr::Borrowed(word.as_str())))
        }
        _ => None,
    }
}

/// Whether an element satisfies a simple selector.
fn has<E: Element>(alloc: Global, simple: Simple<'_>, element: &E) -> Result<bool, AllocError>
    ensures { IfOk result (λ has. IsTrue has
        ↔ IsTrue (holds E.document (E.node element.now) (simple_of simple.entry))) }
{
    let mut conditions = Vec::with_capacity(alloc, 1)?;
    conditions.push(Condition::Simple(simple))?;
    let part = Part {
        combinator: Combinator::Descendant,
        conditions,
    };
    Ok(meets(&part, element, &mut Tests::new()))
}

/// Returns the conditions of the last compound selector.
fn last_conditions<'s, 'a>(selector: &'s Selector<'a>) -> &'s [Condition<'a>]
    ensures { map condition_of result.now
        ≡ conditions_at selector.now.parts (length selector.now.parts - 1) }
{
    let parts = selector.parts();
    parts[parts.len() - 1].conditions.as_slice()
}

/// Whether the first of some conditions is an id or a class that an element does not have, where the document is not in
/// quirks mode.
fn lacks_first<E: Element>(
    alloc: Global,
    conditions: &[Condition<'_>],
    element: &E,
) -> Result<bool, AllocError>
    ensures { IfOk result (λ lacks. lacks ≡ true → ¬ AreMet E.document
        (conditions_from (map (condition_in NoQuirks) (map condition_of conditions.now))) (E.node element.now)) }
{
    let [first, ..] = conditions else {
        return Ok(false);
    };
    match plain_key(first) {
        Some(key) => Ok(!has(alloc, key, element)?),
        None => Ok(false),
    }
}

/// Whether an element lacks what a selector asks first of it, as an HTML document in this mode reads it. Then it is not
/// matched.
fn is_passed_over<E: Element>(
    alloc: Global,
    mode: HtmlMode,
    selector: &Selector<'_>,
    element: &E,
) -> Result<bool, AllocError>
    ensures { IfOk result (λ passed. passed ≡ true
        → ¬ Matches E.document (html_selector_of mode selector.now) (E.node element.now)) }
{
    match mode {
        HtmlMode::NoQuirks => lacks_first(alloc, last_conditions(selector), element),
        HtmlMode::Quirks => Ok(false),
    }
}

/// Whether a selector, as an HTML document in this mode reads it, matches an element.
fn is_matched_in_html<E: Element>(
    alloc: Global,
    mode: HtmlMode,
    selector: &Selector<'_>,
    element: &E,
) -> Result<bool, AllocError>
    ensures { IfOk result (λ matched. IsTrue matched
        ↔ Matches E.document (html_selector_of mode selector.now) (E.node element.now)) }
{
    if is_passed_over(alloc, mode, selector, element)? {
        return Ok(false);
    }
    let read = html_selector(alloc, mode, selector)?;
    Ok(matches_counted(&read, element, &mut Tests::new()))
}

/// Whether a selector matches an element, where a document reads selectors in this way.
fn is_matched<E: Element>(
    alloc: Global,
    kind: DocumentKind,
    selector: &Selector<'_>,
    element: &E,
) -> Result<bool, AllocError>
    ensures { IfOk result (λ matched. IsTrue matched
        ↔ Matches E.document (selector_as kind selector.now) (E.node element.now)) }
{
    match kind {
        DocumentKind::AsWritten => Ok(matches_counted(selector, element, &mut Tests::new())),
        DocumentKind::Html(mode) => is_matched_in_html(alloc, mode, selector, element),
    }
}

/// Appends an index, if it is wanted.
fn push_if(indices: &mut Vec<usize>, index: usize, is_wanted: bool) -> Result<(), AllocError>
    ensures { OnOk result (indices.new.items
        ≡ indices.old.items ++ (if is_wanted then index ∷ [] else [])) }
{
    if is_wanted {
        indices.push(index)?;
    }
    Ok(())
}

/// Finds the indices of the rules that match an element, in order, where a document reads selectors in this way. What was
/// in `indices` is dropped.
fn find_on(
    alloc: Global,
    kind: DocumentKind,
    rules: &[SheetRule<'_>],
    node: &NumberedNode<'_, '_, '_>,
    indices: &mut Vec<usize>,
) -> Result<(), AllocError>
    ensures { OnOk result (AreMatches page_document node.now
        (selectors_read (selector_as kind) (map sheet_rule_of rules.now)) indices.new.items) }
{
    indices.clear();
    let mut index: usize = 0;
    for rule in rules {
        let matched = is_matched(alloc, kind, &rule.selector, node)?;
        push_if(indices, index, matched)?;
        index += 1;
    }
    Ok(())
}

/// The same of the element at an index.
pub(crate) fn find_matching(
    alloc: Global,
    kind: DocumentKind,
    rules: &[SheetRule<'_>],
    page: &NumberedTree<'_, '_>,
    element: usize,
    indices: &mut Vec<usize>,
) -> Result<(), AllocError>
    requires { element < length page.now.rows }
    ensures { OnOk result (AreMatches page_document (spot page.now element)
        (selectors_read (selector_as kind) (map sheet_rule_of rules.now)) indices.new.items) }
{
    let node = page.node(element).unwrap();
    find_on(alloc, kind, rules, &node, indices)
}
