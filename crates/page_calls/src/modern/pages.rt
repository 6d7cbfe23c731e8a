//! Which elements of a tree selectors match.

ghost use Rattle.std.specs.Prelude.{◌≡◌, ◌+◌, ◌^◌, ◌<◌, ◌++◌, IfOk, OnOk, MatchResult, List, ℕ, [], None, Some};
ghost use Rattle.std.specs.Prelude.{length, map, string_bytes};
ghost use Rattle.css_tree.specs.Answered.{IsMarkedFor};
ghost use Rattle.page_calls.specs.ModernLines.{page_with, IsModernLine, AreModernLines};
ghost use Rattle.call_answers.specs.Calls.{FailsLonger};
ghost use Rattle.call_answers.specs.Elements.{attributes_by, named_states as named_states_of};
ghost use Rattle.call_answers.specs.internal.Attributes.{placed_attribute_of};
ghost use Rattle.page_calls.specs.Readings.{selector_as};
ghost use Rattle.call_answers.specs.declared.answer.CallError.TheVariants.{Memory};
ghost use Rattle.page_calls.specs.declared.modern.document_kind.DocumentKind.TheVariants.{AsWritten};

use super::document_kind::DocumentKind;
use crate::attributes::attributes_of_each;
use crate::named_states::named_states;
use call_answers::answer::{CallError, check_length};
use call_answers::elements::{ReadTree, TreeElement, has_text, scope_in};
use call_answers::pages::{LineContent, push_indices};
use css_elements::Tree;
use css_selectors::{Selector, Tests};
use css_tree::html::html_selectors;
use css_tree::{NumberedTree, TreeWalk};
use std::alloc::{AllocError, Global};

/// The numbers of the namespaces of elements.
fn namespaces(alloc: Global, elements: &[TreeElement]) -> Result<Vec<usize>, AllocError>
    ensures { IfOk result (λ found. found.items ≡ map (λ element. element.namespace) elements.now) }
{
    let mut found = Vec::with_capacity(alloc, elements.len())?;
    for element in elements {
        found.push(element.namespace)?;
    }
    Ok(found)
}

/// The tree whose siblings are counted, which of its elements have a text, and which one `:scope` matches.
fn counted_page<'p, 't>(
    alloc: Global,
    tree: &'p Tree<'t>,
    elements: &[TreeElement],
) -> Result<NumberedTree<'p, 't>, CallError>
    requires { length elements.now ≡ length tree.now }
    ensures { MatchResult result (λ page. page ≡ page_with AsWritten [] [] elements.now tree.now)
        (λ error. error ≡ Memory) }
{
    let mut page = NumberedTree::new(alloc, tree)?;
    page.set_scope(scope_in(elements));
    let numbers = namespaces(alloc, elements)?;
    page.set_namespaces(alloc, numbers)?;
    for index in 0..elements.len() {
        if has_text(elements[index]) {
            page.set_text(index);
        }
    }
    Ok(page)
}

/// The page of a tree, as a document that reads selectors in this way has it.
pub fn page_of<'p, 't>(
    alloc: Global,
    kind: DocumentKind,
    read: &'p ReadTree<'t>,
    elements: &[TreeElement],
) -> Result<NumberedTree<'p, 't>, CallError>
    requires { length elements.now ≡ length read.now.rows }
    ensures { MatchResult result (λ page. page ≡ page_with kind
        (named_states_of (map (λ name. name.now) read.now.states.items) elements.now)
        (attributes_by (length elements.now) (map placed_attribute_of read.now.attributes.items))
        elements.now read.now.rows) (λ error. error ≡ Memory) }
{
    let mut page = counted_page(alloc, &read.rows, elements)?;
    page.set_states(named_states(alloc, &read.states, elements)?);
    let attributes = attributes_of_each(alloc, &read.attributes, elements.len())?;
    page.set_namespaced_attributes(attributes);
    match kind {
        DocumentKind::AsWritten => Ok(page),
        DocumentKind::Html(_) => {
            page.set_html(alloc)?;
            Ok(page)
        }
    }
}

/// Appends the line of an element, which is given by its index, by a walk. What was in `indices` is
/// dropped.
fn push_line(
    out: &mut String,
    content: LineContent,
    walk: &mut TreeWalk<'_, '_, '_, '_>,
    element: usize,
    indices: &mut Vec<usize>,
) -> Result<(), AllocError>
    requires element { element < length walk.old.page.rows }
    requires number { element + 1 < 2 ^ 64 }
    requires fits { length walk.old.walk.selectors < 2 ^ 63 }
    ensures written { OnOk result ((line : List ℕ)
        × IsModernLine content walk.old.walk.selectors walk.old.page element line
        × (string_bytes out.new ≡ string_bytes out.old ++ line)) }
    ensures page { walk.new.page ≡ walk.old.page }
    ensures selectors { walk.new.walk.selectors ≡ walk.old.walk.selectors }
{
    walk.matching(element, indices, &mut Tests::new())?;
    push_indices(out, content, element + 1, indices.as_slice())
}

/// The lines of the elements of a page, by a walk.
fn lines_by(
    alloc: Global,
    content: LineContent,
    walk: &mut TreeWalk<'_, '_, '_, '_>,
    most: usize,
) -> Result<String, CallError>
    requires { length walk.old.walk.selectors < 2 ^ 63 }
    ensures { MatchResult result
        (λ text. AreModernLines most content walk.old.walk.selectors walk.old.page
        (Some (string_bytes text)))
        (FailsLonger (AreModernLines most content walk.old.walk.selectors walk.old.page None)) }
{
    let mut indices = Vec::new(alloc);
    let mut text = String::new(alloc);
    for element in 0..walk.element_count() {
        push_line(&mut text, content, walk, element, &mut indices)?;
        check_length(&text, most)?;
    }
    Ok(text)
}

/// The lines of the elements of a page, by which selectors match each.
fn lines_as_written(
    alloc: Global,
    content: LineContent,
    selectors: &[Selector<'_>],
    page: &NumberedTree<'_, '_>,
    most: usize,
) -> Result<String, CallError>
    requires few { length selectors.now < 2 ^ 63 }
    requires marked { IsMarkedFor selectors.now page.now }
    ensures { MatchResult result
        (λ text. AreModernLines most content selectors.now page.now (Some (string_bytes text)))
        (FailsLonger (AreModernLines most content selectors.now page.now None)) }
{
    let mut walk = TreeWalk::new(alloc, selectors, page)?;
    lines_by(alloc, content, &mut walk, most)
}

/// The lines of the elements of a page, by which selectors match each as a document reads them.
pub fn lines(
    alloc: Global,
    content: LineContent,
    kind: DocumentKind,
    selectors: &[Selector<'_>],
    page: &NumberedTree<'_, '_>,
    most: usize,
) -> Result<String, CallError>
    requires few { length selectors.now < 2 ^ 63 }
    requires marked { IsMarkedFor (map (selector_as kind) selectors.now) page.now }
    ensures { MatchResult result (λ text. AreModernLines most content
        (map (selector_as kind) selectors.now) page.now (Some (string_bytes text)))
        (FailsLonger (AreModernLines most content (map (selector_as kind) selectors.now)
        page.now None)) }
{
    match kind {
        DocumentKind::AsWritten => lines_as_written(alloc, content, selectors, page, most),
        DocumentKind::Html(mode) => {
            let selectors = html_selectors(alloc, mode, selectors)?;
            lines_as_written(alloc, content, &selectors, page, most)
        }
    }
}
