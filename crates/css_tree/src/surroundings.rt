//! What the ancestors of an element of an HTML document decide for it.
ghost use Rattle.std.specs.Prelude.{◌≡◌, ◌<◌, Some, IfOk, length};
ghost use Rattle.css_tree.specs.Counts.{any_below};
ghost use Rattle.css_tree.specs.HtmlViews.{AreAround};
ghost use Rattle.css_tree.specs.Pages.{parent_index};
ghost use Rattle.css_tree.specs.Surroundings.{own_editing as says_editing, editing_named as editing_by};
ghost use Rattle.css_tree.specs.Surroundings.{own_direction as says_direction, direction_named as direction_by};
ghost use Rattle.css_tree.specs.Surroundings.{usual_direction as usual_direction_of};
ghost use Rattle.css_tree.specs.Surroundings.{bars as bars_child, ends_group as is_end_of_group};
ghost use Rattle.css_tree.specs.Surroundings.{within as decided_within, surroundings as decided};
ghost use Rattle.css_tree.specs.Surroundings.{at_root as decided_at_root, is_grouped_within};
ghost use Rattle.css_tree.specs.Surroundings.{is_first_legend as is_first_legend_of, is_legend_of};

use crate::NumberedTree;
use crate::html_elements::{has_attribute, is_named, is_telephone};
use css_elements::Node;
use std::alloc::{AllocError, Global};

/// The direction of an element.
#[derive(Clone, Copy, Debug, PartialEq)]
pub(crate) enum Direction {
    /// From left to right.
    LeftToRight,
    /// From right to left.
    RightToLeft,
    /// It depends on a text.
    OfText,
}

/// What ancestors decide for an element.
#[derive(Clone, Copy, Debug, PartialEq)]
pub(crate) struct Surroundings {
    /// Whether a `fieldset` disables controls.
    pub(crate) is_barred: bool,
    /// Whether an `optgroup` disables options.
    pub(crate) is_grouped: bool,
    /// Whether the element is edited.
    pub(crate) is_editable: bool,
    /// The direction of the element.
    pub(crate) direction: Direction,
    /// The number of the form: one more than its index, or 0 if there is none.
    pub(crate) form: usize,
}

/// Whether a value of `contenteditable` says that an element is edited, or that it is not.
fn editing_named(text: &str) -> Option<bool>
    ensures { result ≡ editing_by text.now }
{
    if text.is_empty()
        || text.eq_ignore_ascii_case("true")
        || text.eq_ignore_ascii_case("plaintext-only")
    {
        Some(true)
    } else if text.eq_ignore_ascii_case("false") {
        Some(false)
    } else {
        None
    }
}

/// Whether an element says of itself that it is edited, or that it is not.
fn own_editing(node: &Node<'_, '_>) -> Option<bool>
    ensures { result ≡ says_editing node.now.0 node.now.1 }
{
    editing_named(node.attribute("contenteditable")?)
}

/// Returns what a value of `dir` says.
fn direction_named(text: &str) -> Option<Direction>
    ensures { result ≡ direction_by text.now }
{
    if text.eq_ignore_ascii_case("ltr") {
        Some(Direction::LeftToRight)
    } else if text.eq_ignore_ascii_case("rtl") {
        Some(Direction::RightToLeft)
    } else if text.eq_ignore_ascii_case("auto") {
        Some(Direction::OfText)
    } else {
        None
    }
}

/// Returns what an element says of its direction without a value of `dir` that says something.
fn usual_direction(node: &Node<'_, '_>) -> Option<Direction>
    ensures { result ≡ usual_direction_of node.now.0 node.now.1 }
{
    if is_named(node, "bdi") {
        Some(Direction::OfText)
    } else if is_telephone(node) {
        Some(Direction::LeftToRight)
    } else {
        None
    }
}

/// Returns what an element says of its direction.
fn own_direction(node: &Node<'_, '_>) -> Option<Direction>
    ensures { result ≡ says_direction node.now.0 node.now.1 }
{
    match node.attribute("dir") {
        Some(text) => match direction_named(text) {
            Some(direction) => Some(direction),
            None => usual_direction(node),
        },
        None => usual_direction(node),
    }
}

/// Whether the options in an element have no `optgroup` around it.
fn ends_group(node: &Node<'_, '_>) -> bool
    ensures { result ≡ is_end_of_group node.now.0 node.now.1 }
{
    is_named(node, "select")
        || is_named(node, "option")
        || is_named(node, "datalist")
        || is_named(node, "hr")
}

/// Whether the options in an element are disabled, where it is said whether they are around it.
fn is_grouped(node: &Node<'_, '_>, above: bool) -> bool
    ensures { result ≡ is_grouped_within node.now.0 node.now.1 above }
{
    if is_named(node, "optgroup") {
        has_attribute(node, "disabled")
    } else {
        !ends_group(node) && above
    }
}

/// Whether a child of an element has a `legend` among its earlier siblings. It visits those from the last
/// of these on, so for all the legends among the children of an element that takes linear time.
fn has_earlier_legend(page: &NumberedTree<'_, '_>, parent: usize, index: usize) -> bool
    requires within { index < length page.now.rows }
    requires parent { parent_index page.now.rows index ≡ Some parent }
    ensures { result ≡ any_below (is_legend_of page.now.rows parent) index }
{
    let mut earlier = index;
    'siblings: while let Some(sibling) = page.before(earlier).last {
        if is_named(&page.plain(sibling), "legend") {
            return true;
        }
        earlier = sibling;
    }
    false
}

/// Whether an element is the first `legend` among the children of its parent.
fn is_first_legend(page: &NumberedTree<'_, '_>, parent: usize, index: usize) -> bool
    requires within { index < length page.now.rows }
    requires parent { parent_index page.now.rows index ≡ Some parent }
    ensures { result ≡ is_first_legend_of page.now.rows parent index }
{
    is_named(&page.plain(index), "legend") && !has_earlier_legend(page, parent, index)
}

/// Whether the parent is a disabled `fieldset` that bars its child.
fn bars(page: &NumberedTree<'_, '_>, parent: usize, index: usize) -> bool
    requires within { index < length page.now.rows }
    requires above { parent < length page.now.rows }
    requires parent { parent_index page.now.rows index ≡ Some parent }
    ensures { result ≡ bars_child page.now.rows parent index }
{
    let node = page.plain(parent);
    is_named(&node, "fieldset")
        && has_attribute(&node, "disabled")
        && !is_first_legend(page, parent, index)
}

/// Returns what is decided for the child of an element for which `above` is.
fn surroundings_within(
    page: &NumberedTree<'_, '_>,
    parent: usize,
    index: usize,
    above: Surroundings,
) -> Surroundings
    requires within { index < length page.now.rows }
    requires above { parent < length page.now.rows }
    requires parent { parent_index page.now.rows index ≡ Some parent }
    ensures { result ≡ decided_within page.now.rows parent index above }
{
    let node = page.plain(parent);
    let form = if is_named(&node, "form") {
        parent + 1
    } else {
        above.form
    };
    Surroundings {
        is_barred: bars(page, parent, index) || above.is_barred,
        is_grouped: is_grouped(&node, above.is_grouped),
        is_editable: own_editing(&page.plain(index)).unwrap_or(above.is_editable),
        direction: own_direction(&page.plain(index)).unwrap_or(above.direction),
        form,
    }
}

/// Returns what is decided for an element without a parent.
fn surroundings_at_root(page: &NumberedTree<'_, '_>, index: usize) -> Surroundings
    requires { index < length page.now.rows }
    ensures { result ≡ decided_at_root page.now.rows index }
{
    Surroundings {
        is_barred: false,
        is_grouped: false,
        is_editable: own_editing(&page.plain(index)).unwrap_or(false),
        direction: own_direction(&page.plain(index)).unwrap_or(Direction::LeftToRight),
        form: 0,
    }
}

/// Returns what is decided for an element, by what is for those before it.
fn surroundings_of(
    page: &NumberedTree<'_, '_>,
    before: &[Surroundings],
    index: usize,
) -> Surroundings
    requires within { index < length page.now.rows }
    requires before { AreAround page.now.rows before.now index }
    ensures { result ≡ decided page.now.rows index }
{
    match page.parent(index) {
        Some(parent) => surroundings_within(page, parent, index, before[parent]),
        None => surroundings_at_root(page, index),
    }
}

/// Returns what is decided for each element.
pub(crate) fn all_surroundings(
    alloc: Global,
    page: &NumberedTree<'_, '_>,
) -> Result<Vec<Surroundings>, AllocError>
    ensures { IfOk result (λ all. AreAround page.now.rows all.items (length page.now.rows)) }
{
    let mut all = Vec::with_capacity(alloc, page.len())?;
    for index in 0..page.len() {
        let decided = surroundings_of(page, all.as_slice(), index);
        all.push(decided)?;
    }
    Ok(all)
}
