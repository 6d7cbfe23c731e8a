//! The states of the elements of an HTML document, as attributes decide them (HTML Standard,
//! "Pseudo-classes").
ghost use Rattle.std.specs.Prelude.{◌≡◌, ◌<◌, ◌+◌, ◌&&◌, List, [], false, true, not, nat_lt, IfOk, OnOk, OnErr, length, slice_index_or};
ghost use Rattle.css_elements.specs.Rows.{Row};
ghost use Rattle.css_tree.specs.Counts.{any_below};
ghost use Rattle.css_tree.specs.HtmlStates.{is_checked as is_checked_at, is_disabled as is_disabled_at};
ghost use Rattle.css_tree.specs.HtmlStates.{may_be_disabled as may_be_disabled_at, is_mutable as is_mutable_at};
ghost use Rattle.css_tree.specs.HtmlStates.{has_requirement as has_requirement_at};
ghost use Rattle.css_tree.specs.HtmlStates.{is_read_write as is_read_write_at};
ghost use Rattle.css_tree.specs.HtmlStates.{is_input_with_placeholder as is_input_with};
ghost use Rattle.css_tree.specs.HtmlStates.{is_area_with_placeholder as is_area_with};
ghost use Rattle.css_tree.specs.HtmlStates.{form_of as form_at, is_default_button as is_default_at};
ghost use Rattle.css_tree.specs.HtmlStates.{is_indeterminate as is_indeterminate_at, is_open as is_open_at};
ghost use Rattle.css_tree.specs.HtmlStates.{is_defined as is_defined_at, is_group_checked as is_group_checked_at};
ghost use Rattle.css_tree.specs.HtmlStates.{state_named, is_checked_in, group_name as group_name_at};
ghost use Rattle.css_tree.specs.HtmlViews.{html_states as html_states_of, AreStates, AreAround, AreChecked, HaveSubmits};
ghost use Rattle.css_tree.specs.HtmlViews.{is_in as is_in_one, is_in_named as is_in_one_named};
ghost use Rattle.css_tree.specs.Surroundings.{surroundings};

use crate::NumberedTree;
use crate::html_elements::{
    has_attribute, input_type, is_choice_or_area, is_control, is_custom_name, is_named, is_radio,
    is_submit,
};
use crate::numbered_tree::no_marks;
use crate::surroundings::{Direction, Surroundings, all_surroundings};
use css_elements::Node;
use std::alloc::{AllocError, Global};
use std::collections::BTreeMap;

/// A state that attributes decide.
#[derive(Clone, Copy, Debug, PartialEq)]
pub(crate) enum HtmlState {
    /// `:checked`
    Checked,
    /// `:disabled`
    Disabled,
    /// `:enabled`
    Enabled,
    /// `:required`
    Required,
    /// `:optional`
    Optional,
    /// `:read-write`
    ReadWrite,
    /// `:read-only`
    ReadOnly,
    /// `:placeholder-shown`
    PlaceholderShown,
    /// `:default`
    Default,
    /// `:indeterminate`
    Indeterminate,
    /// `:open`
    Open,
    /// `:defined`
    Defined,
    /// `:dir(ltr)`
    InLeftToRight,
    /// `:dir(rtl)`
    InRightToLeft,
}

impl HtmlState {
    /// Returns the state of a name, whatever its case, if it is one of these.
    fn named(name: &str) -> Option<HtmlState>
        ensures { result ≡ state_named name.now }
    {
        if name.eq_ignore_ascii_case("checked") {
            Some(HtmlState::Checked)
        } else if name.eq_ignore_ascii_case("disabled") {
            Some(HtmlState::Disabled)
        } else if name.eq_ignore_ascii_case("enabled") {
            Some(HtmlState::Enabled)
        } else if name.eq_ignore_ascii_case("required") {
            Some(HtmlState::Required)
        } else if name.eq_ignore_ascii_case("optional") {
            Some(HtmlState::Optional)
        } else if name.eq_ignore_ascii_case("read-write") {
            Some(HtmlState::ReadWrite)
        } else if name.eq_ignore_ascii_case("read-only") {
            Some(HtmlState::ReadOnly)
        } else if name.eq_ignore_ascii_case("placeholder-shown") {
            Some(HtmlState::PlaceholderShown)
        } else if name.eq_ignore_ascii_case("default") {
            Some(HtmlState::Default)
        } else if name.eq_ignore_ascii_case("indeterminate") {
            Some(HtmlState::Indeterminate)
        } else if name.eq_ignore_ascii_case("open") {
            Some(HtmlState::Open)
        } else if name.eq_ignore_ascii_case("defined") {
            Some(HtmlState::Defined)
        } else if name.eq_ignore_ascii_case("dir(ltr)") {
            Some(HtmlState::InLeftToRight)
        } else if name.eq_ignore_ascii_case("dir(rtl)") {
            Some(HtmlState::InRightToLeft)
        } else {
            None
        }
    }
}

/// The states that an element is in.
#[derive(Clone, Copy, Debug, PartialEq)]
pub(crate) struct HtmlStates {
    /// `:checked`
    is_checked: bool,
    /// `:disabled`
    is_disabled: bool,
    /// `:enabled`
    is_enabled: bool,
    /// `:required`
    is_required: bool,
    /// `:optional`
    is_optional: bool,
    /// `:read-write`, and not `:read-only`.
    is_read_write: bool,
    /// `:placeholder-shown`
    shows_placeholder: bool,
    /// `:placeholder-shown`, if the element has no text.
    shows_placeholder_without_text: bool,
    /// `:default`
    is_default: bool,
    /// `:indeterminate`
    is_indeterminate: bool,
    /// `:open`
    is_open: bool,
    /// `:defined`
    is_defined: bool,
    /// The direction, which `:dir()` tests.
    direction: Direction,
}

impl HtmlStates {
    /// Whether an element in these states, with a text or without one, is in a state.
    fn is_in(&self, has_text: bool, state: HtmlState) -> bool
        ensures { result ≡ is_in_one self.now has_text state }
    {
        match state {
            HtmlState::Checked => self.is_checked,
            HtmlState::Disabled => self.is_disabled,
            HtmlState::Enabled => self.is_enabled,
            HtmlState::Required => self.is_required,
            HtmlState::Optional => self.is_optional,
            HtmlState::ReadWrite => self.is_read_write,
            HtmlState::ReadOnly => !self.is_read_write,
            HtmlState::PlaceholderShown => {
                self.shows_placeholder || (self.shows_placeholder_without_text && !has_text)
            }
            HtmlState::Default => self.is_default,
            HtmlState::Indeterminate => self.is_indeterminate,
            HtmlState::Open => self.is_open,
            HtmlState::Defined => self.is_defined,
            HtmlState::InLeftToRight => matches!(self.direction, Direction::LeftToRight),
            HtmlState::InRightToLeft => matches!(self.direction, Direction::RightToLeft),
        }
    }

    /// Whether an element in these states is in the state of a name.
    pub(crate) fn is_in_named(&self, has_text: bool, name: &str) -> bool
        ensures { result ≡ is_in_one_named self.now has_text name.now }
    {
        match HtmlState::named(name) {
            Some(state) => self.is_in(has_text, state),
            None => false,
        }
    }
}

/// Whether the element is a checked box or button, or a selected option.
fn is_checked(node: &Node<'_, '_>) -> bool
    ensures { result ≡ is_checked_at node.now.0 node.now.1 }
{
    (is_named(node, "input") && input_type(node).may_be_checked() && has_attribute(node, "checked"))
        || (is_named(node, "option") && has_attribute(node, "selected"))
}

/// Whether the element is disabled.
fn is_disabled(node: &Node<'_, '_>, around: Surroundings) -> bool
    requires { around ≡ surroundings node.now.0 node.now.1 }
    ensures { result ≡ is_disabled_at node.now.0 node.now.1 }
{
    if is_named(node, "optgroup") {
        has_attribute(node, "disabled")
    } else if is_named(node, "option") {
        has_attribute(node, "disabled") || around.is_grouped
    } else {
        is_control(node) && (has_attribute(node, "disabled") || around.is_barred)
    }
}

/// Whether the element is enabled or disabled.
fn may_be_disabled(node: &Node<'_, '_>) -> bool
    ensures { result ≡ may_be_disabled_at node.now.0 node.now.1 }
{
    is_control(node) || is_named(node, "optgroup") || is_named(node, "option")
}

/// Whether the element is required or optional.
fn has_requirement(node: &Node<'_, '_>) -> bool
    ensures { result ≡ has_requirement_at node.now.0 node.now.1 }
{
    is_choice_or_area(node) || (is_named(node, "input") && input_type(node).may_be_required())
}

/// Whether the element is neither read-only nor disabled.
fn is_mutable(node: &Node<'_, '_>, around: Surroundings) -> bool
    requires { around ≡ surroundings node.now.0 node.now.1 }
    ensures { result ≡ is_mutable_at node.now.0 node.now.1 }
{
    !(has_attribute(node, "readonly") || is_disabled(node, around))
}

/// Whether the user may change the element.
fn is_read_write(node: &Node<'_, '_>, around: Surroundings) -> bool
    requires { around ≡ surroundings node.now.0 node.now.1 }
    ensures { result ≡ is_read_write_at node.now.0 node.now.1 }
{
    if is_named(node, "input") {
        input_type(node).may_be_read_only() && is_mutable(node, around)
    } else if is_named(node, "textarea") {
        is_mutable(node, around)
    } else {
        around.is_editable
    }
}

/// Whether the element is an input element whose placeholder is shown.
fn is_input_with_placeholder(node: &Node<'_, '_>) -> bool
    ensures { result ≡ is_input_with node.now.0 node.now.1 }
{
    is_named(node, "input")
        && input_type(node).has_placeholders()
        && has_attribute(node, "placeholder")
        && input_type(node).is_emptied(node.attribute("value").unwrap_or(""))
}

/// Whether the element is a `textarea` with a placeholder.
fn is_area_with_placeholder(node: &Node<'_, '_>) -> bool
    ensures { result ≡ is_area_with node.now.0 node.now.1 }
{
    is_named(node, "textarea") && has_attribute(node, "placeholder")
}

/// Returns the number of the element's form.
fn form_of(node: &Node<'_, '_>, around: Surroundings) -> usize
    requires { around ≡ surroundings node.now.0 node.now.1 }
    ensures { result ≡ form_at node.now.0 node.now.1 }
{
    if has_attribute(node, "form") {
        0
    } else {
        around.form
    }
}

/// Whether the element is open.
fn is_open(node: &Node<'_, '_>) -> bool
    ensures { result ≡ is_open_at node.now.0 node.now.1 }
{
    (is_named(node, "details") || is_named(node, "dialog")) && has_attribute(node, "open")
}

/// Whether no script would define the element.
fn is_defined(node: &Node<'_, '_>) -> bool
    ensures { result ≡ is_defined_at node.now.0 node.now.1 }
{
    !(has_attribute(node, "is") || is_custom_name(node.name()))
}

/// The forms and the names of radio buttons that are checked.
type CheckedGroups<'t> = BTreeMap<(usize, &'t str), usize>;

/// Returns the name of a radio button.
fn group_name<'t>(node: &Node<'_, 't>) -> &'t str
    ensures { result.now ≡ group_name_at node.now.0 node.now.1 }
{
    node.attribute("name").unwrap_or("")
}

/// Adds the form and the name of an element that is a checked radio button.
fn add_group<'t>(
    groups: &mut CheckedGroups<'t>,
    node: &Node<'_, 't>,
    around: Surroundings,
) -> Result<(), AllocError>
    requires around { around ≡ surroundings node.now.0 node.now.1 }
    requires groups { AreChecked node.now.0 groups.old node.now.1 }
    ensures { OnOk result (AreChecked node.now.0 groups.new (node.now.1 + 1)) }
{
    if is_radio(node) && is_checked(node) {
        let group = (form_of(node, around), group_name(node));
        groups.insert(group, node.index())?;
    }
    Ok(())
}

/// Returns the groups of radio buttons of which one is checked.
fn checked_groups<'t>(
    alloc: Global,
    page: &NumberedTree<'_, 't>,
    around: &[Surroundings],
) -> Result<CheckedGroups<'t>, AllocError>
    requires { AreAround page.now.rows around.now (length page.now.rows) }
    ensures { IfOk result (λ groups. AreChecked page.now.rows groups (length page.now.rows)) }
{
    let mut groups = BTreeMap::new(alloc);
    for index in 0..page.len() {
        add_group(&mut groups, &page.plain(index), around[index])?;
    }
    Ok(groups)
}

/// Whether there is a group with this form and this name.
fn has_group<'t>(groups: &CheckedGroups<'t>, form: usize, name: &'t str) -> bool
    ensures { (rows : List Row) → AreChecked rows groups.now (length rows)
        → result ≡ any_below (is_checked_in rows form name.now) (length rows) }
{
    let group = (form, name);
    match groups.get(&group) {
        Some(_) => true,
        None => false,
    }
}

/// Whether a button of the group of a radio button is checked.
fn is_group_checked<'t>(
    node: &Node<'_, 't>,
    around: Surroundings,
    groups: &CheckedGroups<'t>,
) -> bool
    requires around { around ≡ surroundings node.now.0 node.now.1 }
    requires groups { AreChecked node.now.0 groups.now (length node.now.0) }
    ensures { result ≡ is_group_checked_at node.now.0 node.now.1 }
{
    let name = group_name(node);
    if name.is_empty() {
        is_checked(node)
    } else {
        has_group(groups, form_of(node, around), name)
    }
}

/// Whether it is open which of two states the element is in.
fn is_indeterminate<'t>(
    node: &Node<'_, 't>,
    around: Surroundings,
    groups: &CheckedGroups<'t>,
) -> bool
    requires around { around ≡ surroundings node.now.0 node.now.1 }
    requires groups { AreChecked node.now.0 groups.now (length node.now.0) }
    ensures { result ≡ is_indeterminate_at node.now.0 node.now.1 }
{
    if is_named(node, "progress") {
        !has_attribute(node, "value")
    } else {
        is_radio(node) && !is_group_checked(node, around, groups)
    }
}

/// Whether no submit button of a form was seen.
fn has_no_submit(have_submits: &[bool], form: usize) -> bool
    requires { form < length have_submits.now }
    ensures { result ≡ nat_lt 0 form && not (slice_index_or have_submits.now form false) }
{
    form > 0 && !have_submits[form]
}

/// Whether the element is the first submit button of its form. The form then has one.
fn take_default(node: &Node<'_, '_>, around: Surroundings, have_submits: &mut [bool]) -> bool
    requires around { around ≡ surroundings node.now.0 node.now.1 }
    requires within { node.now.1 < length node.now.0 }
    requires submits { HaveSubmits node.now.0 have_submits.old node.now.1 }
    ensures value { result ≡ is_default_at node.now.0 node.now.1 }
    ensures submits { HaveSubmits node.now.0 have_submits.new (node.now.1 + 1) }
{
    if !is_submit(node) {
        return false;
    }
    let form = form_of(node, around);
    let is_first = has_no_submit(have_submits, form);
    have_submits[form] = true;
    is_first
}

/// Returns the states of an element.
fn states_of<'t>(
    node: &Node<'_, 't>,
    around: Surroundings,
    groups: &CheckedGroups<'t>,
    is_default_button: bool,
) -> HtmlStates
    requires around { around ≡ surroundings node.now.0 node.now.1 }
    requires groups { AreChecked node.now.0 groups.now (length node.now.0) }
    requires button { is_default_button ≡ is_default_at node.now.0 node.now.1 }
    ensures { result ≡ html_states_of node.now.0 node.now.1 }
{
    let is_disabled = is_disabled(node, around);
    let is_checked = is_checked(node);
    let is_required = has_attribute(node, "required");
    let has_requirement = has_requirement(node);
    HtmlStates {
        is_checked,
        is_disabled,
        is_enabled: may_be_disabled(node) && !is_disabled,
        is_required: has_requirement && is_required,
        is_optional: has_requirement && !is_required,
        is_read_write: is_read_write(node, around),
        shows_placeholder: is_input_with_placeholder(node),
        shows_placeholder_without_text: is_area_with_placeholder(node),
        is_default: is_checked || is_default_button,
        is_indeterminate: is_indeterminate(node, around, groups),
        is_open: is_open(node),
        is_defined: is_defined(node),
        direction: around.direction,
    }
}

/// Returns the states of the element at an index. If it is a submit button, its form then has one.
fn next_states<'t>(
    page: &NumberedTree<'_, 't>,
    around: Surroundings,
    groups: &CheckedGroups<'t>,
    have_submits: &mut [bool],
    index: usize,
) -> HtmlStates
    requires within { index < length page.now.rows }
    requires around { around ≡ surroundings page.now.rows index }
    requires groups { AreChecked page.now.rows groups.now (length page.now.rows) }
    requires submits { HaveSubmits page.now.rows have_submits.old index }
    ensures value { result ≡ html_states_of page.now.rows index }
    ensures submits { HaveSubmits page.now.rows have_submits.new (index + 1) }
{
    let node = page.plain(index);
    let is_default = take_default(&node, around, have_submits);
    states_of(&node, around, groups, is_default)
}

/// Appends the states of each element.
fn push_states<'t>(
    states: &mut Vec<HtmlStates>,
    page: &NumberedTree<'_, 't>,
    around: &[Surroundings],
    groups: &CheckedGroups<'t>,
    have_submits: &mut [bool],
) -> Result<(), AllocError>
    requires empty { states.old.items ≡ [] }
    requires around { AreAround page.now.rows around.now (length page.now.rows) }
    requires groups { AreChecked page.now.rows groups.now (length page.now.rows) }
    requires submits { HaveSubmits page.now.rows have_submits.old 0 }
    ensures { OnOk result (AreStates page.now.rows states.new.items (length page.now.rows)) }
{
    for index in 0..page.len() {
        let next = next_states(page, around[index], groups, have_submits, index);
        states.push(next)?;
    }
    Ok(())
}

/// Returns the states of each element.
fn all_states(alloc: Global, page: &NumberedTree<'_, '_>) -> Result<Vec<HtmlStates>, AllocError>
    ensures { IfOk result (λ states. AreStates page.now.rows states.items (length page.now.rows)) }
{
    let around = all_surroundings(alloc, page)?;
    let groups = checked_groups(alloc, page, around.as_slice())?;
    let mut have_submits = no_marks(alloc, page.len() + 1)?;
    let mut states = Vec::with_capacity(alloc, page.len())?;
    push_states(
        &mut states,
        page,
        around.as_slice(),
        &groups,
        have_submits.as_mut_slice(),
    )?;
    Ok(states)
}

impl<'p, 't> NumberedTree<'p, 't> {
    /// Makes the tree that of an HTML document. Its elements are then in the states that their
    /// attributes decide: `:checked`, `:disabled`, `:enabled`, `:required`, `:optional`, `:read-write`,
    /// `:read-only`, `:placeholder-shown`, `:default`, `:indeterminate`, `:open` and `:defined`.
    ///
    /// The tree has the names of elements and of attributes in lower case. Of the radio buttons of a group
    /// any may be checked, and no option is selected that does not say so. A control that names its form
    /// by the attribute `form` is not the default button of one.
    ///
    /// Fails only if an allocation fails; then the tree is unchanged.
    pub fn set_html(&mut self, alloc: Global) -> Result<(), AllocError>
        ensures rows { self.new.rows ≡ self.old.rows }
        ensures given { self.new.given ≡ self.old.given }
        ensures marks { self.new.marks ≡ self.old.marks }
        ensures html { OnOk result (self.new.is_html ≡ true) }
        ensures err { OnErr result (self.new.is_html ≡ self.old.is_html) }
    {
        let states = all_states(alloc, self)?;
        self.html = Some(states);
        Ok(())
    }
}
