//! What the names and the attributes of elements of an HTML document say of them.
ghost use Rattle.std.specs.Prelude.{◌≡◌, ◌==◌};
ghost use Rattle.std.specs.List.{list_any};
ghost use Rattle.css_text.specs.AsciiBytes.{hyphen};
ghost use Rattle.css_tree.specs.Html.{is_among};
ghost use Rattle.css_tree.specs.HtmlElements.{is_named as has_name, has_attribute as has};
ghost use Rattle.css_tree.specs.HtmlElements.{names_url as is_url, names_date as is_date};
ghost use Rattle.css_tree.specs.HtmlElements.{names_submit as is_submit_word, names_other as is_other};
ghost use Rattle.css_tree.specs.HtmlElements.{type_named, input_type as input_type_of};
ghost use Rattle.css_tree.specs.HtmlElements.{may_be_checked, has_placeholders, may_be_read_only};
ghost use Rattle.css_tree.specs.HtmlElements.{may_be_required, stays_in_text, stays_in_url};
ghost use Rattle.css_tree.specs.HtmlElements.{is_emptied as is_emptied_in, is_choice_or_area as is_choice};
ghost use Rattle.css_tree.specs.HtmlElements.{is_control as is_control_of, is_automatic as has_no_command};
ghost use Rattle.css_tree.specs.HtmlElements.{is_submit_named as is_submit_by, is_submit as is_submit_of};
ghost use Rattle.css_tree.specs.HtmlElements.{is_telephone as is_telephone_of};
ghost use Rattle.css_tree.specs.HtmlElements.{is_radio_type, is_submit_type, is_input_of};
ghost use Rattle.css_tree.specs.HtmlElements.{reserved_names, begins_with_letter as has_first_letter};
ghost use Rattle.css_tree.specs.HtmlElements.{is_custom_name as is_custom};

use css_elements::Node;

/// The types of input elements, by which attributes apply to them.
#[derive(Clone, Copy, Debug, PartialEq)]
pub(crate) enum InputType {
    /// `text`, `search`, `tel` and `password`.
    Text,
    /// `email` and `url`.
    Url,
    /// `number`
    Number,
    /// `date`, `month`, `week`, `time` and `datetime-local`.
    Date,
    /// `checkbox`
    Checkbox,
    /// `radio`
    Radio,
    /// `file`
    File,
    /// `submit` and `image`.
    Submit,
    /// `hidden`, `range`, `color`, `reset` and `button`.
    Other,
}

/// The names with a hyphen that no custom element may have.
const RESERVED_NAMES: [&str; 8] = [
    "annotation-xml",
    "color-profile",
    "font-face",
    "font-face-format",
    "font-face-name",
    "font-face-src",
    "font-face-uri",
    "missing-glyph",
];

/// Whether the element has this name.
pub(crate) fn is_named(node: &Node<'_, '_>, name: &str) -> bool
    ensures { result ≡ has_name node.now.0 node.now.1 name.now }
{
    node.name() == name
}

/// Whether the element has an attribute of this name.
pub(crate) fn has_attribute(node: &Node<'_, '_>, name: &str) -> bool
    ensures { result ≡ has node.now.0 node.now.1 name.now }
{
    node.attribute(name).is_some()
}

/// Whether the text is a type whose values are without blanks around them.
fn names_url(text: &str) -> bool
    ensures { result ≡ is_url text.now }
{
    text.eq_ignore_ascii_case("email") || text.eq_ignore_ascii_case("url")
}

/// Whether the text is a type of dates and times.
fn names_date(text: &str) -> bool
    ensures { result ≡ is_date text.now }
{
    text.eq_ignore_ascii_case("date")
        || text.eq_ignore_ascii_case("month")
        || text.eq_ignore_ascii_case("week")
        || text.eq_ignore_ascii_case("time")
        || text.eq_ignore_ascii_case("datetime-local")
}

/// Whether the text is a type of submit buttons.
fn names_submit(text: &str) -> bool
    ensures { result ≡ is_submit_word text.now }
{
    text.eq_ignore_ascii_case("submit") || text.eq_ignore_ascii_case("image")
}

/// Whether the text is a type of `InputType::Other`.
fn names_other(text: &str) -> bool
    ensures { result ≡ is_other text.now }
{
    text.eq_ignore_ascii_case("hidden")
        || text.eq_ignore_ascii_case("range")
        || text.eq_ignore_ascii_case("color")
        || text.eq_ignore_ascii_case("reset")
        || text.eq_ignore_ascii_case("button")
}

impl InputType {
    /// Returns the type that the text names.
    fn named(text: &str) -> InputType
        ensures { result ≡ type_named text.now }
    {
        if text.eq_ignore_ascii_case("checkbox") {
            InputType::Checkbox
        } else if text.eq_ignore_ascii_case("radio") {
            InputType::Radio
        } else if text.eq_ignore_ascii_case("number") {
            InputType::Number
        } else if text.eq_ignore_ascii_case("file") {
            InputType::File
        } else if names_url(text) {
            InputType::Url
        } else if names_date(text) {
            InputType::Date
        } else if names_submit(text) {
            InputType::Submit
        } else if names_other(text) {
            InputType::Other
        } else {
            InputType::Text
        }
    }

    /// Whether the attribute `checked` applies.
    pub(crate) fn may_be_checked(self) -> bool
        ensures { result ≡ may_be_checked self }
    {
        matches!(self, InputType::Checkbox | InputType::Radio)
    }

    /// Whether the attribute `placeholder` applies.
    pub(crate) fn has_placeholders(self) -> bool
        ensures { result ≡ has_placeholders self }
    {
        matches!(self, InputType::Text | InputType::Url | InputType::Number)
    }

    /// Whether the attribute `readonly` applies.
    pub(crate) fn may_be_read_only(self) -> bool
        ensures { result ≡ may_be_read_only self }
    {
        match self {
            InputType::Date => true,
            _ => self.has_placeholders(),
        }
    }

    /// Whether the attribute `required` applies.
    pub(crate) fn may_be_required(self) -> bool
        ensures { result ≡ may_be_required self }
    {
        match self {
            InputType::File => true,
            _ => self.may_be_checked() || self.may_be_read_only(),
        }
    }

    /// Whether nothing is left of a value but what does not count.
    pub(crate) fn is_emptied(self, value: &str) -> bool
        ensures { result ≡ is_emptied_in self value.now }
    {
        match self {
            InputType::Text => !has_text(value),
            InputType::Url => !has_url(value),
            _ => value.is_empty(),
        }
    }
}

/// Whether there is more than line breaks in a value.
fn has_text(value: &str) -> bool
    ensures { result ≡ list_any stays_in_text value.now }
{
    value
        .as_bytes()
        .iter()
        .any(|byte| !(*byte == b'\n' || *byte == b'\r'))
}

/// Whether there is more than blanks in a value.
fn has_url(value: &str) -> bool
    ensures { result ≡ list_any stays_in_url value.now }
{
    value
        .as_bytes()
        .iter()
        .any(|byte| !byte.is_ascii_whitespace())
}

/// Returns the type of an input element.
pub(crate) fn input_type(node: &Node<'_, '_>) -> InputType
    ensures { result ≡ input_type_of node.now.0 node.now.1 }
{
    match node.attribute("type") {
        Some(text) => InputType::named(text),
        None => InputType::Text,
    }
}

/// Whether the element is an input element whose type is `tel`.
pub(crate) fn is_telephone(node: &Node<'_, '_>) -> bool
    ensures { result ≡ is_telephone_of node.now.0 node.now.1 }
{
    is_named(node, "input")
        && match node.attribute("type") {
            Some(text) => text.eq_ignore_ascii_case("tel"),
            None => false,
        }
}

/// Whether the element is a `select` or a `textarea`.
pub(crate) fn is_choice_or_area(node: &Node<'_, '_>) -> bool
    ensures { result ≡ is_choice node.now.0 node.now.1 }
{
    is_named(node, "select") || is_named(node, "textarea")
}

/// Whether the element is one that a `fieldset` disables.
pub(crate) fn is_control(node: &Node<'_, '_>) -> bool
    ensures { result ≡ is_control_of node.now.0 node.now.1 }
{
    is_choice_or_area(node)
        || is_named(node, "input")
        || is_named(node, "button")
        || is_named(node, "fieldset")
}

/// Whether the element is a radio button.
pub(crate) fn is_radio(node: &Node<'_, '_>) -> bool
    ensures { result ≡ is_input_of is_radio_type node.now.0 node.now.1 }
{
    is_named(node, "input") && matches!(input_type(node), InputType::Radio)
}

/// Whether a button has no command.
fn is_automatic(node: &Node<'_, '_>) -> bool
    ensures { result ≡ has_no_command node.now.0 node.now.1 }
{
    !(has_attribute(node, "command") || has_attribute(node, "commandfor"))
}

/// Whether a button whose type is this text is a submit button.
fn is_submit_named(node: &Node<'_, '_>, text: &str) -> bool
    ensures { result ≡ is_submit_by node.now.0 node.now.1 text.now }
{
    if text.eq_ignore_ascii_case("submit") {
        true
    } else if text.eq_ignore_ascii_case("reset") || text.eq_ignore_ascii_case("button") {
        false
    } else {
        is_automatic(node)
    }
}

/// Whether the element is a submit button.
pub(crate) fn is_submit(node: &Node<'_, '_>) -> bool
    ensures { result ≡ is_submit_of node.now.0 node.now.1 }
{
    if is_named(node, "button") {
        is_submit_named(node, node.attribute("type").unwrap_or(""))
    } else {
        is_named(node, "input") && matches!(input_type(node), InputType::Submit)
    }
}

/// Whether a name begins with a letter.
fn begins_with_letter(name: &str) -> bool
    ensures { result ≡ has_first_letter name.now }
{
    match name.as_bytes() {
        [first, ..] => first.is_ascii_lowercase(),
        [] => false,
    }
}

/// Whether there is a hyphen in a name.
fn has_hyphen(name: &str) -> bool
    ensures { result ≡ list_any (λ b. b == hyphen) name.now }
{
    name.as_bytes().iter().any(|byte| *byte == b'-')
}

/// Whether a custom element may have the name.
pub(crate) fn is_custom_name(name: &str) -> bool
    ensures { result ≡ is_custom name.now }
{
    begins_with_letter(name) && has_hyphen(name) && !RESERVED_NAMES.contains(&name)
}
