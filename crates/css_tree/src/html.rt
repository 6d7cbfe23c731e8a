//! Selectors as an HTML document reads them (HTML Standard, "Case-sensitivity of selectors").
//!
//! The tree that they are matched on has in lower case: the names of elements and of attributes, the
//! values of the attributes in `CASELESS_ATTRIBUTES`, and in quirks mode those in `QUIRKS_ATTRIBUTES`. The flag `s`
//! of an attribute selector changes nothing at these attributes. They are in no namespace: the values of attributes
//! in a namespace are as the document has them, and `[n|type=a]` compares them with case.
ghost use Rattle.std.specs.Prelude.{◌≡◌, ◌<◌, IfOk, length, map, option_map};
ghost use Rattle.std.specs.List.{list_any};
ghost use Rattle.std.specs.Char.{is_ascii_uppercase};
ghost use Rattle.std.specs.Cow.{cow_str_bytes};
ghost use Rattle.css_selectors.specs.MarkedLists.{list_of};
ghost use Rattle.css_selector_text.specs.Views.{namespace_of, local_of, simple_of, complex_of, condition_of, part_of, element_name_of, pseudo_element_of};
ghost use Rattle.css_selector_text.specs.declared.components.Simple.TheVariants.{Attribute, Function, Namespaced as NamespacedIs};
ghost use Rattle.css_selector_text.specs.declared.components.Local.TheVariants.{Attribute as AnAttribute};
ghost use Rattle.css_tree.specs.Html.{caseless_attributes, quirks_attributes, is_among};
ghost use Rattle.css_tree.specs.Html.{is_caseless, is_caseless_in as is_caseless_within};
ghost use Rattle.css_tree.specs.Html.{lower_case, word_in, local_in, simple_in};
ghost use Rattle.css_tree.specs.Html.{condition_in, part_in, pseudo_element_in, html_selector, list_in};

use css_selectors::{
    AttributeTest, Complex, Condition, ElementName, FunctionCall, Local, MarkedList, Namespace,
    Namespaced, Part, PseudoElement, Selector, Simple,
};
use std::alloc::{AllocError, Global};
use std::borrow::CowStr;

/// The mode that an HTML document is in, as its DOCTYPE says.
#[derive(Clone, Copy, Debug, PartialEq)]
pub enum HtmlMode {
    /// No-quirks mode, or limited-quirks mode.
    NoQuirks,
    /// Quirks mode.
    Quirks,
}

/// The attributes whose values are compared without case.
pub const CASELESS_ATTRIBUTES: [&str; 46] = [
    "accept",
    "accept-charset",
    "align",
    "alink",
    "axis",
    "bgcolor",
    "charset",
    "checked",
    "clear",
    "codetype",
    "color",
    "compact",
    "declare",
    "defer",
    "dir",
    "direction",
    "disabled",
    "enctype",
    "face",
    "frame",
    "hreflang",
    "http-equiv",
    "lang",
    "language",
    "link",
    "media",
    "method",
    "multiple",
    "nohref",
    "noresize",
    "noshade",
    "nowrap",
    "readonly",
    "rel",
    "rev",
    "rules",
    "scope",
    "scrolling",
    "selected",
    "shape",
    "target",
    "text",
    "type",
    "valign",
    "valuetype",
    "vlink",
];

/// The attributes whose values are compared without case in quirks mode, too.
pub const QUIRKS_ATTRIBUTES: [&str; 2] = ["id", "class"];

/// Whether the attribute is one of `CASELESS_ATTRIBUTES`.
fn is_listed(name: &str) -> bool
    ensures { result ≡ is_among caseless_attributes name.now }
{
    CASELESS_ATTRIBUTES.contains(&name)
}

/// Whether the attribute is one of `QUIRKS_ATTRIBUTES`.
fn is_listed_in_quirks(name: &str) -> bool
    ensures { result ≡ is_among quirks_attributes name.now }
{
    QUIRKS_ATTRIBUTES.contains(&name)
}

/// Whether the values of an attribute are compared without case.
fn is_caseless(mode: HtmlMode, name: &str) -> bool
    ensures { result ≡ is_caseless mode name.now }
{
    match mode {
        HtmlMode::NoQuirks => is_listed(name),
        HtmlMode::Quirks => is_listed(name) || is_listed_in_quirks(name),
    }
}

/// Whether there is a capital in a name.
fn has_capital(name: &str) -> bool
    ensures { result ≡ list_any is_ascii_uppercase name.now }
{
    name.as_bytes().iter().any(|byte| byte.is_ascii_uppercase())
}

/// Returns a name in lower case, which is copied only if there is a capital in it.
fn lower_case(alloc: Global, name: &str) -> Result<CowStr<'_>, AllocError>
    ensures { IfOk result (λ lower. cow_str_bytes lower ≡ lower_case name.now) }
{
    if has_capital(name) {
        Ok(CowStr::Owned(name.to_ascii_lowercase(alloc)?))
    } else {
        Ok(CowStr::Borrowed(name))
    }
}

/// Returns an id or a class as a document reads it.
fn word_in(alloc: Global, mode: HtmlMode, word: &str) -> Result<CowStr<'_>, AllocError>
    ensures { IfOk result (λ read. cow_str_bytes read ≡ word_in mode word.now) }
{
    match mode {
        HtmlMode::NoQuirks => Ok(CowStr::Borrowed(word)),
        HtmlMode::Quirks => lower_case(alloc, word),
    }
}

/// Returns a condition on an attribute as a document reads it.
fn test_in<'s>(
    alloc: Global,
    mode: HtmlMode,
    test: &'s AttributeTest<'_>,
) -> Result<AttributeTest<'s>, AllocError>
    ensures { IfOk result (λ read. simple_of (Attribute read)
        ≡ simple_in mode (simple_of (Attribute test.now))) }
{
    let name = lower_case(alloc, test.name.as_str())?;
    let ignores_case = test.ignores_case || is_caseless(mode, name.as_str());
    Ok(AttributeTest {
        name,
        comparison: test.comparison,
        text: CowStr::Borrowed(test.text.as_str()),
        ignores_case,
    })
}

/// Whether the values of an attribute that is in a namespace are compared without case.
fn is_caseless_in(mode: HtmlMode, namespace: &Namespace<'_>, name: &str) -> bool
    ensures { result ≡ is_caseless_within mode (namespace_of namespace.now) name.now }
{
    match namespace {
        Namespace::Prefix(_, number) => *number == 0 && is_caseless(mode, name),
        Namespace::Absent | Namespace::Any | Namespace::Default(_) => is_caseless(mode, name),
    }
}

/// Returns a condition on an attribute that is in a namespace as a document reads it.
fn namespaced_test_in<'s>(
    alloc: Global,
    mode: HtmlMode,
    namespace: &Namespace<'_>,
    test: &'s AttributeTest<'_>,
) -> Result<AttributeTest<'s>, AllocError>
    ensures { IfOk result (λ read. local_of (AnAttribute read)
        ≡ local_in mode (namespace_of namespace.now) (local_of (AnAttribute test.now))) }
{
    let name = lower_case(alloc, test.name.as_str())?;
    let ignores_case = test.ignores_case || is_caseless_in(mode, namespace, name.as_str());
    Ok(AttributeTest {
        name,
        comparison: test.comparison,
        text: CowStr::Borrowed(test.text.as_str()),
        ignores_case,
    })
}

/// Returns the same language ranges, which are not copied.
fn ranges_in<'s>(alloc: Global, ranges: &'s [CowStr<'_>]) -> Result<Vec<CowStr<'s>>, AllocError>
    ensures { IfOk result (λ same. map cow_str_bytes same.items ≡ map cow_str_bytes ranges.now) }
{
    let mut same = Vec::with_capacity(alloc, ranges.len())?;
    for range in ranges {
        same.push(CowStr::Borrowed(range.as_str()))?;
    }
    Ok(same)
}

/// Returns the same pseudo-class with an argument, which is not copied.
fn same_call<'s>(call: &'s FunctionCall<'_>) -> FunctionCall<'s>
    ensures { simple_of (Function result) ≡ simple_of (Function call.now) }
{
    FunctionCall {
        name: CowStr::Borrowed(call.name.as_str()),
        argument: CowStr::Borrowed(call.argument.as_str()),
    }
}

/// Returns the same argument, which is not copied.
fn same_argument<'s>(argument: &'s Option<CowStr<'_>>) -> Option<CowStr<'s>>
    ensures { option_map cow_str_bytes result ≡ option_map cow_str_bytes argument.now }
{
    match argument {
        Some(argument) => Some(CowStr::Borrowed(argument.as_str())),
        None => None,
    }
}

/// Returns the same name of a pseudo-element, which is not copied.
fn same_element<'s>(element: &'s ElementName<'_>) -> ElementName<'s>
    ensures { element_name_of result ≡ element_name_of element.now }
{
    ElementName {
        name: CowStr::Borrowed(element.name.as_str()),
        argument: same_argument(&element.argument),
    }
}

/// Returns the same namespace, which is not copied.
fn same_namespace<'s>(namespace: &'s Namespace<'_>) -> Namespace<'s>
    ensures { namespace_of result ≡ namespace_of namespace.now }
{
    match namespace {
        Namespace::Absent => Namespace::Absent,
        Namespace::Any => Namespace::Any,
        Namespace::Prefix(prefix, number) => {
            Namespace::Prefix(CowStr::Borrowed(prefix.as_str()), *number)
        }
        Namespace::Default(number) => Namespace::Default(*number),
    }
}

/// Returns what is in a namespace as a document reads it.
fn local_in<'s>(
    alloc: Global,
    mode: HtmlMode,
    namespace: &Namespace<'_>,
    local: &'s Local<'_>,
) -> Result<Local<'s>, AllocError>
    ensures { IfOk result (λ read. local_of read
        ≡ local_in mode (namespace_of namespace.now) (local_of local.now)) }
{
    match local {
        Local::Universal => Ok(Local::Universal),
        Local::TypeName(name) => Ok(Local::TypeName(lower_case(alloc, name.as_str())?)),
        Local::HasAttribute(name) => Ok(Local::HasAttribute(lower_case(alloc, name.as_str())?)),
        Local::Attribute(test) => {
            Ok(Local::Attribute(namespaced_test_in(alloc, mode, namespace, test)?))
        }
        Local::Implied => Ok(Local::Implied),
    }
}

/// Returns a type or attribute selector with a namespace as a document reads it.
fn namespaced_in<'s>(
    alloc: Global,
    mode: HtmlMode,
    namespaced: &'s Namespaced<'_>,
) -> Result<Namespaced<'s>, AllocError>
    ensures { IfOk result (λ read. simple_of (NamespacedIs read)
        ≡ simple_in mode (simple_of (NamespacedIs namespaced.now))) }
{
    Ok(Namespaced {
        namespace: same_namespace(&namespaced.namespace),
        local: local_in(alloc, mode, &namespaced.namespace, &namespaced.local)?,
    })
}

/// Returns a simple selector as a document reads it.
fn simple_in<'s>(
    alloc: Global,
    mode: HtmlMode,
    simple: &'s Simple<'_>,
) -> Result<Simple<'s>, AllocError>
    ensures { IfOk result (λ read. simple_of read ≡ simple_in mode (simple_of simple.now)) }
{
    match simple {
        Simple::Universal => Ok(Simple::Universal),
        Simple::TypeName(name) => Ok(Simple::TypeName(lower_case(alloc, name.as_str())?)),
        Simple::Id(text) => Ok(Simple::Id(word_in(alloc, mode, text.as_str())?)),
        Simple::Class(word) => Ok(Simple::Class(word_in(alloc, mode, word.as_str())?)),
        Simple::HasAttribute(name) => Ok(Simple::HasAttribute(lower_case(alloc, name.as_str())?)),
        Simple::Attribute(test) => Ok(Simple::Attribute(test_in(alloc, mode, test)?)),
        Simple::Structure(structure) => Ok(Simple::Structure(*structure)),
        Simple::Language(ranges) => Ok(Simple::Language(ranges_in(alloc, ranges)?)),
        Simple::State(name) => Ok(Simple::State(CowStr::Borrowed(name.as_str()))),
        Simple::Function(call) => Ok(Simple::Function(same_call(call))),
        Simple::Element(element) => Ok(Simple::Element(same_element(element))),
        Simple::Nesting(list) => Ok(Simple::Nesting(*list)),
        Simple::Namespaced(namespaced) => {
            Ok(Simple::Namespaced(namespaced_in(alloc, mode, namespaced)?))
        }
    }
}

/// Returns a list of complex selectors as a document reads it.
#[cycle(lists)]
fn selectors_in<'s>(
    alloc: Global,
    mode: HtmlMode,
    selectors: &'s [Complex<'_>],
) -> Result<Vec<Complex<'s>>, AllocError>
    ensures { IfOk result (λ read. map complex_of read.items
        ≡ map (map (part_in mode)) (map complex_of selectors.now)) }
{
    let mut read = Vec::with_capacity(alloc, selectors.len())?;
    for selector in selectors {
        let parts = parts_in(alloc, mode, selector.parts.as_slice())?;
        read.push(Complex { parts })?;
    }
    Ok(read)
}

/// Returns a condition as a document reads it.
#[cycle(lists)]
fn condition_in<'s>(
    alloc: Global,
    mode: HtmlMode,
    condition: &'s Condition<'_>,
) -> Result<Condition<'s>, AllocError>
    ensures { IfOk result (λ read. condition_of read
        ≡ condition_in mode (condition_of condition.now)) }
{
    match condition {
        Condition::Simple(simple) => Ok(Condition::Simple(simple_in(alloc, mode, simple)?)),
        Condition::Not(list) => Ok(Condition::Not(selectors_in(alloc, mode, list.as_slice())?)),
        Condition::Is(list) => Ok(Condition::Is(selectors_in(alloc, mode, list.as_slice())?)),
        Condition::Where(list) => Ok(Condition::Where(selectors_in(alloc, mode, list.as_slice())?)),
        Condition::Tested(test, list) => {
            Ok(Condition::Tested(*test, selectors_in(alloc, mode, list.as_slice())?))
        }
    }
}

/// Returns the conditions of a compound selector as a document reads them.
#[cycle(lists)]
fn conditions_in<'s>(
    alloc: Global,
    mode: HtmlMode,
    conditions: &'s [Condition<'_>],
) -> Result<Vec<Condition<'s>>, AllocError>
    ensures { IfOk result (λ read. map condition_of read.items
        ≡ map (condition_in mode) (map condition_of conditions.now)) }
{
    let mut read = Vec::with_capacity(alloc, conditions.len())?;
    for condition in conditions {
        read.push(condition_in(alloc, mode, condition)?)?;
    }
    Ok(read)
}

/// Returns a part of a selector as a document reads it.
#[cycle(lists)]
fn part_in<'s>(alloc: Global, mode: HtmlMode, part: &'s Part<'_>) -> Result<Part<'s>, AllocError>
    ensures { IfOk result (λ read. part_of read ≡ part_in mode (part_of part.now)) }
{
    Ok(Part {
        combinator: part.combinator,
        conditions: conditions_in(alloc, mode, part.conditions.as_slice())?,
    })
}

/// Returns the parts of a selector as a document reads them.
#[cycle(lists)]
fn parts_in<'s>(
    alloc: Global,
    mode: HtmlMode,
    parts: &'s [Part<'_>],
) -> Result<Vec<Part<'s>>, AllocError>
    ensures { IfOk result (λ read. map part_of read.items
        ≡ map (part_in mode) (map part_of parts.now)) }
{
    let mut read = Vec::with_capacity(alloc, parts.len())?;
    for part in parts {
        read.push(part_in(alloc, mode, part)?)?;
    }
    Ok(read)
}

/// Returns a pseudo-element as a document reads it.
fn pseudo_element_in<'s>(
    alloc: Global,
    mode: HtmlMode,
    element: &'s PseudoElement<'_>,
) -> Result<PseudoElement<'s>, AllocError>
    ensures { IfOk result (λ read. pseudo_element_of read
        ≡ pseudo_element_in mode (pseudo_element_of element.now)) }
{
    let after = conditions_in(alloc, mode, element.after.as_slice())?;
    Ok(PseudoElement {
        element: same_element(&element.element),
        after,
    })
}

/// Returns a pseudo-element as a document reads it, if there is one.
fn element_in<'s>(
    alloc: Global,
    mode: HtmlMode,
    element: Option<&'s PseudoElement<'_>>,
) -> Result<Option<PseudoElement<'s>>, AllocError>
    ensures { IfOk result (λ read. option_map pseudo_element_of read
        ≡ option_map (pseudo_element_in mode)
        (option_map (λ e. pseudo_element_of e.now) element.entry)) }
{
    match element {
        Some(element) => Ok(Some(pseudo_element_in(alloc, mode, element)?)),
        None => Ok(None),
    }
}

/// Returns a selector as an HTML document in this mode reads it.
pub fn html_selector<'s>(
    alloc: Global,
    mode: HtmlMode,
    selector: &'s Selector<'_>,
) -> Result<Selector<'s>, AllocError>
    ensures { IfOk result (λ read. read ≡ html_selector mode selector.now) }
{
    let parts = parts_in(alloc, mode, selector.parts())?;
    let pseudo_element = element_in(alloc, mode, selector.pseudo_element())?;
    Ok(Selector::new(parts, pseudo_element))
}

/// Returns selectors as an HTML document in this mode reads them.
pub fn html_selectors<'s>(
    alloc: Global,
    mode: HtmlMode,
    selectors: &'s [Selector<'_>],
) -> Result<Vec<Selector<'s>>, AllocError>
    ensures { IfOk result (λ read. read.items ≡ map (html_selector mode) selectors.now) }
{
    let mut read = Vec::with_capacity(alloc, selectors.len())?;
    for selector in selectors {
        read.push(html_selector(alloc, mode, selector)?)?;
    }
    Ok(read)
}

/// Returns a list that has a number as an HTML document in this mode reads it.
pub fn html_marked<'s>(
    alloc: Global,
    mode: HtmlMode,
    list: &'s MarkedList<'_>,
) -> Result<MarkedList<'s>, AllocError>
    ensures { IfOk result (λ read. list_of read ≡ list_in mode (list_of list.now)) }
{
    match list {
        MarkedList::Matched(selectors) => {
            Ok(MarkedList::Matched(html_selectors(alloc, mode, selectors.as_slice())?))
        }
        MarkedList::Tested(test, selectors) => {
            Ok(MarkedList::Tested(*test, selectors_in(alloc, mode, selectors.as_slice())?))
        }
    }
}
