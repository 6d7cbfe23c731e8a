//! Prints selectors. No option of the formatter changes the text.
ghost use Rattle.std.specs.Prelude.{◌≡◌, ◌++◌, Some, codes, decimal, map};
ghost use Rattle.std.specs.Cow.{cow_str_bytes};
ghost use Rattle.std.specs.Fmt.{WritesStyledOnOk};
ghost use Rattle.std.specs.Fmt.InlineText.{AppendsIfIntact};
ghost use Rattle.std.specs.List.{flat_map};
ghost use Rattle.std.specs.Option.{option_map};
ghost use Rattle.std.specs.Result.{IsOk};
ghost use Rattle.css_selector_text.specs.printing.Printing.{minus_text, signed_text, is_zero as is_zero_number, size_text, plus_text, offset_text, progression_text};
ghost use Rattle.css_selector_text.specs.printing.Printing.{comparison_text, flag_text, function_text, structure_text, list_text, further_text, string_text, identifier_text, argument_text};
ghost use Rattle.css_selector_text.specs.printing.Printing.{first_text, listed_text, nth_of_text, test_text, namespace_text, some_attribute_text, attribute_text, local_text, simple_text, condition_text, combinator_text, part_text, parts_text};
ghost use Rattle.css_selector_text.specs.printing.Printing.{pseudo_element_text, selector_text};
ghost use Rattle.css_selector_text.specs.Views.{comparison_of, list_test_of, signed_of, progression_of, structure_of, namespace_of, local_of, simple_of, complex_of, condition_of, part_of, pseudo_element_of};
ghost use Rattle.css_selector_text.specs.declared.components.Simple.TheVariants.{Function, Element};

pub(crate) mod escaping;
pub mod laws;
pub(crate) mod spelling;

use crate::components::{
    AttributeTest, Comparison, Complex, Condition, ElementName, FunctionCall, ListTest, Local,
    Namespace, Namespaced, Part, Progression, PseudoElement, Signed, Simple, Structure,
};
use crate::printing::spelling::{write_identifier, write_string};
use crate::{Combinator, Selector};
use std::borrow::CowStr;
use std::fmt;
use std::fmt::{InlineText, Write as _};

/// The digits of a number.
type Digits = InlineText<10>;

/// Appends the digits of a number.
fn append_number(text: &mut Digits, number: u32) -> fmt::Result
    ensures { IsOk result → AppendsIfIntact text.old (decimal number) text.new }
{
    write!(text, "{number}")
}

/// Writes a number.
fn write_number<W: fmt::Write>(f: &mut fmt::Formatter<W>, number: u32) -> fmt::Result
    ensures { WritesStyledOnOk W.write_str_gives f.old result (decimal number) f.new }
{
    let mut text = Digits::new();
    append_number(&mut text, number)?;
    f.write_str(text.as_str())
}

/// Returns what is before a number with this sign.
fn minus(is_negative: bool) -> &'static str
    ensures { result.now ≡ minus_text is_negative }
{
    if is_negative { "-" } else { "" }
}

/// Writes a number with its sign, if that is a minus.
fn write_signed<W: fmt::Write>(f: &mut fmt::Formatter<W>, number: Signed) -> fmt::Result
    ensures { WritesStyledOnOk W.write_str_gives f.old result
        (signed_text (signed_of number)) f.new }
{
    f.write_str(minus(number.is_negative))?;
    write_number(f, number.size)
}

/// Whether the number is 0 without a minus.
fn is_zero(number: Signed) -> bool
    ensures { result ≡ is_zero_number (signed_of number) }
{
    number.size == 0 && !number.is_negative
}

/// Writes the number of A, if it is not 1.
fn write_size<W: fmt::Write>(f: &mut fmt::Formatter<W>, size: u32) -> fmt::Result
    ensures { WritesStyledOnOk W.write_str_gives f.old result (size_text size) f.new }
{
    if size == 1 {
        return Ok(());
    }
    write_number(f, size)
}

/// Returns what is before an offset with this sign, besides its minus.
fn plus(is_negative: bool) -> &'static str
    ensures { result.now ≡ plus_text is_negative }
{
    if is_negative { "" } else { "+" }
}

/// Writes B after `An`.
fn write_offset<W: fmt::Write>(f: &mut fmt::Formatter<W>, offset: Signed) -> fmt::Result
    ensures { WritesStyledOnOk W.write_str_gives f.old result
        (offset_text (signed_of offset)) f.new }
{
    if is_zero(offset) {
        return Ok(());
    }
    f.write_str(plus(offset.is_negative))?;
    write_signed(f, offset)
}

/// Writes `An+B`.
fn write_progression<W: fmt::Write>(
    f: &mut fmt::Formatter<W>,
    progression: Progression,
) -> fmt::Result
    ensures { WritesStyledOnOk W.write_str_gives f.old result
        (progression_text (progression_of progression)) f.new }
{
    let Progression { step, offset } = progression;
    if is_zero(step) {
        return write_signed(f, offset);
    }
    f.write_str(minus(step.is_negative))?;
    write_size(f, step.size)?;
    f.write_str("n")?;
    write_offset(f, offset)
}

/// Writes a pseudo-class with `An+B`.
fn write_numbered<W: fmt::Write>(
    f: &mut fmt::Formatter<W>,
    name: &str,
    progression: Progression,
) -> fmt::Result
    ensures { WritesStyledOnOk W.write_str_gives f.old result
        (function_text name.now (progression_text (progression_of progression))) f.new }
{
    f.write_str(name)?;
    write_progression(f, progression)?;
    f.write_str(")")
}

/// Writes a structural pseudo-class.
fn write_structure<W: fmt::Write>(f: &mut fmt::Formatter<W>, structure: Structure) -> fmt::Result
    ensures { WritesStyledOnOk W.write_str_gives f.old result
        (structure_text (structure_of structure)) f.new }
{
    match structure {
        Structure::Root => f.write_str(":root"),
        Structure::Scope => f.write_str(":scope"),
        Structure::Empty => f.write_str(":empty"),
        Structure::FirstChild => f.write_str(":first-child"),
        Structure::LastChild => f.write_str(":last-child"),
        Structure::OnlyChild => f.write_str(":only-child"),
        Structure::FirstOfType => f.write_str(":first-of-type"),
        Structure::LastOfType => f.write_str(":last-of-type"),
        Structure::OnlyOfType => f.write_str(":only-of-type"),
        Structure::NthChild(p) => write_numbered(f, ":nth-child(", p),
        Structure::NthLastChild(p) => write_numbered(f, ":nth-last-child(", p),
        Structure::NthOfType(p) => write_numbered(f, ":nth-of-type(", p),
        Structure::NthLastOfType(p) => write_numbered(f, ":nth-last-of-type(", p),
    }
}

/// Returns an attribute operator.
fn operator(comparison: Comparison) -> &'static str
    ensures { result.now ≡ comparison_text (comparison_of comparison) }
{
    match comparison {
        Comparison::Equals => "=",
        Comparison::HasWord => "~=",
        Comparison::HasSubtag => "|=",
        Comparison::Starts => "^=",
        Comparison::Ends => "$=",
        Comparison::Contains => "*=",
    }
}

/// Returns what follows the value of an attribute.
fn flag(ignores_case: bool) -> &'static str
    ensures { result.now ≡ flag_text ignores_case }
{
    if ignores_case { " i" } else { "" }
}

/// Writes what follows the name of an attribute.
fn write_test<W: fmt::Write>(f: &mut fmt::Formatter<W>, test: &AttributeTest) -> fmt::Result
    ensures { WritesStyledOnOk W.write_str_gives f.old result
        (comparison_text (comparison_of test.now.comparison)
        ++ string_text (cow_str_bytes test.now.text) ++ flag_text test.now.ignores_case) f.new }
{
    f.write_str(operator(test.comparison))?;
    write_string(f, test.text.as_str())?;
    f.write_str(flag(test.ignores_case))
}

/// Writes the language ranges after the first.
fn write_ranges<W: fmt::Write>(f: &mut fmt::Formatter<W>, ranges: &[CowStr]) -> fmt::Result
    ensures { WritesStyledOnOk W.write_str_gives f.old result
        (flat_map (further_text string_text) (map cow_str_bytes ranges.now)) f.new }
{
    for range in ranges {
        f.write_str(", ")?;
        write_string(f, range.as_str())?;
    }
    Ok(())
}

/// Writes language ranges with commas between them.
fn write_languages<W: fmt::Write>(f: &mut fmt::Formatter<W>, ranges: &[CowStr]) -> fmt::Result
    ensures { WritesStyledOnOk W.write_str_gives f.old result
        (list_text string_text (map cow_str_bytes ranges.now)) f.new }
{
    let Some((first, rest)) = ranges.split_first() else {
        return Ok(());
    };
    write_string(f, first.as_str())?;
    write_ranges(f, rest)
}

/// Writes a sign and a name.
fn write_named<W: fmt::Write>(f: &mut fmt::Formatter<W>, sign: &str, name: &str) -> fmt::Result
    ensures { WritesStyledOnOk W.write_str_gives f.old result
        (sign.now ++ identifier_text name.now) f.new }
{
    f.write_str(sign)?;
    write_identifier(f, name)
}

/// Writes `[name]`.
fn write_has<W: fmt::Write>(f: &mut fmt::Formatter<W>, name: &str) -> fmt::Result
    ensures { WritesStyledOnOk W.write_str_gives f.old result
        (codes "[" ++ identifier_text name.now ++ codes "]") f.new }
{
    f.write_str("[")?;
    write_identifier(f, name)?;
    f.write_str("]")
}

/// Writes `[name=text]` and the like.
fn write_attribute<W: fmt::Write>(f: &mut fmt::Formatter<W>, test: &AttributeTest) -> fmt::Result
    ensures { WritesStyledOnOk W.write_str_gives f.old result
        (codes "[" ++ identifier_text (cow_str_bytes test.now.name)
        ++ comparison_text (comparison_of test.now.comparison)
        ++ string_text (cow_str_bytes test.now.text) ++ flag_text test.now.ignores_case
        ++ codes "]") f.new }
{
    write_named(f, "[", test.name.as_str())?;
    write_test(f, test)?;
    f.write_str("]")
}

/// Writes `:lang(..)`.
fn write_lang<W: fmt::Write>(f: &mut fmt::Formatter<W>, ranges: &[CowStr]) -> fmt::Result
    ensures { WritesStyledOnOk W.write_str_gives f.old result
        (function_text (codes ":lang(")
        (list_text string_text (map cow_str_bytes ranges.now))) f.new }
{
    f.write_str(":lang(")?;
    write_languages(f, ranges)?;
    f.write_str(")")
}

/// Writes an argument as it is written, in parentheses.
fn write_argument<W: fmt::Write>(f: &mut fmt::Formatter<W>, argument: &str) -> fmt::Result
    ensures { WritesStyledOnOk W.write_str_gives f.old result
        (argument_text (Some argument.now)) f.new }
{
    f.write_str("(")?;
    f.write_str(argument)?;
    f.write_str(")")
}

/// Writes an argument in parentheses, if there is one.
fn write_any_argument<W: fmt::Write>(
    f: &mut fmt::Formatter<W>,
    argument: &Option<CowStr>,
) -> fmt::Result
    ensures { WritesStyledOnOk W.write_str_gives f.old result
        (argument_text (option_map cow_str_bytes argument.now)) f.new }
{
    match argument {
        Some(argument) => write_argument(f, argument.as_str()),
        None => Ok(()),
    }
}

/// Writes a pseudo-class with an argument.
fn write_call<W: fmt::Write>(f: &mut fmt::Formatter<W>, call: &FunctionCall) -> fmt::Result
    ensures { WritesStyledOnOk W.write_str_gives f.old result
        (simple_text (simple_of (Function call.now))) f.new }
{
    write_named(f, ":", call.name.as_str())?;
    write_argument(f, call.argument.as_str())
}

/// Writes the name of a pseudo-element, and its argument.
fn write_element<W: fmt::Write>(f: &mut fmt::Formatter<W>, element: &ElementName) -> fmt::Result
    ensures { WritesStyledOnOk W.write_str_gives f.old result
        (simple_text (simple_of (Element element.now))) f.new }
{
    write_named(f, "::", element.name.as_str())?;
    write_any_argument(f, &element.argument)
}

/// Writes a prefix and a bar.
fn write_prefix<W: fmt::Write>(f: &mut fmt::Formatter<W>, prefix: &str) -> fmt::Result
    ensures { WritesStyledOnOk W.write_str_gives f.old result
        (identifier_text prefix.now ++ codes "|") f.new }
{
    write_identifier(f, prefix)?;
    f.write_str("|")
}

/// Writes a namespace before a name.
fn write_namespace<W: fmt::Write>(f: &mut fmt::Formatter<W>, namespace: &Namespace) -> fmt::Result
    ensures { WritesStyledOnOk W.write_str_gives f.old result
        (namespace_text (namespace_of namespace.now)) f.new }
{
    match namespace {
        Namespace::Absent => f.write_str("|"),
        Namespace::Any => f.write_str("*|"),
        Namespace::Prefix(prefix, _) => write_prefix(f, prefix.as_str()),
        Namespace::Default(_) => f.write_str(""),
    }
}

/// Writes a namespace and `*`.
fn write_any_in<W: fmt::Write>(f: &mut fmt::Formatter<W>, namespace: &Namespace) -> fmt::Result
    ensures { WritesStyledOnOk W.write_str_gives f.old result
        (namespace_text (namespace_of namespace.now) ++ codes "*") f.new }
{
    write_namespace(f, namespace)?;
    f.write_str("*")
}

/// Writes a namespace and a name.
fn write_qualified<W: fmt::Write>(
    f: &mut fmt::Formatter<W>,
    namespace: &Namespace,
    name: &str,
) -> fmt::Result
    ensures { WritesStyledOnOk W.write_str_gives f.old result
        (namespace_text (namespace_of namespace.now) ++ identifier_text name.now) f.new }
{
    write_namespace(f, namespace)?;
    write_identifier(f, name)
}

/// Writes a bracket, a namespace and a name.
fn write_opened<W: fmt::Write>(
    f: &mut fmt::Formatter<W>,
    namespace: &Namespace,
    name: &str,
) -> fmt::Result
    ensures { WritesStyledOnOk W.write_str_gives f.old result
        (codes "[" ++ (namespace_text (namespace_of namespace.now) ++ identifier_text name.now)) f.new }
{
    f.write_str("[")?;
    write_qualified(f, namespace, name)
}

/// Writes `[ns|name]`.
fn write_has_in<W: fmt::Write>(
    f: &mut fmt::Formatter<W>,
    namespace: &Namespace,
    name: &str,
) -> fmt::Result
    ensures { WritesStyledOnOk W.write_str_gives f.old result
        (some_attribute_text (namespace_text (namespace_of namespace.now)
        ++ identifier_text name.now)) f.new }
{
    write_opened(f, namespace, name)?;
    f.write_str("]")
}

/// Writes `[ns|name=text]` and the like.
fn write_attribute_in<W: fmt::Write>(
    f: &mut fmt::Formatter<W>,
    namespace: &Namespace,
    test: &AttributeTest,
) -> fmt::Result
    ensures { WritesStyledOnOk W.write_str_gives f.old result
        (attribute_text (namespace_text (namespace_of namespace.now)
        ++ identifier_text (cow_str_bytes test.now.name)) (comparison_of test.now.comparison)
        (cow_str_bytes test.now.text) test.now.ignores_case) f.new }
{
    write_opened(f, namespace, test.name.as_str())?;
    write_test(f, test)?;
    f.write_str("]")
}

/// Writes a type or attribute selector with a namespace.
fn write_namespaced<W: fmt::Write>(
    f: &mut fmt::Formatter<W>,
    namespaced: &Namespaced,
) -> fmt::Result
    ensures { WritesStyledOnOk W.write_str_gives f.old result
        (local_text (namespace_text (namespace_of namespaced.now.namespace))
        (local_of namespaced.now.local)) f.new }
{
    let namespace = &namespaced.namespace;
    match &namespaced.local {
        Local::Universal => write_any_in(f, namespace),
        Local::Implied => write_namespace(f, namespace),
        Local::TypeName(name) => write_qualified(f, namespace, name.as_str()),
        Local::HasAttribute(name) => write_has_in(f, namespace, name.as_str()),
        Local::Attribute(test) => write_attribute_in(f, namespace, test),
    }
}

/// Writes a simple selector.
fn write_simple<W: fmt::Write>(f: &mut fmt::Formatter<W>, simple: &Simple) -> fmt::Result
    ensures { WritesStyledOnOk W.write_str_gives f.old result
        (simple_text (simple_of simple.now)) f.new }
{
    match simple {
        Simple::Universal => f.write_str("*"),
        Simple::TypeName(name) => write_identifier(f, name.as_str()),
        Simple::Id(name) => write_named(f, "#", name.as_str()),
        Simple::Class(name) => write_named(f, ".", name.as_str()),
        Simple::HasAttribute(name) => write_has(f, name.as_str()),
        Simple::Attribute(test) => write_attribute(f, test),
        Simple::Structure(structure) => write_structure(f, *structure),
        Simple::Language(ranges) => write_lang(f, ranges.as_slice()),
        Simple::State(name) => write_named(f, ":", name.as_str()),
        Simple::Function(call) => write_call(f, call),
        Simple::Element(element) => write_element(f, element),
        Simple::Nesting(_) => f.write_str("&"),
        Simple::Namespaced(namespaced) => write_namespaced(f, namespaced),
    }
}

/// Returns what joins the first compound selector to what is before a complex selector in a list.
fn leading(parts: &[Part]) -> &'static str
    ensures { result.now ≡ first_text (map part_of parts.now) }
{
    let [first, ..] = parts else {
        return "";
    };
    match first.combinator {
        Combinator::Descendant => "",
        Combinator::Child => "> ",
        Combinator::Adjacent => "+ ",
        Combinator::Sibling => "~ ",
    }
}

/// Writes the compound selectors of a complex selector in a list.
#[cycle(printing)]
fn write_listed<W: fmt::Write>(f: &mut fmt::Formatter<W>, parts: &[Part]) -> fmt::Result
    ensures { WritesStyledOnOk W.write_str_gives f.old result
        (listed_text (map part_of parts.now)) f.new }
{
    f.write_str(leading(parts))?;
    write_parts(f, parts)
}

/// Writes complex selectors with commas between them.
#[cycle(printing)]
fn write_selectors<W: fmt::Write>(f: &mut fmt::Formatter<W>, selectors: &[Complex]) -> fmt::Result
    ensures { WritesStyledOnOk W.write_str_gives f.old result
        (list_text (λ s. listed_text (complex_of s)) selectors.now) f.new }
{
    let mut separator = "";
    for selector in selectors {
        f.write_str(separator)?;
        write_listed(f, selector.parts.as_slice())?;
        separator = ", ";
    }
    Ok(())
}

/// Writes a pseudo-class with a list of complex selectors.
#[cycle(printing)]
fn write_list<W: fmt::Write>(
    f: &mut fmt::Formatter<W>,
    name: &str,
    selectors: &[Complex],
) -> fmt::Result
    ensures { WritesStyledOnOk W.write_str_gives f.old result
        (function_text name.now
        (list_text (λ s. listed_text (complex_of s)) selectors.now)) f.new }
{
    f.write_str(name)?;
    write_selectors(f, selectors)?;
    f.write_str(")")
}

/// Writes `An+B` and a list.
#[cycle(printing)]
fn write_of<W: fmt::Write>(
    f: &mut fmt::Formatter<W>,
    progression: Progression,
    selectors: &[Complex],
) -> fmt::Result
    ensures { WritesStyledOnOk W.write_str_gives f.old result
        (nth_of_text (progression_of progression)
        (list_text (λ s. listed_text (complex_of s)) selectors.now)) f.new }
{
    write_progression(f, progression)?;
    f.write_str(" of ")?;
    write_selectors(f, selectors)
}

/// Writes a pseudo-class of this name with `An+B` and a list.
#[cycle(printing)]
fn write_nth_of<W: fmt::Write>(
    f: &mut fmt::Formatter<W>,
    name: &str,
    progression: Progression,
    selectors: &[Complex],
) -> fmt::Result
    ensures { WritesStyledOnOk W.write_str_gives f.old result
        (function_text name.now (nth_of_text (progression_of progression)
        (list_text (λ s. listed_text (complex_of s)) selectors.now))) f.new }
{
    f.write_str(name)?;
    write_of(f, progression, selectors)?;
    f.write_str(")")
}

/// Writes a pseudo-class that is answered by the number of its list.
#[cycle(printing)]
fn write_tested<W: fmt::Write>(
    f: &mut fmt::Formatter<W>,
    test: ListTest,
    selectors: &[Complex],
) -> fmt::Result
    ensures { WritesStyledOnOk W.write_str_gives f.old result
        (test_text (list_test_of test)
        (list_text (λ s. listed_text (complex_of s)) selectors.now)) f.new }
{
    match test {
        ListTest::Has => write_list(f, ":has(", selectors),
        ListTest::NthChild(p) => write_nth_of(f, ":nth-child(", p, selectors),
        ListTest::NthLastChild(p) => write_nth_of(f, ":nth-last-child(", p, selectors),
    }
}

/// Writes a condition.
#[cycle(printing)]
fn write_condition<W: fmt::Write>(f: &mut fmt::Formatter<W>, condition: &Condition) -> fmt::Result
    ensures { WritesStyledOnOk W.write_str_gives f.old result
        (condition_text (condition_of condition.now)) f.new }
{
    match condition {
        Condition::Simple(simple) => write_simple(f, simple),
        Condition::Not(selectors) => write_list(f, ":not(", selectors.as_slice()),
        Condition::Is(selectors) => write_list(f, ":is(", selectors.as_slice()),
        Condition::Where(selectors) => write_list(f, ":where(", selectors.as_slice()),
        Condition::Tested(test, selectors) => write_tested(f, *test, selectors.as_slice()),
    }
}

/// Writes the conditions of a compound selector.
#[cycle(printing)]
fn write_conditions<W: fmt::Write>(
    f: &mut fmt::Formatter<W>,
    conditions: &[Condition],
) -> fmt::Result
    ensures { WritesStyledOnOk W.write_str_gives f.old result
        (flat_map condition_text (map condition_of conditions.now)) f.new }
{
    for condition in conditions {
        write_condition(f, condition)?;
    }
    Ok(())
}

/// Returns what joins two compound selectors.
fn before(combinator: Combinator) -> &'static str
    ensures { result.now ≡ combinator_text combinator }
{
    match combinator {
        Combinator::Descendant => " ",
        Combinator::Child => " > ",
        Combinator::Adjacent => " + ",
        Combinator::Sibling => " ~ ",
    }
}

/// Writes the compound selectors after the first.
#[cycle(printing)]
fn write_more<W: fmt::Write>(f: &mut fmt::Formatter<W>, parts: &[Part]) -> fmt::Result
    ensures { WritesStyledOnOk W.write_str_gives f.old result
        (flat_map part_text (map part_of parts.now)) f.new }
{
    for part in parts {
        f.write_str(before(part.combinator))?;
        write_conditions(f, part.conditions.as_slice())?;
    }
    Ok(())
}

/// Writes the compound selectors of a selector.
#[cycle(printing)]
fn write_parts<W: fmt::Write>(f: &mut fmt::Formatter<W>, parts: &[Part]) -> fmt::Result
    ensures { WritesStyledOnOk W.write_str_gives f.old result
        (parts_text (map part_of parts.now)) f.new }
{
    let Some((first, rest)) = parts.split_first() else {
        return Ok(());
    };
    write_conditions(f, first.conditions.as_slice())?;
    write_more(f, rest)
}

/// Writes a pseudo-element and what follows it.
fn write_at_end<W: fmt::Write>(f: &mut fmt::Formatter<W>, element: &PseudoElement) -> fmt::Result
    ensures { WritesStyledOnOk W.write_str_gives f.old result
        (pseudo_element_text (Some (pseudo_element_of element.now))) f.new }
{
    write_element(f, &element.element)?;
    write_conditions(f, element.after.as_slice())
}

/// Writes a pseudo-element, if there is one.
fn write_pseudo_element<W: fmt::Write>(
    f: &mut fmt::Formatter<W>,
    pseudo_element: Option<&PseudoElement>,
) -> fmt::Result
    ensures { WritesStyledOnOk W.write_str_gives f.old result
        (pseudo_element_text (option_map (λ e. pseudo_element_of e.now) pseudo_element.entry))
        f.new }
{
    match pseudo_element {
        Some(pseudo_element) => write_at_end(f, pseudo_element),
        None => Ok(()),
    }
}

/// Prints the selector as CSSOM serializes it ("serialize a selector"), but with each `*` that it
/// has, so that a selector that was read reads back as the same components. A name is written with
/// the escapes that it needs, and a value as a string. The formatter's width, fill and flags change
/// nothing.
impl<'a> fmt::Display for Selector<'a> {
    ghost use Rattle.std.specs.Prelude.{Some};
    ghost use Rattle.css_selector_text.specs.printing.Printing.{selector_text};

    ghost output = { λ s. Some (selector_text s) };

    ghost styled_output = { λ s _. Some (selector_text s) };

    #[tactic(auto, using(css_text::proofs::round_trip::StyledWrites::plain_of_styled))]
    fn fmt<W: fmt::Write>(&self, f: &mut fmt::Formatter<W>) -> fmt::Result {
        write_parts(f, self.parts())?;
        write_pseudo_element(f, self.pseudo_element())
    }
}
