//! Prints selectors and pseudo-classes. No option of the formatter changes the text.
ghost use Rattle.std.specs.Prelude.{◌≡◌, ◌++◌, map};
ghost use Rattle.std.specs.Fmt.{WritesStyledOnOk};
ghost use Rattle.std.specs.List.{flat_map};
ghost use Rattle.std.specs.Option.{option_map};
ghost use Rattle.simplecss_grammar.specs.Printing.{pseudo_class_text, operator_text, subselector_text};
ghost use Rattle.simplecss_grammar.specs.Printing.{combinator_text, type_text, component_text};
ghost use Rattle.simplecss_selector.specs.OperatorViews.{operator_of, pseudo_class_of};
ghost use Rattle.simplecss_selector.specs.internal.CombinatorViews.{combinator_of};
ghost use Rattle.simplecss_selector.specs.internal.SelectorViews.{subselector_of};
ghost use Rattle.simplecss_selector.specs.internal.SelectorViews.{component_of_flat};

use crate::selector::{Combinator, FlatComponent, Selector, SubSelector};
use crate::{AttributeOperator, PseudoClass};
use css_text::write_three;
use std::fmt;

impl<'a> fmt::Display for PseudoClass<'a> {
    ghost use Rattle.std.specs.Prelude.{Some};
    ghost use Rattle.simplecss_grammar.specs.Printing.{pseudo_class_text};
    ghost use Rattle.simplecss_selector.specs.OperatorViews.{pseudo_class_of};

    ghost output = { λ c. Some (pseudo_class_text (pseudo_class_of c)) };

    ghost styled_output = { λ c _. Some (pseudo_class_text (pseudo_class_of c)) };

    #[tactic(auto, using(css_text::proofs::round_trip::StyledWrites::plain_of_styled))]
    fn fmt<W: fmt::Write>(&self, f: &mut fmt::Formatter<W>) -> fmt::Result {
        write_class(f, *self)
    }
}

impl<'a> fmt::Display for Selector<'a> {
    ghost use Rattle.std.specs.Prelude.{Some};
    ghost use Rattle.simplecss_grammar.specs.Printing.{selector_text};

    ghost output = { λ s. Some (selector_text s) };

    ghost styled_output = { λ s _. Some (selector_text s) };

    #[tactic(auto, using(css_text::proofs::round_trip::StyledWrites::plain_of_styled))]
    fn fmt<W: fmt::Write>(&self, f: &mut fmt::Formatter<W>) -> fmt::Result {
        for index in 0..self.len() {
            let (flat, subselectors) = self.component(index);
            write_component(f, flat, subselectors)?;
        }
        Ok(())
    }
}

/// Writes a component, with its combinator before it.
fn write_component<W: fmt::Write>(
    f: &mut fmt::Formatter<W>,
    flat: FlatComponent,
    subselectors: &[SubSelector],
) -> fmt::Result
    ensures { WritesStyledOnOk W.write_str_gives f.old result
        (component_text (component_of_flat flat.entry subselectors.now)) f.new }
{
    f.write_str(before(flat.combinator))?;
    f.write_str(name_or_star(flat.name))?;
    write_subselectors(f, subselectors)
}

/// Returns what is printed before a component.
fn before(combinator: Combinator) -> &'static str
    ensures { result.now ≡ combinator_text (combinator_of combinator) }
{
    match combinator {
        Combinator::None => "",
        Combinator::Descendant => " ",
        Combinator::Child => " > ",
        Combinator::Adjacent => " + ",
    }
}

/// Returns the type name, or a star.
fn name_or_star(name: Option<&str>) -> &str
    ensures { result.now ≡ type_text (option_map (λ n. n.now) name.entry) }
{
    match name {
        Some(name) => name,
        None => "*",
    }
}

/// Writes subselectors one after another.
fn write_subselectors<W: fmt::Write>(
    f: &mut fmt::Formatter<W>,
    subselectors: &[SubSelector],
) -> fmt::Result
    ensures { WritesStyledOnOk W.write_str_gives f.old result
        (flat_map subselector_text (map subselector_of subselectors.now)) f.new }
{
    for subselector in subselectors {
        write_subselector(f, *subselector)?;
    }
    Ok(())
}

/// Writes an attribute in brackets, or a pseudo-class after its colon.
fn write_subselector<W: fmt::Write>(
    f: &mut fmt::Formatter<W>,
    subselector: SubSelector,
) -> fmt::Result
    ensures { WritesStyledOnOk W.write_str_gives f.old result
        (subselector_text (subselector_of subselector.entry)) f.new }
{
    match subselector {
        SubSelector::Attribute(name, operator) => {
            f.write_str("[")?;
            f.write_str(name)?;
            write_operator(f, operator)?;
            f.write_str("]")
        }
        SubSelector::PseudoClass(class) => {
            f.write_str(":")?;
            write_class(f, class)
        }
    }
}

/// Writes the operator of an attribute, its text in single quotes.
fn write_operator<W: fmt::Write>(
    f: &mut fmt::Formatter<W>,
    operator: AttributeOperator,
) -> fmt::Result
    ensures { WritesStyledOnOk W.write_str_gives f.old result
        (operator_text (operator_of operator.entry)) f.new }
{
    match operator {
        AttributeOperator::Exists => Ok(()),
        AttributeOperator::Matches(text) => write_three(f, "='", text, "'"),
        AttributeOperator::Contains(word) => write_three(f, "~='", word, "'"),
        AttributeOperator::StartsWith(start) => write_three(f, "|='", start, "'"),
    }
}

/// Writes a pseudo-class without its colon.
fn write_class<W: fmt::Write>(f: &mut fmt::Formatter<W>, class: PseudoClass) -> fmt::Result
    ensures { WritesStyledOnOk W.write_str_gives f.old result
        (pseudo_class_text (pseudo_class_of class.entry)) f.new }
{
    match class {
        PseudoClass::FirstChild => f.write_str("first-child"),
        PseudoClass::Link => f.write_str("link"),
        PseudoClass::Visited => f.write_str("visited"),
        PseudoClass::Hover => f.write_str("hover"),
        PseudoClass::Active => f.write_str("active"),
        PseudoClass::Focus => f.write_str("focus"),
        PseudoClass::Lang(language) => write_three(f, "lang(", language, ")"),
    }
}
