//! The printed text of rules and sheets.
ghost use Rattle.std.specs.Prelude.{◌∷◌};
ghost use Rattle.std.specs.Fmt.{WritesStyledOnOk};
ghost use Rattle.std.specs.List.{flat_map};
ghost use Rattle.css_text.specs.AsciiBytes.{newline};
ghost use Rattle.simplecss_grammar.specs.Printing.{declaration_text, rule_text, sheet_text};
ghost use Rattle.simplecss_declaration.specs.DeclarationViews.{declaration_of, declarations_of};
ghost use Rattle.simplecss.specs.RuleViews.{rule_of, rules_of};

use crate::sheet::{Rule, StyleSheet};
use simplecss_declaration::Declaration;
use std::fmt;
use std::fmt::Display;

/// Prints the rules with a newline between two, and none after the last. Width, fill and flags of
/// the formatter change nothing.
impl<'a> Display for StyleSheet<'a> {
    ghost use Rattle.std.specs.Prelude.{Some};
    ghost use Rattle.simplecss_grammar.specs.Printing.{sheet_text};
    ghost use Rattle.simplecss.specs.RuleViews.{rules_in};

    ghost output = { λ s. Some (sheet_text (rules_in s)) };

    ghost styled_output = { λ s _. Some (sheet_text (rules_in s)) };

    #[tactic(auto, using(css_text::proofs::round_trip::StyledWrites::plain_of_styled))]
    fn fmt<W: fmt::Write>(&self, f: &mut fmt::Formatter<W>) -> fmt::Result {
        let Some((first, rest)) = self.rules.split_first() else {
            return Ok(());
        };
        first.fmt(f)?;
        for rule in rest {
            f.write_str("\n")?;
            rule.fmt(f)?;
        }
        Ok(())
    }
}

/// Prints the rule as in a printed sheet: the selector, and between braces each declaration with a
/// colon after its name and a semicolon at its end. Width, fill and flags of
/// the formatter change nothing.
impl<'a> Display for Rule<'a> {
    ghost use Rattle.std.specs.Prelude.{Some};
    ghost use Rattle.simplecss_grammar.specs.Printing.{rule_text};
    ghost use Rattle.simplecss.specs.RuleViews.{rule_of};

    ghost output = { λ r. Some (rule_text (rule_of r)) };

    ghost styled_output = { λ r _. Some (rule_text (rule_of r)) };

    #[tactic(auto, using(css_text::proofs::round_trip::StyledWrites::plain_of_styled))]
    fn fmt<W: fmt::Write>(&self, f: &mut fmt::Formatter<W>) -> fmt::Result {
        self.selector.fmt(f)?;
        f.write_str(" { ")?;
        write_declarations(f, self.declarations.as_slice())?;
        f.write_str(" }")
    }
}

/// Writes the declarations, with nothing between two.
fn write_declarations<W: fmt::Write>(
    f: &mut fmt::Formatter<W>,
    declarations: &[Declaration],
) -> fmt::Result
    ensures { WritesStyledOnOk W.write_str_gives f.old result
        (flat_map declaration_text (declarations_of declarations.now)) f.new }
{
    for declaration in declarations {
        declaration.fmt(f)?;
    }
    Ok(())
}
