//! What the calls of the port write of rules, of declarations and of what is skipped: each text after a line
//! with its length.

ghost use Rattle.std.specs.Prelude.{◌≡◌, ◌++◌, ℕ, List, OnOk, IfOk, length, string_bytes, map};
ghost use Rattle.simplecss.specs.DeclarationViews.{declaration_of, declarations_of};
ghost use Rattle.simplecss.specs.RuleViews.{rule_of, rules_of};
ghost use Rattle.simplecss.specs.Errors.{position_of};
ghost use Rattle.simplecss.specs.Skipped.{skipped};
ghost use Rattle.simplecss.specs.SkipOffsets.{IsWithin};
ghost use Rattle.simplecss.specs.SkipViews.{skip_of};
ghost use Rattle.simplecss.specs.ThisEdition.{this_edition};
ghost use Rattle.call_answers.specs.PortTexts.{declaration_text, declaration_texts, counted_texts};
ghost use Rattle.call_answers.specs.PortTexts.{rule_text, rule_texts as rule_texts_of};
ghost use Rattle.call_answers.specs.PortTexts.{skipped_text, skipped_texts as skipped_texts_of};

use simplecss::{Declaration, Place, Rule, Skipped, TextPos};
use std::alloc::{AllocError, Global};
use std::fmt::Write as _;

/// Appends a declaration.
fn push_declaration(out: &mut String, declaration: &Declaration<'_>) -> Result<(), AllocError>
    ensures { OnOk result (string_bytes out.new
        ≡ string_bytes out.old ++ declaration_text (declaration_of declaration.now)) }
{
    let (name, value) = (declaration.name, declaration.value);
    let (name_len, value_len) = (name.len(), value.len());
    let important = usize::from(declaration.important);
    write!(out, "{name_len} {value_len} {important}\n{name}{value}\n")
}

/// Appends declarations.
fn push_declarations(out: &mut String, declarations: &[Declaration<'_>]) -> Result<(), AllocError>
    ensures { OnOk result (string_bytes out.new
        ≡ string_bytes out.old ++ declaration_texts (declarations_of declarations.now)) }
{
    for declaration in declarations {
        push_declaration(out, declaration)?;
    }
    Ok(())
}

/// Appends how many declarations there are, and these.
pub fn push_counted(out: &mut String, declarations: &[Declaration<'_>]) -> Result<(), AllocError>
    ensures { OnOk result (string_bytes out.new
        ≡ string_bytes out.old ++ counted_texts (declarations_of declarations.now)) }
{
    let count = declarations.len();
    writeln!(out, "{count}")?;
    push_declarations(out, declarations)
}

/// Appends a rule.
fn push_rule(out: &mut String, alloc: Global, rule: &Rule<'_>) -> Result<(), AllocError>
    ensures { OnOk result
        (string_bytes out.new ≡ string_bytes out.old ++ rule_text (rule_of rule.now)) }
{
    let declarations = rule.declarations.as_slice();
    let printed = format!(in alloc; "{}", rule.selector)?;
    let selector = printed.as_str();
    let [ids, others, types] = rule.selector.specificity();
    let (length, count) = (selector.len(), declarations.len());
    write!(out, "{ids} {others} {types} {length} {count}\n{selector}\n")?;
    push_declarations(out, declarations)
}

/// Returns what is written of rules.
pub fn rule_texts(alloc: Global, rules: &[Rule<'_>]) -> Result<String, AllocError>
    ensures { IfOk result (λ text. string_bytes text ≡ rule_texts_of (rules_of rules.now)) }
{
    let mut out = String::new(alloc);
    for rule in rules {
        push_rule(&mut out, alloc, rule)?;
    }
    Ok(out)
}

/// Appends a piece of a text that is skipped, which begins at this position.
fn push_skipped(out: &mut String, pos: TextPos, part: &Skipped<'_>) -> Result<(), AllocError>
    ensures { (text : List ℕ) → IsWithin text (skip_of part.now)
        → pos ≡ position_of text part.now.from.now → OnOk result
        (string_bytes out.new ≡ string_bytes out.old ++ skipped_text text (skip_of part.now)) }
{
    let (row, column, reason) = (pos.row, pos.col, part.why.words());
    let quoted = part.quote();
    let length = quoted.len();
    write!(out, "{row} {column} {length} {reason}\n{quoted}\n")
}

/// Returns what is written of all that is skipped of a text.
pub fn skipped_texts(alloc: Global, text: &str, parts: &[Skipped<'_>]) -> Result<String, AllocError>
    requires { map skip_of parts.now ≡ skipped this_edition text.now }
    ensures { IfOk result
        (λ out. string_bytes out ≡ skipped_texts_of text.now (map skip_of parts.now)) }
{
    let mut out = String::new(alloc);
    let mut place = Place::START;
    for part in parts {
        place = place.find(text, part.from);
        push_skipped(&mut out, place.pos, part)?;
    }
    Ok(out)
}
