//! Identifiers and strings that denote a text, wherever they are written.
ghost use Rattle.std.specs.Prelude.{◌≡◌, IfOk, List, ℕ};
ghost use Rattle.std.specs.String.{string_bytes};
ghost use Rattle.css_selector_text.specs.printing.Escaping.{escaped, quoted};
ghost use Rattle.css_selector_text.specs.printing.Escaping.{EscapedReadsBack, QuotedReadsBack};

use crate::printing::spelling::{write_identifier, write_string};
use std::alloc::{AllocError, Global};
use std::fmt;

/// A name, which prints as an identifier.
#[derive(Drop)]
struct Identifier<'a> {
    name: &'a str,
}

impl<'a> fmt::Display for Identifier<'a> {
    ghost use Rattle.std.specs.Prelude.{Some};
    ghost use Rattle.css_selector_text.specs.printing.Printing.{identifier_text};

    ghost output = { λ s. Some (identifier_text s.name.now) };

    ghost styled_output = { λ s _. Some (identifier_text s.name.now) };

    #[tactic(auto, using(css_text::proofs::round_trip::StyledWrites::plain_of_styled))]
    fn fmt<W: fmt::Write>(&self, f: &mut fmt::Formatter<W>) -> fmt::Result {
        write_identifier(f, self.name)
    }
}

/// A text, which prints as a string.
#[derive(Drop)]
struct Quoted<'a> {
    text: &'a str,
}

impl<'a> fmt::Display for Quoted<'a> {
    ghost use Rattle.std.specs.Prelude.{Some};
    ghost use Rattle.css_selector_text.specs.printing.Printing.{string_text};

    ghost output = { λ s. Some (string_text s.text.now) };

    ghost styled_output = { λ s _. Some (string_text s.text.now) };

    #[tactic(auto, using(css_text::proofs::round_trip::StyledWrites::plain_of_styled))]
    fn fmt<W: fmt::Write>(&self, f: &mut fmt::Formatter<W>) -> fmt::Result {
        write_string(f, self.text)
    }
}

/// Returns an identifier that denotes the name: escapes are put where they are needed, as CSSOM
/// serializes an identifier. U+0000 is written as U+FFFD. Fails only if an allocation fails.
pub fn escape(alloc: Global, name: &str) -> Result<String, AllocError>
    ensures { IfOk result (λ out. string_bytes out ≡ escaped name.now) }
{
    let identifier = Identifier { name };
    format!(in alloc; "{identifier}")
}

/// Returns a string in double quotes that denotes the text, as CSSOM serializes a string. U+0000 is
/// written as U+FFFD. Fails only if an allocation fails.
pub fn quote(alloc: Global, text: &str) -> Result<String, AllocError>
    ensures { IfOk result (λ out. string_bytes out ≡ quoted text.now) }
{
    let string = Quoted { text };
    format!(in alloc; "{string}")
}

/// What `escape` returns reads as the name, if that is not empty, and what `quote` returns as the text,
/// with U+FFFD in place of U+0000.
pub fn escaping_law()
    ensures names { (name : List ℕ) → EscapedReadsBack name }
    ensures strings { (text : List ℕ) → QuotedReadsBack text }
{}
