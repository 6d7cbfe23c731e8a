//! Prints declarations.
ghost use Rattle.std.specs.Prelude.{◌≡◌};
ghost use Rattle.css_syntax.specs.Printing.{ends_lone as ends_lone_of, lone_end as lone_end_of};
ghost use Rattle.css_syntax.specs.Printing.{important_text};

use crate::declarations::Declaration;
use css_text::write_three;
use std::fmt;
use std::fmt::Display;

/// Whether the text ends in a lone backslash: one that no backslash before it escapes.
pub fn ends_lone(bytes: &[u8]) -> bool
    ensures { result ≡ ends_lone_of bytes.now }
{
    let mut rest = bytes;
    'bytes: while let [byte, after @ ..] = rest {
        if *byte != b'\\' {
            rest = after;
        } else if let [_, next @ ..] = after {
            rest = next;
        } else {
            return true;
        }
    }
    false
}

/// Returns what follows a value before anything else does.
fn lone_end(value: &str) -> &'static str
    ensures { result.now ≡ lone_end_of value.now }
{
    if ends_lone(value.as_bytes()) {
        "\u{FFFD}"
    } else {
        ""
    }
}

/// Returns what follows an important value.
fn important_mark(important: bool) -> &'static str
    ensures { result.now ≡ important_text important }
{
    if important { "!important" } else { "" }
}

/// Prints the name, a colon, a space, the value, `!important` if it is, and a semicolon. Name and
/// value are printed as they were written; a value that ends in a lone backslash, which the end of
/// the text makes U+FFFD, has that character after it. Width, fill and flags of the formatter change nothing.
///
/// Printed before any text and read again, a declaration that was read is itself, except if its
/// value ends in a lone backslash, or if something of it was open at the end of the text (`closed`
/// is false), which is not closed here, but by `closed_value`.
impl<'a> Display for Declaration<'a> {
    ghost use Rattle.std.specs.Prelude.{Some};
    ghost use Rattle.css_syntax.specs.Printing.{declaration_text};
    ghost use Rattle.css_syntax.specs.Views.{declaration_of};

    ghost output = { λ d. Some (declaration_text (declaration_of d)) };

    ghost styled_output = { λ d _. Some (declaration_text (declaration_of d)) };

    fn fmt<W: fmt::Write>(&self, f: &mut fmt::Formatter<W>) -> fmt::Result {
        write_three(f, self.name, ": ", self.value)?;
        f.write_str(lone_end(self.value))?;
        f.write_str(important_mark(self.important))?;
        f.write_str(";")
    }
}

/// Declarations, to be printed one after another.
#[derive(Clone, Copy, Debug)]
pub struct DeclarationList<'d, 'a> {
    /// The declarations.
    pub declarations: &'d [Declaration<'a>],
}

/// Prints the declarations with a space between two, as those of a style attribute. Width, fill and
/// flags of the formatter change nothing.
impl<'d, 'a> Display for DeclarationList<'d, 'a> {
    ghost use Rattle.std.specs.Prelude.{Some};
    ghost use Rattle.css_syntax.specs.Printing.{list_text};
    ghost use Rattle.css_syntax.specs.Views.{declarations_in};

    ghost output = { λ l. Some (list_text (declarations_in l)) };

    ghost styled_output = { λ l _. Some (list_text (declarations_in l)) };

    #[tactic(auto, using(css_text::proofs::round_trip::StyledWrites::plain_of_styled))]
    fn fmt<W: fmt::Write>(&self, f: &mut fmt::Formatter<W>) -> fmt::Result {
        let Some((first, rest)) = self.declarations.split_first() else {
            return Ok(());
        };
        first.fmt(f)?;
        for declaration in rest {
            f.write_str(" ")?;
            declaration.fmt(f)?;
        }
        Ok(())
    }
}
