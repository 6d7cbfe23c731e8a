//! Prints a declaration.
ghost use Rattle.std.specs.Prelude.{◌≡◌};
ghost use Rattle.simplecss_grammar.specs.Printing.{important_text};

use crate::Declaration;
use css_text::write_three;
use std::fmt;
use std::fmt::Display;

/// Prints the name, a colon, the value, ` !important` if it is, and a semicolon, as in a printed
/// sheet. The formatter's width, fill and flags change nothing.
impl<'a> Display for Declaration<'a> {
    ghost use Rattle.std.specs.Prelude.{Some};
    ghost use Rattle.simplecss_grammar.specs.Printing.{declaration_text};
    ghost use Rattle.simplecss_declaration.specs.DeclarationViews.{declaration_of};

    ghost output = { λ d. Some (declaration_text (declaration_of d)) };

    ghost styled_output = { λ d _. Some (declaration_text (declaration_of d)) };

    fn fmt<W: fmt::Write>(&self, f: &mut fmt::Formatter<W>) -> fmt::Result {
        write_three(f, self.name, ":", self.value)?;
        f.write_str(important_mark(self.important))?;
        f.write_str(";")
    }
}

/// Returns what follows an important value.
fn important_mark(important: bool) -> &'static str
    ensures { result.now ≡ important_text important }
{
    if important { " !important" } else { "" }
}
