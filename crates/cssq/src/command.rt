//! The words of the command line.

ghost use Rattle.std.specs.Prelude.{◌≡◌, map, option_map, string_bytes};
ghost use Rattle.cssq.specs.Command.{request, request_of, selector_of, sheet_of, match_of};
ghost use Rattle.cssq.specs.Command.{style_of};

/// The line that shows the commands.
pub const USAGE: &str =
    "usage: cssq [selector TEXT | sheet FILE... | match FILE TREE | style FILE TREE NAME]";

/// A command, as the words after the program's name spell it.
#[derive(Clone, Copy, PartialEq, Debug)]
pub enum Command<'w> {
    /// No words: the text of the selector is all of standard input.
    Input,
    /// `selector TEXT`: the selector of a text.
    Selector(&'w str),
    /// `sheet FILE...`: the sheet of the files' texts, one after another.
    Sheet(&'w [String]),
    /// `match FILE TREE`: which rules of the file's sheet match each element of the tree.
    Match(&'w str, &'w str),
    /// `style FILE TREE NAME`: which declaration of the name in the file's sheet wins on each
    /// element of the tree.
    Style(&'w str, &'w str, &'w str),
}

impl<'w> Command<'w> {
    /// Returns the command that the words after the program's name spell, if they spell one. It
    /// allocates nothing.
    pub fn of(words: &'w [String]) -> Option<Command<'w>>
        ensures { option_map request result ≡ request_of (map string_bytes words.now) }
    {
        match words {
            [] => Some(Command::Input),
            [name, operands @ ..] => match name.as_str() {
                "selector" => selector(operands),
                "sheet" => sheet(operands),
                "match" => match_tree(operands),
                "style" => style_tree(operands),
                _ => None,
            },
        }
    }
}

/// Returns the command `selector` if there is one operand, the text.
fn selector(operands: &[String]) -> Option<Command<'_>>
    ensures { option_map request result ≡ selector_of (map string_bytes operands.now) }
{
    match operands {
        [text] => Some(Command::Selector(text.as_str())),
        _ => None,
    }
}

/// Returns the command `sheet` if there is an operand: all are names of files.
fn sheet(operands: &[String]) -> Option<Command<'_>>
    ensures { option_map request result ≡ sheet_of (map string_bytes operands.now) }
{
    match operands {
        [] => None,
        files => Some(Command::Sheet(files)),
    }
}

/// Returns the command `match` if there are two operands: the names of a file and of a tree.
#[tactic(auto, using(crate::proofs::Operands::match_of_few, crate::proofs::Operands::match_of_many))]
fn match_tree(operands: &[String]) -> Option<Command<'_>>
    ensures { option_map request result ≡ match_of (map string_bytes operands.now) }
{
    match operands {
        [file, tree] => Some(Command::Match(file.as_str(), tree.as_str())),
        _ => None,
    }
}

/// Returns the command `style` if there are three operands: the names of a file and of a tree, and
/// that of a property.
#[tactic(auto, using(crate::proofs::Operands::style_of_few, crate::proofs::Operands::style_of_many))]
fn style_tree(operands: &[String]) -> Option<Command<'_>>
    ensures { option_map request result ≡ style_of (map string_bytes operands.now) }
{
    match operands {
        [file, tree, name] => Some(Command::Style(file.as_str(), tree.as_str(), name.as_str())),
        _ => None,
    }
}
