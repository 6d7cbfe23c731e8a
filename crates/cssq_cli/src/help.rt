//! What `--help` and `--version` write.
use crate::output::Output;
use cssq::runs::RunFault;
use std::io::Write;

/// What the commands do.
const HELP: &str = "\
cssq reads CSS 2.1 selectors and style sheets, and says which elements of a tree they match.

  cssq selector TEXT           the selector as it is printed, a TAB, and its specificity
  cssq                         the same for the selector on standard input
  cssq sheet FILE..            the rules of the style sheets, in the order of their specificity
  cssq match FILE TREE         for each element the numbers of these rules that match it
  cssq style FILE TREE NAME    for each element the value of the winning declaration of a name
  cssq --help, --version       this text, and the version

A tree is a page in HTML, if its name ends in .html or .htm. Else it is a text with a line for each
element, in the order of the document. Its fields have TABs between them: the depth (0 for a root,
and else one more than the parent's), the name, and then the attributes as key=value, with no quotes:
class=note, or class=note small for two classes.

  printf '0\\tdiv\\n1\\tp\\tclass=note\\n' > page.tree
  printf '.note { color: red }\\n' > page.css
  cssq style page.css page.tree color

The last prints 1: and 2: red. With CSSQ_LIMIT in the environment, the program ends with status 3 if
the rules of the style sheets would hold more declarations than this number; else there is no limit.

What is skipped of a style sheet is reported on standard error. The
status is 0, 1 if a selector or a tree is at fault, 2 for other words than these, 3 if out of memory,
and 4 if a file cannot be read or the output cannot be written.
";

/// The version of the program.
const VERSION: &str = "cssq 0.3.0\n";

/// Returns what the words ask for, if they are `--help`, `-h` or `--version`.
pub(crate) fn help_for(words: &[String]) -> Option<&'static str> {
    match words {
        [word] => match word.as_str() {
            "-h" | "--help" => Some(HELP),
            "--version" => Some(VERSION),
            _ => None,
        },
        _ => None,
    }
}

/// Writes a text to standard output.
pub(crate) fn write_text<W: Write>(text: &str, out: &mut Output<W>) -> Result<(), RunFault> {
    match out.write_all(text.as_bytes()) {
        Ok(()) => Ok(()),
        Err(_) => Err(RunFault::Output),
    }
}
