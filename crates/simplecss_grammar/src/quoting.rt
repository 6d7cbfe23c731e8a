//! What a message quotes of the text that is skipped.
ghost use Rattle.std.specs.Prelude.{◌≡◌, ◌<◌, ℕ, List};
ghost use Rattle.css_text.specs.Reading.{Ends, before};
ghost use Rattle.simplecss_grammar.specs.Quotes.{before_byte, first_line};

use crate::report::{Skipped, Why};
use std::fmt;

/// Returns the text before the first such character, or all.
fn before(text: &str, character: char) -> &str
    requires { character < 128 }
    ensures { result.now ≡ before_byte character text.now }
{
    match text.split_once(character) {
        Some((front, _)) => front,
        None => text,
    }
}

/// Returns the first line of a text, without white space around it.
pub fn first_line(text: &str) -> &str
    ensures { result.now ≡ first_line text.now }
{
    before(before(text.trim(), '\n'), '\r').trim_end()
}

/// Returns the text between two ends of a text.
fn between<'a>(from: &'a str, after: &'a str) -> &'a str
    ensures { (text : List ℕ) → Ends text from.now → Ends text after.now
        → result.now ≡ before from.now after.now }
{
    match from.get(..from.len().saturating_sub(after.len())) {
        Some(front) => front,
        None => "",
    }
}

impl<'a> Skipped<'a> {
    ghost use Rattle.std.specs.Prelude.{◌≡◌, ℕ, List};
    ghost use Rattle.simplecss_grammar.specs.SkipOffsets.{IsWithin};
    ghost use Rattle.simplecss_grammar.specs.SkipViews.{skip_of};
    ghost use Rattle.simplecss_grammar.specs.Quotes.{quote, skipped_text};

    /// Returns the text that is skipped.
    pub fn text(&self) -> &'a str
        ensures { (text : List ℕ) → IsWithin text (skip_of self.now)
            → result.now ≡ skipped_text (skip_of self.now) }
    {
        between(self.from, self.after)
    }

    /// Returns what a message quotes: an at-rule up to its block or semicolon, a declaration up to
    /// its semicolon or the end of its block, and anything else as it is; of these the first line,
    /// without white space around it.
    pub fn quote(&self) -> &'a str
        ensures { (text : List ℕ) → IsWithin text (skip_of self.now)
            → result.now ≡ quote (skip_of self.now) }
    {
        let text = self.text();
        first_line(match self.why {
            Why::AtRule(_) => before(before(text, '{'), ';'),
            Why::Declaration => before(before(text, ';'), '}'),
            _ => text,
        })
    }
}

/// Prints what a message quotes and the reason in a few words, as `'a < b': invalid ident`.
impl fmt::Display for Skipped<'_> {
    fn fmt<W: fmt::Write>(&self, f: &mut fmt::Formatter<W>) -> fmt::Result {
        let (quote, words) = (self.quote(), self.why.words());
        write!(f, "'{quote}': {words}")
    }
}
