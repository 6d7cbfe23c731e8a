//! Why something is skipped, in a few words.
ghost use Rattle.std.specs.Prelude.{◌≡◌};
ghost use Rattle.std.specs.Fmt.{WritesStyledOnOk};
ghost use Rattle.simplecss_grammar.specs.SkipViews.{why_of};
ghost use Rattle.simplecss_grammar.specs.Words.{class_text, why_words};

use crate::report::{Refusal, Why};
use css_text::write_three;
use std::fmt;

impl Why<'_> {
    /// Returns the reason in a few words, without a position or a name.
    pub fn words(&self) -> &'static str
        ensures { result.now ≡ why_words (why_of self.now) }
    {
        match *self {
            Why::LeadingComma => "comma before a selector",
            Why::Selector(Refusal::Faulty { error, .. }) => error.words(),
            Why::Selector(Refusal::UnknownClass(_)) => "unknown pseudo-class",
            Why::AfterSelector => "unexpected text after a selector",
            Why::MissingBlock => "block missing",
            Why::Declaration => "broken declaration",
            Why::OpenValue => "string or function not closed",
            Why::ExtraBrace => "unexpected closing brace",
            Why::Comment => "comment not closed",
            Why::AtRule(_) => "at-rule not supported",
        }
    }
}

/// Prints the reason in a few words, with the name of a pseudo-class that is not known. The
/// formatter's width, fill and flags change nothing.
impl fmt::Display for Why<'_> {
    ghost use Rattle.std.specs.Prelude.{Some};
    ghost use Rattle.simplecss_grammar.specs.SkipViews.{why_of};
    ghost use Rattle.simplecss_grammar.specs.Words.{why_text};

    ghost output = { λ why. Some (why_text (why_of why)) };

    ghost styled_output = { λ why _. Some (why_text (why_of why)) };

    #[tactic(auto, using(css_text::proofs::round_trip::StyledWrites::plain_of_styled))]
    fn fmt<W: fmt::Write>(&self, f: &mut fmt::Formatter<W>) -> fmt::Result {
        match *self {
            Why::Selector(Refusal::UnknownClass(name)) => write_class(f, name),
            why => f.write_str(why.words()),
        }
    }
}

/// Writes that a pseudo-class of this name is not known.
fn write_class<W: fmt::Write>(f: &mut fmt::Formatter<W>, name: &str) -> fmt::Result
    ensures { WritesStyledOnOk W.write_str_gives f.old result (class_text name.now) f.new }
{
    write_three(f, "unknown pseudo-class ':", name, "'")
}
