//! Whether what was read is good, and what is reported of what is not.
ghost use Rattle.std.specs.Prelude.{◌≡◌};
ghost use Rattle.css_syntax.specs.Qualities.{first_flaw as first_flaw_of, is_good as is_good_of};
ghost use Rattle.css_syntax.specs.Qualities.{is_whole as is_whole_of};
ghost use Rattle.css_syntax.specs.Qualities.{fault_of as fault_named, fault_words};

/// Whether something that was read is good.
#[derive(Clone, Copy, Debug, PartialEq)]
pub enum Quality {
    /// It is good, and closed.
    Whole,
    /// It is good, but a bracket, a string, a url or a comment of it is open at the end of the
    /// text, which closes it.
    Open,
    /// A string of it has a newline.
    BadString,
    /// A url of it has a quote, a parenthesis, a control character, or a blank in it.
    BadUrl,
    /// A closing bracket of it closes nothing.
    StrayBracket,
    /// More than 64 brackets of it are open at once.
    TooDeep,
}

/// Why something is reported.
#[derive(Clone, Copy, Debug, PartialEq)]
pub enum Fault {
    /// A declaration has no name, no colon or no value, or something else follows its value.
    BrokenDeclaration,
    /// A string has a newline.
    BadString,
    /// A url has a quote, a parenthesis, a control character, or a blank in it.
    BadUrl,
    /// A closing bracket closes nothing.
    StrayBracket,
    /// More than 64 brackets are open at once.
    TooDeep,
    /// No block follows what should be the selectors of a rule set.
    NoBlock,
    /// A rule is nested in a rule set.
    NestedRule,
    /// A selector is invalid.
    InvalidSelector,
}

impl Fault {
    /// Returns the words for the fault.
    pub fn words(self) -> &'static str
        ensures { result.now ≡ fault_words self }
    {
        match self {
            Fault::BrokenDeclaration => "broken declaration",
            Fault::BadString => "bad string",
            Fault::BadUrl => "bad url",
            Fault::StrayBracket => "stray bracket",
            Fault::TooDeep => "too deep",
            Fault::NoBlock => "no block",
            Fault::NestedRule => "nested rule",
            Fault::InvalidSelector => "invalid selector",
        }
    }
}

/// Returns the first one, unless it is whole; then the other.
pub fn first_flaw(one: Quality, other: Quality) -> Quality
    ensures { result ≡ first_flaw_of one other }
{
    match one {
        Quality::Whole => other,
        _ => one,
    }
}

/// Whether what has this quality may be read, and is not dropped.
pub fn is_good(quality: Quality) -> bool
    ensures { result ≡ is_good_of quality }
{
    matches!(quality, Quality::Whole | Quality::Open)
}

/// Whether nothing of what has this quality is open at the end of the text, and it is good.
pub fn is_whole(quality: Quality) -> bool
    ensures { result ≡ is_whole_of quality }
{
    matches!(quality, Quality::Whole)
}

/// Returns what is reported of something with this quality that is dropped.
pub fn fault_of(quality: Quality) -> Fault
    ensures { result ≡ fault_named quality }
{
    match quality {
        Quality::BadString => Fault::BadString,
        Quality::BadUrl => Fault::BadUrl,
        Quality::StrayBracket => Fault::StrayBracket,
        Quality::TooDeep => Fault::TooDeep,
        _ => Fault::BrokenDeclaration,
    }
}
