//! True, false and unknown.
ghost use Rattle.std.specs.Prelude.{◌≡◌};
ghost use Rattle.css_conditions.specs.Truths.{opposite as opposite_of, both as both_of};
ghost use Rattle.css_conditions.specs.Truths.{either as either_of, truth_of as truth_named};
ghost use Rattle.css_conditions.specs.Truths.{reversed as reversed_of, joined, joined_to, spanned};
ghost use Rattle.css_conditions.specs.Truths.{holds as holds_of, is_true as is_true_of};
ghost use Rattle.css_conditions.specs.Truths.{truth_in as truth_in_of};
ghost use Rattle.css_conditions.specs.Choices.{join_of, word_of};

/// What a condition says.
#[derive(Clone, Copy, Debug, PartialEq)]
pub enum Truth {
    /// It holds.
    True,
    /// It does not hold.
    False,
    /// Nobody knows.
    Unknown,
}

/// What reading a condition gives.
#[derive(Clone, Copy, Debug, PartialEq)]
pub enum Outcome {
    /// It is of the grammar.
    Found(Truth),
    /// It is not.
    Unfit,
    /// It has a bad string or url, a stray bracket, or too many open ones.
    Broken,
}

/// How conditions are joined.
#[derive(Clone, Copy, Debug, PartialEq)]
pub enum Join {
    /// Both are to hold.
    And,
    /// One is to hold.
    Or,
}

/// How a feature is compared with a value.
#[derive(Clone, Copy, Debug, PartialEq)]
pub enum Comparison {
    /// It is there, and neither zero nor none: `(color)`.
    Present,
    /// It is the value: `(hover: none)`. With `min-` or `max-` in its name: at least, at most.
    Is,
    /// `=`
    Equal,
    /// `<`
    Less,
    /// `<=`
    AtMost,
    /// `>`
    More,
    /// `>=`
    AtLeast,
}

/// Returns the opposite.
pub fn opposite(truth: Truth) -> Truth
    ensures { result ≡ opposite_of truth }
{
    match truth {
        Truth::True => Truth::False,
        Truth::False => Truth::True,
        Truth::Unknown => Truth::Unknown,
    }
}

/// Whether both hold.
pub fn both(one: Truth, other: Truth) -> Truth
    ensures { result ≡ both_of one other }
{
    match one {
        Truth::True => other,
        Truth::False => Truth::False,
        Truth::Unknown => match other {
            Truth::False => Truth::False,
            _ => Truth::Unknown,
        },
    }
}

/// Whether one holds.
pub fn either(one: Truth, other: Truth) -> Truth
    ensures { result ≡ either_of one other }
{
    match one {
        Truth::True => Truth::True,
        Truth::False => other,
        Truth::Unknown => match other {
            Truth::True => Truth::True,
            _ => Truth::Unknown,
        },
    }
}

/// Returns the truth of whether something holds.
pub fn truth_of(it: bool) -> Truth
    ensures { result ≡ truth_named it }
{
    if it { Truth::True } else { Truth::False }
}

/// Returns the opposite of what was found.
pub fn reversed(outcome: Outcome) -> Outcome
    ensures { result ≡ reversed_of outcome }
{
    match outcome {
        Outcome::Found(truth) => Outcome::Found(opposite(truth)),
        Outcome::Unfit => Outcome::Unfit,
        Outcome::Broken => Outcome::Broken,
    }
}

/// Joins two truths.
fn join_truths(join: Join, one: Truth, other: Truth) -> Truth
    ensures { result ≡ join_of join one other }
{
    match join {
        Join::And => both(one, other),
        Join::Or => either(one, other),
    }
}

/// Joins what was found.
pub fn join_outcomes(join: Join, one: Outcome, other: Outcome) -> Outcome
    ensures { result ≡ joined (join_of join) one other }
{
    match one {
        Outcome::Found(truth) => match other {
            Outcome::Found(second) => Outcome::Found(join_truths(join, truth, second)),
            Outcome::Unfit => Outcome::Unfit,
            Outcome::Broken => Outcome::Broken,
        },
        Outcome::Unfit => match other {
            Outcome::Broken => Outcome::Broken,
            _ => Outcome::Unfit,
        },
        Outcome::Broken => Outcome::Broken,
    }
}

/// Joins both sides of a range.
fn span_truths(one: Truth, other: Truth) -> Truth
    ensures { result ≡ spanned one other }
{
    match one {
        Truth::True => other,
        Truth::False => match other {
            Truth::Unknown => Truth::Unknown,
            _ => Truth::False,
        },
        Truth::Unknown => Truth::Unknown,
    }
}

/// Joins what was found of both sides of a range.
pub fn span(one: Truth, other: Outcome) -> Outcome
    ensures { result ≡ joined_to spanned one other }
{
    match other {
        Outcome::Found(second) => Outcome::Found(span_truths(one, second)),
        Outcome::Unfit => Outcome::Unfit,
        Outcome::Broken => Outcome::Broken,
    }
}

/// Returns the word that joins conditions.
pub fn word(join: Join) -> &'static [u8]
    ensures { result.now ≡ word_of join }
{
    match join {
        Join::And => b"and",
        Join::Or => b"or",
    }
}

/// Whether something was found that holds.
pub fn holds(outcome: Outcome) -> bool
    ensures { result ≡ holds_of outcome }
{
    match outcome {
        Outcome::Found(Truth::True) => true,
        _ => false,
    }
}

/// Whether it holds.
pub fn is_true(truth: Truth) -> bool
    ensures { result ≡ is_true_of truth }
{
    matches!(truth, Truth::True)
}

/// Returns what was found. Nothing is known of what is not of the grammar.
pub fn truth_in(outcome: Outcome) -> Truth
    ensures { result ≡ truth_in_of outcome }
{
    match outcome {
        Outcome::Found(truth) => truth,
        Outcome::Unfit | Outcome::Broken => Truth::Unknown,
    }
}
