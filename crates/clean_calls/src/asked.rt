//! What callers ask for, by numbers.

ghost use Rattle.std.specs.Prelude.{◌≡◌};
ghost use Rattle.clean_calls.specs.CleanCalls.{form_of as form_of_number, asked_of as asked_of_number};

/// What a text is.
#[derive(Clone, Copy, Debug, PartialEq)]
pub enum Form {
    /// A style sheet.
    Sheet,
    /// A style attribute.
    Style,
}

/// What is asked for.
#[derive(Clone, Copy, Debug, PartialEq)]
pub enum Asked {
    /// What is kept of a text.
    Clean(Form),
    /// Whether a text is clean.
    IsClean(Form),
    /// The lists of the policy for mails.
    Mail,
    /// The lists of the policy for comments.
    Comment,
    /// The urls of a text.
    Urls,
}

/// Returns the form of a number, if it has one.
pub fn form_of(number: usize) -> Option<Form>
    ensures { result ≡ form_of_number number }
{
    match number {
        0 => Some(Form::Sheet),
        1 => Some(Form::Style),
        _ => None,
    }
}

/// Returns what a number asks for, if it does.
pub fn asked_of(number: usize) -> Option<Asked>
    ensures { result ≡ asked_of_number number }
{
    match number {
        0 => Some(Asked::Clean(Form::Sheet)),
        1 => Some(Asked::Clean(Form::Style)),
        2 => Some(Asked::IsClean(Form::Sheet)),
        3 => Some(Asked::IsClean(Form::Style)),
        4 => Some(Asked::Mail),
        5 => Some(Asked::Comment),
        6 => Some(Asked::Urls),
        _ => None,
    }
}
