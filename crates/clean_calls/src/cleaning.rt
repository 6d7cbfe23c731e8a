//! What is kept of a text, and whether a text is clean.

ghost use Rattle.std.specs.Prelude.{◌≡◌, IfOk, MatchResult, string_bytes, map};
ghost use Rattle.call_answers.specs.Outcomes.{outcome_of};
ghost use Rattle.css_clean.specs.Views.{dropped_of, sheet_policy_of};
ghost use Rattle.clean_calls.specs.Passed.{passed_of};
ghost use Rattle.clean_calls.specs.CleanCalls.{asked_of as asked_of_number, IsKept, AreDropped};
ghost use Rattle.clean_calls.specs.CleanCalls.{IsCleanCall, IsToldCall, IsCleaned, FailsToClean, AreUrls, is_clean_text, says};

use crate::asked::{Asked, Form, asked_of};
use crate::lists::lines;
use crate::policies::{PassedPolicy, policy_of, texts_in};
use call_answers::answer::CallError;
use call_answers::texts::text_of;
use clean_values::urls::urls;
use css_clean::{
    Cleaned, SheetPolicy, clean_sheet, clean_style, is_clean_sheet, is_clean_style, lists,
};
use std::alloc::{AllocError, Global};

/// Cleans a text of this form.
fn cleaned(
    alloc: Global,
    form: Form,
    policy: SheetPolicy<'_>,
    text: &str,
) -> Result<Cleaned, AllocError>
    ensures { let p = sheet_policy_of policy.entry in IfOk result
        (λ out. IsKept form p text.now (string_bytes out.text)
        × AreDropped form p text.now (map dropped_of out.dropped.items)) }
{
    match form {
        Form::Sheet => clean_sheet(alloc, policy, text),
        Form::Style => clean_style(alloc, policy.declarations, text),
    }
}

/// Cleans a text of this form by the policy that is passed.
pub(crate) fn cleaned_by(
    alloc: Global,
    form: Form,
    text: &[u8],
    passed: &PassedPolicy<'_>,
) -> Result<Cleaned, CallError>
    ensures { let p = passed_of passed.now in MatchResult result
        (λ out. IsCleaned form text.now p (string_bytes out.text) (map dropped_of out.dropped.items))
        (FailsToClean form text.now p) }
{
    let (text, texts) = texts_in(alloc, text, passed)?;
    let policy = policy_of(alloc, form, passed, texts.as_slice())?;
    Ok(cleaned(alloc, form, policy, text)?)
}

/// Whether a text of this form is clean.
fn is_clean(
    alloc: Global,
    form: Form,
    policy: SheetPolicy<'_>,
    text: &str,
) -> Result<bool, AllocError>
    ensures { IfOk result (λ holds. holds ≡ is_clean_text form (sheet_policy_of policy.entry) text.now) }
{
    match form {
        Form::Sheet => is_clean_sheet(alloc, policy, text),
        Form::Style => Ok(is_clean_style(policy.declarations, text)),
    }
}

/// Returns a word for whether something holds.
fn word(alloc: Global, holds: bool) -> Result<String, AllocError>
    ensures { IfOk result (λ out. string_bytes out ≡ says holds) }
{
    let mut out = String::new(alloc);
    out.push_str(if holds { "true" } else { "false" })?;
    Ok(out)
}

/// Returns a word for whether a text of this form is clean.
fn told(
    alloc: Global,
    form: Form,
    text: &[u8],
    passed: &PassedPolicy<'_>,
) -> Result<String, CallError>
    ensures { IsToldCall form text.now (passed_of passed.now) (outcome_of result) }
{
    let (text, texts) = texts_in(alloc, text, passed)?;
    let policy = policy_of(alloc, form, passed, texts.as_slice())?;
    let holds = is_clean(alloc, form, policy, text)?;
    Ok(word(alloc, holds)?)
}

/// Returns the urls of a text, with a byte 0 after each.
fn urls_in(alloc: Global, text: &[u8]) -> Result<String, CallError>
    ensures { AreUrls text.now (outcome_of result) }
{
    Ok(urls(alloc, text_of(text)?)?)
}

/// Returns what is asked for: what is kept of a text by a policy, whether it is clean, its urls, or the lists of a
/// policy of the library.
pub fn clean(
    alloc: Global,
    text: &[u8],
    policy: &PassedPolicy<'_>,
    asked: usize,
) -> Result<String, CallError>
    ensures { IsCleanCall (asked_of_number asked) text.now (passed_of policy.now) (outcome_of result) }
{
    match asked_of(asked) {
        Some(Asked::Clean(form)) => Ok(cleaned_by(alloc, form, text, policy)?.text),
        Some(Asked::IsClean(form)) => told(alloc, form, text, policy),
        Some(Asked::Mail) => Ok(lines(alloc, lists::mail(""))?),
        Some(Asked::Comment) => Ok(lines(alloc, lists::comment(""))?),
        Some(Asked::Urls) => urls_in(alloc, text),
        None => Err(CallError::Refused),
    }
}
