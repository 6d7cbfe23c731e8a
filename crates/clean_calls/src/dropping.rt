//! What is dropped of a text, as numbers.

ghost use Rattle.std.specs.Prelude.{◌≡◌, IfOk, map};
ghost use Rattle.std.specs.List.{flat_map};
ghost use Rattle.call_answers.specs.Outcomes.{numbers_outcome};
ghost use Rattle.css_clean.specs.Views.{dropped_of};
ghost use Rattle.clean_calls.specs.Passed.{passed_of};
ghost use Rattle.clean_calls.specs.CleanCalls.{form_of as form_of_number, reason_number, dropped_row};
ghost use Rattle.clean_calls.specs.CleanCalls.{IsDroppedCall, IsDroppedOf};

use crate::asked::{Form, form_of};
use crate::cleaning::cleaned_by;
use crate::policies::PassedPolicy;
use call_answers::answer::CallError;
use css_clean::{Dropped, Reason};
use std::alloc::{AllocError, Global};

/// Returns the number of a reason.
fn number_of(reason: Reason) -> usize
    ensures { result ≡ reason_number reason }
{
    match reason {
        Reason::Property => 0,
        Reason::Function => 1,
        Reason::Url => 2,
        Reason::String => 3,
        Reason::Token => 4,
        Reason::Byte => 5,
        Reason::Important => 6,
        Reason::Open => 7,
        Reason::Selector => 8,
        Reason::AtRule => 9,
        Reason::Broken => 10,
        Reason::Empty => 11,
        Reason::Limit => 12,
        Reason::Unclean => 13,
        Reason::Beyond => 14,
    }
}

/// Returns three numbers of each piece that is dropped: where it begins and ends, and why it is.
fn rows(alloc: Global, all: &[Dropped]) -> Result<Vec<usize>, AllocError>
    ensures { IfOk result (λ out. out.items ≡ flat_map dropped_row (map dropped_of all.now)) }
{
    let mut out = Vec::new(alloc);
    for one in all {
        out.extend_from_slice(&[one.start, one.end, number_of(one.reason)])?;
    }
    Ok(out)
}

/// Returns the numbers of what is dropped of a text of this form.
fn dropped_from(
    alloc: Global,
    form: Form,
    text: &[u8],
    passed: &PassedPolicy<'_>,
) -> Result<Vec<usize>, CallError>
    ensures { IsDroppedOf form text.now (passed_of passed.now) (numbers_outcome result) }
{
    let cleaned = cleaned_by(alloc, form, text, passed)?;
    Ok(rows(alloc, cleaned.dropped.as_slice())?)
}

/// Returns the numbers of what is dropped of a text by a policy, whose form has a number.
pub fn dropped(
    alloc: Global,
    text: &[u8],
    policy: &PassedPolicy<'_>,
    form: usize,
) -> Result<Vec<usize>, CallError>
    ensures { IsDroppedCall (form_of_number form) text.now (passed_of policy.now) (numbers_outcome result) }
{
    match form_of(form) {
        Some(form) => dropped_from(alloc, form, text, policy),
        None => Err(CallError::Refused),
    }
}
