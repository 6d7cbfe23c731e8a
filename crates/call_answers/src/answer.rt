//! What a call hands over to its caller.

ghost use Rattle.std.specs.Prelude.{◌≡◌, ◌<◌, ◌≤◌, Ok, Err, MatchResult, length};
ghost use Rattle.std.specs.Prelude.{string_bytes};
ghost use Rattle.call_answers.specs.Answers.{status_of, failure_of, IsHandedOver, Answers, IsFaultSet};
ghost use Rattle.call_answers.specs.Outcomes.{outcome_of, numbers_outcome, truth_outcome};
ghost use Rattle.call_answers.specs.declared.answer.CallError.TheVariants.{Memory, AnswerTooLong};

use crate::elements::ElementFault;
use css_conditions::Truth;
use css_elements::TreeError;
use css_text::SheetError;
use std::alloc::{AllocError, AllocFailed};

/// The status of a call that has written its answer.
const DONE: u32 = 0;
/// The status of a call whose answer is longer than the buffer.
const TOO_SMALL: u32 = 6;

/// Why a call has no answer.
#[derive(Clone, Copy, Debug, PartialEq)]
pub enum CallError {
    /// A text is no selector, or the ends are not those of texts in their buffer.
    Refused,
    /// A tree has a fault.
    Tree(ElementFault),
    /// An allocation failed.
    Memory,
    /// The rules of the texts would hold more declarations than the limit.
    TooManyDeclarations,
    /// A text is not UTF-8.
    NotUtf8,
    /// The answer would be longer than the limit.
    AnswerTooLong,
    /// Sheets have more than 1,024 layers.
    TooManyLayers,
}

impl CallError {
    /// The status that the call returns.
    pub fn status(&self) -> u32
        ensures { result ≡ status_of self.now }
    {
        match self {
            CallError::Refused => 1,
            CallError::Tree(_) => 2,
            CallError::Memory => 3,
            CallError::TooManyDeclarations | CallError::AnswerTooLong => 4,
            CallError::NotUtf8 => 5,
            CallError::TooManyLayers => 7,
        }
    }
}

impl From<AllocError> for CallError {
    ghost from_gives = { λ _ failure. failure ≡ Memory };

    fn from(_error: AllocError) -> CallError {
        CallError::Memory
    }
}

impl<T: Drop> From<AllocFailed<T>> for CallError {
    ghost from_gives = { λ _ failure. failure ≡ Memory };

    fn from(_error: AllocFailed<T>) -> CallError {
        CallError::Memory
    }
}

impl From<SheetError> for CallError {
    ghost from_gives = { λ error failure. failure ≡ failure_of error };

    fn from(error: SheetError) -> CallError {
        match error {
            SheetError::TooManyDeclarations => CallError::TooManyDeclarations,
            SheetError::Memory => CallError::Memory,
        }
    }
}

/// Each element is added after its parent, so that adding one fails only if an allocation fails.
impl From<TreeError> for CallError {
    ghost from_gives = { λ _ failure. failure ≡ Memory };

    fn from(_error: TreeError) -> CallError {
        CallError::Memory
    }
}

/// Fails if an answer has more bytes than it may.
pub fn check_length(text: &String, most: usize) -> Result<(), CallError>
    ensures { MatchResult result (λ _. length (string_bytes text.now) ≤ most)
        (λ failure. (failure ≡ AnswerTooLong) × (most < length (string_bytes text.now))) }
{
    if text.len() > most {
        return Err(CallError::AnswerTooLong);
    }
    Ok(())
}

/// Fails if an answer has more numbers than it may.
pub fn check_count(numbers: &Vec<usize>, most: usize) -> Result<(), CallError>
    ensures { MatchResult result (λ _. length numbers.now.items ≤ most)
        (λ failure. (failure ≡ AnswerTooLong) × (most < length numbers.now.items)) }
{
    if numbers.len() > most {
        return Err(CallError::AnswerTooLong);
    }
    Ok(())
}

/// A fault of a tree, as the caller of a function gets it.
#[repr(C)]
pub struct TreeFault {
    /// The number of the kind of fault.
    pub fault: u32,
    /// The number of the element, from 1.
    pub element: usize,
}

/// Copies all bytes or numbers to the front of the buffer, or nothing where they are too many for it, and
/// sets the length to how many they are.
pub fn copy_whole<T: Copy>(bytes: &[T], out: &mut [T], len: &mut usize) -> u32
    ensures { IsHandedOver bytes.now result out.old out.new len.new }
{
    *len = bytes.len();
    if out.len() < bytes.len() {
        return TOO_SMALL;
    }
    out[..bytes.len()].copy_from_slice(bytes);
    DONE
}

/// Hands over an answer in numbers, and returns the status of the call.
pub fn hand_over_numbers(
    outcome: Result<Vec<usize>, CallError>,
    out: &mut [usize],
    len: &mut usize,
) -> u32
    ensures { Answers (numbers_outcome outcome) result out.old out.new len.new }
{
    match outcome {
        Ok(numbers) => copy_whole(numbers.as_slice(), out, len),
        Err(failure) => {
            *len = 0;
            failure.status()
        }
    }
}

/// Hands over whether a condition holds, as a word, and returns the status of the call.
pub fn hand_over_truth(outcome: Result<Truth, CallError>, out: &mut [u8], len: &mut usize) -> u32
    ensures { Answers (truth_outcome outcome) result out.old out.new len.new }
{
    match outcome {
        Ok(Truth::True) => copy_whole(b"true", out, len),
        Ok(Truth::False) => copy_whole(b"false", out, len),
        Ok(Truth::Unknown) => copy_whole(b"unknown", out, len),
        Err(failure) => {
            *len = 0;
            failure.status()
        }
    }
}

/// Hands over the answer of a call, and returns its status.
pub fn hand_over(outcome: Result<String, CallError>, out: &mut [u8], len: &mut usize) -> u32
    ensures { Answers (outcome_of outcome) result out.old out.new len.new }
{
    match outcome {
        Ok(text) => copy_whole(text.as_bytes(), out, len),
        Err(failure) => {
            *len = 0;
            failure.status()
        }
    }
}

/// Sets the fault of a tree, if that is why a call has no answer.
fn set_fault(failure: CallError, fault: &mut TreeFault)
    ensures { IsFaultSet (Err failure) fault.old fault.new }
{
    if let CallError::Tree(found) = failure {
        fault.fault = found.number();
        fault.element = found.element();
    }
}

/// Hands over the answer of a call over a tree, whose fault it sets, and returns its status.
pub fn hand_over_of_tree(
    outcome: Result<String, CallError>,
    out: &mut [u8],
    len: &mut usize,
    fault: &mut TreeFault,
) -> u32
    ensures answered { Answers (outcome_of outcome) result out.old out.new len.new }
    ensures faulty { IsFaultSet (outcome_of outcome) fault.old fault.new }
{
    if let Err(failure) = &outcome {
        set_fault(*failure, fault);
    }
    hand_over(outcome, out, len)
}

/// Hands over the answer in numbers of a call over a tree, whose fault it sets, and returns its status.
pub fn hand_over_numbers_of_tree(
    outcome: Result<Vec<usize>, CallError>,
    out: &mut [usize],
    len: &mut usize,
    fault: &mut TreeFault,
) -> u32
    ensures answered { Answers (numbers_outcome outcome) result out.old out.new len.new }
    ensures faulty { IsFaultSet (numbers_outcome outcome) fault.old fault.new }
{
    if let Err(failure) = &outcome {
        set_fault(*failure, fault);
    }
    hand_over_numbers(outcome, out, len)
}
