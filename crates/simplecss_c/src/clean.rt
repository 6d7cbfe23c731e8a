//! Texts of strangers, cleaned by a policy.

ghost use Rattle.call_answers.specs.Answers.{IsAnswered};
ghost use Rattle.clean_calls.specs.CleanCalls.{IsCleanCall, IsDroppedCall, asked_of, form_of};
ghost use Rattle.clean_calls.specs.Passed.{passed_of};

use call_answers::answer::{hand_over, hand_over_numbers};
use clean_calls::policies::PassedPolicy;
use clean_calls::{cleaning, dropping};
use std::alloc::Global;

/// Writes what is kept of a sheet or a style attribute by a policy, whether it is clean, or the lists of a policy of
/// the library.
#[unsafe(no_mangle)]
pub extern "C" fn simplecss_clean(
    alloc: Global,
    text: &[u8],
    policy: &PassedPolicy<'_>,
    asked: usize,
    out: &mut [u8],
    len: &mut usize,
) -> u32
    ensures { IsAnswered (IsCleanCall (asked_of asked) text.now (passed_of policy.now))
        result out.old out.new len.new }
{
    hand_over(cleaning::clean(alloc, text, policy, asked), out, len)
}

/// Writes three numbers of each piece of a sheet or a style attribute that a policy drops: where it begins and ends,
/// and why it is dropped.
#[unsafe(no_mangle)]
pub extern "C" fn simplecss_dropped(
    alloc: Global,
    text: &[u8],
    policy: &PassedPolicy<'_>,
    form: usize,
    out: &mut [usize],
    len: &mut usize,
) -> u32
    ensures { IsAnswered (IsDroppedCall (form_of form) text.now (passed_of policy.now))
        result out.old out.new len.new }
{
    hand_over_numbers(dropping::dropped(alloc, text, policy, form), out, len)
}
