//! A logger as a reporter of skipped text.
use log::{Log, warn};
use simplecss_grammar::report::{Refusal, Report, Skipped, Why};
use std::alloc::AllocError;

/// A reporter that logs a warning for each refused selector and each at-rule with a name.
#[derive(Drop)]
pub struct Warnings<'r, R: Log> {
    /// The logger.
    rt: &'r R,
}

impl<'r, R: Log> Warnings<'r, R> {
    /// Returns a reporter to this logger.
    #[inline(always)]
    pub fn new(rt: &'r R) -> Self {
        Warnings { rt }
    }
}

/// Logs why something is skipped.
#[cold]
#[inline(never)]
fn warn_of<R: Log>(rt: &R, why: Why<'_>) {
    match why {
        Why::Selector(Refusal::Faulty { error, .. }) => {
            warn!(rt; "Selector parsing failed cause {}.", error)
        }
        Why::Selector(Refusal::UnknownClass(name)) => {
            warn!(rt; "':{}' is not supported. Selector skipped.", name)
        }
        Why::AtRule(Some(name)) => { warn!(rt; "The @{} rule is not supported. Skipped.", name) }
        _ => {}
    }
}

impl<'a, 'r, R: Log> Report<'a> for Warnings<'r, R> {
    ghost State = { Unit {0} };

    ghost state = { λ _. tt };

    ghost add = { λ _ _. tt };

    ghost begun = { λ _ _. tt };

    #[inline(always)]
    fn begin(&mut self, _text: &'a str) {}

    #[inline(always)]
    fn declared(&mut self, _from: &'a str, _value: &'a str) {}

    fn report(&mut self, skipped: Skipped<'a>) -> Result<(), AllocError> {
        warn_of(self.rt, skipped.why);
        Ok(())
    }
}
