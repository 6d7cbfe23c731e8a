//! The numbers that `An+B` names.
ghost use Rattle.std.specs.Prelude.{◌≡◌};
ghost use Rattle.css_selector_text.specs.reading.Numbers.{is_multiple as is_multiple_of, is_steps as is_steps_of};

use crate::{Progression, Signed};

/// Whether the number is a multiple of the size. Of 0 only 0 is one.
fn is_multiple(size: u64, number: u64) -> bool
    ensures { result ≡ is_multiple_of size number }
{
    if size == 0 {
        number == 0
    } else {
        number % size == 0
    }
}

/// Whether steps of this size lead from one number to the other.
fn is_steps(size: u64, low: u64, high: u64) -> bool
    ensures { result ≡ is_steps_of size low high }
{
    low <= high && is_multiple(size, high - low)
}

impl Signed {
    ghost use Rattle.std.specs.Prelude.{◌≡◌, ◌<◌, ◌^◌};
    ghost use Rattle.css_selector_text.specs.reading.Numbers.{above, below};
    ghost use Rattle.css_selector_text.specs.Views.{signed_of};

    /// Returns how far the number is above 0.
    fn above(self) -> u64
        ensures value { result ≡ above (signed_of self) }
        ensures small { result < 2 ^ 32 }
    {
        if self.is_negative {
            0
        } else {
            u64::from(self.size)
        }
    }

    /// Returns how far the number is below 0.
    fn below(self) -> u64
        ensures value { result ≡ below (signed_of self) }
        ensures small { result < 2 ^ 32 }
    {
        if self.is_negative {
            u64::from(self.size)
        } else {
            0
        }
    }
}

impl Progression {
    ghost use Rattle.std.specs.Prelude.{◌≡◌, ◌↔◌, ◌<◌, ◌^◌, IsTrue};
    ghost use Rattle.css_selector_text.specs.reading.Numbers.{is_numbered, IsNumbered};
    ghost use Rattle.css_selector_text.specs.Views.{progression_of};

    /// Whether the number is A times some number from 0 on, plus B, by a division.
    fn is_reached(&self, number: u64) -> bool
        requires { number < 2 ^ 33 }
        ensures { result ≡ is_numbered (progression_of self.now) number }
    {
        let size = u64::from(self.step.size);
        let reached = number + self.offset.below();
        let above = self.offset.above();
        if self.step.is_negative {
            is_steps(size, reached, above)
        } else {
            is_steps(size, above, reached)
        }
    }

    /// Whether the number is A times some number from 0 on, plus B. Numbers of siblings are less than
    /// 2^33, and so that nothing overflows, so must the number be.
    pub fn contains(&self, number: u64) -> bool
        requires { number < 2 ^ 33 }
        ensures answer { result ≡ is_numbered (progression_of self.now) number }
        ensures means { IsTrue result ↔ IsNumbered (progression_of self.now) number }
    {
        self.is_reached(number)
    }
}
