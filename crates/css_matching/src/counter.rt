//! A count of tests that only contracts see.
ghost use Rattle.std.specs.Prelude.{◌≡◌, ℕ, ◌+◌};
ghost use Rattle.std.specs.Borrow.{ftrue};

use std::marker::Model;

/// A number that only contracts see. It has no bytes.
#[derive(Drop)]
struct Count {
    ghost number: { ℕ },
}

impl Model for Count {
    ghost also_owns = { λ _. ftrue };
}

impl Count {
    /// Returns 0.
    fn zero() -> Count
        ensures { result.number ≡ 0 }
    {
        Count {}
    }

    /// Returns the next number.
    fn next(_before: &Count) -> Count
        ensures { result.number ≡ _before.now.number + 1 }
    {
        Count {}
    }
}

/// The number of tests of a component against an element. Contracts see the number; at run time it
/// has no bytes.
#[derive(Drop)]
pub struct Tests {
    /// The number of tests.
    count: Count,
}

impl Model for Tests {
    ghost Value = { ℕ };

    ghost view = { λ t. t.count.number };
}

impl Tests {
    /// Returns a counter at 0.
    #[inline(always)]
    pub fn new() -> Tests
        ensures { result ≡ 0 }
    {
        Tests {
            count: Count::zero(),
        }
    }

    /// Adds one test. For a function that tests an element itself, or knows the answer.
    #[inline(always)]
    pub fn tick(&mut self)
        ensures { self.new ≡ self.old + 1 }
    {
        self.count = Count::next(&self.count);
    }
}
