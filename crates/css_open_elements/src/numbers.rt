//! A list of numbers that reports whether a number is in its last part.
ghost use Rattle.std.specs.Prelude.{◌≡◌, ◌<◌, ◌++◌, ◌∷◌, ◌↔◌, [], IfOk, OnOk, OnErr, take, drop, length, All};
ghost use Rattle.std.specs.Prelude.{Contains, IsTrue};

use std::alloc::{AllocError, Global};
use std::marker::Model;

/// Numbers in the order in which they were added. Whether one is after a place in the list is found in
/// constant time.
#[derive(Drop)]
pub struct Numbers {
    /// For each number, the index after that of its last occurrence, or 0.
    lasts: Vec<usize>,
    /// The numbers, each with what `lasts` had for it before.
    listed: Vec<(usize, usize)>,
}

impl Model for Numbers {
    ghost use Rattle.std.specs.Prelude.{length};
    ghost use Rattle.css_open_elements.specs.Opened.{Numbers};
    ghost use Rattle.css_open_elements.specs.internal.{numbers_of, AreLasts};

    ghost Value = { Numbers };

    ghost view = { λ n. record { size = length n.lasts.items; listed = numbers_of n.listed.items } };

    ghost invariant = { λ n. AreLasts n.lasts.items n.listed.items };
}

impl Numbers {
    /// Returns an empty list of numbers below `size`.
    pub fn new(alloc: Global, size: usize) -> Result<Numbers, AllocError>
        ensures size { IfOk result (λ numbers. numbers.size ≡ size) }
        ensures none { IfOk result (λ numbers. numbers.listed ≡ []) }
    {
        let lasts = Vec::from_elem(alloc, 0, size)?;
        Ok(Numbers {
            lasts,
            listed: Vec::new(alloc),
        })
    }

    /// Returns how many numbers are listed. Pass it to `close_to` to return to this state.
    pub fn len(&self) -> usize
        ensures { result ≡ length self.now.listed }
    {
        self.listed.len()
    }

    /// Appends a number.
    pub fn add(&mut self, number: usize) -> Result<(), AllocError>
        requires { number < self.old.size }
        ensures listed { OnOk result (self.new.listed ≡ self.old.listed ++ number ∷ []) }
        ensures size { self.new.size ≡ self.old.size }
        ensures err { OnErr result (self.new ≡ self.old) }
    {
        let before = self.lasts[number];
        self.listed.push((number, before))?;
        self.lasts[number] = self.listed.len();
        Ok(())
    }

    /// Removes the numbers after the first `len`.
    pub fn close_to(&mut self, len: usize)
        ensures closed { self.new.listed ≡ take len self.old.listed }
        ensures size { self.new.size ≡ self.old.size }
    {
        'close: while self.listed.len() > len {
            if let Some((number, before)) = self.listed.pop() {
                self.lasts[number] = before;
            }
        }
    }

    /// Appends each of the numbers, or none after an `Err`.
    pub fn add_all(&mut self, numbers: &[usize]) -> Result<(), AllocError>
        requires { All (λ number. number < self.old.size) numbers.now }
        ensures listed { OnOk result (self.new.listed ≡ self.old.listed ++ numbers.now) }
        ensures size { self.new.size ≡ self.old.size }
        ensures err { OnErr result (self.new ≡ self.old) }
    {
        let len = self.len();
        for number in numbers {
            if let Err(error) = self.add(*number) {
                self.close_to(len);
                return Err(error);
            }
        }
        Ok(())
    }

    /// Whether a number is after the first `len`.
    #[inline(always)]
    pub fn is_since(&self, number: usize, len: usize) -> bool
        ensures { IsTrue result ↔ Contains (drop len self.now.listed) number }
    {
        match self.lasts.get(number) {
            Some(last) => len < *last,
            None => false,
        }
    }
}
