//! Open elements, as numbers of keys.
ghost use Rattle.std.specs.Prelude.{◌≡◌, ◌<◌, ◌↔◌, ◌∷◌, [], IfOk, OnOk, OnErr, All, IsTrue};
ghost use Rattle.css_open_elements.specs.Opened.{IsOpen, IsOfLast, all_but_last};

use crate::numbers::Numbers;
use std::alloc::{AllocError, Global};
use std::marker::Model;

/// Open elements, each as the numbers of the keys that it has.
#[derive(Drop)]
pub struct OpenElements {
    /// The numbers of all open elements, in the order in which they were opened.
    numbers: Numbers,
    /// For each open element, how many numbers there were before it.
    marks: Vec<usize>,
}

impl Model for OpenElements {
    ghost use Rattle.std.specs.Prelude.{◌≡◌, [], reverse};
    ghost use Rattle.css_open_elements.specs.Opened.{Path, opened_of};
    ghost use Rattle.css_open_elements.specs.internal.{AreMarks};

    ghost Value = { Path };

    ghost view = { λ path. record {
      size = path.numbers.size;
      opened = opened_of (reverse path.marks.items) path.numbers.listed;
    } };

    ghost invariant = { λ path. AreMarks (reverse path.marks.items) path.numbers.listed };
}

impl OpenElements {
    /// Returns a path with no open element; keys have numbers below `size`.
    pub fn new(alloc: Global, size: usize) -> Result<OpenElements, AllocError>
        ensures size { IfOk result (λ path. path.size ≡ size) }
        ensures none { IfOk result (λ path. path.opened ≡ []) }
    {
        Ok(OpenElements {
            numbers: Numbers::new(alloc, size)?,
            marks: Vec::new(alloc),
        })
    }

    /// Opens an element that has the keys with these numbers. Its parent is the one that was opened
    /// last. After an error the path is as before.
    pub fn enter(&mut self, numbers: &[usize]) -> Result<(), AllocError>
        requires { All (λ number. number < self.old.size) numbers.now }
        ensures size { self.new.size ≡ self.old.size }
        ensures opened { OnOk result (self.new.opened ≡ numbers.now ∷ self.old.opened) }
        ensures err { OnErr result (self.new ≡ self.old) }
    {
        let mark = self.numbers.len();
        self.numbers.add_all(numbers)?;
        if let Err(error) = self.marks.push(mark) {
            self.numbers.close_to(mark);
            return Err(error.into());
        }
        Ok(())
    }

    /// Closes the element that was opened last, if one is open.
    pub fn leave(&mut self)
        ensures size { self.new.size ≡ self.old.size }
        ensures opened { self.new.opened ≡ all_but_last self.old.opened }
    {
        if let Some(mark) = self.marks.pop() {
            self.numbers.close_to(mark);
        }
    }

    /// Whether an open element has the key with this number.
    #[inline(always)]
    pub fn is_open(&self, number: usize) -> bool
        ensures { IsTrue result ↔ IsOpen self.now.opened number }
    {
        self.numbers.is_since(number, 0)
    }

    /// Whether the element that was opened last has the key with this number.
    #[inline(always)]
    pub fn is_of_last(&self, number: usize) -> bool
        ensures { IsTrue result ↔ IsOfLast self.now.opened number }
    {
        match self.marks.last() {
            Some(mark) => self.numbers.is_since(number, *mark),
            None => false,
        }
    }
}
