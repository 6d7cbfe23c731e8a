//! Values that are put together.
ghost use Rattle.std.specs.Prelude.{◌≡◌, ◌+◌, OnOk, length, nat_le};
ghost use Rattle.css_values.specs.Substitution.{first_byte as first_byte_of, is, nothing, then_value};
ghost use Rattle.css_values.specs.Substitution.{invalid, outcome_in_place, seam as seam_of, written};
ghost use Rattle.css_values.specs.Views.{draft_of, value_of};

use crate::seams::joins;
use std::alloc::{AllocError, Global};

/// A text that was put together from tokens.
#[derive(Debug, Drop)]
pub struct Value {
    /// The text.
    pub text: String,
    /// The byte with which its last token begins, or a blank if it is empty.
    pub last: u8,
    /// Whether a reference was replaced after what was written last.
    pub replaced: bool,
}

/// A value that is being put together.
#[derive(Drop)]
pub(crate) struct Draft {
    /// What was put together.
    pub value: Value,
    /// Whether it is valid so far.
    pub valid: bool,
}

/// Returns the first byte, or a blank.
pub(crate) fn first_byte(text: &str) -> u8
    ensures { result ≡ first_byte_of text.now }
{
    match text.as_bytes() {
        [] => b' ',
        [byte, ..] => *byte,
    }
}

/// Whether texts of these lengths are together at most as long as the limit.
fn fits(one: usize, two: usize, three: usize, limit: usize) -> bool
    ensures { result ≡ nat_le (one + (two + three)) limit }
{
    one <= limit && two <= limit - one && three <= limit - one - two
}

impl Draft {
    /// Returns one of which nothing is put together.
    pub(crate) fn new(alloc: Global) -> Draft
        ensures { draft_of result ≡ is nothing }
    {
        Draft {
            value: Value {
                text: String::new(alloc),
                last: b' ',
                replaced: false,
            },
            valid: true,
        }
    }

    /// Makes it invalid.
    pub(crate) fn fail(&mut self)
        ensures { draft_of self.new ≡ invalid }
    {
        self.valid = false;
    }

    /// Returns what is to be between what was put together and this text.
    fn seam(&self, text: &str, replaced: bool) -> &'static str
        ensures { result.now ≡ seam_of (value_of self.now.value)
            (record { text = text.now; last = 0; replaced = replaced }) }
    {
        if (self.value.replaced || replaced) && joins(self.value.last, text) {
            "/**/"
        } else {
            ""
        }
    }

    /// Appends a text, whose last token begins with this byte, and which replaces a reference or is as
    /// written. A value that becomes longer than the limit is invalid.
    pub(crate) fn add(
        &mut self,
        limit: usize,
        text: &str,
        last: u8,
        replaced: bool,
    ) -> Result<(), AllocError>
        ensures { OnOk result (draft_of self.new ≡ then_value limit (draft_of self.old)
            (is (record { text = text.now; last = last; replaced = replaced }))) }
    {
        if !self.valid {
            return Ok(());
        }
        let seam = self.seam(text, replaced);
        if !fits(self.value.text.len(), seam.len(), text.len(), limit) {
            self.valid = false;
            return Ok(());
        }
        self.value.text.push_str(seam)?;
        self.value.text.push_str(text)?;
        if text.is_empty() {
            self.value.replaced = self.value.replaced || replaced;
        } else {
            self.value.last = last;
            self.value.replaced = replaced;
        }
        Ok(())
    }

    /// Appends a token as it is written.
    pub(crate) fn add_written(&mut self, limit: usize, text: &str) -> Result<(), AllocError>
        ensures { OnOk result (draft_of self.new
            ≡ then_value limit (draft_of self.old) (is (written text.now))) }
    {
        self.add(limit, text, first_byte(text), false)
    }

    /// Appends what a fallback comes to.
    pub(crate) fn add_fallback(&mut self, limit: usize, inner: &Draft) -> Result<(), AllocError>
        ensures { OnOk result (draft_of self.new
            ≡ then_value limit (draft_of self.old) (outcome_in_place (draft_of inner.now))) }
    {
        if inner.valid {
            self.add(limit, &inner.value.text, inner.value.last, true)
        } else {
            self.fail();
            Ok(())
        }
    }
}
