//! Conditions of selectors on an attribute's value.
ghost use Rattle.std.specs.Prelude.{◌≡◌, ◌<◌, ◌==◌, ℕ, length, true, false, None, IfSome};
ghost use Rattle.std.specs.Prelude.{EachIndex, slice_index};
ghost use Rattle.css_text.specs.AsciiBytes.{space};
ghost use Rattle.simplecss_selector.specs.Operators.{is_word_of};

/// A condition on an attribute's value.
#[derive(Clone, Copy, Debug, PartialEq)]
pub enum AttributeOperator<'a> {
    /// `[name]`: any value.
    Exists,
    /// `[name=text]`: the value is the text.
    Matches(&'a str),
    /// `[name~=word]`: the word is one of those that single spaces separate.
    Contains(&'a str),
    /// `[name|=text]`: the value is the text, or the text and then a hyphen.
    StartsWith(&'a str),
}

impl<'a> AttributeOperator<'a> {
    ghost use Rattle.std.specs.Prelude.{◌≡◌, ◌↔◌, IsTrue};
    ghost use Rattle.simplecss_selector.specs.OperatorViews.{operator_of};
    ghost use Rattle.simplecss_selector.specs.Operators.{is_satisfied, IsSatisfied};

    /// Whether an attribute's value satisfies the operator.
    ///
    /// Words are separated by the space 0x20 only, and there is an empty word between two spaces,
    /// before a leading one, after a trailing one and in the empty value.
    pub fn matches(&self, value: &str) -> bool
        ensures answer { result ≡ is_satisfied (operator_of self.now) value.now }
        ensures means { IsTrue result ↔ IsSatisfied (operator_of self.now) value.now }
    {
        match *self {
            AttributeOperator::Exists => true,
            AttributeOperator::Matches(text) => value == text,
            AttributeOperator::Contains(word) => has_word(value, word),
            AttributeOperator::StartsWith(start) => match value.strip_prefix(start) {
                Some(rest) => rest.is_empty() || rest.starts_with('-'),
                None => false,
            },
        }
    }
}

/// Returns the offset of the first space, if there is one. Values are short, and a plain loop is
/// faster than a search.
#[inline(always)]
fn first_space(bytes: &[u8]) -> Option<usize>
    ensures none { result ≡ None
        → EachIndex bytes.now (λ k. (slice_index bytes.now k == space) ≡ false) }
    ensures some { IfSome result (λ n. (n < length bytes.now)
        × ((slice_index bytes.now n == space) ≡ true)
        × ((k : ℕ) → k < n → (slice_index bytes.now k == space) ≡ false)) }
{
    bytes.iter().position(|byte| *byte == b' ')
}

/// Whether the word is one of those that single spaces separate in the value.
fn has_word(value: &str, word: &str) -> bool
    ensures { result ≡ is_word_of word.now value.now }
{
    let mut rest = value.as_bytes();
    'words: while let Some(end) = first_space(rest) {
        if &rest[..end] == word.as_bytes() {
            return true;
        }
        rest = &rest[end + 1..];
    }
    rest == word.as_bytes()
}
