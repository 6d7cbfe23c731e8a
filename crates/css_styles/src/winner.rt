//! Declarations that win.
ghost use Rattle.std.specs.Prelude.{◌≡◌, true};
ghost use Rattle.css_styles.specs.StyleViews.{own_of};
ghost use Rattle.css_styles.specs.internal.Remembered.{no_own};

use css_syntax::Declaration;

/// Where a declaration is.
#[derive(Clone, Copy, Debug, PartialEq)]
pub enum Source {
    /// In the rule at an index.
    Rule(usize),
    /// In the style attribute of the element.
    Style,
    /// Among the presentation declarations of the element.
    Presentation,
}

/// A declaration that wins on an element.
#[derive(Clone, Copy, Debug, PartialEq)]
pub struct Winner<'a> {
    /// The declaration.
    pub declaration: Declaration<'a>,
    /// Where it is.
    pub source: Source,
    /// Its place among the declarations there: how many are before it.
    pub place: usize,
}

/// The declarations of an element that are in no rule.
#[derive(Clone, Copy, Debug, PartialEq)]
pub struct Own<'a> {
    /// The text of its style attribute, which is empty if it has none.
    pub style: &'a str,
    /// What its other attributes say, as declarations in such a text: presentational hints.
    pub presentation: &'a str,
}

impl<'a> Own<'a> {
    /// Whether both texts are empty.
    pub(crate) fn is_empty(&self) -> bool
        ensures { result ≡ true → own_of self.now ≡ no_own }
    {
        self.style.is_empty() && self.presentation.is_empty()
    }
}
