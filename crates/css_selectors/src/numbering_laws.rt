//! Laws of numbering.
ghost use Rattle.std.specs.Prelude.{◌≡◌};
ghost use Rattle.css_selector_text.specs.Components.{Selector};
ghost use Rattle.css_selectors.specs.Numberings.{NumberingText, numbered_selector, SelectorAnswered};
ghost use Rattle.css_selector_text.specs.Specificities.{specificity as specificity_of};

/// A selector that is numbered has no pseudo-class left that is answered by a list without a number, and
/// its specificity is the same.
pub fn numbering_law()
    ensures answered { (n : NumberingText) (s : Selector) → SelectorAnswered (numbered_selector n s).0 }
    ensures specificity { (n : NumberingText) (s : Selector)
        → specificity_of (numbered_selector n s).0 ≡ specificity_of s }
{}
