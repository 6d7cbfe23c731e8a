//! What has a selector.
use crate::Selector;

/// Something with a selector: a selector itself, or a rule.
pub trait HasSelector<'a> {
    ghost use Rattle.std.specs.Prelude.{◌≡◌};
    ghost use Rattle.css_selector_text.specs.Components.{Selector};

    ghost selector_in: { Self → Selector };

    /// Returns the selector.
    fn selector(&self) -> &Selector<'a>
        ensures { result.now ≡ selector_in self.now };
}

impl<'a> HasSelector<'a> for Selector<'a> {
    ghost selector_in = { λ selector. selector };

    #[inline(always)]
    fn selector(&self) -> &Selector<'a> {
        self
    }
}
