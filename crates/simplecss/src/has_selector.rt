//! What has a selector.
use crate::sheet::Rule;
use simplecss_selector::Selector;

/// Something with a selector: a selector itself, or a rule.
pub trait HasSelector<'a> {
    ghost use Rattle.std.specs.Prelude.{◌≡◌, List};
    ghost use Rattle.simplecss_grammar.specs.Components.{Component};

    ghost selector_in: { Self → List Component };

    /// Returns the selector.
    fn selector(&self) -> &Selector<'a>
        ensures { result.now ≡ selector_in self.now };
}

impl<'a> HasSelector<'a> for Selector<'a> {
    ghost selector_in = { λ selector. selector };

    #[inline(always)]
    fn selector(&self) -> &Selector<'a> {
        self
    }
}

impl<'a> HasSelector<'a> for Rule<'a> {
    ghost selector_in = { λ rule. rule.selector };

    #[inline(always)]
    fn selector(&self) -> &Selector<'a> {
        &self.selector
    }
}
