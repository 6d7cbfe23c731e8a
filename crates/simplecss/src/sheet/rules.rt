//! Rules of style sheets.
ghost use Rattle.std.specs.Prelude.{◌≡◌, IfOk};
ghost use Rattle.simplecss.specs.RuleViews.{rule_of};

use simplecss_declaration::Declaration;
use simplecss_selector::Selector;
use std::alloc::AllocError;

/// A rule of a style sheet: a selector, and the declarations for the elements that it matches (CSS
/// 2.1 section 4.1.7).
#[derive(Debug, Drop, PartialEq)]
pub struct Rule<'a> {
    /// Which elements the rule is for.
    pub selector: Selector<'a>,
    /// The declarations of its block, in order.
    pub declarations: Vec<Declaration<'a>>,
}

impl<'a> Rule<'a> {
    /// Returns an equal rule, in memory of the same allocator. Fails only if an allocation fails.
    pub fn clone(&self) -> Result<Self, AllocError>
        ensures { IfOk result (λ copy. rule_of copy ≡ rule_of self.now) }
    {
        Ok(Rule {
            declarations: Vec::from_slice(*self.declarations.allocator(), &self.declarations)?,
            selector: self.selector.clone()?,
        })
    }
}
