//! Which declarations win by the rules that match an element.
ghost use Rattle.std.specs.Prelude.{◌≡◌, ◌<◌, [], OnErr, OnOk, length, map, option_map};
ghost use Rattle.std.specs.List.{All};
ghost use Rattle.css_styles.specs.Contenders.{contenders};
ghost use Rattle.css_styles.specs.StyleViews.{names_of, own_of, winner_of};
ghost use Rattle.css_styles.specs.Winners.{AreWinners};

use crate::asked::find_asked;
use crate::gathering::gather;
use crate::{Own, StyleRules, Winner};
use std::alloc::{AllocError, Global};

impl<'a> StyleRules<'a> {
    /// Finds for each of these properties the declaration that wins on an element that the rules with these indices
    /// match, and that has these of its own, as [`Styles::winners_named`](crate::Styles::winners_named) does. No selector
    /// is asked. The previous items of `found` are dropped. Fails only if an allocation fails; then no items are left.
    pub fn winners_named(
        &self,
        alloc: Global,
        matching: &[usize],
        own: Own<'a>,
        asked: &[&[&str]],
        found: &mut Vec<Option<Winner<'a>>>,
    ) -> Result<(), AllocError>
        requires { All (λ index. index < length self.now.rules) matching.now }
        ensures winners { OnOk result (AreWinners (contenders self.now.rules matching.now (own_of own.entry))
            (names_of asked.now) (map (option_map winner_of) found.new.items)) }
        ensures err { OnErr result (found.new.items ≡ []) }
    {
        found.clear();
        let mut all = Vec::new(alloc);
        gather(alloc, self, matching, own, &mut all)?;
        find_asked(alloc, asked, &all, &mut Vec::new(alloc), found)
    }
}
