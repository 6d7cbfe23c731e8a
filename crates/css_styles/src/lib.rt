//! Which declarations win on the elements of a page: the cascade (CSS Cascading 5, section 6) of style
//! sheets, of style attributes and of presentational hints.
//!
//! [`StyleRules`] has the rules of sheets, [`Styles`] walks along a page with them, and for each element
//! returns the declarations that win. The page is marked with the lists that the rules' selectors ask by numbers, for
//! `&`, `:has()` and `An+B of S`. On a tree of one's own, where the rules that match an element are found in another
//! way, [`StyleRules::winners_named`] finds what wins by these.
//!
//! ```text
//! let rules = StyleRules::read(alloc, &[text], most, |name, prelude| holds(name, prelude))?;
//! page.mark(alloc, rules.lists(), most)?;
//! let mut styles = Styles::new(alloc, &rules, &page)?;
//! let mut found = Vec::new(alloc);
//! for element in 0..page.len() {
//!     let own = Own { style: "color: red", presentation: "" };
//!     styles.winners(element, own, &mut found, &mut Tests::new())?;
//! }
//! ```
#![tactic(auto)]

mod asked;
mod contenders;
mod contest;
mod decide;
mod finder;
mod floors;
mod gathering;
mod laws;
mod matched_rules;
mod numbered_rules;
mod properties;
mod settling;
mod stated;
mod style_rules;
mod styles;
mod winner;

pub use laws::{one_law, rollback_law};
pub use style_rules::StyleRules;
pub use styles::Styles;
pub use winner::{Own, Source, Winner};
