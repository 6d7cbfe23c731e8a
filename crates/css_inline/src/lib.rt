//! Style sheets written into the `style` attributes of a page in HTML, as mail is prepared.
//!
//! The sheets are those that are given, and then those of the page's own `style` elements. A declaration is
//! written on each element that its rule matches, in the order of the cascade and before those of the
//! element's own, unless a rule that stays may say something else of the same family of properties there: then all
//! of that family stays in the sheets for this element. What depends on a state of the page, on a condition, or on
//! more than the tree stays in its `style` element. So what wins on an element is the same before and after.
#![tactic(auto)]

mod deciding;
mod elements;
mod families;
pub mod inlining;
mod known;
mod page_styles;
mod planning;
mod sheets;
mod traits;
