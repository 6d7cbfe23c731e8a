//! Pages with style sheets in their `style` attributes, by texts and numbers that callers in any language pass.
#![tactic(auto)]

pub mod calls;
