//! Pseudo-classes.

/// A pseudo-class in a selector.
#[derive(Clone, Copy, Debug, PartialEq)]
pub enum PseudoClass<'a> {
    /// `:first-child`
    FirstChild,
    /// `:link`
    Link,
    /// `:visited`
    Visited,
    /// `:hover`
    Hover,
    /// `:active`
    Active,
    /// `:focus`
    Focus,
    /// `:lang(language)`
    Lang(&'a str),
}
