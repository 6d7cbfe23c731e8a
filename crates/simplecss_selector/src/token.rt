//! The tokens of a selector.
use crate::AttributeOperator;

/// A token of a selector's text. Names and values are slices of that text.
#[derive(Clone, Copy, PartialEq, Debug)]
pub enum SelectorToken<'a> {
    /// `*`: any type.
    UniversalSelector,
    /// `name`: the type with that name.
    TypeSelector(&'a str),
    /// `.name`: a class.
    ClassSelector(&'a str),
    /// `#name`: an id.
    IdSelector(&'a str),
    /// `[name]`, `[name=value]`, `[name~=value]` or `[name|=value]`: an attribute, and a condition
    /// on its value.
    AttributeSelector(&'a str, AttributeOperator<'a>),
    /// `:name`: a pseudo-class other than `:lang`.
    PseudoClass(&'a str),
    /// `:lang(language)`: a language, without the white space at its ends.
    LangPseudoClass(&'a str),
    /// A gap with a space byte between two simple selectors: a descendant of an element that
    /// matches the first matches the second.
    DescendantCombinator,
    /// `>`: a child of an element that matches the first matches the second.
    ChildCombinator,
    /// `+`: the next sibling of an element that matches the first matches the second.
    AdjacentCombinator,
}
