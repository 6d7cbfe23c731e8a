//! Declarations.

/// A declaration of a rule: a property, the text of its value, and whether `!important` follows it
/// (CSS 2.1 sections 4.1.8 and 6.4.2).
#[derive(Clone, Copy, Debug, PartialEq)]
pub struct Declaration<'a> {
    /// The name of the property.
    pub name: &'a str,
    /// The text of the value, without white space at either end.
    pub value: &'a str,
    /// Whether the declaration is important.
    pub important: bool,
}
