//! What elements say of sheets.

/// What an element is for the sheets of a page.
#[derive(Clone, Copy, Debug, PartialEq)]
pub enum Role {
    /// A `style` element of HTML or SVG.
    Style,
    /// A `link` of HTML.
    Link,
    /// A `base` of HTML.
    Base,
}

/// An element that says something of sheets. What an attribute that is missing stands for is empty.
#[derive(Drop)]
pub struct SheetNode {
    /// What it is.
    pub role: Role,
    /// Its number.
    pub number: usize,
    /// Where its end tag begins, or where it ends without one.
    pub place: usize,
    /// The attribute `rel`.
    pub rel: Vec<u8>,
    /// The attribute `type`.
    pub type_name: Vec<u8>,
    /// The attribute `title`.
    pub title: Vec<u8>,
    /// The attribute `href`.
    pub href: Vec<u8>,
    /// Whether it has an attribute `href`.
    pub has_href: bool,
    /// Whether it has an attribute `disabled`.
    pub is_disabled: bool,
}
