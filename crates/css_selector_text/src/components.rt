//! The components of a selector. Names and values are without the escapes that spell them.
use crate::specificity::{NOTHING, Specificity};
use css_matching::Combinator;
use std::borrow::CowStr;

/// How an attribute's value is compared with the text of a selector.
#[derive(Clone, Copy, Debug, PartialEq)]
pub enum Comparison {
    /// `=`: the value is the text.
    Equals,
    /// `~=`: the text is one of the words of the value.
    HasWord,
    /// `|=`: the value is the text, or the text and then a hyphen.
    HasSubtag,
    /// `^=`: the value starts with the text.
    Starts,
    /// `$=`: the value ends with the text.
    Ends,
    /// `*=`: the text occurs in the value.
    Contains,
}

/// A number and its sign.
#[derive(Clone, Copy, Debug, PartialEq)]
pub struct Signed {
    /// Whether the sign is a minus.
    pub is_negative: bool,
    /// How far the number is from 0.
    pub size: u32,
}

/// `An+B`: every A-th sibling from the B-th on.
#[derive(Clone, Copy, Debug, PartialEq)]
pub struct Progression {
    /// A.
    pub step: Signed,
    /// B.
    pub offset: Signed,
}

/// A structural pseudo-class, or `:scope`.
#[derive(Clone, Copy, Debug, PartialEq)]
pub enum Structure {
    /// `:root`
    Root,
    /// `:scope`: an element that is in the list of number 0.
    Scope,
    /// `:empty`
    Empty,
    /// `:first-child`
    FirstChild,
    /// `:last-child`
    LastChild,
    /// `:only-child`
    OnlyChild,
    /// `:first-of-type`
    FirstOfType,
    /// `:last-of-type`
    LastOfType,
    /// `:only-of-type`
    OnlyOfType,
    /// `:nth-child(..)`
    NthChild(Progression),
    /// `:nth-last-child(..)`
    NthLastChild(Progression),
    /// `:nth-of-type(..)`
    NthOfType(Progression),
    /// `:nth-last-of-type(..)`
    NthLastOfType(Progression),
}

/// What siblings a pseudo-class with `An+B` numbers.
#[derive(Clone, Copy)]
pub(crate) enum Numbering {
    /// `:nth-child(..)`
    Child,
    /// `:nth-last-child(..)`
    LastChild,
    /// `:nth-of-type(..)`
    OfType,
    /// `:nth-last-of-type(..)`
    LastOfType,
}

/// A functional pseudo-class without a list of selectors.
#[derive(Clone, Copy)]
pub(crate) enum Function {
    /// One with `An+B`.
    Numbered(Numbering),
    /// `:lang(..)`
    Language,
}

/// A pseudo-class with a list of complex selectors.
#[derive(Clone, Copy)]
pub(crate) enum ListKind {
    /// `:not(..)`
    Not,
    /// `:is(..)`
    Is,
    /// `:where(..)`
    Where,
    /// `:has(..)`
    Has,
}

/// A condition on an attribute.
#[derive(Drop)]
pub struct AttributeTest<'a> {
    /// The name of the attribute.
    pub name: CowStr<'a>,
    /// How its value is compared.
    pub comparison: Comparison,
    /// What it is compared with.
    pub text: CowStr<'a>,
    /// Whether the case of ASCII letters is ignored.
    pub ignores_case: bool,
}

/// What namespace a name is in.
#[derive(Drop)]
pub enum Namespace<'a> {
    /// `|`: none.
    Absent,
    /// `*|`: any.
    Any,
    /// `prefix|`: that of the prefix, which has this number.
    Prefix(CowStr<'a>, usize),
    /// The default one, which has this number. It is not written.
    Default(usize),
}

/// What is in a namespace: a type selector, or an attribute selector.
#[derive(Drop)]
pub enum Local<'a> {
    /// `*`
    Universal,
    /// A name.
    TypeName(CowStr<'a>),
    /// `[name]`
    HasAttribute(CowStr<'a>),
    /// `[name=text]` and the like
    Attribute(AttributeTest<'a>),
    /// A `*` that is not written: a compound selector without a type selector is in the default
    /// namespace.
    Implied,
}

/// A type or attribute selector with a namespace.
#[derive(Drop)]
pub struct Namespaced<'a> {
    /// The namespace.
    pub namespace: Namespace<'a>,
    /// The selector without it.
    pub local: Local<'a>,
}

/// A pseudo-class with an argument that is kept as it is written.
#[derive(Drop)]
pub struct FunctionCall<'a> {
    /// The name of the pseudo-class.
    pub name: CowStr<'a>,
    /// What is in its parentheses, as written, without blanks at either end.
    pub argument: CowStr<'a>,
}

/// The name of a pseudo-element.
#[derive(Drop)]
pub struct ElementName<'a> {
    /// The name.
    pub name: CowStr<'a>,
    /// What is in its parentheses, if it has any, as written, without blanks at either end.
    pub argument: Option<CowStr<'a>>,
}

/// What a pseudo-class asks of its list.
#[derive(Clone, Copy, Debug, PartialEq)]
pub enum ListTest {
    /// `:has(..)`
    Has,
    /// `:nth-child(An+B of ..)`
    NthChild(Progression),
    /// `:nth-last-child(An+B of ..)`
    NthLastChild(Progression),
}

/// What `&` stands for: a list of selectors.
#[derive(Clone, Copy, Debug, PartialEq)]
pub struct Nesting {
    /// The number of the list, of which `Element::is_in_list` is asked.
    pub number: usize,
    /// What `&` counts: the greatest specificity of the list's selectors.
    pub specificity: Specificity,
}

/// What `&` stands for outside of nested rules: `:scope`.
pub const OUTERMOST: Nesting = Nesting {
    number: 0,
    specificity: NOTHING,
};

/// A simple selector that has no other selectors in it.
#[derive(Drop)]
pub enum Simple<'a> {
    /// `*`
    Universal,
    /// A name.
    TypeName(CowStr<'a>),
    /// `#id`
    Id(CowStr<'a>),
    /// `.class`
    Class(CowStr<'a>),
    /// `[name]`
    HasAttribute(CowStr<'a>),
    /// `[name=text]` and the like
    Attribute(AttributeTest<'a>),
    /// A structural pseudo-class.
    Structure(Structure),
    /// `:lang(..)`, with its language ranges.
    Language(Vec<CowStr<'a>>),
    /// Any other pseudo-class without an argument, by its name.
    State(CowStr<'a>),
    /// Any other pseudo-class with an argument. Of these elements satisfy `:dir(ltr)` and `:dir(rtl)` only.
    Function(FunctionCall<'a>),
    /// A pseudo-element after another one. No element satisfies it.
    Element(ElementName<'a>),
    /// `&`, with the list that it stands for.
    Nesting(Nesting),
    /// A type or attribute selector with a namespace. A default namespace does not apply to attributes.
    Namespaced(Namespaced<'a>),
}

/// A simple selector, or a pseudo-class with a list of complex selectors.
#[cycle(lists)]
#[derive(Drop)]
pub enum Condition<'a> {
    /// A simple selector.
    Simple(Simple<'a>),
    /// `:not(..)`
    Not(Vec<Complex<'a>>),
    /// `:is(..)`
    Is(Vec<Complex<'a>>),
    /// `:where(..)`
    Where(Vec<Complex<'a>>),
    /// A pseudo-class that is answered for all elements of a document at once, by a list that has a
    /// number. Until then no element satisfies it.
    Tested(ListTest, Vec<Complex<'a>>),
}

/// A compound selector, and how it is joined to the one before it.
#[cycle(lists)]
#[derive(Drop)]
pub struct Part<'a> {
    /// How it is joined to the one before it. In a list of `:has()` the first one is joined so to the
    /// element that is asked. Of any other first one this says nothing.
    pub combinator: Combinator,
    /// What an element must satisfy.
    pub conditions: Vec<Condition<'a>>,
}

/// A complex selector in a list: compound selectors joined by combinators.
#[cycle(lists)]
#[derive(Drop)]
pub struct Complex<'a> {
    /// The compound selectors, from left to right. A selector of none matches nothing.
    pub parts: Vec<Part<'a>>,
}

/// A pseudo-element at the end of a selector.
#[derive(Drop)]
pub struct PseudoElement<'a> {
    /// Its name.
    pub element: ElementName<'a>,
    /// What follows it: pseudo-classes and further pseudo-elements.
    pub after: Vec<Condition<'a>>,
}
