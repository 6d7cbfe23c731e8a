//! Elements, which selectors are matched against.

/// An attribute that is in a namespace.
#[derive(Clone, Copy)]
pub struct NamespacedAttribute<'a> {
    /// The number of its namespace, which is not 0.
    pub namespace: usize,
    /// Its name, without a prefix.
    pub name: &'a str,
    /// Its value.
    pub value: &'a str,
}

/// An element of a document, with all that modern selectors ask. Each value denotes a node, and its
/// answers depend only on that node and on the texts of the arguments.
///
/// Elements alone are siblings: texts and comments are not counted. The numbers of siblings are asked
/// for `:nth-child()` and the like, so a document of many siblings keeps them.
pub trait Element: Drop {
    ghost use Rattle.std.specs.Prelude.{◌≡◌, ◌<◌, ◌^◌, Option, option_map, length, slice_get};
    ghost use Rattle.css_matching.specs.Trees.{Counts, SiblingsShareParent};
    ghost use Rattle.css_selectors.specs.Documents.{Document, shape};
    ghost use Rattle.css_selectors.specs.ElementViews.{namespaced_attribute_of};

    ghost Node: { Type 0 };

    ghost document: { Document Node };

    ghost node: { Self → Node };

    /// Returns the parent, if there is one.
    fn parent(&self) -> Option<Self>
        ensures { option_map node result ≡ document.parent (node self.now) };

    /// Returns the sibling directly before this element, if there is one.
    fn previous_sibling(&self) -> Option<Self>
        ensures { option_map node result ≡ document.previous_sibling (node self.now) };

    /// Returns the number of siblings before this element.
    fn earlier_siblings(&self) -> u32
        ensures { result ≡ document.earlier (node self.now) };

    /// Returns the number of siblings after this element.
    fn later_siblings(&self) -> u32
        ensures { result ≡ document.later (node self.now) };

    /// Returns the number of siblings before this element that have its type.
    fn earlier_of_type(&self) -> u32
        ensures { result ≡ document.earlier_of_type (node self.now) };

    /// Returns the number of siblings after this element that have its type.
    fn later_of_type(&self) -> u32
        ensures { result ≡ document.later_of_type (node self.now) };

    /// Whether this is the element's name, apart from a namespace.
    fn is_named(&self, name: &str) -> bool
        ensures { result ≡ document.is_named (node self.now) name.now };

    /// Whether the element is in the namespace of this number, which is that of a declaration. Of 0 a
    /// selector asks whether the element is in no namespace.
    fn is_in_namespace(&self, number: usize) -> bool
        ensures { result ≡ document.is_in_namespace (node self.now) number };

    /// Returns the value of the attribute with this name that is in no namespace, if there is one.
    fn attribute(&self, name: &str) -> Option<&str>
        ensures { option_map (λ value. value.now) result
            ≡ document.attribute (node self.now) name.now };

    /// Returns the attribute at an index among those of the element that are in a namespace, if there is one.
    /// A selector asks for them one after another, from index 0 on.
    fn namespaced_attribute(&self, index: usize) -> Option<NamespacedAttribute<'_>>
        ensures answer { option_map namespaced_attribute_of result
            ≡ slice_get (document.namespaced_attributes (node self.now)) index }
        ensures few { length (document.namespaced_attributes (node self.now)) < 2 ^ 64 };

    /// Whether the element is in the state of this name, as `hover` or `checked`. The name is as the
    /// selector has it; names of states are the same in any case. A name that the element does not know
    /// is no state of it. `:dir(ltr)` tests the state `dir(ltr)`, and `:dir(rtl)` the state `dir(rtl)`.
    fn is_in_state(&self, name: &str) -> bool
        ensures { result ≡ document.is_in_state (node self.now) name.now };

    /// Whether the element's language is in the language range, as `en`, `*-CH` or an empty text.
    fn is_in_language(&self, range: &str) -> bool
        ensures { result ≡ document.is_in_language (node self.now) range.now };

    /// Whether there is an element or a text that is not empty in this element. Comments are no content,
    /// white space is.
    fn has_content(&self) -> bool
        ensures { result ≡ document.has_content (node self.now) };

    /// Whether one of the selectors of the list of this number matches the element. By number 0 a
    /// selector asks whether the element is the scoping root, which `:scope` and `&` outside of nested
    /// rules are: that is the element from which one searches, or else the root. Only lists that were
    /// numbered for `&` have other numbers; of any else the answer is no.
    fn is_in_list(&self, number: usize) -> bool
        ensures { result ≡ document.is_in_list (node self.now) number };

    ghost depth_law: { Counts document.parent document.depth };

    ghost earlier_law: { Counts document.previous_sibling document.earlier };

    ghost sibling_law: { SiblingsShareParent (shape document) };
}
