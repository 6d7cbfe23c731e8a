//! Elements that report their names.
use css_selectors::Element;

/// An element that reports its name and the names of its attributes, so that an index finds the
/// selectors that can match it. The index asks for its id and its classes by
/// `Element::attribute`.
///
/// The promise goes one way: each key that the element has is reported, but for the case of ASCII
/// letters in names. So an element whose names match without regard to case reports them in any
/// case. It may report more than it has: an index then tests more selectors, and finds the same
/// ones.
pub trait Keyed: Element {
    ghost use Rattle.std.specs.Prelude.{◌≡◌, ◌<◌, length, slice_index_or};
    ghost use Rattle.css_index.specs.Reported.{Reported, ReportsKeys};

    ghost reported: { Self → Reported };

    /// Returns the name, apart from a namespace.
    fn local_name(&self) -> &str
        ensures { result.now ≡ (reported self.now).name };

    /// Returns the number of attributes.
    fn attribute_count(&self) -> usize
        ensures { result ≡ length (reported self.now).attributes };

    /// Returns the name of the attribute at an index, apart from a namespace.
    fn attribute_name(&self, index: usize) -> &str
        requires { index < length (reported self.now).attributes }
        ensures { result.now
            ≡ slice_index_or (reported self.now).attributes index result.now };

    ghost reported_law: { (element : Self)
        → ReportsKeys Self.document (Self.node element) (reported element) };
}
