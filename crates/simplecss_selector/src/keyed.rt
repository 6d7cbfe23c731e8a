//! Elements that report by what an index finds selectors: name, id, class and attributes.
use crate::Element;

/// An element that reports its name, its id, its class and which attributes it has, so that an index
/// finds the selectors that can match it without testing it for each name, id and class of the
/// selectors.
///
/// The promise goes one way: if the element matches a name, an id, a class or an attribute, it reports
/// that name, that id, a class value with that word, or that it has the attribute. It may report more
/// than it matches: an index then tests more selectors, and finds the same ones. An element whose names match without case cannot
/// promise this, since it matches names that it does not report. It implements only `Element`, and
/// each selector is tested against it.
///
/// To implement it, write `reported`, what an element reports, and prove `reported_law` in your
/// `specs/`: for each kind of key, every key that the node has is reported.
/// `Rattle.simplecss.specs.Keys` has `Reported`, `ReportsKeys` and the keys. For entries with a
/// name, an id and a class:
///
/// <!-- from crates/example_library/src/own_tree.rt -->
/// ```text
/// impl<'t> Keyed for Spot<'t> {
///     ghost reported = { λ spot. reported_at (spot.entries.now, spot.index) };
///
///     ghost reported_law = { λ spot. keys_reported (spot.entries.now, spot.index) };
///
///     fn local_name(&self) -> &str {
///         self.entries[self.index].name
///     }
///
///     fn id_value(&self) -> Option<&str> {
///         self.value("id")
///     }
///
///     fn class_value(&self) -> Option<&str> {
///         self.value("class")
///     }
///
///     fn has_attribute(&self, name: &str) -> bool {
///         self.value(name).is_some()
///     }
/// }
/// ```
pub trait Keyed: Element {
    ghost use Rattle.std.specs.Prelude.{◌≡◌, option_map};
    ghost use Rattle.simplecss_selector.specs.Keys.{Reported, ReportsKeys};

    ghost reported: { Self → Reported };

    /// Returns the name, apart from a namespace.
    fn local_name(&self) -> &str
        ensures { result.now ≡ (reported self.now).name };

    /// Returns the value of the attribute `id`, if there is one.
    fn id_value(&self) -> Option<&str>
        ensures { option_map (λ value. value.now) result ≡ (reported self.now).id };

    /// Returns the value of the attribute `class`, if there is one.
    fn class_value(&self) -> Option<&str>
        ensures { option_map (λ value. value.now) result ≡ (reported self.now).class };

    /// Whether there is an attribute with this name.
    fn has_attribute(&self, name: &str) -> bool
        ensures { result ≡ (reported self.now).has_attribute name.now };

    ghost reported_law: { (element : Self)
        → ReportsKeys Self.tree (Self.node element) (reported element) };
}
