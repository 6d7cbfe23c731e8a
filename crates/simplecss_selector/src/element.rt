//! Elements, which selectors are matched against.
use crate::{AttributeOperator, PseudoClass};

/// An element of a document. Each value denotes a node of a tree, and its answers depend only on
/// that node and on the texts of the arguments.
///
/// The crate `simplecss_tree` has a ready tree. To make elements of your own match, keep them in a
/// list, each with the indices of its parent and of its previous sibling, and write in your
/// `specs/` what a list says of an index. For entries with a name, an id and a class, in the crate
/// `example_library`:
///
/// <!-- from crates/example_library/specs/OwnTree.antt -->
/// ```text
/// abbrev pub entry_list : ListOf (List Entry)
/// entry_list = record {
///   parent = named_parent;
///   previous_sibling = named_previous;
///   is_named = λ entries i name. bytes_eq (name_at entries i) name;
///   has_attribute =
///       λ entries i name operator.
///       option_map_or (is_satisfied operator) (value_at entries i name) false;
///   is_in_pseudo_class = is_in;
/// }
/// ```
///
/// A node is a list and an index in it. `Rattle.simplecss.specs.ListTrees` proves both laws for
/// every such list: a parent counts only if its index is less, and a previous sibling only if its
/// index is less and it has the same parent. So `parent_of` and `previous_of` look both up:
///
/// <!-- from crates/example_library/src/own_tree.rt -->
/// ```text
/// impl<'t> Element for Spot<'t> {
///     ghost Node = { List Entry × ℕ };
///
///     ghost tree = { list_tree entry_list };
///
///     ghost node = { λ spot. (spot.entries.now, spot.index) };
///
///     ghost depth_law = { list_counts_ancestors entry_list };
///
///     ghost sibling_law = { list_shares_parents entry_list };
///
///     fn parent_element(&self) -> Option<Self> {
///         let entries = self.entries;
///         let index = parent_of(entries, self.index)?;
///         Some(Spot { entries, index })
///     }
///
///     fn prev_sibling_element(&self) -> Option<Self> {
///         let entries = self.entries;
///         let index = previous_of(entries, self.index)?;
///         Some(Spot { entries, index })
///     }
///
///     fn has_local_name(&self, name: &str) -> bool {
///         self.entries[self.index].name == name
///     }
///
///     fn attribute_matches(&self, local_name: &str, operator: AttributeOperator<'_>) -> bool {
///         match self.value(local_name) {
///             Some(value) => operator.matches(value),
///             None => false,
///         }
///     }
///
///     fn pseudo_class_matches(&self, class: PseudoClass<'_>) -> bool {
///         match class {
///             PseudoClass::FirstChild => previous_of(self.entries, self.index).is_none(),
///             _ => false,
///         }
///     }
/// }
/// ```
///
/// Mark the short functions `#[inline(always)]`, since they are called often. If nodes are not
/// indices of a list, write the record of `Rattle.simplecss.specs.Trees` yourself, and prove its
/// two laws.
pub trait Element: Drop {
    ghost use Rattle.std.specs.Prelude.{◌≡◌, Option, option_map};
    ghost use Rattle.simplecss_selector.specs.Trees.{Tree, DepthCountsAncestors};
    ghost use Rattle.simplecss_selector.specs.Trees.{SiblingsShareParent};
    ghost use Rattle.simplecss_selector.specs.OperatorViews.{operator_of, pseudo_class_of};

    ghost Node: { Type 0 };

    ghost tree: { Tree Node };

    ghost node: { Self → Node };

    /// Returns the parent, if there is one.
    fn parent_element(&self) -> Option<Self>
        ensures { option_map node result ≡ tree.parent (node self.now) };

    /// Returns the sibling directly before this element, if there is one.
    fn prev_sibling_element(&self) -> Option<Self>
        ensures { option_map node result ≡ tree.previous_sibling (node self.now) };

    /// Whether this is the element's name, apart from a namespace.
    fn has_local_name(&self, name: &str) -> bool
        ensures { result ≡ tree.is_named (node self.now) name.now };

    /// Whether there is an attribute with this name whose value satisfies the operator.
    fn attribute_matches(&self, local_name: &str, operator: AttributeOperator<'_>) -> bool
        ensures { result
            ≡ tree.has_attribute (node self.now) local_name.now (operator_of operator.entry) };

    /// Whether the element is in the pseudo-class.
    fn pseudo_class_matches(&self, class: PseudoClass<'_>) -> bool
        ensures { result ≡ tree.is_in_pseudo_class (node self.now) (pseudo_class_of class.entry) };

    ghost depth_law: { DepthCountsAncestors tree };

    ghost sibling_law: { SiblingsShareParent tree };
}
