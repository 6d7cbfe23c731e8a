//! The attributes of elements that have many, by their names.
ghost use Rattle.std.specs.Prelude.{◌≡◌, ◌<◌, List, ℕ, length, map, IfOk};
ghost use Rattle.std.specs.Option.{option_map};
ghost use Rattle.css_elements.specs.Rows.{attribute_of};
ghost use Rattle.css_elements.specs.TreeNodes.{attribute_at};
ghost use Rattle.css_tree.specs.Attributes.{AreNamed, AreFound};

use css_elements::{Node, Tree};
use std::alloc::{AllocError, Global};
use std::collections::BTreeMap;

/// The most attributes of an element that are compared one after another.
const COMPARED: usize = 8;

/// Returns the value of each name among attributes: the first, where several have one name.
fn named_values<'t>(
    alloc: Global,
    attributes: &[(&'t str, &'t str)],
) -> Result<BTreeMap<&'t str, &'t str>, AllocError>
    ensures { IfOk result (λ values. AreNamed values (map attribute_of attributes.now)) }
{
    let mut values: BTreeMap<&'t str, &'t str> = BTreeMap::new(alloc);
    for after in 0..attributes.len() {
        let (name, value) = attributes[attributes.len() - 1 - after];
        values.insert(name, value)?;
    }
    Ok(values)
}

/// Returns the attributes of each element that has more than are compared, by its index.
pub(crate) fn many_attributes<'t>(
    alloc: Global,
    tree: &Tree<'t>,
) -> Result<BTreeMap<usize, BTreeMap<&'t str, &'t str>>, AllocError>
    ensures { IfOk result (λ found. AreFound tree.now found) }
{
    let mut found = BTreeMap::new(alloc);
    for index in 0..tree.len() {
        let attributes = tree.attributes(index);
        if attributes.len() > COMPARED {
            let values = named_values(alloc, attributes)?;
            found.insert(index, values)?;
        }
    }
    Ok(found)
}

/// Returns the value of an attribute of an element, if it has the attribute.
pub(crate) fn value_of<'t>(
    found: &BTreeMap<usize, BTreeMap<&'t str, &'t str>>,
    node: &Node<'_, 't>,
    name: &str,
) -> Option<&'t str>
    requires { AreFound node.now.0 found.now }
    ensures { option_map (λ value. value.now) result ≡ attribute_at node.now.0 node.now.1 name.now }
{
    match found.get(&node.index()) {
        Some(values) => values.get(name).copied(),
        None => node.attribute(name),
    }
}
