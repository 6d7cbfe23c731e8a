//! The answers of the elements of the ready tree.

use crate::same::same;
use simplecss::{Element, Keyed};
use simplecss_tree::{Nodes, States, Tree, TreeError};
use std::alloc::{AllocError, Global};
use std::io;
use std::test::Fail;

/// For each element the index of its parent, its name and its attributes.
const ELEMENTS: &[(Option<usize>, &str, &[(&str, &str)])] = &[
    (None, "html", &[("lang", "en")]),
    (Some(0), "head", &[]),
    (Some(0), "a", &[("id", "x")]),
    (Some(2), "b", &[("class", "y w")]),
    (Some(2), "c", &[]),
    (Some(4), "b", &[]),
    (Some(2), "c", &[]),
    (Some(0), "d", &[("lang", "en-US")]),
    (Some(7), "e", &[]),
    (None, "f", &[("lang", "english")]),
    (Some(9), "g", &[("id", "X"), ("id", "x")]),
];

/// Two trees:
///
/// ```text
/// 0 html lang=en
///   1 head
///   2 a id=x
///     3 b class="y w"
///     4 c
///       5 b
///     6 c
///   7 d lang=en-US, under the pointer
///     8 e
/// 9 f lang=english
///   10 g id=X id=x
/// ```
fn two_trees(alloc: Global) -> Result<Tree<'static>, TreeError> {
    let mut tree = Tree::new(alloc);
    for (parent, name, attributes) in ELEMENTS {
        tree.push(*parent, name)?;
        for (name, value) in *attributes {
            tree.set_attribute(name, value)?;
        }
    }
    let mut states = States::default();
    states.hover = true;
    tree.set_states(7, states)?;
    Ok(tree)
}

/// Elements, their parents and their previous siblings, by index.
const RELATIVES: &[(usize, Option<usize>, Option<usize>)] = &[
    (0, None, None),
    (1, Some(0), None),
    (2, Some(0), Some(1)),
    (4, Some(2), Some(3)),
    (5, Some(4), None),
    (6, Some(2), Some(4)),
    (7, Some(0), Some(2)),
    (9, None, Some(0)),
    (10, Some(9), None),
];

#[test]
fn returns_relatives(rt: HostRuntime) -> Result<(), Fail> {
    let tree = two_trees(rt.alloc())?;
    for &(index, parent, previous) in RELATIVES {
        let node = tree.node(index).ok_or("no element")?;
        let above = node.parent_element().map(|n| n.index());
        let before = node.prev_sibling_element().map(|n| n.index());
        same(&rt, (above, before), (parent, previous), node.name());
    }
    Ok(())
}

#[test]
fn returns_values(rt: HostRuntime) -> Result<(), Fail> {
    let tree = two_trees(rt.alloc())?;
    let b = tree.node(3).ok_or("no element")?;
    same(&rt, (b.name(), b.local_name()), ("b", "b"), "b");
    same(
        &rt,
        (b.id_value(), b.class_value()),
        (None, Some("y w")),
        "b",
    );
    let g = tree.node(10).ok_or("no element")?;
    same(&rt, (g.id_value(), g.class_value()), (Some("X"), None), "g");
    same(
        &rt,
        (g.attribute("id"), g.attribute("ID")),
        (Some("X"), None),
        "g",
    );
    Ok(())
}

#[test]
fn answers_that_there_is_no_element(rt: HostRuntime) -> Result<(), AllocError> {
    let none = TreeError::NoElement;
    let mut tree = Tree::new(rt.alloc());
    let of = "no element";
    same(&rt, tree.set_attribute("a", "b"), Err(none), of);
    same(&rt, tree.set_states(0, States::default()), Err(none), of);
    same(&rt, tree.push(Some(0), "a"), Err(none), of);
    same(&rt, tree.node(0).is_none(), true, of);
    let of = "one element";
    same(&rt, tree.push(None, "a"), Ok(0), of);
    same(&rt, tree.push(Some(1), "b"), Err(none), of);
    same(&rt, tree.set_states(1, States::default()), Err(none), of);
    same(&rt, tree.len(), 1, of);
    let text = none.to_string(rt.alloc())?;
    same(&rt, text.as_str(), "no such element", "a tree");
    let text = io::Error::from(none).to_string(rt.alloc())?;
    same(&rt, text.as_str(), "no such element", "an error of io");
    Ok(())
}
