//! What an index finds.

use crate::same::same;
use log::sink::Discard;
use simplecss::{RuleIndex, StyleSheet};
use simplecss_tree::{Nodes, Tree};
use std::alloc::Global;
use std::test::Fail;

/// Returns the number of rules that an index finds for an element of this class, and the capacity
/// of the vector after one and after two calls.
fn rooms(alloc: Global, text: &str, class: &str) -> Result<(usize, usize, usize), Fail> {
    let sheet = StyleSheet::parse(&Discard, alloc, text)?;
    let index = RuleIndex::new(alloc, &sheet.rules)?;
    let mut tree = Tree::new(alloc);
    let place = tree.push(None, "a")?;
    tree.set_attribute("class", class)?;
    let element = tree.node(place).ok_or("no element")?;
    let mut indices = Vec::new(alloc);
    index.matching(&sheet.rules, &element, &mut indices)?;
    let room = indices.capacity();
    index.matching(&sheet.rules, &element, &mut indices)?;
    Ok((indices.len(), room, indices.capacity()))
}

/// A hundred times the class of a hundred rules: the vector's capacity is for words and rules, and
/// not for each pair of them. Once it is large enough, further calls allocate nothing.
#[test]
fn a_repeated_class_takes_little_memory(rt: HostRuntime) -> Result<(), Fail> {
    let text = ".b{n:1} ".repeat(rt.alloc(), 100)?;
    let class = "b ".repeat(rt.alloc(), 100)?;
    let (count, room, later) = rooms(rt.alloc(), text.as_str(), class.as_str())?;
    same(&rt, (count, later), (100, room), "the indices");
    same(&rt, room <= 512, true, "their room");
    Ok(())
}
