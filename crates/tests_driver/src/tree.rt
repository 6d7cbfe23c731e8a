//! Reads trees. A line is an element, in document order. Its fields, which the byte 1 separates, are its
//! depth, its name, `1` if it has a text of its own, and each attribute, as `name=value`.

use css_elements::Tree;
use css_tree::NumberedTree;
use std::alloc::Global;
use std::io;

/// Returns the text before the separator, and what is after it.
fn split_field(text: &str) -> (&str, &str) {
    match text.split_once('\x01') {
        Some((field, rest)) => (field, rest),
        None => (text, ""),
    }
}

/// Adds the attributes of the element that was added last.
fn add_attributes<'t>(tree: &mut Tree<'t>, fields: &'t str) -> io::Result<()> {
    for field in fields.split('\x01') {
        if let Some((name, value)) = field.split_once('=') {
            tree.set_attribute(name, value)?;
        }
    }
    Ok(())
}

/// Reads the tree.
pub(crate) fn read_tree<'t>(alloc: Global, lines: &'t str) -> io::Result<Tree<'t>> {
    let mut tree = Tree::new(alloc);
    // The elements that are open, from the root on.
    let mut open: Vec<usize> = Vec::new(alloc);
    for line in lines.split('\n') {
        let (depth, fields) = split_field(line);
        let (name, fields) = split_field(fields);
        let (_, attributes) = split_field(fields);
        open.truncate(depth.parse::<usize>().unwrap_or(0));
        let index = tree.push(open.last().copied(), name)?;
        open.push(index)?;
        add_attributes(&mut tree, attributes)?;
    }
    Ok(tree)
}

/// Marks the elements that have a text.
pub(crate) fn mark_texts(page: &mut NumberedTree<'_, '_>, lines: &str) {
    for (index, line) in lines.split('\n').enumerate() {
        let (_, fields) = split_field(line);
        let (_, fields) = split_field(fields);
        let (text, _) = split_field(fields);
        if text == "1" && index < page.len() {
            page.set_text(index);
        }
    }
}
