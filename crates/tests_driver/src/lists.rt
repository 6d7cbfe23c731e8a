//! Lists of selectors on a tree.

ghost use Rattle.std.specs.Prelude.{All, IfOk, OnOk, length};
ghost use Rattle.css_tree.specs.Answered.{IsMarkedFor, SelectorIsAnswered};
ghost use Rattle.css_tree.specs.Marks.{AreMarked};

use crate::tree::{mark_texts, read_tree};
use css_elements::Tree;
use css_index::SelectorIndex;
use css_selectors::on_marked::matches_counted;
use css_selectors::{Element, Nesting, Numbering, Selector, Specificity, Tests};
use css_tree::{NumberedTree, TreeWalk};
use std::alloc::Global;
use std::io;
use std::io::{ErrorKind, Write};

/// Whether one of the selectors matches the element.
fn is_matched<E: Element>(selectors: &[Selector<'_>], element: &E) -> bool {
    selectors.iter().any(|selector| matches_counted(selector, element, &mut Tests::new()))
}

/// Writes what the selectors match.
fn write_found<W: Write>(
    out: &mut W,
    page: &NumberedTree<'_, '_>,
    selectors: &[Selector<'_>],
) -> io::Result<()> {
    if let [first, ..] = selectors {
        let counts = first.specificity();
        write!(out, "{},{},{}:", counts.ids, counts.classes, counts.names)?;
    }
    for index in 0..page.len() {
        if let Some(element) = page.node(index) {
            if is_matched(selectors, &element) {
                write!(out, " {index}")?;
            }
        }
    }
    Ok(())
}

/// Writes the list as it is serialized, with a comma and a blank between two selectors.
fn write_printed<W: Write>(out: &mut W, selectors: &[Selector<'_>]) -> io::Result<()> {
    let mut before = "\x01";
    for selector in selectors {
        write!(out, "{before}{selector}")?;
        before = ", ";
    }
    Ok(())
}

/// Answers on a page the lists that selectors ask by numbers.
fn mark(alloc: Global, page: &mut NumberedTree<'_, '_>, numbering: &Numbering<'_>) -> io::Result<()>
    ensures { OnOk result (AreMarked numbering.now.lists page.new) }
{
    match page.mark(alloc, numbering.lists(), usize::MAX) {
        Ok(()) => Ok(()),
        Err(_) => Err(io::Error::from(ErrorKind::OutOfMemory)),
    }
}

/// Writes what the selectors of a list match, and the list as it is serialized.
fn write_selectors<W: Write>(
    alloc: Global,
    out: &mut W,
    page: &mut NumberedTree<'_, '_>,
    selectors: Vec<Selector<'_>>,
) -> io::Result<()> {
    let mut printed: Vec<u8> = Vec::new(alloc);
    write_printed(&mut printed, selectors.as_slice())?;
    let mut numbering = Numbering::new(alloc);
    let selectors = numbering.number_all(alloc, selectors)?;
    mark(alloc, page, &numbering)?;
    write_found(out, page, selectors.as_slice())?;
    out.write_all(&printed)
}

/// Writes what the selectors of a list match, or why it is refused.
fn write_list<W: Write>(
    alloc: Global,
    out: &mut W,
    page: &mut NumberedTree<'_, '_>,
    list: &str,
) -> io::Result<()> {
    match Selector::parse_list(alloc, list) {
        Ok(selectors) => write_selectors(alloc, out, page, selectors)?,
        Err(refusal) => write!(out, "refused: {}: {refusal}", refusal.position_in(list))?,
    }
    out.write_all(b"\x00")
}

/// Writes the list of a nested rule as it is serialized, under a rule whose list counts two classes, or
/// why it is refused; and a NUL byte.
pub(crate) fn write_nested<W: Write>(alloc: Global, out: &mut W, list: &str) -> io::Result<()> {
    let around = Nesting {
        number: 1,
        specificity: Specificity {
            ids: 0,
            classes: 2,
            names: 0,
        },
    };
    match Selector::parse_nested_list(alloc, around, list) {
        Ok(selectors) => write_printed(out, selectors.as_slice())?,
        Err(refusal) => write!(out, "refused: {}: {refusal}", refusal.position_in(list))?,
    }
    out.write_all(b"\x00")
}

/// Numbers the elements of a tree, and marks those that have a text.
fn numbered<'p, 't>(
    alloc: Global,
    tree: &'p Tree<'t>,
    lines: &str,
) -> io::Result<NumberedTree<'p, 't>> {
    let Ok(mut page) = NumberedTree::new(alloc, tree) else {
        return Err(io::Error::from(ErrorKind::OutOfMemory));
    };
    mark_texts(&mut page, lines);
    Ok(page)
}

/// Writes for each list its first selector's specificity, a colon, the numbers of the elements that one
/// of its selectors matches, from 0 on, the byte 1, the list as it is serialized, and a NUL byte; or, if
/// it is refused, where and why.
fn write_matched<W: Write>(
    alloc: Global,
    out: &mut W,
    page: &mut NumberedTree<'_, '_>,
    lists: &str,
) -> io::Result<()> {
    for list in lists.split('\0') {
        write_list(alloc, out, page, list)?;
    }
    Ok(())
}

/// Selectors with numbers, the number of the list of each, and what they ask by numbers.
#[derive(Drop)]
struct Listed<'a> {
    selectors: Vec<Selector<'a>>,
    lists: Vec<usize>,
    numbering: Numbering<'a>,
}

/// Returns the selectors of the lists that are not refused, with numbers.
fn read_listed<'a>(alloc: Global, texts: &'a str) -> io::Result<Listed<'a>>
    ensures { IfOk result (λ all. All (SelectorIsAnswered (length all.numbering.lists)) all.selectors.items) }
{
    let mut read = Vec::new(alloc);
    let mut lists = Vec::new(alloc);
    for (list, text) in texts.split('\0').enumerate() {
        if let Ok(selectors) = Selector::parse_list(alloc, text) {
            for selector in selectors {
                read.push(selector)?;
                lists.push(list)?;
            }
        }
    }
    let mut numbering = Numbering::new(alloc);
    let selectors = numbering.number_all(alloc, read)?;
    Ok(Listed {
        selectors,
        lists,
        numbering,
    })
}

/// Writes the numbers of the lists that the selectors with these indices are of, from 0 on, and a NUL
/// byte.
fn write_lists<W: Write>(out: &mut W, lists: &[usize], indices: &[usize]) -> io::Result<()> {
    for list in indices.iter().filter_map(|index| lists.get(*index)) {
        write!(out, " {list}")?;
    }
    out.write_all(b"\x00")
}

/// Writes for each element the numbers of the lists of which one index over all of them finds a
/// selector, from 0 on, and a NUL byte.
fn write_indexed<W: Write>(
    alloc: Global,
    out: &mut W,
    page: &NumberedTree<'_, '_>,
    all: &Listed<'_>,
) -> io::Result<()> {
    let index = SelectorIndex::on_marked(alloc, all.selectors.as_slice())?;
    let mut indices = Vec::new(alloc);
    for number in 0..page.len() {
        if let Some(element) = page.node(number) {
            index.matching(&element, &mut indices)?;
        }
        write_lists(out, all.lists.as_slice(), indices.as_slice())?;
    }
    Ok(())
}

/// Writes what [`write_indexed`] does, as a walk along the page finds it.
fn write_walked<W: Write>(
    alloc: Global,
    out: &mut W,
    page: &NumberedTree<'_, '_>,
    all: &Listed<'_>,
) -> io::Result<()>
    requires { IsMarkedFor all.now.selectors.items page.now }
{
    let mut walk = TreeWalk::new(alloc, all.selectors.as_slice(), page)?;
    let mut indices = Vec::new(alloc);
    for element in 0..walk.element_count() {
        walk.matching(element, &mut indices, &mut Tests::new())?;
        write_lists(out, all.lists.as_slice(), indices.as_slice())?;
    }
    Ok(())
}

/// How selectors are found.
#[derive(Clone, Copy)]
pub(crate) enum Search {
    /// Each is tested.
    Each,
    /// By an index.
    Index,
    /// By a walk along the page.
    Walk,
}

/// Writes the answers on the tree of these lines and lists of selectors.
pub(crate) fn write_on_tree<W: Write>(
    alloc: Global,
    out: &mut W,
    search: Search,
    lines: &str,
    lists: &str,
) -> io::Result<()> {
    let tree = read_tree(alloc, lines)?;
    let mut page = numbered(alloc, &tree, lines)?;
    match search {
        Search::Each => write_matched(alloc, out, &mut page, lists),
        Search::Index => {
            let all = read_listed(alloc, lists)?;
            mark(alloc, &mut page, &all.numbering)?;
            write_indexed(alloc, out, &page, &all)
        }
        Search::Walk => {
            let all = read_listed(alloc, lists)?;
            mark(alloc, &mut page, &all.numbering)?;
            write_walked(alloc, out, &page, &all)
        }
    }
}
