//! Lists that have a number: of selectors of which each is of a rule in the rule of the one before, and
//! of pseudo-classes that are answered for all elements at once.

use css_elements::Tree;
use css_selectors::on_marked::matches_counted;
use css_selectors::{Element, MarkedList, Nesting, Numbering, Selector, Specificity, Tests};
use css_tree::{MarkingError, NumberedTree};
use std::alloc::Global;
use std::test::Fail;

/// The elements of a tree, each with the index of its parent, its name and its class.
const ELEMENTS: &[(Option<usize>, &str, &str)] = &[
    (None, "section", "x"),
    (Some(0), "b", ""),
    (Some(1), "c", ""),
    (Some(1), "c", "x"),
    (Some(0), "b", ""),
    (Some(4), "c", ""),
    (Some(4), "d", ""),
    (Some(6), "c", ""),
];

/// Lists, and the elements that each matches in Chromium.
const LISTS: &[(&str, &[usize])] = &[
    (".x, b", &[0, 1, 3, 4]),
    ("> c, & + &", &[2, 3, 4, 5]),
    (".x :not(&), ~ c", &[1, 3, 6, 7]),
    ("& &, .x & + &", &[3, 7]),
];

/// Selectors with `:has()` and with lists after `An+B`, and the elements that each matches, worked out by
/// hand from Selectors 4, sections 4.5 and 13.3.
const TESTED: &[(&str, &[usize])] = &[
    (":has(c)", &[0, 1, 4, 6]),
    (":has(> c)", &[1, 4, 6]),
    (":has(+ c)", &[2]),
    (":has(~ d)", &[5]),
    (":has(~ b)", &[1]),
    (":has(> d > c)", &[4]),
    (":has(d c)", &[0, 4]),
    (":has(+ b > c)", &[1]),
    (":has(> b + b)", &[0]),
    (":has(c + d c)", &[0, 4]),
    (":has(~ b d > c)", &[1]),
    (":has(> d, + c)", &[2, 4]),
    ("c:not(:has(~ c)):has(+ d)", &[5]),
    ("b:has(> c.x) + b", &[4]),
    (":not(:has(*))", &[2, 3, 5, 7]),
    ("b:has(d), section:has(> .x)", &[4]),
    (":nth-child(2 of c)", &[3]),
    (":nth-child(1 of .x)", &[0, 3]),
    (":nth-child(odd of b, d)", &[1, 6]),
    (":nth-last-child(1 of c)", &[3, 5, 7]),
    (":nth-last-child(2 of c)", &[2]),
    (":nth-last-child(-n+1 of b)", &[4]),
    (":has(> :nth-child(2 of c))", &[1]),
    (":nth-child(1 of :has(c))", &[0, 1, 6]),
    (":nth-last-child(1 of :has(c)) > d", &[6]),
];

/// Returns the tree.
fn eight_elements(alloc: Global) -> Result<Tree<'static>, Fail> {
    let mut tree = Tree::new(alloc);
    for (parent, name, class) in ELEMENTS {
        tree.push(*parent, name)?;
        tree.set_attribute("class", class)?;
    }
    Ok(tree)
}

/// Reads a list in the rule of the list of this number, or outside of rules if it is 0.
fn read_list(
    alloc: Global,
    number: usize,
    text: &'static str,
) -> Result<Vec<Selector<'static>>, Fail> {
    let around = Nesting {
        number,
        specificity: Specificity {
            ids: 0,
            classes: 1,
            names: 0,
        },
    };
    let read = match number {
        0 => Selector::parse_list(alloc, text),
        _ => Selector::parse_nested_list(alloc, around, text),
    };
    match read {
        Ok(list) => Ok(list),
        Err(_) => Err(Fail::from("refused")),
    }
}

#[test]
fn answers_each_list(rt: HostRuntime) -> Result<(), Fail> {
    let tree = eight_elements(rt.alloc())?;
    let mut lists = Vec::new(rt.alloc());
    for (number, (text, _)) in LISTS.iter().enumerate() {
        lists.push(MarkedList::Matched(read_list(rt.alloc(), number, text)?))?;
    }
    let Ok(mut page) = NumberedTree::new(rt.alloc(), &tree) else {
        return Err(Fail::from("not counted"));
    };
    let refused = page.mark(rt.alloc(), lists.as_slice(), 31);
    assert_eq!(rt;
        refused,
        Err(MarkingError::TooManyAnswers),
        "4 times 8 are more"
    );
    let marked = page.mark(rt.alloc(), lists.as_slice(), 32);
    assert_eq!(rt; marked, Ok(()), "4 times 8 are no more");
    for (list, (text, wanted)) in LISTS.iter().enumerate() {
        for index in 0..ELEMENTS.len() {
            let element = page.node(index).ok_or("no element")?;
            let found = element.is_in_list(list + 1);
            assert_eq!(rt; found, wanted.contains(&index), "{text} on {index}");
        }
    }
    Ok(())
}

/// Whether one of the selectors matches the element.
fn is_matched<E: Element>(selectors: &[Selector<'_>], element: &E) -> bool {
    for selector in selectors {
        if matches_counted(selector, element, &mut Tests::new()) {
            return true;
        }
    }
    false
}

/// Reads a list of selectors, numbers what is answered for all elements at once, and compares the elements
/// that one of the selectors matches.
fn check_tested(
    alloc: Global,
    tree: &Tree<'static>,
    text: &'static str,
    wanted: &[usize],
) -> Result<(), Fail> {
    let mut numbering = Numbering::new(alloc);
    let selectors = numbering.number_all(alloc, read_list(alloc, 0, text)?)?;
    let Ok(mut page) = NumberedTree::new(alloc, tree) else {
        return Err(Fail::from("not counted"));
    };
    let marked = page.mark(alloc, numbering.lists(), usize::MAX);
    if marked.is_err() {
        return Err(Fail::from("not marked"));
    }
    for index in 0..ELEMENTS.len() {
        let element = page.node(index).ok_or("no element")?;
        let found = is_matched(selectors.as_slice(), &element);
        if found != wanted.contains(&index) {
            return Err(Fail::from(text));
        }
    }
    Ok(())
}

#[test]
fn answers_pseudo_classes(rt: HostRuntime) -> Result<(), Fail> {
    let tree = eight_elements(rt.alloc())?;
    for (text, wanted) in TESTED {
        check_tested(rt.alloc(), &tree, text, wanted)?;
    }
    Ok(())
}
