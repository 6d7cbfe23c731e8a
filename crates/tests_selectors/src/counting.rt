//! How often elements are tested while a selector is matched, or rules are found.

use css_elements::Tree;
use css_index::{Keyed, SelectorIndex};
use css_selectors::on_marked::matches_counted;
use css_selectors::{Element, Matching, NamespacedAttribute, Selector, Tests};
use css_sheet::{SheetRule, read_sheet};
use css_tree::{NumberedNode, NumberedTree};
use std::alloc::Global;
use std::cell::Cell;
use std::test::Fail;

/// An element that counts how often it and its relatives are tested for their names.
#[derive(Drop)]
struct Counted<'a, 'n, 'p, 't> {
    node: NumberedNode<'n, 'p, 't>,
    names: &'a Cell<u64>,
}

impl<'a, 'n, 'p, 't> Element for Counted<'a, 'n, 'p, 't> {
    ghost use Rattle.std.specs.Prelude.{ℕ};
    ghost use Rattle.css_tree.specs.Pages.{Page, page_document};
    ghost use Rattle.css_tree.specs.Laws.{depths_count, earlier_count, parents_shared};

    ghost Node = { Page × ℕ };

    ghost document = { page_document };

    ghost node = { λ counted. counted.node };

    ghost depth_law = { depths_count };

    ghost earlier_law = { earlier_count };

    ghost sibling_law = { parents_shared };

    fn parent(&self) -> Option<Self> {
        let node = self.node.parent()?;
        Some(Counted {
            node,
            names: self.names,
        })
    }

    fn previous_sibling(&self) -> Option<Self> {
        let node = self.node.previous_sibling()?;
        Some(Counted {
            node,
            names: self.names,
        })
    }

    fn earlier_siblings(&self) -> u32 {
        self.node.earlier_siblings()
    }

    fn later_siblings(&self) -> u32 {
        self.node.later_siblings()
    }

    fn earlier_of_type(&self) -> u32 {
        self.node.earlier_of_type()
    }

    fn later_of_type(&self) -> u32 {
        self.node.later_of_type()
    }

    fn is_named(&self, name: &str) -> bool {
        self.names.set(self.names.get().saturating_add(1));
        self.node.is_named(name)
    }

    fn is_in_namespace(&self, number: usize) -> bool {
        self.node.is_in_namespace(number)
    }

    fn attribute(&self, name: &str) -> Option<&str> {
        self.node.attribute(name)
    }

    fn namespaced_attribute(&self, index: usize) -> Option<NamespacedAttribute<'_>> {
        self.node.namespaced_attribute(index)
    }

    fn is_in_state(&self, name: &str) -> bool {
        self.node.is_in_state(name)
    }

    fn is_in_language(&self, range: &str) -> bool {
        self.node.is_in_language(range)
    }

    fn has_content(&self) -> bool {
        self.node.has_content()
    }

    fn is_in_list(&self, number: usize) -> bool {
        self.node.is_in_list(number)
    }
}

impl<'a, 'n, 'p, 't> Keyed for Counted<'a, 'n, 'p, 't> {
    ghost use Rattle.css_tree.specs.Reports.{reported_of, keys_reported};

    ghost reported = { λ counted. reported_of counted.node };

    ghost reported_law = { λ counted. keys_reported counted.node };

    fn local_name(&self) -> &str {
        self.node.local_name()
    }

    fn attribute_count(&self) -> usize {
        self.node.attribute_count()
    }

    fn attribute_name(&self, index: usize) -> &str {
        self.node.attribute_name(index)
    }
}

/// Selectors of names, so that each test is one for a name; the answer on the last element of the
/// tree, and the number of tests. The first has as many as its bound, which is 1 for each of the
/// element and its three ancestors. The second has one for each compound selector, and the third none.
const ROWS: &[(&str, bool, u64)] = &[
    ("x c", false, 4),
    ("a > b + b ~ c", true, 4),
    ("c::before", false, 0),
];

/// Three elements `a`, each in the one before, with `b`, `b`, `b` and `c` in the last.
fn seven_elements(alloc: Global) -> Result<Tree<'static>, Fail> {
    let mut tree = Tree::new(alloc);
    tree.push(None, "a")?;
    tree.push(Some(0), "a")?;
    tree.push(Some(1), "a")?;
    for name in ["b", "b", "b", "c"] {
        tree.push(Some(2), name)?;
    }
    Ok(tree)
}

#[test]
fn counts_tests(rt: HostRuntime) -> Result<(), Fail> {
    let tree = seven_elements(rt.alloc())?;
    let Ok(page) = NumberedTree::new(rt.alloc(), &tree) else {
        return Err(Fail::from("not counted"));
    };
    for (text, answer, tests) in ROWS {
        let Ok(selector) = Selector::parse(rt.alloc(), text) else {
            return Err(Fail::from("refused"));
        };
        for is_counted in [true, false] {
            let names = Cell::new(0);
            let element = Counted {
                node: page.node(6).ok_or("no element")?,
                names: &names,
            };
            let found = if is_counted {
                matches_counted(&selector, &element, &mut Tests::new())
            } else {
                selector.matches(&element) == Some(true)
            };
            assert_eq!(rt; found, *answer, "the answer of {text}");
            assert_eq!(rt; names.get(), *tests, "the tests of {text}");
        }
    }
    Ok(())
}

/// Rules, and how often names are tested while the rules that match the last element are found by an
/// index: it tests no rule of which the element does not report a key.
const SEARCHED: &[(&str, u64)] = &[
    ("*{p:q}", 0),
    ("c{p:q}", 1),
    ("b{p:q}", 0),
    ("a c{p:q}", 2),
    ("x c{p:q}", 4),
    ("x > c{p:q}", 2),
    ("b + c{p:q} x c{r:q}", 6),
    ("a c{p:q} x c{p:q} b + c{p:q} b > a{p:q}", 8),
];

/// Returns how often names are tested while the rules are found.
fn tests_of(
    alloc: Global,
    rules: &[SheetRule<'static>],
    node: NumberedNode<'_, '_, '_>,
) -> Result<u64, Fail> {
    let names = Cell::new(0);
    let element = Counted {
        node,
        names: &names,
    };
    let index = SelectorIndex::new(alloc, rules)?.ok_or("a page is needed")?;
    index.matching(&element, &mut Vec::new(alloc))?;
    Ok(names.get())
}

#[test]
fn counts_searches(rt: HostRuntime) -> Result<(), Fail> {
    let tree = seven_elements(rt.alloc())?;
    let Ok(page) = NumberedTree::new(rt.alloc(), &tree) else {
        return Err(Fail::from("not counted"));
    };
    for (text, wanted) in SEARCHED {
        let Ok(sheet) = read_sheet(rt.alloc(), text, usize::MAX, |_, _| false) else {
            return Err(Fail::from("refused"));
        };
        let node = page.node(6).ok_or("no element")?;
        let tests = tests_of(rt.alloc(), sheet.rules.as_slice(), node)?;
        assert_eq!(rt; tests, *wanted, "the tests of {text}");
    }
    Ok(())
}
