//! Texts of trees: their faults, their elements, and the answers of these.

use crate::same::same;
use cssq::tree::{Page, TreeFault};
use simplecss::{AttributeOperator, Element, PseudoClass};
use std::test::Fail;

/// The tree of the test below.
const THREE: &str = "0\ta\tid=x\tclass=u v\t=e\n1\tb\r\n1\tc\n";

/// What an element is asked.
#[derive(Clone, Copy, Debug)]
enum Asked {
    Attribute(&'static str, AttributeOperator<'static>),
    Name(&'static str),
    Class(PseudoClass<'static>),
}

/// The index of an element of the tree, what it is asked, and its answer.
const ASKED: &[(usize, Asked, bool)] = &[
    (0, Asked::Attribute("id", AttributeOperator::Exists), true),
    (
        0,
        Asked::Attribute("id", AttributeOperator::Matches("x")),
        true,
    ),
    (
        0,
        Asked::Attribute("id", AttributeOperator::Matches("")),
        false,
    ),
    (
        0,
        Asked::Attribute("class", AttributeOperator::Contains("v")),
        true,
    ),
    (
        0,
        Asked::Attribute("class", AttributeOperator::Contains("u v")),
        false,
    ),
    (
        0,
        Asked::Attribute("class", AttributeOperator::StartsWith("u")),
        false,
    ),
    (
        0,
        Asked::Attribute("", AttributeOperator::Matches("e")),
        true,
    ),
    (
        0,
        Asked::Attribute("name", AttributeOperator::Exists),
        false,
    ),
    (
        0,
        Asked::Attribute("name", AttributeOperator::Matches("")),
        false,
    ),
    (0, Asked::Name("a"), true),
    (0, Asked::Name("A"), false),
    (1, Asked::Name("b"), false),
    (1, Asked::Name("b\r"), true),
    (0, Asked::Class(PseudoClass::FirstChild), true),
    (1, Asked::Class(PseudoClass::FirstChild), true),
    (2, Asked::Class(PseudoClass::FirstChild), false),
    (0, Asked::Class(PseudoClass::Link), false),
    (0, Asked::Class(PseudoClass::Visited), false),
    (0, Asked::Class(PseudoClass::Hover), false),
    (0, Asked::Class(PseudoClass::Active), false),
    (0, Asked::Class(PseudoClass::Focus), false),
    (0, Asked::Class(PseudoClass::Lang("en")), false),
];

#[test]
fn answers_for_elements(rt: HostRuntime) -> Result<(), Fail> {
    let page = Page::read(rt.alloc(), THREE)?;
    for &(index, asked, answer) in ASKED {
        let node = page.node(index).ok_or("no node")?;
        let found = match asked {
            Asked::Attribute(key, operator) => node.attribute_matches(key, operator),
            Asked::Name(name) => node.has_local_name(name),
            Asked::Class(class) => node.pseudo_class_matches(class),
        };
        assert_eq!(rt; found, answer, "of {asked:?} for {index}");
    }
    Ok(())
}

/// Faults, and their numbers.
const NUMBERS: &[(TreeFault, u8)] = &[
    (TreeFault::BadDepth(7), 1),
    (TreeFault::EmptyName(7), 2),
    (TreeFault::NoEquals(7), 3),
    (TreeFault::RepeatedKey(7), 4),
    (TreeFault::Memory(7), 5),
];

#[test]
fn numbers_faults(rt: HostRuntime) {
    for &(fault, number) in NUMBERS {
        same(&rt, (fault.number(), fault.line()), (number, 7), "a fault");
    }
}
