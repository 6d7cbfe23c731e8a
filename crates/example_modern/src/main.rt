//! An example: modern selectors on the items of a list, which are elements of its own.
#![tactic(auto)]

mod item;

use css_selectors::{Matching, Selector};
use item::{Content, Entry, Item};
use std::alloc::Global;
use std::io;

/// The items of the list.
const ITEMS: [Entry<'static>; 5] = [
    Entry {
        class: "a",
        content: Content::Text,
    },
    Entry {
        class: "b c",
        content: Content::Nothing,
    },
    Entry {
        class: "",
        content: Content::Text,
    },
    Entry {
        class: "a c",
        content: Content::Comment,
    },
    Entry {
        class: "bc",
        content: Content::Text,
    },
];

/// Selectors, of which the last two are refused.
const TEXTS: [&str; 10] = [
    ":empty",
    ":nth-child(2n+1)",
    ":last-child",
    "[class^=B i]",
    ":not(.a, .b)",
    ":where(.a, .b)",
    ".a ~ .c",
    ".\\61",
    ":nth-child(2x)",
    "[class=>a]",
];

/// Prints the selector, its specificity and the numbers of the items that it matches.
fn show_selector(rt: &impl io::Print, selector: &Selector<'_>) -> io::Result<()> {
    let counts = selector.specificity();
    print!(rt;
        "{selector} ({}, {}, {}):",
        counts.ids, counts.classes, counts.names
    )?;
    for index in 0..ITEMS.len() {
        if let Some(true) = selector.matches(&Item::new(&ITEMS, index)) {
            print!(rt; " {}", index + 1)?;
        }
    }
    println!(rt; "")
}

fn main(rt: HostRuntime) -> io::Result<()> {
    for text in TEXTS {
        match Selector::parse(rt.alloc(), text) {
            Ok(selector) => show_selector(&rt, &selector)?,
            Err(refusal) => println!(rt; "{}: {refusal}", refusal.position_in(text))?,
        }
    }
    Ok(())
}
