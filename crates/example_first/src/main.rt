//! An example: the program that `docs/RATTLE.md` shows.
#![tactic(auto)]

use log::sink::Discard;
use simplecss::{Selector, StyleSheet};
use simplecss_tree::{Nodes, Tree};
use std::io;

fn main(rt: HostRuntime) -> io::Result<()> {
    let alloc = rt.alloc();
    let mut sheet = StyleSheet::new(alloc);
    sheet.parse_more(
        &Discard,
        alloc,
        "p { color: green } .note { color: red !important }",
    )?;
    sheet.rules.retain(|rule| !rule.declarations.is_empty());

    let mut tree = Tree::new(alloc);
    let div = tree.push(None, "div")?;
    let p = tree.push(Some(div), "p")?;
    tree.set_attribute("class", "note")?;

    if let Some(element) = tree.node(p) {
        for rule in &sheet.rules {
            if rule.selector.matches(&element) {
                for declaration in &rule.declarations {
                    println!(rt; "{}: {}", declaration.name, declaration.value)?;
                }
            }
        }
        // None where the selector is refused.
        if let Some(selector) = Selector::parse(&Discard, alloc, "div > p:first-child")? {
            println!(rt; "{selector} {}", selector.matches(&element))?;
        }
    }
    Ok(())
}
