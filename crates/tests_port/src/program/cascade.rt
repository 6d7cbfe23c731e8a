//! Which declaration wins on an element, for one name and for all names.

use crate::same::same;
use cssq::cascade::{winners, winning};
use cssq::tree::Page;
use log::sink::Discard;
use simplecss::StyleSheet;
use std::alloc::Global;
use std::fmt::Write;
use std::test::Fail;

/// Returns the texts of the declarations that win on the first element of the page, separated by
/// spaces. Fails if `winning` returns another for one of their names, or for the name `c`.
fn all_that_win(alloc: Global, sheet: &StyleSheet<'_>, page: &Page<'_>) -> Result<String, Fail> {
    let element = page.node(0).ok_or("no element")?;
    let all = winners(alloc, sheet, &element)?;
    let of_c = all.iter().find(|declaration| declaration.name == "c");
    if winning(sheet, &element, "c") != of_c.copied() {
        return Err(Fail::from("the two calls differ in c"));
    }
    let mut text = String::new(alloc);
    for declaration in &all {
        if winning(sheet, &element, declaration.name) != Some(*declaration) {
            return Err(Fail::from("the two calls differ"));
        }
        let gap = if text.is_empty() { "" } else { " " };
        let mark = if declaration.important { "!" } else { "" };
        write!(
            text,
            "{gap}{}:{}{mark}",
            declaration.name, declaration.value
        )?;
    }
    Ok(text)
}

#[test]
fn wins_by_index_in_an_edited_sheet(rt: HostRuntime) -> Result<(), Fail> {
    let page = Page::read(rt.alloc(), "0\ta\tclass=x")?;
    let text = "a { c:red } .x { c:blue }";
    let mut sheet = StyleSheet::parse(&Discard, rt.alloc(), text)?;
    let all = all_that_win(rt.alloc(), &sheet, &page)?;
    same(&rt, all.as_str(), "c:blue", text);
    sheet.rules.reverse();
    let all = all_that_win(rt.alloc(), &sheet, &page)?;
    same(&rt, all.as_str(), "c:red", text);
    Ok(())
}
