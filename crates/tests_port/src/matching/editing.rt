//! Sheets that a user edits, and whether they read back.

use crate::same::same;
use example_library::editing::{push_rule, reads_back};
use log::sink::Discard;
use simplecss::{Declaration, Selector, StyleSheet};
use std::test::Fail;

#[test]
fn edits_a_sheet(rt: HostRuntime) -> Result<(), Fail> {
    let text = "a { b:c !important; d:e } f { g:h } #i { j:k ! important }";
    let mut sheet = StyleSheet::parse(&Discard, rt.alloc(), text)?;
    for rule in sheet.rules.iter_mut() {
        rule.declarations
            .retain(|declaration| declaration.important);
    }
    sheet.rules.retain(|rule| !rule.declarations.is_empty());
    let selector = Selector::parse(&Discard, rt.alloc(), "l > .m")?.ok_or("refused")?;
    let declaration = Declaration {
        name: "n",
        value: "o",
        important: false,
    };
    push_rule(rt.alloc(), &mut sheet, selector, declaration)?;
    let printed = sheet.to_string(rt.alloc())?;
    let want = "a { b:c !important; }\n*[id='i'] { j:k !important; }\nl > *[class~='m'] { n:o; }";
    same(&rt, printed.as_str(), want, text);
    // Reading a further text sorts the rule into its order.
    sheet.parse_more(&Discard, rt.alloc(), "p { q:r }")?;
    let printed = sheet.to_string(rt.alloc())?;
    let want =
        "a { b:c !important; }\np { q:r; }\nl > *[class~='m'] { n:o; }\n*[id='i'] { j:k !important; }";
    same(&rt, printed.as_str(), want, text);
    Ok(())
}

#[test]
fn finds_which_sheets_read_back(rt: HostRuntime) -> Result<(), Fail> {
    for (text, value, wanted) in [
        ("a { b:c } #d { e:f !important }", "red", true),
        // A value that contains another rule.
        ("a { b:c }", "red; } p { q:r", false),
        // An apostrophe, which the printed selector does not escape.
        ("[a=\"b'c\"] { d:e }", "red", false),
        ("[a=\"b\\'c\"] { d:e }", "red", true),
    ] {
        let mut sheet = StyleSheet::parse(&Discard, rt.alloc(), text)?;
        for rule in sheet.rules.iter_mut() {
            for declaration in rule.declarations.iter_mut() {
                declaration.value = value;
            }
        }
        same(&rt, reads_back(rt.alloc(), &sheet)?, wanted, value);
    }
    // A sheet reads back in the order of specificity.
    let mut sheet = StyleSheet::parse(&Discard, rt.alloc(), "a { b:c } #d { e:f }")?;
    sheet.rules.reverse();
    same(&rt, reads_back(rt.alloc(), &sheet)?, false, "another order");
    Ok(())
}
