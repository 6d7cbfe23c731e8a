//! Style sheets, their rules, selectors and declarations.
//!
//! For each text, what it has is printed in fields, of which each ends with the byte 1; a NUL byte ends
//! the text. The fields of a statement are its kind, its name, its prelude and its block; those of an
//! item of a list are its kind, its name, its value and its flags. What is skipped has its fault in
//! place of a name, and its text. With `block` the list is that of a block. With `names` the escapes in
//! the names of declarations are decoded.
//! The fields of a rule set, which may be in group rules, are the preludes of these with a comma after
//! each, why it is dropped, its prelude and its block; those of its selectors are the text, the
//! selector that is read of it, the name of the pseudo-element, and why the rule set is dropped. With
//! `order` the rules are printed in the order of the cascade, but for those in `@media print`: the text
//! of the selector, the name of the pseudo-element and the block; with `nesting` these rules and the lists
//! that `&` stands for in them. The fields of an import are its url, decoded, its layer, its condition of
//! `supports(..)` and its media queries; if there is a layer or a condition, an equals sign is before it.
//! With `printed` and `list` the
//! declarations are printed, not in fields: each with what closes its value and a blank, or as one
//! list.

use css_selectors::{Condition, Names, Selector, Simple};
use css_sheet::{
    Import, ImportLayer, ImportUrl, RuleSelector, SheetError, SheetNamespaces, SheetReader,
    read_imports, read_listed, read_selectors, read_sheet,
};
use css_syntax::{
    AtRule, Declaration, DeclarationList, Declarations, Item, RuleSet, Statement, Statements,
    closed_value, decode, decode_string,
};
use std::alloc::Global;
use std::borrow::CowStr;
use std::io;
use std::io::Write;

/// Writes a field and the byte that ends it.
fn write_field<W: Write>(out: &mut W, text: &str) -> io::Result<()> {
    out.write_all(text.as_bytes())?;
    out.write_all(b"\x01")
}

/// Writes four fields: a kind, a name, a text and a last one.
fn write_fields<W: Write>(
    out: &mut W,
    kind: &str,
    name: &str,
    text: &str,
    last: &str,
) -> io::Result<()> {
    write_field(out, kind)?;
    write_field(out, name)?;
    write_field(out, text)?;
    write_field(out, last)
}

/// Writes an at-rule.
fn write_at_rule<W: Write>(out: &mut W, at_rule: &AtRule<'_>) -> io::Result<()> {
    match at_rule.block {
        Some(block) => {
            write_fields(
                out,
                "at-rule with block",
                at_rule.name,
                at_rule.prelude.text,
                block.text,
            )
        }
        None => write_fields(out, "at-rule", at_rule.name, at_rule.prelude.text, ""),
    }
}

/// Writes the statements of a text.
fn write_statements<W: Write>(out: &mut W, text: &str) -> io::Result<()> {
    for part in Statements::new(text) {
        match part.statement {
            Statement::RuleSet(rule) => {
                write_fields(out, "rule set", "", rule.prelude.text, rule.block.text)?;
            }
            Statement::AtRule(at_rule) => write_at_rule(out, &at_rule)?,
            Statement::Skipped(fault) => {
                write_fields(out, "skipped", fault.words(), part.text, "")?;
            }
        }
    }
    Ok(())
}

/// The flags of a declaration: whether it is important, and whether it is open.
fn flags(declaration: &Declaration<'_>) -> &'static str {
    match (declaration.important, declaration.closed) {
        (true, true) => "important",
        (true, false) => "important, open",
        (false, true) => "",
        (false, false) => "open",
    }
}

/// Writes the items of a list of declarations.
fn write_declarations<W: Write>(out: &mut W, declarations: Declarations<'_>) -> io::Result<()> {
    for part in declarations {
        match part.item {
            Item::Declaration(one) => {
                write_fields(out, "declaration", one.name, one.value, flags(&one))?;
            }
            Item::AtRule(at_rule) => write_at_rule(out, &at_rule)?,
            Item::Skipped(fault) => {
                write_fields(out, "skipped", fault.words(), part.text, "")?;
            }
        }
    }
    Ok(())
}

/// Writes the declarations of a list, with the escapes of their names decoded.
fn write_names<W: Write>(alloc: Global, out: &mut W, text: &str) -> io::Result<()> {
    for part in Declarations::new(text) {
        if let Item::Declaration(one) = part.item {
            match decode(alloc, one.name)? {
                CowStr::Borrowed(name) => {
                    write_fields(out, "as written", name, one.value, flags(&one))?;
                }
                CowStr::Owned(name) => {
                    write_fields(out, "decoded", name.as_str(), one.value, flags(&one))?;
                }
            }
        }
    }
    Ok(())
}

/// Writes the field of the preludes of the group rules that are open.
fn write_levels<W: Write>(out: &mut W, reader: &SheetReader<'_>) -> io::Result<()> {
    for level in reader.levels() {
        out.write_all(level.prelude.as_bytes())?;
        out.write_all(b",")?;
    }
    out.write_all(b"\x01")
}

/// The word for why a rule set is dropped, if it is, where its sheet declares these names.
fn drop_word(alloc: Global, names: &Names<'_>, rule: &RuleSet<'_>) -> io::Result<&'static str> {
    match read_listed(alloc, names, None, &rule.prelude)? {
        Ok(_) => Ok(""),
        Err(fault) => Ok(fault.words()),
    }
}

/// Writes the rule sets of a text and of its group rules.
fn write_rules<W: Write>(alloc: Global, out: &mut W, text: &str) -> io::Result<()> {
    let namespaces = SheetNamespaces::read(alloc, text, &[])?;
    let declared = namespaces.declare(alloc)?;
    let names = declared.names();
    let mut reader = SheetReader::new(alloc, text);
    // Each item has a byte or more.
    for _ in 0..text.len() {
        let Some(part) = reader.read_next()? else {
            break;
        };
        if let Statement::RuleSet(rule) = part.statement {
            write_levels(out, &reader)?;
            write_field(out, drop_word(alloc, &names, &rule)?)?;
            write_field(out, rule.prelude.text)?;
            write_field(out, rule.block.text)?;
        }
    }
    Ok(())
}

/// Writes a selector of a rule set.
fn write_selector<W: Write>(alloc: Global, out: &mut W, one: &RuleSelector<'_>) -> io::Result<()> {
    let read = match &one.selector {
        Some(selector) => format!(in alloc; "{selector}")?,
        None => String::new(alloc),
    };
    let pseudo_element = one.pseudo_element.unwrap_or("");
    write_fields(out, one.text, read.as_str(), pseudo_element, "")
}

/// Writes the selectors of a rule set, or why it is dropped, where its sheet declares these names.
fn write_selectors_of<W: Write>(
    alloc: Global,
    out: &mut W,
    names: &Names<'_>,
    rule: &RuleSet<'_>,
) -> io::Result<()> {
    match read_selectors(alloc, names, None, &rule.prelude) {
        Ok(Ok(selectors)) => {
            for one in &selectors {
                write_selector(alloc, out, one)?;
            }
            Ok(())
        }
        Ok(Err(fault)) => write_fields(out, rule.prelude.text, "", "", fault.words()),
        Err(error) => Err(error.into()),
    }
}

/// Writes the selectors of a text and of its group rules.
fn write_selectors<W: Write>(alloc: Global, out: &mut W, text: &str) -> io::Result<()> {
    let namespaces = SheetNamespaces::read(alloc, text, &[])?;
    let declared = namespaces.declare(alloc)?;
    let names = declared.names();
    let mut reader = SheetReader::new(alloc, text);
    // Each item has a byte or more.
    for _ in 0..text.len() {
        let Some(part) = reader.read_next()? else {
            break;
        };
        if let Statement::RuleSet(rule) = part.statement {
            write_selectors_of(alloc, out, &names, &rule)?;
        }
    }
    Ok(())
}

/// Whether a group rule holds: all do but `@media print`.
fn holds(name: &str, prelude: &str) -> bool {
    !(name.eq_ignore_ascii_case("media") && prelude.eq_ignore_ascii_case("print"))
}

/// Writes the rules of a text in the order of the cascade, or that they have more declarations than
/// these, or too many layers.
fn write_order<W: Write>(alloc: Global, out: &mut W, text: &str, most: usize) -> io::Result<()> {
    let sheet = match read_sheet(
        alloc,
        text,
        most,
        |name: &str, prelude: &str| holds(name, prelude),
    ) {
        Ok(sheet) => sheet,
        Err(SheetError::TooManyDeclarations) => {
            return write_fields(out, "too many declarations", "", "", "");
        }
        Err(SheetError::TooManyLayers) => {
            return write_fields(out, "too many layers", "", "", "");
        }
        Err(error) => return Err(error.into()),
    };
    for rule in &sheet.rules {
        let pseudo_element = rule.pseudo_element.unwrap_or("");
        write_fields(out, rule.text, pseudo_element, rule.block, "")?;
    }
    Ok(())
}

/// Returns the number of the list that `&` stands for in a selector, if it is in one of the compounds.
fn list_number(selector: &Selector<'_>) -> usize {
    for part in selector.parts() {
        for condition in &part.conditions {
            if let Condition::Simple(Simple::Nesting(list)) = condition {
                return list.number;
            }
        }
    }
    0
}

/// Writes the rules of a text in the order of the cascade: the selector without its pseudo-element, the
/// number of the list that `&` stands for in it with the offset of the block, and the block. Then the
/// selectors of each list, with the number of that in them.
fn write_nested<W: Write>(alloc: Global, out: &mut W, text: &str) -> io::Result<()> {
    let sheet = read_sheet(
        alloc,
        text,
        usize::MAX,
        |name: &str, prelude: &str| holds(name, prelude),
    )?;
    for rule in &sheet.rules {
        let selector = format!(in alloc; "{}", rule.selector)?;
        let place = format!(in alloc; "{} {}", list_number(&rule.selector), rule.start)?;
        write_fields(out, "rule", &selector, &place, rule.block)?;
    }
    for list in &sheet.lists {
        for selector in list {
            let printed = format!(in alloc; "{selector}")?;
            let number = format!(in alloc; "{}", list_number(selector))?;
            write_fields(out, "list", &printed, &number, "")?;
        }
        write_fields(out, "end", "", "", "")?;
    }
    Ok(())
}

/// Writes the url of an import, decoded.
fn write_url<W: Write>(alloc: Global, out: &mut W, url: ImportUrl<'_>) -> io::Result<()> {
    let decoded = match url {
        ImportUrl::Quoted(text) => decode_string(alloc, text)?,
        ImportUrl::Bare(text) => decode(alloc, text)?,
    };
    match decoded {
        CowStr::Borrowed(text) => write_field(out, text),
        CowStr::Owned(text) => write_field(out, text.as_str()),
    }
}

/// Writes an import.
fn write_import<W: Write>(alloc: Global, out: &mut W, import: &Import<'_>) -> io::Result<()> {
    write_url(alloc, out, import.url)?;
    match import.layer {
        ImportLayer::Unlayered => {}
        ImportLayer::Anonymous => out.write_all(b"=")?,
        ImportLayer::Named(name) => {
            out.write_all(b"=")?;
            out.write_all(name.as_bytes())?;
        }
    }
    out.write_all(b"\x01")?;
    if let Some(condition) = import.supports {
        out.write_all(b"=")?;
        out.write_all(condition.as_bytes())?;
    }
    out.write_all(b"\x01")?;
    write_field(out, import.media)
}

/// Writes the imports of a text.
fn write_imports<W: Write>(alloc: Global, out: &mut W, text: &str) -> io::Result<()> {
    let imports = read_imports(alloc, text)?;
    for import in &imports {
        write_import(alloc, out, import)?;
    }
    Ok(())
}

/// Writes a declaration, with what closes its value where the end of the text did.
fn write_closed<W: Write>(alloc: Global, out: &mut W, one: &Declaration<'_>) -> io::Result<()> {
    let Some(value) = closed_value(alloc, one.value)? else {
        return Ok(());
    };
    let whole = Declaration {
        name: one.name,
        value: value.as_str(),
        important: one.important,
        closed: true,
    };
    write!(out, "{whole} ")
}

/// Writes the declarations of a text as they are printed.
fn write_printed<W: Write>(alloc: Global, out: &mut W, text: &str) -> io::Result<()> {
    for part in Declarations::new(text) {
        if let Item::Declaration(one) = &part.item {
            write_closed(alloc, out, one)?;
        }
    }
    Ok(())
}

/// Writes the declarations of a text as one list.
fn write_list<W: Write>(alloc: Global, out: &mut W, text: &str) -> io::Result<()> {
    let mut declarations = Vec::new(alloc);
    for part in Declarations::new(text) {
        if let Item::Declaration(one) = part.item {
            declarations.push(one)?;
        }
    }
    let list = DeclarationList {
        declarations: declarations.as_slice(),
    };
    write!(out, "{list}")
}

/// What is read of a text.
#[derive(Clone, Copy)]
pub(crate) enum Part {
    Statements,
    Declarations,
    /// The declarations of a block, in which rules may be.
    Block,
    Rules,
    Names,
    Selectors,
    /// The rules, if they have at most this number of declarations.
    Order(usize),
    Nested,
    Imports,
    Printed,
    List,
}

impl Part {
    /// Returns the part that the words of the command line name.
    pub(crate) fn of(words: &[&str]) -> Option<Part> {
        match words {
            ["statements"] => Some(Part::Statements),
            ["declarations"] => Some(Part::Declarations),
            ["block"] => Some(Part::Block),
            ["rules"] => Some(Part::Rules),
            ["names"] => Some(Part::Names),
            ["selectors"] => Some(Part::Selectors),
            ["order", most] => most.parse().ok().map(Part::Order),
            ["nesting"] => Some(Part::Nested),
            ["imports"] => Some(Part::Imports),
            ["printed"] => Some(Part::Printed),
            ["list"] => Some(Part::List),
            _ => None,
        }
    }

    /// Writes what a text has.
    pub(crate) fn write<W: Write>(self, alloc: Global, out: &mut W, text: &str) -> io::Result<()> {
        match self {
            Part::Statements => write_statements(out, text)?,
            Part::Declarations => write_declarations(out, Declarations::new(text))?,
            Part::Block => write_declarations(out, Declarations::of_block(text))?,
            Part::Rules => write_rules(alloc, out, text)?,
            Part::Names => write_names(alloc, out, text)?,
            Part::Selectors => write_selectors(alloc, out, text)?,
            Part::Order(most) => write_order(alloc, out, text, most)?,
            Part::Nested => write_nested(alloc, out, text)?,
            Part::Imports => write_imports(alloc, out, text)?,
            Part::Printed => write_printed(alloc, out, text)?,
            Part::List => write_list(alloc, out, text)?,
        }
        out.write_all(b"\x00")
    }
}
