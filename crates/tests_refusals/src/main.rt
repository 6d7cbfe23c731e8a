//! Makes one call of the libraries, between two marks on standard error, and shows its result. The
//! sweep in `tests/` refuses the requests for memory that are made between the marks, one after the
//! other. All calls that allocate nothing (`free`) are made before the second mark, and their
//! results are shown, too.
#![tactic(auto)]

mod free;
mod walks;

use css_index::SelectorIndex;
use css_selectors::Selector as ModernSelector;
use css_tree::NumberedTree;
use cssq::cascade::winners;
use cssq::runs::{RunFault, run_match, run_selector, run_sheet, run_style};
use cssq::tree::{Page, TreeFault};
use free::Made;
use log::Log;
use log::sink::{Discard, Memory};
use simplecss::{
    Reading, RuleIndex, RuleSearch, Selector, SheetError, StatementReader, StyleSheet, Warnings,
    find_skipped,
};
use simplecss_tree::{Tree, TreeError};
use std::alloc::{AllocError, Global};
use std::process::ExitCode;
use std::{env, io};

/// A writer that counts the bytes written.
#[derive(Drop)]
struct Counted {
    /// The number of bytes written.
    bytes: usize,
}

/// Accepts everything, and keeps nothing.
impl io::Write for Counted {
    fn write(&mut self, buf: &[u8]) -> io::Result<usize> {
        self.bytes = self.bytes.saturating_add(buf.len());
        Ok(buf.len())
    }

    fn flush(&mut self) -> io::Result<()> {
        Ok(())
    }
}

/// Marks the start of what is tried.
fn begin(rt: &HostRuntime) {
    let _ = eprint!(rt; "begin");
}

/// Makes the calls that allocate nothing, marks the end of what is tried, and shows their results.
fn end(rt: &HostRuntime, made: &Made<'_>) {
    let answers = made.answers();
    let _ = eprint!(rt; "end");
    let _ = println!(rt; "free: {answers:?}");
}

/// Reads the text as a selector.
fn show_selector<R: Log>(rt: &HostRuntime, made: &Made<'_>, log: &R, text: &str) -> io::Result<()> {
    begin(rt);
    let read = Selector::parse(log, rt.alloc(), text);
    end(rt, made);
    match read {
        Err(_) => println!(rt; "refused"),
        Ok(None) => println!(rt; "none"),
        Ok(Some(selector)) => println!(rt; "{selector}"),
    }
}

/// Reads the text as a sheet.
fn show_sheet<R: Log>(rt: &HostRuntime, made: &Made<'_>, log: &R, text: &str) -> io::Result<()> {
    begin(rt);
    let read = StyleSheet::parse(log, rt.alloc(), text);
    end(rt, made);
    match read {
        Err(_) => println!(rt; "refused"),
        Ok(sheet) => println!(rt; "{sheet}"),
    }
}

/// Reads texts into a sheet, within a limit of 100 declarations.
fn read_within<'a, R: Log>(
    sheet: &mut StyleSheet<'a>,
    log: &R,
    alloc: Global,
    texts: &[&'a str],
) -> Result<(), SheetError> {
    let how = Reading {
        report: &mut Warnings::new(log),
        most: 100,
    };
    sheet.read(how, alloc, texts)
}

/// Reads a second text into a sheet by the call of this name.
fn read_second<'a, R: Log>(
    sheet: &mut StyleSheet<'a>,
    log: &R,
    alloc: Global,
    call: &str,
    text: &'a str,
) -> Result<(), SheetError> {
    if call == "within" {
        return read_within(sheet, log, alloc, &[text]);
    }
    sheet.parse_more(log, alloc, text)?;
    Ok(())
}

/// Reads a second text into the sheet of a first one, all of it or within a limit that it does not
/// exceed. If that fails, the error and the unchanged sheet are shown, and the second text is read
/// again.
fn show_second<R: Log>(
    rt: &HostRuntime,
    made: &Made<'_>,
    log: &R,
    call: &str,
    text: &str,
    more: &str,
) -> io::Result<()> {
    let mut sheet = StyleSheet::parse(log, rt.alloc(), text)?;
    begin(rt);
    let read = read_second(&mut sheet, log, rt.alloc(), call, more);
    end(rt, made);
    if let Err(error) = read {
        println!(rt; "{error}")?;
        println!(rt; "{sheet}")?;
        read_second(&mut sheet, log, rt.alloc(), call, more)?;
    }
    println!(rt; "{sheet}")
}

/// Shows whether a copy equals the original, or that an allocation for the copy failed.
fn show_equality(rt: &HostRuntime, equal: Result<bool, AllocError>) -> io::Result<()> {
    match equal {
        Err(_) => println!(rt; "refused"),
        Ok(true) => println!(rt; "equal"),
        Ok(false) => println!(rt; "other"),
    }
}

/// Copies the sheet of the text, and each of its rules and their selectors.
fn show_copies(rt: &HostRuntime, made: &Made<'_>, text: &str) -> io::Result<()> {
    let sheet = StyleSheet::parse(&Discard, rt.alloc(), text)?;
    for rule in &sheet.rules {
        begin(rt);
        let selector = rule.selector.clone().map(|copy| copy == rule.selector);
        end(rt, made);
        show_equality(rt, selector)?;
        begin(rt);
        let copied = rule.clone().map(|copy| copy == *rule);
        end(rt, made);
        show_equality(rt, copied)?;
    }
    begin(rt);
    let copied = sheet.clone();
    end(rt, made);
    let equal = match copied {
        Ok(copy) => Ok(have_equal_rules(&copy, &sheet)),
        Err(error) => Err(error),
    };
    show_equality(rt, equal)
}

/// Whether both sheets have the same rules in the same order.
fn have_equal_rules(a: &StyleSheet<'_>, b: &StyleSheet<'_>) -> bool {
    a.rules.len() == b.rules.len() && a.rules.iter().zip(b.rules.iter()).all(|(x, y)| *x == *y)
}

/// Reads the text as a tree.
fn show_page(rt: &HostRuntime, made: &Made<'_>, text: &str) -> io::Result<()> {
    begin(rt);
    let read = Page::read(rt.alloc(), text);
    end(rt, made);
    match read {
        Err(TreeFault::Memory(line)) => println!(rt; "refused at {line}"),
        Err(fault) => println!(rt; "fault {} at {}", fault.number(), fault.line()),
        Ok(page) => println!(rt; "{} elements", page.len()),
    }
}

/// Shows the number that some calls return, or that one failed.
fn show_number<E: Drop>(rt: &HostRuntime, number: Result<usize, E>) -> io::Result<()> {
    match number {
        Err(_) => println!(rt; "refused"),
        Ok(number) => println!(rt; "{number}"),
    }
}

/// Reads all the texts into one sheet.
fn show_sheets<R: Log>(
    rt: &HostRuntime,
    made: &Made<'_>,
    log: &R,
    texts: &[&str],
) -> io::Result<()> {
    begin(rt);
    let mut sheet = StyleSheet::new(rt.alloc());
    let read = read_within(&mut sheet, log, rt.alloc(), texts);
    end(rt, made);
    match read {
        Err(_) => println!(rt; "refused"),
        Ok(()) => println!(rt; "{sheet}"),
    }
}

/// Returns the offset at which the next statement ends, if there is one.
fn next_end<R: Log>(
    reader: &mut StatementReader<'_>,
    log: &R,
    alloc: Global,
) -> Result<Option<usize>, AllocError> {
    match reader.read_next(&mut Warnings::new(log), alloc)? {
        Some(statement) => Ok(Some(statement.end)),
        None => Ok(None),
    }
}

/// Returns the sum of the offsets at which the statements of the text end.
fn statement_ends<R: Log>(log: &R, alloc: Global, text: &str) -> Result<usize, AllocError> {
    let mut reader = StatementReader::new(text);
    let mut sum = 0_usize;
    for _ in 0..=text.len() {
        match next_end(&mut reader, log, alloc)? {
            Some(end) => sum = sum.saturating_add(end),
            None => break,
        }
    }
    Ok(sum)
}

/// Returns the sum of the numbers of the rules that an index finds for each element of the page.
fn found_rules(
    alloc: Global,
    sheet: &StyleSheet<'_>,
    page: &Page<'_>,
) -> Result<usize, AllocError> {
    let index = RuleIndex::new(alloc, &sheet.rules)?;
    let mut indices = Vec::new(alloc);
    let mut sum = 0_usize;
    for node_index in 0..page.len() {
        if let Some(element) = page.node(node_index) {
            index.matching(&sheet.rules, &element, &mut indices)?;
            sum = sum.saturating_add(walks::sum_of(indices.as_slice()));
        }
    }
    Ok(sum)
}

/// Makes an index that keeps what it finds for earlier elements.
fn show_search(rt: &HostRuntime, made: &Made<'_>, text: &str) -> io::Result<()> {
    let sheet = StyleSheet::parse(&Discard, rt.alloc(), text)?;
    begin(rt);
    let search = RuleSearch::new(rt.alloc(), &sheet.rules);
    end(rt, made);
    match search {
        Err(_) => println!(rt; "refused"),
        Ok(_) => println!(rt; "room"),
    }
}

/// Finds the rules of the second and the third element of the page by an index that keeps what it
/// finds. The list of indices has room, so that only what is kept is allocated.
fn show_kept(rt: &HostRuntime, made: &Made<'_>, text: &str, tree: &str) -> io::Result<()> {
    let sheet = StyleSheet::parse(&Discard, rt.alloc(), text)?;
    let Ok(page) = Page::read(rt.alloc(), tree) else {
        return println!(rt; "no tree");
    };
    let (Some(first), Some(second)) = (page.node(1), page.node(2)) else {
        return println!(rt; "no elements");
    };
    let mut search = RuleSearch::new(rt.alloc(), &sheet.rules)?;
    let mut indices = Vec::with_capacity(rt.alloc(), 100)?;
    begin(rt);
    let mut outcome = search.matching(&sheet.rules, &first, &mut indices);
    if outcome.is_ok() {
        outcome = search.matching(&sheet.rules, &second, &mut indices);
    }
    end(rt, made);
    show_number(rt, outcome.map(|_| indices.len()))
}

/// Returns the number of declarations that win on the elements of the page.
fn winner_count(
    alloc: Global,
    sheet: &StyleSheet<'_>,
    page: &Page<'_>,
) -> Result<usize, AllocError> {
    let mut sum = 0_usize;
    for node_index in 0..page.len() {
        if let Some(element) = page.node(node_index) {
            sum = sum.saturating_add(winners(alloc, sheet, &element)?.len());
        }
    }
    Ok(sum)
}

/// Makes the calls on a sheet and a page.
fn show_found(
    rt: &HostRuntime,
    made: &Made<'_>,
    call: &str,
    text: &str,
    tree: &str,
) -> io::Result<()> {
    let sheet = StyleSheet::parse(&Discard, rt.alloc(), text)?;
    let Ok(page) = Page::read(rt.alloc(), tree) else {
        return println!(rt; "no tree");
    };
    begin(rt);
    let number = if call == "index" {
        found_rules(rt.alloc(), &sheet, &page)
    } else {
        winner_count(rt.alloc(), &sheet, &page)
    };
    end(rt, made);
    show_number(rt, number)
}

/// Makes a tree of the names, each the child of the one before, with its name as its class.
fn chain<'t>(alloc: Global, names: &[&'t str]) -> Result<Tree<'t>, TreeError> {
    let mut tree = Tree::new(alloc);
    let mut parent = None;
    for name in names {
        parent = Some(tree.push(parent, name)?);
        tree.set_attribute("class", name)?;
    }
    Ok(tree)
}

/// Returns the sum of the numbers of the selectors that an index finds for each element of the tree.
fn found_selectors(
    alloc: Global,
    selectors: &[ModernSelector<'_>],
    page: &NumberedTree<'_, '_>,
) -> Result<usize, AllocError> {
    let Some(index) = SelectorIndex::new(alloc, selectors)? else {
        return Ok(0);
    };
    let mut indices = Vec::new(alloc);
    let mut sum = 0_usize;
    for node_index in 0..page.len() {
        if let Some(element) = page.node(node_index) {
            index.matching(&element, &mut indices)?;
            sum = sum.saturating_add(walks::sum_of(indices.as_slice()));
        }
    }
    Ok(sum)
}

/// Numbers the elements of a tree of the names.
fn show_numbered(rt: &HostRuntime, made: &Made<'_>, names: &[&str]) -> io::Result<()> {
    let tree = chain(rt.alloc(), names)?;
    begin(rt);
    let page = NumberedTree::new(rt.alloc(), &tree);
    end(rt, made);
    show_number(rt, page.map(|page| page.len()))
}

/// Finds selectors for the elements of a tree of the names, by an index or by a walk.
fn show_modern(
    rt: &HostRuntime,
    made: &Made<'_>,
    call: &str,
    text: &str,
    names: &[&str],
) -> io::Result<()> {
    let Ok(selectors) = ModernSelector::parse_list(rt.alloc(), text) else {
        return println!(rt; "no selectors");
    };
    let tree = chain(rt.alloc(), names)?;
    let Ok(page) = NumberedTree::new(rt.alloc(), &tree) else {
        return println!(rt; "no tree");
    };
    begin(rt);
    let sum = if call == "tree_walk" {
        walks::found_selectors(rt.alloc(), selectors.as_slice(), &page)
    } else {
        found_selectors(rt.alloc(), selectors.as_slice(), &page)
    };
    end(rt, made);
    show_number(rt, sum)
}

/// Finds rules by a walk along a tree of the names.
fn show_rule_walk(rt: &HostRuntime, made: &Made<'_>, text: &str, names: &[&str]) -> io::Result<()> {
    let sheet = StyleSheet::parse(&Discard, rt.alloc(), text)?;
    let tree = chain(rt.alloc(), names)?;
    begin(rt);
    let sum = walks::found_rules(rt.alloc(), &sheet.rules, &tree);
    end(rt, made);
    show_number(rt, sum)
}

/// Shows how a run ended, and how many bytes it wrote.
fn show_run(rt: &HostRuntime, outcome: Result<(), RunFault>, out: &Counted) -> io::Result<()> {
    let bytes = out.bytes;
    match outcome {
        Err(RunFault::Memory) => println!(rt; "refused after {bytes} bytes"),
        Err(fault) => println!(rt; "{fault} after {bytes} bytes"),
        Ok(()) => println!(rt; "{bytes} bytes"),
    }
}

/// Makes the call that the words name, on their texts.
fn show<R: Log>(rt: &HostRuntime, made: &Made<'_>, log: &R, words: &[&str]) -> io::Result<()> {
    let mut out = Counted { bytes: 0 };
    match words {
        ["selector", text] => show_selector(rt, made, log, text),
        ["sheet", text] => show_sheet(rt, made, log, text),
        [call @ ("more" | "within"), text, more] => show_second(rt, made, log, call, text, more),
        ["copies", text] => show_copies(rt, made, text),
        ["page", text] => show_page(rt, made, text),
        ["sheets", texts @ ..] => show_sheets(rt, made, log, texts),
        ["statements", text] => {
            begin(rt);
            let sum = statement_ends(log, rt.alloc(), text);
            end(rt, made);
            show_number(rt, sum)
        }
        ["skipped", text] => {
            begin(rt);
            let parts = find_skipped(rt.alloc(), text).map(|parts| parts.len());
            end(rt, made);
            show_number(rt, parts)
        }
        [call @ ("index" | "winners"), text, tree] => show_found(rt, made, call, text, tree),
        ["search", text] => show_search(rt, made, text),
        ["kept", text, tree] => show_kept(rt, made, text, tree),
        ["tree", names @ ..] => {
            begin(rt);
            let tree = chain(rt.alloc(), names);
            end(rt, made);
            show_number(rt, tree.map(|tree| tree.len()))
        }
        ["numbered", names @ ..] => show_numbered(rt, made, names),
        [call @ ("modern" | "tree_walk"), text, names @ ..] => {
            show_modern(rt, made, call, text, names)
        }
        ["rule_walk", text, names @ ..] => show_rule_walk(rt, made, text, names),
        ["run_selector", text] => {
            begin(rt);
            let outcome = run_selector(log, rt.alloc(), text, &mut out);
            end(rt, made);
            show_run(rt, outcome, &out)
        }
        ["run_sheet", texts @ ..] => {
            begin(rt);
            let outcome = run_sheet(log, rt.alloc(), texts, &mut out);
            end(rt, made);
            show_run(rt, outcome, &out)
        }
        ["run_match", text, tree] => {
            begin(rt);
            let outcome = run_match(log, rt.alloc(), text, tree, &mut out);
            end(rt, made);
            show_run(rt, outcome, &out)
        }
        ["run_style", text, tree, name] => {
            begin(rt);
            let outcome = run_style(log, rt.alloc(), text, tree, name, &mut out);
            end(rt, made);
            show_run(rt, outcome, &out)
        }
        _ => println!(rt; "no such call"),
    }
}

/// The arguments are a logger (`kept` keeps what it gets, `lost` does not), the call, and its texts.
fn main(rt: HostRuntime) -> Result<ExitCode, io::Error> {
    let owned: Vec<String> = env::args(&rt)?.skip(1).collect(rt.alloc())?;
    let words: Vec<&str> = owned.iter().map(|word| word.as_str()).collect(rt.alloc())?;
    let Ok(made) = Made::new(rt.alloc()) else {
        return Ok(ExitCode::FAILURE);
    };
    match words.as_slice() {
        ["kept", others @ ..] => show(&rt, &made, &Memory::new(rt.alloc()), others)?,
        ["lost", others @ ..] => show(&rt, &made, &Discard, others)?,
        _ => println!(&rt; "no such logger")?,
    }
    Ok(ExitCode::SUCCESS)
}
