//! Why the text of a tree has a fault, and what of its lines is likely not meant.
use cssq::tree::TreeFault;
use std::alloc::{AllocError, Global};
use std::collections::BTreeSet;
use std::fmt;

/// What is wrong with a line of a tree, with the field.
#[derive(Clone, Copy, Debug, PartialEq)]
pub(crate) enum LineFault<'t> {
    /// The line is empty.
    EmptyLine,
    /// A byte order mark is before the depth.
    ByteOrderMark,
    /// The first field is no number.
    NoNumber(&'t str),
    /// The depth begins with a zero.
    LeadingZero(&'t str),
    /// The first line has a depth that is not 0.
    FirstDepth(&'t str),
    /// The depth is more than one deeper than that of the line before, which comes second.
    TooDeep(&'t str, &'t str),
    /// Nothing follows the depth.
    NoName(&'t str),
    /// The name is empty.
    EmptyName,
    /// An attribute is empty: two TABs, or one at the end.
    EmptyField,
    /// An attribute has no `=`.
    NoEquals(&'t str),
    /// A key comes a second time.
    RepeatedKey(&'t str),
    /// An allocation failed.
    Memory,
}

/// Prints the fault without the name of the tree and the line.
impl fmt::Display for LineFault<'_> {
    fn fmt<W: fmt::Write>(&self, f: &mut fmt::Formatter<W>) -> fmt::Result {
        match *self {
            LineFault::EmptyLine => f.write_str("the line is empty"),
            LineFault::ByteOrderMark => f.write_str("a byte order mark is before the depth"),
            LineFault::NoNumber(field) => {
                write!(
                    f,
                    "the depth '{field}' is no number (a TAB belongs after it)"
                )
            }
            LineFault::LeadingZero(field) => write!(f, "the depth '{field}' begins with a zero"),
            LineFault::FirstDepth(field) => {
                write!(
                    f,
                    "the depth '{field}' is not 0, as that of the first line is"
                )
            }
            LineFault::TooDeep(field, above) => {
                write!(
                    f,
                    "the depth '{field}' is more than one deeper than '{above}'"
                )
            }
            LineFault::NoName(field) => {
                write!(
                    f,
                    "no name follows the depth '{field}' (a TAB belongs between them)"
                )
            }
            LineFault::EmptyName => f.write_str("the name is empty"),
            LineFault::EmptyField => f.write_str(
                "an attribute is empty (two TABs, or one at the end)",
            ),
            LineFault::NoEquals(field) => write!(f, "the attribute '{field}' has no '='"),
            LineFault::RepeatedKey(key) => write!(f, "the key '{key}' comes a second time"),
            LineFault::Memory => f.write_str("an allocation failed"),
        }
    }
}

/// Returns what is wrong with the line that a fault of the tree's text names.
pub(crate) fn fault_of_line(alloc: Global, text: &str, fault: TreeFault) -> LineFault<'_> {
    let number = fault.line();
    let line = line_at(text, number);
    match fault {
        TreeFault::BadDepth(_) => fault_of_depth(text, number, line),
        TreeFault::EmptyName(_) => match line.split_once('\t') {
            Some(_) => LineFault::EmptyName,
            None => LineFault::NoName(shown(line)),
        },
        TreeFault::NoEquals(_) => fault_of_field(line),
        TreeFault::RepeatedKey(_) => match repeated_key(alloc, line) {
            Ok(key) => LineFault::RepeatedKey(key),
            Err(_) => LineFault::Memory,
        },
        TreeFault::Memory(_) => LineFault::Memory,
    }
}

/// Whether a line of the tree ends in CR LF.
pub(crate) fn has_crlf(text: &str) -> bool {
    text.contains("\r\n")
}

/// Returns the line of a number, the first being 1.
fn line_at(text: &str, number: usize) -> &str {
    text.split('\n').nth(number.saturating_sub(1)).unwrap_or("")
}

/// Returns the depth of a line, its first field.
fn depth_of(line: &str) -> &str {
    match line.split_once('\t') {
        Some((depth, _)) => depth,
        None => line,
    }
}

/// Returns a field as it is quoted: without a carriage return at its end.
fn shown(field: &str) -> &str {
    field.strip_suffix('\r').unwrap_or(field)
}

/// Returns what is wrong with the depth of a line, which has a number.
fn fault_of_depth<'t>(text: &'t str, number: usize, line: &'t str) -> LineFault<'t> {
    let field = shown(depth_of(line));
    if shown(line).is_empty() {
        LineFault::EmptyLine
    } else if field.starts_with('\u{feff}') {
        LineFault::ByteOrderMark
    } else if field.is_empty() || !field.bytes().all(|byte| byte.is_ascii_digit()) {
        LineFault::NoNumber(field)
    } else if field.starts_with('0') && field != "0" {
        LineFault::LeadingZero(field)
    } else if number <= 1 {
        LineFault::FirstDepth(field)
    } else {
        LineFault::TooDeep(field, depth_of(line_at(text, number.saturating_sub(1))))
    }
}

/// Returns what is wrong with the first attribute of a line that has no `=`.
fn fault_of_field(line: &str) -> LineFault<'_> {
    let field = line.split('\t').skip(2).find(|field| !field.contains('='));
    match shown(field.unwrap_or("")) {
        "" => LineFault::EmptyField,
        field => LineFault::NoEquals(field),
    }
}

/// Returns the first key of a line that comes a second time.
fn repeated_key(alloc: Global, line: &str) -> Result<&str, AllocError> {
    let mut keys = BTreeSet::new(alloc);
    for field in line.split('\t').skip(2) {
        let key = match field.split_once('=') {
            Some((key, _)) => key,
            None => field,
        };
        if !keys.insert(key)? {
            return Ok(key);
        }
    }
    Ok("")
}
