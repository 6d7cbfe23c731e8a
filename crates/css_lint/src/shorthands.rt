//! What shorthands set.

use crate::vocabulary::Names;
use css_values::SHORTHANDS;
use std::alloc::{AllocError, Global};

/// A shorthand, or another name of a property.
#[derive(Drop)]
struct Row {
    /// The number of the property.
    number: usize,
    /// Whether the name has no vendor's prefix.
    is_plain: bool,
    /// The numbers of the longhands that it sets.
    longhands: Vec<usize>,
}

/// The shorthands.
#[derive(Drop)]
pub(crate) struct Shorthands {
    rows: Vec<Row>,
    /// For each row the numbers of the shorthands that set some of its longhands, and no others.
    parts: Vec<Vec<usize>>,
    /// For each number of a property one more than the index of its row, or 0.
    indices: Vec<usize>,
}

/// Returns the numbers of names, between which spaces are.
fn numbers_in(alloc: Global, names: &Names, text: &str) -> Result<Vec<usize>, AllocError> {
    let mut numbers = Vec::new(alloc);
    let mut rest = text;
    for _ in 0..text.len() {
        if rest.is_empty() {
            break;
        }
        let (name, more) = rest.split_once(' ').unwrap_or((rest, ""));
        if let Some(number) = names.find(name) {
            numbers.push(number)?;
        }
        rest = more;
    }
    Ok(numbers)
}

/// Returns the rows of a table, of a line each.
fn read_rows(alloc: Global, names: &Names, table: &str) -> Result<Vec<Row>, AllocError> {
    let mut rows = Vec::new(alloc);
    let mut rest = table;
    for _ in 0..rest.len() {
        let Some((line, more)) = rest.split_once('\n') else {
            break;
        };
        rest = more;
        let Some((name, longhands)) = line.split_once(':') else {
            continue;
        };
        if let Some(number) = names.find(name) {
            rows.push(Row {
                number,
                is_plain: !matches!(name.as_bytes(), [b'-', ..]),
                longhands: numbers_in(alloc, names, longhands)?,
            })?;
        }
    }
    Ok(rows)
}

/// Marks these numbers with this one.
fn mark(marks: &mut [usize], numbers: &[usize], with: usize) {
    for number in numbers {
        if *number < marks.len() {
            marks[*number] = with;
        }
    }
}

/// Whether a row is of a shorthand that sets some of the marked numbers, fewer than this, and no others.
fn is_part(row: &Row, marks: &[usize], with: usize, count: usize) -> bool {
    row.is_plain
        && !row.longhands.is_empty()
        && row.longhands.len() < count
        && row
            .longhands
            .iter()
            .all(|number| marks.get(*number).copied() == Some(with))
}

/// Returns the numbers of the shorthands that set some of the marked numbers and no others.
fn parts_of(
    alloc: Global,
    rows: &[Row],
    marks: &[usize],
    with: usize,
    count: usize,
) -> Result<Vec<usize>, AllocError> {
    let mut found = Vec::new(alloc);
    for row in rows {
        if is_part(row, marks, with, count) {
            found.push(row.number)?;
        }
    }
    Ok(found)
}

impl Shorthands {
    /// Returns all of these properties.
    pub(crate) fn new(alloc: Global, names: &Names) -> Result<Shorthands, AllocError> {
        let rows = read_rows(alloc, names, SHORTHANDS)?;
        let mut marks = vec![in alloc; 0; names.len()]?;
        let mut indices = vec![in alloc; 0; names.len()]?;
        let mut parts = Vec::new(alloc);
        for (index, row) in rows.iter().enumerate() {
            let with = index.saturating_add(1);
            if row.number < indices.len() {
                indices[row.number] = with;
            }
            let count = row.longhands.len();
            if count > 1 {
                mark(&mut marks, &row.longhands, with);
                parts.push(parts_of(alloc, &rows, &marks, with, count)?)?;
            } else {
                parts.push(Vec::new(alloc))?;
            }
        }
        Ok(Shorthands {
            rows,
            parts,
            indices,
        })
    }

    /// Returns the numbers of the longhands that the shorthand with this number sets, and of the shorthands
    /// that set some of these. A name with one longhand has none: it is another name of that one.
    pub(crate) fn parts(&self, number: usize) -> (&[usize], &[usize]) {
        let Some(index) = self.indices.get(number).copied() else {
            return (&[], &[]);
        };
        let at = index.wrapping_sub(1);
        match (self.rows.get(at), self.parts.get(at)) {
            (Some(row), Some(parts)) if row.longhands.len() > 1 => (&row.longhands, parts),
            _ => (&[], &[]),
        }
    }
}
