//! The items of a list of declarations, as numbers.

ghost use Rattle.std.specs.Prelude.{◌≡◌, ◌<◌, ◌^◌, ◌-◌, ◌++◌, OnOk, IfOk, length};
ghost use Rattle.css_syntax.specs.Views.{at_rule_of, declaration_of, list_part_of};
ghost use Rattle.call_answers.specs.ItemNumbers.{fault_number as fault_number_of, item_row as item_row_of};
ghost use Rattle.call_answers.specs.ItemNumbers.{declaration_row as declaration_row_of};
ghost use Rattle.call_answers.specs.ItemNumbers.{at_rule_row as at_rule_row_of, fault_row as fault_row_of};
ghost use Rattle.call_answers.specs.ItemNumbers.{item_numbers as item_numbers_of};

use css_syntax::declarations::{FoundPart, read_part};
use css_syntax::places::{at_rule_prelude, declaration_value};
use css_syntax::{AtRule, Declaration, Fault, Item};
use std::alloc::{AllocError, Global};

/// The kind of a declaration.
const DECLARATION: usize = 0;
/// The kind of an at-rule with a block.
const AT_RULE: usize = 1;
/// The kind of an at-rule without a block.
const AT_STATEMENT: usize = 2;

/// Returns the number of what is skipped for this reason.
fn fault_number(fault: Fault) -> usize
    ensures { result ≡ fault_number_of fault }
{
    match fault {
        Fault::BrokenDeclaration => 4,
        Fault::BadString => 5,
        Fault::BadUrl => 6,
        Fault::StrayBracket => 7,
        Fault::TooDeep => 8,
        Fault::NoBlock => 9,
        Fault::NestedRule => 10,
        Fault::InvalidSelector => 11,
    }
}

/// Returns the offset at which this rest of a text begins, by the offset at which the text ends.
pub fn offset_of(end: usize, rest: &str) -> usize
    requires { end < 2 ^ 63 }
    ensures is { result ≡ end - length rest.now }
    ensures short { result < 2 ^ 63 }
{
    end.saturating_sub(rest.len())
}

/// Returns how many bytes are from one place of a text to another, by what is left of it at each.
pub fn count_between(from: &str, to: &str) -> usize
    ensures is { result ≡ length from.now - length to.now }
    ensures short { result < 2 ^ 63 }
{
    from.len().saturating_sub(to.len())
}

/// Returns the numbers of a declaration of this length. It begins at `start`, and its value at `value`.
fn declaration_row(one: &Declaration<'_>, start: usize, count: usize, value: usize) -> [usize; 10]
    ensures { result ≡ declaration_row_of start count value (declaration_of one.now) }
{
    [
        DECLARATION,
        start,
        count,
        usize::from(one.closed),
        start,
        one.name.len(),
        value,
        one.value.len(),
        usize::from(one.important),
        0,
    ]
}

/// Returns the numbers of an at-rule of this length. It begins at `start`, its prelude at `prelude`, and the
/// contents of its block at `block`.
pub fn at_rule_row(
    rule: &AtRule<'_>,
    start: usize,
    count: usize,
    prelude: usize,
    block: usize,
) -> [usize; 10]
    requires { start < 2 ^ 63 }
    ensures { result ≡ at_rule_row_of start count prelude block (at_rule_of rule.now) }
{
    let (kind, closed, at, len) = match &rule.block {
        Some(found) => (AT_RULE, usize::from(found.closed), block, found.text.len()),
        None => (AT_STATEMENT, 1, 0, 0),
    };
    [
        kind,
        start,
        count,
        closed,
        start + 1,
        rule.name.len(),
        prelude,
        rule.prelude.text.len(),
        at,
        len,
    ]
}

/// Returns the numbers of what is skipped, which has this length.
pub fn fault_row(fault: Fault, start: usize, count: usize) -> [usize; 10]
    ensures { result ≡ fault_row_of start count fault }
{
    [fault_number(fault), start, count, 0, 0, 0, 0, 0, 0, 0]
}

/// Returns the numbers of an item. The text that it is in ends at this offset.
fn item_row(found: &FoundPart<'_>, end: usize) -> [usize; 10]
    requires { end < 2 ^ 63 }
    ensures { result
        ≡ item_row_of end found.now.from.now found.now.inside.now (list_part_of found.now.part) }
{
    let start = offset_of(end, found.from);
    let count = found.part.text.len();
    match &found.part.item {
        Item::Declaration(one) => {
            let value = offset_of(end, declaration_value(found.from));
            declaration_row(one, start, count, value)
        }
        Item::AtRule(rule) => {
            let prelude = offset_of(end, at_rule_prelude(found.from));
            at_rule_row(rule, start, count, prelude, offset_of(end, found.inside))
        }
        Item::Skipped(fault) => fault_row(*fault, start, count),
    }
}

/// Appends the numbers of an item. The text that it is in ends at this offset.
fn push_item(out: &mut Vec<usize>, found: &FoundPart<'_>, end: usize) -> Result<(), AllocError>
    requires { end < 2 ^ 63 }
    ensures { OnOk result (out.new.items ≡ out.old.items
        ++ item_row_of end found.now.from.now found.now.inside.now (list_part_of found.now.part)) }
{
    out.extend_from_slice(&item_row(found, end))
}

/// Returns the numbers of the items of a style attribute, or of the contents of a block, that ends at this
/// offset.
pub fn item_numbers(
    alloc: Global,
    text: &str,
    end: usize,
    in_block: bool,
) -> Result<Vec<usize>, AllocError>
    requires { end < 2 ^ 63 }
    ensures { IfOk result (λ out. out.items ≡ item_numbers_of end in_block text.now) }
{
    let mut out = Vec::new(alloc);
    let mut rest = text;
    'items: while let Some(found) = read_part(rest, in_block) {
        push_item(&mut out, &found, end)?;
        rest = found.rest;
    }
    Ok(out)
}
