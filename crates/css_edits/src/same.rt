//! Whether entries say the same.
ghost use Rattle.std.specs.Prelude.{◌≡◌, ◌++◌, true, drop, length, option_map};
ghost use Rattle.css_syntax.specs.Views.{prelude_of, block_of, at_rule_of, declaration_of, item_of};
ghost use Rattle.css_sheet.specs.ContentViews.{kind_of};
ghost use Rattle.css_edits.specs.internal.Views.{said_text, said_texts};

use crate::entries::{Entry, Said};
use css_sheet::RuleKind;
use css_syntax::{AtRule, Block, Declaration, Fault, Item, Prelude, Quality};

/// Whether two texts are equally good.
fn is_same_quality(one: Quality, other: Quality) -> bool
    ensures { result ≡ true → one ≡ other }
{
    one == other
}

/// Whether two faults are the same.
fn is_same_fault(one: Fault, other: Fault) -> bool
    ensures { result ≡ true → one ≡ other }
{
    one == other
}

/// Whether two preludes are the same.
fn is_same_prelude(one: &Prelude<'_>, other: &Prelude<'_>) -> bool
    ensures { result ≡ true → prelude_of one.now ≡ prelude_of other.now }
{
    one.text == other.text && is_same_quality(one.quality, other.quality)
}

/// Whether two blocks are the same, or there is none.
fn is_same_block(one: &Option<Block<'_>>, other: &Option<Block<'_>>) -> bool
    ensures { result ≡ true → option_map block_of one.now ≡ option_map block_of other.now }
{
    match (one, other) {
        (Some(one), Some(other)) => one.text == other.text && one.closed == other.closed,
        (None, None) => true,
        _ => false,
    }
}

/// Whether two at-rules are the same.
fn is_same_at_rule(one: &AtRule<'_>, other: &AtRule<'_>) -> bool
    ensures { result ≡ true → at_rule_of one.now ≡ at_rule_of other.now }
{
    one.name == other.name
        && is_same_prelude(&one.prelude, &other.prelude)
        && is_same_block(&one.block, &other.block)
}

/// Whether two declarations are the same.
fn is_same_declaration(one: &Declaration<'_>, other: &Declaration<'_>) -> bool
    ensures { result ≡ true → declaration_of one.now ≡ declaration_of other.now }
{
    one.name == other.name
        && one.value == other.value
        && one.important == other.important
        && one.closed == other.closed
}

/// Whether two items are the same.
fn is_same_item(one: &Item<'_>, other: &Item<'_>) -> bool
    ensures { result ≡ true → item_of one.now ≡ item_of other.now }
{
    match (one, other) {
        (Item::Declaration(one), Item::Declaration(other)) => is_same_declaration(one, other),
        (Item::AtRule(one), Item::AtRule(other)) => is_same_at_rule(one, other),
        (Item::Skipped(one), Item::Skipped(other)) => is_same_fault(*one, *other),
        _ => false,
    }
}

/// Whether two rules are the same.
fn is_same_kind(one: &RuleKind<'_>, other: &RuleKind<'_>) -> bool
    ensures { result ≡ true → kind_of one.now ≡ kind_of other.now }
{
    match (one, other) {
        (RuleKind::Style(one), RuleKind::Style(other)) => is_same_prelude(one, other),
        (RuleKind::Group(name, one), RuleKind::Group(other_name, other)) => {
            name == other_name && one == other
        }
        _ => false,
    }
}

/// Whether two entries say the same.
pub(crate) fn is_same(one: &Said<'_>, other: &Said<'_>) -> bool
    ensures { result ≡ true → said_text one.now ≡ said_text other.now }
{
    match (one, other) {
        (Said::Opens(one), Said::Opens(other)) => is_same_kind(one, other),
        (Said::Closes, Said::Closes) => true,
        (Said::Holds(one), Said::Holds(other)) => is_same_item(one, other),
        _ => false,
    }
}

/// Whether entries begin with what some say.
pub(crate) fn begins_with(found: &[Entry<'_>], wanted: &[Entry<'_>]) -> bool
    ensures { result ≡ true → said_texts found.now
        ≡ said_texts wanted.now ++ said_texts (drop (length wanted.now) found.now) }
{
    let mut left = wanted;
    let mut rest = found;
    'entries: while let [one, more @ ..] = left {
        match rest {
            [other, after @ ..] if is_same(&one.said, &other.said) => {
                left = more;
                rest = after;
            }
            _ => return false,
        }
    }
    true
}
