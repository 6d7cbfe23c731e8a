//! What an edit of a piece makes of the entry that has it.
ghost use Rattle.std.specs.Prelude.{◌≡◌};
ghost use Rattle.css_syntax.specs.Views.{item_of, prelude_of};
ghost use Rattle.css_edits.specs.Changes.{stated as stated_of, prelude_item as prelude_item_of, with_prelude as with_prelude_of};
ghost use Rattle.css_edits.specs.Changes.{value_item as value_item_of, with_value as with_value_of};
ghost use Rattle.css_edits.specs.Changes.{block_item as block_item_of, with_block as with_block_of, piece};
ghost use Rattle.css_edits.specs.internal.Views.{said_text};

use crate::edits::Change;
use crate::entries::Said;
use css_sheet::RuleKind;
use css_syntax::{AtRule, Block, Declaration, Item, Prelude};

/// Returns a text that is as good as another one.
fn stated<'a>(text: &'a str, old: &Prelude<'_>) -> Prelude<'a>
    ensures { prelude_of result ≡ stated_of text.now (prelude_of old.now) }
{
    Prelude {
        text,
        quality: old.quality,
    }
}

/// Returns an item with this text after its name, if it is an at-rule.
fn prelude_item<'a>(text: &'a str, item: Item<'a>) -> Item<'a>
    ensures { item_of result ≡ prelude_item_of text.now (item_of item.entry) }
{
    match item {
        Item::AtRule(rule) => Item::AtRule(AtRule {
            name: rule.name,
            prelude: stated(text, &rule.prelude),
            block: rule.block,
        }),
        other => other,
    }
}

/// Returns an entry with this text before the block of a rule, or after the name of an at-rule.
fn with_prelude<'a>(text: &'a str, said: Said<'a>) -> Said<'a>
    ensures { said_text result ≡ with_prelude_of text.now (said_text said.entry) }
{
    match said {
        Said::Opens(RuleKind::Style(old)) => { Said::Opens(RuleKind::Style(stated(text, &old))) }
        Said::Opens(RuleKind::Group(keyword, _)) => Said::Opens(RuleKind::Group(keyword, text)),
        Said::Closes => Said::Closes,
        Said::Holds(item) => Said::Holds(prelude_item(text, item)),
    }
}

/// Returns an item with this value, if it is a declaration.
fn value_item<'a>(text: &'a str, item: Item<'a>) -> Item<'a>
    ensures { item_of result ≡ value_item_of text.now (item_of item.entry) }
{
    match item {
        Item::Declaration(one) => Item::Declaration(Declaration {
            name: one.name,
            value: text,
            important: one.important,
            closed: true,
        }),
        other => other,
    }
}

/// Returns an entry with this value, if it is a declaration.
fn with_value<'a>(text: &'a str, said: Said<'a>) -> Said<'a>
    ensures { said_text result ≡ with_value_of text.now (said_text said.entry) }
{
    match said {
        Said::Holds(item) => Said::Holds(value_item(text, item)),
        other => other,
    }
}

/// Returns an item with a block that has this text, if it is an at-rule.
fn block_item<'a>(text: &'a str, item: Item<'a>) -> Item<'a>
    ensures { item_of result ≡ block_item_of text.now (item_of item.entry) }
{
    match item {
        Item::AtRule(rule) => Item::AtRule(AtRule {
            name: rule.name,
            prelude: rule.prelude,
            block: Some(Block { text, closed: true }),
        }),
        other => other,
    }
}

/// Returns an entry with a block that has this text, if it is an at-rule.
fn with_block<'a>(text: &'a str, said: Said<'a>) -> Said<'a>
    ensures { said_text result ≡ with_block_of text.now (said_text said.entry) }
{
    match said {
        Said::Holds(item) => Said::Holds(block_item(text, item)),
        other => other,
    }
}

/// Returns what an edit of a piece makes of an entry.
pub(crate) fn with_piece<'a>(change: Change, text: &'a str, said: Said<'a>) -> Said<'a>
    ensures { said_text result ≡ piece change text.now (said_text said.entry) }
{
    match change {
        Change::Prelude => with_prelude(text, said),
        Change::Value => with_value(text, said),
        Change::Block => with_block(text, said),
        Change::Statements | Change::Contents => said,
    }
}
