//! The contents of blocks, a part at a time and in place (CSS Syntax 3, editor's draft, "consume a
//! block's contents"; CSS Nesting 1).
ghost use Rattle.std.specs.Prelude.{◌≡◌, option_map, true, IfSome};
ghost use Rattle.css_syntax.specs.Blocks.{at_rule_begun, at_rule_opened, rule_opened, or_opened};
ghost use Rattle.css_syntax.specs.Blocks.{block_part, next_block_part, listed_rule, rule_part};
ghost use Rattle.css_syntax.specs.Blocks.{next_rule_part};
ghost use Rattle.css_syntax.specs.DeclarationLists.{declaration};
ghost use Rattle.css_syntax.specs.DeclarationLists.{past_separators as past_separators_of};
ghost use Rattle.css_syntax.specs.Statements.{past_between as past_between_of};
ghost use Rattle.css_syntax.specs.Views.{declared_by, parts_of};
ghost use Rattle.css_syntax.specs.BlockViews.{block_part_of};

use crate::declarations::{
    Declaration, Item, begins_custom, past_broken, past_separators, read_declaration,
};
use crate::parts::{Parts, read_parts};
use crate::quality::Fault;
use crate::statements::{
    AtRule, Prelude, at_rule_ends, begins_at_rule, past_between, prelude_from, rule_set_ends,
};
use crate::texts::{front, past_byte, past_gap, past_word};
use css_text::readers;

/// A part of the contents of a block.
#[derive(Clone, Copy, Debug, PartialEq)]
pub enum BlockPart<'a> {
    /// A declaration, an at-rule without a block, or what is skipped.
    Listed(Item<'a>),
    /// A rule begins, and its contents follow.
    OpensRule(Prelude<'a>),
    /// An at-rule with a block begins, by its name and its prelude, and its contents follow.
    OpensAtRule(&'a str, Prelude<'a>),
    /// The brace that closes the block.
    Closes,
}

/// A part of the contents of a block, and where it is.
#[derive(Clone, Copy)]
pub struct FoundBlockPart<'a> {
    /// The part.
    pub part: BlockPart<'a>,
    /// What is left from the part on.
    pub from: &'a str,
    /// The rest after it.
    pub rest: &'a str,
}

/// A part and the rest after it.
#[derive(Clone, Copy)]
struct Opened<'a> {
    part: BlockPart<'a>,
    rest: &'a str,
}

/// Begins an at-rule, by what follows its prelude.
fn begin_at_rule<'a>(name: &'a str, parts: Parts<'a>) -> Opened<'a>
    ensures { at_rule_begun name.now (parts_of parts.entry) parts.entry.rest.now
        ≡ (block_part_of result.part, result.rest.now) }
{
    let prelude = prelude_from(&parts);
    if readers::starts(parts.rest, b'{') {
        Opened {
            part: BlockPart::OpensAtRule(name, prelude),
            rest: past_byte(parts.rest, b'{'),
        }
    } else {
        Opened {
            part: BlockPart::Listed(Item::AtRule(AtRule {
                name,
                prelude,
                block: None,
            })),
            rest: past_byte(parts.rest, b';'),
        }
    }
}

/// Reads an at-rule up to its block, from its `@` on. In a block, its closing brace ends it, too.
#[tactic(auto, using(crate::proofs::PartTexts::word_ends), unfolding(crate::specs::Blocks::at_rule_opened))]
fn open_at_rule(text: &str, in_block: bool) -> Opened<'_>
    ensures { at_rule_opened in_block text.now ≡ (block_part_of result.part, result.rest.now) }
{
    let start = past_byte(text, b'@');
    let after = past_word(start);
    begin_at_rule(
        front(start, after),
        read_parts(at_rule_ends(in_block), past_gap(after)),
    )
}

/// Begins a nested rule, by what follows what may be its prelude. Of a custom property none begins.
fn begin_rule(custom: bool, fault: Fault, parts: Parts<'_>) -> Opened<'_>
    ensures { rule_opened custom fault (parts_of parts.entry) parts.entry.rest.now
        ≡ (block_part_of result.part, result.rest.now) }
{
    if !readers::starts(parts.rest, b'{') {
        Opened {
            part: BlockPart::Listed(Item::Skipped(fault)),
            rest: parts.rest,
        }
    } else if custom {
        Opened {
            part: BlockPart::Listed(Item::Skipped(fault)),
            rest: past_broken(parts.rest, true),
        }
    } else {
        Opened {
            part: BlockPart::OpensRule(prelude_from(&parts)),
            rest: past_byte(parts.rest, b'{'),
        }
    }
}

/// Ends a declaration that was read, or begins a rule at the same text.
fn or_open<'a>(text: &'a str, read: Result<(Declaration<'a>, &'a str), Fault>) -> Opened<'a>
    ensures { or_opened text.now (declared_by read.entry)
        ≡ (block_part_of result.part, result.rest.now) }
{
    match read {
        Ok((declaration, rest)) => Opened {
            part: BlockPart::Listed(Item::Declaration(declaration)),
            rest,
        },
        Err(fault) => begin_rule(
            begins_custom(text),
            fault,
            read_parts(at_rule_ends(true), text),
        ),
    }
}

/// Reads a part of the block of a style rule, from its start on.
#[tactic(auto, unfolding(crate::specs::Blocks::block_part))]
fn read_block_part(text: &str) -> Opened<'_>
    ensures { block_part text.now ≡ (block_part_of result.part, result.rest.now) }
{
    if begins_at_rule(text.as_bytes()) {
        open_at_rule(text, true)
    } else {
        or_open(text, read_declaration(text, true))
    }
}

/// Reads the next part of the block of a style rule, after what is before it. The text follows the
/// opening brace or another part.
#[tactic(auto, unfolding(crate::specs::Blocks::next_block_part))]
pub fn read_next_block_part(text: &str) -> Option<FoundBlockPart<'_>>
    ensures read { next_block_part text.now
        ≡ option_map (λ found. (block_part_of found.part, found.rest.now)) result }
    ensures from { IfSome result (λ found. found.from.now ≡ past_separators_of text.now) }
{
    let from = past_separators(text);
    if from.is_empty() {
        return None;
    }
    let opened = if readers::starts(from, b'}') {
        Opened {
            part: BlockPart::Closes,
            rest: past_byte(from, b'}'),
        }
    } else {
        read_block_part(from)
    };
    Some(FoundBlockPart {
        part: opened.part,
        from,
        rest: opened.rest,
    })
}

/// Begins a rule of a sheet, by what follows its prelude.
fn begin_listed_rule(parts: Parts<'_>) -> Opened<'_>
    ensures { listed_rule (parts_of parts.entry) parts.entry.rest.now
        ≡ (block_part_of result.part, result.rest.now) }
{
    if readers::starts(parts.rest, b'{') {
        Opened {
            part: BlockPart::OpensRule(prelude_from(&parts)),
            rest: past_byte(parts.rest, b'{'),
        }
    } else {
        Opened {
            part: BlockPart::Listed(Item::Skipped(Fault::NoBlock)),
            rest: parts.rest,
        }
    }
}

/// Reads a part of a sheet, from its start on.
#[tactic(auto, unfolding(crate::specs::Blocks::rule_part))]
fn read_rule_part(text: &str, in_block: bool) -> Opened<'_>
    ensures { rule_part in_block text.now ≡ (block_part_of result.part, result.rest.now) }
{
    if begins_at_rule(text.as_bytes()) {
        open_at_rule(text, in_block)
    } else {
        begin_listed_rule(read_parts(rule_set_ends(in_block), text))
    }
}

/// Reads the next part of a sheet, or of the block of an at-rule with rules, after what is before it.
#[tactic(auto, unfolding(crate::specs::Blocks::next_rule_part))]
pub fn read_next_rule_part(text: &str, in_block: bool) -> Option<FoundBlockPart<'_>>
    ensures read { next_rule_part in_block text.now
        ≡ option_map (λ found. (block_part_of found.part, found.rest.now)) result }
    ensures from { IfSome result (λ found. found.from.now ≡ past_between_of in_block text.now) }
{
    let from = past_between(text, in_block);
    if from.is_empty() {
        return None;
    }
    let opened = if in_block && readers::starts(from, b'}') {
        Opened {
            part: BlockPart::Closes,
            rest: past_byte(from, b'}'),
        }
    } else {
        read_rule_part(from, in_block)
    };
    Some(FoundBlockPart {
        part: opened.part,
        from,
        rest: opened.rest,
    })
}
