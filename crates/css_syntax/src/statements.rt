//! The statements of a sheet, or of the block of an at-rule (CSS Syntax 3, sections 5.4.1 to
//! 5.4.3).
ghost use Rattle.std.specs.Prelude.{◌≡◌, option_map, true, false, IfSome};
ghost use Rattle.css_text.specs.Reading.{before};
ghost use Rattle.css_syntax.specs.Parts.{Stated};
ghost use Rattle.css_syntax.specs.Statements.{begins_name_byte as begins_name_byte_of};
ghost use Rattle.css_syntax.specs.Statements.{begins_plain_ident as begins_plain_of};
ghost use Rattle.css_syntax.specs.Statements.{starts_ident as starts_ident_of};
ghost use Rattle.css_syntax.specs.Statements.{begins_ident as begins_ident_of};
ghost use Rattle.css_syntax.specs.Statements.{begins_at_rule as begins_at_rule_of};
ghost use Rattle.css_syntax.specs.Statements.{block as block_read, at_rule as at_rule_read};
ghost use Rattle.css_syntax.specs.Statements.{at_rule_ends as at_rule_ends_of};
ghost use Rattle.css_syntax.specs.Statements.{rule_set_ends as rule_set_ends_of};
ghost use Rattle.css_syntax.specs.Statements.{at_rule_ended, rule_set_ended};
ghost use Rattle.css_syntax.specs.Statements.{statement as statement_read};
ghost use Rattle.css_syntax.specs.Statements.{begins_cdc as begins_cdc_of};
ghost use Rattle.css_syntax.specs.Statements.{between_part as between_part_of};
ghost use Rattle.css_syntax.specs.Statements.{past_between as past_between_of};
ghost use Rattle.css_syntax.specs.Statements.{ends_block as ends_block_of, next_statement};
ghost use Rattle.css_syntax.specs.Tokens.{past_gap as past_gap_of};
ghost use Rattle.css_syntax.specs.Contents.{contents_after, at_rule_contents};
ghost use Rattle.css_syntax.specs.Contents.{statement_contents};
ghost use Rattle.css_syntax.specs.Views.{parts_of, block_of, at_rule_of, statement_of};
ghost use Rattle.css_syntax.specs.Views.{sheet_part_of};

use crate::parts::{Parts, Stops, read_parts};
use crate::quality::{Fault, Quality};
use crate::texts::{front, past_byte, past_gap, past_word};
use crate::tokens::{self, begins_cdo, begins_escape, gap_part};
use css_text::readers;

/// What is before the block of a statement.
#[derive(Clone, Copy, Debug, PartialEq)]
pub struct Prelude<'a> {
    /// Its text, without blanks at either end.
    pub text: &'a str,
    /// Its quality.
    pub quality: Quality,
}

/// The contents of a block.
#[derive(Clone, Copy, Debug, PartialEq)]
pub struct Block<'a> {
    /// The text between the braces, without blanks at either end.
    pub text: &'a str,
    /// Whether a brace closes it, and not only the end of the text.
    pub closed: bool,
}

/// An at-rule.
#[derive(Clone, Copy, Debug, PartialEq)]
pub struct AtRule<'a> {
    /// Its name, as written, without the `@`.
    pub name: &'a str,
    /// What is between the name and the block or the semicolon.
    pub prelude: Prelude<'a>,
    /// Its block, if it has one.
    pub block: Option<Block<'a>>,
}

/// A rule set.
#[derive(Clone, Copy, Debug, PartialEq)]
pub struct RuleSet<'a> {
    /// What is before the block, which should be selectors.
    pub prelude: Prelude<'a>,
    /// The block, which should have declarations.
    pub block: Block<'a>,
}

/// A statement.
#[derive(Clone, Copy, Debug, PartialEq)]
pub enum Statement<'a> {
    /// A rule set.
    RuleSet(RuleSet<'a>),
    /// An at-rule.
    AtRule(AtRule<'a>),
    /// What is no statement, since it has no block.
    Skipped(Fault),
}

/// A part of a sheet: a statement, with its whole text.
#[derive(Clone, Copy, Debug, PartialEq)]
pub struct SheetPart<'a> {
    /// The text, from the first byte of the statement to its last.
    pub text: &'a str,
    /// The statement.
    pub statement: Statement<'a>,
}

/// A block and the rest after it.
#[derive(Clone, Copy)]
pub struct FoundBlock<'a> {
    /// The block.
    pub block: Block<'a>,
    /// What is left from the contents on.
    pub inside: &'a str,
    /// The rest.
    pub rest: &'a str,
}

/// An at-rule and the rest after it.
#[derive(Clone, Copy)]
pub struct FoundAtRule<'a> {
    /// The at-rule.
    pub at_rule: AtRule<'a>,
    /// What is left from the contents of its block on, if it has one.
    pub inside: &'a str,
    /// The rest.
    pub rest: &'a str,
}

/// A statement and the rest after it.
#[derive(Clone, Copy)]
struct FoundStatement<'a> {
    statement: Statement<'a>,
    inside: &'a str,
    rest: &'a str,
}

/// A part of a sheet and the rest after it.
#[derive(Clone, Copy)]
pub struct FoundPart<'a> {
    /// The part.
    pub part: SheetPart<'a>,
    /// What is left from the part on.
    pub from: &'a str,
    /// What is left from the contents of its block on, if it has one.
    pub inside: &'a str,
    /// The rest.
    pub rest: &'a str,
}

/// Whether the byte may begin a name.
fn begins_name_byte(byte: u8) -> bool
    ensures { result ≡ begins_name_byte_of byte }
{
    byte.is_ascii_alphabetic() || byte == b'_' || byte >= 128 || byte == 0
}

/// Whether a name begins here that does not begin with a hyphen.
fn begins_plain_ident(bytes: &[u8]) -> bool
    ensures { result ≡ begins_plain_of bytes.now }
{
    match bytes {
        [] => false,
        [byte, ..] => begins_name_byte(*byte) || begins_escape(bytes),
    }
}

/// Whether a name begins here.
pub(crate) fn starts_ident(bytes: &[u8]) -> bool
    ensures { result ≡ starts_ident_of bytes.now }
{
    matches!(bytes, [b'-', b'-', ..]) || begins_plain_ident(tokens::past_byte(bytes, b'-'))
}

/// Whether the bytes begin with `-->`.
pub(crate) fn begins_cdc(bytes: &[u8]) -> bool
    ensures { result ≡ begins_cdc_of bytes.now }
{
    matches!(bytes, [b'-', b'-', b'>', ..])
}

/// Whether a name is the token here: one begins, and it is no `-->`.
pub fn begins_ident(bytes: &[u8]) -> bool
    ensures { result ≡ begins_ident_of bytes.now }
{
    starts_ident(bytes) && !begins_cdc(bytes)
}

/// Whether an at-rule begins here: `@` and directly a name.
pub fn begins_at_rule(bytes: &[u8]) -> bool
    ensures { result ≡ begins_at_rule_of bytes.now }
{
    match bytes {
        [] => false,
        [byte, after @ ..] => *byte == b'@' && starts_ident(after),
    }
}

/// What is before a block.
pub(crate) fn prelude_from<'a>(parts: &Parts<'a>) -> Prelude<'a>
    ensures { record { text = result.text.now; quality = result.quality } ≡ parts_of parts.now }
{
    Prelude {
        text: parts.text,
        quality: parts.quality,
    }
}

/// Reads a block after its opening brace.
#[tactic(auto, unfolding(crate::specs::Statements::block))]
pub fn read_block(text: &str) -> FoundBlock<'_>
    ensures read { block_read text.now ≡ (block_of result.block, result.rest.now) }
    ensures inside { result.inside.now ≡ past_gap_of text.now }
{
    let stops = Stops {
        semicolon: false,
        open_brace: false,
        close_brace: true,
        comma: false,
        in_value: false,
    };
    let inside = past_gap(text);
    let contents = read_parts(stops, inside);
    FoundBlock {
        block: Block {
            text: contents.text,
            closed: readers::starts(contents.rest, b'}'),
        },
        inside,
        rest: past_byte(contents.rest, b'}'),
    }
}

/// Ends an at-rule by what follows its prelude.
fn end_at_rule<'a>(name: &'a str, parts: Parts<'a>) -> FoundAtRule<'a>
    ensures read { at_rule_ended name.now (parts_of parts.entry) parts.entry.rest.now
        ≡ (at_rule_of result.at_rule, result.rest.now) }
    ensures inside { result.inside.now ≡ contents_after parts.entry.rest.now }
{
    let prelude = prelude_from(&parts);
    if readers::starts(parts.rest, b'{') {
        let found = read_block(past_byte(parts.rest, b'{'));
        FoundAtRule {
            at_rule: AtRule {
                name,
                prelude,
                block: Some(found.block),
            },
            inside: found.inside,
            rest: found.rest,
        }
    } else {
        FoundAtRule {
            at_rule: AtRule {
                name,
                prelude,
                block: None,
            },
            inside: parts.rest,
            rest: past_byte(parts.rest, b';'),
        }
    }
}

/// What ends the prelude of an at-rule, or of a rule among declarations.
pub(crate) fn at_rule_ends(in_block: bool) -> Stops
    ensures { result ≡ at_rule_ends_of in_block }
{
    Stops {
        semicolon: true,
        open_brace: true,
        close_brace: in_block,
        comma: false,
        in_value: false,
    }
}

/// Reads an at-rule, from its `@` on. Within a block, the closing brace of the block ends it, too.
#[tactic(auto, using(crate::proofs::PartTexts::word_ends), unfolding(crate::specs::Statements::at_rule))]
pub fn read_at_rule(text: &str, in_block: bool) -> FoundAtRule<'_>
    ensures read { at_rule_read in_block text.now ≡ (at_rule_of result.at_rule, result.rest.now) }
    ensures inside { result.inside.now ≡ at_rule_contents in_block text.now }
{
    let start = past_byte(text, b'@');
    let after = past_word(start);
    let name = front(start, after);
    end_at_rule(name, read_parts(at_rule_ends(in_block), past_gap(after)))
}

/// What ends the prelude of a rule set.
pub(crate) fn rule_set_ends(in_block: bool) -> Stops
    ensures { result ≡ rule_set_ends_of in_block }
{
    Stops {
        semicolon: false,
        open_brace: true,
        close_brace: in_block,
        comma: false,
        in_value: false,
    }
}

/// Ends a rule set by what follows its prelude.
fn end_rule_set(parts: Parts<'_>) -> FoundStatement<'_>
    ensures read { rule_set_ended (parts_of parts.entry) parts.entry.rest.now
        ≡ (statement_of result.statement, result.rest.now) }
    ensures inside { result.inside.now ≡ contents_after parts.entry.rest.now }
{
    if readers::starts(parts.rest, b'{') {
        let found = read_block(past_byte(parts.rest, b'{'));
        FoundStatement {
            statement: Statement::RuleSet(RuleSet {
                prelude: prelude_from(&parts),
                block: found.block,
            }),
            inside: found.inside,
            rest: found.rest,
        }
    } else {
        FoundStatement {
            statement: Statement::Skipped(Fault::NoBlock),
            inside: parts.rest,
            rest: parts.rest,
        }
    }
}

/// Reads a statement, from its start on.
#[tactic(auto, unfolding(crate::specs::Statements::statement))]
fn read_statement(text: &str, in_block: bool) -> FoundStatement<'_>
    ensures read { statement_read in_block text.now
        ≡ (statement_of result.statement, result.rest.now) }
    ensures inside { result.inside.now ≡ statement_contents in_block text.now }
{
    if begins_at_rule(text.as_bytes()) {
        let found = read_at_rule(text, in_block);
        return FoundStatement {
            statement: Statement::AtRule(found.at_rule),
            inside: found.inside,
            rest: found.rest,
        };
    }
    end_rule_set(read_parts(rule_set_ends(in_block), text))
}

/// Returns the rest after a space byte, a comment or, between the statements of a sheet, a `<!--` or `-->`.
#[tactic(auto, unfolding(crate::specs::Statements::between_part))]
fn between_part(bytes: &[u8], in_block: bool) -> Option<&[u8]>
    ensures { between_part_of in_block bytes.now ≡ option_map (λ rest. (tt, rest.now)) result }
{
    if bytes.is_empty() {
        None
    } else if !in_block && begins_cdo(bytes) {
        Some(&bytes[4..])
    } else if !in_block && begins_cdc(bytes) {
        Some(&bytes[3..])
    } else {
        gap_part(bytes)
    }
}

/// Returns the rest after what is between statements.
fn past_between_bytes(bytes: &[u8], in_block: bool) -> &[u8]
    ensures { result.now ≡ past_between_of in_block bytes.now }
{
    let mut rest = bytes;
    'parts: while let Some(after) = between_part(rest, in_block) {
        rest = after;
    }
    rest
}

/// Returns the rest after what is between statements.
pub(crate) fn past_between(text: &str, in_block: bool) -> &str
    ensures { result.now ≡ past_between_of in_block text.now }
{
    let rest = past_between_bytes(text.as_bytes(), in_block);
    &text[text.len() - rest.len()..]
}

/// Whether the text ends, or the block does.
pub fn ends_block(bytes: &[u8], in_block: bool) -> bool
    ensures { result ≡ ends_block_of in_block bytes.now }
{
    match bytes {
        [] => true,
        [byte, ..] => in_block && *byte == b'}',
    }
}

/// Reads the next statement, after what is before it.
#[tactic(auto, unfolding(crate::specs::Statements::next_statement))]
pub fn read_next(text: &str, in_block: bool) -> Option<FoundPart<'_>>
    ensures read { next_statement in_block text.now
        ≡ option_map (λ found. (sheet_part_of found.part, found.rest.now)) result }
    ensures from { IfSome result (λ found. found.from.now ≡ past_between_of in_block text.now) }
    ensures inside { IfSome result (λ found.
        found.inside.now ≡ statement_contents in_block (past_between_of in_block text.now)) }
{
    let from = past_between(text, in_block);
    if ends_block(from.as_bytes(), in_block) {
        return None;
    }
    let found = read_statement(from, in_block);
    Some(FoundPart {
        part: SheetPart {
            text: front(from, found.rest),
            statement: found.statement,
        },
        from,
        inside: found.inside,
        rest: found.rest,
    })
}

/// An iterator over the statements of a text, in order.
#[derive(Drop)]
pub struct Statements<'a> {
    /// What is left of the text.
    rest: &'a str,
    /// Whether a closing brace ends it.
    in_block: bool,
}

impl<'a> Statements<'a> {
    ghost use Rattle.css_syntax.specs.ListReaders.{BeginsSheet, statements_left};

    /// Returns an iterator over the statements of a sheet.
    pub fn new(text: &'a str) -> Statements<'a>
        ensures { BeginsSheet false text.now result }
    {
        Statements {
            rest: text,
            in_block: false,
        }
    }

    /// Returns an iterator over the statements of a block, as that of `@media`, of which the text
    /// follows the opening brace. Its closing brace ends them.
    pub fn of_block(text: &'a str) -> Statements<'a>
        ensures { BeginsSheet true text.now result }
    {
        Statements {
            rest: text,
            in_block: true,
        }
    }

    /// Returns what is left of the text after the statements that were returned.
    pub fn rest(&self) -> &'a str
        ensures { result.now ≡ statements_left self.now }
    {
        self.rest
    }
}

impl<'a> Iterator for Statements<'a> {
    ghost use Rattle.std.specs.Iterator.{item_count};
    ghost use Rattle.css_syntax.specs.ListReaders.{statements_to_come, GivesStatement};

    type Item = SheetPart<'a>;

    ghost next_gives = { GivesStatement };

    ghost remaining = { item_count statements_to_come };

    /// Returns the next statement, with its text.
    fn next(&mut self) -> Option<SheetPart<'a>> {
        match read_next(self.rest, self.in_block) {
            Some(found) => {
                self.rest = found.rest;
                Some(found.part)
            }
            None => None,
        }
    }
}
