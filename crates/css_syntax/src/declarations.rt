//! The declarations of a block or of a style attribute, each on its own (CSS Syntax 3, sections
//! 5.4.5 and 5.4.6).
ghost use Rattle.std.specs.Prelude.{◌≡◌, option_map, true, false, IfSome};
ghost use Rattle.css_syntax.specs.DeclarationLists.{value, important_word, importance};
ghost use Rattle.css_syntax.specs.DeclarationLists.{past_broken as past_broken_of};
ghost use Rattle.css_syntax.specs.DeclarationLists.{is_custom as is_custom_of, why_broken};
ghost use Rattle.css_syntax.specs.DeclarationLists.{stated_as};
ghost use Rattle.css_syntax.specs.DeclarationLists.{is_stated as is_stated_of};
ghost use Rattle.css_text.specs.Bytes.{starts_by};
ghost use Rattle.css_syntax.specs.Tokens.{is_closer as is_closer_of};
ghost use Rattle.css_syntax.specs.DeclarationLists.{valued, named, declaration, or_rule};
ghost use Rattle.css_syntax.specs.DeclarationLists.{begins_custom as begins_custom_of, rule_ended};
ghost use Rattle.css_syntax.specs.DeclarationLists.{item as item_read};
ghost use Rattle.css_syntax.specs.DeclarationLists.{separator_part as separator_part_of};
ghost use Rattle.css_syntax.specs.DeclarationLists.{past_separators as past_separators_of};
ghost use Rattle.css_syntax.specs.DeclarationLists.{next_item};
ghost use Rattle.css_syntax.specs.DeclarationLists.{declaration_ends as declaration_ends_of};
ghost use Rattle.css_syntax.specs.Contents.{item_contents};
ghost use Rattle.css_syntax.specs.Views.{parts_of, declared_by, item_of, list_part_of};

use crate::parts::{Parts, Stops, ends_at, read_parts};
use crate::quality::{Fault, Quality, fault_of, is_good, is_whole};
use crate::statements::{
    AtRule, at_rule_ends, begins_at_rule, ends_block, read_at_rule, read_block, starts_ident,
};
use crate::texts::{front, past_byte, past_gap, past_word, spells};
use crate::tokens::{gap_part, is_closer, take_letter};
use css_text::readers;

/// A declaration.
#[derive(Clone, Copy, Debug, PartialEq)]
pub struct Declaration<'a> {
    /// The name of the property, as written.
    pub name: &'a str,
    /// The text of the value, as written, without blanks at either end.
    pub value: &'a str,
    /// Whether the declaration is important.
    pub important: bool,
    /// Whether nothing of the value is open at the end of the text.
    pub closed: bool,
}

/// What a list of declarations has.
#[derive(Clone, Copy, Debug, PartialEq)]
pub enum Item<'a> {
    /// A declaration.
    Declaration(Declaration<'a>),
    /// An at-rule.
    AtRule(AtRule<'a>),
    /// Something that is dropped.
    Skipped(Fault),
}

/// A part of a list: an item, with its whole text.
#[derive(Clone, Copy, Debug, PartialEq)]
pub struct ListPart<'a> {
    /// The text, from the first byte of the item to its last.
    pub text: &'a str,
    /// The item.
    pub item: Item<'a>,
}

/// An item and the rest after it.
#[derive(Clone, Copy)]
struct FoundItem<'a> {
    item: Item<'a>,
    rest: &'a str,
}

/// An item, and what is left from the contents of its block on, if it is an at-rule with one.
#[derive(Clone, Copy)]
struct OpenedItem<'a> {
    found: FoundItem<'a>,
    inside: &'a str,
}

/// A part of a list and the rest after it.
#[derive(Clone, Copy)]
pub struct FoundPart<'a> {
    /// The part.
    pub part: ListPart<'a>,
    /// What is left from the part on.
    pub from: &'a str,
    /// What is left from the contents of the block of an at-rule on, if it has one.
    pub inside: &'a str,
    /// The rest.
    pub rest: &'a str,
}

/// Whether a declaration is important, and the rest.
#[derive(Clone, Copy)]
struct Importance<'a> {
    important: bool,
    rest: &'a str,
}

/// What ends a declaration.
fn declaration_ends(in_block: bool) -> Stops
    ensures { result ≡ declaration_ends_of in_block }
{
    Stops {
        semicolon: true,
        open_brace: false,
        close_brace: in_block,
        comma: false,
        in_value: false,
    }
}

/// Reads the value at the start of the text. That of a custom property may have blocks.
pub(crate) fn read_value(text: &str, custom: bool) -> Parts<'_>
    ensures { value custom text.now ≡ (parts_of result, result.rest.now) }
{
    let stops = Stops {
        semicolon: true,
        open_brace: !custom,
        close_brace: true,
        comma: false,
        in_value: true,
    };
    read_parts(stops, text)
}

/// Reads the word `important` and the blanks after it, if it is next; else the rest is `from`.
#[tactic(auto, using(crate::proofs::PartTexts::word_ends))]
fn read_important_word<'a>(from: &'a str, text: &'a str) -> Importance<'a>
    ensures { important_word from.now text.now ≡ (result.important, result.rest.now) }
{
    let after = past_word(text);
    if spells("important", front(text, after)) {
        Importance {
            important: true,
            rest: past_gap(after),
        }
    } else {
        Importance {
            important: false,
            rest: from,
        }
    }
}

/// Reads an exclamation mark and the word `important`, if they are next.
fn read_importance(text: &str) -> Importance<'_>
    ensures { importance text.now ≡ (result.important, result.rest.now) }
{
    if readers::starts(text, b'!') {
        read_important_word(text, past_gap(past_byte(text, b'!')))
    } else {
        Importance {
            important: false,
            rest: text,
        }
    }
}

/// Returns the rest after a broken declaration, from where it is broken.
pub(crate) fn past_broken(text: &str, in_block: bool) -> &str
    ensures { result.now ≡ past_broken_of in_block text.now }
{
    read_parts(declaration_ends(in_block), text).rest
}

/// Whether the name is one of a custom property.
fn is_custom(name: &[u8]) -> bool
    ensures { result ≡ is_custom_of name.now }
{
    match take_letter(name, b'-', b'-') {
        Some(rest) => take_letter(rest, b'-', b'-').is_some(),
        None => false,
    }
}

/// Whether the bytes begin with a closing bracket.
fn begins_closer(bytes: &[u8]) -> bool
    ensures { result ≡ starts_by is_closer_of bytes.now }
{
    match bytes {
        [] => false,
        [byte, ..] => is_closer(*byte),
    }
}

/// Returns what is reported of a broken declaration, by the quality of its value and what follows.
fn why(in_block: bool, quality: Quality, rest: &[u8]) -> Fault
    ensures { result ≡ why_broken in_block quality rest.now }
{
    if is_good(quality) && !ends_at(declaration_ends(in_block), rest) && begins_closer(rest) {
        Fault::StrayBracket
    } else {
        fault_of(quality)
    }
}

/// Whether a declaration of this name, this value and this importance is one.
fn is_stated(in_block: bool, name: &str, value: &Parts<'_>, rest: &str) -> bool
    ensures { result ≡ is_stated_of in_block name.now (parts_of value.now) rest.now }
{
    is_good(value.quality)
        && ends_at(declaration_ends(in_block), rest.as_bytes())
        && (!value.text.is_empty() || is_custom(name.as_bytes()))
}

/// The declaration of this name, value and importance and the rest after it, or what is reported of
/// it.
fn state<'a>(
    in_block: bool,
    name: &'a str,
    value: Parts<'a>,
    importance: Importance<'a>,
) -> Result<(Declaration<'a>, &'a str), Fault>
    ensures { stated_as in_block name.now (parts_of value.entry)
        (importance.entry.important, importance.entry.rest.now) ≡ declared_by result }
{
    if is_stated(in_block, name, &value, importance.rest) {
        let declaration = Declaration {
            name,
            value: value.text,
            important: importance.important,
            closed: is_whole(value.quality),
        };
        Ok((declaration, importance.rest))
    } else {
        Err(why(in_block, value.quality, importance.rest.as_bytes()))
    }
}

/// Reads the declaration of this name, from what follows the name on.
fn read_named<'a>(
    in_block: bool,
    name: &'a str,
    text: &'a str,
) -> Result<(Declaration<'a>, &'a str), Fault>
    ensures { named in_block name.now text.now ≡ declared_by result }
{
    if readers::starts(text, b':') {
        let from = past_gap(past_byte(text, b':'));
        let value = read_value(from, is_custom(name.as_bytes()));
        state(in_block, name, value, read_importance(value.rest))
    } else {
        Err(Fault::BrokenDeclaration)
    }
}

/// Reads a declaration.
#[tactic(auto, using(crate::proofs::PartTexts::word_ends), unfolding(crate::specs::DeclarationLists::declaration))]
pub(crate) fn read_declaration(text: &str, in_block: bool) -> Result<(Declaration<'_>, &str), Fault>
    ensures { declaration in_block text.now ≡ declared_by result }
{
    if starts_ident(text.as_bytes()) {
        let after = past_word(text);
        read_named(in_block, front(text, after), past_gap(after))
    } else {
        Err(Fault::BrokenDeclaration)
    }
}

/// Whether a declaration of a custom property begins here.
#[tactic(auto, using(crate::proofs::PartTexts::word_ends))]
pub(crate) fn begins_custom(text: &str) -> bool
    ensures { result ≡ begins_custom_of text.now }
{
    let after = past_word(text);
    starts_ident(text.as_bytes())
        && is_custom(front(text, after).as_bytes())
        && readers::starts(past_gap(after), b':')
}

/// Ends what is no declaration, by what follows what may be the prelude of a rule: a rule, if that
/// is a block. Of a custom property no rule begins.
fn end_rule(rest: &str, in_block: bool, custom: bool, fault: Fault) -> FoundItem<'_>
    ensures { rule_ended in_block custom fault rest.now ≡ (item_of result.item, result.rest.now) }
{
    if !readers::starts(rest, b'{') {
        FoundItem {
            item: Item::Skipped(fault),
            rest,
        }
    } else if custom {
        FoundItem {
            item: Item::Skipped(fault),
            rest: past_broken(rest, in_block),
        }
    } else {
        FoundItem {
            item: Item::Skipped(Fault::NestedRule),
            rest: read_block(past_byte(rest, b'{')).rest,
        }
    }
}

/// Reads a declaration, or else skips a rule or what is broken. A style attribute has no rules.
fn read_plain_item(text: &str, in_block: bool) -> FoundItem<'_>
    ensures { or_rule in_block text.now (declaration in_block text.now)
        ≡ (item_of result.item, result.rest.now) }
{
    match read_declaration(text, in_block) {
        Ok((declaration, rest)) => FoundItem {
            item: Item::Declaration(declaration),
            rest,
        },
        Err(fault) => {
            if in_block {
                let prelude = read_parts(at_rule_ends(in_block), text);
                end_rule(prelude.rest, in_block, begins_custom(text), fault)
            } else {
                FoundItem {
                    item: Item::Skipped(fault),
                    rest: past_broken(text, in_block),
                }
            }
        }
    }
}

/// Reads an item, from its start on.
#[tactic(auto, unfolding(crate::specs::DeclarationLists::item))]
fn read_item(text: &str, in_block: bool) -> OpenedItem<'_>
    ensures read { item_read in_block text.now
        ≡ (item_of result.found.item, result.found.rest.now) }
    ensures inside { result.inside.now ≡ item_contents in_block text.now }
{
    if begins_at_rule(text.as_bytes()) {
        let read = read_at_rule(text, in_block);
        OpenedItem {
            found: FoundItem {
                item: Item::AtRule(read.at_rule),
                rest: read.rest,
            },
            inside: read.inside,
        }
    } else {
        OpenedItem {
            found: read_plain_item(text, in_block),
            inside: text,
        }
    }
}

/// Returns the rest after a semicolon, a space byte or a comment, if one is next.
#[tactic(auto, unfolding(crate::specs::DeclarationLists::separator_part))]
fn separator_part(bytes: &[u8]) -> Option<&[u8]>
    ensures { separator_part_of bytes.now ≡ option_map (λ rest. (tt, rest.now)) result }
{
    match bytes {
        [] => None,
        [byte, rest @ ..] => {
            if *byte == b';' {
                Some(rest)
            } else {
                gap_part(bytes)
            }
        }
    }
}

/// Returns the rest after what is between items.
fn past_separator_bytes(bytes: &[u8]) -> &[u8]
    ensures { result.now ≡ past_separators_of bytes.now }
{
    let mut rest = bytes;
    'parts: while let Some(after) = separator_part(rest) {
        rest = after;
    }
    rest
}

/// Returns the rest after what is between items.
pub(crate) fn past_separators(text: &str) -> &str
    ensures { result.now ≡ past_separators_of text.now }
{
    let rest = past_separator_bytes(text.as_bytes());
    &text[text.len() - rest.len()..]
}

/// Reads the next item, after what is before it. In a block, its closing brace ends the items.
#[tactic(auto, unfolding(crate::specs::DeclarationLists::next_item))]
pub fn read_part(text: &str, in_block: bool) -> Option<FoundPart<'_>>
    ensures read { next_item in_block text.now
        ≡ option_map (λ found. (list_part_of found.part, found.rest.now)) result }
    ensures from { IfSome result (λ found. found.from.now ≡ past_separators_of text.now) }
    ensures inside { IfSome result (λ found.
        found.inside.now ≡ item_contents in_block (past_separators_of text.now)) }
{
    let from = past_separators(text);
    if ends_block(from.as_bytes(), in_block) {
        return None;
    }
    let read = read_item(from, in_block);
    Some(FoundPart {
        part: ListPart {
            text: front(from, read.found.rest),
            item: read.found.item,
        },
        from,
        inside: read.inside,
        rest: read.found.rest,
    })
}

/// An iterator over the items of a list of declarations, in order.
#[derive(Drop)]
pub struct Declarations<'a> {
    /// What is left of the text.
    rest: &'a str,
    /// Whether a closing brace ends it.
    in_block: bool,
}

impl<'a> Declarations<'a> {
    ghost use Rattle.css_syntax.specs.ListReaders.{BeginsList, items_left};

    /// Returns an iterator over the items of a style attribute, in which a closing brace ends nothing
    /// and rules are broken declarations.
    pub fn new(text: &'a str) -> Declarations<'a>
        ensures { BeginsList false text.now result }
    {
        Declarations {
            rest: text,
            in_block: false,
        }
    }

    /// Returns an iterator over the items of a block, of which the text follows the opening brace.
    /// Its closing brace ends them, if it is there. A rule in the block is skipped as one.
    pub fn of_block(text: &'a str) -> Declarations<'a>
        ensures { BeginsList true text.now result }
    {
        Declarations {
            rest: text,
            in_block: true,
        }
    }

    /// Returns what is left of the text after the items that were returned.
    pub fn rest(&self) -> &'a str
        ensures { result.now ≡ items_left self.now }
    {
        self.rest
    }
}

impl<'a> Iterator for Declarations<'a> {
    ghost use Rattle.std.specs.Iterator.{item_count};
    ghost use Rattle.css_syntax.specs.ListReaders.{items_to_come, GivesItem};

    type Item = ListPart<'a>;

    ghost next_gives = { GivesItem };

    ghost remaining = { item_count items_to_come };

    /// Returns the next item, with its text.
    fn next(&mut self) -> Option<ListPart<'a>> {
        match read_part(self.rest, self.in_block) {
            Some(found) => {
                self.rest = found.rest;
                Some(found.part)
            }
            None => None,
        }
    }
}
