//! What a style sheet says.
ghost use Rattle.std.specs.Prelude.{◌≡◌, ◌<◌, ◌≤◌, ◌+◌, ◌-◌, ◌^◌, ◌∷◌, ◌++◌, [], true, OnOk, IfOk, length, map, option_map, slice_get};
ghost use Rattle.std.specs.List.{flat_map};
ghost use Rattle.css_syntax.specs.DeclarationLists.{is_custom as is_custom_name, items};
ghost use Rattle.css_syntax.specs.Views.{at_rule_of, block_of, declaration_of, item_of, list_part_of};
ghost use Rattle.css_sheet.specs.Pieces.{piece_of};
ghost use Rattle.css_sheet.specs.Said.{verbatim_pieces, value_pieces, importance_pieces, declaration_pieces};
ghost use Rattle.css_sheet.specs.Said.{is_keyframes as is_keyframes_name, is_descriptive as is_descriptive_name};
ghost use Rattle.css_sheet.specs.Said.{has_words as has_words_in, block_pieces, contents_pieces, at_rule_pieces};
ghost use Rattle.css_sheet.specs.Said.{item_pieces, listed_pieces, head_pieces, part_pieces, says as says_of};
ghost use Rattle.css_sheet.specs.Said.{ends_of, depth_after as depth_after_part, whole_parts};
ghost use Rattle.css_sheet.specs.Said.{is_idle as is_idle_part, without_idle as without_idle_parts};
ghost use Rattle.css_sheet.specs.Said.{begins_idle as begins_idle_part, is_idle_last as is_idle_last_of};
ghost use Rattle.css_sheet.specs.Said.{with_end, with_part, with_parts, is_front_part as is_front_part_of};
ghost use Rattle.css_sheet.specs.Said.{front_count, front_after as front_after_part, said_parts};
ghost use Rattle.css_sheet.specs.ContentViews.{kind_of, part_of};

use crate::open_layers::is_layer;
use crate::parts::{Part, RuleKind};
use crate::pieces::Piece;
use crate::sheet_contents::read_contents;
use crate::words::{Way, push_words, sets_custom};
use css_syntax::texts::spells;
use css_syntax::tokens::take_letter;
use css_syntax::{AtRule, Block, Declaration, Declarations, Item};
use std::alloc::{AllocError, Global};

/// Appends a text that is kept byte for byte, if it is not empty.
fn push_verbatim<'a>(out: &mut Vec<Piece<'a>>, text: &'a str) -> Result<(), AllocError>
    ensures { OnOk result (map piece_of out.new.items
        ≡ map piece_of out.old.items ++ verbatim_pieces text.now) }
{
    if !text.is_empty() {
        out.push(Piece::Verbatim(text.as_bytes()))?;
    }
    Ok(())
}

/// Whether the name is one of a custom property.
fn is_custom(name: &[u8]) -> bool
    ensures { result ≡ is_custom_name name.now }
{
    match take_letter(name, b'-', b'-') {
        Some(rest) => take_letter(rest, b'-', b'-').is_some(),
        None => false,
    }
}

/// Appends what the value of a declaration says.
fn push_value<'a>(
    out: &mut Vec<Piece<'a>>,
    alloc: Global,
    one: &Declaration<'a>,
) -> Result<(), AllocError>
    ensures { OnOk result (map piece_of out.new.items
        ≡ map piece_of out.old.items ++ value_pieces (declaration_of one.now)) }
{
    if is_custom(one.name.as_bytes()) {
        push_verbatim(out, one.value)
    } else {
        push_words(out, alloc, Way::Value, one.value.as_bytes())
    }
}

/// Appends `!important`, if it is said.
fn push_importance(out: &mut Vec<Piece<'_>>, important: bool) -> Result<(), AllocError>
    ensures { OnOk result (map piece_of out.new.items
        ≡ map piece_of out.old.items ++ importance_pieces important) }
{
    if important {
        out.push(Piece::Word(b"!important"))?;
    }
    Ok(())
}

/// Appends what a declaration says.
fn push_declaration<'a>(
    out: &mut Vec<Piece<'a>>,
    alloc: Global,
    one: &Declaration<'a>,
) -> Result<(), AllocError>
    ensures { OnOk result (map piece_of out.new.items
        ≡ map piece_of out.old.items ++ declaration_pieces (declaration_of one.now)) }
{
    out.push(Piece::Word(one.name.as_bytes()))?;
    out.push(Piece::Colon)?;
    push_value(out, alloc, one)?;
    push_importance(out, one.important)?;
    out.push(Piece::Semicolon)?;
    Ok(())
}

/// Whether an at-rule of this name has keyframes.
fn is_keyframes(name: &str) -> bool
    ensures { result ≡ is_keyframes_name name.now }
{
    spells("keyframes", name)
        || spells("-webkit-keyframes", name)
        || spells("-moz-keyframes", name)
        || spells("-o-keyframes", name)
}

/// Whether what is before a colon is a name in the block of another at-rule of this name.
fn is_descriptive(name: &str) -> bool
    ensures { result ≡ is_descriptive_name name.now }
{
    spells("font-face", name)
        || spells("page", name)
        || spells("property", name)
        || spells("counter-style", name)
        || spells("viewport", name)
        || spells("-ms-viewport", name)
}

/// Whether an at-rule of this name and with this block has declarations, but none of custom properties.
fn has_words(name: &str, text: &str) -> bool
    ensures { result ≡ has_words_in name.now text.now }
{
    (is_keyframes(name) || is_descriptive(name)) && !sets_custom(text.as_bytes())
}

/// Appends what the block of an at-rule says.
fn push_block<'a>(
    out: &mut Vec<Piece<'a>>,
    alloc: Global,
    name: &str,
    text: &'a str,
) -> Result<(), AllocError>
    ensures { OnOk result (map piece_of out.new.items
        ≡ map piece_of out.old.items ++ block_pieces name.now text.now) }
{
    if has_words(name, text) {
        push_words(out, alloc, Way::Declarations, text.as_bytes())
    } else {
        push_verbatim(out, text)
    }
}

/// Appends what an at-rule says after its prelude.
fn push_contents<'a>(
    out: &mut Vec<Piece<'a>>,
    alloc: Global,
    name: &str,
    block: &Option<Block<'a>>,
) -> Result<(), AllocError>
    ensures { OnOk result (map piece_of out.new.items
        ≡ map piece_of out.old.items ++ contents_pieces name.now (option_map block_of block.now)) }
{
    match block {
        Some(block) => {
            out.push(Piece::Opens)?;
            push_block(out, alloc, name, block.text)?;
            out.push(Piece::Closes)?;
        }
        None => out.push(Piece::Semicolon)?,
    }
    Ok(())
}

/// Appends what an at-rule says.
fn push_at_rule<'a>(
    out: &mut Vec<Piece<'a>>,
    alloc: Global,
    rule: &AtRule<'a>,
) -> Result<(), AllocError>
    ensures { OnOk result (map piece_of out.new.items
        ≡ map piece_of out.old.items ++ at_rule_pieces (at_rule_of rule.now)) }
{
    out.push(Piece::AtRule(rule.name.as_bytes()))?;
    push_words(out, alloc, Way::Value, rule.prelude.text.as_bytes())?;
    push_contents(out, alloc, rule.name, &rule.block)
}

/// Appends what an item with this text says.
fn push_item<'a>(
    out: &mut Vec<Piece<'a>>,
    alloc: Global,
    text: &'a str,
    item: &Item<'a>,
) -> Result<(), AllocError>
    ensures { OnOk result (map piece_of out.new.items
        ≡ map piece_of out.old.items ++ item_pieces text.now (item_of item.now)) }
{
    match item {
        Item::Declaration(one) => push_declaration(out, alloc, one),
        Item::AtRule(rule) => push_at_rule(out, alloc, rule),
        Item::Skipped(_) => {
            push_words(out, alloc, Way::Value, text.as_bytes())?;
            out.push(Piece::Semicolon)?;
            Ok(())
        }
    }
}

/// Appends what declarations in a style rule say.
fn push_stated<'a>(out: &mut Vec<Piece<'a>>, alloc: Global, text: &'a str) -> Result<(), AllocError>
    ensures { OnOk result (map piece_of out.new.items
        ≡ map piece_of out.old.items ++ flat_map listed_pieces (items true text.now)) }
{
    let mut list = Declarations::of_block(text);
    'items: while let Some(listed) = list.next() {
        push_item(out, alloc, listed.text, &listed.item)?;
    }
    Ok(())
}

/// Appends what is said before the block of a rule.
fn push_head<'a>(
    out: &mut Vec<Piece<'a>>,
    alloc: Global,
    kind: &RuleKind<'a>,
) -> Result<(), AllocError>
    ensures { OnOk result (map piece_of out.new.items
        ≡ map piece_of out.old.items ++ head_pieces (kind_of kind.now)) }
{
    match kind {
        RuleKind::Style(prelude) => {
            push_words(out, alloc, Way::Selectors, prelude.text.as_bytes())
        }
        RuleKind::Group(keyword, prelude) => {
            out.push(Piece::AtRule(keyword.as_bytes()))?;
            push_words(out, alloc, Way::Condition, prelude.as_bytes())
        }
    }
}

/// Appends what a part of a sheet says.
fn push_part<'a>(out: &mut Vec<Piece<'a>>, alloc: Global, part: &Part<'a>) -> Result<(), AllocError>
    ensures { OnOk result (map piece_of out.new.items
        ≡ map piece_of out.old.items ++ part_pieces (part_of part.now)) }
{
    match part {
        Part::States(text) => push_stated(out, alloc, *text),
        Part::Begins(kind) => {
            push_head(out, alloc, kind)?;
            out.push(Piece::Opens)?;
            Ok(())
        }
        Part::Ends => {
            out.push(Piece::Closes)?;
            Ok(())
        }
        Part::Stands(item) => push_item(out, alloc, "", item),
    }
}

/// Appends a part.
fn append_part<'a>(parts: &mut Vec<Part<'a>>, part: Part<'a>) -> Result<(), AllocError>
    ensures parts { OnOk result (map part_of parts.new.items
        ≡ map part_of parts.old.items ++ part_of part.entry ∷ []) }
    ensures count { OnOk result (length parts.new.items ≡ length parts.old.items + 1) }
{
    parts.push(part)?;
    Ok(())
}

/// Returns how many rules are open after a part, where `depth` are open before it.
fn depth_after(depth: usize, part: &Part<'_>) -> usize
    requires { depth + 1 < 2 ^ 64 }
    ensures depth { result ≡ depth_after_part depth (part_of part.now) }
    ensures within { result ≤ depth + 1 }
{
    match part {
        Part::Begins(_) => depth + 1,
        Part::Ends => depth.saturating_sub(1),
        Part::States(_) => depth,
        Part::Stands(_) => depth,
    }
}

/// Appends the ends of `depth` rules.
fn push_ends(parts: &mut Vec<Part<'_>>, depth: usize) -> Result<(), AllocError>
    ensures { OnOk result (map part_of parts.new.items
        ≡ map part_of parts.old.items ++ ends_of depth) }
{
    let mut left = depth;
    'ends: while left > 0 {
        append_part(parts, Part::Ends)?;
        left -= 1;
    }
    Ok(())
}

/// Reads the parts of a sheet, with the ends of all of its rules.
fn read_parts<'a>(alloc: Global, text: &'a str) -> Result<Vec<Part<'a>>, AllocError>
    ensures { IfOk result (λ parts. map part_of parts.items ≡ whole_parts text.now) }
{
    let found = read_contents(alloc, text)?;
    let mut parts = Vec::new(alloc);
    let mut depth = 0usize;
    let mut rest = found.as_slice();
    'parts: while let [placed, more @ ..] = rest {
        append_part(&mut parts, placed.part)?;
        depth = depth_after(depth, &placed.part);
        rest = more;
    }
    push_ends(&mut parts, depth)?;
    Ok(parts)
}

/// Whether a part says nothing, where it may be an `@charset` that is in front.
fn is_idle(front: bool, part: &Part<'_>) -> bool
    ensures { result ≡ is_idle_part front (part_of part.now) }
{
    match part {
        Part::Stands(Item::AtRule(rule)) => !front && spells("charset", rule.name),
        Part::Stands(Item::Skipped(_)) => true,
        _ => false,
    }
}

/// Returns the parts that are not idle.
fn without_idle<'a>(
    alloc: Global,
    front: bool,
    parts: &[Part<'a>],
) -> Result<Vec<Part<'a>>, AllocError>
    ensures { IfOk result (λ kept. map part_of kept.items
        ≡ without_idle_parts front (map part_of parts.now)) }
{
    let mut kept = Vec::new(alloc);
    let mut is_front = front;
    let mut rest = parts;
    'parts: while let [part, more @ ..] = rest {
        if !is_idle(is_front, part) {
            kept.push(*part)?;
        }
        is_front = false;
        rest = more;
    }
    Ok(kept)
}

/// Whether a part begins a rule that says nothing if nothing is in it.
fn begins_idle(part: &Part<'_>) -> bool
    ensures { result ≡ begins_idle_part (part_of part.now) }
{
    match part {
        Part::Begins(RuleKind::Style(_)) => true,
        Part::Begins(RuleKind::Group(keyword, _)) => !is_layer(*keyword),
        _ => false,
    }
}

/// Whether the last part begins a rule that says nothing if nothing is in it.
fn is_idle_last(parts: &[Part<'_>]) -> bool
    ensures { result
        ≡ is_idle_last_of (slice_get (map part_of parts.now) (length (map part_of parts.now) - 1)) }
{
    match parts.last() {
        Some(part) => begins_idle(part),
        None => false,
    }
}

/// Appends the end of the innermost rule, or drops that rule if it says nothing and may be left out.
fn push_end(parts: &mut Vec<Part<'_>>, leaves_out: bool) -> Result<(), AllocError>
    ensures { OnOk result
        (map part_of parts.new.items ≡ with_end leaves_out (map part_of parts.old.items)) }
{
    if leaves_out && is_idle_last(parts.as_slice()) {
        parts.pop();
        return Ok(());
    }
    parts.push(Part::Ends)?;
    Ok(())
}

/// Appends a part, or drops the rule that it ends.
fn push_said<'a>(
    parts: &mut Vec<Part<'a>>,
    part: &Part<'a>,
    leaves_out: bool,
) -> Result<(), AllocError>
    ensures { OnOk result (map part_of parts.new.items
        ≡ with_part leaves_out (map part_of parts.old.items) (part_of part.now)) }
{
    if let Part::Ends = part {
        return push_end(parts, leaves_out);
    }
    parts.push(*part)?;
    Ok(())
}

/// Whether a part is an `@import` or an `@namespace`.
fn is_front_part(part: &Part<'_>) -> bool
    ensures { result ≡ is_front_part_of (part_of part.now) }
{
    match part {
        Part::Stands(Item::AtRule(rule)) => {
            spells("import", rule.name) || spells("namespace", rule.name)
        }
        _ => false,
    }
}

/// Returns how many of the parts are an `@import` or an `@namespace`.
fn count_front(parts: &[Part<'_>]) -> usize
    ensures { result ≡ front_count (map part_of parts.now) }
{
    let mut count = 0usize;
    let mut rest = parts;
    'parts: while let [part, more @ ..] = rest {
        if is_front_part(part) {
            count += 1;
        }
        rest = more;
    }
    count
}

/// Returns how many of these are still to come after a part, of `fronts` before it.
fn front_after(fronts: usize, part: &Part<'_>) -> usize
    ensures { result ≡ front_after_part fronts (part_of part.now) }
{
    if is_front_part(part) {
        fronts.saturating_sub(1)
    } else {
        fronts
    }
}

/// Returns the parts without the rules in which nothing is said and that end after `fronts` of these at-rules.
fn without_empty<'a>(
    alloc: Global,
    parts: &[Part<'a>],
    fronts: usize,
) -> Result<Vec<Part<'a>>, AllocError>
    ensures { IfOk result (λ kept. map part_of kept.items
        ≡ with_parts fronts [] (map part_of parts.now)) }
{
    let mut kept = Vec::new(alloc);
    let mut left = fronts;
    let mut rest = parts;
    'parts: while let [part, more @ ..] = rest {
        push_said(&mut kept, part, left == 0)?;
        left = front_after(left, part);
        rest = more;
    }
    Ok(kept)
}

/// Reads the parts of a sheet that say something.
fn read_said<'a>(alloc: Global, text: &'a str) -> Result<Vec<Part<'a>>, AllocError>
    ensures { IfOk result (λ parts. map part_of parts.items ≡ said_parts text.now) }
{
    let all = read_parts(alloc, text)?;
    let front = text.as_bytes().starts_with(b"@charset \"");
    let parts = without_idle(alloc, front, all.as_slice())?;
    let fronts = count_front(parts.as_slice());
    without_empty(alloc, parts.as_slice(), fronts)
}

/// Returns what a sheet says. Time and memory are linear in the length of the text.
#[tactic(auto, unfolding(crate::specs::Said::says))]
pub(crate) fn says<'a>(alloc: Global, text: &'a str) -> Result<Vec<Piece<'a>>, AllocError>
    ensures { IfOk result (λ pieces. map piece_of pieces.items ≡ says_of text.now) }
{
    let parts = read_said(alloc, text)?;
    let mut pieces = Vec::new(alloc);
    let mut rest = parts.as_slice();
    'parts: while let [part, more @ ..] = rest {
        push_part(&mut pieces, alloc, part)?;
        rest = more;
    }
    Ok(pieces)
}
