//! Mistakes in sheets.

use crate::blocks::{PlacedRule, is_among, is_declaring, placed_rule};
use crate::findings::Finding;
use crate::kinds::Kind;
use crate::linter::Linter;
use crate::texts::{
    Opening, Piece, after_bytes, ends_empty, first_bytes, is_open, is_sign, place_in, size_of,
    without_spaces_after,
};
use css_conditions::{
    Contrast, Device, Display, Gamut, Medium, Pointer, Scripting, Truth, Update, media_says,
};
use css_selector_text::{Condition, Listed, Names, Part, Progression, Simple, Structure};
use css_sheet::{Level, Places, SheetNamespaces, SheetReader, read_listed, rule_selector};
use css_syntax::declarations::read_part;
use css_syntax::parts::{Stops, read_parts};
use css_syntax::places::at_rule_prelude;
use css_syntax::texts::spells;
use css_syntax::tokenizer::read_next;
use css_syntax::{Fault, Item, RuleSet, SheetPart, Statement, TokenKind};
use std::alloc::AllocError;

/// The at-rules with keyframes.
const KEYFRAMES: &str = "keyframes -webkit-keyframes -moz-keyframes -o-keyframes -ms-keyframes";
/// How many names in a media query are tried.
const MOST_NAMES: usize = 8;
/// A screen of 1,280 x 800 pixels with a mouse.
const SCREEN: Device = Device {
    medium: Medium::Screen,
    width: 1280,
    height: 800,
    device_width: 0,
    device_height: 0,
    resolution: 1000,
    color: 8,
    color_index: 0,
    monochrome: 0,
    gamut: Gamut::Srgb,
    high_range: false,
    grid: false,
    update: Update::Fast,
    scripting: Scripting::Enabled,
    display: Display::Browser,
    dark: false,
    reduced_motion: false,
    reduced_transparency: false,
    contrast: Contrast::Usual,
    forced_colors: false,
    hover: true,
    pointer: Pointer::Fine,
    any_hover: false,
    any_coarse: false,
    any_fine: false,
};

/// Where a group rule is.
#[derive(Clone, Copy)]
struct Head {
    /// The offset of its first byte.
    start: usize,
    /// The offset at which what is before its block ends.
    head_end: usize,
    /// The offset after its last byte.
    end: usize,
}

/// Whether it is not known what media queries say.
fn is_unknown(prelude: &str) -> bool {
    matches!(media_says(prelude, &SCREEN), Truth::Unknown)
}

/// Returns where a group rule is.
fn head_of(level: &Level<'_>) -> Head {
    Head {
        start: level.places.start,
        head_end: level.places.prelude.saturating_add(level.prelude.len()),
        end: level.after_end.saturating_sub(level.after.len()),
    }
}

/// Returns where a comment begins that is not closed at the end of a text, if one is.
fn open_comment(text: &str) -> Option<usize> {
    let mut rest = text.as_bytes();
    let mut last = None;
    for _ in 0..rest.len() {
        let Some(token) = read_next(rest) else {
            break;
        };
        rest = token.rest;
        last = if is_open(Opening::Comment, &token) {
            Some(place_in(text, &token))
        } else {
            None
        };
    }
    last
}

/// Returns what is before the first semicolon of a text.
fn before_semicolon(text: &str) -> &str {
    let stops = Stops {
        semicolon: true,
        open_brace: true,
        close_brace: false,
        comma: false,
        in_value: false,
    };
    read_parts(stops, text).text
}

/// Returns whether a compound selector has an index that no element has.
fn has_unmatchable(part: &Part<'_>) -> bool {
    part.conditions.iter().any(|condition| match condition {
        Condition::Simple(
            Simple::Structure(
                Structure::NthChild(progression)
                | Structure::NthLastChild(progression)
                | Structure::NthOfType(progression)
                | Structure::NthLastOfType(progression),
            ),
        ) => is_unmatchable(progression),
        _ => false,
    })
}

/// Whether no index that begins at 1 is in a progression.
fn is_unmatchable(progression: &Progression) -> bool {
    let (step, offset) = (progression.step, progression.offset);
    (step.is_negative || step.size == 0) && (offset.is_negative || offset.size == 0)
}

impl<'t> Linter<'t> {
    /// Reports the name in media queries that is no media feature, and nearly one with which it would be known
    /// what they say. Returns whether it did.
    fn misspelt_feature(&mut self, prelude: Piece<'t>) -> Result<bool, AllocError> {
        let text = prelude.text;
        let mut rest = text.as_bytes();
        let (mut is_first, mut count) = (false, 0usize);
        for _ in 0..rest.len() {
            let Some(token) = read_next(rest) else {
                break;
            };
            rest = token.rest;
            if matches!(token.kind, TokenKind::Whitespace | TokenKind::Comment) {
                continue;
            }
            if is_first && matches!(token.kind, TokenKind::Ident) && count < MOST_NAMES {
                count += 1;
                let at = place_in(text, &token);
                let name = first_bytes(after_bytes(text, at), size_of(&token));
                if self.misspelt_name(prelude, at, name)? {
                    return Ok(true);
                }
            }
            is_first = is_sign(&token, b'(');
        }
        Ok(false)
    }

    /// Reports a name in media queries, from an offset on in them, if it is one that is misspelt.
    fn misspelt_name(
        &mut self,
        prelude: Piece<'t>,
        at: usize,
        name: &str,
    ) -> Result<bool, AllocError> {
        let lower = name.to_ascii_lowercase(self.alloc)?;
        if self.words.features.knows(lower.as_str()) {
            return Ok(false);
        }
        let near = self.words.features.nearest(self.alloc, lower.as_str())?;
        let Some(right) = near else {
            return Ok(false);
        };
        let before = first_bytes(prelude.text, at);
        let after = after_bytes(prelude.text, at.saturating_add(name.len()));
        let meant = right.name;
        let tried = format!(in self.alloc; "{before}{meant}{after}")?;
        if is_unknown(tried.as_str()) {
            return Ok(false);
        }
        let start = prelude.start().saturating_add(at);
        let end = start.saturating_add(name.len());
        self.found.push(Finding::named(Kind::UnknownMediaFeature, start, end, "", near))?;
        Ok(true)
    }

    /// Reports the mistakes in the head of a group rule.
    fn group(&mut self, level: &Level<'t>) -> Result<(), AllocError> {
        let head = head_of(level);
        if spells("supports", level.name) {
            return self.supports(Piece {
                text: level.prelude,
                end: head.head_end,
            });
        }
        if spells("media", level.name) {
            let prelude = Piece {
                text: level.prelude,
                end: head.head_end,
            };
            self.media_queries(prelude)?;
            if !is_unknown(level.prelude) || self.misspelt_feature(prelude)? {
                return Ok(());
            }
        }
        self.report_all(Kind::UnsupportedCondition, head.start, head.head_end)
    }

    /// Reports the mistakes of a selector of a list that ends at this offset.
    fn selector(&mut self, listed: Listed<'t>, end: usize) -> Result<(), AllocError> {
        let past = end.saturating_sub(listed.to.len());
        let size = listed.from.len().saturating_sub(listed.to.len());
        let piece = Piece {
            text: first_bytes(listed.from, size),
            end: past,
        };
        if self.unknown_names(piece)? {
            return Ok(());
        }
        if listed.selector.parts().iter().any(has_unmatchable) {
            self.report(Kind::UnmatchableNth, piece.start(), past)?;
        }
        self.unknown_types(piece)?;
        if !self.shows_all {
            return Ok(());
        }
        let front_size = listed.from.len().saturating_sub(listed.element.len());
        let front = first_bytes(listed.from, front_size.min(size));
        let read = rule_selector(self.alloc, listed)?;
        if read.selector.is_none() {
            self.report(Kind::UnsupportedSelector, piece.start(), past)?;
        } else if self.has_unknown_state(front)? {
            self.report(Kind::UnsupportedPseudoClass, piece.start(), past)?;
        }
        Ok(())
    }

    /// Reports the mistakes of a rule set with these selectors. The text of the sheet, in which its places
    /// are, ends at this offset.
    fn rule(
        &mut self,
        sheet: Piece<'t>,
        rule: &RuleSet<'t>,
        selectors: Vec<Listed<'t>>,
        places: Places,
        piece: Piece<'t>,
    ) -> Result<(), AllocError> {
        let base = sheet.start();
        let head = base.saturating_add(places.prelude);
        let head_end = head.saturating_add(rule.prelude.text.len());
        'selectors: for listed in selectors {
            self.selector(listed, head_end)?;
        }
        let block = Piece {
            text: rule.block.text,
            end: base.saturating_add(places.block_end),
        };
        let last = self.rule_block(block, true)?;
        if !rule.block.closed {
            self.report(Kind::BlockNotClosed, head, head_end)?;
            let from = last.unwrap_or(head_end).max(head_end);
            self.comment_after(sheet, from)?;
        } else if last.is_none() {
            let from = head_end.saturating_sub(piece.start());
            if ends_empty(after_bytes(piece.text, from)) {
                self.report(Kind::EmptyRule, piece.start(), piece.end)?;
            }
        }
        Ok(())
    }

    /// Reports the comment that is not closed after what is read, which ends at this offset.
    fn comment_after(&mut self, sheet: Piece<'t>, from: usize) -> Result<(), AllocError> {
        let at = from.saturating_sub(sheet.start());
        if let Some(place) = open_comment(after_bytes(sheet.text, at)) {
            self.report(
                Kind::CommentNotClosed,
                from.saturating_add(place),
                sheet.end,
            )?;
        }
        Ok(())
    }

    /// Reports the mistakes in the block of an at-rule that has rules, which are not read further.
    fn scope(&mut self, piece: Piece<'t>) -> Result<(), AllocError> {
        let names = SheetNamespaces::read(self.alloc, piece.text, &[])?;
        let declared = names.declare(self.alloc)?;
        let mut reader = SheetReader::new(self.alloc, piece.text);
        for _ in 0..piece.text.len() {
            let Some(part) = reader.read_next()? else {
                break;
            };
            if let Statement::RuleSet(rule) = &part.statement {
                let places = reader.places();
                let start = piece.start().saturating_add(places.start);
                let whole = Piece {
                    text: part.text,
                    end: start.saturating_add(part.text.len()),
                };
                let read = read_listed(self.alloc, &declared.names(), None, &rule.prelude)?;
                if let Ok(selectors) = read {
                    self.rule(piece, rule, selectors, places, whole)?;
                }
            }
        }
        Ok(())
    }

    /// Reports the mistakes in the block of an at-rule of a sheet.
    fn block_in_sheet(&mut self, placed: &PlacedRule<'t>) -> Result<(), AllocError> {
        if placed.rule.block.is_none() {
            Ok(())
        } else if is_declaring(placed.rule.name) {
            self.inner_block(placed.inner, false)
        } else if is_among(placed.rule.name, "scope starting-style") {
            self.scope(placed.inner)
        } else if is_among(placed.rule.name, KEYFRAMES) {
            self.keyframes(placed.inner)
        } else {
            Ok(())
        }
    }

    /// Remembers a list of layers, or a layer without rules.
    fn layer_rule(&mut self, placed: &PlacedRule<'t>) -> Result<(), AllocError> {
        let name = placed.rule.prelude.text;
        if placed.rule.block.is_none() {
            return self.list_layers(name);
        }
        let (start, end) = (placed.piece.start(), placed.piece.end);
        self.fill_layer(name, start, end)
    }

    /// Remembers a group rule that is a layer, unless it is in another one.
    fn layer(&mut self, level: &Level<'t>) -> Result<(), AllocError> {
        let head = head_of(level);
        self.fill_layer(level.prelude, head.start, head.head_end)
    }

    /// Reports the mistakes in the heads of the group rules that begin at this offset or later. Returns the
    /// offset after the beginning of the last.
    fn groups(&mut self, levels: &[Level<'t>], from: usize) -> Result<usize, AllocError> {
        let mut from = from;
        let mut in_layer = false;
        for level in levels {
            let is_layer = spells("layer", level.name);
            if level.places.start >= from {
                from = level.places.start.saturating_add(1);
                self.group(level)?;
                if is_layer && !in_layer {
                    self.layer(level)?;
                }
            }
            in_layer = in_layer || is_layer;
        }
        Ok(from)
    }

    /// Reports the mistakes of an at-rule of a sheet.
    fn at_rule(&mut self, placed: &PlacedRule<'t>) -> Result<(), AllocError> {
        self.at_rule_head(placed)?;
        if spells("layer", placed.rule.name) {
            return self.layer_rule(placed);
        }
        if placed.rule.name.eq_ignore_ascii_case("property") {
            let prelude = placed
                .piece
                .offset(at_rule_prelude(placed.piece.text).len());
            let text = placed.rule.prelude.text;
            self.property_rule(Piece {
                text,
                end: prelude.saturating_add(text.len()),
            })?;
        }
        self.block_in_sheet(placed)
    }

    /// Reports the mistakes of a statement of a sheet where these names are declared.
    fn statement(
        &mut self,
        sheet: Piece<'t>,
        names: &Names<'_>,
        part: &SheetPart<'t>,
        places: Places,
    ) -> Result<(), AllocError> {
        let piece = Piece {
            text: part.text,
            end: places.start.saturating_add(part.text.len()),
        };
        match &part.statement {
            Statement::RuleSet(rule) => {
                match read_listed(self.alloc, names, None, &rule.prelude)? {
                    Ok(selectors) => self.rule(sheet, rule, selectors, places, piece),
                    Err(fault) => self.refused(rule.prelude.text, fault, piece),
                }
            }
            Statement::AtRule(rule) => self.at_rule(&placed_rule(*rule, piece, places.block)),
            Statement::Skipped(fault) => self.skipped(*fault, piece),
        }
    }

    /// Reports why a rule set with these selectors is skipped.
    fn refused(&mut self, head: &'t str, fault: Fault, piece: Piece<'t>) -> Result<(), AllocError> {
        match fault {
            Fault::InvalidSelector => {
                let text = without_spaces_after(piece.text);
                let end = piece.start().saturating_add(text.len());
                self.invalid_selectors(before_semicolon(head), Piece { text, end })
            }
            _ => self.skipped(fault, piece),
        }
    }

    /// Reports what is skipped.
    fn skipped(&mut self, fault: Fault, piece: Piece<'t>) -> Result<(), AllocError> {
        let text = without_spaces_after(piece.text);
        let end = piece.start().saturating_add(text.len());
        self.fault(fault, Piece { text, end })
    }

    /// Reports the mistakes of the group rules between two statements, which have none. Returns where the
    /// last of them ends.
    fn groups_between(&mut self, piece: Piece<'t>) -> Result<Option<usize>, AllocError> {
        if !piece.text.contains('@') {
            return Ok(None);
        }
        let mut rest = piece.text;
        let mut last = None;
        for _ in 0..rest.len() {
            let Some(found) = read_part(rest, false) else {
                break;
            };
            rest = found.rest;
            if let Item::AtRule(rule) = found.part.item {
                let start = piece.end.saturating_sub(found.from.len());
                let whole = Piece {
                    text: found.part.text,
                    end: start.saturating_add(found.part.text.len()),
                };
                let block = piece.end.saturating_sub(found.inside.len());
                self.at_rule(&placed_rule(rule, whole, block))?;
                last = Some(whole.end);
            }
        }
        Ok(last)
    }

    /// Reports the group rules that the end of the text closes, if the last statement, which ends at this
    /// offset, is in them.
    fn open_groups(&mut self, text: &str, heads: &[Head], end: usize) -> Result<(), AllocError> {
        let mut inner = end;
        for head in heads.iter().rev() {
            let last = text.as_bytes().get(head.end.wrapping_sub(1)).copied();
            // Its last byte is that of what is in it, or it is no brace.
            if head.end == inner || last != Some(b'}') {
                self.report(Kind::BlockNotClosed, head.start, head.head_end)?;
            }
            inner = head.end;
        }
        Ok(())
    }

    /// Reports the mistakes of a sheet.
    pub(crate) fn sheet(&mut self, text: &'t str) -> Result<(), AllocError> {
        let sheet = Piece {
            text,
            end: text.len(),
        };
        let names = SheetNamespaces::read(self.alloc, text, &[])?;
        let declared = names.declare(self.alloc)?;
        let names = declared.names();
        self.has_namespace = names.default_namespace.is_some();
        let mut reader = SheetReader::new(self.alloc, text);
        let mut heads: Vec<Head> = Vec::new(self.alloc);
        let (mut past, mut group, mut last) = (0usize, 0usize, 0usize);
        for _ in 0..text.len() {
            let Some(part) = reader.read_next()? else {
                break;
            };
            let places = reader.places();
            last = places.start.saturating_add(part.text.len());
            heads.clear();
            for level in reader.levels() {
                heads.push(head_of(level))?;
            }
            let (start, end) = match heads.first() {
                Some(head) => (head.start, head.end),
                None => (places.start, last),
            };
            if past < start {
                self.groups_between(Piece::between(text, past, start))?;
            }
            group = self.groups(reader.levels(), group)?;
            self.statement(sheet, &names, &part, places)?;
            past = past.max(end);
        }
        self.check_references(text)?;
        self.irregular_whitespace(sheet)?;
        let rest = Piece::between(text, past, text.len());
        let after = self.groups_between(rest)?;
        self.check_layers()?;
        match after {
            Some(end) => self.comment_after(sheet, past.max(end)),
            None => {
                self.open_groups(text, &heads, last)?;
                self.comment_after(sheet, past)
            }
        }
    }
}
