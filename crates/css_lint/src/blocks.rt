//! Mistakes in blocks.

use crate::declarations::{Place, is_custom};
use crate::findings::Finding;
use crate::kinds::Kind;
use crate::linter::Linter;
use crate::repeated::Declared;
use crate::texts::{Piece, ends_empty, without_spaces_after};
use css_syntax::declarations::{FoundPart, read_part};
use css_syntax::{AtRule, Declaration, Item, closed_value};
use std::alloc::AllocError;
use std::borrow::CowStr;

/// The at-rules that standards had and no longer have.
const DEPRECATED: &str = "document nest viewport";

/// What an at-rule is in, and where it is.
#[derive(Clone, Copy)]
pub(crate) struct PlacedRule<'t> {
    /// The rule.
    pub(crate) rule: AtRule<'t>,
    /// Its whole text.
    pub(crate) piece: Piece<'t>,
    /// The contents of its block.
    pub(crate) inner: Piece<'t>,
}

/// Whether the block of an at-rule of this name has declarations.
pub(crate) fn is_declaring(name: &str) -> bool {
    is_among(
        name,
        "counter-style font-face font-palette-values page property view-transition viewport",
    )
}

/// Whether the block of an at-rule of this name has further declarations, in a rule.
fn is_group(name: &str) -> bool {
    is_among(name, "container layer media scope starting-style supports")
}

/// Whether an at-rule of this name does nothing without a rule.
fn is_nothing_without_rules(name: &str) -> bool {
    is_among(name, "container font-face media supports")
}

/// Whether a name is one of these in any case, between which spaces are.
pub(crate) fn is_among(name: &str, names: &str) -> bool {
    let mut rest = names;
    for _ in 0..rest.len() {
        let Some((one, more)) = rest.split_once(' ') else {
            break;
        };
        if name.eq_ignore_ascii_case(one) {
            return true;
        }
        rest = more;
    }
    name.eq_ignore_ascii_case(rest)
}

/// Whether an at-rule is a layer without a name.
fn is_anonymous_layer(placed: &PlacedRule<'_>) -> bool {
    is_among(placed.rule.name, "layer") && placed.rule.prelude.text.is_empty()
}

/// Returns the offset after the name of an at-rule.
fn name_end(placed: &PlacedRule<'_>) -> usize {
    let size = placed.rule.name.len().saturating_add(1);
    placed.piece.start().saturating_add(size)
}

impl<'t> Linter<'t> {
    /// Returns a declaration whose value nothing of is open, as one of those that may be lost.
    fn declared(
        &mut self,
        one: &Declaration<'t>,
        name: &str,
        piece: Piece<'t>,
        others: usize,
    ) -> Result<Declared<'t>, AllocError> {
        let mut value = CowStr::Borrowed(one.value);
        if !one.closed {
            if let Some(closed) = closed_value(self.alloc, one.value)? {
                value = CowStr::Owned(closed);
            }
        }
        Ok(Declared {
            number: self.number(name)?,
            is_prefixed: !is_custom(name) && matches!(name.as_bytes(), [b'-', ..]),
            is_custom: is_custom(name),
            value,
            important: one.important,
            others,
            start: piece.start(),
            end: piece.end,
        })
    }

    /// Reports the mistakes of the name and the end of an at-rule.
    pub(crate) fn at_rule_head(&mut self, placed: &PlacedRule<'t>) -> Result<(), AllocError> {
        let (name, start, end) = (placed.rule.name, placed.piece.start(), placed.piece.end);
        if let Some(block) = &placed.rule.block {
            if !block.closed {
                self.report(Kind::BlockNotClosed, start, end)?;
            }
        }
        let lower = name.to_ascii_lowercase(self.alloc)?;
        if is_among(name, DEPRECATED) {
            self.report(Kind::DeprecatedAtRule, start, name_end(placed))?;
        } else if self.words.at_rules.knows(lower.as_str()) {
            self.report_all(Kind::UnsupportedAtRule, start, end)?;
        } else {
            let near = self.words.at_rules.nearest(self.alloc, lower.as_str())?;
            let past = name_end(placed);
            self.found.push(Finding::named(Kind::UnknownAtRule, start, past, "@", near))?;
        }
        if placed.rule.block.is_some()
            && (is_nothing_without_rules(name) || is_anonymous_layer(placed))
            && ends_empty(placed.piece.text)
        {
            self.report(Kind::EmptyRule, start, end)?;
        }
        Ok(())
    }

    /// Reports the mistakes of a declaration, and adds it to those that may be lost. The custom properties of
    /// a rule are relations of places.
    fn declaration_item(
        &mut self,
        one: &Declaration<'t>,
        piece: Piece<'t>,
        place: Place,
        others: usize,
        declared: &mut Vec<Declared<'t>>,
    ) -> Result<(), AllocError> {
        if is_custom(one.name) {
            self.declaration(one, one.name, piece, place)?;
            if place == Place::AtRule {
                declared.push(self.declared(one, one.name, piece, others)?)?;
            }
        } else {
            let name = one.name.to_ascii_lowercase(self.alloc)?;
            self.declaration(one, name.as_str(), piece, place)?;
            declared.push(self.declared(one, name.as_str(), piece, others)?)?;
        }
        Ok(())
    }

    /// Reports the mistakes of an item of a block that ends at this offset, but for those in the block of an
    /// at-rule, and returns the at-rule.
    fn item(
        &mut self,
        found: &FoundPart<'t>,
        end: usize,
        place: Place,
        others: usize,
        declared: &mut Vec<Declared<'t>>,
    ) -> Result<Option<PlacedRule<'t>>, AllocError> {
        let start = end.saturating_sub(found.from.len());
        let text = found.part.text;
        let piece = Piece {
            text,
            end: start.saturating_add(text.len()),
        };
        match found.part.item {
            Item::Declaration(one) => {
                self.declaration_item(&one, piece, place, others, declared)?;
                Ok(None)
            }
            Item::AtRule(rule) => {
                let placed = placed_rule(rule, piece, end.saturating_sub(found.inside.len()));
                self.at_rule_head(&placed)?;
                Ok(Some(placed))
            }
            Item::Skipped(fault) => {
                let kept = without_spaces_after(text);
                let past = start.saturating_add(kept.len());
                self.fault(
                    fault,
                    Piece {
                        text: kept,
                        end: past,
                    },
                )?;
                Ok(None)
            }
        }
    }

    /// Reports the mistakes in the block of an at-rule, or in that of one in a rule.
    pub(crate) fn inner_block(
        &mut self,
        piece: Piece<'t>,
        in_block: bool,
    ) -> Result<(), AllocError> {
        let mut declared = Vec::new(self.alloc);
        let mut rest = piece.text;
        let mut others = 0usize;
        for _ in 0..rest.len() {
            let Some(found) = read_part(rest, in_block) else {
                break;
            };
            rest = found.rest;
            let count = declared.len();
            self.item(&found, piece.end, Place::AtRule, others, &mut declared)?;
            others = if declared.len() > count {
                0
            } else {
                others.saturating_add(1)
            };
        }
        self.repeated(&declared)
    }

    /// Reports the mistakes in the block of an at-rule in a rule.
    fn block_in_rule(&mut self, placed: &PlacedRule<'t>) -> Result<(), AllocError> {
        if placed.rule.block.is_none() {
            Ok(())
        } else if is_declaring(placed.rule.name) {
            self.inner_block(placed.inner, false)
        } else if is_group(placed.rule.name) {
            self.inner_block(placed.inner, true)
        } else {
            Ok(())
        }
    }

    /// Reports the mistakes in the block of a rule, or in a style attribute. Returns where its last item
    /// ends, if it has one.
    pub(crate) fn rule_block(
        &mut self,
        piece: Piece<'t>,
        in_block: bool,
    ) -> Result<Option<usize>, AllocError> {
        let mut declared = Vec::new(self.alloc);
        let mut rest = piece.text;
        let mut others = 0usize;
        let mut last = None;
        for _ in 0..rest.len() {
            let Some(found) = read_part(rest, in_block) else {
                break;
            };
            rest = found.rest;
            let count = declared.len();
            let placed = self.item(&found, piece.end, Place::Rule, others, &mut declared)?;
            others = if declared.len() > count {
                0
            } else {
                others.saturating_add(1)
            };
            let start = piece.end.saturating_sub(found.from.len());
            last = Some(start.saturating_add(found.part.text.len()));
            if let Some(placed) = placed {
                self.block_in_rule(&placed)?;
            }
        }
        self.repeated(&declared)?;
        Ok(last)
    }
}

/// Returns an at-rule with its text, and with the contents of its block, which begin at this offset.
pub(crate) fn placed_rule<'t>(rule: AtRule<'t>, piece: Piece<'t>, block: usize) -> PlacedRule<'t> {
    let text = match &rule.block {
        Some(block) => block.text,
        None => "",
    };
    PlacedRule {
        rule,
        piece,
        inner: Piece {
            text,
            end: block.saturating_add(text.len()),
        },
    }
}
