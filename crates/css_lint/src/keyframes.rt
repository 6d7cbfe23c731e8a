//! Mistakes in keyframes.

use crate::blocks::is_among;
use crate::kinds::Kind;
use crate::linter::Linter;
use crate::met::{Met, is_met};
use crate::texts::Piece;
use css_syntax::statements::{FoundPart, read_next};
use css_syntax::{RuleSet, Statement};
use std::alloc::AllocError;
use std::collections::BTreeMap;

/// Whether the number before a percent sign is from 0 to 100: it has no minus sign, and fewer than three digits, or it is
/// one hundred.
fn is_within(number: &str) -> bool {
    let (whole, fraction) = number.split_once('.').unwrap_or((number, ""));
    let digits = whole.strip_prefix('+').unwrap_or(whole);
    let is_number = digits.as_bytes().iter().all(|byte| byte.is_ascii_digit())
        && fraction.as_bytes().iter().all(|byte| byte.is_ascii_digit())
        && !(digits.is_empty() && fraction.is_empty());
    let is_small = digits.len() < 3
        || digits == "100" && fraction.as_bytes().iter().all(|byte| *byte == b'0');
    is_number && is_small
}

/// Whether a text is one of the ranges of a timeline.
fn is_range(text: &str) -> bool {
    is_among(
        text,
        "cover contain entry exit entry-crossing exit-crossing scroll",
    )
}

/// Returns the percentage that a keyframe is, without its sign, or nothing if it is none.
fn percentage(text: &str) -> Option<&str> {
    if text.eq_ignore_ascii_case("from") {
        return Some("0");
    }
    if text.eq_ignore_ascii_case("to") {
        return Some("100");
    }
    let number = match text.split_once(' ') {
        Some((range, rest)) if is_range(range) => rest.trim_start(),
        _ => text,
    };
    let number = number.strip_suffix('%')?;
    if is_within(number) {
        Some(number)
    } else {
        None
    }
}

impl<'t> Linter<'t> {
    /// Reports the keyframes of a list that ends at this offset which are none, and those that are there again.
    fn keyframe_list(&mut self, piece: Piece<'t>, met: &mut Met) -> Result<(), AllocError> {
        let mut rest = piece.text;
        let mut is_more = true;
        for _ in 0..=piece.text.len() {
            if !is_more {
                break;
            }
            let left = rest;
            let (one, more) = match rest.split_once(',') {
                Some(both) => both,
                None => (rest, ""),
            };
            is_more = left.len() > one.len();
            rest = more;
            let frame = one.trim();
            let start = piece
                .offset(left.len())
                .saturating_add(one.len().saturating_sub(one.trim_start().len()));
            let end = start.saturating_add(frame.len());
            match percentage(frame) {
                None if frame.contains('/') => {}
                None => self.report(Kind::InvalidKeyframe, start, end)?,
                Some(number) => {
                    let plain = if frame.contains(' ') { frame } else { number };
                    if is_met(met, plain.to_string(self.alloc)?)? {
                        self.report(Kind::RepeatedKeyframe, start, end)?;
                    }
                }
            }
        }
        Ok(())
    }

    /// Reports the mistakes of a keyframe.
    fn keyframe(
        &mut self,
        rule: &RuleSet<'t>,
        found: &FoundPart<'t>,
        end: usize,
        met: &mut Met,
    ) -> Result<(), AllocError> {
        let start = end.saturating_sub(found.from.len());
        let text = rule.prelude.text;
        let head = Piece {
            text,
            end: start.saturating_add(text.len()),
        };
        self.keyframe_list(head, met)?;
        let inside = end.saturating_sub(found.inside.len());
        let block = Piece {
            text: rule.block.text,
            end: inside.saturating_add(rule.block.text.len()),
        };
        self.rule_block(block, true)?;
        Ok(())
    }

    /// Reports the mistakes in the block of `@keyframes`.
    pub(crate) fn keyframes(&mut self, piece: Piece<'t>) -> Result<(), AllocError> {
        let mut met = BTreeMap::new(self.alloc);
        let mut rest = piece.text;
        for _ in 0..rest.len() {
            let Some(found) = read_next(rest, false) else {
                break;
            };
            rest = found.rest;
            if let Statement::RuleSet(rule) = &found.part.statement {
                self.keyframe(rule, &found, piece.end, &mut met)?;
            }
        }
        Ok(())
    }
}
