//! The declarations of a block that are lost, since the block sets their property again.

use crate::kinds::Kind;
use crate::linter::{Linter, Slot};
use crate::texts::next_token;
use css_syntax::TokenKind;
use css_syntax::tokenizer::read_next;
use std::alloc::AllocError;
use std::borrow::CowStr;

/// A declaration of a block.
#[derive(Drop)]
pub(crate) struct Declared<'t> {
    /// The number of its property.
    pub(crate) number: usize,
    /// Whether its property has a vendor's prefix.
    pub(crate) is_prefixed: bool,
    /// Whether its property is a custom one.
    pub(crate) is_custom: bool,
    /// Its value, of which nothing is open.
    pub(crate) value: CowStr<'t>,
    /// Whether it is important.
    pub(crate) important: bool,
    /// How many other items are before it, after the declaration before.
    pub(crate) others: usize,
    /// The offset of its first byte.
    pub(crate) start: usize,
    /// The offset after its last byte.
    pub(crate) end: usize,
}

/// Whether a value begins with a minus sign, as the prefix of a browser does.
fn has_prefix(value: &str) -> bool {
    match next_token(value.as_bytes()) {
        Some(token) => matches!(token.from, [b'-', ..]),
        None => false,
    }
}

/// Whether a value has a function, a url or a parenthesis.
fn has_call(value: &str) -> bool {
    if !value.contains('(') {
        return false;
    }
    let mut rest = value.as_bytes();
    for _ in 0..rest.len() {
        let Some(token) = read_next(rest) else {
            break;
        };
        if matches!(
            token.kind,
            TokenKind::Function | TokenKind::Url | TokenKind::BadUrl
        ) || matches!(token.kind, TokenKind::Delim) && matches!(token.from, [b'(', ..])
        {
            return true;
        }
        rest = token.rest;
    }
    false
}

/// Whether a browser may not support a value that others do: one of a function, or with a prefix.
fn may_fail(value: &str) -> bool {
    has_prefix(value) || has_call(value)
}

/// Whether a declaration is lost by another one of its property. Browsers take the last value that they
/// support: two different ones side by side are meant, and so is a later one of a function, or one with a
/// prefix. A custom property takes any value.
fn is_lost(before: &Declared<'_>, after: &Declared<'_>, is_beside: bool) -> bool {
    if before.value.as_str() == after.value.as_str() {
        return true;
    }
    after.is_custom
        || !is_beside && !has_prefix(before.value.as_str()) && !may_fail(after.value.as_str())
}

impl<'t> Linter<'t> {
    /// Returns the last declaration of a property in the block.
    fn last(&self, number: usize) -> Option<Slot> {
        match self.slots.get(number).copied() {
            Some(slot) if slot.block == self.block => Some(slot),
            _ => None,
        }
    }

    /// Sets the last declaration of a property in the block.
    fn set_last(&mut self, number: usize, slot: Slot) -> Result<(), AllocError> {
        let none = Slot {
            block: 0,
            index: 0,
            place: 0,
        };
        let wanted = number.saturating_add(1).max(self.numbered);
        if self.slots.len() < wanted {
            self.slots.resize(wanted, none)?;
        }
        if number < self.slots.len() {
            self.slots[number] = slot;
        }
        Ok(())
    }

    /// Reports the declaration of one of these properties that a shorthand sets, and forgets it.
    fn override_parts(
        &mut self,
        declared: &[Declared<'_>],
        parts: &[usize],
        important: bool,
    ) -> Result<(), AllocError> {
        for part in parts {
            let Some(slot) = self.last(*part) else {
                continue;
            };
            let Some(before) = declared.get(slot.index) else {
                continue;
            };
            if important || !before.important {
                self.report(Kind::OverriddenDeclaration, before.start, before.end)?;
                self.forget(*part);
            }
        }
        Ok(())
    }

    /// Forgets the last declaration of a property.
    fn forget(&mut self, number: usize) {
        if number < self.slots.len() {
            self.slots[number].block = 0;
        }
    }

    /// Reports what a shorthand sets again.
    fn override_by(
        &mut self,
        declared: &[Declared<'_>],
        one: &Declared<'_>,
    ) -> Result<(), AllocError> {
        let (longhands, shorthands) = self.shorthands.parts(one.number);
        if longhands.is_empty() || may_fail(one.value.as_str()) {
            return Ok(());
        }
        let mut parts = Vec::new(self.alloc);
        parts.extend_from_slice(longhands)?;
        parts.extend_from_slice(shorthands)?;
        self.override_parts(declared, &parts, one.important)
    }

    /// Reports a declaration, or the last one of its property, if one of them is lost. Returns whether it
    /// counts.
    fn meet_last(
        &mut self,
        declared: &[Declared<'_>],
        one: &Declared<'_>,
        count: usize,
    ) -> Result<bool, AllocError> {
        let Some(slot) = self.last(one.number) else {
            return Ok(true);
        };
        let Some(before) = declared.get(slot.index) else {
            return Ok(true);
        };
        if before.important && !one.important {
            self.report(Kind::RepeatedDeclaration, one.start, one.end)?;
            return Ok(false);
        }
        if is_lost(before, one, slot.place == count) {
            self.report(Kind::RepeatedDeclaration, before.start, before.end)?;
        }
        Ok(true)
    }

    /// Reports the declarations of a block that are lost.
    pub(crate) fn repeated(&mut self, declared: &[Declared<'_>]) -> Result<(), AllocError> {
        self.block = self.block.saturating_add(1);
        let mut count = 0usize;
        for (index, one) in declared.iter().enumerate() {
            count = count.saturating_add(one.others);
            if self.meet_last(declared, one, count)? {
                self.override_by(declared, one)?;
                if !one.is_prefixed {
                    count = count.saturating_add(1);
                }
                let slot = Slot {
                    block: self.block,
                    index,
                    place: count,
                };
                self.set_last(one.number, slot)?;
            }
        }
        Ok(())
    }
}
