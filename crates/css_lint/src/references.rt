//! References to custom properties, and what a sheet declares.

use crate::kinds::Kind;
use crate::linter::Linter;
use crate::met::Met;
use crate::texts::{after_bytes, first_bytes, is_gap, is_sign, place_in, size_of};
use css_syntax::tokenizer::read_next;
use css_syntax::{Token, TokenKind};
use std::alloc::{AllocError, Global};
use std::collections::BTreeMap;

/// What was read of the custom properties of a sheet.
#[derive(Drop)]
struct Declared<'t> {
    /// The names that are declared.
    met: Met,
    /// The name before what follows, or nothing.
    last: &'t str,
    /// Whether what follows is after `@property`.
    is_registered: bool,
}

impl<'t> Declared<'t> {
    /// Takes the next token of the sheet.
    fn take(&mut self, alloc: Global, text: &'t str, token: &Token<'_>) -> Result<(), AllocError> {
        let written = first_bytes(after_bytes(text, place_in(text, token)), size_of(token));
        let name = if self.is_registered {
            written
        } else if is_sign(token, b':') {
            self.last
        } else {
            ""
        };
        if name.starts_with("--") {
            self.met.insert(name.to_string(alloc)?, 0)?;
        }
        self.is_registered = matches!(token.kind, TokenKind::AtKeyword)
            && written.eq_ignore_ascii_case("@property");
        let is_name = matches!(token.kind, TokenKind::Ident);
        self.last = if is_name { written } else { "" };
        Ok(())
    }
}

/// Returns the names of custom properties that a sheet declares: those before a colon, and after `@property`.
fn declared_in(alloc: Global, text: &str) -> Result<Met, AllocError> {
    let mut declared = Declared {
        met: BTreeMap::new(alloc),
        last: "",
        is_registered: false,
    };
    let mut rest = text.as_bytes();
    for _ in 0..rest.len() {
        let Some(token) = read_next(rest) else {
            break;
        };
        rest = token.rest;
        if !is_gap(&token) {
            declared.take(alloc, text, &token)?;
        }
    }
    Ok(declared.met)
}

impl Linter<'_> {
    /// Reports the references to custom properties that nothing in a sheet declares, if it declares some, and the names
    /// of those that it declares which are in values without `var()`.
    pub(crate) fn check_references(&mut self, text: &str) -> Result<(), AllocError> {
        if self.references.is_empty() {
            return Ok(());
        }
        let met = declared_in(self.alloc, text)?;
        if met.is_empty() {
            return Ok(());
        }
        for index in 0..self.references.len() {
            let Some(one) = self.references.get(index).copied() else {
                break;
            };
            let is_declared = met.get(one.name).is_some();
            if is_declared != one.is_var {
                let kind = if one.is_var {
                    Kind::UnknownVariable
                } else {
                    Kind::MissingVar
                };
                self.report(kind, one.start, one.start.saturating_add(one.name.len()))?;
            }
        }
        Ok(())
    }
}
