//! Mistakes in selectors.

use crate::findings::Finding;
use crate::kinds::Kind;
use crate::linter::Linter;
use crate::texts::{Piece, after_bytes, first_bytes};
use crate::vocabulary::{Names, Near};
use css_selector_text::{NO_NAMES, Selector, Why};
use css_syntax::{Name, NameKind, decode, read_names};
use std::alloc::AllocError;

/// How many names of a selector are reported.
const MOST_NAMES: usize = 8;
/// The pseudo-classes that elements of trees may match.
const MATCHED: &str =
    "active any-link empty first-child first-of-type focus has hover is lang last-child last-of-type \
    link not nth-child nth-last-child nth-last-of-type nth-of-type only-child only-of-type root visited where";

/// Whether a name is that of a pseudo-class or of a pseudo-element, and of which.
fn pseudo_kind(kind: NameKind) -> Option<bool> {
    match kind {
        NameKind::PseudoClass | NameKind::PseudoClassFunction => Some(false),
        NameKind::PseudoElement | NameKind::PseudoElementFunction => Some(true),
        _ => None,
    }
}

/// Returns how many bytes are from one place of a text to another.
fn distance(from: &[u8], to: &[u8]) -> usize {
    from.len().saturating_sub(to.len())
}

/// Whether the name of a type after this text is not for the known names to say: it is in a namespace, is that of a
/// custom element, or has fewer than three letters or other characters.
fn is_foreign(before: &str, name: &str) -> bool {
    name.len() < 3
        || !name
            .as_bytes()
            .iter()
            .all(|byte| byte.is_ascii_alphanumeric())
        || matches!(before.as_bytes(), [.., b'|'])
}

impl<'t> Linter<'t> {
    /// Returns the name of a pseudo-class or a pseudo-element in lower case, without escapes.
    pub(crate) fn pseudo_name(&self, text: &str, name: &Name<'_>) -> Result<String, AllocError> {
        let at = text.len().saturating_sub(name.name.len());
        let written = first_bytes(after_bytes(text, at), distance(name.name, name.rest));
        let denoted = decode(self.alloc, written)?;
        denoted.as_str().to_ascii_lowercase(self.alloc)
    }

    /// Returns the pseudo-elements or the pseudo-classes.
    fn names_of(&self, is_element: bool) -> &Names {
        if is_element {
            &self.words.elements
        } else {
            &self.words.classes
        }
    }

    /// Returns a finding of an unknown pseudo-class or pseudo-element.
    fn unknown_pseudo(
        &self,
        name: &str,
        is_element: bool,
        start: usize,
        end: usize,
    ) -> Result<Finding, AllocError> {
        let (kind, sign, other_sign) = if is_element {
            (Kind::UnknownPseudoElement, "::", ":")
        } else {
            (Kind::UnknownPseudoClass, ":", "::")
        };
        let near = self.names_of(is_element).nearest(self.alloc, name)?;
        let Some(other) = self.names_of(!is_element).same(name) else {
            return Ok(Finding::named(kind, start, end, sign, near));
        };
        let is_only = match near {
            Some(near) => near.is_only,
            None => true,
        };
        let near = Near {
            name: other,
            is_only,
        };
        Ok(Finding::named(kind, start, end, other_sign, Some(near)))
    }

    /// Reports the names in selectors that no pseudo-class and no pseudo-element has. Returns whether there is
    /// one.
    pub(crate) fn unknown_names(&mut self, piece: Piece<'_>) -> Result<bool, AllocError> {
        let text = piece.text;
        if !text.contains(':') {
            return Ok(false);
        }
        let mut count = 0usize;
        for name in &read_names(self.alloc, text.as_bytes())? {
            let Some(is_element) = pseudo_kind(name.kind) else {
                continue;
            };
            let lower = self.pseudo_name(text, name)?;
            if count < MOST_NAMES && !self.names_of(is_element).knows(lower.as_str()) {
                count += 1;
                let (start, end) = (piece.offset(name.from.len()), piece.offset(name.rest.len()));
                let found = self.unknown_pseudo(lower.as_str(), is_element, start, end)?;
                self.found.push(found)?;
            }
        }
        Ok(count > 0)
    }

    /// Reports the names of types of elements in a selector that are unknown, where no namespace is declared.
    pub(crate) fn unknown_types(&mut self, piece: Piece<'_>) -> Result<(), AllocError> {
        if self.has_namespace {
            return Ok(());
        }
        let text = piece.text;
        for name in &read_names(self.alloc, text.as_bytes())? {
            if name.kind != NameKind::Type {
                continue;
            }
            let at = text.len().saturating_sub(name.name.len());
            let written = first_bytes(after_bytes(text, at), distance(name.name, name.rest));
            if is_foreign(first_bytes(text, at), written) {
                continue;
            }
            let lower = written.to_ascii_lowercase(self.alloc)?;
            if self.words.types.find(lower.as_str()).is_none() {
                let near = self.words.types.nearest(self.alloc, lower.as_str())?;
                let (start, end) = (piece.offset(name.name.len()), piece.offset(name.rest.len()));
                self.found
                    .push(Finding::named(Kind::UnknownType, start, end, "", near))?;
            }
        }
        Ok(())
    }

    /// Whether a selector has a state that no element is in here.
    pub(crate) fn has_unknown_state(&self, text: &str) -> Result<bool, AllocError> {
        let known = Names::new(self.alloc, MATCHED)?;
        for name in &read_names(self.alloc, text.as_bytes())? {
            if pseudo_kind(name.kind).is_some() {
                let lower = self.pseudo_name(text, name)?;
                if known.find(lower.as_str()).is_none() {
                    return Ok(true);
                }
            }
        }
        Ok(false)
    }

    /// Whether a list of selectors is refused for a name.
    fn is_of_others(&self, head: &str) -> Result<bool, AllocError> {
        match Selector::read_list_in(self.alloc, head, &NO_NAMES) {
            Ok(_) => Ok(false),
            Err(refusal) => match refusal.why {
                Why::Memory => Err(AllocError),
                Why::UnknownName | Why::UnknownFunction => Ok(true),
                _ => Ok(false),
            },
        }
    }

    /// Reports why the selectors of a rule, which begins with them, are refused: names that are unknown, or
    /// that only other browsers know than the one whose names the library has.
    pub(crate) fn invalid_selectors(
        &mut self,
        head: &str,
        piece: Piece<'_>,
    ) -> Result<(), AllocError> {
        let start = piece.start();
        let end = start.saturating_add(head.len());
        if self.unknown_names(Piece { text: head, end })? {
            return Ok(());
        }
        if self.is_of_others(head)? {
            return self.report_all(Kind::UnsupportedSelector, start, end);
        }
        self.report(Kind::InvalidSelector, start, piece.end)
    }
}
