//! Values of descriptors, of which a few words are known.

use crate::blocks::is_among;
use crate::findings::Finding;
use crate::kinds::Kind;
use crate::linter::Linter;
use crate::texts::{Piece, first_bytes, inner_size_of, is_space, next_token};
use crate::values::inside_of;
use crate::vocabulary::nearest_word;
use css_syntax::TokenKind;
use std::alloc::AllocError;

/// The types of values in the syntax of a custom property.
const TYPES: &str =
    "angle color custom-ident image integer length length-percentage number percentage resolution string time \
    transform-function transform-list url";

/// Returns the first words of the values that a descriptor has, or nothing if they are not known.
fn first_words(name: &str) -> &'static str {
    match name {
        "font-display" => "auto block fallback optional swap",
        "inherits" => "false true",
        "system" => "additive alphabetic cyclic extends fixed numeric symbolic",
        _ => "",
    }
}

/// Returns what is before the first space byte of a text.
fn first_word(text: &str) -> &str {
    for (at, byte) in text.as_bytes().iter().enumerate() {
        if is_space(*byte) {
            return first_bytes(text, at);
        }
    }
    text
}

/// Whether a text is a name in the syntax of a custom property: of a type between angle brackets, or a word.
fn is_component(text: &str) -> bool {
    let name = text
        .strip_suffix('+')
        .unwrap_or(text.strip_suffix('#').unwrap_or(text));
    match name.strip_prefix('<') {
        Some(rest) => match rest.strip_suffix('>') {
            Some(kind) => is_among(kind, TYPES),
            None => false,
        },
        None => !name.is_empty() && !name.contains('<') && !name.contains('>'),
    }
}

/// Whether a text is the syntax of a custom property: names with bars between them, or an asterisk.
fn is_syntax(text: &str) -> bool {
    if text.trim() == "*" {
        return true;
    }
    let mut rest = text;
    for _ in 0..=text.len() {
        let (one, more) = match rest.split_once('|') {
            Some(both) => both,
            None => return is_component(rest.trim()),
        };
        if !is_component(one.trim()) {
            return false;
        }
        rest = more;
    }
    false
}

impl<'t> Linter<'t> {
    /// Reports the syntax of a custom property, if it is a string with another syntax.
    fn syntax(&mut self, value: Piece<'t>) -> Result<(), AllocError> {
        let Some(token) = next_token(value.text.as_bytes()) else {
            return Ok(());
        };
        let text = inside_of(value.text, &token);
        let is_plain = matches!(token.kind, TokenKind::String)
            && inner_size_of(&token) == text.len()
            && !text.contains('\\');
        if is_plain && !is_syntax(text) {
            return self.report(Kind::InvalidPropertyRule, value.start(), value.end);
        }
        Ok(())
    }

    /// Reports the value of a descriptor, if its first word is another one than those that are known.
    pub(crate) fn descriptor(&mut self, name: &str, value: Piece<'t>) -> Result<(), AllocError> {
        if name == "syntax" {
            return self.syntax(value);
        }
        let words = first_words(name);
        let word = first_word(value.text);
        let is_plain = word
            .as_bytes()
            .iter()
            .all(|byte| byte.is_ascii_alphabetic());
        if words.is_empty() || word.is_empty() || !is_plain || is_among(word, words) {
            return Ok(());
        }
        let near = nearest_word(self.alloc, word, &[words])?;
        let start = value.start();
        let end = start.saturating_add(word.len());
        self.found
            .push(Finding::named(Kind::InvalidValue, start, end, "", near))?;
        Ok(())
    }
}
