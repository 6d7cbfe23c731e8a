//! Values that every browser knows, by their forms.

use crate::traits::is_one_of;
use css_syntax::{Token, TokenKind, Tokenizer};

/// Words of values.
const WORDS: &[&str] = &[
    "absolute",
    "always",
    "aqua",
    "auto",
    "avoid",
    "baseline",
    "black",
    "block",
    "blue",
    "bold",
    "bolder",
    "both",
    "bottom",
    "break-word",
    "capitalize",
    "center",
    "circle",
    "collapse",
    "dashed",
    "decimal",
    "disc",
    "dotted",
    "double",
    "fixed",
    "fuchsia",
    "gray",
    "grey",
    "green",
    "hidden",
    "inherit",
    "inline",
    "inline-block",
    "inside",
    "italic",
    "justify",
    "large",
    "left",
    "lighter",
    "lime",
    "line-through",
    "list-item",
    "lowercase",
    "maroon",
    "medium",
    "middle",
    "navy",
    "no-repeat",
    "none",
    "normal",
    "nowrap",
    "oblique",
    "olive",
    "outside",
    "overline",
    "pre",
    "purple",
    "red",
    "relative",
    "repeat",
    "repeat-x",
    "repeat-y",
    "right",
    "scroll",
    "separate",
    "show",
    "hide",
    "silver",
    "small",
    "small-caps",
    "smaller",
    "larger",
    "solid",
    "square",
    "static",
    "sub",
    "super",
    "table",
    "table-cell",
    "table-row",
    "teal",
    "text-bottom",
    "text-top",
    "thick",
    "thin",
    "top",
    "transparent",
    "underline",
    "uppercase",
    "visible",
    "white",
    "yellow",
    "x-small",
    "x-large",
    "xx-small",
    "xx-large",
    "sans-serif",
    "serif",
    "monospace",
    "arial",
    "helvetica",
    "georgia",
    "verdana",
    "tahoma",
    "times",
];

/// Units of lengths.
const UNITS: &[&str] = &["px", "em", "ex", "pt", "pc", "in", "cm", "mm"];

/// How many parts a value has at most that is known.
const MOST_PARTS: usize = 4;

/// Returns what is between two places of a text.
pub(crate) fn between<'a>(from: &'a [u8], to: &[u8]) -> &'a [u8] {
    from.get(..from.len().saturating_sub(to.len()))
        .unwrap_or(from)
}

/// Whether bytes are one of some words, in any case.
fn is_word(words: &[&str], bytes: &[u8]) -> bool {
    match std::str::from_utf8(bytes) {
        Ok(word) => is_one_of(words, word),
        Err(_) => false,
    }
}

/// Whether a number is written without an exponent.
fn is_plain_number(bytes: &[u8]) -> bool {
    !bytes.iter().any(|byte| matches!(*byte, b'e' | b'E'))
}

/// Whether a hash is a colour of three or six digits.
fn is_color(bytes: &[u8]) -> bool {
    matches!(bytes.len(), 3 | 6) && bytes.iter().all(|byte| byte.is_ascii_hexdigit())
}

/// Whether every browser knows what a token denotes.
fn is_plain(token: &Token<'_>) -> bool {
    match token.kind {
        TokenKind::Number => is_plain_number(between(token.from, token.rest)),
        TokenKind::Percentage => is_plain_number(between(token.from, token.inside)),
        TokenKind::Dimension => {
            is_plain_number(between(token.from, token.inside))
                && is_word(UNITS, between(token.inside, token.inside_end))
        }
        TokenKind::Hash | TokenKind::IdHash => is_color(between(token.inside, token.inside_end)),
        TokenKind::String | TokenKind::Url => true,
        TokenKind::Ident => is_word(WORDS, between(token.from, token.rest)),
        _ => false,
    }
}

/// Whether a token begins the arguments of a function that every browser knows.
fn begins_arguments(token: &Token<'_>) -> bool {
    let text = between(token.from, token.rest);
    matches!(token.kind, TokenKind::Function)
        && (text.eq_ignore_ascii_case(b"rgb(") || text.eq_ignore_ascii_case(b"url("))
}

/// Where a reader of a value is.
#[derive(Clone, Copy)]
struct Place {
    /// How many parts there are.
    parts: usize,
    /// Whether a part may begin.
    is_apart: bool,
    /// Whether it is in the arguments of a function.
    is_inside: bool,
}

/// Returns the place after a token in the arguments of a function, if every browser knows it.
fn after_argument(place: Place, token: &Token<'_>) -> Option<Place> {
    match (token.kind, between(token.from, token.rest)) {
        (TokenKind::Delim, b")") => Some(Place {
            is_inside: false,
            ..place
        }),
        (TokenKind::Number | TokenKind::Percentage | TokenKind::Whitespace | TokenKind::String, _)
        | (TokenKind::Delim, b",") => Some(place),
        _ => None,
    }
}

/// Returns the place after a token, if every browser knows it.
fn after_token(place: Place, token: &Token<'_>) -> Option<Place> {
    let is_separator = matches!(between(token.from, token.rest), b"," | b"/");
    if token.kind == TokenKind::Whitespace || is_separator {
        return Some(Place {
            is_apart: true,
            ..place
        });
    }
    let is_inside = begins_arguments(token);
    if !place.is_apart || !is_inside && !is_plain(token) {
        return None;
    }
    Some(Place {
        parts: place.parts.saturating_add(1),
        is_apart: false,
        is_inside,
    })
}

/// Whether a value has a form that every browser knows.
pub(crate) fn is_known(value: &str) -> bool {
    let mut place = Place {
        parts: 0,
        is_apart: true,
        is_inside: false,
    };
    for token in Tokenizer::new(value.as_bytes()) {
        let after = if place.is_inside {
            after_argument(place, &token)
        } else {
            after_token(place, &token)
        };
        match after {
            Some(after) => place = after,
            None => return false,
        }
    }
    0 < place.parts && place.parts <= MOST_PARTS && !place.is_inside
}
