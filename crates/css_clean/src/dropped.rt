//! What is dropped, and why.
ghost use Rattle.std.specs.Prelude.{◌≡◌};
ghost use Rattle.css_clean.specs.Views.{policy_of};
ghost use Rattle.css_clean.specs.Policies.{kind_reason as kind_reason_of, tokens_reason as tokens_reason_of};
ghost use Rattle.css_clean.specs.Policies.{value_reason as value_reason_of, reason_of as reason_of_declaration};
ghost use Rattle.css_clean.specs.Views.{place_of};
ghost use Rattle.css_syntax.specs.TokenLists.{tokens};
ghost use Rattle.css_syntax.specs.Views.{declaration_of};

use crate::policy::{
    Place, Policy, are_safe, is_property, is_token_allowed, is_value_allowed, place_of_value,
};
use clean_values::limits::is_within_limit;
use css_syntax::Declaration;
use css_syntax::printing::ends_lone;
use css_syntax::tokenizer::{TokenKind, read_next};

/// Why a piece of a text is dropped.
#[derive(Clone, Copy, Debug, PartialEq)]
pub enum Reason {
    /// The property is not listed.
    Property,
    /// A function is not listed.
    Function,
    /// There is a url without an answer.
    Url,
    /// There is a string, and the property is not listed for strings, or a string with a newline.
    String,
    /// There is another token that is not allowed: a comment, a name after `@`, `<!--` or `-->`.
    Token,
    /// There is a byte that is not written: a control character, an angle bracket, a brace, a backslash
    /// or `@`.
    Byte,
    /// The declaration is important.
    Important,
    /// A bracket, a string, a url or a comment is open at the end of the text, or a backslash is there.
    Open,
    /// A selector of the list is not allowed.
    Selector,
    /// The at-rule is not allowed, or its media query.
    AtRule,
    /// It is no declaration or no rule, or a rule nested in one.
    Broken,
    /// None of the declarations of the rule is allowed.
    Empty,
    /// The text is longer than the policy says.
    Limit,
    /// What is left of the sheet was read again, and was not clean. All of it is dropped.
    Unclean,
    /// A number or a word of the value is beyond the limit of the property.
    Beyond,
}

/// Each reason, in the order of their numbers in C.
pub const REASONS: [Reason; 15] = [
    Reason::Property,
    Reason::Function,
    Reason::Url,
    Reason::String,
    Reason::Token,
    Reason::Byte,
    Reason::Important,
    Reason::Open,
    Reason::Selector,
    Reason::AtRule,
    Reason::Broken,
    Reason::Empty,
    Reason::Limit,
    Reason::Unclean,
    Reason::Beyond,
];

impl Reason {
    /// Returns a word for the reason.
    pub fn word(self) -> &'static str {
        match self {
            Reason::Property => "property",
            Reason::Function => "function",
            Reason::Url => "url",
            Reason::String => "string",
            Reason::Token => "token",
            Reason::Byte => "byte",
            Reason::Important => "important",
            Reason::Open => "open",
            Reason::Selector => "selector",
            Reason::AtRule => "at-rule",
            Reason::Broken => "broken",
            Reason::Empty => "empty",
            Reason::Limit => "limit",
            Reason::Unclean => "unclean",
            Reason::Beyond => "beyond",
        }
    }
}

/// A piece of a text that is dropped.
#[derive(Clone, Copy, Debug, PartialEq)]
pub struct Dropped {
    /// The offset of its first byte.
    pub start: usize,
    /// The offset after its last byte.
    pub end: usize,
    /// Why it is dropped.
    pub reason: Reason,
}

/// Returns why a token of this kind is refused.
fn kind_reason(kind: TokenKind) -> Reason
    ensures { result ≡ kind_reason_of kind }
{
    match kind {
        TokenKind::Function => Reason::Function,
        TokenKind::Url | TokenKind::BadUrl => Reason::Url,
        TokenKind::String | TokenKind::BadString => Reason::String,
        _ => Reason::Token,
    }
}

/// Returns why the first token is refused that the place does not allow.
fn tokens_reason(place: Place<'_>, value: &[u8]) -> Reason
    ensures { result ≡ tokens_reason_of (place_of place.entry) (tokens value.now) }
{
    let mut rest = value;
    'tokens: while let Some(token) = read_next(rest) {
        if !is_token_allowed(place, false, &token) {
            return kind_reason(token.kind);
        }
        rest = token.rest;
    }
    Reason::Token
}

/// Returns why a value is refused: for a token of it, or for the limit of its property.
fn value_reason(policy: Policy<'_>, name: &[u8], value: &[u8]) -> Reason
    ensures { result ≡ value_reason_of (policy_of policy.entry) name.now value.now }
{
    if is_value_allowed(policy, name, value) && !is_within_limit(policy.limits, name, value) {
        return Reason::Beyond;
    }
    tokens_reason(place_of_value(policy, name, value), value)
}

/// Returns why a declaration that the policy does not allow is refused: the first reason that holds.
pub(crate) fn reason_of(policy: Policy<'_>, declaration: &Declaration<'_>) -> Reason
    ensures { result ≡ reason_of_declaration (policy_of policy.entry) (declaration_of declaration.now) }
{
    let name = declaration.name.as_bytes();
    let value = declaration.value.as_bytes();
    if !is_property(policy, name) {
        Reason::Property
    } else if declaration.important && !policy.important {
        Reason::Important
    } else if !declaration.closed || ends_lone(value) {
        Reason::Open
    } else if !(are_safe(name) && are_safe(value)) {
        Reason::Byte
    } else {
        value_reason(policy, name, value)
    }
}
