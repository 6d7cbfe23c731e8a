//! What a policy allows of declarations.
ghost use Rattle.std.specs.Prelude.{◌≡◌, false, map};
ghost use Rattle.css_text.specs.Bytes.{starts_by};
ghost use Rattle.css_syntax.specs.TokenLists.{tokens};
ghost use Rattle.css_syntax.specs.TokenViews.{token_of};
ghost use Rattle.css_syntax.specs.Views.{declaration_of};
ghost use Rattle.css_clean.specs.Policies.{is_safe_byte as is_safe_byte_of};
ghost use Rattle.css_clean.specs.Policies.{are_safe as are_safe_of, begins_mark as begins_mark_of};
ghost use Rattle.css_clean.specs.Policies.{function_allowed, string_allowed, value_allows as value_allows_of};
ghost use Rattle.css_clean.specs.Policies.{place_of_value as place_of_value_text, is_property as is_property_of};
ghost use Rattle.css_clean.specs.Policies.{selector_allows as selector_allows_of};
ghost use Rattle.css_clean.specs.Policies.{media_allows as media_allows_of, is_media_mark};
ghost use Rattle.css_clean.specs.Policies.{scope_allows as scope_allows_of, supports_allows as supports_allows_of};
ghost use Rattle.css_clean.specs.Policies.{name_allows as name_allows_of, frames_allow as frames_allow_of};
ghost use Rattle.css_clean.specs.Policies.{sheet_allows as sheet_allows_of};
ghost use Rattle.css_clean.specs.Policies.{token_allowed, all_allowed, is_colon as is_colon_of, may_end as may_end_of};
ghost use Rattle.css_clean.specs.Policies.{is_allowed as is_allowed_of, value_allowed};
ghost use Rattle.css_clean.specs.Views.{policy_of, place_of, value_place_of};
ghost use Rattle.clean_values.specs.Views.{changes_of};

use crate::groups::group_of;
use clean_values::changes::Changes;
use clean_values::checks::{has_prefix, is_beside_urls, is_custom, is_one_of};
use clean_values::limits::{Limits, is_within_limit};
use clean_values::names::{inside, is_listed};
use clean_values::values::{has_loader, has_source};
use css_syntax::Declaration;
use css_syntax::printing::ends_lone;
use css_syntax::tokenizer::{Token, TokenKind, read_next};

/// What is allowed of declarations. Names are in lower case, and match names in any case.
#[derive(Clone, Copy)]
pub struct Policy<'p> {
    /// The names of the properties.
    pub properties: &'p [&'p str],
    /// The names of the functions.
    pub functions: &'p [&'p str],
    /// The properties of which values may have strings, of those that are listed.
    pub strings: &'p [&'p str],
    /// Whether declarations may be important.
    pub important: bool,
    /// Limits of values of properties that are listed.
    pub limits: Limits<'p>,
    /// The most bytes of a text. A longer one is dropped whole.
    pub longest: usize,
    /// What is changed in values: urls are answered, and names have a prefix. With a prefix, custom properties
    /// are allowed, too.
    pub changes: Changes<'p>,
}

/// What a value may have.
#[derive(Clone, Copy)]
pub(crate) struct ValuePlace<'p> {
    /// The functions.
    pub functions: &'p [&'p str],
    /// Whether it may have strings.
    pub strings: bool,
    /// Whether each string is a url.
    pub sources: bool,
    /// Whether a function loads a string.
    pub loads: bool,
    /// Whether words are names.
    pub named: bool,
    /// What is changed in values.
    pub changes: Changes<'p>,
}

/// Where tokens are, and which are listed there.
#[derive(Clone, Copy)]
pub(crate) enum Place<'p> {
    /// A value.
    Value(ValuePlace<'p>),
    /// A selector, with its pseudo-classes and pseudo-elements.
    Selector(&'p [&'p str]),
    /// A media query, with its words.
    Media(&'p [&'p str]),
    /// A condition of `@supports`.
    Supports,
    /// A name.
    Name,
    /// The frames of a rule in `@keyframes`.
    Frames,
    /// The scope.
    Scope,
    /// A whole sheet, with the functions of values, the pseudo-classes of selectors, and what is listed of media queries.
    Sheet(&'p [&'p str], &'p [&'p str], &'p [&'p str]),
}

/// Whether the byte is one that may be written in a value.
pub(crate) fn is_safe_byte(byte: u8) -> bool
    ensures { result ≡ is_safe_byte_of byte }
{
    !matches!(byte, 0..=8 | 11 | 12 | 14..=31 | 127 | b'<' | b'>' | b'{' | b'}' | b'\\' | b'@')
}

/// Whether each byte may be written in a value.
pub(crate) fn are_safe(bytes: &[u8]) -> bool
    ensures { result ≡ are_safe_of bytes.now }
{
    let mut left = bytes;
    'bytes: while let [byte, more @ ..] = left {
        if !is_safe_byte(*byte) {
            return false;
        }
        left = more;
    }
    true
}

/// Whether a value may have a function of this name.
fn is_function_allowed(place: ValuePlace<'_>, name: &[u8]) -> bool
    ensures { result ≡ function_allowed (value_place_of place.entry) name.now }
{
    is_listed(place.functions, name) && (!place.loads || is_beside_urls(name))
}

/// Whether a value may have a string in which this is.
fn is_string_allowed(place: ValuePlace<'_>, inside: &[u8]) -> bool
    ensures { result ≡ string_allowed (value_place_of place.entry) inside.now }
{
    if place.sources {
        return is_one_of(place.changes.answers, inside);
    }
    place.strings && !place.named
}

/// Whether a value may have a token of this kind, in which this is.
fn value_allows(place: ValuePlace<'_>, kind: TokenKind, inside: &[u8]) -> bool
    ensures { result ≡ value_allows_of (value_place_of place.entry) kind inside.now }
{
    match kind {
        TokenKind::Ident => has_prefix(place.changes, place.named, inside),
        TokenKind::Function => is_function_allowed(place, inside),
        TokenKind::String => is_string_allowed(place, inside),
        TokenKind::Url
        | TokenKind::BadUrl
        | TokenKind::BadString
        | TokenKind::AtKeyword
        | TokenKind::Comment
        | TokenKind::Cdo
        | TokenKind::Cdc => false,
        _ => true,
    }
}

/// Whether a byte is next that may be a token of a selector, or `|=`.
fn begins_mark(from: &[u8]) -> bool
    ensures { result ≡ begins_mark_of from.now }
{
    match from {
        [
            b'.'
            | b'*'
            | b'>'
            | b'+'
            | b'-'
            | b'~'
            | b':'
            | b','
            | b'['
            | b']'
            | b'='
            | b'^'
            | b'$',
            ..
        ] => true,
        [b'(' | b')', ..] => true,
        [b'|', b'=', ..] => true,
        _ => false,
    }
}

/// Whether a selector may have a token of this kind, in which this is, after a colon or not.
fn selector_allows(
    pseudos: &[&str],
    after_colon: bool,
    kind: TokenKind,
    from: &[u8],
    inside: &[u8],
) -> bool
    ensures { result ≡ selector_allows_of (map (λ name. name.now) pseudos.now) after_colon kind from.now inside.now }
{
    match kind {
        TokenKind::Ident => !after_colon || is_listed(pseudos, inside),
        TokenKind::Function => after_colon && is_listed(pseudos, inside),
        TokenKind::Whitespace
        | TokenKind::Hash
        | TokenKind::IdHash
        | TokenKind::String
        | TokenKind::Number
        | TokenKind::Dimension => !after_colon,
        TokenKind::Delim => begins_mark(from),
        _ => false,
    }
}

/// Whether a media query may have a token of this kind, in which this is.
fn media_allows(words: &[&str], kind: TokenKind, from: &[u8], inside: &[u8]) -> bool
    ensures { result ≡ media_allows_of (map (λ name. name.now) words.now) kind from.now inside.now }
{
    match kind {
        TokenKind::Ident => is_listed(words, inside),
        TokenKind::Whitespace | TokenKind::Number | TokenKind::Dimension => true,
        TokenKind::Delim => matches!(from, [b'(' | b')' | b':' | b',' | b'/', ..]),
        _ => false,
    }
}

/// Whether a condition of `@supports` may have a token of this kind.
fn supports_allows(kind: TokenKind, from: &[u8]) -> bool
    ensures { result ≡ supports_allows_of kind from.now }
{
    match kind {
        TokenKind::Whitespace
        | TokenKind::Ident
        | TokenKind::Hash
        | TokenKind::IdHash
        | TokenKind::Number
        | TokenKind::Percentage
        | TokenKind::Dimension => true,
        TokenKind::Delim => matches!(from, [b'(' | b')' | b':' | b',' | b'/', ..]),
        _ => false,
    }
}

/// Whether a name may have a token of this kind.
fn name_allows(kind: TokenKind) -> bool
    ensures { result ≡ name_allows_of kind }
{
    match kind {
        TokenKind::Ident => true,
        _ => false,
    }
}

/// Whether the frames of a rule may have a token of this kind, in which this is.
fn frames_allow(kind: TokenKind, from: &[u8], inside: &[u8]) -> bool
    ensures { result ≡ frames_allow_of kind from.now inside.now }
{
    match kind {
        TokenKind::Ident => is_listed(&["from", "to"], inside),
        TokenKind::Whitespace | TokenKind::Percentage => true,
        TokenKind::Delim => matches!(from, [b',', ..]),
        _ => false,
    }
}

/// Whether the scope may have a token of this kind.
fn scope_allows(kind: TokenKind, from: &[u8]) -> bool
    ensures { result ≡ scope_allows_of kind from.now }
{
    match kind {
        TokenKind::Ident | TokenKind::Hash | TokenKind::IdHash => true,
        TokenKind::Delim => matches!(from, [b'.', ..]),
        _ => false,
    }
}

/// Whether a sheet may have a token of this kind, in which this is, anywhere.
fn sheet_allows(
    functions: &[&str],
    pseudos: &[&str],
    media: &[&str],
    kind: TokenKind,
    inside: &[u8],
) -> bool
    ensures { result ≡ sheet_allows_of (map (λ name. name.now) functions.now)
        (map (λ name. name.now) pseudos.now) (map (λ name. name.now) media.now) kind inside.now }
{
    match kind {
        TokenKind::Function => is_listed(functions, inside) || is_listed(pseudos, inside),
        TokenKind::AtKeyword => group_of(media, inside).is_some(),
        TokenKind::Comment
        | TokenKind::BadString
        | TokenKind::Url
        | TokenKind::BadUrl
        | TokenKind::Cdo
        | TokenKind::Cdc => false,
        _ => true,
    }
}

/// Whether the token is allowed in its place, after a colon or not.
pub(crate) fn is_token_allowed(place: Place<'_>, after_colon: bool, token: &Token<'_>) -> bool
    ensures { result ≡ token_allowed (place_of place.entry) after_colon (token_of token.now) }
{
    match place {
        Place::Value(place) => value_allows(place, token.kind, inside(token)),
        Place::Selector(pseudos) => {
            selector_allows(pseudos, after_colon, token.kind, token.from, inside(token))
        }
        Place::Media(words) => media_allows(words, token.kind, token.from, inside(token)),
        Place::Supports => supports_allows(token.kind, token.from),
        Place::Name => name_allows(token.kind),
        Place::Frames => frames_allow(token.kind, token.from, inside(token)),
        Place::Scope => scope_allows(token.kind, token.from),
        Place::Sheet(functions, pseudos, media) => {
            sheet_allows(functions, pseudos, media, token.kind, inside(token))
        }
    }
}

/// Whether the token is a colon.
fn is_colon(token: &Token<'_>) -> bool
    ensures { result ≡ is_colon_of (token_of token.now) }
{
    match token.kind {
        TokenKind::Delim => matches!(token.from, [b':', ..]),
        _ => false,
    }
}

/// Whether the tokens of the place may end after a colon, or after another token.
fn may_end(place: Place<'_>, after_colon: bool) -> bool
    ensures { result ≡ may_end_of (place_of place.entry) after_colon }
{
    match place {
        Place::Selector(_) => !after_colon,
        _ => true,
    }
}

/// Whether each token of a text is allowed in its place.
pub(crate) fn are_tokens_allowed(place: Place<'_>, text: &[u8]) -> bool
    ensures { result ≡ all_allowed (place_of place.entry) false (tokens text.now) }
{
    let mut rest = text;
    let mut after_colon = false;
    'tokens: while let Some(token) = read_next(rest) {
        if !is_token_allowed(place, after_colon, &token) {
            return false;
        }
        after_colon = is_colon(&token);
        rest = token.rest;
    }
    may_end(place, after_colon)
}

/// Returns what a value of this property may have.
pub(crate) fn place_of_value<'p>(policy: Policy<'p>, name: &[u8], value: &[u8]) -> Place<'p>
    ensures { place_of result ≡ place_of_value_text (policy_of policy.entry) name.now value.now }
{
    let sources = has_source(value);
    Place::Value(ValuePlace {
        functions: policy.functions,
        strings: is_listed(policy.strings, name),
        sources,
        loads: sources && has_loader(value),
        named: is_listed(policy.changes.named, name),
        changes: policy.changes,
    })
}

/// Whether the policy allows the property: it is listed, or it is a custom one whose name has the prefix.
pub(crate) fn is_property(policy: Policy<'_>, name: &[u8]) -> bool
    ensures { result ≡ is_property_of (policy_of policy.entry) name.now }
{
    is_listed(policy.properties, name) || is_custom(policy.changes, name)
}

/// Whether the policy allows each token of a value of this property.
pub(crate) fn is_value_allowed(policy: Policy<'_>, name: &[u8], value: &[u8]) -> bool
    ensures { result ≡ value_allowed (policy_of policy.entry) name.now value.now }
{
    are_tokens_allowed(place_of_value(policy, name, value), value)
}

/// Whether the policy allows the declaration: its property is listed or a custom one, it is closed and has
/// nothing but bytes that may be written, each token of its value is allowed, and if it is important, that
/// is, too. And its value is within the limit of the property, if that has one.
pub fn is_allowed(policy: Policy<'_>, declaration: &Declaration<'_>) -> bool
    ensures { result ≡ is_allowed_of (policy_of policy.entry) (declaration_of declaration.now) }
{
    let name = declaration.name.as_bytes();
    let value = declaration.value.as_bytes();
    declaration.closed
        && !ends_lone(value)
        && (policy.important || !declaration.important)
        && is_property(policy, name)
        && are_safe(name)
        && are_safe(value)
        && is_value_allowed(policy, name, value)
        && is_within_limit(policy.limits, name, value)
}
