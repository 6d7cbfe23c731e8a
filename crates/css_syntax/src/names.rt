//! The names in a list of selectors, each with its kind and its place, from the tokens of any text.
ghost use Rattle.std.specs.Prelude.{◌≡◌, ◌<◌, ◌≤◌, ◌^◌, ◌+◌, ◌++◌, [], IfOk, OnOk, length, map, option_map};
ghost use Rattle.css_text.specs.Reading.{before};
ghost use Rattle.css_syntax.specs.NameLists.{is_bar as is_bar_of};
ghost use Rattle.css_syntax.specs.TokenViews.{token_of};
ghost use Rattle.css_syntax.specs.NameLists.{word_of, takes_selectors as takes_selectors_of};
ghost use Rattle.css_syntax.specs.NameLists.{takes_compound as takes_compound_of};
ghost use Rattle.css_syntax.specs.NameLists.{named as named_of, kind_before as kind_before_of};
ghost use Rattle.css_syntax.specs.NameLists.{type_name as type_name_of};
ghost use Rattle.css_syntax.specs.NameLists.{signed_name as signed_name_of};
ghost use Rattle.css_syntax.specs.NameLists.{function_name as function_name_of};
ghost use Rattle.css_syntax.specs.NameLists.{unmarked as unmarked_of, marked_by as marked_by_of};
ghost use Rattle.css_syntax.specs.NameLists.{colon_after as colon_after_of};
ghost use Rattle.css_syntax.specs.NameLists.{bracketed as bracketed_of, first_of as first_of_of};
ghost use Rattle.css_syntax.specs.NameLists.{opened as opened_of, kept_in as kept_in_of};
ghost use Rattle.css_syntax.specs.NameLists.{closed as closed_of, after_word as after_word_of};
ghost use Rattle.css_syntax.specs.NameLists.{after_function as after_function_of};
ghost use Rattle.css_syntax.specs.NameLists.{after_sign as after_sign_of};
ghost use Rattle.css_syntax.specs.NameLists.{after_inner as after_inner_of, role_of as role_named};
ghost use Rattle.css_syntax.specs.NameLists.{close_name as close_name_of};
ghost use Rattle.css_syntax.specs.NameLists.{outer_name as outer_name_of};
ghost use Rattle.css_syntax.specs.NameLists.{attribute_name as attribute_name_of, is_ident};
ghost use Rattle.css_syntax.specs.NameLists.{name_in as name_in_of, after_role as after_role_of};
ghost use Rattle.css_syntax.specs.NameLists.{after_opened as after_opened_of};
ghost use Rattle.css_syntax.specs.NameLists.{after_token as after_token_of, scan_start, names, with_name};
ghost use Rattle.css_syntax.specs.NameViews.{name_of, scan_of};

use crate::tokenizer::{Token, TokenKind, read_next};
use crate::tokens::spells;
use std::alloc::{AllocError, Global};

/// What a name is.
#[derive(Clone, Copy, Debug, PartialEq)]
pub enum NameKind {
    /// The name of an element.
    Type,
    /// A class, after a full stop.
    Class,
    /// An id, after `#`.
    Id,
    /// The name of an attribute.
    Attribute,
    /// A pseudo-class, after a colon.
    PseudoClass,
    /// A pseudo-class with parentheses.
    PseudoClassFunction,
    /// A pseudo-element, after two colons.
    PseudoElement,
    /// A pseudo-element with parentheses.
    PseudoElementFunction,
    /// A namespace, before a bar.
    Namespace,
    /// No name, but a closing parenthesis.
    Close,
}

/// A name and its place. Each place is what is left of the text from it on.
#[derive(Clone, Copy, Debug, PartialEq)]
pub struct Name<'a> {
    /// What it is.
    pub kind: NameKind,
    /// What is left from its sign on, as `.` or `::`.
    pub from: &'a [u8],
    /// What is left from the name on.
    pub name: &'a [u8],
    /// What is left after the name.
    pub rest: &'a [u8],
    /// How many parentheses are open around it.
    pub depth: usize,
    /// How many of them are open up to the first one of the outermost `:not()` around it. 0 in none.
    pub negated: usize,
}

/// The sign that is directly before what follows.
#[derive(Clone, Copy, Debug, PartialEq)]
pub enum Mark {
    /// None.
    Unmarked,
    /// A full stop.
    Dot,
    /// A colon.
    Colon,
    /// Two colons.
    Colons,
}

/// Where in the brackets of an attribute something is.
#[derive(Clone, Copy, Debug, PartialEq)]
pub enum Bracket {
    /// In none.
    Outside,
    /// Before the name of the attribute.
    Opened,
    /// After it.
    Named,
}

/// What a token is where names are found.
#[derive(Clone, Copy, Debug, PartialEq)]
pub enum Role {
    /// Nothing: a comment.
    Nothing,
    /// A name.
    Ident,
    /// A name and a parenthesis.
    Function,
    /// A hash with a name.
    Id,
    /// One byte.
    Sign,
    /// Anything else.
    Other,
}

/// What is known between two tokens.
#[derive(Clone, Copy)]
pub struct Scanned<'a> {
    /// The sign directly before.
    mark: Mark,
    /// What is left from the sign on.
    from: &'a [u8],
    /// How many parentheses are open.
    depth: usize,
    /// How many up to the first one of `:not()`, or 0.
    negated: usize,
    /// How many up to the first one without selectors in it, or 0.
    plain: usize,
    /// Where in the brackets of an attribute.
    bracket: Bracket,
}

/// Returns what is in a token.
fn word<'a>(token: &Token<'a>) -> &'a [u8]
    ensures { result.now ≡ word_of (token_of token.now) }
{
    let length = token.inside.len().saturating_sub(token.inside_end.len());
    &token.inside[..length]
}

/// Whether a compound selector is in the parentheses of a function with this name.
fn takes_compound(name: &[u8]) -> bool
    ensures { result ≡ takes_compound_of name.now }
{
    spells(b"host", name)
        || spells(b"host-context", name)
        || spells(b"slotted", name)
        || spells(b"cue", name)
}

/// Whether selectors are in the parentheses of a function with this name.
fn takes_selectors(name: &[u8]) -> bool
    ensures { result ≡ takes_selectors_of name.now }
{
    spells(b"is", name)
        || spells(b"where", name)
        || spells(b"not", name)
        || spells(b"has", name)
        || takes_compound(name)
}

/// Whether a bar after a namespace is next: not one of `|=` or `||`.
fn is_bar(bytes: &[u8]) -> bool
    ensures { result ≡ is_bar_of bytes.now }
{
    match bytes {
        [b'|', b'=' | b'|', ..] => false,
        [b'|', ..] => true,
        _ => false,
    }
}

/// Returns the name of a token, from its sign on.
fn named<'a>(
    kind: NameKind,
    scanned: &Scanned<'a>,
    from: &'a [u8],
    name: &'a [u8],
    rest: &'a [u8],
) -> Name<'a>
    ensures { name_of result ≡ named_of kind (scan_of scanned.now) from.now name.now rest.now }
{
    Name {
        kind,
        from,
        name,
        rest,
        depth: scanned.depth,
        negated: scanned.negated,
    }
}

/// Returns the kind of a name by what follows it: a namespace before a bar.
fn kind_before(kind: NameKind, rest: &[u8]) -> NameKind
    ensures { result ≡ kind_before_of kind rest.now }
{
    if is_bar(rest) {
        NameKind::Namespace
    } else {
        kind
    }
}

/// Returns a name after no sign: a type, where selectors are.
fn type_name<'a>(scanned: &Scanned<'a>, token: &Token<'a>) -> Option<Name<'a>>
    ensures { type_name_of (scan_of scanned.now) (token_of token.now) ≡ option_map name_of result }
{
    if scanned.plain != 0 {
        return None;
    }
    let kind = kind_before(NameKind::Type, token.rest);
    Some(named(kind, scanned, token.from, token.inside, token.rest))
}

/// Returns a name after the sign before it, outside of the brackets of attributes.
fn signed_name<'a>(scanned: &Scanned<'a>, token: &Token<'a>) -> Option<Name<'a>>
    ensures { signed_name_of scanned.now.mark (scan_of scanned.now) (token_of token.now)
        ≡ option_map name_of result }
{
    let kind = match scanned.mark {
        Mark::Unmarked => return type_name(scanned, token),
        Mark::Dot => NameKind::Class,
        Mark::Colon => NameKind::PseudoClass,
        Mark::Colons => NameKind::PseudoElement,
    };
    Some(named(kind, scanned, scanned.from, token.inside, token.rest))
}

/// Returns the name of a function after the sign before it.
fn function_name<'a>(scanned: &Scanned<'a>, token: &Token<'a>) -> Option<Name<'a>>
    ensures { function_name_of scanned.now.mark (scan_of scanned.now) (token_of token.now)
        ≡ option_map name_of result }
{
    let kind = match scanned.mark {
        Mark::Unmarked | Mark::Dot => return None,
        Mark::Colon => NameKind::PseudoClassFunction,
        Mark::Colons => NameKind::PseudoElementFunction,
    };
    let (from, inside) = (scanned.from, token.inside);
    Some(named(kind, scanned, from, inside, token.inside_end))
}

/// No sign is before what follows.
fn unmarked<'a>(scanned: &Scanned<'a>) -> Scanned<'a>
    ensures { scan_of result ≡ unmarked_of (scan_of scanned.now) }
{
    marked_by(Mark::Unmarked, &[], scanned)
}

/// This sign is before what follows.
fn marked_by<'a>(mark: Mark, from: &'a [u8], scanned: &Scanned<'a>) -> Scanned<'a>
    ensures { scan_of result ≡ marked_by_of mark from.now (scan_of scanned.now) }
{
    Scanned {
        mark,
        from,
        depth: scanned.depth,
        negated: scanned.negated,
        plain: scanned.plain,
        bracket: scanned.bracket,
    }
}

/// A colon is before what follows: the second of two, or the first.
fn colon_after<'a>(from: &'a [u8], scanned: &Scanned<'a>) -> Scanned<'a>
    ensures { scan_of result ≡ colon_after_of scanned.now.mark from.now (scan_of scanned.now) }
{
    match scanned.mark {
        Mark::Colon => marked_by(Mark::Colons, scanned.from, scanned),
        _ => marked_by(Mark::Colon, from, scanned),
    }
}

/// What follows is here in the brackets of an attribute.
fn bracketed<'a>(bracket: Bracket, scanned: &Scanned<'a>) -> Scanned<'a>
    ensures { scan_of result ≡ bracketed_of bracket (scan_of scanned.now) }
{
    Scanned {
        mark: Mark::Unmarked,
        from: &[],
        depth: scanned.depth,
        negated: scanned.negated,
        plain: scanned.plain,
        bracket,
    }
}

/// Returns the number of this parenthesis, if it is the first one.
fn first_of(is: bool, depth: usize, so_far: usize) -> usize
    ensures { result ≡ first_of_of is depth so_far }
{
    if is && so_far == 0 { depth } else { so_far }
}

/// One more parenthesis is open: that of `:not()` or not, with selectors in it or without.
fn opened<'a>(is_negation: bool, is_plain: bool, scanned: &Scanned<'a>) -> Scanned<'a>
    requires { scanned.now.depth < 2 ^ 63 }
    ensures { scan_of result ≡ opened_of is_negation is_plain (scan_of scanned.now) }
{
    let depth = scanned.depth + 1;
    Scanned {
        mark: Mark::Unmarked,
        from: &[],
        depth,
        negated: first_of(is_negation, depth, scanned.negated),
        plain: first_of(is_plain, depth, scanned.plain),
        bracket: scanned.bracket,
    }
}

/// Returns the number of a parenthesis, if it is still open.
fn kept_in(depth: usize, so_far: usize) -> usize
    ensures { result ≡ kept_in_of depth so_far }
{
    if so_far <= depth { so_far } else { 0 }
}

/// The last open parenthesis is closed.
fn closed<'a>(scanned: &Scanned<'a>) -> Scanned<'a>
    ensures { scan_of result ≡ closed_of (scan_of scanned.now) }
{
    let depth = scanned.depth.saturating_sub(1);
    Scanned {
        mark: Mark::Unmarked,
        from: &[],
        depth,
        negated: kept_in(depth, scanned.negated),
        plain: kept_in(depth, scanned.plain),
        bracket: scanned.bracket,
    }
}

/// After `of` in parentheses without selectors, as those of `:nth-child()`, are selectors.
fn after_word<'a>(scanned: &Scanned<'a>, token: &Token<'a>) -> Scanned<'a>
    ensures { scan_of result ≡ after_word_of (scan_of scanned.now) (token_of token.now) }
{
    let ends = scanned.plain == scanned.depth && spells(b"of", word(token));
    Scanned {
        mark: Mark::Unmarked,
        from: &[],
        depth: scanned.depth,
        negated: scanned.negated,
        plain: if ends { 0 } else { scanned.plain },
        bracket: scanned.bracket,
    }
}

/// After a name and a parenthesis.
fn after_function<'a>(scanned: &Scanned<'a>, token: &Token<'a>) -> Scanned<'a>
    requires { scanned.now.depth < 2 ^ 63 }
    ensures { scan_of result ≡ after_function_of (scan_of scanned.now) (token_of token.now) }
{
    let name = word(token);
    let is_negation = matches!(scanned.mark, Mark::Colon) && spells(b"not", name);
    opened(is_negation, !takes_selectors(name), scanned)
}

/// After a token that is one byte, outside of the brackets of attributes.
fn after_sign<'a>(scanned: &Scanned<'a>, from: &'a [u8]) -> Scanned<'a>
    requires { scanned.now.depth < 2 ^ 63 }
    ensures { scan_of result ≡ after_sign_of (scan_of scanned.now) from.now }
{
    match from {
        [b'.', ..] => marked_by(Mark::Dot, from, scanned),
        [b':', ..] => colon_after(from, scanned),
        [b'[', ..] => bracketed(Bracket::Opened, scanned),
        [b'(', ..] => opened(false, true, scanned),
        [b')', ..] => closed(scanned),
        _ => unmarked(scanned),
    }
}

/// After a token in the brackets of an attribute that is not its name.
fn after_inner<'a>(scanned: &Scanned<'a>, token: &Token<'a>) -> Scanned<'a>
    ensures { scan_of result ≡ after_inner_of (scan_of scanned.now) (token_of token.now) }
{
    match token.from {
        [b']', ..] => bracketed(Bracket::Outside, scanned),
        _ => *scanned,
    }
}

/// Returns what a token of this kind is where names are found.
fn role_of(kind: TokenKind) -> Role
    ensures { result ≡ role_named kind }
{
    match kind {
        TokenKind::Comment => Role::Nothing,
        TokenKind::Ident => Role::Ident,
        TokenKind::Function => Role::Function,
        TokenKind::IdHash => Role::Id,
        TokenKind::Delim => Role::Sign,
        _ => Role::Other,
    }
}

/// Returns a closing parenthesis, with the depth outside of it.
fn close_name<'a>(scanned: &Scanned<'a>, token: &Token<'a>) -> Option<Name<'a>>
    ensures { close_name_of (scan_of scanned.now) (token_of token.now) ≡ option_map name_of result }
{
    match token.from {
        [b')', ..] => {
            let (after, rest) = (closed(scanned), token.rest);
            Some(named(NameKind::Close, &after, token.from, rest, rest))
        }
        _ => None,
    }
}

/// Returns the name of a token outside of the brackets of attributes.
fn outer_name<'a>(scanned: &Scanned<'a>, token: &Token<'a>) -> Option<Name<'a>>
    ensures { outer_name_of (role_named token.now.kind) (scan_of scanned.now) (token_of token.now)
        ≡ option_map name_of result }
{
    match role_of(token.kind) {
        Role::Ident => signed_name(scanned, token),
        Role::Function => function_name(scanned, token),
        Role::Id => {
            let (from, inside) = (token.from, token.inside);
            Some(named(NameKind::Id, scanned, from, inside, token.rest))
        }
        Role::Sign => close_name(scanned, token),
        Role::Nothing | Role::Other => None,
    }
}

/// Whether a token is a name.
fn is_name(token: &Token<'_>) -> bool
    ensures { result ≡ is_ident (role_named token.now.kind) }
{
    matches!(role_of(token.kind), Role::Ident)
}

/// Returns the first name in the brackets of an attribute.
fn attribute_name<'a>(scanned: &Scanned<'a>, token: &Token<'a>) -> Option<Name<'a>>
    ensures { attribute_name_of (scan_of scanned.now) (token_of token.now)
        ≡ option_map name_of result }
{
    if !is_name(token) {
        return None;
    }
    let kind = kind_before(NameKind::Attribute, token.rest);
    Some(named(kind, scanned, token.from, token.inside, token.rest))
}

/// Returns the name that a token is or ends with.
#[tactic(auto, unfolding(crate::specs::NameLists::name_in))]
fn name_in<'a>(scanned: &Scanned<'a>, token: &Token<'a>) -> Option<Name<'a>>
    ensures { name_in_of (scan_of scanned.now) (token_of token.now) ≡ option_map name_of result }
{
    match scanned.bracket {
        Bracket::Outside => outer_name(scanned, token),
        Bracket::Opened => attribute_name(scanned, token),
        Bracket::Named => None,
    }
}

/// Returns what is known after a token outside of the brackets of attributes.
fn after_role<'a>(scanned: &Scanned<'a>, token: &Token<'a>) -> Scanned<'a>
    requires { scanned.now.depth < 2 ^ 63 }
    ensures { scan_of result
        ≡ after_role_of (role_named token.now.kind) (scan_of scanned.now) (token_of token.now) }
{
    match role_of(token.kind) {
        Role::Nothing => *scanned,
        Role::Ident => after_word(scanned, token),
        Role::Function => after_function(scanned, token),
        Role::Sign => after_sign(scanned, token.from),
        Role::Id | Role::Other => unmarked(scanned),
    }
}

/// Returns what is known after a token in the brackets of an attribute, before its name.
fn after_opened<'a>(scanned: &Scanned<'a>, token: &Token<'a>) -> Scanned<'a>
    ensures { scan_of result ≡ after_opened_of (scan_of scanned.now) (token_of token.now) }
{
    if is_name(token) && !is_bar(token.rest) {
        bracketed(Bracket::Named, scanned)
    } else {
        after_inner(scanned, token)
    }
}

/// Returns what is known after a token.
#[tactic(auto, unfolding(crate::specs::NameLists::after_token))]
fn after_token<'a>(scanned: &Scanned<'a>, token: &Token<'a>) -> Scanned<'a>
    requires { scanned.now.depth < 2 ^ 63 }
    ensures { scan_of result ≡ after_token_of (scan_of scanned.now) (token_of token.now) }
{
    match scanned.bracket {
        Bracket::Outside => after_role(scanned, token),
        Bracket::Opened => after_opened(scanned, token),
        Bracket::Named => after_inner(scanned, token),
    }
}

/// Before the first token.
fn start<'a>() -> Scanned<'a>
    ensures { scan_of result ≡ scan_start }
{
    Scanned {
        mark: Mark::Unmarked,
        from: &[],
        depth: 0,
        negated: 0,
        plain: 0,
        bracket: Bracket::Outside,
    }
}

/// Appends the name, if there is one.
fn push_found<'a>(found: &mut Vec<Name<'a>>, name: Option<Name<'a>>) -> Result<(), AllocError>
    ensures { OnOk result (map name_of found.new.items
        ≡ map name_of found.old.items ++ with_name (option_map name_of name.entry) []) }
{
    if let Some(name) = name {
        found.push(name)?;
    }
    Ok(())
}

/// Returns the names in a list of selectors, in order. Any text has some: they are found by its
/// tokens. Fails only if an allocation fails.
pub fn read_names(alloc: Global, text: &[u8]) -> Result<Vec<Name<'_>>, AllocError>
    ensures { IfOk result (λ found. map name_of found.items ≡ names text.now) }
{
    let mut found = Vec::new(alloc);
    let mut scanned = start();
    let mut rest = text;
    'tokens: while let Some(token) = read_next(rest) {
        push_found(&mut found, name_in(&scanned, &token))?;
        scanned = after_token(&scanned, &token);
        rest = token.rest;
    }
    Ok(found)
}
