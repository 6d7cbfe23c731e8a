//! The tokens of a text and the names in selectors, as numbers.

ghost use Rattle.std.specs.Prelude.{◌≡◌, ◌<◌, ◌^◌, ◌++◌, ◌-◌, OnOk, IfOk, length, map};
ghost use Rattle.std.specs.List.{flat_map};
ghost use Rattle.css_syntax.specs.TokenLists.{tokens};
ghost use Rattle.css_syntax.specs.TokenViews.{token_of};
ghost use Rattle.css_syntax.specs.NameViews.{name_of};
ghost use Rattle.sheet_calls.specs.NumberLines.{kind_number as kind_number_of, name_number as name_number_of};
ghost use Rattle.sheet_calls.specs.NumberLines.{token_numbers as token_numbers_of, name_numbers as name_numbers_of};
ghost use Rattle.sheet_calls.specs.NumberLines.{names_numbers, texts_numbers, first_end as first_end_of};
ghost use Rattle.sheet_calls.specs.NumberLines.{IsTokensCall, IsNamesCall};
ghost use Rattle.css_text.specs.Bytes.{past_one};
ghost use Rattle.call_answers.specs.Outcomes.{numbers_outcome};

use call_answers::answer::CallError;
use call_answers::texts::{text_of, texts_of};
use css_syntax::{Name, NameKind, Token, TokenKind, Tokenizer, read_names};
use std::alloc::{AllocError, Global};

/// Returns the number of a kind of tokens.
fn kind_number(kind: TokenKind) -> usize
    ensures { result ≡ kind_number_of kind }
{
    match kind {
        TokenKind::Whitespace => 0,
        TokenKind::Comment => 1,
        TokenKind::Ident => 2,
        TokenKind::Function => 3,
        TokenKind::AtKeyword => 4,
        TokenKind::Hash => 5,
        TokenKind::IdHash => 6,
        TokenKind::String => 7,
        TokenKind::BadString => 8,
        TokenKind::Url => 9,
        TokenKind::BadUrl => 10,
        TokenKind::Number => 11,
        TokenKind::Percentage => 12,
        TokenKind::Dimension => 13,
        TokenKind::Cdo => 14,
        TokenKind::Cdc => 15,
        TokenKind::Delim => 16,
    }
}

/// Returns the number of a kind of names.
fn name_number(kind: NameKind) -> usize
    ensures { result ≡ name_number_of kind }
{
    match kind {
        NameKind::Type => 0,
        NameKind::Class => 1,
        NameKind::Id => 2,
        NameKind::Attribute => 3,
        NameKind::PseudoClass => 4,
        NameKind::PseudoClassFunction => 5,
        NameKind::PseudoElement => 6,
        NameKind::PseudoElementFunction => 7,
        NameKind::Namespace => 8,
        NameKind::Close => 9,
    }
}

/// Returns the offset at which this rest of a text begins, by the offset at which the text ends.
fn offset(end: usize, rest: &[u8]) -> usize
    ensures { result ≡ end - length rest.now }
{
    end.saturating_sub(rest.len())
}

/// Appends the numbers of a token of a text that ends at this offset: its kind, where it begins and
/// ends, and where what is in it does.
fn push_token(out: &mut Vec<usize>, end: usize, token: &Token<'_>) -> Result<(), AllocError>
    ensures { OnOk result
        (out.new.items ≡ out.old.items ++ token_numbers_of end (token_of token.now)) }
{
    out.push(kind_number(token.kind))?;
    out.push(offset(end, token.from))?;
    out.push(offset(end, token.rest))?;
    out.push(offset(end, token.inside))?;
    out.push(offset(end, token.inside_end))?;
    Ok(())
}

/// Returns the numbers of the tokens of a text.
fn token_numbers(alloc: Global, text: &[u8]) -> Result<Vec<usize>, AllocError>
    ensures { IfOk result (λ out. out.items
        ≡ flat_map (token_numbers_of (length text.now)) (tokens text.now)) }
{
    let mut out = Vec::new(alloc);
    let mut tokens = Tokenizer::new(text);
    'tokens: while let Some(token) = tokens.next() {
        push_token(&mut out, text.len(), &token)?;
    }
    Ok(out)
}

/// The numbers of the tokens of a text, five of each.
pub fn tokens(alloc: Global, text: &[u8]) -> Result<Vec<usize>, CallError>
    ensures { IsTokensCall text.now (numbers_outcome result) }
{
    let bytes = text_of(text)?.as_bytes();
    Ok(token_numbers(alloc, bytes)?)
}

/// Appends the numbers of a name in a text that ends at this offset: its kind, where its sign, the
/// name and what follows it begin, its depth, and that in a `:not()`.
fn push_name(out: &mut Vec<usize>, end: usize, name: &Name<'_>) -> Result<(), AllocError>
    ensures { OnOk result
        (out.new.items ≡ out.old.items ++ name_numbers_of end (name_of name.now)) }
{
    out.push(name_number(name.kind))?;
    out.push(offset(end, name.from))?;
    out.push(offset(end, name.name))?;
    out.push(offset(end, name.rest))?;
    out.push(name.depth)?;
    out.push(name.negated)?;
    Ok(())
}

/// Appends the numbers of the names in a text that ends at this offset.
fn push_names(out: &mut Vec<usize>, alloc: Global, end: usize, text: &str) -> Result<(), AllocError>
    ensures { OnOk result (out.new.items ≡ out.old.items ++ names_numbers end text.now) }
{
    let names = read_names(alloc, text.as_bytes())?;
    let mut left = names.as_slice();
    'names: while let [name, others @ ..] = left {
        push_name(out, end, name)?;
        left = others;
    }
    Ok(())
}

/// Returns the first of some ends, or 0 if there are none.
fn first_end(ends: &[usize]) -> usize
    ensures { result ≡ first_end_of ends.now }
{
    match ends {
        [] => 0,
        [end, ..] => *end,
    }
}

/// Returns the ends after the first.
fn later_ends(ends: &[usize]) -> &[usize]
    ensures { result.now ≡ past_one ends.now }
{
    match ends {
        [] => ends,
        [_, later @ ..] => later,
    }
}

/// Returns the numbers of the names in texts that end at these offsets.
fn text_numbers(alloc: Global, texts: &[&str], ends: &[usize]) -> Result<Vec<usize>, AllocError>
    ensures { IfOk result (λ out. out.items
        ≡ texts_numbers (map (λ text. text.now) texts.now) ends.now) }
{
    let mut out = Vec::new(alloc);
    let mut left = texts;
    let mut left_ends = ends;
    'texts: while let [text, others @ ..] = left {
        push_names(&mut out, alloc, first_end(left_ends), text)?;
        left = others;
        left_ends = later_ends(left_ends);
    }
    Ok(out)
}

/// The numbers of the names in each of the texts of a buffer, six of each.
pub fn names(alloc: Global, buffer: &[u8], ends: &[usize]) -> Result<Vec<usize>, CallError>
    ensures { IsNamesCall buffer.now ends.now (numbers_outcome result) }
{
    let texts = texts_of(alloc, buffer, ends)?;
    Ok(text_numbers(alloc, &texts, ends)?)
}
