//! The tokenizer of selectors.
ghost use Rattle.std.specs.Prelude.{◌≡◌, ◌<◌, ℕ, List, true, false, Some, if◌then◌else◌};
ghost use Rattle.css_text.specs.Reading.{got};
ghost use Rattle.css_text.specs.AsciiBytes.{slash};
ghost use Rattle.css_text.specs.Bytes.{all_before, past_one, starts};
ghost use Rattle.css_text.specs.Errors.{Gives, position_of};
ghost use Rattle.css_text.specs.Cursor.{text_of, rest_of};
ghost use Rattle.css_text.specs.ThisEdition.{this_edition};
ghost use Rattle.simplecss_grammar.specs.Pieces.{attribute_after as attribute_read};
ghost use Rattle.simplecss_grammar.specs.Pieces.{attribute_operator as operator_read};
ghost use Rattle.simplecss_grammar.specs.Pieces.{lang_after as language_read};
ghost use Rattle.simplecss_grammar.specs.Pieces.{pseudo_class_after as pseudo_class_read};
ghost use Rattle.simplecss_grammar.specs.Pieces.{next_kind, IsSimplePiece, solid_as};
ghost use Rattle.simplecss_selector.specs.OperatorViews.{operator_of};
ghost use Rattle.simplecss_selector.specs.TokenViews.{token_of};
ghost use Rattle.simplecss_selector.specs.declared.token.SelectorToken.TheVariants.{AttributeSelector};
ghost use Rattle.simplecss_selector.specs.declared.token.SelectorToken.TheVariants.{LangPseudoClass};
ghost use Rattle.simplecss_selector.specs.declared.token.SelectorToken.TheVariants.{PseudoClass};
ghost use Rattle.simplecss_selector.specs.internal.NextKinds.{IsNamed, stage_after_fault};

use crate::{AttributeOperator, SelectorToken};
use css_text::stream::Stream;
use css_text::{Error, readers, scan};
use simplecss_grammar::next_kind::{NextKind, next_kind};
use std::iter::FusedIterator;

/// The state of a tokenizer.
#[derive(Clone, Copy)]
enum Stage {
    /// At the start of the text, or after a combinator.
    Open,
    /// After a simple piece: `*`, a type name, an id, a class, an attribute or a pseudo-class.
    Closed,
    /// After a first error: the error that a selector is missing is still to come.
    Missing,
    /// After the last token or error.
    Ended,
}

/// An iterator over the tokens of a selector's text, in order, up to the first error.
///
/// They end at the end of the text, before `,` or `{`, or before a `/` that opens no comment and
/// follows a simple piece with no space byte between. At most one more error follows the first: that
/// a selector is missing. Nothing is allocated.
#[derive(Drop)]
pub struct SelectorTokenizer<'a> {
    /// The text, and the offset up to which it was read.
    stream: Stream<'a>,
    /// What may come next.
    stage: Stage,
}

/// Consumes the operator and value after an attribute's name.
#[inline(always)]
#[tactic(auto, unfolding(simplecss_grammar::specs::Pieces::attribute_operator))]
fn attribute_operator<'a>(stream: &mut Stream<'a>) -> Result<AttributeOperator<'a>, Error>
    ensures text { text_of stream.new ≡ text_of stream.old }
    ensures reads { Gives operator_of (text_of stream.old)
        (operator_read this_edition (rest_of stream.old)) result (rest_of stream.new) }
{
    let first = stream.curr_byte()?;
    match first {
        b']' => return Ok(AttributeOperator::Exists),
        b'=' => {}
        b'~' | b'|' => {
            stream.try_consume_byte(first);
        }
        _ => return Err(Error::InvalidAttributeSelector),
    }
    stream.consume_byte(b'=')?;
    let value = stream.consume_string()?;
    Ok(match first {
        b'~' => AttributeOperator::Contains(value),
        b'|' => AttributeOperator::StartsWith(value),
        _ => AttributeOperator::Matches(value),
    })
}

/// Consumes an attribute's name and the condition on its value, after the `[`.
#[inline(never)]
#[tactic(auto, unfolding(simplecss_grammar::specs::Pieces::attribute_after))]
fn attribute<'a>(stream: &mut Stream<'a>) -> Result<(&'a str, AttributeOperator<'a>), Error>
    ensures text { text_of stream.new ≡ text_of stream.old }
    ensures reads { Gives (λ required. token_of (AttributeSelector required.0 required.1))
        (text_of stream.old)
        (attribute_read this_edition (rest_of stream.old)) result (rest_of stream.new) }
{
    let name = stream.consume_ident()?;
    let operator = attribute_operator(stream)?;
    stream.consume_byte(b']')?;
    Ok((name, operator))
}

/// Consumes the language of a `:lang`, after that name.
#[inline(always)]
#[tactic(auto, unfolding(simplecss_grammar::specs::Pieces::lang_after))]
fn language<'a>(stream: &mut Stream<'a>) -> Result<&'a str, Error>
    ensures text { text_of stream.new ≡ text_of stream.old }
    ensures reads { Gives (λ language. token_of (LangPseudoClass language)) (text_of stream.old)
        (language_read (rest_of stream.old)) result (rest_of stream.new) }
{
    stream.consume_byte(b'(')?;
    let language = text_before(stream, b')').trim();
    stream.consume_byte(b')')?;
    if language.is_empty() {
        return Err(Error::InvalidLanguagePseudoClass);
    }
    Ok(language)
}

/// Consumes the name of a pseudo-class after its `:`, or the language of a `:lang`. Returns it, and
/// whether it is a language.
#[inline(never)]
#[tactic(auto, unfolding(simplecss_grammar::specs::Pieces::pseudo_class_after))]
fn pseudo_class<'a>(stream: &mut Stream<'a>) -> Result<(&'a str, bool), Error>
    ensures text { text_of stream.new ≡ text_of stream.old }
    ensures reads { Gives
        (λ reported. token_of (if reported.1 then LangPseudoClass reported.0 else PseudoClass reported.0))
        (text_of stream.old) (pseudo_class_read this_edition (rest_of stream.old)) result
        (rest_of stream.new) }
{
    let name = stream.consume_ident()?;
    if name == "lang" {
        return Ok((language(stream)?, true));
    }
    Ok((name, false))
}

/// Consumes everything up to the first `byte`, or up to the end of the text, and returns it.
#[inline(always)]
fn text_before<'a>(stream: &mut Stream<'a>, byte: u8) -> &'a str
    requires { byte < 128 }
    ensures text { text_of stream.new ≡ text_of stream.old }
    ensures reads { all_before byte (rest_of stream.old) ≡ got result.now (rest_of stream.new) }
{
    let text = stream.slice_tail();
    let len = match scan::find_byte(text, byte) {
        Some(len) => len,
        None => text.len(),
    };
    stream.advance(len);
    &text[..len]
}

/// Consumes the `>` that the caller has seen.
#[inline(always)]
#[tactic(auto, unfolding(simplecss_grammar::specs::Pieces::next_kind))]
fn child<'a>(stream: &mut Stream<'a>) -> SelectorToken<'a>
    requires { next_kind (rest_of stream.old) ≡ NextKind.Child }
    ensures text { text_of stream.new ≡ text_of stream.old }
    ensures reads { solid_as this_edition NextKind.Child (rest_of stream.old)
        ≡ got (token_of result) (rest_of stream.new) }
{
    stream.try_consume_byte(b'>');
    SelectorToken::ChildCombinator
}

/// Consumes the `+` that the caller has seen.
#[inline(always)]
#[tactic(auto, unfolding(simplecss_grammar::specs::Pieces::next_kind))]
fn adjacent<'a>(stream: &mut Stream<'a>) -> SelectorToken<'a>
    requires { next_kind (rest_of stream.old) ≡ NextKind.Adjacent }
    ensures text { text_of stream.new ≡ text_of stream.old }
    ensures reads { solid_as this_edition NextKind.Adjacent (rest_of stream.old)
        ≡ got (token_of result) (rest_of stream.new) }
{
    stream.try_consume_byte(b'+');
    SelectorToken::AdjacentCombinator
}

/// Consumes the name of an id or a class after its sign, or of a type.
#[inline(always)]
#[tactic(auto, unfolding(simplecss_grammar::specs::Pieces::next_kind, simplecss_grammar::specs::Pieces::named_token))]
fn name<'a>(stream: &mut Stream<'a>, follows: NextKind) -> Result<SelectorToken<'a>, Error>
    requires here { next_kind (rest_of stream.old) ≡ follows }
    requires named { IsNamed follows }
    ensures text { text_of stream.new ≡ text_of stream.old }
    ensures reads { Gives token_of (text_of stream.old)
        (solid_as this_edition follows (rest_of stream.old)) result (rest_of stream.new) }
{
    match follows {
        NextKind::Id => stream.try_consume_byte(b'#'),
        NextKind::Class => stream.try_consume_byte(b'.'),
        _ => {}
    }
    let name = stream.consume_ident()?;
    Ok(match follows {
        NextKind::Id => SelectorToken::IdSelector(name),
        NextKind::Class => SelectorToken::ClassSelector(name),
        _ => SelectorToken::TypeSelector(name),
    })
}

/// Consumes a simple piece of the kind that the caller has seen.
#[inline(always)]
#[tactic(auto, unfolding(simplecss_grammar::specs::Pieces::next_kind))]
fn simple_piece<'a>(stream: &mut Stream<'a>, follows: NextKind) -> Result<SelectorToken<'a>, Error>
    requires here { next_kind (rest_of stream.old) ≡ follows }
    requires simple { IsSimplePiece follows }
    ensures text { text_of stream.new ≡ text_of stream.old }
    ensures reads { Gives token_of (text_of stream.old)
        (solid_as this_edition follows (rest_of stream.old)) result (rest_of stream.new) }
{
    match follows {
        NextKind::Universal => {
            stream.try_consume_byte(b'*');
            Ok(SelectorToken::UniversalSelector)
        }
        NextKind::Attribute => {
            stream.try_consume_byte(b'[');
            let (name, operator) = attribute(stream)?;
            Ok(SelectorToken::AttributeSelector(name, operator))
        }
        NextKind::Colon => {
            stream.try_consume_byte(b':');
            Ok(match pseudo_class(stream)? {
                (language, true) => SelectorToken::LangPseudoClass(language),
                (name, false) => SelectorToken::PseudoClass(name),
            })
        }
        _ => name(stream, follows),
    }
}

impl<'a> From<&'a str> for SelectorTokenizer<'a> {
    ghost use Rattle.simplecss_selector.specs.SelectorTokenizers.{Begins};

    ghost from_gives = { λ text t. Begins text.now t };

    /// Returns an iterator over the tokens of the selector at the start of the text.
    fn from(text: &'a str) -> SelectorTokenizer<'a> {
        SelectorTokenizer {
            stream: Stream::from(text),
            stage: Stage::Open,
        }
    }
}

impl<'a> SelectorTokenizer<'a> {
    ghost use Rattle.css_text.specs.Reading.{got as gives_value};
    ghost use Rattle.std.specs.Prelude.{drop};
    ghost use Rattle.std.specs.Str.{IsCharBoundary};
    ghost use Rattle.css_text.specs.Comments.{gap};
    ghost use Rattle.simplecss_selector.specs.SelectorTokenizers.{whole_text, offset_in, left_of};
    ghost use Rattle.simplecss_selector.specs.SelectorTokenizers.{sequence_in};
    ghost use Rattle.simplecss_selector.specs.SelectorTokenizers.{still_to_come, GivesFirst};

    /// Returns the offset up to which the text was read, in bytes from its start. It is at most the
    /// text's length and is a character boundary.
    #[inline(always)]
    pub fn pos(&self) -> usize
        ensures index { result ≡ offset_in self.now }
        ensures rest { drop result (whole_text self.now) ≡ left_of self.now }
        ensures boundary { IsCharBoundary (whole_text self.now) result }
    {
        self.stream.pos()
    }

    /// Returns what comes at the start of the text or after a combinator: the token of a simple
    /// piece, or an error.
    #[inline(always)]
    fn next_open(&mut self) -> Result<SelectorToken<'a>, Error>
        ensures whole_text { whole_text self.new ≡ whole_text self.old }
        ensures first { GivesFirst (whole_text self.old) (sequence_in Stage.Open (left_of self.old))
            (Some result)
            (left_of self.new) (still_to_come self.new) }
    {
        if let Err(error) = readers::consume_gap(&mut self.stream) {
            self.stage = Stage::Missing;
            return Err(error);
        }
        let follows = next_kind(&self.stream);
        match follows {
            NextKind::Stop | NextKind::Slash => {
                self.stage = Stage::Ended;
                Err(Error::SelectorMissing)
            }
            NextKind::Child | NextKind::Adjacent => {
                self.stage = Stage::Ended;
                Err(Error::UnexpectedCombinator)
            }
            _ => match simple_piece(&mut self.stream, follows) {
                Ok(token) => {
                    self.stage = Stage::Closed;
                    Ok(token)
                }
                Err(error) => {
                    self.stage = after_fault(follows);
                    Err(error)
                }
            },
        }
    }

    /// Returns what comes after a simple piece.
    #[inline(always)]
    fn next_closed(&mut self) -> Option<Result<SelectorToken<'a>, Error>>
        requires { self.old.stage ≡ Stage.Closed }
        ensures whole_text { whole_text self.new ≡ whole_text self.old }
        ensures first { GivesFirst (whole_text self.old) (sequence_in Stage.Closed (left_of self.old)) result
            (left_of self.new) (still_to_come self.new) }
    {
        let spaced = match readers::consume_gap(&mut self.stream) {
            Ok(spaced) => spaced,
            Err(error) => {
                self.stage = Stage::Ended;
                return Some(Err(error));
            }
        };
        let follows = next_kind(&self.stream);
        match follows {
            NextKind::Stop => {
                self.stage = Stage::Ended;
                None
            }
            NextKind::Slash if spaced => {
                self.stage = Stage::Ended;
                Some(Err(slash_error(&mut self.stream)))
            }
            NextKind::Slash => {
                self.stage = Stage::Ended;
                None
            }
            NextKind::Child => {
                self.stage = Stage::Open;
                Some(Ok(child(&mut self.stream)))
            }
            NextKind::Adjacent => {
                self.stage = Stage::Open;
                Some(Ok(adjacent(&mut self.stream)))
            }
            _ if spaced => {
                self.stage = Stage::Open;
                Some(Ok(SelectorToken::DescendantCombinator))
            }
            _ => Some(self.next_joined(follows)),
        }
    }

    /// Returns what directly follows a simple piece: a subselector continues the compound, and
    /// another head is refused.
    #[inline(always)]
    fn next_joined(&mut self, follows: NextKind) -> Result<SelectorToken<'a>, Error>
        requires stage { self.old.stage ≡ Stage.Closed }
        requires here { next_kind (left_of self.old) ≡ follows }
        requires simple { IsSimplePiece follows }
        ensures whole_text { whole_text self.new ≡ whole_text self.old }
        ensures first { (text : List ℕ) → gap text ≡ gives_value false (left_of self.old)
            → GivesFirst (whole_text self.old) (sequence_in Stage.Closed text) (Some result)
            (left_of self.new) (still_to_come self.new) }
    {
        if let NextKind::Universal = follows {
            self.stage = Stage::Ended;
            return Err(Error::UnexpectedSelector);
        }
        match simple_piece(&mut self.stream, follows) {
            Ok(token) => match follows {
                NextKind::Other => {
                    self.stage = Stage::Ended;
                    Err(Error::UnexpectedSelector)
                }
                _ => Ok(token),
            },
            Err(error) => {
                self.stage = Stage::Ended;
                Err(error)
            }
        }
    }
}

/// Returns the state after a fault in place of a simple piece: if no head begins, the error that a
/// selector is missing is still to come.
#[inline(always)]
fn after_fault(follows: NextKind) -> Stage
    ensures { result ≡ stage_after_fault follows }
{
    match follows {
        NextKind::Other => Stage::Missing,
        _ => Stage::Ended,
    }
}

/// Consumes a `/` that opens no comment, and reports it as an error.
#[cold]
#[inline(never)]
fn slash_error(stream: &mut Stream<'_>) -> Error
    requires { starts slash (rest_of stream.old) ≡ true }
    ensures text { text_of stream.new ≡ text_of stream.old }
    ensures rest { rest_of stream.new ≡ past_one (rest_of stream.old) }
    ensures error { result
        ≡ Error.InvalidComment (position_of (text_of stream.old) (rest_of stream.old)) }
{
    let pos = stream.gen_text_pos();
    stream.try_consume_byte(b'/');
    Error::InvalidComment(pos)
}

impl<'a> Iterator for SelectorTokenizer<'a> {
    ghost use Rattle.std.specs.Iterator.{item_count};
    ghost use Rattle.simplecss_selector.specs.SelectorTokenizers.{items_left, GivesItem};

    type Item = Result<SelectorToken<'a>, Error>;

    ghost next_gives = { GivesItem };

    ghost remaining = { item_count items_left };

    /// Returns the next token or error. Names and values are slices of the text, each after the one
    /// before.
    #[inline(always)]
    fn next(&mut self) -> Option<Result<SelectorToken<'a>, Error>> {
        match self.stage {
            Stage::Open => Some(self.next_open()),
            Stage::Closed => self.next_closed(),
            Stage::Missing => {
                self.stage = Stage::Ended;
                Some(Err(Error::SelectorMissing))
            }
            Stage::Ended => None,
        }
    }
}

impl<'a> FusedIterator for SelectorTokenizer<'a> {}
