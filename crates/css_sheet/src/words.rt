//! The words of a text: its tokens, without comments, and without the blanks that no meaning depends on.
ghost use Rattle.std.specs.Prelude.{◌≡◌, ◌++◌, false, OnOk, IfOk, map, option_map};
ghost use Rattle.css_text.specs.Reading.{before};
ghost use Rattle.css_syntax.specs.TokenLists.{tokens as tokens_of};
ghost use Rattle.css_syntax.specs.TokenViews.{token_of};
ghost use Rattle.css_sheet.specs.Pieces.{piece_of};
ghost use Rattle.css_syntax.specs.TokenLists.{next_token};
ghost use Rattle.css_sheet.specs.Words.{first_or_zero as first_or_zero_of, rest_length};
ghost use Rattle.css_sheet.specs.Words.{class_of as class_of_kind, word_of as word_of_token, mark as mark_of};
ghost use Rattle.css_sheet.specs.Words.{is_opening as is_opening_mark, is_closing as is_closing_mark};
ghost use Rattle.css_sheet.specs.Words.{is_combinator as is_combinator_mark, begins_step as begins_step_text};
ghost use Rattle.css_sheet.specs.Words.{is_function as is_function_class, is_ident as is_ident_class};
ghost use Rattle.css_sheet.specs.Words.{joins as joins_texts, is_tight as is_tight_pair};
ghost use Rattle.css_sheet.specs.Words.{is_free_in_selector as is_free_in_selectors, is_free as is_free_by};
ghost use Rattle.css_sheet.specs.Words.{commented, spaced, gap_pieces, ending, is_open as is_open_word};
ghost use Rattle.css_sheet.specs.Words.{is_declarations as is_declarations_way, is_stated as is_stated_feature};
ghost use Rattle.css_sheet.specs.Words.{between, word_piece as word_piece_of, gap_of as gap_of_word};
ghost use Rattle.css_sheet.specs.Words.{wider as wider_gap, feature_after as feature_after_word};
ghost use Rattle.css_sheet.specs.Words.{first_gap, inner_gap, pieces_at, seen_after, words_end, words};
ghost use Rattle.css_sheet.specs.Words.{begins_custom as begins_custom_text, is_custom_word as is_custom_word_of};
ghost use Rattle.css_sheet.specs.Words.{custom_after as custom_after_word, sets_custom as sets_custom_tokens};
ghost use Rattle.css_sheet.specs.internal.WordViews.{word_text, seen_text};

use crate::pieces::Piece;
use css_syntax::tokenizer::read_next;
use css_syntax::{Token, TokenKind, Tokenizer};
use std::alloc::{AllocError, Global};

/// What a text is, by which blanks in it a meaning depends on.
#[derive(Clone, Copy)]
pub(crate) enum Way {
    /// Selectors.
    Selectors,
    /// The condition of a group rule.
    Condition,
    /// A value, or what is before the block of an at-rule.
    Value,
    /// Declarations, perhaps in blocks.
    Declarations,
}

/// What is between two words.
#[derive(Clone, Copy)]
pub(crate) enum Gap {
    /// Nothing.
    Nothing,
    /// Comments.
    Comments,
    /// Blanks, and perhaps comments.
    Blanks,
    /// Semicolons between declarations, and perhaps blanks and comments.
    Semicolons,
}

/// What a word is in a feature of a condition, as `(width: 1px)` is.
#[derive(Clone, Copy)]
pub(crate) enum Feature {
    /// Anything else.
    Other,
    /// The parenthesis before it.
    Opened,
    /// Its name.
    Named,
    /// The colon after its name.
    Stated,
}

/// What a token is to what is between it and another.
#[derive(Clone, Copy)]
pub(crate) enum Class {
    /// Blanks.
    Blank,
    /// A comment.
    Comment,
    /// A name.
    Ident,
    /// A name and an opening parenthesis.
    Function,
    /// One byte, such as a comma.
    Mark,
    /// Any other.
    Other,
}

/// A token, by its class and its text.
#[derive(Clone, Copy)]
pub(crate) struct Word<'a> {
    pub(crate) class: Class,
    pub(crate) text: &'a [u8],
}

/// What was seen of a text: the last word, what it is in a feature, and what is after it.
#[derive(Clone, Copy)]
pub(crate) struct Seen<'a> {
    pub(crate) word: Option<Word<'a>>,
    pub(crate) feature: Feature,
    pub(crate) gap: Gap,
}

/// Returns the class of a kind of tokens.
fn class_of(kind: TokenKind) -> Class
    ensures { result ≡ class_of_kind kind }
{
    match kind {
        TokenKind::Whitespace => Class::Blank,
        TokenKind::Comment => Class::Comment,
        TokenKind::Ident => Class::Ident,
        TokenKind::Function => Class::Function,
        TokenKind::Delim => Class::Mark,
        _ => Class::Other,
    }
}

/// Returns the text of a token.
fn text_of<'a>(token: &Token<'a>) -> &'a [u8]
    ensures { result.now ≡ before token.now.from.now token.now.rest.now }
{
    &token.from[..token.from.len().saturating_sub(token.rest.len())]
}

/// Returns a token as a word.
fn word_of<'a>(token: &Token<'a>) -> Word<'a>
    ensures { word_text result ≡ word_of_token (token_of token.now) }
{
    Word {
        class: class_of(token.kind),
        text: text_of(token),
    }
}

/// Returns the first byte, or 0 if there is none.
fn first_or_zero(text: &[u8]) -> u8
    ensures { result ≡ first_or_zero_of text.now }
{
    match text {
        [byte, ..] => *byte,
        [] => 0,
    }
}

/// Returns the byte that a word is, or 0 if it is no mark.
fn mark(word: &Word<'_>) -> u8
    ensures { result ≡ mark_of (word_text word.now) }
{
    match word.class {
        Class::Mark => first_or_zero(word.text),
        _ => 0,
    }
}

/// Whether a class is that of functions.
fn is_function(class: Class) -> bool
    ensures { result ≡ is_function_class class }
{
    matches!(class, Class::Function)
}

/// Whether a class is that of names.
fn is_ident(class: Class) -> bool
    ensures { result ≡ is_ident_class class }
{
    matches!(class, Class::Ident)
}

/// Whether no blank has to follow a mark.
fn is_opening(mark: u8) -> bool
    ensures { result ≡ is_opening_mark mark }
{
    mark == b'{' || mark == b'}' || mark == b';' || mark == b',' || mark == b'('
}

/// Whether no blank has to be before a mark.
fn is_closing(mark: u8) -> bool
    ensures { result ≡ is_closing_mark mark }
{
    mark == b'{' || mark == b'}' || mark == b';' || mark == b',' || mark == b')'
}

/// Whether nothing has to be between two words, whatever the text is.
fn is_tight(before: &Word<'_>, after: &Word<'_>) -> bool
    ensures { result ≡ is_tight_pair (word_text before.now) (word_text after.now) }
{
    is_opening(mark(before)) || is_closing(mark(after)) || is_function(before.class)
}

/// Whether a mark is a combinator of selectors.
fn is_combinator(mark: u8) -> bool
    ensures { result ≡ is_combinator_mark mark }
{
    mark == b'>' || mark == b'+' || mark == b'~'
}

/// Whether a name may be an `n`, which is a number with a sign after `+`.
fn begins_step(text: &[u8]) -> bool
    ensures { result ≡ begins_step_text text.now }
{
    matches!(text, [b'n' | b'N' | b'\\', ..])
}

/// Whether nothing has to be between two words of selectors.
fn is_free_in_selector(before: &Word<'_>, after: &Word<'_>) -> bool
    ensures { result ≡ is_free_in_selectors (word_text before.now) (word_text after.now) }
{
    let (first, second) = (mark(before), mark(after));
    first == b'['
        || second == b']'
        || second == b'=' && first == 0
        || first == b'=' && second == 0
        || is_combinator(second) && !is_combinator(first)
        || is_combinator(first)
            && !is_combinator(second)
            && !(second == b'=')
            && !(first == b'+' && begins_step(after.text))
}

/// Whether a word is the colon of a feature.
fn is_stated(feature: Feature) -> bool
    ensures { result ≡ is_stated_feature feature }
{
    matches!(feature, Feature::Stated)
}

/// Whether nothing has to be between two words of such a text, where the first is this in a feature.
fn is_free(way: Way, feature: Feature, before: &Word<'_>, after: &Word<'_>) -> bool
    ensures { result ≡ is_free_by way feature (word_text before.now) (word_text after.now) }
{
    match way {
        Way::Selectors => is_free_in_selector(before, after),
        Way::Condition => is_stated(feature),
        Way::Value => false,
        Way::Declarations => mark(before) == b':',
    }
}

/// Returns how many bytes follow the first token.
fn rest_len(bytes: &[u8]) -> usize
    ensures { result ≡ rest_length (next_token bytes.now) }
{
    match read_next(bytes) {
        Some(token) => token.rest.len(),
        None => 0,
    }
}

/// Whether two words would begin with another token than the first, if nothing were between them.
fn joins(alloc: Global, first: &[u8], second: &[u8]) -> Result<bool, AllocError>
    ensures { IfOk result (λ joined. joined ≡ joins_texts first.now second.now) }
{
    let mut both = Vec::new(alloc);
    both.extend_from_slice(first)?;
    both.extend_from_slice(second)?;
    Ok(rest_len(both.as_slice()) != second.len())
}

/// Appends what has to be between two words, if comments are.
fn push_commented<'a>(
    out: &mut Vec<Piece<'a>>,
    alloc: Global,
    before: &Word<'a>,
    after: &Word<'a>,
) -> Result<(), AllocError>
    ensures { OnOk result (map piece_of out.new.items ≡ map piece_of out.old.items
        ++ commented (word_text before.now) (word_text after.now)) }
{
    if joins(alloc, before.text, after.text)? {
        out.push(Piece::Word(b"/**/"))?;
    }
    Ok(())
}

/// Appends what has to be between two words, if blanks are.
fn push_spaced<'a>(
    out: &mut Vec<Piece<'a>>,
    alloc: Global,
    way: Way,
    feature: Feature,
    before: &Word<'a>,
    after: &Word<'a>,
) -> Result<(), AllocError>
    ensures { OnOk result (map piece_of out.new.items ≡ map piece_of out.old.items
        ++ spaced way feature (word_text before.now) (word_text after.now)) }
{
    if is_free(way, feature, before, after) {
        if !joins(alloc, before.text, after.text)? {
            return Ok(());
        }
    }
    out.push(Piece::Word(b" "))?;
    Ok(())
}

/// Appends what is said where this is between two words.
fn push_gap<'a>(
    out: &mut Vec<Piece<'a>>,
    alloc: Global,
    way: Way,
    seen: &Seen<'a>,
    before: &Word<'a>,
    after: &Word<'a>,
) -> Result<(), AllocError>
    ensures { OnOk result (map piece_of out.new.items ≡ map piece_of out.old.items
        ++ gap_pieces seen.now.gap way seen.now.feature (word_text before.now) (word_text after.now)) }
{
    match seen.gap {
        Gap::Nothing => Ok(()),
        Gap::Comments => {
            if is_tight(before, after) {
                return Ok(());
            }
            push_commented(out, alloc, before, after)
        }
        Gap::Blanks => {
            if is_tight(before, after) {
                return Ok(());
            }
            push_spaced(out, alloc, way, seen.feature, before, after)
        }
        Gap::Semicolons => {
            out.push(Piece::Semicolon)?;
            Ok(())
        }
    }
}

/// Whether a declaration ends with this word, unless a block begins or ends there.
fn is_open(word: &Option<Word<'_>>) -> bool
    ensures { result ≡ is_open_word (option_map word_text word.now) }
{
    match word {
        Some(before) => !(mark(before) == b'{') && !(mark(before) == b'}'),
        None => false,
    }
}

/// Appends what is said between what was seen and the end of a block of declarations.
fn push_ending(out: &mut Vec<Piece<'_>>, seen: &Seen<'_>) -> Result<(), AllocError>
    ensures { OnOk result (map piece_of out.new.items ≡ map piece_of out.old.items
        ++ ending (seen_text seen.now).gap (seen_text seen.now).word) }
{
    let ends = match seen.gap {
        Gap::Semicolons => true,
        _ => is_open(&seen.word),
    };
    if ends {
        out.push(Piece::Semicolon)?;
    }
    Ok(())
}

/// Whether a text is declarations.
fn is_declarations(way: Way) -> bool
    ensures { result ≡ is_declarations_way way }
{
    matches!(way, Way::Declarations)
}

/// Appends what is said between what was seen and a word.
fn push_inner<'a>(
    out: &mut Vec<Piece<'a>>,
    alloc: Global,
    way: Way,
    seen: &Seen<'a>,
    after: &Word<'a>,
) -> Result<(), AllocError>
    ensures { OnOk result (map piece_of out.new.items ≡ map piece_of out.old.items
        ++ inner_gap way (seen_text seen.now) (seen_text seen.now).word (word_text after.now)) }
{
    match &seen.word {
        Some(before) => push_gap(out, alloc, way, seen, before, after),
        None => match seen.gap {
            Gap::Semicolons => {
                out.push(Piece::Semicolon)?;
                Ok(())
            }
            _ => Ok(()),
        },
    }
}

/// Appends what is said between what was seen and a word.
fn push_between<'a>(
    out: &mut Vec<Piece<'a>>,
    alloc: Global,
    way: Way,
    seen: &Seen<'a>,
    after: &Word<'a>,
) -> Result<(), AllocError>
    ensures { OnOk result (map piece_of out.new.items ≡ map piece_of out.old.items
        ++ between way (seen_text seen.now) (word_text after.now)) }
{
    if is_declarations(way) && mark(after) == b'}' {
        push_ending(out, seen)
    } else {
        push_inner(out, alloc, way, seen, after)
    }
}

/// Returns the piece that a word is.
fn word_piece<'a>(way: Way, word: &Word<'a>) -> Piece<'a>
    ensures { piece_of result ≡ word_piece_of way (word_text word.now) }
{
    if !is_declarations(way) {
        return Piece::Word(word.text);
    }
    match mark(word) {
        b'{' => Piece::Opens,
        b'}' => Piece::Closes,
        b':' => Piece::Colon,
        _ => Piece::Word(word.text),
    }
}

/// Returns what a token is between words, unless it is one.
fn gap_of(way: Way, word: &Word<'_>) -> Option<Gap>
    ensures { result ≡ gap_of_word way (word_text word.now) }
{
    match word.class {
        Class::Blank => Some(Gap::Blanks),
        Class::Comment => Some(Gap::Comments),
        Class::Mark => {
            if is_declarations(way) && mark(word) == b';' {
                Some(Gap::Semicolons)
            } else {
                None
            }
        }
        _ => None,
    }
}

/// Returns the more of two that are between the same words.
fn wider(gap: Gap, more: Gap) -> Gap
    ensures { result ≡ wider_gap gap more }
{
    match (gap, more) {
        (Gap::Nothing, _) => more,
        (_, Gap::Nothing) => gap,
        (Gap::Comments, _) => more,
        (_, Gap::Comments) => gap,
        (Gap::Blanks, _) => more,
        (Gap::Semicolons, _) => gap,
    }
}

/// Returns what a word is in a feature, after what the last one is.
fn feature_after(feature: Feature, word: &Word<'_>) -> Feature
    ensures { result ≡ feature_after_word feature (word_text word.now) }
{
    if mark(word) == b'(' {
        return Feature::Opened;
    }
    match feature {
        Feature::Opened if is_ident(word.class) => Feature::Named,
        Feature::Named if mark(word) == b':' => Feature::Stated,
        _ => Feature::Other,
    }
}

/// Returns what was seen after a token.
fn seen_past<'a>(seen: &Seen<'a>, word: &Word<'a>, gap: Option<Gap>) -> Seen<'a>
    ensures { seen_text result ≡ seen_after (seen_text seen.now) (word_text word.now) gap }
{
    match gap {
        Some(gap) => Seen {
            word: seen.word,
            feature: seen.feature,
            gap: wider(seen.gap, gap),
        },
        None => Seen {
            word: Some(*word),
            feature: feature_after(seen.feature, word),
            gap: Gap::Nothing,
        },
    }
}

/// Appends what a token says, if it is a word.
fn push_at<'a>(
    out: &mut Vec<Piece<'a>>,
    alloc: Global,
    way: Way,
    seen: &Seen<'a>,
    word: &Word<'a>,
    gap: Option<Gap>,
) -> Result<(), AllocError>
    ensures { OnOk result (map piece_of out.new.items ≡ map piece_of out.old.items
        ++ pieces_at way (seen_text seen.now) (word_text word.now) gap) }
{
    match gap {
        Some(_) => Ok(()),
        None => {
            push_between(out, alloc, way, seen, word)?;
            out.push(word_piece(way, word))?;
            Ok(())
        }
    }
}

/// Appends what is said between what was seen and the end of a text.
fn push_end(out: &mut Vec<Piece<'_>>, way: Way, seen: &Seen<'_>) -> Result<(), AllocError>
    ensures { OnOk result (map piece_of out.new.items ≡ map piece_of out.old.items
        ++ words_end way (seen_text seen.now)) }
{
    if is_declarations(way) {
        return push_ending(out, seen);
    }
    Ok(())
}

/// Appends the words of a text.
pub(crate) fn push_words<'a>(
    out: &mut Vec<Piece<'a>>,
    alloc: Global,
    way: Way,
    text: &'a [u8],
) -> Result<(), AllocError>
    ensures { OnOk result (map piece_of out.new.items ≡ map piece_of out.old.items
        ++ words way text.now) }
{
    let mut seen = Seen {
        word: None,
        feature: Feature::Other,
        gap: Gap::Nothing,
    };
    let mut tokens = Tokenizer::new(text);
    'tokens: while let Some(token) = tokens.next() {
        let word = word_of(&token);
        let gap = gap_of(way, &word);
        push_at(out, alloc, way, &seen, &word, gap)?;
        seen = seen_past(&seen, &word, gap);
    }
    push_end(out, way, &seen)
}

/// Whether a name begins with two hyphens, each as it is or perhaps as an escape.
fn begins_custom(text: &[u8]) -> bool
    ensures { result ≡ begins_custom_text text.now }
{
    match text {
        [b'\\', ..] => true,
        [b'-', b'-' | b'\\', ..] => true,
        _ => false,
    }
}

/// Whether a word is perhaps the name of a custom property.
fn is_custom_word(word: &Word<'_>) -> bool
    ensures { result ≡ is_custom_word_of (word_text word.now) }
{
    is_ident(word.class) && begins_custom(word.text)
}

/// Whether the last word is one after a token.
fn custom_after(custom: bool, word: &Word<'_>, gap: Option<Gap>) -> bool
    ensures { result ≡ custom_after_word custom (word_text word.now) gap }
{
    match gap {
        Some(_) => custom,
        None => is_custom_word(word),
    }
}

/// Whether the name of a custom property is in a text, directly before a colon.
pub(crate) fn sets_custom(text: &[u8]) -> bool
    ensures { result ≡ sets_custom_tokens false (tokens_of text.now) }
{
    let mut custom = false;
    let mut tokens = Tokenizer::new(text);
    'tokens: while let Some(token) = tokens.next() {
        let word = word_of(&token);
        if custom && mark(&word) == b':' {
            return true;
        }
        custom = custom_after(custom, &word, gap_of(Way::Value, &word));
    }
    false
}
