//! Reads declarations from a cursor, without reporting errors.
ghost use Rattle.std.specs.Prelude.{◌≡◌, [], ◌∷◌, IfSome, option_map};
ghost use Rattle.css_text.specs.Reading.{got, each};
ghost use Rattle.css_text.specs.AsciiBytes.{colon};
ghost use Rattle.css_text.specs.Bytes.{byte as byte_read};
ghost use Rattle.css_text.specs.Slices.{OccurBetween};
ghost use Rattle.css_text.specs.Comments.{past_blank};
ghost use Rattle.simplecss_grammar.specs.Terms.{term};
ghost use Rattle.simplecss_grammar.specs.Declarations.{terms, value as value_read, important_word};
ghost use Rattle.simplecss_grammar.specs.Declarations.{importance, semicolon, trailing};
ghost use Rattle.simplecss_grammar.specs.Declarations.{stated_name as stated_name_read};
ghost use Rattle.simplecss_grammar.specs.Declarations.{declaration as declaration_read};
ghost use Rattle.simplecss_grammar.specs.Skipped.{declaration_skips};
ghost use Rattle.css_text.specs.ThisEdition.{this_edition};
ghost use Rattle.css_text.specs.Cursor.{text_of, rest_of};
ghost use Rattle.simplecss_declaration.specs.internal.UnreportedFaults.{Answers, FailsAt, Passes};
ghost use Rattle.simplecss_declaration.specs.internal.OpenValues.{open_from};
ghost use Rattle.simplecss_declaration.specs.ValueStarts.{value_end, value_from};
ghost use Rattle.simplecss_declaration.specs.DeclarationViews.{declaration_of};

use super::declarations::Declaration;
use super::terms::skip_term;
use css_text::stream::Stream;
use css_text::{readers, scan};

/// Skips a blank, up to an open comment if there is one.
#[inline(always)]
fn skip_gap(s: &mut Stream<'_>)
    ensures text { text_of s.new ≡ text_of s.old }
    ensures rest { rest_of s.new ≡ past_blank (rest_of s.old) }
{
    s.advance(scan::find_gap(s.slice_tail()).len);
}

/// Consumes the terms of a value, and returns the text from the first to the end of the last,
/// trimmed. The first term that could not be read is consumed too, as far as it was read.
#[inline(always)]
fn read_value<'a>(s: &mut Stream<'a>) -> &'a str
    ensures text { text_of s.new ≡ text_of s.old }
    ensures reads { value_read this_edition (rest_of s.old) ≡ (result.now, rest_of s.new) }
    ensures occurs { OccurBetween (rest_of s.old) (rest_of s.new) (result.now ∷ []) }
{
    let start = s.slice_tail();
    let mut end = start;
    'terms: while skip_term(s) {
        end = s.slice_tail();
        skip_gap(s);
    }
    start[..start.len() - end.len()].trim()
}

/// Consumes the word `important`, if the text begins with it, and returns whether it did.
#[inline(always)]
fn skip_important(s: &mut Stream<'_>) -> bool
    ensures text { text_of s.new ≡ text_of s.old }
    ensures reads { important_word (rest_of s.old) ≡ got result (rest_of s.new) }
{
    let occurs = s.slice_tail().starts_with("important");
    if occurs {
        s.advance(9);
    }
    occurs
}

/// Consumes an exclamation mark and after it a blank and the word `important`, as far as they are
/// there, and returns whether the word was.
#[inline(always)]
fn take_importance(s: &mut Stream<'_>) -> Option<bool>
    ensures text { text_of s.new ≡ text_of s.old }
    ensures reads { Answers (λ important. important) (importance (rest_of s.old)) result
        (rest_of s.new) }
{
    if !readers::skip_byte(s, b'!') {
        return Some(false);
    }
    if !readers::skip_blank(s) {
        return None;
    }
    Some(skip_important(s))
}

/// Skips any number of semicolons, each with the blank after it.
#[inline(always)]
fn skip_semicolons(s: &mut Stream<'_>)
    ensures text { text_of s.new ≡ text_of s.old }
    ensures rest { rest_of s.new ≡ (each semicolon (rest_of s.old)).1 }
{
    'semicolons: while readers::skip_byte(s, b';') {
        skip_gap(s);
    }
}

/// Consumes what follows a value, up to the next declaration, and returns whether the value is
/// important.
#[inline(always)]
fn take_trailing(s: &mut Stream<'_>) -> Option<bool>
    ensures text { text_of s.new ≡ text_of s.old }
    ensures reads { Answers (λ important. important) (trailing (rest_of s.old)) result
        (rest_of s.new) }
{
    if !readers::skip_blank(s) {
        return None;
    }
    let important = take_importance(s)?;
    if !readers::skip_blank(s) {
        return None;
    }
    skip_semicolons(s);
    if !readers::skip_blank(s) {
        return None;
    }
    Some(important)
}

/// Consumes a colon, if it is next, and returns whether it was.
#[inline(always)]
fn skip_colon(s: &mut Stream<'_>) -> bool
    ensures text { text_of s.new ≡ text_of s.old }
    ensures reads { Passes (byte_read colon (rest_of s.old)) result (rest_of s.new) }
{
    readers::skip_byte(s, b':')
}

/// Consumes what precedes the value of a declaration: a name and a colon, with blanks, and returns
/// the name. An asterisk before the name is dropped.
#[inline(always)]
fn take_stated_name<'a>(s: &mut Stream<'a>) -> Option<&'a str>
    ensures text { text_of s.new ≡ text_of s.old }
    ensures reads { Answers (λ name. name.now) (stated_name_read this_edition (rest_of s.old)) result
        (rest_of s.new) }
    ensures slices { IfSome result
        (λ name. OccurBetween (rest_of s.old) (rest_of s.new) (name.now ∷ [])) }
{
    if !readers::skip_blank(s) {
        return None;
    }
    s.try_consume_byte(b'*');
    let name = readers::take_name(s)?;
    if !readers::skip_blank(s) || !skip_colon(s) || !readers::skip_blank(s) {
        return None;
    }
    Some(name)
}

/// Reads a declaration: a name, a colon, a value, and what follows it up to the next declaration.
/// If there is none, the cursor is where reading stopped.
#[inline(always)]
pub fn take_declaration<'a>(s: &mut Stream<'a>) -> Option<Declaration<'a>>
    ensures text { text_of s.new ≡ text_of s.old }
    ensures reads { Answers declaration_of (declaration_read this_edition (rest_of s.old)) result
        (rest_of s.new) }
    ensures occurs { IfSome result
        (λ d. OccurBetween (rest_of s.old) (rest_of s.new) (d.name.now ∷ d.value.now ∷ [])) }
{
    let name = take_stated_name(s)?;
    let value = read_value(s);
    let important = take_trailing(s)?;
    if value.is_empty() {
        return None;
    }
    Some(Declaration {
        name,
        value,
        important,
    })
}

/// Returns the text after the terms of a value and the blank that follows them, from the first term that
/// is not read on. The cursor is moved as far as that term was read.
fn past_terms<'a>(s: &mut Stream<'a>) -> &'a str
    ensures text { text_of s.new ≡ text_of s.old }
    ensures from { result.now ≡ (terms this_edition (rest_of s.old)).1 }
    ensures rest { FailsAt (term this_edition result.now) (rest_of s.new) }
{
    let mut from = s.slice_tail();
    'terms: while skip_term(s) {
        skip_gap(s);
        from = s.slice_tail();
    }
    from
}

/// Returns the text from the start of the string or the function in the value of a declaration that
/// is not closed, if there is one. The declaration begins with the text.
pub fn find_open_value(text: &str) -> Option<&str>
    ensures { open_from (option_map (λ from. from.now) result)
        ≡ declaration_skips this_edition text.now }
{
    let mut s = Stream::new(text);
    take_stated_name(&mut s)?;
    let from = past_terms(&mut s);
    if from.is_empty() {
        return None;
    }
    if s.at_end() { Some(from) } else { None }
}

/// Returns the text from the value of a declaration on, or `None` where no name and colon precede a
/// value. The declaration begins with the text.
pub fn find_value(text: &str) -> Option<&str>
    ensures { option_map (λ from. from.now) result ≡ value_from this_edition text.now }
{
    let mut s = Stream::new(text);
    take_stated_name(&mut s)?;
    Some(s.slice_tail().trim_start())
}

/// Returns the text after the value of a declaration and the blank that follows it, or `None` where no
/// name and colon precede a value. A string or a function that is not closed belongs to what follows.
/// The declaration begins with the text.
pub fn find_value_end(text: &str) -> Option<&str>
    ensures { option_map (λ after. after.now) result ≡ value_end this_edition text.now }
{
    let mut s = Stream::new(text);
    take_stated_name(&mut s)?;
    Some(past_terms(&mut s))
}
