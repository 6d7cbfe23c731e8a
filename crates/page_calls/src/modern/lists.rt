//! Lists of selectors, and texts that are selectors.

ghost use Rattle.std.specs.Prelude.{◌≡◌, None, Some, IfOk, MatchResult, map, string_bytes};
ghost use Rattle.css_sheet.specs.RuleSelectors.{selector_of};
ghost use Rattle.css_selector_text.specs.NameViews.{names_of};
ghost use Rattle.css_selector_text.specs.reading.Supported.{supported_list};
ghost use Rattle.call_answers.specs.Calls.{FailsFor, HasNoSelector, AreSelectorsIn};
ghost use Rattle.page_calls.specs.ModernLines.{refusal_text, IsRefusal};
ghost use Rattle.page_calls.specs.Readings.{is_memory, selectors_of};
ghost use Rattle.call_answers.specs.declared.answer.CallError.TheVariants.{Memory};

use call_answers::answer::CallError;
use call_answers::refusals::position_text;
use css_selectors::{Names, Refusal, Selector, Why};
use std::alloc::{AllocError, Global};

/// The selector that a text is, or the refusal.
fn read_selector(alloc: Global, text: &str) -> Result<Selector<'_>, CallError>
    ensures { MatchResult result (λ selector. selector_of text.now ≡ Some selector)
        (λ error. FailsFor (selector_of text.now ≡ None) (λ fault. ⊥) ⊥ error) }
{
    Ok(Selector::parse(alloc, text)?)
}

/// The selectors of texts, one of each, or the refusal.
pub fn read_selectors<'a>(alloc: Global, texts: &[&'a str]) -> Result<Vec<Selector<'a>>, CallError>
    ensures { MatchResult result
        (λ selectors. AreSelectorsIn selector_of (map (λ text. text.now) texts.now) selectors.items)
        (λ error. FailsFor (HasNoSelector selector_of (map (λ text. text.now) texts.now))
        (λ fault. ⊥) ⊥ error) }
{
    let mut selectors = Vec::with_capacity(alloc, texts.len())?;
    for text in texts {
        selectors.push(read_selector(alloc, text)?)?;
    }
    Ok(selectors)
}

/// The selectors of a list, or the refusal.
pub fn read_list<'a>(
    alloc: Global,
    names: &Names<'_>,
    text: &'a str,
) -> Result<Vec<Selector<'a>>, CallError>
    ensures { let found = selectors_of (names_of names.now) text.now in
        MatchResult result (λ selectors. found ≡ Some selectors.items)
        (λ error. FailsFor (found ≡ None) (λ fault. ⊥) ⊥ error) }
{
    Ok(Selector::parse_list_in(alloc, text, names)?)
}

/// Returns what is quoted of the rest of a refused text, and the reason in words.
fn refusal_text(alloc: Global, refusal: &Refusal<'_>) -> Result<String, AllocError>
    ensures { IfOk result (λ text. string_bytes text
        ≡ refusal_text refusal.now.why refusal.now.rest.now) }
{
    let (quote, words) = (refusal.quote(), refusal.why.words());
    if quote.is_empty() {
        format!(in alloc; "a blank or the end of the text {words}")
    } else {
        format!(in alloc; "`{quote}` {words}")
    }
}

/// Whether an allocation failed.
fn is_memory(why: Why) -> bool
    ensures { result ≡ is_memory why }
{
    matches!(why, Why::Memory)
}

/// Where a text is no list of selectors, and why, or nothing where it is one.
pub fn refusal(alloc: Global, names: &Names<'_>, text: &str) -> Result<String, CallError>
    ensures { MatchResult result
        (λ refusal. IsRefusal text.now (supported_list (names_of names.now) text.now)
        (string_bytes refusal))
        (λ error. error ≡ Memory) }
{
    let refusal = match Selector::parse_list_in(alloc, text, names) {
        Ok(_) => return Ok(String::new(alloc)),
        Err(refusal) => refusal,
    };
    if is_memory(refusal.why) {
        return Err(CallError::Memory);
    }
    let reason = refusal_text(alloc, &refusal)?;
    let pos = refusal.position_in(text);
    Ok(position_text(alloc, pos, reason.as_str())?)
}
