//! Reads a selector from the start of a text.
ghost use Rattle.std.specs.Prelude.{◌≡◌, ◌∷◌, [], drop, is_some, IfOk, IfSome, OnOk};
ghost use Rattle.std.specs.Str.{IsCharBoundary};
ghost use Rattle.simplecss_grammar.specs.PrintingLaws.{SelectorReadsBack};
ghost use Rattle.simplecss_grammar.specs.Selectors.{role_of, known_pseudo_class, outcome, reads};
ghost use Rattle.css_text.specs.Bytes.{past};
ghost use Rattle.css_text.specs.Characters.{is_space};
ghost use Rattle.simplecss_grammar.specs.Skipped.{class_name, refusal_in, past_refused, refused};
ghost use Rattle.simplecss_grammar.specs.Skipped.{refused_part, selector_skips, add_each};
ghost use Rattle.simplecss_grammar.specs.SkipViews.{refusal_of};
ghost use Rattle.css_text.specs.ThisEdition.{this_edition};
ghost use Rattle.simplecss_selector.specs.internal.SelectorDrafts.{drafted_if, selector_after};
ghost use Rattle.simplecss_selector.specs.internal.SelectorDrafts.{selector_read};
ghost use Rattle.simplecss_selector.specs.SelectorTokenizers.{whole_text, left_of, still_to_come};
ghost use Rattle.simplecss_selector.specs.TokenViews.{token_of};
ghost use Rattle.simplecss_selector.specs.internal.KnownPseudoClasses.{pseudo_class_view};

use crate::draft::Draft;
use crate::selector::{Combinator, Selector, SubSelector};
use crate::{AttributeOperator, PseudoClass, SelectorToken, SelectorTokenizer};
use css_text::stream::Stream;
use css_text::{readers, scan};
use simplecss_grammar::report::{Refusal, Report, Skipped, Why};
use std::alloc::{AllocError, Global};

/// Returns the pseudo-class with a name, if there is one.
#[inline(always)]
fn pseudo_class<'a>(name: &str) -> Option<PseudoClass<'a>>
    ensures { pseudo_class_view result ≡ known_pseudo_class name.now }
{
    match name {
        "first-child" => Some(PseudoClass::FirstChild),
        "link" => Some(PseudoClass::Link),
        "visited" => Some(PseudoClass::Visited),
        "hover" => Some(PseudoClass::Hover),
        "active" => Some(PseudoClass::Active),
        "focus" => Some(PseudoClass::Focus),
        _ => None,
    }
}

/// Adds a token to the selector under construction, and returns whether it is known: a pseudo-class
/// of another name is not, and changes nothing. A class is an attribute `class` that has a word,
/// and an id an attribute `id` that equals a text.
#[inline(always)]
fn fill<'a>(draft: &mut Draft<'a>, token: SelectorToken<'a>) -> Result<bool, AllocError>
    ensures known { IfOk result (λ known. known ≡ is_some (role_of (token_of token.entry))) }
    ensures filled { IfOk result
        (λ _. draft.new ≡ drafted_if (role_of (token_of token.entry)) draft.old) }
{
    match token {
        SelectorToken::UniversalSelector => Ok(()),
        SelectorToken::TypeSelector(name) => {
            draft.set_name(name);
            Ok(())
        }
        SelectorToken::ClassSelector(name) => draft.push_subselector(SubSelector::Attribute(
            "class",
            AttributeOperator::Contains(name),
        )),
        SelectorToken::IdSelector(name) => draft.push_subselector(SubSelector::Attribute(
            "id",
            AttributeOperator::Matches(name),
        )),
        SelectorToken::AttributeSelector(name, operator) => {
            draft.push_subselector(SubSelector::Attribute(name, operator))
        }
        SelectorToken::PseudoClass(name) => match pseudo_class(name) {
            Some(class) => draft.push_subselector(SubSelector::PseudoClass(class)),
            None => return Ok(false),
        },
        SelectorToken::LangPseudoClass(language) => {
            draft.push_subselector(SubSelector::PseudoClass(PseudoClass::Lang(language)))
        }
        SelectorToken::DescendantCombinator => draft.join(Combinator::Descendant),
        SelectorToken::ChildCombinator => draft.join(Combinator::Child),
        SelectorToken::AdjacentCombinator => draft.join(Combinator::Adjacent),
    }?;
    Ok(true)
}

/// Returns the name of a pseudo-class; any other token has none.
#[cold]
fn class_name<'a>(token: SelectorToken<'a>) -> &'a str
    ensures { result.now ≡ class_name (token_of token.entry) }
{
    match token {
        SelectorToken::PseudoClass(name) => name,
        _ => "",
    }
}

/// Returns the rest after a refused selector and what is skipped with it: the text up to the comma,
/// and without one up to the block.
fn past_refused(rest: &str) -> &str
    ensures { result.now ≡ past_refused rest.now }
{
    if readers::starts(rest, b',') {
        return rest;
    }
    readers::from_brace(rest)
}

/// Reports that the selector at the start of the text is refused. Reading it stopped after `len`
/// bytes.
#[cold]
#[inline(never)]
fn report_refusal<'a, P: Report<'a>>(
    report: &mut P,
    text: &'a str,
    len: usize,
    refusal: Refusal<'a>,
) -> Result<(), AllocError>
    requires { IsCharBoundary text.now len }
    ensures { OnOk result (P.state report.new ≡ add_each P.add (P.state report.old)
        (refused text.now (past is_space (drop len text.now)) (refusal_of refusal.entry) ∷ [])) }
{
    let mut rest = Stream::new(&text[len..]);
    rest.skip_spaces();
    report.report(Skipped {
        from: &text[scan::find_gap(text).len..],
        after: past_refused(rest.slice_tail()),
        why: Why::Selector(refusal),
    })
}

/// Adds the remaining tokens to the selector under construction, up to the first error or unknown
/// pseudo-class, and returns whether all were added. What stopped it is reported.
#[inline(always)]
fn fill_all<'a, P: Report<'a>>(
    report: &mut P,
    text: &'a str,
    tokenizer: &mut SelectorTokenizer<'a>,
    draft: &mut Draft<'a>,
) -> Result<bool, AllocError>
    requires { whole_text tokenizer.old ≡ text.now }
    ensures text { whole_text tokenizer.new ≡ whole_text tokenizer.old }
    ensures filled { IfOk result (λ is_read. selector_read is_read draft.new (left_of tokenizer.new)
        ≡ selector_after draft.old (outcome (still_to_come tokenizer.old))) }
    ensures reported { OnOk result (P.state report.new ≡ add_each P.add (P.state report.old)
        (refused_part text.now (past is_space (left_of tokenizer.new))
        (refusal_in text.now (still_to_come tokenizer.old)))) }
{
    while let Some(item) = tokenizer.next() {
        let token = match item {
            Ok(token) => token,
            Err(error) => {
                let refusal = Refusal::Faulty {
                    within: text,
                    error,
                };
                report_refusal(report, text, tokenizer.pos(), refusal)?;
                return Ok(false);
            }
        };
        if !fill(draft, token)? {
            let refusal = Refusal::UnknownClass(class_name(token));
            report_refusal(report, text, tokenizer.pos(), refusal)?;
            return Ok(false);
        }
    }
    Ok(true)
}

/// Returns the selector at the start of a text, or `None` if it is refused, which is reported, and
/// the offset after what was read.
#[inline(always)]
pub(crate) fn read_front<'a, P: Report<'a>>(
    report: &mut P,
    alloc: Global,
    text: &'a str,
) -> Result<(Option<Selector<'a>>, usize), AllocError>
    ensures selector { IfOk result (λ read. read.0 ≡ (reads this_edition text.now).0) }
    ensures rest { IfOk result (λ read. drop read.1 text.now ≡ (reads this_edition text.now).1) }
    ensures boundary { IfOk result (λ read. IsCharBoundary text.now read.1) }
    ensures printed { IfOk result (λ read. IfSome read.0 (SelectorReadsBack this_edition)) }
    ensures reported { OnOk result (P.state report.new
        ≡ add_each P.add (P.state report.old) (selector_skips this_edition text.now)) }
{
    let mut tokenizer: SelectorTokenizer<'a> = SelectorTokenizer::from(text);
    let mut draft: Draft<'a> = Draft::new(alloc);
    if !fill_all(report, text, &mut tokenizer, &mut draft)? {
        return Ok((None, tokenizer.pos()));
    }
    Ok((Some(draft.finish()), tokenizer.pos()))
}
