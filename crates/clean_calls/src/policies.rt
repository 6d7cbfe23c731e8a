//! Policies from the texts and numbers that a caller passes.

ghost use Rattle.std.specs.Prelude.{◌≡◌, ◌<◌, ◌++◌, ◌⊎◌, IfOk, MatchResult, length, map};
ghost use Rattle.call_answers.specs.declared.answer.CallError.TheVariants.{Refused};
ghost use Rattle.css_clean.specs.Views.{sheet_policy_of};
ghost use Rattle.std.specs.Str.{IsUtf8};
ghost use Rattle.call_answers.specs.Calls.{FailsFor, HasTexts, HasBadEnds, IsBrokenUtf8};
ghost use Rattle.clean_calls.specs.Passed.{passed_of, IsPolicyOf, IsShort, HasPolicy, IsNoPolicy};
ghost use Rattle.clean_calls.specs.Passed.{has_scope as has_scope_of};

use crate::asked::Form;
use call_answers::answer::CallError;
use call_answers::texts::{text_of, texts_of};
use clean_values::changes::Changes;
use clean_values::limits::Limits;
use css_clean::{Policy, SheetPolicy, is_scope};
use std::alloc::{AllocError, Global};

/// A policy, as the caller of a function passes it.
#[repr(C)]
#[derive(Clone, Copy)]
pub struct PassedPolicy<'t> {
    /// The scope and the prefix of names, and then the names of properties, of functions, of the properties of
    /// which values may have strings and of pseudo-classes, urls, what is written in place of each, the
    /// properties of which the words are names, the words that are none, the properties with limits, the limit of
    /// each, and the words of media queries, one after another.
    pub texts: &'t [u8],
    /// Where each ends.
    pub ends: &'t [usize],
    /// How many properties there are.
    pub properties: usize,
    /// How many functions there are.
    pub functions: usize,
    /// How many properties with strings there are.
    pub strings: usize,
    /// How many pseudo-classes there are.
    pub pseudos: usize,
    /// How many urls there are. As many texts are written in their places.
    pub urls: usize,
    /// How many properties there are of which the words are names.
    pub named: usize,
    /// How many words are no names there.
    pub words: usize,
    /// How many properties have limits. As many limits follow, and all after these are words of media queries.
    pub limits: usize,
    /// Whether declarations may be important: any number but 0.
    pub important: usize,
    /// Whether rules may be for the elements that the scope matches: any number but 0.
    pub itself: usize,
    /// The most bytes of a text.
    pub longest: usize,
}

/// Returns so many names and those after them.
fn cut<'p>(names: &'p [&'p str], count: usize) -> Result<(&'p [&'p str], &'p [&'p str]), CallError>
    ensures { MatchResult result
        (λ parts. (names.now ≡ parts.0.now ++ parts.1.now) × (length parts.0.now ≡ count))
        (λ failure. (failure ≡ Refused) × (length names.now < count)) }
{
    if names.len() < count {
        return Err(CallError::Refused);
    }
    Ok(names.split_at(count))
}

/// Returns the policy of texts, of which the first is the scope, and the second the prefix of names.
fn policy_of_texts<'p>(
    passed: &PassedPolicy<'_>,
    texts: &'p [&'p str],
) -> Result<SheetPolicy<'p>, CallError>
    ensures { let p = passed_of passed.now in let all = map (λ text. text.now) texts.now in
        MatchResult result (λ policy. IsPolicyOf p all (sheet_policy_of policy))
        (λ failure. (failure ≡ Refused) × IsShort p all) }
{
    let [scope, prefix, names @ ..] = texts else {
        return Err(CallError::Refused);
    };
    let (properties, names) = cut(names, passed.properties)?;
    let (functions, names) = cut(names, passed.functions)?;
    let (strings, names) = cut(names, passed.strings)?;
    let (pseudos, names) = cut(names, passed.pseudos)?;
    let (urls, names) = cut(names, passed.urls)?;
    let (answers, names) = cut(names, passed.urls)?;
    let (named, names) = cut(names, passed.named)?;
    let (words, names) = cut(names, passed.words)?;
    let (limited, names) = cut(names, passed.limits)?;
    let (limits, media) = cut(names, passed.limits)?;
    Ok(SheetPolicy {
        declarations: Policy {
            properties,
            functions,
            strings,
            important: passed.important != 0,
            limits: Limits {
                properties: limited,
                limits,
            },
            longest: passed.longest,
            changes: Changes {
                urls,
                answers,
                prefix: *prefix,
                named,
                words,
            },
        },
        scope: *scope,
        itself: passed.itself != 0,
        pseudos,
        media,
    })
}

/// Whether the policy is one for texts of this form: a sheet needs a scope that may be one.
fn has_scope(alloc: Global, form: Form, policy: SheetPolicy<'_>) -> Result<bool, AllocError>
    ensures { IfOk result (λ holds. holds ≡ has_scope_of form (sheet_policy_of policy.entry)) }
{
    match form {
        Form::Sheet => is_scope(alloc, policy.scope),
        Form::Style => Ok(true),
    }
}

/// Returns the policy of the texts that are passed, for a text of this form.
pub(crate) fn policy_of<'p>(
    alloc: Global,
    form: Form,
    passed: &PassedPolicy<'_>,
    texts: &'p [&'p str],
) -> Result<SheetPolicy<'p>, CallError>
    requires passed { let p = passed_of passed.now in HasTexts p.texts p.ends (map (λ text. text.now) texts.now) }
    ensures { let p = passed_of passed.now in MatchResult result
        (λ policy. HasPolicy p (sheet_policy_of policy))
        (FailsFor (IsNoPolicy form p) (λ fault. ⊥) ⊥) }
{
    let policy = policy_of_texts(passed, texts)?;
    if has_scope(alloc, form, policy)? {
        return Ok(policy);
    }
    Err(CallError::Refused)
}

/// Returns a text and those of a policy.
pub(crate) fn texts_in<'t>(
    alloc: Global,
    text: &'t [u8],
    passed: &PassedPolicy<'t>,
) -> Result<(&'t str, Vec<&'t str>), CallError>
    ensures { let p = passed_of passed.now in MatchResult result
        (λ it. (it.0.now ≡ text.now) × IsUtf8 text.now × HasTexts p.texts p.ends (map (λ t. t.now) it.1.items))
        (FailsFor (HasBadEnds p.texts p.ends) (λ fault. ⊥)
        (¬ (IsUtf8 text.now) ⊎ IsBrokenUtf8 p.texts p.ends)) }
{
    let text = text_of(text)?;
    Ok((text, texts_of(alloc, passed.texts, passed.ends)?))
}
