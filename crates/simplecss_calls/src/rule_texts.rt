//! The texts of the selectors of rules.

ghost use Rattle.std.specs.Prelude.{◌≡◌, ◌≤◌, ◌<◌, MatchResult, length, map, string_bytes};
ghost use Rattle.css_sheet.specs.SheetRuleViews.{sheet_rule_of};
ghost use Rattle.call_answers.specs.Calls.{FailsLonger};
ghost use Rattle.call_answers.specs.Outcomes.{outcome_of};
ghost use Rattle.simplecss_calls.specs.RuleTexts.{rule_texts as rule_texts_of, AreRuleTexts};

use call_answers::answer::{CallError, check_length};
use css_sheet::SheetRule;
use css_styles::StyleRules;
use std::alloc::Global;

/// Returns the texts of the selectors of rules, one after another, in at most this number of bytes.
fn texts(alloc: Global, rules: &[SheetRule<'_>], most: usize) -> Result<String, CallError>
    ensures { let whole = rule_texts_of (map sheet_rule_of rules.now) in
        MatchResult result (λ texts. (string_bytes texts ≡ whole) × (length (string_bytes texts) ≤ most))
        (FailsLonger (most < length whole)) }
{
    let mut out = String::new(alloc);
    for rule in rules {
        out.push_str(rule.text)?;
        check_length(&out, most)?;
    }
    Ok(out)
}

/// The texts of the selectors of rules, in at most this number of bytes.
pub fn rule_texts(alloc: Global, rules: &StyleRules<'_>, most: usize) -> Result<String, CallError>
    ensures { AreRuleTexts most rules.now.rules (outcome_of result) }
{
    texts(alloc, rules.as_slice(), most)
}
