//! What media queries ask in parentheses: features.
ghost use Rattle.std.specs.Prelude.{◌≡◌, option_map, [], List, ℕ};
ghost use Rattle.css_conditions.specs.Media.{comparison as comparison_of, turned as turned_of};
ghost use Rattle.css_conditions.specs.Media.{is_rising as is_rising_of, same_way as same_way_of};
ghost use Rattle.css_conditions.specs.Media.{compared as compared_of, after_name as after_name_of};
ghost use Rattle.css_conditions.specs.Media.{after_second_name as after_second_of, second_name as second_of};
ghost use Rattle.css_conditions.specs.Media.{or_equal as or_equal_of};
ghost use Rattle.css_conditions.specs.Media.{feature as feature_of};

use crate::answers::{Features, Read, broken, unfit};
use crate::truth::{Comparison, Outcome, span};
use crate::words::{
    Stop, before, begins_function, begins_name, ends_parens, ends_run, read_values, starts_with,
};
use css_syntax::quality::is_good;
use css_syntax::tokens::{past_gap, past_one, past_word};

/// A sign of comparison, and the rest.
#[derive(Clone, Copy)]
struct Sign<'t> {
    /// What it says.
    how: Comparison,
    /// The rest.
    rest: &'t [u8],
}

/// Reads an equals sign, which makes a comparison looser.
fn or_equal(strict: Comparison, loose: Comparison, bytes: &[u8]) -> Sign<'_>
    ensures { or_equal_of strict loose bytes.now ≡ (result.how, result.rest.now) }
{
    match bytes {
        [b'=', rest @ ..] => Sign { how: loose, rest },
        _ => Sign {
            how: strict,
            rest: bytes,
        },
    }
}

/// Reads a sign of comparison, if one is next.
fn read_sign(bytes: &[u8]) -> Option<Sign<'_>>
    ensures { comparison_of bytes.now ≡ option_map (λ sign. (sign.how, sign.rest.now)) result }
{
    match bytes {
        [b'<', rest @ ..] => Some(or_equal(Comparison::Less, Comparison::AtMost, rest)),
        [b'>', rest @ ..] => Some(or_equal(Comparison::More, Comparison::AtLeast, rest)),
        [b'=', rest @ ..] => Some(Sign {
            how: Comparison::Equal,
            rest,
        }),
        _ => None,
    }
}

/// Returns the comparison from the other side.
fn turned(how: Comparison) -> Comparison
    ensures { result ≡ turned_of how }
{
    match how {
        Comparison::Present => Comparison::Present,
        Comparison::Is => Comparison::Is,
        Comparison::Equal => Comparison::Equal,
        Comparison::Less => Comparison::More,
        Comparison::AtMost => Comparison::AtLeast,
        Comparison::More => Comparison::Less,
        Comparison::AtLeast => Comparison::AtMost,
    }
}

/// Whether it is `<` or `<=`.
fn is_rising(how: Comparison) -> bool
    ensures { result ≡ is_rising_of how }
{
    matches!(how, Comparison::Less | Comparison::AtMost)
}

/// Whether a name may stand between two values with these signs.
fn same_way(one: Comparison, other: Comparison) -> bool
    ensures { result ≡ same_way_of one other }
{
    (is_rising(one) && is_rising(other)) || (is_rising(turned(one)) && is_rising(turned(other)))
}

/// Reads a value up to the closing parenthesis, and asks.
fn compared<'t, F: Features>(
    features: &F,
    name: &[u8],
    how: Comparison,
    bytes: &'t [u8],
) -> Read<'t>
    ensures { compared_of (F.says features.now) name.now how bytes.now
        ≡ (result.outcome, result.rest.now) }
{
    let skipped = read_values(Stop::Value, bytes);
    if !is_good(skipped.quality) {
        return broken(skipped.rest);
    }
    if ends_parens(skipped.rest) && !ends_run(Stop::Value, bytes) {
        let truth = features.says(name, how, before(bytes, skipped.rest));
        return Read {
            outcome: Outcome::Found(truth),
            rest: skipped.rest,
        };
    }
    unfit(skipped.rest)
}

/// Reads what follows the name of a feature.
fn after_name<'t, F: Features>(features: &F, name: &[u8], bytes: &'t [u8]) -> Read<'t>
    ensures { after_name_of (F.says features.now) name.now bytes.now
        ≡ (result.outcome, result.rest.now) }
{
    if ends_parens(bytes) {
        return Read {
            outcome: Outcome::Found(features.says(name, Comparison::Present, &[])),
            rest: bytes,
        };
    }
    if starts_with(bytes, b':') {
        return compared(features, name, Comparison::Is, past_gap(past_one(bytes)));
    }
    match read_sign(bytes) {
        None => unfit(bytes),
        Some(sign) => compared(features, name, sign.how, past_gap(sign.rest)),
    }
}

/// Reads what follows the name after a value and a sign.
fn after_second_name<'t, F: Features>(
    features: &F,
    value: &[u8],
    how: Comparison,
    name: &[u8],
    bytes: &'t [u8],
) -> Read<'t>
    ensures { after_second_of (F.says features.now) value.now how name.now bytes.now
        ≡ (result.outcome, result.rest.now) }
{
    if ends_parens(bytes) {
        return Read {
            outcome: Outcome::Found(features.says(name, turned(how), value)),
            rest: bytes,
        };
    }
    match read_sign(bytes) {
        None => unfit(bytes),
        Some(sign) => {
            if !same_way(how, sign.how) {
                return unfit(sign.rest);
            }
            let first = features.says(name, turned(how), value);
            let second = compared(features, name, sign.how, past_gap(sign.rest));
            Read {
                outcome: span(first, second.outcome),
                rest: second.rest,
            }
        }
    }
}

/// Reads the name after a value and a sign.
fn second_name<'t, F: Features>(
    features: &F,
    value: &[u8],
    how: Comparison,
    bytes: &'t [u8],
) -> Read<'t>
    ensures { second_of (F.says features.now) value.now how bytes.now
        ≡ (result.outcome, result.rest.now) }
{
    if !begins_name(bytes) {
        return unfit(bytes);
    }
    let after = past_word(bytes);
    after_second_name(features, value, how, before(bytes, after), past_gap(after))
}

/// Reads what is asked of a feature.
pub fn feature<'t, F: Features>(features: &F, bytes: &'t [u8]) -> Read<'t>
    ensures { feature_of (F.says features.now) bytes.now ≡ (result.outcome, result.rest.now) }
{
    if begins_name(bytes) && !begins_function(bytes) {
        let after = past_word(bytes);
        return after_name(features, before(bytes, after), past_gap(after));
    }
    let skipped = read_values(Stop::Value, bytes);
    if !is_good(skipped.quality) {
        return broken(skipped.rest);
    }
    if ends_run(Stop::Value, bytes) {
        return unfit(skipped.rest);
    }
    match read_sign(skipped.rest) {
        None => unfit(skipped.rest),
        Some(sign) => second_name(
            features,
            before(bytes, skipped.rest),
            sign.how,
            past_gap(sign.rest),
        ),
    }
}
