//! Language ranges, as `:lang()` tests them (Selectors 4, section 8.2).
ghost use Rattle.std.specs.Prelude.{◌≡◌, ◌≢◌, ◌↔◌, [], IsTrue};
ghost use Rattle.css_elements.specs.TreeNodes.{is_in_language as has_prefix};
ghost use Rattle.css_tree.specs.Languages.{is_in_range as is_in_range_of};
ghost use Rattle.css_tree.specs.Languages.{IsInRange, is_singleton as is_singleton_of};
ghost use Rattle.css_tree.specs.Languages.{are_found as are_found_in, is_matched as is_matched_by};

use std::marker::Model;

/// The subtags of a language tag, or of a language range.
#[derive(Drop)]
struct Subtags<'t> {
    /// The text of those that are left, if any are.
    rest: Option<&'t str>,
}

impl<'t> Model for Subtags<'t> {
    ghost use Rattle.std.specs.Prelude.{ℕ, List};
    ghost use Rattle.std.specs.Option.{option_map};
    ghost use Rattle.css_tree.specs.Languages.{subtags_left};

    ghost Value = { List (List ℕ) };

    ghost view = { λ subtags. subtags_left (option_map (λ text. text.now) subtags.rest) };
}

/// Whether the subtag is a single letter or digit.
fn is_singleton(subtag: &str) -> bool
    ensures { result ≡ is_singleton_of subtag.now }
{
    match subtag.as_bytes() {
        [byte] => byte.is_ascii_alphanumeric(),
        _ => false,
    }
}

impl<'t> Subtags<'t> {
    ghost use Rattle.std.specs.Prelude.{◌≡◌, ◌∷◌, [], None, Some, MatchOption, MatchBool};
    ghost use Rattle.css_tree.specs.Languages.{subtags, after_subtag};

    /// Returns the subtags of a text.
    fn new(text: &'t str) -> Subtags<'t>
        ensures { result ≡ subtags text.now }
    {
        Subtags { rest: Some(text) }
    }

    /// Returns the next subtag, if there is one.
    fn take_next(&mut self) -> Option<&'t str>
        ensures { MatchOption result ((self.old ≡ []) × (self.new ≡ []))
            (λ subtag. self.old ≡ subtag.now ∷ self.new) }
    {
        let text = self.rest?;
        match text.split_once('-') {
            Some((subtag, rest)) => {
                self.rest = Some(rest);
                Some(subtag)
            }
            None => {
                self.rest = None;
                Some(text)
            }
        }
    }

    /// Skips the subtags up to the first that equals `wanted`, and it. Returns false if there is none
    /// or a singleton comes first.
    fn skip_past(&mut self, wanted: &str) -> bool
        ensures { MatchBool result (after_subtag wanted.now self.old ≡ Some self.new)
            (after_subtag wanted.now self.old ≡ None) }
    {
        'subtags: while let Some(subtag) = self.take_next() {
            if subtag.eq_ignore_ascii_case(wanted) {
                return true;
            }
            if is_singleton(subtag) {
                return false;
            }
        }
        false
    }
}

/// Whether the subtags of the range are found among those of the tag, in order.
fn are_found(mut range: Subtags<'_>, mut tag: Subtags<'_>) -> bool
    ensures { result ≡ are_found_in range.entry tag.entry }
{
    'range: while let Some(wanted) = range.take_next() {
        if wanted != "*" && !tag.skip_past(wanted) {
            return false;
        }
    }
    true
}

/// Whether the first subtag of the tag matches that of the range, and the further subtags of the range
/// are found among those of the tag.
fn is_matched(mut range: Subtags<'_>, mut tag: Subtags<'_>) -> bool
    ensures { result ≡ is_matched_by range.entry tag.entry }
{
    match (range.take_next(), tag.take_next()) {
        (Some(first), Some(subtag)) => {
            (first == "*" || subtag.eq_ignore_ascii_case(first)) && are_found(range, tag)
        }
        _ => false,
    }
}

/// Whether a language tag is in a language range, by extended filtering (RFC 4647, section 3.3.2):
/// `de-DE` and `de-*-DE` have `de-DE` and `de-Latn-DE`, and `*-CH` has `rm-CH`.
///
/// An empty tag, of no language, is in the empty range only, and no other tag is in that. A tag that
/// is the range, or that begins with the range and a hyphen, is in the range.
pub fn is_in_range(range: &str, language: &str) -> bool
    ensures value { result ≡ is_in_range_of range.now language.now }
    ensures in_order { IsTrue result ↔ IsInRange range.now language.now }
    ensures prefix { range.now ≢ [] → IsTrue (has_prefix range.now language.now) → IsTrue result }
{
    if range.is_empty() || language.is_empty() {
        return range.is_empty() && language.is_empty();
    }
    is_matched(Subtags::new(range), Subtags::new(language))
}
