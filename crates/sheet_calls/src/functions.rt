//! The functions of `@supports` that are known by their words.
ghost use Rattle.std.specs.Prelude.{◌≡◌, map};
ghost use Rattle.std.specs.List.{list_any};
ghost use Rattle.css_text.specs.AsciiBytes.{at_sign};
ghost use Rattle.css_text.specs.Bytes.{starts};
ghost use Rattle.css_text.specs.Reading.{before as before_of};
ghost use Rattle.css_syntax.specs.Tokens.{spells};
ghost use Rattle.sheet_calls.specs.Functions.{is_word_of as is_word_among, is_at_rule as is_at_rule_of};
ghost use Rattle.sheet_calls.specs.Functions.{is_known_word as is_known_word_of};

use css_syntax::tokens::{past_gap, past_one, past_word, spells};

/// The technologies of fonts that Chromium knows.
const FONT_TECHNOLOGIES: [&str; 8] = [
    "color-cbdt",
    "color-colrv0",
    "color-colrv1",
    "color-sbix",
    "features-aat",
    "features-opentype",
    "palettes",
    "variations",
];

/// The formats of fonts that it knows.
const FONT_FORMATS: [&str; 5] = ["collection", "opentype", "truetype", "woff", "woff2"];

/// The at-rules that it knows: of sheets, of values of font features, and of the margins of pages.
const AT_RULES: [&str; 41] = [
    "-webkit-keyframes",
    "container",
    "counter-style",
    "font-face",
    "font-feature-values",
    "font-palette-values",
    "function",
    "import",
    "keyframes",
    "layer",
    "media",
    "namespace",
    "page",
    "position-try",
    "property",
    "scope",
    "starting-style",
    "supports",
    "view-transition",
    "annotation",
    "character-variant",
    "ornaments",
    "styleset",
    "stylistic",
    "swash",
    "bottom-center",
    "bottom-left",
    "bottom-left-corner",
    "bottom-right",
    "bottom-right-corner",
    "left-bottom",
    "left-middle",
    "left-top",
    "right-bottom",
    "right-middle",
    "right-top",
    "top-center",
    "top-left",
    "top-left-corner",
    "top-right",
    "top-right-corner",
];

/// Whether one of the names is this one, in any case and with any escapes.
pub fn is_listed(names: &[&str], name: &[u8]) -> bool
    ensures { result ≡ list_any (λ one. spells one name.now) (map (λ one. one.now) names.now) }
{
    let mut left = names;
    'names: while let [one, others @ ..] = left {
        if spells(one.as_bytes(), name) {
            return true;
        }
        left = others;
    }
    false
}

/// Returns what is before the rest of a text.
fn before<'a>(text: &'a [u8], rest: &[u8]) -> &'a [u8]
    ensures { result.now ≡ before_of text.now rest.now }
{
    &text[..text.len().saturating_sub(rest.len())]
}

/// Whether a text is one of these words, and blanks after it.
fn is_word_of(words: &[&str], text: &[u8]) -> bool
    ensures { result ≡ is_word_among (map (λ word. word.now) words.now) text.now }
{
    let rest = past_word(text);
    is_listed(words, before(text, rest)) && past_gap(rest).is_empty()
}

/// Whether a text begins with `@`.
fn begins_at_rule(text: &[u8]) -> bool
    ensures { result ≡ starts at_sign text.now }
{
    matches!(text, [b'@', ..])
}

/// Whether a text is the name of an at-rule after `@`, and blanks after it.
fn is_at_rule(text: &[u8]) -> bool
    ensures { result ≡ is_at_rule_of text.now }
{
    begins_at_rule(text) && is_word_of(&AT_RULES, past_one(text))
}

/// Whether a function of `@supports` of this name is known with these arguments: one that asks about a word.
pub fn is_known_word(name: &[u8], arguments: &[u8]) -> bool
    ensures { result ≡ is_known_word_of name.now arguments.now }
{
    let word = past_gap(arguments);
    if spells(b"font-tech", name) {
        return is_word_of(&FONT_TECHNOLOGIES, word);
    }
    if spells(b"font-format", name) {
        return is_word_of(&FONT_FORMATS, word);
    }
    spells(b"at-rule", name) && is_at_rule(word)
}
