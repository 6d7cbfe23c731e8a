//! What an `@import` rule has: its url, its layer and its conditions.
ghost use Rattle.std.specs.Prelude.{◌≡◌, ◌<◌, ◌-◌, option_map};
ghost use Rattle.css_text.specs.Bytes.{starts_by};
ghost use Rattle.css_text.specs.Strings.{is_quote as is_quote_of};
ghost use Rattle.css_sheet.specs.ImportRules.{closed_by, string_url, string_here, bare_url, url_inside};
ghost use Rattle.css_sheet.specs.ImportRules.{begins_word as begins_word_of, begins_function as begins_function_of};
ghost use Rattle.css_sheet.specs.ImportRules.{after_open as after_open_of, url_here};
ghost use Rattle.css_sheet.specs.ImportRules.{value_part as value_part_of, past_values as past_values_of};
ghost use Rattle.css_sheet.specs.ImportRules.{arguments, after_function, is_layer_name as is_layer_name_of};
ghost use Rattle.css_sheet.specs.ImportRules.{layer_function, layer_here, supports_here, import_from};
ghost use Rattle.css_sheet.specs.ImportViews.{import_of};
ghost use Rattle.css_sheet.specs.internal.FoundViews.{found_url, found_layer, found_supports};

use css_cascade::is_block_name;
use css_syntax::texts::{
    front, past_ascii, past_byte, past_gap, past_spaces, past_string_parts, past_url_parts,
    past_word, read_value, spells,
};
use css_text::readers::starts;

/// The url of an import, with its escapes as written.
#[derive(Clone, Copy, Debug, PartialEq)]
pub enum ImportUrl<'a> {
    /// What is between the quotes of a string, for [`decode_string`](css_syntax::decode_string).
    Quoted(&'a str),
    /// What is in `url(..)` without quotes, for [`decode`](css_syntax::decode).
    Bare(&'a str),
}

/// The layer that an imported sheet is in.
#[derive(Clone, Copy, Debug, PartialEq)]
pub enum ImportLayer<'a> {
    /// None.
    Unlayered,
    /// One without a name.
    Anonymous,
    /// The one of this name, for [`read_layer_names`](css_cascade::read_layer_names).
    Named(&'a str),
}

/// An `@import` rule.
#[derive(Clone, Copy, Debug, PartialEq)]
pub struct Import<'a> {
    /// The offset of its first byte in the sheet.
    pub start: usize,
    /// How many bytes it has.
    pub size: usize,
    /// The url.
    pub url: ImportUrl<'a>,
    /// The layer.
    pub layer: ImportLayer<'a>,
    /// What is in the parentheses of `supports(..)`: a condition or a declaration, or what is
    /// neither and does not hold.
    pub supports: Option<&'a str>,
    /// The list of media queries, without blanks at either end.
    pub media: &'a str,
}

/// A url and the rest after it.
#[derive(Clone, Copy)]
pub(crate) struct FoundUrl<'a> {
    pub(crate) url: ImportUrl<'a>,
    pub(crate) rest: &'a str,
}

/// A layer and the rest after it.
#[derive(Clone, Copy)]
pub(crate) struct FoundLayer<'a> {
    pub(crate) layer: ImportLayer<'a>,
    pub(crate) rest: &'a str,
}

/// A condition of `supports(..)`, if there is one, and the rest after it.
#[derive(Clone, Copy)]
pub(crate) struct FoundSupports<'a> {
    pub(crate) supports: Option<&'a str>,
    pub(crate) rest: &'a str,
}

/// Returns the rest after the byte that closes something, or at the end of the text, which closes
/// all.
fn past_closer(text: &str, byte: u8) -> Option<&str>
    requires { byte < 128 }
    ensures { closed_by byte text.now ≡ option_map (λ rest. rest.now) result }
{
    if text.is_empty() || starts(text, byte) {
        Some(past_byte(text, byte))
    } else {
        None
    }
}

/// Reads a string from after its quote.
#[tactic(auto, using(css_syntax::proofs::Utf8Ends::string_parts_ends))]
fn read_string_from(quote: u8, inside: &str) -> Option<FoundUrl<'_>>
    requires { quote < 128 }
    ensures { string_url quote inside.now ≡ option_map found_url result }
{
    let end = past_string_parts(inside, quote);
    let rest = past_closer(end, quote)?;
    Some(FoundUrl {
        url: ImportUrl::Quoted(front(inside, end)),
        rest,
    })
}

/// Whether a string begins here.
fn begins_string(text: &str) -> bool
    ensures { result ≡ starts_by is_quote_of text.now }
{
    starts(text, b'"') || starts(text, b'\'')
}

/// Reads a string that begins here.
fn read_string(text: &str) -> Option<FoundUrl<'_>>
    ensures { string_here text.now ≡ option_map found_url result }
{
    if starts(text, b'"') {
        read_string_from(b'"', past_ascii(text))
    } else if starts(text, b'\'') {
        read_string_from(b'\'', past_ascii(text))
    } else {
        None
    }
}

/// Reads a url without quotes, from its first byte.
#[tactic(auto, using(crate::proofs::ImportLemmas::url_ends))]
fn read_bare(inside: &str) -> Option<FoundUrl<'_>>
    ensures { bare_url inside.now ≡ option_map found_url result }
{
    let end = past_url_parts(inside);
    let rest = past_closer(past_spaces(end), b')')?;
    Some(FoundUrl {
        url: ImportUrl::Bare(front(inside, end)),
        rest,
    })
}

/// Reads what is in `url(..)`, from after blanks.
fn read_inside(text: &str) -> Option<FoundUrl<'_>>
    ensures { url_inside text.now ≡ option_map found_url result }
{
    if !begins_string(text) {
        return read_bare(text);
    }
    let found = read_string(text)?;
    let rest = past_closer(past_gap(found.rest), b')')?;
    Some(FoundUrl {
        url: found.url,
        rest,
    })
}

/// Whether this word begins here.
#[tactic(auto, using(css_syntax::proofs::PartTexts::word_ends))]
fn begins_word(keyword: &str, text: &str) -> bool
    ensures { result ≡ begins_word_of keyword.now text.now }
{
    spells(keyword, front(text, past_word(text)))
}

/// Whether the function of this name begins here.
fn begins_function(keyword: &str, text: &str) -> bool
    ensures { result ≡ begins_function_of keyword.now text.now }
{
    begins_word(keyword, text) && starts(past_word(text), b'(')
}

/// Returns what follows the parenthesis of a function.
fn after_open(text: &str) -> &str
    ensures { result.now ≡ after_open_of text.now }
{
    past_byte(past_word(text), b'(')
}

/// Reads a url that begins here.
#[tactic(auto, unfolding(crate::specs::ImportRules::url_here))]
pub(crate) fn read_url(text: &str) -> Option<FoundUrl<'_>>
    ensures { url_here text.now ≡ option_map found_url result }
{
    if begins_string(text) {
        read_string(text)
    } else if begins_function("url", text) {
        read_inside(past_spaces(after_open(text)))
    } else {
        None
    }
}

/// Returns the rest after a component value, unless the text or the parentheses end here.
#[tactic(auto, unfolding(crate::specs::ImportRules::value_part))]
fn value_part(text: &str) -> Option<&str>
    ensures { value_part_of text.now ≡ option_map (λ after. (tt, after.now)) result }
{
    if text.is_empty() || starts(text, b')') {
        None
    } else {
        Some(read_value(text).rest)
    }
}

/// Returns the rest after component values up to a closing parenthesis.
fn past_values(text: &str) -> &str
    ensures { result.now ≡ past_values_of text.now }
{
    let mut rest = text;
    'values: while let Some(after) = value_part(rest) {
        rest = after;
    }
    rest
}

/// What is in the parentheses of a function, and the rest after it.
#[derive(Clone, Copy)]
struct Arguments<'a> {
    text: &'a str,
    rest: &'a str,
}

/// Reads the function that begins here.
#[tactic(auto, using(crate::proofs::ImportLemmas::values_ends))]
fn read_function(text: &str) -> Arguments<'_>
    ensures arguments { result.text.now ≡ arguments text.now }
    ensures rest { result.rest.now ≡ after_function text.now }
{
    let inside = past_gap(after_open(text));
    let end = past_values(inside);
    Arguments {
        text: front(inside, end),
        rest: past_byte(end, b')'),
    }
}

/// Whether the text is the name of a layer.
fn is_layer_name(text: &str) -> bool
    ensures { result ≡ is_layer_name_of text.now }
{
    !text.is_empty() && is_block_name(text)
}

/// Reads `layer(..)`, unless what is in its parentheses is no name of a layer.
fn read_layer_function(text: &str) -> FoundLayer<'_>
    ensures { layer_function text.now ≡ found_layer result }
{
    let found = read_function(text);
    if is_layer_name(found.text) {
        FoundLayer {
            layer: ImportLayer::Named(found.text),
            rest: found.rest,
        }
    } else {
        FoundLayer {
            layer: ImportLayer::Unlayered,
            rest: text,
        }
    }
}

/// Reads the layer that is named here.
#[tactic(auto, unfolding(crate::specs::ImportRules::layer_here))]
fn read_layer(text: &str) -> FoundLayer<'_>
    ensures { layer_here text.now ≡ found_layer result }
{
    if begins_function("layer", text) {
        read_layer_function(text)
    } else if begins_word("layer", text) {
        FoundLayer {
            layer: ImportLayer::Anonymous,
            rest: past_word(text),
        }
    } else {
        FoundLayer {
            layer: ImportLayer::Unlayered,
            rest: text,
        }
    }
}

/// Reads the condition `supports(..)`, if it is here.
#[tactic(auto, unfolding(crate::specs::ImportRules::supports_here))]
fn read_supports(text: &str) -> FoundSupports<'_>
    ensures { supports_here text.now ≡ found_supports result }
{
    if !begins_function("supports", text) {
        return FoundSupports {
            supports: None,
            rest: text,
        };
    }
    let found = read_function(text);
    FoundSupports {
        supports: Some(found.text),
        rest: found.rest,
    }
}

/// Reads the import that has this url, from what follows it.
pub(crate) fn read_import<'a>(start: usize, size: usize, found: FoundUrl<'a>) -> Import<'a>
    ensures { import_of result ≡ import_from start size (found_url found.entry) }
{
    let layer = read_layer(past_gap(found.rest));
    let supports = read_supports(past_gap(layer.rest));
    Import {
        start,
        size,
        url: found.url,
        layer: layer.layer,
        supports: supports.supports,
        media: past_gap(supports.rest),
    }
}
