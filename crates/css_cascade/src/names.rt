//! The names of layers after `@layer`.
ghost use Rattle.std.specs.Prelude.{◌≡◌, ◌∷◌, ◌<◌, [], IfOk, is_some, length, map, option_map};
ghost use Rattle.css_cascade.specs.LayerNames.{name_part, dotted_part, layer_name, further_name};
ghost use Rattle.css_cascade.specs.LayerNames.{layer_names, block_name as block_name_of};
ghost use Rattle.css_cascade.specs.LayerNameViews.{name_of, read_part_of, read_name_of};

use crate::layers::LayerPart;
use css_syntax::decode;
use css_syntax::statements::begins_ident;
use css_syntax::texts::{front, past_byte, past_comments, past_gap, past_word};
use css_text::readers::starts;
use std::alloc::{AllocError, Global};

/// The name of a layer, as `a.b`.
#[derive(Drop)]
pub struct LayerName<'a> {
    /// Its parts, from that of the outermost layer.
    pub parts: Vec<LayerPart<'a>>,
}

/// A part of a name that was read.
#[derive(Drop)]
pub(crate) struct ReadPart<'a> {
    /// The part.
    pub(crate) part: LayerPart<'a>,
    /// The rest after it.
    pub(crate) rest: &'a str,
}

/// A name that was read.
#[derive(Drop)]
pub(crate) struct ReadName<'a> {
    /// The name.
    pub(crate) name: LayerName<'a>,
    /// The rest after it.
    pub(crate) rest: &'a str,
}

/// Reads a part of a name, if one begins here.
#[tactic(auto, using(css_syntax::proofs::PartTexts::word_ends), unfolding(crate::specs::LayerNames::name_part))]
fn read_part<'a>(alloc: Global, text: &'a str) -> Result<Option<ReadPart<'a>>, AllocError>
    ensures { IfOk result (λ found. option_map read_part_of found ≡ name_part text.now) }
{
    if !begins_ident(text.as_bytes()) {
        return Ok(None);
    }
    let rest = past_word(text);
    match decode(alloc, front(text, rest)) {
        Ok(name) => Ok(Some(ReadPart {
            part: LayerPart::Named(name),
            rest,
        })),
        Err(error) => Err(error),
    }
}

/// Reads a dot and a part of a name, if they are next, with comments before each and no white space.
#[tactic(auto, unfolding(crate::specs::LayerNames::dotted_part))]
fn read_dotted<'a>(alloc: Global, text: &'a str) -> Result<Option<ReadPart<'a>>, AllocError>
    ensures { IfOk result (λ found. option_map read_part_of found ≡ dotted_part text.now) }
{
    let at = past_comments(text);
    if starts(at, b'.') {
        read_part(alloc, past_comments(past_byte(at, b'.')))
    } else {
        Ok(None)
    }
}

/// Reads a name with all of its parts, if one begins here.
#[tactic(auto, unfolding(crate::specs::LayerNames::layer_name))]
fn read_name<'a>(alloc: Global, text: &'a str) -> Result<Option<ReadName<'a>>, AllocError>
    ensures { IfOk result (λ found. option_map read_name_of found ≡ layer_name text.now) }
{
    let Some(first) = read_part(alloc, text)? else {
        return Ok(None);
    };
    let mut parts = Vec::new(alloc);
    let mut rest = first.rest;
    parts.push(first.part)?;
    'parts: while let Some(found) = read_dotted(alloc, rest)? {
        parts.push(found.part)?;
        rest = found.rest;
    }
    Ok(Some(ReadName {
        name: LayerName { parts },
        rest,
    }))
}

/// Reads a comma and a name after it, if they are next.
#[tactic(auto, unfolding(crate::specs::LayerNames::further_name))]
fn read_further<'a>(alloc: Global, text: &'a str) -> Result<Option<ReadName<'a>>, AllocError>
    ensures { IfOk result (λ found. option_map read_name_of found ≡ further_name text.now) }
{
    let at = past_gap(text);
    if starts(at, b',') {
        read_name(alloc, past_gap(past_byte(at, b',')))
    } else {
        Ok(None)
    }
}

/// Reads the names of a list, if the text is one.
#[tactic(auto, unfolding(crate::specs::LayerNames::layer_names))]
pub fn read_layer_names<'a>(
    alloc: Global,
    text: &'a str,
) -> Result<Option<Vec<LayerName<'a>>>, AllocError>
    ensures { IfOk result (λ found. option_map (λ names. map name_of names.items) found
        ≡ layer_names text.now) }
{
    let Some(first) = read_name(alloc, text)? else {
        return Ok(None);
    };
    let mut names = Vec::new(alloc);
    let mut rest = first.rest;
    names.push(first.name)?;
    'names: while let Some(found) = read_further(alloc, rest)? {
        names.push(found.name)?;
        rest = found.rest;
    }
    if past_gap(rest).is_empty() {
        Ok(Some(names))
    } else {
        Ok(None)
    }
}

/// Returns the layer that a block with this prelude is in, which begins at this place: that of a name, or a
/// new one without a name. Returns `None` if the prelude is neither.
#[tactic(auto, unfolding(crate::specs::LayerNames::block_name))]
pub fn read_block_name<'a>(
    alloc: Global,
    prelude: &'a str,
    place: [usize; 2],
) -> Result<Option<LayerName<'a>>, AllocError>
    ensures { IfOk result (λ found. option_map name_of found ≡ block_name_of prelude.now place) }
{
    if past_gap(prelude).is_empty() {
        let mut parts = Vec::new(alloc);
        parts.push(LayerPart::Anonymous(place))?;
        return Ok(Some(LayerName { parts }));
    }
    match read_name(alloc, prelude)? {
        Some(found) if past_gap(found.rest).is_empty() => Ok(Some(found.name)),
        _ => Ok(None),
    }
}

/// Returns the rest after a part of a name, if one begins here.
#[tactic(auto, unfolding(crate::specs::LayerNames::name_part))]
fn past_part(text: &str) -> Option<&str>
    ensures { option_map (λ rest. rest.now) result ≡ option_map (λ found. found.1) (name_part text.now) }
{
    if begins_ident(text.as_bytes()) {
        Some(past_word(text))
    } else {
        None
    }
}

/// Returns the rest after a dot and a part of a name, if they are next, with comments before each and no white
/// space.
#[tactic(auto, unfolding(crate::specs::LayerNames::dotted_part))]
fn past_dotted(text: &str) -> Option<&str>
    ensures { option_map (λ rest. rest.now) result ≡ option_map (λ found. found.1) (dotted_part text.now) }
{
    let at = past_comments(text);
    if starts(at, b'.') {
        past_part(past_comments(past_byte(at, b'.')))
    } else {
        None
    }
}

/// Returns the rest after a name with all of its parts, if one begins here.
#[tactic(auto, using(crate::proofs::PartLemmas::first_rest, crate::proofs::PartLemmas::no_rest, crate::proofs::PartLemmas::rest_none), unfolding(crate::specs::LayerNames::layer_name))]
fn past_name(text: &str) -> Option<&str>
    ensures { option_map (λ rest. rest.now) result ≡ option_map (λ found. found.1) (layer_name text.now) }
{
    let mut rest = past_part(text)?;
    'parts: while let Some(next) = past_dotted(rest) {
        rest = next;
    }
    Some(rest)
}

/// Whether a block with this prelude is in a layer.
#[tactic(auto, using(crate::proofs::PartLemmas::whole_some, crate::proofs::PartLemmas::whole_none), unfolding(crate::specs::LayerNames::block_name))]
pub fn is_block_name(prelude: &str) -> bool
    ensures { result ≡ is_some (block_name_of prelude.now (0 ∷ 0 ∷ [])) }
{
    if past_gap(prelude).is_empty() {
        return true;
    }
    match past_name(prelude) {
        Some(rest) => past_gap(rest).is_empty(),
        None => false,
    }
}
