//! The order of cascade layers (CSS Cascading 5, section 6.4).
ghost use Rattle.std.specs.Prelude.{◌≡◌, ◌+◌, ◌≤◌, ◌<◌, IfErr, IfOk, OnOk, Some, length, map};
ghost use Rattle.css_cascade.specs.Layers.{is_same_part as is_same_part_of, number_in as number_in_known};
ghost use Rattle.css_cascade.specs.Layers.{number_at, number_of, place_of as place_in, outermost_layer, outermost_layers, outermost_number, with_layer, with_name, most_layers, origin_count};
ghost use Rattle.css_cascade.specs.declared.layers.LayersError.TheVariants.{TooManyLayers};
ghost use Rattle.css_cascade.specs.LayerViews.{part_of, known_layer, known_of};

use crate::weights::Origin;
use std::alloc::{AllocError, AllocFailed, Global};
use std::borrow::CowStr;

/// How many layers there may be beside the outermost ones.
const MOST: usize = 1024;

/// How many outermost layers there are: one of each origin.
const OUTERMOST: usize = 4;

/// What tells a layer from the others that are directly in the same one.
#[derive(Drop)]
pub enum LayerPart<'a> {
    /// Its name, with its escapes decoded.
    Named(CowStr<'a>),
    /// The place at which it begins, if it has no name: a number of its text, and one in that. Each is a
    /// new one.
    Anonymous([usize; 2]),
    /// Nothing: it is the outermost one of an origin, in which all of its layers are.
    Outermost,
}

/// Why a layer is not mentioned.
#[derive(Clone, Copy, Debug, PartialEq)]
pub enum LayersError {
    /// There would be more than 1,024 layers.
    TooManyLayers,
    /// An allocation failed.
    Memory,
}

impl From<AllocError> for LayersError {
    ghost use Rattle.css_cascade.specs.declared.layers.LayersError.TheVariants.{Memory};

    ghost from_gives = { λ _ error. error ≡ Memory };

    fn from(_error: AllocError) -> LayersError {
        LayersError::Memory
    }
}

impl<T: Drop> From<AllocFailed<T>> for LayersError {
    ghost use Rattle.css_cascade.specs.declared.layers.LayersError.TheVariants.{Memory};

    ghost from_gives = { λ _ error. error ≡ Memory };

    fn from(_error: AllocFailed<T>) -> LayersError {
        LayersError::Memory
    }
}

/// A layer that was mentioned.
#[derive(Drop)]
pub struct KnownLayer<'a> {
    /// Its number.
    pub(crate) number: usize,
    /// The number of the layer that it is directly in.
    pub(crate) outer: usize,
    /// What tells it from the others there.
    pub(crate) part: LayerPart<'a>,
}

/// The layers that were mentioned, each with a number: those of the author in their order, and then those
/// of each other origin in theirs. The last one of an origin is what is in no layer.
#[derive(Drop)]
pub struct Layers<'a> {
    /// The layers.
    pub(crate) known: Vec<KnownLayer<'a>>,
}

/// Whether two layers that are directly in the same one are the same.
fn is_same_part(one: &LayerPart<'_>, other: &LayerPart<'_>) -> bool
    ensures { result ≡ is_same_part_of (part_of one.now) (part_of other.now) }
{
    match (one, other) {
        (LayerPart::Named(name), LayerPart::Named(second)) => **name == **second,
        (LayerPart::Anonymous(place), LayerPart::Anonymous(second)) => place == second,
        (LayerPart::Outermost, LayerPart::Outermost) => true,
        _ => false,
    }
}

/// Returns the number of the layer that is directly in this one and has this part, if it is known.
fn number_in(known: &[KnownLayer<'_>], outer: usize, part: &LayerPart<'_>) -> Option<usize>
    ensures { result ≡ number_in_known outer (part_of part.now) (map known_layer known.now) }
{
    let mut rest = known;
    'known: while let [one, more @ ..] = rest {
        if one.outer == outer && is_same_part(&one.part, part) {
            return Some(one.number);
        }
        rest = more;
    }
    None
}

/// Returns how many layers are before the one with this number, or how many there are.
fn place_of(known: &[KnownLayer<'_>], number: usize) -> usize
    ensures place { result ≡ place_in number (map known_layer known.now) }
    ensures within { result ≤ length known.now }
{
    let mut place: usize = 0;
    let mut rest = known;
    'known: while let [one, more @ ..] = rest {
        if one.number == number {
            return place;
        }
        place += 1;
        rest = more;
    }
    place
}

/// Returns the number of the layer of an origin in which all of its layers are.
pub fn outermost(origin: Origin) -> usize
    ensures { result ≡ outermost_number origin }
{
    match origin {
        Origin::Author => 0,
        Origin::Hint => 1,
        Origin::User => 2,
        Origin::UserAgent => 3,
    }
}

impl<'a> KnownLayer<'a> {
    /// Returns the layer of an origin in which all of its layers are.
    fn outermost(origin: Origin) -> KnownLayer<'a>
        ensures { known_layer result ≡ outermost_layer origin }
    {
        let number = outermost(origin);
        KnownLayer {
            number,
            outer: number,
            part: LayerPart::Outermost,
        }
    }
}

impl<'a> Layers<'a> {
    /// Returns the outermost layers alone, one of each origin.
    pub fn new(alloc: Global) -> Result<Layers<'a>, AllocError>
        ensures { IfOk result (λ layers. known_of layers ≡ outermost_layers) }
    {
        let mut known = Vec::new(alloc);
        known.push(KnownLayer::outermost(Origin::Author))?;
        known.push(KnownLayer::outermost(Origin::Hint))?;
        known.push(KnownLayer::outermost(Origin::User))?;
        known.push(KnownLayer::outermost(Origin::UserAgent))?;
        Ok(Layers { known })
    }

    /// Takes note of the layer that is directly in this one and has this part, and returns its number.
    /// A new one comes after all others in that layer, and before what is in that layer itself.
    fn mention_part(&mut self, outer: usize, part: LayerPart<'a>) -> Result<usize, LayersError>
        ensures known { IfOk result (λ _. known_of self.new
            ≡ with_layer (known_of self.old) outer (part_of part.entry)) }
        ensures number { IfOk result (λ number. number
            ≡ number_of outer (part_of part.entry) (known_of self.new)) }
        ensures within { OnOk result (length (known_of self.old) ≤ most_layers + origin_count
            → length (known_of self.new) ≤ most_layers + origin_count) }
        ensures kept { IfErr result (λ _. known_of self.new ≡ known_of self.old) }
        ensures refused { IfErr result (λ error. error ≡ TooManyLayers → most_layers + origin_count
            < length (with_layer (known_of self.old) outer (part_of part.entry))) }
    {
        if let Some(number) = number_in(&self.known, outer, &part) {
            return Ok(number);
        }
        let number = self.known.len();
        if number >= MOST + OUTERMOST {
            return Err(LayersError::TooManyLayers);
        }
        let at = place_of(&self.known, outer);
        self.known.insert(
            at,
            KnownLayer {
                number,
                outer,
                part,
            },
        )?;
        Ok(number)
    }

    /// Takes note of the layer with these parts in this one, and of those that it is in, from the
    /// outermost. Returns its number. A new layer comes after all others in the one that it is directly
    /// in, and before what is in that itself.
    ///
    /// Fails if there would be too many layers, or if an allocation fails; some of those that it is in may
    /// be new then.
    pub fn mention(&mut self, outer: usize, parts: Vec<LayerPart<'a>>) -> Result<usize, LayersError>
        ensures known { IfOk result (λ _. known_of self.new
            ≡ with_name (known_of self.old) outer (map part_of parts.entry.items)) }
        ensures number { IfOk result (λ number.
            number_at outer (map part_of parts.entry.items) (known_of self.new) ≡ Some number) }
        ensures within { OnOk result (length (known_of self.old) ≤ most_layers + origin_count
            → length (known_of self.new) ≤ most_layers + origin_count) }
        ensures refused { IfErr result (λ error. error ≡ TooManyLayers → most_layers + origin_count
            < length (with_name (known_of self.old) outer (map part_of parts.entry.items))) }
    {
        let mut number = outer;
        'parts: for part in parts {
            number = self.mention_part(number, part)?;
        }
        Ok(number)
    }

    /// Returns how many layers are before the one with this number: of two layers of one origin the one with
    /// the greater rank is the later in the order of the cascade.
    pub fn rank(&self, number: usize) -> usize
        ensures { result ≡ place_in number (known_of self.now) }
    {
        place_of(&self.known, number)
    }
}
