//! Which names are known, and which known name an unknown one is a slip of the pen for.

use crate::data;
use std::alloc::{AllocError, Global};
use std::cmp::Ordering;

/// The fewest and the most characters of a name that others are near to.
const FEWEST: usize = 3;

const MOST: usize = 64;
/// What stands for a character that is not ASCII, and so is in no known name.
const OTHER: u8 = 255;

/// Names of a kind, in the order of the alphabet.
#[derive(Drop)]
pub struct Names {
    names: Vec<&'static str>,
}

/// The known names that an unknown one may be a slip of the pen for.
#[derive(Clone, Copy)]
pub struct Near {
    /// The first by the alphabet of those with the same first letter, or of all.
    pub name: &'static str,
    /// Whether it is the only one.
    pub is_only: bool,
}

/// The names that are known.
#[derive(Drop)]
pub struct Vocabulary {
    /// The properties of elements.
    pub properties: Names,
    /// What only the blocks of at-rules have.
    pub descriptors: Names,
    /// The at-rules.
    pub at_rules: Names,
    /// The media features.
    pub features: Names,
    /// The pseudo-classes, and the pseudo-elements with one colon.
    pub classes: Names,
    /// The pseudo-elements.
    pub elements: Names,
    /// The functions of values.
    pub functions: Names,
    /// The functions with calculations in them.
    pub math: Names,
    /// The units of dimensions.
    pub units: Names,
    /// The types of elements.
    pub types: Names,
}

/// Returns the names of a text, between which spaces are.
fn split_names(alloc: Global, text: &'static str) -> Result<Vec<&'static str>, AllocError> {
    let mut names = Vec::new(alloc);
    let mut rest = text;
    for _ in 0..rest.len() {
        let Some((name, more)) = rest.split_once(' ') else {
            break;
        };
        names.push(name)?;
        rest = more;
    }
    names.push(rest)?;
    Ok(names)
}

/// Whether what is written in the place of one character is another text: the rest after it is the same.
fn is_same_after(one: &[u8], other: &[u8], past_one: usize, past_other: usize) -> bool {
    past_one <= one.len() && past_other <= other.len() && one[past_one..] == other[past_other..]
}

/// How many bytes are the same at the start of both.
fn common_len(one: &[u8], other: &[u8]) -> usize {
    one.iter()
        .zip(other.iter())
        .take_while(|(a, b)| **a == **b)
        .count()
}

/// Whether two adjacent bytes of one are exchanged in the other, from this place on.
fn is_exchanged(one: &[u8], other: &[u8], at: usize) -> bool {
    match (one.get(at..), other.get(at..)) {
        (Some([a, b, rest @ ..]), Some([c, d, more @ ..])) => *a == *d && *b == *c && rest == more,
        _ => false,
    }
}

/// Whether one slip of the pen leads from one text to the other: a character too many, too few or another,
/// or two that are exchanged.
pub fn is_slip(one: &[u8], other: &[u8]) -> bool {
    let at = common_len(one, other);
    let next = at.saturating_add(1);
    match one.len().cmp(&other.len()) {
        Ordering::Equal => {
            at < one.len()
                && (is_same_after(one, other, next, next) || is_exchanged(one, other, at))
        }
        Ordering::Less => other.len() - one.len() == 1 && is_same_after(one, other, at, next),
        Ordering::Greater => one.len() - other.len() == 1 && is_same_after(one, other, next, at),
    }
}

/// Returns the characters of a name, each in a byte.
fn letters(alloc: Global, name: &str) -> Result<Vec<u8>, AllocError> {
    let mut found = Vec::new(alloc);
    for byte in name.as_bytes() {
        if *byte < 128 {
            found.push(*byte)?;
        } else if *byte >= 192 {
            found.push(OTHER)?;
        }
    }
    Ok(found)
}

/// Whether a name may be near to others, by the number of its characters.
fn may_be_near(name: &str) -> bool {
    name.len() <= 4 * MOST
        && {
            let count = name.chars().count();
            FEWEST <= count && count <= MOST
        }
}

/// Whether a name is not for the known names to say: it has a vendor's prefix or an escape.
pub fn is_of_others(name: &str) -> bool {
    matches!(name.as_bytes(), [b'-', ..]) || name.contains('\\')
}

/// Returns which of two near names is taken: the earlier, unless only the other has the first letter.
fn better(so_far: Option<Near>, name: &'static str, first: Option<u8>) -> Near {
    match so_far {
        None => Near {
            name,
            is_only: true,
        },
        Some(near) => {
            let has = near.name.as_bytes().first().copied() == first;
            let has_other = name.as_bytes().first().copied() == first;
            Near {
                name: if !has && has_other { name } else { near.name },
                is_only: false,
            }
        }
    }
}

/// Returns the word of some lists that one is a slip of the pen for, if there is one. There are
/// spaces between the words of a list, and `?` is before those that are not taken.
pub(crate) fn nearest_word(
    alloc: Global,
    word: &str,
    lists: &[&'static str],
) -> Result<Option<Near>, AllocError> {
    if !may_be_near(word) {
        return Ok(None);
    }
    let lower = word.to_ascii_lowercase(alloc)?;
    let letters = letters(alloc, lower.as_str())?;
    let mut found = None;
    for list in lists {
        found = nearest_in(found, *list, &letters);
    }
    Ok(found)
}

/// Returns the nearest word of a list and of those that were found.
fn nearest_in(so_far: Option<Near>, list: &'static str, letters: &[u8]) -> Option<Near> {
    let mut found = so_far;
    let mut rest = list;
    for _ in 0..list.len() {
        if rest.is_empty() {
            break;
        }
        let (one, more) = rest.split_once(' ').unwrap_or((rest, ""));
        let is_found = match found {
            Some(near) => near.name == one,
            None => false,
        };
        if !is_found && !one.starts_with("?") && is_slip(letters, one.as_bytes()) {
            found = Some(better(found, one, letters.first().copied()));
        }
        rest = more;
    }
    found
}

impl Names {
    /// Returns the names of a text in the order of the alphabet, between which spaces are.
    pub fn new(alloc: Global, text: &'static str) -> Result<Names, AllocError> {
        Ok(Names {
            names: split_names(alloc, text)?,
        })
    }

    /// Returns the number of a name in lower case, if it is one of these.
    pub fn find(&self, name: &str) -> Option<usize> {
        let mut low: usize = 0;
        let mut high = self.names.len();
        for _ in 0..usize::BITS {
            let middle = low.saturating_add(high.saturating_sub(low) / 2);
            let Some(one) = self.names.get(middle).copied() else {
                return None;
            };
            match one.cmp(name) {
                Ordering::Equal => return Some(middle),
                Ordering::Less => low = middle.saturating_add(1),
                Ordering::Greater => high = middle,
            }
            if low >= high {
                return None;
            }
        }
        None
    }

    /// Returns how many there are.
    pub fn len(&self) -> usize {
        self.names.len()
    }

    /// Returns the name as it is in this list.
    pub fn same(&self, name: &str) -> Option<&'static str> {
        let at = self.find(name)?;
        self.names.get(at).copied()
    }

    /// Whether a name in lower case is one of these, or is not for them to say.
    pub fn knows(&self, name: &str) -> bool {
        self.find(name).is_some() || is_of_others(name)
    }

    /// Returns the nearest name of these and of those that were found.
    fn nearest_with(&self, so_far: Option<Near>, letters: &[u8]) -> Option<Near> {
        let first = letters.first().copied();
        let mut found = so_far;
        for name in &self.names {
            let bytes = name.as_bytes();
            if !matches!(bytes, [b'-', ..]) && is_slip(letters, bytes) {
                found = Some(better(found, name, first));
            }
        }
        found
    }

    /// Returns the name that an unknown one in lower case is a slip of the pen for, if there is one.
    pub fn nearest(&self, alloc: Global, name: &str) -> Result<Option<Near>, AllocError> {
        if !may_be_near(name) {
            return Ok(None);
        }
        let letters = letters(alloc, name)?;
        Ok(self.nearest_with(None, &letters))
    }
}

impl Vocabulary {
    /// Returns all that is known.
    pub fn new(alloc: Global) -> Result<Vocabulary, AllocError> {
        Ok(Vocabulary {
            properties: Names::new(alloc, data::PROPERTIES)?,
            descriptors: Names::new(alloc, data::DESCRIPTORS)?,
            at_rules: Names::new(alloc, data::AT_RULES)?,
            features: Names::new(alloc, data::MEDIA_FEATURES)?,
            classes: Names::new(alloc, data::PSEUDO_CLASSES)?,
            elements: Names::new(alloc, data::PSEUDO_ELEMENTS)?,
            functions: Names::new(alloc, data::FUNCTIONS)?,
            math: Names::new(alloc, data::MATH_FUNCTIONS)?,
            units: Names::new(alloc, data::UNITS)?,
            types: Names::new(alloc, data::TYPES)?,
        })
    }

    /// Returns the property or the descriptor that an unknown name is a slip of the pen for.
    pub fn nearest_descriptor(
        &self,
        alloc: Global,
        name: &str,
    ) -> Result<Option<Near>, AllocError> {
        if !may_be_near(name) {
            return Ok(None);
        }
        let letters = letters(alloc, name)?;
        let near = self.properties.nearest_with(None, &letters);
        Ok(self.descriptors.nearest_with(near, &letters))
    }
}
