//! Families of properties: two that may set the same thing are of one.

use std::alloc::{AllocError, Global};
use std::collections::BTreeMap;

/// The family of `all`, which sets what every property does, and of names with escapes, which may be any.
const EVERYTHING: &str = "all";

/// The number of that family.
pub(crate) const ALL: usize = 0;

/// Words that names begin with whose properties are of the family of another word.
const WORDS: &[(&str, &str)] = &[
    ("line", "font"),
    ("top", "inset"),
    ("right", "inset"),
    ("bottom", "inset"),
    ("left", "inset"),
    ("width", "size"),
    ("height", "size"),
    ("inline", "size"),
    ("block", "size"),
    ("logical", "size"),
    ("row", "grid"),
    ("gap", "grid"),
    ("column", "grid"),
    ("columns", "grid"),
    ("align", "place"),
    ("justify", "place"),
    ("white", "text"),
    ("word", "overflow"),
    ("page", "break"),
    ("alignment", "vertical"),
    ("baseline", "vertical"),
    ("print", "color"),
    ("view", "animation"),
    ("timeline", "animation"),
];

/// Returns a name without the prefix of a browser.
fn without_vendor(name: &str) -> &str {
    let Some(rest) = name.strip_prefix("-") else {
        return name;
    };
    match rest.as_bytes().iter().position(|byte| *byte == b'-') {
        Some(end) => rest.get(end.saturating_add(1)..).unwrap_or(name),
        None => name,
    }
}

/// Returns what is before the first hyphen of a name.
fn first_word(name: &str) -> &str {
    match name.as_bytes().iter().position(|byte| *byte == b'-') {
        Some(end) => name.get(..end).unwrap_or(name),
        None => name,
    }
}

/// Returns the word of the family that a word begins the names of.
fn family_of_word(word: &str) -> &str {
    for (first, family) in WORDS {
        if word.eq_ignore_ascii_case(*first) {
            return *family;
        }
    }
    word
}

/// Whether a name has an escape.
fn is_escaped(name: &str) -> bool {
    name.as_bytes().contains(&b'\\')
}

/// Returns the word of the family of a property. A custom property is one of its own.
fn family_of(name: &str) -> &str {
    if is_escaped(name) {
        return EVERYTHING;
    }
    if name.starts_with("--") {
        return name;
    }
    family_of_word(first_word(without_vendor(name)))
}

/// Returns what the spellings of a name have in common.
fn key_of(alloc: Global, name: &str) -> Result<String, AllocError> {
    if name.starts_with("--") {
        name.to_string(alloc)
    } else {
        name.to_ascii_lowercase(alloc)
    }
}

/// Numbers of names of properties and of families: of custom ones as they are written, of others whatever the case
/// of their letters.
#[derive(Drop)]
pub(crate) struct Numbers {
    numbers: BTreeMap<String, usize>,
}

impl Numbers {
    /// Returns no numbers.
    pub(crate) fn new(alloc: Global) -> Numbers {
        Numbers {
            numbers: BTreeMap::new(alloc),
        }
    }

    /// Returns how many words have a number.
    pub(crate) fn count(&self) -> usize {
        self.numbers.len()
    }

    /// Returns the number of a word. One that has none gets the next.
    pub(crate) fn number(&mut self, alloc: Global, word: &str) -> Result<usize, AllocError> {
        let key = key_of(alloc, word)?;
        if let Some(number) = self.numbers.get(key.as_str()).copied() {
            return Ok(number);
        }
        let number = self.numbers.len();
        if let Err(error) = self.numbers.insert(key, number) {
            return Err(error.into());
        }
        Ok(number)
    }
}

/// Returns numbers of families, of which that of all has the first.
pub(crate) fn families(alloc: Global) -> Result<Numbers, AllocError> {
    let mut numbers = Numbers::new(alloc);
    numbers.number(alloc, EVERYTHING)?;
    Ok(numbers)
}

/// Returns the number of the family of a property.
pub(crate) fn family_number(
    alloc: Global,
    families: &mut Numbers,
    name: &str,
) -> Result<usize, AllocError> {
    families.number(alloc, family_of(name))
}
