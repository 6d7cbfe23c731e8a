//! Keys of rules, filed by a number of each.
ghost use Rattle.std.specs.Prelude.{◌≡◌, ◌<◌, ◌++◌, ◌∷◌, [], ℕ, true, List, length, map, IfOk, OnOk};
ghost use Rattle.std.specs.Option.{option_map};
ghost use Rattle.css_selectors.specs.Keys.{Key as KeyOf};
ghost use Rattle.css_selectors.specs.Keys.Key.{by_class, by_attribute};
ghost use Rattle.css_index.specs.internal.Added.{AreAdded};
ghost use Rattle.css_index.specs.internal.Filed.{found_by, found_by_any};
ghost use Rattle.css_index.specs.internal.Filed.{AreWords, AreFirstWords, AreClasses, AreReported, id_keys};
ghost use Rattle.css_selectors.specs.KeyViews.{key_of};
ghost use Rattle.css_index.specs.KeyNumbers.{is_same as is_same_key};
ghost use Rattle.css_index.specs.internal.Filed.{place_by, entry_of, is_found_by};
ghost use Rattle.css_index.specs.internal.Filed.{with_index, AreFiled, HasLastKey};
ghost use Rattle.css_index.specs.Tested.{filed_keys};
ghost use Rattle.css_index.specs.KeyNumbers.{number_of as number_of_key};
ghost use Rattle.css_index.specs.internal.Filed.{entries_of as entries_of_selectors};
ghost use Rattle.css_index.specs.Walks.{HasNumber, AreNumbered, AreNumbersOf, IsMore};

use crate::Keyed;
use crate::filed_key::FiledKey;
use crate::keeping::{Everything, Keeping};
use crate::key_numbers::number_of;
use crate::sieve::{Sieve, sieve_of};
use crate::words::{distinct_words, split_word};
use css_selectors::{Key, Selector, push_keys};
use std::alloc::{AllocError, Global};
use std::marker::Model;

/// Whether the keys are of one kind and have the same text, but for the case of ASCII letters in
/// names.
#[inline(always)]
pub(crate) fn is_same(one: &Key<'_>, other: &Key<'_>) -> bool
    ensures { result ≡ is_same_key (key_of one.now) (key_of other.now) }
{
    match (one, other) {
        (Key::Id(a), Key::Id(b)) => a == b,
        (Key::Class(a), Key::Class(b)) => a == b,
        (Key::Name(a), Key::Name(b)) => a.eq_ignore_ascii_case(b),
        (Key::Attribute(a), Key::Attribute(b)) => a.eq_ignore_ascii_case(b),
        (Key::Any, Key::Any) => true,
        _ => false,
    }
}

/// Returns the place of a key of this number among `count` places.
#[inline(always)]
pub(crate) fn place_of(number: u64, count: usize) -> usize
    requires { 0 < count }
    ensures value { result ≡ place_by count number }
    ensures within { result < count }
{
    (number.wrapping_mul(0x9E37_79B9_7F4A_7C15) >> 32) as usize % count
}

/// Whether the entry has the key, whose number is this.
#[inline(always)]
pub(crate) fn is_found(entry: &FiledKey<'_>, key: &Key<'_>, number: u64) -> bool
    requires { number ≡ number_of_key (key_of key.now) }
    ensures { result ≡ is_found_by (key_of key.now) (entry_of entry.now) }
{
    if entry.number != number {
        return false;
    }
    is_same(&entry.key, key)
}

/// Whether the keys are of one kind and have the same text.
fn is_equal(one: &Key<'_>, other: &Key<'_>) -> bool
    ensures { result ≡ true → key_of one.now ≡ key_of other.now }
{
    match (one, other) {
        (Key::Id(a), Key::Id(b)) => a == b,
        (Key::Class(a), Key::Class(b)) => a == b,
        (Key::Name(a), Key::Name(b)) => a == b,
        (Key::Attribute(a), Key::Attribute(b)) => a == b,
        (Key::Any, Key::Any) => true,
        _ => false,
    }
}

/// Whether the last of the entries is known to have the key, whose number is this.
fn has_last_key(entries: &[FiledKey<'_>], key: &Key<'_>, number: u64) -> bool
    ensures { result ≡ true → HasLastKey entries.now (key_of key.now) }
{
    if entries.is_empty() {
        return false;
    }
    let last = &entries[entries.len() - 1];
    last.number == number && is_equal(&last.key, key)
}

/// Returns an entry as it is filed after the others at its place.
fn filed_after<'s>(entry: FiledKey<'s>, others: &[FiledKey<'_>]) -> FiledKey<'s>
    ensures same { entry_of result ≡ entry_of entry.entry }
    ensures repeats { result.repeats ≡ true → HasLastKey others.now (key_of result.key) }
{
    FiledKey {
        key: entry.key,
        number: entry.number,
        rule: entry.rule,
        repeats: has_last_key(others, &entry.key, entry.number),
    }
}

/// Appends an entry for each key of a rule.
fn enter<'s>(
    keys: &[Key<'s>],
    rule: usize,
    entries: &mut Vec<FiledKey<'s>>,
) -> Result<(), AllocError>
    ensures { OnOk result (map entry_of entries.new.items
        ≡ map entry_of entries.old.items ++ with_index rule (map key_of keys.now)) }
{
    for key in keys {
        entries.push(FiledKey::new(*key, rule))?;
    }
    Ok(())
}

/// Appends an entry for each key of a selector, unless it matches no element. What was in `keys` is
/// dropped.
fn enter_selector<'s>(
    selector: &'s Selector<'_>,
    rule: usize,
    keys: &mut Vec<Key<'s>>,
    entries: &mut Vec<FiledKey<'s>>,
) -> Result<(), AllocError>
    ensures { OnOk result (map entry_of entries.new.items
        ≡ map entry_of entries.old.items
        ++ with_index rule (filed_keys selector.now)) }
{
    if selector.pseudo_element().is_some() {
        return Ok(());
    }
    keys.clear();
    push_keys(selector, keys)?;
    enter(keys.as_slice(), rule, entries)
}

/// Returns the entries of selectors.
fn entries_of<'s>(
    alloc: Global,
    selectors: &[&'s Selector<'_>],
) -> Result<Vec<FiledKey<'s>>, AllocError>
    ensures { IfOk result (λ entries. map entry_of entries.items
        ≡ entries_of_selectors (map (λ s. s.now) selectors.now)) }
{
    let mut entries = Vec::with_capacity(alloc, selectors.len())?;
    let mut keys = Vec::new(alloc);
    for rule in 0..selectors.len() {
        enter_selector(selectors[rule], rule, &mut keys, &mut entries)?;
    }
    Ok(entries)
}

/// Returns `count` empty lists.
fn empty_lists<'s>(alloc: Global, count: usize) -> Result<Vec<Vec<FiledKey<'s>>>, AllocError>
    requires { 0 < count }
    ensures { IfOk result (λ buckets. AreFiled [] buckets.items) }
{
    let mut buckets = Vec::with_capacity(alloc, count)?;
    for place in 0..count {
        buckets.push(Vec::new(alloc))?;
    }
    Ok(buckets)
}

/// Files entries, each at the place of its key.
fn file<'s>(
    entries: &[FiledKey<'s>],
    buckets: &mut Vec<Vec<FiledKey<'s>>>,
) -> Result<(), AllocError>
    requires { AreFiled [] buckets.old.items }
    ensures { OnOk result (AreFiled (map entry_of entries.now) buckets.new.items) }
{
    for entry in entries {
        let place = place_of(entry.number, buckets.len());
        let filed = filed_after(*entry, &buckets[place]);
        buckets[place].push(filed)?;
    }
    Ok(())
}

/// Appends the index, if it is kept.
#[inline(always)]
fn push_kept<K: Keeping>(index: usize, kept: &K, indices: &mut Vec<usize>) -> Result<(), AllocError>
    ensures { OnOk result (AreAdded (K.Keeps kept.now) indices.old.items (index ∷ [])
        indices.new.items) }
{
    if kept.keeps(index) {
        indices.push(index)?;
    }
    Ok(())
}

/// So many words of a class are looked up as they come, and of the others each once.
const FIRST_WORDS: usize = 8;

/// Keys, each with the index of a rule or with a number. They are filed, each at its place. Of entries
/// there that follow each other and have one key the first is compared with what is searched.
#[derive(Drop)]
pub(crate) struct Table<'s> {
    /// The entries, in order.
    entries: Vec<FiledKey<'s>>,
    /// The entries at each place.
    buckets: Vec<Vec<FiledKey<'s>>>,
    /// Which keys there can be.
    sieve: Sieve,
}

impl<'s> Model for Table<'s> {
    ghost use Rattle.std.specs.Prelude.{ℕ, List, map};
    ghost use Rattle.css_selectors.specs.Keys.{Key};
    ghost use Rattle.css_index.specs.internal.Filed.{entry_of, AreFiled};
    ghost use Rattle.css_index.specs.internal.Sieves.{AreIn};

    ghost Value = { List (Key × ℕ) };

    ghost view = { λ table. map entry_of table.entries.items };

    ghost invariant = { λ table. AreFiled (map entry_of table.entries.items) table.buckets.items
        × AreIn table.sieve.places.items (map entry_of table.entries.items) };
}

impl<'s> Table<'s> {
    /// Returns a table without entries, with so many places.
    pub(crate) fn empty(alloc: Global, count: usize) -> Result<Table<'s>, AllocError>
        requires { 0 < count }
        ensures { IfOk result (λ table. table ≡ []) }
    {
        let buckets = empty_lists(alloc, count)?;
        Ok(Table {
            entries: Vec::new(alloc),
            buckets,
            sieve: Sieve::new(alloc)?,
        })
    }

    /// Appends an entry.
    fn push(&mut self, entry: FiledKey<'s>) -> Result<(), AllocError>
        ensures { OnOk result (self.new ≡ self.old ++ entry_of entry.entry ∷ []) }
    {
        let place = place_of(entry.number, self.buckets.len());
        self.entries.push(entry)?;
        let filed = filed_after(entry, &self.buckets[place]);
        if let Err(error) = self.buckets[place].push(filed) {
            self.entries.pop();
            return Err(error.into());
        }
        self.sieve.add(&entry.key);
        Ok(())
    }

    /// Returns the number of the key. One that has none gets the next. What was in `found` is dropped.
    pub(crate) fn number(
        &mut self,
        key: Key<'s>,
        found: &mut Vec<usize>,
    ) -> Result<usize, AllocError>
        requires { AreNumbered self.old }
        ensures numbered { OnOk result (AreNumbered self.new) }
        ensures more { OnOk result (IsMore self.old self.new) }
        ensures number { IfOk result (λ number. HasNumber self.new (key_of key.entry) number) }
    {
        found.clear();
        self.push_found(&key, &Everything, found)?;
        if let Some(number) = found.first() {
            return Ok(*number);
        }
        let number = self.entries.len();
        self.push(FiledKey::new(key, number))?;
        Ok(number)
    }

    /// Appends the numbers of the keys. Those that have none get the next. What was in `found` is
    /// dropped.
    pub(crate) fn push_numbers(
        &mut self,
        keys: &[Key<'s>],
        found: &mut Vec<usize>,
        numbers: &mut Vec<usize>,
    ) -> Result<(), AllocError>
        requires numbered { AreNumbered self.old }
        requires none { numbers.old.items ≡ [] }
        ensures numbered { OnOk result (AreNumbered self.new) }
        ensures more { OnOk result (IsMore self.old self.new) }
        ensures numbers { OnOk result
            (AreNumbersOf self.new (map key_of keys.now) numbers.new.items) }
    {
        for key in keys {
            let number = self.number(*key, found)?;
            numbers.push(number)?;
        }
        Ok(())
    }

    /// Returns how many keys have numbers.
    pub(crate) fn len(&self) -> usize
        ensures { result ≡ length self.now }
    {
        self.entries.len()
    }

    /// Appends the indices of the rules with this key that are kept.
    #[inline(always)]
    fn push_found<K: Keeping>(
        &self,
        key: &Key<'_>,
        kept: &K,
        indices: &mut Vec<usize>,
    ) -> Result<(), AllocError>
        ensures { OnOk result (AreAdded (K.Keeps kept.now) indices.old.items
            (found_by self.now (key_of key.now)) indices.new.items) }
    {
        if !self.sieve.may_have(key) {
            return Ok(());
        }
        self.push_filed(key, kept, indices)
    }

    /// Appends the indices of the rules with this key that are kept, by all entries at its place.
    fn push_filed<K: Keeping>(
        &self,
        key: &Key<'_>,
        kept: &K,
        indices: &mut Vec<usize>,
    ) -> Result<(), AllocError>
        ensures { OnOk result (AreAdded (K.Keeps kept.now) indices.old.items
            (found_by self.now (key_of key.now)) indices.new.items) }
    {
        let number = number_of(key);
        let place = place_of(number, self.buckets.len());
        let mut found = false;
        for entry in &self.buckets[place] {
            found = if entry.repeats {
                found
            } else {
                is_found(entry, key, number)
            };
            if found {
                push_kept(entry.rule, kept, indices)?;
            }
        }
        Ok(())
    }

    /// Appends the indices of the rules with this id as a key, if there is one, that are kept.
    fn push_id<K: Keeping>(
        &self,
        id: Option<&str>,
        kept: &K,
        indices: &mut Vec<usize>,
    ) -> Result<(), AllocError>
        ensures { OnOk result (AreAdded (K.Keeps kept.now) indices.old.items
            (found_by_any self.now (id_keys (option_map (λ text. text.now) id.entry)))
            indices.new.items) }
    {
        match id {
            Some(text) => self.push_found(&Key::Id(text), kept, indices),
            None => Ok(()),
        }
    }

    /// Appends the indices of the rules with one of the first words of the value as a key that are kept.
    /// Returns what is after these words, if more may follow.
    fn push_first_words<'v, K: Keeping>(
        &self,
        value: &'v str,
        kept: &K,
        indices: &mut Vec<usize>,
    ) -> Result<Option<&'v str>, AllocError>
        ensures { IfOk result (λ rest. (words : List (List ℕ))
            × AreFirstWords value.now words (option_map (λ text. text.now) rest)
            × AreAdded (K.Keeps kept.now) indices.old.items
            (found_by_any self.now (map by_class words)) indices.new.items) }
    {
        let mut rest = value;
        'words: for _ in 0..FIRST_WORDS {
            let Some((word, after)) = split_word(rest) else {
                return Ok(None);
            };
            self.push_found(&Key::Class(word), kept, indices)?;
            rest = after;
        }
        Ok(Some(rest))
    }

    /// Appends the indices of the rules with a word of the value as a key that are kept.
    fn push_words<K: Keeping>(
        &self,
        value: &str,
        kept: &K,
        indices: &mut Vec<usize>,
    ) -> Result<(), AllocError>
        ensures { OnOk result ((words : List (List ℕ)) × AreWords value.now words
            × AreAdded (K.Keeps kept.now) indices.old.items
            (found_by_any self.now (map by_class words)) indices.new.items) }
    {
        let Some(rest) = self.push_first_words(value, kept, indices)? else {
            return Ok(());
        };
        let words = distinct_words(*indices.allocator(), rest)?;
        for word in &words {
            self.push_found(&Key::Class(*word), kept, indices)?;
        }
        Ok(())
    }

    /// Appends the indices of the rules with a class of an element as a key, if it has a value, that are
    /// kept.
    fn push_classes<K: Keeping>(
        &self,
        class: Option<&str>,
        kept: &K,
        indices: &mut Vec<usize>,
    ) -> Result<(), AllocError>
        ensures { OnOk result ((words : List (List ℕ))
            × AreClasses (option_map (λ value. value.now) class.entry) words
            × AreAdded (K.Keeps kept.now) indices.old.items
            (found_by_any self.now (map by_class words)) indices.new.items) }
    {
        match class {
            Some(value) => self.push_words(value, kept, indices),
            None => Ok(()),
        }
    }

    /// Appends the indices of the rules with the name of an attribute of the element as a key that are
    /// kept.
    fn push_attributes<E: Keyed, K: Keeping>(
        &self,
        element: &E,
        kept: &K,
        indices: &mut Vec<usize>,
    ) -> Result<(), AllocError>
        ensures { OnOk result (AreAdded (K.Keeps kept.now) indices.old.items
            (found_by_any self.now (map by_attribute (E.reported element.now).attributes))
            indices.new.items) }
    {
        for index in 0..element.attribute_count() {
            let name = element.attribute_name(index);
            self.push_found(&Key::Attribute(name), kept, indices)?;
        }
        Ok(())
    }

    /// Appends the indices of the rules of which a key is reported that are kept.
    pub(crate) fn push_keyed<E: Keyed, K: Keeping>(
        &self,
        element: &E,
        kept: &K,
        indices: &mut Vec<usize>,
    ) -> Result<(), AllocError>
        ensures { OnOk result ((keys : List KeyOf)
            × AreReported E.document (E.node element.now) (E.reported element.now) keys
            × AreAdded (K.Keeps kept.now) indices.old.items (found_by_any self.now keys)
            indices.new.items) }
    {
        self.push_found(&Key::Any, kept, indices)?;
        self.push_found(&Key::Name(element.local_name()), kept, indices)?;
        self.push_id(element.attribute("id"), kept, indices)?;
        self.push_classes(element.attribute("class"), kept, indices)?;
        self.push_attributes(element, kept, indices)
    }
}

/// Returns the keys of rules, filed.
pub(crate) fn filed<'s>(
    alloc: Global,
    selectors: &[&'s Selector<'_>],
) -> Result<Table<'s>, AllocError>
    ensures { IfOk result (λ table. table
        ≡ entries_of_selectors (map (λ s. s.now) selectors.now)) }
{
    let entries = entries_of(alloc, selectors)?;
    let mut buckets = empty_lists(alloc, entries.len().saturating_mul(2).max(1))?;
    file(entries.as_slice(), &mut buckets)?;
    let sieve = sieve_of(alloc, entries.as_slice())?;
    Ok(Table {
        entries,
        buckets,
        sieve,
    })
}
