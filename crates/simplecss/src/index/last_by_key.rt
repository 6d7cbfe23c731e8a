//! The last index that each key has.
ghost use Rattle.std.specs.Prelude.{◌≡◌, IfOk, OnOk, None, IsTrue};
ghost use Rattle.simplecss_selector.specs.Keys.{Key as KeyValue};
ghost use Rattle.simplecss_selector.specs.KeyViews.{key_value};
ghost use Rattle.simplecss.specs.internal.LastByKey.{last_for, TakesIndex};

use super::texts::Texts;
use simplecss_selector::Key;
use std::alloc::{AllocError, Global};

/// For each key the index that was the last to be put under it. Each kind of key has a map from its
/// texts.
#[derive(Drop)]
pub(crate) struct LastByKey<'a> {
    /// By the id.
    ids: Texts<'a>,
    /// By the class.
    pub(crate) classes: Texts<'a>,
    /// By the type name.
    names: Texts<'a>,
    /// By the name of an attribute.
    pub(crate) attributes: Texts<'a>,
    /// The index under the key that every element has.
    any: Option<usize>,
}

impl<'a> LastByKey<'a> {
    /// No key has an index.
    pub(crate) fn new(alloc: Global) -> LastByKey<'a>
        ensures { (key : KeyValue) → last_for result key ≡ None }
    {
        LastByKey {
            ids: Texts::new(alloc),
            classes: Texts::new(alloc),
            names: Texts::new(alloc),
            attributes: Texts::new(alloc),
            any: None,
        }
    }

    /// Whether no key has an index.
    pub(crate) fn is_empty(&self) -> bool
        ensures { IsTrue result → (key : KeyValue) → last_for self.now key ≡ None }
    {
        self.any.is_none()
            && self.names.indices.is_empty()
            && self.ids.indices.is_empty()
            && self.classes.indices.is_empty()
            && self.attributes.indices.is_empty()
    }

    /// The last index of the key, if it has one.
    pub(crate) fn get(&self, key: Key<'_>) -> Option<usize>
        ensures { result ≡ last_for self.now (key_value key.entry) }
    {
        match key {
            Key::Id(text) => self.ids.get(text),
            Key::Class(word) => self.classes.get(word),
            Key::Name(name) => self.names.get(name),
            Key::Attribute(name) => self.attributes.get(name),
            Key::Any => self.any,
        }
    }

    /// Stores the index under the key, and returns the one that was the last there.
    pub(crate) fn replace(
        &mut self,
        key: Key<'a>,
        index: usize,
    ) -> Result<Option<usize>, AllocError>
        ensures known { IfOk result (λ known. known ≡ last_for self.old (key_value key.entry)) }
        ensures taken { OnOk result (TakesIndex self.old self.new (key_value key.entry) index) }
    {
        let known = match key {
            Key::Id(text) => self.ids.insert(text, index),
            Key::Class(word) => self.classes.insert(word, index),
            Key::Name(name) => self.names.insert(name, index),
            Key::Attribute(name) => self.attributes.insert(name, index),
            Key::Any => Ok(self.any.replace(index)),
        };
        Ok(known?)
    }
}
