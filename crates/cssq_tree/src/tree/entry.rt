//! What a line says.
ghost use Rattle.std.specs.Prelude.{◌≡◌, ◌<◌, ◌+◌, ℕ, List, None, is_some, false, length, drop, codes};
ghost use Rattle.std.specs.Option.{option_map};
ghost use Rattle.std.specs.List.{position_or_len};
ghost use Rattle.std.specs.Str.{IsCharBoundary};
ghost use Rattle.cssq_tree.specs.TreeText.{is_tab, fields_in, fields_of};
ghost use Rattle.cssq_tree.specs.internal.Spans.{far, name_in, attributes_in, attribute_text};
ghost use Rattle.cssq_tree.specs.internal.Spans.{text_in};
ghost use Rattle.cssq_tree.specs.internal.Spans.{IsSpanOf, AreValues};
ghost use Rattle.cssq_tree.specs.PageNodes.{value_in};

use super::{len_before, value_at};

/// Replaces an offset or a length that 32 bits do not hold: the text is searched then.
pub(crate) const FAR: u32 = u32::MAX;

/// Where the value of an attribute is in the text of a line's attribute fields.
#[derive(Clone, Copy, Debug)]
pub(crate) struct Span {
    /// The offset of the value: 0 where there is none, and `FAR` where it is searched.
    at: u32,
    /// How many bytes the value has.
    len: u32,
}

impl Span {
    ghost use Rattle.cssq_tree.specs.internal.Spans.{IsNew, IsOr};

    /// No value.
    #[inline(always)]
    pub(crate) fn none() -> Span
        ensures { result.at ≡ 0 }
    {
        Span { at: 0, len: 0 }
    }

    /// A value at an offset.
    #[inline(always)]
    fn new(at: usize, len: usize) -> Span
        requires { 0 < at }
        ensures { IsNew result at len }
    {
        match (u32::try_from(at), u32::try_from(len)) {
            (Ok(at), Ok(len)) => Span { at, len },
            _ => Span { at: FAR, len: 0 },
        }
    }

    /// This value, or where there is none the one at an offset.
    #[inline(always)]
    pub(crate) fn or(self, at: usize, len: usize) -> Span
        requires { 0 < at }
        ensures { IsOr self result at len }
    {
        if self.at == 0 {
            Span::new(at, len)
        } else {
            self
        }
    }
}

/// Where the values of the attributes `class` and `id` are, which are read most often, and whether
/// there are others.
#[derive(Clone, Copy, Debug)]
pub(crate) struct Values {
    /// The value of the attribute `class`.
    pub(crate) class: Span,
    /// The value of the attribute `id`.
    pub(crate) id: Span,
    /// Whether there is an attribute that is neither of them. Where there is none, no key but these
    /// is searched.
    pub(crate) others: bool,
}

impl Values {
    ghost use Rattle.std.specs.Prelude.{◌||◌};
    ghost use Rattle.cssq_tree.specs.internal.Spans.{IsAfter, is_other};

    /// No values.
    #[inline(always)]
    pub(crate) fn none() -> Values
        ensures class { result.class.at ≡ 0 }
        ensures id { result.id.at ≡ 0 }
        ensures others { result.others ≡ false }
    {
        Values {
            class: Span::none(),
            id: Span::none(),
            others: false,
        }
    }

    /// These values with that of an attribute that follows. The first value of a key counts.
    #[inline(always)]
    pub(crate) fn with(self, key: &str, at: usize, len: usize) -> Values
        requires { 0 < at }
        ensures class { IsAfter self.class result.class (codes "class") key.now at len }
        ensures id { IsAfter self.id result.id (codes "id") key.now at len }
        ensures others { result.others ≡ (self.others || is_other key.now) }
    {
        match key {
            "class" => Values {
                class: self.class.or(at, len),
                id: self.id,
                others: self.others,
            },
            "id" => Values {
                class: self.class,
                id: self.id.or(at, len),
                others: self.others,
            },
            _ => Values {
                class: self.class,
                id: self.id,
                others: true,
            },
        }
    }
}

/// What a line says.
#[derive(Clone, Copy, Debug)]
pub(crate) struct Entry<'t> {
    /// How many ancestors the element has.
    pub(crate) depth: usize,
    /// The fields from the name on.
    pub(crate) fields: &'t str,
    /// How many bytes the name has, or `FAR`.
    name_len: u32,
    /// Where the value of the attribute `class` is.
    class: Span,
    /// Where the value of the attribute `id` is.
    id: Span,
    /// Whether there is an attribute that is neither of them.
    others: bool,
    ghost name_kept: { name_len < far → name_len ≡ position_or_len is_tab fields.now },
    ghost cut_after: { position_or_len is_tab fields.now < length fields.now
        → IsCharBoundary fields.now (position_or_len is_tab fields.now + 1) },
    ghost class_kept: { IsSpanOf (attribute_text fields.now) class
        (value_in (attributes_in fields.now) (codes "class")) },
    ghost id_kept: { IsSpanOf (attribute_text fields.now) id
        (value_in (attributes_in fields.now) (codes "id")) },
    ghost none_other: { (key : List ℕ) → others ≡ false
        → (key ≡ codes "class" → ⊥) → (key ≡ codes "id" → ⊥)
        → value_in (attributes_in fields.now) key ≡ None },
}

impl<'t> Entry<'t> {
    /// What a line says whose fields were read.
    #[inline(always)]
    pub(crate) fn new(depth: usize, fields: &'t str, name_len: usize, values: Values) -> Entry<'t>
        requires name { name_len ≡ position_or_len is_tab fields.now }
        requires values { AreValues (attribute_text fields.now) (drop 1 (fields_of fields.now))
            values }
        ensures depth { result.depth ≡ depth }
        ensures fields { result.fields.now ≡ fields.now }
    {
        Entry {
            depth,
            fields,
            name_len: u32::try_from(name_len).unwrap_or(FAR),
            class: values.class,
            id: values.id,
            others: values.others,
        }
    }

    /// How many bytes the name has.
    #[inline(always)]
    fn name_len(&self) -> usize
        ensures len { result ≡ position_or_len is_tab self.now.fields.now }
        ensures boundary { IsCharBoundary self.now.fields.now result }
        ensures after { result < length self.now.fields.now
            → IsCharBoundary self.now.fields.now (result + 1) }
    {
        if self.name_len < FAR {
            self.name_len as usize
        } else {
            len_before(self.fields, b'\t')
        }
    }

    /// The element's name.
    #[inline(always)]
    pub(crate) fn name(&self) -> &'t str
        ensures { result.now ≡ name_in self.now.fields.now }
    {
        &self.fields[..self.name_len()]
    }

    /// The text of the attribute fields, if there is one.
    #[inline(always)]
    fn attributes(&self) -> Option<&'t str>
        ensures text { text_in result ≡ attribute_text self.now.fields.now }
        ensures fields { fields_in result ≡ drop 1 (fields_of self.now.fields.now) }
    {
        let len = self.name_len();
        if len < self.fields.len() {
            Some(&self.fields[len + 1..])
        } else {
            None
        }
    }

    /// The value of the attribute with the key, by where it is.
    #[inline(always)]
    fn value(&self, span: Span, key: &str) -> Option<&'t str>
        requires { IsSpanOf (attribute_text self.now.fields.now) span
            (value_in (attributes_in self.now.fields.now) key.now) }
        ensures { option_map (λ value. value.now) result
            ≡ value_in (attributes_in self.now.fields.now) key.now }
    {
        if span.at == 0 {
            return None;
        }
        let text = self.attributes()?;
        if span.at == FAR {
            return value_at(Some(text), key);
        }
        let (at, len) = (span.at as usize, span.len as usize);
        Some(&text[at..][..len])
    }

    /// The value of the attribute `class`.
    #[inline(always)]
    pub(crate) fn class(&self) -> Option<&'t str>
        ensures { option_map (λ value. value.now) result
            ≡ value_in (attributes_in self.now.fields.now) (codes "class") }
    {
        self.value(self.class, "class")
    }

    /// The value of the attribute `id`.
    #[inline(always)]
    pub(crate) fn id(&self) -> Option<&'t str>
        ensures { option_map (λ value. value.now) result
            ≡ value_in (attributes_in self.now.fields.now) (codes "id") }
    {
        self.value(self.id, "id")
    }

    /// The value of the attribute with the key.
    pub(crate) fn attribute(&self, key: &str) -> Option<&'t str>
        ensures { option_map (λ value. value.now) result
            ≡ value_in (attributes_in self.now.fields.now) key.now }
    {
        match key {
            "class" => self.class(),
            "id" => self.id(),
            _ if self.others => value_at(self.attributes(), key),
            _ => None,
        }
    }

    /// Whether it has an attribute with the key.
    #[inline(always)]
    pub(crate) fn has(&self, key: &str) -> bool
        ensures { result ≡ is_some (value_in (attributes_in self.now.fields.now) key.now) }
    {
        match key {
            "class" => self.class.at != 0,
            "id" => self.id.at != 0,
            _ => self.others && value_at(self.attributes(), key).is_some(),
        }
    }
}
