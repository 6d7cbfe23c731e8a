//! Selectors.
use crate::{Part, PseudoElement};
use std::marker::Model;

/// A selector: compound selectors joined by combinators, and a pseudo-element at the end if it has one.
#[derive(Drop)]
pub struct Selector<'a> {
    /// The compound selectors, from left to right. There is at least one.
    pub(crate) parts: Vec<Part<'a>>,
    /// The pseudo-element.
    pub(crate) pseudo_element: Option<PseudoElement<'a>>,
}

/// A selector of a list, and where it is in the text that was read.
#[derive(Drop)]
pub struct Listed<'a> {
    /// The selector.
    pub selector: Selector<'a>,
    /// What is left of the text where it begins.
    pub from: &'a str,
    /// What is left where its pseudo-element begins, from the first colon on. Without one it is what is
    /// left where the selector ends.
    pub element: &'a str,
    /// What is left where it ends.
    pub to: &'a str,
}

impl<'a> Model for Selector<'a> {
    ghost use Rattle.std.specs.Prelude.{◌<◌, length, map, option_map};
    ghost use Rattle.std.specs.Coded.{Coded, codes};
    ghost use Rattle.css_selector_text.specs.Codes.{condition_code};
    ghost use Rattle.css_selector_text.specs.Components.{Simple, Selector};
    ghost use Rattle.css_selector_text.specs.Views.{part_of, pseudo_element_of};

    ghost Value = { Selector };

    ghost coded = { let simples : Coded Simple = Prim.hlevel codes in
        Prim.hlevel (codes, condition_code simples) };

    ghost view = { λ s. record {
      parts = map part_of s.parts.items;
      pseudo_element = option_map pseudo_element_of s.pseudo_element;
    } };

    ghost invariant = { λ s. 0 < length s.parts.items };
}

impl<'a> Selector<'a> {
    ghost use Rattle.std.specs.Prelude.{◌≡◌, ◌<◌, length, map, option_map};
    ghost use Rattle.css_selector_text.specs.Views.{part_of, pseudo_element_of};

    /// Returns the selector of these compound selectors, of which there is one at least, and of the
    /// pseudo-element at its end, if it has one.
    pub fn new(parts: Vec<Part<'a>>, pseudo_element: Option<PseudoElement<'a>>) -> Selector<'a>
        requires { 0 < length parts.items }
        ensures parts { result.parts ≡ map part_of parts.entry.items }
        ensures pseudo_element { result.pseudo_element
            ≡ option_map pseudo_element_of pseudo_element.entry }
    {
        Selector {
            parts,
            pseudo_element,
        }
    }

    /// Returns the compound selectors, from left to right.
    pub fn parts(&self) -> &[Part<'a>]
        ensures same { map part_of result.now ≡ self.now.parts }
        ensures some { 0 < length result.now }
    {
        self.parts.as_slice()
    }

    /// Returns the pseudo-element at the end, if there is one.
    pub fn pseudo_element(&self) -> Option<&PseudoElement<'a>>
        ensures { option_map (λ e. pseudo_element_of e.now) result ≡ self.now.pseudo_element }
    {
        self.pseudo_element.as_ref()
    }

    /// Returns the compound selectors, from left to right, and the pseudo-element at the end, if there is one.
    pub fn into_parts(self) -> (Vec<Part<'a>>, Option<PseudoElement<'a>>)
        ensures parts { map part_of result.0.items ≡ self.entry.parts }
        ensures pseudo_element { option_map pseudo_element_of result.1 ≡ self.entry.pseudo_element }
        ensures some { 0 < length result.0.items }
    {
        (self.parts, self.pseudo_element)
    }
}
