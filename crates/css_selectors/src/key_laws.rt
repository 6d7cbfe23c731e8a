//! The law of keys.
ghost use Rattle.std.specs.Prelude.{IsTrue};
ghost use Rattle.std.specs.List.{list_any};
ghost use Rattle.css_selector_text.specs.Components.{Selector};
ghost use Rattle.css_selectors.specs.Keys.{has_key, keys_of};
ghost use Rattle.css_selectors.specs.Meanings.{Matches};

use crate::Element;

/// An element that a selector matches has one of the selector's keys.
pub fn key_law<E: Element>()
    ensures { (s : Selector) (n : E.Node) → Matches E.document s n
        → IsTrue (list_any (has_key E.document n) (keys_of s)) }
{}
