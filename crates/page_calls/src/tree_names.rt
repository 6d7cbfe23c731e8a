//! What a tree declares for selectors.

ghost use Rattle.std.specs.Prelude.{◌≡◌, map};
ghost use Rattle.css_selector_text.specs.NameViews.{names_of, prefix_of};
ghost use Rattle.call_answers.specs.Calls.{declared_by};

use call_answers::elements::ReadTree;
use css_selectors::{NO_NAMES, Names, number_of};

/// What a tree declares for selectors: its states, and prefixes of namespaces. The empty prefix is of the default
/// namespace.
pub fn names_in<'r>(read: &'r ReadTree<'_>) -> Names<'r>
    ensures { names_of result ≡ declared_by (map (λ name. name.now) read.now.states.items)
        (map prefix_of read.now.prefixes.items) }
{
    let names = Names {
        states: &read.states,
        prefixes: &read.prefixes,
        ..NO_NAMES
    };
    Names {
        default_namespace: number_of(&names, ""),
        ..names
    }
}
