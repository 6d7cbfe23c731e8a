//! The directions that `:dir()` tests.
ghost use Rattle.std.specs.Prelude.{◌≡◌, option_map};
ghost use Rattle.css_selector_text.specs.reading.Directions.{direction_named as direction_named_of};
ghost use Rattle.css_selector_text.specs.reading.Directions.{direction_state as direction_state_of};

use css_syntax::texts::spells;

/// Returns the state of an element with a direction.
fn direction_named(argument: &str) -> Option<&'static str>
    ensures { option_map (λ state. state.now) result ≡ direction_named_of argument.now }
{
    if spells("ltr", argument) {
        Some("dir(ltr)")
    } else if spells("rtl", argument) {
        Some("dir(rtl)")
    } else {
        None
    }
}

/// Returns the state that a pseudo-class with this name and this argument tests, if it is `:dir()` with a
/// direction.
pub fn direction_state(name: &str, argument: &str) -> Option<&'static str>
    ensures { option_map (λ state. state.now) result ≡ direction_state_of name.now argument.now }
{
    if name.eq_ignore_ascii_case("dir") {
        direction_named(argument)
    } else {
        None
    }
}
