//! Where the pieces of what was read begin: what is left of the text from each on.
ghost use Rattle.std.specs.Prelude.{◌≡◌};
ghost use Rattle.css_syntax.specs.Contents.{at_rule_prelude as at_rule_prelude_of};
ghost use Rattle.css_syntax.specs.Contents.{declaration_value as declaration_value_of};

use crate::texts::{past_byte, past_gap, past_word};

/// Returns what is left from the prelude of an at-rule on, by what is left from its `@` on.
pub fn at_rule_prelude(text: &str) -> &str
    ensures { result.now ≡ at_rule_prelude_of text.now }
{
    past_gap(past_word(past_byte(text, b'@')))
}

/// Returns what is left from the value of a declaration on, by what is left from its name on.
pub fn declaration_value(text: &str) -> &str
    ensures { result.now ≡ declaration_value_of text.now }
{
    past_gap(past_byte(past_gap(past_word(text)), b':'))
}
