//! Names of at-rules.
ghost use Rattle.std.specs.Prelude.{◌≡◌};
ghost use Rattle.std.specs.List.{list_any};
ghost use Rattle.css_syntax.specs.Tokens.{spells as spells_of};

use css_syntax::texts::spells;

/// Whether a name is one of these keywords.
pub(crate) fn is_one_of(keywords: &[&str], name: &str) -> bool
    ensures { result ≡ list_any (λ keyword. spells_of keyword.now name.now) keywords.now }
{
    keywords.iter().any(|keyword| spells(keyword, name))
}
