//! What the selectors of a clean sheet match.
ghost use Rattle.std.specs.Prelude.{◌≡◌, ℕ, true, List};
ghost use Rattle.css_syntax.specs.Parts.{Stated};
ghost use Rattle.css_clean.specs.Selectors.{SheetPolicyText};
ghost use Rattle.css_clean.specs.Sheets.{is_clean};
ghost use Rattle.clean_laws.specs.Within.{IsRuleOf, AreUnder};

use css_selectors::Element;

/// An element that a selector of a clean sheet matches has an ancestor that the scope matches. If the policy lets
/// rules be for these, the scope may match it itself. So it is with an element whose pseudo-element a selector is
/// of. The selectors of each rule are valid.
pub fn scope_law<E: Element>()
    ensures { (policy : SheetPolicyText) (text : List ℕ) → is_clean policy text ≡ true
        → (prelude : Stated) → IsRuleOf text prelude → AreUnder E.document policy prelude }
{}
