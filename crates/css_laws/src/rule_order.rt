//! The cascade of modern sheets and that of CSS 2.1.
ghost use Rattle.std.specs.Prelude.{ℕ, ◌≡◌, ◌↔◌, Bool, List, Some, IsTrue};
ghost use Rattle.std.specs.List.{slice_get};
ghost use Rattle.simplecss_grammar.specs.Declarations.{StyleDeclaration};
ghost use Rattle.cssq.specs.Winners.{Beats};
ghost use Rattle.css_syntax.specs.DeclarationLists.{DeclarationText};
ghost use Rattle.css_cascade.specs.Cascade.{beats};
ghost use Rattle.css_sheet.specs.SheetOrder.{SheetRuleText, cascade_rules};
ghost use Rattle.css_sheet.specs.Sheets.{SheetText};
ghost use Rattle.css_styles.specs.Contenders.{in_rule};

/// In one layer of one origin a declaration of a rule beats another exactly if it does so in CSS 2.1. It is more
/// important, or as important and of a later rule, or as important and later in the same rule. Rules are
/// in the order in which `css_sheet` returns them.
pub fn rule_order_law()
    ensures { (holds : List ℕ → List ℕ → Bool) (sheets : List SheetText) (i j k l : ℕ)
        (r s : SheetRuleText) (a b : DeclarationText) (x y : StyleDeclaration)
        → slice_get (cascade_rules holds sheets) i ≡ Some r
        → slice_get (cascade_rules holds sheets) k ≡ Some s
        → r.origin ≡ s.origin → r.layer ≡ s.layer
        → a.important ≡ x.important → b.important ≡ y.important
        → IsTrue (beats (in_rule i r j a).weight (in_rule k s l b).weight) ↔ Beats x i j y k l }
{}
