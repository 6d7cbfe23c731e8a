//! Laws of sheets: each is the contract of a function that does nothing.
ghost use Rattle.std.specs.Prelude.{◌≡◌, ◌↔◌, ◌<◌, ℕ, List, IsTrue, Some, length, slice_index_or};
ghost use Rattle.std.specs.List.{All, AllPass, flat_map, slice_get};
ghost use Rattle.std.specs.List.Sorted.{IsPermutation, IsSortedBy, IsStableBy};
ghost use Rattle.css_text.specs.Ranks.{rank_by};
ghost use Rattle.simplecss_grammar.specs.Statements.{StyleRule, has_declaration, kept};
ghost use Rattle.simplecss_grammar.specs.Sheets.{is_smaller, ordered, sheet};
ghost use Rattle.std.specs.Str.{IsUtf8};
ghost use Rattle.simplecss_grammar.specs.Cutting.{StatementEndsAt, KeepsAcross};
ghost use Rattle.simplecss_grammar.specs.Editions.{IsCommon, KeepsInBoth};
ghost use Rattle.simplecss_grammar.specs.PrintingLaws.{SelectorsReadBack};
ghost use Rattle.css_text.specs.ThisEdition.{this_edition};
ghost use Rattle.simplecss_declaration.specs.DeclarationViews.{declaration_of};
ghost use Rattle.simplecss.specs.RuleIndices.{ComesBefore};
ghost use Rattle.simplecss.specs.RuleViews.{rule_of, rules_in};

use crate::sheet::{Rule, StyleSheet};
use simplecss_declaration::Declaration;

/// The order of the rules in a style sheet: each is kept and is at its rank, which is the
/// number of rules of smaller specificity and of earlier ones of equal specificity. So no rule
/// is before one of smaller specificity, and rules of equal specificity stay in their order;
/// each list of the same rules with these two properties is this one. Ordering twice is ordering
/// once.
pub fn order_laws()
    ensures keeps { (rules : List StyleRule) → IsPermutation rules (ordered rules) }
    ensures ranks { (rules : List StyleRule) (i : ℕ) (r : StyleRule) → i < length rules
        → slice_index_or rules i r ≡ r
        → slice_index_or (ordered rules) (rank_by is_smaller rules i r) r ≡ r }
    ensures rises { (rules : List StyleRule) → IsSortedBy is_smaller (ordered rules) }
    ensures stays { (rules : List StyleRule) → IsStableBy is_smaller rules (ordered rules) }
    ensures one { (rules sorted : List StyleRule) → IsPermutation rules sorted
        → IsSortedBy is_smaller sorted
        → IsStableBy is_smaller rules sorted → sorted ≡ ordered rules }
    ensures twice { (rules : List StyleRule) → ordered (ordered rules) ≡ ordered rules }
{}

/// What the index of a rule in a style sheet means. Of two rules of a sheet that was read, the one
/// at the lesser index has a smaller specificity, or an equal one and is earlier in the source: the
/// rules of all texts, one text after another.
pub fn index_in_sheet_law()
    ensures { (texts : List (List ℕ)) (i j : ℕ) (a b : StyleRule) → i < j
        → slice_get (sheet this_edition texts) i ≡ Some a
        → slice_get (sheet this_edition texts) j ≡ Some b
        → ComesBefore (flat_map (kept this_edition) texts) i j a b }
{}

/// Each rule of a style sheet that was read has a declaration, and its selector reads back when
/// printed, whatever white space the texts have.
pub fn sheet_law()
    ensures filled { (texts : List (List ℕ)) → AllPass has_declaration (sheet this_edition texts) }
    ensures selectors { (texts : List (List ℕ)) → All IsUtf8 texts
        → SelectorsReadBack this_edition (sheet this_edition texts) }
{}

/// A text has the rules of a prefix and then those of its rest, wherever one of its statements ends.
/// At other offsets that can be false: a block may be open there.
pub fn cutting_law()
    ensures { (text : List ℕ) (offset : ℕ) → IsUtf8 text → StatementEndsAt this_edition text offset
        → KeepsAcross this_edition text offset }
{}

/// A text of ASCII bytes without a slash has the same rules in both editions of the grammar.
pub fn edition_law()
    ensures { (text : List ℕ) → IsCommon text → KeepsInBoth text }
{}

/// Two rules are equal exactly if their selectors and declarations are. The rules of two style sheets
/// are compared one by one. Two declarations are equal exactly if their names, values and importance
/// are.
pub fn equality_laws()
    ensures rules { (a b : Rule) → IsTrue (⟦<Rule<'static> as PartialEq>⟧.eq a b)
        ↔ (rule_of a ≡ rule_of b) }
    ensures sheets { (a b : StyleSheet)
        → IsTrue (⟦<Vec<Rule<'static>> as PartialEq>⟧.eq a.rules b.rules)
        ↔ (rules_in a ≡ rules_in b) }
    ensures declarations { (a b : Declaration)
        → IsTrue (⟦<Declaration<'static> as PartialEq>⟧.eq a b)
        ↔ (declaration_of a ≡ declaration_of b) }
{}
