//! Which declarations of a style sheet win on an element: the cascade (CSS 2.1 section 6.4.1).

ghost use Rattle.std.specs.Prelude.{◌≡◌, ◌↔◌, ℕ, List, ◌<◌, length, map, Contains, IfOk, IfSome, IsNone};
ghost use Rattle.std.specs.Prelude.{All, IsTrue, Some};
ghost use Rattle.std.specs.Option.{option_map};
ghost use Rattle.simplecss.specs.Declarations.{StyleDeclaration};
ghost use Rattle.simplecss.specs.Statements.{StyleRule};
ghost use Rattle.simplecss.specs.DeclarationViews.{declaration_of, declarations_of};
ghost use Rattle.simplecss.specs.RuleViews.{rule_of, rules_of, rules_in};
ghost use Rattle.simplecss.specs.Matching.{AreMatches};
ghost use Rattle.cssq.specs.Winners.{Wins, IsStated, IsWinner, HasNoWinner, WinsForItsName};
ghost use Rattle.cssq.specs.Winners.{ListsInOrder, HaveOwnNames};
ghost use Rattle.cssq.specs.internal.RuleWinners.{better_of, InRule, IsCandidate, IsOutdone, IsPassedOver};
ghost use Rattle.cssq.specs.internal.RuleWinners.{DecidesWhether, HasBestIndices};

use simplecss::{Declaration, Element, Keyed, Rule, RuleSearch, StyleSheet};
use std::alloc::{AllocError, Global};
use std::collections::BTreeMap;
use std::marker::Model;

/// Returns the later of two declarations of a rule, unless only the earlier is important.
fn better_of<'a>(earlier: Option<Declaration<'a>>, later: Declaration<'a>) -> Declaration<'a>
    ensures { declaration_of result
        ≡ better_of (option_map declaration_of earlier.entry) (declaration_of later.entry) }
{
    match earlier {
        Some(first) if first.important && !later.important => first,
        _ => later,
    }
}

/// The declaration of the name that wins within a rule: the last that is important, or else the
/// last.
fn best_of<'a>(declarations: &[Declaration<'a>], name: &str) -> Option<Declaration<'a>>
    // Whatever the rule's index.
    ensures { (i : ℕ) → Wins (InRule i (declarations_of declarations.now)) name.now
        (option_map declaration_of result) }
{
    let mut best: Option<Declaration<'a>> = None;
    for declaration in declarations {
        if declaration.name == name {
            best = Some(better_of(best, *declaration));
        }
    }
    best
}

/// The declaration of the name that wins within a rule, unless one of a later rule is known and
/// this one is not important.
fn contender<'a>(rule: &Rule<'a>, name: &str, is_later_known: bool) -> Option<Declaration<'a>>
    ensures best { IfSome result (λ best. (i : ℕ)
        → Wins (InRule i (rule_of rule.now).declarations) name.now (Some (declaration_of best))) }
    ensures important { IsTrue is_later_known → IfSome result (λ best. IsTrue best.important) }
    ensures outdone { IsNone result → IsOutdone (rule_of rule.now) name.now is_later_known }
{
    let best = best_of(&rule.declarations, name)?;
    if is_later_known && !best.important {
        return None;
    }
    Some(best)
}

/// Returns the contender of a rule, if the rule matches the element. A rule without a contender is
/// not tested.
fn candidate<'a, E: Element>(
    rule: &Rule<'a>,
    element: &E,
    name: &str,
    is_later_known: bool,
) -> Option<Declaration<'a>>
    ensures found { IfSome result (λ best.
        IsCandidate E.tree (E.node element.now) (rule_of rule.now) name.now (declaration_of best)) }
    ensures important { IsTrue is_later_known → IfSome result (λ best. IsTrue best.important) }
    ensures passed_over { IsNone result
        → IsPassedOver E.tree (E.node element.now) (rule_of rule.now) name.now is_later_known }
{
    let best = contender(rule, name, is_later_known)?;
    if rule.selector.matches(element) {
        Some(best)
    } else {
        None
    }
}

/// Returns the declaration that wins for the name on the element: among the declarations of this
/// name in the rules that match the element, an important one beats one that is not, then one of a
/// later rule beats, then a later one of the same rule. `None` if there is no such declaration. The
/// name compares byte by byte. Allocates nothing, tests each rule at most once, and tests no rule
/// that has no declaration of the name.
pub fn winning<'a, E: Element>(
    sheet: &StyleSheet<'a>,
    element: &E,
    name: &str,
) -> Option<Declaration<'a>>
    ensures winner { IfSome result
        (λ d. IsWinner E.tree (E.node element.now) name.now (rules_in sheet.now) (declaration_of d)) }
    ensures none { IsNone result
        ↔ HasNoWinner E.tree (E.node element.now) name.now (rules_in sheet.now) }

    // And there is no other winner.
    ensures only { (p : StyleDeclaration)
        → IsWinner E.tree (E.node element.now) name.now (rules_in sheet.now) p
        ↔ (option_map declaration_of result ≡ Some p) }
{
    let rules = sheet.rules.as_slice();
    let mut winner: Option<Declaration<'a>> = None;
    for index in (0..rules.len()).rev() {
        let Some(best) = candidate(&rules[index], element, name, winner.is_some()) else {
            continue;
        };
        if best.important {
            return Some(best);
        }
        winner = Some(best);
    }
    winner
}

/// Returns what [`winning`] returns for an element of a tree, by the indices of the rules that match
/// it, as an index finds them. `E` is the type of the tree's elements.
pub fn winning_among<'a, E: Element>(
    rules: &[Rule<'a>],
    indices: &[usize],
    name: &str,
) -> Option<Declaration<'a>>
    requires { All (λ index. index < length rules.now) indices.now }
    ensures { (element : E.Node)
        → AreMatches E.tree element (map (λ rule. rule.selector) rules.now) indices.now
        → Wins (IsStated E.tree element (rules_of rules.now)) name.now
        (option_map declaration_of result) }
{
    let mut winner: Option<Declaration<'a>> = None;
    for i in (0..indices.len()).rev() {
        let Some(found) = contender(&rules[indices[i]], name, winner.is_some()) else {
            continue;
        };
        if found.important {
            return Some(found);
        }
        winner = Some(found);
    }
    winner
}

/// Returns the declarations of the rules that match the element, in the order of their indices.
fn stated_on<'a, E: Element>(
    alloc: Global,
    rules: &[Rule<'a>],
    element: &E,
) -> Result<Vec<Declaration<'a>>, AllocError>
    ensures { IfOk result
        (λ all. ListsInOrder (IsStated E.tree (E.node element.now) (rules_of rules.now))
        (declarations_of all.items)) }
{
    let mut all = Vec::new(alloc);
    for rule in rules {
        if rule.selector.matches(element) {
            all.extend_from_slice(&rule.declarations)?;
        }
    }
    Ok(all)
}

/// Whether a declaration wins over the one of its name that is earlier in the list, if there is
/// one.
fn takes_over(
    declarations: &[Declaration<'_>],
    known: Option<usize>,
    later: &Declaration<'_>,
) -> bool
    requires { IfSome known (λ k. k < length declarations.now) }
    ensures { DecidesWhether result (declarations_of declarations.now) known
        (declaration_of later.now) }
{
    let Some(index) = known else {
        return true;
    };
    later.important || !declarations[index].important
}

/// Returns for each name the index in the list of the declaration that wins.
fn best_indices<'a>(
    alloc: Global,
    declarations: &[Declaration<'a>],
) -> Result<BTreeMap<&'a str, usize>, AllocError>
    ensures { IfOk result (λ indices. HasBestIndices indices (declarations_of declarations.now)) }
{
    let mut indices: BTreeMap<&'a str, usize> = BTreeMap::new(alloc);
    for (index, declaration) in declarations.iter().enumerate() {
        let known = indices.get(declaration.name).copied();
        if takes_over(declarations, known, declaration) {
            indices.insert(declaration.name, index)?;
        }
    }
    Ok(indices)
}

/// Returns the declarations of the rules with these indices, in order. The rules are those that match
/// an element of type `E`.
fn stated_at<'a, E: Element>(
    alloc: Global,
    rules: &[Rule<'a>],
    indices: &[usize],
) -> Result<Vec<Declaration<'a>>, AllocError>
    requires { All (λ index. index < length rules.now) indices.now }
    ensures { IfOk result (λ all. (element : E.Node)
        → AreMatches E.tree element (map (λ rule. rule.selector) rules.now) indices.now
        → ListsInOrder (IsStated E.tree element (rules_of rules.now)) (declarations_of all.items)) }
{
    let mut all = Vec::new(alloc);
    for index in indices {
        all.extend_from_slice(&rules[*index].declarations)?;
    }
    Ok(all)
}

/// Returns the declarations of a list that win for their names, in order. The list has those of the
/// rules that match an element of type `E`.
fn winners_of<'a, E: Element>(
    alloc: Global,
    stated: &[Declaration<'a>],
) -> Result<Vec<Declaration<'a>>, AllocError>
    ensures { IfOk result (λ all. (element : E.Node) (rules : List StyleRule)
        → ListsInOrder (IsStated E.tree element rules) (declarations_of stated.now)
        → ListsInOrder (WinsForItsName E.tree element rules) (declarations_of all.items)) }
{
    let indices = best_indices(alloc, stated)?;
    let mut all = Vec::new(alloc);
    for (index, declaration) in stated.iter().enumerate() {
        if indices.get(declaration.name).copied() == Some(index) {
            all.push(*declaration)?;
        }
    }
    Ok(all)
}

/// Returns the declarations that win on the element: for each name the one that `winning` returns,
/// in the order of rules and of declarations in them. Fails only if an allocation fails. Each rule
/// is tested once against the element, and the rest takes the time of sorting the declarations of
/// the rules that match. [`Cascade::winners`] finds these rules by an index.
pub fn winners<'a, E: Element>(
    alloc: Global,
    sheet: &StyleSheet<'a>,
    element: &E,
) -> Result<Vec<Declaration<'a>>, AllocError>
    ensures order { IfOk result (λ all.
        ListsInOrder (WinsForItsName E.tree (E.node element.now) (rules_in sheet.now))
        (declarations_of all.items)) }

    // So it has what wins for each name, and each name once.
    ensures winners { IfOk result (λ all. (p : StyleDeclaration) → Contains (declarations_of all.items) p
        ↔ IsWinner E.tree (E.node element.now) p.name (rules_in sheet.now) p) }
    ensures names { IfOk result (λ all. HaveOwnNames (declarations_of all.items)) }
{
    let stated = stated_on(alloc, &sheet.rules, element)?;
    winners_of::<E>(alloc, &stated)
}

/// Returns what [`winners`] returns for an element of a tree, by the indices of the rules that match it,
/// as an index or a walk finds them. `E` is the type of the tree's elements.
pub fn winners_among<'a, E: Element>(
    alloc: Global,
    rules: &[Rule<'a>],
    indices: &[usize],
) -> Result<Vec<Declaration<'a>>, AllocError>
    requires { All (λ index. index < length rules.now) indices.now }
    ensures { IfOk result (λ all. (element : E.Node)
        → AreMatches E.tree element (map (λ rule. rule.selector) rules.now) indices.now
        → ListsInOrder (WinsForItsName E.tree element (rules_of rules.now))
        (declarations_of all.items)) }
{
    let stated = stated_at::<E>(alloc, rules, indices)?;
    winners_of::<E>(alloc, &stated)
}

/// Finds the declarations that win on each element of a page, by an index of the rules that is made
/// once.
///
/// ```rust
/// let mut cascade = Cascade::new(alloc, &sheet.rules)?;
/// for declaration in &cascade.winners(&element)? {
///     // the declaration that wins for its name
/// }
/// ```
#[derive(Drop)]
pub struct Cascade<'s, 'a> {
    /// Allocates the lists that are returned.
    alloc: Global,
    /// The rules.
    rules: &'s [Rule<'a>],
    /// Finds those that match an element.
    search: RuleSearch<'a>,
    /// The indices of the rules that match the last element. The list is reused.
    indices: Vec<usize>,
}

impl<'s, 'a> Model for Cascade<'s, 'a> {
    ghost use Rattle.std.specs.Prelude.{◌≡◌, List, map};
    ghost use Rattle.simplecss.specs.Statements.{StyleRule};
    ghost use Rattle.simplecss.specs.RuleViews.{rules_of};

    ghost Value = { List StyleRule };

    ghost view = { λ cascade. rules_of cascade.rules.now };

    ghost invariant = { λ cascade. cascade.search
        ≡ map (λ rule. rule.selector) cascade.rules.now };
}

impl<'s, 'a> Cascade<'s, 'a> {
    /// Makes the index of these rules. Fails only if an allocation fails.
    pub fn new(alloc: Global, rules: &'s [Rule<'a>]) -> Result<Self, AllocError>
        ensures { IfOk result (λ cascade. cascade ≡ rules_of rules.now) }
    {
        Ok(Cascade {
            alloc,
            rules,
            search: RuleSearch::new(alloc, rules)?,
            indices: Vec::new(alloc),
        })
    }

    /// Returns the declarations of the rules that match the element, in the order of rules and of
    /// declarations in them: those that `winners` chooses from. Fails only if an allocation fails.
    pub fn stated<E: Keyed>(&mut self, element: &E) -> Result<Vec<Declaration<'a>>, AllocError>
        ensures stated { IfOk result (λ all.
            ListsInOrder (IsStated E.tree (E.node element.now) self.old) (declarations_of all.items)) }
        ensures same { self.new ≡ self.old }
    {
        self.search
            .matching(self.rules, element, &mut self.indices)?;
        stated_at::<E>(self.alloc, self.rules, &self.indices)
    }

    /// Returns the declarations that win on the element, as [`winners`] does, and tests only rules
    /// whose key is reported, as `RuleIndex::matching` does. Fails only if an allocation fails.
    pub fn winners<E: Keyed>(&mut self, element: &E) -> Result<Vec<Declaration<'a>>, AllocError>
        ensures order { IfOk result (λ all.
            ListsInOrder (WinsForItsName E.tree (E.node element.now) self.old)
            (declarations_of all.items)) }

        // So it has what wins for each name, and each name once.
        ensures winners { IfOk result (λ all. (p : StyleDeclaration)
            → Contains (declarations_of all.items) p
            ↔ IsWinner E.tree (E.node element.now) p.name self.old p) }
        ensures names { IfOk result (λ all. HaveOwnNames (declarations_of all.items)) }
        ensures same { self.new ≡ self.old }
    {
        let stated = self.stated(element)?;
        winners_of::<E>(self.alloc, &stated)
    }
}
