//! Gathers the declarations that apply to an element.
ghost use Rattle.std.specs.Prelude.{◌≡◌, ◌++◌, ◌∷◌, ◌<◌, ℕ, List, [], IfOk, OnOk, filter, length, map};
ghost use Rattle.std.specs.List.{All, flat_map};
ghost use Rattle.css_styles.specs.Contenders.{in_turn, is_declared, of_own, own_declarations, stated_at};
ghost use Rattle.css_styles.specs.StyleViews.{own_of};
ghost use Rattle.css_styles.specs.internal.Stepping.{contender_of, in_own};
ghost use Rattle.css_styles.specs.internal.Numbered.{HasNumber, IsMore, IsNumbered, numbered_of};

use crate::contenders::{Contender, OwnPart};
use crate::contest::Numbered;
use crate::properties::{Properties, key_of};
use crate::{Own, StyleRules};
use css_syntax::{Declarations, Item};
use std::alloc::{AllocError, Global};

/// Appends the declarations of the rule at an index, if it is one of elements.
fn push_rule<'a>(
    rules: &StyleRules<'a>,
    index: usize,
    contenders: &mut Vec<Numbered<'a>>,
) -> Result<(), AllocError>
    requires within { index < length rules.now.rules }
    requires numbered { All (IsNumbered rules.now.properties) contenders.old.items }
    ensures contenders { OnOk result (map numbered_of contenders.new.items
        ≡ map numbered_of contenders.old.items ++ stated_at rules.now.rules index) }
    ensures numbered { OnOk result (All (IsNumbered rules.now.properties) contenders.new.items) }
{
    let rule = &rules.as_slice()[index];
    if rule.pseudo_element.is_some() {
        return Ok(());
    }
    contenders.extend_from_slice(rules.stated(index))
}

/// Appends the declarations of the rules with these indices, of those that are rules of elements.
fn push_matching<'a>(
    rules: &StyleRules<'a>,
    indices: &[usize],
    contenders: &mut Vec<Numbered<'a>>,
) -> Result<(), AllocError>
    requires within { All (λ index. index < length rules.now.rules) indices.now }
    requires numbered { All (IsNumbered rules.now.properties) contenders.old.items }
    ensures contenders { OnOk result (map numbered_of contenders.new.items ≡ map numbered_of contenders.old.items
        ++ flat_map (stated_at rules.now.rules) indices.now) }
    ensures numbered { OnOk result (All (IsNumbered rules.now.properties) contenders.new.items) }
{
    for index in indices {
        push_rule(rules, *index, contenders)?;
    }
    Ok(())
}

/// Returns the number of the property of this name: that among known ones, or else that among others after
/// them.
fn number_own<'a>(
    alloc: Global,
    name: &'a str,
    known: &Properties<'_>,
    others: &mut Properties<'a>,
) -> Result<usize, AllocError>
    ensures number { IfOk result (λ number. HasNumber (known.now ++ others.new) name.now number) }
    ensures more { OnOk result (IsMore others.old others.new) }
{
    let key = key_of(alloc, name)?;
    if let Some(number) = known.find(&key) {
        return Ok(number);
    }
    let number = others.number(name, key)?;
    Ok(known.len() + number)
}

/// Appends a contender with the number of its property, if it is a declaration at all.
fn push_valid<'a>(
    alloc: Global,
    known: &Properties<'_>,
    others: &mut Properties<'a>,
    contender: Contender<'a>,
    contenders: &mut Vec<Numbered<'a>>,
) -> Result<(), AllocError>
    requires { All (IsNumbered (known.now ++ others.old)) contenders.old.items }
    ensures contenders { OnOk result (map numbered_of contenders.new.items ≡ map numbered_of contenders.old.items
        ++ filter is_declared (contender_of contender.entry ∷ [])) }
    ensures numbered { OnOk result (All (IsNumbered (known.now ++ others.new)) contenders.new.items) }
{
    if !contender.is_declared(alloc)? {
        return Ok(());
    }
    let name = contender.winner.declaration.name;
    let property = number_own(alloc, name, known, others)?;
    contenders.push(Numbered {
        contender,
        property,
    })?;
    Ok(())
}

/// Appends the declarations of one of the element's own texts.
fn push_text<'a>(
    alloc: Global,
    known: &Properties<'_>,
    others: &mut Properties<'a>,
    part: OwnPart,
    text: &'a str,
    contenders: &mut Vec<Numbered<'a>>,
) -> Result<(), AllocError>
    requires { All (IsNumbered (known.now ++ others.old)) contenders.old.items }
    ensures contenders { OnOk result (map numbered_of contenders.new.items ≡ map numbered_of contenders.old.items
        ++ in_turn (in_own part) 0 (own_declarations text.now)) }
    ensures numbered { OnOk result (All (IsNumbered (known.now ++ others.new)) contenders.new.items) }
{
    if text.is_empty() {
        return Ok(());
    }
    let mut place: usize = 0;
    let mut declarations = Declarations::new(text);
    'items: while let Some(part_of_text) = declarations.next() {
        if let Item::Declaration(one) = part_of_text.item {
            let contender = Contender::in_own(part, place, one);
            push_valid(alloc, known, others, contender, contenders)?;
            place += 1;
        }
    }
    Ok(())
}

/// Appends the declarations of the element's own, and returns how many properties there are with theirs.
fn push_own<'a>(
    alloc: Global,
    rules: &StyleRules<'a>,
    own: Own<'a>,
    contenders: &mut Vec<Numbered<'a>>,
) -> Result<usize, AllocError>
    requires { All (IsNumbered rules.now.properties) contenders.old.items }
    ensures contenders { OnOk result (map numbered_of contenders.new.items
        ≡ map numbered_of contenders.old.items ++ of_own (own_of own.entry)) }
    ensures numbered { IfOk result (λ count. (properties : List (List ℕ)) × (count ≡ length properties)
        × All (IsNumbered properties) contenders.new.items) }
{
    let known = rules.properties();
    let mut others = Properties::new(alloc);
    let (presentation, style) = (OwnPart::Presentation, OwnPart::Style);
    push_text(
        alloc,
        known,
        &mut others,
        presentation,
        own.presentation,
        contenders,
    )?;
    push_text(alloc, known, &mut others, style, own.style, contenders)?;
    Ok(known.len() + others.len())
}

/// Gathers the declarations that apply to an element that the rules with these indices match and that has
/// these of its own. They replace the items of `contenders`. Returns how many properties there are.
pub(crate) fn gather<'a>(
    alloc: Global,
    rules: &StyleRules<'a>,
    indices: &[usize],
    own: Own<'a>,
    contenders: &mut Vec<Numbered<'a>>,
) -> Result<usize, AllocError>
    requires { All (λ index. index < length rules.now.rules) indices.now }
    ensures contenders { OnOk result (map numbered_of contenders.new.items
        ≡ flat_map (stated_at rules.now.rules) indices.now ++ of_own (own_of own.entry)) }
    ensures numbered { IfOk result (λ count. (properties : List (List ℕ)) × (count ≡ length properties)
        × All (IsNumbered properties) contenders.new.items) }
{
    contenders.clear();
    push_matching(rules, indices, contenders)?;
    push_own(alloc, rules, own, contenders)
}
