//! Gathers the declarations that apply to an element.
ghost use Rattle.std.specs.Prelude.{◌≡◌, ◌<◌, ◌^◌, ◌++◌, ◌∷◌, [], IfOk, OnOk, filter, length, map};
ghost use Rattle.std.specs.List.{flat_map};
ghost use Rattle.css_syntax.specs.ListReaders.{items_to_come};
ghost use Rattle.css_sheet.specs.SheetRuleViews.{sheet_rule_of};
ghost use Rattle.css_styles.specs.Contenders.{contenders, declared_in, in_turn, is_declared, stated_at};
ghost use Rattle.css_styles.specs.StyleViews.{own_of};
ghost use Rattle.css_explain.specs.internal.Parts.{contender_of, contends};

use crate::contenders::{Contender, OwnPart, Part};
use css_sheet::SheetRule;
use css_styles::Own;
use css_syntax::{Declarations, Item};
use std::alloc::{AllocError, Global};

/// Appends a contender, if it is a declaration at all.
fn push_valid<'a>(
    alloc: Global,
    one: Contender<'a>,
    found: &mut Vec<Contender<'a>>,
) -> Result<(), AllocError>
    ensures { OnOk result (map contender_of found.new.items ≡ map contender_of found.old.items
        ++ filter is_declared (contender_of one.entry ∷ [])) }
{
    if one.is_declared(alloc)? {
        found.push(one)?;
    }
    Ok(())
}

/// Appends the declarations that these yield, which are all of this part.
fn push_part<'a>(
    alloc: Global,
    part: Part<'_, '_>,
    declarations: Declarations<'a>,
    found: &mut Vec<Contender<'a>>,
) -> Result<(), AllocError>
    requires { length (items_to_come declarations) < 2 ^ 63 }
    ensures { OnOk result (map contender_of found.new.items ≡ map contender_of found.old.items
        ++ in_turn (contends part.entry) 0 (declared_in (items_to_come declarations.entry))) }
{
    let mut declarations = declarations;
    let mut place: usize = 0;
    'items: while let Some(item) = declarations.next() {
        if let Item::Declaration(one) = item.item {
            push_valid(alloc, Contender::new(part, place, one), found)?;
            place += 1;
        }
    }
    Ok(())
}

/// Appends the declarations of the rule at an index, if there is one and it is a rule of elements.
fn push_rule<'a>(
    alloc: Global,
    rules: &[SheetRule<'a>],
    index: usize,
    found: &mut Vec<Contender<'a>>,
) -> Result<(), AllocError>
    ensures { OnOk result (map contender_of found.new.items
        ≡ map contender_of found.old.items ++ stated_at (map sheet_rule_of rules.now) index) }
{
    let Some(rule) = rules.get(index) else {
        return Ok(());
    };
    if rule.pseudo_element.is_some() {
        return Ok(());
    }
    let declarations = Declarations::of_block(rule.block);
    push_part(alloc, Part::Rule(rule, index), declarations, found)
}

/// Appends the declarations of the rules at these indices.
fn push_rules<'a>(
    alloc: Global,
    rules: &[SheetRule<'a>],
    indices: &[usize],
    found: &mut Vec<Contender<'a>>,
) -> Result<(), AllocError>
    ensures { OnOk result (map contender_of found.new.items ≡ map contender_of found.old.items
        ++ flat_map (stated_at (map sheet_rule_of rules.now)) indices.now) }
{
    let mut left = indices;
    'indices: while let [index, more @ ..] = left {
        push_rule(alloc, rules, *index, found)?;
        left = more;
    }
    Ok(())
}

/// Returns the declarations that apply to an element that the rules at these indices match and that has these
/// of its own.
pub(crate) fn gather<'a>(
    alloc: Global,
    rules: &[SheetRule<'a>],
    indices: &[usize],
    own: Own<'a>,
) -> Result<Vec<Contender<'a>>, AllocError>
    ensures { IfOk result (λ found. map contender_of found.items
        ≡ contenders (map sheet_rule_of rules.now) indices.now (own_of own.entry)) }
{
    let mut found = Vec::new(alloc);
    push_rules(alloc, rules, indices, &mut found)?;
    let (presentation, style) = (OwnPart::Presentation, OwnPart::Style);
    let hints = Declarations::new(own.presentation);
    push_part(alloc, Part::Own(presentation), hints, &mut found)?;
    let declarations = Declarations::new(own.style);
    push_part(alloc, Part::Own(style), declarations, &mut found)?;
    Ok(found)
}
