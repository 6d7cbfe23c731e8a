//! Declarations of rules, each read once, with what the cascade sees of them.
ghost use Rattle.std.specs.Prelude.{◌≡◌, ◌++◌, ◌∷◌, [], IfOk, OnOk, filter, map};
ghost use Rattle.std.specs.List.{All};
ghost use Rattle.css_sheet.specs.SheetRuleViews.{sheet_rule_of};
ghost use Rattle.css_styles.specs.Contenders.{in_rule, in_turn, is_declared, rule_declarations};
ghost use Rattle.css_styles.specs.internal.Numbered.{IsMore, IsNumbered, numbered_of};
ghost use Rattle.css_styles.specs.internal.Stepping.{contender_of};

use crate::contenders::Contender;
use crate::contest::Numbered;
use crate::properties::{Properties, key_of};
use css_sheet::SheetRule;
use css_syntax::{Declarations, Item};
use std::alloc::{AllocError, Global};

/// Returns the declaration with the number of its property.
fn number_one<'a>(
    alloc: Global,
    contender: Contender<'a>,
    properties: &mut Properties<'a>,
) -> Result<Numbered<'a>, AllocError>
    ensures contender { IfOk result (λ numbered. numbered.contender ≡ contender.entry) }
    ensures number { IfOk result (λ numbered. IsNumbered properties.new numbered) }
    ensures more { OnOk result (IsMore properties.old properties.new) }
{
    let name = contender.winner.declaration.name;
    let key = key_of(alloc, name)?;
    let property = properties.number(name, key)?;
    Ok(Numbered {
        contender,
        property,
    })
}

/// Appends a contender with the number of its property, if it is a declaration at all.
fn push_valid<'a>(
    alloc: Global,
    contender: Contender<'a>,
    properties: &mut Properties<'a>,
    stated: &mut Vec<Numbered<'a>>,
) -> Result<(), AllocError>
    requires { All (IsNumbered properties.old) stated.old.items }
    ensures declarations { OnOk result (map numbered_of stated.new.items ≡ map numbered_of stated.old.items
        ++ filter is_declared (contender_of contender.entry ∷ [])) }
    ensures numbers { OnOk result (All (IsNumbered properties.new) stated.new.items) }
    ensures more { OnOk result (IsMore properties.old properties.new) }
{
    if !contender.is_declared(alloc)? {
        return Ok(());
    }
    let numbered = number_one(alloc, contender, properties)?;
    stated.push(numbered)?;
    Ok(())
}

/// Returns the declarations of a rule, which is one of all, with the numbers of their properties.
pub(crate) fn read_stated<'a>(
    alloc: Global,
    rule: &SheetRule<'a>,
    rule_place: usize,
    properties: &mut Properties<'a>,
) -> Result<Vec<Numbered<'a>>, AllocError>
    ensures declarations { IfOk result (λ stated. map numbered_of stated.items
        ≡ in_turn (in_rule rule_place (sheet_rule_of rule.now)) 0 (rule_declarations (sheet_rule_of rule.now))) }
    ensures numbers { IfOk result (λ stated. All (IsNumbered properties.new) stated.items) }
    ensures more { OnOk result (IsMore properties.old properties.new) }
{
    let mut stated = Vec::new(alloc);
    let mut place: usize = 0;
    let mut declarations = Declarations::of_block(rule.block);
    'items: while let Some(part) = declarations.next() {
        if let Item::Declaration(one) = part.item {
            let contender = Contender::in_rule(rule, rule_place, place, one);
            push_valid(alloc, contender, properties, &mut stated)?;
            place += 1;
        }
    }
    stated.shrink_to_fit();
    Ok(stated)
}
