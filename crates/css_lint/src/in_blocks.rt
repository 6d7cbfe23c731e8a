//! What is wrong within one block.
ghost use Rattle.std.specs.Prelude.{◌≡◌, ◌++◌, IfOk, OnOk, map};
ghost use Rattle.std.specs.List.{flat_map};
ghost use Rattle.css_text.specs.AsciiBytes.{hyphen};
ghost use Rattle.css_text.specs.Bytes.{starts_two};
ghost use Rattle.css_lint.specs.InBlocks.{attribute_places, has_hyphens as has_hyphens_of, important_sets};
ghost use Rattle.css_lint.specs.InBlocks.{is_custom as is_custom_of, keyed_set, keyframe_places};
ghost use Rattle.css_lint.specs.InBlocks.{repeated_in_block as repeated_in_block_of, repeated_sets as repeated_sets_of};
ghost use Rattle.css_lint.specs.InBlocks.{set_places};
ghost use Rattle.css_lint.specs.Keys.{keyed_of};
ghost use Rattle.css_lint.specs.Places.{place_of};
ghost use Rattle.css_lint.specs.PlacedViews.{rule_at, set_of};

use crate::findings::Finding;
use crate::keys::{Keyed, push_bytes, repeated_places};
use crate::kinds::Kind;
use crate::placed_rules::{DeclaringRule, Setting, sets_in};
use std::alloc::{AllocError, Global};

/// Returns a text as a key.
fn text_key(alloc: Global, text: &str) -> Result<Vec<usize>, AllocError>
    ensures { IfOk result (λ key. key.items ≡ text.now) }
{
    let mut key = Vec::with_capacity(alloc, text.len())?;
    push_bytes(&mut key, text)?;
    Ok(key)
}

/// Whether the name of a property, as it is written, is that of a custom one.
fn is_custom(name: &str) -> bool
    ensures { result ≡ is_custom_of name.now }
{
    begins_hyphens(name.as_bytes())
}

/// Appends a declaration with its name, if it is of a custom property.
fn push_custom(all: &mut Vec<Keyed>, alloc: Global, one: &Setting<'_>) -> Result<(), AllocError>
    ensures { OnOk result (map keyed_of all.new.items
        ≡ map keyed_of all.old.items ++ keyed_set (set_of one.now)) }
{
    if is_custom(one.name) {
        all.push(Keyed {
            key: text_key(alloc, one.name)?,
            found: Finding::sized(Kind::RepeatedProperty, one.start, one.size),
        })?;
    }
    Ok(())
}

/// Returns the declarations of custom properties with their names.
fn keyed_sets(alloc: Global, sets: &[Setting<'_>]) -> Result<Vec<Keyed>, AllocError>
    ensures { IfOk result (λ all. map keyed_of all.items ≡ flat_map keyed_set (map set_of sets.now)) }
{
    let mut all = Vec::new(alloc);
    let mut left = sets;
    'sets: while let [one, others @ ..] = left {
        push_custom(&mut all, alloc, one)?;
        left = others;
    }
    Ok(all)
}

/// Returns the custom properties that are declared again.
fn repeated_sets(alloc: Global, sets: &[Setting<'_>]) -> Result<Vec<Finding>, AllocError>
    ensures { IfOk result (λ found. map place_of found.items ≡ repeated_sets_of (map set_of sets.now)) }
{
    repeated_places(alloc, &keyed_sets(alloc, sets)?)
}

/// Returns the custom properties that a style attribute declares again.
pub(crate) fn repeated_in_attribute(alloc: Global, text: &str) -> Result<Vec<Finding>, AllocError>
    ensures { IfOk result (λ found. map place_of found.items ≡ attribute_places text.now) }
{
    repeated_sets(alloc, &sets_in(alloc, text, false, text.len())?)
}

/// Whether a text begins with two hyphens.
fn begins_hyphens(bytes: &[u8]) -> bool
    ensures { result ≡ starts_two hyphen hyphen bytes.now }
{
    matches!(bytes, [b'-', b'-', ..])
}

/// Whether two hyphens are in a text, one after the other.
fn has_hyphens(text: &str) -> bool
    ensures { result ≡ has_hyphens_of text.now }
{
    let mut left = text.as_bytes();
    'bytes: while let [_, others @ ..] = left {
        if begins_hyphens(left) {
            return true;
        }
        left = others;
    }
    false
}

/// Returns the custom properties that a block declares again. Its contents end at this offset.
pub(crate) fn repeated_in_block(
    alloc: Global,
    text: &str,
    end: usize,
) -> Result<Vec<Finding>, AllocError>
    ensures { IfOk result (λ found. map place_of found.items ≡ repeated_in_block_of end text.now) }
{
    if !has_hyphens(text) {
        return Ok(Vec::new(alloc));
    }
    repeated_sets(alloc, &sets_in(alloc, text, true, end)?)
}

/// Appends the important declarations.
fn push_important(found: &mut Vec<Finding>, sets: &[Setting<'_>]) -> Result<(), AllocError>
    ensures { OnOk result (map place_of found.new.items
        ≡ map place_of found.old.items ++ important_sets (map set_of sets.now)) }
{
    let mut left = sets;
    'sets: while let [one, others @ ..] = left {
        if one.important {
            found.push(Finding::sized(Kind::ImportantInKeyframes, one.start, one.size))?;
        }
        left = others;
    }
    Ok(())
}

/// Appends what is wrong with the declarations of a keyframe.
fn push_sets(
    found: &mut Vec<Finding>,
    alloc: Global,
    sets: &[Setting<'_>],
) -> Result<(), AllocError>
    ensures { OnOk result (map place_of found.new.items
        ≡ map place_of found.old.items ++ set_places (map set_of sets.now)) }
{
    found.extend_from_slice(&repeated_sets(alloc, sets)?)?;
    push_important(found, sets)
}

/// Appends what is wrong within keyframes.
pub(crate) fn push_keyframes(
    found: &mut Vec<Finding>,
    alloc: Global,
    rules: &[DeclaringRule<'_>],
) -> Result<(), AllocError>
    ensures { OnOk result (map place_of found.new.items ≡ map place_of found.old.items
        ++ flat_map keyframe_places (map rule_at rules.now)) }
{
    let mut left = rules;
    'rules: while let [rule, others @ ..] = left {
        push_sets(found, alloc, &sets_in(alloc, rule.text, true, rule.end)?)?;
        left = others;
    }
    Ok(())
}
