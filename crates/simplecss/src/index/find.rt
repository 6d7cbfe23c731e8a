//! The indices of the rules whose key an element or one of its neighbours reports.
ghost use Rattle.std.specs.Prelude.{◌≡◌, ◌<◌, ℕ, OnOk, Contains, IsTrue, Option, Some, length, filter};
ghost use Rattle.std.specs.Option.{option_map};
ghost use Rattle.simplecss_selector.specs.KeyViews.{key_value};
ghost use Rattle.simplecss.specs.internal.LastByKey.{last_for, IdLeads, ClassLeads, AttributeLeads};
ghost use Rattle.simplecss.specs.internal.LastByKey.{KeyLeads};
ghost use Rattle.simplecss_selector.specs.Keys.{Reported};
ghost use Rattle.simplecss_selector.specs.Buckets.{Near, IsNear, IsReportedFor};
ghost use Rattle.simplecss.specs.internal.LastByBucket.{NeighbourLeads};
ghost use Rattle.simplecss.specs.internal.Recents.{Leads, adds_bucket, names_bucket, AreStarts};
ghost use Rattle.simplecss.specs.internal.Kept.{AreKeyed, AreKept, is_kept};
ghost use Rattle.simplecss.specs.OpenPaths.{needed_keys, are_open, IsOpenTo};
ghost use Rattle.simplecss.specs.SelectorIndices.{key_at, selector_at, Adds};

use super::last_by_bucket::LastByBucket;
use super::last_by_key::LastByKey;
use super::open_path::OpenPath;
use super::recent::Recent;
use super::rule_index::RuleIndex;
use css_matching::sort_once;
use simplecss_selector::{AttributeOperator, Key, Keyed};
use std::alloc::AllocError;

/// Adds the last index of the key, if it has one.
#[inline(always)]
fn push_last(
    lasts: &LastByKey<'_>,
    key: Key<'_>,
    indices: &mut Vec<usize>,
) -> Result<(), AllocError>
    ensures { OnOk result (Adds indices.old.items indices.new.items
        (λ index. last_for lasts.now (key_value key.entry) ≡ Some index)) }
{
    if let Some(index) = lasts.get(key) {
        indices.push(index)?;
    }
    Ok(())
}

/// Adds the last index of the id, if there is one.
#[inline(always)]
fn push_id(
    lasts: &LastByKey<'_>,
    id: Option<&str>,
    indices: &mut Vec<usize>,
) -> Result<(), AllocError>
    ensures { OnOk result (Adds indices.old.items indices.new.items
        (IdLeads lasts.now (option_map (λ text. text.now) id.entry))) }
{
    match id {
        Some(text) => push_last(lasts, Key::Id(text), indices),
        None => Ok(()),
    }
}

/// Whether looking for each class of the sheet in the value costs less than looking up each word of
/// the value. So a class value of a thousand words costs no more than testing the rules.
#[inline(always)]
fn are_few(lasts: &LastByKey<'_>, value: &str) -> bool {
    lasts.classes.indices.len() <= value.len() / 1024
}

/// Adds the last indices of the classes that are words in a value: looks for each class in it.
fn push_classes_within(
    lasts: &LastByKey<'_>,
    value: &str,
    indices: &mut Vec<usize>,
) -> Result<(), AllocError>
    ensures { OnOk result (Adds indices.old.items indices.new.items
        (ClassLeads lasts.now (Some value.now))) }
{
    for (word, index) in &lasts.classes.indices {
        if AttributeOperator::Contains(word).matches(value) {
            indices.push(*index)?;
        }
    }
    Ok(())
}

/// Adds the last indices of the classes that are words in a value: looks up each word.
fn push_words(
    lasts: &LastByKey<'_>,
    value: &str,
    indices: &mut Vec<usize>,
) -> Result<(), AllocError>
    ensures { OnOk result (Adds indices.old.items indices.new.items
        (ClassLeads lasts.now (Some value.now))) }
{
    for word in value.split(' ') {
        push_last(lasts, Key::Class(word), indices)?;
    }
    Ok(())
}

/// Adds the last indices of the classes that are words in the value of an attribute `class`, if
/// there is one.
fn push_classes(
    lasts: &LastByKey<'_>,
    class: Option<&str>,
    indices: &mut Vec<usize>,
) -> Result<(), AllocError>
    ensures { OnOk result (Adds indices.old.items indices.new.items
        (ClassLeads lasts.now (option_map (λ value. value.now) class.entry))) }
{
    let Some(value) = class else {
        return Ok(());
    };
    if are_few(lasts, value) {
        return push_classes_within(lasts, value, indices);
    }
    push_words(lasts, value, indices)
}

/// Adds the last indices of the attributes that the element has.
fn push_attributes<E: Keyed>(
    lasts: &LastByKey<'_>,
    element: &E,
    indices: &mut Vec<usize>,
) -> Result<(), AllocError>
    ensures { OnOk result (Adds indices.old.items indices.new.items
        (AttributeLeads lasts.now (E.reported element.now).has_attribute)) }
{
    for (name, index) in &lasts.attributes.indices {
        if element.has_attribute(name) {
            indices.push(*index)?;
        }
    }
    Ok(())
}

/// Adds the last indices of the keys that the element reports.
pub(crate) fn push_keys_of<E: Keyed>(
    lasts: &LastByKey<'_>,
    element: &E,
    indices: &mut Vec<usize>,
) -> Result<(), AllocError>
    ensures { OnOk result (Adds indices.old.items indices.new.items
        (KeyLeads (E.reported element.now) lasts.now)) }
{
    if lasts.is_empty() {
        return Ok(());
    }
    push_last(lasts, Key::Any, indices)?;
    push_last(lasts, Key::Name(element.local_name()), indices)?;
    push_id(lasts, element.id_value(), indices)?;
    push_classes(lasts, element.class_value(), indices)?;
    push_attributes(lasts, element, indices)
}

/// Adds the last indices of the keys that a neighbour reports, if there is one.
fn push_neighbour<E: Keyed>(
    lasts: &LastByKey<'_>,
    neighbour: Option<E>,
    indices: &mut Vec<usize>,
) -> Result<(), AllocError>
    ensures { OnOk result ((reported : Option Reported)
        × IsReportedFor E.node E.reported (option_map E.node neighbour) reported
        × Adds indices.old.items indices.new.items (NeighbourLeads lasts.now reported)) }
{
    match neighbour {
        Some(node) => push_keys_of(lasts, &node, indices),
        None => Ok(()),
    }
}

/// Adds the last indices of what the element reports by its id and by other attributes, and of what
/// its parent and its previous sibling report.
fn push_beside<E: Keyed>(
    lasts: &LastByBucket<'_>,
    element: &E,
    indices: &mut Vec<usize>,
) -> Result<(), AllocError>
    ensures { OnOk result ((near : Near) × IsNear E.tree E.node E.reported element.now near
        × Adds indices.old.items indices.new.items (Leads (adds_bucket near) lasts.now)) }
{
    push_id(&lasts.own, element.id_value(), indices)?;
    push_attributes(&lasts.own, element, indices)?;
    push_neighbour(&lasts.parent, element.parent_element(), indices)?;
    push_neighbour(&lasts.previous, element.prev_sibling_element(), indices)
}

/// Adds the last indices of what an element with this name and this class value reports by them.
fn push_named(
    lasts: &LastByBucket<'_>,
    name: &str,
    class: Option<&str>,
    indices: &mut Vec<usize>,
) -> Result<(), AllocError>
    ensures { OnOk result (Adds indices.old.items indices.new.items
        (Leads (names_bucket name.now (option_map (λ value. value.now) class.entry)) lasts.now)) }
{
    push_last(&lasts.own, Key::Any, indices)?;
    push_last(&lasts.own, Key::Name(name), indices)?;
    push_classes(&lasts.own, class, indices)
}

/// Adds the earlier indices with the key of this one, and with a path only those of them that it
/// keeps.
fn push_earlier(
    rule_index: &RuleIndex<'_>,
    path: Option<&OpenPath<'_>>,
    index: usize,
    indices: &mut Vec<usize>,
) -> Result<(), AllocError>
    requires { index < length rule_index.now }
    ensures { OnOk result (Adds indices.old.items indices.new.items
        (λ other. (other < index) × (key_at rule_index.now other ≡ key_at rule_index.now index)
        × IsTrue (is_kept rule_index.now (option_map (λ p. p.now) path.entry)
        (selector_at rule_index.now other)))) }
{
    let mut known = rule_index.earlier(index);
    'back: while let Some(other) = known {
        if rule_index.is_kept(other, path) {
            indices.push(other)?;
        }
        known = rule_index.earlier(other);
    }
    Ok(())
}

/// Adds the earlier indices with the key of one that is there, and with a path only those of them
/// that it keeps.
fn push_all_earlier(
    rule_index: &RuleIndex<'_>,
    path: Option<&OpenPath<'_>>,
    indices: &mut Vec<usize>,
) -> Result<(), AllocError>
    requires { (index : ℕ) → Contains indices.old.items index → index < length rule_index.now }
    ensures { OnOk result (Adds indices.old.items indices.new.items
        (λ other. (index : ℕ) × Contains indices.old.items index × (other < index)
        × (key_at rule_index.now other ≡ key_at rule_index.now index)
        × IsTrue (is_kept rule_index.now (option_map (λ p. p.now) path.entry)
        (selector_at rule_index.now other)))) }
{
    'starts: for i in 0..indices.len() {
        push_earlier(rule_index, path, indices[i], indices)?;
    }
    Ok(())
}

/// Keeps the indices of the rules whose ancestors' keys open elements report, or without a path all.
#[inline(always)]
fn keep_open(rule_index: &RuleIndex<'_>, path: Option<&OpenPath<'_>>, indices: &mut Vec<usize>)
    ensures { indices.new.items ≡ filter (λ index. is_kept rule_index.now
        (option_map (λ p. p.now) path.entry) (selector_at rule_index.now index))
        indices.old.items }
{
    if path.is_some() {
        indices.retain(|index| rule_index.is_kept(*index, path));
    }
}

/// Leaves the last indices of the keys that the element, its parent or its previous sibling reports
/// otherwise than by the element's name and classes.
#[inline(always)]
fn find_beside<E: Keyed>(
    rule_index: &RuleIndex<'_>,
    element: &E,
    indices: &mut Vec<usize>,
) -> Result<(), AllocError>
    ensures { OnOk result ((near : Near) × IsNear E.tree E.node E.reported element.now near
        × AreStarts (adds_bucket near) rule_index.now indices.new.items) }
{
    indices.clear();
    push_beside(&rule_index.lasts, element, indices)
}

/// Adds the indices of the rules whose key an element with this name and this class value reports
/// to those of the last indices that are there, leaves out those that a path does not keep, and puts
/// all in order. A word that the class value repeats costs one look-up and one index more, and that
/// index is dropped before the chains are followed.
fn find_named(
    rule_index: &RuleIndex<'_>,
    path: Option<&OpenPath<'_>>,
    name: &str,
    class: Option<&str>,
    indices: &mut Vec<usize>,
) -> Result<(), AllocError>
    requires { (index : ℕ) → Contains indices.old.items index → index < length rule_index.now }
    ensures { OnOk result ((near : Near) → near.own.name ≡ name.now
        → near.own.class ≡ option_map (λ value. value.now) class.entry
        → AreStarts (adds_bucket near) rule_index.now indices.old.items
        → AreKept near (is_kept rule_index.now (option_map (λ p. p.now) path.entry))
        rule_index.now indices.new.items) }
{
    push_named(&rule_index.lasts, name, class, indices)?;
    sort_once(indices);
    push_all_earlier(rule_index, path, indices)?;
    keep_open(rule_index, path, indices);
    sort_once(indices);
    Ok(())
}

/// Does what [`find_named`] does without a path. Where no index is there, the result is taken from
/// an earlier search by the same name and class value, or kept for later ones.
#[inline(always)]
fn find_again(
    rule_index: &RuleIndex<'_>,
    name: &str,
    class: Option<&str>,
    indices: &mut Vec<usize>,
    recent: &mut Recent<'_>,
) -> Result<(), AllocError>
    requires within { (index : ℕ) → Contains indices.old.items index
        → index < length rule_index.now }
    requires recent { recent.old ≡ rule_index.now }
    ensures found { OnOk result ((near : Near) → near.own.name ≡ name.now
        → near.own.class ≡ option_map (λ value. value.now) class.entry
        → AreStarts (adds_bucket near) rule_index.now indices.old.items
        → AreKeyed near rule_index.now indices.new.items) }
    ensures recent { recent.new ≡ recent.old }
{
    if !indices.is_empty() {
        return find_named(rule_index, None, name, class, indices);
    }
    if let Some(known) = recent.get(name, class) {
        indices.extend_from_slice(known)?;
        return Ok(());
    }
    find_named(rule_index, None, name, class, indices)?;
    recent.keep(name, class, indices)
}

/// Leaves the indices of the rules that are to be tested, in order: those whose key is reported.
#[inline(always)]
pub(crate) fn candidates<E: Keyed>(
    rule_index: &RuleIndex<'_>,
    element: &E,
    indices: &mut Vec<usize>,
    recent: &mut Recent<'_>,
) -> Result<(), AllocError>
    requires { recent.old ≡ rule_index.now }
    ensures found { OnOk result ((near : Near) × IsNear E.tree E.node E.reported element.now near
        × AreKeyed near rule_index.now indices.new.items) }
    ensures recent { recent.new ≡ recent.old }
{
    find_beside(rule_index, element, indices)?;
    find_again(
        rule_index,
        element.local_name(),
        element.class_value(),
        indices,
        recent,
    )
}

/// Leaves the last indices of the keys that the element, its parent or its previous sibling reports
/// otherwise than by the element's name and classes. Those of the parent are the path's.
#[inline(always)]
fn find_beside_open<E: Keyed>(
    rule_index: &RuleIndex<'_>,
    element: &E,
    path: &OpenPath<'_>,
    indices: &mut Vec<usize>,
) -> Result<(), AllocError>
    requires path { path.now.selectors ≡ rule_index.now }
    requires open { IsOpenTo E.tree E.node E.reported path.now
        (E.tree.parent (E.node element.now)) }
    ensures { OnOk result ((near : Near) × IsNear E.tree E.node E.reported element.now near
        × AreStarts (adds_bucket near) rule_index.now indices.new.items) }
{
    let lasts = &rule_index.lasts;
    indices.clear();
    push_id(&lasts.own, element.id_value(), indices)?;
    push_attributes(&lasts.own, element, indices)?;
    indices.extend_from_slice(path.parent_starts())?;
    push_neighbour(&lasts.previous, element.prev_sibling_element(), indices)
}

/// Leaves the indices of the rules that are to be tested, in order: those whose key is reported,
/// and whose ancestors' keys open elements report.
pub(crate) fn candidates_open<E: Keyed>(
    rule_index: &RuleIndex<'_>,
    element: &E,
    path: &OpenPath<'_>,
    indices: &mut Vec<usize>,
) -> Result<(), AllocError>
    requires path { path.now.selectors ≡ rule_index.now }
    requires open { IsOpenTo E.tree E.node E.reported path.now
        (E.tree.parent (E.node element.now)) }
    ensures { OnOk result ((near : Near) × IsNear E.tree E.node E.reported element.now near
        × AreKept near (are_open (needed_keys rule_index.now) path.now.listed) rule_index.now
        indices.new.items) }
{
    find_beside_open(rule_index, element, path, indices)?;
    find_named(
        rule_index,
        Some(path),
        element.local_name(),
        element.class_value(),
        indices,
    )
}
