//! Kinds of elements: those with one parent and one type, which is a namespace and a name.
ghost use Rattle.std.specs.Prelude.{◌≡◌, ◌<◌, ◌+◌, length, IfOk, IfSome};
ghost use Rattle.css_elements.specs.TreeNodes.{name_at};
ghost use Rattle.css_tree.specs.Keys.{AreFamilies, AreKinds, HasKinds};
ghost use Rattle.css_tree.specs.Keys.{AreNamed, NamesNoMore, kind};
ghost use Rattle.css_tree.specs.Pages.{namespace_at, have_one_type as are_of_one_type};

use crate::groups::Groups;
use css_elements::Tree;
use std::alloc::{AllocError, Global};
use std::collections::BTreeMap;

/// The most members of a family whose types are compared one after another.
const COMPARED: u32 = 16;

/// Returns the name of an element.
fn name_of<'t>(tree: &Tree<'t>, index: usize) -> &'t str
    requires { index < length tree.now }
    ensures { result.now ≡ name_at tree.now index }
{
    tree.name(index)
}

/// Returns the number of the namespace of an element, which is 0 after the last of `namespaces`.
pub(crate) fn namespace_of(namespaces: &[usize], index: usize) -> usize
    ensures { result ≡ namespace_at namespaces.now index }
{
    namespaces.get(index).copied().unwrap_or(0)
}

/// Whether two elements have one type.
fn have_one_type(tree: &Tree<'_>, namespaces: &[usize], index: usize, other: usize) -> bool
    requires within { index < length tree.now }
    requires other { other < length tree.now }
    ensures { result ≡ are_of_one_type tree.now namespaces.now index other }
{
    namespace_of(namespaces, index) == namespace_of(namespaces, other)
        && name_of(tree, index) == name_of(tree, other)
}

/// Returns the number of the kind of an element: its type is compared with those of its earlier
/// siblings, one after another.
fn kind_by_siblings(
    tree: &Tree<'_>,
    namespaces: &[usize],
    families: &Groups,
    kinds: &[usize],
    index: usize,
) -> usize
    requires within { index < length tree.now }
    requires families { AreFamilies tree.now families.now }
    requires kinds { HasKinds tree.now namespaces.now kinds.now index }
    ensures { result ≡ kind tree.now namespaces.now index }
{
    let mut earlier = index;
    'siblings: while let Some(sibling) = families.before(earlier).last {
        if have_one_type(tree, namespaces, index, sibling) {
            return kinds[sibling];
        }
        earlier = sibling;
    }
    index
}

/// Returns the number of the kind of an element, if its previous sibling has its type. Then its kind is
/// among those of the elements before it.
fn kind_of_previous(
    tree: &Tree<'_>,
    namespaces: &[usize],
    families: &Groups,
    kinds: &[usize],
    index: usize,
) -> Option<usize>
    requires within { index < length tree.now }
    requires families { AreFamilies tree.now families.now }
    requires kinds { HasKinds tree.now namespaces.now kinds.now index }
    ensures kind { IfSome result (λ number. number ≡ kind tree.now namespaces.now index) }
    ensures named { IfSome result (λ _. NamesNoMore tree.now namespaces.now families.now index) }
{
    let Some(sibling) = families.before(index).last else {
        return None;
    };
    if have_one_type(tree, namespaces, index, sibling) {
        Some(kinds[sibling])
    } else {
        None
    }
}

/// Returns the number of the kind of an element. In a large family its type is searched among those of
/// the family, each with the number of its kind.
fn kind_of<'t>(
    tree: &Tree<'t>,
    namespaces: &[usize],
    families: &Groups,
    kinds: &[usize],
    named: &mut BTreeMap<(usize, usize, &'t str), usize>,
    index: usize,
) -> Result<usize, AllocError>
    requires within { index < length tree.now }
    requires families { AreFamilies tree.now families.now }
    requires kinds { HasKinds tree.now namespaces.now kinds.now index }
    requires named { AreNamed tree.now namespaces.now families.now named.old index }
    ensures { IfOk result (λ number. (number ≡ kind tree.now namespaces.now index)
        × AreNamed tree.now namespaces.now families.now named.new (index + 1)) }
{
    let family = families.number(index);
    if families.count(family) <= COMPARED {
        return Ok(kind_by_siblings(tree, namespaces, families, kinds, index));
    }
    if let Some(number) = kind_of_previous(tree, namespaces, families, kinds, index) {
        return Ok(number);
    }
    let key = (
        family,
        namespace_of(namespaces, index),
        name_of(tree, index),
    );
    if let Some(number) = named.get(&key) {
        return Ok(*number);
    }
    named.insert(key, index)?;
    Ok(index)
}

/// Returns the number of the kind of each element. Kinds are elements with one parent, one namespace and
/// one name.
pub(crate) fn kinds_of(
    alloc: Global,
    tree: &Tree<'_>,
    namespaces: &[usize],
    families: &Groups,
) -> Result<Vec<usize>, AllocError>
    requires { AreFamilies tree.now families.now }
    ensures { IfOk result (λ kinds. AreKinds tree.now namespaces.now kinds.items) }
{
    let mut kinds = Vec::with_capacity(alloc, tree.len())?;
    let mut named = BTreeMap::new(alloc);
    for index in 0..tree.len() {
        let kind = kind_of(tree, namespaces, families, &kinds, &mut named, index)?;
        kinds.push(kind)?;
    }
    Ok(kinds)
}
