//! What is said at places, and where it is said again.
ghost use Rattle.std.specs.Prelude.{◌≡◌, ◌++◌, ◌||◌, ℕ, List, IfOk, OnOk, map, bytes_eq};
ghost use Rattle.css_lint.specs.Keys.{has_key, keyed_of, repeated, spaced};
ghost use Rattle.css_lint.specs.Places.{place_of};

use crate::findings::Finding;
use css_text::scan::is_space;
use std::alloc::{AllocError, Global};
use std::collections::BTreeMap;

/// What is said at a place.
#[derive(Drop)]
pub(crate) struct Keyed {
    /// The bytes of texts, and numbers between these.
    pub(crate) key: Vec<usize>,
    /// What is found, if the same is said before.
    pub(crate) found: Finding,
}

/// Whether a key was met before. It is met from then on.
fn is_met<'k>(met: &mut BTreeMap<&'k [usize], usize>, key: &'k [usize]) -> Result<bool, AllocError>
    ensures was { IfOk result (λ was. was ≡ has_key met.old key.now) }
    ensures keys { (q : List ℕ) → OnOk result (has_key met.new q
        ≡ (bytes_eq key.now q || has_key met.old q)) }
{
    let before = met.insert(key, 0)?;
    Ok(before.is_some())
}

/// Returns what is found of those that say the same as one before.
pub(crate) fn repeated_places(alloc: Global, all: &[Keyed]) -> Result<Vec<Finding>, AllocError>
    ensures { IfOk result (λ found. map place_of found.items ≡ repeated (map keyed_of all.now)) }
{
    let mut met: BTreeMap<&[usize], usize> = BTreeMap::new(alloc);
    let mut found = Vec::new(alloc);
    let mut left = all;
    'keys: while let [one, others @ ..] = left {
        if is_met(&mut met, one.key.as_slice())? {
            found.push(one.found)?;
        }
        left = others;
    }
    Ok(found)
}

/// Appends the bytes of a text.
pub(crate) fn push_bytes(out: &mut Vec<usize>, text: &str) -> Result<(), AllocError>
    ensures { OnOk result (out.new.items ≡ out.old.items ++ text.now) }
{
    let mut left = text.as_bytes();
    'bytes: while let [byte, others @ ..] = left {
        out.push(usize::from(*byte))?;
        left = others;
    }
    Ok(())
}

/// Appends the bytes of a text, with one space for each run of white space and none at its end.
pub(crate) fn push_spaced(out: &mut Vec<usize>, text: &str) -> Result<(), AllocError>
    ensures { OnOk result (out.new.items ≡ out.old.items ++ spaced text.now) }
{
    let mut is_after = false;
    let mut left = text.as_bytes();
    'bytes: while let [byte, others @ ..] = left {
        if is_space(*byte) {
            is_after = true;
        } else {
            if is_after {
                out.push(32)?;
            }
            is_after = false;
            out.push(usize::from(*byte))?;
        }
        left = others;
    }
    Ok(())
}
