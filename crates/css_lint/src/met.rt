//! Texts that were met before.

use std::alloc::AllocError;
use std::collections::BTreeMap;

/// Texts that were met.
pub(crate) type Met = BTreeMap<String, usize>;

/// Whether a text was met before. It is met from then on.
pub(crate) fn is_met(met: &mut Met, text: String) -> Result<bool, AllocError> {
    let before = met.insert(text, 0)?;
    Ok(before.is_some())
}
