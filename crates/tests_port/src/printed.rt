//! What a value prints under the options of a formatter.

use std::alloc::{AllocError, Global};
use std::fmt::{Display, Write as _};

/// Whether the value prints this text plainly and under options: the alternate form, a width to
/// either side, and a fill with a precision.
pub(crate) fn prints_alike<T: Display>(
    alloc: Global,
    value: &T,
    text: &str,
) -> Result<bool, AllocError> {
    let mut printed = format!(in alloc; "{value}\n{value:#}\n")?;
    write!(printed, "{value:>60}\n{value:<5}\n")?;
    write!(printed, "{value:_^40.3}\n")?;
    let wanted = format!(in alloc; "{text}\n{text}\n{text}\n{text}\n{text}\n")?;
    Ok(printed.as_str() == wanted.as_str())
}
