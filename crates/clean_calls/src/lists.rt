//! The lists of a policy, as lines.

use css_clean::SheetPolicy;
use css_clean::dropped::REASONS;
use std::alloc::{AllocError, Global};
use std::fmt::Write as _;

/// Appends a line of names, each after a space.
fn push_names(out: &mut String, head: &str, names: &[&str]) -> Result<(), AllocError> {
    out.push_str(head)?;
    for name in names {
        out.push(' ')?;
        out.push_str(name)?;
    }
    out.push('\n')
}

/// Returns a line of each list of a policy, with its name first, one of the words of reasons by their numbers,
/// and those of what else the policy has.
pub(crate) fn lines(alloc: Global, policy: SheetPolicy<'_>) -> Result<String, AllocError> {
    let mut out = String::new(alloc);
    let of_values = policy.declarations;
    push_names(&mut out, "properties", of_values.properties)?;
    push_names(&mut out, "functions", of_values.functions)?;
    push_names(&mut out, "strings", of_values.strings)?;
    push_names(&mut out, "pseudos", policy.pseudos)?;
    push_names(&mut out, "media", policy.media)?;
    push_names(&mut out, "named", of_values.changes.named)?;
    push_names(&mut out, "words", of_values.changes.words)?;
    push_names(&mut out, "limited", of_values.limits.properties)?;
    push_names(&mut out, "limits", of_values.limits.limits)?;
    out.push_str("reasons")?;
    for reason in &REASONS {
        out.push(' ')?;
        out.push_str(reason.word())?;
    }
    let (important, itself) = (usize::from(of_values.important), usize::from(policy.itself));
    let longest = of_values.longest;
    write!(
        out,
        "\nimportant {important}\nitself {itself}\nlongest {longest}\n"
    )?;
    Ok(out)
}
