//! Lists of selectors of the port.

ghost use Rattle.std.specs.Prelude.{◌≡◌, ◌++◌, IfOk, string_bytes};
ghost use Rattle.call_answers.specs.SelectorNumbers.{port_row as port_row_of, port_numbers, port_texts};

use simplecss_selector::Selector;
use std::alloc::{AllocError, Global};
use std::fmt::Write as _;

/// Returns the numbers of a selector.
fn selector_row(alloc: Global, selector: &Selector<'_>) -> Result<[usize; 10], AllocError>
    ensures { IfOk result (λ row. row ≡ port_row_of selector.now) }
{
    let printed = format!(in alloc; "{selector}")?;
    let [ids, others, types] = selector.specificity();
    Ok([
        0,
        0,
        1,
        usize::from(ids),
        usize::from(others),
        usize::from(types),
        0,
        0,
        0,
        printed.len(),
    ])
}

/// Returns the numbers of selectors.
pub fn numbers(alloc: Global, selectors: &[Selector<'_>]) -> Result<Vec<usize>, AllocError>
    ensures { IfOk result (λ out. out.items ≡ port_numbers selectors.now) }
{
    let mut out = Vec::new(alloc);
    for selector in selectors {
        out.extend_from_slice(&selector_row(alloc, selector)?)?;
    }
    Ok(out)
}

/// Returns the printed texts of selectors, one after another.
pub fn texts(alloc: Global, selectors: &[Selector<'_>]) -> Result<String, AllocError>
    ensures { IfOk result (λ out. string_bytes out ≡ port_texts selectors.now) }
{
    let mut out = String::new(alloc);
    for selector in selectors {
        write!(out, "{selector}")?;
    }
    Ok(out)
}
