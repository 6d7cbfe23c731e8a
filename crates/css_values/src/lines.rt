//! Properties and values as texts, in which a program hands them over.
ghost use Rattle.std.specs.Prelude.{◌≡◌, ◌++◌, OnOk, IfOk, map, option_map, string_bytes};
ghost use Rattle.css_values.specs.Lines.{name_lines as name_lines_of, properties_in as properties_in_of};
ghost use Rattle.css_values.specs.Lines.{value_line, value_lines as value_lines_of};
ghost use Rattle.css_values.specs.Views.{stated_of, value_of};

use crate::drafts::Value;
use crate::table::Property;
use std::alloc::{AllocError, Global};
use std::fmt::Write as _;

/// Returns the properties of texts, which are the name and the value of each, unless one has no value.
pub fn properties_in<'t>(
    alloc: Global,
    texts: &[&'t str],
) -> Result<Option<Vec<Property<'t>>>, AllocError>
    ensures { IfOk result (λ found. properties_in_of (map (λ text. text.now) texts.now)
        ≡ option_map (λ properties. map stated_of properties.items) found) }
{
    let mut found = Vec::new(alloc);
    let mut left = texts;
    'pairs: while let [name, others @ ..] = left {
        let [text, more @ ..] = others else {
            return Ok(None);
        };
        found.push(Property { name, text })?;
        left = more;
    }
    Ok(Some(found))
}

/// Appends a value: its length, a newline and the value, or only a newline where there is none.
fn push_value(out: &mut String, value: &Option<Value>) -> Result<(), AllocError>
    ensures { OnOk result (string_bytes out.new
        ≡ string_bytes out.old ++ value_line (option_map value_of value.now)) }
{
    if let Some(value) = value {
        write!(out, "{}\n{}", value.text.len(), value.text)
    } else {
        out.push('\n')
    }
}

/// Returns values: of each its length, a newline and the value, or only a newline where there is none.
pub fn value_lines(alloc: Global, values: &[Option<Value>]) -> Result<String, AllocError>
    ensures { IfOk result (λ out. string_bytes out
        ≡ value_lines_of (map (option_map value_of) values.now)) }
{
    let mut out = String::new(alloc);
    let mut left = values;
    'values: while let [value, others @ ..] = left {
        push_value(&mut out, value)?;
        left = others;
    }
    Ok(out)
}

/// Returns names, each with a newline after it.
pub fn name_lines(alloc: Global, names: &[&str]) -> Result<String, AllocError>
    ensures { IfOk result (λ out. string_bytes out ≡ name_lines_of (map (λ name. name.now) names.now)) }
{
    let mut out = String::new(alloc);
    let mut left = names;
    'names: while let [name, others @ ..] = left {
        out.push_str(name)?;
        out.push('\n')?;
        left = others;
    }
    Ok(out)
}
