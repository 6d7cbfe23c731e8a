//! The `@import` rules of a sheet that are in force: of each a line of numbers, and its texts.

ghost use Rattle.std.specs.Prelude.{◌≡◌, ◌++◌, [], OnOk, IfOk, map, option_map, string_bytes};
ghost use Rattle.std.specs.List.{flat_map};
ghost use Rattle.std.specs.Option.{is_some, unwrap_or};
ghost use Rattle.css_sheet.specs.ImportViews.{import_of, layer_of, url_of};
ghost use Rattle.css_sheet.specs.Imports.{sheet_imports as sheet_imports_of};
ghost use Rattle.sheet_calls.specs.ImportLines.{is_string, url_text as url_text_of};
ghost use Rattle.sheet_calls.specs.ImportLines.{layer_number, layer_name};
ghost use Rattle.sheet_calls.specs.ImportLines.{import_lines as import_lines_of};
ghost use Rattle.call_answers.specs.Numbers.{number_if};

use css_sheet::{Import, ImportLayer, ImportUrl, read_imports};
use std::alloc::{AllocError, Global};
use std::fmt::Write as _;

/// Returns whether a url is between quotes, as a number, and its text.
fn url_parts(url: ImportUrl<'_>) -> (usize, &str)
    ensures is_string { result.0 ≡ number_if (is_string (url_of url.entry)) }
    ensures text { result.1.now ≡ url_text_of (url_of url.entry) }
{
    match url {
        ImportUrl::Quoted(text) => (1, text),
        ImportUrl::Bare(text) => (0, text),
    }
}

/// Returns the number of a layer, and its name.
fn layer_parts(layer: ImportLayer<'_>) -> (usize, &str)
    ensures number { result.0 ≡ layer_number (layer_of layer.entry) }
    ensures name { result.1.now ≡ layer_name (layer_of layer.entry) }
{
    match layer {
        ImportLayer::Unlayered => (0, ""),
        ImportLayer::Anonymous => (1, ""),
        ImportLayer::Named(name) => (2, name),
    }
}

/// Returns whether an import has a condition, as a number, and the condition.
fn condition_parts(supports: Option<&str>) -> (usize, &str)
    ensures number { result.0 ≡ number_if (is_some (option_map (λ text. text.now) supports.entry)) }
    ensures text { result.1.now ≡ unwrap_or (option_map (λ text. text.now) supports.entry) [] }
{
    match supports {
        Some(text) => (1, text),
        None => (0, ""),
    }
}

/// Appends the numbers and the texts of an import.
fn push_import(out: &mut String, import: &Import<'_>) -> Result<(), AllocError>
    ensures { OnOk result (string_bytes out.new
        ≡ string_bytes out.old ++ import_lines_of (import_of import.now)) }
{
    let (start, size, media) = (import.start, import.size, import.media);
    let (is_string, url) = url_parts(import.url);
    let (layer, name) = layer_parts(import.layer);
    let (has, condition) = condition_parts(import.supports);
    let (url_len, name_len) = (url.len(), name.len());
    let (condition_len, media_len) = (condition.len(), media.len());
    write!(out, "{start} {size} {is_string} {url_len} ")?;
    writeln!(out, "{layer} {name_len} {has} {condition_len} {media_len}")?;
    writeln!(out, "{url}{name}{condition}{media}")
}

/// Returns the numbers and the texts of imports.
fn import_lines(alloc: Global, imports: &[Import<'_>]) -> Result<String, AllocError>
    ensures { IfOk result (λ lines. string_bytes lines
        ≡ flat_map import_lines_of (map import_of imports.now)) }
{
    let mut out = String::new(alloc);
    for import in imports {
        push_import(&mut out, import)?;
    }
    Ok(out)
}

/// The numbers and the texts of the imports of a sheet that are in force.
pub fn sheet_imports(alloc: Global, text: &str) -> Result<String, AllocError>
    ensures { IfOk result (λ lines. string_bytes lines ≡ flat_map import_lines_of (sheet_imports_of text.now)) }
{
    let imports = read_imports(alloc, text)?;
    import_lines(alloc, imports.as_slice())
}
