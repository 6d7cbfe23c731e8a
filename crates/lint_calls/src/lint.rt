//! The mistakes of a style sheet, as lines.

ghost use Rattle.std.specs.Prelude.{◌≡◌, ◌++◌, ◌<◌, IfOk, OnOk, option_map, string_bytes};
ghost use Rattle.std.specs.List.{flat_map};
ghost use Rattle.call_answers.specs.Outcomes.{outcome_of};
ghost use Rattle.css_lint.specs.Places.{AreFindings};
ghost use Rattle.lint_calls.specs.Linting.{AreAsked, AreLines, IsLintCall, edit_text, finding_line};
ghost use Rattle.lint_calls.specs.Linting.{has_power as has_power_of, head_text, hint_text};
ghost use Rattle.lint_calls.specs.Linting.{is_attribute, is_other as is_other_of, meant_text, offsets_text, places_of};

use call_answers::answer::CallError;
use call_answers::texts::text_of;
use css_lint::{Edit, Finding, KINDS, Kind, KnownValues, Meant, lint_attribute, lint_sheet};
use std::alloc::{AllocError, Global};
use std::fmt::Write as _;

/// What is asked for: what is unsupported, too.
const ALL: usize = 1;
/// The text is a style attribute.
const ATTRIBUTE: usize = 2;
/// What the kinds are is asked for, and the text is not read.
const ABOUT: usize = 4;
/// The text is lines, of a property, a colon and a value each, and whether it takes the value is
/// asked for.
const VALUES: usize = 8;

/// Whether a sum of different powers of two has this one.
pub(crate) fn has_power(power: usize, asked: usize) -> bool
    requires { 0 < power }
    ensures { result ≡ has_power_of power asked }
{
    asked / power % 2 == 1
}

/// Whether another answer is asked for than findings.
fn is_other(asked: usize) -> bool
    ensures { result ≡ is_other_of asked }
{
    has_power(ABOUT, asked) || has_power(VALUES, asked)
}

/// Appends what was probably meant.
fn push_meant(out: &mut String, meant: &Meant) -> Result<(), AllocError>
    ensures { OnOk result (string_bytes out.new ≡ string_bytes out.old ++ meant_text meant.now) }
{
    out.push_str(meant.sign)?;
    out.push_str(meant.name)
}

/// Appends what was probably meant, if that is known.
fn push_hint(out: &mut String, meant: Option<&Meant>) -> Result<(), AllocError>
    ensures { OnOk result (string_bytes out.new
        ≡ string_bytes out.old ++ hint_text (option_map (λ meant. meant.now) meant.entry)) }
{
    match meant {
        Some(meant) => push_meant(out, meant),
        None => Ok(()),
    }
}

/// Appends the offsets of what corrects a finding.
fn push_offsets(out: &mut String, edit: &Edit) -> Result<(), AllocError>
    ensures { OnOk result (string_bytes out.new
        ≡ string_bytes out.old ++ offsets_text edit.now) }
{
    let (start, end) = (edit.start, edit.end);
    write!(out, "\t{start}\t{end}\t")
}

/// Appends what corrects a finding, if that is known.
fn push_edit(out: &mut String, edit: Option<&Edit>) -> Result<(), AllocError>
    ensures { OnOk result (string_bytes out.new
        ≡ string_bytes out.old ++ edit_text (option_map (λ edit. edit.now) edit.entry)) }
{
    match edit {
        Some(edit) => {
            push_offsets(out, edit)?;
            push_meant(out, &edit.text)
        }
        None => Ok(()),
    }
}

/// Appends the kind of a finding and where it is.
fn push_head(out: &mut String, found: &Finding) -> Result<(), AllocError>
    ensures { OnOk result (string_bytes out.new ≡ string_bytes out.old ++ head_text found.now) }
{
    let (kind, start, end) = (found.kind.words(), found.start, found.end);
    write!(out, "{kind}\t{start}\t{end}\t")
}

/// Appends the line of a finding.
fn push_finding(out: &mut String, found: &Finding) -> Result<(), AllocError>
    ensures { OnOk result (string_bytes out.new ≡ string_bytes out.old ++ finding_line found.now) }
{
    push_head(out, found)?;
    push_hint(out, found.meant.as_ref())?;
    push_edit(out, found.edit.as_ref())?;
    out.push_str("\n")
}

/// Returns the lines of findings.
fn finding_lines(alloc: Global, all: &[Finding]) -> Result<String, AllocError>
    ensures { IfOk result (λ lines. string_bytes lines ≡ flat_map finding_line all.now) }
{
    let mut out = String::new(alloc);
    let mut left = all;
    'findings: while let [found, others @ ..] = left {
        push_finding(&mut out, found)?;
        left = others;
    }
    Ok(out)
}

/// Appends a sheet as one line: `\n` is for a newline.
fn push_line(out: &mut String, text: &str) -> Result<(), AllocError> {
    for character in text.chars() {
        if character == '\n' {
            out.push_str("\\n")?;
        } else {
            out.push(character)?;
        }
    }
    Ok(())
}

/// Appends the line of a kind.
fn push_kind(out: &mut String, kind: Kind) -> Result<(), AllocError> {
    let about = kind.about();
    out.push_str(kind.words())?;
    out.push('\t')?;
    out.push_str(about.text)?;
    out.push('\t')?;
    out.push_str(about.severity.word())?;
    out.push('\t')?;
    push_line(out, about.wrong)?;
    out.push('\t')?;
    push_line(out, about.right)?;
    out.push('\n')
}

/// What the kinds are. Of each a line: its words, what it means, how bad it is, a sheet with it alone and the sheet
/// without it.
fn kind_lines(alloc: Global) -> Result<String, AllocError> {
    let mut out = String::new(alloc);
    for kind in &KINDS {
        push_kind(&mut out, *kind)?;
    }
    Ok(out)
}

/// What is known of the values of properties. Of each line, of a property, a colon and a value, a
/// line: `valid`, `invalid` or `unknown`.
fn value_lines(alloc: Global, text: &str) -> Result<String, AllocError> {
    let mut out = String::new(alloc);
    let known = KnownValues::new(alloc)?;
    let mut rest = text;
    for _ in 0..text.len() {
        if rest.is_empty() {
            break;
        }
        let (line, more) = rest.split_once('\n').unwrap_or((rest, ""));
        let (property, value) = line.split_once(':').unwrap_or((line, ""));
        out.push_str(known.says(alloc, property, value)?.word())?;
        out.push('\n')?;
        rest = more;
    }
    Ok(out)
}

/// Returns the lines of what the kinds are, or of what is known of values.
fn other_lines(alloc: Global, text: &str, asked: usize) -> Result<String, AllocError> {
    if has_power(ABOUT, asked) {
        kind_lines(alloc)
    } else {
        value_lines(alloc, text)
    }
}

/// Returns the findings of a style attribute or of a sheet.
fn findings(
    alloc: Global,
    text: &str,
    attribute: bool,
    shows_all: bool,
) -> Result<Vec<Finding>, AllocError>
    ensures { IfOk result (λ found. AreFindings (places_of attribute text.now) found.items) }
{
    if attribute {
        lint_attribute(alloc, text, shows_all)
    } else {
        lint_sheet(alloc, text, shows_all)
    }
}

/// Returns the lines of the findings of a style attribute or of a sheet.
fn lint_lines(
    alloc: Global,
    text: &str,
    attribute: bool,
    shows_all: bool,
) -> Result<String, AllocError>
    ensures { IfOk result (λ lines. AreLines (places_of attribute text.now) (string_bytes lines)) }
{
    let found = findings(alloc, text, attribute, shows_all)?;
    finding_lines(alloc, &found)
}

/// Returns the lines that are asked for.
fn asked_lines(alloc: Global, text: &str, asked: usize) -> Result<String, AllocError>
    ensures { IfOk result (λ lines. AreAsked (is_other_of asked) (is_attribute asked) text.now (string_bytes lines)) }
{
    if is_other(asked) {
        return other_lines(alloc, text, asked);
    }
    let attribute = has_power(ATTRIBUTE, asked);
    lint_lines(alloc, text, attribute, has_power(ALL, asked))
}

/// The mistakes of a style sheet or of a style attribute. Of each a line: its kind, the offsets of its first byte and
/// after its last one, and what was probably meant; and if one answer is right, the offsets between which it is
/// written, and the answer; with tabs between them. Or what the kinds are, or what is known of values.
pub fn lint(alloc: Global, text: &[u8], asked: usize) -> Result<String, CallError>
    ensures { IsLintCall asked text.now (outcome_of result) }
{
    let text = text_of(text)?;
    Ok(asked_lines(alloc, text, asked)?)
}
