//! Conditions of style sheets: what each call answers.

ghost use Rattle.std.specs.Prelude.{◌≡◌, ◌||◌, ◌&&◌, IfOk, MatchOption, MatchResult, Some, None, List, ℕ, map, option_map, codes};
ghost use Rattle.std.specs.List.{list_any};
ghost use Rattle.std.specs.Option.{is_some};
ghost use Rattle.css_sheet.specs.RuleSelectors.{selector_of};
ghost use Rattle.css_syntax.specs.Tokens.{spells};
ghost use Rattle.sheet_calls.specs.Conditions.{is_refused as is_refused_of};
ghost use Rattle.sheet_calls.specs.Conditions.{medium_of, pointer_of, device_of, gamut_of, update_of};
ghost use Rattle.sheet_calls.specs.Conditions.{scripting_of, display_of, contrast_of, choices_of};
ghost use Rattle.sheet_calls.specs.Conditions.{is_custom as is_custom_of};
ghost use Rattle.sheet_calls.specs.Conditions.{is_selector as is_selector_of};
ghost use Rattle.sheet_calls.specs.Conditions.{IsMediaCall, IsSupportsCall};
ghost use Rattle.call_answers.specs.Outcomes.{truth_outcome};

use crate::functions::{is_known_word, is_listed};
use call_answers::answer::CallError;
use call_answers::texts::{text_of, texts_of};
use css_conditions::{
    Contrast, Device, Display, Gamut, Medium, Pointer, Scripting, Supported, Truth, Update,
    media_says, supports_holds, truth_of,
};
use css_sheet::read_supported;
use css_syntax::tokens::{past_gap, spells};
use css_values::RefusedValues;
use std::alloc::{AllocError, Global};

/// A device, as the caller of a function passes it.
#[repr(C)]
#[derive(Clone, Copy, Debug)]
pub struct DeviceNumbers {
    /// Its width in pixels.
    pub width: u32,
    /// Its height in pixels.
    pub height: u32,
    /// Its resolution in thousandths of a dot for each pixel.
    pub resolution: u32,
    /// The number of its type.
    pub medium: u32,
    /// The number of its pointer.
    pub pointer: u32,
    /// Whether its pointer can hover: any number but 0.
    pub hover: u32,
    /// Whether its user prefers dark colours.
    pub dark: u32,
    /// Whether its user prefers less motion.
    pub reduced_motion: u32,
    /// Its own width in pixels: 0 for that of a page.
    pub device_width: u32,
    /// Its own height in pixels: 0 for that of a page.
    pub device_height: u32,
    /// How many bits each of its colours has.
    pub color: u32,
    /// How many colours its table of colours has.
    pub color_index: u32,
    /// How many bits a dot has, if it shows one colour.
    pub monochrome: u32,
    /// The number of the colours that it shows.
    pub gamut: u32,
    /// Whether its range of brightness is high.
    pub high_range: u32,
    /// Whether it shows characters in a grid.
    pub grid: u32,
    /// The number of how fast what it shows can change.
    pub update: u32,
    /// The number of whether scripts run.
    pub scripting: u32,
    /// The number of how a web application is shown.
    pub display: u32,
    /// Whether its user prefers less transparency.
    pub reduced_transparency: u32,
    /// The number of the contrast that its user prefers.
    pub contrast: u32,
    /// Whether its user has chosen a few colours, and no others are shown.
    pub forced_colors: u32,
    /// Whether another of its pointers can hover.
    pub any_hover: u32,
    /// Whether another of its pointers is coarse.
    pub any_coarse: u32,
    /// Whether another of its pointers is fine.
    pub any_fine: u32,
}

/// The type of a number.
fn medium_numbered(number: u32) -> Option<Medium>
    ensures { result ≡ medium_of number }
{
    match number {
        0 => Some(Medium::Screen),
        1 => Some(Medium::Print),
        2 => Some(Medium::Speech),
        _ => None,
    }
}

/// The pointer of a number.
fn pointer_numbered(number: u32) -> Option<Pointer>
    ensures { result ≡ pointer_of number }
{
    match number {
        0 => Some(Pointer::Missing),
        1 => Some(Pointer::Coarse),
        2 => Some(Pointer::Fine),
        _ => None,
    }
}

/// The colours of a number.
fn gamut_numbered(number: u32) -> Option<Gamut>
    ensures { result ≡ gamut_of number }
{
    match number {
        0 => Some(Gamut::Srgb),
        1 => Some(Gamut::P3),
        2 => Some(Gamut::Rec2020),
        _ => None,
    }
}

/// How fast what is shown can change, of a number.
fn update_numbered(number: u32) -> Option<Update>
    ensures { result ≡ update_of number }
{
    match number {
        0 => Some(Update::Never),
        1 => Some(Update::Slow),
        2 => Some(Update::Fast),
        _ => None,
    }
}

/// Whether scripts run, of a number.
fn scripting_numbered(number: u32) -> Option<Scripting>
    ensures { result ≡ scripting_of number }
{
    match number {
        0 => Some(Scripting::Missing),
        1 => Some(Scripting::Initial),
        2 => Some(Scripting::Enabled),
        _ => None,
    }
}

/// How a web application is shown, of a number.
fn display_numbered(number: u32) -> Option<Display>
    ensures { result ≡ display_of number }
{
    match number {
        0 => Some(Display::Browser),
        1 => Some(Display::Minimal),
        2 => Some(Display::Standalone),
        3 => Some(Display::Fullscreen),
        4 => Some(Display::Overlay),
        5 => Some(Display::Picture),
        6 => Some(Display::Tabbed),
        _ => None,
    }
}

/// The contrast of a number.
fn contrast_numbered(number: u32) -> Option<Contrast>
    ensures { result ≡ contrast_of number }
{
    match number {
        0 => Some(Contrast::Usual),
        1 => Some(Contrast::More),
        2 => Some(Contrast::Less),
        3 => Some(Contrast::Custom),
        _ => None,
    }
}

/// What a device shows, and what its user prefers.
#[derive(Clone, Copy)]
struct Choices {
    /// The colours that it shows.
    gamut: Gamut,
    /// How fast what it shows can change.
    update: Update,
    /// Whether scripts run.
    scripting: Scripting,
    /// How a web application is shown.
    display: Display,
    /// The contrast that its user prefers.
    contrast: Contrast,
}

/// The choices of numbers, if each has one.
fn choices_numbered(numbers: &DeviceNumbers) -> Option<Choices>
    ensures { choices_of numbers.now ≡ option_map (λ it. (
      it.gamut,
      it.update,
      it.scripting,
      it.display,
      it.contrast,
    )) result }
{
    match (
        gamut_numbered(numbers.gamut),
        update_numbered(numbers.update),
        scripting_numbered(numbers.scripting),
        display_numbered(numbers.display),
        contrast_numbered(numbers.contrast),
    ) {
        (Some(gamut), Some(update), Some(scripting), Some(display), Some(contrast)) => {
            Some(Choices {
                gamut,
                update,
                scripting,
                display,
                contrast,
            })
        }
        _ => None,
    }
}

/// The device of numbers, or the refusal.
fn device_numbered(numbers: &DeviceNumbers) -> Result<Device, CallError>
    ensures { MatchResult result (λ device. device_of numbers.now ≡ Some device)
        (λ error. (error ≡ CallError.Refused) × (device_of numbers.now ≡ None)) }
{
    let (Some(medium), Some(pointer), Some(choices)) = (
        medium_numbered(numbers.medium),
        pointer_numbered(numbers.pointer),
        choices_numbered(numbers),
    ) else {
        return Err(CallError::Refused);
    };
    Ok(Device {
        medium,
        width: numbers.width,
        height: numbers.height,
        device_width: numbers.device_width,
        device_height: numbers.device_height,
        resolution: numbers.resolution,
        color: numbers.color,
        color_index: numbers.color_index,
        monochrome: numbers.monochrome,
        gamut: choices.gamut,
        high_range: numbers.high_range != 0,
        grid: numbers.grid != 0,
        update: choices.update,
        scripting: choices.scripting,
        display: choices.display,
        dark: numbers.dark != 0,
        reduced_motion: numbers.reduced_motion != 0,
        reduced_transparency: numbers.reduced_transparency != 0,
        contrast: choices.contrast,
        forced_colors: numbers.forced_colors != 0,
        hover: numbers.hover != 0,
        pointer,
        any_hover: numbers.any_hover != 0,
        any_coarse: numbers.any_coarse != 0,
        any_fine: numbers.any_fine != 0,
    })
}

/// What a list of media queries says on a device.
pub fn media(text: &[u8], numbers: &DeviceNumbers) -> Result<Truth, CallError>
    ensures { IsMediaCall text.now numbers.now (truth_outcome result) }
{
    let device = device_numbered(numbers)?;
    Ok(media_says(text_of(text)?, &device))
}

/// What is supported: properties of these names, but for some values, custom properties, and selectors that can be
/// read.
#[derive(Drop)]
struct Known<'a> {
    /// The names of properties, in lower case.
    properties: &'a [&'a str],
    /// The values that no browser takes.
    values: &'a RefusedValues,
    /// Where a selector is read.
    alloc: Global,
}

/// Whether the name is one of a custom property.
fn is_custom(name: &[u8]) -> bool
    ensures { result ≡ is_custom_of name.now }
{
    matches!(name, [b'-', b'-', _, ..])
}

/// Whether the text is read as a selector. It fails if an allocation fails.
fn is_read(alloc: Global, text: &str) -> Result<bool, AllocError>
    ensures { IfOk result (λ read. read ≡ is_some (selector_of text.now)) }
{
    match read_supported(alloc, text) {
        Ok(selector) => Ok(selector.is_some()),
        Err(error) => Err(error),
    }
}

/// Whether bytes are a selector. They are UTF-8, as every part of a sheet is. It fails if an allocation
/// fails.
#[tactic(auto, using(crate::proofs::Utf8Tests::utf8_true, crate::proofs::Utf8Tests::utf8_false))]
fn is_selector(alloc: Global, bytes: &[u8]) -> Result<bool, AllocError>
    ensures { IfOk result (λ read. read ≡ is_selector_of bytes.now) }
{
    match std::str::from_utf8(bytes) {
        Ok(text) => is_read(alloc, text),
        Err(_) => Ok(false),
    }
}

/// Whether no browser takes the value of a property, as far as the table of values says.
#[tactic(auto, using(crate::proofs::Utf8Tests::utf8_true, crate::proofs::Utf8Tests::utf8_false))]
fn is_refused(values: &RefusedValues, name: &[u8], value: &[u8]) -> bool
    ensures { result ≡ is_refused_of name.now value.now }
{
    match std::str::from_utf8(name) {
        Ok(name) => values.refuses(name, value, false),
        Err(_) => false,
    }
}

impl<'a> Supported for Known<'a> {
    ghost use Rattle.std.specs.Prelude.{map};
    ghost use Rattle.sheet_calls.specs.Conditions.{is_known, is_function};

    ghost knows = { λ it. is_known (map (λ name. name.now) it.properties.now) };

    ghost function = { λ it. is_function };

    fn knows(&self, name: &[u8], value: &[u8]) -> bool {
        is_custom(name)
            || (!past_gap(value).is_empty()
                && is_listed(self.properties, name)
                && !is_refused(self.values, name, value))
    }

    fn function(&self, name: &[u8], arguments: &[u8]) -> Result<bool, AllocError> {
        if spells(b"selector", name) {
            return is_selector(self.alloc, arguments);
        }
        Ok(is_known_word(name, arguments))
    }
}

/// Whether a condition of `@supports` holds where the properties of a buffer are known.
pub fn supports(
    alloc: Global,
    text: &[u8],
    properties: &[u8],
    ends: &[usize],
) -> Result<Truth, CallError>
    ensures { IsSupportsCall text.now properties.now ends.now (truth_outcome result) }
{
    let text = text_of(text)?;
    let properties = texts_of(alloc, properties, ends)?;
    let values = RefusedValues::new(alloc)?;
    let known = Known {
        properties: &properties,
        values: &values,
        alloc,
    };
    Ok(truth_of(supports_holds(text, &known)?))
}
