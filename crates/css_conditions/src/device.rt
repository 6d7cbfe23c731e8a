//! A device, and what it says of features.
ghost use Rattle.std.specs.Prelude.{◌≡◌, ◌≤◌, codes, option_map, map, ◌||◌, ◌&&◌, true};
ghost use Rattle.css_conditions.specs.Devices.{is_word as is_word_of, is_present as is_present_of, word_from};
ghost use Rattle.css_conditions.specs.Devices.{is_plain as is_plain_of, ranged_says as ranged_says_of};
ghost use Rattle.css_conditions.specs.Devices.{bound_says as bound_says_of, is_said};
ghost use Rattle.css_conditions.specs.Devices.{choice_says as choice_says_of, option_says as option_says_of};
ghost use Rattle.css_conditions.specs.Devices.{medium_name as medium_name_of, is_print as is_print_of};
ghost use Rattle.css_conditions.specs.Devices.{pointer_number, contrast_number, gamut_number};
ghost use Rattle.css_conditions.specs.Devices.{update_number, scripting_number, display_number};
ghost use Rattle.css_conditions.specs.Devices.{switch_says as switch_says_of, number_of as number_of_bool};
ghost use Rattle.css_conditions.specs.Devices.{all_pointers_say as all_pointers_say_of, own_or as own_or_of};
ghost use Rattle.css_conditions.specs.Devices.{display_says as display_says_of};

use crate::answers::Features;
use crate::quantities::View;
use crate::truth::{Comparison, Truth, truth_of};
use crate::values::{Measured, Quantity, integer, quantity_says};
use crate::words::{before, is_end, take_letters};
use css_syntax::tokens::{past_gap, past_word, spells};

/// Whether the value is this word.
fn is_word(value: &[u8], word: &[u8]) -> bool
    ensures { result ≡ is_word_of word.now value.now }
{
    let after = past_word(value);
    spells(word, before(value, after)) && is_end(past_gap(after))
}

/// Returns the number of the word that the value is.
fn word_number(words: &[&[u8]], value: &[u8]) -> Option<usize>
    ensures { result ≡ word_from 0 (map (λ word. word.now) words.now) value.now }
{
    let mut number = 0;
    let mut left = words;
    'words: while let [word, others @ ..] = left {
        if is_word(value, *word) {
            return Some(number);
        }
        number += 1;
        left = others;
    }
    None
}

/// Whether it is `(name)`.
fn is_present(how: Comparison) -> bool
    ensures { result ≡ is_present_of how }
{
    matches!(how, Comparison::Present)
}

/// Whether it is `(name: value)`.
fn is_plain(how: Comparison) -> bool
    ensures { result ≡ is_plain_of how }
{
    matches!(how, Comparison::Is)
}

/// What a quantity says.
#[tactic(auto, unfolding(crate::specs::Devices::ranged_says))]
fn ranged_says(view: View, measured: Measured, how: Comparison, value: &[u8]) -> Truth
    ensures { result ≡ ranged_says_of view measured how value.now }
{
    if is_present(how) {
        truth_of(measured.number != 0)
    } else {
        quantity_says(view, measured, how, value)
    }
}

/// What a bound of a quantity says.
#[tactic(auto, unfolding(crate::specs::Devices::bound_says))]
fn bound_says(
    view: View,
    measured: Option<Measured>,
    bound: Comparison,
    how: Comparison,
    value: &[u8],
) -> Truth
    ensures { result ≡ bound_says_of view measured bound how value.now }
{
    match measured {
        Some(it) if is_plain(how) => quantity_says(view, it, bound, value),
        _ => Truth::Unknown,
    }
}

/// What a feature says whose values are words: it is there or not, and says those from the least number to the
/// greatest.
#[tactic(auto, unfolding(crate::specs::Devices::choice_says))]
fn choice_says(
    there: bool,
    least: usize,
    greatest: usize,
    words: &[&[u8]],
    how: Comparison,
    value: &[u8],
) -> Truth
    ensures { result ≡ choice_says_of there least greatest (map (λ word. word.now) words.now) how
        value.now }
{
    if is_present(how) {
        return truth_of(there);
    }
    if !is_plain(how) {
        return Truth::Unknown;
    }
    match word_number(words, value) {
        None => Truth::Unknown,
        Some(number) => truth_of(least <= number && number <= greatest),
    }
}

/// What a feature says whose values are words, of which the first says that nothing is there.
#[tactic(auto, unfolding(crate::specs::Devices::option_says))]
fn option_says(chosen: usize, words: &[&[u8]], how: Comparison, value: &[u8]) -> Truth
    ensures { result ≡ option_says_of chosen (map (λ word. word.now) words.now) how value.now }
{
    choice_says(chosen != 0, chosen, chosen, words, how, value)
}

/// What all pointers together say, of which one may be coarse, and one fine.
#[tactic(auto, unfolding(crate::specs::Devices::all_pointers_say))]
fn all_pointers_say(coarse: bool, fine: bool, how: Comparison, value: &[u8]) -> Truth
    ensures { result ≡ all_pointers_say_of coarse fine how value.now }
{
    let words: [&[u8]; 3] = [b"none", b"coarse", b"fine"];
    let least = if coarse { 1 } else { 2 * number_of(fine) };
    let greatest = if fine { 2 } else { number_of(coarse) };
    choice_says(coarse || fine, least, greatest, &words, how, value)
}

/// What the way in which an application is shown says.
#[tactic(auto, unfolding(crate::specs::Devices::display_says))]
fn display_says(mode: usize, how: Comparison, value: &[u8]) -> Truth
    ensures { result ≡ display_says_of mode how value.now }
{
    let words: [&[u8]; 7] = [
        b"browser",
        b"minimal-ui",
        b"standalone",
        b"fullscreen",
        b"window-controls-overlay",
        b"picture-in-picture",
        b"tabbed",
    ];
    choice_says(true, mode, mode, &words, how, value)
}

/// What a feature says that is zero or one.
#[tactic(auto, unfolding(crate::specs::Devices::switch_says))]
fn switch_says(on: bool, view: View, how: Comparison, value: &[u8]) -> Truth
    ensures { result ≡ switch_says_of on view how value.now }
{
    if is_present(how) {
        return truth_of(on);
    }
    if !is_plain(how) {
        return Truth::Unknown;
    }
    match integer(view, value) {
        None => Truth::Unknown,
        Some(it) if it.plus == it.minus => truth_of(!on),
        Some(it) if it.minus <= it.plus && it.plus - it.minus == it.over => truth_of(on),
        Some(_) => Truth::Unknown,
    }
}

/// The type of a device.
#[derive(Clone, Copy, Debug, PartialEq)]
pub enum Medium {
    /// It is a screen.
    Screen,
    /// It prints.
    Print,
    /// It reads aloud.
    Speech,
}

impl Medium {
    /// Returns the name of the type.
    fn name(self) -> &'static [u8]
        ensures { result.now ≡ medium_name_of self }
    {
        match self {
            Medium::Screen => b"screen",
            Medium::Print => b"print",
            Medium::Speech => b"speech",
        }
    }

    /// Whether it prints.
    fn is_print(self) -> bool
        ensures { result ≡ is_print_of self }
    {
        matches!(self, Medium::Print)
    }
}

/// What a device is pointed at with.
#[derive(Clone, Copy, Debug, PartialEq)]
pub enum Pointer {
    /// Nothing.
    Missing,
    /// A finger, or another coarse pointer.
    Coarse,
    /// A mouse, or another fine pointer.
    Fine,
}

impl Pointer {
    /// Returns the number of its word.
    fn number(self) -> usize
        ensures { result ≡ pointer_number self }
    {
        match self {
            Pointer::Missing => 0,
            Pointer::Coarse => 1,
            Pointer::Fine => 2,
        }
    }
}

/// The contrast that a user prefers.
#[derive(Clone, Copy, Debug, PartialEq)]
pub enum Contrast {
    /// The usual one.
    Usual,
    /// More.
    More,
    /// Less.
    Less,
    /// That of colours of the user's choice, neither more nor less.
    Custom,
}

impl Contrast {
    /// Returns the number of its word.
    fn number(self) -> usize
        ensures { result ≡ contrast_number self }
    {
        match self {
            Contrast::Usual => 0,
            Contrast::More => 1,
            Contrast::Less => 2,
            Contrast::Custom => 3,
        }
    }
}

/// The colours that a device shows, each with those before it.
#[derive(Clone, Copy, Debug, PartialEq)]
pub enum Gamut {
    /// Those of sRGB.
    Srgb,
    /// Those of Display P3.
    P3,
    /// Those of Rec. 2020.
    Rec2020,
}

impl Gamut {
    /// Returns the number of its word.
    fn number(self) -> usize
        ensures { result ≡ gamut_number self }
    {
        match self {
            Gamut::Srgb => 0,
            Gamut::P3 => 1,
            Gamut::Rec2020 => 2,
        }
    }
}

/// How fast what a device shows can change.
#[derive(Clone, Copy, Debug, PartialEq)]
pub enum Update {
    /// Not at all, as on paper.
    Never,
    /// Slowly, as on electronic paper.
    Slow,
    /// Fast, as on a screen.
    Fast,
}

impl Update {
    /// Returns the number of its word.
    fn number(self) -> usize
        ensures { result ≡ update_number self }
    {
        match self {
            Update::Never => 0,
            Update::Slow => 1,
            Update::Fast => 2,
        }
    }
}

/// Whether scripts run.
#[derive(Clone, Copy, Debug, PartialEq)]
pub enum Scripting {
    /// None runs.
    Missing,
    /// They run while the page is loaded.
    Initial,
    /// They run.
    Enabled,
}

impl Scripting {
    /// Returns the number of its word.
    fn number(self) -> usize
        ensures { result ≡ scripting_number self }
    {
        match self {
            Scripting::Missing => 0,
            Scripting::Initial => 1,
            Scripting::Enabled => 2,
        }
    }
}

/// How a web application is shown.
#[derive(Clone, Copy, Debug, PartialEq)]
pub enum Display {
    /// In a tab or a window of a browser.
    Browser,
    /// In a window with a few means to navigate.
    Minimal,
    /// In a window of its own.
    Standalone,
    /// On the whole screen.
    Fullscreen,
    /// In a window whose title bar it draws.
    Overlay,
    /// In a small window over the others.
    Picture,
    /// In a window with tabs.
    Tabbed,
}

impl Display {
    /// Returns the number of its word.
    fn number(self) -> usize
        ensures { result ≡ display_number self }
    {
        match self {
            Display::Browser => 0,
            Display::Minimal => 1,
            Display::Standalone => 2,
            Display::Fullscreen => 3,
            Display::Overlay => 4,
            Display::Picture => 5,
            Display::Tabbed => 6,
        }
    }
}

/// A device.
#[derive(Clone, Copy, Debug, PartialEq)]
pub struct Device {
    /// Its type.
    pub medium: Medium,
    /// The width of a page on it in pixels.
    pub width: u32,
    /// The height of a page on it in pixels.
    pub height: u32,
    /// Its own width in pixels: 0 for that of a page.
    pub device_width: u32,
    /// Its own height in pixels: 0 for that of a page.
    pub device_height: u32,
    /// Its resolution in thousandths of a dot for each pixel.
    pub resolution: u32,
    /// How many bits each of its colours has.
    pub color: u32,
    /// How many colours its table of colours has.
    pub color_index: u32,
    /// How many bits a dot has, if it shows one colour.
    pub monochrome: u32,
    /// The colours that it shows.
    pub gamut: Gamut,
    /// Whether its range of brightness is high.
    pub high_range: bool,
    /// Whether it shows characters in a grid.
    pub grid: bool,
    /// How fast what it shows can change.
    pub update: Update,
    /// Whether scripts run.
    pub scripting: Scripting,
    /// How a web application is shown.
    pub display: Display,
    /// Whether its user prefers dark colours.
    pub dark: bool,
    /// Whether its user prefers less motion.
    pub reduced_motion: bool,
    /// Whether its user prefers less transparency.
    pub reduced_transparency: bool,
    /// The contrast that its user prefers.
    pub contrast: Contrast,
    /// Whether its user has chosen a few colours, and no others are shown.
    pub forced_colors: bool,
    /// Whether its pointer can hover.
    pub hover: bool,
    /// Its pointer.
    pub pointer: Pointer,
    /// Whether another of its pointers can hover.
    pub any_hover: bool,
    /// Whether another of its pointers is coarse.
    pub any_coarse: bool,
    /// Whether another of its pointers is fine.
    pub any_fine: bool,
}

/// Returns a size of its own, or that of a page where it has none.
fn own_or(own: u32, other: u32) -> u32
    ensures { result ≡ own_or_of own other }
{
    if own == 0 { other } else { own }
}

/// Returns 1 for something that is there, and 0 for nothing.
#[tactic(auto, unfolding(crate::specs::Devices::number_of))]
fn number_of(there: bool) -> usize
    ensures number { result ≡ number_of_bool there }
    ensures small { result ≤ 1 }
{
    if there { 1 } else { 0 }
}

impl Device {
    ghost use Rattle.css_conditions.specs.Devices.{length_named, ratio_named, integer_named};
    ghost use Rattle.css_conditions.specs.Devices.{measured, view_of, pixel_ratio};
    ghost use Rattle.css_conditions.specs.Devices.{old_says, preference_says, scheme_says, motion_says};
    ghost use Rattle.css_conditions.specs.Devices.{transparency_says, setting_says};
    ghost use Rattle.css_conditions.specs.Devices.{output_says, pointing_says};

    /// Returns what is seen of a page at a time.
    fn view(&self) -> View
        ensures { result ≡ view_of self.now }
    {
        View {
            width: self.width,
            height: self.height,
        }
    }

    /// Returns the length of this name.
    fn length_named(&self, name: &[u8]) -> Option<Measured>
        ensures { result ≡ length_named self.now name.now }
    {
        let number = if spells(b"width", name) {
            self.width
        } else if spells(b"height", name) {
            self.height
        } else if spells(b"device-width", name) {
            own_or(self.device_width, self.width)
        } else if spells(b"device-height", name) {
            own_or(self.device_height, self.height)
        } else {
            return None;
        };
        Some(Measured {
            quantity: Quantity::Length,
            number,
            over: 1,
        })
    }

    /// Returns the ratio of this name, or the resolution.
    fn ratio_named(&self, name: &[u8]) -> Option<Measured>
        ensures { result ≡ ratio_named self.now name.now }
    {
        let (quantity, number, over) = if spells(b"resolution", name) {
            (Quantity::Resolution, self.resolution, 1)
        } else if spells(b"aspect-ratio", name) {
            (Quantity::Ratio, self.width, self.height)
        } else if spells(b"device-aspect-ratio", name) {
            let width = own_or(self.device_width, self.width);
            (
                Quantity::Ratio,
                width,
                own_or(self.device_height, self.height),
            )
        } else {
            return None;
        };
        Some(Measured {
            quantity,
            number,
            over,
        })
    }

    /// Returns the integer of this name.
    fn integer_named(&self, name: &[u8]) -> Option<Measured>
        ensures { result ≡ integer_named self.now name.now }
    {
        let number = if spells(b"color", name) {
            self.color
        } else if spells(b"color-index", name) {
            self.color_index
        } else if spells(b"monochrome", name) {
            self.monochrome
        } else {
            return None;
        };
        Some(Measured {
            quantity: Quantity::Whole,
            number,
            over: 1,
        })
    }

    /// Returns the quantity of this name.
    fn measured(&self, name: &[u8]) -> Option<Measured>
        ensures { result ≡ measured self.now name.now }
    {
        if let Some(length) = self.length_named(name) {
            return Some(length);
        }
        match self.ratio_named(name) {
            Some(ratio) => Some(ratio),
            None => self.integer_named(name),
        }
    }

    /// Returns how many dots a pixel has, as a number.
    fn pixel_ratio(&self) -> Measured
        ensures { result ≡ pixel_ratio self.now }
    {
        Measured {
            quantity: Quantity::Factor,
            number: self.resolution,
            over: 1000,
        }
    }

    /// What the features say whose names begin with `-webkit-`, and those after them.
    #[tactic(auto, unfolding(crate::specs::Devices::old_says))]
    fn old_says(&self, name: &[u8], how: Comparison, value: &[u8]) -> Truth
        ensures { result ≡ old_says self.now name.now how value.now }
    {
        if spells(b"-webkit-device-pixel-ratio", name) {
            return ranged_says(self.view(), self.pixel_ratio(), how, value);
        }
        if spells(b"-webkit-min-device-pixel-ratio", name) {
            let ratio = Some(self.pixel_ratio());
            return bound_says(self.view(), ratio, Comparison::AtLeast, how, value);
        }
        if spells(b"-webkit-max-device-pixel-ratio", name) {
            let ratio = Some(self.pixel_ratio());
            return bound_says(self.view(), ratio, Comparison::AtMost, how, value);
        }
        if spells(b"-webkit-transform-3d", name) {
            return switch_says(true, self.view(), how, value);
        }
        if spells(b"grid", name) {
            return switch_says(self.grid, self.view(), how, value);
        }
        self.preference_says(name, how, value)
    }

    /// What the features say of the contrast that a user prefers, and those after them.
    #[tactic(auto, unfolding(crate::specs::Devices::preference_says))]
    fn preference_says(&self, name: &[u8], how: Comparison, value: &[u8]) -> Truth
        ensures { result ≡ preference_says self.now name.now how value.now }
    {
        if spells(b"forced-colors", name) {
            let forced = number_of(self.forced_colors);
            return option_says(forced, &[b"none", b"active"], how, value);
        }
        if spells(b"prefers-contrast", name) {
            let words: [&[u8]; 4] = [b"no-preference", b"more", b"less", b"custom"];
            return option_says(self.contrast.number(), &words, how, value);
        }
        self.scheme_says(name, how, value)
    }

    /// What the feature says of the colours that a user prefers, and those after it.
    #[tactic(auto, unfolding(crate::specs::Devices::scheme_says))]
    fn scheme_says(&self, name: &[u8], how: Comparison, value: &[u8]) -> Truth
        ensures { result ≡ scheme_says self.now name.now how value.now }
    {
        if spells(b"prefers-color-scheme", name) {
            let dark = number_of(self.dark);
            return choice_says(true, dark, dark, &[b"light", b"dark"], how, value);
        }
        self.motion_says(name, how, value)
    }

    /// What the feature says of the motion that a user prefers, and those after it.
    #[tactic(auto, unfolding(crate::specs::Devices::motion_says))]
    fn motion_says(&self, name: &[u8], how: Comparison, value: &[u8]) -> Truth
        ensures { result ≡ motion_says self.now name.now how value.now }
    {
        if spells(b"prefers-reduced-motion", name) {
            let reduced = number_of(self.reduced_motion);
            return option_says(reduced, &[b"no-preference", b"reduce"], how, value);
        }
        self.transparency_says(name, how, value)
    }

    /// What the feature says of the transparency that a user prefers, and those after it.
    #[tactic(auto, unfolding(crate::specs::Devices::transparency_says))]
    fn transparency_says(&self, name: &[u8], how: Comparison, value: &[u8]) -> Truth
        ensures { result ≡ transparency_says self.now name.now how value.now }
    {
        if spells(b"prefers-reduced-transparency", name) {
            let reduced = number_of(self.reduced_transparency);
            return option_says(reduced, &[b"no-preference", b"reduce"], how, value);
        }
        self.setting_says(name, how, value)
    }

    /// What the features say of what a page runs in, and those after them.
    #[tactic(auto, unfolding(crate::specs::Devices::setting_says))]
    fn setting_says(&self, name: &[u8], how: Comparison, value: &[u8]) -> Truth
        ensures { result ≡ setting_says self.now name.now how value.now }
    {
        if spells(b"orientation", name) {
            let wide = number_of(self.height < self.width);
            return choice_says(true, wide, wide, &[b"portrait", b"landscape"], how, value);
        }
        if spells(b"display-mode", name) {
            return display_says(self.display.number(), how, value);
        }
        if spells(b"device-posture", name) {
            return choice_says(true, 0, 0, &[b"continuous", b"folded"], how, value);
        }
        if spells(b"scripting", name) {
            let words: [&[u8]; 3] = [b"none", b"initial-only", b"enabled"];
            return option_says(self.scripting.number(), &words, how, value);
        }
        self.output_says(name, how, value)
    }

    /// What the features say of how a page is shown, and those of pointers.
    #[tactic(auto, unfolding(crate::specs::Devices::output_says))]
    fn output_says(&self, name: &[u8], how: Comparison, value: &[u8]) -> Truth
        ensures { result ≡ output_says self.now (is_print_of self.now.medium) name.now how value.now }
    {
        let paged = self.medium.is_print();
        if spells(b"update", name) {
            let words: [&[u8]; 3] = [b"none", b"slow", b"fast"];
            return option_says(self.update.number(), &words, how, value);
        }
        if spells(b"overflow-block", name) {
            let words: [&[u8]; 3] = [b"none", b"scroll", b"paged"];
            return option_says(1 + number_of(paged), &words, how, value);
        }
        if spells(b"overflow-inline", name) {
            return option_says(number_of(!paged), &[b"none", b"scroll"], how, value);
        }
        if spells(b"color-gamut", name) {
            let words: [&[u8]; 3] = [b"srgb", b"p3", b"rec2020"];
            return choice_says(true, 0, self.gamut.number(), &words, how, value);
        }
        if spells(b"dynamic-range", name) {
            let high = number_of(self.high_range);
            return choice_says(true, 0, high, &[b"standard", b"high"], how, value);
        }
        self.pointing_says(name, how, value)
    }

    /// What the features of pointers say: of the first one, and of all together.
    #[tactic(auto, unfolding(crate::specs::Devices::pointing_says))]
    fn pointing_says(&self, name: &[u8], how: Comparison, value: &[u8]) -> Truth
        ensures { result ≡ pointing_says self.now name.now how value.now }
    {
        if spells(b"hover", name) {
            return option_says(number_of(self.hover), &[b"none", b"hover"], how, value);
        }
        if spells(b"any-hover", name) {
            return option_says(
                number_of(self.hover || self.any_hover),
                &[b"none", b"hover"],
                how,
                value,
            );
        }
        if spells(b"pointer", name) {
            let words: [&[u8]; 3] = [b"none", b"coarse", b"fine"];
            return option_says(self.pointer.number(), &words, how, value);
        }
        if spells(b"any-pointer", name) {
            let coarse = matches!(self.pointer, Pointer::Coarse) || self.any_coarse;
            let fine = matches!(self.pointer, Pointer::Fine) || self.any_fine;
            return all_pointers_say(coarse, fine, how, value);
        }
        Truth::Unknown
    }
}

impl Features for Device {
    ghost use Rattle.css_conditions.specs.Devices.{device_says, has_type};

    ghost type_holds = { has_type };

    ghost says = { device_says };

    fn type_holds(&self, name: &[u8]) -> bool {
        spells(b"all", name) || spells(self.medium.name(), name)
    }

    fn says(&self, name: &[u8], how: Comparison, value: &[u8]) -> Truth {
        if let Some(base) = take_letters(name, b"min-") {
            let bound = Comparison::AtLeast;
            return bound_says(self.view(), self.measured(base), bound, how, value);
        }
        if let Some(base) = take_letters(name, b"max-") {
            let bound = Comparison::AtMost;
            return bound_says(self.view(), self.measured(base), bound, how, value);
        }
        match self.measured(name) {
            Some(measured) => ranged_says(self.view(), measured, how, value),
            None => self.old_says(name, how, value),
        }
    }
}
