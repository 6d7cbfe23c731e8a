//! What wins on a device, where a caller asks which group rules hold.
ghost use Rattle.std.specs.Prelude.{◌≡◌, ◌<◌, ℕ, Bool, List, None, Some, length};
ghost use Rattle.call_answers.specs.Calls.{HasTexts};
ghost use Rattle.css_conditions.specs.declared.device.Device.{Device};
ghost use Rattle.css_selectors.specs.MarkedLists.{ListText};
ghost use Rattle.css_sheet.specs.SheetOrder.{SheetRuleText, cascade_rules, nested_lists};
ghost use Rattle.css_sheet.specs.Sheets.{SheetText};
ghost use Rattle.css_styles.specs.Contenders.{OwnText};
ghost use Rattle.css_styles.specs.Winners.{WinnerText};
ghost use Rattle.css_tree.specs.Pages.{Page};
ghost use Rattle.page_calls.specs.MarkedPages.{IsMarkedPage};
ghost use Rattle.page_calls.specs.Readings.{selector_as};
ghost use Rattle.page_calls.specs.declared.modern.document_kind.DocumentKind.{DocumentKind};
ghost use Rattle.sheet_calls.specs.Conditions.{device_of};
ghost use Rattle.sheet_calls.specs.declared.conditions.DeviceNumbers.{DeviceNumbers};
ghost use Rattle.simplecss_calls.specs.WinnerNumbers.{AreRules, AreSheets, IsWon, PassedSheets, winners_numbers};
ghost use Rattle.css_laws.specs.Conditions.{OfConditions};
ghost use Rattle.css_laws.specs.Devices.{AreAsked, holds_on};
ghost use Rattle.css_laws.specs.Headline.{AreTheWinners};

/// The numbers that `simplecss_query_numbers` writes of an element are those of the declarations that win on it on a device:
/// of each, every group rule around it holds there. The caller has asked `simplecss_media` and `simplecss_supports`
/// of the group rules of the sheets, of each that is in no other that does not hold, and passes those of which the
/// call wrote `true`. The other premises are those of [`winners_law`](crate::headline::winners_law).
///
/// The rules and lists of sheets are the same to two answers that agree on these group rules.
pub fn device_law()
    ensures rules { (says holds : List ℕ → List ℕ → Bool) (sheets : List SheetText)
        → OfConditions (λ keyword prelude. says keyword prelude ≡ holds keyword prelude) says sheets
        → cascade_rules says sheets ≡ cascade_rules holds sheets }
    ensures lists { (says holds : List ℕ → List ℕ → Bool) (sheets : List SheetText)
        → OfConditions (λ keyword prelude. says keyword prelude ≡ holds keyword prelude) says sheets
        → nested_lists says sheets ≡ nested_lists holds sheets }
    ensures winners { (passed : PassedSheets) (limit : ℕ) (rules : List SheetRuleText) (lists : List ListText)
        (kind : DocumentKind) (before page : Page) (own : OwnText) (index : ℕ) (numbers : List ℕ)
        → AreRules passed limit rules lists → IsMarkedPage kind lists before page → index < length page.rows
        → IsWon None own (selector_as kind) rules page index numbers
        → (of_device : DeviceNumbers) (device : Device) (properties ends : List ℕ) (names : List (List ℕ))
        → device_of of_device ≡ Some device → HasTexts properties ends names → AreAsked of_device properties ends passed
        → (sheets : List SheetText) × (groups : List (List ℕ)) × AreSheets passed sheets groups
        × (found : List WinnerText) × (numbers ≡ winners_numbers (length rules) found)
        × AreTheWinners (holds_on device names) sheets kind page index own found }
{}
