//! Which declarations win, by what a call writes.
ghost use Rattle.std.specs.Prelude.{◌≡◌, ℕ, List, Some};
ghost use Rattle.call_answers.specs.Calls.{HasTexts};
ghost use Rattle.css_conditions.specs.declared.device.Device.{Device};
ghost use Rattle.page_calls.specs.declared.modern.ranges.ElementRange.{ElementRange};
ghost use Rattle.sheet_calls.specs.Conditions.{device_of};
ghost use Rattle.sheet_calls.specs.declared.conditions.DeviceNumbers.{DeviceNumbers};
ghost use Rattle.simplecss_calls.specs.WinnerNumbers.{is_held};
ghost use Rattle.simplecss_calls.specs.declared.contents.ElementContent.TheVariants.{Winners};
ghost use Rattle.kept_queries.specs.QueryCalls.{AnswersInNumbers};
ghost use Rattle.kept_queries.specs.Sources.{QuerySource};
ghost use Rattle.kept_queries.specs.declared.read_query.NumbersAsked.TheVariants.{Elements};
ghost use Rattle.css_laws.specs.Devices.{AreAsked, holds_on};
ghost use Rattle.css_laws.specs.Queries.{AreWon, AreWrittenOf};

/// Where `simplecss_query_numbers` is asked what wins on the elements of a range, and ends with status 0, the numbers that
/// it writes are those of the declarations that win on each. The first premise is the clause of the call.
///
/// The group rules that hold are those that the query has. The caller has asked `simplecss_media` and
/// `simplecss_supports` of the group rules of the sheets, of each that is in no other that does not hold, and has made
/// the query with those of which the call wrote `true`: then these are the declarations that win on the device.
pub fn query_law()
    ensures held { (source : QuerySource) (range : ElementRange) (most : ℕ) (old new : List ℕ) (len : ℕ)
        → AnswersInNumbers (Some (Elements (record { content = Winners; range = range; most = most })))
        (Some source) 0 old new len
        → AreWrittenOf (AreWon is_held source range) old new len }
    ensures on_device { (source : QuerySource) (range : ElementRange) (most : ℕ) (old new : List ℕ) (len : ℕ)
        → AnswersInNumbers (Some (Elements (record { content = Winners; range = range; most = most })))
        (Some source) 0 old new len
        → (of_device : DeviceNumbers) (device : Device) (properties ends : List ℕ) (names : List (List ℕ))
        → device_of of_device ≡ Some device → HasTexts properties ends names
        → AreAsked of_device properties ends source.sheets
        → AreWrittenOf (AreWon (λ groups. holds_on device names) source range) old new len }
{}
