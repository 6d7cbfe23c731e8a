//! The declarations that win on the elements of a tree, as numbers.

ghost use Rattle.std.specs.Prelude.{◌≡◌, ◌<◌, ◌≤◌, ◌++◌, ◌^◌, OnOk, IfOk, IfErr, MatchResult, ℕ, List, Some, None};
ghost use Rattle.std.specs.Prelude.{length, map, option_map, option_to_list};
ghost use Rattle.std.specs.List.{flat_map};
ghost use Rattle.css_selector_text.specs.Components.{Selector as SelectorText};
ghost use Rattle.css_syntax.specs.Views.{declaration_of, item_of};
ghost use Rattle.css_cascade.specs.Layers.{most_layers};
ghost use Rattle.css_sheet.specs.GroupViews.{group_rule_of};
ghost use Rattle.css_sheet.specs.SheetRuleViews.{sheet_of, sheet_rule_of};
ghost use Rattle.css_sheet.specs.declared.sheet_error.SheetError.TheVariants.{TooManyDeclarations, TooManyLayers};
ghost use Rattle.css_styles.specs.StyleViews.{names_of, own_of, winner_of};
ghost use Rattle.css_tree.specs.Html.{html_selector, list_in};
ghost use Rattle.css_tree.specs.Marks.{AreMarked};
ghost use Rattle.call_answers.specs.Calls.{FailsLonger};
ghost use Rattle.call_answers.specs.Numbers.{offset as offset_of};
ghost use Rattle.call_answers.specs.Outcomes.{numbers_outcome};
ghost use Rattle.page_calls.specs.MarkedPages.{list_as};
ghost use Rattle.page_calls.specs.Readings.{selector_as};
ghost use Rattle.simplecss_calls.specs.WinnerNumbers.{is_held as is_held_of};
ghost use Rattle.simplecss_calls.specs.internal.Held.{is_among, names_at};
ghost use Rattle.simplecss_calls.specs.WinnerNumbers.{declaration_numbers as declaration_numbers_of};
ghost use Rattle.simplecss_calls.specs.WinnerNumbers.{item_numbers, block_numbers as block_numbers_of, counted_numbers};
ghost use Rattle.simplecss_calls.specs.WinnerNumbers.{name_length, rule_head as rule_head_of, rule_numbers};
ghost use Rattle.simplecss_calls.specs.WinnerNumbers.{source_number as source_number_of};
ghost use Rattle.simplecss_calls.specs.WinnerNumbers.{option_numbers, winner_numbers, winners_numbers};
ghost use Rattle.simplecss_calls.specs.WinnerNumbers.{origin_of as origin_of_number, sheets_with as sheets_with_of};
ghost use Rattle.simplecss_calls.specs.WinnerNumbers.{first_number as first_number_of, later_numbers as later_numbers_of};
ghost use Rattle.simplecss_calls.specs.WinnerNumbers.{AreWon, IsWon, IsWonOf, held_declarations, held_layers, held_rules};
ghost use Rattle.simplecss_calls.specs.internal.Contents.{AreReadBy, asked_by, asked_in, own_by};
ghost use Rattle.simplecss_calls.specs.WinnerNumbers.{sheets_of, AreRules, FailsBeside};

use crate::around::{first_rules, group_rules, later_rules};
use crate::contents::{AskedProperties, own_at};
use crate::held::{is_held, read_held};
use call_answers::answer::{CallError, check_count};
use call_answers::texts::texts_of;
use css_cascade::Origin;
use css_selectors::Tests;
use css_sheet::{GroupRule, Sheet, SheetError, SheetRule};
use css_styles::{Own, Source, StyleRules, Styles, Winner};
use css_syntax::declarations::read_part;
use css_syntax::places::declaration_value;
use css_syntax::{Declaration, Item};
use css_tree::NumberedTree;
use css_tree::html::HtmlMode;
use page_calls::modern::{DocumentKind, ElementRange, html_rule_selectors};
use std::alloc::{AllocError, Global};

/// The texts of style sheets and of the group rules that hold, as the caller of a function passes them.
#[repr(C)]
#[derive(Clone, Copy)]
pub struct Sheets<'t> {
    /// The texts of the sheets, one after another.
    pub texts: &'t [u8],
    /// Where each ends.
    pub ends: &'t [usize],
    /// The numbers of their origins: 1 is the user's, 2 that of the program that shows the page, and any
    /// other is the author's, as that of each sheet after these.
    pub origins: &'t [usize],
    /// The keyword and the prelude of each group rule that holds.
    pub groups: &'t [u8],
    /// Where each of these ends.
    pub group_ends: &'t [usize],
    /// The numbers of the group rules that all of a sheet is in, among those that hold: those of the first
    /// sheet from the outermost, then those of the others.
    pub around: &'t [usize],
    /// In how many of them each sheet is. Each sheet after these is in none.
    pub depths: &'t [usize],
    /// The urls of the namespaces that are known.
    pub namespaces: &'t [u8],
    /// Where each of these ends.
    pub namespace_ends: &'t [usize],
}

/// Returns the offset at which this rest of a text begins, by the offset at which the text ends.
fn offset(end: usize, rest: &str) -> usize
    ensures { result ≡ offset_of end rest.now }
{
    end.saturating_sub(rest.len())
}

/// Returns the numbers of a declaration of a text that ends at this offset, where `from` is left from
/// the declaration on.
fn declaration_numbers(end: usize, from: &str, one: &Declaration<'_>) -> [usize; 6]
    ensures { result ≡ declaration_numbers_of end from.now (declaration_of one.now) }
{
    [
        offset(end, from),
        one.name.len(),
        offset(end, declaration_value(from)),
        one.value.len(),
        usize::from(one.important),
        usize::from(one.closed),
    ]
}

/// Appends the numbers of an item, if it is a declaration.
fn push_item(
    found: &mut Vec<[usize; 6]>,
    end: usize,
    from: &str,
    item: &Item<'_>,
) -> Result<(), AllocError>
    ensures { OnOk result (found.new.items ≡ found.old.items
        ++ option_to_list (item_numbers end from.now (item_of item.now))) }
{
    if let Item::Declaration(one) = item {
        found.push(declaration_numbers(end, from, one))?;
    }
    Ok(())
}

/// Returns the numbers of each declaration of a block that ends at this offset.
fn block_numbers(alloc: Global, end: usize, block: &str) -> Result<Vec<[usize; 6]>, AllocError>
    ensures { IfOk result (λ found. found.items ≡ block_numbers_of end block.now) }
{
    let mut found = Vec::new(alloc);
    let mut rest = block;
    'items: while let Some(part) = read_part(rest, true) {
        push_item(&mut found, end, part.from, &part.part.item)?;
        rest = part.rest;
    }
    Ok(found)
}

/// Appends how many declarations there are, and the numbers of each.
fn push_counted(out: &mut Vec<usize>, all: &[[usize; 6]]) -> Result<(), AllocError>
    ensures { OnOk result (out.new.items ≡ out.old.items ++ counted_numbers all.now) }
{
    out.push(all.len())?;
    let mut left = all;
    'all: while let [numbers, others @ ..] = left {
        out.extend_from_slice(numbers)?;
        left = others;
    }
    Ok(())
}

/// Returns the length of a text, or 0 if there is none.
fn length_of(text: Option<&str>) -> usize
    ensures { result ≡ name_length (option_map (λ text. text.now) text.entry) }
{
    match text {
        Some(text) => text.len(),
        None => 0,
    }
}

/// Returns the numbers of a rule before those of its declarations.
fn rule_head(rule: &SheetRule<'_>) -> [usize; 8]
    ensures { result ≡ rule_head_of (sheet_rule_of rule.now) }
{
    let counts = rule.specificity();
    [
        rule.sheet,
        rule.start,
        rule.layer,
        rule.text.len(),
        length_of(rule.pseudo_element),
        counts.ids as usize,
        counts.classes as usize,
        counts.names as usize,
    ]
}

/// Appends the numbers of a rule.
fn push_rule(out: &mut Vec<usize>, alloc: Global, rule: &SheetRule<'_>) -> Result<(), AllocError>
    ensures { OnOk result (out.new.items ≡ out.old.items ++ rule_numbers (sheet_rule_of rule.now)) }
{
    let end = rule.start.saturating_add(rule.block.len());
    let numbers = block_numbers(alloc, end, rule.block)?;
    out.extend_from_slice(&rule_head(rule))?;
    push_counted(out, &numbers)
}

/// Returns the numbers of rules.
pub fn rules_numbers(alloc: Global, rules: &[SheetRule<'_>]) -> Result<Vec<usize>, AllocError>
    ensures { IfOk result (λ out. out.items ≡ flat_map rule_numbers (map sheet_rule_of rules.now)) }
{
    let mut out = Vec::new(alloc);
    let mut left = rules;
    'rules: while let [rule, others @ ..] = left {
        push_rule(&mut out, alloc, rule)?;
        left = others;
    }
    Ok(out)
}

/// Reads the rules of sheets, where these group rules hold.
fn read_styles<'a>(
    alloc: Global,
    sheets: &[Sheet<'_, 'a>],
    groups: &[&str],
    limit: usize,
) -> Result<StyleRules<'a>, SheetError>
    ensures rules { IfOk result (λ read. read.rules
        ≡ (held_rules (map sheet_of sheets.now) (map (λ text. text.now) groups.now)).0) }
    ensures lists { IfOk result (λ read. read.lists
        ≡ (held_rules (map sheet_of sheets.now) (map (λ text. text.now) groups.now)).1.lists) }
    ensures within { OnOk result (held_declarations (map sheet_of sheets.now)
        (map (λ text. text.now) groups.now) ≤ limit) }
    ensures layers_within { OnOk result (held_layers (map sheet_of sheets.now)
        (map (λ text. text.now) groups.now) ≤ most_layers) }
    ensures refused { IfErr result (λ error. error ≡ TooManyDeclarations
        → limit < held_declarations (map sheet_of sheets.now) (map (λ text. text.now) groups.now)) }
    ensures layers_refused { IfErr result (λ error. error ≡ TooManyLayers
        → most_layers < held_layers (map sheet_of sheets.now) (map (λ text. text.now) groups.now)) }
{
    let held = read_held(alloc, groups)?;
    StyleRules::read(
        alloc,
        sheets,
        limit,
        |keyword: &str, prelude: &str| -> bool
            ensures { result ≡ is_among (names_at held.entry prelude.now) keyword.now }
        { is_held(&held, keyword, prelude) },
    )
}

/// Returns the origin of a number.
fn origin_of(number: usize) -> Origin
    ensures { result ≡ origin_of_number number }
{
    match number {
        1 => Origin::User,
        2 => Origin::UserAgent,
        _ => Origin::Author,
    }
}

/// Returns the first of some numbers, or 0 if there are none.
fn first_number(numbers: &[usize]) -> usize
    ensures { result ≡ first_number_of numbers.now }
{
    match numbers {
        [] => 0,
        [number, ..] => *number,
    }
}

/// Returns the numbers after the first.
fn later_numbers(numbers: &[usize]) -> &[usize]
    ensures { result.now ≡ later_numbers_of numbers.now }
{
    match numbers {
        [] => numbers,
        [_, later @ ..] => later,
    }
}

/// Returns the sheets with these texts, with the origins of these numbers, and each in so many of these group
/// rules as `depths` says. The namespaces with these urls are known.
fn sheets_with<'s, 'a>(
    alloc: Global,
    origins: &[usize],
    depths: &[usize],
    rules: &'s [GroupRule<'a>],
    namespaces: &'s [&'s str],
    texts: &[&'a str],
) -> Result<Vec<Sheet<'s, 'a>>, AllocError>
    ensures { IfOk result (λ sheets. map sheet_of sheets.items ≡ sheets_with_of origins.now depths.now
        (map group_rule_of rules.now) (map (λ url. url.now) namespaces.now)
        (map (λ text. text.now) texts.now)) }
{
    let mut sheets = Vec::new(alloc);
    let mut numbers = origins;
    let mut counts = depths;
    let mut left = rules;
    let mut rest = texts;
    'texts: while let [text, more @ ..] = rest {
        let depth = first_number(counts);
        sheets.push(Sheet {
            text: *text,
            origin: origin_of(first_number(numbers)),
            around: first_rules(left, depth),
            namespaces,
        })?;
        numbers = later_numbers(numbers);
        counts = later_numbers(counts);
        left = later_rules(left, depth);
        rest = more;
    }
    Ok(sheets)
}

/// Reads the rules of sheets that are passed.
pub fn read_rules<'a>(
    alloc: Global,
    sheets: Sheets<'a>,
    limit: usize,
) -> Result<StyleRules<'a>, CallError>
    ensures { MatchResult result (λ read. AreRules (sheets_of sheets.entry) limit read.rules read.lists)
        (FailsBeside (sheets_of sheets.entry) limit ⊥ (λ fault. ⊥) ⊥ ⊥) }
{
    let texts = texts_of(alloc, sheets.texts, sheets.ends)?;
    let groups = texts_of(alloc, sheets.groups, sheets.group_ends)?;
    let namespaces = texts_of(alloc, sheets.namespaces, sheets.namespace_ends)?;
    let around = group_rules(alloc, &groups, sheets.around)?;
    let placed = sheets_with(
        alloc,
        sheets.origins,
        sheets.depths,
        &around,
        &namespaces,
        &texts,
    )?;
    let rules = read_styles(alloc, &placed, &groups, limit)?;
    Ok(rules)
}

/// Returns the number of where a declaration is, among this number of rules.
pub(crate) fn source_number(rules: usize, source: Source) -> usize
    requires { rules < 2 ^ 63 }
    ensures { result ≡ source_number_of rules source }
{
    match source {
        Source::Rule(index) => index,
        Source::Style => rules,
        Source::Presentation => rules + 1,
    }
}

/// Appends the numbers of a declaration that wins.
fn push_winner(out: &mut Vec<usize>, rules: usize, winner: &Winner<'_>) -> Result<(), AllocError>
    requires { rules < 2 ^ 63 }
    ensures { OnOk result (out.new.items ≡ out.old.items
        ++ winner_numbers rules (winner_of winner.now)) }
{
    out.push(source_number(rules, winner.source))?;
    out.push(winner.place)?;
    Ok(())
}

/// Appends how many declarations win, and the numbers of each.
fn push_winners(
    out: &mut Vec<usize>,
    rules: usize,
    winners: &[Winner<'_>],
) -> Result<(), AllocError>
    requires { rules < 2 ^ 63 }
    ensures { OnOk result (out.new.items ≡ out.old.items
        ++ winners_numbers rules (map winner_of winners.now)) }
{
    out.push(winners.len())?;
    let mut left = winners;
    'winners: while let [winner, others @ ..] = left {
        push_winner(out, rules, winner)?;
        left = others;
    }
    Ok(())
}

/// Appends the numbers of a declaration that wins, if one does, or else those of none.
fn push_option(
    out: &mut Vec<usize>,
    rules: usize,
    winner: &Option<Winner<'_>>,
) -> Result<(), AllocError>
    requires { rules < 2 ^ 63 }
    ensures { OnOk result (out.new.items ≡ out.old.items
        ++ option_numbers rules (option_map winner_of winner.now)) }
{
    match winner {
        Some(winner) => push_winner(out, rules, winner),
        None => {
            out.push(rules + 2)?;
            out.push(0)?;
            Ok(())
        }
    }
}

/// Appends those of each of some properties.
fn push_options(
    out: &mut Vec<usize>,
    rules: usize,
    winners: &[Option<Winner<'_>>],
) -> Result<(), AllocError>
    requires { rules < 2 ^ 63 }
    ensures { OnOk result (out.new.items ≡ out.old.items
        ++ flat_map (option_numbers rules) (map (option_map winner_of) winners.now)) }
{
    let mut left = winners;
    'winners: while let [winner, others @ ..] = left {
        push_option(out, rules, winner)?;
        left = others;
    }
    Ok(())
}

/// What is to be found of elements: what wins by these texts, two for each, of some properties or of all.
#[derive(Clone, Copy)]
pub(crate) struct Wanted<'w, 't, 'n> {
    /// Two texts for each element.
    pub(crate) own: &'w [&'t str],
    /// The names of each property, if only some are asked for.
    pub(crate) asked: Option<&'w [&'w [&'n str]]>,
}

/// What is found of an element. These lists are used again.
#[derive(Drop)]
struct Found<'a> {
    /// What wins of each property.
    all: Vec<Winner<'a>>,
    /// What wins of those that are asked for.
    named: Vec<Option<Winner<'a>>>,
}

/// Appends the numbers of what wins of each property on the element at an index that has these of its own.
/// What was found before is dropped.
fn push_all<'a>(
    out: &mut Vec<usize>,
    styles: &mut Styles<'_, 'a, '_, '_, '_>,
    element: usize,
    own: Own<'a>,
    found: &mut Vec<Winner<'a>>,
) -> Result<(), AllocError>
    requires { element < length styles.old.page.rows }
    ensures written { (read : SelectorText → SelectorText)
        → AreReadBy read styles.old.rules styles.old.walk.selectors
        → OnOk result ((line : List ℕ) × IsWon None (own_of own.entry) read styles.old.rules styles.old.page
        element line
        × (out.new.items ≡ out.old.items ++ line)) }
    ensures rules { styles.new.rules ≡ styles.old.rules }
    ensures page { styles.new.page ≡ styles.old.page }
    ensures selectors { styles.new.walk.selectors ≡ styles.old.walk.selectors }
{
    let rules = styles.rule_count();
    styles.winners(element, own, found, &mut Tests::new())?;
    push_winners(out, rules, found)
}

/// The same of each of these properties.
fn push_asked<'a>(
    out: &mut Vec<usize>,
    styles: &mut Styles<'_, 'a, '_, '_, '_>,
    element: usize,
    own: Own<'a>,
    asked: &[&[&str]],
    found: &mut Vec<Option<Winner<'a>>>,
) -> Result<(), AllocError>
    requires { element < length styles.old.page.rows }
    ensures written { (read : SelectorText → SelectorText)
        → AreReadBy read styles.old.rules styles.old.walk.selectors
        → OnOk result ((line : List ℕ) × IsWon (Some (names_of asked.now)) (own_of own.entry) read
        styles.old.rules styles.old.page element line
        × (out.new.items ≡ out.old.items ++ line)) }
    ensures rules { styles.new.rules ≡ styles.old.rules }
    ensures page { styles.new.page ≡ styles.old.page }
    ensures selectors { styles.new.walk.selectors ≡ styles.old.walk.selectors }
{
    let rules = styles.rule_count();
    styles.winners_named(element, own, asked, found, &mut Tests::new())?;
    push_options(out, rules, found)
}

/// The same of what is wanted.
fn push_element<'a>(
    out: &mut Vec<usize>,
    styles: &mut Styles<'_, 'a, '_, '_, '_>,
    element: usize,
    wanted: Wanted<'_, 'a, '_>,
    found: &mut Found<'a>,
) -> Result<(), AllocError>
    requires { element < length styles.old.page.rows }
    ensures written { (read : SelectorText → SelectorText)
        → AreReadBy read styles.old.rules styles.old.walk.selectors
        → OnOk result ((line : List ℕ) × IsWonOf (asked_by wanted.entry) (own_by wanted.entry) read styles.old.rules
        styles.old.page element line
        × (out.new.items ≡ out.old.items ++ line)) }
    ensures rules { styles.new.rules ≡ styles.old.rules }
    ensures page { styles.new.page ≡ styles.old.page }
    ensures selectors { styles.new.walk.selectors ≡ styles.old.walk.selectors }
{
    let own = own_at(wanted.own, element);
    match wanted.asked {
        None => push_all(out, styles, element, own, &mut found.all),
        Some(asked) => push_asked(out, styles, element, own, asked, &mut found.named),
    }
}

/// The numbers of what wins on each element of a range, by a walk, at most so many.
fn numbers_by<'a>(
    alloc: Global,
    styles: Styles<'_, 'a, '_, '_, '_>,
    wanted: Wanted<'_, 'a, '_>,
    range: ElementRange,
    most: usize,
) -> Result<Vec<usize>, CallError>
    ensures { (read : SelectorText → SelectorText)
        → AreReadBy read styles.entry.rules styles.entry.walk.selectors
        → MatchResult result
        (λ out. AreWon (asked_by wanted.entry) (own_by wanted.entry) most range read styles.entry.rules
        styles.entry.page (Some out.items))
        (FailsLonger (AreWon (asked_by wanted.entry) (own_by wanted.entry) most range read styles.entry.rules
        styles.entry.page None)) }
{
    let mut styles = styles;
    let mut found = Found {
        all: Vec::new(alloc),
        named: Vec::new(alloc),
    };
    let mut out = Vec::new(alloc);
    let count = range
        .to
        .min(styles.element_count())
        .saturating_sub(range.from);
    for index in 0..count {
        push_element(
            &mut out,
            &mut styles,
            range.from + index,
            wanted,
            &mut found,
        )?;
        check_count(&out, most)?;
    }
    Ok(out)
}

/// The numbers of what wins on each element of a range, by selectors as they are written.
fn numbers_as_written<'a>(
    alloc: Global,
    rules: &StyleRules<'a>,
    page: &NumberedTree<'_, '_>,
    wanted: Wanted<'_, 'a, '_>,
    range: ElementRange,
    most: usize,
) -> Result<Vec<usize>, CallError>
    requires { AreMarked rules.now.lists page.now }
    ensures { let are = AreWon (asked_by wanted.entry) (own_by wanted.entry) most range (λ s. s)
        rules.now.rules page.now in
        MatchResult result (λ out. are (Some out.items)) (FailsLonger (are None)) }
{
    let styles = Styles::new(alloc, rules, page)?;
    numbers_by(alloc, styles, wanted, range, most)
}

/// The numbers of what wins on each element of a range, by selectors as an HTML document reads them.
fn numbers_in_html<'a>(
    alloc: Global,
    rules: &StyleRules<'a>,
    mode: HtmlMode,
    page: &NumberedTree<'_, '_>,
    wanted: Wanted<'_, 'a, '_>,
    range: ElementRange,
    most: usize,
) -> Result<Vec<usize>, CallError>
    requires { AreMarked (map (list_in mode) rules.now.lists) page.now }
    ensures { let are = AreWon (asked_by wanted.entry) (own_by wanted.entry) most range (html_selector mode)
        rules.now.rules page.now in
        MatchResult result (λ out. are (Some out.items)) (FailsLonger (are None)) }
{
    let selectors = html_rule_selectors(alloc, mode, rules.as_slice())?;
    let styles = Styles::in_html(alloc, rules, &selectors, page)?;
    numbers_by(alloc, styles, wanted, range, most)
}

/// The numbers of what wins on each element of a range, where a document reads selectors in this way.
fn wanted_numbers<'a>(
    alloc: Global,
    rules: &StyleRules<'a>,
    kind: DocumentKind,
    page: &NumberedTree<'_, '_>,
    wanted: Wanted<'_, 'a, '_>,
    range: ElementRange,
    most: usize,
) -> Result<Vec<usize>, CallError>
    requires { AreMarked (map (list_as kind) rules.now.lists) page.now }
    ensures { let are = AreWon (asked_by wanted.entry) (own_by wanted.entry) most range (selector_as kind)
        rules.now.rules page.now in
        MatchResult result (λ out. are (Some out.items)) (FailsLonger (are None)) }
{
    match kind {
        DocumentKind::AsWritten => numbers_as_written(alloc, rules, page, wanted, range, most),
        DocumentKind::Html(mode) => numbers_in_html(alloc, rules, mode, page, wanted, range, most),
    }
}

/// The numbers of what wins on each element of a range, of these properties, or of each.
pub fn range_winners<'a>(
    alloc: Global,
    rules: &StyleRules<'a>,
    kind: DocumentKind,
    page: &NumberedTree<'_, '_>,
    own: &[&'a str],
    asked: Option<&AskedProperties<'_>>,
    range: ElementRange,
    most: usize,
) -> Result<Vec<usize>, CallError>
    requires { AreMarked (map (list_as kind) rules.now.lists) page.now }
    ensures { let are = AreWon (option_map (λ asked. asked_in asked.now) asked.entry) (map (λ text. text.now) own.now)
        most range (selector_as kind) rules.now.rules page.now in
        MatchResult result (λ out. are (Some out.items)) (FailsLonger (are None)) }
{
    match asked {
        None => {
            let wanted = Wanted { own, asked: None };
            wanted_numbers(alloc, rules, kind, page, wanted, range, most)
        }
        Some(asked) => {
            let groups = asked.groups(alloc)?;
            let asked = Some(groups.as_slice());
            let wanted = Wanted { own, asked };
            wanted_numbers(alloc, rules, kind, page, wanted, range, most)
        }
    }
}
