//! The rules of sheets in the order of the cascade.
ghost use Rattle.std.specs.Prelude.{◌≡◌, ◌≤◌, ◌<◌, ◌++◌, ◌∷◌, [], ℕ, Bool, List, IfErr, IfOk, OnOk, map};
ghost use Rattle.css_cascade.specs.Layers.{most_layers, outermost_number};
ghost use Rattle.css_cascade.specs.LayerViews.{known_of};
ghost use Rattle.css_sheet.specs.internal.OpenViews.{known_in, numbers_in, outermost_in, AreFew, AreMany, GoesOver};
ghost use Rattle.css_sheet.specs.ContentViews.{part_of};
ghost use Rattle.css_sheet.specs.internal.PartViews.{open_in};
ghost use Rattle.css_sheet.specs.SheetLayers.{layer_count, sheet_layers, with_layers as with_layers_of};
ghost use Rattle.css_selector_text.specs.NameViews.{names_of};
ghost use Rattle.css_sheet.specs.Namespaces.{sheet_names};
ghost use Rattle.css_sheet.specs.SheetParts.{PlacedPart, sheet_parts};
ghost use Rattle.css_sheet.specs.SheetOrder.{cascade_rules, nested_lists, source_rules};
ghost use Rattle.css_sheet.specs.SheetOrder.{declarations_in, ranked, rule_key};
ghost use Rattle.css_sheet.specs.Sheets.{SheetText, authored, origin_at as origin_at_of, outermost_at};
ghost use Rattle.css_sheet.specs.SheetRuleViews.{Answers, sheet_of, sheet_rule_of};
ghost use Rattle.css_sheet.specs.internal.GatherViews.{Awaits, AwaitsStill, GathersAll, Pushes, counts_after};
ghost use Rattle.css_sheet.specs.declared.sheet_error.SheetError.TheVariants.{TooManyDeclarations, TooManyLayers};

use crate::gathering::Gathered;
use crate::open_layers::{OpenLayers, is_layer};
use crate::parents::OpenParents;
use crate::parts::{Part, SheetParts};
use crate::sheet_error::SheetError;
use crate::sheet_namespaces::{declare_all, names_in, read_namespaces};
use crate::sheet_rules::{Sheet, SheetRule};
use css_cascade::{Layers, Origin, is_block_name, outermost};
use css_selector_text::{Names, Selector};
use std::alloc::{AllocError, Global};

/// Whether a group rule holds: an `@layer` does, if its prelude is a name or nothing, and others hold as
/// `holds` says.
fn with_layers<C: Fn(&str, &str) -> bool>(holds: &C, keyword: &str, prelude: &str) -> bool
    requires { C.IsAlwaysCallable holds.now }
    ensures { (answers : List ℕ → List ℕ → Bool) → Answers (C.post holds.now) answers
        → result ≡ with_layers_of answers keyword.now prelude.now }
{
    if is_layer(keyword) {
        is_block_name(prelude)
    } else {
        holds(keyword, prelude)
    }
}

/// The rules of sheets as far as they are read, each with the number of its layer, and the layers.
#[derive(Drop)]
pub(crate) struct ReadRules<'n, 'a> {
    /// The rules.
    pub(crate) gathered: Gathered<'a>,
    /// The layers.
    pub(crate) opened: OpenLayers<'a>,
    /// The style rules that are open, and the lists of those with rules in them.
    pub(crate) parents: OpenParents<'n, 'a>,
}

impl<'n, 'a> ReadRules<'n, 'a> {
    /// Adds the layers and the rules of the part that was read last.
    fn push_part(
        &mut self,
        alloc: Global,
        part: &Part<'a>,
        reader: &SheetParts<'n, 'a>,
    ) -> Result<(), SheetError>
        ensures pushes { Pushes self.old result self.new (part_of part.now) reader.now }
        ensures few { OnOk result (AreFew (known_in self.old.opened) → AreFew (known_in self.new.opened)) }
        ensures many { IfErr result (λ error. error ≡ TooManyLayers
            → GoesOver (outermost_in self.old.opened) (known_in self.old.opened)
            (numbers_in self.old.opened) (counts_after self.old (part_of part.now) reader.now)
            (part_of part.now) (open_in reader.now)) }
    {
        let applies = reader.applies();
        self.parents
            .go_through(alloc, reader.names, part, &reader.around, applies)?;
        let counts = !self.parents.is_known_dropped();
        self.opened
            .go_through(alloc, part, &reader.around, applies, counts)?;
        let layer = self.opened.innermost();
        self.gathered
            .push_part(alloc, part, layer, &self.parents.innermost, reader)
    }

    /// Adds the layers and the rules of the sheet of this number, which declares these names and comes from this
    /// origin. Nothing of another is open in it.
    fn push_sheet<C: Fn(&str, &str) -> bool>(
        &mut self,
        alloc: Global,
        sheet: &Sheet<'n, 'a>,
        names: &'n Names<'n>,
        number: usize,
        origin: Origin,
        holds: &C,
    ) -> Result<(), SheetError>
        requires callable { C.IsAlwaysCallable holds.now }
        requires names { names_of names.now ≡ sheet_names (sheet_of sheet.now) }
        ensures awaits { (answers : List ℕ → List ℕ → Bool) → Answers (C.post holds.now) answers
            → (sheets : List SheetText) (most : ℕ) (more : List PlacedPart)
            → outermost_number origin ≡ outermost_at sheets number
            → Awaits answers sheets most self.old
            (sheet_parts (with_layers_of answers) number (sheet_of sheet.now) ++ more)
            → AwaitsStill answers sheets most result self.new more }
        ensures few { OnOk result (AreFew (known_in self.old.opened) → AreFew (known_in self.new.opened)) }
        ensures many { (answers : List ℕ → List ℕ → Bool) → Answers (C.post holds.now) answers
            → (sheets : List SheetText) (most : ℕ) (more : List PlacedPart)
            → outermost_number origin ≡ outermost_at sheets number
            → Awaits answers sheets most self.old
            (sheet_parts (with_layers_of answers) number (sheet_of sheet.now) ++ more)
            → IfErr result (λ error. error ≡ TooManyLayers → AreMany (sheet_layers answers sheets)) }
    {
        self.opened.begin_sheet(outermost(origin));
        let mut reader = SheetParts::new(alloc, sheet, names, number);
        'parts: loop {
            let part = reader.next(
                &|keyword: &str, prelude: &str| -> bool
                    requires { C.IsAlwaysCallable holds.now }
                    ensures { (answers : List ℕ → List ℕ → Bool) → Answers (C.post holds.entry.now) answers
                        → result ≡ with_layers_of answers keyword.now prelude.now }
                { with_layers(holds, keyword, prelude) },
            )?;
            match part {
                Some(part) => self.push_part(alloc, &part, &reader)?,
                None => return Ok(()),
            }
        }
    }
}

/// Returns the origin of the sheet of a number.
fn origin_at(sheets: &[Sheet<'_, '_>], number: usize) -> Origin
    ensures { result ≡ origin_at_of (map sheet_of sheets.now) number }
{
    match sheets.get(number) {
        Some(sheet) => sheet.origin,
        None => Origin::Author,
    }
}

/// Reads the rules of sheets in the order of the texts, each with the number of its layer. Each sheet declares
/// the names at its place.
fn gather<'n, 'a, C: Fn(&str, &str) -> bool>(
    alloc: Global,
    sheets: &[Sheet<'n, 'a>],
    names: &'n [Names<'n>],
    most: usize,
    holds: &C,
) -> Result<ReadRules<'n, 'a>, SheetError>
    requires callable { C.IsAlwaysCallable holds.now }
    requires names { map names_of names.now ≡ map (λ sheet. sheet_names (sheet_of sheet)) sheets.now }
    ensures gathers { (answers : List ℕ → List ℕ → Bool) → Answers (C.post holds.now) answers
        → GathersAll most result answers (map sheet_of sheets.now) }
    ensures few { IfOk result (λ read. AreFew (known_in read.opened)) }
    ensures many { (answers : List ℕ → List ℕ → Bool) → Answers (C.post holds.now) answers
        → IfErr result (λ error. error ≡ TooManyLayers
        → AreMany (sheet_layers answers (map sheet_of sheets.now))) }
{
    let gathered = Gathered {
        rules: Vec::new(alloc),
        left: most,
    };
    let opened = OpenLayers::new(alloc)?;
    let mut read = ReadRules {
        gathered,
        opened,
        parents: OpenParents::new(alloc),
    };
    let mut number: usize = 0;
    let mut rest = sheets;
    let mut declared = names;
    'sheets: while let [sheet, after @ ..] = rest {
        let [one, others @ ..] = declared else {
            return Ok(read);
        };
        let origin = origin_at(sheets, number);
        read.push_sheet(alloc, sheet, one, number, origin, holds)?;
        number += 1;
        rest = after;
        declared = others;
    }
    Ok(read)
}

/// Gives the rules the origins of their sheets, and the ranks of their layers in the place of the numbers.
fn rank(rules: &mut Vec<SheetRule<'_>>, layers: &Layers<'_>, sheets: &[Sheet<'_, '_>])
    ensures { map sheet_rule_of rules.new.items
        ≡ map (ranked (known_of layers.now) (map sheet_of sheets.now)) (map sheet_rule_of rules.old.items) }
{
    'rules: for rule in rules.iter_mut() {
        rule.origin = origin_at(sheets, rule.sheet);
        rule.layer = layers.rank(rule.layer);
    }
}

/// The style rules of sheets, in the order of the cascade.
#[derive(Drop)]
pub struct SheetRules<'a> {
    /// The rules.
    pub rules: Vec<SheetRule<'a>>,
    /// The lists of selectors that `&` denotes in nested rules, each at its number less one
    /// ([`Nesting::number`](css_selector_text::Nesting)): one of each style rule with rules in it. In a list
    /// `&` denotes one before it.
    pub lists: Vec<Vec<Selector<'a>>>,
}

/// Reads the style rules of sheets, one after another, in the order of the cascade: by their origins, of one
/// origin by their layers, in one layer by specificity, and by their order in the sheets where that is equal.
///
/// Of a rule set there is one rule for each selector that is supported. A rule set with a part
/// that is no selector, or without a declaration, has none. A rule in group rules such as `@media`
/// is there if all of them hold: `holds` is asked once about each, by the keyword that its name is,
/// in lower case and without escapes, and by its prelude, and about none in one that does not hold. The group
/// rules that all of a sheet is in are asked about for each sheet, and named as they are given.
/// A group rule or a style rule may be in a style rule: then the declarations before it, in it, and after it
/// are rules of their own, those of one style rule with the same selectors, which are read again for each.
///
/// The selectors of a sheet are read with the prefixes and the default namespace that its `@namespace` rules
/// declare, as [`SheetNamespaces::read`](crate::SheetNamespaces::read) reads them, wherever a selector is in the
/// sheet. A part with a prefix that is not declared is no selector. The number of a namespace is that of its url
/// among the `namespaces` of the sheet; nothing is in one that is not among them.
///
/// In a nested style rule `&` denotes the list of the one that it is in, by a number. An element is asked
/// whether it is in the list (`Element::is_in_list` of `css_selectors`), and the lists are returned
/// beside the rules. A rule in one with a part that is no selector has no rules, nor have those in it.
///
/// About an `@layer` nobody is asked: it holds, unless its prelude is neither a name nor nothing. Layers
/// are in the order in which they are first mentioned where all group rules hold, by a block or, outside
/// of style rules, by a list of names, each origin having its own; one in a style rule that is dropped is not
/// mentioned. A layer that several sheets of an origin name is one, and one without a name is new in each, but
/// for one that several sheets are in by its number. The layers in a layer come before what is in that layer
/// itself, and what is in no layer comes last. `!important` makes no difference here.
///
/// The time is linear, with the group rules of each sheet, but for that, which takes at most the length of a
/// rule's selectors times the number of group rules and nested rules in it, for layers: for each name of one
/// and for each rule at most 1,028 layers are looked through, and for namespaces: each prefix of a selector is
/// looked for among at most 256, and the url of each `@namespace` rule among the `namespaces` of its sheet.
///
/// Fails if the rules hold more than `most` declarations, if there are more than 1,024 layers, or if an
/// allocation fails. The declarations of a rule set count once for each of its rules, though none is
/// copied.
pub fn read_sheets<'a, C: Fn(&str, &str) -> bool>(
    alloc: Global,
    sheets: &[Sheet<'_, 'a>],
    most: usize,
    holds: C,
) -> Result<SheetRules<'a>, SheetError>
    requires { C.IsAlwaysCallable holds }
    ensures rules { (answers : List ℕ → List ℕ → Bool) → Answers (C.post holds) answers
        → IfOk result (λ read. map sheet_rule_of read.rules.items
        ≡ cascade_rules answers (map sheet_of sheets.now)) }
    ensures lists { (answers : List ℕ → List ℕ → Bool) → Answers (C.post holds) answers
        → IfOk result (λ read. map (λ list. list.items) read.lists.items
        ≡ nested_lists answers (map sheet_of sheets.now)) }
    ensures within { (answers : List ℕ → List ℕ → Bool) → Answers (C.post holds) answers
        → OnOk result
        (declarations_in (source_rules answers (map sheet_of sheets.now)) ≤ most) }
    ensures refused { (answers : List ℕ → List ℕ → Bool) → Answers (C.post holds) answers
        → IfErr result (λ error. error ≡ TooManyDeclarations
        → most < declarations_in (source_rules answers (map sheet_of sheets.now))) }
    ensures few_layers { (answers : List ℕ → List ℕ → Bool) → Answers (C.post holds) answers
        → OnOk result (layer_count answers (map sheet_of sheets.now) ≤ most_layers) }
    ensures many_layers { (answers : List ℕ → List ℕ → Bool) → Answers (C.post holds) answers
        → IfErr result (λ error. error ≡ TooManyLayers
        → most_layers < layer_count answers (map sheet_of sheets.now)) }
{
    let namespaces = read_namespaces(alloc, sheets)?;
    let declared = declare_all(alloc, namespaces.as_slice())?;
    let names = names_in(alloc, declared.as_slice())?;
    let read = gather(alloc, sheets, names.as_slice(), most, &holds)?;
    let ReadRules {
        gathered,
        opened,
        parents,
    } = read;
    let mut rules = gathered.rules;
    rank(&mut rules, &opened.layers, sheets);
    rules.sort_by_cached_key(
        |rule: &SheetRule| -> [usize; 5]
            ensures { result ≡ rule_key (sheet_rule_of rule.now) }
        { rule.key() },
    )?;
    Ok(SheetRules {
        rules,
        lists: parents.lists,
    })
}

/// Reads the style rules of one sheet of the author's, as [`read_sheets`] does.
pub fn read_sheet<'a, C: Fn(&str, &str) -> bool>(
    alloc: Global,
    text: &'a str,
    most: usize,
    holds: C,
) -> Result<SheetRules<'a>, SheetError>
    requires { C.IsAlwaysCallable holds }
    ensures rules { (answers : List ℕ → List ℕ → Bool) → Answers (C.post holds) answers
        → IfOk result (λ read. map sheet_rule_of read.rules.items
        ≡ cascade_rules answers (authored text.now ∷ [])) }
    ensures lists { (answers : List ℕ → List ℕ → Bool) → Answers (C.post holds) answers
        → IfOk result (λ read. map (λ list. list.items) read.lists.items
        ≡ nested_lists answers (authored text.now ∷ [])) }
    ensures within { (answers : List ℕ → List ℕ → Bool) → Answers (C.post holds) answers
        → OnOk result (declarations_in (source_rules answers (authored text.now ∷ [])) ≤ most) }
    ensures refused { (answers : List ℕ → List ℕ → Bool) → Answers (C.post holds) answers
        → IfErr result (λ error. error ≡ TooManyDeclarations
        → most < declarations_in (source_rules answers (authored text.now ∷ []))) }
    ensures few_layers { (answers : List ℕ → List ℕ → Bool) → Answers (C.post holds) answers
        → OnOk result (layer_count answers (authored text.now ∷ []) ≤ most_layers) }
    ensures many_layers { (answers : List ℕ → List ℕ → Bool) → Answers (C.post holds) answers
        → IfErr result (λ error. error ≡ TooManyLayers
        → most_layers < layer_count answers (authored text.now ∷ [])) }
{
    let sheet = Sheet {
        text,
        origin: Origin::Author,
        around: &[],
        namespaces: &[],
    };
    read_sheets(alloc, &[sheet], most, holds)
}
