//! The layers of sheets as far as they are read, and those that are open.
ghost use Rattle.std.specs.Prelude.{◌≡◌, [], IfErr, IfOk, OnOk, Some, map};
ghost use Rattle.css_sheet.specs.declared.sheet_error.SheetError.TheVariants.{TooManyDeclarations, TooManyLayers};
ghost use Rattle.css_syntax.specs.Views.{at_rule_of, item_of};
ghost use Rattle.css_cascade.specs.Layers.{number_at, outermost_layers, with_name};
ghost use Rattle.css_cascade.specs.LayerViews.{known_of};
ghost use Rattle.css_cascade.specs.LayerNameViews.{name_of};
ghost use Rattle.css_sheet.specs.ContentViews.{kind_of, part_of};
ghost use Rattle.css_sheet.specs.internal.PartViews.{open_of};
ghost use Rattle.css_sheet.specs.SheetItems.{is_layer as is_layer_of};
ghost use Rattle.css_sheet.specs.SheetLayers.{kind_name};
ghost use Rattle.css_sheet.specs.SheetLayers.{with_names, with_rule, with_item, if_applies};
ghost use Rattle.css_sheet.specs.SheetParts.{applies_in as applies_in_rules};
ghost use Rattle.css_sheet.specs.internal.OpenViews.{innermost_of, known_in, numbers_in, outermost_in, AreFew, AreMany};
ghost use Rattle.css_sheet.specs.internal.OpenViews.{counted_name, Enters, Goes, GoesOver};

use crate::parts::{OpenRule, Part, RuleKind};
use crate::sheet_error::SheetError;
use css_cascade::{LayerName, Layers, read_block_name, read_layer_names};
use css_syntax::texts::spells;
use css_syntax::{AtRule, Item};
use std::alloc::{AllocError, Global};

/// The layers that sheets mention, as far as they are read, and those that are open.
#[derive(Drop)]
pub(crate) struct OpenLayers<'a> {
    /// The layers that are mentioned.
    pub(crate) layers: Layers<'a>,
    /// Of the rules that are open: the number of the layer that is innermost there.
    pub(crate) numbers: Vec<usize>,
    /// The number of the layer that all of the sheet is in, which is being read.
    pub(crate) outermost: usize,
}

/// Whether an at-rule of this name is about layers.
pub(crate) fn is_layer(name: &str) -> bool
    ensures { result ≡ is_layer_of name.now }
{
    spells("layer", name)
}

/// Mentions the layer that a rule is, if it is one, in this layer; its contents have this place. Returns
/// the number of the layer that is innermost in the rule.
fn enter_kind<'a>(
    alloc: Global,
    layers: &mut Layers<'a>,
    outer: usize,
    kind: &RuleKind<'a>,
    place: [usize; 2],
) -> Result<usize, SheetError>
    ensures known { IfOk result (λ _. known_of layers.new
        ≡ with_name (known_of layers.old) outer (kind_name (kind_of kind.now) place)) }
    ensures number { IfOk result (λ number. number_at outer
        (kind_name (kind_of kind.now) place) (known_of layers.new) ≡ Some number) }
    ensures refused { IfErr result (λ error. error ≡ TooManyDeclarations → ⊥) }
    ensures many { IfErr result (λ error. error ≡ TooManyLayers
        → AreMany (with_name (known_of layers.old) outer (kind_name (kind_of kind.now) place))) }
    ensures few { OnOk result (AreFew (known_of layers.old) → AreFew (known_of layers.new)) }
{
    match kind {
        RuleKind::Group(keyword, prelude) if is_layer(*keyword) => {
            match read_block_name(alloc, *prelude, place)? {
                Some(name) => Ok(layers.mention(outer, name.parts)?),
                None => Ok(outer),
            }
        }
        _ => Ok(outer),
    }
}

/// The same of a rule that is open, if it applies and layers count there.
fn enter_rule<'a>(
    alloc: Global,
    layers: &mut Layers<'a>,
    outer: usize,
    rule: &OpenRule<'a>,
    counts: bool,
) -> Result<usize, SheetError>
    ensures known { IfOk result (λ _. known_of layers.new
        ≡ with_name (known_of layers.old) outer (counted_name counts (open_of rule.now))) }
    ensures number { IfOk result (λ number. number_at outer
        (counted_name counts (open_of rule.now)) (known_of layers.new) ≡ Some number) }
    ensures refused { IfErr result (λ error. error ≡ TooManyDeclarations → ⊥) }
    ensures many { IfErr result (λ error. error ≡ TooManyLayers
        → AreMany (with_name (known_of layers.old) outer (counted_name counts (open_of rule.now)))) }
    ensures few { OnOk result (AreFew (known_of layers.old) → AreFew (known_of layers.new)) }
{
    if counts && rule.applies {
        enter_kind(alloc, layers, outer, &rule.kind, rule.place)
    } else {
        Ok(outer)
    }
}

/// Mentions the layers of a list in this layer.
fn mention_names<'a>(
    layers: &mut Layers<'a>,
    outer: usize,
    names: Vec<LayerName<'a>>,
) -> Result<(), SheetError>
    ensures refused { IfErr result (λ error. error ≡ TooManyDeclarations → ⊥) }
    ensures many { IfErr result (λ error. error ≡ TooManyLayers
        → AreMany (with_names outer (known_of layers.old) (map name_of names.entry.items))) }
    ensures few { OnOk result (AreFew (known_of layers.old) → AreFew (known_of layers.new)) }
    ensures known { IfOk result (λ _. known_of layers.new
        ≡ with_names outer (known_of layers.old) (map name_of names.entry.items)) }
{
    'names: for name in names {
        layers.mention(outer, name.parts)?;
    }
    Ok(())
}

/// Mentions the layers of an at-rule in this layer, if it is a list of them.
fn mention_rule<'a>(
    alloc: Global,
    layers: &mut Layers<'a>,
    outer: usize,
    rule: &AtRule<'a>,
) -> Result<(), SheetError>
    ensures refused { IfErr result (λ error. error ≡ TooManyDeclarations → ⊥) }
    ensures many { IfErr result (λ error. error ≡ TooManyLayers
        → AreMany (with_rule outer (known_of layers.old) (at_rule_of rule.now))) }
    ensures few { OnOk result (AreFew (known_of layers.old) → AreFew (known_of layers.new)) }
    ensures known { IfOk result (λ _. known_of layers.new
        ≡ with_rule outer (known_of layers.old) (at_rule_of rule.now)) }
{
    if !is_layer(rule.name) || rule.block.is_some() {
        return Ok(());
    }
    match read_layer_names(alloc, rule.prelude.text)? {
        Some(names) => mention_names(layers, outer, names),
        None => Ok(()),
    }
}

/// Mentions the layers of an item in this layer, if it applies.
fn mention_item<'a>(
    alloc: Global,
    layers: &mut Layers<'a>,
    outer: usize,
    item: &Item<'a>,
    applies: bool,
) -> Result<(), SheetError>
    ensures refused { IfErr result (λ error. error ≡ TooManyDeclarations → ⊥) }
    ensures many { IfErr result (λ error. error ≡ TooManyLayers
        → AreMany (if_applies applies outer (known_of layers.old) (item_of item.now))) }
    ensures few { OnOk result (AreFew (known_of layers.old) → AreFew (known_of layers.new)) }
    ensures known { IfOk result (λ _. known_of layers.new
        ≡ if_applies applies outer (known_of layers.old) (item_of item.now)) }
{
    match item {
        Item::AtRule(rule) if applies => mention_rule(alloc, layers, outer, rule),
        _ => Ok(()),
    }
}

impl<'a> OpenLayers<'a> {
    /// Returns the outermost layers alone.
    pub(crate) fn new(alloc: Global) -> Result<OpenLayers<'a>, AllocError>
        ensures known { IfOk result (λ layers. known_in layers ≡ outermost_layers) }
        ensures numbers { IfOk result (λ layers. numbers_in layers ≡ []) }
    {
        match Layers::new(alloc) {
            Ok(layers) => Ok(OpenLayers {
                layers,
                numbers: Vec::new(alloc),
                outermost: 0,
            }),
            Err(error) => Err(error),
        }
    }

    /// Leaves all that is open, and begins a sheet that is in the layer of this number.
    pub(crate) fn begin_sheet(&mut self, outermost: usize)
        ensures known { known_in self.new ≡ known_in self.old }
        ensures numbers { numbers_in self.new ≡ [] }
        ensures outermost { outermost_in self.new ≡ outermost }
    {
        self.numbers.clear();
        self.outermost = outermost;
    }

    /// Returns the number of the layer that is innermost.
    pub(crate) fn innermost(&self) -> usize
        ensures { result ≡ innermost_of (outermost_in self.now) (numbers_in self.now) }
    {
        match self.numbers.last() {
            Some(number) => *number,
            None => self.outermost,
        }
    }

    /// Enters a rule, and mentions the layer that it is, if it is one and layers count there.
    fn enter(&mut self, alloc: Global, rule: &OpenRule<'a>, counts: bool) -> Result<(), SheetError>
        ensures refused { IfErr result (λ error. error ≡ TooManyDeclarations → ⊥) }
        ensures many { IfErr result (λ error. error ≡ TooManyLayers
            → AreMany (with_name (known_in self.old) (innermost_of (outermost_in self.old) (numbers_in self.old))
            (counted_name counts (open_of rule.now)))) }
        ensures few { OnOk result (AreFew (known_in self.old) → AreFew (known_in self.new)) }
        ensures enters { IfOk result (λ _. Enters (outermost_in self.old) (known_in self.old)
            (numbers_in self.old) (counted_name counts (open_of rule.now)) (known_in self.new)
            (numbers_in self.new)) }
        ensures outermost { outermost_in self.new ≡ outermost_in self.old }
    {
        let outer = self.innermost();
        let number = enter_rule(alloc, &mut self.layers, outer, rule, counts)?;
        self.numbers.push(number)?;
        Ok(())
    }

    /// Enters what a part begins, leaves what it ends, and mentions the layers of an item. These rules
    /// are open then, and layers that begin there count or not.
    pub(crate) fn go_through(
        &mut self,
        alloc: Global,
        part: &Part<'a>,
        around: &[OpenRule<'a>],
        applies: bool,
        counts: bool,
    ) -> Result<(), SheetError>
        requires { applies ≡ applies_in_rules (map open_of around.now) }
        ensures refused { IfErr result (λ error. error ≡ TooManyDeclarations → ⊥) }
        ensures many { IfErr result (λ error. error ≡ TooManyLayers
            → GoesOver (outermost_in self.old) (known_in self.old) (numbers_in self.old) counts
            (part_of part.now) (map open_of around.now)) }
        ensures few { OnOk result (AreFew (known_in self.old) → AreFew (known_in self.new)) }
        ensures goes { IfOk result (λ _. Goes (outermost_in self.old) (known_in self.old)
            (numbers_in self.old) counts (part_of part.now) (map open_of around.now) (known_in self.new)
            (numbers_in self.new)) }
        ensures outermost { outermost_in self.new ≡ outermost_in self.old }
    {
        match part {
            Part::States(_) => Ok(()),
            Part::Begins(_) => match around.last() {
                Some(rule) => self.enter(alloc, rule, counts),
                None => Ok(()),
            },
            Part::Ends => {
                self.numbers.pop();
                Ok(())
            }
            Part::Stands(item) => {
                let outer = self.innermost();
                mention_item(alloc, &mut self.layers, outer, item, applies)
            }
        }
    }
}
