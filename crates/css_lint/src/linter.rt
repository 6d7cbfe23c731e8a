//! What is known while a sheet is looked through, and what was found.

use crate::findings::{Finding, Meant};
use crate::kinds::Kind;
use crate::known_values::ValueTable;
use crate::layers::Layer;
use crate::met::Met;
use crate::shorthands::Shorthands;
use crate::values::Reference;
use crate::vocabulary::Vocabulary;
use std::alloc::{AllocError, Global};
use std::collections::BTreeMap;

/// The declaration of a property that was last in a block.
#[derive(Clone, Copy)]
pub(crate) struct Slot {
    /// The number of the block, or 0.
    pub(crate) block: usize,
    /// The number of the declaration in the block.
    pub(crate) index: usize,
    /// How many declarations are before it, without those with a prefix.
    pub(crate) place: usize,
}

/// What looks through a sheet.
#[derive(Drop)]
pub(crate) struct Linter<'t> {
    /// The allocator.
    pub(crate) alloc: Global,
    /// Whether what is unsupported is reported.
    pub(crate) shows_all: bool,
    /// The names that are known.
    pub(crate) words: Vocabulary,
    /// The shorthands.
    pub(crate) shorthands: Shorthands,
    /// The values of properties.
    pub(crate) table: ValueTable,
    /// The numbers of properties that are not known.
    pub(crate) numbers: BTreeMap<String, usize>,
    /// How many properties have a number.
    pub(crate) numbered: usize,
    /// For each number of a property its last declaration.
    pub(crate) slots: Vec<Slot>,
    /// The number of the block that is looked through.
    pub(crate) block: usize,
    /// Whether a namespace is the default one.
    pub(crate) has_namespace: bool,
    /// The layers that lists name.
    pub(crate) listed_layers: Met,
    /// Whether a list has several, which says their order.
    pub(crate) has_order: bool,
    /// Whether a list is written in a way of which nothing is said.
    pub(crate) has_hidden_layers: bool,
    /// The layers with rules that are in no other one.
    pub(crate) layers: Vec<Layer<'t>>,
    /// The custom properties that values name.
    pub(crate) references: Vec<Reference<'t>>,
    /// What was found.
    pub(crate) found: Vec<Finding>,
}

impl<'t> Linter<'t> {
    /// Returns one that has found nothing.
    pub(crate) fn new(alloc: Global, shows_all: bool) -> Result<Linter<'t>, AllocError> {
        let words = Vocabulary::new(alloc)?;
        let shorthands = Shorthands::new(alloc, &words.properties)?;
        let table = ValueTable::new(alloc, &words.properties)?;
        let numbered = words.properties.len();
        Ok(Linter {
            alloc,
            shows_all,
            words,
            shorthands,
            table,
            numbers: BTreeMap::new(alloc),
            numbered,
            slots: Vec::new(alloc),
            block: 0,
            has_namespace: false,
            listed_layers: BTreeMap::new(alloc),
            has_order: false,
            has_hidden_layers: false,
            layers: Vec::new(alloc),
            references: Vec::new(alloc),
            found: Vec::new(alloc),
        })
    }

    /// Reports something.
    pub(crate) fn report(
        &mut self,
        kind: Kind,
        start: usize,
        end: usize,
    ) -> Result<(), AllocError> {
        self.found.push(Finding::new(kind, start, end))?;
        Ok(())
    }

    /// Reports something that the library does not support, if that is asked for.
    pub(crate) fn report_all(
        &mut self,
        kind: Kind,
        start: usize,
        end: usize,
    ) -> Result<(), AllocError> {
        if self.shows_all {
            self.report(kind, start, end)?;
        }
        Ok(())
    }

    /// Reports something with what corrects it.
    pub(crate) fn report_corrected(
        &mut self,
        kind: Kind,
        start: usize,
        end: usize,
        sign: &'static str,
        name: &'static str,
    ) -> Result<(), AllocError> {
        let text = Meant { sign, name };
        self.found.push(Finding::corrected(kind, start, end, text))?;
        Ok(())
    }

    /// Returns the number of the property with this name, which is in lower case unless it is a custom
    /// property.
    pub(crate) fn number(&mut self, name: &str) -> Result<usize, AllocError> {
        if let Some(number) = self.words.properties.find(name) {
            return Ok(number);
        }
        if let Some(number) = self.numbers.get(name).copied() {
            return Ok(number);
        }
        let number = self.numbered;
        let key = name.to_string(self.alloc)?;
        self.numbers.insert(key, number)?;
        self.numbered = number.saturating_add(1);
        Ok(number)
    }
}
