//! Layers that no list of a sheet names.

use crate::kinds::Kind;
use crate::linter::Linter;
use std::alloc::AllocError;

/// A layer with rules.
#[derive(Clone, Copy)]
pub(crate) struct Layer<'t> {
    /// Its name, of the outermost layer that it is in.
    name: &'t str,
    /// The offset of the first byte of its rule.
    start: usize,
    /// The offset after its head.
    end: usize,
}

/// Returns the name of the outermost layer of a name with dots.
fn outermost(name: &str) -> &str {
    let (outer, _) = name.split_once('.').unwrap_or((name, ""));
    outer.trim()
}

/// Whether names are written with comments or escapes, of which nothing is said.
fn is_hidden(names: &str) -> bool {
    names.contains('/') || names.contains('\\')
}

impl<'t> Linter<'t> {
    /// Remembers the names of a list of layers.
    pub(crate) fn list_layers(&mut self, names: &'t str) -> Result<(), AllocError> {
        if is_hidden(names) {
            self.has_hidden_layers = true;
            return Ok(());
        }
        self.has_order = self.has_order || names.contains(',');
        let mut rest = names;
        for _ in 0..names.len() {
            if rest.is_empty() {
                break;
            }
            let (one, more) = rest.split_once(',').unwrap_or((rest, ""));
            self.listed_layers
                .insert(outermost(one).to_string(self.alloc)?, 0)?;
            rest = more;
        }
        Ok(())
    }

    /// Remembers a layer with rules, which is in no other one. Its rule begins at an offset, and the head of it
    /// ends at the other one.
    pub(crate) fn fill_layer(
        &mut self,
        name: &'t str,
        start: usize,
        end: usize,
    ) -> Result<(), AllocError> {
        if !name.is_empty() && !is_hidden(name) {
            self.layers.push(Layer { name, start, end })?;
        }
        Ok(())
    }

    /// Reports the layers with rules that no list names, where one says the order of several.
    pub(crate) fn check_layers(&mut self) -> Result<(), AllocError> {
        if !self.has_order || self.has_hidden_layers {
            return Ok(());
        }
        for index in 0..self.layers.len() {
            let Some(layer) = self.layers.get(index).copied() else {
                break;
            };
            if self.listed_layers.get(outermost(layer.name)).is_none() {
                self.report(Kind::UnknownLayer, layer.start, layer.end)?;
            }
        }
        Ok(())
    }
}
