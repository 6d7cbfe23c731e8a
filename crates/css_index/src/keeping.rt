//! Which of the indices that are found are kept.

/// What decides which of the indices that a search finds are kept.
pub(crate) trait Keeping {
    ghost use Rattle.std.specs.Prelude.{◌↔◌, ℕ, IsTrue};

    ghost Keeps: { Self → ℕ → Type 0 };

    /// Whether the index is kept.
    fn keeps(&self, index: usize) -> bool
        ensures { IsTrue result ↔ Keeps self.now index };
}

/// Keeps each index.
#[derive(Clone, Copy)]
pub(crate) struct Everything;

impl Keeping for Everything {
    ghost use Rattle.css_index.specs.internal.Added.{KeepsEach};

    ghost Keeps = { λ _ index. KeepsEach index };

    #[inline(always)]
    fn keeps(&self, _index: usize) -> bool {
        true
    }
}
