//! What a selector needs above an element.
ghost use Rattle.std.specs.Prelude.{◌≡◌};
ghost use Rattle.std.specs.List.{slice_get};

/// The numbers of the keys that a selector needs above an element.
#[derive(Drop)]
pub(crate) struct Need {
    /// The first of ancestors, if there is one.
    pub(crate) first: Option<usize>,
    /// Those of ancestors.
    pub(crate) ancestors: Vec<usize>,
    /// Those of the parent.
    pub(crate) parent: Vec<usize>,
    ghost begins: { first ≡ slice_get ancestors.items 0 },
}
