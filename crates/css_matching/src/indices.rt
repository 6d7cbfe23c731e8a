//! Lists of indices.
ghost use Rattle.std.specs.Prelude.{ℕ, ◌↔◌};
ghost use Rattle.std.specs.List.{Contains};
ghost use Rattle.std.specs.List.Sorted.{IsStrictlyIncreasing};

/// Puts the indices in order, each once.
pub fn sort_once(indices: &mut Vec<usize>)
    ensures ascending { IsStrictlyIncreasing indices.new.items }
    ensures same { (index : ℕ) → Contains indices.new.items index
        ↔ Contains indices.old.items index }
{
    indices.sort_unstable();
    indices.dedup();
}
