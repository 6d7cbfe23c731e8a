//! Laws: contracts of functions that do nothing.
ghost use Rattle.std.specs.Prelude.{ℕ, Bool, List};
ghost use Rattle.css_clean.specs.Policies.{PolicyText};
ghost use Rattle.css_clean.specs.Cleaning.{IsCleanedOnce, LeavesAlone};

/// A style attribute that is cleaned again with the same policy is unchanged.
pub fn cleaned_again_is_unchanged()
    ensures { (policy : PolicyText) (text : List ℕ) → IsCleanedOnce policy text }
{}

/// What follows a cleaned style attribute, in a block or not, is read as it is alone.
pub fn what_follows_is_read_alone()
    ensures { (policy : PolicyText) (text : List ℕ) (in_block : Bool) (more : List ℕ)
        → LeavesAlone policy text in_block more }
{}
