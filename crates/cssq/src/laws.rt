//! Laws of equality, each the contract of a function that does nothing.
ghost use Rattle.std.specs.Prelude.{◌≡◌, ◌↔◌, IsTrue};
ghost use Rattle.cssq.specs.Command.{request};

use crate::command::Command;
use crate::runs::RunFault;
use cssq_tree::tree::TreeFault;

/// Two faults are equal exactly if they are of one kind at one line, and two commands if they
/// are the same request with words of the same bytes.
pub fn equality_laws()
    ensures tree_faults { (a b : TreeFault) → IsTrue (⟦<TreeFault as PartialEq>⟧.eq a b) ↔ (a ≡ b) }
    ensures run_faults { (a b : RunFault) → IsTrue (⟦<RunFault as PartialEq>⟧.eq a b) ↔ (a ≡ b) }
    ensures commands { (a b : Command) → IsTrue (⟦<Command<'static> as PartialEq>⟧.eq a b)
        ↔ (request a ≡ request b) }
{}
