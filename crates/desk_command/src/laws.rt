//! Laws on a desk's whole life. These functions do nothing: they stand for the laws that they ensure.

ghost use Rattle.std.specs.Prelude.{List};
ghost use Rattle.agree_core.specs.declared.messages.DeskId.{DeskId as ADesk};
ghost use Rattle.desk_command.specs.Lives.{IsOf, desk_of, posted_in};
ghost use Rattle.desk_command.specs.Traces.{WasEntered};
ghost use Rattle.desk_command.specs.Typed.{Process, VotesWereTyped};
ghost use Rattle.posts.specs.PostedLogs.{WerePosted};

use crate::life::Life;

/// Each vote of a desk's processes, cast or refused, is for a line that its scorer typed in them and didn't take back. No line
/// is used twice, in one process or in two.
pub fn every_vote_of_a_life_was_typed()
    ensures { (desk : ADesk) (life : List (Process desk)) → VotesWereTyped life }
{}

/// Each `Life` is one of these processes.
pub fn a_life_is_a_process(_life: &Life<'_>)
    ensures { ∥ ((process : Process (desk_of _life.now)) × IsOf _life.now process) ∥₁ }
{}

/// Each line of a life that was typed in the desk's page was posted by a holder of the secret, for the desk's position, with a
/// nonce that was good: its tag is made from these and the line.
pub fn what_a_page_typed_was_posted(_life: &Life<'_>)
    ensures lines { WasEntered (_life.now.typed).value (_life.now.entered).value (posted_in _life.now) }
    ensures posted { WerePosted (posted_in _life.now) }
{}
