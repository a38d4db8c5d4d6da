//! A desk that a world lends.

ghost use Rattle.std.specs.Prelude.{◌≡◌};
ghost use Rattle.corrections.specs.Legal.{IsScoreOf};
ghost use Rattle.world_desks.specs.WorldDesks.{book_of, innings_of, state_of};

use crate::versions::whichever;
use corrections::CheckedBook;
use desk::Desk;
use entry_log::{MemDisk, OldSlots, Slots};
use match_laws::Match;

/// A running desk of a world, with a file of version 1 or 2.
#[derive(Clone, Copy)]
pub enum AnyDesk<'a> {
    Old(&'a Desk<OldSlots<MemDisk>, CheckedBook>),
    New(&'a Desk<Slots<MemDisk>, CheckedBook>),
}

impl<'a> AnyDesk<'a> {
    ghost use Rattle.world_desks.specs.Lent.{lent_desk};

    /// Returns the desk's book: its agreed entries.
    pub fn book(self) -> &'a CheckedBook
        ensures { result.now ≡ book_of (lent_desk self.entry) }
    {
        whichever!(AnyDesk, self, desk => desk.book())
    }

    /// Returns the score of the desk's book: the Laws' score of the book's clean list.
    pub fn shown(self) -> &'a Match
        ensures { IsScoreOf result.now (innings_of (lent_desk self.entry))
            (state_of (lent_desk self.entry)).book }
    {
        whichever!(AnyDesk, self, desk => desk.shown())
    }
}
