//! What a board handed over to be shown: only contracts read it.

ghost use Rattle.std.specs.Prelude.{◌≡◌, ◌∷◌, ◌++◌, []};

use board::Trouble;
use cards::MatchSheet;
use corrections::BookOf;
use std::snapshot::Snapshot;

/// Every book handed over, in order, each with its sheet and what kept its board from going on.
#[derive(Drop)]
pub enum SightLog<B> {
    Empty,
    Handed(Snapshot<SightLog<B>>, Snapshot<MatchSheet>, Snapshot<B>, Snapshot<Option<Trouble>>),
}

impl<B: BookOf> SightLog<B> {
    ghost use Rattle.live.specs.Sights.{sight_of};
    ghost use Rattle.live.specs.SightLogs.{sights_of};

    /// Returns this log with a book added at its end, with its sheet and what keeps its board from going on.
    pub fn handed(&self, sheet: &MatchSheet, book: &B, trouble: Option<Trouble>) -> SightLog<B>
        ensures { sights_of B.content B.innings_a_side result ≡
            sights_of B.content B.innings_a_side self.now
            ++ sight_of sheet.now (B.innings_a_side book.now) (B.content book.now) trouble ∷ [] }
    {
        SightLog::Handed(
            Snapshot::of(self),
            Snapshot::of(sheet),
            Snapshot::of(book),
            Snapshot::of(&trouble),
        )
    }
}
