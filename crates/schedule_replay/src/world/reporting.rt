//! What a world reports: the scores that it shows, and the agreed list.

ghost use Rattle.std.specs.Prelude.{◌≡◌, ◌≤◌, IfOk, OnOk};
ghost use Rattle.agree_core.specs.Books.{IsAgreedByFiles};
ghost use Rattle.schedule_replay.specs.CodeWorlds.{HasConfiguration};
ghost use Rattle.schedule_replay.specs.inner.ShownScores.{HaveScores, IsKept, IsNotable, Notes};
ghost use Rattle.schedule_replay.specs.inner.VotesFiles.{FilesRead};
ghost use Rattle.headline.specs.Configurations.{Configuration, all_votes};
ghost use Rattle.entry_log.specs.declared.mem_disk.MemDisk.{MemDisk};

use crate::shown_scores::ShownScores;
use crate::world::World;
use corrections::BookOf;
use headline::Station;
use notation::Entry;
use std::alloc::AllocError;
use world_desks::agreed_list;

impl World {
    /// Notes the score of each station that isn't down.
    pub fn note(&self, shown: &mut ShownScores) -> Result<(), AllocError>
        requires kept { IsKept shown.old }
        requires notable { (w : Configuration MemDisk) × IsNotable self.now shown.old.seen.items w }
        ensures noted { OnOk result (Notes self.now shown.old.seen.items shown.new.seen.items) }
        ensures scored { OnOk result (HaveScores self.now) }
        ensures kept { IsKept shown.new }
    {
        self.a.note(shown)?;
        self.b.note(shown)?;
        for (number, board) in self.boards.iter().enumerate() {
            let station = Station::Board(number as u8 + 1);
            shown.note(station, board.book().len(), board.shown())?;
        }
        Ok(())
    }

    /// Returns the agreed list of all votes, as both files show it.
    pub fn agreed(self) -> Result<Vec<Entry>, AllocError>
        requires read { (w : Configuration MemDisk) × HasConfiguration self w
            × FilesRead self.game self.innings_a_side w }
        ensures { IfOk result (λ list. (w : Configuration MemDisk) → HasConfiguration self w
            → FilesRead self.game self.innings_a_side w
            → IsAgreedByFiles (all_votes w).a (all_votes w).b list.items) }
    {
        let alloc = self.alloc;
        let (a, a_count) = self.a.into_votes()?;
        let (b, b_count) = self.b.into_votes()?;
        agreed_list(alloc, &a, a_count, &b, b_count)
    }
}
