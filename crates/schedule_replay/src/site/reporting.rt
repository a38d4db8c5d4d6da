//! What a site reports: the score that it shows, and the votes of its file.

ghost use Rattle.std.specs.Prelude.{◌≡◌, ◌≤◌, ℕ, Contains, IfOk, OnOk, length};
ghost use Rattle.entry_log.specs.declared.mem_disk.MemDisk.{MemDisk};
ghost use Rattle.agree_core.specs.Ballots.{oldest};
ghost use Rattle.match_laws.specs.declared.standing.Standing.{Standing};
ghost use Rattle.headline.specs.declared.event.Station.TheVariants as stations;
ghost use Rattle.schedule_replay.specs.inner.ShownScores.{Adds, DeskHasScore, DeskShows, IsKept};
ghost use Rattle.schedule_replay.specs.inner.Sites.{HasNode, IsWhole};
ghost use Rattle.schedule_replay.specs.inner.VotesFiles.{SiteReads};
ghost use Rattle.world_desks.specs.VotesFiles.{read_votes};
ghost use Rattle.headline.specs.Configurations.{Node, process_votes};

use crate::shown_scores::ShownScores;
use crate::site::Site;
use headline::Station;
use std::alloc::AllocError;
use world_desks::VotesFile;

impl Site {
    /// Notes the score of the desk's book, if the desk runs.
    pub fn note(&self, shown: &mut ShownScores) -> Result<(), AllocError>
        requires kept { IsKept shown.old }
        requires one { (n : ℕ) (score other : Standing) →
            Contains shown.old.seen.items (stations.Desk self.now.name, n, other) →
            DeskShows self.now.desk n score → other ≡ score }
        ensures noted { OnOk result (Adds (stations.Desk self.now.name) (DeskShows self.now.desk)
            shown.old.seen.items shown.new.seen.items) }
        ensures scored { OnOk result (DeskHasScore self.now.desk) }
        ensures kept { IsKept shown.new }
    {
        match &self.desk {
            Some(desk) => shown.note(Station::Desk(self.name), desk.book_len(), desk.shown()),
            None => Ok(()),
        }
    }

    /// Ends the desk's process and reads its file, which is sound: returns all votes of the file, and how many of them are the
    /// desk's.
    pub fn into_votes(mut self) -> Result<(VotesFile, u32), AllocError>
        requires whole { IsWhole self }
        requires read { (x : Node MemDisk) × HasNode self x
            × SiteReads self.game self.innings_a_side self.name x }
        ensures counted { IfOk result (λ found. found.1 ≤ length (read_votes found.0)) }
        ensures votes { IfOk result (λ found. (x : Node MemDisk) → HasNode self x →
            SiteReads self.game self.innings_a_side self.name x →
            oldest found.1 (read_votes found.0) ≡ process_votes x.process) }
    {
        self.put_down();
        let disk = self.disk.take().unwrap();
        let file = VotesFile::open(self.alloc, self.version, disk, self.name, self.game)?;
        Ok((file, self.votes))
    }
}
