//! What was done to a file, as far as a power loss may undo it, and how many calls failed. Only contract clauses read
//! both: they take no memory, and never overflow.

ghost use Rattle.std.specs.Prelude.{◌≡◌, ◌+◌};
ghost use Rattle.entry_log.specs.Disk.{cut_to, only, written};

use std::snapshot::Snapshot;

/// The bytes that the last sync left, and each write and cut since.
#[derive(Drop)]
pub enum History {
    Synced(Snapshot<Vec<u8>>),
    Written(Snapshot<History>, Snapshot<usize>, Snapshot<usize>),
    Cut(Snapshot<History>, Snapshot<usize>),
}

impl History {
    ghost use Rattle.machine_files.specs.History.{left_of};

    /// Returns the history of a file on which a sync has left these bytes.
    pub fn synced(bytes: &Vec<u8>) -> History
        ensures { left_of result ≡ only bytes.now.items }
    {
        History::Synced(Snapshot::of(bytes))
    }

    /// Returns this history with a write of `count` bytes, whether it failed or not.
    pub fn written(&self, at: usize, count: usize) -> History
        ensures { left_of result ≡ written at count (left_of self.now) }
    {
        History::Written(Snapshot::of(self), Snapshot::of(&at), Snapshot::of(&count))
    }

    /// Returns this history with a cut to a length, whether it failed or not.
    pub fn cut(&self, len: usize) -> History
        ensures { left_of result ≡ cut_to len (left_of self.now) }
    {
        History::Cut(Snapshot::of(self), Snapshot::of(&len))
    }
}

/// The number of calls that have failed.
#[derive(Drop)]
pub enum Failures {
    Zero,
    More(Snapshot<Failures>),
}

impl Failures {
    ghost use Rattle.machine_files.specs.History.{count_of};

    /// Returns the number plus one.
    pub fn one_more(&self) -> Failures
        ensures { count_of result ≡ count_of self.now + 1 }
    {
        Failures::More(Snapshot::of(self))
    }
}
