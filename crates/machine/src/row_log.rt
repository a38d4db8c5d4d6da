//! What became of the rows that were written to a screen, and what a stream has taken. Only clauses read these logs: they take
//! no memory, and have no last value.

ghost use Rattle.std.specs.Prelude.{◌≡◌, ◌++◌, ◌&&◌, if◌then◌else◌, false, true, drop, map, take};

use std::snapshot::Snapshot;

/// The rows that were written to a screen, in order, each time as a count of bytes at the front of a buffer.
#[derive(Drop)]
pub enum RowLog {
    Empty,
    Shown(Snapshot<RowLog>, Snapshot<Vec<u8>>, Snapshot<usize>),
    LeftOut(Snapshot<RowLog>, Snapshot<Vec<u8>>, Snapshot<usize>),
}

impl RowLog {
    ghost use Rattle.machine.specs.Rows.{are_whole, ends_row, lacks_last, plain, points, shown_in, written_in};

    /// Returns this log with rows added that are shown.
    pub fn shown(&self, bytes: &Vec<u8>, count: usize) -> RowLog
        ensures written { written_in result ≡ written_in self.now ++ take count bytes.now.items }
        ensures shown { shown_in result ≡ shown_in self.now ++ map plain (take count bytes.now.items) }
        ensures last { lacks_last result ≡ false }
        ensures whole { are_whole result ≡ (are_whole self.now && ends_row (take count bytes.now.items)) }
    {
        RowLog::Shown(
            Snapshot::of(self),
            Snapshot::of(bytes),
            Snapshot::of(&count),
        )
    }

    /// Returns this log with rows added that are left out.
    pub fn left_out(&self, bytes: &Vec<u8>, count: usize) -> RowLog
        ensures written { written_in result ≡ written_in self.now ++ take count bytes.now.items }
        ensures shown { shown_in result ≡ (if lacks_last self.now then shown_in self.now else shown_in self.now ++ points) }
        ensures last { lacks_last result ≡ true }
        ensures whole { are_whole result ≡ (are_whole self.now && ends_row (take count bytes.now.items)) }
    {
        RowLog::LeftOut(
            Snapshot::of(self),
            Snapshot::of(bytes),
            Snapshot::of(&count),
        )
    }
}

/// The bytes that a stream has taken, in order, each time as a count of bytes of a buffer, from an index on.
#[derive(Drop)]
pub enum TakenLog {
    Empty,
    More(Snapshot<TakenLog>, Snapshot<Vec<u8>>, Snapshot<usize>, Snapshot<usize>),
}

impl TakenLog {
    ghost use Rattle.machine.specs.Rows.{bytes_in};

    /// Returns this log with `count` bytes added, from the index `from` on.
    pub fn more(&self, bytes: &Vec<u8>, from: usize, count: usize) -> TakenLog
        ensures { bytes_in result ≡ bytes_in self.now ++ take count (drop from bytes.now.items) }
    {
        TakenLog::More(
            Snapshot::of(self),
            Snapshot::of(bytes),
            Snapshot::of(&from),
            Snapshot::of(&count),
        )
    }
}

/// All that was written to a screen: its rows, and what waits after them.
#[derive(Drop)]
pub struct Written {
    pub rows: Snapshot<RowLog>,
    pub waits: Snapshot<Vec<u8>>,
}
