//! What a viewer was told, and what a stream has taken. Only clauses read both: they take no memory at run time, and have no
//! last value.

ghost use Rattle.std.specs.Prelude.{◌≡◌, ◌++◌, drop, take};

use crate::asks::Asked;
use crate::page_texts::PageTexts;
use http1::Server;
use std::snapshot::Snapshot;

/// All that a viewer was told, in order: the answer to its request, then states and beats.
#[derive(Drop)]
pub enum SaidLog {
    Empty,
    Answered(Snapshot<SaidLog>, Snapshot<Server>, Snapshot<Asked>, Snapshot<PageTexts>),
    Told(Snapshot<SaidLog>, Snapshot<Server>, Snapshot<bool>, Snapshot<PageTexts>),
    Beat(Snapshot<SaidLog>, Snapshot<Server>),
}

impl SaidLog {
    ghost use Rattle.viewers.specs.Replies.{reply_text, told_text, beat_text};
    ghost use Rattle.viewers.specs.Said.{said_in};

    /// Adds the answer to a request.
    pub fn answered(&self, server: &Server, asked: &Asked, shown: &PageTexts) -> SaidLog
        ensures { said_in result ≡ said_in self.now ++ reply_text server.now asked.now shown.now }
    {
        SaidLog::Answered(
            Snapshot::of(self),
            Snapshot::of(server),
            Snapshot::of(asked),
            Snapshot::of(shown),
        )
    }

    /// Adds a state, told to a signed or an unsigned viewer.
    pub fn told(&self, server: &Server, is_signed: bool, shown: &PageTexts) -> SaidLog
        ensures { said_in result ≡ said_in self.now ++ told_text server.now is_signed shown.now }
    {
        SaidLog::Told(
            Snapshot::of(self),
            Snapshot::of(server),
            Snapshot::of(&is_signed),
            Snapshot::of(shown),
        )
    }

    /// Adds a beat.
    pub fn beat(&self, server: &Server) -> SaidLog
        ensures { said_in result ≡ said_in self.now ++ beat_text server.now }
    {
        SaidLog::Beat(Snapshot::of(self), Snapshot::of(server))
    }
}

/// The bytes that a stream has taken, in order: each time a number of bytes of a buffer, from an index on.
#[derive(Drop)]
pub enum TakenLog {
    Empty,
    More(Snapshot<TakenLog>, Snapshot<Vec<u8>>, Snapshot<usize>, Snapshot<usize>),
}

impl TakenLog {
    ghost use Rattle.viewers.specs.Said.{bytes_in};

    /// Adds this many bytes, from an index on.
    pub fn more(&self, bytes: &Vec<u8>, from: usize, count: usize) -> TakenLog
        ensures { bytes_in result ≡ bytes_in self.now ++ take count (drop from bytes.now.items) }
    {
        TakenLog::More(
            Snapshot::of(self),
            Snapshot::of(bytes),
            Snapshot::of(&from),
            Snapshot::of(&count),
        )
    }
}
