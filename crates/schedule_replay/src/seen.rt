//! The outcomes of an event, and why a world refuses one.

ghost use Rattle.std.specs.Prelude.{◌≡◌};

use agree_core::{Heard, Settled};
use std::alloc::AllocError;
use wire::WireFault;

/// Why a desk refuses what it is told.
#[derive(Clone, Copy, PartialEq, Eq)]
pub enum Cause {
    /// The desk doesn't pen the entry; or its disk failed while it answered an ask.
    Desk(desk::Refusal),
    /// The desk isn't opened.
    Open(desk::OpenRefusal),
    /// The desk's file isn't migrated.
    Migrate(vote_store::Refusal),
}

/// The outcome of an event.
#[derive(Clone, Copy, PartialEq, Eq)]
pub enum Seen {
    Penned(Settled),
    /// The desk refuses.
    Refused(Cause),
    /// A stop took the desk down.
    Stopped,
    /// How many messages were handed out.
    Ticked(u32),
    Heard(Heard),
    /// An ask was given; whether a reply was handed out.
    Asked(bool),
    /// The given bytes are no message of the match.
    Bad(WireFault),
    /// Both desks' votes are equal, but the board's book refuses their entry.
    BadVotes,
    /// The desk had failed before.
    Failed,
    /// The desk is opened; how many entries its book has.
    Opened(u32),
    /// The desk's file is migrated; how many votes it has.
    Migrated(u32),
    Done,
}

/// Why a world refuses an event. The world stays as it was; after `NoMemory` of an `Open` or a `Migrate` the desk's disk may be
/// synced.
#[derive(Clone, Copy, PartialEq, Eq)]
pub enum WorldRefusal {
    /// 80: no message of this number was handed out yet.
    NoMessage,
    /// 81: there is no such board.
    NoStation,
    /// 82: no number is left for the messages that might be handed out.
    WorldFull,
    /// 83: the desk is down.
    Down,
    /// 84: the desk isn't down.
    Up,
    /// An allocation failed.
    NoMemory,
}

impl From<AllocError> for WorldRefusal {
    ghost use Rattle.schedule_replay.specs.declared.seen.WorldRefusal.TheVariants.{NoMemory};

    ghost from_gives = { λ _ why. why ≡ NoMemory };

    fn from(_why: AllocError) -> Self {
        WorldRefusal::NoMemory
    }
}
