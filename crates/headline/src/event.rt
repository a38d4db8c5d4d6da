//! What happens to the stations, one event at a time.

use agree_core::DeskId;
use entry_log::Choice;
use notation::Entry;

/// A desk or a board. Boards are numbered from 1.
#[derive(Clone, Copy)]
pub enum Station {
    Desk(DeskId),
    Board(u8),
}

/// One event of a schedule.
#[derive(Clone, Copy)]
pub enum Event {
    /// The desk's scorer pens an entry.
    Pen(DeskId, Entry),
    /// The station sends what it has to send.
    Tick(Station),
    /// The station is given a message, by its number.
    Give(u32, Station),
    /// The desk's process ends.
    Kill(DeskId),
    /// The desk and its disk lose power; the choice says which image is found then.
    Power(DeskId, Choice),
    /// The desk's n-th call of its disk from now on (a read, a write, a sync) fails.
    FailAt(DeskId, u32),
    /// The desk's process stops in its n-th disk call from now on: that call and all later ones fail until the desk is down.
    StopAt(DeskId, u32),
    /// The desk is opened from its file.
    Open(DeskId),
    /// The board begins empty, like a board that was stopped.
    Wipe(u8),
    /// The desk's file of version 1 is rewritten as version 2.
    Migrate(DeskId),
}

impl Event {
    ghost use Rattle.std.specs.Prelude.{◌≡◌};
    ghost use Rattle.headline.specs.Events.{station_of};

    /// Returns the station that the event is for.
    pub fn station(&self) -> Station
        ensures { result ≡ station_of self.now }
    {
        match *self {
            Event::Tick(station) | Event::Give(_, station) => station,
            Event::Wipe(board) => Station::Board(board),
            Event::Pen(desk, _)
            | Event::Kill(desk)
            | Event::Power(desk, _)
            | Event::FailAt(desk, _)
            | Event::StopAt(desk, _)
            | Event::Open(desk)
            | Event::Migrate(desk) => Station::Desk(desk),
        }
    }
}
