//! What stations say to each other.

ghost use Rattle.std.specs.Prelude.{◌≡◌};
ghost use Rattle.agree_core.specs.Positions.{position_of};
ghost use Rattle.agree_core.specs.Ballots.{desk_number};

use crate::position::Position;
use notation::Entry;

/// One of the two desks.
#[derive(Clone, Copy, Debug, PartialEq, Eq)]
pub enum DeskId {
    A,
    B,
}

impl DeskId {
    /// Returns the desk's number in files and in datagrams: 1 for A, 2 for B.
    pub fn number(self) -> u8
        ensures { result ≡ desk_number self }
    {
        match self {
            DeskId::A => 1,
            DeskId::B => 2,
        }
    }
}

/// A desk's vote: what it wrote for a place, in a round of that place. `place` is below 8,192, `round`
/// below 256.
#[derive(Clone, Copy, Debug, PartialEq, Eq)]
pub struct Vote {
    pub desk: DeskId,
    pub place: u32,
    pub round: u32,
    pub entry: Entry,
}

impl Vote {
    /// Returns the position that the vote is for.
    pub fn position(&self) -> Position
        ensures { result ≡ position_of self.now }
    {
        Position {
            place: self.place,
            round: self.round,
        }
    }
}

/// Who asks for votes. A board asks, and never votes.
#[derive(Clone, Copy)]
pub enum Asker {
    A,
    B,
    Board,
}

/// A station's ask for the desks' votes at its position.
#[derive(Clone, Copy)]
pub struct Ask {
    pub from: Asker,
    pub place: u32,
    pub round: u32,
}

/// Every message that stations send.
#[derive(Clone, Copy)]
pub enum Message {
    Vote(Vote),
    Ask(Ask),
}
