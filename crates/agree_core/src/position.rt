//! Places of a book and the rounds of voting on them.

ghost use Rattle.std.specs.Prelude.{◌≡◌, IsTrue, ◌↔◌};
ghost use Rattle.agree_core.specs.Positions.{Before, InRange, IsFull, next_position};

use notation::PLACES;

/// How many rounds of voting a place has.
pub const ROUNDS: u32 = 256;

/// A place of the book and a round of voting on it, in order by place and then round.
#[derive(Clone, Copy, Debug, PartialEq, Eq, PartialOrd, Ord)]
pub struct Position {
    pub place: u32,
    pub round: u32,
}

impl Position {
    /// Round 0 of place 0.
    pub const FIRST: Position = Position { place: 0, round: 0 };

    /// Whether all places, or all rounds of this place, are used up. No vote is cast or asked for at such
    /// a position.
    pub fn is_full(self) -> bool
        ensures { IsTrue result ↔ IsFull self }
    {
        self.place >= PLACES || self.round >= ROUNDS
    }

    /// Whether this position comes before the other.
    pub fn is_before(self, other: Position) -> bool
        ensures { IsTrue result ↔ Before self other }
    {
        self < other
    }

    // Returns the position that opens once both desks have voted here.
    pub(crate) fn next(self, agreed: bool) -> Position
        requires { InRange self }
        ensures { result ≡ next_position agreed self }
    {
        if agreed {
            Position {
                place: self.place + 1,
                round: 0,
            }
        } else {
            Position {
                place: self.place,
                round: self.round + 1,
            }
        }
    }
}
