//! A desk's part in the current round.

ghost use Rattle.std.specs.Prelude.{◌≡◌, Some, None};
ghost use Rattle.agree_core.specs.Positions.{InRange, first, next_place, position_of};
ghost use Rattle.agree_core.specs.Seats.{Casts, Hears, IsForNow, casting, noting, resumed, waiting};

use crate::messages::{DeskId, Vote};
use crate::position::Position;
use notation::Entry;
use std::marker::Model;

/// The state of a round after a vote was cast.
#[derive(Clone, Copy, PartialEq, Eq)]
pub enum Settled {
    /// The other desk's vote isn't there yet.
    Pending,
    /// Both desks voted for this entry: the place has it, and the next place opens.
    Agreed,
    /// The desks voted for different entries: the next round of the place opens.
    Differ,
}

/// The answer to a vote that was heard.
#[derive(Clone, Copy, PartialEq, Eq)]
pub enum Heard {
    /// The vote is the desk's own.
    Mine,
    /// The vote is for an earlier position.
    Old,
    /// The vote is for a later position.
    Ahead,
    /// That desk's vote at this position is already noted, with the same entry.
    Again,
    /// That desk's vote at this position is already noted, with another entry.
    TwoVotes,
    /// The vote is noted, the first at this position.
    Noted,
    /// Both desks voted for this entry: the place has it, and the next place opens.
    Agreed,
    /// The desks voted for different entries: the next round of the place opens.
    Differ,
}

/// A desk's part in the current round: the position, its own vote there and the other desk's.
#[derive(Clone, Copy)]
pub struct Seat {
    desk: DeskId,
    position: Position,
    mine: Option<Entry>,
    theirs: Option<Entry>,
}

impl Model for Seat {
    ghost use Rattle.agree_core.specs.Seats.{SeatState};

    ghost Value = { SeatState };

    ghost view = { λ s. record { desk = s.desk; position = s.position; mine = s.mine; theirs = s.theirs } };

    ghost inverse = { λ s. record { desk = s.desk; position = s.position; mine = s.mine; theirs = s.theirs } };
}

impl Seat {
    /// Returns a desk at the first position of an empty book.
    pub fn fresh(desk: DeskId) -> Seat
        ensures { result ≡ waiting desk first }
    {
        Seat::waiting(desk, Position::FIRST)
    }

    /// Returns a desk that has cast this vote, its last, and has heard nothing at its position since.
    pub fn resume(vote: Vote) -> Seat
        ensures { result ≡ resumed vote }
    {
        Seat {
            mine: Some(vote.entry),
            ..Seat::waiting(vote.desk, vote.position())
        }
    }

    /// Casts the desk's vote at this position: `Pending` if the other desk's vote isn't there yet. A desk
    /// votes once at a position, and never at a full one (`Position::is_full`).
    #[inline(always)]
    pub fn cast(&mut self, entry: Entry) -> Settled
        requires not_cast { self.old.mine ≡ None }
        requires not_full { InRange self.old.position }
        ensures step { Casts self.old entry result self.new }

        // The two cases in which the caller knows the answer.
        ensures alone { self.old.theirs ≡ None
            → (result ≡ Settled.Pending) × (self.new ≡ casting self.old entry) }
        ensures both { self.old.theirs ≡ Some entry
            → (result ≡ Settled.Agreed)
            × (self.new ≡ waiting self.old.desk (next_place self.old.position)) }
    {
        match &self.theirs {
            None => {
                self.mine = Some(entry);
                Settled::Pending
            }
            Some(theirs) => {
                let agreed = entry.is_same(theirs);
                *self = Seat::waiting(self.desk, self.position.next(agreed));
                if agreed {
                    Settled::Agreed
                } else {
                    Settled::Differ
                }
            }
        }
    }

    /// Hears a vote for a position that isn't full. Returns the first answer that holds, in the order of
    /// `Heard`. Only `Noted`, `Agreed` and `Differ` change the seat.
    #[inline(always)]
    pub fn hear(&mut self, vote: &Vote) -> Heard
        requires { InRange (position_of vote.now) }
        ensures step { Hears self.old vote.now result self.new }

        // The two cases in which the caller knows the answer.
        ensures alone { IsForNow self.old vote.now → self.old.theirs ≡ None → self.old.mine ≡ None
            → (result ≡ Heard.Noted) × (self.new ≡ noting self.old vote.now.entry) }
        ensures both { IsForNow self.old vote.now
            → self.old.theirs ≡ None → self.old.mine ≡ Some vote.now.entry
            → (result ≡ Heard.Agreed)
            × (self.new ≡ waiting self.old.desk (next_place self.old.position)) }
    {
        if vote.desk == self.desk {
            return Heard::Mine;
        }
        let at = vote.position();
        if at != self.position {
            return if at.is_before(self.position) {
                Heard::Old
            } else {
                Heard::Ahead
            };
        }
        match &self.theirs {
            Some(theirs) => {
                if vote.entry.is_same(theirs) {
                    Heard::Again
                } else {
                    Heard::TwoVotes
                }
            }
            None => match &self.mine {
                None => {
                    self.theirs = Some(vote.entry);
                    Heard::Noted
                }
                Some(mine) => {
                    let agreed = vote.entry.is_same(mine);
                    *self = Seat::waiting(self.desk, self.position.next(agreed));
                    if agreed { Heard::Agreed } else { Heard::Differ }
                }
            },
        }
    }

    /// Returns the position that the desk votes on.
    pub fn position(&self) -> Position
        ensures { result ≡ self.now.position }
    {
        self.position
    }

    /// Returns the desk's own vote at its position, if it is cast.
    pub fn mine(&self) -> Option<Entry>
        ensures { result ≡ self.now.mine }
    {
        self.mine
    }

    /// Returns the other desk's vote at this position, if it is noted.
    pub fn theirs(&self) -> Option<Entry>
        ensures { result ≡ self.now.theirs }
    {
        self.theirs
    }

    // A desk at this position that has neither cast nor heard a vote there.
    fn waiting(desk: DeskId, position: Position) -> Seat
        ensures { result ≡ waiting desk position }
    {
        Seat {
            desk,
            position,
            mine: None,
            theirs: None,
        }
    }
}
