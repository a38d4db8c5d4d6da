//! A board's view of the current round.

ghost use Rattle.std.specs.Prelude.{◌≡◌, Some, None};
ghost use Rattle.agree_core.specs.Positions.{InRange, first, next_place, position_of};
ghost use Rattle.agree_core.specs.Readers.{Listens, noted_of, noting, other, reading};

use crate::messages::{DeskId, Vote};
use crate::position::Position;
use crate::seat::Heard;
use notation::Entry;
use std::marker::Model;

/// A board's view of the current round: the position and each desk's vote there.
#[derive(Clone, Copy)]
pub struct Reader {
    position: Position,
    a: Option<Entry>,
    b: Option<Entry>,
}

impl Model for Reader {
    ghost use Rattle.agree_core.specs.Readers.{ReaderState};

    ghost Value = { ReaderState };

    ghost view = { λ r. record { position = r.position; a = r.a; b = r.b } };

    ghost inverse = { λ r. record { position = r.position; a = r.a; b = r.b } };
}

impl Reader {
    /// Returns a board at the first position of an empty book.
    pub fn fresh() -> Reader
        ensures { result ≡ reading first }
    {
        Reader::at(Position::FIRST)
    }

    /// Hears a vote for a position that isn't full. Returns the first answer that holds, in the order of
    /// `Heard` and never `Mine`. Only `Noted`, `Agreed` and `Differ` change the reader.
    pub fn hear(&mut self, vote: &Vote) -> Heard
        requires { InRange (position_of vote.now) }
        ensures step { Listens self.old vote.now result self.new }

        // The two cases in which the caller knows the answer.
        ensures alone { position_of vote.now ≡ self.old.position
            → noted_of self.old vote.now.desk ≡ None
            → noted_of self.old (other vote.now.desk) ≡ None
            → (result ≡ Heard.Noted)
            × (self.new ≡ noting self.old vote.now.desk vote.now.entry) }
        ensures both { position_of vote.now ≡ self.old.position
            → noted_of self.old vote.now.desk ≡ None
            → noted_of self.old (other vote.now.desk) ≡ Some vote.now.entry
            → (result ≡ Heard.Agreed) × (self.new ≡ reading (next_place self.old.position)) }
    {
        let at = vote.position();
        if at.is_before(self.position) {
            return Heard::Old;
        }
        if self.position.is_before(at) {
            return Heard::Ahead;
        }
        let (own, others) = match vote.desk {
            DeskId::A => (self.a, self.b),
            DeskId::B => (self.b, self.a),
        };
        match own {
            Some(first) => {
                if vote.entry.is_same(&first) {
                    Heard::Again
                } else {
                    Heard::TwoVotes
                }
            }
            None => match others {
                None => {
                    match vote.desk {
                        DeskId::A => self.a = Some(vote.entry),
                        DeskId::B => self.b = Some(vote.entry),
                    }
                    Heard::Noted
                }
                Some(theirs) => {
                    let agreed = vote.entry.is_same(&theirs);
                    *self = Reader::at(self.position.next(agreed));
                    if agreed { Heard::Agreed } else { Heard::Differ }
                }
            },
        }
    }

    /// Returns the position whose votes the board waits for.
    pub fn position(&self) -> Position
        ensures { result ≡ self.now.position }
    {
        self.position
    }

    /// Returns this desk's vote at the position, if it is noted.
    pub fn noted(&self, desk: DeskId) -> Option<Entry>
        ensures { result ≡ noted_of self.now desk }
    {
        match desk {
            DeskId::A => self.a,
            DeskId::B => self.b,
        }
    }

    // A board at this position that has heard no vote there.
    fn at(position: Position) -> Reader
        ensures { result ≡ reading position }
    {
        Reader {
            position,
            a: None,
            b: None,
        }
    }
}
