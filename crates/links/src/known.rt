//! What a window knows from what it received and what its station sent.

ghost use Rattle.std.specs.Prelude.{◌≡◌, ◌⊎◌, ◌≤◌, ◌+◌, IsSome, None, Some, [], true};
ghost use Rattle.std.specs.BTreeMap.{values};
ghost use Rattle.links.specs.declared.times.TheConstants.{LONGEST_ASK_PAUSE};
ghost use Rattle.links.specs.Windows.{AreOf, HasAnswers};

use crate::asking::Asking;
use crate::catch_up::{CatchUp, PLACES_AHEAD};
use crate::early::EarlyVotes;
use agree_core::{Ask, Asker, DeskId, Position};
use std::alloc::Global;
use wire::MessageBytes;

/// The peers that last sent a vote of each desk.
#[derive(Clone, Copy)]
pub struct Voters {
    a: Option<usize>,
    b: Option<usize>,
}

impl Voters {
    fn of(&self, desk: DeskId) -> Option<usize> {
        match desk {
            DeskId::A => self.a,
            DeskId::B => self.b,
        }
    }

    /// Notes that this peer sent a vote of the desk.
    pub fn note(&mut self, desk: DeskId, peer: usize) {
        match desk {
            DeskId::A => self.a = Some(peer),
            DeskId::B => self.b = Some(peer),
        }
    }
}

/// What was given to the station last, which decides where its reply goes.
#[derive(Clone, Copy)]
pub enum Given {
    /// Nothing that the station replies to.
    Other,
    /// An ask that a peer sent.
    Ask,
    /// An ask that was made up for this peer.
    MadeUp(usize),
    /// An ask that was made up for this peer, and has been answered.
    Answered(usize),
}

/// What a window knows: early votes, its station's asks, who sends which desk's votes, and what was given last.
#[derive(Drop)]
pub struct Known {
    pub early: EarlyVotes,
    pub asking: Asking,
    pub catch_up: CatchUp,
    pub given: Given,
    /// The asker as which the station asks.
    pub from: Asker,
    pub voters: Voters,
}

impl Known {
    /// Returns the knowledge of a new window: none.
    pub fn new(alloc: Global) -> Known
        ensures votes { values result.early.votes ≡ [] }
        ensures asked { result.asking.bytes ≡ None }
        ensures last { result.asking.last ≡ 0 }
    {
        Known {
            early: EarlyVotes::new(alloc),
            asking: Asking::new(),
            catch_up: CatchUp::new(),
            given: Given::Other,
            from: Asker::Board,
            voters: Voters { a: None, b: None },
        }
    }

    /// Returns the peer that last sent a vote of this desk.
    pub fn voter(&self, desk: DeskId) -> Option<usize> {
        self.voters.of(desk)
    }

    /// Whether the station's ask may be sent without the station: it was held, or later votes are here.
    pub fn may_ask_again(&self) -> bool {
        let has_later = !self.early.is_empty();
        self.asking.may_say_again(self.early.position(), has_later)
    }

    /// Returns how many milliseconds are left until that ask is sent.
    pub fn left(&self, now: u64) -> u64 {
        if self.early.is_empty() {
            return self.asking.left(now);
        }
        self.catch_up.left(self.asking.pause(), now)
    }

    /// Returns the station's ask, to be sent to all now, or, if later votes are here, to be sent for the lost votes.
    pub fn say_again(&mut self, now: u64) -> Option<MessageBytes>
        ensures votes { self.new.early ≡ self.old.early }
        ensures stays { self.new.asking.bytes ≡ self.old.asking.bytes }
        ensures value { result ≡ self.new.asking.bytes }
        ensures last { (self.new.asking.last ≡ self.old.asking.last)
            ⊎ ((self.new.asking.last ≡ now) × IsSome result × (values self.old.early.votes ≡ [])) }
    {
        if self.early.is_empty() {
            return self.asking.say_again(now);
        }
        self.catch_up.ask_again(now);
        self.asking.try_again()
    }

    /// Returns the first place of the next block to ask for ahead, if any.
    pub fn next_block(&mut self) -> Option<u32>
        ensures votes { self.new.early ≡ self.old.early }
        ensures stays { self.new.asking ≡ self.old.asking }
    {
        let at = self.early.position().place;
        let is_long = self.asking.has_long_trip();
        self.catch_up.next_block(self.from, at, is_long)
    }

    /// Whether a whole pause has passed since an ask was last sent or a missing vote came.
    pub fn is_silent(&self, now: u64) -> bool {
        self.asking.left(now) == 0
    }

    /// Returns the first place whose vote of this desk may still be on its way. Where a round trip takes long, answers count
    /// as over after a pause even if others still come.
    pub fn lost_until(&self, desk: DeskId, is_silent: bool) -> u32 {
        let end = self.early.position().place.saturating_add(PLACES_AHEAD);
        let is_over = is_silent || self.asking.has_long_trip();
        self.catch_up.lost_until(desk, is_over).min(end)
    }

    /// Notes an ask of the station, and returns whether to hand it down.
    pub fn note_ask(&mut self, game: u64, ask: &Ask, bytes: &MessageBytes, now: u64) -> bool
        ensures votes { AreOf (values self.new.early.votes) (values self.old.early.votes) }
        ensures asked { (self.new.asking.bytes ≡ self.old.asking.bytes) ⊎ (self.new.asking.bytes ≡ Some bytes.now) }
        ensures said { self.old.asking.last + LONGEST_ASK_PAUSE ≤ now
            → (result ≡ true) ⊎ HasAnswers game (values self.new.early.votes) ask.now }
        ensures last { (self.new.asking.last ≡ self.old.asking.last)
            ⊎ ((self.new.asking.last ≡ now) × (result ≡ true)) }
    {
        let at = Position {
            place: ask.place,
            round: ask.round,
        };
        self.from = ask.from;
        self.early.reach(at);
        if self.early.answers(game, ask.from, at) {
            return false;
        }
        let is_first = self.catch_up.is_first(at.place);
        let is_said = self.asking.ask(at, bytes, is_first, now);
        if is_said {
            self.catch_up.ask(at.place);
        }
        is_said
    }
}
