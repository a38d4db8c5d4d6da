//! Votes that came before the station reached their position.

ghost use Rattle.std.specs.Prelude.{◌≡◌, ◌↔◌, [], IfNone, IfSome, IsTrue, true};
ghost use Rattle.std.specs.BTreeMap.{values};
ghost use Rattle.agree_core.specs.declared.messages.DeskId.{DeskId as ADesk};
ghost use Rattle.links.specs.Windows.{AreOf, AreOfOr, Has, HasMore, HasVote, hears as is_heard};

use crate::catch_up::PLACES_AHEAD;
use agree_core::{Asker, DeskId, Message, Position, Vote};
use std::alloc::Global;
use std::collections::BTreeMap;
use wire::{MessageBytes, message_of};

/// How many votes are kept at most, of both desks together.
const MOST_KEPT: usize = 4_096;

/// How many missing votes in a row weren't lost one by one: their ask was lost, or they aren't cast.
const MANY_LOST: u32 = 16;

/// Whether a station has to hear this desk's votes: they aren't its own.
pub fn hears(from: Asker, desk: DeskId) -> bool
    ensures { result ≡ is_heard from desk }
{
    !matches!((from, desk), (Asker::A, DeskId::A) | (Asker::B, DeskId::B))
}

/// A vote's position and desk.
#[derive(Clone, Copy, PartialEq, Eq, PartialOrd, Ord)]
struct VoteAt {
    at: Position,
    desk: u8,
}

/// The votes for positions ahead of the station's, in the bytes that came.
#[derive(Drop)]
pub struct EarlyVotes {
    at: Position,
    votes: BTreeMap<VoteAt, MessageBytes>,
}

impl EarlyVotes {
    /// Returns no votes, at the first position.
    pub fn new(alloc: Global) -> EarlyVotes
        ensures { values result.votes ≡ [] }
    {
        EarlyVotes {
            at: Position::FIRST,
            votes: BTreeMap::new(alloc),
        }
    }

    /// Whether no vote is kept.
    pub fn is_empty(&self) -> bool
        ensures { IsTrue result ↔ (values self.now.votes ≡ []) }
    {
        self.votes.is_empty()
    }

    /// Returns the station's position.
    pub fn position(&self) -> Position {
        self.at
    }

    /// Drops the first vote if it is for an earlier position, and returns whether it was.
    fn let_go(&mut self, at: Position) -> bool
        ensures { AreOf (values self.new.votes) (values self.old.votes) }
    {
        if let Some((first, _)) = self.votes.first_key_value()
            && first.at.is_before(at)
        {
            let _ = self.votes.pop_first();
            return true;
        }
        false
    }

    /// Notes that the station is at this position, and drops the votes for earlier ones.
    pub fn reach(&mut self, at: Position)
        ensures { AreOf (values self.new.votes) (values self.old.votes) }
    {
        if !self.at.is_before(at) {
            return;
        }
        self.at = at;
        for _ in 0..MOST_KEPT {
            if !self.let_go(at) {
                break;
            }
        }
    }

    /// Whether a vote for this position is early, and not too early to be kept.
    pub fn is_early(&self, at: Position) -> bool {
        self.at.is_before(at) && at.place.saturating_sub(self.at.place) <= PLACES_AHEAD
    }

    /// Keeps an early vote unless it is kept already, and returns whether it is newly kept. Without room for it, it is lost.
    pub fn keep(&mut self, vote: &Vote, bytes: &MessageBytes) -> bool
        ensures kept { AreOfOr bytes.now (values self.new.votes) (values self.old.votes) }
        ensures more { result ≡ true → HasMore (values self.old.votes) (values self.new.votes) }
    {
        let at = vote.position();
        let desk = vote.desk.number();
        let voted = VoteAt { at, desk };
        if self.votes.len() >= MOST_KEPT || self.votes.contains_key(&voted) {
            return false;
        }
        self.votes.insert(voted, *bytes).is_ok()
    }

    /// Takes a kept vote for the station's position, if there is one.
    pub fn take(&mut self) -> Option<MessageBytes>
        ensures given { IfSome result (Has (values self.old.votes)) }
        ensures kept { AreOf (values self.new.votes) (values self.old.votes) }
        ensures none { IfNone result (values self.new.votes ≡ values self.old.votes) }
    {
        let (first, _) = self.votes.first_key_value()?;
        if self.at.is_before(first.at) {
            return None;
        }
        let (_, bytes) = self.votes.pop_first()?;
        Some(bytes)
    }

    /// Whether this desk's first-round vote at a place is kept.
    pub fn has_at(&self, desk: DeskId, place: u32) -> bool {
        let at = Position { place, round: 0 };
        let desk = desk.number();
        self.votes.contains_key(&VoteAt { at, desk })
    }

    /// Whether no first-round vote of this desk is kept at many places in a row, from `from` on and before `end`.
    pub fn lacks_many(&self, desk: DeskId, from: u32, end: u32) -> bool {
        if end.saturating_sub(from) < MANY_LOST {
            return false;
        }
        for place in from..end.min(from.saturating_add(MANY_LOST)) {
            if self.has_at(desk, place) {
                return false;
            }
        }
        true
    }

    fn has(&self, desk: DeskId) -> bool {
        let at = self.at;
        let desk = desk.number();
        self.votes.contains_key(&VoteAt { at, desk })
    }

    /// Whether a station that has received nothing for its position yet lacks this desk's vote.
    pub fn lacks(&self, from: Asker, desk: DeskId) -> bool {
        hears(from, desk) && !self.has(desk)
    }

    /// Whether this desk's vote for this position is kept, in the match of this number.
    fn has_vote(&self, game: u64, desk: DeskId, at: Position) -> bool
        ensures { result ≡ true → HasVote game (values self.now.votes) desk at }
    {
        let number = desk.number();
        let Some(bytes) = self.votes.get(&VoteAt { at, desk: number }) else {
            return false;
        };
        match message_of(game, bytes.as_slice()) {
            Ok(Message::Vote(vote)) => vote.desk == desk && vote.position() == at,
            _ => false,
        }
    }

    /// Whether an ask for this position needs nothing more of this desk: its vote is kept, or the asker doesn't hear it.
    fn lacks_none(&self, game: u64, from: Asker, desk: DeskId, at: Position) -> bool
        ensures { result ≡ true → is_heard from desk ≡ true → HasVote game (values self.now.votes) desk at }
    {
        !hears(from, desk) || self.has_vote(game, desk, at)
    }

    /// Whether all votes that answer an ask for this position are kept, in the match of this number.
    pub fn answers(&self, game: u64, from: Asker, at: Position) -> bool
        ensures { result ≡ true → (d : ADesk) → is_heard from d ≡ true
            → HasVote game (values self.now.votes) d at }
    {
        self.lacks_none(game, from, DeskId::A, at) && self.lacks_none(game, from, DeskId::B, at)
    }
}
