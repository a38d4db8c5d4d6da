//! The rounds that a board remembers, and the votes that show by them that a desk's file lacks lines.

ghost use Rattle.std.specs.Prelude.{◌≡◌, ◌<◌, ◌≤◌, ◌∷◌, ◌++◌, IfOk, IfSome, [], find, option_map, vec_capacity, vec_len};
ghost use Rattle.agree_core.specs.Positions.{InRange, position_of};
ghost use Rattle.board.specs.Rounds as laws;
ghost use Rattle.wire.specs.Layout.{is_at};

use agree_core::{Ask, Asker, DeskId, Message, Position, Vote};
use notation::{Entry, code_of};
use std::alloc::{AllocError, Global};
use std::marker::Model;

/// How many rounds are remembered at most: a desk's file has no more votes.
pub const MOST_ROUNDS: usize = 16_384;

/// A round of voting that was heard in full: its position, and what each desk voted for.
#[derive(Clone, Copy, Debug)]
pub struct Round {
    pub at: Position,
    pub a: Entry,
    pub b: Entry,
}

/// Whether two entries are equal.
fn is_alike(one: &Entry, other: &Entry) -> bool
    ensures { result ≡ laws.is_alike one.now other.now }
{
    code_of(one) == code_of(other)
}

impl Round {
    /// Returns what a desk voted for in this round.
    fn cast_by(&self, desk: DeskId) -> &Entry
        ensures { result.now ≡ laws.cast_by desk self.now }
    {
        match desk {
            DeskId::A => &self.a,
            DeskId::B => &self.b,
        }
    }

    /// Whether a vote is for this round's position, but for another entry than the same desk's vote in it.
    fn is_another(&self, vote: &Vote) -> bool
        ensures { result ≡ laws.is_another vote.now self.now }
    {
        self.at.place == vote.place
            && self.at.round == vote.round
            && !is_alike(self.cast_by(vote.desk), &vote.entry)
    }

    /// Whether a vote is in a later round of this place, although both desks voted alike in this round.
    fn is_later(&self, vote: &Vote) -> bool
        ensures { result ≡ laws.is_later vote.now self.now }
    {
        self.at.place == vote.place && self.at.round < vote.round && is_alike(&self.a, &self.b)
    }

    fn is_against(&self, vote: &Vote) -> bool
        ensures { result ≡ laws.is_against vote.now self.now }
    {
        self.is_another(vote) || self.is_later(vote)
    }

    fn is_of(&self, at: Position) -> bool
        ensures { result ≡ laws.is_of at self.now }
    {
        self.at.place == at.place && self.at.round == at.round
    }

    /// Returns a desk's vote in this round.
    fn vote_of(&self, desk: DeskId) -> Vote
        ensures { result ≡ laws.vote_in desk self.now }
    {
        Vote {
            desk,
            place: self.at.place,
            round: self.at.round,
            entry: *self.cast_by(desk),
        }
    }
}

/// Returns the desk that asks, or `None` for a board.
fn desk_asking(asker: Asker) -> Option<DeskId>
    ensures { result ≡ laws.desk_asking asker }
{
    match asker {
        Asker::A => Some(DeskId::A),
        Asker::B => Some(DeskId::B),
        Asker::Board => None,
    }
}

/// The rounds that a board has heard in full, the oldest first. Its memory is allocated at the start.
#[derive(Drop)]
pub struct Witness {
    rounds: Vec<Round>,
}

impl Model for Witness {
    ghost use Rattle.std.specs.Prelude.{◌≤◌, List, vec_capacity};
    ghost use Rattle.board.specs.declared.witness.Round.{Round};

    ghost Value = { List Round };

    ghost view = { λ w. w.rounds.items };

    ghost invariant = { λ w. 16384 ≤ vec_capacity w.rounds };
}

/// Adds a value to a list that has room for it.
fn add<T: Copy + Drop>(list: &mut Vec<T>, value: T)
    requires room { vec_len list.old < vec_capacity list.old }
    ensures items { list.new.items ≡ list.old.items ++ value ∷ [] }
    ensures capacity { vec_capacity list.old ≤ vec_capacity list.new }
{
    list.push(value).unwrap();
}

impl Witness {
    /// Creates a witness that has heard no round.
    pub fn new(alloc: Global) -> Result<Witness, AllocError>
        ensures { IfOk result (λ witness. witness ≡ []) }
    {
        Ok(Witness {
            rounds: Vec::with_capacity(alloc, MOST_ROUNDS)?,
        })
    }

    /// Returns the desk's own remembered vote if this vote shows that the desk's file lacks it: this vote is for
    /// another entry at the same position, or in a later round of a place than the one in which both desks voted
    /// alike.
    fn recalled_by_vote(&self, vote: &Vote) -> Option<Vote>
        ensures { result ≡ laws.recalled self.now (Message.Vote vote.now) }
    {
        let round = self.rounds.iter().find(|round| round.is_against(vote))?;
        Some(round.vote_of(vote.desk))
    }

    /// Returns a desk's vote for a position, if it was heard.
    fn vote_at(&self, desk: DeskId, at: Position) -> Option<Vote>
        ensures { result ≡ option_map (laws.vote_in desk) (find (laws.is_of at) self.now) }
    {
        let round = self.rounds.iter().find(|round| round.is_of(at))?;
        Some(round.vote_of(desk))
    }

    /// Returns the asking desk's own vote for the asked position, if it was heard.
    fn recalled_by_ask(&self, ask: &Ask) -> Option<Vote>
        ensures { result ≡ laws.recalled self.now (Message.Ask ask.now) }
    {
        let at = Position {
            place: ask.place,
            round: ask.round,
        };
        match desk_asking(ask.from) {
            Some(desk) => self.vote_at(desk, at),
            None => None,
        }
    }

    /// Returns the sending desk's own vote if it is to be sent back to that desk: its file lacks the vote, as a
    /// vote of that desk shows, or may lack it, if the desk asks.
    pub fn recalled(&self, message: &Message) -> Option<Vote>
        ensures vote { result ≡ laws.recalled self.now message.now }
        ensures range { InRange (is_at message.now) → IfSome result (λ v. InRange (position_of v)) }
    {
        match message {
            Message::Vote(vote) => self.recalled_by_vote(vote),
            Message::Ask(ask) => self.recalled_by_ask(ask),
        }
    }

    /// Remembers a round, if there is one.
    pub fn note(&mut self, round: Option<Round>)
        ensures { self.new ≡ laws.with_round self.old round }
    {
        if let Some(round) = round
            && self.rounds.len() < MOST_ROUNDS
        {
            add(&mut self.rounds, round);
        }
    }
}
