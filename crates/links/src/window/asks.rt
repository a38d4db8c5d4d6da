//! A window's asks: its station's ask again, asks for lost votes, and asks ahead. Anybody may make up asks: a desk answers
//! with its own votes, whoever asks.

ghost use Rattle.std.specs.Prelude.{IfSome};
ghost use Rattle.links.specs.Windows.{IsAsk};

use crate::catch_up::{BLOCK, PLACES_AHEAD, end_of_block};
use crate::clock::Clock;
use crate::early::hears;
use crate::link::PeerLink;
use crate::window::Window;
use agree_core::{Ask, Asker, DeskId, Message, Position};
use wire::{MessageBytes, bytes_of};

/// Returns an ask for the votes of a position, in the match of this number, unless the position is full.
pub fn ask_for(game: u64, from: Asker, at: Position) -> Option<MessageBytes>
    ensures { IfSome result (IsAsk game) }
{
    if at.is_full() {
        return None;
    }
    let Position { place, round } = at;
    Some(bytes_of(game, &Message::Ask(Ask { from, place, round })))
}

impl<L: PeerLink, C: Clock> Window<L, C> {
    ghost use Rattle.std.specs.Prelude.{◌≡◌, ◌⊎◌, []};
    ghost use Rattle.links.specs.Windows.{HandsDown, HasAsked, IsAsk, IsGrown, IsKept, IsQuietOrAsks, IsStill};
    ghost use Rattle.links.specs.declared.link.Receivers.TheVariants.{ToAll};

    /// Sends an ask to the peer that last sent a vote of this desk, or to all if none did.
    fn send_to_voter(&mut self, desk: DeskId, bytes: &MessageBytes)
        requires { IsAsk self.old.game bytes.now }
        ensures still { IsStill self.old self.new }
        ensures grown { IsGrown self.old.below self.new.below }
    {
        match self.known.voter(desk) {
            Some(peer) => self.link.send_to(peer, bytes),
            None => self.link.send(bytes),
        }
    }

    /// Asks a desk for its first-round vote at a place.
    fn ask_for_vote(&mut self, desk: DeskId, place: u32)
        ensures still { IsStill self.old self.new }
        ensures grown { IsGrown self.old.below self.new.below }
    {
        if let Some(bytes) = ask_for(self.game, self.known.from, Position { place, round: 0 }) {
            self.send_to_voter(desk, &bytes);
        }
    }

    /// Asks a desk for its missing first-round votes at the places `from..end`, all in one block. One ask stands for many
    /// missing votes in a row.
    fn ask_block(&mut self, desk: DeskId, from: u32, end: u32)
        ensures still { IsStill self.old self.new }
    {
        let mut is_asked = false;
        for place in from..end {
            if self.known.early.has_at(desk, place) {
                is_asked = false;
            } else if !is_asked {
                is_asked = self.known.early.lacks_many(desk, place, end);
                self.ask_for_vote(desk, place);
            }
        }
    }

    /// Asks a desk for its lost votes: at the station's position, and at the places after it.
    fn ask_desk(&mut self, desk: DeskId, bytes: &MessageBytes, is_silent: bool)
        requires { IsAsk self.old.game bytes.now }
        ensures still { IsStill self.old self.new }
    {
        let end = self.known.lost_until(desk, is_silent);
        let mut from = self.known.early.position().place;
        if (is_silent || from < end) && self.known.early.lacks(self.known.from, desk) {
            self.send_to_voter(desk, bytes);
        }
        from = from.saturating_add(1);
        for _ in 0..=PLACES_AHEAD / BLOCK {
            if from >= end {
                break;
            }
            let behind = end_of_block(from).min(end);
            self.ask_block(desk, from, behind);
            from = behind;
        }
    }

    /// Sends the station's ask to all, or, if later votes are here, asks each desk for its lost votes.
    fn ask(&mut self, bytes: &MessageBytes, is_silent: bool)
        requires { IsAsk self.old.game bytes.now }
        ensures still { IsStill self.old self.new }
        ensures said { self.old.kept ≡ [] → HandsDown ToAll bytes.now self.old self.new }
    {
        if self.known.early.is_empty() {
            self.link.send(bytes);
            return;
        }
        if hears(self.known.from, DeskId::A) {
            self.ask_desk(DeskId::A, bytes, is_silent);
        }
        if hears(self.known.from, DeskId::B) {
            self.ask_desk(DeskId::B, bytes, is_silent);
        }
    }

    /// Sends the station's ask once more.
    fn say_again(&mut self, now: u64)
        ensures kept { IsKept self.old self.new }
        ensures votes { self.new.kept ≡ self.old.kept }
        ensures readings { self.new.readings ≡ self.old.readings }
        ensures quiet { IsQuietOrAsks now self.old self.new }
    {
        let is_silent = self.known.is_silent(now);
        if let Some(bytes) = self.known.say_again(now) {
            self.silence.end(now);
            self.ask(&bytes, is_silent);
        }
    }

    /// Sends the station's ask if it is due, and returns how many milliseconds to wait for a datagram.
    fn ask_again(&mut self, wait: u64, now: u64) -> u64
        ensures kept { IsKept self.old self.new }
        ensures votes { self.new.kept ≡ self.old.kept }
        ensures readings { self.new.readings ≡ self.old.readings }
        ensures quiet { IsQuietOrAsks now self.old self.new }
    {
        if self.known.may_ask_again() && self.known.left(now) == 0 {
            self.say_again(now);
        }
        if self.known.may_ask_again() {
            wait.min(self.known.left(now))
        } else {
            wait
        }
    }

    /// Asks a desk for its first-round vote at a place, if the station hears that desk.
    fn ask_where_heard(&mut self, desk: DeskId, place: u32)
        ensures still { IsStill self.old self.new }
        ensures grown { IsGrown self.old.below self.new.below }
    {
        if hears(self.known.from, desk) {
            self.ask_for_vote(desk, place);
        }
    }

    /// Asks for the next block ahead, if it is time.
    fn ask_ahead(&mut self)
        ensures still { IsStill self.old self.new }
        ensures grown { IsGrown self.old.below self.new.below }
    {
        if let Some(place) = self.known.next_block() {
            self.ask_where_heard(DeskId::A, place);
            self.ask_where_heard(DeskId::B, place);
        }
    }

    /// Asks for the votes of the station's position if the station has sent nothing for two seconds, so that others hear that
    /// it is there even while it has nothing to send.
    fn break_silence(&mut self, now: u64)
        ensures still { IsStill self.old self.new }
        ensures grown { IsGrown self.old.below self.new.below }
    {
        if self.silence.is_long(now) {
            let at = self.known.early.position();
            if let Some(bytes) = ask_for(self.game, self.known.from, at) {
                self.say(&bytes, now);
            }
        }
    }

    /// Sends the asks that are due, and returns how many milliseconds to wait for a datagram.
    pub(super) fn ask_what_is_due(&mut self, wait: u64, now: u64) -> u64
        ensures kept { IsKept self.old self.new }
        ensures votes { self.new.kept ≡ self.old.kept }
        ensures readings { self.new.readings ≡ self.old.readings }
        ensures quiet { (self.new.quiet_since ≡ self.old.quiet_since)
            ⊎ ((self.new.quiet_since ≡ now) × HasAsked self.old self.new) }
    {
        let wait = self.ask_again(wait, now);
        self.ask_ahead();
        self.break_silence(now);
        wait
    }
}
