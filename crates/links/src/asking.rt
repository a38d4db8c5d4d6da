//! When a station's ask is sent, and sent again.

ghost use Rattle.std.specs.Prelude.{◌≡◌, ◌≤◌, ◌+◌, ◌⊎◌, IsSome, None, Some, true};
ghost use Rattle.links.specs.declared.times.TheConstants.{LONGEST_ASK_PAUSE};

use crate::times::{FIRST_ASK_PAUSE, LONGEST_ASK_PAUSE, SHORTEST_ASK_PAUSE};
use agree_core::{DeskId, Position};
use std::mem;
use wire::MessageBytes;

/// How many times an ask is sent again at most, apart from the station's own repeats.
const MOST_TRIES: u32 = 8;

/// How many times a pause is doubled at most.
const MOST_DOUBLED: u32 = 3;

/// The shortest round trip that counts as long, in milliseconds.
const LONG_TRIP: u64 = 8;

/// A station's last ask, and how long a round trip takes.
#[derive(Clone, Copy)]
pub struct Asking {
    at: Position,
    bytes: Option<MessageBytes>,
    /// When the ask was first sent.
    first: u64,
    /// When an ask was last sent, or a missing vote came.
    last: u64,
    tries: u32,
    /// Whether the ask wasn't sent yet.
    is_held: bool,
    /// Whether no earlier ask can bring its answer.
    is_first: bool,
    /// Whether the ask was sent, and no vote for its position has come since.
    is_open: bool,
    /// Whether each desk's vote for its position came.
    has_a: bool,
    has_b: bool,
    /// The round-trip time in milliseconds, if any was measured: the shortest lately.
    trip: Option<u64>,
}

impl Asking {
    /// Returns the state before the first ask.
    pub fn new() -> Asking
        ensures bytes { result.bytes ≡ None }
        ensures last { result.last ≡ 0 }
    {
        Asking {
            at: Position::FIRST,
            bytes: None,
            first: 0,
            last: 0,
            tries: MOST_TRIES,
            is_held: false,
            is_first: true,
            is_open: false,
            has_a: false,
            has_b: false,
            trip: None,
        }
    }

    /// Whether a round trip takes long.
    pub fn has_long_trip(&self) -> bool {
        self.trip.is_some_and(|trip| trip >= LONG_TRIP)
    }

    /// Returns how many milliseconds to wait for an answer: one and a half round trips, doubled after each try that brought
    /// nothing.
    pub fn pause(&self) -> u64
        ensures { result ≤ LONGEST_ASK_PAUSE }
    {
        let first = match self.trip {
            Some(trip) => SHORTEST_ASK_PAUSE.max(trip.saturating_add(trip / 2)),
            None => FIRST_ASK_PAUSE,
        };
        let tries = self.tries.min(MOST_DOUBLED);
        LONGEST_ASK_PAUSE.min(first.saturating_mul(1 << tries))
    }

    /// Notes that a missing vote came: more may follow.
    pub fn follow(&mut self, now: u64)
        ensures bytes { self.new.bytes ≡ self.old.bytes }
        ensures last { self.new.last ≡ now }
    {
        self.last = now;
        self.tries = 0;
    }

    /// Notes an ask of the station, and returns whether to send it: not while its answer may be on its way, or, unless it is
    /// the first, the answer to an earlier ask that stands for it.
    pub fn ask(&mut self, at: Position, bytes: &MessageBytes, is_first: bool, now: u64) -> bool
        ensures asked { (self.new.bytes ≡ self.old.bytes) ⊎ (self.new.bytes ≡ Some bytes.now) }
        // it is sent if for a quarter of a second no ask was sent and no missing vote came
        ensures said { self.old.last + LONGEST_ASK_PAUSE ≤ now → result ≡ true }
        ensures last { (self.new.last ≡ self.old.last) ⊎ ((self.new.last ≡ now) × (result ≡ true)) }
    {
        if self.bytes != Some(*bytes) {
            self.at = at;
            self.bytes = Some(*bytes);
            self.tries = 0;
            self.is_open = false;
            self.has_a = false;
            self.has_b = false;
            self.is_held = true;
            self.is_first = is_first;
        }
        let is_due = (self.is_held && self.is_first) || self.left(now) == 0;
        if is_due {
            self.say(now);
        }
        is_due
    }

    /// Notes that the ask is sent now.
    fn say(&mut self, now: u64)
        ensures bytes { self.new.bytes ≡ self.old.bytes }
        ensures last { self.new.last ≡ now }
    {
        if self.is_held {
            self.first = now;
            self.is_open = true;
            self.is_held = false;
        }
        self.last = now;
    }

    /// Whether the ask for this position may be sent without the station: it wasn't sent yet, or later votes are here, so that
    /// votes were lost, and tries are left.
    pub fn may_say_again(&self, at: Position, has_later: bool) -> bool {
        let is_due = if has_later {
            self.tries < MOST_TRIES
        } else {
            self.is_held
        };
        at == self.at && is_due
    }

    /// Returns how many milliseconds are left of the pause since an ask was last sent or a missing vote came.
    pub fn left(&self, now: u64) -> u64
        ensures { self.now.last + LONGEST_ASK_PAUSE ≤ now → result ≡ 0 }
    {
        self.last.saturating_add(self.pause()).saturating_sub(now)
    }

    /// Returns the ask, to be sent now for everything that it stands for.
    pub fn say_again(&mut self, now: u64) -> Option<MessageBytes>
        ensures stays { self.new.bytes ≡ self.old.bytes }
        ensures value { result ≡ self.new.bytes }
        ensures last { (self.new.last ≡ self.old.last) ⊎ ((self.new.last ≡ now) × IsSome result) }
    {
        let bytes = self.bytes?;
        self.say(now);
        Some(bytes)
    }

    /// Returns the ask, to be sent for a lost answer, and counts the try.
    pub fn try_again(&mut self) -> Option<MessageBytes>
        ensures stays { self.new.bytes ≡ self.old.bytes }
        ensures value { result ≡ self.new.bytes }
        ensures last { self.new.last ≡ self.old.last }
    {
        self.tries = self.tries.saturating_add(1);
        self.bytes
    }

    /// Notes that this desk's vote for the position came, and returns whether it is the desk's first.
    fn is_news(&mut self, desk: DeskId) -> bool
        ensures bytes { self.new.bytes ≡ self.old.bytes }
        ensures last { self.new.last ≡ self.old.last }
    {
        match desk {
            DeskId::A => !mem::replace(&mut self.has_a, true),
            DeskId::B => !mem::replace(&mut self.has_b, true),
        }
    }

    /// Notes a vote of this desk for this position. The first one after an ask measures the round trip.
    pub fn hear(&mut self, desk: DeskId, at: Position, now: u64)
        ensures bytes { self.new.bytes ≡ self.old.bytes }
        ensures last { (self.new.last ≡ self.old.last) ⊎ (self.new.last ≡ now) }
    {
        if at != self.at || !self.is_news(desk) {
            return;
        }
        self.follow(now);
        if !self.is_open {
            return;
        }
        self.is_open = false;
        let took = now.saturating_sub(self.first);
        if took <= LONGEST_ASK_PAUSE {
            self.trip = Some(self.trip_after(took));
        }
    }

    /// Returns the round-trip time after an answer that took this long. If no earlier ask can have brought the answer, a
    /// shorter time counts at once and a longer one by an eighth; otherwise it counts by an eighth, if the ask was sent once.
    fn trip_after(&self, took: u64) -> u64 {
        match self.trip {
            None => took,
            Some(trip) if trip < took && (self.is_first || self.tries == 0) => {
                trip + (took - trip).div_ceil(8)
            }
            Some(trip) if trip < took => trip,
            Some(_) if self.is_first => took,
            Some(trip) if self.tries == 0 => trip - (trip - took).div_ceil(8),
            Some(trip) => trip,
        }
    }
}
