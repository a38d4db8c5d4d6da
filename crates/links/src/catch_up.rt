//! How far a station that is behind has asked, and how far each desk's votes have come.

ghost use Rattle.std.specs.Prelude.{◌≡◌, ◌≤◌, ◌<◌, ◌+◌, IfSome, nat_le, true};

use agree_core::{Asker, DeskId, PLACES};

/// How many places a block has. An ask for one of them stands for those after it in its block.
pub const BLOCK: u32 = 64;

/// How many places ahead of the station's position votes are kept.
pub const PLACES_AHEAD: u32 = 2_048;

/// How many places to ask for at most ahead of what came, so that no socket overflows.
const FEW_ASKED: u32 = 64;

/// How many instead where a round trip takes long: most of their votes are on their way.
const MANY_ASKED: u32 = 192;

/// Returns the first place after this place's block.
pub fn end_of_block(place: u32) -> u32 {
    (place / BLOCK).saturating_add(1).saturating_mul(BLOCK)
}

/// What a station that is behind has asked for, and what of it came.
#[derive(Clone, Copy)]
pub struct CatchUp {
    /// The place where it began.
    from: u32,
    /// The first place of the next block that isn't asked for.
    unasked: u32,
    /// The first place after each desk's votes that came of what was asked for.
    heard_a: u32,
    heard_b: u32,
    /// When lost votes were last asked for.
    last: u64,
    /// The value of `unasked` then, and at the two times before.
    unasked_then: u32,
    unasked_before: u32,
    unasked_first: u32,
}

impl CatchUp {
    /// Returns the state before the first ask.
    pub fn new() -> CatchUp {
        CatchUp {
            from: 0,
            unasked: 0,
            heard_a: 0,
            heard_b: 0,
            last: 0,
            unasked_then: 0,
            unasked_before: 0,
            unasked_first: 0,
        }
    }

    /// Whether no earlier ask stands for this place.
    pub fn is_first(&self, place: u32) -> bool
        ensures { result ≡ nat_le self.now.unasked place }
    {
        place >= self.unasked
    }

    /// Notes that the station asks for this place.
    pub fn ask(&mut self, place: u32) {
        if self.is_first(place) {
            self.from = place;
            self.unasked = end_of_block(place);
        }
    }

    /// Notes that a vote of this desk came for this place.
    pub fn hear(&mut self, desk: DeskId, place: u32) {
        if self.is_first(place) {
            return;
        }
        let behind = place.saturating_add(1);
        match desk {
            DeskId::A => self.heard_a = self.heard_a.max(behind),
            DeskId::B => self.heard_b = self.heard_b.max(behind),
        }
    }

    /// Returns the first place after what came of every desk that this asker hears.
    fn heard_by(&self, from: Asker) -> u32 {
        match from {
            Asker::A => self.heard_b,
            Asker::B => self.heard_a,
            Asker::Board => self.heard_a.min(self.heard_b),
        }
    }

    /// Returns the next block that a station at this place asks for, if it may: at first as many places as came, and then no
    /// more than may be on their way.
    pub fn next_block(&mut self, from: Asker, at: u32, is_long: bool) -> Option<u32>
        ensures next { IfSome result (λ place. place ≡ self.old.unasked) }
        ensures ahead { IfSome result (λ place. at < place) }
    {
        let heard = self.heard_by(from);
        let most = if is_long { MANY_ASKED } else { FEW_ASKED };
        let ahead = most.min(heard.saturating_sub(self.from));
        let place = self.unasked;
        let behind = place.saturating_add(BLOCK);
        if place <= at || place >= heard.saturating_add(ahead) || place >= PLACES {
            return None;
        }
        if behind > at.saturating_add(PLACES_AHEAD) {
            return None;
        }
        self.unasked = behind;
        Some(place)
    }

    /// Returns how many milliseconds are left until lost votes are asked for, with this pause.
    pub fn left(&self, pause: u64, now: u64) -> u64
        ensures { self.now.last + pause ≤ now → result ≡ 0 }
    {
        self.last.saturating_add(pause).saturating_sub(now)
    }

    /// Notes that lost votes are asked for now.
    pub fn ask_again(&mut self, now: u64) {
        self.last = now;
        self.unasked_first = self.unasked_before;
        self.unasked_before = self.unasked_then;
        self.unasked_then = self.unasked;
    }

    /// Returns the first place whose vote of this desk may be on its way: earlier votes came or were lost, as a desk answers
    /// in order. Once its answers are over, so is what was asked for two pauses ago.
    pub fn lost_until(&self, desk: DeskId, is_over: bool) -> u32
        ensures { is_over ≡ true → self.now.unasked_first ≤ result }
    {
        let heard = match desk {
            DeskId::A => self.heard_a,
            DeskId::B => self.heard_b,
        };
        if is_over {
            heard.max(self.unasked_first)
        } else {
            heard
        }
    }
}
