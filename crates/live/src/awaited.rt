//! How long a board waits for a vote of its position.

ghost use Rattle.std.specs.Prelude.{◌≡◌};
ghost use Rattle.live.specs.Signs as signs;

use crate::times::LONGEST_REPEAT_WAIT;
use agree_core::Heard;
use board::BoardRefusal;
use wire::What;

/// After this many milliseconds without a vote of its position, a board with both desks ahead says so. It asks twice a second.
const LONGEST_WAIT: u64 = 10_000;

/// The time since which a board has heard no vote of its position.
#[derive(Clone, Copy, Debug)]
pub struct Awaited {
    /// When the last such vote came; time in which the board itself was held up isn't counted.
    since: u64,
    /// The clock's last reading.
    looked: u64,
}

/// Whether this is the answer to a vote of the board's position.
fn is_here(answer: Result<What, BoardRefusal>) -> bool {
    matches!(
        answer,
        Ok(What::Heard(
            Heard::Noted | Heard::Again | Heard::TwoVotes | Heard::Agreed | Heard::Differ
        ))
    )
}

impl Awaited {
    /// Begins to wait, as the process begins.
    pub fn new() -> Awaited {
        Awaited {
            since: 0,
            looked: 0,
        }
    }

    /// Notes the clock's reading, once a turn. A turn waits half a second at most: in any longer time the board itself was held
    /// up.
    pub fn pass(&mut self, now: u64)
        ensures since { self.new.since ≡ signs.counted_from self.old.since self.old.looked now }
        ensures looked { self.new.looked ≡ now }
    {
        let held = now
            .saturating_sub(self.looked)
            .saturating_sub(LONGEST_REPEAT_WAIT);
        self.since = now.min(self.since.saturating_add(held));
        self.looked = now;
    }

    /// Notes that a datagram came now, with the answer to it.
    pub fn note(&mut self, answer: Result<What, BoardRefusal>, now: u64) {
        if is_here(answer) {
            self.since = now;
        }
    }

    /// Whether the last such vote is `LONGEST_WAIT` or longer ago.
    pub fn is_over(&self, now: u64) -> bool {
        now.saturating_sub(self.since) >= LONGEST_WAIT
    }
}
