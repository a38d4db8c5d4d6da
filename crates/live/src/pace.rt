//! When a station says what it says unasked, and how long it waits for datagrams.

ghost use Rattle.std.specs.Prelude.{◌≡◌, ◌≤◌, ◌<◌, IfSome, false};
ghost use Rattle.std.proofs.Props.{props};
ghost use Rattle.live.specs.Ticks.{recent_until};

use crate::times::{FIRST_REPEAT_WAIT, LONGEST_REPEAT_WAIT};

/// When a station next says what it says unasked: at once at a new position, again after 20 ms, then after twice that and so
/// on, up to twice a second. Whatever its clock shows, what was said half a second ago or longer is due.
#[derive(Clone, Copy, Debug)]
pub struct Pace {
    due: u64,
    wait: u64,
    /// Whether to wait for the next datagram: not if another one was taken in this turn, or if a line is ready to be taken.
    waits: bool,
    /// The clock's reading when something was last due, if anything was.
    ticked: Option<u64>,
    /// The clock's last reading in this turn, if there was one.
    looked: Option<u64>,
    ghost soon: { wait ≤ 500 },
    ghost due_soon: { due ≤ recent_until ticked },
    ghost in_time: { IfSome looked (λ now. now < recent_until ticked) } by { Prim.hlevel props },
}

impl Pace {
    ghost use Rattle.live.specs.Paces as paces;
    ghost use Rattle.live.specs.Paces.{paced, ticking_of};

    /// Returns the pace of a station that begins: something is due at once.
    pub fn new() -> Pace
        ensures { paced result ≡ paces.at_once }
    {
        Pace {
            due: 0,
            wait: FIRST_REPEAT_WAIT,
            waits: false,
            ticked: None,
            looked: None,
        }
    }

    /// Sets whether to wait for the next datagram.
    pub fn set_waits(&mut self, waits: bool)
        ensures { paced self.new ≡ record (paced self.old) { waits = waits } }
    {
        self.waits = waits;
    }

    /// Ends the turn.
    pub fn end_turn(&mut self)
        ensures { paced self.new ≡ paces.turn_ended (paced self.old) }
    {
        self.looked = None;
    }

    /// Returns how long to wait for the next datagram: for the first of a turn until something is due, for any further one not
    /// at all.
    pub fn take_wait(&mut self, now: u64) -> u64
        ensures value { result ≡ paces.wait_left (paced self.old) now }
        ensures pace { paced self.new ≡ record (paced self.old) { waits = false } }
    {
        let waits = self.waits;
        self.waits = false;
        if waits {
            LONGEST_REPEAT_WAIT.min(self.due.saturating_sub(now))
        } else {
            0
        }
    }

    /// Whether something is due. If so, it is said now, and is due again after the wait, which then doubles.
    pub fn take_due(&mut self, now: u64) -> bool
        ensures due { result ≡ paces.is_due (paced self.old) now }
        ensures pace { paced self.new ≡ paces.after_taken result (paced self.old) now }
    {
        let is_due = self.due <= now;
        self.looked = Some(now);
        if !is_due {
            return false;
        }
        self.ticked = Some(now);
        self.due = now.saturating_add(self.wait);
        self.wait = LONGEST_REPEAT_WAIT.min(self.wait * 2);
        true
    }

    /// At a new position, what is to be said is due at once. Otherwise, if an answer may come soon, it is due after the first
    /// wait at the latest.
    pub fn note(&mut self, is_new: bool, may_come: bool, now: u64)
        ensures { paced self.new ≡ paces.noted is_new may_come (paced self.old) now }
    {
        if is_new {
            self.due = 0;
            self.wait = FIRST_REPEAT_WAIT;
        } else if may_come {
            self.due = self.due.min(now.saturating_add(FIRST_REPEAT_WAIT));
            self.wait = FIRST_REPEAT_WAIT;
        }
    }
}
