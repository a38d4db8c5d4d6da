//! How long a station has been silent.

use crate::times::LONGEST_STATION_SILENCE;

/// When something was last sent to all, if ever.
#[derive(Clone, Copy)]
pub struct Silence {
    last: Option<u64>,
}

impl Silence {
    /// Returns the state before anything is sent.
    pub fn new() -> Silence {
        Silence { last: None }
    }

    /// Notes that something is sent now.
    pub fn end(&mut self, now: u64) {
        self.last = Some(now);
    }

    /// Whether something was sent before, but nothing for the last two seconds.
    pub fn is_long(&self, now: u64) -> bool {
        match self.last {
            Some(last) => now.saturating_sub(last) >= LONGEST_STATION_SILENCE,
            None => false,
        }
    }
}
