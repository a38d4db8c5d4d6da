//! A station's clock.

use links::{Clock, ClockLog};

/// The machine's clock, as it was last read.
#[derive(Drop)]
pub struct MonotonicClock<'a, R> {
    machine: &'a R,
    last: u64,
    log: ClockLog,
}

impl<'a, R: std::time::Clock> MonotonicClock<'a, R> {
    /// Returns a clock that wasn't read yet.
    pub fn new(machine: &'a R) -> MonotonicClock<'a, R> {
        MonotonicClock {
            machine,
            last: 0,
            log: ClockLog::Empty,
        }
    }
}

impl<R: std::time::Clock> Clock for MonotonicClock<'_, R> {
    ghost use Rattle.links.specs.Logs.{readings_of};

    ghost readings = { λ clock. readings_of clock.log };

    /// Returns the time of the last reading if the machine's clock can't be read.
    fn millis(&mut self) -> u64 {
        if let Ok(time) = self.machine.monotonic() {
            let millis = u64::from(time.subsec_millis());
            self.last = time.as_secs().saturating_mul(1_000).saturating_add(millis);
        }
        self.log = self.log.read(self.last);
        self.last
    }
}
