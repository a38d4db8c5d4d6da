//! What tells a station the time.

ghost use Rattle.std.specs.Prelude.{◌≡◌, ◌∷◌, ◌++◌, ℕ, List, []};

/// Tells the time. Nothing but its readings is known: it may stand still, jump or go back. A station whose clock is wrong
/// sends too often or too seldom.
pub trait Clock {
    /// Its readings, oldest first.
    ghost readings: { Self → List ℕ };

    /// Returns the milliseconds since some moment.
    fn millis(&mut self) -> u64
        ensures { readings self.new ≡ readings self.old ++ result ∷ [] };
}
