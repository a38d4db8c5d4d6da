//! The texts that a page was handed.

ghost use Rattle.std.specs.Prelude.{◌≡◌, ℕ, List, ◌∷◌, ◌++◌, []};
ghost use Rattle.station_pages.specs.Handed.{newest_or, texts_in};

use std::snapshot::Snapshot;

/// The texts that a page was handed, in order. Only clauses read it.
#[derive(Drop)]
pub enum HandedLog {
    Empty,
    Handed(Snapshot<HandedLog>, Snapshot<Vec<u8>>),
}

impl HandedLog {
    /// Adds a text.
    pub fn handed(&self, text: &Vec<u8>) -> HandedLog
        ensures texts { texts_in result ≡ texts_in self.now ++ text.now.items ∷ [] }
        ensures newest { (other : List ℕ) → newest_or other result ≡ text.now.items }
    {
        HandedLog::Handed(Snapshot::of(self), Snapshot::of(text))
    }
}
