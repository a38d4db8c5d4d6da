//! What was told of whom a board heard: only contracts read it.

ghost use Rattle.std.specs.Prelude.{◌≡◌, ◌∷◌, ◌++◌, []};

use agree_core::Message;
use std::snapshot::Snapshot;

/// Every message that a board heard, in order, each with the time.
#[derive(Drop)]
pub enum HearingLog {
    Empty,
    Heard(Snapshot<HearingLog>, Snapshot<Message>, Snapshot<u64>),
}

impl HearingLog {
    ghost use Rattle.live.specs.Hearings.{hearing_of};
    ghost use Rattle.live.specs.HearingLogs.{hearings_of};

    /// Returns this log with a message added at its end, heard at this time.
    pub fn heard(&self, message: &Message, at: u64) -> HearingLog
        ensures { hearings_of result ≡ hearings_of self.now ++ hearing_of message.now at ∷ [] }
    {
        HearingLog::Heard(Snapshot::of(self), Snapshot::of(message), Snapshot::of(&at))
    }
}
