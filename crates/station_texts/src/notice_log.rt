//! The notices that a board has told: only contracts read them.

ghost use Rattle.std.specs.Prelude.{◌≡◌, ◌∷◌, ◌++◌, []};

use crate::notices::Notice;
use std::snapshot::Snapshot;

/// All notices that were told, in order.
#[derive(Drop)]
pub enum NoticeLog {
    Empty,
    Told(Snapshot<NoticeLog>, Snapshot<Notice>),
}

impl NoticeLog {
    ghost use Rattle.station_texts.specs.NoticeLogs.{notices_of};

    /// Returns this log with a notice added at its end.
    pub fn told(&self, notice: Notice) -> NoticeLog
        ensures { notices_of result ≡ notices_of self.now ++ notice ∷ [] }
    {
        NoticeLog::Told(Snapshot::of(self), Snapshot::of(&notice))
    }
}
