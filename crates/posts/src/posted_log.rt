//! All posted lines that a desk was given.

ghost use Rattle.std.specs.Prelude.{◌≡◌, ◌∷◌, ◌++◌, []};

use crate::posted::PostedLine;
use std::snapshot::Snapshot;

/// Every posted line that a desk was given, in order.
#[derive(Drop)]
pub enum PostedLog {
    Empty,
    Line(Snapshot<PostedLog>, Snapshot<PostedLine>),
}

impl PostedLog {
    ghost use Rattle.posts.specs.PostedLogs.{lines_of};

    /// Adds a line to the log.
    pub fn line(&self, line: &PostedLine) -> PostedLog
        ensures { lines_of result ≡ lines_of self.now ++ line.now.text.items ∷ [] }
    {
        PostedLog::Line(Snapshot::of(self), Snapshot::of(line))
    }
}
