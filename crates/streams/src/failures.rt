//! How many calls on a stream failed: a count without a maximum that takes no memory and that only clauses read.

ghost use Rattle.std.specs.Prelude.{◌≡◌, suc};

use std::snapshot::Snapshot;

/// How many calls have failed.
#[derive(Drop)]
pub enum Failures {
    NoneYet,
    OneMore(Snapshot<Failures>),
}

impl Failures {
    ghost use Rattle.streams.specs.Failures.{failure_count};

    /// Returns the count with one more failed call.
    pub fn one_more(&self) -> Failures
        ensures { failure_count result ≡ suc (failure_count self.now) }
    {
        Failures::OneMore(Snapshot::of(self))
    }
}
