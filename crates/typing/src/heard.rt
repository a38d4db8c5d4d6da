//! What a terminal receives: keys from the scorer and rows from the desk.

ghost use Rattle.std.specs.Prelude.{◌≡◌, ◌∷◌, ◌++◌, List, [], take};
ghost use Rattle.typing.specs.Courses.{Heard, IsHeard};

use std::snapshot::Snapshot;

/// What came next: nothing yet, a typed byte, this many bytes of the desk's rows, the end of the rows, or a failure to read.
#[derive(Clone, Copy)]
pub enum Came {
    Nothing,
    Key(u8),
    Rows(usize),
    NoMoreRows,
    Failed,
}

/// A source of keys and rows. Nothing is known of when they come.
pub trait Inputs {
    /// All keys and rows that came, the oldest first.
    ghost heard: { Self → List Heard };

    /// Returns what comes next. It may wait for it.
    fn next(&mut self, rows: &mut [u8; 256]) -> Came
        ensures { IsHeard result rows.new (heard self.old) (heard self.new) };
}

/// All keys and rows that came, in order: only contracts read it. It takes no memory.
#[derive(Drop)]
pub enum HeardLog {
    Empty,
    Key(Snapshot<HeardLog>, Snapshot<u8>),
    Rows(Snapshot<HeardLog>, Snapshot<[u8; 256]>, Snapshot<usize>),
}

impl HeardLog {
    ghost use Rattle.typing.specs.Courses.{Pressed, Rows};
    ghost use Rattle.typing.specs.Logs.{heard_in};

    /// Returns this log with a typed byte added.
    pub fn key(&self, byte: u8) -> HeardLog
        ensures { heard_in result ≡ heard_in self.now ++ Pressed byte ∷ [] }
    {
        HeardLog::Key(Snapshot::of(self), Snapshot::of(&byte))
    }

    /// Returns this log with rows added: the first `count` bytes of the buffer.
    pub fn rows(&self, buffer: &[u8; 256], count: usize) -> HeardLog
        ensures { heard_in result ≡ heard_in self.now ++ Rows (take count buffer.now) ∷ [] }
    {
        HeardLog::Rows(
            Snapshot::of(self),
            Snapshot::of(buffer),
            Snapshot::of(&count),
        )
    }
}
