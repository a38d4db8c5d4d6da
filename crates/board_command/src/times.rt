//! How long the contents of a board's files stand.

/// The least time in milliseconds between two writes of a board's file. A board that catches up writes ten times a second.
pub const SHORTEST_FILE_AGE: u64 = 100;

/// The time in milliseconds after which a failed write of a board's file is tried again. It is tried each second, since nobody
/// is at a display to start it again.
pub const FILE_RETRY_WAIT: u64 = 1_000;

/// The longest time in milliseconds that a board's state stands. It is less than ten seconds by more than a turn takes: the
/// time of the last write shows whether the board lives.
pub const LONGEST_STATE_AGE: u64 = 9_400;
