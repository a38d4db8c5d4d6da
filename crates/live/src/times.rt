//! When a station repeats itself, and when it reminds its scorer.

/// The milliseconds that a station first waits before it repeats what it says unasked.
/// An answer over a ground's network is there by then, and a scorer doesn't notice one that was lost.
pub const FIRST_REPEAT_WAIT: u64 = 20;

/// The longest wait before a repeat, in milliseconds, to which the first one doubles.
/// At rest it speaks twice a second: a station that begins late soon hears it, and it costs next to nothing.
pub const LONGEST_REPEAT_WAIT: u64 = 500;

/// The milliseconds after which a scorer is told that the other has written, or that the other desk isn't heard.
/// Two who watch one ball write within a few seconds, and a start takes a second or two.
pub const REMINDER_WAIT: u64 = 5_000;
