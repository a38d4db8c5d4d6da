//! How long asks and windows wait.

/// How many milliseconds to wait at least for an answer before the ask is sent again.
/// On one machine an answer takes about one, so no ask is repeated while its answer is on its way.
pub const SHORTEST_ASK_PAUSE: u64 = 4;

/// How many milliseconds to wait for an answer while no round trip was measured.
/// As long as the first repeat: nothing is known of the network yet.
pub const FIRST_ASK_PAUSE: u64 = 20;

/// How many milliseconds to wait at most for an answer, and how many a round trip takes at most.
/// Anything longer is no round trip: a scorer is thinking.
pub const LONGEST_ASK_PAUSE: u64 = 250;

/// How many milliseconds after a window opens on a block no other opens on it: until then an ask stands for itself alone.
/// Otherwise each recorded ask, which anybody may repeat, would bring 63 votes.
pub const WINDOW_PAUSE: u64 = 500;

/// After how many milliseconds a peer may open one more window.
/// Ten a second: a peer that has used up those of a whole book still gets on, and a flood of asks brings no more.
pub const WINDOW_REFILL: u64 = 100;

/// After how many milliseconds without sending anything a station asks for the votes of its position.
/// Less than half the time after which the other desk counts as not heard, so one such ask may be lost.
pub const LONGEST_STATION_SILENCE: u64 = 2_000;
