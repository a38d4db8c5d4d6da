//! The state that a desk's process keeps between its calls.

use crate::pace::Pace;
use crate::peer::Peer;
use station_texts::warned::Warned;

/// The state that a desk's process keeps between its calls.
#[derive(Clone, Copy)]
pub struct Between {
    pub pace: Pace,
    pub peer: Peer,
    pub warned: Warned,
    /// The clock's reading as the newest message came, or at the end of the last turn.
    pub now: u64,
    /// How many milliseconds from then the page that shows the desk may be left alone.
    pub shown_wait: u64,
}
