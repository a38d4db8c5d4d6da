//! The seams to the machine: links that carry datagrams between stations, the clock, and what scorers type. With them, a link
//! over another one: a window for stations that are behind.
#![tactic(auto)]

mod aside;
mod asking;
mod catch_up;
mod clock;
mod company;
mod early;
mod keys;
mod known;
mod link;
mod log;
mod sending;
mod silence;
mod stand;
mod times;
mod window;

pub use aside::{Aside, HeldLine, HeldLines};
pub use clock::Clock;
pub use keys::{Keys, LINE_ROOM, LineBuffer, MoreLines, Typed};
pub use link::{
    Arrival, DatagramBuffer, Link, MOST_TAKEN, PeerLink, ROOM, Receivers, SharedLink, Taken,
};
pub use log::{ClockLog, InputLog, Log};
pub use sending::send_each;
pub use stand::Stand;
pub use window::{Window, what_passes_is_kept};
