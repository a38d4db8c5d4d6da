//! The machine: sockets, a scorer's keyboard and screen, the standard streams and a clock, each behind a trait. Nothing is
//! known of what the machine does with what it is given.
#![tactic(auto)]

mod address;
mod entered;
mod keyboard;
mod monotonic_clock;
mod peers;
mod row_log;
mod screen;
mod sockets;
mod strangers;
mod times;
mod waiting;
mod whereabouts;

pub use address::{Address, addresses_in};
pub use keyboard::Keyboard;
pub use monotonic_clock::MonotonicClock;
pub use peers::Peers;
pub use row_log::Written;
pub use screen::{Outlet, Pieces, Screen, StandardStream, draw};
pub use seal::MOST_PEERS;
pub use sockets::Sockets;
pub use strangers::Strangers;
pub use waiting::WaitEnds;
