//! Who connects to a station's page, and what a viewer is doing.

use std::net::SocketAddr;

/// What a viewer is doing, as far as it matters to others who need a place.
#[derive(Clone, Copy)]
pub enum Stay {
    /// It hasn't asked for anything yet.
    Asking,
    /// It was answered.
    Answered,
    /// It is told each new state.
    Watching,
}

/// Somebody who connects.
#[derive(Clone, Copy)]
pub struct Guest {
    /// The address that was connected to.
    pub at: SocketAddr,
    /// The network that the connection comes from.
    pub from: u64,
    /// Whether no seat was free.
    pub is_behind: bool,
}
