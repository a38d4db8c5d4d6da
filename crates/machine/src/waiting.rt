//! Waiting until something can be read.

use libc::net::{POLLIN, poll};
use libc::types::pollfd;
use std::os::fd::RawFd;

/// The descriptor that a wait ignores.
pub const NO_DESCRIPTOR: RawFd = -1;

/// What else ends a wait for datagrams: a keyboard at which something was typed, and a page at which somebody came or asks.
#[derive(Clone, Copy)]
pub struct WaitEnds {
    pub keyboard: Option<RawFd>,
    pub page: Option<RawFd>,
}

impl WaitEnds {
    /// Nothing else ends a wait.
    pub const NONE: WaitEnds = WaitEnds {
        keyboard: None,
        page: None,
    };
}

/// Returns the request that asks whether a descriptor can be read.
fn reads_of(descriptor: RawFd) -> pollfd {
    pollfd {
        fd: descriptor,
        events: POLLIN,
        revents: 0,
    }
}

/// What may be read after a wait. If the wait failed, all may be: so the waiting station reads it, and no wait ends at once
/// for ever.
#[derive(Clone, Copy)]
pub struct Ready {
    pub socket: bool,
    pub page: bool,
}

/// Waits at most `limit` milliseconds until the socket or one of these ends can be read, and returns which may be.
pub fn wait_at(socket: RawFd, ends: WaitEnds, limit: u64) -> Ready {
    let keyboard = ends.keyboard.unwrap_or(NO_DESCRIPTOR);
    let page = ends.page.unwrap_or(NO_DESCRIPTOR);
    let mut asked = [reads_of(socket), reads_of(keyboard), reads_of(page)];
    let limit = i32::try_from(limit).unwrap_or(i32::MAX);
    let has_failed = poll(&mut asked, limit) < 0;
    Ready {
        socket: has_failed || asked[0].revents != 0,
        page: has_failed || asked[2].revents != 0,
    }
}
