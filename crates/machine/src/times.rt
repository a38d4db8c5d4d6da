//! How long to wait for sockets and screens.

/// How many milliseconds a call of a socket waits at most, and how long a socket is left alone after a failed one.
/// So one that always fails doesn't keep the processor busy, and no scorer notices the delay.
pub const SOCKET_CALL_WAIT: u64 = 10;

/// How many milliseconds to wait for a screen to take a piece.
/// A terminal takes it sooner; one that doesn't is waited for at most fifty times, and then left alone.
pub const SCREEN_PIECE_WAIT: u64 = 1;
