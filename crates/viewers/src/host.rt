//! Which host a request must name.

use std::net::{IpAddr, SocketAddr};
use std::str;

/// The port of a link that names none.
const PORT: u16 = 80;

/// Whether the port at the end of a host has no leading zero.
fn has_plain_port(text: &str) -> bool {
    match text.rsplit_once(':') {
        Some((_, port)) => !port.starts_with('0'),
        None => true,
    }
}

/// Whether a host is this address with its port, or without it if it is the port of a link that names none.
fn is_address(text: &str, at: SocketAddr) -> bool {
    if let Ok(found) = text.parse::<SocketAddr>() {
        return found == at && has_plain_port(text);
    }
    if at.port() != PORT {
        return false;
    }
    let bare = match text.strip_prefix("[") {
        Some(rest) => rest.strip_suffix("]").unwrap_or(rest),
        None => text,
    };
    match bare.parse::<IpAddr>() {
        Ok(found) => found == at.ip(),
        Err(_) => false,
    }
}

/// Whether a host is `localhost` with this port, or without it if it is the port of a link that names none.
fn is_own_name(text: &str, at: SocketAddr) -> bool {
    let (name, port) = match text.split_once(':') {
        Some((name, port)) => (name, Some(port)),
        None => (text, None),
    };
    if !name.as_bytes().eq_ignore_ascii_case(b"localhost") {
        return false;
    }
    match port {
        Some(port) => port.parse::<u16>() == Ok(at.port()) && has_plain_port(text),
        None => at.port() == PORT,
    }
}

/// Whether the host of a request is the address that it came to: the address in numbers, or `localhost` if no other machine can
/// reach it. So a page loaded elsewhere can't reach this one under a host name of its own.
pub fn is_named(host: &[u8], at: SocketAddr) -> bool {
    let Ok(text) = str::from_utf8(host) else {
        return false;
    };
    is_address(text, at) || (at.ip().is_loopback() && is_own_name(text, at))
}
