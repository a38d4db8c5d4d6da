//! Addresses of stations.

use seal::MOST_PEERS;
use std::net::{IpAddr, SocketAddr};

/// Where a station listens, and the text that says so.
#[derive(Clone, Copy)]
pub struct Address<'a> {
    pub text: &'a str,
    pub socket: SocketAddr,
}

/// Whether a station can be reached at an address: its port isn't 0, and it isn't the broadcast address.
fn is_a_place(socket: SocketAddr) -> bool {
    let is_everybodys = match socket.ip() {
        IpAddr::V4(address) => address.is_broadcast(),
        IpAddr::V6(_) => false,
    };
    socket.port() != 0 && !is_everybodys
}

/// Returns the address that a text says: numbers, a colon and a port.
fn address_in(text: &str) -> Option<Address<'_>> {
    match text.parse::<SocketAddr>() {
        Ok(socket) if is_a_place(socket) => Some(Address { text, socket }),
        _ => None,
    }
}

/// Returns a peer's address for a station at `at`, if the text is one machine's address, of the same family: no socket reaches
/// both. A group's address, and the unspecified one, are no machine's.
fn peer_in(text: &str, at: SocketAddr) -> Option<SocketAddr> {
    let peer = address_in(text)?.socket;
    let is_nobodys = peer.ip().is_multicast() || peer.ip().is_unspecified();
    (peer.is_ipv4() == at.is_ipv4() && !is_nobodys).then_some(peer)
}

/// Returns the address that the text at this index says, if there is one.
fn peer_of(texts: &[&str], index: usize, at: SocketAddr) -> Option<Option<SocketAddr>> {
    match texts.get(index) {
        Some(text) => Some(Some(peer_in(*text, at)?)),
        None => Some(None),
    }
}

/// Returns where a station listens, and the addresses of its peers, if these texts are addresses of one family and not too
/// many.
pub fn addresses_in<'a>(
    at: &'a str,
    first: &str,
    others: &[&str],
) -> Option<(Address<'a>, [Option<SocketAddr>; MOST_PEERS])> {
    if others.len() >= MOST_PEERS {
        return None;
    }
    let at = address_in(at)?;
    let peers = [
        Some(peer_in(first, at.socket)?),
        peer_of(others, 0, at.socket)?,
        peer_of(others, 1, at.socket)?,
        peer_of(others, 2, at.socket)?,
        peer_of(others, 3, at.socket)?,
    ];
    Some((at, peers))
}
