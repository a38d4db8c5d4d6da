//! A listener whose viewers take little memory of the operating system.

use libc::net::{SO_SNDBUF, SOL_SOCKET, setsockopt};
use mio::net::{TcpListener, UdpSocket};
use std::io;
use std::net::{IpAddr, Ipv4Addr, Net, SocketAddr};
use std::os::fd::{AsRawFd, RawFd};

/// How many bytes the operating system should buffer for a viewer that takes none; it allocates twice as many.
const HELD: i32 = 65_536;

/// Limits the send buffer of each connection of a listener to `HELD`. It is no fault if that fails.
fn limit_held(listener: RawFd) {
    let mut value = [0u8; 16];
    value[..4].copy_from_slice(&HELD.to_ne_bytes());
    let _ = unsafe { setsockopt(listener, SOL_SOCKET, SO_SNDBUF, &value, 4) };
}

/// Listens at this address.
pub fn listener_at(net: &impl Net, at: SocketAddr) -> io::Result<TcpListener> {
    let listener = TcpListener::bind(net, at)?;
    limit_held(listener.as_raw_fd());
    Ok(listener)
}

/// Returns the address by which the machine reaches others, if it has one. Nothing is sent to find it.
fn own_address(net: &impl Net) -> Option<IpAddr> {
    let any = IpAddr::V4(Ipv4Addr::new(0, 0, 0, 0));
    let elsewhere = IpAddr::V4(Ipv4Addr::new(192, 0, 2, 1));
    let socket = UdpSocket::bind(net, SocketAddr::new(any, 0)).ok()?;
    socket.connect(SocketAddr::new(elsewhere, 9)).ok()?;
    Some(socket.local_addr().ok()?.ip())
}

/// Returns the address at which others reach a page: its own, or, if it listens at all addresses, the one by which the machine
/// reaches others.
pub fn reached_at(net: &impl Net, at: SocketAddr) -> SocketAddr {
    if !at.ip().is_unspecified() {
        return at;
    }
    match own_address(net) {
        Some(own) => SocketAddr::new(own, at.port()),
        None => at,
    }
}
