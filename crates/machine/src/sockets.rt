//! A match's link on loopback.

ghost use Rattle.std.specs.Prelude.{◌≤◌, length, IfOk, IfSome};

use crate::peers::{Port, is_late, missed};
use agree_core::Asker;
use links::{DatagramBuffer, Link, Log, Receivers, SharedLink, Taken};
use std::io;
use std::net::{Ipv4Addr, Net, SocketAddr, SocketAddrV4};
use wire::MessageBytes;

/// How many datagrams from strangers are skipped before one counts as lost.
const MOST_STRANGERS: usize = 256;

/// Returns the other two stations.
fn others(station: Asker) -> [Asker; 2] {
    match station {
        Asker::A => [Asker::B, Asker::Board],
        Asker::B => [Asker::A, Asker::Board],
        Asker::Board => [Asker::A, Asker::B],
    }
}

/// Opens a socket at a port of its own.
fn port(net: &impl Net) -> io::Result<Port> {
    let anywhere = SocketAddrV4::new(Ipv4Addr::LOCALHOST, 0);
    Port::new(net, SocketAddr::V4(anywhere))
}

/// A station's socket, and how many datagrams that were sent to it haven't been received.
#[derive(Drop)]
struct Inbox {
    port: Port,
    under_way: usize,
}

impl Inbox {
    fn new(net: &impl Net) -> io::Result<Inbox> {
        let port = port(net)?;
        Ok(Inbox { port, under_way: 0 })
    }

    /// Returns how long to wait for the next datagram: not at all if none is under way.
    fn wait(&self, longest: u64) -> u64 {
        if self.under_way > 0 { longest } else { 0 }
    }

    /// Receives the next datagram, and returns its length and its sender's address. If none comes in time, none is under way
    /// any more.
    fn receive(&mut self, buffer: &mut [u8], longest: u64) -> io::Result<(usize, SocketAddr)>
        ensures { IfOk result (λ came. came.0 ≤ length buffer.old) }
    {
        let wait = self.wait(longest);
        let came = self.port.receive(buffer, wait);
        if came.as_ref().is_err_and(is_late) {
            self.under_way = 0;
        }
        came
    }
}

/// An inbox on loopback for each station, and how many of the next datagrams to drop.
#[derive(Drop)]
struct Ports {
    a: Inbox,
    b: Inbox,
    board: Inbox,
    to_drop: u16,
}

impl Ports {
    /// Returns the inbox of a station.
    fn of(&self, station: Asker) -> &Inbox {
        match station {
            Asker::A => &self.a,
            Asker::B => &self.b,
            Asker::Board => &self.board,
        }
    }

    /// Returns the inbox of a station, to change it.
    fn at(&mut self, station: Asker) -> &mut Inbox {
        match station {
            Asker::A => &mut self.a,
            Asker::B => &mut self.b,
            Asker::Board => &mut self.board,
        }
    }

    fn carry(&mut self, from: Asker, to: Asker, bytes: &MessageBytes) -> io::Result<()> {
        let address = self.of(to).port.address()?;
        self.of(from).port.send(bytes.as_slice(), address)?;
        let inbox = self.at(to);
        inbox.under_way = inbox.under_way.saturating_add(1);
        Ok(())
    }

    /// Whether this is the address of this station.
    fn is_of(&self, station: Asker, address: SocketAddr) -> bool {
        match self.of(station).port.address() {
            Ok(own) => own == address,
            Err(_) => false,
        }
    }

    /// Receives the next datagram for a station, and returns its length if it comes from one of the other two.
    fn receive(&mut self, station: Asker, buffer: &mut [u8], wait: u64) -> io::Result<Option<usize>>
        ensures { IfOk result (λ came. IfSome came (λ count. count ≤ length buffer.old)) }
    {
        let (count, from) = self.at(station).receive(buffer, wait)?;
        let [one, other] = others(station);
        if self.is_of(one, from) || self.is_of(other, from) {
            let inbox = self.at(station);
            inbox.under_way = inbox.under_way.saturating_sub(1);
            Ok(Some(count))
        } else {
            Ok(None)
        }
    }

    /// Receives the next datagram for a station as `receive` does, skipping those of strangers.
    fn take(&mut self, station: Asker, buffer: &mut [u8], wait: u64) -> io::Result<Option<usize>>
        ensures { IfOk result (λ came. IfSome came (λ count. count ≤ length buffer.old)) }
    {
        for _ in 0..MOST_STRANGERS {
            if let Some(count) = self.receive(station, buffer, wait)? {
                return Ok(Some(count));
            }
        }
        Ok(None)
    }

    /// Sends bytes to the two other stations. What can't be sent is lost.
    fn send(&mut self, from: Asker, bytes: &MessageBytes) {
        for to in others(from) {
            if self.to_drop > 0 {
                self.to_drop -= 1;
            } else {
                let _ = self.carry(from, to, bytes);
            }
        }
    }
}

/// Three sockets on loopback, of two desks and a board that take turns.
#[derive(Drop)]
pub struct Sockets {
    ports: Ports,
    turn: Asker,
    log: Log,
}

impl Sockets {
    /// Opens three sockets, each at a port of its own, which drop the first `to_drop` datagrams.
    pub fn new(net: &impl Net, to_drop: u16) -> io::Result<Sockets> {
        let a = Inbox::new(net)?;
        let b = Inbox::new(net)?;
        let board = Inbox::new(net)?;
        Ok(Sockets {
            ports: Ports {
                a,
                b,
                board,
                to_drop,
            },
            turn: Asker::A,
            log: Log::Empty,
        })
    }
}

impl Link for Sockets {
    ghost use Rattle.links.specs.Logs.{passed_of};

    ghost log = { λ sockets. passed_of sockets.log };

    fn send(&mut self, bytes: &MessageBytes) {
        self.ports.send(self.turn, bytes);
        self.log = self.log.sent(Receivers::ToAll, bytes);
    }

    /// A reply goes to both others, as any datagram does.
    fn reply(&mut self, bytes: &MessageBytes) {
        self.ports.send(self.turn, bytes);
        self.log = self.log.sent(Receivers::ToOne, bytes);
    }

    fn take(&mut self, buffer: &mut DatagramBuffer, wait: u64) -> Taken {
        match self.ports.take(self.turn, buffer.as_mut_slice(), wait) {
            Ok(Some(count)) => {
                self.log = self.log.came(buffer, count);
                Taken::Datagram(count)
            }
            Ok(None) => Taken::Lost,
            Err(error) => missed(&error),
        }
    }
}

impl SharedLink for Sockets {
    fn turn_to(&mut self, station: Asker) {
        self.turn = station;
    }
}
