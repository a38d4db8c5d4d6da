//! What carries datagrams between stations.

ghost use Rattle.std.specs.Prelude.{◌≡◌, ◌∷◌, ◌++◌, List, []};
ghost use Rattle.wire.specs.Layout.{Says};
ghost use Rattle.links.specs.Passed.{Passed, Sent, IsRead, IsTaken, taken_of};
ghost use Rattle.links.specs.declared.link.Receivers.TheVariants.{ToAll, ToOne};

use agree_core::{Asker, Message};
use wire::{MessageBytes, WireFault, message_of};

/// How many bytes of a datagram are taken at most: more than a message has, so that a longer datagram is noticed.
pub const ROOM: usize = 64;

/// A buffer for a datagram that is taken.
pub type DatagramBuffer = [u8; ROOM];

/// How many datagrams a station takes per turn at most.
pub const MOST_TAKEN: usize = 8;

/// The receivers of a datagram that is handed to a link.
#[derive(Clone, Copy)]
pub enum Receivers {
    /// Every peer.
    ToAll,
    /// One peer.
    ToOne,
}

/// What was taken: a datagram of this many bytes, nothing in time, a lost datagram, or one that doesn't open: it wasn't sealed
/// with this match's key and sheet, or was damaged on its way, and none of it is passed on.
#[derive(Clone, Copy, Debug, PartialEq, Eq)]
pub enum Taken {
    Datagram(usize),
    Nothing,
    Lost,
    Unopened,
}

/// What was taken, with a datagram's reading: the message of a match that it says, or the first fault of its bytes.
#[derive(Clone, Copy)]
pub enum Arrival {
    Datagram(usize, Result<Message, WireFault>),
    Nothing,
    Lost,
    Unopened,
}

impl Arrival {
    /// Returns what was taken, without its reading.
    pub fn taken(self) -> Taken
        ensures { result ≡ taken_of self }
    {
        match self {
            Arrival::Datagram(count, _) => Taken::Datagram(count),
            Arrival::Nothing => Taken::Nothing,
            Arrival::Lost => Taken::Lost,
            Arrival::Unopened => Taken::Unopened,
        }
    }
}

/// Carries datagrams between a station and its peers. Nothing is known of what it loses, changes or makes up; only what was
/// handed to it and what it gave is recorded.
pub trait Link {
    /// What passed, oldest first.
    ghost log: { Self → List Passed };

    /// Sends bytes to every peer. What can't be sent is lost.
    fn send(&mut self, bytes: &MessageBytes)
        ensures { log self.new ≡ log self.old ++ Sent ToAll bytes.now ∷ [] };

    /// Sends a message to every peer: the bytes that say it in the match of this number.
    fn send_message(&mut self, game: u64, message: &Message, bytes: &MessageBytes)
        requires { Says game bytes.now message.now }
        ensures { log self.new ≡ log self.old ++ Sent ToAll bytes.now ∷ [] }
    {
        self.send(bytes);
    }

    /// Sends bytes to the peer whose datagram was taken last, and to no other. What can't be sent is lost.
    fn reply(&mut self, bytes: &MessageBytes)
        ensures { log self.new ≡ log self.old ++ Sent ToOne bytes.now ∷ [] };

    /// Takes the next datagram from a peer into the front of the buffer. Waits at most `wait` milliseconds, and only until a
    /// scorer may have typed. Datagrams from anyone else, and those that can't be taken, are lost.
    fn take(&mut self, buffer: &mut DatagramBuffer, wait: u64) -> Taken
        ensures { IsTaken result buffer.new (log self.old) (log self.new) };

    /// Takes the next datagram as `take` does, and reads it in the match of this number.
    fn take_message(&mut self, game: u64, buffer: &mut DatagramBuffer, wait: u64) -> Arrival
        ensures { IsRead game result buffer.new (log self.old) (log self.new) }
    {
        match self.take(buffer, wait) {
            Taken::Datagram(count) => {
                let read = message_of(game, &buffer[..count]);
                Arrival::Datagram(count, read)
            }
            Taken::Nothing => Arrival::Nothing,
            Taken::Lost => Arrival::Lost,
            Taken::Unopened => Arrival::Unopened,
        }
    }
}

/// A link that tells its peers apart.
pub trait PeerLink: Link {
    /// Sends bytes to the peer of this number, if there is one. What can't be sent is lost.
    fn send_to(&mut self, peer: usize, bytes: &MessageBytes)
        ensures { Self.log self.new ≡ Self.log self.old ++ Sent ToOne bytes.now ∷ [] };

    /// Returns the link's own number of the peer whose datagram was taken last.
    fn last_peer(&self) -> usize;
}

/// A link that several stations share by turns, each one a peer of the others.
pub trait SharedLink: Link {
    /// Starts this station's turn: it sends, and datagrams that came to it are taken.
    fn turn_to(&mut self, station: Asker)
        ensures { Self.log self.new ≡ Self.log self.old };
}
