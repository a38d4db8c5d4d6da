//! What carries sealed datagrams between a station and its peers, and a log of what passed at it.

ghost use Rattle.std.specs.Prelude.{◌≡◌, ◌∷◌, ◌++◌, List, [], take};
ghost use Rattle.links.specs.Passed.{Passed, Sent, IsTakenUpTo};
ghost use Rattle.links.specs.declared.link.Receivers.TheVariants.{ToAll, ToOne};
ghost use Rattle.seal.specs.Tagged.{bytes_of};

use links::{Receivers, Taken};
use std::snapshot::Snapshot;
use wire::MessageBytes;

/// The tag of a sealed datagram.
pub type Tag = [u8; 16];

/// A sealed datagram without a receipt: the 48 bytes of a message and the 16 of its tag.
pub type SealedBytes = [u8; 64];

/// A message to be sent: its tag for each of five peers, and its receipt, if any, for all peers but the first. Each peer is
/// sent only its own tag (`form_for`).
#[derive(Clone, Copy)]
pub struct TaggedMessage {
    pub message: MessageBytes,
    pub receipt: Option<Tag>,
    pub tags: [Tag; 5],
}

/// How many bytes of a sealed datagram are taken at most: more than it has, so that a longer datagram is noticed.
pub const SEALED_ROOM: usize = 81;

/// A buffer for a sealed datagram that is taken.
pub type SealedBuffer = [u8; SEALED_ROOM];

/// Carries sealed datagrams between a station and its peers: to each peer a message with the peer's tag. Nothing is known of
/// what it loses, changes or makes up; only what was handed to it and what it gave is recorded.
pub trait SealedCarrier {
    /// What passed, still sealed, oldest first.
    ghost carried: { Self → List Passed };

    /// Sends a message to every peer. What can't be sent is lost.
    fn carry(&mut self, message: &TaggedMessage)
        ensures { carried self.new ≡ carried self.old ++ Sent ToAll (bytes_of message.now) ∷ [] };

    /// Sends a message to the peer whose datagram was taken last, and to no other. What can't be sent is lost.
    fn carry_back(&mut self, message: &TaggedMessage)
        ensures { carried self.new ≡ carried self.old ++ Sent ToOne (bytes_of message.now) ∷ [] };

    /// Sends a message to the peer of this number, if there is one. What can't be sent is lost.
    fn carry_to(&mut self, peer: usize, message: &TaggedMessage)
        ensures { carried self.new ≡ carried self.old ++ Sent ToOne (bytes_of message.now) ∷ [] };

    /// Returns the carrier's own number of the peer whose datagram was taken last.
    fn last_peer(&self) -> usize;

    /// Takes the next datagram from a peer into the front of the buffer. Waits at most `wait` milliseconds, and only until a
    /// scorer may have typed. Datagrams from anyone else, and those that can't be taken, are lost.
    fn bring(&mut self, buffer: &mut SealedBuffer, wait: u64) -> Taken
        ensures { IsTakenUpTo 81 result buffer.new (carried self.old) (carried self.new) };
}

/// Every message that was sent, with its tags, and every datagram that came, in order. Only clauses read it.
#[derive(Drop)]
pub enum CarriedLog {
    Empty,
    Sent(Snapshot<CarriedLog>, Snapshot<Receivers>, Snapshot<TaggedMessage>),
    Came(Snapshot<CarriedLog>, Snapshot<SealedBuffer>, Snapshot<usize>),
}

impl CarriedLog {
    ghost use Rattle.links.specs.Passed.{Came};
    ghost use Rattle.seal.specs.Carried.{carried_of};

    /// Returns this log with a message added that was sent to these receivers.
    pub fn sent(&self, to: Receivers, message: &TaggedMessage) -> CarriedLog
        ensures { carried_of result ≡ carried_of self.now ++ Sent to (bytes_of message.now) ∷ [] }
    {
        CarriedLog::Sent(Snapshot::of(self), Snapshot::of(&to), Snapshot::of(message))
    }

    /// Returns this log with a received datagram added: the first `count` bytes of the buffer.
    pub fn came(&self, buffer: &SealedBuffer, count: usize) -> CarriedLog
        ensures { carried_of result ≡ carried_of self.now ++ Came (take count buffer.now) ∷ [] }
    {
        CarriedLog::Came(
            Snapshot::of(self),
            Snapshot::of(buffer),
            Snapshot::of(&count),
        )
    }
}
