//! A link whose datagrams are sealed.

ghost use Rattle.std.specs.Prelude.{◌≡◌, ◌∷◌, ◌++◌, []};
ghost use Rattle.links.specs.Passed.{IsTaken, Sent};
ghost use Rattle.links.specs.declared.link.Receivers.TheVariants.{ToAll, ToOne};
ghost use Rattle.seal.specs.Receipts as laws;
ghost use Rattle.seal.specs.Tagged.{bytes_of};

use crate::carrier::{SEALED_ROOM, SealedCarrier, Tag, TaggedMessage};
use crate::datagram::{SEALED_WITH_RECEIPT, TAG};
use crate::receipts::Receipts;
use crate::ring::Ring;
use links::{DatagramBuffer, Link, PeerLink, Taken};
use wire::{MessageBytes, SIZE};

/// Returns a message with this receipt as its tag for every peer.
fn handed_back(message: &MessageBytes, receipt: Tag) -> TaggedMessage
    ensures { result ≡ laws.handed_back message.now receipt }
{
    TaggedMessage {
        message: *message,
        receipt: None,
        tags: [receipt; 5],
    }
}

/// Returns what is sent for a message: with the receipt that is kept for it, if any, instead of the station's own tags.
fn outgoing(ring: &Ring, receipts: &Receipts, message: &MessageBytes) -> TaggedMessage
    ensures { result ≡ laws.outgoing ring.now receipts.now message.now }
{
    match receipts.kept_for(message) {
        Some(receipt) => handed_back(message, receipt),
        None => ring.tagged(message),
    }
}

/// Keeps the receipt in bytes that opened, if they have one and the station keeps receipts.
fn keep(ring: &Ring, receipts: &mut Receipts, bytes: &[u8])
    ensures { laws.IsKeptOf ring.now receipts.old receipts.new bytes.now }
{
    if !ring.keeps_receipts() || bytes.len() != SEALED_WITH_RECEIPT {
        return;
    }
    let mut message = [0; SIZE];
    message.copy_from_slice(&bytes[..SIZE]);
    let mut receipt = [0; TAG];
    receipt.copy_from_slice(&bytes[SIZE..SIZE + TAG]);
    receipts.keep(&message, &receipt);
}

/// A link that seals what it sends for each peer, and opens what comes by its sender's seal. It reports what doesn't open as
/// such and passes none of it on: so whatever is taken was opened, whatever the carrier brings. At a board with a key for each
/// pair it keeps the receipts of desks' votes, and sends a vote with its receipt where it has one.
#[derive(Drop)]
pub struct Sealed<R> {
    carrier: R,
    ring: Ring,
    receipts: Receipts,
}

impl<R: SealedCarrier> Sealed<R> {
    /// Returns a link over a carrier, with a station's seals and the receipts that it keeps.
    pub fn new(carrier: R, ring: Ring, receipts: Receipts) -> Sealed<R>
        ensures carrier { result.carrier ≡ carrier }
        ensures ring { result.ring ≡ ring }
        ensures receipts { result.receipts ≡ receipts }
    {
        Sealed {
            carrier,
            ring,
            receipts,
        }
    }

    /// Returns the carrier of its sealed datagrams.
    pub fn carrier(&self) -> &R
        ensures { result.now ≡ self.now.carrier }
    {
        &self.carrier
    }
}

impl<R: SealedCarrier> Link for Sealed<R> {
    ghost use Rattle.seal.specs.Opening.{passing};

    ghost log = { λ sealed. passing sealed.ring (R.carried sealed.carrier) };

    fn send(&mut self, bytes: &MessageBytes)
        ensures log { passing self.new.ring (R.carried self.new.carrier)
            ≡ passing self.old.ring (R.carried self.old.carrier) ++ Sent ToAll bytes.now ∷ [] }
        ensures sent { R.carried self.new.carrier
            ≡ R.carried self.old.carrier ++ Sent ToAll (bytes_of (laws.outgoing self.old.ring self.old.receipts bytes.now)) ∷ [] }
        ensures same { (self.new.ring ≡ self.old.ring) × (self.new.receipts ≡ self.old.receipts) }
    {
        self.carrier
            .carry(&outgoing(&self.ring, &self.receipts, bytes));
    }

    fn reply(&mut self, bytes: &MessageBytes)
        ensures log { passing self.new.ring (R.carried self.new.carrier)
            ≡ passing self.old.ring (R.carried self.old.carrier) ++ Sent ToOne bytes.now ∷ [] }
        ensures sent { R.carried self.new.carrier
            ≡ R.carried self.old.carrier ++ Sent ToOne (bytes_of (laws.outgoing self.old.ring self.old.receipts bytes.now)) ∷ [] }
        ensures same { (self.new.ring ≡ self.old.ring) × (self.new.receipts ≡ self.old.receipts) }
    {
        self.carrier
            .carry_back(&outgoing(&self.ring, &self.receipts, bytes));
    }

    fn take(&mut self, buffer: &mut DatagramBuffer, wait: u64) -> Taken
        ensures taken { IsTaken result buffer.new (passing self.old.ring (R.carried self.old.carrier))
            (passing self.new.ring (R.carried self.new.carrier)) }
        ensures kept { laws.KeepsOf self.old.ring result self.old.receipts self.new.receipts
            (R.carried self.old.carrier) (R.carried self.new.carrier) }
        ensures same { self.new.ring ≡ self.old.ring }
    {
        let mut sealed = [0; SEALED_ROOM];
        let count = match self.carrier.bring(&mut sealed, wait) {
            Taken::Datagram(count) => count,
            missed => return missed,
        };
        if self.ring.opened(&sealed[..count], buffer) {
            keep(&self.ring, &mut self.receipts, &sealed[..count]);
            Taken::Datagram(SIZE)
        } else {
            Taken::Unopened
        }
    }
}

impl<R: SealedCarrier> PeerLink for Sealed<R> {
    ghost use Rattle.seal.specs.Opening.{passing};

    fn send_to(&mut self, peer: usize, bytes: &MessageBytes)
        ensures log { passing self.new.ring (R.carried self.new.carrier)
            ≡ passing self.old.ring (R.carried self.old.carrier) ++ Sent ToOne bytes.now ∷ [] }
        ensures sent { R.carried self.new.carrier
            ≡ R.carried self.old.carrier ++ Sent ToOne (bytes_of (laws.outgoing self.old.ring self.old.receipts bytes.now)) ∷ [] }
        ensures same { (self.new.ring ≡ self.old.ring) × (self.new.receipts ≡ self.old.receipts) }
    {
        self.carrier
            .carry_to(peer, &outgoing(&self.ring, &self.receipts, bytes));
    }

    fn last_peer(&self) -> usize {
        self.carrier.last_peer()
    }
}
