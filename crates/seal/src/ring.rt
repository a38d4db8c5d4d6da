//! A station's seals, one for each of its peers, and which of them open a datagram.

ghost use Rattle.std.specs.Prelude.{◌≡◌, ◌<◌, ◌≤◌, ◌+◌, ◌∷◌, ◌++◌, [], ℕ, List, drop, false, if◌then◌else◌, length, nat_eq, slice_get, take, true};
ghost use Rattle.arrayvec.specs.ArrayVec.{array_vec_len};
ghost use Rattle.links.specs.Logs.{passed_of};
ghost use Rattle.seal.specs.Opening.{opened};
ghost use Rattle.seal.specs.Receipts.{keeps};
ghost use Rattle.seal.specs.Rings as rings;
ghost use Rattle.seal.specs.Sealed.{covered, sealed};

use crate::carrier::{Tag, TaggedMessage};
use crate::datagram::{Seal, has_size};
use agree_core::Asker;
use arrayvec::ArrayVec;
use links::{DatagramBuffer, Log, ROOM};
use wire::MessageBytes;

/// How many peers a station has at most: a desk has the other desk and four boards.
pub const MOST_PEERS: usize = 5;

/// The index of the sender's number in a message.
pub const SENDER: usize = 12;

/// The index of a message's kind: 1 is a vote.
const KIND: usize = 3;

/// A sealed datagram, with a receipt or without.
pub type SealedForm = ArrayVec<u8, 80>;

/// Appends bytes, where there is room.
fn put(form: &mut SealedForm, bytes: &[u8])
    requires { array_vec_len form.old + length bytes.now ≤ 80 }
    ensures items { form.new.items ≡ form.old.items ++ bytes.now }
    ensures len { array_vec_len form.new ≡ array_vec_len form.old + length bytes.now }
{
    let _fits = form.try_extend_from_slice(bytes);
}

/// Appends a tag.
fn put_tag(form: &mut SealedForm, tag: &Tag)
    requires { array_vec_len form.old ≤ 64 }
    ensures items { form.new.items ≡ form.old.items ++ tag.now }
    ensures len { array_vec_len form.new ≡ array_vec_len form.old + 16 }
{
    put(form, tag.as_slice());
}

/// Returns the bytes that a tag covers: a message, and its receipt if it has one.
fn covered_by(message: &MessageBytes, receipt: Option<Tag>) -> SealedForm
    ensures items { result.items ≡ covered message.now receipt }
    ensures len { array_vec_len result ≤ 64 }
{
    let mut form = SealedForm::new();
    put(&mut form, message.as_slice());
    if let Some(receipt) = receipt {
        put_tag(&mut form, &receipt);
    }
    form
}

/// Returns the bytes of a tagged message that go to a peer: the message, its receipt unless the peer is the first, and the
/// peer's tag.
pub fn form_for(peer: usize, message: &TaggedMessage) -> SealedForm
    requires { peer < 5 }
    ensures { result.items ≡ rings.form_for peer message.now }
{
    let receipt = if peer == 0 { None } else { message.receipt };
    let mut form = covered_by(&message.message, receipt);
    put_tag(&mut form, &message.tags[peer]);
    form
}

/// Whether a station opens messages from the sender of this number by the seal that it shares with its first peer.
fn is_by_first(station: Asker, sender: u8) -> bool
    ensures { result ≡ rings.is_by_first station sender }
{
    match station {
        Asker::A | Asker::B => sender != 3,
        Asker::Board => sender == 1,
    }
}

/// If these bytes are the sealed form of a message by one of these seals, puts the message into the front of the buffer and
/// returns true. Otherwise the buffer stays unchanged.
fn opened_by(seals: &[Seal], bytes: &[u8], buffer: &mut DatagramBuffer) -> bool
    ensures only { result ≡ true → rings.IsFormBy seals.now (take 48 buffer.new) bytes.now }
    ensures each { (message : List ℕ) → length message ≡ 48
        → rings.IsFormBy seals.now message bytes.now → (result ≡ true) × (take 48 buffer.new ≡ message) }
    ensures none { result ≡ false → buffer.new ≡ buffer.old }
{
    for seal in seals {
        if seal.opened(bytes, buffer) {
            return true;
        }
    }
    false
}

/// A station's seals, one shared with each of its peers. A desk's first peer is the other desk, and its others are boards. A
/// board's first peer is desk A, and all its others are desk B.
#[derive(Drop)]
pub struct Ring {
    station: Asker,
    seals: [Seal; MOST_PEERS],
    /// Whether each pair of stations has a key of its own.
    is_of_pairs: bool,
}

impl Ring {
    /// Returns the ring of a station with the seals that it shares with its peers; `is_of_pairs` tells whether each pair has a
    /// key of its own.
    pub fn new(station: Asker, seals: [Seal; MOST_PEERS], is_of_pairs: bool) -> Ring
        ensures { result ≡ rings.ring_of station seals is_of_pairs }
    {
        Ring {
            station,
            seals,
            is_of_pairs,
        }
    }

    /// Returns a copy of the ring.
    pub fn copied(&self) -> Ring
        ensures { result ≡ self.now }
    {
        let [first, second, third, fourth, fifth] = &self.seals;
        Ring {
            station: self.station,
            seals: [
                first.copied(),
                second.copied(),
                third.copied(),
                fourth.copied(),
                fifth.copied(),
            ],
            is_of_pairs: self.is_of_pairs,
        }
    }

    /// Returns the log of a link that is opened with this ring. Only clauses read it.
    pub fn opened_log(&self) -> Log
        ensures { passed_of result ≡ opened self.now ∷ [] }
    {
        let [first, second, third, fourth, fifth] = &self.seals;
        let seals = [
            *first.key(),
            *second.key(),
            *third.key(),
            *fourth.key(),
            *fifth.key(),
        ];
        Log::opened(self.station, &seals, self.is_of_pairs)
    }

    /// Returns the seal that is shared with a peer.
    pub fn seal_for(&self, peer: usize) -> &Seal
        requires { peer < 5 }
        ensures { result.now ≡ rings.seal_for self.now peer }
    {
        &self.seals[peer]
    }

    /// Returns an opener, which tells whether datagrams open but can't seal any.
    pub fn opener(&self) -> Opener
        ensures { result.ring ≡ self.now }
    {
        Opener {
            ring: self.copied(),
        }
    }

    /// Whether this is a board's ring with a key for each pair, so that the board keeps receipts.
    pub fn keeps_receipts(&self) -> bool
        ensures { result ≡ keeps self.now }
    {
        self.is_of_pairs && matches!(self.station, Asker::Board)
    }

    /// Whether this desk gives boards a receipt of the message: it is a vote, and each pair has a key of its own.
    fn gives_receipt(&self, message: &MessageBytes) -> bool
        ensures { result ≡ rings.gives_receipt self.now message.now }
    {
        self.is_of_pairs && !matches!(self.station, Asker::Board) && message[KIND] == 1
    }

    /// Returns a message with its tags, one for each peer, and with the receipt that a desk gives boards of a vote.
    pub fn tagged(&self, message: &MessageBytes) -> TaggedMessage
        ensures { result ≡ rings.tagged self.now message.now }
    {
        let [first, second, third, fourth, fifth] = &self.seals;
        let tag = first.tag(message.as_slice());
        let receipt = if self.gives_receipt(message) {
            Some(tag)
        } else {
            None
        };
        let covered = covered_by(message, receipt);
        let covered = covered.as_slice();
        TaggedMessage {
            message: *message,
            receipt,
            tags: [
                tag,
                second.tag(covered),
                third.tag(covered),
                fourth.tag(covered),
                fifth.tag(covered),
            ],
        }
    }

    /// Returns the seals that open messages from the sender of this number.
    fn seals_of(&self, sender: u8) -> &[Seal]
        ensures { result.now ≡ rings.seals_of self.now sender }
    {
        let seals = &self.seals[..];
        if is_by_first(self.station, sender) {
            &seals[..1]
        } else {
            &seals[1..]
        }
    }

    /// If these bytes are the sealed form of a message by a seal of its sender, puts the message into the front of the buffer
    /// and returns true. Otherwise the buffer stays unchanged.
    pub fn opened(&self, bytes: &[u8], buffer: &mut DatagramBuffer) -> bool
        ensures only { result ≡ true → rings.IsForm self.now (take 48 buffer.new) bytes.now }
        ensures each { (message : List ℕ) → length message ≡ 48
            → rings.IsForm self.now message bytes.now → (result ≡ true) × (take 48 buffer.new ≡ message) }
        ensures none { result ≡ false → buffer.new ≡ buffer.old }
    {
        if !has_size(bytes) {
            return false;
        }
        opened_by(self.seals_of(bytes[SENDER]), bytes, buffer)
    }
}

/// Tells whether bytes are sealed with a ring's seals, but can't seal any.
#[derive(Drop)]
pub struct Opener {
    ring: Ring,
}

impl Opener {
    ghost use Rattle.seal.specs.Opening.{opens};

    /// Whether these bytes are the sealed form of a message.
    pub fn opens(&self, bytes: &[u8]) -> bool
        ensures { result ≡ opens self.now.ring bytes.now }
    {
        self.ring.opened(bytes, &mut [0; ROOM])
    }
}
