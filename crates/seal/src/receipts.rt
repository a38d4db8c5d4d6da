//! The receipts that came with desks' votes: a board with a key for each pair keeps them, to hand the votes back.

ghost use Rattle.std.specs.Prelude.{◌≡◌, ◌≤◌, ◌+◌, List, [], IfOk, if◌then◌else◌};
ghost use Rattle.indexmap.specs.IndexMap.{spare};
ghost use Rattle.seal.specs.Receipts as laws;

use crate::carrier::Tag;
use crate::ring::{Ring, SENDER};
use indexmap::IndexMap;
use std::alloc::{AllocError, Global};
use wire::MessageBytes;

/// How many receipts of each desk are kept: a desk's file has no more votes.
pub const MOST_RECEIPTS: usize = 16_384;

/// A desk's messages, each with the first receipt that came with it.
type Kept = IndexMap<MessageBytes, Tag>;

/// Keeps the receipt of a message that has none yet, if there is room.
fn keep_in(kept: &mut Kept, message: &MessageBytes, receipt: &Tag)
    ensures kept { laws.IsKeptIn kept.old kept.new message.now receipt.now }
    ensures room { spare kept.old ≤ spare kept.new + 1 }
{
    if kept.len() < kept.capacity() && !kept.contains_key(message) {
        let _fits = kept.insert(*message, *receipt);
    }
}

/// The receipts that a board keeps: desk A's, and desk B's.
pub struct Receipts {
    a: Kept,
    b: Kept,
}

// one drop step instead of one per field
impl Drop for Receipts {
    fn drop(self) {
        let Receipts { a: _, b: _ } = self;
    }
}

impl Receipts {
    /// Returns no receipts, with room for those that a station with this ring keeps: 16,384 of each desk at a board with a key
    /// for each pair.
    pub fn of(alloc: Global, ring: &Ring) -> Result<Receipts, AllocError>
        ensures none { IfOk result (λ receipts. (receipts.a.entries ≡ []) × (receipts.b.entries ≡ [])) }
        ensures room { IfOk result (λ receipts. (laws.room_of ring.now ≤ spare receipts.a) × (laws.room_of ring.now ≤ spare receipts.b)) }
    {
        let room = if ring.keeps_receipts() {
            MOST_RECEIPTS
        } else {
            0
        };
        Ok(Receipts {
            a: IndexMap::with_capacity(alloc, room)?,
            b: IndexMap::with_capacity(alloc, room)?,
        })
    }

    /// Returns the receipt that is kept for a message.
    pub fn kept_for(&self, message: &MessageBytes) -> Option<Tag>
        ensures { result ≡ laws.kept_for self.now message.now }
    {
        match message[SENDER] {
            1 => self.a.get(message).copied(),
            2 => self.b.get(message).copied(),
            _ => None,
        }
    }

    /// Keeps the receipt of a desk's message, the first that comes, if there is room.
    pub fn keep(&mut self, message: &MessageBytes, receipt: &Tag)
        ensures kept { laws.IsKept self.old self.new message.now receipt.now }
        ensures room { (spare self.old.a ≤ spare self.new.a + 1) × (spare self.old.b ≤ spare self.new.b + 1) }
    {
        match message[SENDER] {
            1 => keep_in(&mut self.a, message, receipt),
            2 => keep_in(&mut self.b, message, receipt),
            _ => {}
        }
    }
}
