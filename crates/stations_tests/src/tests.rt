//! Desks on disks in memory. If one allocation fails, making the call again gives its answer.
ghost use Rattle.std.specs.Prelude.{◌≡◌, ◌<◌, []};
ghost use Rattle.notation.specs.Written.{IsEntry};

use agree_core::{Ask, Asker, DeskId, Heard, Message, PLACES, ROUNDS};
use corrections::Book;
use desk::{Desk, OpenRefusal};
use entry_log::{MemDisk, Slots};
use notation::Entry;
use std::alloc::Global;
use std::process::Abort;
use tests_support::{entry_in, new_disk, vote_of};
use vote_store::Refusal;
use wire::{What, bytes_of};

mod device_calls;
mod printing;

type Station = Desk<Slots<MemDisk>, Book>;

type Made = Result<Station, (OpenRefusal, MemDisk)>;

const NO_MEMORY: OpenRefusal = OpenRefusal::Votes(Refusal::NoMemory);

fn empty_book(rt: &impl Abort, alloc: Global) -> Book
    ensures { result.entries ≡ [] }
{
    match Book::new(alloc, 1) {
        Ok(book) => book,
        Err(_) => Book::new(alloc, 1).expect(rt, "room for a book"),
    }
}

fn empty_disk(rt: &impl Abort, alloc: Global) -> MemDisk {
    new_disk(alloc, 9000).expect(rt, "room for a disk")
}

/// Creates desk A of match 7 on this disk.
fn create(rt: &impl Abort, alloc: Global, disk: MemDisk) -> Made {
    match Desk::create(alloc, disk, DeskId::A, 7, empty_book(rt, alloc)) {
        Err((NO_MEMORY, disk)) => Desk::create(alloc, disk, DeskId::A, 7, empty_book(rt, alloc)),
        answer => answer,
    }
}

/// Opens desk A of match 7 from its file.
fn open(rt: &impl Abort, alloc: Global, disk: MemDisk) -> Made {
    match Desk::open(alloc, disk, DeskId::A, 7, empty_book(rt, alloc)) {
        Err((NO_MEMORY, disk)) => Desk::open(alloc, disk, DeskId::A, 7, empty_book(rt, alloc)),
        answer => answer,
    }
}

fn made(rt: &impl Abort, answer: Made) -> Station {
    match answer {
        Ok(desk) => desk,
        Err((refusal, _)) => panic!(rt; "{refusal}"),
    }
}

fn new_desk(rt: &impl Abort, alloc: Global) -> Station {
    made(rt, create(rt, alloc, empty_disk(rt, alloc)))
}

fn entry(rt: &impl Abort, line: &str) -> Entry
    ensures { IsEntry result }
{
    match entry_in(line) {
        Some(entry) => entry,
        None => panic!(rt; "no entry: {line}"),
    }
}

/// Returns the number of the refusal, if the line isn't penned.
fn refused(rt: &impl Abort, desk: &mut Station, line: &str) -> Option<u8> {
    match desk.pen(&entry(rt, line)) {
        Ok(_) => None,
        Err(refusal) => Some(refusal.number()),
    }
}

/// Pens a line at desk A's position, and then lets it hear desk B's vote for the other line there.
fn settle(rt: &impl Abort, desk: &mut Station, line: &str, other: &str) -> What {
    let at = desk.position();
    assert!(rt; at.place < PLACES && at.round < ROUNDS);
    assert_eq!(rt; refused(rt, desk, line), None);
    let vote = vote_of(DeskId::B, at.place, at.round, entry(rt, other));
    desk.receive(&vote).what
}
