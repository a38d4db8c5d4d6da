//! Desks and boards as processes, in memory, by a clock that goes on while a station waits for a datagram.
ghost use Rattle.std.specs.Prelude.{◌≡◌, ◌<◌, []};

use agree_core::{Ask, Asker, DeskId, Message, PLACES, ROUNDS};
use cards::{MatchSheet, plain_sheet};
use corrections::Book;
use desk::Desk;
use entry_log::{MemDisk, Slots};
use live::{Outside, run_desk};
use screen::{RowsAlone, TellLog};
use std::alloc::Global;
use std::process::Abort;
use streams::Watched;
use tests_support::{entry_in, vote_of};
use wire::{MessageBytes, bytes_of};
use world::{Bring, Hand, Key, Keyboard, Screen, Timed, World, each_second, once};

mod reminders;
mod timing;
mod world;

fn empty_book(rt: &impl Abort, alloc: Global) -> Book
    ensures { result.entries ≡ [] }
{
    Book::new(alloc, 1).expect(rt, "room for a book")
}

fn sheet(rt: &impl Abort, alloc: Global) -> MatchSheet {
    match plain_sheet(alloc, 7, 1) {
        Ok(sheet) => sheet,
        Err(_) => panic!(rt; "no room for a sheet"),
    }
}

/// Creates desk A of match 7, on a new file.
fn new_desk(rt: &impl Abort, alloc: Global) -> Desk<Slots<MemDisk>, Book> {
    let disk = MemDisk::new(alloc, 20_000).expect(rt, "room for a disk");
    match Desk::create(alloc, disk, DeskId::A, 7, empty_book(rt, alloc)) {
        Ok(desk) => desk,
        Err((refusal, _)) => panic!(rt; "{refusal}"),
    }
}

/// Returns a desk's vote for a line, in match 7.
fn vote(rt: &impl Abort, desk: DeskId, place: u32, round: u32, line: &str) -> MessageBytes
    requires place { place < PLACES }
    requires round { round < ROUNDS }
{
    match entry_in(line) {
        Some(entry) => vote_of(desk, place, round, entry),
        None => panic!(rt; "no entry: {line}"),
    }
}

/// Returns desk B's vote for `void`.
fn void(rt: &impl Abort, place: u32, round: u32) -> MessageBytes
    requires place { place < PLACES }
    requires round { round < ROUNDS }
{
    vote(rt, DeskId::B, place, round, "void")
}

/// Returns an ask for the votes of a position.
fn ask(from: Asker, place: u32, round: u32) -> MessageBytes
    requires place { place < PLACES }
    requires round { round < ROUNDS }
{
    bytes_of(7, &Message::Ask(Ask { from, place, round }))
}

/// Runs a new desk A for some turns, while its scorer types these lines, and returns what it tells.
fn run<'a>(
    rt: &impl Abort,
    alloc: Global,
    world: &'a World,
    link: Timed<'a>,
    keys: Keyboard<'a>,
    turns: u64,
) -> (Screen<'a>, Timed<'a>) {
    let sheet = sheet(rt, alloc);
    let mut desk = new_desk(rt, alloc);
    let mut outside = Outside {
        link,
        keys,
        clock: Hand::new(world),
        out: Watched::new(Screen::new(alloc, world)),
        teller: TellLog::Empty,
    };
    let answer = run_desk(
        alloc,
        &mut desk,
        DeskId::A,
        &sheet,
        &mut outside,
        &mut RowsAlone,
        turns,
    );
    let Outside {
        link,
        keys: _keys,
        clock: _clock,
        out,
        teller: _teller,
    } = outside;
    assert!(rt; answer.is_ok());
    (out.into_inner(), link)
}
