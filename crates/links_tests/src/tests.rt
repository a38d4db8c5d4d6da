//! What a window keeps, what it says again and when.
ghost use Rattle.std.specs.Prelude.{◌<◌};
ghost use Rattle.notation.specs.Written.{IsEntry};

use agree_core::{Ask, Asker, DeskId, Message, PLACES, ROUNDS};
use links::{Clock, ClockLog};
use notation::Entry;
use std::alloc::Global;
use std::cell::Cell;
use std::process::Abort;
use tests_support::{entry_in, vote_of};
use wire::{MessageBytes, bytes_of};

mod all_is_heard;
mod behind;
mod handed_back;

/// A clock that the test sets.
#[derive(Drop)]
struct Hand<'a> {
    now: &'a Cell<u64>,
    log: ClockLog,
}

impl Clock for Hand<'_> {
    ghost use Rattle.links.specs.Logs.{readings_of};

    ghost readings = { λ hand. readings_of hand.log };

    fn millis(&mut self) -> u64 {
        let now = self.now.get();
        self.log = self.log.read(now);
        now
    }
}

fn entry(rt: &impl Abort, line: &str) -> Entry
    ensures { IsEntry result }
{
    match entry_in(line) {
        Some(entry) => entry,
        None => panic!(rt; "no entry: {line}"),
    }
}

/// Returns a desk's vote for a line, in match 7.
fn vote(rt: &impl Abort, desk: DeskId, place: u32, round: u32, line: &str) -> MessageBytes
    requires place { place < PLACES }
    requires round { round < ROUNDS }
{
    vote_of(desk, place, round, entry(rt, line))
}

/// Returns an ask for the votes of a position, in match 7.
fn ask_at(from: Asker, place: u32, round: u32) -> MessageBytes
    requires place { place < PLACES }
    requires round { round < ROUNDS }
{
    bytes_of(7, &Message::Ask(Ask { from, place, round }))
}
