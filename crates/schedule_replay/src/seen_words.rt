//! The words for an event's outcome, and the numbers of refusals.

ghost use Rattle.std.specs.Prelude.{◌≡◌, Some};
ghost use Rattle.schedule_replay.specs.SeenWords.{asked_words, cause_number, heard_words, refusal_number, seen_words, settled_words};

use crate::seen::{Cause, Seen, WorldRefusal};
use agree_core::{Heard, Settled};
use std::fmt;

impl Cause {
    /// Returns the number by which the cause is reported, or `None` for running out of memory, which is no answer of a world.
    pub fn number(self) -> Option<u8>
        ensures { result ≡ cause_number self }
    {
        match self {
            Cause::Desk(why) => Some(why.number()),
            Cause::Open(why) => why.number(),
            Cause::Migrate(why) => why.number(),
        }
    }
}

impl WorldRefusal {
    /// Returns the number by which the refusal is reported, or `None` for running out of memory.
    pub fn number(self) -> Option<u8>
        ensures { result ≡ refusal_number self }
    {
        match self {
            WorldRefusal::NoMessage => Some(80),
            WorldRefusal::NoStation => Some(81),
            WorldRefusal::WorldFull => Some(82),
            WorldRefusal::Down => Some(83),
            WorldRefusal::Up => Some(84),
            WorldRefusal::NoMemory => None,
        }
    }
}

fn of_settled(settled: Settled) -> &'static str
    ensures { result.now ≡ settled_words settled }
{
    match settled {
        Settled::Pending => "pending",
        Settled::Agreed => "agreed",
        Settled::Differ => "differ",
    }
}

fn of_heard(heard: Heard) -> &'static str
    ensures { result.now ≡ heard_words heard }
{
    match heard {
        Heard::Mine => "mine",
        Heard::Old => "old",
        Heard::Ahead => "ahead",
        Heard::Again => "again",
        Heard::TwoVotes => "two",
        Heard::Noted => "noted",
        Heard::Agreed => "agreed",
        Heard::Differ => "differ",
    }
}

fn of_asked(replied: bool) -> &'static str
    ensures { result.now ≡ asked_words replied }
{
    if replied { "answered" } else { "no answer" }
}

impl fmt::Display for Seen {
    ghost output = { λ seen. Some (seen_words seen) };

    /// Writes the outcome in words, such as `pending`, `sent 2` or `refused 61`.
    fn fmt<W: fmt::Write>(&self, f: &mut fmt::Formatter<W>) -> fmt::Result {
        match *self {
            Seen::Penned(settled) => f.write_str(of_settled(settled)),
            Seen::Refused(why) => match why.number() {
                Some(number) => write!(f, "refused {number}"),
                None => f.write_str("no memory"),
            },
            Seen::Stopped => f.write_str("stopped"),
            Seen::Ticked(count) => write!(f, "sent {count}"),
            Seen::Heard(heard) => f.write_str(of_heard(heard)),
            Seen::Asked(replied) => f.write_str(of_asked(replied)),
            Seen::Bad(fault) => {
                let number = fault.number();
                write!(f, "bad {number}")
            }
            Seen::BadVotes => f.write_str("refused 64"),
            Seen::Failed => f.write_str("failed"),
            Seen::Opened(length) => write!(f, "opened {length}"),
            Seen::Migrated(votes) => write!(f, "migrated {votes}"),
            Seen::Done => f.write_str("done"),
        }
    }
}
