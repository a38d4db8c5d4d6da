//! Why a line isn't taken.

ghost use Rattle.std.specs.Prelude.{◌≡◌, Some, OnOk};
ghost use Rattle.streams.specs.Watched.{Prints, TellsFailure};
ghost use Rattle.books.specs.Rejected.{later_line, name_of, number_of, rejection_line};

use notation::LineFault;
use std::fmt;
use streams::{Sink, Watched, WriteFailed};
use thiserror::Error;

/// Why an entry is refused.
#[derive(Clone, Copy, Debug, Error)]
pub enum Refusal {
    /// The book already has 8,192 entries.
    PlacesFull,
    /// The book refuses the entry.
    Book(corrections::Refusal),
}

/// Why a line isn't taken.
#[derive(Clone, Copy)]
pub enum Rejected {
    /// The line is no entry line.
    Fault(LineFault),
    /// The line's entry is refused.
    Refused(Refusal),
}

impl Refusal {
    /// Returns the refusal's number.
    pub fn number(self) -> u8
        ensures { result ≡ number_of self }
    {
        match self {
            Refusal::PlacesFull => 62,
            Refusal::Book(why) => why.number(),
        }
    }
}

impl fmt::Display for Refusal {
    ghost output = { λ refusal. Some (name_of refusal) };

    /// Writes the refusal's name.
    fn fmt<W: fmt::Write>(&self, f: &mut fmt::Formatter<W>) -> fmt::Result {
        match self {
            Refusal::PlacesFull => f.write_str("PlacesFull"),
            Refusal::Book(why) => why.fmt(f),
        }
    }
}

/// Prints why line `number` isn't taken.
pub fn print_rejected<W: Sink>(
    out: &mut Watched<W>,
    number: u64,
    why: Rejected,
) -> Result<(), WriteFailed>
    ensures text { OnOk result (Prints W.contents out.old out.new (rejection_line number why)) }
    ensures failed { TellsFailure result out.old out.new }
{
    match why {
        Rejected::Fault(fault) => {
            let code = fault.number();
            writeln!(out, "line {number}: fault {code} {fault}")
        }
        Rejected::Refused(refusal) => print_refused(out, number, refusal),
    }
}

/// Prints why the entry of line `number` is refused.
fn print_refused<W: Sink>(
    out: &mut Watched<W>,
    number: u64,
    why: Refusal,
) -> Result<(), WriteFailed>
    ensures text { OnOk result (Prints W.contents out.old out.new
        (rejection_line number (Rejected.Refused why))) }
    ensures failed { TellsFailure result out.old out.new }
{
    if let Refusal::Book(corrections::Refusal::Later { place, why }) = why {
        return print_later(out, number, "refused 32 Later", place, why.number());
    }
    let code = why.number();
    writeln!(out, "line {number}: refused {code} {why}")
}

/// Prints, in these words, that the correction of line `number` would leave a place refused, and the number of
/// the reason.
fn print_later<W: Sink>(
    out: &mut Watched<W>,
    number: u64,
    words: &str,
    place: u32,
    why: u8,
) -> Result<(), WriteFailed>
    ensures text { OnOk result (Prints W.contents out.old out.new (later_line number words.now place why)) }
    ensures failed { TellsFailure result out.old out.new }
{
    writeln!(out, "line {number}: {words} {place} {why}")
}
