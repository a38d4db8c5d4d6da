//! What a desk's scorer is told of received messages, and of the other desk.

ghost use Rattle.std.specs.Prelude.{IfSome, OnOk};
ghost use Rattle.streams.specs.Watched.{Prints, TellsFailure};
ghost use Rattle.notation.specs.Written.{IsEntry};
ghost use Rattle.station_texts.specs.Texts as texts;

use crate::both::Both;
use crate::doubt::{Evidence, print_doubt};
use crate::reminder::Reminder;
use crate::texts::{print_agreed, print_at, print_differs};
use crate::warned::Warned;
use agree_core::Heard;
use cards::MatchSheet;
use corrections::BookOf;
use streams::{Sink, Watched, WriteFailed};
use wire::What;

/// Prints a warning about a peer, unless it was already told.
fn print_warning<W: Sink>(
    out: &mut Watched<W>,
    is_told: bool,
    text: &str,
) -> Result<(), WriteFailed>
    ensures text { OnOk result (Prints W.contents out.old out.new (texts.warning is_told text.now)) }
    ensures failed { TellsFailure result out.old out.new }
{
    if is_told {
        return Ok(());
    }
    write!(out, "{text}")
}

/// Prints why a datagram is no message of the match, unless that was already told.
fn print_bad<W: Sink>(
    out: &mut Watched<W>,
    is_told: bool,
    fault: wire::WireFault,
) -> Result<(), WriteFailed>
    ensures text { OnOk result (Prints W.contents out.old out.new
        (texts.warning is_told (texts.bad_text fault))) }
    ensures failed { TellsFailure result out.old out.new }
{
    if is_told {
        return Ok(());
    }
    let code = fault.number();
    writeln!(out, "peer: {code} {fault}")
}

/// Prints what a message shows of both desks' files; that the other desk's file lacks lines only if that wasn't told yet.
fn print_shown<W: Sink>(
    out: &mut Watched<W>,
    warned: Warned,
    evidence: Evidence,
) -> Result<(), WriteFailed>
    ensures text { OnOk result (Prints W.contents out.old out.new (texts.shown_text warned evidence)) }
    ensures failed { TellsFailure result out.old out.new }
{
    match evidence {
        Evidence::OtherLacks => print_warning(
            out,
            warned.of_lines,
            "the other desk's file lacks lines that this one has: have the right file put back\n",
        ),
        evidence => print_doubt(out, warned.doubt, evidence),
    }
}

/// Prints the outcome of a received vote, if it is news. The desk's own vote in `both` was there before.
fn print_heard<B: BookOf, W: Sink>(
    out: &mut Watched<W>,
    sheet: &MatchSheet,
    warned: Warned,
    both: Both,
    evidence: Evidence,
    heard: Heard,
    book: &B,
) -> Result<(), WriteFailed>
    requires own { IfSome both.own IsEntry }
    requires other { IfSome both.other IsEntry }
    ensures text { OnOk result (Prints W.contents out.old out.new
        (texts.heard_text sheet.now (B.innings_a_side book.now) both.at.place both.own both.other (B.content book.now) warned evidence heard)) }
    ensures failed { TellsFailure result out.old out.new }
{
    match heard {
        Heard::Agreed => print_agreed(out, sheet, both.at.place, book),
        Heard::Differ => print_differs(out, both),
        Heard::TwoVotes => print_warning(out, warned.of_votes, "peer: two votes\n"),
        Heard::Mine | Heard::Old | Heard::Ahead => print_shown(out, warned, evidence),
        Heard::Noted | Heard::Again => Ok(()),
    }
}

/// Prints the outcome of a datagram, if it is news, with both votes at the position.
fn print_news<B: BookOf, W: Sink>(
    out: &mut Watched<W>,
    sheet: &MatchSheet,
    warned: Warned,
    both: Both,
    evidence: Evidence,
    what: What,
    book: &B,
) -> Result<(), WriteFailed>
    requires own { IfSome both.own IsEntry }
    requires other { IfSome both.other IsEntry }
    ensures text { OnOk result (Prints W.contents out.old out.new
        (texts.came_text sheet.now (B.innings_a_side book.now) both.at.place both.own both.other (B.content book.now) warned evidence what)) }
    ensures failed { TellsFailure result out.old out.new }
{
    match what {
        What::Bad(fault) => print_bad(out, warned.of_bytes, fault),
        What::Heard(heard) => print_heard(out, sheet, warned, both, evidence, heard, book),
        What::Asked => print_shown(out, warned, evidence),
        What::Device | What::Failed => Ok(()),
    }
}

/// Tells the scorer at once the outcome of a datagram, if it is news, with both votes at the position.
pub fn print_came<B: BookOf, W: Sink>(
    out: &mut Watched<W>,
    sheet: &MatchSheet,
    warned: Warned,
    both: Both,
    evidence: Evidence,
    what: What,
    book: &B,
) -> Result<(), WriteFailed>
    requires own { IfSome both.own IsEntry }
    requires other { IfSome both.other IsEntry }
    ensures text { OnOk result (Prints W.contents out.old out.new
        (texts.came_text sheet.now (B.innings_a_side book.now) both.at.place both.own both.other (B.content book.now) warned evidence what)) }
    ensures failed { TellsFailure result out.old out.new }
{
    print_news(out, sheet, warned, both, evidence, what, book)?;
    out.flush()
}

/// Tells the scorer at once that a datagram doesn't open, unless that was already told.
pub fn print_unopened<W: Sink>(out: &mut Watched<W>, warned: Warned) -> Result<(), WriteFailed>
    ensures text { OnOk result (Prints W.contents out.old out.new (texts.unopened_text warned)) }
    ensures failed { TellsFailure result out.old out.new }
{
    print_warning(out, warned.of_seal, "peer: another sheet or another key\n")?;
    out.flush()
}

/// Prints a reminder about the other desk, at this place.
fn print_of_other<W: Sink>(
    out: &mut Watched<W>,
    place: u32,
    reminder: Reminder,
) -> Result<(), WriteFailed>
    ensures text { OnOk result (Prints W.contents out.old out.new (texts.reminder_text place reminder)) }
    ensures failed { TellsFailure result out.old out.new }
{
    match reminder {
        Reminder::HasWritten => print_at(out, place, "the other has written"),
        Reminder::IsMissed => writeln!(out, "the other desk isn't heard"),
        Reminder::IsHeard => writeln!(out, "the other desk is heard again"),
    }
}

/// Tells the scorer at once a reminder about the other desk, at this place.
pub fn print_reminder<W: Sink>(
    out: &mut Watched<W>,
    place: u32,
    reminder: Reminder,
) -> Result<(), WriteFailed>
    ensures text { OnOk result (Prints W.contents out.old out.new (texts.reminder_text place reminder)) }
    ensures failed { TellsFailure result out.old out.new }
{
    print_of_other(out, place, reminder)?;
    out.flush()
}
