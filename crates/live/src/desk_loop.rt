//! A desk's turn: it takes a line of its scorer and answers it, and then takes the datagrams.

ghost use Rattle.std.specs.Prelude.{◌≡◌, ◌++◌, ℕ, true, Err, IsSome, OnOk, is_some, option_to_list};
ghost use Rattle.std.specs.Io.KnownBytes.{Appends};
ghost use Rattle.streams.specs.Watched.{has_failed, stream_of};
ghost use Rattle.desk.specs.Desk.{state_of};
ghost use Rattle.live.specs.Desks as desks;
ghost use Rattle.live.specs.Desks.{Calls, DeskGoes, MaySay, process_of};
ghost use Rattle.live.specs.Ends as ends;
ghost use Rattle.live.specs.Ends.{course_of, further, known_at, known_in, turns_after};
ghost use Rattle.live.specs.Outside.{logs_of};
ghost use Rattle.live.specs.Paces.{ticking_of};
ghost use Rattle.station_texts.specs.Asides.{aside_text};
ghost use Rattle.station_texts.specs.Doubts.{holds_up};
ghost use Rattle.station_texts.specs.ToldValues as values;

use crate::between::Between;
use crate::ends::{DeskEnd, told};
use crate::hearing::{own_line, take_all};
use crate::outside::Outside;
use crate::reminding::remind;
use agree_core::Message;
use cards::MatchSheet;
use corrections::BookOf;
use desk::{Desk, Refusal};
use entry_log::SlotsOf;
use links::{Aside, Clock, Keys, LINE_ROOM, Link, Stand, Typed};
use screen::Tells;
use station_texts::asides::print_aside;
use station_texts::both::Both;
use station_texts::doubt::Doubt;
use station_texts::said::{Said, entry_said};
use station_texts::texts::print_said;
use station_texts::told::{aside_told, said_told, tell_if};
use std::alloc::Global;
use streams::{Sink, Watched};

/// Returns where a desk stands, as far as its scorer's lines depend on it.
fn stand_of<S: SlotsOf, B: BookOf + Drop>(desk: &Desk<S, B>) -> Stand
    ensures place { result.place ≡ (state_of desk.now).seat.position.place }
    ensures round { result.round ≡ (state_of desk.now).seat.position.round }
    ensures vote { result.has_voted ≡ is_some (state_of desk.now).seat.mine }
{
    let at = desk.position();
    Stand {
        place: at.place,
        round: at.round,
        has_voted: desk.has_voted(),
    }
}

/// Has a desk pen the entry that a line says (put in full by its book and sheet, or what its scorer wrote last), and sends its
/// vote to all. A desk that doubts its file pens nothing. Only a plan takes memory.
fn pen<S: SlotsOf, B: BookOf + Drop, L: Link>(
    alloc: Global,
    desk: &mut Desk<S, B>,
    sheet: &MatchSheet,
    line: &[u8],
    doubt: Doubt,
    link: &mut L,
) -> Said
    ensures calls { Calls sheet.now desk.old desk.new (desks.Typed line.now result) (L.log link.old) (L.log link.new) }
    ensures may { MaySay (holds_up doubt) result }
{
    let at = stand_of(desk);
    let last = desk.last_entry();
    let differs = at.round > 0;
    let entry = match entry_said(alloc, line, desk.book(), sheet, last, differs, at.has_voted) {
        Ok(entry) => entry,
        Err(said) => return said,
    };
    if doubt.holds_up() {
        return Said::Withheld;
    }
    match desk.pen(&entry) {
        Ok(penned) => {
            let vote = Message::Vote(penned.vote);
            link.send_message(desk.game(), &vote, &penned.send);
            Said::Penned(entry, penned.settled)
        }
        Err(why) => Said::Refused(entry, why),
    }
}

/// Returns how the process goes on after what a line came to: `Ok`, or its end.
fn end_of(said: &Said) -> Result<(), DeskEnd>
    ensures { result ≡ ends.end_of said.now }
{
    match said {
        Said::Quit => Err(DeskEnd::Quit),
        Said::Refused(_, Refusal::Device | Refusal::Failed) => Err(DeskEnd::Device),
        _ => Ok(()),
    }
}

/// Tells the scorer of lines that the desk isn't given.
fn tell_aside<W: Sink, T: Tells>(
    out: &mut Watched<W>,
    teller: &mut T,
    sheet: &MatchSheet,
    aside: &Aside,
) -> Result<(), DeskEnd>
    ensures text { Appends (known_at result (W.contents (stream_of out.old)))
        (known_at result (W.contents (stream_of out.new))) (aside_text sheet.now.columns aside.now) }
    ensures told { T.tellings teller.new ≡ T.tellings teller.old ++ option_to_list (values.aside_told aside.now) }
    ensures course { course_of result ≡ further }
    ensures failed { result ≡ Err DeskEnd.Write → has_failed out.new ≡ true }
{
    tell_if(teller, aside_told(aside));
    told(print_aside(out, sheet.columns(), aside))
}

/// Takes a typed line, if there is one, and tells the scorer what it came to.
fn take_line<S: SlotsOf, B: BookOf + Drop, L: Link, K: Keys, C: Clock, W: Sink, T: Tells>(
    alloc: Global,
    desk: &mut Desk<S, B>,
    sheet: &MatchSheet,
    outside: &mut Outside<L, K, C, W, T>,
    between: &mut Between,
) -> Result<(), DeskEnd>
    ensures goes { (turns : ℕ) → DeskGoes sheet.now desk.old desk.new
        (process_of desk.old between.old.warned turns (ticking_of between.old.pace) further)
        (process_of desk.new between.new.warned turns (ticking_of between.new.pace) (course_of result))
        (known_in result (logs_of L.log K.inputs C.readings W.contents T.tellings outside.old))
        (known_in result (logs_of L.log K.inputs C.readings W.contents T.tellings outside.new)) }
    ensures pace { between.new.pace ≡ between.old.pace }
    ensures failed { result ≡ Err DeskEnd.Write → has_failed outside.new.out ≡ true }
{
    let mut buffer = [0; LINE_ROOM];
    let stand = stand_of(desk);
    let at = desk.position();
    let both = Both {
        at,
        own: own_line(desk),
        other: desk.noted(),
    };
    let count = match outside.keys.line(stand, &mut buffer) {
        Typed::Nothing => return Ok(()),
        Typed::Ended => return Err(DeskEnd::NoMoreLines),
        Typed::Line(count) => count,
        Typed::Aside(aside) => return tell_aside(
            &mut outside.out,
            &mut outside.teller,
            sheet,
            &aside,
        ),
    };
    let line = &buffer[..count];
    let warned = between.warned;
    let said = pen(alloc, desk, sheet, line, warned.doubt, &mut outside.link);
    between.warned = warned.after_said(&said);
    if let Err(end) = end_of(&said) {
        return Err(end);
    }
    tell_if(&mut outside.teller, said_told(at, both.other, &said));
    let out = &mut outside.out;
    told(print_said(out, sheet, both, warned, &said, desk.book()))
}

/// Takes the datagrams of a turn, and gives the scorer the reminders about the other desk that are due.
fn listen<S: SlotsOf, B: BookOf + Drop, L: Link, K: Keys, C: Clock, W: Sink, T: Tells>(
    desk: &mut Desk<S, B>,
    sheet: &MatchSheet,
    outside: &mut Outside<L, K, C, W, T>,
    between: &mut Between,
) -> Result<(), DeskEnd>
    ensures goes { (turns : ℕ) → DeskGoes sheet.now desk.old desk.new
        (process_of desk.old between.old.warned turns (ticking_of between.old.pace) further)
        (process_of desk.new between.new.warned turns (ticking_of between.new.pace) (course_of result))
        (known_in result (logs_of L.log K.inputs C.readings W.contents T.tellings outside.old))
        (known_in result (logs_of L.log K.inputs C.readings W.contents T.tellings outside.new)) }
    ensures looked { IsSome (ticking_of between.new.pace).looked }
    ensures failed { result ≡ Err DeskEnd.Write → has_failed outside.new.out ≡ true }
{
    take_all(desk, sheet, outside, between)?;
    let now = outside.clock.millis();
    between.now = now;
    remind(desk, &mut outside.out, &mut outside.teller, between, now)
}

/// Does a turn's work up to the flush: takes a line of the scorer, and then the datagrams.
fn act<S: SlotsOf, B: BookOf + Drop, L: Link, K: Keys, C: Clock, W: Sink, T: Tells>(
    alloc: Global,
    desk: &mut Desk<S, B>,
    sheet: &MatchSheet,
    outside: &mut Outside<L, K, C, W, T>,
    between: &mut Between,
) -> Result<(), DeskEnd>
    ensures goes { (turns : ℕ) → DeskGoes sheet.now desk.old desk.new
        (process_of desk.old between.old.warned turns (ticking_of between.old.pace) further)
        (process_of desk.new between.new.warned turns (ticking_of between.new.pace) (course_of result))
        (known_in result (logs_of L.log K.inputs C.readings W.contents T.tellings outside.old))
        (known_in result (logs_of L.log K.inputs C.readings W.contents T.tellings outside.new)) }
    ensures looked { OnOk result (IsSome (ticking_of between.new.pace).looked) }
    ensures failed { result ≡ Err DeskEnd.Write → has_failed outside.new.out ≡ true }
{
    let at = desk.position();
    let votes = desk.votes();
    take_line(alloc, desk, sheet, outside, between)?;
    let has_voted = desk.votes() != votes;
    let now = outside.clock.millis();
    between.pace.note(desk.position() != at, has_voted, now);
    between.pace.set_waits(!outside.keys.has_more());
    listen(desk, sheet, outside, between)
}

/// Takes a desk's turn: takes a line of its scorer, looks at the clock and says what is due, takes the datagrams, and flushes.
pub(crate) fn turn<S: SlotsOf, B: BookOf + Drop, L: Link, K: Keys, C: Clock, W: Sink, T: Tells>(
    alloc: Global,
    desk: &mut Desk<S, B>,
    sheet: &MatchSheet,
    outside: &mut Outside<L, K, C, W, T>,
    between: &mut Between,
) -> Result<(), DeskEnd>
    ensures goes { (turns : ℕ) → DeskGoes sheet.now desk.old desk.new
        (process_of desk.old between.old.warned turns (ticking_of between.old.pace) further)
        (process_of desk.new between.new.warned (turns_after turns result) (ticking_of between.new.pace) (course_of result))
        (known_in result (logs_of L.log K.inputs C.readings W.contents T.tellings outside.old))
        (known_in result (logs_of L.log K.inputs C.readings W.contents T.tellings outside.new)) }
    ensures failed { result ≡ Err DeskEnd.Write → has_failed outside.new.out ≡ true }
{
    act(alloc, desk, sheet, outside, between)?;
    told(outside.out.flush())?;
    between.pace.end_turn();
    Ok(())
}
