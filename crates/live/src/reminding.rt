//! What a desk tells its scorer of the other desk, by the clock.

ghost use Rattle.std.specs.Prelude.{◌≡◌, ◌∷◌, ◌++◌, [], ℕ, Err, true, false, is_some};
ghost use Rattle.std.specs.Io.KnownBytes.{Appends};
ghost use Rattle.cards.specs.Sheet.{Sheet};
ghost use Rattle.streams.specs.Watched.{has_failed, stream_of};
ghost use Rattle.desk.specs.Desk.{state_of};
ghost use Rattle.live.specs.Desks.{DeskGoes, process_of};
ghost use Rattle.live.specs.Ends.{course_of, further, known_at};
ghost use Rattle.live.specs.Paces.{ticking_of};
ghost use Rattle.live.specs.Runs.{Logs};
ghost use Rattle.station_texts.specs.Texts.{reminder_text, warned_reminded};
ghost use Rattle.station_texts.specs.ToldValues as values;

use crate::between::Between;
use crate::ends::{DeskEnd, told};
use corrections::BookOf;
use desk::Desk;
use entry_log::SlotsOf;
use screen::Tells;
use station_texts::news::print_reminder;
use station_texts::reminder::Reminder;
use station_texts::told::reminder_told;
use streams::{Sink, Watched};

/// Gives the scorer, in a row and as a value, a reminder about the other desk, at this place.
fn tell<W: Sink, T: Tells>(
    out: &mut Watched<W>,
    teller: &mut T,
    place: u32,
    between: &mut Between,
    reminder: Reminder,
) -> Result<(), DeskEnd>
    ensures warned { between.new.warned ≡ warned_reminded between.old.warned reminder }
    ensures text { Appends (known_at result (W.contents (stream_of out.old)))
        (known_at result (W.contents (stream_of out.new))) (reminder_text place reminder) }
    ensures told { T.tellings teller.new ≡ T.tellings teller.old ++ values.reminder_told place reminder ∷ [] }
    ensures course { course_of result ≡ further }
    ensures pace { between.new.pace ≡ between.old.pace }
    ensures failed { result ≡ Err DeskEnd.Write → has_failed out.new ≡ true }
{
    between.warned = between.warned.after_reminder(reminder);
    teller.tell(reminder_told(place, reminder));
    told(print_reminder(out, place, reminder))
}

/// Whether the other desk's vote of this position is noted and the own one isn't cast.
fn is_waited_for<S: SlotsOf, B: BookOf + Drop>(desk: &Desk<S, B>) -> bool
    ensures own { result ≡ true → is_some (state_of desk.now).seat.mine ≡ false }
    ensures other { result ≡ true → is_some (state_of desk.now).seat.theirs ≡ true }
{
    if desk.has_voted() {
        false
    } else {
        desk.noted().is_some()
    }
}

/// Tells the scorer that the other has written, if that is due.
fn remind_of_writing<S: SlotsOf, B: BookOf + Drop, W: Sink, T: Tells>(
    desk: &Desk<S, B>,
    out: &mut Watched<W>,
    teller: &mut T,
    between: &mut Between,
    now: u64,
) -> Result<(), DeskEnd>
    ensures goes { (sheet : Sheet) (logs : Logs) (turns : ℕ) → DeskGoes sheet desk.now desk.now
        (process_of desk.now between.old.warned turns (ticking_of between.old.pace) further)
        (process_of desk.now between.new.warned turns (ticking_of between.new.pace) (course_of result))
        (record logs { told = known_at result (W.contents (stream_of out.old)); tellings = T.tellings teller.old })
        (record logs { told = known_at result (W.contents (stream_of out.new)); tellings = T.tellings teller.new }) }
    ensures pace { between.new.pace ≡ between.old.pace }
    ensures failed { result ≡ Err DeskEnd.Write → has_failed out.new ≡ true }
{
    if between.warned.of_writing {
        return Ok(());
    }
    if is_waited_for(desk) {
        if between.peer.is_late(now) {
            let place = desk.position().place;
            return tell(out, teller, place, between, Reminder::HasWritten);
        }
    }
    Ok(())
}

/// Tells the scorer that the other desk isn't heard, or that it is heard again, if that is due.
fn remind_of_silence<S: SlotsOf, B: BookOf + Drop, W: Sink, T: Tells>(
    desk: &Desk<S, B>,
    out: &mut Watched<W>,
    teller: &mut T,
    between: &mut Between,
    now: u64,
) -> Result<(), DeskEnd>
    ensures goes { (sheet : Sheet) (logs : Logs) (turns : ℕ) → DeskGoes sheet desk.now desk.now
        (process_of desk.now between.old.warned turns (ticking_of between.old.pace) further)
        (process_of desk.now between.new.warned turns (ticking_of between.new.pace) (course_of result))
        (record logs { told = known_at result (W.contents (stream_of out.old)); tellings = T.tellings teller.old })
        (record logs { told = known_at result (W.contents (stream_of out.new)); tellings = T.tellings teller.new }) }
    ensures pace { between.new.pace ≡ between.old.pace }
    ensures failed { result ≡ Err DeskEnd.Write → has_failed out.new ≡ true }
{
    let place = desk.position().place;
    let is_missed = between.peer.is_missed(now);
    if between.warned.of_silence {
        if is_missed {
            return Ok(());
        }
        return tell(out, teller, place, between, Reminder::IsHeard);
    }
    if is_missed {
        return tell(out, teller, place, between, Reminder::IsMissed);
    }
    Ok(())
}

/// Gives the scorer the reminders that are due. Time in which this desk itself was held up isn't counted.
pub fn remind<S: SlotsOf, B: BookOf + Drop, W: Sink, T: Tells>(
    desk: &Desk<S, B>,
    out: &mut Watched<W>,
    teller: &mut T,
    between: &mut Between,
    now: u64,
) -> Result<(), DeskEnd>
    ensures goes { (sheet : Sheet) (logs : Logs) (turns : ℕ) → DeskGoes sheet desk.now desk.now
        (process_of desk.now between.old.warned turns (ticking_of between.old.pace) further)
        (process_of desk.now between.new.warned turns (ticking_of between.new.pace) (course_of result))
        (record logs { told = known_at result (W.contents (stream_of out.old)); tellings = T.tellings teller.old })
        (record logs { told = known_at result (W.contents (stream_of out.new)); tellings = T.tellings teller.new }) }
    ensures pace { between.new.pace ≡ between.old.pace }
    ensures failed { result ≡ Err DeskEnd.Write → has_failed out.new ≡ true }
{
    between.peer.pass(now);
    remind_of_writing(desk, out, teller, between, now)?;
    remind_of_silence(desk, out, teller, between, now)
}
