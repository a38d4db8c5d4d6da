//! What a desk hears and tells its scorer of it, and what it says unasked.

ghost use Rattle.std.specs.Prelude.{◌≡◌, ◌++◌, ◌∷◌, [], ℕ, List, true, Err, IfSome, IsSome, Some, option_to_list};
ghost use Rattle.std.specs.Io.KnownBytes.{Appends};
ghost use Rattle.std.specs.Result.{ForOk};
ghost use Rattle.agree_core.specs.declared.messages.Vote.{Vote as AVote};
ghost use Rattle.cards.specs.Sheet.{Sheet};
ghost use Rattle.streams.specs.Watched.{has_failed, stream_of};
ghost use Rattle.desk.specs.Answers.{replied};
ghost use Rattle.desk.specs.Desk.{disk_of, game_of, state_of};
ghost use Rattle.live.specs.Desks as desks;
ghost use Rattle.live.specs.Desks.{Calls, DeskGoes, Given, Ticked, process_of};
ghost use Rattle.live.specs.Ends.{course_of, further, known_at, known_in};
ghost use Rattle.live.specs.Outside.{logs_of};
ghost use Rattle.live.specs.Paces.{ticking_of};
ghost use Rattle.live.specs.Runs.{Logs};
ghost use Rattle.links.specs.Passed.{Came, sent_to};
ghost use Rattle.links.specs.declared.link.Receivers.TheVariants.{ToOne};
ghost use Rattle.notation.specs.Written.{IsEntry};
ghost use Rattle.station_texts.specs.Texts.{unopened_text, warned_unopened};
ghost use Rattle.station_texts.specs.ToldValues as values;
ghost use Rattle.wire.specs.Layout.{IsMessage, is_at};
ghost use Rattle.wire.specs.Reading.{Reads};

use crate::between::Between;
use crate::ends::{DeskEnd, end_at, told};
use crate::lost_lines::bearing_of;
use crate::outside::Outside;
use crate::pace::Pace;
use agree_core::{Heard, Message, Position};
use cards::MatchSheet;
use corrections::BookOf;
use desk::Desk;
use entry_log::SlotsOf;
use links::{Arrival, Clock, Keys, Link, MOST_TAKEN, ROOM, send_each};
use notation::Entry;
use screen::Tells;
use station_texts::both::Both;
use station_texts::news::{print_came, print_unopened};
use station_texts::told::{came_told, tell_if, unopened_told};
use station_texts::warned::Warned;
use streams::{Sink, Watched};
use wire::{MessageBytes, What, WireFault};

/// Whether an answer may come soon: the message is the first vote of its position, or a vote of a station that is
/// further ahead.
pub(crate) fn promises_more(what: What) -> bool {
    matches!(what, What::Heard(Heard::Noted | Heard::Ahead))
}

/// Returns the entry of the received vote, if the message is a vote.
fn entry_in(read: Result<Message, WireFault>) -> Option<Entry>
    requires { ForOk read IsMessage }
    ensures vote { (v : AVote) → read ≡ Ok (Message.Vote v) → result ≡ Some v.entry }
    ensures entry { IfSome result IsEntry }
{
    match read {
        Ok(Message::Vote(vote)) => Some(vote.entry),
        Ok(Message::Ask(_)) | Err(_) => None,
    }
}

/// Returns the position that a message is for.
pub(crate) fn position_of(message: &Message) -> Position
    ensures { result ≡ is_at message.now }
{
    match message {
        Message::Vote(vote) => vote.position(),
        Message::Ask(ask) => Position {
            place: ask.place,
            round: ask.round,
        },
    }
}

/// Returns the desk's vote of its position, if it is cast.
pub(crate) fn own_line<S: SlotsOf, B: BookOf + Drop>(desk: &Desk<S, B>) -> Option<Entry>
    ensures value { result ≡ desks.own_line (state_of desk.now) }
    ensures entry { IfSome result IsEntry }
{
    if desk.has_voted() {
        desk.last_entry()
    } else {
        None
    }
}

/// Sends a reply to the sender of the datagram, if there is a reply.
fn hand_back<L: Link>(link: &mut L, reply: Option<MessageBytes>)
    ensures { L.log link.new ≡ L.log link.old ++ sent_to ToOne (replied reply) }
{
    if let Some(reply) = reply {
        link.reply(&reply);
    }
}

/// Gives a desk a datagram, and sends its reply to the sender.
pub fn give<S: SlotsOf, B: BookOf + Drop, L: Link>(
    desk: &mut Desk<S, B>,
    bytes: &[u8],
    link: &mut L,
) -> What
    ensures calls { (s : Sheet) → Calls s desk.old desk.new (Given bytes.now result) (L.log link.old) (L.log link.new) }
    // Nothing is written to the disk.
    ensures reads { (S.Disk.seen (disk_of desk.new) ≡ S.Disk.seen (disk_of desk.old))
        × (S.Disk.images (disk_of desk.new) ≡ S.Disk.images (disk_of desk.old)) }
{
    let received = desk.receive(bytes);
    hand_back(link, received.reply);
    received.what
}

/// Gives a desk a message, as read at the time of `between`, and tells the scorer what is news.
fn hear<S: SlotsOf, B: BookOf + Drop, L: Link, W: Sink, T: Tells>(
    desk: &mut Desk<S, B>,
    sheet: &MatchSheet,
    read: &Result<Message, WireFault>,
    link: &mut L,
    out: &mut Watched<W>,
    teller: &mut T,
    between: &mut Between,
) -> Result<(), DeskEnd>
    requires { ForOk read.now IsMessage }
    ensures goes { (bytes : List ℕ) (logs : Logs) (turns : ℕ) →
        Reads (game_of desk.old) bytes read.now → L.log link.old ≡ logs.passed ++ Came bytes ∷ [] → DeskGoes sheet.now desk.old desk.new
        (process_of desk.old between.old.warned turns (ticking_of between.old.pace) further)
        (process_of desk.new between.new.warned turns (ticking_of between.new.pace) (course_of result))
        (record logs { told = known_at result (W.contents (stream_of out.old)); tellings = T.tellings teller.old })
        (record logs { passed = L.log link.new; told = known_at result (W.contents (stream_of out.new)); tellings = T.tellings teller.new }) }
    ensures ticking { ticking_of between.new.pace ≡ ticking_of between.old.pace }
    ensures failed { result ≡ Err DeskEnd.Write → has_failed out.new ≡ true }
{
    let now = between.now;
    let at = desk.position();
    let both = Both {
        at,
        own: own_line(desk),
        other: entry_in(*read),
    };
    let bearing = bearing_of(desk, read);
    let received = desk.take(*read);
    hand_back(link, received.reply);
    let what = received.what;
    let evidence = bearing.behind(received.reply.is_some()).evidence(what);
    between
        .pace
        .note(desk.position() != at, promises_more(what), now);
    between.peer.note(at, *read, what, now);
    let warned = between.warned;
    between.warned = warned.after(evidence, what);
    if let Err(end) = end_at(what) {
        return Err(end);
    }
    let votes = both;
    tell_if(teller, came_told(warned, votes, evidence, what));
    told(print_came(out, sheet, warned, both, evidence, what, desk.book()))
}

/// Tells the scorer that a datagram doesn't open, unless that was told since the last vote that was news. What is said unasked
/// and when, and when the other desk was heard, stay unchanged.
fn pass_over<W: Sink, T: Tells>(
    out: &mut Watched<W>,
    teller: &mut T,
    between: &mut Between,
) -> Result<(), DeskEnd>
    ensures warned { between.new.warned ≡ warned_unopened between.old.warned }
    ensures pace { between.new.pace ≡ between.old.pace }
    ensures peer { between.new.peer ≡ between.old.peer }
    ensures text { Appends (known_at result (W.contents (stream_of out.old)))
        (known_at result (W.contents (stream_of out.new))) (unopened_text between.old.warned) }
    ensures told { T.tellings teller.new ≡ T.tellings teller.old ++ option_to_list (values.unopened_told between.old.warned) }
    ensures course { course_of result ≡ further }
    ensures failed { result ≡ Err DeskEnd.Write → has_failed out.new ≡ true }
{
    let warned = between.warned;
    between.warned = warned.after_unopened();
    tell_if(teller, unopened_told(warned));
    told(print_unopened(out, warned))
}

/// Sends to all what a desk says unasked.
pub fn tick<S: SlotsOf, B: BookOf + Drop, L: Link>(desk: &Desk<S, B>, link: &mut L)
    ensures { (s : Sheet) → Calls s desk.now desk.now Ticked (L.log link.old) (L.log link.new) }
{
    send_each(link, desk.tick().as_slice());
}

/// Looks at the clock, and sends what the desk says unasked if that is due. Returns how long to wait for the next datagram.
fn say<S: SlotsOf, B: BookOf + Drop, L: Link, C: Clock>(
    desk: &Desk<S, B>,
    link: &mut L,
    clock: &mut C,
    pace: &mut Pace,
) -> u64
    ensures goes { (sheet : Sheet) (logs : Logs) (warned : Warned) (turns : ℕ) → DeskGoes sheet desk.now desk.now
        (process_of desk.now warned turns (ticking_of pace.old) further)
        (process_of desk.now warned turns (ticking_of pace.new) further)
        (record logs { passed = L.log link.old; readings = C.readings clock.old })
        (record logs { passed = L.log link.new; readings = C.readings clock.new }) }
    ensures looked { IsSome (ticking_of pace.new).looked }
{
    let now = clock.millis();
    let is_due = pace.take_due(now);
    let wait = pace.take_wait(now);
    if is_due {
        tick(desk, link);
        return wait;
    }
    wait
}

/// Says what is due, and takes the next datagram. The first one of a turn is waited for until something is due. Returns whether
/// a datagram was taken.
fn take_next<S: SlotsOf, B: BookOf + Drop, L: Link, K: Keys, C: Clock, W: Sink, T: Tells>(
    desk: &mut Desk<S, B>,
    sheet: &MatchSheet,
    outside: &mut Outside<L, K, C, W, T>,
    between: &mut Between,
) -> Result<bool, DeskEnd>
    ensures goes { (turns : ℕ) → DeskGoes sheet.now desk.old desk.new
        (process_of desk.old between.old.warned turns (ticking_of between.old.pace) further)
        (process_of desk.new between.new.warned turns (ticking_of between.new.pace) (course_of result))
        (known_in result (logs_of L.log K.inputs C.readings W.contents T.tellings outside.old))
        (known_in result (logs_of L.log K.inputs C.readings W.contents T.tellings outside.new)) }
    ensures looked { IsSome (ticking_of between.new.pace).looked }
    ensures failed { result ≡ Err DeskEnd.Write → has_failed outside.new.out ≡ true }
{
    let Outside {
        link,
        clock,
        out,
        teller,
        ..
    } = outside;
    let wait = say(desk, link, clock, &mut between.pace);
    let mut buffer = [0; ROOM];
    let longest = wait.min(between.shown_wait);
    match link.take_message(desk.game(), &mut buffer, longest) {
        Arrival::Datagram(_, read) => {
            let now = clock.millis();
            between.now = now;
            hear(desk, sheet, &read, link, out, teller, between)?;
            Ok(true)
        }
        Arrival::Unopened => {
            pass_over(out, teller, between)?;
            Ok(true)
        }
        Arrival::Nothing | Arrival::Lost => Ok(false),
    }
}

/// Takes the datagrams of a turn.
pub(crate) fn take_all<S: SlotsOf, B: BookOf + Drop, L: Link, K: Keys, C: Clock, W: Sink, T: Tells>(
    desk: &mut Desk<S, B>,
    sheet: &MatchSheet,
    outside: &mut Outside<L, K, C, W, T>,
    between: &mut Between,
) -> Result<(), DeskEnd>
    ensures goes { (turns : ℕ) → DeskGoes sheet.now desk.old desk.new
        (process_of desk.old between.old.warned turns (ticking_of between.old.pace) further)
        (process_of desk.new between.new.warned turns (ticking_of between.new.pace) (course_of result))
        (known_in result (logs_of L.log K.inputs C.readings W.contents T.tellings outside.old))
        (known_in result (logs_of L.log K.inputs C.readings W.contents T.tellings outside.new)) }
    ensures looked { IsSome (ticking_of between.new.pace).looked }
    ensures failed { result ≡ Err DeskEnd.Write → has_failed outside.new.out ≡ true }
{
    for taken in 0..MOST_TAKEN {
        if !take_next(desk, sheet, outside, between)? {
            break;
        }
    }
    Ok(())
}
