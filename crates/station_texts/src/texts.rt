//! What a desk's scorer is told.

ghost use Rattle.std.specs.Prelude.{◌≡◌, slice_get, IfSome, OnOk};
ghost use Rattle.streams.specs.Watched.{Prints, TellsFailure};
ghost use Rattle.notation.specs.Written.{IsEntry};
ghost use Rattle.match_laws.specs.Stands.{ForEachHistory};
ghost use Rattle.corrections.specs.CleanList.{history_of};
ghost use Rattle.station_texts.specs.inner.Telling.{IsFine};
ghost use Rattle.station_texts.specs.Texts as texts;

use crate::again::print_again;
use crate::both::Both;
use crate::doubt::{print_doubted, print_going};
use crate::plan_text::print_planned;
use crate::refusals::{print_refused, print_refused_entry};
use crate::said::Said;
use crate::warned::Warned;
use crate::who_bowls::print_question;
use agree_core::{Position, ROUNDS, Settled};
use book_rows::{print_listing, print_over_by_side, print_over_last, print_range};
use cards::MatchSheet;
use changes::print_last_changes;
use corrections::BookOf;
use desk::Refusal;
use match_laws::Match;
use notation::{Entry, PLACES, Plain, line_of};
use score_rows::{print_bowlers, print_check, print_over_note, print_result, print_row};
use screen::{
    HELP, Word, help_on, print_cards, print_cards_of, print_sides, print_waiting, refusal_sentence,
};
use streams::{Sink, Watched, WriteFailed};

/// Prints a place, and words about it.
pub(crate) fn print_at<W: Sink>(
    out: &mut Watched<W>,
    place: u32,
    words: &str,
) -> Result<(), WriteFailed>
    ensures text { OnOk result (Prints W.contents out.old out.new (texts.at_place place words.now)) }
    ensures failed { TellsFailure result out.old out.new }
{
    writeln!(out, "{place} {words}")
}

/// Whether the entry is the umpire's call of over.
fn is_over(entry: &Entry) -> bool
    ensures { result ≡ texts.is_over entry.now }
{
    matches!(entry, Entry::Write(Plain::Over))
}

/// Prints how many overs were called in the latest innings.
fn print_called<W: Sink>(out: &mut Watched<W>, score: &Match) -> Result<(), WriteFailed>
    ensures text { ForEachHistory score.now (λ n h.
        OnOk result (Prints W.contents out.old out.new (texts.over_called h))) }
    ensures failed { TellsFailure result out.old out.new }
{
    let begun = score.begun();
    if begun == 0 {
        return Ok(());
    }
    let (called, _) = score.overs(begun - 1);
    write!(out, " {called}")
}

/// Prints that an entry is agreed at this place.
fn print_line<W: Sink>(out: &mut Watched<W>, place: u32, entry: &Entry) -> Result<(), WriteFailed>
    requires { IsEntry entry.now }
    ensures text { OnOk result (Prints W.contents out.old out.new
        (texts.agreed_line place entry.now)) }
    ensures failed { TellsFailure result out.old out.new }
{
    let line = line_of(entry);
    let words = line.as_str();
    write!(out, "{place} agreed: {words}")
}

/// Prints that an over is agreed at this place, how many of its deliveries count if not six, the result if the match is
/// decided, and the check of the over.
fn print_over<B: BookOf, W: Sink>(
    out: &mut Watched<W>,
    sheet: &MatchSheet,
    place: u32,
    entry: &Entry,
    book: &B,
) -> Result<(), WriteFailed>
    requires { IsEntry entry.now }
    ensures text { OnOk result (Prints W.contents out.old out.new
        (texts.over_agreed sheet.now (B.innings_a_side book.now) place (history_of (B.content book.now)) entry.now)) }
    ensures failed { TellsFailure result out.old out.new }
{
    let score = book.score();
    print_line(out, place, entry)?;
    print_called(out, score)?;
    print_over_note(out, book)?;
    print_result(out, sheet, score)?;
    writeln!(out)?;
    print_check(out, sheet, book)
}

/// Prints that an entry other than `over` is agreed at this place, and how the match stands.
fn print_play<B: BookOf, W: Sink>(
    out: &mut Watched<W>,
    sheet: &MatchSheet,
    place: u32,
    entry: &Entry,
    book: &B,
) -> Result<(), WriteFailed>
    requires { IsEntry entry.now }
    ensures text { OnOk result (Prints W.contents out.old out.new
        (texts.play_agreed sheet.now (B.innings_a_side book.now) place (history_of (B.content book.now)) entry.now)) }
    ensures failed { TellsFailure result out.old out.new }
{
    print_line(out, place, entry)?;
    writeln!(out)?;
    print_row(out, sheet, book)
}

/// Prints that an entry is agreed at this place, and what it changed.
fn print_entry<B: BookOf, W: Sink>(
    out: &mut Watched<W>,
    sheet: &MatchSheet,
    place: u32,
    entry: &Entry,
    book: &B,
) -> Result<(), WriteFailed>
    requires { IsEntry entry.now }
    ensures text { OnOk result (Prints W.contents out.old out.new
        (texts.agreed_entry sheet.now (B.innings_a_side book.now) place (history_of (B.content book.now)) entry.now)) }
    ensures failed { TellsFailure result out.old out.new }
{
    if is_over(entry) {
        print_over(out, sheet, place, entry, book)
    } else {
        print_play(out, sheet, place, entry, book)
    }
}

/// Returns the entry at a place of a book, if there is one.
#[tactic(auto, using(std::proofs::lemmas::Option::slice_get_past))]
fn entry_at<B: BookOf>(book: &B, place: u32) -> Option<Entry>
    ensures value { result ≡ slice_get (B.content book.now) place }
    ensures entry { IfSome result IsEntry }
{
    if place < book.len() {
        Some(book.entry(place))
    } else {
        None
    }
}

/// Prints that the entry at a place is agreed and what it changed, if the book has one there.
fn print_agreed_at<B: BookOf, W: Sink>(
    out: &mut Watched<W>,
    sheet: &MatchSheet,
    place: u32,
    book: &B,
) -> Result<(), WriteFailed>
    ensures text { OnOk result (Prints W.contents out.old out.new
        (texts.agreed_at sheet.now (B.innings_a_side book.now) place (history_of (B.content book.now))
        (slice_get (B.content book.now) place))) }
    ensures failed { TellsFailure result out.old out.new }
{
    match entry_at(book, place) {
        None => Ok(()),
        Some(entry) => print_entry(out, sheet, place, &entry, book),
    }
}

/// Prints that a place is agreed, and what a `fix` or a `late` there has changed.
pub(crate) fn print_agreed<B: BookOf, W: Sink>(
    out: &mut Watched<W>,
    sheet: &MatchSheet,
    place: u32,
    book: &B,
) -> Result<(), WriteFailed>
    ensures text { OnOk result (Prints W.contents out.old out.new
        (texts.agreed sheet.now (B.innings_a_side book.now) place (B.content book.now))) }
    ensures failed { TellsFailure result out.old out.new }
{
    print_agreed_at(out, sheet, place, book)?;
    print_last_changes(out, sheet, book)
}

/// Prints the full line of the entry that is pending at this place.
fn print_pending<W: Sink>(
    out: &mut Watched<W>,
    place: u32,
    entry: &Entry,
) -> Result<(), WriteFailed>
    requires { IsEntry entry.now }
    ensures text { OnOk result (Prints W.contents out.old out.new (texts.pending place entry.now)) }
    ensures failed { TellsFailure result out.old out.new }
{
    let line = line_of(entry);
    let words = line.as_str();
    writeln!(out, "{place} pending: {words}")
}

/// Prints that the scorers differ at a place, with both entries if they are known.
pub(crate) fn print_differs<W: Sink>(out: &mut Watched<W>, both: Both) -> Result<(), WriteFailed>
    requires own { IfSome both.own IsEntry }
    requires other { IfSome both.other IsEntry }
    ensures text { OnOk result (Prints W.contents out.old out.new
        (texts.differs_text both.at.place both.own both.other)) }
    ensures failed { TellsFailure result out.old out.new }
{
    let place = both.at.place;
    match (both.own, both.other) {
        (Some(own), Some(other)) => {
            let own_line = line_of(&own);
            let other_line = line_of(&other);
            let you = own_line.as_str();
            let they = other_line.as_str();
            writeln!(out, "{place} differs: you {you},\n  the other {they}")
        }
        _ => print_at(out, place, "differs"),
    }
}

/// Prints the outcome of the vote for this entry at this position; `other` is the other scorer's vote, if it was noted before.
fn print_settled<B: BookOf, W: Sink>(
    out: &mut Watched<W>,
    sheet: &MatchSheet,
    at: Position,
    other: Option<Entry>,
    entry: &Entry,
    settled: Settled,
    book: &B,
) -> Result<(), WriteFailed>
    requires entry { IsEntry entry.now }
    requires other { IfSome other IsEntry }
    ensures text { OnOk result (Prints W.contents out.old out.new
        (texts.settled_text sheet.now (B.innings_a_side book.now) at.place other (B.content book.now) entry.now settled)) }
    ensures failed { TellsFailure result out.old out.new }
{
    match settled {
        Settled::Pending => print_pending(out, at.place, entry),
        Settled::Agreed => print_agreed(out, sheet, at.place, book),
        Settled::Differ => {
            let own = Some(*entry);
            print_differs(out, Both { at, own, other })
        }
    }
}

/// Returns why no vote can be cast at a position, if none can.
pub(crate) fn why_full(at: Position) -> Option<Refusal>
    ensures { result ≡ texts.why_full at }
{
    if at.place >= PLACES {
        Some(Refusal::PlacesFull)
    } else if at.round >= ROUNDS {
        Some(Refusal::RoundsFull)
    } else {
        None
    }
}

/// Prints the state of a desk that hasn't voted at this position.
fn print_open<W: Sink>(out: &mut Watched<W>, at: Position) -> Result<(), WriteFailed>
    ensures text { OnOk result (Prints W.contents out.old out.new (texts.open_text at (texts.why_full at))) }
    ensures failed { TellsFailure result out.old out.new }
{
    match why_full(at) {
        Some(why) => print_at(out, at.place, refusal_sentence(why)),
        None => {
            if at.round > 0 {
                print_at(out, at.place, "differs")
            } else {
                print_at(out, at.place, "next")
            }
        }
    }
}

/// Prints the state of a desk at this position, with its own vote there if it is cast.
fn print_place<W: Sink>(
    out: &mut Watched<W>,
    at: Position,
    own: Option<Entry>,
) -> Result<(), WriteFailed>
    requires { IfSome own IsEntry }
    ensures text { OnOk result (Prints W.contents out.old out.new (texts.place_text at own)) }
    ensures failed { TellsFailure result out.old out.new }
{
    match own {
        Some(entry) => print_pending(out, at.place, &entry),
        None => print_open(out, at),
    }
}

/// Prints how the match stands, and where the desk stands.
pub fn print_greeting<B: BookOf, W: Sink>(
    out: &mut Watched<W>,
    sheet: &MatchSheet,
    at: Position,
    own: Option<Entry>,
    book: &B,
) -> Result<(), WriteFailed>
    requires { IfSome own IsEntry }
    ensures text { OnOk result (Prints W.contents out.old out.new
        (texts.greeting sheet.now (B.innings_a_side book.now) (B.content book.now) at own)) }
    ensures failed { TellsFailure result out.old out.new }
{
    print_row(out, sheet, book)?;
    print_place(out, at, own)
}

/// Prints that the other scorer has written, if this one is waited for.
fn print_other<W: Sink>(
    out: &mut Watched<W>,
    place: u32,
    is_waited_for: bool,
) -> Result<(), WriteFailed>
    ensures text { OnOk result (Prints W.contents out.old out.new (texts.other_text place is_waited_for)) }
    ensures failed { TellsFailure result out.old out.new }
{
    if is_waited_for {
        print_at(out, place, "the other has written")
    } else {
        Ok(())
    }
}

/// Prints that the other desk isn't heard, if that was told and still holds.
fn print_silence<W: Sink>(out: &mut Watched<W>, is_silent: bool) -> Result<(), WriteFailed>
    ensures text { OnOk result (Prints W.contents out.old out.new (texts.silence_text is_silent)) }
    ensures failed { TellsFailure result out.old out.new }
{
    if is_silent {
        writeln!(out, "the other desk isn't heard")
    } else {
        Ok(())
    }
}

/// Prints that the entry isn't written, since the desk doubts its file.
fn print_withheld<W: Sink>(out: &mut Watched<W>, place: u32) -> Result<(), WriteFailed>
    ensures text { OnOk result (Prints W.contents out.old out.new (texts.withheld place)) }
    ensures failed { TellsFailure result out.old out.new }
{
    print_at(
        out,
        place,
        "isn't written: this file lacks lines; put the right file back, or type go on",
    )
}

/// Whether the other scorer has voted and the desk's own scorer hasn't.
fn is_waited_for(own: Option<Entry>, other: Option<Entry>) -> bool
    ensures { result ≡ texts.is_waited_for own other }
{
    if own.is_some() {
        false
    } else {
        other.is_some()
    }
}

/// Prints how the match stands, where the desk stands, and what is known of the other desk.
fn print_standing<B: BookOf, W: Sink>(
    out: &mut Watched<W>,
    sheet: &MatchSheet,
    at: Position,
    own: Option<Entry>,
    is_waited_for: bool,
    warned: Warned,
    book: &B,
) -> Result<(), WriteFailed>
    requires { IfSome own IsEntry }
    ensures text { OnOk result (Prints W.contents out.old out.new
        (texts.standing sheet.now (B.innings_a_side book.now) (B.content book.now) at own is_waited_for warned)) }
    ensures failed { TellsFailure result out.old out.new }
{
    let place = at.place;
    print_greeting(out, sheet, at, own, book)?;
    print_other(out, place, is_waited_for)?;
    print_silence(out, warned.of_silence)?;
    print_doubted(out, warned.doubt)
}

/// Prints what a word asks to see; nothing for `plan`, which is answered elsewhere.
fn print_asked<B: BookOf, W: Sink>(
    out: &mut Watched<W>,
    sheet: &MatchSheet,
    both: Both,
    warned: Warned,
    book: &B,
    word: Word,
) -> Result<(), WriteFailed>
    requires { IfSome both.own IsEntry }
    ensures text { OnOk result (Prints W.contents out.old out.new
        (texts.word_text sheet.now (B.innings_a_side book.now) both.at both.own
        (texts.is_waited_for both.own both.other) warned (B.content book.now) word)) }
    ensures failed { TellsFailure result out.old out.new }
{
    match word {
        Word::Where => {
            let is_waited_for = is_waited_for(both.own, both.other);
            print_standing(out, sheet, both.at, both.own, is_waited_for, warned, book)
        }
        Word::Entries(most) => print_listing(out, book, most),
        Word::Range(first, last) => print_range(out, book, first, last),
        Word::Over(number) => print_over_last(out, sheet, book, number),
        Word::OverOf(number, side, which) => {
            print_over_by_side(out, sheet, book, number, side, which)
        }
        Word::Total => print_check(out, sheet, book),
        Word::Cards => print_cards(out, sheet, book),
        Word::CardsOf(number) => print_cards_of(out, sheet, book, usize::from(number)),
        Word::Sides => print_sides(out, sheet),
        Word::Bowlers => print_bowlers(out, sheet, book),
        Word::Waiting => print_waiting(out, sheet, book),
        Word::Plan => Ok(()),
        Word::GoOn => print_going(out, warned.doubt),
        Word::Forms => write!(out, "{HELP}"),
        Word::More(topic) => {
            let text = help_on(topic);
            write!(out, "{text}")
        }
    }
}

/// Prints what a line came to. `both` has the votes before the line, `warned` what was told of a peer.
fn print_answer<B: BookOf, W: Sink>(
    out: &mut Watched<W>,
    sheet: &MatchSheet,
    both: Both,
    warned: Warned,
    said: &Said,
    book: &B,
) -> Result<(), WriteFailed>
    requires fine { IsFine said.now }
    requires own { IfSome both.own IsEntry }
    requires other { IfSome both.other IsEntry }
    ensures text { OnOk result (Prints W.contents out.old out.new
        (texts.said_text sheet.now (B.innings_a_side book.now) both.at both.own both.other warned (B.content book.now) said.now)) }
    ensures failed { TellsFailure result out.old out.new }
{
    match said {
        Said::Quit => Ok(()),
        Said::Asks(word) => print_asked(out, sheet, both, warned, book, *word),
        Said::Plan(planned) => print_planned(out, sheet, planned, book),
        Said::Unclear(unclear) => print_question(out, sheet, unclear, book),
        Said::SayAgain(line) => print_again(out, both.at, line),
        Said::NoneDiffers => print_at(
            out,
            both.at.place,
            "doesn't differ: type the line without again",
        ),
        Said::Waiting => print_refused(out, Refusal::Waiting),
        Said::Withheld => print_withheld(out, both.at.place),
        Said::Refused(entry, why) => print_refused_entry(out, book, entry, *why),
        Said::Penned(entry, settled) => {
            print_settled(out, sheet, both.at, both.other, entry, *settled, book)
        }
    }
}

/// Tells the scorer at once what a line came to. `both` has the votes before the line, `warned` what was told of a peer.
pub fn print_said<B: BookOf, W: Sink>(
    out: &mut Watched<W>,
    sheet: &MatchSheet,
    both: Both,
    warned: Warned,
    said: &Said,
    book: &B,
) -> Result<(), WriteFailed>
    requires fine { IsFine said.now }
    requires own { IfSome both.own IsEntry }
    requires other { IfSome both.other IsEntry }
    ensures text { OnOk result (Prints W.contents out.old out.new
        (texts.said_text sheet.now (B.innings_a_side book.now) both.at both.own both.other warned (B.content book.now) said.now)) }
    ensures failed { TellsFailure result out.old out.new }
{
    print_answer(out, sheet, both, warned, said, book)?;
    out.flush()
}
