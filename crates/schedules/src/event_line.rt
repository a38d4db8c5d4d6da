//! One line of a schedule.

ghost use Rattle.std.specs.Prelude.{◌≡◌, MatchOption, Some, None};
ghost use Rattle.notation.specs.Written.{found_number};
ghost use Rattle.schedules.specs.inner.ScheduleReading.{choice_at, cut, count_at, desk_at, event_at, fill_at, give_at, line_says, pen_at, pick, power_at, readers, station_at};

use crate::schedule_fault::ScheduleFault;
use agree_core::DeskId;
use entry_log::Choice;
use headline::{Event, Station};
use notation::{number_in, read_line};
use std::str;

/// Returns the parts before and after the first space.
fn cut(words: &str) -> Option<(&str, &str)>
    ensures { MatchOption result (cut words.now ≡ None) (λ p. cut words.now ≡ Some (p.0.now, p.1.now)) }
{
    words.split_once(' ')
}

#[tactic(auto, unfolding(crate::specs::inner::ScheduleReading::desk_at))]
fn desk(word: &str) -> Option<DeskId>
    ensures { result ≡ desk_at word.now }
{
    match word {
        "a" => Some(DeskId::A),
        "b" => Some(DeskId::B),
        _ => None,
    }
}

/// Reads a board's number, 1 to 4.
fn board(word: &str) -> Option<u8>
    ensures { result ≡ found_number 1 4 word.now }
{
    let number = number_in(word, 1, 4)?;
    Some(number as u8)
}

#[tactic(auto, unfolding(crate::specs::inner::ScheduleReading::station_at))]
fn station(word: &str) -> Option<Station>
    ensures { result ≡ station_at word.now }
{
    match desk(word) {
        Some(desk) => Some(Station::Desk(desk)),
        None => {
            let number = board(word)?;
            Some(Station::Board(number))
        }
    }
}

/// Reads `fill v`: the value, 0 to 255, that a power loss leaves in all bytes written since the last sync.
#[tactic(auto, unfolding(crate::specs::inner::ScheduleReading::fill_at))]
fn fill(words: &str) -> Option<Choice>
    ensures { result ≡ fill_at words.now }
{
    let (first, value) = cut(words)?;
    if first != "fill" {
        return None;
    }
    let value = number_in(value, 0, 255)?;
    Some(Choice::Fill(value as u8))
}

/// Reads what a power loss leaves: `lost`, `kept` or `fill v`.
#[tactic(auto, unfolding(crate::specs::inner::ScheduleReading::choice_at))]
fn choice(words: &str) -> Option<Choice>
    ensures { result ≡ choice_at words.now }
{
    match words {
        "lost" => Some(Choice::Lost),
        "kept" => Some(Choice::Kept),
        _ => fill(words),
    }
}

/// Reads a message's number, and the station that the message is given to.
#[tactic(auto, unfolding(crate::specs::inner::ScheduleReading::give_at))]
fn give(words: &str) -> Option<Event>
    ensures { result ≡ give_at words.now }
{
    let (message, to) = cut(words)?;
    let message = number_in(message, 0, 65_535)?;
    let to = station(to)?;
    Some(Event::Give(u32::from(message), to))
}

/// Reads a desk, and what the power loss leaves.
#[tactic(auto, unfolding(crate::specs::inner::ScheduleReading::power_at))]
fn power(words: &str) -> Option<Event>
    ensures { result ≡ power_at words.now }
{
    let (at, left) = cut(words)?;
    let desk = desk(at)?;
    let choice = choice(left)?;
    Some(Event::Power(desk, choice))
}

/// Reads a desk, and a number of device calls.
#[tactic(auto, unfolding(crate::specs::inner::ScheduleReading::count_at))]
fn count(words: &str) -> Option<(DeskId, u32)>
    ensures { result ≡ count_at words.now }
{
    let (at, calls) = cut(words)?;
    let desk = desk(at)?;
    let calls = number_in(calls, 1, 1000)?;
    Some((desk, u32::from(calls)))
}

/// Reads the words behind the first one, for each first word but `pen`.
fn event_after(first: &str, words: &str) -> Option<Event>
    ensures { result ≡ pick first.now readers words.now }
{
    match first {
        "tick" => {
            let station = station(words)?;
            Some(Event::Tick(station))
        }
        "give" => give(words),
        "kill" => {
            let desk = desk(words)?;
            Some(Event::Kill(desk))
        }
        "power" => power(words),
        "fail" => {
            let (desk, calls) = count(words)?;
            Some(Event::FailAt(desk, calls))
        }
        "stop" => {
            let (desk, calls) = count(words)?;
            Some(Event::StopAt(desk, calls))
        }
        "open" => {
            let desk = desk(words)?;
            Some(Event::Open(desk))
        }
        "wipe" => {
            let number = board(words)?;
            Some(Event::Wipe(number))
        }
        "migrate" => {
            let desk = desk(words)?;
            Some(Event::Migrate(desk))
        }
        _ => None,
    }
}

/// Returns the event of a line that isn't a pen's.
#[tactic(auto, unfolding(crate::specs::inner::ScheduleReading::event_at))]
fn spelled(line: &str) -> Option<Event>
    ensures { result ≡ event_at line.now }
{
    let (first, words) = cut(line)?;
    event_after(first, words)
}

/// Returns the event of a line that isn't a pen's, or `None` if the bytes aren't UTF-8.
fn event(line: &[u8]) -> Option<Event>
    ensures { result ≡ event_at line.now }
{
    match str::from_utf8(line) {
        Ok(text) => spelled(text),
        Err(_) => None,
    }
}

/// Returns the desk and the entry line of a pen line.
#[tactic(auto, unfolding(crate::specs::inner::ScheduleReading::pen_at))]
fn pen(line: &[u8]) -> Option<(DeskId, &[u8])>
    ensures { MatchOption result (pen_at line.now ≡ None) (λ p. pen_at line.now ≡ Some (p.0, p.1.now)) }
{
    if let Some(entry) = line.strip_prefix(b"pen a ") {
        return Some((DeskId::A, entry));
    }
    let entry = line.strip_prefix(b"pen b ")?;
    Some((DeskId::B, entry))
}

/// Returns the event of line `number`, or its fault.
#[tactic(auto, unfolding(crate::specs::inner::ScheduleReading::line_says))]
pub fn read_event(line: &[u8], number: u64) -> Result<Event, ScheduleFault>
    ensures { result ≡ line_says number line.now }
{
    if let Some((desk, entry)) = pen(line) {
        return match read_line(entry) {
            Ok(entry) => Ok(Event::Pen(desk, entry)),
            Err(fault) => Err(ScheduleFault::BadEntry {
                line: number,
                fault,
            }),
        };
    }
    event(line).ok_or(ScheduleFault::BadEvent { line: number })
}
