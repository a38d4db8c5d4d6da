//! What is asked after the word `plan`, and the plan.

ghost use Rattle.std.specs.Prelude.{◌≡◌, ◌≤◌, ◌+◌, [], false, length, true, All, Ok, Err, IfOk, MatchOption, MatchResult, OnOk};
ghost use Rattle.notation.specs.declared.entry.TheConstants.{PLACES};
ghost use Rattle.notation.specs.Written.{IsEntry};
ghost use Rattle.shorthand.specs.Full.{entry_in_full};
ghost use Rattle.shorthand.specs.Lines.{reason_of};
ghost use Rattle.std.specs.List.{after_first, before_first};
ghost use Rattle.plans.specs.Planning as planning;
ghost use Rattle.plans.specs.inner.Reading.{IsUnread};

use crate::bowler::over_by;
use crate::plan::{Plan, plan_of};
use arrayvec::ArrayString;
use cards::MatchSheet;
use corrections::BookOf;
use notation::{Entry, LineFault, Plain, Player, number_in};
use shorthand::{Unclear, entry_in_full};
use std::alloc::Global;

/// The most corrections that are read after the first.
const MOST_MORE: u32 = 23;

/// The answer to what is asked after the word `plan`.
#[derive(Drop)]
pub enum Planned {
    /// A plan of what is wanted, or why there is none.
    Plan(Plan),
    /// Something isn't clear in the text.
    Unclear(Unclear),
    /// There was no memory for a plan.
    NoMemory,
}

/// Why the wanted corrections couldn't be read.
#[derive(Clone, Copy)]
enum Unread {
    /// Something isn't clear in the text.
    Unclear(Unclear),
    /// There was no memory for them.
    NoMemory,
}

/// Returns a text without the blanks at its beginning.
fn unspaced(text: &str) -> &str
    ensures { result.now ≡ planning.unspaced text.now }
{
    text.trim_ascii_start()
}

/// Adds the correction that a text means.
fn add_part<B: BookOf>(
    wanted: &mut Vec<Entry>,
    text: &str,
    book: &B,
    sheet: &MatchSheet,
) -> Result<(), Unread>
    ensures value { MatchResult result
        (λ done. planning.with_part (Ok wanted.old.items) (entry_in_full sheet.now (B.content book.now) text.now)
        ≡ Ok wanted.new.items)
        (IsUnread (planning.with_part (Ok wanted.old.items) (entry_in_full sheet.now (B.content book.now) text.now))) }
    ensures in_range { All IsEntry wanted.old.items → OnOk result (All IsEntry wanted.new.items) }
    ensures few { OnOk result (length wanted.new.items ≤ length wanted.old.items + 1) }
{
    match entry_in_full(text.as_bytes(), book, sheet) {
        Ok(entry) => match wanted.push(entry) {
            Ok(()) => Ok(()),
            Err(_) => Err(Unread::NoMemory),
        },
        Err(unclear) => Err(Unread::Unclear(unclear)),
    }
}

/// Returns what is before the first comma, and what follows it and its blanks.
fn cut(text: &str) -> Option<(&str, &str)>
    ensures { MatchOption result (planning.has_comma text.now ≡ false) (λ parts. (planning.has_comma text.now ≡ true)
        × (parts.0.now ≡ before_first planning.is_comma text.now)
        × (parts.1.now ≡ planning.unspaced (after_first planning.is_comma text.now))) }
{
    let (first, rest) = text.split_once(',')?;
    Some((first, unspaced(rest)))
}

/// Adds the corrections of a text, separated by commas, at most `more` after the first.
fn add_parts<B: BookOf>(
    wanted: &mut Vec<Entry>,
    more: u32,
    text: &str,
    book: &B,
    sheet: &MatchSheet,
) -> Result<(), Unread>
    ensures value { MatchResult result
        (λ done. planning.with_parts sheet.now (B.content book.now) (Ok wanted.old.items) (planning.parts_of more text.now)
        ≡ Ok wanted.new.items)
        (IsUnread (planning.with_parts sheet.now (B.content book.now) (Ok wanted.old.items) (planning.parts_of more text.now))) }
    ensures in_range { All IsEntry wanted.old.items → OnOk result (All IsEntry wanted.new.items) }
    ensures few { OnOk result (length wanted.new.items ≤ length wanted.old.items + 1 + more) }
{
    if more == 0 {
        return add_part(wanted, text, book, sheet);
    }
    match cut(text) {
        None => add_part(wanted, text, book, sheet),
        Some((first, rest)) => match add_part(wanted, first, book, sheet) {
            Ok(()) => add_parts(wanted, more - 1, rest, book, sheet),
            Err(why) => Err(why),
        },
    }
}

/// Returns the corrections of a text, separated by commas.
fn listed<B: BookOf>(
    alloc: Global,
    text: &str,
    book: &B,
    sheet: &MatchSheet,
) -> Result<Vec<Entry>, Unread>
    ensures value { MatchResult result
        (λ wanted. planning.with_parts sheet.now (B.content book.now) (Ok []) (planning.parts_of 23 text.now) ≡ Ok wanted.items)
        (IsUnread (planning.with_parts sheet.now (B.content book.now) (Ok []) (planning.parts_of 23 text.now))) }
    ensures in_range { IfOk result (λ wanted. All IsEntry wanted.items) }
    ensures few { IfOk result (λ wanted. length wanted.items ≤ PLACES) }
{
    let mut wanted = Vec::new(alloc);
    add_parts(&mut wanted, MOST_MORE, text, book, sheet)?;
    Ok(wanted)
}

/// Returns the bowler of a delivery.
fn bowler_of(entry: Entry) -> Result<Player, Unclear>
    ensures { MatchResult result (λ player. planning.bowler_of (Ok entry) ≡ Ok player)
        (λ unclear. planning.bowler_of (Ok entry) ≡ Err (reason_of unclear)) }
{
    match entry {
        Entry::Write(Plain::Ball(ball)) => Ok(ball.bowler),
        _ => Err(Unclear::Fault(LineFault::UnknownWord)),
    }
}

/// Returns the player of the fielding side with this name.
fn bowler_named<B: BookOf>(name: &str, book: &B, sheet: &MatchSheet) -> Result<Player, Unclear>
    ensures { MatchResult result
        (λ player. planning.bowler_named sheet.now (B.content book.now) name.now ≡ Ok player)
        (λ unclear. planning.bowler_named sheet.now (B.content book.now) name.now ≡ Err (reason_of unclear)) }
{
    if name.len() > 80 {
        return Err(Unclear::Fault(LineFault::TooLong));
    }
    let mut line = ArrayString::<96>::new();
    line.push_str("ball ");
    line.push_str(name);
    line.push_str(" bat 0");
    bowler_of(entry_in_full(line.as_str().as_bytes(), book, sheet)?)
}

/// Returns corrections of each delivery of an over of the innings begun last, with the named player as the bowler.
fn by_bowler<B: BookOf>(
    alloc: Global,
    words: &str,
    book: &B,
    sheet: &MatchSheet,
) -> Result<Vec<Entry>, Unread>
    ensures value { MatchResult result
        (λ wanted. planning.by_bowler sheet.now (B.content book.now) words.now ≡ Ok wanted.items)
        (IsUnread (planning.by_bowler sheet.now (B.content book.now) words.now)) }
    ensures in_range { IfOk result (λ wanted. All IsEntry wanted.items) }
    ensures few { IfOk result (λ wanted. length wanted.items ≤ PLACES) }
{
    let Some((number, name)) = words.split_once(' ') else {
        return Err(Unread::Unclear(Unclear::Fault(LineFault::Missing)));
    };
    let Some(over) = number_in(number, 1, 8191) else {
        return Err(Unread::Unclear(Unclear::Fault(LineFault::BadNumber)));
    };
    match bowler_named(name, book, sheet) {
        Ok(bowler) => match over_by(alloc, book, u32::from(over), bowler) {
            Ok(wanted) => Ok(wanted),
            Err(_) => Err(Unread::NoMemory),
        },
        Err(unclear) => Err(Unread::Unclear(unclear)),
    }
}

/// Returns what follows the word `bowler`, if a text begins with it.
fn behind_bowler(text: &str) -> Option<&str>
    ensures { MatchOption result (planning.is_of_bowler text.now ≡ false)
        (λ words. (planning.is_of_bowler text.now ≡ true) × (words.now ≡ after_first planning.is_space text.now)) }
{
    let (word, words) = text.split_once(' ')?;
    if word == "bowler" { Some(words) } else { None }
}

/// Returns all wanted corrections of a text.
fn wanted_in<B: BookOf>(
    alloc: Global,
    text: &str,
    book: &B,
    sheet: &MatchSheet,
) -> Result<Vec<Entry>, Unread>
    ensures value { MatchResult result
        (λ wanted. planning.wanted_in sheet.now (B.content book.now) text.now ≡ Ok wanted.items)
        (IsUnread (planning.wanted_in sheet.now (B.content book.now) text.now)) }
    ensures in_range { IfOk result (λ wanted. All IsEntry wanted.items) }
    ensures few { IfOk result (λ wanted. length wanted.items ≤ PLACES) }
{
    match behind_bowler(text) {
        Some(words) => by_bowler(alloc, words, book, sheet),
        None => listed(alloc, text, book, sheet),
    }
}

/// Returns the answer to the text after `plan `.
pub fn plan_asked<B: BookOf>(alloc: Global, text: &str, book: &B, sheet: &MatchSheet) -> Planned
    ensures { planning.IsPlanned sheet.now (B.content book.now) text.now result }
{
    let wanted = match wanted_in(alloc, text, book, sheet) {
        Ok(wanted) => wanted,
        Err(Unread::Unclear(unclear)) => return Planned::Unclear(unclear),
        Err(Unread::NoMemory) => return Planned::NoMemory,
    };
    match plan_of(alloc, sheet.innings(), book, &wanted) {
        Ok(plan) => Planned::Plan(plan),
        Err(_) => Planned::NoMemory,
    }
}
