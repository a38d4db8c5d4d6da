//! What a scorer's typed line comes to.

ghost use Rattle.std.specs.Prelude.{◌≡◌, ◌≢◌, ◌⊎◌, ◌++◌, List, ℕ, codes, Some, None, MatchOption, IfErr, IfOk, IfSome, true, false};
ghost use Rattle.notation.specs.declared.entry.Entry.{Entry};
ghost use Rattle.notation.specs.Written.{IsEntry};
ghost use Rattle.agree_core.specs.Ballots.{Ballot};
ghost use Rattle.cards.specs.Sheet.{Sheet};
ghost use Rattle.desk.specs.Desk.{last_entry};
ghost use Rattle.screen.specs.Words as words;
ghost use Rattle.station_texts.specs.Saying.{ComesTo, IsNoWord, IsNotAgain, IsTextOf, IsTold, LineMeans};

use agree_core::Settled;
use arrayvec::ArrayString;
use cards::MatchSheet;
use corrections::BookOf;
use desk::Refusal;
use notation::Entry;
use plans::{Planned, plan_asked};
use screen::{Word, behind_plan, is_end, word_of};
use shorthand::{Unclear, entry_in_full, marked_alone};
use std::alloc::Global;
use std::str;

/// A text that is short enough to make a line with `again ` before it.
pub(crate) type BehindAgain = ArrayString<122>;

/// What a scorer's typed line comes to.
#[derive(Drop)]
pub enum Said {
    /// `quit` or `exit`: it ends the process.
    Quit,
    /// A word that asks to see something.
    Asks(Word),
    /// `plan`, with its answer.
    Plan(Planned),
    /// The line means no entry: something in it is unclear, or the full line has a fault.
    Unclear(Unclear),
    /// The scorers differed at this place, and the line doesn't begin with `again `. It is given if it fits behind `again `.
    SayAgain(Option<BehindAgain>),
    /// The line begins with `again`, but the scorers didn't differ, or this one has nothing to say again.
    NoneDiffers,
    /// The scorers differed, the desk's vote of the new round is cast, and the line says an entry without `again `: it is
    /// refused just as it would be with `again `.
    Waiting,
    /// The desk refuses the entry.
    Refused(Entry, Refusal),
    /// The line says an entry, but the desk doubts its file and casts no vote.
    Withheld,
    /// The vote for the entry is cast.
    Penned(Entry, Settled),
}

/// Returns what a line comes to that is this word.
fn word_said<B: BookOf>(
    alloc: Global,
    line: &[u8],
    book: &B,
    sheet: &MatchSheet,
    word: Word,
) -> Said
    requires { words.word_of line.now ≡ Some word }
    ensures { (votes : List Ballot) → (differs : _) → (is_cast : _)
        → ComesTo sheet.now (B.content book.now) votes differs is_cast line.now result }
{
    match word {
        Word::Plan => Said::Plan(plan_asked(alloc, behind_plan(line), book, sheet)),
        word => Said::Asks(word),
    }
}

/// Returns what a line comes to if it is a word that means no entry; `None` for any other line.
fn word<B: BookOf>(alloc: Global, line: &[u8], book: &B, sheet: &MatchSheet) -> Option<Said>
    ensures word { (votes : List Ballot) → (differs : _) → (is_cast : _)
        → IfSome result (ComesTo sheet.now (B.content book.now) votes differs is_cast line.now) }
    ensures none { result ≡ None → IsNoWord line.now }
{
    if is_end(line) {
        return Some(Said::Quit);
    }
    match word_of(line) {
        Some(word) => Some(word_said(alloc, line, book, sheet, word)),
        None => None,
    }
}

/// Returns the text after `again `, if the line begins so.
fn behind_again(line: &[u8]) -> Option<&[u8]>
    requires { line.now ≢ codes "again" }
    ensures { MatchOption result (IsNotAgain line.now) (λ text. line.now ≡ codes "again " ++ text.now) }
{
    line.strip_prefix(b"again ")
}

/// Returns the line as it can be shown behind `again `, if it is text and fits there.
fn shown(line: &[u8]) -> Option<BehindAgain>
    ensures { IsTold line.now result }
{
    match str::from_utf8(line) {
        Ok(text) => BehindAgain::from(text).ok(),
        Err(_) => None,
    }
}

/// Returns what a line without `again ` comes to after the scorers differed.
fn bare_said<B: BookOf>(line: &[u8], book: &B, sheet: &MatchSheet, is_cast: bool) -> Said
    requires word { IsNoWord line.now }
    requires bare { IsNotAgain line.now }
    ensures { (votes : List Ballot) → ComesTo sheet.now (B.content book.now) votes true is_cast line.now result }
{
    if !is_cast {
        return Said::SayAgain(shown(line));
    }
    match entry_in_full(line, book, sheet) {
        Ok(_) => Said::Waiting,
        Err(unclear) => Said::Unclear(unclear),
    }
}

/// Returns the text of an entry's line. `differs` holds in every round of a place but the first, `is_cast` once the desk has
/// voted in the round.
fn entry_text<'a, B: BookOf>(
    line: &'a [u8],
    book: &B,
    sheet: &MatchSheet,
    differs: bool,
    is_cast: bool,
) -> Result<&'a [u8], Said>
    requires word { IsNoWord line.now }
    requires again { line.now ≢ codes "again" }
    ensures text { IfOk result (λ text. IsTextOf differs line.now text.now) }
    ensures none { (votes : List Ballot) → IfErr result (ComesTo sheet.now (B.content book.now) votes differs is_cast line.now) }
{
    match behind_again(line) {
        Some(text) => {
            if differs {
                Ok(text)
            } else {
                Err(Said::NoneDiffers)
            }
        }
        None => {
            if differs {
                Err(bare_said(line, book, sheet, is_cast))
            } else {
                Ok(line)
            }
        }
    }
}

/// Returns what `again` alone comes to: the entry that this scorer wrote last, if the scorers differed.
fn once_more(last: Option<Entry>, differs: bool) -> Result<Entry, Said>
    requires { IfSome last IsEntry }
    ensures said { IfOk result (λ entry. (differs ≡ true) × (last ≡ Some entry) × IsEntry entry) }
    ensures none { IfErr result (λ said. (said ≡ Said.NoneDiffers) × ((differs ≡ false) ⊎ (last ≡ None))) }
{
    match last {
        Some(entry) => {
            if differs {
                Ok(entry)
            } else {
                Err(Said::NoneDiffers)
            }
        }
        None => Err(Said::NoneDiffers),
    }
}

/// Returns the entry that a line of one mark means in full, in the first round of a place. No such line is one of the words.
fn marked<B: BookOf>(line: &[u8], book: &B, differs: bool) -> Option<Entry>
    ensures { (s : Sheet) → (votes : List Ballot) → IfSome result (LineMeans s (B.content book.now) votes differs line.now) }
{
    if differs {
        return None;
    }
    marked_alone(line, book)
}

/// Returns the entry that a line says, put in full by the sheet and the book, or for `again` alone what this scorer wrote last.
/// `differs` holds in every round of a place but the first, `is_cast` once the desk has voted in the round.
pub fn entry_said<B: BookOf>(
    alloc: Global,
    line: &[u8],
    book: &B,
    sheet: &MatchSheet,
    last: Option<Entry>,
    differs: bool,
    is_cast: bool,
) -> Result<Entry, Said>
    requires { IfSome last IsEntry }
    ensures said { (votes : List Ballot) → last ≡ last_entry votes
        → IfOk result (LineMeans sheet.now (B.content book.now) votes differs line.now) }
    ensures none { (votes : List Ballot) → last ≡ last_entry votes
        → IfErr result (ComesTo sheet.now (B.content book.now) votes differs is_cast line.now) }
{
    if let Some(entry) = marked(line, book, differs) {
        return Ok(entry);
    }
    if let Some(said) = word(alloc, line, book, sheet) {
        return Err(said);
    }
    if line == b"again".as_slice() {
        return once_more(last, differs);
    }
    let text = match entry_text(line, book, sheet, differs, is_cast) {
        Ok(text) => text,
        Err(said) => return Err(said),
    };
    match entry_in_full(text, book, sheet) {
        Ok(entry) => Ok(entry),
        Err(unclear) => Err(Said::Unclear(unclear)),
    }
}
