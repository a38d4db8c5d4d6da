//! The score of a book before its last entry, if that is a correction.

ghost use Rattle.std.specs.Prelude.{◌≡◌, ◌<◌, ◌≤◌, ◌∷◌, [], IfSome, Some, is_some, length, slice_get, take};
ghost use Rattle.notation.specs.Written.{IsEntry, IsPlain};
ghost use Rattle.corrections.specs.CleanList.{fixed};
ghost use Rattle.corrections.specs.Legal.{IsScoreOf};
ghost use Rattle.changes.specs.Before as books;

use corrections::BookOf;
use match_laws::Match;
use notation::{Entry, Plain};

/// Returns the item that was entered.
fn entered(entry: &Entry) -> Plain
    requires { IsEntry entry.now }
    ensures value { result ≡ books.entered (Some entry.now) }
    ensures in_range { IsPlain result }
{
    match *entry {
        Entry::Write(item) => item,
        Entry::Fix(_, item) => item,
        Entry::Late(_, item) => item,
    }
}

/// Returns what stands at a place after this entry, given what stood there before.
fn fixed_by(entry: &Entry, place: u32, stood: Plain) -> Plain
    requires entry { IsEntry entry.now }
    requires stood { IsPlain stood }
    ensures value { result ≡ fixed (entry.now ∷ []) place stood }
    ensures in_range { IsPlain result }
{
    match *entry {
        Entry::Fix(at, item) => { if at == place { item } else { stood } }
        Entry::Write(_) | Entry::Late(..) => stood,
    }
}

/// Returns what stood at a place before a later place was entered.
fn stood_before<B: BookOf>(book: &B, place: u32, end: u32) -> Plain
    requires place { place < end }
    requires end { end ≤ length (B.content book.now) }
    ensures value { result ≡ books.stands_at (take end (B.content book.now)) place }
    ensures in_range { IsPlain result }
{
    let mut item = entered(&book.entry(place));
    for at in 0..end {
        item = fixed_by(&book.entry(at), place, item);
    }
    item
}

/// Returns what would stand at a place of a book after this entry; at the next place, the entry's own item.
pub fn item_with<B: BookOf>(book: &B, entry: &Entry, place: u32) -> Plain
    requires { IsEntry entry.now }
    ensures value { result ≡ books.item_with (B.content book.now) entry.now place }
    ensures in_range { IsPlain result }
{
    let len = book.len();
    if place < len {
        fixed_by(entry, place, stood_before(book, place, len))
    } else {
        entered(entry)
    }
}

/// Returns the entry that takes a book's last entry back, if that is a correction.
fn taking_back<B: BookOf>(book: &B) -> Option<Entry>
    ensures some { is_some result ≡ books.is_correction (books.last_of (B.content book.now)) }
    ensures value { IfSome result (books.TakesBack (B.innings_a_side book.now) (B.content book.now)) }
    ensures in_range { IfSome result IsEntry }
{
    // A book that has a score is legal, so a correction names an earlier place.
    let _score = book.score();
    let len = book.len();
    if len == 0 {
        return None;
    }
    let last = len - 1;
    match book.entry(last) {
        Entry::Write(_) => None,
        Entry::Fix(place, _) => Some(Entry::Fix(place, stood_before(book, place, last))),
        Entry::Late(..) => Some(Entry::Fix(last, Plain::Void)),
    }
}

/// Returns the score of a book without its last entry, if that is a `fix` or a `late`.
pub fn score_before<B: BookOf>(book: &B) -> Option<Match>
    ensures some { is_some result ≡ books.is_correction (books.last_of (B.content book.now)) }
    ensures score { IfSome result (λ score.
        IsScoreOf score (B.innings_a_side book.now) (books.before (B.content book.now))) }
{
    let _score = book.score();
    let back = taking_back(book)?;
    match book.check(&back) {
        Ok(score) => Some(score),
        // The book never refuses this entry.
        Err(_) => None,
    }
}
