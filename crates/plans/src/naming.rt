//! Whether a correction names an entry of its kind: a `fix` an entry of play or a late one, a `late` an entry of play.

ghost use Rattle.std.specs.Prelude.{◌≡◌, All, Contains, IfSome, Some, None, false, true, slice_get};
ghost use Rattle.notation.specs.Written.{IsEntry};
ghost use Rattle.plans.specs.Plans as plans;

use corrections::BookOf;
use notation::Entry;

/// Returns the entry at a place of a book, if the book has that place.
#[tactic(auto, using(std::proofs::lemmas::Option::slice_get_past))]
fn entry_at<B: BookOf>(book: &B, place: u32) -> Option<Entry>
    ensures { result ≡ slice_get (B.content book.now) place }
{
    if place < book.len() {
        Some(book.entry(place))
    } else {
        None
    }
}

/// Whether an entry can be corrected: an entry of play or a late one.
fn can_be_fixed(entry: Option<Entry>) -> bool
    ensures { result ≡ plans.can_be_fixed entry }
{
    match entry {
        Some(Entry::Write(_)) => true,
        Some(Entry::Late(..)) => true,
        Some(Entry::Fix(..)) => false,
        None => false,
    }
}

/// Whether a late entry may follow an entry: only an entry of play.
fn can_be_followed(entry: Option<Entry>) -> bool
    ensures { result ≡ plans.can_be_followed entry }
{
    match entry {
        Some(Entry::Write(_)) => true,
        Some(Entry::Late(..)) => false,
        Some(Entry::Fix(..)) => false,
        None => false,
    }
}

/// Whether the entry is a `fix` or a `late` that names an entry of its kind.
pub fn names<B: BookOf>(book: &B, entry: &Entry) -> bool
    ensures { result ≡ plans.names (B.content book.now) entry.now }
{
    match *entry {
        Entry::Write(_) => false,
        Entry::Fix(place, _) => can_be_fixed(entry_at(book, place)),
        Entry::Late(place, _) => can_be_followed(entry_at(book, place)),
    }
}

/// Returns the first of these entries that names no entry of its kind.
pub fn first_unnamed<B: BookOf>(book: &B, wanted: &[Entry]) -> Option<Entry>
    requires { All IsEntry wanted.now }
    ensures some { IfSome result (λ entry. IsEntry entry × Contains wanted.now entry × (plans.names (B.content book.now) entry ≡ false)) }
    ensures none { result ≡ None → All (λ entry. plans.names (B.content book.now) entry ≡ true) wanted.now }
{
    for index in 0..wanted.len() {
        let entry = wanted[index];
        if !names(book, &entry) {
            return Some(entry);
        }
    }
    None
}
