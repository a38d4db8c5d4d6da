//! The items that would stand in a book with the wanted corrections.

ghost use Rattle.std.specs.Prelude.{ℕ, ◌≡◌, ◌≤◌, ◌<◌, ◌+◌, ◌++◌, All, IfOk, IsTrue, length, map, true};
ghost use Rattle.notation.specs.declared.entry.TheConstants.{PLACES};
ghost use Rattle.notation.specs.Written.{IsEntry};
ghost use Rattle.plans.specs.Plans.{names};
ghost use Rattle.plans.specs.inner.Standing.{IsStanding};

use crate::standing::stand;
use corrections::{BookOf, Placed};
use notation::{Entry, Plain};
use std::alloc::{AllocError, Global};

/// Returns a copy of the items that stand in a book.
pub fn items_of<B: BookOf>(alloc: Global, book: &B) -> Result<Vec<Placed>, AllocError>
    ensures { IfOk result (λ items. IsStanding (B.content book.now) items.items) }
{
    // The score tells the prover that the book is legal.
    let _score = book.score();
    let mut items = Vec::new(alloc);
    items.extend_from_slice(book.clean_items())?;
    Ok(items)
}

/// Returns the place of the entry at this index after a book of `len` places.
fn place_at(len: u32, index: usize) -> u32
    requires { len + index ≤ 16384 }
    ensures { result ≡ len + index }
{
    len + index as u32
}

/// Returns the items that would stand in a book with all wanted corrections, legal or not.
pub fn target_of<B: BookOf>(
    alloc: Global,
    book: &B,
    wanted: &[Entry],
) -> Result<Vec<Placed>, AllocError>
    requires in_range { All IsEntry wanted.now }
    requires named { All (λ entry. names (B.content book.now) entry ≡ true) wanted.now }
    requires few { length wanted.now ≤ PLACES }
    ensures { IfOk result (λ items. IsStanding (B.content book.now ++ wanted.now) items.items) }
{
    let len = book.len();
    let mut items = items_of(alloc, book)?;
    for index in 0..wanted.len() {
        let entry = wanted[index];
        stand(&mut items, place_at(len, index), &entry)?;
    }
    Ok(items)
}

/// Whether the two items are the same.
fn is_equal(one: &Plain, other: &Plain) -> bool
    ensures { IsTrue result → one.now ≡ other.now }
{
    Entry::Write(*one).is_same(&Entry::Write(*other))
}

/// Whether the same items stand in both lists, in the same order.
pub fn is_same(items: &[Placed], target: &[Placed]) -> bool
    ensures { IsTrue result → map (λ s. s.item) items.now ≡ map (λ s. s.item) target.now }
{
    if items.len() != target.len() {
        return false;
    }
    for index in 0..items.len() {
        if !is_equal(&items[index].item, &target[index].item) {
            return false;
        }
    }
    true
}
