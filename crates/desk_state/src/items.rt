//! All items of a book's clean list.

ghost use Rattle.std.specs.Prelude.{◌≡◌, ◌∷◌, ◌<◌, [], None, Some, drop, get_or, if◌then◌else◌, length, slice_get};
ghost use Rattle.notation.specs.declared.entry.TheConstants.{PLACES};
ghost use Rattle.notation.specs.Written.{IsPlain};
ghost use Rattle.json_fields.specs.Values.{PutsValues};
ghost use Rattle.desk_state.specs.Book as laws;
ghost use Rattle.desk_state.specs.inner.Before.{IsWithin};

use crate::before::Before;
use crate::corrected::{corrected_by, noted_at};
use crate::standing_item::put_item;
use corrections::{BookOf, Placed};
use json_fields::Compact;
use std::alloc::{AllocError, Global};

/// Returns the item at an index.
fn placed_at(items: &[Placed], index: usize) -> Placed
    requires { index < length items.now }
    ensures { slice_get items.now index ≡ Some result }
{
    items[index]
}

/// Puts an item if it is wanted, and otherwise nothing.
fn put_if(
    out: &mut Compact,
    alloc: Global,
    is_wanted: bool,
    before: &Before,
    by: &[Option<u32>],
    placed: &Placed,
) -> Result<(), AllocError>
    requires within { IsWithin PLACES before.now }
    requires item { IsPlain placed.now.item }
    requires place { placed.now.place < length by.now }
    ensures { PutsValues result out.old out.new (if is_wanted then laws.item_value before.now.count before.now.crease.ends.striker
        (get_or by.now placed.now.place None) placed.now.place placed.now.item ∷ [] else []) }
{
    if !is_wanted {
        return Ok(());
    }
    let striker = before.crease.ends().striker;
    put_item(
        out,
        alloc,
        before.count,
        striker,
        noted_at(by, placed.place),
        placed,
    )
}

/// Puts the items of a book's clean list, in the order of the match, from this index on.
pub fn put_items<B: BookOf>(
    out: &mut Compact,
    alloc: Global,
    book: &B,
    from: usize,
) -> Result<(), AllocError>
    ensures { PutsValues result out.old out.new (drop from (laws.book_items (B.content book.now))) }
{
    let by = corrected_by(alloc, book)?;
    // A book has a score, so the Laws accepted its items one after another.
    let _score = book.score();
    let items = book.clean_items();
    let mut before = Before::none();
    for index in 0..items.len() {
        let placed = placed_at(items, index);
        put_if(out, alloc, index >= from, &before, by.as_slice(), &placed)?;
        before = before.after(&placed.item);
    }
    Ok(())
}
