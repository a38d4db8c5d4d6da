//! The news of a book: the items that its newest entry may have changed.

ghost use Rattle.std.specs.Prelude.{◌≡◌, ◌∷◌, ◌≤◌, [], length};
ghost use Rattle.notation.specs.declared.entry.TheConstants.{PLACES};
ghost use Rattle.json_fields.specs.Values.{PutsFields};
ghost use Rattle.desk_state.specs.Book as laws;

use crate::items::put_items;
use corrections::{BookOf, Placed};
use json_fields::{
    Compact, begin_array, begin_field, end_array, end_object, put_figure, put_null, put_number,
};
use notation::Entry;
use std::alloc::{AllocError, Global};

/// The largest number of items that the news lists.
const MOST_NEWS: usize = 64;

/// Returns the place of the item that an entry at this place writes, adds or changes.
fn touched_at(place: u32, entry: &Entry) -> u32
    ensures { result ≡ laws.touched_at place entry.now }
{
    match entry {
        Entry::Fix(at, _) => *at,
        Entry::Write(_) | Entry::Late(..) => place,
    }
}

/// Returns the index of the item with this place, or the number of items if there is none.
fn index_of(place: u32, items: &[Placed]) -> usize
    ensures value { result ≡ laws.index_of place items.now }
    ensures bound { result ≤ length items.now }
{
    for index in 0..items.len() {
        if items[index].place == place {
            return index;
        }
    }
    items.len()
}

/// Returns the index of the first item that the newest entry of a book may have changed.
fn news_from<B: BookOf>(book: &B) -> usize
    ensures value { result ≡ laws.news_from (B.content book.now) }
    ensures bound { result ≤ PLACES }
{
    let len = book.len();
    if len == 0 {
        return 0;
    }
    let newest = book.entry(len - 1);
    index_of(touched_at(len - 1, &newest), book.clean_items())
}

/// Puts the number of entries of a book.
pub fn put_entries<B: BookOf>(out: &mut Compact, book: &B) -> Result<(), AllocError>
    ensures { PutsFields result out.old out.new (laws.entries_field (B.content book.now) ∷ []) }
{
    put_figure(out, "entries", book.len())
}

/// Puts the items from this index on, or null if there are too many.
fn put_from<B: BookOf>(
    out: &mut Compact,
    alloc: Global,
    book: &B,
    from: usize,
) -> Result<(), AllocError>
    requires { from ≤ PLACES }
    ensures { PutsFields result out.old out.new (laws.items_from from (B.content book.now) ∷ []) }
{
    if from + MOST_NEWS < book.clean_items().len() {
        return put_null(out, "items");
    }
    begin_array(out, "items")?;
    put_items(out, alloc, book, from)?;
    end_array(out)
}

/// Puts the news of a book.
pub fn put_news<B: BookOf>(out: &mut Compact, alloc: Global, book: &B) -> Result<(), AllocError>
    ensures { PutsFields result out.old out.new (laws.news_field (B.content book.now) ∷ []) }
{
    let from = news_from(book);
    begin_field(out, "news")?;
    put_entries(out, book)?;
    put_number(out, "from", from as u64)?;
    put_from(out, alloc, book, from)?;
    end_object(out)
}
