//! The entry that `undo` makes void.

ghost use Rattle.std.specs.Prelude.{◌≡◌, None};
ghost use Rattle.shorthand.specs.Undo as undo;

use corrections::{BookOf, Placed};
use match_laws::is_void;

/// Returns the later of two places, of which the first may be missing.
fn later(last: Option<u32>, place: u32) -> Option<u32>
    ensures { result ≡ undo.later last place }
{
    match last {
        None => Some(place),
        Some(before) => { if before < place { Some(place) } else { last } }
    }
}

/// Returns the last place after one more item; a void item doesn't count.
fn with_item(last: Option<u32>, item: &Placed) -> Option<u32>
    ensures { result ≡ undo.with_item last item.now }
{
    if is_void(&item.item) {
        last
    } else {
        later(last, item.place)
    }
}

/// Returns the last place among these items, without the void ones.
fn last_among(items: &[Placed]) -> Option<u32>
    ensures { result ≡ undo.last_with None items.now }
{
    let mut last = None;
    for index in 0..items.len() {
        last = with_item(last, &items[index]);
    }
    last
}

/// Returns the place of the last entry that stands in a book, if one does.
pub fn last_standing<B: BookOf>(book: &B) -> Option<u32>
    ensures { result ≡ undo.last_standing (B.content book.now) }
{
    last_among(book.clean_items())
}
