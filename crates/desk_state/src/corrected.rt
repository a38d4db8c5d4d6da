//! Which entry of a book corrects which.

ghost use Rattle.std.specs.Prelude.{◌≡◌, ◌<◌, IfOk, None, get_or, length};
ghost use Rattle.desk_state.specs.inner.Corrected as laws;

use corrections::BookOf;
use notation::Entry;
use std::alloc::{AllocError, Global};

/// Notes the entry that this one corrects, if it is a correction.
fn note(by: &mut Vec<Option<u32>>, place: u32, entry: &Entry)
    ensures { by.new.items ≡ laws.with_entry place entry.now by.old.items }
{
    if let Entry::Fix(at, _) = entry {
        let at = *at as usize;
        if at < by.len() {
            by[at] = Some(place);
        }
    }
}

/// Returns for each place the place of the entry that corrects the one there, if any does.
pub fn corrected_by<B: BookOf>(alloc: Global, book: &B) -> Result<Vec<Option<u32>>, AllocError>
    ensures { IfOk result (λ by. laws.IsCorrectedBy (B.content book.now) by.items) }
{
    let mut by = vec![in alloc; None; book.len() as usize]?;
    for place in 0..book.len() {
        note(&mut by, place, &book.entry(place));
    }
    Ok(by)
}

/// Returns the place noted for this place.
pub fn noted_at(by: &[Option<u32>], place: u32) -> Option<u32>
    requires { place < length by.now }
    ensures { result ≡ get_or by.now place None }
{
    by[place as usize]
}
