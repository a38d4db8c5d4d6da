//! The entries of a book, each as it was penned.

ghost use Rattle.std.specs.Prelude.{◌≡◌, ◌∷◌, [], length, IfOk, Some};
ghost use Rattle.notation.specs.Written.{IsEntry};
ghost use Rattle.json_fields.specs.Values.{PutsFields, PutsValues};
ghost use Rattle.export.specs.Entries as laws;
ghost use Rattle.export.specs.inner.Corrections.{fix_places};

use corrections::BookOf;
use json::Pretty;
use json_fields::{
    begin_array, begin_object, end_array, end_object, put_figure, put_integer, put_text,
};
use notation::{Entry, line_of};
use std::alloc::{AllocError, Global};

/// Puts the place `at` of an entry, where the entry corrects `place`.
fn put_fix(out: &mut Pretty, place: u32, at: u32, entry: &Entry) -> Result<(), AllocError>
    ensures { PutsValues result out.old out.new (laws.fix_at place at (Some entry.now)) }
{
    match *entry {
        Entry::Fix(fixed, _) if fixed == place => put_integer(out, u64::from(at)),
        _ => Ok(()),
    }
}

/// Returns the places of all corrections in a book: only these need be searched for what corrects a place.
fn corrections_of<B: BookOf>(alloc: Global, book: &B) -> Result<Vec<u32>, AllocError>
    ensures { IfOk result (λ places. places.items ≡ fix_places (B.content book.now) (length (B.content book.now))) }
{
    let mut places = Vec::new(alloc);
    for at in 0..book.len() {
        if let Entry::Fix(..) = book.entry(at) {
            places.push(at)?;
        }
    }
    Ok(places)
}

/// Puts the places of the entries that correct a place; `corrections` are the places of all corrections.
fn put_fixes<B: BookOf>(
    out: &mut Pretty,
    book: &B,
    place: u32,
    corrections: &[u32],
) -> Result<(), AllocError>
    requires all { corrections.now ≡ fix_places (B.content book.now) (length (B.content book.now)) }
    ensures { PutsValues result out.old out.new (laws.fixes_of (B.content book.now) place) }
{
    for at in corrections {
        put_fix(out, place, *at, &book.entry(*at))?;
    }
    Ok(())
}

/// Puts the field of the places of the entries that correct a place.
fn put_fixes_field<B: BookOf>(
    out: &mut Pretty,
    book: &B,
    place: u32,
    corrections: &[u32],
) -> Result<(), AllocError>
    requires all { corrections.now ≡ fix_places (B.content book.now) (length (B.content book.now)) }
    ensures { PutsFields result out.old out.new
        (laws.fixes_field (B.content book.now) place ∷ []) }
{
    begin_array(out, "corrected_by")?;
    put_fixes(out, book, place, corrections)?;
    end_array(out)
}

/// Puts the line of an entry.
fn put_line(out: &mut Pretty, entry: &Entry) -> Result<(), AllocError>
    requires { IsEntry entry.now }
    ensures { PutsFields result out.old out.new (laws.line_field entry.now ∷ []) }
{
    let line = line_of(entry);
    put_text(out, "line", line.as_str())
}

/// Puts an entry: its place, its line, and the places of its corrections.
fn put_entry<B: BookOf>(
    out: &mut Pretty,
    book: &B,
    place: u32,
    entry: &Entry,
    corrections: &[u32],
) -> Result<(), AllocError>
    requires entry { IsEntry entry.now }
    requires all { corrections.now ≡ fix_places (B.content book.now) (length (B.content book.now)) }
    ensures { PutsValues result out.old out.new
        (laws.entry_of (B.content book.now) place entry.now ∷ []) }
{
    begin_object(out)?;
    put_figure(out, "place", place)?;
    put_line(out, entry)?;
    put_fixes_field(out, book, place, corrections)?;
    end_object(out)
}

/// Puts each entry of a book.
fn put_each<B: BookOf>(out: &mut Pretty, book: &B, corrections: &[u32]) -> Result<(), AllocError>
    requires all { corrections.now ≡ fix_places (B.content book.now) (length (B.content book.now)) }
    ensures { PutsValues result out.old out.new (laws.entries_of (B.content book.now)) }
{
    for place in 0..book.len() {
        put_entry(out, book, place, &book.entry(place), corrections)?;
    }
    Ok(())
}

/// Puts the field of all entries of a book.
pub fn put_entries<B: BookOf>(alloc: Global, out: &mut Pretty, book: &B) -> Result<(), AllocError>
    ensures { PutsFields result out.old out.new (laws.book_field (B.content book.now) ∷ []) }
{
    let corrections = corrections_of(alloc, book)?;
    begin_array(out, "book")?;
    put_each(out, book, corrections.as_slice())?;
    end_array(out)
}
