//! The corrections and late entries of a book.

ghost use Rattle.std.specs.Prelude.{◌≡◌, IfOk, slice_get, string_bytes};
ghost use Rattle.notation.specs.Written.{IsEntry};
ghost use Rattle.cards.specs.Columns.{lines_from};
ghost use Rattle.page.specs.Book as laws;
ghost use Rattle.page.specs.Escapes.{Puts};

use crate::escapes::put_escaped;
use corrections::BookOf;
use notation::{Entry, line_of};
use std::alloc::{AllocError, Global};

/// The front of the section.
pub const BOOK: &str =
    "<section id='book' aria-labelledby='book-heading'>\n<h2 id='book-heading'>The book</h2>\n";

/// The front of the table of corrections and late entries.
pub const CORRECTIONS: &str =
    "<details open><summary>Corrections and late entries</summary><table><thead><tr><th scope='col' class='words'>Place</th>\
<th scope='col' class='words'>Line</th><th scope='col' class='words'>What it names</th></tr></thead><tbody>\n";

/// Writes the line of an entry.
fn put_line(out: &mut String, entry: &Entry) -> Result<(), AllocError>
    requires { IsEntry entry.now }
    ensures { Puts result out.old out.new (laws.line_html entry.now) }
{
    let line = line_of(entry);
    out.push_str("<code>")?;
    put_escaped(out, line.as_str())?;
    out.push_str("</code>")
}

/// Writes the line at a place as it was penned, or nothing if the book has no such place.
fn put_line_at<B: BookOf>(out: &mut String, book: &B, place: u32) -> Result<(), AllocError>
    ensures { Puts result out.old out.new (laws.line_at (slice_get (B.content book.now) place)) }
{
    if place < book.len() {
        put_line(out, &book.entry(place))
    } else {
        Ok(())
    }
}

fn put_place(out: &mut String, place: u32) -> Result<(), AllocError>
    ensures { Puts result out.old out.new (laws.place_html place) }
{
    write!(out, "<tr><th scope='row'>{place}</th><td class='words'>")
}

/// Writes the row of a correction or a late entry: its place and line, and the line that it names.
fn put_row<B: BookOf>(
    out: &mut String,
    book: &B,
    place: u32,
    entry: &Entry,
    words: &str,
    named: u32,
) -> Result<(), AllocError>
    requires { IsEntry entry.now }
    ensures { Puts result out.old out.new (laws.row_html (B.content book.now) place entry.now words.now named) }
{
    put_place(out, place)?;
    put_line(out, entry)?;
    out.push_str(words)?;
    put_line_at(out, book, named)?;
    out.push_str("</td></tr>\n")
}

/// Writes the row of an entry, if it is a correction or a late entry.
fn put_correction<B: BookOf>(
    out: &mut String,
    book: &B,
    place: u32,
    entry: &Entry,
) -> Result<(), AllocError>
    requires { IsEntry entry.now }
    ensures { Puts result out.old out.new (laws.correction_html (B.content book.now) place entry.now) }
{
    match *entry {
        Entry::Write(_) => Ok(()),
        Entry::Fix(named, _) => put_row(
            out,
            book,
            place,
            entry,
            "</td><td class='words'>entered as ",
            named,
        ),
        Entry::Late(named, _) => put_row(
            out,
            book,
            place,
            entry,
            "</td><td class='words'>belongs after ",
            named,
        ),
    }
}

/// Returns the rows of all corrections and late entries of a book.
fn rows_of<B: BookOf>(alloc: Global, book: &B) -> Result<String, AllocError>
    ensures { IfOk result (λ rows. string_bytes rows ≡ lines_from (laws.correction_html (B.content book.now)) 0 (B.content book.now)) }
{
    let mut out = String::new(alloc);
    for place in 0..book.len() {
        put_correction(&mut out, book, place, &book.entry(place))?;
    }
    Ok(out)
}

/// Writes these rows as a table that can be folded.
fn put_rows(out: &mut String, rows: &str) -> Result<(), AllocError>
    ensures { Puts result out.old out.new (laws.rows_html rows.now) }
{
    out.push_str(CORRECTIONS)?;
    out.push_str(rows)?;
    out.push_str("</tbody></table></details>\n")
}

/// Writes these rows as a table that can be folded, or that there is no correction.
fn put_fold(out: &mut String, rows: &str) -> Result<(), AllocError>
    ensures { Puts result out.old out.new (laws.fold_html rows.now) }
{
    if rows.is_empty() {
        return out.push_str("<p>None of them is a correction.</p>\n");
    }
    put_rows(out, rows)
}

fn put_count(out: &mut String, lines: u32) -> Result<(), AllocError>
    ensures { Puts result out.old out.new (laws.count_html lines) }
{
    writeln!(out, "<p>Lines: {lines}</p>")
}

/// Writes the length of a book, and its corrections and late entries.
pub fn put_book<B: BookOf>(alloc: Global, out: &mut String, book: &B) -> Result<(), AllocError>
    ensures { Puts result out.old out.new (laws.book_html (B.content book.now)) }
{
    let rows = rows_of(alloc, book)?;
    out.push_str(BOOK)?;
    put_count(out, book.len())?;
    put_fold(out, rows.as_str())?;
    out.push_str("</section>\n")
}
