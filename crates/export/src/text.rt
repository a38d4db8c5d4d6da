//! The text of a book as JSON.

ghost use Rattle.std.specs.Prelude.{◌≡◌, string_bytes, IfOk};
ghost use Rattle.toml.specs.View.{table_view};
ghost use Rattle.archive_deliveries.specs.Names.{told_apart};
ghost use Rattle.export.specs.Value.{IsExport, IsLaidOut};

use crate::escapes::shown;
use crate::value::put_export;
use archive_deliveries::{NamedSheet, notes_of};
use cards::MatchSheet;
use corrections::BookOf;
use json::Pretty;
use std::alloc::{AllocError, Global};
use toml::Table;

/// Lays out a book as JSON, by its sheet with the sides told apart, before characters are escaped for terminals.
fn laid_out<B: BookOf>(
    alloc: Global,
    sheet: &MatchSheet,
    document: &Table,
    book: &B,
) -> Result<String, AllocError>
    requires { B.innings_a_side book.now ≡ sheet.now.innings }
    ensures { IfOk result (λ text.
        IsLaidOut (told_apart sheet.now) (table_view document.now) (B.content book.now) (string_bytes text)) }
{
    // (only a legal book has a score)
    let _ = book.score();
    let (notes, begun) = notes_of(alloc, sheet.innings(), book)?;
    let named = NamedSheet::new(alloc, sheet)?;
    let mut out = Pretty::new(alloc);
    put_export(
        alloc,
        &mut out,
        &named,
        document,
        book,
        notes.as_slice(),
        &begun,
    )?;
    match String::from_utf8(out.into_inner()) {
        Ok(text) => Ok(text),
        Err(_) => unreachable!(),
    }
}

/// Returns a book as one JSON value, without a newline at the end: the match ball by ball with its results by the Laws, each
/// entry as it was penned, and what the export copies from the sheet's tables `[info]` and `[meta]`. Two sides of one name
/// are told apart. Characters that a terminal obeys, or that turn or break a line, are escaped.
pub fn text_of<B: BookOf>(
    alloc: Global,
    sheet: &MatchSheet,
    document: &Table,
    book: &B,
) -> Result<String, AllocError>
    requires { B.innings_a_side book.now ≡ sheet.now.innings }
    ensures { IfOk result (λ text.
        IsExport (told_apart sheet.now) (table_view document.now) (B.content book.now) (string_bytes text)) }
{
    let laid = laid_out(alloc, sheet, document, book)?;
    shown(alloc, laid.as_str())
}
