//! A match as CSV tables.

ghost use Rattle.std.specs.Prelude.{◌≡◌, string_bytes, IfOk};
ghost use Rattle.match_laws.specs.Stands.{ForEachHistory};
ghost use Rattle.toml.specs.View.{table_view};
ghost use Rattle.archive_deliveries.specs.Names.{told_apart};
ghost use Rattle.archive_deliveries.specs.Notes.{begun_of};
ghost use Rattle.delivery_rows.specs.Cells.{PutsRows};
ghost use Rattle.delivery_rows.specs.Table as tables;

use crate::day::day_of;
use crate::{innings, penalties};
use archive_deliveries::{Begun, NamedSheet, Noted, notes_of};
use cards::MatchSheet;
use corrections::BookOf;
use match_laws::Match;
use std::alloc::{AllocError, Global};
use toml::Table as Document;

/// The kind of a table's rows.
#[derive(Clone, Copy)]
pub enum Table {
    /// Deliveries.
    Deliveries,
    /// Penalty runs that no delivery carries.
    Penalties,
}

const DELIVERIES: &str = "match_id,start_date,innings,batting_team,bowling_team,over,ball,place,\
    striker,non_striker,bowler,runs_off_bat,extras,total,wides,noballs,byes,legbyes,penalty,boundary,\
    wicket_type,player_dismissed,fielders,other_wicket_type,other_player_dismissed,\
    innings_runs,innings_wickets\n";

const PENALTIES: &str = "match_id,start_date,innings,batting_team,bowling_team,awarded,penalty\n";

/// Returns the line with the names of a table's columns.
fn columns_of(table: Table) -> &'static str
    ensures { result.now ≡ tables.columns_of table }
{
    match table {
        Table::Deliveries => DELIVERIES,
        Table::Penalties => PENALTIES,
    }
}

/// The sheet and the day of a match.
#[derive(Clone, Copy)]
struct DatedSheet<'m> {
    sheet: &'m NamedSheet<'m>,
    day: &'m str,
}

/// Writes the rows of a table.
fn put_rows<'m>(
    alloc: Global,
    out: &mut Vec<u8>,
    table: Table,
    dated: DatedSheet<'m>,
    score: &Match,
    begun: &'m Begun,
    notes: &[Noted],
) -> Result<(), AllocError>
    ensures { ForEachHistory score.now (λ n h. begun.now ≡ begun_of h
        → PutsRows result out.old.items out.new.items (tables.rows_of table dated.entry.sheet.now dated.entry.day.now h notes.now)) }
{
    let DatedSheet { sheet, day } = dated;
    match table {
        Table::Deliveries => innings::put_all(alloc, out, sheet, day, score, begun, notes),
        Table::Penalties => penalties::put_all(alloc, out, sheet, day, score, begun, notes),
    }
}

/// Returns a table of a book as bytes: a line with the names of its columns, and a line for each row. Two sides with one name
/// are marked `(home)` and `(away)`, as in an export, and the day is the first date in the sheet's document.
fn bytes_of<B: BookOf>(
    alloc: Global,
    table: Table,
    sheet: &MatchSheet,
    document: &Document,
    book: &B,
) -> Result<Vec<u8>, AllocError>
    requires { B.innings_a_side book.now ≡ sheet.now.innings }
    ensures { IfOk result (λ text.
        text.items ≡ tables.table_text table (told_apart sheet.now) (table_view document.now) (B.content book.now)) }
{
    let score = book.score();
    let (notes, begun) = notes_of(alloc, sheet.innings(), book)?;
    let named = NamedSheet::new(alloc, sheet)?;
    let day = day_of(alloc, document)?;
    let mut out = Vec::new(alloc);
    out.extend_from_slice(columns_of(table).as_bytes())?;
    let dated = DatedSheet {
        sheet: &named,
        day: day.as_str(),
    };
    put_rows(
        alloc,
        &mut out,
        table,
        dated,
        score,
        &begun,
        notes.as_slice(),
    )?;
    Ok(out)
}

/// Returns a table of a book as text: a line with the names of its columns, and a line for each row. Two sides with one name
/// are marked `(home)` and `(away)`, as in an export, and the day is the first date in the sheet's document.
pub fn table_of<B: BookOf>(
    alloc: Global,
    table: Table,
    sheet: &MatchSheet,
    document: &Document,
    book: &B,
) -> Result<String, AllocError>
    requires { B.innings_a_side book.now ≡ sheet.now.innings }
    ensures { IfOk result (λ text.
        string_bytes text ≡ tables.table_text table (told_apart sheet.now) (table_view document.now) (B.content book.now)) }
{
    match String::from_utf8(bytes_of(alloc, table, sheet, document, book)?) {
        Ok(text) => Ok(text),
        // Names, days and figures are UTF-8, and the quotes added to them are too.
        Err(_) => Err(AllocError),
    }
}
