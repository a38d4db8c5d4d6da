//! The rows of penalty runs that no delivery carries.

ghost use Rattle.std.specs.Prelude.{◌≡◌};
ghost use Rattle.match_laws.specs.Stands.{ForEachHistory};
ghost use Rattle.archive_deliveries.specs.Notes.{begun_of};
ghost use Rattle.delivery_rows.specs.Cells.{PutsRows};
ghost use Rattle.delivery_rows.specs.Innings.{of};
ghost use Rattle.delivery_rows.specs.Penalties as rows;

use crate::cells::{end_row, put, put_figure};
use crate::deliveries::head_of;
use crate::table_innings::TableInnings;
use archive_deliveries::{Begun, NamedInnings, NamedSheet, Noted, items_in};
use export::{runs_after, runs_before};
use match_laws::Match;
use std::alloc::{AllocError, Global};

/// Writes the row of the penalty runs that were awarded at this time (`pre` or `post`), if there are any.
fn put_award(
    alloc: Global,
    out: &mut Vec<u8>,
    innings: TableInnings<'_>,
    awarded: &str,
    runs: u64,
) -> Result<(), AllocError>
    ensures { PutsRows result out.old.items out.new.items
        (of innings.entry (λ s day side f i. rows.award_rows s day side i awarded.now runs)) }
{
    if runs == 0 {
        return Ok(());
    }
    out.extend_from_slice(innings.head)?;
    put(alloc, out, awarded.as_bytes())?;
    put_figure(out, runs)?;
    end_row(out)
}

/// Writes the rows of an innings' penalty runs. `notes` are the items of all innings.
fn put_awards(
    alloc: Global,
    out: &mut Vec<u8>,
    innings: TableInnings<'_>,
    notes: &[Noted],
) -> Result<(), AllocError>
    ensures { PutsRows result out.old.items out.new.items (of innings.entry rows.side_penalties notes.now) }
{
    let NamedInnings { begun, index, .. } = innings.named;
    let items = items_in(alloc, index, notes)?;
    let before = runs_before(alloc, begun, index, items.as_slice(), notes)?;
    let after = runs_after(alloc, begun, index, notes)?;
    put_award(alloc, out, innings, "pre", before)?;
    put_award(alloc, out, innings, "post", after)
}

/// Writes the rows of the penalty runs of each innings that has begun.
pub fn put_all<'m>(
    alloc: Global,
    out: &mut Vec<u8>,
    sheet: &'m NamedSheet<'m>,
    day: &'m str,
    score: &Match,
    begun: &'m Begun,
    notes: &[Noted],
) -> Result<(), AllocError>
    ensures { ForEachHistory score.now (λ n h. begun.now ≡ begun_of h
        → PutsRows result out.old.items out.new.items (rows.all_penalties sheet.now day.now h notes.now)) }
{
    for index in 0..score.begun() {
        let named = NamedInnings {
            sheet,
            side: score.side(index),
            begun,
            index,
        };
        let head = head_of(alloc, named, day)?;
        let innings = TableInnings {
            named,
            day,
            head: head.as_slice(),
        };
        put_awards(alloc, out, innings, notes)?;
    }
    Ok(())
}
