//! The rows of an innings.

ghost use Rattle.std.specs.Prelude.{◌≡◌, ◌++◌, drop, IfOk};
ghost use Rattle.match_laws.specs.Stands.{ForEachHistory};
ghost use Rattle.archive_deliveries.specs.Notes as notes;
ghost use Rattle.archive_deliveries.specs.Notes.{begun_of};
ghost use Rattle.delivery_rows.specs.Cells.{PutsRows, rows_text};
ghost use Rattle.delivery_rows.specs.Deliveries as rows;
ghost use Rattle.delivery_rows.specs.Innings.{of};

use crate::deliveries::{head_of, put_item};
use crate::standing::Standing;
use crate::table_innings::TableInnings;
use archive_deliveries::{
    Begun, Carrier, NamedInnings, NamedSheet, Noted, carried, is_ball, items_in, noted_at,
};
use export::runs_before;
use match_laws::Match;
use std::alloc::{AllocError, Global};

/// The items of an innings that follow one of its items: those from the index `next` on.
#[derive(Clone, Copy)]
struct ItemsBehind<'m> {
    items: &'m [Noted],
    next: usize,
}

/// Writes the row of a delivery with the items that it carries, those up to the next delivery, and returns the score after it.
fn put_carrier(
    alloc: Global,
    out: &mut Vec<u8>,
    innings: TableInnings<'_>,
    before: Standing,
    early: &[Noted],
    noted: &Noted,
    behind: ItemsBehind<'_>,
) -> Result<Standing, AllocError>
    ensures next { IfOk result (λ now. now ≡ of innings.entry (λ s day side. rows.next)
        before early.now noted.now (notes.carried (drop behind.entry.next behind.entry.items.now))) }
    ensures rows { IfOk result (λ now. out.new.items ≡ out.old.items ++ rows_text
        (of innings.entry rows.item_rows now early.now noted.now (notes.carried (drop behind.entry.next behind.entry.items.now)))) }
{
    let late = carried(alloc, behind.items, behind.next)?;
    let carrier = Carrier {
        early,
        noted,
        late: late.as_slice(),
    };
    put_item(alloc, out, innings, before, carrier)
}

/// Writes the rows of these items. The first delivery also carries the items `first`, and `start` is the score before it.
fn put_rows(
    alloc: Global,
    out: &mut Vec<u8>,
    innings: TableInnings<'_>,
    start: Standing,
    first: &[Noted],
    items: &[Noted],
) -> Result<(), AllocError>
    ensures { PutsRows result out.old.items out.new.items (of innings.entry rows.rows_from start first.now items.now) }
{
    let mut early = first;
    let mut standing = start;
    for index in 0..items.len() {
        let noted = noted_at(items, index);
        if is_ball(&noted.item) {
            let behind = ItemsBehind {
                items,
                next: index + 1,
            };
            standing = put_carrier(alloc, out, innings, standing, early, &noted, behind)?;
            early = &[];
        }
    }
    Ok(())
}

/// Writes the rows of an innings with these items. `before` are the penalty runs awarded before its first delivery.
fn put_items(
    alloc: Global,
    out: &mut Vec<u8>,
    innings: TableInnings<'_>,
    before: u64,
    items: &[Noted],
) -> Result<(), AllocError>
    ensures { PutsRows result out.old.items out.new.items (of innings.entry rows.rows_of before items.now) }
{
    let first = carried(alloc, items, 0)?;
    let start = Standing::beginning(before);
    put_rows(alloc, out, innings, start, first.as_slice(), items)
}

/// Writes the rows of an innings. `notes` are the items of all innings.
fn put_innings(
    alloc: Global,
    out: &mut Vec<u8>,
    innings: TableInnings<'_>,
    notes: &[Noted],
) -> Result<(), AllocError>
    ensures { PutsRows result out.old.items out.new.items (of innings.entry rows.side_rows notes.now) }
{
    let NamedInnings { begun, index, .. } = innings.named;
    let items = items_in(alloc, index, notes)?;
    let before = runs_before(alloc, begun, index, items.as_slice(), notes)?;
    put_items(alloc, out, innings, before, items.as_slice())
}

/// Writes the rows of each innings that has begun.
pub fn put_all<'m>(
    alloc: Global,
    out: &mut Vec<u8>,
    sheet: &'m NamedSheet<'m>,
    day: &'m str,
    score: &Match,
    begun: &'m Begun,
    notes: &[Noted],
) -> Result<(), AllocError>
    ensures { ForEachHistory score.now (λ n h. begun.now ≡ begun_of h
        → PutsRows result out.old.items out.new.items (rows.all_rows sheet.now day.now h notes.now)) }
{
    for index in 0..score.begun() {
        let named = NamedInnings {
            sheet,
            side: score.side(index),
            begun,
            index,
        };
        let head = head_of(alloc, named, day)?;
        let innings = TableInnings {
            named,
            day,
            head: head.as_slice(),
        };
        put_innings(alloc, out, innings, notes)?;
    }
    Ok(())
}
