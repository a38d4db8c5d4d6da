//! The batters who left between deliveries, with bars between them.

ghost use Rattle.std.specs.Prelude.{◌≡◌, ◌++◌, ◌∷◌, [], drop, OnOk};
ghost use Rattle.std.specs.List.{flat_map};
ghost use Rattle.delivery_rows.specs.Cells.{PutsCells, cell};
ghost use Rattle.delivery_rows.specs.Deliveries as rows;

use crate::cells::{put_nothing, put_text};
use archive_deliveries::{NamedSheet, Noted, leave_words, noted_at};
use notation::{Plain, Side};
use std::alloc::{AllocError, Global};

/// Writes a bar and a text.
fn put_barred(out: &mut Vec<u8>, text: &[u8]) -> Result<(), AllocError>
    ensures { OnOk result (out.new.items ≡ out.old.items ++ (124 ∷ text.now)) }
{
    out.push(b'|')?;
    out.extend_from_slice(text)
}

/// Writes a bar and how a batter left, if an item says that one did.
fn put_way(out: &mut Vec<u8>, item: &Plain) -> Result<(), AllocError>
    ensures { OnOk result (out.new.items ≡ out.old.items ++ rows.gone_way item.now) }
{
    match item {
        Plain::Gone(way, _) => put_barred(out, leave_words(*way).as_bytes()),
        Plain::Innings(_)
        | Plain::Come(_)
        | Plain::Ball(_)
        | Plain::Over
        | Plain::Penalty(..)
        | Plain::Swap
        | Plain::End(_)
        | Plain::Close
        | Plain::Void => Ok(()),
    }
}

/// Writes a bar and the batter who left, if an item says that one did.
fn put_name(
    out: &mut Vec<u8>,
    sheet: &NamedSheet<'_>,
    side: Side,
    item: &Plain,
) -> Result<(), AllocError>
    ensures { OnOk result (out.new.items ≡ out.old.items ++ rows.gone_name sheet.now side item.now) }
{
    match item {
        Plain::Gone(_, player) => put_barred(out, sheet.player(side, *player).as_bytes()),
        Plain::Innings(_)
        | Plain::Come(_)
        | Plain::Ball(_)
        | Plain::Over
        | Plain::Penalty(..)
        | Plain::Swap
        | Plain::End(_)
        | Plain::Close
        | Plain::Void => Ok(()),
    }
}

/// Writes how each batter left, from these items.
fn put_ways(out: &mut Vec<u8>, items: &[Noted]) -> Result<(), AllocError>
    ensures { OnOk result (out.new.items ≡ out.old.items ++ flat_map (λ x. rows.gone_way x.item) items.now) }
{
    for index in 0..items.len() {
        let noted = noted_at(items, index);
        put_way(out, &noted.item)?;
    }
    Ok(())
}

/// Writes each batter who left, from these items.
fn put_names(
    out: &mut Vec<u8>,
    sheet: &NamedSheet<'_>,
    side: Side,
    items: &[Noted],
) -> Result<(), AllocError>
    ensures { OnOk result (out.new.items ≡ out.old.items ++ flat_map (λ x. rows.gone_name sheet.now side x.item) items.now) }
{
    for index in 0..items.len() {
        let noted = noted_at(items, index);
        put_name(out, sheet, side, &noted.item)?;
    }
    Ok(())
}

/// Returns a text without its first bar.
fn without_bar(text: &[u8]) -> &[u8]
    ensures { result.now ≡ drop 1 text.now }
{
    if text.is_empty() { text } else { &text[1..] }
}

/// Adds the cell of how the batters left.
fn put_ways_cell(
    alloc: Global,
    out: &mut Vec<u8>,
    early: &[Noted],
    late: &[Noted],
) -> Result<(), AllocError>
    ensures { PutsCells result out.old.items out.new.items (cell (rows.barred rows.gone_way early.now late.now) ∷ []) }
{
    let mut text = Vec::new(alloc);
    put_ways(&mut text, early)?;
    put_ways(&mut text, late)?;
    put_text(alloc, out, without_bar(text.as_slice()))
}

/// Adds the cell of the batters who left.
fn put_names_cell(
    alloc: Global,
    out: &mut Vec<u8>,
    sheet: &NamedSheet<'_>,
    side: Side,
    early: &[Noted],
    late: &[Noted],
) -> Result<(), AllocError>
    ensures { PutsCells result out.old.items out.new.items (cell (rows.barred (rows.gone_name sheet.now side) early.now late.now) ∷ []) }
{
    let mut text = Vec::new(alloc);
    put_names(&mut text, sheet, side, early)?;
    put_names(&mut text, sheet, side, late)?;
    put_text(alloc, out, without_bar(text.as_slice()))
}

/// Adds the cells of how batters left between deliveries, and of who they were.
pub fn put_others(
    alloc: Global,
    out: &mut Vec<u8>,
    sheet: &NamedSheet<'_>,
    side: Side,
    early: &[Noted],
    late: &[Noted],
) -> Result<(), AllocError>
    ensures { PutsCells result out.old.items out.new.items (rows.others_cells sheet.now side early.now late.now) }
{
    if early.is_empty() && late.is_empty() {
        put_nothing(out)?;
        return put_nothing(out);
    }
    put_ways_cell(alloc, out, early, late)?;
    put_names_cell(alloc, out, sheet, side, early, late)
}
