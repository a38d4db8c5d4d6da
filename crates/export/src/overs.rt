//! An innings over by over.

ghost use Rattle.std.specs.Prelude.{◌≡◌, ◌&&◌, ◌==◌, not, ◌∷◌, [], None, codes, drop};
ghost use Rattle.match_laws.specs.History.{is_at};
ghost use Rattle.json_fields.specs.Values.{PutsFields, PutsValues, array_of};
ghost use Rattle.archive_deliveries.specs.Deliveries.{listed};
ghost use Rattle.archive_deliveries.specs.Innings.{of};
ghost use Rattle.export.specs.Innings as laws;
ghost use Rattle.archive_deliveries.specs.Notes as notes;

use archive_deliveries::{Carrier, NamedInnings, Noted, carried, is_ball, noted_at, put_listed};
use json::Pretty;
use json_fields::{begin_array, begin_object, end_array, end_object, put_figure};
use std::alloc::{AllocError, Global};

/// Puts a delivery and the items that it carries: those from index `next` up to the next delivery.
fn put_carrier(
    alloc: Global,
    out: &mut Pretty,
    innings: NamedInnings<'_>,
    early: &[Noted],
    noted: &Noted,
    items: &[Noted],
    next: usize,
) -> Result<(), AllocError>
    ensures { PutsValues result out.old out.new (of innings.entry listed early.now noted.now
        (notes.carried (drop next items.now))) }
{
    let late = carried(alloc, items, next)?;
    let carrier = Carrier {
        early,
        noted,
        late: late.as_slice(),
    };
    put_listed(out, innings, carrier)
}

/// Puts the deliveries of an over, from an index up to the first delivery of another over.
#[tactic(auto, using(corrections::proofs::ListLemmas::next, json_fields::proofs::Putting::json_parts), unfolding(json_fields::specs::Values::values_tokens))]
fn put_deliveries(
    alloc: Global,
    out: &mut Pretty,
    innings: NamedInnings<'_>,
    over: u32,
    early: &[Noted],
    items: &[Noted],
    from: usize,
) -> Result<(), AllocError>
    ensures { PutsValues result out.old out.new
        (of innings.entry laws.deliveries_from over early.now (drop from items.now)) }
{
    let mut before = early;
    for index in from..items.len() {
        let noted = noted_at(items, index);
        if is_ball(&noted.item) {
            if !is_of(&noted, over) {
                return Ok(());
            }
            put_carrier(alloc, out, innings, before, &noted, items, index + 1)?;
            before = &[];
        }
    }
    Ok(())
}

/// Puts the field of an over's deliveries, from an index on.
fn put_listing(
    alloc: Global,
    out: &mut Pretty,
    innings: NamedInnings<'_>,
    over: u32,
    early: &[Noted],
    items: &[Noted],
    from: usize,
) -> Result<(), AllocError>
    ensures { PutsFields result out.old out.new
        ((codes "deliveries", array_of (of innings.entry laws.deliveries_from over early.now (drop from items.now))) ∷ []) }
{
    begin_array(out, "deliveries")?;
    put_deliveries(alloc, out, innings, over, early, items, from)?;
    end_array(out)
}

/// Puts the over that begins with the delivery at an index.
fn put_over(
    alloc: Global,
    out: &mut Pretty,
    innings: NamedInnings<'_>,
    over: u32,
    early: &[Noted],
    items: &[Noted],
    from: usize,
) -> Result<(), AllocError>
    ensures { PutsValues result out.old out.new
        (of innings.entry laws.over_of over early.now (drop from items.now) ∷ []) }
{
    begin_object(out)?;
    put_figure(out, "over", over)?;
    put_listing(alloc, out, innings, over, early, items, from)?;
    end_object(out)
}

/// Whether the over before is this over.
fn is_at(before: Option<u32>, over: u32) -> bool
    ensures { result ≡ is_at before over }
{
    match before {
        None => false,
        Some(number) => number == over,
    }
}

/// Whether an item begins an over: it is a delivery, and not of the over before.
fn begins_over(before: Option<u32>, noted: &Noted) -> bool
    ensures { result ≡ (notes.is_ball noted.now.item && not (is_at before noted.now.over)) }
{
    is_ball(&noted.item) && !is_at(before, noted.over)
}

/// Whether a delivery is of this over.
fn is_of(noted: &Noted, over: u32) -> bool
    ensures { result ≡ (over == noted.now.over) }
{
    over == noted.over
}

/// Puts the overs of an innings by its items. Its first delivery also carries the items in `first`.
fn put_all(
    alloc: Global,
    out: &mut Pretty,
    innings: NamedInnings<'_>,
    first: &[Noted],
    items: &[Noted],
) -> Result<(), AllocError>
    ensures { PutsValues result out.old out.new
        (of innings.entry laws.overs_from None first.now items.now) }
{
    let mut early = first;
    let mut before = None;
    for index in 0..items.len() {
        let noted = noted_at(items, index);
        if begins_over(before, &noted) {
            put_over(alloc, out, innings, noted.over, early, items, index)?;
            early = &[];
            before = Some(noted.over);
        }
    }
    Ok(())
}

/// Puts the overs of an innings, by its items.
pub fn put_overs(
    alloc: Global,
    out: &mut Pretty,
    innings: NamedInnings<'_>,
    items: &[Noted],
) -> Result<(), AllocError>
    ensures { PutsValues result out.old out.new
        (of innings.entry laws.overs_of items.now) }
{
    let first = carried(alloc, items, 0)?;
    put_all(alloc, out, innings, first.as_slice(), items)
}
