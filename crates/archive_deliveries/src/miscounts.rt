//! Overs that were called after fewer or more than six fair deliveries.

ghost use Rattle.std.specs.Prelude.{◌≡◌, ◌∷◌, []};
ghost use Rattle.std.specs.List.{list_any};
ghost use Rattle.json_fields.specs.Values.{PutsFields};
ghost use Rattle.archive_deliveries.specs.Miscounts as laws;

use crate::notes::{Noted, noted_at};
use itoa::Buffer;
use json::Pretty;
use json_fields::{begin_field, end_object, put_figure};
use notation::Plain;
use std::alloc::AllocError;

fn is_call(item: &Plain) -> bool
    ensures { result ≡ laws.is_call item.now }
{
    matches!(item, Plain::Over)
}

fn is_miscounted(noted: &Noted) -> bool
    ensures { result ≡ laws.is_miscounted noted.now }
{
    is_call(&noted.item) && noted.balls != 6
}

/// Whether any over of these items was miscounted.
fn has_miscounted(items: &[Noted]) -> bool
    ensures { result ≡ list_any laws.is_miscounted items.now }
{
    items.iter().any(|noted| is_miscounted(noted))
}

/// Puts a miscounted over.
fn put_miscount(out: &mut Pretty, noted: &Noted) -> Result<(), AllocError>
    ensures { PutsFields result out.old out.new (laws.miscount_of noted.now ∷ []) }
{
    let mut buffer = Buffer::new();
    begin_field(out, buffer.format(noted.over))?;
    put_figure(out, "balls", noted.balls)?;
    end_object(out)
}

/// Puts each miscounted over.
fn put_each(out: &mut Pretty, items: &[Noted]) -> Result<(), AllocError>
    ensures { PutsFields result out.old out.new (laws.miscounts items.now) }
{
    for index in 0..items.len() {
        let noted = noted_at(items, index);
        if is_miscounted(&noted) {
            put_miscount(out, &noted)?;
        }
    }
    Ok(())
}

/// Puts the field of the miscounted overs.
fn put_field(out: &mut Pretty, items: &[Noted]) -> Result<(), AllocError>
    ensures { PutsFields result out.old out.new (laws.miscounted_field items.now ∷ []) }
{
    begin_field(out, "miscounted_overs")?;
    put_each(out, items)?;
    end_object(out)
}

/// Puts the miscounted overs, or nothing if there are none.
pub fn put_miscounts(out: &mut Pretty, items: &[Noted]) -> Result<(), AllocError>
    ensures { PutsFields result out.old out.new (laws.miscounted_fields items.now) }
{
    if !has_miscounted(items) {
        return Ok(());
    }
    put_field(out, items)
}
