//! An over with the places of its deliveries.

ghost use Rattle.std.specs.Prelude.{◌≡◌, ◌∷◌, [], IfOk, map, string_bytes};
ghost use Rattle.cards.specs.Marks as marks;
ghost use Rattle.json_fields.specs.Values.{PutsFields, PutsValues};
ghost use Rattle.desk_state.specs.Over as laws;

use crate::deliveries::Delivery;
use cards::{Mark, mark_of};
use itoa::Buffer;
use json_fields::{
    Compact, begin_array, begin_object, end_array, end_object, put_figure, put_text,
};
use std::alloc::{AllocError, Global};

/// Returns the text of a mark.
pub fn text_of(alloc: Global, mark: Mark) -> Result<String, AllocError>
    ensures { IfOk result (λ text. string_bytes text ≡ marks.mark_text mark) }
{
    match mark {
        Mark::Dot(text) => String::from_str(alloc, text),
        Mark::Runs(runs, kind, wicket) => {
            let mut buffer = Buffer::new();
            let mut text = String::from_str(alloc, buffer.format(runs))?;
            text.push_str(kind)?;
            text.push_str(wicket)?;
            Ok(text)
        }
    }
}

/// Puts a delivery with its place and its mark.
fn put_delivery(out: &mut Compact, alloc: Global, delivery: &Delivery) -> Result<(), AllocError>
    ensures { PutsValues result out.old out.new (laws.delivery_value delivery.now ∷ []) }
{
    let text = text_of(alloc, mark_of(&delivery.ball))?;
    begin_object(out)?;
    put_figure(out, "place", delivery.place)?;
    put_text(out, "mark", text.as_str())?;
    end_object(out)
}

/// Puts each delivery.
fn put_each(out: &mut Compact, alloc: Global, over: &[Delivery]) -> Result<(), AllocError>
    ensures { PutsValues result out.old out.new (map laws.delivery_value over.now) }
{
    for delivery in over {
        put_delivery(out, alloc, delivery)?;
    }
    Ok(())
}

/// Puts the field of an over.
pub fn put_over(out: &mut Compact, alloc: Global, over: &[Delivery]) -> Result<(), AllocError>
    ensures { PutsFields result out.old out.new (laws.over_field over.now ∷ []) }
{
    begin_array(out, "over")?;
    put_each(out, alloc, over)?;
    end_array(out)
}
