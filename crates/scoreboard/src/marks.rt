//! The marks of deliveries, as an over's row shows them.

ghost use Rattle.std.specs.Prelude.{◌≡◌, ◌∷◌, [], IfOk, map, reverse, string_bytes};
ghost use Rattle.corrections.specs.Overs.{balls_of};
ghost use Rattle.json.specs.Json.{string};
ghost use Rattle.json_fields.specs.Values.{PutsValues};
ghost use Rattle.cards.specs.Marks as laws;
ghost use Rattle.scoreboard.specs.inner.Marks as marks;

use cards::{Mark, mark_of};
use corrections::Placed;
use itoa::Buffer;
use json_fields::{Compact, put_string};
use notation::{Ball, Plain};
use std::alloc::{AllocError, Global};

/// Returns the text of a mark.
fn text_of(alloc: Global, mark: Mark) -> Result<String, AllocError>
    ensures { IfOk result (λ text. string_bytes text ≡ laws.mark_text mark) }
{
    match mark {
        Mark::Dot(text) => String::from_str(alloc, text),
        Mark::Runs(runs, kind, wicket) => {
            let mut buffer = Buffer::new();
            let mut text = String::from_str(alloc, buffer.format(runs))?;
            text.push_str(kind)?;
            text.push_str(wicket)?;
            Ok(text)
        }
    }
}

/// Puts the mark of a delivery.
fn put_mark(out: &mut Compact, alloc: Global, ball: &Ball) -> Result<(), AllocError>
    ensures { PutsValues result out.old out.new (string (laws.mark_of ball.now) ∷ []) }
{
    let text = text_of(alloc, mark_of(ball))?;
    put_string(out, text.as_str())
}

/// Puts the mark of an item, or nothing if the item isn't a delivery.
fn put_item(out: &mut Compact, alloc: Global, item: &Plain) -> Result<(), AllocError>
    ensures { PutsValues result out.old out.new (marks.item_values item.now) }
{
    match item {
        Plain::Ball(ball) => put_mark(out, alloc, ball),
        _ => Ok(()),
    }
}

/// Puts the marks of an over's deliveries.
pub fn put_marks(out: &mut Compact, alloc: Global, over: &[Placed]) -> Result<(), AllocError>
    ensures { PutsValues result out.old out.new
        (map (λ b. string (laws.mark_of b)) (reverse (balls_of over.now))) }
{
    for placed in over {
        put_item(out, alloc, &placed.item)?;
    }
    Ok(())
}
