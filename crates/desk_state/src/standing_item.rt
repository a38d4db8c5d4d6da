//! An item of a book's clean list.

ghost use Rattle.std.specs.Prelude.{◌≡◌, ◌∷◌, [], ◌≤◌};
ghost use Rattle.notation.specs.declared.entry.TheConstants.{PLACES};
ghost use Rattle.notation.specs.Written.{IsPlain};
ghost use Rattle.json_fields.specs.Values.{PutsFields, PutsValues};
ghost use Rattle.desk_state.specs.Book as laws;

use crate::over::text_of;
use cards::mark_of;
use corrections::Placed;
use json_fields::{Compact, begin_object, end_object, put_figure, put_null, put_number, put_text};
use notation::{Ball, Entry, Plain, Player, line_of};
use over_numbers::Count;
use std::alloc::{AllocError, Global};

/// Puts a number, or null if there is none.
fn put_or_null(out: &mut Compact, name: &str, number: Option<u32>) -> Result<(), AllocError>
    ensures { PutsFields result out.old out.new (laws.number_or_null name.now number ∷ []) }
{
    match number {
        None => put_null(out, name),
        Some(number) => put_figure(out, name, number),
    }
}

/// Puts a player's number, or null if there is none.
fn put_player(out: &mut Compact, name: &str, player: Option<Player>) -> Result<(), AllocError>
    ensures { PutsFields result out.old out.new (laws.number_or_null name.now player ∷ []) }
{
    match player {
        None => put_null(out, name),
        Some(player) => put_figure(out, name, u32::from(player.number())),
    }
}

/// Puts the innings of a delivery, its over and its number in that over.
fn put_numbers(out: &mut Compact, count: Count) -> Result<(), AllocError>
    requires begun { count.begun ≤ PLACES }
    requires overs { count.overs ≤ PLACES }
    requires balls { count.balls ≤ PLACES }
    ensures { PutsFields result out.old out.new (laws.number_fields count) }
{
    put_number(out, "innings", count.begun as u64)?;
    put_figure(out, "over", count.overs + 1)?;
    put_figure(out, "ball", count.balls + 1)
}

/// Puts the batter who faces the delivery, and the bowler.
fn put_players(out: &mut Compact, striker: Option<Player>, ball: &Ball) -> Result<(), AllocError>
    ensures { PutsFields result out.old out.new (laws.player_fields striker ball.now) }
{
    put_player(out, "batter", striker)?;
    put_figure(out, "bowler", u32::from(ball.bowler.number()))
}

/// Puts the delivery's mark.
fn put_mark(out: &mut Compact, alloc: Global, ball: &Ball) -> Result<(), AllocError>
    ensures { PutsFields result out.old out.new (laws.mark_field ball.now ∷ []) }
{
    let text = text_of(alloc, mark_of(ball))?;
    put_text(out, "mark", text.as_str())
}

/// Puts the fields that only a delivery has.
fn put_ball(
    out: &mut Compact,
    alloc: Global,
    count: Count,
    striker: Option<Player>,
    ball: &Ball,
) -> Result<(), AllocError>
    requires begun { count.begun ≤ PLACES }
    requires overs { count.overs ≤ PLACES }
    requires balls { count.balls ≤ PLACES }
    ensures { PutsFields result out.old out.new (laws.ball_fields count striker ball.now) }
{
    put_numbers(out, count)?;
    put_players(out, striker, ball)?;
    put_mark(out, alloc, ball)
}

/// Puts the fields that only a delivery has, or nothing if the item isn't one.
fn put_own(
    out: &mut Compact,
    alloc: Global,
    count: Count,
    striker: Option<Player>,
    item: &Plain,
) -> Result<(), AllocError>
    requires begun { count.begun ≤ PLACES }
    requires overs { count.overs ≤ PLACES }
    requires balls { count.balls ≤ PLACES }
    ensures { PutsFields result out.old out.new (laws.own_fields count striker item.now) }
{
    match item {
        Plain::Ball(ball) => put_ball(out, alloc, count, striker, ball),
        _ => Ok(()),
    }
}

/// Puts an item: `count` is the count of the match before it, `striker` the batter at the end that is bowled to, and `by` the
/// place of the entry that corrects it.
pub fn put_item(
    out: &mut Compact,
    alloc: Global,
    count: Count,
    striker: Option<Player>,
    by: Option<u32>,
    placed: &Placed,
) -> Result<(), AllocError>
    requires begun { count.begun ≤ PLACES }
    requires overs { count.overs ≤ PLACES }
    requires balls { count.balls ≤ PLACES }
    requires item { IsPlain placed.now.item }
    ensures { PutsValues result out.old out.new
        (laws.item_value count striker by placed.now.place placed.now.item ∷ []) }
{
    begin_object(out)?;
    put_figure(out, "place", placed.place)?;
    put_text(out, "line", line_of(&Entry::Write(placed.item)).as_str())?;
    put_own(out, alloc, count, striker, &placed.item)?;
    put_or_null(out, "by", by)?;
    end_object(out)
}
