//! The row of a delivery.

ghost use Rattle.std.specs.Prelude.{◌≡◌, ◌≤◌, ◌++◌, ◌∷◌, [], IfOk};
ghost use Rattle.ball_laws.specs.Runs.{all_runs, split_of_ball};
ghost use Rattle.archive_deliveries.specs.Deliveries.{is_run};
ghost use Rattle.archive_deliveries.specs.Innings.{with};
ghost use Rattle.archive_deliveries.specs.Innings as named;
ghost use Rattle.delivery_rows.specs.Cells.{PutsCells, rows_text};
ghost use Rattle.delivery_rows.specs.Innings.{of};
ghost use Rattle.delivery_rows.specs.Standing.{after};
ghost use Rattle.delivery_rows.specs.Deliveries as rows;

use crate::cells::{begin_row, end_row, put, put_figure, put_nothing, put_text};
use crate::gone::put_others;
use crate::standing::Standing;
use crate::table_innings::TableInnings;
use archive_deliveries::{
    Carrier, NamedInnings, NamedSheet, Noted, all_extras, fielder_name, how_words, is_own, is_run,
    penalties, plus, whole_total,
};
use ball_laws::{Ends, Split, runs_of};
use match_laws::opponent;
use notation::{Ball, Out, Plain, Player, Side};
use std::alloc::{AllocError, Global};

/// Adds the day, the innings and the sides.
fn put_innings(
    alloc: Global,
    out: &mut Vec<u8>,
    innings: NamedInnings<'_>,
    day: &str,
) -> Result<(), AllocError>
    ensures { PutsCells result out.old.items out.new.items (named.of innings.entry (λ s side f i. rows.day_cells s day.now side i)) }
{
    let NamedInnings {
        sheet,
        side,
        index,
        ..
    } = innings;
    put_text(alloc, out, day.as_bytes())?;
    put_figure(out, plus(index as u64, 1)?)?;
    put_text(alloc, out, sheet.name(side).as_bytes())?;
    put_text(alloc, out, sheet.name(opponent(side)).as_bytes())
}

/// Returns the text of the cells of the match and the innings, which begin each row of the innings.
pub fn head_of(alloc: Global, innings: NamedInnings<'_>, day: &str) -> Result<Vec<u8>, AllocError>
    ensures { IfOk result (λ head. head.items ≡ named.of innings.entry (λ s side f i. rows.head_text s day.now side i)) }
{
    let mut head = Vec::new(alloc);
    begin_row(&mut head, innings.sheet.game())?;
    put_innings(alloc, &mut head, innings, day)?;
    Ok(head)
}

/// Adds the over from 0, the delivery in it from 1, and the place in the book.
fn put_place(out: &mut Vec<u8>, now: &Standing, place: u32) -> Result<(), AllocError>
    ensures { PutsCells result out.old.items out.new.items (rows.place_cells now.now place) }
{
    put_figure(out, u64::from(now.over))?;
    put_figure(out, now.ball)?;
    put_figure(out, u64::from(place))
}

/// Adds the name of the batter at an end, or an empty cell.
fn put_batter(
    alloc: Global,
    out: &mut Vec<u8>,
    sheet: &NamedSheet<'_>,
    side: Side,
    batter: Option<Player>,
) -> Result<(), AllocError>
    ensures { PutsCells result out.old.items out.new.items (rows.batter_cell sheet.now side batter ∷ []) }
{
    match batter {
        None => put_nothing(out),
        Some(player) => put_text(alloc, out, sheet.player(side, player).as_bytes()),
    }
}

/// Adds the striker, the non-striker and the bowler.
fn put_players(
    alloc: Global,
    out: &mut Vec<u8>,
    sheet: &NamedSheet<'_>,
    side: Side,
    ends: &Ends,
    bowler: Player,
) -> Result<(), AllocError>
    ensures { PutsCells result out.old.items out.new.items (rows.players_cells sheet.now side ends.now bowler) }
{
    put_batter(alloc, out, sheet, side, ends.striker)?;
    put_batter(alloc, out, sheet, side, ends.other)?;
    put_text(alloc, out, sheet.player(opponent(side), bowler).as_bytes())
}

/// Adds the runs of a delivery, counting the penalty runs that it carries.
fn put_runs(out: &mut Vec<u8>, split: &Split, penalty: u64) -> Result<(), AllocError>
    requires { all_runs split.now ≤ 260 }
    ensures { PutsCells result out.old.items out.new.items (rows.runs_cells split.now penalty) }
{
    put_figure(out, u64::from(split.striker))?;
    put_figure(out, all_extras(split, penalty)?)?;
    put_figure(out, whole_total(split, penalty)?)
}

/// Adds the extras of a delivery by kind.
fn put_kinds(out: &mut Vec<u8>, split: &Split, penalty: u64) -> Result<(), AllocError>
    ensures { PutsCells result out.old.items out.new.items (rows.kinds_cells split.now penalty) }
{
    put_figure(out, u64::from(split.wides))?;
    put_figure(out, u64::from(split.noballs))?;
    put_figure(out, u64::from(split.byes))?;
    put_figure(out, u64::from(split.legs))?;
    put_figure(out, penalty)
}

/// Returns `4` or `6` for a boundary off the bat, or else an empty text. `run` tells that the runs were no boundary.
fn boundary(runs: u32, run: bool) -> &'static str
    ensures { result.now ≡ rows.boundary_cell runs run }
{
    if runs == 4 && !run {
        "4"
    } else if runs == 6 && !run {
        "6"
    } else {
        ""
    }
}

/// Adds whether a delivery is a boundary.
fn put_boundary(
    alloc: Global,
    out: &mut Vec<u8>,
    ball: &Ball,
    split: &Split,
) -> Result<(), AllocError>
    requires { split.now ≡ split_of_ball ball.now }
    ensures { PutsCells result out.old.items out.new.items (rows.boundary_cell split.now.striker (is_run ball.now) ∷ []) }
{
    let text = boundary(split.striker, is_run(ball, split));
    put(alloc, out, text.as_bytes())
}

/// Adds the fielder, or an empty cell if none is recorded.
fn put_fielder(
    alloc: Global,
    out: &mut Vec<u8>,
    sheet: &NamedSheet<'_>,
    side: Side,
    fielder: u8,
) -> Result<(), AllocError>
    ensures { PutsCells result out.old.items out.new.items (rows.fielder_cell sheet.now side fielder ∷ []) }
{
    if fielder == 0 {
        return put_nothing(out);
    }
    let name = fielder_name(sheet, opponent(side), fielder);
    put_text(alloc, out, name.as_bytes())
}

/// Adds a dismissal off a delivery: how, who was out, and the fielder.
fn put_wicket(
    alloc: Global,
    out: &mut Vec<u8>,
    sheet: &NamedSheet<'_>,
    side: Side,
    ends: &Ends,
    bowler: Player,
    dismissal: &Out,
) -> Result<(), AllocError>
    ensures { PutsCells result out.old.items out.new.items (rows.wicket_cells sheet.now side ends.now bowler dismissal.now) }
{
    let how = how_words(is_own(dismissal, bowler), dismissal.how);
    put_text(alloc, out, how.as_bytes())?;
    put_batter(alloc, out, sheet, side, ends.batter_at(dismissal.who))?;
    put_fielder(alloc, out, sheet, side, dismissal.fielder)
}

/// Adds the dismissal off a delivery, or three empty cells if there is none.
fn put_out(
    alloc: Global,
    out: &mut Vec<u8>,
    sheet: &NamedSheet<'_>,
    side: Side,
    ends: &Ends,
    bowler: Player,
    dismissal: Option<Out>,
) -> Result<(), AllocError>
    ensures { PutsCells result out.old.items out.new.items (rows.out_cells sheet.now side ends.now bowler dismissal) }
{
    match dismissal {
        Some(dismissal) => put_wicket(alloc, out, sheet, side, ends, bowler, &dismissal),
        None => {
            put_nothing(out)?;
            put_nothing(out)?;
            put_nothing(out)
        }
    }
}

/// Adds what happened off a delivery, with the penalty runs that it carries.
fn put_ball(
    alloc: Global,
    out: &mut Vec<u8>,
    sheet: &NamedSheet<'_>,
    side: Side,
    penalty: u64,
    ends: &Ends,
    ball: &Ball,
) -> Result<(), AllocError>
    ensures { PutsCells result out.old.items out.new.items (rows.ball_cells sheet.now side penalty ends.now ball.now) }
{
    let split = runs_of(ball);
    put_players(alloc, out, sheet, side, ends, ball.bowler)?;
    put_runs(out, &split, penalty)?;
    put_kinds(out, &split, penalty)?;
    put_boundary(alloc, out, ball, &split)?;
    put_out(alloc, out, sheet, side, ends, ball.bowler, ball.out)
}

/// Adds the runs and wickets of the innings after a delivery.
fn put_standing(out: &mut Vec<u8>, now: &Standing) -> Result<(), AllocError>
    ensures { PutsCells result out.old.items out.new.items (rows.standing_cells now.now) }
{
    put_figure(out, now.runs)?;
    put_figure(out, now.wickets)
}

/// Adds the cells of a delivery behind those of the innings. `now` is the score after it.
fn put_cells(
    alloc: Global,
    out: &mut Vec<u8>,
    innings: NamedInnings<'_>,
    now: &Standing,
    penalty: u64,
    ball: &Ball,
    carrier: Carrier<'_>,
) -> Result<(), AllocError>
    ensures { PutsCells result out.old.items out.new.items (named.of innings.entry (λ s side f i. with carrier.entry (λ early noted late.
        rows.delivery_cells s side now.now penalty early noted.place noted.ends ball.now late))) }
{
    let Carrier { early, noted, late } = carrier;
    let NamedInnings { sheet, side, .. } = innings;
    put_place(out, now, noted.place)?;
    put_ball(alloc, out, sheet, side, penalty, &noted.ends, ball)?;
    put_others(alloc, out, sheet, side, early, late)?;
    put_standing(out, now)
}

/// Writes the row of a delivery, with the penalty runs that it carries, and returns the score after the delivery.
fn put_delivery(
    alloc: Global,
    out: &mut Vec<u8>,
    innings: TableInnings<'_>,
    before: Standing,
    penalty: u64,
    ball: &Ball,
    carrier: Carrier<'_>,
) -> Result<Standing, AllocError>
    ensures next { IfOk result (λ now. now ≡ with carrier.entry (λ early noted late. after before penalty early noted.over ball.now late)) }
    ensures row { IfOk result (λ now. out.new.items ≡ out.old.items ++ rows_text
        (of innings.entry (λ s day side f i. with carrier.entry (λ early noted late.
        rows.delivery_row s day side i now penalty early noted.place noted.ends ball.now late)) ∷ [])) }
{
    let now = before.after(
        penalty,
        carrier.early,
        carrier.noted.over,
        ball,
        carrier.late,
    )?;
    out.extend_from_slice(innings.head)?;
    put_cells(alloc, out, innings.named, &now, penalty, ball, carrier)?;
    end_row(out)?;
    Ok(now)
}

/// Writes the row of an item, if it is a delivery, and returns the score after the item.
pub fn put_item(
    alloc: Global,
    out: &mut Vec<u8>,
    innings: TableInnings<'_>,
    before: Standing,
    carrier: Carrier<'_>,
) -> Result<Standing, AllocError>
    ensures next { IfOk result (λ now. now ≡ with carrier.entry (of innings.entry (λ s day side. rows.next) before)) }
    ensures rows { IfOk result (λ now. out.new.items ≡ out.old.items ++ rows_text (with carrier.entry (of innings.entry rows.item_rows now))) }
{
    match &carrier.noted.item {
        Plain::Ball(ball) => {
            let penalty = penalties(innings.named.begun, innings.named.index, carrier.late)?;
            put_delivery(alloc, out, innings, before, penalty, ball, carrier)
        }
        Plain::Innings(_)
        | Plain::Come(_)
        | Plain::Gone(..)
        | Plain::Over
        | Plain::Penalty(..)
        | Plain::Swap
        | Plain::End(_)
        | Plain::Close
        | Plain::Void => Ok(before),
    }
}
