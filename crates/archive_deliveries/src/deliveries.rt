//! Deliveries of an archive, each with the items that it carries.

ghost use Rattle.std.specs.Prelude.{◌≡◌, ◌+◌, ◌*◌, ◌≤◌, ◌∷◌, [], IfOk, filter, length};
ghost use Rattle.ball_laws.specs.Runs.{all_runs, is_six, split_of_ball};
ghost use Rattle.match_laws.specs.Figures.{is_four};
ghost use Rattle.json_fields.specs.Values.{PutsFields, PutsValues, count_field};
ghost use Rattle.archive_deliveries.specs.Deliveries as deliveries;
ghost use Rattle.archive_deliveries.specs.Innings.{of, with};
ghost use Rattle.archive_deliveries.specs.Notes as notes;

use crate::begun::Begun;
use crate::innings::{Carrier, NamedInnings};
use crate::named::NamedSheet;
use crate::notes::{Noted, is_awarded};
use crate::wickets::{put_batter, put_wickets};
use ball_laws::{Ends, Split, runs_of};
use json::Pretty;
use json_fields::{
    begin_field, begin_object, end_object, put_count, put_figure, put_flag, put_number, put_text,
};
use match_laws::opponent;
use notation::{Ball, Bound, Plain, Player, Side};
use std::alloc::AllocError;

/// Counts the items that award penalty runs to an innings.
fn awards(begun: &Begun, innings: usize, items: &[Noted]) -> usize
    ensures { result ≡ length (filter (notes.is_awarded begun.now innings) items.now) }
{
    items
        .iter()
        .filter(|noted| is_awarded(begun, innings, noted))
        .count()
}

/// Returns the penalty runs of this many awards. Fails if they exceed 64 bits; that many awards would not fit into memory.
pub fn award_runs(count: usize) -> Result<u64, AllocError>
    ensures { IfOk result (λ runs. runs ≡ 5 * count) }
{
    match (count as u64).checked_mul(5) {
        Some(runs) => Ok(runs),
        None => Err(AllocError),
    }
}

/// Adds runs and penalty runs. Fails if the sum exceeds 64 bits.
pub fn plus(runs: u64, penalty: u64) -> Result<u64, AllocError>
    ensures { IfOk result (λ sum. sum ≡ runs + penalty) }
{
    match runs.checked_add(penalty) {
        Some(sum) => Ok(sum),
        None => Err(AllocError),
    }
}

/// Returns the penalty runs that these items award to an innings.
pub fn penalties(begun: &Begun, innings: usize, items: &[Noted]) -> Result<u64, AllocError>
    ensures { IfOk result (λ runs. runs ≡ deliveries.penalties begun.now innings items.now) }
{
    award_runs(awards(begun, innings, items))
}

/// Returns the extras of a delivery, without penalty runs.
fn extra_runs(split: &Split) -> u32
    requires { all_runs split.now ≤ 260 }
    ensures { result ≡ deliveries.extra_runs split.now }
{
    split.byes + split.legs + split.wides + split.noballs
}

/// Returns all runs of a delivery, without penalty runs.
fn total_runs(split: &Split) -> u32
    requires { all_runs split.now ≤ 260 }
    ensures { result ≡ all_runs split.now }
{
    split.striker + split.byes + split.legs + split.wides + split.noballs
}

fn is_four(bound: Bound) -> bool
    ensures { result ≡ is_four bound }
{
    bound == Bound::Four
}

fn is_six(bound: Bound) -> bool
    ensures { result ≡ is_six bound }
{
    bound == Bound::Six
}

/// Whether four or six runs were scored off the bat without a boundary.
pub fn is_run(ball: &Ball, split: &Split) -> bool
    requires { split.now ≡ split_of_ball ball.now }
    ensures { result ≡ deliveries.is_run ball.now }
{
    (split.striker == 4 && !is_four(ball.bound)) || (split.striker == 6 && !is_six(ball.bound))
}

/// Returns all extras of a delivery, with penalty runs.
pub fn all_extras(split: &Split, penalty: u64) -> Result<u64, AllocError>
    requires { all_runs split.now ≤ 260 }
    ensures { IfOk result (λ runs. runs ≡ deliveries.extra_runs split.now + penalty) }
{
    plus(u64::from(extra_runs(split)), penalty)
}

/// Returns all runs of a delivery, with penalty runs.
pub fn whole_total(split: &Split, penalty: u64) -> Result<u64, AllocError>
    requires { all_runs split.now ≤ 260 }
    ensures { IfOk result (λ runs. runs ≡ all_runs split.now + penalty) }
{
    plus(u64::from(total_runs(split)), penalty)
}

/// Puts the runs of a delivery, with the penalty runs that it carries.
fn put_runs(out: &mut Pretty, split: &Split, run: bool, penalty: u64) -> Result<(), AllocError>
    requires { all_runs split.now ≤ 260 }
    ensures { PutsFields result out.old out.new (deliveries.runs_field split.now run penalty ∷ []) }
{
    let extras = all_extras(split, penalty)?;
    let total = whole_total(split, penalty)?;
    begin_field(out, "runs")?;
    put_figure(out, "batter", split.striker)?;
    put_number(out, "extras", extras)?;
    put_number(out, "total", total)?;
    put_flag(out, "non_boundary", run)?;
    end_object(out)
}

/// Puts penalty runs, or nothing if there are none.
pub fn put_awarded(out: &mut Pretty, name: &str, runs: u64) -> Result<(), AllocError>
    ensures { PutsFields result out.old out.new (count_field name.now runs) }
{
    if runs == 0 {
        return Ok(());
    }
    put_number(out, name, runs)
}

/// Puts the extras of a delivery: each kind that isn't 0.
fn put_kinds(out: &mut Pretty, split: &Split, penalty: u64) -> Result<(), AllocError>
    ensures { PutsFields result out.old out.new (deliveries.extras_field split.now penalty ∷ []) }
{
    begin_field(out, "extras")?;
    put_count(out, "wides", split.wides)?;
    put_count(out, "noballs", split.noballs)?;
    put_count(out, "byes", split.byes)?;
    put_count(out, "legbyes", split.legs)?;
    put_awarded(out, "penalty", penalty)?;
    end_object(out)
}

/// Puts the extras of a delivery, or nothing if there are none.
fn put_extras(out: &mut Pretty, split: &Split, penalty: u64) -> Result<(), AllocError>
    requires { all_runs split.now ≤ 260 }
    ensures { PutsFields result out.old out.new (deliveries.extras_fields split.now penalty) }
{
    if all_extras(split, penalty)? == 0 {
        return Ok(());
    }
    put_kinds(out, split, penalty)
}

/// Puts the striker, the bowler and the non-striker.
fn put_players(
    out: &mut Pretty,
    sheet: &NamedSheet<'_>,
    side: Side,
    ends: &Ends,
    bowler: Player,
) -> Result<(), AllocError>
    ensures { PutsFields result out.old out.new (deliveries.players_fields sheet.now side ends.now bowler) }
{
    put_batter(out, "batter", sheet, side, ends.striker)?;
    put_text(out, "bowler", sheet.player(opponent(side), bowler))?;
    put_batter(out, "non_striker", sheet, side, ends.other)
}

/// Puts a delivery, with these penalty runs and with the batters who left before or after it.
fn put_delivery(
    out: &mut Pretty,
    innings: NamedInnings<'_>,
    penalty: u64,
    ball: &Ball,
    carrier: Carrier<'_>,
) -> Result<(), AllocError>
    ensures { PutsValues result out.old out.new (of innings.entry (λ s side f i. with carrier.entry (λ early noted late.
        deliveries.delivery_of s side penalty early noted.ends ball.now late)) ∷ []) }
{
    let NamedInnings { sheet, side, .. } = innings;
    let Carrier { early, noted, late } = carrier;
    let split = runs_of(ball);
    begin_object(out)?;
    put_players(out, sheet, side, &noted.ends, ball.bowler)?;
    put_runs(out, &split, is_run(ball, &split), penalty)?;
    put_wickets(out, sheet, side, early, &noted.ends, ball, late)?;
    put_extras(out, &split, penalty)?;
    end_object(out)
}

/// Puts an item if it is a delivery; puts nothing for any other item.
pub fn put_listed(
    out: &mut Pretty,
    innings: NamedInnings<'_>,
    carrier: Carrier<'_>,
) -> Result<(), AllocError>
    ensures { PutsValues result out.old out.new (with carrier.entry (of innings.entry deliveries.listed)) }
{
    match &carrier.noted.item {
        Plain::Ball(ball) => {
            let penalty = penalties(innings.begun, innings.index, carrier.late)?;
            put_delivery(out, innings, penalty, ball, carrier)
        }
        Plain::Innings(_)
        | Plain::Come(_)
        | Plain::Gone(..)
        | Plain::Over
        | Plain::Penalty(..)
        | Plain::Swap
        | Plain::End(_)
        | Plain::Close
        | Plain::Void => Ok(()),
    }
}
