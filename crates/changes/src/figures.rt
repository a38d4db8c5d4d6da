//! The figures of batters and bowlers and the state of an innings, and how many of a row's columns are left
//! after each.

ghost use Rattle.std.specs.Prelude.{◌≡◌, ◌-◌, decimal, length, OnOk};
ghost use Rattle.cards.specs.Bowling.{overs_of};
ghost use Rattle.streams.specs.Watched.{Prints, TellsFailure};
ghost use Rattle.changes.specs.Rows as rows;

use crate::stage::Total;
use itoa::Buffer;
use match_laws::{BattingRow, BowlingRow};
use streams::{Sink, Watched, WriteFailed};

/// Returns how many digits a number has.
fn digits(number: u32) -> usize
    ensures { result ≡ length (decimal number) }
{
    Buffer::new().format(number).len()
}

/// Prints a batter's runs and balls faced.
pub fn print_figures<W: Sink>(out: &mut Watched<W>, row: &BattingRow) -> Result<(), WriteFailed>
    ensures text { OnOk result (Prints W.contents out.old out.new (rows.figures_text row.now)) }
    ensures failed { TellsFailure result out.old out.new }
{
    let runs = row.runs;
    let faced = row.faced;
    write!(out, "{runs} ({faced})")
}

/// Returns how many of these columns are left after a batter's runs and balls faced.
pub fn behind_figures(columns: usize, row: &BattingRow) -> usize
    ensures { result ≡ columns - length (rows.figures_text row.now) }
{
    columns
        .saturating_sub(digits(row.runs))
        .saturating_sub(3)
        .saturating_sub(digits(row.faced))
}

/// Prints a bowler's overs.
fn print_overs<W: Sink>(out: &mut Watched<W>, row: &BowlingRow) -> Result<(), WriteFailed>
    ensures text { OnOk result (Prints W.contents out.old out.new (overs_of row.now)) }
    ensures failed { TellsFailure result out.old out.new }
{
    let overs = row.overs;
    let balls = row.balls;
    write!(out, "{overs}.{balls}")
}

/// Returns how many of these columns are left after a bowler's overs.
fn behind_overs(columns: usize, row: &BowlingRow) -> usize
    ensures { result ≡ columns - length (overs_of row.now) }
{
    columns
        .saturating_sub(digits(row.overs))
        .saturating_sub(1)
        .saturating_sub(digits(row.balls))
}

/// Prints a bowler's maidens, runs and wickets.
fn print_behind_overs<W: Sink>(out: &mut Watched<W>, row: &BowlingRow) -> Result<(), WriteFailed>
    ensures text { OnOk result (Prints W.contents out.old out.new (rows.behind_overs row.now)) }
    ensures failed { TellsFailure result out.old out.new }
{
    let maidens = row.maidens;
    let runs = row.runs;
    let wickets = row.wickets;
    write!(out, "-{maidens}-{runs}-{wickets}")
}

/// Returns how many of these columns are left after a bowler's maidens, runs and wickets.
fn behind_rest(columns: usize, row: &BowlingRow) -> usize
    ensures { result ≡ columns - length (rows.behind_overs row.now) }
{
    columns
        .saturating_sub(3)
        .saturating_sub(digits(row.maidens))
        .saturating_sub(digits(row.runs))
        .saturating_sub(digits(row.wickets))
}

/// Prints a bowler's wide runs and no balls, as a card has them.
fn print_wides<W: Sink>(out: &mut Watched<W>, row: &BowlingRow) -> Result<(), WriteFailed>
    ensures text { OnOk result (Prints W.contents out.old out.new (rows.wides_text row.now)) }
    ensures failed { TellsFailure result out.old out.new }
{
    let wides = row.wides;
    let noballs = row.noballs;
    write!(out, ", w {wides}, nb {noballs}")
}

/// Returns how many of these columns are left after a bowler's wide runs and no balls.
fn behind_wides(columns: usize, row: &BowlingRow) -> usize
    ensures { result ≡ columns - length (rows.wides_text row.now) }
{
    columns
        .saturating_sub(9)
        .saturating_sub(digits(row.wides))
        .saturating_sub(digits(row.noballs))
}

/// Prints a bowler's overs, maidens, runs and wickets, and his wide runs and no balls unless `same`.
pub fn print_bowling<W: Sink>(
    out: &mut Watched<W>,
    same: bool,
    row: &BowlingRow,
) -> Result<(), WriteFailed>
    ensures text { OnOk result (Prints W.contents out.old out.new (rows.bowling_text same row.now)) }
    ensures failed { TellsFailure result out.old out.new }
{
    print_overs(out, row)?;
    print_behind_overs(out, row)?;
    if same { Ok(()) } else { print_wides(out, row) }
}

/// Returns how many of these columns are left after a bowler's figures, without wide runs and no balls if
/// `same`.
pub fn behind_bowling(columns: usize, same: bool, row: &BowlingRow) -> usize
    ensures { result ≡ columns - length (rows.bowling_text same row.now) }
{
    let left = behind_rest(behind_overs(columns, row), row);
    if same { left } else { behind_wides(left, row) }
}

/// Prints how an innings stands, or that it hasn't begun.
pub fn print_total<W: Sink>(out: &mut Watched<W>, total: Option<Total>) -> Result<(), WriteFailed>
    ensures text { OnOk result (Prints W.contents out.old out.new (rows.total_text total)) }
    ensures failed { TellsFailure result out.old out.new }
{
    match total {
        None => write!(out, "not begun"),
        Some(
            Total {
                total,
                wickets,
                overs,
                balls,
            },
        ) => write!(out, "{total} for {wickets} ({overs}.{balls})"),
    }
}

/// Returns how many of these columns are left after the state of an innings.
pub fn behind_total(columns: usize, total: Option<Total>) -> usize
    ensures { result ≡ columns - length (rows.total_text total) }
{
    let Some(total) = total else {
        return columns.saturating_sub(9);
    };
    columns
        .saturating_sub(9)
        .saturating_sub(digits(total.total))
        .saturating_sub(digits(total.wickets))
        .saturating_sub(digits(total.overs))
        .saturating_sub(digits(total.balls))
}
