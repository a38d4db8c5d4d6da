//! A batter's fate, with his figures.

ghost use Rattle.std.specs.Prelude.{◌≡◌, ◌-◌, length, OnOk, Some};
ghost use Rattle.streams.specs.Watched.{Prints, TellsFailure};
ghost use Rattle.changes.specs.Rows as rows;

use crate::figures::{behind_figures, print_figures};
use cards::MatchSheet;
use match_laws::{BattingRow, Fate, opponent};
use notation::Side;
use streams::{Sink, Watched, WriteFailed};

/// Prints the fate of a batter of the side, with his figures.
fn print_known<W: Sink>(
    out: &mut Watched<W>,
    sheet: &MatchSheet,
    side: Side,
    fate: Fate,
    row: &BattingRow,
) -> Result<(), WriteFailed>
    ensures text { OnOk result (Prints W.contents out.old out.new
        (rows.fate_figures sheet.now side (Some fate) row.now)) }
    ensures failed { TellsFailure result out.old out.new }
{
    cards::print_fate(out, sheet, opponent(side), Some(fate))?;
    write!(out, " ")?;
    print_figures(out, row)
}

/// Prints the fate of a batter of the side, with his figures, or that he isn't in.
pub fn print_batting<W: Sink>(
    out: &mut Watched<W>,
    sheet: &MatchSheet,
    side: Side,
    row: &BattingRow,
) -> Result<(), WriteFailed>
    ensures text { OnOk result (Prints W.contents out.old out.new
        (rows.batting_text sheet.now side row.now)) }
    ensures failed { TellsFailure result out.old out.new }
{
    match row.fate {
        None => write!(out, "not in"),
        Some(fate) => print_known(out, sheet, side, fate, row),
    }
}

/// Returns how many columns are left after the fate of a batter of the side, with his figures.
fn behind_known(
    columns: usize,
    sheet: &MatchSheet,
    side: Side,
    fate: Fate,
    row: &BattingRow,
) -> usize
    ensures { result ≡ columns - length (rows.fate_figures sheet.now side (Some fate) row.now) }
{
    let left = cards::behind_fate(columns, sheet, opponent(side), Some(fate));
    behind_figures(left.saturating_sub(1), row)
}

/// Returns how many columns are left after the text of a batter of the side.
pub fn behind_batting(columns: usize, sheet: &MatchSheet, side: Side, row: &BattingRow) -> usize
    ensures { result ≡ columns - length (rows.batting_text sheet.now side row.now) }
{
    match row.fate {
        None => columns.saturating_sub(6),
        Some(fate) => behind_known(columns, sheet, side, fate, row),
    }
}
