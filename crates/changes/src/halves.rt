//! The two halves of a change's text, the new state and the old one: in one row, or in two.

ghost use Rattle.std.specs.Prelude.{◌≡◌, ◌-◌, ◌++◌, length, OnOk};
ghost use Rattle.streams.specs.Watched.{Prints, TellsFailure};
ghost use Rattle.changes.specs.Rows as rows;
ghost use Rattle.changes.specs.inner.Halves.{half_text};

use crate::fate::{behind_batting, print_batting};
use crate::figures::{
    behind_bowling, behind_figures, behind_total, print_bowling, print_figures, print_total,
};
use crate::stage::Total;
use cards::MatchSheet;
use match_laws::{BattingRow, BowlingRow};
use notation::Side;
use streams::{Sink, Watched, WriteFailed};

/// One half: the text of one stage.
#[derive(Clone, Copy)]
pub enum Half<'a> {
    /// The fate of a batter of the side, with his figures.
    Batting(Side, BattingRow),
    /// A batter's runs and balls faced.
    Figures(BattingRow),
    /// A bowler's figures; if the flag is set, without wide runs and no balls.
    Bowling(bool, BowlingRow),
    /// How an innings stands, if it has begun.
    Total(Option<Total>),
    /// Fixed words.
    Words(&'a str),
}

/// Prints a text.
fn print<W: Sink>(out: &mut Watched<W>, text: &str) -> Result<(), WriteFailed>
    ensures text { OnOk result (Prints W.contents out.old out.new text.now) }
    ensures failed { TellsFailure result out.old out.new }
{
    write!(out, "{text}")
}

/// Prints a half.
fn print_half<W: Sink>(
    out: &mut Watched<W>,
    sheet: &MatchSheet,
    half: &Half<'_>,
) -> Result<(), WriteFailed>
    ensures text { OnOk result (Prints W.contents out.old out.new (half_text sheet.now half.now)) }
    ensures failed { TellsFailure result out.old out.new }
{
    match half {
        Half::Batting(side, row) => print_batting(out, sheet, *side, row),
        Half::Figures(row) => print_figures(out, row),
        Half::Bowling(same, row) => print_bowling(out, *same, row),
        Half::Total(total) => print_total(out, *total),
        Half::Words(words) => print(out, words),
    }
}

/// Returns how many of these columns are left after a half.
fn behind_half(columns: usize, sheet: &MatchSheet, half: &Half<'_>) -> usize
    ensures { result ≡ columns - length (half_text sheet.now half.now) }
{
    match half {
        Half::Batting(side, row) => behind_batting(columns, sheet, *side, row),
        Half::Figures(row) => behind_figures(columns, row),
        Half::Bowling(same, row) => behind_bowling(columns, *same, row),
        Half::Total(total) => behind_total(columns, *total),
        Half::Words(words) => columns.saturating_sub(words.len()),
    }
}

/// Prints the name that a row is about, after the lead.
fn print_name<W: Sink>(out: &mut Watched<W>, first: &str, name: &str) -> Result<(), WriteFailed>
    ensures text { OnOk result (Prints W.contents out.old out.new (rows.named first.now name.now)) }
    ensures failed { TellsFailure result out.old out.new }
{
    write!(out, "{first}{name} ")
}

/// Whether both halves fit in one row.
fn fits(sheet: &MatchSheet, first: &str, name: &str, now: &Half<'_>, was: &Half<'_>) -> bool
    ensures { result ≡ rows.fits sheet.now
        (rows.named first.now name.now ++ half_text sheet.now now.now) (half_text sheet.now was.now) }
{
    // One column more than a row has, so that one is left if everything fits.
    let all = sheet.columns() + 1;
    let behind_name = all
        .saturating_sub(first.len())
        .saturating_sub(name.len())
        .saturating_sub(1);
    let behind_now = behind_half(behind_name, sheet, now).saturating_sub(6);
    behind_half(behind_now, sheet, was) > 0
}

/// Returns the text between the halves: in one row, or in two.
fn joint(is_one: bool) -> &'static str
    ensures { result.now ≡ rows.joint is_one }
{
    if is_one { ", was " } else { ",\n  was " }
}

/// Prints this name's new state and its old one: in one row if they may share one and its columns suffice, or
/// else in two.
pub fn print_joined<W: Sink>(
    out: &mut Watched<W>,
    sheet: &MatchSheet,
    may_share: bool,
    first: &str,
    name: &str,
    now: &Half<'_>,
    was: &Half<'_>,
) -> Result<(), WriteFailed>
    ensures text { OnOk result (Prints W.contents out.old out.new (rows.joined sheet.now may_share
        (rows.named first.now name.now ++ half_text sheet.now now.now) (half_text sheet.now was.now))) }
    ensures failed { TellsFailure result out.old out.new }
{
    print_name(out, first, name)?;
    print_half(out, sheet, now)?;
    print(out, joint(may_share && fits(sheet, first, name, now, was)))?;
    print_half(out, sheet, was)?;
    print(out, "\n")
}
