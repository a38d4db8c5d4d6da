//! The rows of the changes.

ghost use Rattle.std.specs.Prelude.{◌≡◌, OnOk};
ghost use Rattle.match_laws.specs.Stands.{ForEachHistory};
ghost use Rattle.streams.specs.Watched.{Prints, TellsFailure};
ghost use Rattle.changes.specs.Stage.{ForStages};
ghost use Rattle.changes.specs.Rows as rows;

use crate::change::{Change, Part};
use crate::differs::is_same_wides;
use crate::halves::{Half, print_joined};
use crate::results::print_results;
use crate::stage::{Batter, Total, batting_in, bowling_in, striker, total_in};
use crate::stages::Stages;
use cards::MatchSheet;
use match_laws::{BattingRow, BowlingRow, Match};
use notation::{Player, Side};
use streams::{Sink, Watched, WriteFailed};

/// Returns the lead of a row about an innings: its number.
fn innings_lead(innings: usize) -> &'static str
    ensures { result.now ≡ rows.innings_lead innings }
{
    if innings == 0 {
        "innings 1: "
    } else if innings == 1 {
        "innings 2: "
    } else if innings == 2 {
        "innings 3: "
    } else {
        "innings 4: "
    }
}

/// Returns the lead of a row about an innings: `now: ` for the innings that began last, or else its number.
fn lead(now: &Match, innings: usize) -> &'static str
    ensures { ForEachHistory now.now (λ n h. result.now ≡ rows.lead h innings) }
{
    if innings == now.begun().saturating_sub(1) {
        "now: "
    } else {
        innings_lead(innings)
    }
}

/// Prints the new fate of a batter of the side, and the old one.
fn print_fates<W: Sink>(
    out: &mut Watched<W>,
    sheet: &MatchSheet,
    first: &str,
    side: Side,
    player: Player,
    was: &BattingRow,
    now: &BattingRow,
) -> Result<(), WriteFailed>
    ensures text { OnOk result (Prints W.contents out.old out.new
        (rows.fate_row sheet.now first.now side player was.now now.now)) }
    ensures failed { TellsFailure result out.old out.new }
{
    let name = sheet.player(side, player);
    print_joined(
        out,
        sheet,
        true,
        first,
        name,
        &Half::Batting(side, *now),
        &Half::Batting(side, *was),
    )
}

/// Prints a batter's new figures, and the old ones.
fn print_batter<W: Sink>(
    out: &mut Watched<W>,
    sheet: &MatchSheet,
    first: &str,
    side: Side,
    player: Player,
    was: &BattingRow,
    now: &BattingRow,
) -> Result<(), WriteFailed>
    ensures text { OnOk result (Prints W.contents out.old out.new
        (rows.figures_row sheet.now first.now side player was.now now.now)) }
    ensures failed { TellsFailure result out.old out.new }
{
    let name = sheet.player(side, player);
    print_joined(
        out,
        sheet,
        true,
        first,
        name,
        &Half::Figures(*now),
        &Half::Figures(*was),
    )
}

/// Prints a bowler's new figures, and the old ones.
fn print_bowler<W: Sink>(
    out: &mut Watched<W>,
    sheet: &MatchSheet,
    first: &str,
    side: Side,
    player: Player,
    was: &BowlingRow,
    now: &BowlingRow,
) -> Result<(), WriteFailed>
    ensures text { OnOk result (Prints W.contents out.old out.new
        (rows.bowling_row sheet.now first.now side player was.now now.now)) }
    ensures failed { TellsFailure result out.old out.new }
{
    let same = is_same_wides(was, now);
    let name = sheet.player(side, player);
    print_joined(
        out,
        sheet,
        same,
        first,
        name,
        &Half::Bowling(same, *now),
        &Half::Bowling(same, *was),
    )
}

/// Prints how a side's innings stands, and how it stood.
fn print_totals<W: Sink>(
    out: &mut Watched<W>,
    sheet: &MatchSheet,
    first: &str,
    side: Side,
    was: Option<Total>,
    now: Option<Total>,
) -> Result<(), WriteFailed>
    ensures text { OnOk result (Prints W.contents out.old out.new
        (rows.total_row sheet.now first.now side was now)) }
    ensures failed { TellsFailure result out.old out.new }
{
    print_joined(
        out,
        sheet,
        true,
        first,
        sheet.name(side),
        &Half::Total(now),
        &Half::Total(was),
    )
}

/// Returns the name of the batter who has the strike, if somebody has it.
fn batter_name(sheet: &MatchSheet, batter: Option<Batter>) -> &str
    ensures { result.now ≡ rows.batter_name sheet.now batter }
{
    match batter {
        None => "nobody",
        Some(batter) => sheet.player(batter.side, batter.player),
    }
}

/// Prints who has the strike, and who had it.
fn print_strike<W: Sink>(
    out: &mut Watched<W>,
    sheet: &MatchSheet,
    was: Option<Batter>,
    now: Option<Batter>,
) -> Result<(), WriteFailed>
    ensures text { OnOk result (Prints W.contents out.old out.new (rows.strike_row sheet.now was now)) }
    ensures failed { TellsFailure result out.old out.new }
{
    let name = batter_name(sheet, now);
    let other = batter_name(sheet, was);
    print_joined(
        out,
        sheet,
        true,
        "now: ",
        name,
        &Half::Words("on strike"),
        &Half::Words(other),
    )
}

/// Prints the row of a player's changed part, in an innings and for a side.
fn print_part<W: Sink>(
    out: &mut Watched<W>,
    stages: Stages<'_>,
    part: Part,
    innings: usize,
    side: Side,
    player: Player,
) -> Result<(), WriteFailed>
    ensures text { ForStages stages.entry (λ s w n. OnOk result (Prints W.contents out.old out.new
        (rows.part_row s part w n innings side player))) }
    ensures failed { TellsFailure result out.old out.new }
{
    let Stages {
        sheet,
        before,
        after,
    } = stages;
    let first = lead(after, innings);
    match part {
        Part::Fate => {
            let then = batting_in(before, innings, side, player);
            let row = batting_in(after, innings, side, player);
            print_fates(out, sheet, first, side, player, &then, &row)
        }
        Part::Figures => {
            let then = batting_in(before, innings, side, player);
            let row = batting_in(after, innings, side, player);
            print_batter(out, sheet, first, side, player, &then, &row)
        }
        Part::Bowling => {
            let then = bowling_in(before, innings, side, player);
            let row = bowling_in(after, innings, side, player);
            print_bowler(out, sheet, first, side, player, &then, &row)
        }
    }
}

/// Prints the row of a change.
pub fn print_change<W: Sink>(
    out: &mut Watched<W>,
    stages: Stages<'_>,
    change: &Change,
) -> Result<(), WriteFailed>
    ensures text { ForStages stages.entry (λ s w n. OnOk result (Prints W.contents out.old out.new
        (rows.row s w n change.now))) }
    ensures failed { TellsFailure result out.old out.new }
{
    let Stages {
        sheet,
        before,
        after,
    } = stages;
    match *change {
        Change::Player(part, innings, side, player) => {
            print_part(out, stages, part, innings, side, player)
        }
        Change::Total(innings, side) => print_totals(
            out,
            sheet,
            lead(after, innings),
            side,
            total_in(before, innings, side),
            total_in(after, innings, side),
        ),
        Change::Result => print_results(out, sheet, before.result(), after.result()),
        Change::Strike => print_strike(out, sheet, striker(before), striker(after)),
    }
}
