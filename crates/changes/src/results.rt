//! The row of a changed result.

ghost use Rattle.std.specs.Prelude.{◌≡◌, ◌==◌, ◌++◌, codes, decimal, if◌then◌else◌, OnOk};
ghost use Rattle.streams.specs.Watched.{Prints, TellsFailure};
ghost use Rattle.changes.specs.Rows as rows;

use cards::MatchSheet;
use match_laws::Outcome;
use streams::{Sink, Watched, WriteFailed};

/// Returns the singular word if `count` is 1, or else the plural word.
fn unit(count: u32, one: &'static str, many: &'static str) -> &'static str
    ensures { result.now ≡ (if count == 1 then one.now else many.now) }
{
    if count == 1 { one } else { many }
}

/// Prints that a side has won, and by how many of this unit.
fn print_win<W: Sink>(
    out: &mut Watched<W>,
    side: &str,
    how: &str,
    count: u32,
    unit: &str,
) -> Result<(), WriteFailed>
    ensures text { OnOk result (Prints W.contents out.old out.new
        (side.now ++ how.now ++ (decimal count ++ codes " " ++ unit.now))) }
    ensures failed { TellsFailure result out.old out.new }
{
    write!(out, "{side}{how}")?;
    write!(out, "{count} {unit}")
}

/// Prints a result, or that there is none.
fn print_result<W: Sink>(
    out: &mut Watched<W>,
    sheet: &MatchSheet,
    outcome: Outcome,
) -> Result<(), WriteFailed>
    ensures text { OnOk result (Prints W.contents out.old out.new (rows.result_words sheet.now outcome)) }
    ensures failed { TellsFailure result out.old out.new }
{
    match outcome {
        Outcome::Undecided => write!(out, "no result"),
        Outcome::Draw => write!(out, "match drawn"),
        Outcome::Tie => write!(out, "match tied"),
        Outcome::Runs(side, count) => {
            print_win(
                out,
                sheet.name(side),
                " won by ",
                count,
                unit(count, "run", "runs"),
            )
        }
        Outcome::Wickets(side, count) => print_win(
            out,
            sheet.name(side),
            " won by ",
            count,
            unit(count, "wicket", "wickets"),
        ),
        Outcome::InningsAnd(side, count) => print_win(
            out,
            sheet.name(side),
            " won by an innings and ",
            count,
            unit(count, "run", "runs"),
        ),
        Outcome::PenaltyRuns(side) => {
            let name = sheet.name(side);
            write!(out, "{name} won by penalty runs")
        }
    }
}

/// Prints the new result and the old one, in two rows.
pub fn print_results<W: Sink>(
    out: &mut Watched<W>,
    sheet: &MatchSheet,
    was: Outcome,
    now: Outcome,
) -> Result<(), WriteFailed>
    ensures text { OnOk result (Prints W.contents out.old out.new (rows.result_row sheet.now was now)) }
    ensures failed { TellsFailure result out.old out.new }
{
    write!(out, "now: ")?;
    print_result(out, sheet, now)?;
    write!(out, ",\n  was ")?;
    print_result(out, sheet, was)?;
    writeln!(out)
}
