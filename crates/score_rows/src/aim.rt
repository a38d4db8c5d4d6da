//! The runs that a side needs, and the result of a match.

ghost use Rattle.std.specs.Prelude.{◌≡◌, ◌==◌, OnOk, codes, if◌then◌else◌};
ghost use Rattle.match_laws.specs.Result.{outcome};
ghost use Rattle.match_laws.specs.Stands.{ForEachHistory};
ghost use Rattle.cards.specs.Results.{counted};
ghost use Rattle.limits.specs.Figures as figures;
ghost use Rattle.streams.specs.Watched.{Prints, TellsFailure};
ghost use Rattle.score_rows.specs.Row as rows;

use crate::limited::{Off, off};
use crate::text::Text;
use cards::MatchSheet;
use limits::runs_needed;
use match_laws::{Match, Outcome};
use streams::{Sink, Watched, WriteFailed};

pub type Aim = Option<(&'static str, u32)>;

/// Returns the runs needed, if the deliveries aren't limited and the match isn't decided.
pub fn aim(score: &Match, left: Option<u32>) -> Aim
    ensures { ForEachHistory score.now (λ n h.
        ⟦<Aim as Text>⟧.bytes result ≡ rows.aim (outcome n h) (figures.runs_needed n h) left) }
{
    match (score.result(), runs_needed(score), left) {
        (Outcome::Undecided, Some(runs), None) => Some(("  needs ", runs)),
        _ => None,
    }
}

pub type NeedsRow = Option<(&'static str, u32, Off, &'static str)>;

/// Returns the row with the runs needed and the deliveries left, if these are limited and the match isn't decided.
pub fn needs_row(score: &Match, left: Option<u32>) -> NeedsRow
    ensures { ForEachHistory score.now (λ n h.
        ⟦<NeedsRow as Text>⟧.bytes result ≡ rows.needs_row (outcome n h) (figures.runs_needed n h) left) }
{
    match (score.result(), runs_needed(score), left) {
        (Outcome::Undecided, Some(runs), Some(left)) => {
            Some(("  needs ", runs, off(runs, left), "\n"))
        }
        _ => None,
    }
}

type Counted = (u32, &'static str, &'static str);

fn in_runs(count: u32) -> Counted
    ensures { ⟦<Counted as Text>⟧.bytes result ≡ counted count (codes "run") (codes "runs") }
{
    (count, " ", if count == 1 { "run" } else { "runs" })
}

fn in_wickets(count: u32) -> Counted
    ensures { ⟦<Counted as Text>⟧.bytes result ≡ counted count (codes "wicket") (codes "wickets") }
{
    (count, " ", if count == 1 { "wicket" } else { "wickets" })
}

type Ended<'a> = Option<(&'static str, &'a str, &'static str, Option<Counted>)>;

/// Returns the result of a match as text, if it is decided.
fn ended(sheet: &MatchSheet, outcome: Outcome) -> Ended<'_>
    ensures { ⟦<Ended<'static> as Text>⟧.bytes result ≡ rows.result_part sheet.now outcome }
{
    match outcome {
        Outcome::Undecided => None,
        Outcome::Draw => Some(("  ", "match drawn", "", None)),
        Outcome::Tie => Some(("  ", "match tied", "", None)),
        Outcome::Runs(side, count) => {
            Some(("  ", sheet.name(side), " won by ", Some(in_runs(count))))
        }
        Outcome::Wickets(side, count) => {
            Some(("  ", sheet.name(side), " won by ", Some(in_wickets(count))))
        }
        Outcome::InningsAnd(side, count) => Some((
            "  ",
            sheet.name(side),
            " won by an innings and ",
            Some(in_runs(count)),
        )),
        Outcome::PenaltyRuns(side) => {
            Some(("  ", sheet.name(side), " won by penalty runs", None))
        }
    }
}

/// Prints the result of a match, if it is decided.
pub fn print_result<W: Sink>(
    out: &mut Watched<W>,
    sheet: &MatchSheet,
    score: &Match,
) -> Result<(), WriteFailed>
    ensures text { ForEachHistory score.now (λ n h. OnOk result (Prints W.contents out.old out.new
        (rows.result_part sheet.now (outcome n h)))) }
    ensures failed { TellsFailure result out.old out.new }
{
    ended(sheet, score.result()).print(out)
}

/// Whether a match is decided.
fn is_decided(outcome: Outcome) -> bool
    ensures { result ≡ rows.is_decided outcome }
{
    !matches!(outcome, Outcome::Undecided)
}

pub type ResultRow<'a> = Option<(Ended<'a>, &'static str)>;

/// Returns a row with this outcome, if it is a decision.
fn ended_row(sheet: &MatchSheet, outcome: Outcome) -> ResultRow<'_>
    ensures { ⟦<ResultRow<'static> as Text>⟧.bytes result ≡ rows.result_row sheet.now outcome }
{
    if is_decided(outcome) {
        Some((ended(sheet, outcome), "\n"))
    } else {
        None
    }
}

/// Returns a row with the result of a match, if it is decided.
pub fn result_row<'a>(sheet: &'a MatchSheet, score: &Match) -> ResultRow<'a>
    ensures { ForEachHistory score.now (λ n h.
        ⟦<ResultRow<'static> as Text>⟧.bytes result ≡ rows.result_row sheet.now (outcome n h)) }
{
    ended_row(sheet, score.result())
}
