//! Whether something differs between two stages of a match.

ghost use Rattle.std.specs.Prelude.{◌≡◌};
ghost use Rattle.match_laws.specs.declared.rows.Fate.TheVariants as Fates;
ghost use Rattle.changes.specs.Changes as changes;
ghost use Rattle.changes.specs.Stage.{ForBoth};

use crate::change::{Change, Part};
use crate::stage::{Batter, Total, batting_in, bowling_in, is_same_side, striker, total_in};
use match_laws::{BattingRow, BowlingRow, Fate, Match, Outcome};
use notation::{Leave, Out, Player, Side};

/// Whether a batter's fate is this dismissal off this bowler's delivery, as a card shows it.
fn is_out_so(out: Out, bowler: Player, fate: Fate) -> bool
    ensures { result ≡ changes.is_same_fate (Fates.Out out bowler) fate }
{
    match fate {
        Fate::Out(then, by) => {
            out.how == then.how && out.fielder == then.fielder && bowler == by
        }
        _ => false,
    }
}

/// Whether a batter's fate is that he left in this way.
fn has_left_so(way: Leave, fate: Fate) -> bool
    ensures { result ≡ changes.is_same_fate (Fates.Left way) fate }
{
    match fate {
        Fate::Left(then) => way == then,
        _ => false,
    }
}

/// Whether two batters' fates are alike, as a card shows them.
fn is_same_fate(one: Fate, other: Fate) -> bool
    ensures { result ≡ changes.is_same_fate one other }
{
    match one {
        Fate::NotOut => matches!(other, Fate::NotOut),
        Fate::Hurt => matches!(other, Fate::Hurt),
        Fate::Out(out, bowler) => is_out_so(out, bowler, other),
        Fate::Left(way) => has_left_so(way, other),
    }
}

fn are_same_fates(one: Option<Fate>, other: Option<Fate>) -> bool
    ensures { result ≡ changes.are_same_fates one other }
{
    match (one, other) {
        (None, None) => true,
        (Some(one), Some(other)) => is_same_fate(one, other),
        _ => false,
    }
}

fn is_same_batting(one: &BattingRow, other: &BattingRow) -> bool
    ensures { result ≡ changes.is_same_batting one.now other.now }
{
    one.runs == other.runs && one.faced == other.faced
}

/// Whether two bowlers have the same wide runs, and the same number of no balls.
pub fn is_same_wides(one: &BowlingRow, other: &BowlingRow) -> bool
    ensures { result ≡ changes.is_same_wides one.now other.now }
{
    one.wides == other.wides && one.noballs == other.noballs
}

fn is_same_bowling(one: &BowlingRow, other: &BowlingRow) -> bool
    ensures { result ≡ changes.is_same_bowling one.now other.now }
{
    one.overs == other.overs
        && one.balls == other.balls
        && one.maidens == other.maidens
        && one.runs == other.runs
        && one.wickets == other.wickets
        && is_same_wides(one, other)
}

fn is_same_total(one: &Total, other: &Total) -> bool
    ensures { result ≡ changes.is_same_total one.now other.now }
{
    one.total == other.total
        && one.wickets == other.wickets
        && one.overs == other.overs
        && one.balls == other.balls
}

fn are_same_totals(one: Option<Total>, other: Option<Total>) -> bool
    ensures { result ≡ changes.are_same_totals one other }
{
    match (one, other) {
        (None, None) => true,
        (Some(one), Some(other)) => is_same_total(&one, &other),
        _ => false,
    }
}

fn are_same_batters(one: Option<Batter>, other: Option<Batter>) -> bool
    ensures { result ≡ changes.are_same_batters one other }
{
    match (one, other) {
        (None, None) => true,
        (Some(one), Some(other)) => {
            is_same_side(one.side, other.side) && one.player == other.player
        }
        _ => false,
    }
}

fn is_same_result(one: Outcome, other: Outcome) -> bool
    ensures { result ≡ changes.is_same_result one other }
{
    match (one, other) {
        (Outcome::Undecided, Outcome::Undecided) => true,
        (Outcome::Draw, Outcome::Draw) => true,
        (Outcome::Tie, Outcome::Tie) => true,
        (Outcome::Runs(side, by), Outcome::Runs(then, count)) => {
            is_same_side(side, then) && by == count
        }
        (Outcome::Wickets(side, by), Outcome::Wickets(then, count)) => {
            is_same_side(side, then) && by == count
        }
        (Outcome::InningsAnd(side, by), Outcome::InningsAnd(then, count)) => {
            is_same_side(side, then) && by == count
        }
        (Outcome::PenaltyRuns(side), Outcome::PenaltyRuns(then)) => is_same_side(side, then),
        _ => false,
    }
}

fn fates_differ(was: &BattingRow, now: &BattingRow) -> bool
    ensures { result ≡ changes.fates_differ was.now now.now }
{
    !are_same_fates(was.fate, now.fate)
}

fn figures_differ(was: &BattingRow, now: &BattingRow) -> bool
    ensures { result ≡ changes.figures_differ was.now now.now }
{
    are_same_fates(was.fate, now.fate) && !is_same_batting(was, now)
}

/// Whether this part of a side's player differs in an innings.
fn part_differs(
    part: Part,
    was: &Match,
    now: &Match,
    innings: usize,
    side: Side,
    player: Player,
) -> bool
    ensures { ForBoth was.now now.now (λ w n. result ≡ changes.part_differs part w n innings side player) }
{
    match part {
        Part::Fate => fates_differ(
            &batting_in(was, innings, side, player),
            &batting_in(now, innings, side, player),
        ),
        Part::Figures => figures_differ(
            &batting_in(was, innings, side, player),
            &batting_in(now, innings, side, player),
        ),
        Part::Bowling => !is_same_bowling(
            &bowling_in(was, innings, side, player),
            &bowling_in(now, innings, side, player),
        ),
    }
}

/// Whether this change differs between two stages of a match.
pub fn differs(was: &Match, now: &Match, change: &Change) -> bool
    ensures { ForBoth was.now now.now (λ w n. result ≡ changes.differs w n change.now) }
{
    match *change {
        Change::Player(part, innings, side, player) => {
            part_differs(part, was, now, innings, side, player)
        }
        Change::Total(innings, side) => {
            !are_same_totals(total_in(was, innings, side), total_in(now, innings, side))
        }
        Change::Result => !is_same_result(was.result(), now.result()),
        Change::Strike => !are_same_batters(striker(was), striker(now)),
    }
}
