//! What a match shows of each player, of each side's innings and of who has the strike.

ghost use Rattle.std.specs.Prelude.{◌≡◌, ◌<◌, true};
ghost use Rattle.match_laws.specs.History as history;
ghost use Rattle.match_laws.specs.Stands.{ForEachHistory, begun_in};
ghost use Rattle.changes.specs.Stage as stages;

use match_laws::{BattingRow, BowlingRow, Match, opponent};
use notation::{Player, Side};

/// How a side's innings stands: its total, wickets, called overs and counting deliveries since.
#[derive(Clone, Copy)]
pub struct Total {
    pub total: u32,
    pub wickets: u32,
    pub overs: u32,
    pub balls: u32,
}

/// A player of the batting side.
#[derive(Clone, Copy)]
pub struct Batter {
    pub side: Side,
    pub player: Player,
}

/// The figures of a player who hasn't batted.
const NO_BATTING: BattingRow = BattingRow {
    runs: 0,
    faced: 0,
    fours: 0,
    sixes: 0,
    fate: None,
};

/// The figures of a player who hasn't bowled.
const NO_BOWLING: BowlingRow = BowlingRow {
    overs: 0,
    balls: 0,
    maidens: 0,
    runs: 0,
    wickets: 0,
    wides: 0,
    noballs: 0,
};

/// Whether two sides are the same.
pub fn is_same_side(one: Side, other: Side) -> bool
    ensures { result ≡ history.side_eq one other }
{
    matches!(
        (one, other),
        (Side::Home, Side::Home) | (Side::Away, Side::Away)
    )
}

/// Whether the side bats in an innings that has begun.
fn is_batting_in(score: &Match, innings: usize, side: Side) -> bool
    ensures value { ForEachHistory score.now (λ n h. result ≡ stages.is_batting_in h innings side) }
    ensures begun { result ≡ true → innings < begun_in score.now }
{
    innings < score.begun() && is_same_side(score.side(innings), side)
}

/// Whether the side fields in an innings that has begun.
fn is_fielding_in(score: &Match, innings: usize, side: Side) -> bool
    ensures value { ForEachHistory score.now (λ n h. result ≡ stages.is_fielding_in h innings side) }
    ensures begun { result ≡ true → innings < begun_in score.now }
{
    innings < score.begun() && is_same_side(opponent(score.side(innings)), side)
}

/// Returns the figures of the side's player as a batter in an innings.
pub fn batting_in(score: &Match, innings: usize, side: Side, player: Player) -> BattingRow
    ensures { ForEachHistory score.now (λ n h. result ≡ stages.batting_in h innings side player) }
{
    if is_batting_in(score, innings, side) {
        score.batting_row(innings, player)
    } else {
        NO_BATTING
    }
}

/// Returns the figures of the side's player as a bowler in an innings.
pub fn bowling_in(score: &Match, innings: usize, side: Side, player: Player) -> BowlingRow
    ensures { ForEachHistory score.now (λ n h. result ≡ stages.bowling_in h innings side player) }
{
    if is_fielding_in(score, innings, side) {
        score.bowling_row(innings, player)
    } else {
        NO_BOWLING
    }
}

/// Returns how an innings that has begun stands.
fn total_of(score: &Match, innings: usize) -> Total
    requires { innings < begun_in score.now }
    ensures { ForEachHistory score.now (λ n h. result ≡ stages.total_of h innings) }
{
    let (overs, balls) = score.overs(innings);
    Total {
        total: score.total(innings),
        wickets: score.wickets(innings),
        overs,
        balls,
    }
}

/// Returns how the side's innings stands, if it has begun.
pub fn total_in(score: &Match, innings: usize, side: Side) -> Option<Total>
    ensures { ForEachHistory score.now (λ n h. result ≡ stages.total_in h innings side) }
{
    if is_batting_in(score, innings, side) {
        Some(total_of(score, innings))
    } else {
        None
    }
}

/// Returns the batter who has the strike, if there is one.
pub fn striker(score: &Match) -> Option<Batter>
    ensures { ForEachHistory score.now (λ n h. result ≡ stages.striker h) }
{
    let begun = score.begun();
    if begun == 0 {
        return None;
    }
    let side = score.side(begun - 1);
    match score.ends().striker {
        None => None,
        Some(player) => Some(Batter { side, player }),
    }
}
