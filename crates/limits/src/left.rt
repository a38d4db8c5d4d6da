//! Overs and deliveries left of an innings, runs needed, and the current powerplay.

ghost use Rattle.std.specs.Prelude.{◌≡◌, ◌<◌};
ghost use Rattle.match_laws.specs.Stands.{ForEachHistory, begun_in};
ghost use Rattle.limits.specs.Figures as laws;

use crate::allowed::Limits;
use match_laws::Match;

/// Returns how many of an innings' overs are left: those that aren't called.
pub fn overs_left(score: &Match, innings: usize, overs: u16) -> u32
    requires { innings < begun_in score.now }
    ensures { ForEachHistory score.now (λ n h. result ≡ laws.overs_left overs h innings) }
{
    let (called, _) = score.overs(innings);
    u32::from(overs).saturating_sub(called)
}

/// Returns how many deliveries are left of an innings' overs: six for each over left, less those that count in the
/// open over, at most six of them.
pub fn deliveries_left(score: &Match, innings: usize, overs: u16) -> u32
    requires { innings < begun_in score.now }
    ensures { ForEachHistory score.now (λ n h. result ≡ laws.deliveries_left overs h innings) }
{
    let (called, since) = score.overs(innings);
    let left = u32::from(overs).saturating_sub(called);
    (6 * left).saturating_sub(since.min(6))
}

/// Returns how many more runs the side that bats last needs to win, if there is a target.
pub fn runs_needed(score: &Match) -> Option<u32>
    ensures { ForEachHistory score.now (λ n h. result ≡ laws.runs_needed n h) }
{
    let begun = score.begun();
    if begun == 0 {
        return None;
    }
    let runs = score.target()?;
    Some(runs.saturating_sub(score.total(begun - 1)))
}

/// Returns which powerplay the over in progress, or else the next one, is in. There is none if no innings is open.
pub fn powerplay_now(score: &Match, limits: &Limits, innings: usize) -> Option<usize>
    requires { innings < begun_in score.now }
    ensures { ForEachHistory score.now (λ n h. result ≡ laws.powerplay_now limits.now h innings) }
{
    if !score.is_open() {
        return None;
    }
    let (called, _) = score.overs(innings);
    limits.powerplay_of(u64::from(called) + 1)
}
