//! Rates: runs an over or a delivery.

ghost use Rattle.std.specs.Prelude.{◌≡◌, ◌*◌, ◌<◌, ◌≤◌, ◌^◌, ◌+◌, Some, IfSome, ℕ};
ghost use Rattle.match_laws.specs.Stands.{ForEachHistory, begun_in};
ghost use Rattle.limits.specs.Rates as laws;
ghost use Rattle.limits.specs.Rates.{IsNearest};
ghost use Rattle.limits.specs.Figures.{run_rate};

use match_laws::Match;
use std::fmt;

/// A number of hundredths, written with two decimal places.
#[derive(Clone, Copy)]
pub struct TwoPlaces {
    pub hundredths: u64,
}

impl fmt::Display for TwoPlaces {
    ghost use Rattle.limits.specs.Rates.{two_places};

    ghost output = { λ number. Some (two_places number.hundredths) };

    /// Writes the number with two decimal places.
    fn fmt<W: fmt::Write>(&self, f: &mut fmt::Formatter<W>) -> fmt::Result {
        let whole = self.hundredths / 100;
        let tenths = self.hundredths / 10 % 10;
        let rest = self.hundredths % 10;
        write!(f, "{whole}.{tenths}{rest}")
    }
}

/// Returns a fraction in hundredths, with halves rounded up.
fn hundredths(number: u64, divisor: u32) -> u64
    requires number { number < 2 ^ 35 }
    requires divisor { 0 < divisor }
    ensures { result ≡ laws.hundredths number divisor }
{
    (200 * number + u64::from(divisor)) / (2 * u64::from(divisor))
}

/// Returns the rate of these runs off these deliveries, in hundredths of a run for an over of six deliveries, or none
/// if there are no deliveries.
pub fn an_over(runs: u32, deliveries: u32) -> Option<u64>
    ensures { result ≡ laws.an_over runs deliveries }
{
    if deliveries == 0 {
        return None;
    }
    Some(hundredths(6 * u64::from(runs), deliveries))
}

/// Returns the rate of these runs off these deliveries, in hundredths of a run for one delivery, if there are any.
pub fn a_ball(runs: u32, deliveries: u32) -> Option<u64>
    ensures { result ≡ laws.a_ball runs deliveries }
{
    if deliveries == 0 {
        return None;
    }
    Some(hundredths(u64::from(runs), deliveries))
}

/// Returns the run rate of an innings, in hundredths of a run an over. A called over counts as six deliveries.
pub fn run_rate(score: &Match, innings: usize) -> Option<u64>
    requires { innings < begun_in score.now }
    ensures { ForEachHistory score.now (λ n h. result ≡ run_rate h innings) }
{
    let (called, since) = score.overs(innings);
    an_over(score.total(innings), 6 * called + since)
}

/// States the law that a fraction in hundredths is within half a hundredth of the fraction. It does nothing.
pub fn hundredths_are_nearest()
    ensures { (n d : ℕ) → 0 < d → IsNearest n d (laws.hundredths n d) }
{}
