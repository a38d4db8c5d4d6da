//! The score of an innings after a delivery.

ghost use Rattle.std.specs.Prelude.{◌≡◌, IfOk, is_some};
ghost use Rattle.ball_laws.specs.Sums.{one_if};
ghost use Rattle.delivery_rows.specs.Standing as standings;

use archive_deliveries::{Noted, plus, whole_total};
use ball_laws::runs_of;
use notation::{Ball, Leave, Plain};
use std::alloc::AllocError;

/// The score of an innings after a delivery: the over from 0, the delivery's number in it from 1, runs and wickets.
#[derive(Clone, Copy)]
pub struct Standing {
    pub over: u32,
    pub ball: u64,
    pub runs: u64,
    pub wickets: u64,
}

/// Whether a batter left between deliveries and is out.
fn is_out(item: &Plain) -> bool
    ensures { result ≡ standings.is_out item.now }
{
    match item {
        Plain::Gone(Leave::RetiredHurt, _) => false,
        Plain::Gone(..) => true,
        Plain::Innings(_)
        | Plain::Come(_)
        | Plain::Ball(_)
        | Plain::Over
        | Plain::Penalty(..)
        | Plain::Swap
        | Plain::End(_)
        | Plain::Close
        | Plain::Void => false,
    }
}

/// Returns how many wickets these items between deliveries are.
fn fallen(items: &[Noted]) -> usize
    ensures { result ≡ standings.fallen items.now }
{
    items.iter().filter(|noted| is_out(&noted.item)).count()
}

fn own_wicket(ball: &Ball) -> u64
    ensures { result ≡ one_if (is_some ball.now.out) }
{
    match ball.out {
        Some(_) => 1,
        None => 0,
    }
}

/// Returns the wickets that a delivery carries: its own, and those of the items that it carries.
fn wickets_of(early: &[Noted], ball: &Ball, late: &[Noted]) -> Result<u64, AllocError>
    ensures { IfOk result (λ count. count ≡ standings.wickets_of early.now ball.now late.now) }
{
    plus(
        fallen(early) as u64,
        plus(own_wicket(ball), fallen(late) as u64)?,
    )
}

impl Standing {
    /// Returns the score before the first delivery, with these penalty runs.
    pub fn beginning(before: u64) -> Standing
        ensures { result ≡ standings.beginning before }
    {
        Standing {
            over: 0,
            ball: 0,
            runs: before,
            wickets: 0,
        }
    }

    /// Returns how many deliveries an over has had so far.
    fn balls_of(self, over: u32) -> u64
        ensures { result ≡ standings.balls_of self over }
    {
        if over == self.over { self.ball } else { 0 }
    }

    /// Returns the score after a delivery of this over, with the penalty runs that it carries.
    pub fn after(
        self,
        penalty: u64,
        early: &[Noted],
        over: u32,
        ball: &Ball,
        late: &[Noted],
    ) -> Result<Standing, AllocError>
        ensures { IfOk result (λ now. now ≡ standings.after self penalty early.now over ball.now late.now) }
    {
        let total = whole_total(&runs_of(ball), penalty)?;
        let wickets = wickets_of(early, ball, late)?;
        Ok(Standing {
            over,
            ball: plus(self.balls_of(over), 1)?,
            runs: plus(self.runs, total)?,
            wickets: plus(self.wickets, wickets)?,
        })
    }
}
