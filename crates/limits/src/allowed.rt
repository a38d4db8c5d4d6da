//! The limits of a sheet.

ghost use Rattle.std.specs.Prelude.{◌≡◌};
ghost use Rattle.limits.specs.Limits as laws;

use crate::powerplay::Powerplay;
use std::alloc::Global;
use std::marker::Model;

/// The limits of a sheet. Each may be absent.
pub struct Limits {
    overs: Vec<u16>,
    overs_a_bowler: Option<u16>,
    free_hits: bool,
    powerplays: Vec<Powerplay>,
}

// one step for a caller that drops it, instead of one for each part
impl Drop for Limits {
    fn drop(self) {
        let Limits {
            overs: _,
            overs_a_bowler: _,
            free_hits: _,
            powerplays: _,
        } = self;
    }
}

impl Model for Limits {
    ghost use Rattle.limits.specs.Limits as laws;

    ghost Value = { laws.Limits };

    ghost view = { λ l. record {
      overs = l.overs.items;
      overs_a_bowler = l.overs_a_bowler;
      free_hits = l.free_hits;
      powerplays = l.powerplays.items;
    } };
}

impl Limits {
    /// Returns limits of these parts. `overs` has a number for each innings, in order; the last holds for later innings too.
    pub(crate) fn new(
        overs: Vec<u16>,
        overs_a_bowler: Option<u16>,
        free_hits: bool,
        powerplays: Vec<Powerplay>,
    ) -> Limits
        ensures overs { result.overs ≡ overs.items }
        ensures overs_a_bowler { result.overs_a_bowler ≡ overs_a_bowler }
        ensures free_hits { result.free_hits ≡ free_hits }
        ensures powerplays { result.powerplays ≡ powerplays.items }
    {
        Limits {
            overs,
            overs_a_bowler,
            free_hits,
            powerplays,
        }
    }

    /// Returns the limits of a sheet that sets none. It allocates no memory.
    pub fn none(alloc: Global) -> Limits
        ensures { result ≡ laws.no_limits }
    {
        Limits::new(Vec::new(alloc), None, false, Vec::new(alloc))
    }

    /// Returns how many overs the innings has, if the sheet limits them. Innings are numbered from 0.
    pub fn overs_for(&self, innings: usize) -> Option<u16>
        ensures { result ≡ laws.overs_for self.now innings }
    {
        let last = self.overs.len().saturating_sub(1);
        self.overs.as_slice().get(innings.min(last)).copied()
    }

    /// Returns how many overs each innings has, in order. The last number holds for later innings too.
    pub fn overs(&self) -> &[u16]
        ensures { result.now ≡ self.now.overs }
    {
        self.overs.as_slice()
    }

    /// Returns how many overs a bowler may bowl in an innings, if the sheet limits them.
    pub fn overs_a_bowler(&self) -> Option<u16>
        ensures { result ≡ self.now.overs_a_bowler }
    {
        self.overs_a_bowler
    }

    /// Whether the delivery after a No ball is a free hit.
    pub fn free_hits(&self) -> bool
        ensures { result ≡ self.now.free_hits }
    {
        self.free_hits
    }

    /// Returns the powerplays of an innings.
    pub fn powerplays(&self) -> &[Powerplay]
        ensures { result.now ≡ self.now.powerplays }
    {
        self.powerplays.as_slice()
    }

    /// Returns which powerplay the over is in, if any. Powerplays and overs are numbered from 1.
    pub fn powerplay_of(&self, over: u64) -> Option<usize>
        ensures { result ≡ laws.powerplay_of self.now over }
    {
        powerplay_in(self.powerplays.as_slice(), over)
    }
}

/// Whether the powerplay includes the over.
fn has_over(powerplay: Powerplay, over: u64) -> bool
    ensures { result ≡ laws.has_over over powerplay }
{
    u64::from(powerplay.first) <= over && over <= u64::from(powerplay.last)
}

/// Returns the number, from 1, of the first powerplay that includes the over.
#[tactic(auto, using(crate::proofs::PowerplayLemmas::powerplay_next, crate::proofs::PowerplayLemmas::powerplay_none))]
fn powerplay_in(powerplays: &[Powerplay], over: u64) -> Option<usize>
    ensures { result ≡ laws.powerplay_from over 1 powerplays.now }
{
    for index in 0..powerplays.len() {
        if has_over(powerplays[index], over) {
            return Some(index + 1);
        }
    }
    None
}
