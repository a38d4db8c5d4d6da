//! What can differ between two stages of a match.

use notation::{Player, Side};

/// The part of a player's figures that differs.
#[derive(Clone, Copy)]
pub enum Part {
    /// His fate as a batter.
    Fate,
    /// His runs and balls faced, if his fate is the same.
    Figures,
    /// His overs, maidens, runs, wickets, wide runs and no balls as a bowler.
    Bowling,
}

/// Something that can differ between two stages; innings are numbered from 0.
#[derive(Clone, Copy)]
pub enum Change {
    /// A part of a player's figures, in an innings and for a side.
    Player(Part, usize, Side, Player),
    /// A side's total, wickets and overs in an innings.
    Total(usize, Side),
    Result,
    /// Who has the strike.
    Strike,
}
