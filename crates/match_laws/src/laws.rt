//! How a match's figures and its result agree with one another.
//!
//! These functions do nothing: each is there for the laws that it ensures.

ghost use Rattle.std.specs.Prelude.{ℕ, ◌≤◌};
ghost use Rattle.notation.specs.declared.entry.Side.{Side};
ghost use Rattle.ball_laws.specs.History.{History, IsInRange};
ghost use Rattle.match_laws.specs.declared.standing.Standing.{Standing};
ghost use Rattle.match_laws.specs.Chases.{BatsLast, ChaseTells, WonByWickets};
ghost use Rattle.match_laws.specs.Refusals.{IsLegal};
ghost use Rattle.match_laws.specs.Stands.{ForEachHistory};
ghost use Rattle.match_laws.specs.Totals.{AddsUp};

/// Ensures that an innings' total is its batters' runs plus the extras, and also the runs debited to its bowlers
/// plus the byes, the leg byes and the penalty runs.
pub fn totals_add_up()
    ensures histories { (n : ℕ) → (h : History) → IsLegal n h → IsInRange h
        → (i : ℕ) → AddsUp h i }
    ensures matches { (m : Standing) → ForEachHistory m (λ n h. (i : ℕ) → AddsUp h i) }
{}

/// Ensures that a side that bats last has won exactly if the total of its innings, in play or ended, reaches the runs
/// that it needs, and that it has won by wickets exactly if that innings is in play and its total reaches the target.
pub fn chases_end_at_the_target()
    ensures last_innings { (n : ℕ) → (h : History) → n ≤ 2 → IsLegal n h
        → (side : Side) → BatsLast n h side → ChaseTells n h side }
    ensures by_wickets { (n : ℕ) → (h : History) → n ≤ 2 → IsLegal n h
        → (side : Side) → (left : ℕ) → WonByWickets n h side left }
    ensures matches { (m : Standing) → ForEachHistory m (λ n h.
        (side : Side) → (left : ℕ) → WonByWickets n h side left) }
{}
