//! What a board's value shows of its match.
//!
//! This function does nothing: it stands for the laws that it ensures.

ghost use Rattle.std.specs.Prelude.{ℕ};
ghost use Rattle.ball_laws.specs.History.{History, IsInRange};
ghost use Rattle.match_laws.specs.Refusals.{IsLegal};
ghost use Rattle.falls.specs.Laws.{FallsStand};
ghost use Rattle.scoreboard.specs.Laws.{AddsUp, CountsThisOver};

/// The runs of an innings are those of its batters plus its extras; it has as many falls as wickets, each with the over and the
/// ball at which that player was out; and as many deliveries of this over count as the innings' overs have balls behind the
/// point.
pub fn boards_add_up()
    ensures innings { (n : ℕ) → (h : History) → IsLegal n h → IsInRange h → (i : ℕ) → AddsUp h i }
    ensures falls { (n : ℕ) → (h : History) → IsLegal n h → (i : ℕ) → FallsStand h i }
    ensures this_over { (h : History) → CountsThisOver h }
{}
