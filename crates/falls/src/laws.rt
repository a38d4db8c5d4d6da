//! Which players' wickets the falls are.
//!
//! The function does nothing: it stands for the law that it ensures.

ghost use Rattle.std.specs.Prelude.{ℕ};
ghost use Rattle.ball_laws.specs.History.{History};
ghost use Rattle.match_laws.specs.Refusals.{IsLegal};
ghost use Rattle.falls.specs.Laws.{FallsStand};

/// The falls on an innings' card are those of the items at which its wickets fell, one for each item, in order:
/// the fall at an index has the over and the ball at which that player was out.
pub fn falls_stand()
    ensures { (n : ℕ) → (h : History) → IsLegal n h → (i : ℕ) → FallsStand h i }
{}
