//! The state of the match before an item.

ghost use Rattle.std.specs.Prelude.{◌≡◌, ◌+◌, ◌∷◌, [], None, ℕ};
ghost use Rattle.notation.specs.declared.entry.TheConstants.{PLACES};
ghost use Rattle.ball_laws.specs.History.{History};
ghost use Rattle.ball_laws.specs.Laws.{refusal, state_after};
ghost use Rattle.desk_state.specs.inner.Before.{HasCome, IsWithin};

use ball_laws::Crease;
use notation::{Plain, Player};
use over_numbers::Count;

/// The count of the match and the batters at the crease, before an item.
#[derive(Clone, Copy)]
pub struct Before {
    pub count: Count,
    pub crease: Crease,
}

impl Before {
    /// Before the first item.
    pub fn none() -> Before
        ensures come { HasCome [] result }
        ensures within { IsWithin 0 result }
    {
        Before {
            count: Count::none(),
            crease: Crease::empty(),
        }
    }

    /// Returns the batter at the end that is bowled to.
    pub fn striker(&self) -> Option<Player>
        ensures { (h : History) → HasCome h self.now → result ≡ (state_after h).ends.striker }
    {
        self.crease.ends().striker
    }

    /// Returns the state after an item that the Laws accept.
    pub fn after(&self, item: &Plain) -> Before
        requires { IsWithin PLACES self.now }
        ensures come { (h : History) → HasCome h self.now → refusal (state_after h) item.now ≡ None → HasCome (item.now ∷ h) result }
        ensures within { (k : ℕ) → IsWithin k self.now → IsWithin (k + 1) result }
    {
        let mut crease = self.crease;
        if crease.refusal(item).is_none() {
            crease.take(item);
        }
        Before {
            count: self.count.after(item),
            crease,
        }
    }
}
