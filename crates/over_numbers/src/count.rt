//! How far an innings has come.

ghost use Rattle.std.specs.Prelude.{◌≡◌, ◌∷◌, ◌+◌, ◌≤◌, []};
ghost use Rattle.notation.specs.declared.entry.TheConstants.{PLACES};
ghost use Rattle.ball_laws.specs.History.{History};
ghost use Rattle.over_numbers.specs.Counts as counts;

use notation::Plain;

/// How far an innings has come before the next item.
#[derive(Clone, Copy)]
pub struct Count {
    /// How many innings have begun.
    pub begun: usize,
    /// Whether the innings that began last is open.
    pub is_open: bool,
    /// How many overs were called in that innings.
    pub overs: u32,
    /// How many deliveries were bowled since the last called over, whether they count or not.
    pub balls: u32,
}

impl Count {
    /// Returns the count before the first item.
    pub fn none() -> Count
        ensures { result ≡ counts.counted [] }
    {
        Count {
            begun: 0,
            is_open: false,
            overs: 0,
            balls: 0,
        }
    }

    /// Returns the count after an item.
    pub fn after(self, item: &Plain) -> Count
        requires begun { self.begun ≤ PLACES }
        requires overs { self.overs ≤ PLACES }
        requires balls { self.balls ≤ PLACES }
        ensures count { (h : History) → self ≡ counts.counted h → result ≡ counts.counted (item.now ∷ h) }
        ensures few { (result.begun ≤ self.begun + 1) × (result.overs ≤ self.overs + 1) × (result.balls ≤ self.balls + 1) }
    {
        match item {
            Plain::Innings(_) => Count {
                begun: self.begun + 1,
                is_open: true,
                overs: 0,
                balls: 0,
            },
            Plain::End(_) => Count {
                begun: self.begun,
                is_open: false,
                overs: 0,
                balls: 0,
            },
            Plain::Over => Count {
                begun: self.begun,
                is_open: self.is_open,
                overs: self.overs + 1,
                balls: 0,
            },
            Plain::Ball(_) => Count {
                begun: self.begun,
                is_open: self.is_open,
                overs: self.overs,
                balls: self.balls + 1,
            },
            Plain::Come(_)
            | Plain::Gone(..)
            | Plain::Penalty(..)
            | Plain::Swap
            | Plain::Close
            | Plain::Void => self,
        }
    }

    /// Whether the next item belongs to this over, from 1, of an innings.
    pub fn is_in_over(self, innings: usize, over: u32) -> bool
        requires innings { innings ≤ PLACES }
        requires overs { self.overs ≤ PLACES }
        ensures { result ≡ counts.is_in_over self innings over }
    {
        self.is_open && self.begun == innings + 1 && self.overs + 1 == over
    }
}
