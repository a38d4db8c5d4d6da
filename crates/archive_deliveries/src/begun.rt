//! The innings that each side began first and last.

ghost use Rattle.std.specs.Prelude.{◌≡◌, ◌∷◌, [], None, Some};
ghost use Rattle.ball_laws.specs.History.{History};
ghost use Rattle.match_laws.specs.History as history;
ghost use Rattle.notation.specs.declared.entry.Plain.TheVariants as plain;
ghost use Rattle.archive_deliveries.specs.Notes as laws;

use notation::Side;

/// The innings that each side began first and last, numbered from 0; `None` for a side that has begun none.
#[derive(Clone, Copy)]
pub struct Begun {
    pub home_first: Option<usize>,
    pub home_latest: Option<usize>,
    pub away_first: Option<usize>,
    pub away_latest: Option<usize>,
}

/// Returns the earlier number, or the other number if there is no earlier one.
fn or_else(earlier: Option<usize>, other: Option<usize>) -> Option<usize>
    ensures { result ≡ history.or_else earlier other }
{
    match earlier {
        Some(number) => Some(number),
        None => other,
    }
}

impl Begun {
    /// Before any innings has begun.
    pub fn none() -> Begun
        ensures { result ≡ laws.begun_of [] }
    {
        Begun {
            home_first: None,
            home_latest: None,
            away_first: None,
            away_latest: None,
        }
    }

    /// Adds an innings of the side, with this number.
    pub fn with(self, side: Side, number: usize) -> Begun
        ensures { (h : History) → self ≡ laws.begun_of h → number ≡ history.begun h
            → result ≡ laws.begun_of (plain.Innings side ∷ h) }
    {
        match side {
            Side::Home => Begun {
                home_first: or_else(self.home_first, Some(number)),
                home_latest: Some(number),
                away_first: or_else(self.away_first, None),
                away_latest: self.away_latest,
            },
            Side::Away => Begun {
                home_first: or_else(self.home_first, None),
                home_latest: self.home_latest,
                away_first: or_else(self.away_first, Some(number)),
                away_latest: Some(number),
            },
        }
    }

    /// Returns the innings that the side began first.
    pub fn first(&self, side: Side) -> Option<usize>
        ensures { result ≡ laws.first_in self.now side }
    {
        match side {
            Side::Home => self.home_first,
            Side::Away => self.away_first,
        }
    }

    /// Returns the innings that the side began last.
    pub fn latest(&self, side: Side) -> Option<usize>
        ensures { result ≡ laws.latest_in self.now side }
    {
        match side {
            Side::Home => self.home_latest,
            Side::Away => self.away_latest,
        }
    }
}
