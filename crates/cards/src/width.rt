//! The width of a scorer's rows.

ghost use Rattle.std.specs.Prelude.{◌≡◌, ◌≤◌, ◌↔◌, IfSome, IsSome};
ghost use Rattle.cards.specs.Sheet as sheets;

use std::marker::Model;

/// The default number of columns of a row.
const USUAL: usize = 80;

/// The number of columns of a scorer's rows, 60 to 200.
#[derive(Clone, Copy)]
pub struct Columns {
    number: usize,
}

impl Model for Columns {
    ghost use Rattle.std.specs.Prelude.{ℕ, ◌≤◌};
    ghost use Rattle.cards.specs.Sheet.{least_columns, most_columns};

    ghost Value = { ℕ };

    ghost view = { λ c. c.number };

    ghost invariant = { λ c. (least_columns ≤ c.number) × (c.number ≤ most_columns) };

    ghost inverse = { λ n. record { number = n } };
}

impl Columns {
    /// Returns this number of columns, or `None` unless it is 60 to 200.
    pub fn new(number: usize) -> Option<Columns>
        ensures valid { IsSome result ↔ ((sheets.least_columns ≤ number) × (number ≤ sheets.most_columns)) }
        ensures value { IfSome result (λ columns. columns ≡ number) }
    {
        if (60..=200).contains(&number) {
            Some(Columns { number })
        } else {
            None
        }
    }

    /// Returns the default of 80 columns.
    pub fn usual() -> Columns
        ensures { result ≡ sheets.usual_columns }
    {
        Columns { number: USUAL }
    }

    /// Returns the number of columns.
    pub fn number(self) -> usize
        ensures value { result ≡ self }
        ensures in_range { (sheets.least_columns ≤ result) × (result ≤ sheets.most_columns) }
    {
        self.number
    }
}
