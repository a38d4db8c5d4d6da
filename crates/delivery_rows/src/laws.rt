//! The laws of the rows of deliveries.
//!
//! These functions do nothing: each stands for the laws that it ensures.

ghost use Rattle.std.specs.Prelude.{◌≡◌, ℕ, List, false};
ghost use Rattle.notation.specs.declared.entry.Entry.{Entry};
ghost use Rattle.corrections.specs.Legal.{IsLegalBook};
ghost use Rattle.cards.specs.Sheet.{Sheet};
ghost use Rattle.delivery_rows.specs.Cells.{cell};
ghost use Rattle.delivery_rows.specs.Laws.{ReadsBack, RowsAddUp, RowsAreDeliveries, begins_formula};

/// The rows of an innings are the deliveries of the exported value, one by one and in order: each row has the batters, bowler,
/// runs and extras of its delivery. With the penalty runs of the other table, the rows add up to the innings' total.
pub fn rows_are_deliveries()
    ensures each { (s : Sheet) → (day : List ℕ) → (book : List Entry) → RowsAreDeliveries s day book }
    ensures sums { (s : Sheet) → (day : List ℕ) → (n : ℕ) → (book : List Entry) → IsLegalBook n book → RowsAddUp s day book }
{}

/// No cell of a text begins like a formula, and different texts have different cells.
pub fn no_cell_is_a_formula()
    ensures plain { (text : List ℕ) → begins_formula (cell text) ≡ false }
    ensures apart { (text other : List ℕ) → cell text ≡ cell other → text ≡ other }
{}

/// A CSV reader reads the cells of each row back.
pub fn rows_read_back()
    ensures { (rows : List (List (List ℕ))) → ReadsBack rows }
{}
