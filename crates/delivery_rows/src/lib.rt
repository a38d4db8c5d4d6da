//! The deliveries of a match as CSV, for spreadsheets and databases: a row for each delivery of the export, and a second table
//! for the penalty runs that no delivery carries.
#![tactic(auto, using(crate::proofs::Putting::cell_parts), unfolding(crate::specs::Cells::rows_text, crate::specs::Cells::cells_text))]

mod cells;
mod day;
mod deliveries;
mod gone;
mod innings;
mod laws;
mod penalties;
mod standing;
mod table;
mod table_innings;

pub use laws::{no_cell_is_a_formula, rows_are_deliveries, rows_read_back};
pub use table::{Table, table_of};
