//! Plans: corrections that a book takes one after another, for wanted ones
//! that are legal only together; and what is asked after the word `plan`.
#![tactic(auto)]

mod bowler;
mod draft;
mod laws;
mod naming;
mod plan;
mod planning;
mod scoring;
mod search;
mod standing;
mod target;

pub use laws::no_plan_against_the_laws;
pub use plan::{Plan, plan_of};
pub use planning::{Planned, plan_asked};
