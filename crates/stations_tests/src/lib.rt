//! Tests of how many calls a desk makes of its disk.
#![tactic(auto)]

#[cfg(test)]
mod tests;
