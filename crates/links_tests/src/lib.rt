//! Tests of the window over the sealed link.
#![tactic(auto)]

#[cfg(test)]
mod tests;
