//! Tests of stations as processes, by the clock, with links, keyboards, screens and disks in memory.
#![tactic(auto)]

#[cfg(test)]
mod tests;
