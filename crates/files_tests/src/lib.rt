//! Tests of votes files and files of slots, on disks that fail.
#![tactic(auto)]

#[cfg(test)]
mod tests;
