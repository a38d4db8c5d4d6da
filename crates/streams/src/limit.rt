//! How much may be read from the machine.

/// The greatest length of an input or a file, in bytes.
pub const LONGEST_INPUT: usize = 16_777_216;
