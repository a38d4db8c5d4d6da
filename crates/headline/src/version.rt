//! The versions of a desk's file.

/// The version of a desk's file.
#[derive(Clone, Copy)]
pub enum FileVersion {
    /// Version 1: slots of 32 bytes.
    Old,
    /// Version 2: slots of 64 bytes.
    New,
}
