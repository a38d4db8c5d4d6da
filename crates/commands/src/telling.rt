//! What standard error is told when a product is printed.

use std::io::Write;

/// Writes these words to standard error. A write that fails is no fault.
pub fn tell(rt: &HostRuntime, words: &str) {
    let _ = write!(rt.stderr(), "{words}");
}
