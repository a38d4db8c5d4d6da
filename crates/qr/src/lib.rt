//! A text as a QR code (ISO/IEC 18004), printed with half blocks: version 4, so 33 modules a side; level L; bytes; mask 0.
#![tactic(auto)]

mod check;
mod code;
mod content;
mod laws;
mod pattern;
mod placing;
mod printing;

pub use code::{Code, code_of};
pub use laws::{codewords_have_roots, modules_are_determined};
