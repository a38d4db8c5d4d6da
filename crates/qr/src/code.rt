//! A QR code.

ghost use Rattle.std.specs.Prelude.{◌≡◌, ◌≤◌, ◌↔◌, length, IsSome, IfSome};
ghost use Rattle.qr.specs.Modules as specs;
ghost use Rattle.qr.specs.Modules.{IsCodeOf};

use crate::content::{LONGEST, codewords_of};
use crate::pattern::SIDE;
use crate::placing::placed;

/// A QR code. It prints as 19 rows of 41 half blocks, black on white, with the quiet zone of four modules that readers ask for
/// at both sides, and half of that above and below.
#[derive(Clone, Copy)]
pub struct Code {
    modules: [bool; 1089],
}

impl Code {
    /// Whether a module is dark; no module outside the code is.
    pub fn is_dark(&self, row: usize, column: usize) -> bool
        ensures { result ≡ specs.is_dark self.now row column }
    {
        if row < SIDE && column < SIDE {
            self.modules[SIDE * row + column]
        } else {
            false
        }
    }
}

/// Returns the code of a text of at most 78 bytes, and `None` for a longer one.
pub fn code_of(text: &[u8]) -> Option<Code>
    ensures fits { IsSome result ↔ (length text.now ≤ LONGEST) }
    ensures code { IfSome result (IsCodeOf text.now) }
{
    if text.len() > LONGEST {
        return None;
    }
    let codewords = codewords_of(text);
    Some(Code {
        modules: placed(codewords.as_slice()),
    })
}
