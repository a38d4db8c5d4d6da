//! Where the bits of the codewords are placed.

ghost use Rattle.std.specs.Prelude.{◌≡◌, ◌<◌, ℕ, false, length, slice_index_or};
ghost use Rattle.qr.specs.Modules as specs;
ghost use Rattle.qr.specs.Modules.{IsPlaced};

use crate::pattern::{MODULES, PATTERN};

/// The number of steps of the placement path.
pub const STEPS: usize = 1056;

/// Whether a module is a data module.
fn is_data(at: usize) -> bool
    requires { at < MODULES }
    ensures { result ≡ specs.is_data at }
{
    PATTERN[at] == b'-'
}

/// Whether a module is dark in every code.
fn is_dark_in_all(at: usize) -> bool
    requires { at < MODULES }
    ensures { result ≡ specs.is_dark_in_all at }
{
    PATTERN[at] == b'#'
}

/// Returns the module at a step of the placement path: up and down in columns of two modules, from the right, without the
/// column of the timing pattern.
fn place(step: usize) -> usize
    requires { step < STEPS }
    ensures place { result ≡ specs.place step }
    ensures within { result < MODULES }
{
    let pair = step / 66;
    let right = if pair < 13 {
        32 - 2 * pair
    } else {
        31 - 2 * pair
    };
    let down = step % 66 / 2;
    let row = if pair % 2 == 0 { 32 - down } else { down };
    33 * row + right - step % 2
}

/// Whether a bit of the codewords is set; the highest bit of each comes first, and no bit after the last codeword is set.
fn is_set(codewords: &[u8], bit: usize) -> bool
    ensures { result ≡ specs.is_set codewords.now bit }
{
    let codeword = if bit / 8 < codewords.len() {
        codewords[bit / 8]
    } else {
        0
    };
    (codeword >> (7 - bit % 8)) % 2 == 1
}

/// Masks a module, or unmasks a masked one. The mask inverts every second module, like a chessboard: as a row has 33 modules,
/// these are the ones at even places.
fn masked(at: usize, dark: bool) -> bool
    ensures { result ≡ specs.masked at dark }
{
    if at % 2 == 0 { !dark } else { dark }
}

/// Returns the modules that are dark in every code.
fn dark_in_all() -> [bool; 1089]
    ensures len { length result ≡ MODULES }
    ensures modules { (at : ℕ) → at < MODULES → slice_index_or result at false ≡ specs.is_dark_in_all at }
{
    let mut modules = [false; MODULES];
    for at in 0..MODULES {
        modules[at] = is_dark_in_all(at);
    }
    modules
}

/// Places codewords: returns for each module of the code whether it is dark.
pub fn placed(codewords: &[u8]) -> [bool; 1089]
    ensures { IsPlaced codewords.now result }
{
    let mut modules = dark_in_all();
    let mut bit = 0;
    for step in 0..STEPS {
        let at = place(step);
        if is_data(at) {
            modules[at] = masked(at, is_set(codewords, bit));
            bit += 1;
        }
    }
    modules
}
