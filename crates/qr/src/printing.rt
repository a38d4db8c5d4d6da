//! A QR code, printed.

ghost use Rattle.std.specs.Prelude.{◌≡◌, Some};
ghost use Rattle.qr.specs.Print as print;

use crate::code::Code;
use std::fmt;

/// The number of light modules around a code at each side.
const MARGIN: usize = 4;

/// Returns two modules, one above the other. Two dark ones are a space on black, as some fonts' blocks don't fill their cell.
fn block(upper: bool, lower: bool) -> &'static str
    ensures { result.now ≡ print.block upper lower }
{
    match (upper, lower) {
        (false, false) => " ",
        (false, true) => "▄",
        (true, false) => "▀",
        (true, true) => "\x1b[48;5;16m \x1b[48;5;231m",
    }
}

impl Code {
    /// Whether a module is dark; rows and columns are counted from the margin's edge.
    fn is_dark_within(&self, row: usize, column: usize) -> bool
        ensures { result ≡ print.is_dark_within self.now row column }
    {
        if row < MARGIN || column < MARGIN {
            false
        } else {
            self.is_dark(row - MARGIN, column - MARGIN)
        }
    }

    /// Returns the character at a row and column of the print.
    fn block_at(&self, row: u8, column: u8) -> &'static str
        ensures { result.now ≡ print.block_at self.now row column }
    {
        let upper = 2 * usize::from(row);
        let column = usize::from(column);
        block(
            self.is_dark_within(upper, column),
            self.is_dark_within(upper + 1, column),
        )
    }
}

/// The characters of a row of the print.
#[derive(Clone, Copy)]
struct Blocks<'a> {
    code: &'a Code,
    row: u8,
}

impl fmt::Display for Blocks<'_> {
    ghost output = { λ b. Some (print.blocks b.code.now b.row) };

    fn fmt<W: fmt::Write>(&self, f: &mut fmt::Formatter<W>) -> fmt::Result {
        for column in 0..41 {
            f.write_str(self.code.block_at(self.row, column))?;
        }
        Ok(())
    }
}

impl fmt::Display for Code {
    ghost output = { λ code. Some (print.printed code) };

    /// Writes the code as 19 rows, each with a line feed, in black and white from the 256 colours, which themes don't change.
    /// Half of the margin is left out above and below, so that the code fits a screen of 24 rows.
    fn fmt<W: fmt::Write>(&self, f: &mut fmt::Formatter<W>) -> fmt::Result {
        for row in 0..19 {
            let blocks = Blocks {
                code: self,
                row: row + 1,
            };
            write!(f, "\x1b[38;5;16;48;5;231m{blocks}\x1b[0m\n")?;
        }
        Ok(())
    }
}
