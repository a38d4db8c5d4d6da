//! The options that a board starts with.

ghost use Rattle.std.specs.Prelude.{◌≡◌};
ghost use Rattle.toml.specs.View.{table_view};
ghost use Rattle.station_table.specs.Begun as begun;

use crate::lookup::{board_in, or_else, text_in};
use toml::Table;

/// The options of a board's command, or those that it starts with: its own address, both desks' addresses, and the key's file.
#[derive(Clone, Copy)]
pub struct BoardOptions<'a> {
    pub at: Option<&'a str>,
    pub a: Option<&'a str>,
    pub b: Option<&'a str>,
    pub key: Option<&'a str>,
}

/// Returns the options that the board of this index (counted from 0) starts with: those that are named, and for the others the
/// values of its sheet's `[stations]`.
pub fn board_begun<'a>(index: usize, named: &BoardOptions<'a>, sheet: &'a Table) -> BoardOptions<'a>
    ensures { begun.board_of result ≡ begun.board_begun_with index (begun.board_of named.now) (table_view sheet.now) }
{
    BoardOptions {
        at: or_else(named.at, board_in(sheet, index)),
        a: or_else(named.a, text_in(sheet, "a")),
        b: or_else(named.b, text_in(sheet, "b")),
        key: or_else(named.key, text_in(sheet, "key")),
    }
}
