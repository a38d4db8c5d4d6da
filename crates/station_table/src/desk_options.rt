//! The options that a desk starts with.

ghost use Rattle.std.specs.Prelude.{◌≡◌};
ghost use Rattle.toml.specs.View.{table_view};
ghost use Rattle.station_table.specs.Begun as begun;

use crate::lookup::{board_in, columns_in, columns_or, or_else, text_in};
use agree_core::DeskId;
use cards::Columns;
use toml::Table;

/// The most boards that a desk can have.
pub const MOST_BOARDS: usize = 4;

/// The addresses of a desk's boards, in order.
#[derive(Clone, Copy)]
pub struct BoardNames<'a> {
    pub first: Option<&'a str>,
    pub second: Option<&'a str>,
    pub third: Option<&'a str>,
    pub fourth: Option<&'a str>,
}

/// The options of a desk's command, or those that it starts with: the files of its votes, of their copy and of the key; its own
/// address, the other desk's and the boards'; and the width of its scorer's rows.
#[derive(Clone, Copy)]
pub struct DeskOptions<'a> {
    pub file: Option<&'a str>,
    pub copy: Option<&'a str>,
    pub key: Option<&'a str>,
    pub at: Option<&'a str>,
    pub other: Option<&'a str>,
    pub boards: BoardNames<'a>,
    pub columns: Option<Columns>,
}

/// Returns the name in `[stations]` of a desk's own address.
fn own(desk: DeskId) -> &'static str
    ensures { result.now ≡ begun.own desk }
{
    match desk {
        DeskId::A => "a",
        DeskId::B => "b",
    }
}

/// Returns the name in `[stations]` of the other desk's address.
fn others(desk: DeskId) -> &'static str
    ensures { result.now ≡ begun.others desk }
{
    match desk {
        DeskId::A => "b",
        DeskId::B => "a",
    }
}

/// Returns the default name of a desk's votes file.
fn own_file(desk: DeskId) -> &'static str
    ensures { result.now ≡ begun.own_file desk }
{
    match desk {
        DeskId::A => "a.votes",
        DeskId::B => "b.votes",
    }
}

/// Returns the name in `[stations]` of a desk's copy.
fn own_copy(desk: DeskId) -> &'static str
    ensures { result.now ≡ begun.own_copy desk }
{
    match desk {
        DeskId::A => "copy_a",
        DeskId::B => "copy_b",
    }
}

/// Returns the named boards if at least one is named, and the sheet's boards otherwise.
fn boards_or<'a>(named: BoardNames<'a>, sheet: &'a Table) -> BoardNames<'a>
    ensures { begun.boards_of result
        ≡ begun.boards_or (begun.boards_of named.entry) (begun.boards_in (table_view sheet.now)) }
{
    match named.first {
        Some(_) => named,
        None => BoardNames {
            first: board_in(sheet, 0),
            second: board_in(sheet, 1),
            third: board_in(sheet, 2),
            fourth: board_in(sheet, 3),
        },
    }
}

/// Returns the options that a desk starts with: the named ones, and for the others the values of its sheet's `[stations]`.
pub fn desk_begun<'a>(desk: DeskId, named: &DeskOptions<'a>, sheet: &'a Table) -> DeskOptions<'a>
    ensures { begun.desk_of result ≡ begun.begun_with desk (begun.desk_of named.now) (table_view sheet.now) }
{
    let file = or_else(text_in(sheet, "votes"), Some(own_file(desk)));
    let copy = or_else(text_in(sheet, own_copy(desk)), text_in(sheet, "copy"));
    DeskOptions {
        file: or_else(named.file, file),
        copy: or_else(named.copy, copy),
        key: or_else(named.key, text_in(sheet, "key")),
        at: or_else(named.at, text_in(sheet, own(desk))),
        other: or_else(named.other, text_in(sheet, others(desk))),
        boards: boards_or(named.boards, sheet),
        columns: columns_or(named.columns, columns_in(sheet)),
    }
}
