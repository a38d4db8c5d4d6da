//! Starting a desk or a board with its sheet's table `[stations]`.

ghost use Rattle.std.specs.Prelude.{◌≡◌, IfOk, Some, option_copied};
ghost use Rattle.desk_command.specs.Lives.{copy_of, desk_of, path_of, sheet_path_of};
ghost use Rattle.board_command.specs.Lives as board;
ghost use Rattle.station_table.specs.Begun as begun;
ghost use Rattle.toml.specs.View.{table_view};

use agree_core::DeskId;
use board_command::{Ended as EndedBoard, start_board};
use cards::SheetFault;
use desk_command::{Ended as EndedDesk, start_desk};
use machine::{Address, MOST_PEERS, addresses_in};
use setup::{Stopped, tell_station};
use sheet_check::is_address;
use station_table::{
    BoardNames, BoardOptions, BoardSetting, DeskOptions, DeskSetting, Showing, board_begun,
    desk_begun,
};
use std::net::SocketAddr;
use toml::Table;

/// A station's own address, and the addresses of its peers.
type Addresses<'a> = (Address<'a>, [Option<SocketAddr>; MOST_PEERS]);

/// What is told of a text that isn't an address.
const NO_ADDRESS: &str = "isn't an address with a port, such as 192.168.1.20:4711";

/// What is told of addresses that are valid one by one, but not as those of a station and its peers.
const NO_PEERS: &str = "these addresses are of two kinds, or one is nobody's";

/// Whether a board's address is valid, if one is named.
fn is_board(text: Option<&str>) -> bool {
    match text {
        Some(text) => is_address(text),
        None => true,
    }
}

/// Whether the addresses of all named boards are valid.
fn are_addresses(boards: BoardNames<'_>) -> bool {
    is_board(boards.first)
        && is_board(boards.second)
        && is_board(boards.third)
        && is_board(boards.fourth)
}

/// Returns a text without which a station can't begin. `place` is its place in the sheet.
fn present<'a>(
    rt: &HostRuntime,
    sheet: &'a str,
    place: &str,
    text: Option<&'a str>,
) -> Result<&'a str, Stopped<'a>>
    ensures { IfOk result (λ found. option_copied text.entry ≡ Some found.now) }
{
    match text {
        Some(text) => Ok(text),
        None => Err(tell_station(rt, sheet, SheetFault::MissingKey, place, "isn't there")),
    }
}

/// Returns an address without which a station can't begin, if it is valid. `place` is its place in the sheet.
fn address<'a>(
    rt: &HostRuntime,
    sheet: &'a str,
    place: &str,
    text: Option<&'a str>,
) -> Result<&'a str, Stopped<'a>> {
    let text = present(rt, sheet, place, text)?;
    if is_address(text) {
        Ok(text)
    } else {
        Err(tell_station(rt, sheet, SheetFault::BadText, place, NO_ADDRESS))
    }
}

/// Returns the addresses of a desk, of the other desk, and of as many boards as are named.
fn desk_addresses<'a>(at: &'a str, other: &str, boards: BoardNames<'_>) -> Option<Addresses<'a>> {
    let Some(first) = boards.first else {
        return addresses_in(at, other, &[]);
    };
    let Some(second) = boards.second else {
        return addresses_in(at, other, &[first]);
    };
    let Some(third) = boards.third else {
        return addresses_in(at, other, &[first, second]);
    };
    match boards.fourth {
        Some(fourth) => addresses_in(at, other, &[first, second, third, fourth]),
        None => addresses_in(at, other, &[first, second, third]),
    }
}

/// Returns the addresses, or tells that they can't be those of a station and its peers.
fn found<'a>(
    rt: &HostRuntime,
    sheet: &'a str,
    addresses: Option<Addresses<'a>>,
) -> Result<Addresses<'a>, Stopped<'a>> {
    match addresses {
        Some(addresses) => Ok(addresses),
        None => Err(tell_station(rt, sheet, SheetFault::BadText, "stations", NO_PEERS)),
    }
}

/// Returns the places in the sheet of a desk's own address and of the other desk's.
fn places(desk: DeskId) -> (&'static str, &'static str) {
    match desk {
        DeskId::A => ("stations, a", "stations, b"),
        DeskId::B => ("stations, b", "stations, a"),
    }
}

/// Returns the addresses that a desk begins with.
fn addresses_of<'a>(
    rt: &HostRuntime,
    sheet: &'a str,
    desk: DeskId,
    at: Option<&'a str>,
    other: Option<&'a str>,
    boards: BoardNames<'a>,
) -> Result<Addresses<'a>, Stopped<'a>> {
    let (own, others) = places(desk);
    let at = address(rt, sheet, own, at)?;
    let other = address(rt, sheet, others, other)?;
    if !are_addresses(boards) {
        return Err(tell_station(
            rt,
            sheet,
            SheetFault::BadText,
            "stations, boards",
            NO_ADDRESS,
        ));
    }
    found(rt, sheet, desk_addresses(at, other, boards))
}

/// `ground desk` with a letter: keeps that desk with its named options, and for the others with the values of its sheet's
/// `[stations]`.
#[inline(never)]
pub fn start_desk_of<'a>(
    rt: &'a HostRuntime,
    sheet: &'a str,
    desk: DeskId,
    named: &DeskOptions<'a>,
    serve: Option<Address<'a>>,
    table: &'a Table,
) -> Result<EndedDesk<'a>, Stopped<'a>>
    ensures desk { IfOk result (λ ended. desk_of ended.life ≡ desk) }
    ensures sheet { IfOk result (λ ended. sheet_path_of ended.life ≡ sheet.now) }
    ensures file { IfOk result (λ ended.
        Some (path_of ended.life) ≡ (begun.begun_with desk (begun.desk_of named.now) (table_view table.now)).file) }
    ensures copy { IfOk result (λ ended.
        copy_of ended.life ≡ (begun.begun_with desk (begun.desk_of named.now) (table_view table.now)).copy) }
{
    let begun = desk_begun(desk, named, table);
    let (at, peers) = addresses_of(rt, sheet, desk, begun.at, begun.other, begun.boards)?;
    let file = present(rt, sheet, "stations, votes", begun.file)?;
    let setting = DeskSetting {
        sheet,
        desk,
        file,
        copy: begun.copy,
        key: begun.key,
        at,
        peers,
        serve,
        columns: begun.columns,
    };
    start_desk(rt, &setting)
}

/// `ground board` with a number: keeps that board of `[stations]`, with options found in the same way.
#[inline(never)]
pub fn start_board_of<'a>(
    rt: &'a HostRuntime,
    sheet: &'a str,
    index: u8,
    named: &BoardOptions<'a>,
    shows: &Showing<'a>,
    table: &'a Table,
) -> Result<EndedBoard<'a>, Stopped<'a>>
    ensures sheet { IfOk result (λ ended. board.sheet_path_of ended.life ≡ sheet.now) }
{
    let begun = board_begun(usize::from(index), named, table);
    let at = address(rt, sheet, "stations, boards", begun.at)?;
    let a = address(rt, sheet, "stations, a", begun.a)?;
    let b = address(rt, sheet, "stations, b", begun.b)?;
    let (at, peers) = found(rt, sheet, addresses_in(at, a, &[b]))?;
    let setting = BoardSetting {
        sheet,
        key: begun.key,
        at,
        peers,
        shows: *shows,
    };
    start_board(rt, &setting)
}
