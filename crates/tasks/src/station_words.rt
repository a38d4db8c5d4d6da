//! What the words of `desk` and `board` ask for.

ghost use Rattle.std.specs.Prelude.{◌≤◌, IfSome};
ghost use Rattle.tasks.specs.Words.{IsBoardTask};

use crate::task::{BoardTask, DeskTask};
use crate::words::{desk_in, number_in};
use cards::Columns;
use clap::ArgMatches;
use machine::{Address, addresses_in};
use station_table::{
    BoardNames, BoardOptions, BoardSetting, DeskOptions, DeskSetting, MOST_BOARDS, Showing,
};
use std::net::SocketAddr;

/// The sheet of a station whose words name none: the one in the folder.
const SHEET: &str = "sheet.toml";

/// The boards where none are named.
const NO_BOARDS: BoardNames<'static> = BoardNames {
    first: None,
    second: None,
    third: None,
    fourth: None,
};

/// Returns a page's address, if the text is an address whose port isn't 0.
fn place_in(text: &str) -> Option<Address<'_>> {
    match text.parse::<SocketAddr>() {
        Ok(socket) if socket.port() != 0 => Some(Address { text, socket }),
        _ => None,
    }
}

/// Returns the address of `--serve`, if it's given. Refuses one that is no address or whose port is 0.
fn served_in<'a>(words: &ArgMatches<'a>) -> Option<Option<Address<'a>>> {
    match words.get_str("serve") {
        Some(text) => Some(Some(place_in(text)?)),
        None => Some(None),
    }
}

/// Returns the width of a scorer's rows, in columns, if `--columns` is given. Refuses a wrong one.
fn columns_in(words: &ArgMatches<'_>) -> Option<Option<Columns>> {
    match words.get_str("columns") {
        Some(_) => Some(Some(Columns::new(usize::from(number_in::<u16>(words, "columns")?))?)),
        None => Some(None),
    }
}

/// Returns the task of a desk whose options are all given.
fn full_desk_task<'a>(words: &ArgMatches<'a>) -> Option<DeskTask<'a>> {
    let at = words.get_str("at")?;
    let other = words.get_str("other")?;
    let (at, peers) = match words.get_strs("board") {
        Some(boards) => addresses_in(at, other, boards)?,
        None => addresses_in(at, other, &[])?,
    };
    Some(DeskTask::Named(DeskSetting {
        sheet: words.get_str("sheet")?,
        desk: desk_in(words.get_str("desk")?)?,
        file: words.get_str("file")?,
        copy: words.get_str("copy"),
        key: words.get_str("key"),
        at,
        peers,
        serve: served_in(words)?,
        columns: columns_in(words)?,
    }))
}

/// Returns where a board shows its book.
fn showing_in<'a>(words: &ArgMatches<'a>) -> Option<Showing<'a>> {
    Some(Showing {
        text: words.get_str("text"),
        json: words.get_str("json"),
        script: words.get_str("script"),
        serve: served_in(words)?,
    })
}

/// Returns the task of a board whose options are all given.
fn full_board_task<'a>(words: &ArgMatches<'a>) -> Option<BoardTask<'a>>
    ensures { IfSome result IsBoardTask }
{
    let other = words.get_str("desk-b")?;
    let (at, peers) = addresses_in(words.get_str("at")?, words.get_str("desk-a")?, &[other])?;
    Some(BoardTask::Named(BoardSetting {
        sheet: words.get_str("sheet")?,
        key: words.get_str("key"),
        at,
        peers,
        shows: showing_in(words)?,
    }))
}

/// Whether a text is an address, or there is no text.
fn is_address(text: Option<&str>) -> bool {
    match text {
        Some(text) => text.parse::<SocketAddr>().is_ok(),
        None => true,
    }
}

/// Returns the addresses of `--board`. Refuses one that is no address, and more than a desk may have.
fn boards_in<'a>(words: &ArgMatches<'a>) -> Option<BoardNames<'a>> {
    let Some(texts) = words.get_strs("board") else {
        return Some(NO_BOARDS);
    };
    let are_fine = texts.iter().all(|text| is_address(Some(*text)));
    if !are_fine || texts.len() > MOST_BOARDS {
        return None;
    }
    Some(BoardNames {
        first: texts.get(0).copied(),
        second: texts.get(1).copied(),
        third: texts.get(2).copied(),
        fourth: texts.get(3).copied(),
    })
}

/// Returns the task of a desk of the sheet's table, by its letter.
fn desk_of_sheet<'a>(letter: &str, words: &ArgMatches<'a>) -> Option<DeskTask<'a>> {
    let named = DeskOptions {
        file: words.get_str("file"),
        copy: words.get_str("copy"),
        key: words.get_str("key"),
        at: words.get_str("at"),
        other: words.get_str("other"),
        boards: boards_in(words)?,
        columns: columns_in(words)?,
    };
    if words.get_str("desk").is_some() || !is_address(named.at) || !is_address(named.other) {
        return None;
    }
    Some(DeskTask::OfSheet {
        sheet: words.get_str("sheet").unwrap_or(SHEET),
        desk: desk_in(letter)?,
        named,
        serve: served_in(words)?,
    })
}

/// Returns the task of `desk`.
pub fn desk_task<'a>(words: &ArgMatches<'a>) -> Option<DeskTask<'a>> {
    match words.get_str("which") {
        Some(letter) => desk_of_sheet(letter, words),
        None => full_desk_task(words),
    }
}

/// Returns the index, from 0, of the board with a number from 1 to 4.
fn index_in(number: &str) -> Option<u8>
    ensures { IfSome result (λ index. index ≤ 3) }
{
    match number {
        "1" => Some(0),
        "2" => Some(1),
        "3" => Some(2),
        "4" => Some(3),
        _ => None,
    }
}

/// Returns the task of a board of the sheet's table, by its number.
fn board_of_sheet<'a>(number: &str, words: &ArgMatches<'a>) -> Option<BoardTask<'a>>
    ensures { IfSome result IsBoardTask }
{
    let named = BoardOptions {
        at: words.get_str("at"),
        a: words.get_str("desk-a"),
        b: words.get_str("desk-b"),
        key: words.get_str("key"),
    };
    if !is_address(named.at) || !is_address(named.a) || !is_address(named.b) {
        return None;
    }
    Some(BoardTask::OfSheet {
        sheet: words.get_str("sheet").unwrap_or(SHEET),
        index: index_in(number)?,
        named,
        shows: showing_in(words)?,
    })
}

/// Returns the task of `board`.
pub fn board_task<'a>(words: &ArgMatches<'a>) -> Option<BoardTask<'a>>
    ensures { IfSome result IsBoardTask }
{
    match words.get_str("which") {
        Some(number) => board_of_sheet(number, words),
        None => full_board_task(words),
    }
}
