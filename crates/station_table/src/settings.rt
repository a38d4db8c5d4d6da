//! The settings that a station runs with.

use agree_core::DeskId;
use cards::Columns;
use machine::{Address, MOST_PEERS};
use std::net::SocketAddr;

/// The settings of a desk: its sheet; the files of its votes, and of their copy and the scorers' key if they are named; its own
/// address, its peers' (the other desk's first), and its page's if it has one; and the width of its scorer's rows. Without
/// `columns`, the rows are as wide as the terminal, or 80 columns.
#[derive(Clone, Copy)]
pub struct DeskSetting<'a> {
    pub sheet: &'a str,
    pub desk: DeskId,
    pub file: &'a str,
    pub copy: Option<&'a str>,
    pub key: Option<&'a str>,
    pub at: Address<'a>,
    pub peers: [Option<SocketAddr>; MOST_PEERS],
    pub serve: Option<Address<'a>>,
    pub columns: Option<Columns>,
}

/// Where else a board shows its book, if anywhere: the files of its text, of its state as JSON, and of that JSON as a script;
/// and the address of its page.
#[derive(Clone, Copy)]
pub struct Showing<'a> {
    pub text: Option<&'a str>,
    pub json: Option<&'a str>,
    pub script: Option<&'a str>,
    pub serve: Option<Address<'a>>,
}

/// The settings of a board: its sheet, the file of the scorers' key if it is named, its own address, both desks' addresses, and
/// where it shows its book.
#[derive(Clone, Copy)]
pub struct BoardSetting<'a> {
    pub sheet: &'a str,
    pub key: Option<&'a str>,
    pub at: Address<'a>,
    pub peers: [Option<SocketAddr>; MOST_PEERS],
    pub shows: Showing<'a>,
}
