//! Writers that fail.
//! A call that takes memory is made again if an allocation fails, so that the tests pass with any one allocation refused.

use cards::{
    MatchSheet, SheetFault, batting_card, board_lines, book_page, bowling_card, read_sheet,
};
use corrections::{Book, BookOf};
use notation::read_line;
use std::alloc::{AllocError, Global};
use std::process::Abort;
use streams::{Sink, Watched, WriteFailed};
use tests_support::Failing;

const SHEET: &str = "title = \"T\"\nnumber = 7\ninnings = 2\nother = 1\n\
    home = {name = \"Alder\", players = [\"H1\", \"H2\", \"H3\", \"H4\", \"H5\", \"H6\", \"H7\", \"H8\", \"H9\", \"H10\", \"H11\"]}\n\
    [away]\nname = \"Birch\"\nplayers = [\"A1\", \"A2\", \"A3\", \"A4\", \"A5\", \"A6\", \"A7\", \"A8\", \"A9\", \"A10\", \"A11\"]\n";

/// Reads the sheet of a text, or its fault.
fn read(alloc: Global, text: &[u8]) -> Result<MatchSheet, SheetFault> {
    match read_sheet(alloc, text) {
        Err(SheetFault::NoMemory) => read_sheet(alloc, text),
        answer => answer,
    }
}

const LINES: [&str; 5] = [
    "innings home",
    "in 1",
    "in 2",
    "ball 7 bat 1",
    "fix 3 ball 7 bat 2",
];

/// Returns the book of the lines.
fn lines_entered(rt: &impl Abort, alloc: Global) -> Result<Book, AllocError> {
    let mut book = Book::new(alloc, 2)?;
    for line in LINES {
        assert!(rt; book.len() < 8192);
        match read_line(line.as_bytes()) {
            Ok(entry) => assert!(rt; book.enter(&entry).is_ok()),
            Err(_) => panic!(rt; "no entry: {line}"),
        }
    }
    Ok(book)
}

fn book_of_lines(rt: &impl Abort, alloc: Global) -> Book {
    match lines_entered(rt, alloc) {
        Ok(book) => book,
        Err(_) => lines_entered(rt, alloc).expect(rt, "room for a book"),
    }
}

/// The calls that print.
#[derive(Clone, Copy)]
enum Call {
    Batting,
    Bowling,
    Page,
    Board,
}

const CALLS: [Call; 4] = [Call::Batting, Call::Bowling, Call::Page, Call::Board];

/// Prints one of the texts of a book in which an innings has begun.
fn print<W: Sink>(
    rt: &impl Abort,
    call: Call,
    sheet: &MatchSheet,
    book: &Book,
    out: &mut Watched<W>,
) -> Result<(), WriteFailed> {
    let game = book.score();
    assert!(rt; 0 < game.begun());
    match call {
        Call::Batting => batting_card(sheet, game, 0, out),
        Call::Bowling => bowling_card(sheet, game, 0, out),
        Call::Page => book_page(sheet, book, out),
        Call::Board => board_lines(sheet, game, out),
    }
}

/// Returns how many writes printing a text makes. Each write that fails, in turn, is reported as a failed writer.
fn failures(rt: &impl Abort, call: Call, sheet: &MatchSheet, book: &Book) -> usize {
    for calls in 0..1000 {
        let mut out = Watched::new(Failing { calls });
        match print(rt, call, sheet, book, &mut out) {
            Ok(()) => {
                assert!(rt; !out.has_failed());
                return calls;
            }
            Err(why) => assert!(rt; out.has_failed() && why.number() == 76),
        }
    }
    1000
}

/// Each text has more than two lines, or has figures that are written one by one.
#[test]
fn writes_that_fail(rt: HostRuntime) {
    let sheet = read(rt.alloc(), SHEET.as_bytes()).expect(&rt, "a sheet");
    let book = book_of_lines(&rt, rt.alloc());
    for call in CALLS {
        let count = failures(&rt, call, &sheet, &book);
        assert!(rt; count > 4 && count < 1000);
    }
}

/// A flush reaches the writer, and a failed flush is reported from then on.
#[test]
fn a_flush_that_fails(rt: HostRuntime) {
    let mut out = Watched::new(Failing { calls: 2 });
    assert!(rt; write!(out, "a").is_ok());
    assert!(rt; out.flush().is_ok());
    assert!(rt; !out.has_failed());
    assert!(rt; out.flush().is_err());
    assert!(rt; out.has_failed());
}
