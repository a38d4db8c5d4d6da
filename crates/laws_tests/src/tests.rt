//! What no program calls and no contract says: copies and steps of books, the size of a match, the whole text of a desk's
//! state.

use corrections::BookOf;
use notation::read_line;
use std::process::Abort;

mod books;
mod deliveries;
mod desk_states;
mod matches;
mod searches;

/// Enters lines that the book takes.
fn enter<B: BookOf>(rt: &impl Abort, book: &mut B, lines: &[&str]) {
    for line in lines {
        assert!(rt; book.len() < 8192);
        match read_line(line.as_bytes()) {
            Ok(entry) => assert!(rt; book.enter(&entry).is_ok(), "{line}"),
            Err(_) => panic!(rt; "no entry: {line}"),
        }
    }
}
