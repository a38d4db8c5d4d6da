//! How a file begins.

use std::fs::File;
use std::io::{self, Read};

/// The bytes with which every votes file begins.
const VOTES: &[u8] = b"CBVOTES";

/// The bytes with which a board's state begins.
const STATE: &[u8] = b"{\"format\":\"yermudosh board ";

/// The bytes with which a board's state begins as a script.
const SCRIPT: &[u8] = b"window.yermudosh = {\"format\":\"yermudosh board ";

/// How the lines of a board's text begin, from the second line on.
const LINES: [&[u8]; 5] = [b"Overs ", b"Striker ", b"Other ", b"Target ", b"Result "];

/// How many bytes are looked at: more than the six lines of a board have.
const ROOM: usize = 1024;

/// The kind of file that a beginning shows.
#[derive(Clone, Copy)]
pub enum Front {
    /// An empty file.
    Nothing,
    /// A board's text, its state, or its state as a script.
    Text,
    /// A desk's votes.
    Votes,
    /// Anything else.
    Other,
}

/// Whether one begins as the other does, as far as both go.
fn agree(one: &[u8], other: &[u8]) -> bool {
    let both = one.len().min(other.len());
    one[..both] == other[..both]
}

/// Returns the bytes behind the first newline, if there is one.
fn behind_line(bytes: &[u8]) -> Option<&[u8]> {
    let end = bytes.iter().position(|byte| *byte == b'\n')?;
    Some(&bytes[end + 1..])
}

/// Whether these are a board's six lines, as far as they go; at least the second line is recognized.
fn is_board_text(bytes: &[u8]) -> bool {
    let mut rest = match behind_line(bytes) {
        Some(rest) if rest.starts_with(LINES[0]) => rest,
        _ => return false,
    };
    for head in LINES {
        if !agree(rest, head) {
            return false;
        }
        match behind_line(rest) {
            Some(next) => rest = next,
            None => return true,
        }
    }
    rest.is_empty()
}

/// Returns the kind of a file with these first bytes.
fn judged(bytes: &[u8]) -> Front {
    if bytes.is_empty() {
        Front::Nothing
    } else if bytes.starts_with(VOTES) {
        Front::Votes
    } else if agree(bytes, STATE) || agree(bytes, SCRIPT) || is_board_text(bytes) {
        Front::Text
    } else {
        Front::Other
    }
}

/// Returns the kind of a file of `len` bytes.
pub fn front_of(file: &mut File, len: u64) -> io::Result<Front> {
    let mut buffer = [0; ROOM];
    let count = len.min(ROOM as u64) as usize;
    file.read_exact(&mut buffer[..count])?;
    Ok(judged(&buffer[..count]))
}
