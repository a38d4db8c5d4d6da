//! What a page shows before a desk is heard.

ghost use Rattle.std.specs.Prelude.{◌≡◌, ◌≤◌, length, IfOk, IfSome, IsTrue, Some};
ghost use Rattle.board_command.specs.Waiting.{IsKept, IsStateOf, IsUnheard, IsWaiting, TellsOfBook, file_of};

use cards::MatchSheet;
use corrections::CheckedBook;
use json::{Scratch, is_valid};
use scoreboard::{LastHeard, board_text};
use setup::bytes_at;
use std::alloc::{AllocError, Global};
use std::snapshot::Snapshot;

/// The lines that a page shows before a desk is heard.
pub const LINES: &[u8] = b"waiting for the desks\n";

/// The state that a page shows before a desk is heard, and the bytes of the file that it is made from, if any: only clauses
/// read those.
#[derive(Drop)]
pub struct Waiting {
    pub state: Vec<u8>,
    file: Option<Snapshot<Vec<u8>>>,
}

/// Whether a line is a board's state of this match: a JSON value with the right head.
fn is_state(alloc: Global, line: &str, game: u64) -> Result<bool, AllocError>
    ensures { IfOk result (λ is. IsTrue is → IsStateOf game line.now) }
{
    let head = format!(in alloc; "{{\"format\":\"yermudosh board 1\",\"match\":\"{game}\",")?;
    if !line.starts_with(head.as_str()) || line.contains('\n') || line.contains('\r') {
        return Ok(false);
    }
    is_valid(line, &mut Scratch::new(alloc))
}

/// Returns how many bytes of a state, which is one line, tell of its book: those before the time when the desks were heard, if
/// the state has it, and otherwise all but the last. A name can't look like that mark, as its quotes are escaped.
fn book_len(line: &str) -> usize
    ensures book { TellsOfBook line.now result }
    ensures within { result ≤ length line.now }
{
    match line.rfind(",\"heard\":{") {
        Some(end) => end,
        None => line.len().saturating_sub(1),
    }
}

/// Returns the state of a board that has heard no desk, with the book of this state.
fn unheard(alloc: Global, line: &str) -> Result<Vec<u8>, AllocError>
    ensures { IfOk result (λ state. IsUnheard line.now state.items) }
{
    let count = book_len(line);
    let bytes = line.as_bytes();
    let mut state = Vec::new(alloc);
    state.extend_from_slice(&bytes[..count])?;
    state.extend_from_slice(",\"heard\":{\"a\":null,\"b\":null},\"trouble\":null}\n".as_bytes())?;
    Ok(state)
}

/// Returns the state in a file as that of a board that has heard no desk, or `None` if the file has no board's state of this
/// match.
fn kept_state(alloc: Global, bytes: &[u8], game: u64) -> Result<Option<Vec<u8>>, AllocError>
    ensures { IfOk result (λ kept. IfSome kept (λ state. IsKept game bytes.now state.items)) }
{
    let Ok(text) = str::from_utf8(bytes) else {
        return Ok(None);
    };
    let Some(line) = text.strip_suffix("\n") else {
        return Ok(None);
    };
    if !is_state(alloc, line, game)? {
        return Ok(None);
    }
    Ok(Some(unheard(alloc, line)?))
}

/// Returns the state in a file of these bytes, with those bytes, or `None` if they have no board's state of this match.
fn kept_of(alloc: Global, bytes: &Vec<u8>, game: u64) -> Result<Option<Waiting>, AllocError>
    ensures { IfOk result (λ kept. IfSome kept (λ waiting.
        (file_of waiting ≡ Some bytes.now.items) × IsKept game bytes.now.items waiting.state.items)) }
{
    match kept_state(alloc, bytes.as_slice(), game)? {
        Some(state) => Ok(Some(Waiting {
            state,
            file: Some(Snapshot::of(bytes)),
        })),
        None => Ok(None),
    }
}

/// Returns the state of a board that has heard no desk, with this book.
fn begun_state(alloc: Global, sheet: &MatchSheet, book: &CheckedBook) -> Result<Waiting, AllocError>
    ensures { IfOk result (IsWaiting sheet.now book.now.innings_a_side book.now.entries) }
{
    let nobody = LastHeard { a: None, b: None };
    let state = board_text(alloc, sheet, book, nobody, None)?;
    Ok(Waiting { state, file: None })
}

/// Returns the state of a board that has heard no desk: from the file of this path if it has one of the match, and otherwise
/// with this book.
pub fn waiting_state(
    rt: &HostRuntime,
    sheet: &MatchSheet,
    book: &CheckedBook,
    path: Option<&str>,
) -> Result<Waiting, AllocError>
    ensures { IfOk result (IsWaiting sheet.now book.now.innings_a_side book.now.entries) }
{
    if let Some(path) = path
        && let Ok(bytes) = bytes_at(rt, path)
        && let Some(waiting) = kept_of(rt.alloc(), &bytes, sheet.game())?
    {
        return Ok(waiting);
    }
    begun_state(rt.alloc(), sheet, book)
}
