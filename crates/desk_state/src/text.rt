//! The text of a desk's state.

ghost use Rattle.std.specs.Prelude.{◌≡◌, IfOk, IfSome};
ghost use Rattle.notation.specs.Written.{IsEntry};
ghost use Rattle.desk_state.specs.Book as book_laws;
ghost use Rattle.desk_state.specs.Value as laws;

use crate::value::{DeskStand, put_all, put_open, put_state};
use agree_core::{DeskId, Position};
use cards::MatchSheet;
use corrections::BookOf;
use json_fields::Compact;
use links::HeldLine;
use notation::Entry;
use std::alloc::{AllocError, Global};

/// Returns the state of a desk as one JSON value, and a newline: the position at which it votes, its own vote if it has cast
/// one, and its held lines, the oldest first; then what the match wants next, who may come in and who may bowl, the over with
/// the places of its deliveries, both sides, and what a board with this book shows. Nothing in it depends on the other desk's
/// vote. Fails only if memory is refused.
pub fn state_text<B: BookOf>(
    alloc: Global,
    sheet: &MatchSheet,
    book: &B,
    desk: DeskId,
    at: Position,
    own: Option<Entry>,
    held: &[HeldLine],
) -> Result<Vec<u8>, AllocError>
    requires { IfSome own IsEntry }
    ensures { IfOk result (λ text. text.items ≡ laws.state_text sheet.now
        (B.innings_a_side book.now) (B.content book.now) desk at own held.now) }
{
    let mut out = Compact::new(alloc);
    let stand = DeskStand { desk, at, own };
    put_state(&mut out, alloc, sheet, book, stand, held)?;
    let mut text = out.into_inner();
    text.push(b'\n')?;
    Ok(text)
}

/// Returns what anyone may read of a desk's state: all but its own vote and its held lines. Fails only if memory is refused.
pub fn open_text<B: BookOf>(
    alloc: Global,
    sheet: &MatchSheet,
    book: &B,
    desk: DeskId,
    at: Position,
) -> Result<Vec<u8>, AllocError>
    ensures { IfOk result (λ text. text.items ≡ laws.open_text sheet.now
        (B.innings_a_side book.now) (B.content book.now) desk at) }
{
    let mut out = Compact::new(alloc);
    put_open(&mut out, alloc, sheet, book, desk, at)?;
    let mut text = out.into_inner();
    text.push(b'\n')?;
    Ok(text)
}

/// Returns all items of a book as one JSON value, and a newline: the number of entries, and in the order of the match each item
/// with its place, its line, and the place of the entry that corrects it; for a delivery also its innings, its over and number
/// there, the batter and the bowler, and its mark.
pub fn book_text<B: BookOf>(alloc: Global, book: &B) -> Result<Vec<u8>, AllocError>
    ensures { IfOk result (λ text. text.items ≡ book_laws.book_text (B.content book.now)) }
{
    let mut out = Compact::new(alloc);
    put_all(&mut out, alloc, book)?;
    let mut text = out.into_inner();
    text.push(b'\n')?;
    Ok(text)
}
