//! The state of a desk as one JSON value.

ghost use Rattle.std.specs.Prelude.{◌≡◌, ◌∷◌, [], IfSome};
ghost use Rattle.notation.specs.Written.{IsEntry};
ghost use Rattle.json_fields.specs.Values.{PutsFields, PutsValues};
ghost use Rattle.desk_state.specs.Book.{book_value};
ghost use Rattle.desk_state.specs.Value as laws;

use crate::board_field::put_board_field;
use crate::deliveries::over_shown;
use crate::head::{put_head, put_whose};
use crate::items::put_items;
use crate::news::{put_entries, put_news};
use crate::next::put_next;
use crate::over::put_over;
use crate::sides::put_sides;
use agree_core::{DeskId, Position};
use cards::MatchSheet;
use corrections::BookOf;
use json_fields::{Compact, begin_array, begin_object, end_array, end_object};
use links::HeldLine;
use notation::Entry;
use std::alloc::{AllocError, Global};

/// Puts what the sheet and the book show.
fn put_book<B: BookOf>(
    out: &mut Compact,
    alloc: Global,
    sheet: &MatchSheet,
    book: &B,
) -> Result<(), AllocError>
    ensures { PutsFields result out.old out.new
        (laws.book_fields sheet.now (B.innings_a_side book.now) (B.content book.now)) }
{
    let over = over_shown(alloc, book)?;
    put_next(out, sheet, book)?;
    put_over(out, alloc, over.as_slice())?;
    put_news(out, alloc, book)?;
    put_sides(out, sheet)?;
    put_board_field(out, alloc, sheet, book)
}

/// A desk's letter, the position at which it votes, and its vote there, if it has cast one.
#[derive(Clone, Copy)]
pub struct DeskStand {
    pub desk: DeskId,
    pub at: Position,
    pub own: Option<Entry>,
}

/// Puts the state of a desk with this book, this position and vote, and these held lines.
pub fn put_state<B: BookOf>(
    out: &mut Compact,
    alloc: Global,
    sheet: &MatchSheet,
    book: &B,
    stand: DeskStand,
    held: &[HeldLine],
) -> Result<(), AllocError>
    requires { IfSome stand.own IsEntry }
    ensures { PutsValues result out.old out.new (laws.state_value sheet.now
        (B.innings_a_side book.now) (B.content book.now) stand.desk stand.at stand.own held.now ∷ []) }
{
    begin_object(out)?;
    put_head(out, sheet, stand.desk, stand.at, stand.own, held)?;
    put_book(out, alloc, sheet, book)?;
    end_object(out)
}

/// Puts what anyone may read of the state of a desk with this book, which votes at this position.
pub fn put_open<B: BookOf>(
    out: &mut Compact,
    alloc: Global,
    sheet: &MatchSheet,
    book: &B,
    desk: DeskId,
    at: Position,
) -> Result<(), AllocError>
    ensures { PutsValues result out.old out.new (laws.open_value sheet.now
        (B.innings_a_side book.now) (B.content book.now) desk at ∷ []) }
{
    begin_object(out)?;
    put_whose(out, sheet, desk, at)?;
    put_book(out, alloc, sheet, book)?;
    end_object(out)
}

/// Puts all items of a book.
pub fn put_all<B: BookOf>(out: &mut Compact, alloc: Global, book: &B) -> Result<(), AllocError>
    ensures { PutsValues result out.old out.new (book_value (B.content book.now) ∷ []) }
{
    begin_object(out)?;
    put_entries(out, book)?;
    begin_array(out, "items")?;
    put_items(out, alloc, book, 0)?;
    end_array(out)?;
    end_object(out)
}
