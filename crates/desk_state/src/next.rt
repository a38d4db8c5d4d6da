//! What the match wants next.

ghost use Rattle.std.specs.Prelude.{◌≡◌};
ghost use Rattle.corrections.specs.CleanList.{history_of};
ghost use Rattle.json_fields.specs.Values.{PutsFields};
ghost use Rattle.desk_state.specs.Value.{next_fields};

use crate::players::{put_may_bowl, put_may_come_in};
use crate::wants::wants_of;
use cards::MatchSheet;
use corrections::BookOf;
use json_fields::{Compact, put_text};
use std::alloc::AllocError;

/// Puts what the match wants, who may come in, and who may bowl.
pub fn put_next<B: BookOf>(
    out: &mut Compact,
    sheet: &MatchSheet,
    book: &B,
) -> Result<(), AllocError>
    ensures { PutsFields result out.old out.new
        (next_fields sheet.now (B.innings_a_side book.now) (history_of (B.content book.now))) }
{
    put_text(out, "wants", wants_of(book).text())?;
    put_may_come_in(out, book)?;
    put_may_bowl(out, sheet, book)
}
