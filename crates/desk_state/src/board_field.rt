//! The value that a board with this book shows.

ghost use Rattle.std.specs.Prelude.{◌≡◌, ◌∷◌, ◌++◌, [], OnOk, codes};
ghost use Rattle.json.specs.Token.{key};
ghost use Rattle.json_fields.specs.Values.{PutsFields};
ghost use Rattle.scoreboard.specs.Value.{board_value};

use cards::MatchSheet;
use corrections::BookOf;
use json::Token;
use json_fields::{Compact, Tokens};
use scoreboard::put_board_value;
use std::alloc::{AllocError, Global};

/// Puts the field's name, `board`.
fn put_name(out: &mut Compact) -> Result<(), AllocError>
    ensures { OnOk result (out.new ≡ out.old ++ key (codes "board") ∷ []) }
{
    out.token(Token::Key("board"))
}

/// Puts the `board` field.
pub fn put_board_field<B: BookOf>(
    out: &mut Compact,
    alloc: Global,
    sheet: &MatchSheet,
    book: &B,
) -> Result<(), AllocError>
    ensures { PutsFields result out.old out.new
        ((codes "board", board_value sheet.now (B.innings_a_side book.now) (B.content book.now)) ∷ []) }
{
    put_name(out)?;
    put_board_value(out, alloc, sheet, book)
}
