//! The match, the desk and its position, its own vote and its held lines.

ghost use Rattle.std.specs.Prelude.{◌≡◌, ◌∷◌, [], IfSome};
ghost use Rattle.notation.specs.Written.{IsEntry};
ghost use Rattle.json_fields.specs.Values.{PutsFields, PutsValues};
ghost use Rattle.desk_state.specs.Head as laws;

use agree_core::{DeskId, Position};
use cards::MatchSheet;
use itoa::Buffer;
use json_fields::{Compact, begin_array, end_array, put_figure, put_null, put_string, put_text};
use links::HeldLine;
use notation::{Entry, line_of};
use std::alloc::AllocError;

/// Returns the desk's letter.
fn letter(desk: DeskId) -> &'static str
    ensures { result.now ≡ laws.desk_text desk }
{
    match desk {
        DeskId::A => "a",
        DeskId::B => "b",
    }
}

/// Puts the format, and the match's number and title.
fn put_match(out: &mut Compact, sheet: &MatchSheet) -> Result<(), AllocError>
    ensures { PutsFields result out.old out.new (laws.match_fields sheet.now) }
{
    let mut buffer = Buffer::new();
    put_text(out, "format", "yermudosh desk 1")?;
    put_text(out, "match", buffer.format(sheet.game()))?;
    put_text(out, "title", sheet.title())
}

/// Puts the desk's letter, and the position at which it votes.
fn put_desk(out: &mut Compact, desk: DeskId, at: Position) -> Result<(), AllocError>
    ensures { PutsFields result out.old out.new (laws.desk_fields desk at) }
{
    put_text(out, "desk", letter(desk))?;
    put_figure(out, "place", at.place)?;
    put_figure(out, "round", at.round)
}

/// Puts the match, the desk, and the position at which it votes.
pub fn put_whose(
    out: &mut Compact,
    sheet: &MatchSheet,
    desk: DeskId,
    at: Position,
) -> Result<(), AllocError>
    ensures { PutsFields result out.old out.new (laws.whose_fields sheet.now desk at) }
{
    put_match(out, sheet)?;
    put_desk(out, desk, at)
}

/// Puts the desk's own vote, or null if it hasn't cast one.
fn put_pending(out: &mut Compact, own: Option<Entry>) -> Result<(), AllocError>
    requires { IfSome own IsEntry }
    ensures { PutsFields result out.old out.new (laws.pending_field own ∷ []) }
{
    match own {
        None => put_null(out, "pending"),
        Some(entry) => put_text(out, "pending", line_of(&entry).as_str()),
    }
}

/// Puts each line.
fn put_lines(out: &mut Compact, lines: &[HeldLine]) -> Result<(), AllocError>
    ensures { PutsValues result out.old out.new (laws.lines_values lines.now) }
{
    for line in lines {
        put_string(out, line.as_str())?;
    }
    Ok(())
}

/// Puts the desk's held lines.
fn put_held(out: &mut Compact, held: &[HeldLine]) -> Result<(), AllocError>
    ensures { PutsFields result out.old out.new (laws.held_field held.now ∷ []) }
{
    begin_array(out, "held")?;
    put_lines(out, held)?;
    end_array(out)
}

/// Puts the match, the desk, its position, its own vote and its held lines.
pub fn put_head(
    out: &mut Compact,
    sheet: &MatchSheet,
    desk: DeskId,
    at: Position,
    own: Option<Entry>,
    held: &[HeldLine],
) -> Result<(), AllocError>
    requires { IfSome own IsEntry }
    ensures { PutsFields result out.old out.new (laws.head_fields sheet.now desk at own held.now) }
{
    put_whose(out, sheet, desk, at)?;
    put_pending(out, own)?;
    put_held(out, held)
}
