//! The book of a match as one JSON value.

ghost use Rattle.std.specs.Prelude.{◌≡◌, ◌∷◌, [], List, codes, decimal, OnOk};
ghost use Rattle.corrections.specs.CleanList.{clean, history_of};
ghost use Rattle.match_laws.specs.Stands.{StandsFor};
ghost use Rattle.archive_deliveries.specs.Notes.{begun_of, notes};
ghost use Rattle.toml.specs.View.{table_view};
ghost use Rattle.json_fields.specs.Values.{Field, PutsFields, text_field};
ghost use Rattle.export.specs.Given.{AreFieldsOf, others};
ghost use Rattle.export.specs.Value as laws;
ghost use Rattle.export.specs.Value.{sheet_fields, title_fields};
ghost use Rattle.export.specs.inner.Putting.{PutsExport, PutsOwn};

use crate::entries::put_entries;
use crate::fall_values::put_falls;
use crate::given::{info_or, put_ruled};
use crate::info::{has_event, put_info};
use crate::innings::put_all_innings;
use crate::limited::put_limits;
use crate::meta::put_meta;
use archive_deliveries::{Begun, NamedSheet, Noted};
use corrections::BookOf;
use falls::falls_at;
use itoa::Buffer;
use json::Pretty;
use json_fields::{begin_field, begin_object, end_object, put_figure, put_number, put_text};
use match_laws::Match;
use std::alloc::{AllocError, Global};
use toml::Table;

/// Whether every JSON reader reads this number exactly: it is at most 2^53.
fn is_exact(number: u64) -> bool
    ensures { result ≡ laws.is_exact number }
{
    number <= 9_007_199_254_740_992
}

/// Puts the match's number as text.
fn put_game_text(out: &mut Pretty, game: u64) -> Result<(), AllocError>
    ensures { PutsFields result out.old out.new (text_field (codes "match_number") (decimal game) ∷ []) }
{
    let mut buffer = Buffer::new();
    put_text(out, "match_number", buffer.format(game))
}

/// Puts the match's number: as a number up to 2^53, and as text beyond.
fn put_game(out: &mut Pretty, game: u64) -> Result<(), AllocError>
    ensures { PutsFields result out.old out.new (laws.game_field game ∷ []) }
{
    if is_exact(game) {
        put_number(out, "match_number", game)
    } else {
        put_game_text(out, game)
    }
}

/// Puts the title.
fn put_own_title(out: &mut Pretty, sheet: &NamedSheet<'_>) -> Result<(), AllocError>
    ensures { PutsFields result out.old out.new (text_field (codes "title") sheet.now.title ∷ []) }
{
    put_text(out, "title", sheet.title())
}

/// Puts the title, but only where `[info]` has an event, which replaces the title under `info`.
fn put_title(out: &mut Pretty, sheet: &NamedSheet<'_>, info: &Table) -> Result<(), AllocError>
    ensures { (given : List Field) → AreFieldsOf (others (table_view info.now)) given
        → PutsFields result out.old out.new (title_fields sheet.now given) }
{
    if !has_event(info) {
        return Ok(());
    }
    put_own_title(out, sheet)
}

/// Puts the rest of the sheet: title, match number, innings a side and limits.
fn put_sheet(out: &mut Pretty, sheet: &NamedSheet<'_>, info: &Table) -> Result<(), AllocError>
    ensures { (given : List Field) → AreFieldsOf (others (table_view info.now)) given
        → PutsFields result out.old out.new (sheet_fields sheet.now given) }
{
    put_title(out, sheet, info)?;
    put_game(out, sheet.game())?;
    put_figure(out, "innings_a_side", sheet.innings())?;
    put_limits(out, sheet.limits())
}

/// Puts the field `yermudosh`, for what the archive format can't hold.
fn put_own<B: BookOf>(
    alloc: Global,
    out: &mut Pretty,
    sheet: &NamedSheet<'_>,
    info: &Table,
    score: &Match,
    book: &B,
) -> Result<(), AllocError>
    requires { StandsFor score.now sheet.now.innings (history_of (B.content book.now)) }
    ensures { (given : List Field) → AreFieldsOf (others (table_view info.now)) given
        → OnOk result (PutsOwn sheet.now given (table_view info.now) (B.content book.now) out.old out.new) }
{
    let falls = falls_at(alloc, book)?;
    begin_field(out, "yermudosh")?;
    put_text(out, "program", "yermudosh 1")?;
    put_sheet(out, sheet, info)?;
    put_ruled(alloc, out, info)?;
    put_falls(alloc, out, sheet, score, falls.as_slice())?;
    put_entries(alloc, out, book)?;
    end_object(out)
}

/// Puts the book of a match as one JSON value. `noted` is the book's clean list, each item with where it stands, and `begun`
/// the innings that each side began first and last.
pub fn put_export<B: BookOf>(
    alloc: Global,
    out: &mut Pretty,
    sheet: &NamedSheet<'_>,
    document: &Table,
    book: &B,
    noted: &[Noted],
    begun: &Begun,
) -> Result<(), AllocError>
    requires noted { noted.now ≡ notes [] (clean (B.content book.now)) }
    requires begun { begun.now ≡ begun_of (history_of (B.content book.now)) }
    requires innings { B.innings_a_side book.now ≡ sheet.now.innings }
    ensures { OnOk result (PutsExport sheet.now (B.content book.now) (table_view document.now) out.old out.new) }
{
    let score = book.score();
    begin_object(out)?;
    put_meta(alloc, out, document)?;
    let empty = Table::new(alloc);
    let info = info_or(document, &empty);
    put_info(alloc, out, sheet, info, score)?;
    put_all_innings(alloc, out, sheet, score, begun, noted)?;
    put_own(alloc, out, sheet, info, score, book)?;
    end_object(out)
}
