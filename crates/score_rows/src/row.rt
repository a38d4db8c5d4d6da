//! The state of a match: a row that is fitted to its columns, and the rows below it.

ghost use Rattle.std.specs.Prelude.{◌≡◌, ◌<◌, OnOk};
ghost use Rattle.match_laws.specs.History.{begun};
ghost use Rattle.corrections.specs.CleanList.{history_of};
ghost use Rattle.streams.specs.Watched.{Prints, TellsFailure};
ghost use Rattle.score_rows.specs.Row as rows;

use crate::aim::{needs_row, result_row};
use crate::fit::{form_of, line_in};
use crate::form::Form;
use crate::front::above;
use crate::limited::{BowlerRow, free_row, left_now, past_row};
use crate::text::Text;
use cards::{Innings, MatchSheet};
use corrections::{BookOf, overs_of};
use streams::{Sink, Watched, WriteFailed};

type LimitsBelow<'a> = (BowlerRow<'a>, &'static str);

/// Returns the rows about limits that have no room in the row.
fn limits_below<'a, B: BookOf>(
    form: Form,
    sheet: &'a MatchSheet,
    book: &B,
    innings: usize,
) -> LimitsBelow<'a>
    requires { innings < begun (history_of (B.content book.now)) }
    ensures { ⟦<LimitsBelow<'static> as Text>⟧.bytes result
        ≡ rows.limits_below form sheet.now (history_of (B.content book.now)) innings }
{
    let most = form.below(sheet.limits().overs_a_bowler());
    let bowler = overs_of(book).bowler();
    (
        past_row(sheet, book, innings, most, bowler),
        free_row(!form.is_beside(), sheet, book),
    )
}

/// Prints the row of an innings, and the rows below it.
fn print_innings<W: Sink, B: BookOf>(
    out: &mut Watched<W>,
    sheet: &MatchSheet,
    book: &B,
    innings: usize,
) -> Result<(), WriteFailed>
    requires { innings < begun (history_of (B.content book.now)) }
    ensures text { OnOk result (Prints W.contents out.old out.new
        (rows.innings_row sheet.now (B.innings_a_side book.now) (history_of (B.content book.now)) innings)) }
    ensures failed { TellsFailure result out.old out.new }
{
    let form = form_of(sheet, book, innings);
    let score = book.score();
    let now = Innings {
        sheet,
        score,
        index: innings,
    };
    above(form, now).print(out)?;
    line_in(form, sheet, book, innings).print(out)?;
    writeln!(out)?;
    limits_below(form, sheet, book, innings).print(out)?;
    needs_row(score, left_now(now)).print(out)?;
    result_row(sheet, score).print(out)
}

/// Prints the state of a book's match in one row. If that has more columns than the sheet allows, the team's name is left
/// out, then players' names are cut, down to four letters (numbers tell apart two batters whose names then look alike), then
/// the oldest marks of the over are left out. If the row is too long with no mark at all, the number of overs of the innings
/// is left out, then a bowler's limit and a free hit go to rows below, and at last the bowler goes to a row of his own. The
/// rows below also have the runs needed in a chase of limited overs, and the result.
pub fn print_row<W: Sink, B: BookOf>(
    out: &mut Watched<W>,
    sheet: &MatchSheet,
    book: &B,
) -> Result<(), WriteFailed>
    ensures text { OnOk result (Prints W.contents out.old out.new
        (rows.row sheet.now (B.innings_a_side book.now) (history_of (B.content book.now)))) }
    ensures failed { TellsFailure result out.old out.new }
{
    let begun = book.score().begun();
    if begun == 0 {
        return writeln!(out, "No play");
    }
    print_innings(out, sheet, book, begun - 1)
}
