//! The row of an innings, fitted to the columns of the sheet.

ghost use Rattle.std.specs.Prelude.{◌≡◌, ◌<◌, [], false};
ghost use Rattle.match_laws.specs.History.{begun};
ghost use Rattle.corrections.specs.CleanList.{history_of};
ghost use Rattle.corrections.specs.Overs.{balls_of};
ghost use Rattle.score_rows.specs.Fit as fit;
ghost use Rattle.score_rows.specs.Row as rows;
ghost use Rattle.ball_laws.specs.History.{open_over};

use crate::aim::{Aim, aim};
use crate::bowler::{Bowling, bowling};
use crate::form::Form;
use crate::front::{Ahead, ahead};
use crate::limited::{free, left_now};
use crate::marks::{OpenMarks, newest_of, open_marks};
use crate::over_end::{OverEnd, over_end};
use crate::room::Room;
use crate::text::Text;
use cards::{Innings, MatchSheet};
use corrections::{BookOf, Placed, overs_of};

pub type Back<'a> = (Bowling<'a>, OpenMarks<'a>, &'static str, (Aim, OverEnd));

/// Returns the part of an innings' row after the batters.
#[tactic(auto, unfolding(crate::specs::Row::back))]
fn back<'a, B: BookOf>(
    form: Form,
    is_all: bool,
    shown: &'a [Placed],
    sheet: &'a MatchSheet,
    book: &'a B,
    innings: usize,
) -> Back<'a>
    requires { innings < begun (history_of (B.content book.now)) }
    ensures { ⟦<Back<'static> as Text>⟧.bytes result ≡ rows.back form is_all (balls_of shown.now)
        sheet.now (B.innings_a_side book.now) (history_of (B.content book.now)) innings }
{
    let score = book.score();
    let over = overs_of(book).this;
    let now = Innings {
        sheet,
        score,
        index: innings,
    };
    (
        bowling(form, sheet, book, innings),
        open_marks(over, is_all, shown),
        free(form.is_beside(), sheet, book),
        (aim(score, left_now(now)), over_end(over)),
    )
}

pub type Line<'a> = (Ahead<'a>, Back<'a>);

/// Returns the bowler's row of an innings, with all marks of the open over or only the marks shown.
fn line<'a, B: BookOf>(
    form: Form,
    is_all: bool,
    shown: &'a [Placed],
    sheet: &'a MatchSheet,
    book: &'a B,
    innings: usize,
) -> Line<'a>
    requires { innings < begun (history_of (B.content book.now)) }
    ensures { ⟦<Line<'static> as Text>⟧.bytes result ≡ rows.line form is_all (balls_of shown.now)
        sheet.now (B.innings_a_side book.now) (history_of (B.content book.now)) innings }
{
    let now = Innings {
        sheet,
        score: book.score(),
        index: innings,
    };
    (
        ahead(form, now),
        back(form, is_all, shown, sheet, book, innings),
    )
}

/// Returns the bowler's row of an innings with all marks of the open over.
#[tactic(auto, unfolding(crate::specs::Row::whole_line))]
fn whole_line<'a, B: BookOf>(
    form: Form,
    sheet: &'a MatchSheet,
    book: &'a B,
    innings: usize,
) -> Line<'a>
    requires { innings < begun (history_of (B.content book.now)) }
    ensures { ⟦<Line<'static> as Text>⟧.bytes result ≡ rows.whole_line form
        sheet.now (B.innings_a_side book.now) (history_of (B.content book.now)) innings }
{
    line(form, true, overs_of(book).this, sheet, book, innings)
}

/// Returns the room left after the bowler's row without any marks.
#[tactic(auto, unfolding(crate::specs::Row::bare_line))]
fn bare_room<B: BookOf>(form: Form, sheet: &MatchSheet, book: &B, innings: usize) -> Room
    requires { innings < begun (history_of (B.content book.now)) }
    ensures { result ≡ fit.behind (fit.all_columns sheet.now) (rows.bare_line form
        sheet.now (B.innings_a_side book.now) (history_of (B.content book.now)) innings) }
{
    line(form, false, &[], sheet, book, innings).behind(Room::row(sheet))
}

/// Returns the bowler's row of an innings with as many of the newest marks as there is room for.
#[tactic(auto, unfolding(crate::specs::Row::short_line))]
fn short_line<'a, B: BookOf>(
    form: Form,
    sheet: &'a MatchSheet,
    book: &'a B,
    innings: usize,
) -> Line<'a>
    requires { innings < begun (history_of (B.content book.now)) }
    ensures { ⟦<Line<'static> as Text>⟧.bytes result ≡ rows.short_line form
        sheet.now (B.innings_a_side book.now) (history_of (B.content book.now)) innings }
{
    let room = bare_room(form, sheet, book, innings);
    let shown = newest_of(overs_of(book).this, room);
    line(form, false, shown, sheet, book, innings)
}

/// Whether the row of an innings fits in this form with all marks of the open over.
#[tactic(auto, using(crate::proofs::Rooms::left_behind))]
fn is_fit<B: BookOf>(form: Form, sheet: &MatchSheet, book: &B, innings: usize) -> bool
    requires { innings < begun (history_of (B.content book.now)) }
    ensures { result ≡ fit.fits sheet.now (rows.whole_line form
        sheet.now (B.innings_a_side book.now) (history_of (B.content book.now)) innings) }
{
    let line = whole_line(form, sheet, book, innings);
    line.behind(Room::row(sheet)).is_left()
}

/// Whether the row of an innings fits in this form without the marks of the open over.
#[tactic(auto, using(crate::proofs::Rooms::left_behind))]
fn has_room<B: BookOf>(form: Form, sheet: &MatchSheet, book: &B, innings: usize) -> bool
    requires { innings < begun (history_of (B.content book.now)) }
    ensures { result ≡ fit.fits sheet.now (rows.bare_line form
        sheet.now (B.innings_a_side book.now) (history_of (B.content book.now)) innings) }
{
    bare_room(form, sheet, book, innings).is_left()
}

/// Returns the first form in which the row of an innings fits with all marks; else the first of the last four forms in which
/// it fits without them; else the last form.
#[tactic(auto, unfolding(crate::specs::Row::form_of))]
pub fn form_of<B: BookOf>(sheet: &MatchSheet, book: &B, innings: usize) -> Form
    requires { innings < begun (history_of (B.content book.now)) }
    ensures { result ≡ rows.form_of
        sheet.now (B.innings_a_side book.now) (history_of (B.content book.now)) innings }
{
    if is_fit(Form::Whole, sheet, book, innings) {
        Form::Whole
    } else if is_fit(Form::WithoutTeam, sheet, book, innings) {
        Form::WithoutTeam
    } else if is_fit(Form::TwelveLetters, sheet, book, innings) {
        Form::TwelveLetters
    } else if is_fit(Form::TenLetters, sheet, book, innings) {
        Form::TenLetters
    } else if is_fit(Form::EightLetters, sheet, book, innings) {
        Form::EightLetters
    } else if is_fit(Form::SevenLetters, sheet, book, innings) {
        Form::SevenLetters
    } else if is_fit(Form::SixLetters, sheet, book, innings) {
        Form::SixLetters
    } else if is_fit(Form::FiveLetters, sheet, book, innings) {
        Form::FiveLetters
    } else if has_room(Form::FourLetters, sheet, book, innings) {
        Form::FourLetters
    } else if has_room(Form::WithoutLimit, sheet, book, innings) {
        Form::WithoutLimit
    } else if has_room(Form::FiguresAlone, sheet, book, innings) {
        Form::FiguresAlone
    } else {
        Form::TwoRows
    }
}

/// Returns the row of an innings in this form: with all marks if it fits, else with the newest that fit.
#[tactic(auto, using(crate::proofs::Rooms::left_behind), unfolding(crate::specs::Row::line_in))]
pub fn line_in<'a, B: BookOf>(
    form: Form,
    sheet: &'a MatchSheet,
    book: &'a B,
    innings: usize,
) -> Line<'a>
    requires { innings < begun (history_of (B.content book.now)) }
    ensures { ⟦<Line<'static> as Text>⟧.bytes result ≡ rows.line_in form
        sheet.now (B.innings_a_side book.now) (history_of (B.content book.now)) innings }
{
    let line = whole_line(form, sheet, book, innings);
    if line.behind(Room::row(sheet)).is_left() {
        line
    } else {
        short_line(form, sheet, book, innings)
    }
}
