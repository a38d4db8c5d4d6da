//! What two scorers compare after an over.

ghost use Rattle.std.specs.Prelude.{◌≡◌, ◌≤◌, ◌<◌, OnOk, length};
ghost use Rattle.notation.specs.declared.entry.TheConstants.{PLACES};
ghost use Rattle.match_laws.specs.History.{begun};
ghost use Rattle.corrections.specs.CleanList.{history_of};
ghost use Rattle.corrections.specs.Overs.{balls_of, over_now};
ghost use Rattle.cards.specs.Batting as card;
ghost use Rattle.cards.specs.Begun.{ForInnings};
ghost use Rattle.streams.specs.Watched.{Prints, TellsFailure};
ghost use Rattle.score_rows.specs.Fit as fit;
ghost use Rattle.score_rows.specs.OverCheck as check;

use crate::batters::{End, other, striker};
use crate::bowler::{Bowler, bowler};
use crate::form::Form;
use crate::front::{Total, total};
use crate::limited::{LimitsLine, limits_line};
use crate::marks::{OpenMarks, newest_of, open_marks, runs_of};
use crate::room::Room;
use crate::text::Text;
use cards::{Innings, MatchSheet};
use corrections::{BookOf, Placed, overs_of};
use match_laws::Extras;
use streams::{Sink, Watched, WriteFailed};

type InRows<'a, A, B> = (A, &'a str, B, &'a str);

/// Returns two parts joined in one row, or in two rows if one would have too many columns.
#[tactic(auto, using(crate::proofs::Rooms::behind_both, crate::proofs::Rooms::left_behind))]
fn in_rows<'a, A: Text, B: Text>(
    sheet: &MatchSheet,
    first: A,
    joint: &'a str,
    beyond: &'a str,
    second: B,
) -> InRows<'a, A, B>
    ensures { ⟦<InRows<'static, A, B> as Text>⟧.bytes result
        ≡ check.in_rows sheet.now (A.bytes first) joint.now beyond.now (B.bytes second) }
{
    let room = first.behind(Room::row(sheet)).text(joint);
    let between = if second.behind(room).is_left() {
        joint
    } else {
        beyond
    };
    (first, between, second, "\n")
}

/// Returns the sum of an innings' extras.
fn all_extras(extras: &Extras) -> u64
    ensures { result ≡ card.all_extras extras.now }
{
    let off_deliveries = u64::from(extras.byes) + u64::from(extras.legs) + u64::from(extras.wides);
    off_deliveries + u64::from(extras.noballs) + u64::from(extras.penalty)
}

type ExtrasText = (
    (&'static str, u64, &'static str, (u32, &'static str, u32)),
    (
        &'static str,
        u32,
        &'static str,
        (u32, &'static str, u32, &'static str),
    ),
);

/// Returns the sum of an innings' extras, and how many there are of each kind.
fn extras_text(extras: &Extras) -> ExtrasText
    ensures { ⟦<ExtrasText as Text>⟧.bytes result ≡ check.extras_text extras.now }
{
    let all = all_extras(extras);
    (
        ("extras ", all, " (b ", (extras.byes, ", lb ", extras.legs)),
        (
            ", w ",
            extras.wides,
            ", nb ",
            (extras.noballs, ", p ", extras.penalty, ")"),
        ),
    )
}

type TotalLine<'a> = InRows<'a, (&'static str, Total<'a>), ExtrasText>;

/// Returns the row of the total and the extras.
fn total_line(innings: Innings<'_>) -> TotalLine<'_>
    ensures { ForInnings innings.entry (λ s h i. ⟦<TotalLine<'static> as Text>⟧.bytes result ≡ check.total_line s h i) }
{
    let extras = innings.score.extras(innings.index);
    in_rows(
        innings.sheet,
        ("  ", total(innings)),
        ", ",
        ",\n    ",
        extras_text(&extras),
    )
}

type BattersLine<'a> = InRows<'a, (&'static str, End<'a>), End<'a>>;

/// Returns the row of both batters.
fn batters_line(innings: Innings<'_>) -> BattersLine<'_>
    ensures { ForInnings innings.entry (λ s h i. ⟦<BattersLine<'static> as Text>⟧.bytes result ≡ check.batters_line s h i) }
{
    in_rows(
        innings.sheet,
        ("  ", striker(Form::Whole, innings)),
        "  ",
        "\n    ",
        other(Form::Whole, innings),
    )
}

type Marked<'a> = (OpenMarks<'a>, &'static str, u32);

/// Returns the marks of an over, all or only those shown, and all its runs.
fn marked<'a>(over: &[Placed], is_all: bool, shown: &'a [Placed]) -> Marked<'a>
    requires { length over.now ≤ PLACES }
    ensures { ⟦<Marked<'static> as Text>⟧.bytes result
        ≡ check.marked (balls_of over.now) is_all (balls_of shown.now) }
{
    (open_marks(over, is_all, shown), " = ", runs_of(over))
}

/// Returns the room left in a row that holds these marks alone.
#[tactic(auto, using(crate::proofs::Rooms::behind_both))]
fn own_room(sheet: &MatchSheet, over: &[Placed], is_all: bool, shown: &[Placed]) -> Room
    requires { length over.now ≤ PLACES }
    ensures { result ≡ fit.behind (fit.all_columns sheet.now)
        (check.own_row (balls_of over.now) is_all (balls_of shown.now)) }
{
    let marked = marked(over, is_all, shown);
    marked.behind(Room::row(sheet).text("  "))
}

/// Returns an over with all its marks if they fit in a row of their own, else with the newest that fit.
#[tactic(auto, using(crate::proofs::Rooms::left_behind))]
fn over_text<'a>(sheet: &MatchSheet, over: &'a [Placed]) -> Marked<'a>
    requires { length over.now ≤ PLACES }
    ensures { ⟦<Marked<'static> as Text>⟧.bytes result ≡ check.over_text sheet.now (balls_of over.now) }
{
    if own_room(sheet, over, true, over).is_left() {
        return marked(over, true, over);
    }
    let shown = newest_of(over, own_room(sheet, over, false, &[]));
    marked(over, false, shown)
}

type OverLine<'a> = Option<InRows<'a, Bowler<'a>, Marked<'a>>>;

/// Returns the row of the last delivery's bowler and over, if there is one.
fn over_line<'a, B: BookOf>(sheet: &'a MatchSheet, book: &'a B, innings: usize) -> OverLine<'a>
    requires { innings < begun (history_of (B.content book.now)) }
    ensures { ⟦<OverLine<'static> as Text>⟧.bytes result ≡ check.over_line sheet.now
        (history_of (B.content book.now)) innings (over_now (history_of (B.content book.now))) }
{
    let overs = overs_of(book);
    let player = overs.bowler()?;
    let now = Innings {
        sheet,
        score: book.score(),
        index: innings,
    };
    Some(in_rows(
        sheet,
        bowler(Form::Whole, now, Some(player)),
        "",
        "\n  ",
        over_text(sheet, overs.newest()),
    ))
}

type CheckLines<'a> = (TotalLine<'a>, BattersLine<'a>, OverLine<'a>, LimitsLine<'a>);

/// Returns the rows of the check of an over.
fn check_lines<'a, B: BookOf>(sheet: &'a MatchSheet, book: &'a B, innings: usize) -> CheckLines<'a>
    requires { innings < begun (history_of (B.content book.now)) }
    ensures { ⟦<CheckLines<'static> as Text>⟧.bytes result
        ≡ check.check_lines sheet.now (history_of (B.content book.now)) innings }
{
    let now = Innings {
        sheet,
        score: book.score(),
        index: innings,
    };
    (
        total_line(now),
        batters_line(now),
        over_line(sheet, book, innings),
        limits_line(sheet, book, innings),
    )
}

/// Prints what two scorers compare after an over: the total with the extras, both batters, and the bowler of the last
/// delivery with its over. A row that has more columns than the sheet allows is broken in two; an over that is too long even
/// then loses its oldest marks.
pub fn print_check<W: Sink, B: BookOf>(
    out: &mut Watched<W>,
    sheet: &MatchSheet,
    book: &B,
) -> Result<(), WriteFailed>
    ensures text { OnOk result (Prints W.contents out.old out.new
        (check.over_check sheet.now (history_of (B.content book.now)))) }
    ensures failed { TellsFailure result out.old out.new }
{
    let begun = book.score().begun();
    if begun == 0 {
        return writeln!(out, "No play");
    }
    check_lines(sheet, book, begun - 1).print(out)
}
