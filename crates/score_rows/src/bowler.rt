//! The bowler of the last delivery.

ghost use Rattle.std.specs.Prelude.{◌≡◌, ◌<◌};
ghost use Rattle.match_laws.specs.History.{begun};
ghost use Rattle.corrections.specs.CleanList.{history_of};
ghost use Rattle.cards.specs.Begun.{ForInnings};
ghost use Rattle.score_rows.specs.Row as rows;

use crate::form::{Form, Name, cut};
use crate::limited::{Past, past};
use crate::text::Text;
use cards::{Innings, MatchSheet};
use corrections::{BookOf, overs_of};
use match_laws::{BowlingRow, opponent};
use notation::{Player, Side};

pub type Figures = (
    (u32, &'static str, u32),
    (&'static str, u32, &'static str, (u32, &'static str, u32)),
);

/// Returns a bowler's overs, maidens, runs and wickets.
fn figures(row: &BowlingRow) -> Figures
    ensures { ⟦<Figures as Text>⟧.bytes result ≡ rows.figures row.now }
{
    (
        (row.overs, ".", row.balls),
        ("-", row.maidens, "-", (row.runs, "-", row.wickets)),
    )
}

pub type BowlerText<'a> = (Name<'a>, &'static str, Figures);

/// Returns a bowler of a side with his figures.
fn bowler_text<'a>(
    form: Form,
    sheet: &'a MatchSheet,
    side: Side,
    player: Player,
    row: &BowlingRow,
) -> BowlerText<'a>
    ensures { ⟦<BowlerText<'static> as Text>⟧.bytes result ≡ rows.bowler_text form sheet.now side player row.now }
{
    (
        cut(sheet.player(side, player), form.letters()),
        " ",
        figures(row),
    )
}

pub type Bowler<'a> = Option<(&'static str, BowlerText<'a>)>;

/// Returns this bowler of the innings with his figures, if there is one.
pub fn bowler<'a>(form: Form, innings: Innings<'a>, bowler: Option<Player>) -> Bowler<'a>
    ensures { ForInnings innings.entry (λ s h i.
        ⟦<Bowler<'static> as Text>⟧.bytes result ≡ rows.bowler form s h i bowler) }
{
    let player = bowler?;
    let side = opponent(innings.side());
    let row = innings.score.bowling_row(innings.index, player);
    Some(("  ", bowler_text(form, innings.sheet, side, player, &row)))
}

pub type Bowling<'a> = (Bowler<'a>, Past);

/// Returns the bowler of the last delivery, and that he has bowled more overs than allowed, if the row tells that.
pub fn bowling<'a, B: BookOf>(
    form: Form,
    sheet: &'a MatchSheet,
    book: &'a B,
    innings: usize,
) -> Bowling<'a>
    requires { innings < begun (history_of (B.content book.now)) }
    ensures { ⟦<Bowling<'static> as Text>⟧.bytes result
        ≡ rows.bowling form sheet.now (history_of (B.content book.now)) innings }
{
    let overs = overs_of(book);
    let most = sheet.limits().overs_a_bowler();
    let now = Innings {
        sheet,
        score: book.score(),
        index: innings,
    };
    let bowler = bowler(form, now, overs.bowler());
    (bowler, past(book, form.beside(most), overs.bowler()))
}
