//! The batters at the ends. If a row cuts both names so that they look alike, their numbers stand before them.

ghost use Rattle.std.specs.Prelude.{◌≡◌};
ghost use Rattle.cards.specs.Begun.{ForInnings};
ghost use Rattle.score_rows.specs.Row as rows;

use crate::form::{Form, Name, are_alike, cut};
use crate::text::Text;
use cards::{Innings, MatchSheet};
use match_laws::BattingRow;
use notation::{Player, Side};

/// Whether the names of these two players of a side look alike as the form cuts them.
fn are_both_alike(
    form: Form,
    sheet: &MatchSheet,
    side: Side,
    striker: Option<Player>,
    other: Option<Player>,
) -> bool
    ensures { result ≡ rows.are_both_alike form sheet.now side striker other }
{
    match striker {
        None => false,
        Some(striker) => match other {
            None => false,
            Some(other) => are_alike(
                sheet.player(side, striker),
                sheet.player(side, other),
                form.letters(),
            ),
        },
    }
}

/// Whether the names of the batters at both ends look alike as the form cuts them.
fn are_ends_alike(form: Form, innings: Innings<'_>) -> bool
    ensures { ForInnings innings.entry (λ s h i. result ≡ rows.are_ends_alike form s h i) }
{
    let ends = innings.score.ends();
    are_both_alike(
        form,
        innings.sheet,
        innings.side(),
        ends.striker,
        ends.other,
    )
}

pub type Number = Option<(u32, &'static str)>;

/// Returns a batter's number to stand before his name, if the two names look alike.
fn number(is_alike: bool, batter: Option<Player>) -> Number
    ensures { ⟦<Number as Text>⟧.bytes result ≡ rows.number_text is_alike batter }
{
    match batter {
        Some(player) if is_alike => Some((u32::from(player.number()), " ")),
        _ => None,
    }
}

pub type BatterFigures = (
    &'static str,
    u32,
    &'static str,
    (u32, &'static str, &'static str),
);

/// Returns a batter's runs and the balls he faced, followed by this mark.
fn batter_figures(row: &BattingRow, mark: &'static str) -> BatterFigures
    ensures { ⟦<BatterFigures as Text>⟧.bytes result ≡ rows.batter_figures row.now.runs row.now.faced mark.now }
{
    (" ", row.runs, " (", (row.faced, ")", mark))
}

pub type Batter<'a> = (Name<'a>, Option<BatterFigures>);

/// Returns the batter at an end with his figures and this mark, or `-` if the end is vacant.
fn batter<'a>(
    form: Form,
    innings: Innings<'a>,
    mark: &'static str,
    batter: Option<Player>,
) -> Batter<'a>
    ensures { ForInnings innings.entry (λ s h i.
        ⟦<Batter<'static> as Text>⟧.bytes result ≡ rows.batter form s h i mark.now batter) }
{
    let Some(player) = batter else {
        return (("-", ""), None);
    };
    let name = innings.sheet.player(innings.side(), player);
    let row = innings.score.batting_row(innings.index, player);
    (cut(name, form.letters()), Some(batter_figures(&row, mark)))
}

pub type End<'a> = (Number, Batter<'a>);

/// Returns the striker, marked `*`.
pub fn striker(form: Form, innings: Innings<'_>) -> End<'_>
    ensures { ForInnings innings.entry (λ s h i. ⟦<End<'static> as Text>⟧.bytes result ≡ rows.striker form s h i) }
{
    let ends = innings.score.ends();
    (
        number(are_ends_alike(form, innings), ends.striker),
        batter(form, innings, "*", ends.striker),
    )
}

/// Returns the batter at the other end.
pub fn other(form: Form, innings: Innings<'_>) -> End<'_>
    ensures { ForInnings innings.entry (λ s h i. ⟦<End<'static> as Text>⟧.bytes result ≡ rows.other form s h i) }
{
    let ends = innings.score.ends();
    (
        number(are_ends_alike(form, innings), ends.other),
        batter(form, innings, "", ends.other),
    )
}

pub type Batters<'a> = (End<'a>, &'static str, End<'a>);

/// Returns the striker and the batter at the other end.
pub fn batters(form: Form, innings: Innings<'_>) -> Batters<'_>
    ensures { ForInnings innings.entry (λ s h i. ⟦<Batters<'static> as Text>⟧.bytes result ≡ rows.batters form s h i) }
{
    (striker(form, innings), "  ", other(form, innings))
}
