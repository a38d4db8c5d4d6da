//! The front of an innings' row, up to its batters.

ghost use Rattle.std.specs.Prelude.{◌≡◌};
ghost use Rattle.cards.specs.Begun.{ForInnings};
ghost use Rattle.score_rows.specs.Row as rows;

use crate::batters::{Batters, batters};
use crate::form::Form;
use crate::limited::{OfOvers, of_overs};
use crate::text::Text;
use cards::Innings;

pub type Runs = (u32, &'static str, u32);

/// Returns the total and the wickets.
fn runs(innings: Innings<'_>) -> Runs
    ensures { ForInnings innings.entry (λ s h i. ⟦<Runs as Text>⟧.bytes result ≡ rows.runs_text h i) }
{
    let total = innings.score.total(innings.index);
    let wickets = innings.score.wickets(innings.index);
    (total, " for ", wickets)
}

pub type Team<'a> = Option<(&'a str, &'static str)>;

/// Returns the batting side's name, if the form shows it.
fn team<'a>(form: Form, innings: Innings<'a>) -> Team<'a>
    ensures { ForInnings innings.entry (λ s h i. ⟦<Team<'static> as Text>⟧.bytes result ≡ rows.team_text form s h i) }
{
    if form.has_team() {
        Some((innings.sheet.name(innings.side()), " "))
    } else {
        None
    }
}

pub type Total<'a> = (&'a str, &'static str, Runs);

/// Returns the batting side's name, its total and its wickets.
pub fn total(innings: Innings<'_>) -> Total<'_>
    ensures { ForInnings innings.entry (λ s h i. ⟦<Total<'static> as Text>⟧.bytes result ≡ rows.total_text s h i) }
{
    (innings.sheet.name(innings.side()), " ", runs(innings))
}

pub type OversFront = (&'static str, u32, &'static str, u32);

/// Returns the overs called, and the deliveries counted since.
fn overs_front(innings: Innings<'_>) -> OversFront
    ensures { ForInnings innings.entry (λ s h i. ⟦<OversFront as Text>⟧.bytes result ≡ rows.overs_front h i) }
{
    let (called, since) = innings.score.overs(innings.index);
    (" (", called, ".", since)
}

pub type Overs = (OversFront, OfOvers, &'static str);

/// Returns the overs of an innings, with how many it may have if the form shows that.
fn overs(form: Form, innings: Innings<'_>) -> Overs
    ensures { ForInnings innings.entry (λ s h i. ⟦<Overs as Text>⟧.bytes result ≡ rows.overs_text form s h i) }
{
    let limit = innings.sheet.limits().overs_for(innings.index);
    (overs_front(innings), of_overs(form.limit_in(limit)), ")")
}

pub type Front<'a> = ((Team<'a>, Runs, Overs, &'static str), Batters<'a>);

/// Returns the front of an innings' row, with its batters.
fn front<'a>(form: Form, innings: Innings<'a>) -> Front<'a>
    ensures { ForInnings innings.entry (λ s h i. ⟦<Front<'static> as Text>⟧.bytes result ≡ rows.front form s h i) }
{
    (
        (
            team(form, innings),
            runs(innings),
            overs(form, innings),
            "  ",
        ),
        batters(form, innings),
    )
}

pub type Above<'a> = Option<(Front<'a>, &'static str)>;

/// Returns the batters' row, if the form puts the bowler on a row of his own below it.
pub fn above<'a>(form: Form, innings: Innings<'a>) -> Above<'a>
    ensures { ForInnings innings.entry (λ s h i. ⟦<Above<'static> as Text>⟧.bytes result ≡ rows.above form s h i) }
{
    if form.is_two() {
        Some((front(form, innings), "\n"))
    } else {
        None
    }
}

pub type Ahead<'a> = Option<Front<'a>>;

/// Returns what stands before the bowler in his row: the front, unless that has a row of its own.
pub fn ahead<'a>(form: Form, innings: Innings<'a>) -> Ahead<'a>
    ensures { ForInnings innings.entry (λ s h i. ⟦<Ahead<'static> as Text>⟧.bytes result ≡ rows.ahead form s h i) }
{
    if form.is_two() {
        None
    } else {
        Some(front(form, innings))
    }
}
