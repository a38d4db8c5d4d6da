//! What follows from the limits of the sheet.

ghost use Rattle.std.specs.Prelude.{◌≡◌, ◌<◌};
ghost use Rattle.match_laws.specs.History.{begun};
ghost use Rattle.corrections.specs.CleanList.{history_of};
ghost use Rattle.corrections.specs.Overs.{AreOversOf};
ghost use Rattle.limits.specs.Rates as rates;
ghost use Rattle.cards.specs.Begun.{ForInnings};
ghost use Rattle.scoreboard.specs.Limited as laws;

use crate::recent::last_rate;
use cards::{Innings, MatchSheet};
use corrections::{BookOf, Overs};
use limits::{
    a_ball, an_over, deliveries_left, is_free_hit, overs_bowled, overs_left, powerplay_now,
    run_rate, runs_needed,
};
use notation::Player;

/// What follows from the limits for the innings that began last; rates are in hundredths.
#[derive(Clone, Copy)]
pub struct Situation {
    /// The number of overs that the innings has.
    pub overs: Option<u16>,
    pub overs_left: Option<u32>,
    pub balls_left: Option<u32>,
    pub needed_an_over: Option<u64>,
    pub needed_a_ball: Option<u64>,
    pub run_rate: Option<u64>,
    /// The run rate in the last five overs.
    pub last_rate: Option<u64>,
    pub free_hit: bool,
    /// The powerplay that the over is in, from 1.
    pub powerplay: Option<usize>,
    /// The number of overs in which the bowler has bowled.
    pub bowler_overs: Option<u32>,
}

/// Returns the number of overs of the innings, while it is open.
fn overs_open(innings: Innings<'_>) -> Option<u16>
    ensures { ForInnings innings.entry (λ s h i. result ≡ laws.overs_open s h i) }
{
    if innings.score.is_open() {
        innings.sheet.limits().overs_for(innings.index)
    } else {
        None
    }
}

/// Returns how many of this number of overs are left.
fn overs_in(innings: Innings<'_>, overs: Option<u16>) -> Option<u32>
    ensures { ForInnings innings.entry (λ s h i. result ≡ laws.overs_in h i overs) }
{
    match overs {
        None => None,
        Some(overs) => Some(overs_left(innings.score, innings.index, overs)),
    }
}

/// Returns how many deliveries are left of this number of overs.
fn balls_in(innings: Innings<'_>, overs: Option<u16>) -> Option<u32>
    ensures { ForInnings innings.entry (λ s h i. result ≡ laws.balls_in h i overs) }
{
    match overs {
        None => None,
        Some(overs) => Some(deliveries_left(innings.score, innings.index, overs)),
    }
}

/// Returns the runs needed an over, if both the runs and the deliveries left are known.
fn needed_an_over(runs: Option<u32>, left: Option<u32>) -> Option<u64>
    ensures { result ≡ laws.rate_of rates.an_over runs left }
{
    match runs {
        None => None,
        Some(runs) => match left {
            None => None,
            Some(left) => an_over(runs, left),
        },
    }
}

/// Returns the runs needed a ball, if both the runs and the deliveries left are known.
fn needed_a_ball(runs: Option<u32>, left: Option<u32>) -> Option<u64>
    ensures { result ≡ laws.rate_of rates.a_ball runs left }
{
    match runs {
        None => None,
        Some(runs) => match left {
            None => None,
            Some(left) => a_ball(runs, left),
        },
    }
}

/// Returns in how many overs the bowler has bowled.
fn bowled_by<B: BookOf>(book: &B, bowler: Option<Player>) -> Option<u32>
    ensures { result ≡ laws.bowled_by (history_of (B.content book.now)) bowler }
{
    match bowler {
        None => None,
        Some(player) => Some(overs_bowled(book, player)),
    }
}

/// Whether the next delivery is a free hit.
fn is_free_now<B: BookOf>(sheet: &MatchSheet, book: &B) -> bool
    ensures { result ≡ laws.is_free_now sheet.now (history_of (B.content book.now)) }
{
    sheet.limits().free_hits() && is_free_hit(book)
}

/// Returns what follows for an innings of the book, whose overs these are.
fn situation_in<B: BookOf>(
    sheet: &MatchSheet,
    book: &B,
    overs: &Overs<'_>,
    innings: usize,
) -> Situation
    requires { innings < begun (history_of (B.content book.now)) }
    ensures { AreOversOf overs.now (history_of (B.content book.now))
        → result ≡ laws.situation_in sheet.now (B.innings_a_side book.now) (history_of (B.content book.now)) innings }
{
    let score = book.score();
    let now = Innings {
        sheet,
        score,
        index: innings,
    };
    let most = overs_open(now);
    let left = balls_in(now, most);
    let needed = runs_needed(score);
    Situation {
        overs: most,
        overs_left: overs_in(now, most),
        balls_left: left,
        needed_an_over: needed_an_over(needed, left),
        needed_a_ball: needed_a_ball(needed, left),
        run_rate: run_rate(score, innings),
        last_rate: last_rate(book),
        free_hit: is_free_now(sheet, book),
        powerplay: powerplay_now(score, sheet.limits(), innings),
        bowler_overs: bowled_by(book, overs.bowler()),
    }
}

fn no_situation() -> Situation
    ensures { result ≡ laws.no_situation }
{
    Situation {
        overs: None,
        overs_left: None,
        balls_left: None,
        needed_an_over: None,
        needed_a_ball: None,
        run_rate: None,
        last_rate: None,
        free_hit: false,
        powerplay: None,
        bowler_overs: None,
    }
}

/// Returns what follows for the innings that began last in the book, whose overs these are.
pub fn situation_of<B: BookOf>(sheet: &MatchSheet, book: &B, overs: &Overs<'_>) -> Situation
    ensures { AreOversOf overs.now (history_of (B.content book.now))
        → result ≡ laws.situation_of sheet.now (B.innings_a_side book.now) (history_of (B.content book.now)) }
{
    let begun = book.score().begun();
    if begun == 0 {
        return no_situation();
    }
    situation_in(sheet, book, overs, begun - 1)
}
