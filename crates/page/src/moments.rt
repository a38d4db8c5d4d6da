//! Each item of a match, with the state of play before it and the score after it.

ghost use Rattle.std.specs.Prelude.{◌≡◌, ◌+◌, ◌*◌, ◌<◌, ◌≤◌, ◌∷◌, [], IfOk, OnOk, Some, ℕ, length, slice_get};
ghost use Rattle.notation.specs.declared.entry.TheConstants.{PLACES};
ghost use Rattle.ball_laws.specs.History.{History};
ghost use Rattle.match_laws.specs.Result as results;
ghost use Rattle.match_laws.specs.Stands.{ForEachHistory};
ghost use Rattle.corrections.specs.CleanList.{clean};
ghost use Rattle.corrections.specs.Legal.{IsLegalBook};
ghost use Rattle.archive_deliveries.specs.Notes as notes;

use cards::all_runs;
use corrections::{BookOf, Placed};
use match_laws::{Match, is_void, start};
use notation::{Ball, Plain, Player};
use std::alloc::{AllocError, Global};

/// The over in progress.
#[derive(Clone, Copy)]
pub struct OverSoFar {
    /// Who bowled the over's last delivery; none before its first.
    pub bowler: Option<Player>,
    /// The runs of the over's deliveries.
    pub runs: u32,
    /// The wickets that fell off those deliveries.
    pub down: u32,
}

/// An item of the clean list, with the state of play before it and the score after it.
#[derive(Clone, Copy)]
pub struct Moment {
    /// The innings that began last, numbered from 0, or the one that this item begins; 0 before the first.
    pub innings: usize,
    /// Whether an innings was open before the item.
    pub on: bool,
    /// How many overs had been called in the innings before the item.
    pub overs: u32,
    /// How many fair deliveries the over in progress had before the item.
    pub balls: u32,
    pub over: OverSoFar,
    /// The score after the item.
    pub total: u32,
    pub wickets: u32,
    pub item: Plain,
}

ghost use Rattle.page.specs.Moments as laws;

/// Returns the over in progress before its first delivery.
fn no_over() -> OverSoFar
    ensures { result ≡ laws.over_so_far [] }
{
    OverSoFar {
        bowler: None,
        runs: 0,
        down: 0,
    }
}

/// Returns the over with one more delivery.
fn over_with(over: &OverSoFar, ball: &Ball) -> OverSoFar
    requires runs { over.now.runs ≤ 260 * PLACES }
    requires down { over.now.down ≤ PLACES }
    ensures value { result ≡ laws.over_with over.now ball.now }
    ensures runs { result.runs ≤ over.now.runs + 260 }
    ensures down { result.down ≤ over.now.down + 1 }
{
    OverSoFar {
        bowler: Some(ball.bowler),
        runs: over.runs + all_runs(ball),
        down: over.down + u32::from(ball.out.is_some()),
    }
}

/// Returns the over in progress after an item.
fn over_after(over: &OverSoFar, item: &Plain) -> OverSoFar
    requires runs { over.now.runs ≤ 260 * PLACES }
    requires down { over.now.down ≤ PLACES }
    ensures value { (h : History) → over.now ≡ laws.over_so_far h → result ≡ laws.over_so_far (item.now ∷ h) }
    ensures runs { result.runs ≤ over.now.runs + 260 }
    ensures down { result.down ≤ over.now.down + 1 }
{
    match item {
        Plain::Ball(ball) => over_with(over, ball),
        Plain::Over | Plain::Innings(_) | Plain::End(_) => no_over(),
        _ => *over,
    }
}

/// Returns how many overs were called in the innings that began last.
fn overs_called(score: &Match) -> u32
    ensures { ForEachHistory score.now (λ n h. result ≡ notes.overs_called h) }
{
    let begun = score.begun();
    if begun == 0 {
        return 0;
    }
    score.overs(begun - 1).0
}

/// Returns how many deliveries count in the over in progress.
fn balls_called(score: &Match) -> u32
    ensures { ForEachHistory score.now (λ n h. result ≡ notes.balls_called h) }
{
    let begun = score.begun();
    if begun == 0 {
        return 0;
    }
    score.overs(begun - 1).1
}

/// Returns the total of the innings that began last.
fn total_now(score: &Match) -> u32
    ensures { ForEachHistory score.now (λ n h. result ≡ laws.total_now h) }
{
    let begun = score.begun();
    if begun == 0 {
        return 0;
    }
    score.total(begun - 1)
}

/// Returns the wickets of the innings that began last.
fn wickets_now(score: &Match) -> u32
    ensures { ForEachHistory score.now (λ n h. result ≡ laws.wickets_now h) }
{
    let begun = score.begun();
    if begun == 0 {
        return 0;
    }
    score.wickets(begun - 1)
}

/// Returns the number of the innings that began last, from 0; 0 before the first.
fn current(score: &Match) -> usize
    ensures { ForEachHistory score.now (λ n h. result ≡ results.current h) }
{
    score.begun().saturating_sub(1)
}

/// Returns an item with the state of the match before it, and without the score after it.
fn before(score: &Match, over: &OverSoFar, item: &Plain) -> Moment
    ensures { ForEachHistory score.now (λ n h. over.now ≡ laws.over_so_far h → result ≡ laws.before h item.now) }
{
    Moment {
        innings: 0,
        on: score.is_open(),
        overs: overs_called(score),
        balls: balls_called(score),
        over: *over,
        total: 0,
        wickets: 0,
        item: *item,
    }
}

/// Returns the item with the score after it.
fn behind(before: &Moment, score: &Match) -> Moment
    ensures { ForEachHistory score.now (λ n h. result ≡ laws.behind before.now h) }
{
    Moment {
        innings: current(score),
        total: total_now(score),
        wickets: wickets_now(score),
        ..*before
    }
}

/// Returns the item of the clean list at an index.
fn placed_at(clean_items: &[Placed], index: usize) -> Placed
    requires { index < length clean_items.now }
    ensures { slice_get clean_items.now index ≡ Some result }
{
    clean_items[index]
}

/// Returns the item at an index.
pub fn moment_at(moments: &[Moment], index: usize) -> Moment
    requires { index < length moments.now }
    ensures { slice_get moments.now index ≡ Some result }
{
    moments[index]
}

/// Returns the items of a book of one or two innings a side, and then its end.
pub fn moments_of<B: BookOf>(
    alloc: Global,
    innings_a_side: u32,
    book: &B,
) -> Result<Vec<Moment>, AllocError>
    requires innings { (1 ≤ innings_a_side) × (innings_a_side ≤ 2) }
    requires legal { IsLegalBook innings_a_side (B.content book.now) }
    ensures { IfOk result (λ moments. moments.items ≡ laws.moments [] (clean (B.content book.now))) }
{
    let mut score = start(innings_a_side);
    let mut over = no_over();
    let mut moments = Vec::new(alloc);
    let clean_items = book.clean_items();
    for index in 0..clean_items.len() {
        let placed = placed_at(clean_items, index);
        if !is_void(&placed.item) {
            let told = before(&score, &over, &placed.item);
            // No item of a legal book is refused.
            let _ = score.take(&placed.item);
            moments.push(behind(&told, &score))?;
            over = over_after(&over, &placed.item);
        }
    }
    let end = before(&score, &over, &Plain::Void);
    moments.push(behind(&end, &score))?;
    Ok(moments)
}
