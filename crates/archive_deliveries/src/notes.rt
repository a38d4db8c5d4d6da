//! The clean list of a book, each item with its state of the match.

ghost use Rattle.std.specs.Prelude.{◌≡◌, ◌<◌, ◌≤◌, ◌∷◌, [], IfOk, Some, None, drop, length, slice_get};
ghost use Rattle.ball_laws.specs.History.{History};
ghost use Rattle.match_laws.specs.History.{is_at, or_else};
ghost use Rattle.match_laws.specs.Stands.{ForEachHistory};
ghost use Rattle.corrections.specs.CleanList.{clean, history_of};
ghost use Rattle.corrections.specs.Legal.{IsLegalBook};

use crate::begun::Begun;
use ball_laws::Ends;
use corrections::{BookOf, Placed};
use match_laws::{Match, is_void, start};
use notation::Plain;
use std::alloc::{AllocError, Global};

/// An item of the clean list, with the state of the match before it.
#[derive(Clone, Copy)]
pub struct Noted {
    /// The innings that began last, numbered from 0; 0 before the first.
    pub innings: usize,
    /// The number of overs called in that innings.
    pub over: u32,
    /// The number of fair deliveries in the current over.
    pub balls: u32,
    /// The batter at each end.
    pub ends: Ends,
    /// For an award of penalty runs: the innings that its side had begun last before it.
    pub earlier: Option<usize>,
    /// The place of the entry.
    pub place: u32,
    pub item: Plain,
}

ghost use Rattle.archive_deliveries.specs.Notes as laws;

/// Returns the number of overs called in the innings that began last.
fn overs_called(score: &Match) -> u32
    ensures { ForEachHistory score.now (λ n h. result ≡ laws.overs_called h) }
{
    let begun = score.begun();
    if begun == 0 {
        return 0;
    }
    score.overs(begun - 1).0
}

/// Returns the number of deliveries that count in the current over.
fn balls_called(score: &Match) -> u32
    ensures { ForEachHistory score.now (λ n h. result ≡ laws.balls_called h) }
{
    let begun = score.begun();
    if begun == 0 {
        return 0;
    }
    score.overs(begun - 1).1
}

/// For an award of penalty runs, returns the innings that its side had begun last before it.
fn earlier_of(begun: &Begun, item: &Plain) -> Option<usize>
    ensures { (h : History) → begun.now ≡ laws.begun_of h → result ≡ laws.earlier_of h item.now }
{
    match item {
        Plain::Penalty(to, _, _) => begun.latest(*to),
        Plain::Innings(_)
        | Plain::Come(_)
        | Plain::Ball(_)
        | Plain::Gone(..)
        | Plain::Over
        | Plain::Swap
        | Plain::End(_)
        | Plain::Close
        | Plain::Void => None,
    }
}

/// Returns the item with the state of the match before it.
fn note(score: &Match, begun: &Begun, placed: &Placed) -> Noted
    ensures { ForEachHistory score.now (λ n h. begun.now ≡ laws.begun_of h
        → result ≡ laws.note h placed.now) }
{
    Noted {
        innings: score.begun().saturating_sub(1),
        over: overs_called(score),
        balls: balls_called(score),
        ends: score.ends(),
        earlier: earlier_of(begun, &placed.item),
        place: placed.place,
        item: placed.item,
    }
}

/// Returns the innings begun once this item is taken.
fn begun_after(score: &Match, begun: Begun, item: &Plain) -> Begun
    ensures { ForEachHistory score.now (λ n h. begun ≡ laws.begun_of h
        → result ≡ laws.begun_of (item.now ∷ h)) }
{
    match item {
        Plain::Innings(side) => begun.with(*side, score.begun()),
        Plain::Come(_)
        | Plain::Ball(_)
        | Plain::Gone(..)
        | Plain::Over
        | Plain::Penalty(..)
        | Plain::Swap
        | Plain::End(_)
        | Plain::Close
        | Plain::Void => begun,
    }
}

/// Returns the item at an index.
fn placed_at(clean_items: &[Placed], index: usize) -> Placed
    requires { index < length clean_items.now }
    ensures { slice_get clean_items.now index ≡ Some result }
{
    clean_items[index]
}

/// Returns the clean list of a book of one or two innings a side, each item with the state of the match before it, and the
/// innings that each side has begun.
pub fn notes_of<B: BookOf>(
    alloc: Global,
    innings_a_side: u32,
    book: &B,
) -> Result<(Vec<Noted>, Begun), AllocError>
    requires innings { (1 ≤ innings_a_side) × (innings_a_side ≤ 2) }
    requires legal { IsLegalBook innings_a_side (B.content book.now) }
    ensures notes { IfOk result (λ noted. noted.0.items ≡ laws.notes [] (clean (B.content book.now))) }
    ensures begun { IfOk result (λ noted. noted.1 ≡ laws.begun_of (history_of (B.content book.now))) }
{
    let mut score = start(innings_a_side);
    let mut begun = Begun::none();
    let mut notes = Vec::new(alloc);
    let clean_items = book.clean_items();
    for index in 0..clean_items.len() {
        let placed = placed_at(clean_items, index);
        if !is_void(&placed.item) {
            notes.push(note(&score, &begun, &placed))?;
            begun = begun_after(&score, begun, &placed.item);
            // No item of a book is refused.
            let _ = score.take(&placed.item);
        }
    }
    Ok((notes, begun))
}

/// Returns the item at an index.
pub fn noted_at(notes: &[Noted], index: usize) -> Noted
    requires { index < length notes.now }
    ensures { slice_get notes.now index ≡ Some result }
{
    notes[index]
}

/// Whether an item is a delivery.
pub fn is_ball(item: &Plain) -> bool
    ensures { result ≡ laws.is_ball item.now }
{
    matches!(item, Plain::Ball(_))
}

/// Returns the items of an innings.
pub fn items_in(alloc: Global, innings: usize, notes: &[Noted]) -> Result<Vec<Noted>, AllocError>
    ensures { IfOk result (λ items. items.items ≡ laws.items_in innings notes.now) }
{
    let mut items = Vec::new(alloc);
    for index in 0..notes.len() {
        let noted = noted_at(notes, index);
        if noted.innings == innings {
            items.push(noted)?;
        }
    }
    Ok(items)
}

/// Returns the items from an index up to the next delivery.
#[tactic(auto, using(corrections::proofs::ListLemmas::next, json_fields::proofs::Putting::json_parts))]
pub fn carried(alloc: Global, notes: &[Noted], from: usize) -> Result<Vec<Noted>, AllocError>
    ensures { IfOk result (λ items. items.items ≡ laws.carried (drop from notes.now)) }
{
    let mut items = Vec::new(alloc);
    for index in from..notes.len() {
        let noted = noted_at(notes, index);
        if is_ball(&noted.item) {
            return Ok(items);
        }
        items.push(noted)?;
    }
    Ok(items)
}

/// Whether an award counts in this innings: the one that its side had begun last, or else the side's first.
fn counts_in(earlier: Option<usize>, first: Option<usize>, innings: usize) -> bool
    ensures { result ≡ is_at (or_else earlier first) innings }
{
    match (earlier, first) {
        (Some(number), _) | (None, Some(number)) => number == innings,
        (None, None) => false,
    }
}

/// Whether an item awards penalty runs that count in this innings.
pub fn is_awarded(begun: &Begun, innings: usize, noted: &Noted) -> bool
    ensures { result ≡ laws.is_awarded begun.now innings noted.now }
{
    match noted.item {
        Plain::Penalty(to, _, _) => counts_in(noted.earlier, begun.first(to), innings),
        Plain::Innings(_)
        | Plain::Come(_)
        | Plain::Ball(_)
        | Plain::Gone(..)
        | Plain::Over
        | Plain::Swap
        | Plain::End(_)
        | Plain::Close
        | Plain::Void => false,
    }
}
