//! The bowler and the overs among the items that stand.

ghost use Rattle.std.specs.Prelude.{◌≡◌, ℕ, ◌≤◌, List, length, take, true};
ghost use Rattle.notation.specs.declared.entry.Ball.{Ball};
ghost use Rattle.notation.specs.declared.entry.TheConstants.{PLACES};
ghost use Rattle.ball_laws.specs.History.{History, last_called_over};
ghost use Rattle.corrections.specs.CleanList.{history, history_of, kept};
ghost use Rattle.corrections.specs.Overs.{AreOversOf, balls_of};
ghost use Rattle.corrections.specs.Overs as laws;
ghost use Rattle.corrections.specs.inner.Overs.{AddFrom, is_parted};
ghost use Rattle.corrections.specs.inner.Overs as steps;

use crate::book_of::BookOf;
use crate::placed::Placed;
use notation::{Plain, Player};

/// The over in progress, and the over called last in the open innings. Each holds the items that stand from its
/// beginning to its end, deliveries and others, and is empty if there is no such over.
#[derive(Clone, Copy)]
pub struct Overs<'a> {
    pub this: &'a [Placed],
    pub last: &'a [Placed],
}

/// Returns who bowled the last delivery after one more item, given who did before it.
fn bowler_after(bowler: Option<Player>, item: &Plain) -> Option<Player>
    ensures { (over : List Ball) → bowler ≡ laws.newest_bowler over
        → result ≡ laws.newest_bowler (laws.bowled item.now over) }
{
    match item {
        Plain::Ball(ball) => Some(ball.bowler),
        _ => bowler,
    }
}

/// Returns who bowled the last delivery among these items, if there is one.
pub fn bowler_of(items: &[Placed]) -> Option<Player>
    ensures { result ≡ laws.newest_bowler (balls_of items.now) }
{
    let mut bowler = None;
    for placed in items {
        bowler = bowler_after(bowler, &placed.item);
    }
    bowler
}

impl<'a> Overs<'a> {
    /// Returns who bowled the last delivery of this over, or else of the last over.
    pub fn bowler(&self) -> Option<Player>
        ensures { (h : History) → AreOversOf self.now h → result ≡ laws.bowler_now h }
    {
        bowler_of(self.this).or(bowler_of(self.last))
    }

    /// Returns the over of the innings' last delivery: this over, or the last over if this one has no delivery yet.
    pub fn newest(&self) -> &'a [Placed]
        ensures over { (h : History) → AreOversOf self.now h → balls_of result.now ≡ laws.over_now h }
        ensures few { (most : ℕ) → length ((self.now).this).now ≤ most → length ((self.now).last).now ≤ most
            → length result.now ≤ most }
    {
        if bowler_of(self.this).is_some() {
            self.this
        } else {
            self.last
        }
    }
}

/// Whether the item parts overs: no over has deliveries both before and after it.
fn parts_overs(item: &Plain) -> bool
    ensures { result ≡ steps.parts_overs item.now }
{
    matches!(item, Plain::Over | Plain::Innings(_) | Plain::End(_))
}

fn is_call(item: &Plain) -> bool
    ensures { result ≡ steps.is_call item.now }
{
    matches!(item, Plain::Over)
}

/// Returns the index at which the over in progress begins.
fn over_from(items: &[Placed]) -> usize
    ensures adds { AddFrom items.now result }
    ensures parted { is_parted (history (take result items.now)) ≡ true }
{
    for behind in 0..items.len() {
        let from = items.len() - behind;
        if parts_overs(&items[from - 1].item) {
            return from;
        }
    }
    0
}

/// Returns the over that was called last, given the items before the over in progress.
fn called_over(before: &[Placed]) -> &[Placed]
    requires { is_parted (history before.now) ≡ true }
    ensures over { balls_of result.now ≡ last_called_over (history before.now) }
    ensures few { length result.now ≤ length before.now }
{
    if before.is_empty() || !is_call(&before[before.len() - 1].item) {
        return &before[..0];
    }
    let earlier = &before[..before.len() - 1];
    &earlier[over_from(earlier)..]
}

/// Returns the overs among the first items that stand in a book. It reads them from the last one back, only as far as
/// the beginning of the last over.
pub fn overs_among(items: &[Placed]) -> Overs<'_>
    ensures all { AreOversOf result (history items.now) }
    ensures kept { AreOversOf result (history (kept items.now)) }
    ensures few { (length (result.this).now ≤ length items.now) × (length (result.last).now ≤ length items.now) }
{
    let from = over_from(items);
    Overs {
        this: &items[from..],
        last: called_over(&items[..from]),
    }
}

/// Returns the overs of a book.
pub fn overs_of<B: BookOf>(book: &B) -> Overs<'_>
    ensures overs { AreOversOf result (history_of (B.content book.now)) }
    ensures few { (length (result.this).now ≤ PLACES) × (length (result.last).now ≤ PLACES) }
{
    overs_among(book.clean_items())
}
