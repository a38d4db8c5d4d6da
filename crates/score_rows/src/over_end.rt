//! The note after the row of an over that is complete but not called.

ghost use Rattle.std.specs.Prelude.{◌≡◌, ◌≤◌, OnOk, length};
ghost use Rattle.notation.specs.declared.entry.TheConstants.{PLACES};
ghost use Rattle.ball_laws.specs.Over.{counting};
ghost use Rattle.corrections.specs.CleanList.{history_of};
ghost use Rattle.corrections.specs.Overs.{balls_of};
ghost use Rattle.ball_laws.specs.History.{last_called_over};
ghost use Rattle.streams.specs.Watched.{Prints, TellsFailure};
ghost use Rattle.score_rows.specs.Row as rows;
ghost use Rattle.score_rows.specs.inner.Items as items;

use crate::text::Text;
use ball_laws::counts;
use corrections::{BookOf, Placed, bowler_of, overs_of};
use notation::{Plain, Player};
use streams::{Sink, Watched, WriteFailed};

/// Returns 1 if the item is a delivery that counts, else 0.
fn item_counts(item: &Plain) -> u32
    ensures value { result ≡ items.item_counts item.now }
    ensures bound { result ≤ 1 }
{
    match item {
        Plain::Ball(ball) => u32::from(counts(ball)),
        _ => 0,
    }
}

/// Returns how many deliveries of an over count.
fn counting_of(over: &[Placed]) -> u32
    requires { length over.now ≤ PLACES }
    ensures { result ≡ counting (balls_of over.now) }
{
    let mut count = 0;
    for placed in over {
        count += item_counts(&placed.item);
    }
    count
}

fn is_ball(item: &Plain) -> bool
    ensures { result ≡ items.is_ball item.now }
{
    matches!(item, Plain::Ball(_))
}

/// Returns the items of an over before its last delivery.
#[tactic(auto, using(crate::proofs::Items::balls_push))]
fn older_of(over: &[Placed]) -> &[Placed]
    ensures older { balls_of result.now ≡ rows.older_of (balls_of over.now) }
    ensures few { length result.now ≤ length over.now }
{
    let Some((last, front)) = over.split_last() else {
        return over;
    };
    if is_ball(&last.item) {
        front
    } else {
        older_of(front)
    }
}

/// Whether these are two different bowlers.
fn are_two(bowler: Option<Player>, other: Option<Player>) -> bool
    ensures { result ≡ rows.are_two bowler other }
{
    match (bowler, other) {
        (Some(one), Some(another)) => one.number() != another.number(),
        _ => false,
    }
}

/// Whether six deliveries counted before the over's last one, and a different bowler bowled the last one.
fn is_uncalled(over: &[Placed]) -> bool
    requires { length over.now ≤ PLACES }
    ensures { result ≡ rows.is_uncalled (balls_of over.now) }
{
    let older = older_of(over);
    counting_of(older) >= 6 && are_two(bowler_of(over), bowler_of(older))
}

/// Returns that the over isn't called, if a different bowler has begun the next one.
fn uncalled(over: &[Placed]) -> &'static str
    requires { length over.now ≤ PLACES }
    ensures { result.now ≡ rows.uncalled_text (balls_of over.now) }
{
    if is_uncalled(over) {
        ", the over isn't called"
    } else {
        ""
    }
}

pub type OverEnd = Option<(&'static str, u32, &'static str, &'static str)>;

/// Returns how many deliveries of the open over count, if six or more do.
pub fn over_end(over: &[Placed]) -> OverEnd
    requires { length over.now ≤ PLACES }
    ensures { ⟦<OverEnd as Text>⟧.bytes result ≡ rows.over_end (balls_of over.now) }
{
    let count = counting_of(over);
    if count < 6 {
        return None;
    }
    Some(("  ", count, " balls", uncalled(over)))
}

type Note = Option<(&'static str, Option<(u32, &'static str)>)>;

/// Returns how many deliveries counted in a called over, if they aren't six.
fn note(count: u32) -> Note
    ensures { ⟦<Note as Text>⟧.bytes result ≡ rows.called_note count }
{
    if count == 6 {
        None
    } else if count == 1 {
        Some((" (1 ball)", None))
    } else {
        Some((" (", Some((count, " balls)"))))
    }
}

/// Prints how many deliveries counted in the book's last called over, if they aren't six.
pub fn print_over_note<W: Sink, B: BookOf>(
    out: &mut Watched<W>,
    book: &B,
) -> Result<(), WriteFailed>
    ensures text { OnOk result (Prints W.contents out.old out.new
        (rows.called_note (counting (last_called_over (history_of (B.content book.now)))))) }
    ensures failed { TellsFailure result out.old out.new }
{
    note(counting_of(overs_of(book).last)).print(out)
}
