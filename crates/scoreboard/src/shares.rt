//! A batter's share of the partnership.

ghost use Rattle.std.specs.Prelude.{◌≡◌, ◌+◌, ◌*◌, ◌<◌, ◌≤◌, [], None, Some, length, slice_get};
ghost use Rattle.notation.specs.declared.entry.TheConstants.{PLACES};
ghost use Rattle.notation.specs.declared.entry.Plain.{Plain as APlain};
ghost use Rattle.ball_laws.specs.Crease.{standing_of};
ghost use Rattle.ball_laws.specs.Laws.{IsPlayed, State, after, refusal};
ghost use Rattle.corrections.specs.CleanList.{kept};
ghost use Rattle.corrections.specs.inner.Scoring.{history_after};
ghost use Rattle.scoreboard.specs.Stand as laws;

use crate::stand::{Stand, faced, no_stand, stand_after};
use ball_laws::{Crease, Ends, runs_of};
use corrections::Placed;
use match_laws::is_void;
use notation::{Ball, Plain, Player};

/// Adds a delivery that the batter faced.
fn share_with(ball: &Ball, share: Stand) -> Stand
    requires runs { share.runs ≤ 260 * PLACES }
    requires balls { share.balls ≤ PLACES }
    ensures value { result ≡ laws.share_with ball.now share }
    ensures runs { result.runs ≤ share.runs + 260 }
    ensures balls { result.balls ≤ share.balls + 1 }
{
    Stand {
        runs: share.runs + runs_of(ball).striker,
        balls: share.balls + faced(ball),
    }
}

/// Returns the share after a delivery with these batters at the ends: a wicket ends the partnership.
fn share_behind(player: Player, ends: Ends, ball: &Ball, share: Stand) -> Stand
    requires runs { share.runs ≤ 260 * PLACES }
    requires balls { share.balls ≤ PLACES }
    ensures value { result ≡ laws.share_after player ends (APlain.Ball ball.now) share }
    ensures runs { result.runs ≤ share.runs + 260 }
    ensures balls { result.balls ≤ share.balls + 1 }
{
    if ball.out.is_some() {
        no_stand()
    } else if ends.striker == Some(player) {
        share_with(ball, share)
    } else {
        share
    }
}

/// Returns the share after an item with these batters at the ends.
fn share_after(player: Player, ends: Ends, item: &Plain, share: Stand) -> Stand
    requires runs { share.runs ≤ 260 * PLACES }
    requires balls { share.balls ≤ PLACES }
    ensures value { result ≡ laws.share_after player ends item.now share }
    ensures runs { result.runs ≤ share.runs + 260 }
    ensures balls { result.balls ≤ share.balls + 1 }
{
    match item {
        Plain::Ball(ball) => share_behind(player, ends, ball, share),
        _ => stand_after(item, share),
    }
}

/// Returns the crease after an item, if the item isn't refused.
fn crease_after(crease: &Crease, item: &Plain) -> Crease
    ensures { (s : State) → crease.now ≡ standing_of s → refusal s item.now ≡ None → result ≡ standing_of (after s item.now) }
{
    let mut next = *crease;
    if next.refusal(item).is_none() {
        next.take(item);
    }
    next
}

/// Returns the item at an index.
fn placed_at(items: &[Placed], index: usize) -> Placed
    requires { index < length items.now }
    ensures { slice_get items.now index ≡ Some result }
{
    items[index]
}

/// Returns a player's share of the partnership after these items, none of which is refused.
pub fn share_of(player: Player, items: &[Placed]) -> Stand
    requires few { length items.now ≤ PLACES }
    requires played { IsPlayed (history_after [] (kept items.now)) }
    ensures { result ≡ laws.share_of player (history_after [] (kept items.now)) }
{
    let mut crease = Crease::empty();
    let mut share = no_stand();
    for index in 0..items.len() {
        let placed = placed_at(items, index);
        if !is_void(&placed.item) {
            share = share_after(player, crease.ends(), &placed.item, share);
            crease = crease_after(&crease, &placed.item);
        }
    }
    share
}
