//! Free hits.

ghost use Rattle.std.specs.Prelude.{◌≡◌, false};
ghost use Rattle.corrections.specs.CleanList.{history_of};
ghost use Rattle.limits.specs.Figures as laws;
ghost use Rattle.limits.specs.inner.Walks.{walk};

use ball_laws::counts;
use corrections::{BookOf, Placed};
use notation::{Kind, Plain};

/// Whether a delivery of this kind is a No ball.
fn is_no_ball(kind: Kind) -> bool
    ensures { result ≡ laws.is_no_ball kind }
{
    match kind {
        Kind::Nb | Kind::NbBye | Kind::NbLeg => true,
        Kind::Bat | Kind::Bye | Kind::Leg | Kind::Wide => false,
    }
}

/// Whether the delivery after the item is a free hit, given whether a free hit was on before the item.
fn free_hit_after(item: &Plain, was_on: bool) -> bool
    ensures { result ≡ laws.free_hit_after item.now was_on }
{
    match item {
        Plain::Ball(ball) => is_no_ball(ball.kind) || was_on && !counts(ball),
        Plain::Innings(_) | Plain::End(_) => false,
        _ => was_on,
    }
}

/// Whether the delivery after these items is a free hit.
fn free_hit_behind(items: &[Placed]) -> bool
    ensures { result ≡ walk laws.free_hit_after false items.now }
{
    let mut is_on = false;
    for placed in items {
        is_on = free_hit_after(&placed.item, is_on);
    }
    is_on
}

/// Whether the next delivery is a free hit if the sheet has free hits: after a No ball, until a delivery that counts.
pub fn is_free_hit<B: BookOf>(book: &B) -> bool
    ensures { result ≡ laws.is_free_hit (history_of (B.content book.now)) }
{
    free_hit_behind(book.clean_items())
}
