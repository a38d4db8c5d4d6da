//! The partnership.

ghost use Rattle.std.specs.Prelude.{◌≡◌, ◌+◌, ◌*◌, ◌≤◌, ◌∷◌, [], Some, length, option_map};
ghost use Rattle.notation.specs.declared.entry.TheConstants.{PLACES};
ghost use Rattle.ball_laws.specs.Laws.{IsPlayed};
ghost use Rattle.match_laws.specs.Figures.{faced_of};
ghost use Rattle.corrections.specs.CleanList.{history_of, kept};
ghost use Rattle.corrections.specs.inner.Scoring.{history_after};
ghost use Rattle.limits.specs.inner.Walks.{walk};
ghost use Rattle.json_fields.specs.Values.{PutsFields};
ghost use Rattle.scoreboard.specs.Stand as laws;

use crate::shares::share_of;
use ball_laws::Ends;
use cards::all_runs;
use corrections::{BookOf, Placed};
use json_fields::{Compact, begin_field, end_object, put_figure, put_null};
use notation::{Ball, Kind, Leave, Plain, Player};
use std::alloc::AllocError;

/// The runs of a partnership or a share, and the balls faced.
#[derive(Clone, Copy)]
pub struct Stand {
    pub runs: u32,
    pub balls: u32,
}

/// The whole partnership, and each batter's share of it.
#[derive(Clone, Copy)]
pub struct Partnership {
    pub all: Stand,
    pub striker: Option<Stand>,
    pub other: Option<Stand>,
}

/// A partnership before its first delivery.
pub fn no_stand() -> Stand
    ensures { result ≡ laws.no_stand }
{
    Stand { runs: 0, balls: 0 }
}

/// Returns the number of balls faced: 1, or 0 for a Wide.
pub fn faced(ball: &Ball) -> u32
    ensures value { result ≡ faced_of ball.now }
    ensures bound { result ≤ 1 }
{
    match ball.kind {
        Kind::Wide => 0,
        Kind::Bat | Kind::Bye | Kind::Leg | Kind::Nb | Kind::NbBye | Kind::NbLeg => 1,
    }
}

/// Adds a delivery.
fn stand_with(ball: &Ball, stand: Stand) -> Stand
    requires runs { stand.runs ≤ 260 * PLACES }
    requires balls { stand.balls ≤ PLACES }
    ensures value { result ≡ laws.stand_with ball.now stand }
    ensures runs { result.runs ≤ stand.runs + 260 }
    ensures balls { result.balls ≤ stand.balls + 1 }
{
    Stand {
        runs: stand.runs + all_runs(ball),
        balls: stand.balls + faced(ball),
    }
}

/// Returns the partnership after a delivery: a wicket ends it.
fn stand_behind(ball: &Ball, stand: Stand) -> Stand
    requires runs { stand.runs ≤ 260 * PLACES }
    requires balls { stand.balls ≤ PLACES }
    ensures value { result ≡ laws.stand_behind ball.now stand }
    ensures runs { result.runs ≤ stand.runs + 260 }
    ensures balls { result.balls ≤ stand.balls + 1 }
{
    if ball.out.is_some() {
        no_stand()
    } else {
        stand_with(ball, stand)
    }
}

/// Returns the partnership after a batter has left: it ends, unless he retired hurt and so may come in again.
fn stand_left(how: Leave, stand: Stand) -> Stand
    ensures value { result ≡ laws.stand_left how stand }
    ensures runs { result.runs ≤ stand.runs }
    ensures balls { result.balls ≤ stand.balls }
{
    match how {
        Leave::RetiredHurt => stand,
        Leave::TimedOut | Leave::RetiredOut | Leave::RunOut => no_stand(),
    }
}

/// Returns the partnership after an item.
pub fn stand_after(item: &Plain, stand: Stand) -> Stand
    requires runs { stand.runs ≤ 260 * PLACES }
    requires balls { stand.balls ≤ PLACES }
    ensures value { result ≡ laws.stand_after item.now stand }
    ensures runs { result.runs ≤ stand.runs + 260 }
    ensures balls { result.balls ≤ stand.balls + 1 }
{
    match item {
        Plain::Ball(ball) => stand_behind(ball, stand),
        Plain::Gone(how, _) => stand_left(*how, stand),
        Plain::Innings(_) | Plain::End(_) => no_stand(),
        _ => stand,
    }
}

/// Returns the partnership after these items.
fn stand_of(items: &[Placed]) -> Stand
    requires { length items.now ≤ PLACES }
    ensures { result ≡ walk laws.stand_after laws.no_stand items.now }
{
    let mut stand = no_stand();
    for placed in items {
        stand = stand_after(&placed.item, stand);
    }
    stand
}

/// Returns the share of the batter at an end, if somebody is there.
fn share_for(items: &[Placed], batter: Option<Player>) -> Option<Stand>
    requires few { length items.now ≤ PLACES }
    requires played { IsPlayed (history_after [] (kept items.now)) }
    ensures { result ≡ option_map (λ player. laws.share_of player (history_after [] (kept items.now))) batter }
{
    match batter {
        Some(player) => Some(share_of(player, items)),
        None => None,
    }
}

/// Returns the partnership of a book, with these two batters at the ends.
fn partnership_of<B: BookOf>(book: &B, ends: Ends) -> Partnership
    requires { IsPlayed (history_of (B.content book.now)) }
    ensures { result ≡ laws.partnership_of (history_of (B.content book.now)) ends }
{
    let items = book.clean_items();
    Partnership {
        all: stand_of(items),
        striker: share_for(items, ends.striker),
        other: share_for(items, ends.other),
    }
}

/// Returns the partnership of a book, while an innings is open.
pub fn partnership_now<B: BookOf>(book: &B) -> Option<Partnership>
    ensures { result ≡ laws.partnership_now (history_of (B.content book.now)) }
{
    let score = book.score();
    if score.is_open() {
        Some(partnership_of(book, score.ends()))
    } else {
        None
    }
}

/// Puts runs and balls.
fn put_figures(out: &mut Compact, stand: Stand) -> Result<(), AllocError>
    ensures { PutsFields result out.old out.new (laws.stand_fields stand) }
{
    put_figure(out, "runs", stand.runs)?;
    put_figure(out, "balls", stand.balls)
}

fn put_some_share(out: &mut Compact, name: &str, share: Stand) -> Result<(), AllocError>
    ensures { PutsFields result out.old out.new ((name.now, laws.share_or_null (Some share)) ∷ []) }
{
    begin_field(out, name)?;
    put_figures(out, share)?;
    end_object(out)
}

/// Puts a batter's share, or null if he isn't there.
fn put_share(out: &mut Compact, name: &str, share: Option<Stand>) -> Result<(), AllocError>
    ensures { PutsFields result out.old out.new ((name.now, laws.share_or_null share) ∷ []) }
{
    match share {
        Some(share) => put_some_share(out, name, share),
        None => put_null(out, name),
    }
}

fn put_some(out: &mut Compact, partnership: Partnership) -> Result<(), AllocError>
    ensures { PutsFields result out.old out.new (laws.partnership_field (Some partnership) ∷ []) }
{
    begin_field(out, "partnership")?;
    put_figures(out, partnership.all)?;
    put_share(out, "striker", partnership.striker)?;
    put_share(out, "other", partnership.other)?;
    end_object(out)
}

/// Puts a partnership, or null if there is none.
pub fn put_partnership(
    out: &mut Compact,
    partnership: Option<Partnership>,
) -> Result<(), AllocError>
    ensures { PutsFields result out.old out.new (laws.partnership_field partnership ∷ []) }
{
    match partnership {
        Some(partnership) => put_some(out, partnership),
        None => put_null(out, "partnership"),
    }
}
