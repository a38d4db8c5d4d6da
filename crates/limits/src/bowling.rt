//! Who may bowl.

ghost use Rattle.std.specs.Prelude.{◌≡◌, ◌≤◌, ◌+◌, List, length};
ghost use Rattle.notation.specs.declared.entry.Ball.{Ball};
ghost use Rattle.notation.specs.declared.entry.TheConstants.{PLACES};
ghost use Rattle.ball_laws.specs.History.{last_called_over, open_over};
ghost use Rattle.ball_laws.specs.Over.{bowled_in};
ghost use Rattle.corrections.specs.CleanList.{history_of};
ghost use Rattle.corrections.specs.Overs.{balls_of, bowled};
ghost use Rattle.limits.specs.Figures as laws;
ghost use Rattle.limits.specs.inner.Walks as walks;

use corrections::{BookOf, Placed, overs_of};
use notation::{Plain, Player};

/// The number of called overs of an innings in which a player bowled, and whether the player bowled in the open one.
#[derive(Clone, Copy)]
struct Bowled {
    called: u32,
    this: bool,
}

/// Returns a player's count at the beginning of an innings.
fn none_bowled() -> Bowled
    ensures { result ≡ walks.none_bowled }
{
    Bowled {
        called: 0,
        this: false,
    }
}

/// Returns the player's count after one more item.
fn bowled_after(player: Player, item: &Plain, bowled: Bowled) -> Bowled
    requires { bowled.called ≤ PLACES }
    ensures value { result ≡ walks.bowled_after player item.now bowled }
    ensures bound { result.called ≤ bowled.called + 1 }
{
    match item {
        Plain::Ball(ball) => Bowled {
            called: bowled.called,
            this: ball.bowler == player || bowled.this,
        },
        Plain::Over => Bowled {
            called: bowled.called + u32::from(bowled.this),
            this: false,
        },
        Plain::Innings(_) | Plain::End(_) => none_bowled(),
        _ => bowled,
    }
}

/// Returns the player's count after these items.
fn bowled_behind(player: Player, items: &[Placed]) -> Bowled
    requires { length items.now ≤ PLACES }
    ensures value { result ≡ walks.walk (walks.bowled_after player) walks.none_bowled items.now }
    ensures bound { result.called ≤ PLACES }
{
    let mut bowled = none_bowled();
    for placed in items {
        bowled = bowled_after(player, &placed.item, bowled);
    }
    bowled
}

/// Returns in how many overs of the open innings the player bowled. An over that several bowled counts for each of them.
pub fn overs_bowled<B: BookOf>(book: &B, player: Player) -> u32
    ensures value { result ≡ laws.overs_bowled player (history_of (B.content book.now)) }
    ensures bound { result ≤ PLACES + 1 }
{
    let bowled = bowled_behind(player, book.clean_items());
    bowled.called + u32::from(bowled.this)
}

/// Returns how many more overs the player may begin if a bowler may bowl `most`.
pub fn overs_yet<B: BookOf>(book: &B, most: u16, player: Player) -> u32
    ensures { result ≡ laws.overs_yet most player (history_of (B.content book.now)) }
{
    u32::from(most).saturating_sub(overs_bowled(book, player))
}

/// Whether the player has bowled a delivery after one more item, given whether the player had before it.
fn bowled_with(item: &Plain, player: Player, has_bowled: bool) -> bool
    ensures { (over : List Ball) → has_bowled ≡ bowled_in player over
        → result ≡ bowled_in player (bowled item.now over) }
{
    match item {
        Plain::Ball(ball) => ball.bowler == player || has_bowled,
        _ => has_bowled,
    }
}

/// Whether the player bowled a delivery among these items.
fn bowled_among(items: &[Placed], player: Player) -> bool
    ensures { result ≡ bowled_in player (balls_of items.now) }
{
    let mut has_bowled = false;
    for placed in items {
        has_bowled = bowled_with(&placed.item, player, has_bowled);
    }
    has_bowled
}

/// Whether the player bowled a delivery of the open over.
fn bowls_now<B: BookOf>(book: &B, player: Player) -> bool
    ensures { result ≡ bowled_in player (open_over (history_of (B.content book.now))) }
{
    let overs = overs_of(book);
    bowled_among(overs.this, player)
}

/// Whether the player bowled a delivery of the over that was called last.
fn bowled_last<B: BookOf>(book: &B, player: Player) -> bool
    ensures { result ≡ bowled_in player (last_called_over (history_of (B.content book.now))) }
{
    let overs = overs_of(book);
    bowled_among(overs.last, player)
}

/// Whether the player bowls this over or has an over left, or a bowler's overs aren't limited.
fn has_overs<B: BookOf>(book: &B, most: Option<u16>, player: Player) -> bool
    ensures { result ≡ laws.has_overs most player (history_of (B.content book.now)) }
{
    match most {
        None => true,
        Some(most) => bowls_now(book, player) || 0 < overs_yet(book, most, player),
    }
}

/// Whether the player may bowl the next delivery: the player bowls this over or has an over left, if a bowler's overs are
/// limited, and bowled no delivery of the over before.
pub fn may_bowl<B: BookOf>(book: &B, most: Option<u16>, player: Player) -> bool
    ensures { result ≡ laws.may_bowl most player (history_of (B.content book.now)) }
{
    has_overs(book, most, player) && !bowled_last(book, player)
}
