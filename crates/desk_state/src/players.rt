//! Who may come in, and who may bowl.

ghost use Rattle.std.specs.Prelude.{◌≡◌, ◌∷◌, [], codes, filter, map, true};
ghost use Rattle.std.specs.List.{list_all};
ghost use Rattle.notation.specs.declared.entry.Plain.{Plain as APlain};
ghost use Rattle.match_laws.specs.Refusals.{refusal};
ghost use Rattle.corrections.specs.CleanList.{history_of};
ghost use Rattle.json_fields.specs.Values.{PutsFields, PutsValues, number_value};
ghost use Rattle.desk_state.specs.Players as laws;
ghost use Rattle.desk_state.specs.inner.Items.{is_vacancy, number_if};
ghost use Rattle.notation.specs.Written.{is_player};

use ball_laws::BallRefusal;
use cards::MatchSheet;
use corrections::{BookOf, Refusal};
use json_fields::{Compact, begin_array, end_array, put_integer};
use match_laws::LawRefusal;
use notation::{Ball, Bound, Entry, Kind, Plain, Player};
use std::alloc::AllocError;

/// Whether the Laws let a player come in.
fn may_come_in<B: BookOf>(book: &B, player: Player) -> bool
    ensures { result ≡ laws.may_come_in (B.innings_a_side book.now) (history_of (B.content book.now)) player }
{
    book.check(&Entry::Write(Plain::Come(player))).is_ok()
}

/// A delivery by this bowler with no runs.
fn dot_of(player: Player) -> Ball
    ensures { result ≡ laws.dot_of player }
{
    Ball {
        bowler: player,
        kind: Kind::Bat,
        ran: 0,
        short: 0,
        bound: Bound::Run,
        dead: false,
        out: None,
    }
}

/// Whether a delivery is refused only because a batter has to come in first.
fn is_vacancy(why: Refusal) -> bool
    ensures { result ≡ is_vacancy why }
{
    matches!(why, Refusal::Law(LawRefusal::Ball(BallRefusal::NoBatter)))
}

/// Whether the Laws accept a delivery by this bowler, or refuse it only because a batter has to come in first.
fn is_playable<B: BookOf>(book: &B, player: Player) -> bool
    ensures { result ≡ laws.is_playable (refusal (B.innings_a_side book.now)
        (history_of (B.content book.now)) (APlain.Ball (laws.dot_of player))) }
{
    match book.check(&Entry::Write(Plain::Ball(dot_of(player)))) {
        Ok(_) => true,
        Err(why) => is_vacancy(why),
    }
}

/// Whether a player may bowl the next delivery.
fn may_bowl<B: BookOf>(sheet: &MatchSheet, book: &B, player: Player) -> bool
    ensures { result ≡ laws.may_bowl sheet.now (B.innings_a_side book.now) (history_of (B.content book.now)) player }
{
    limits::may_bowl(book, sheet.limits().overs_a_bowler(), player) && is_playable(book, player)
}

/// Puts a number if it is wanted, and otherwise nothing.
fn put_if(out: &mut Compact, holds: bool, number: u8) -> Result<(), AllocError>
    ensures { PutsValues result out.old out.new (number_if holds number) }
{
    if !holds {
        return Ok(());
    }
    put_integer(out, u64::from(number))
}

/// Puts those of these players who may come in.
fn put_batters<B: BookOf>(out: &mut Compact, book: &B, numbers: &[u8]) -> Result<(), AllocError>
    requires { list_all is_player numbers.now ≡ true }
    ensures { PutsValues result out.old out.new (map number_value
        (filter (laws.may_come_in (B.innings_a_side book.now) (history_of (B.content book.now))) numbers.now)) }
{
    let Some((number, more)) = numbers.split_first() else {
        return Ok(());
    };
    let Some(player) = Player::new(*number) else {
        return Ok(());
    };
    put_if(out, may_come_in(book, player), *number)?;
    put_batters(out, book, more)
}

/// Puts those of these players who may bowl.
fn put_bowlers<B: BookOf>(
    out: &mut Compact,
    sheet: &MatchSheet,
    book: &B,
    numbers: &[u8],
) -> Result<(), AllocError>
    requires { list_all is_player numbers.now ≡ true }
    ensures { PutsValues result out.old out.new (map number_value
        (filter (laws.may_bowl sheet.now (B.innings_a_side book.now) (history_of (B.content book.now))) numbers.now)) }
{
    let Some((number, more)) = numbers.split_first() else {
        return Ok(());
    };
    let Some(player) = Player::new(*number) else {
        return Ok(());
    };
    put_if(out, may_bowl(sheet, book, player), *number)?;
    put_bowlers(out, sheet, book, more)
}

/// Puts all players who may come in.
fn put_all_batters<B: BookOf>(out: &mut Compact, book: &B) -> Result<(), AllocError>
    ensures { PutsValues result out.old out.new (map number_value
        (laws.batters (B.innings_a_side book.now) (history_of (B.content book.now)))) }
{
    let numbers = [1, 2, 3, 4, 5, 6, 7, 8, 9, 10, 11];
    put_batters(out, book, &numbers)
}

/// Puts all players who may bowl.
fn put_all_bowlers<B: BookOf>(
    out: &mut Compact,
    sheet: &MatchSheet,
    book: &B,
) -> Result<(), AllocError>
    ensures { PutsValues result out.old out.new (map number_value
        (laws.bowlers sheet.now (B.innings_a_side book.now) (history_of (B.content book.now)))) }
{
    let numbers = [1, 2, 3, 4, 5, 6, 7, 8, 9, 10, 11];
    put_bowlers(out, sheet, book, &numbers)
}

/// Puts the field of the players who may come in.
pub fn put_may_come_in<B: BookOf>(out: &mut Compact, book: &B) -> Result<(), AllocError>
    ensures { PutsFields result out.old out.new ((
      codes "may_come_in",
      laws.numbers_value
          (laws.batters (B.innings_a_side book.now) (history_of (B.content book.now))),
    ) ∷ []) }
{
    begin_array(out, "may_come_in")?;
    put_all_batters(out, book)?;
    end_array(out)
}

/// Puts the field of the players who may bowl.
pub fn put_may_bowl<B: BookOf>(
    out: &mut Compact,
    sheet: &MatchSheet,
    book: &B,
) -> Result<(), AllocError>
    ensures { PutsFields result out.old out.new ((
      codes "may_bowl",
      laws.numbers_value
          (laws.bowlers sheet.now (B.innings_a_side book.now) (history_of (B.content book.now))),
    ) ∷ []) }
{
    begin_array(out, "may_bowl")?;
    put_all_bowlers(out, sheet, book)?;
    end_array(out)
}
