//! The batters who are out or have left, and how.

ghost use Rattle.std.specs.Prelude.{◌≡◌, ◌==◌, ◌∷◌, ◌≢◌, []};
ghost use Rattle.cards.specs.Dismissals.{fielder_name};
ghost use Rattle.json_fields.specs.Values.{PutsFields, PutsValues};
ghost use Rattle.archive_deliveries.specs.Wickets as wickets;

use crate::named::NamedSheet;
use crate::notes::{Noted, noted_at};
use ball_laws::Ends;
use json::Pretty;
use json_fields::{begin_array, begin_object, end_array, end_object, put_flag, put_null, put_text};
use match_laws::opponent;
use notation::{Ball, How, Leave, Out, Plain, Player, Side};
use std::alloc::AllocError;

/// The number of a fielder who isn't one of the eleven.
const SUBSTITUTE: u8 = 12;

fn catch_words(own: bool) -> &'static str
    ensures { result.now ≡ wickets.catch_words own }
{
    if own { "caught and bowled" } else { "caught" }
}

/// Returns an archive's words for a dismissal off a delivery.
pub fn how_words(own: bool, how: How) -> &'static str
    ensures { result.now ≡ wickets.how_words own how }
{
    match how {
        How::Bowled => "bowled",
        How::Caught => catch_words(own),
        How::Lbw => "lbw",
        How::Stumped => "stumped",
        How::HitWicket => "hit wicket",
        How::HitTwice => "hit the ball twice",
        How::Obstructing => "obstructing the field",
        How::RunOut => "run out",
    }
}

/// Returns an archive's words for leaving between deliveries.
pub fn leave_words(way: Leave) -> &'static str
    ensures { result.now ≡ wickets.leave_words way }
{
    match way {
        Leave::TimedOut => "timed out",
        Leave::RetiredOut => "retired out",
        Leave::RetiredHurt => "retired hurt",
        Leave::RunOut => "run out",
    }
}

/// Returns the name of the side's fielder: `sub` for a substitute.
pub fn fielder_name<'a>(sheet: &'a NamedSheet<'_>, side: Side, fielder: u8) -> &'a str
    requires { fielder ≢ 0 }
    ensures { result.now ≡ fielder_name sheet.now side fielder }
{
    match Player::new(fielder) {
        Some(player) => sheet.player(side, player),
        None => "sub",
    }
}

/// Puts a field with the name of the batter at an end, or null if nobody is there.
pub fn put_batter(
    out: &mut Pretty,
    name: &str,
    sheet: &NamedSheet<'_>,
    side: Side,
    batter: Option<Player>,
) -> Result<(), AllocError>
    ensures { PutsFields result out.old out.new
        ((name.now, wickets.batter_value sheet.now side batter) ∷ []) }
{
    match batter {
        None => put_null(out, name),
        Some(player) => put_text(out, name, sheet.player(side, player)),
    }
}

/// Puts a fielder.
fn put_fielder(
    out: &mut Pretty,
    sheet: &NamedSheet<'_>,
    side: Side,
    fielder: u8,
) -> Result<(), AllocError>
    requires { fielder ≢ 0 }
    ensures { PutsValues result out.old out.new (wickets.fielder_of sheet.now side fielder ∷ []) }
{
    begin_object(out)?;
    put_text(out, "name", fielder_name(sheet, opponent(side), fielder))?;
    put_flag(out, "substitute", fielder == SUBSTITUTE)?;
    end_object(out)
}

/// Puts the fielder, or nothing if none is recorded.
fn put_fielders(
    out: &mut Pretty,
    sheet: &NamedSheet<'_>,
    side: Side,
    fielder: u8,
) -> Result<(), AllocError>
    ensures { PutsFields result out.old out.new (wickets.fielders_fields sheet.now side fielder) }
{
    if fielder == 0 {
        return Ok(());
    }
    begin_array(out, "fielders")?;
    put_fielder(out, sheet, side, fielder)?;
    end_array(out)
}

/// Whether the bowler is also the fielder.
pub fn is_own(dismissal: &Out, bowler: Player) -> bool
    ensures { result ≡ (dismissal.now.fielder == bowler) }
{
    dismissal.fielder == bowler.number()
}

/// Puts a dismissal off a delivery.
fn put_wicket(
    out: &mut Pretty,
    sheet: &NamedSheet<'_>,
    side: Side,
    ends: &Ends,
    bowler: Player,
    dismissal: &Out,
) -> Result<(), AllocError>
    ensures { PutsValues result out.old out.new
        (wickets.wicket_of sheet.now side ends.now bowler dismissal.now ∷ []) }
{
    begin_object(out)?;
    put_batter(
        out,
        "player_out",
        sheet,
        side,
        ends.batter_at(dismissal.who),
    )?;
    put_text(
        out,
        "kind",
        how_words(is_own(dismissal, bowler), dismissal.how),
    )?;
    put_fielders(out, sheet, side, dismissal.fielder)?;
    end_object(out)
}

/// Puts the dismissal off a delivery, or nothing if there is none.
fn put_own(
    out: &mut Pretty,
    sheet: &NamedSheet<'_>,
    side: Side,
    ends: &Ends,
    bowler: Player,
    dismissal: Option<Out>,
) -> Result<(), AllocError>
    ensures { PutsValues result out.old out.new
        (wickets.own_wickets sheet.now side ends.now bowler dismissal) }
{
    match dismissal {
        None => Ok(()),
        Some(dismissal) => put_wicket(out, sheet, side, ends, bowler, &dismissal),
    }
}

/// Puts a batter who left between deliveries or retired hurt.
fn put_departure(
    out: &mut Pretty,
    sheet: &NamedSheet<'_>,
    side: Side,
    way: Leave,
    player: Player,
) -> Result<(), AllocError>
    ensures { PutsValues result out.old out.new (wickets.departure_of sheet.now side way player ∷ []) }
{
    begin_object(out)?;
    put_text(out, "player_out", sheet.player(side, player))?;
    put_text(out, "kind", leave_words(way))?;
    end_object(out)
}

/// Puts the batter who left, or nothing if the item is something else.
fn put_gone(
    out: &mut Pretty,
    sheet: &NamedSheet<'_>,
    side: Side,
    item: &Plain,
) -> Result<(), AllocError>
    ensures { PutsValues result out.old out.new (wickets.gone_of sheet.now side item.now) }
{
    match item {
        Plain::Gone(way, player) => put_departure(out, sheet, side, *way, *player),
        Plain::Innings(_)
        | Plain::Come(_)
        | Plain::Ball(_)
        | Plain::Over
        | Plain::Penalty(..)
        | Plain::Swap
        | Plain::End(_)
        | Plain::Close
        | Plain::Void => Ok(()),
    }
}

/// Puts the batters who left in these items.
fn put_departures(
    out: &mut Pretty,
    sheet: &NamedSheet<'_>,
    side: Side,
    notes: &[Noted],
) -> Result<(), AllocError>
    ensures { PutsValues result out.old out.new (wickets.departures sheet.now side notes.now) }
{
    for index in 0..notes.len() {
        let noted = noted_at(notes, index);
        put_gone(out, sheet, side, &noted.item)?;
    }
    Ok(())
}

fn is_gone(item: &Plain) -> bool
    ensures { result ≡ wickets.is_gone item.now }
{
    matches!(item, Plain::Gone(..))
}

/// Whether a batter left in any of these items.
fn has_gone(notes: &[Noted]) -> bool
    ensures { result ≡ wickets.has_gone notes.now }
{
    notes.iter().any(|noted| is_gone(&noted.item))
}

/// Puts each wicket that a delivery carries: of batters who left before the first delivery of the innings, its own, and of
/// batters who left after it.
fn put_each(
    out: &mut Pretty,
    sheet: &NamedSheet<'_>,
    side: Side,
    early: &[Noted],
    ends: &Ends,
    ball: &Ball,
    late: &[Noted],
) -> Result<(), AllocError>
    ensures { PutsValues result out.old out.new
        (wickets.wickets_of sheet.now side early.now ends.now ball.now late.now) }
{
    put_departures(out, sheet, side, early)?;
    put_own(out, sheet, side, ends, ball.bowler, ball.out)?;
    put_departures(out, sheet, side, late)
}

/// Puts the `wickets` field of a delivery.
fn put_field(
    out: &mut Pretty,
    sheet: &NamedSheet<'_>,
    side: Side,
    early: &[Noted],
    ends: &Ends,
    ball: &Ball,
    late: &[Noted],
) -> Result<(), AllocError>
    ensures { PutsFields result out.old out.new
        (wickets.wickets_field sheet.now side early.now ends.now ball.now late.now ∷ []) }
{
    begin_array(out, "wickets")?;
    put_each(out, sheet, side, early, ends, ball, late)?;
    end_array(out)
}

/// Whether a delivery carries a wicket, its own or that of a batter who left.
fn has_wickets(early: &[Noted], ball: &Ball, late: &[Noted]) -> bool
    ensures { result ≡ wickets.has_wickets early.now ball.now late.now }
{
    has_gone(early) || ball.out.is_some() || has_gone(late)
}

/// Puts the wickets that a delivery carries, or nothing if there are none.
pub fn put_wickets(
    out: &mut Pretty,
    sheet: &NamedSheet<'_>,
    side: Side,
    early: &[Noted],
    ends: &Ends,
    ball: &Ball,
    late: &[Noted],
) -> Result<(), AllocError>
    ensures { PutsFields result out.old out.new
        (wickets.wickets_fields sheet.now side early.now ends.now ball.now late.now) }
{
    if !has_wickets(early, ball, late) {
        return Ok(());
    }
    put_field(out, sheet, side, early, ends, ball, late)
}
