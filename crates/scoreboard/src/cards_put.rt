//! The rows of an innings' cards.

ghost use Rattle.std.specs.Prelude.{◌≡◌, ◌<◌, ◌∷◌, [], IfOk, codes, slice_get, string_bytes};
ghost use Rattle.falls.specs.Falls.{falls_at};
ghost use Rattle.match_laws.specs.Figures as figures;
ghost use Rattle.match_laws.specs.History.{side_of};
ghost use Rattle.cards.specs.Begun.{ForInnings};
ghost use Rattle.json_fields.specs.Values.{PutsFields, PutsValues, text_field};
ghost use Rattle.scoreboard.specs.Innings as laws;

use cards::{Innings, MatchSheet, fate_text};
use falls::{FallAt, falls_in, over_and_ball};
use itoa::Buffer;
use json_fields::{Compact, begin_object, end_object, put_figure, put_text};
use match_laws::{BattingRow, BowlingRow, Fall, opponent};
use notation::{Player, Side};
use std::alloc::{AllocError, Global};

/// Returns a number of whole overs and the balls of the unfinished one, as `12.3`.
fn overs_text(alloc: Global, whole: u32, odd: u32) -> Result<String, AllocError>
    ensures { IfOk result (λ text. string_bytes text ≡ laws.overs_text whole odd) }
{
    let mut buffer = Buffer::new();
    let mut text = String::from_str(alloc, buffer.format(whole))?;
    text.push_str(".")?;
    text.push_str(buffer.format(odd))?;
    Ok(text)
}

/// Puts a number of whole overs and the balls of the unfinished one.
pub fn put_overs(out: &mut Compact, alloc: Global, whole: u32, odd: u32) -> Result<(), AllocError>
    ensures { PutsFields result out.old out.new
        (text_field (codes "overs") (laws.overs_text whole odd) ∷ []) }
{
    let text = overs_text(alloc, whole, odd)?;
    put_text(out, "overs", text.as_str())
}

/// Puts a batter's fate, in the words of the batting card.
fn put_fate(
    out: &mut Compact,
    alloc: Global,
    sheet: &MatchSheet,
    side: Side,
    row: &BattingRow,
) -> Result<(), AllocError>
    ensures { PutsFields result out.old out.new (laws.fate_field sheet.now side row.now ∷ []) }
{
    let text = fate_text(alloc, sheet, opponent(side), row.fate)?;
    put_text(out, "how", text.as_str())
}

/// Puts a player's number.
fn put_number_of(out: &mut Compact, player: Player) -> Result<(), AllocError>
    ensures { PutsFields result out.old out.new (laws.player_field player ∷ []) }
{
    put_figure(out, "number", u32::from(player.number()))
}

/// Puts a batter of a side with the figures of his row.
fn put_batter(
    out: &mut Compact,
    alloc: Global,
    sheet: &MatchSheet,
    side: Side,
    player: Player,
    row: &BattingRow,
) -> Result<(), AllocError>
    ensures { PutsValues result out.old out.new
        (laws.batter_value sheet.now side player row.now ∷ []) }
{
    begin_object(out)?;
    put_number_of(out, player)?;
    put_text(out, "name", sheet.player(side, player))?;
    put_fate(out, alloc, sheet, side, row)?;
    put_figure(out, "runs", row.runs)?;
    put_figure(out, "balls", row.faced)?;
    put_figure(out, "fours", row.fours)?;
    put_figure(out, "sixes", row.sixes)?;
    end_object(out)
}

/// Puts a bowler of a side with the figures of his row.
fn put_bowler(
    out: &mut Compact,
    alloc: Global,
    sheet: &MatchSheet,
    side: Side,
    player: Player,
    row: &BowlingRow,
) -> Result<(), AllocError>
    ensures { PutsValues result out.old out.new
        (laws.bowler_value sheet.now side player row.now ∷ []) }
{
    begin_object(out)?;
    put_number_of(out, player)?;
    put_text(out, "name", sheet.player(side, player))?;
    put_overs(out, alloc, row.overs, row.balls)?;
    put_figure(out, "maidens", row.maidens)?;
    put_figure(out, "runs", row.runs)?;
    put_figure(out, "wickets", row.wickets)?;
    put_figure(out, "wides", row.wides)?;
    put_figure(out, "noballs", row.noballs)?;
    end_object(out)
}

/// Returns the over and ball of the fall at an index, if the list has one there.
fn fall_there(there: &[FallAt], index: usize) -> Option<FallAt>
    ensures { result ≡ slice_get there.now index }
{
    there.get(index).copied()
}

/// Puts the over and ball of a fall, or nothing if they aren't known.
fn put_overs_at(out: &mut Compact, alloc: Global, at: Option<FallAt>) -> Result<(), AllocError>
    ensures { PutsFields result out.old out.new (laws.overs_fields at) }
{
    let Some(at) = at else {
        return Ok(());
    };
    let text = over_and_ball(alloc, at)?;
    put_text(out, "overs", text.as_str())
}

/// Puts the fall of a side's wicket at an index from 0; `there` has the over and ball of each fall of the innings.
fn put_fall(
    out: &mut Compact,
    alloc: Global,
    sheet: &MatchSheet,
    side: Side,
    there: &[FallAt],
    index: usize,
    fall: &Fall,
) -> Result<(), AllocError>
    requires { index < 10 }
    ensures { PutsValues result out.old out.new
        (laws.fall_value sheet.now side there.now index fall.now ∷ []) }
{
    begin_object(out)?;
    put_figure(out, "wicket", index as u32 + 1)?;
    put_figure(out, "runs", fall.total)?;
    put_overs_at(out, alloc, fall_there(there, index))?;
    put_number_of(out, fall.player)?;
    put_text(out, "name", sheet.player(side, fall.player))?;
    end_object(out)
}

/// Puts a batter of an innings.
fn put_batter_of(
    out: &mut Compact,
    alloc: Global,
    innings: Innings<'_>,
    player: Player,
) -> Result<(), AllocError>
    ensures { ForInnings innings.entry (λ s h i.
        PutsValues result out.old out.new (laws.batter_of s h i player ∷ [])) }
{
    let row = innings.score.batting_row(innings.index, player);
    put_batter(out, alloc, innings.sheet, innings.side(), player, &row)
}

/// Puts a bowler of an innings.
fn put_bowler_of(
    out: &mut Compact,
    alloc: Global,
    innings: Innings<'_>,
    player: Player,
) -> Result<(), AllocError>
    ensures { ForInnings innings.entry (λ s h i.
        PutsValues result out.old out.new (laws.bowler_of s h i player ∷ [])) }
{
    let row = innings.score.bowling_row(innings.index, player);
    put_bowler(
        out,
        alloc,
        innings.sheet,
        opponent(innings.side()),
        player,
        &row,
    )
}

/// Puts the batters who came in or were timed out, in that order.
pub fn put_batters(out: &mut Compact, alloc: Global, innings: Innings<'_>) -> Result<(), AllocError>
    ensures { ForInnings innings.entry (λ s h i.
        PutsValues result out.old out.new (laws.batting s h i)) }
{
    let order = innings.score.batting_order(innings.index);
    for place in order {
        if let Some(player) = place {
            put_batter_of(out, alloc, innings, player)?;
        }
    }
    Ok(())
}

/// Puts the bowlers, in the order of their first deliveries.
pub fn put_bowlers(out: &mut Compact, alloc: Global, innings: Innings<'_>) -> Result<(), AllocError>
    ensures { ForInnings innings.entry (λ s h i.
        PutsValues result out.old out.new (laws.bowling s h i)) }
{
    let order = innings.score.bowling_order(innings.index);
    for place in order {
        if let Some(player) = place {
            put_bowler_of(out, alloc, innings, player)?;
        }
    }
    Ok(())
}

/// Puts each fall of an innings; `there` has the over and ball of each.
fn put_each_fall(
    out: &mut Compact,
    alloc: Global,
    innings: Innings<'_>,
    there: &[FallAt],
) -> Result<(), AllocError>
    ensures { ForInnings innings.entry (λ s h i. PutsValues result out.old out.new
        (laws.values_from (laws.fall_value s (side_of h i) there.now) 0 (figures.falls h i))) }
{
    let side = innings.side();
    let falls = innings.score.falls(innings.index);
    for (index, place) in falls.iter().enumerate() {
        if let Some(fall) = place {
            put_fall(out, alloc, innings.sheet, side, there, index, fall)?;
        }
    }
    Ok(())
}

/// Puts the falls of an innings; `falls` has the over and ball of every fall of the match.
pub fn put_falls(
    out: &mut Compact,
    alloc: Global,
    innings: Innings<'_>,
    falls: &[FallAt],
) -> Result<(), AllocError>
    ensures { ForInnings innings.entry (λ s h i. falls.now ≡ falls_at h →
        PutsValues result out.old out.new (laws.falls_values s h i)) }
{
    let begun = innings.score.begun();
    prove!(innings.index < begun);
    let there = falls_in(alloc, innings.index + 1, falls)?;
    put_each_fall(out, alloc, innings, there.as_slice())
}
