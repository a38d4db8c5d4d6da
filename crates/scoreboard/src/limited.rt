//! The limits of the sheet, and what follows from them.

ghost use Rattle.std.specs.Prelude.{◌≡◌, ◌∷◌, [], IfOk, codes, map, string_bytes};
ghost use Rattle.limits.specs.Rates.{two_places};
ghost use Rattle.json_fields.specs.Values.{PutsFields, PutsValues, array_of, number_value};
ghost use Rattle.scoreboard.specs.Limited as laws;

use crate::situation::Situation;
use itoa::Buffer;
use json_fields::{
    Compact, begin_array, begin_field, begin_object, end_array, end_object, put_bool, put_figure,
    put_integer, put_null, put_number, put_text,
};
use limits::{Limits, Powerplay};
use std::alloc::{AllocError, Global};

/// Puts a number, or null if there is none.
pub fn put_figure_or_null(
    out: &mut Compact,
    name: &str,
    number: Option<u32>,
) -> Result<(), AllocError>
    ensures { PutsFields result out.old out.new ((name.now, laws.number_or_null number) ∷ []) }
{
    match number {
        Some(number) => put_figure(out, name, number),
        None => put_null(out, name),
    }
}

/// Puts a number of overs, or null if there is none.
fn put_overs_or_null(out: &mut Compact, name: &str, number: Option<u16>) -> Result<(), AllocError>
    ensures { PutsFields result out.old out.new ((name.now, laws.number_or_null number) ∷ []) }
{
    match number {
        Some(number) => put_figure(out, name, u32::from(number)),
        None => put_null(out, name),
    }
}

/// Puts which one of several it is, or null if it is none of them.
fn put_count_or_null(out: &mut Compact, name: &str, number: Option<usize>) -> Result<(), AllocError>
    ensures { PutsFields result out.old out.new ((name.now, laws.number_or_null number) ∷ []) }
{
    match number {
        Some(number) => put_number(out, name, number as u64),
        None => put_null(out, name),
    }
}

/// Returns the text of a rate, with two decimals.
fn rate_text(alloc: Global, hundredths: u64) -> Result<String, AllocError>
    ensures { IfOk result (λ text. string_bytes text ≡ two_places hundredths) }
{
    let mut buffer = Buffer::new();
    let mut text = String::from_str(alloc, buffer.format(hundredths / 100))?;
    text.push_str(".")?;
    text.push_str(buffer.format(hundredths / 10 % 10))?;
    text.push_str(buffer.format(hundredths % 10))?;
    Ok(text)
}

/// Puts a rate, or null if there is none.
fn put_rate(
    out: &mut Compact,
    alloc: Global,
    name: &str,
    rate: Option<u64>,
) -> Result<(), AllocError>
    ensures { PutsFields result out.old out.new ((name.now, laws.rate_or_null rate) ∷ []) }
{
    match rate {
        Some(hundredths) => {
            let text = rate_text(alloc, hundredths)?;
            put_text(out, name, text.as_str())
        }
        None => put_null(out, name),
    }
}

/// Puts each number of overs.
fn put_each_overs(out: &mut Compact, overs: &[u16]) -> Result<(), AllocError>
    ensures { PutsValues result out.old out.new (map number_value overs.now) }
{
    for number in overs {
        put_integer(out, u64::from(*number))?;
    }
    Ok(())
}

/// Puts the field of the numbers of overs.
fn put_overs(out: &mut Compact, overs: &[u16]) -> Result<(), AllocError>
    ensures { PutsFields result out.old out.new ((codes "overs", array_of (map number_value overs.now)) ∷ []) }
{
    begin_array(out, "overs")?;
    put_each_overs(out, overs)?;
    end_array(out)
}

fn put_powerplay(out: &mut Compact, powerplay: Powerplay) -> Result<(), AllocError>
    ensures { PutsValues result out.old out.new (laws.powerplay_value powerplay ∷ []) }
{
    begin_object(out)?;
    put_figure(out, "first", u32::from(powerplay.first))?;
    put_figure(out, "last", u32::from(powerplay.last))?;
    end_object(out)
}

/// Puts each powerplay.
fn put_each_powerplay(out: &mut Compact, powerplays: &[Powerplay]) -> Result<(), AllocError>
    ensures { PutsValues result out.old out.new (map laws.powerplay_value powerplays.now) }
{
    for powerplay in powerplays {
        put_powerplay(out, *powerplay)?;
    }
    Ok(())
}

/// Puts the field of the powerplays.
fn put_powerplays(out: &mut Compact, powerplays: &[Powerplay]) -> Result<(), AllocError>
    ensures { PutsFields result out.old out.new
        ((codes "powerplays", array_of (map laws.powerplay_value powerplays.now)) ∷ []) }
{
    begin_array(out, "powerplays")?;
    put_each_powerplay(out, powerplays)?;
    end_array(out)
}

/// Puts the limits of a sheet.
pub fn put_limits(out: &mut Compact, limits: &Limits) -> Result<(), AllocError>
    ensures { PutsFields result out.old out.new ((codes "limits", laws.limits_value limits.now) ∷ []) }
{
    begin_field(out, "limits")?;
    put_overs(out, limits.overs())?;
    put_overs_or_null(out, "overs_a_bowler", limits.overs_a_bowler())?;
    put_bool(out, "free_hits", limits.free_hits())?;
    put_powerplays(out, limits.powerplays())?;
    end_object(out)
}

/// Puts the overs of the innings, and the overs and balls left.
fn put_left(out: &mut Compact, situation: &Situation) -> Result<(), AllocError>
    ensures { PutsFields result out.old out.new (laws.left_fields situation.now) }
{
    put_overs_or_null(out, "overs", situation.overs)?;
    put_figure_or_null(out, "overs_left", situation.overs_left)?;
    put_figure_or_null(out, "balls_left", situation.balls_left)
}

/// Puts the rates needed, and the run rates.
fn put_rates(out: &mut Compact, alloc: Global, situation: &Situation) -> Result<(), AllocError>
    ensures { PutsFields result out.old out.new (laws.rate_fields situation.now) }
{
    put_rate(out, alloc, "needed_an_over", situation.needed_an_over)?;
    put_rate(out, alloc, "needed_a_ball", situation.needed_a_ball)?;
    put_rate(out, alloc, "run_rate", situation.run_rate)?;
    put_rate(out, alloc, "last_rate", situation.last_rate)
}

/// Puts whether the next delivery is a free hit, the powerplay, and the number of overs in which the bowler has bowled.
fn put_play(out: &mut Compact, situation: &Situation) -> Result<(), AllocError>
    ensures { PutsFields result out.old out.new (laws.play_fields situation.now) }
{
    put_bool(out, "free_hit", situation.free_hit)?;
    put_count_or_null(out, "powerplay", situation.powerplay)?;
    put_figure_or_null(out, "bowler_overs", situation.bowler_overs)
}

/// Puts what follows from the limits of the sheet.
pub fn put_situation(
    out: &mut Compact,
    alloc: Global,
    situation: &Situation,
) -> Result<(), AllocError>
    ensures { PutsFields result out.old out.new (laws.situation_fields situation.now) }
{
    put_left(out, situation)?;
    put_rates(out, alloc, situation)?;
    put_play(out, situation)
}
