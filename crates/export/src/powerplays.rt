//! The powerplays of an innings.

ghost use Rattle.std.specs.Prelude.{◌≡◌, ◌++◌, ◌∷◌, [], IfOk, codes, decimal, map, string_bytes};
ghost use Rattle.json_fields.specs.Values.{PutsFields, PutsValues, array_of};
ghost use Rattle.export.specs.Innings as laws;

use itoa::Buffer;
use json::{Pretty, Token};
use json_fields::{begin_array, begin_object, end_array, end_object, put_text};
use limits::Powerplay;
use std::alloc::{AllocError, Global};

/// Returns the number of a delivery as text: its over, a point, and its ball in the over.
pub fn ball_text(alloc: Global, over: u64, ball: u64) -> Result<String, AllocError>
    ensures { IfOk result (λ text. string_bytes text ≡ decimal over ++ codes "." ++ decimal ball) }
{
    let mut buffer = Buffer::new();
    let mut text = String::from_str(alloc, buffer.format(over))?;
    text.push_str(".")?;
    text.push_str(buffer.format(ball))?;
    Ok(text)
}

/// Puts a field with the number of a delivery.
fn put_ball(
    alloc: Global,
    out: &mut Pretty,
    name: &str,
    over: u16,
    ball: u16,
) -> Result<(), AllocError>
    ensures { PutsFields result out.old out.new ((name.now, laws.ball_number over ball) ∷ []) }
{
    let text = ball_text(alloc, u64::from(over), u64::from(ball))?;
    out.token(Token::Key(name))?;
    out.token(Token::Number(text.as_str()))
}

/// Puts a powerplay: the first ball of its first over, the sixth ball of its last, and its type.
fn put_powerplay(alloc: Global, out: &mut Pretty, powerplay: Powerplay) -> Result<(), AllocError>
    ensures { PutsValues result out.old out.new (laws.powerplay_value powerplay ∷ []) }
{
    begin_object(out)?;
    put_ball(alloc, out, "from", powerplay.first.saturating_sub(1), 1)?;
    put_ball(alloc, out, "to", powerplay.last.saturating_sub(1), 6)?;
    put_text(out, "type", "mandatory")?;
    end_object(out)
}

/// Puts each powerplay.
fn put_each(alloc: Global, out: &mut Pretty, powerplays: &[Powerplay]) -> Result<(), AllocError>
    ensures { PutsValues result out.old out.new (map laws.powerplay_value powerplays.now) }
{
    for powerplay in powerplays {
        put_powerplay(alloc, out, *powerplay)?;
    }
    Ok(())
}

/// Puts the field of the powerplays.
fn put_listed(alloc: Global, out: &mut Pretty, powerplays: &[Powerplay]) -> Result<(), AllocError>
    ensures { PutsFields result out.old out.new
        ((codes "powerplays", array_of (map laws.powerplay_value powerplays.now)) ∷ []) }
{
    begin_array(out, "powerplays")?;
    put_each(alloc, out, powerplays)?;
    end_array(out)
}

/// Puts the powerplays of an innings, where there are any.
pub fn put_powerplays(
    alloc: Global,
    out: &mut Pretty,
    powerplays: &[Powerplay],
) -> Result<(), AllocError>
    ensures { PutsFields result out.old out.new (laws.powerplay_fields powerplays.now) }
{
    if powerplays.is_empty() {
        return Ok(());
    }
    put_listed(alloc, out, powerplays)
}
