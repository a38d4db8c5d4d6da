//! The limits of a sheet, as in its table `[limits]`.

ghost use Rattle.std.specs.Prelude.{◌≡◌, ◌++◌, ◌∷◌, [], codes, map};
ghost use Rattle.json_fields.specs.Values.{PutsFields, PutsValues, array_of, number_field, number_value, object_of};
ghost use Rattle.export.specs.Limited as laws;

use json::{Pretty, Token};
use json_fields::{
    begin_array, begin_field, end_array, end_object, put_figure, put_flag, put_integer,
};
use limits::{Limits, Powerplay};
use std::alloc::AllocError;

/// Puts a number of overs.
fn put_number_of(out: &mut Pretty, overs: u16) -> Result<(), AllocError>
    ensures { PutsValues result out.old out.new (number_value overs ∷ []) }
{
    put_integer(out, u64::from(overs))
}

/// Puts each number of overs.
fn put_numbers(out: &mut Pretty, overs: &[u16]) -> Result<(), AllocError>
    ensures { PutsValues result out.old out.new (map number_value overs.now) }
{
    for number in overs {
        put_number_of(out, *number)?;
    }
    Ok(())
}

/// Puts the field `overs`: each number of overs.
fn put_listed(out: &mut Pretty, overs: &[u16]) -> Result<(), AllocError>
    ensures { PutsFields result out.old out.new
        ((codes "overs", array_of (map number_value overs.now)) ∷ []) }
{
    begin_array(out, "overs")?;
    put_numbers(out, overs)?;
    end_array(out)
}

/// Puts how many overs the innings have, where they are limited.
fn put_overs(out: &mut Pretty, overs: &[u16]) -> Result<(), AllocError>
    ensures { PutsFields result out.old out.new (laws.listed_fields (codes "overs") number_value overs.now) }
{
    if overs.is_empty() {
        return Ok(());
    }
    put_listed(out, overs)
}

/// Puts how many overs a bowler may bowl.
fn put_most_of(out: &mut Pretty, overs: u16) -> Result<(), AllocError>
    ensures { PutsFields result out.old out.new (number_field (codes "overs_a_bowler") overs ∷ []) }
{
    put_figure(out, "overs_a_bowler", u32::from(overs))
}

/// Puts how many overs a bowler may bowl, where they are limited.
fn put_most(out: &mut Pretty, overs: Option<u16>) -> Result<(), AllocError>
    ensures { PutsFields result out.old out.new (laws.most_fields overs) }
{
    match overs {
        None => Ok(()),
        Some(overs) => put_most_of(out, overs),
    }
}

/// Puts the first and the last over of a powerplay.
fn put_both(out: &mut Pretty, powerplay: Powerplay) -> Result<(), AllocError>
    ensures { PutsValues result out.old out.new
        (number_value powerplay.first ∷ [] ++ number_value powerplay.last ∷ []) }
{
    put_number_of(out, powerplay.first)?;
    put_number_of(out, powerplay.last)
}

/// Puts a powerplay as an array of its first and last over.
fn put_range(out: &mut Pretty, powerplay: Powerplay) -> Result<(), AllocError>
    ensures { PutsValues result out.old out.new (laws.range_value powerplay ∷ []) }
{
    out.token(Token::BeginArray)?;
    put_both(out, powerplay)?;
    end_array(out)
}

/// Puts each powerplay.
fn put_ranges(out: &mut Pretty, powerplays: &[Powerplay]) -> Result<(), AllocError>
    ensures { PutsValues result out.old out.new (map laws.range_value powerplays.now) }
{
    for powerplay in powerplays {
        put_range(out, *powerplay)?;
    }
    Ok(())
}

/// Puts the field of the powerplays.
fn put_ranges_listed(out: &mut Pretty, powerplays: &[Powerplay]) -> Result<(), AllocError>
    ensures { PutsFields result out.old out.new
        ((codes "powerplays", array_of (map laws.range_value powerplays.now)) ∷ []) }
{
    begin_array(out, "powerplays")?;
    put_ranges(out, powerplays)?;
    end_array(out)
}

/// Puts the powerplays, where there are any.
fn put_powerplays(out: &mut Pretty, powerplays: &[Powerplay]) -> Result<(), AllocError>
    ensures { PutsFields result out.old out.new
        (laws.listed_fields (codes "powerplays") laws.range_value powerplays.now) }
{
    if powerplays.is_empty() {
        return Ok(());
    }
    put_ranges_listed(out, powerplays)
}

/// Whether the sheet limits anything.
fn is_limited(limits: &Limits) -> bool
    ensures { result ≡ laws.is_limited limits.now }
{
    !limits.overs().is_empty()
        || limits.overs_a_bowler().is_some()
        || limits.free_hits()
        || !limits.powerplays().is_empty()
}

/// Puts the field `limits`.
fn put_table(out: &mut Pretty, limits: &Limits) -> Result<(), AllocError>
    ensures { PutsFields result out.old out.new
        ((codes "limits", object_of (laws.limits_fields limits.now)) ∷ []) }
{
    begin_field(out, "limits")?;
    put_overs(out, limits.overs())?;
    put_most(out, limits.overs_a_bowler())?;
    put_flag(out, "free_hits", limits.free_hits())?;
    put_powerplays(out, limits.powerplays())?;
    end_object(out)
}

/// Puts the limits of a sheet, where it has any.
pub fn put_limits(out: &mut Pretty, limits: &Limits) -> Result<(), AllocError>
    ensures { PutsFields result out.old out.new (laws.limits_field limits.now) }
{
    if !is_limited(limits) {
        return Ok(());
    }
    put_table(out, limits)
}
