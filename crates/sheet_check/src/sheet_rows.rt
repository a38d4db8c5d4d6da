//! The rows that show a sheet as it was read.

ghost use Rattle.std.specs.Prelude.{◌≡◌, ◌++◌, codes, decimal, string_bytes, true, IfOk, OnOk};
ghost use Rattle.std.specs.List.{list_all};
ghost use Rattle.sheet_check.specs.SheetRows as texts;
ghost use Rattle.notation.specs.Written.{is_player};

use crate::putting::push_number;
use cards::MatchSheet;
use limits::{Limits, Powerplay};
use notation::{Player, Side};
use std::alloc::{AllocError, Global};

/// Appends a row: its label and its text.
fn push_row(out: &mut String, what: &str, text: &str) -> Result<(), AllocError>
    ensures { OnOk result (string_bytes out.new ≡ string_bytes out.old ++ texts.row what.now text.now) }
{
    out.push_str(what)?;
    out.push_str(" ")?;
    out.push_str(text)?;
    out.push_str("\n")
}

/// Returns a number as a text.
fn number_text(alloc: Global, number: u64) -> Result<String, AllocError>
    ensures { IfOk result (λ text. string_bytes text ≡ decimal number) }
{
    let mut text = String::new(alloc);
    push_number(&mut text, number)?;
    Ok(text)
}

/// Appends a row for each player of these numbers.
fn push_players(
    alloc: Global,
    out: &mut String,
    sheet: &MatchSheet,
    side: Side,
    numbers: &[u8],
) -> Result<(), AllocError>
    requires { list_all is_player numbers.now ≡ true }
    ensures { OnOk result (string_bytes out.new ≡ string_bytes out.old ++ texts.players sheet.now side numbers.now) }
{
    let Some((number, more)) = numbers.split_first() else {
        return Ok(());
    };
    let Some(player) = Player::new(*number) else {
        return Ok(());
    };
    let text = number_text(alloc, u64::from(*number))?;
    push_row(out, text.as_str(), sheet.player(side, player))?;
    push_players(alloc, out, sheet, side, more)
}

/// Appends the rows of a side: its name and its players.
fn push_team(
    alloc: Global,
    out: &mut String,
    what: &str,
    sheet: &MatchSheet,
    side: Side,
) -> Result<(), AllocError>
    ensures { OnOk result (string_bytes out.new ≡ string_bytes out.old ++ texts.team sheet.now what.now side) }
{
    push_row(out, what, sheet.name(side))?;
    push_players(
        alloc,
        out,
        sheet,
        side,
        &[1, 2, 3, 4, 5, 6, 7, 8, 9, 10, 11],
    )
}

/// Appends a row with a number.
fn push_figure(alloc: Global, out: &mut String, what: &str, number: u16) -> Result<(), AllocError>
    ensures { OnOk result (string_bytes out.new ≡ string_bytes out.old ++ texts.row what.now (decimal number)) }
{
    let text = number_text(alloc, u64::from(number))?;
    push_row(out, what, text.as_str())
}

/// Appends a row for the overs of each innings.
fn push_overs(alloc: Global, out: &mut String, overs: &[u16]) -> Result<(), AllocError>
    ensures { OnOk result (string_bytes out.new ≡ string_bytes out.old ++ texts.overs_rows overs.now) }
{
    let Some((number, more)) = overs.split_first() else {
        return Ok(());
    };
    push_figure(alloc, out, "overs", *number)?;
    push_overs(alloc, out, more)
}

/// Appends a row for the overs of a bowler, if they are limited.
fn push_bowler(alloc: Global, out: &mut String, overs: Option<u16>) -> Result<(), AllocError>
    ensures { OnOk result (string_bytes out.new ≡ string_bytes out.old ++ texts.bowler_row overs) }
{
    match overs {
        Some(number) => push_figure(alloc, out, "overs_a_bowler", number),
        None => Ok(()),
    }
}

/// Appends a row for free hits, if there are any.
fn push_free(out: &mut String, free_hits: bool) -> Result<(), AllocError>
    ensures { OnOk result (string_bytes out.new ≡ string_bytes out.old ++ texts.free_row free_hits) }
{
    if free_hits {
        push_row(out, "free_hits", "true")
    } else {
        Ok(())
    }
}

fn push_powerplay(alloc: Global, out: &mut String, powerplay: Powerplay) -> Result<(), AllocError>
    ensures { OnOk result (string_bytes out.new ≡ string_bytes out.old
        ++ texts.row (codes "powerplay") (decimal powerplay.first ++ codes " " ++ decimal powerplay.last)) }
{
    let mut text = number_text(alloc, u64::from(powerplay.first))?;
    text.push_str(" ")?;
    push_number(&mut text, u64::from(powerplay.last))?;
    push_row(out, "powerplay", text.as_str())
}

/// Appends a row for each powerplay.
fn push_powerplays(
    alloc: Global,
    out: &mut String,
    powerplays: &[Powerplay],
) -> Result<(), AllocError>
    ensures { OnOk result (string_bytes out.new ≡ string_bytes out.old ++ texts.powerplay_rows powerplays.now) }
{
    let Some((powerplay, more)) = powerplays.split_first() else {
        return Ok(());
    };
    push_powerplay(alloc, out, *powerplay)?;
    push_powerplays(alloc, out, more)
}

/// Appends the rows of a sheet's limits.
fn push_limits(alloc: Global, out: &mut String, limits: &Limits) -> Result<(), AllocError>
    ensures { OnOk result (string_bytes out.new ≡ string_bytes out.old ++ texts.limits_rows limits.now) }
{
    push_overs(alloc, out, limits.overs())?;
    push_bowler(alloc, out, limits.overs_a_bowler())?;
    push_free(out, limits.free_hits())?;
    push_powerplays(alloc, out, limits.powerplays())
}

/// Returns the rows of a sheet as it was read.
pub fn shown_sheet(alloc: Global, sheet: &MatchSheet) -> Result<String, AllocError>
    ensures { IfOk result (λ text. string_bytes text ≡ texts.shown_sheet sheet.now) }
{
    let number = number_text(alloc, sheet.game())?;
    let innings = number_text(alloc, u64::from(sheet.innings()))?;
    let mut out = String::new(alloc);
    push_row(&mut out, "title", sheet.title())?;
    push_row(&mut out, "number", number.as_str())?;
    push_row(&mut out, "innings", innings.as_str())?;
    push_team(alloc, &mut out, "home", sheet, Side::Home)?;
    push_team(alloc, &mut out, "away", sheet, Side::Away)?;
    push_limits(alloc, &mut out, sheet.limits())?;
    Ok(out)
}
