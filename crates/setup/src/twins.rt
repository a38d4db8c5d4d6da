//! Names that two teams or players of a sheet share. Such a sheet is taken: standard error is told, and the match goes on.

ghost use Rattle.std.specs.Prelude.{IfOk};
ghost use Rattle.setup.specs.SheetText.{IsSheetOf};

use crate::fault::{StopFault, Stopped};
use crate::unfit_keys::tell_unfit_keys;
use cards::{MatchSheet, read_sheet};
use notation::{Player, Side};
use std::io::{self, Write};
use std::ops::Range;

/// Whether one of the side's players with these numbers has this name.
fn is_borne(sheet: &MatchSheet, side: Side, name: &str, numbers: Range<u8>) -> bool {
    for number in numbers {
        match Player::new(number) {
            Some(player) if sheet.player(side, player) == name => return true,
            _ => {}
        }
    }
    false
}

/// Tells that two players of the side share a name, if this player is the first of them.
fn tell_player<W: Write>(
    errors: &mut W,
    sheet: &MatchSheet,
    side: Side,
    player: Player,
) -> io::Result<()> {
    let name = sheet.player(side, player);
    let number = player.number();
    if is_borne(sheet, side, name, 1..number) || !is_borne(sheet, side, name, number + 1..12) {
        return Ok(());
    }
    writeln!(errors, "sheet: two players are called {name}")
}

/// Tells each name that two players of the side share.
fn tell_players<W: Write>(errors: &mut W, sheet: &MatchSheet, side: Side) -> io::Result<()> {
    for number in 1..12 {
        if let Some(player) = Player::new(number) {
            tell_player(errors, sheet, side, player)?;
        }
    }
    Ok(())
}

/// Tells each name that two teams share, or two players of a team.
pub fn tell_twins<W: Write>(errors: &mut W, sheet: &MatchSheet) -> io::Result<()> {
    let name = sheet.name(Side::Home);
    if name == sheet.name(Side::Away) {
        writeln!(errors, "sheet: two teams are called {name}")?;
    }
    tell_players(errors, sheet, Side::Home)?;
    tell_players(errors, sheet, Side::Away)
}

/// Returns the match sheet in a file's bytes. Tells standard error each name that two share, and each key of `limits` whose
/// value can't be right; not being able to tell it is no fault.
pub fn told_sheet_of<'a>(
    rt: &HostRuntime,
    path: &'a str,
    text: &[u8],
) -> Result<MatchSheet, Stopped<'a>>
    ensures { IfOk result (IsSheetOf text.now) }
{
    match read_sheet(rt.alloc(), text) {
        Ok(sheet) => {
            let _ = tell_twins(&mut rt.stderr(), &sheet);
            let _ = tell_unfit_keys(&mut rt.stderr(), rt.alloc(), text);
            Ok(sheet)
        }
        Err(why) => Err(Stopped::at(path, StopFault::from(why))),
    }
}
