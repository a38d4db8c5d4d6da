//! The names of both sides and their players.

ghost use Rattle.std.specs.Prelude.{◌≡◌, ◌∷◌, [], true};
ghost use Rattle.std.specs.List.{list_all};
ghost use Rattle.ball_laws.specs.Over.{numbers as all_numbers};
ghost use Rattle.json_fields.specs.Values.{PutsFields, PutsValues};
ghost use Rattle.desk_state.specs.Sides as laws;
ghost use Rattle.notation.specs.Written.{is_player};

use cards::MatchSheet;
use json_fields::{Compact, begin_array, begin_field, end_array, end_object, put_string, put_text};
use notation::{Player, Side};
use std::alloc::AllocError;

/// Puts the names of these players.
fn put_names(
    out: &mut Compact,
    sheet: &MatchSheet,
    side: Side,
    numbers: &[u8],
) -> Result<(), AllocError>
    requires { list_all is_player numbers.now ≡ true }
    ensures { PutsValues result out.old out.new (laws.names_of sheet.now side numbers.now) }
{
    let Some((number, more)) = numbers.split_first() else {
        return Ok(());
    };
    let Some(player) = Player::new(*number) else {
        return Ok(());
    };
    put_string(out, sheet.player(side, player))?;
    put_names(out, sheet, side, more)
}

/// Puts the names of all eleven players.
fn put_all_names(out: &mut Compact, sheet: &MatchSheet, side: Side) -> Result<(), AllocError>
    ensures { PutsValues result out.old out.new (laws.names_of sheet.now side all_numbers) }
{
    let numbers = [1, 2, 3, 4, 5, 6, 7, 8, 9, 10, 11];
    put_names(out, sheet, side, &numbers)
}

/// Puts the field of the players.
fn put_players(out: &mut Compact, sheet: &MatchSheet, side: Side) -> Result<(), AllocError>
    ensures { PutsFields result out.old out.new (laws.players_field sheet.now side ∷ []) }
{
    begin_array(out, "players")?;
    put_all_names(out, sheet, side)?;
    end_array(out)
}

/// Puts the field of a side.
fn put_side(out: &mut Compact, sheet: &MatchSheet, name: &str, side: Side) -> Result<(), AllocError>
    ensures { PutsFields result out.old out.new ((name.now, laws.side_value sheet.now side) ∷ []) }
{
    begin_field(out, name)?;
    put_text(out, "name", sheet.name(side))?;
    put_players(out, sheet, side)?;
    end_object(out)
}

/// Puts the field of both sides.
pub fn put_sides(out: &mut Compact, sheet: &MatchSheet) -> Result<(), AllocError>
    ensures { PutsFields result out.old out.new (laws.sides_field sheet.now ∷ []) }
{
    begin_field(out, "sides")?;
    put_side(out, sheet, "home", Side::Home)?;
    put_side(out, sheet, "away", Side::Away)?;
    end_object(out)
}
