//! Both sides, by the players' numbers and names.

ghost use Rattle.std.specs.Prelude.{◌≡◌, ◌<◌, ◌++◌, OnOk, true};
ghost use Rattle.std.specs.List.{list_all};
ghost use Rattle.ball_laws.specs.Over.{numbers};
ghost use Rattle.cards.specs.Sheet.{team_of};
ghost use Rattle.streams.specs.Watched.{Prints, TellsFailure};
ghost use Rattle.screen.specs.Sides as sides;
ghost use Rattle.notation.specs.Written.{is_player};

use cards::MatchSheet;
use notation::{Player, Side};
use streams::{Sink, Watched, WriteFailed};

/// Prints a player by number and name, after a comma unless he is the first.
pub fn print_player<W: Sink>(
    out: &mut Watched<W>,
    sheet: &MatchSheet,
    side: Side,
    player: Player,
    is_first: bool,
) -> Result<(), WriteFailed>
    ensures text { OnOk result (Prints W.contents out.old out.new
        (sides.comma is_first ++ sides.player_text (team_of sheet.now side) player)) }
    ensures failed { TellsFailure result out.old out.new }
{
    let number = player.number();
    let name = sheet.player(side, player);
    if is_first {
        write!(out, "{number} {name}")
    } else {
        write!(out, ", {number} {name}")
    }
}

/// Returns the next column in a row of three.
pub fn next_column(column: u8) -> u8
    requires { column < 3 }
    ensures column { result ≡ sides.next_column column }
    ensures bound { result < 3 }
{
    if column == 2 { 0 } else { column + 1 }
}

fn before_player(column: u8) -> &'static str
    ensures { result.now ≡ sides.before_player column }
{
    if column == 0 { "\n  " } else { ", " }
}

/// Prints a player by number and name, in this column of a row of three.
pub fn print_next<W: Sink>(
    out: &mut Watched<W>,
    sheet: &MatchSheet,
    side: Side,
    column: u8,
    player: Player,
) -> Result<(), WriteFailed>
    ensures text { OnOk result (Prints W.contents out.old out.new
        (sides.before_player column ++ sides.player_text (team_of sheet.now side) player)) }
    ensures failed { TellsFailure result out.old out.new }
{
    let before = before_player(column);
    write!(out, "{before}")?;
    print_player(out, sheet, side, player, true)
}

/// Prints the players with these numbers, three in a row, from this column on.
fn print_each<W: Sink>(
    out: &mut Watched<W>,
    sheet: &MatchSheet,
    side: Side,
    column: u8,
    numbers: &[u8],
) -> Result<(), WriteFailed>
    requires column { column < 3 }
    requires numbers { list_all is_player numbers.now ≡ true }
    ensures text { OnOk result (Prints W.contents out.old out.new
        (sides.in_rows (team_of sheet.now side) column numbers.now)) }
    ensures failed { TellsFailure result out.old out.new }
{
    let Some((number, more)) = numbers.split_first() else {
        return Ok(());
    };
    let Some(player) = Player::new(*number) else {
        return Ok(());
    };
    print_next(out, sheet, side, column, player)?;
    print_each(out, sheet, side, next_column(column), more)
}

/// Prints all players of a side, three in a row.
fn print_all<W: Sink>(
    out: &mut Watched<W>,
    sheet: &MatchSheet,
    side: Side,
) -> Result<(), WriteFailed>
    ensures text { OnOk result (Prints W.contents out.old out.new
        (sides.in_rows (team_of sheet.now side) 0 numbers)) }
    ensures failed { TellsFailure result out.old out.new }
{
    print_each(out, sheet, side, 0, &[1, 2, 3, 4, 5, 6, 7, 8, 9, 10, 11])
}

fn print_side<W: Sink>(
    out: &mut Watched<W>,
    sheet: &MatchSheet,
    side: Side,
) -> Result<(), WriteFailed>
    ensures text { OnOk result (Prints W.contents out.old out.new (sides.team_rows (team_of sheet.now side))) }
    ensures failed { TellsFailure result out.old out.new }
{
    let name = sheet.name(side);
    write!(out, "{name}:")?;
    print_all(out, sheet, side)?;
    writeln!(out)
}

/// Prints both sides, with the players' numbers and names, three in a row.
pub fn print_sides<W: Sink>(out: &mut Watched<W>, sheet: &MatchSheet) -> Result<(), WriteFailed>
    ensures text { OnOk result (Prints W.contents out.old out.new (sides.both_sides sheet.now)) }
    ensures failed { TellsFailure result out.old out.new }
{
    print_side(out, sheet, Side::Home)?;
    print_side(out, sheet, Side::Away)
}
