//! The players of a side who didn't bat.

ghost use Rattle.std.specs.Prelude.{◌≡◌, ◌+◌, ◌<◌, ◌++◌, IfOk, codes};
ghost use Rattle.match_laws.specs.Stands.{ForEachHistory, begun_in};
ghost use Rattle.cards.specs.Sheet.{player_of};
ghost use Rattle.page.specs.Idle as laws;
ghost use Rattle.page.specs.Escapes.{Puts, name_html};

use crate::escapes::put_name;
use archive_deliveries::NamedSheet;
use match_laws::{Match, Outcome};
use notation::{Player, Side};
use std::alloc::{AllocError, Global};

/// Returns the player at an index from 0 to 10.
fn player_at(index: u8) -> Player
    requires { index < 11 }
    ensures { result ≡ index + 1 }
{
    Player::new(index + 1).unwrap()
}

/// Adds a player, if he neither came in nor was timed out in the innings.
fn add_idle(
    players: &mut Vec<Player>,
    score: &Match,
    innings: usize,
    player: Player,
) -> Result<(), AllocError>
    requires { innings < begun_in score.now }
    ensures { ForEachHistory score.now (λ n h. IfOk result (λ _. players.new.items ≡ players.old.items ++ laws.idle_at h innings player)) }
{
    let row = score.batting_row(innings, player);
    if row.fate.is_none() {
        players.push(player)?;
    }
    Ok(())
}

/// Returns the players who neither came in nor were timed out.
fn idle_of(alloc: Global, score: &Match, innings: usize) -> Result<Vec<Player>, AllocError>
    requires { innings < begun_in score.now }
    ensures { ForEachHistory score.now (λ n h. IfOk result (λ players. players.items ≡ laws.idle h innings)) }
{
    let mut players = Vec::new(alloc);
    for index in 0..11 {
        add_idle(&mut players, score, innings, player_at(index))?;
    }
    Ok(players)
}

/// Writes a comma and a name.
fn put_behind(out: &mut String, name: &str) -> Result<(), AllocError>
    ensures { Puts result out.old out.new (codes ", " ++ name_html name.now) }
{
    out.push_str(", ")?;
    put_name(out, name)
}

/// Writes a comma and the name, for each of these players.
fn put_names(
    out: &mut String,
    sheet: &NamedSheet<'_>,
    side: Side,
    players: &[Player],
) -> Result<(), AllocError>
    ensures { Puts result out.old out.new (laws.names_behind sheet.now side players.now) }
{
    let Some((first, rest)) = players.split_first() else {
        return Ok(());
    };
    put_behind(out, sheet.player(side, *first))?;
    put_names(out, sheet, side, rest)
}

fn is_undecided(outcome: Outcome) -> bool
    ensures { result ≡ laws.is_undecided outcome }
{
    matches!(outcome, Outcome::Undecided)
}

/// Whether an innings is in play, in a match without a result.
fn goes_on(score: &Match, innings: usize) -> bool
    requires { innings < begun_in score.now }
    ensures { ForEachHistory score.now (λ n h. result ≡ laws.goes_on n h innings) }
{
    let begun = score.begun();
    prove!(innings < begun);
    is_undecided(score.result()) && (score.is_open() && begun == innings + 1)
}

fn label(on: bool) -> &'static str
    ensures { result.now ≡ laws.label on }
{
    if on {
        "<p class='rest'><b>Yet to bat: </b>"
    } else {
        "<p class='rest'><b>Did not bat: </b>"
    }
}

/// Writes these players of a side as yet to bat, if the innings is on, or else as those who did not bat.
fn put_listed(
    out: &mut String,
    sheet: &NamedSheet<'_>,
    side: Side,
    on: bool,
    players: &[Player],
) -> Result<(), AllocError>
    ensures { Puts result out.old out.new (laws.listed sheet.now side on players.now) }
{
    let Some((first, rest)) = players.split_first() else {
        return Ok(());
    };
    out.push_str(label(on))?;
    put_name(out, sheet.player(side, *first))?;
    put_names(out, sheet, side, rest)?;
    out.push_str("</p>\n")
}

/// Writes the players of the batting side who didn't bat in an innings.
pub fn put_idle(
    alloc: Global,
    out: &mut String,
    sheet: &NamedSheet<'_>,
    score: &Match,
    innings: usize,
) -> Result<(), AllocError>
    requires { innings < begun_in score.now }
    ensures { ForEachHistory score.now (λ n h. Puts result out.old out.new (laws.idle_html sheet.now n h innings)) }
{
    let players = idle_of(alloc, score, innings)?;
    let on = goes_on(score, innings);
    put_listed(out, sheet, score.side(innings), on, players.as_slice())
}
