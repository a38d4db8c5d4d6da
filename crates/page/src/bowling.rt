//! The bowling card of an innings, as a table.

ghost use Rattle.std.specs.Prelude.{◌≡◌, ◌<◌};
ghost use Rattle.match_laws.specs.Stands.{ForEachHistory, begun_in};
ghost use Rattle.page.specs.Bowling as card;
ghost use Rattle.page.specs.Escapes.{Puts};

use crate::escapes::put_name;
use archive_deliveries::NamedSheet;
use match_laws::{BowlingRow, Match, opponent};
use notation::{Player, Side};
use std::alloc::AllocError;

/// The head of the table, with the names of its columns.
pub const HEADINGS: &str =
    "<thead><tr><th scope='col' class='words'>Bowler</th><th scope='col'><abbr title='overs'>O</abbr></th>\
<th scope='col'><abbr title='maidens'>M</abbr></th><th scope='col'><abbr title='runs'>R</abbr></th>\
<th scope='col'><abbr title='wickets'>W</abbr></th><th scope='col'><abbr title='runs of wides'>wd</abbr></th>\
<th scope='col'><abbr title='no balls'>nb</abbr></th></tr></thead><tbody>\n";

/// Writes the overs with balls, the maidens and the runs.
fn put_figures_front(out: &mut String, row: &BowlingRow) -> Result<(), AllocError>
    ensures { Puts result out.old out.new (card.figures_front row.now) }
{
    let overs = row.overs;
    let balls = row.balls;
    let maidens = row.maidens;
    let runs = row.runs;
    write!(
        out,
        "</th><td>{overs}.{balls}</td><td>{maidens}</td><td>{runs}</td>"
    )
}

/// Writes the wickets, the runs of wides and the no balls.
fn put_figures_back(out: &mut String, row: &BowlingRow) -> Result<(), AllocError>
    ensures { Puts result out.old out.new (card.figures_back row.now) }
{
    let wickets = row.wickets;
    let wides = row.wides;
    let noballs = row.noballs;
    writeln!(
        out,
        "<td>{wickets}</td><td>{wides}</td><td>{noballs}</td></tr>"
    )
}

/// Writes the row of a player of the side.
fn put_row(
    out: &mut String,
    sheet: &NamedSheet<'_>,
    side: Side,
    player: Player,
    row: &BowlingRow,
) -> Result<(), AllocError>
    ensures { Puts result out.old out.new (card.row_html sheet.now side player row.now) }
{
    out.push_str("<tr><th scope='row'>")?;
    put_name(out, sheet.player(side, player))?;
    put_figures_front(out, row)?;
    put_figures_back(out, row)
}

/// Writes the row of a bowler.
fn put_bowler(
    out: &mut String,
    sheet: &NamedSheet<'_>,
    score: &Match,
    innings: usize,
    player: Player,
) -> Result<(), AllocError>
    requires { innings < begun_in score.now }
    ensures { ForEachHistory score.now (λ n h. Puts result out.old out.new (card.bowler_html sheet.now h innings player)) }
{
    let row = score.bowling_row(innings, player);
    put_row(out, sheet, opponent(score.side(innings)), player, &row)
}

/// Writes a row for each player who bowled.
fn put_bowlers(
    out: &mut String,
    sheet: &NamedSheet<'_>,
    score: &Match,
    innings: usize,
) -> Result<(), AllocError>
    requires { innings < begun_in score.now }
    ensures { ForEachHistory score.now (λ n h. Puts result out.old out.new (card.bowlers_html sheet.now h innings)) }
{
    let order = score.bowling_order(innings);
    for place in order {
        if let Some(player) = place {
            put_bowler(out, sheet, score, innings, player)?;
        }
    }
    Ok(())
}

/// Writes the caption and the head of the side's bowling table.
fn put_front(out: &mut String, sheet: &NamedSheet<'_>, side: Side) -> Result<(), AllocError>
    ensures { Puts result out.old out.new (card.table_front sheet.now side) }
{
    out.push_str("<table><caption>")?;
    put_name(out, sheet.name(side))?;
    out.push_str(" bowling</caption>")?;
    out.push_str(HEADINGS)
}

/// Writes the bowling card of an innings.
pub fn put_bowling(
    out: &mut String,
    sheet: &NamedSheet<'_>,
    score: &Match,
    innings: usize,
) -> Result<(), AllocError>
    requires { innings < begun_in score.now }
    ensures { ForEachHistory score.now (λ n h. Puts result out.old out.new (card.bowling_html sheet.now h innings)) }
{
    put_front(out, sheet, opponent(score.side(innings)))?;
    put_bowlers(out, sheet, score, innings)?;
    out.push_str("</tbody></table>\n")
}
