//! The batting card of an innings, as a table.

ghost use Rattle.std.specs.Prelude.{◌≡◌, ◌<◌, IfOk, string_bytes};
ghost use Rattle.match_laws.specs.Parts.{extras_of};
ghost use Rattle.match_laws.specs.Stands.{ForEachHistory, begun_in};
ghost use Rattle.cards.specs.Batting.{all_extras};
ghost use Rattle.page.specs.Batting as card;
ghost use Rattle.page.specs.Escapes.{Puts};

use crate::dismissals::fate_of;
use crate::escapes::put_name;
use archive_deliveries::NamedSheet;
use limits::{TwoPlaces, run_rate};
use match_laws::{BattingRow, Extras, Match, opponent};
use notation::{Player, Side};
use std::alloc::{AllocError, Global};

/// The head of the table, with the names of its columns.
pub const HEADINGS: &str =
    "<thead><tr><th scope='col' class='words'>Batter</th><th scope='col' class='words how'>How out</th>\
<th scope='col'><abbr title='runs'>R</abbr></th><th scope='col'><abbr title='balls'>B</abbr></th>\
<th scope='col'><abbr title='fours'>4</abbr></th><th scope='col'><abbr title='sixes'>6</abbr></th></tr></thead><tbody>\n";

/// Writes words twice: under the name in the first cell, and in a cell of their own.
fn put_words(out: &mut String, words: &str) -> Result<(), AllocError>
    ensures { Puts result out.old out.new (card.words_cells words.now) }
{
    write!(
        out,
        "<span class='under'>{words}</span></th><td class='words how'>{words}</td>"
    )
}

/// Writes a batter's figures.
fn put_figures(out: &mut String, row: &BattingRow) -> Result<(), AllocError>
    ensures { Puts result out.old out.new (card.figures_of row.now) }
{
    let runs = row.runs;
    let faced = row.faced;
    let fours = row.fours;
    let sixes = row.sixes;
    writeln!(
        out,
        "<td class='runs'>{runs}</td><td>{faced}</td><td>{fours}</td><td>{sixes}</td></tr>"
    )
}

/// Writes the row of a player of the side.
fn put_row(
    alloc: Global,
    out: &mut String,
    sheet: &NamedSheet<'_>,
    side: Side,
    player: Player,
    row: &BattingRow,
) -> Result<(), AllocError>
    ensures { Puts result out.old out.new (card.row_html sheet.now side player row.now) }
{
    let how = fate_of(alloc, sheet, opponent(side), row.fate)?;
    out.push_str("<tr><th scope='row'>")?;
    put_name(out, sheet.player(side, player))?;
    put_words(out, how.as_str())?;
    put_figures(out, row)
}

/// Writes the row of a batter.
fn put_batter(
    alloc: Global,
    out: &mut String,
    sheet: &NamedSheet<'_>,
    score: &Match,
    innings: usize,
    player: Player,
) -> Result<(), AllocError>
    requires { innings < begun_in score.now }
    ensures { ForEachHistory score.now (λ n h. Puts result out.old out.new (card.batter_html sheet.now h innings player)) }
{
    let row = score.batting_row(innings, player);
    put_row(alloc, out, sheet, score.side(innings), player, &row)
}

/// Writes a row for each batter who came in or was timed out.
fn put_batters(
    alloc: Global,
    out: &mut String,
    sheet: &NamedSheet<'_>,
    score: &Match,
    innings: usize,
) -> Result<(), AllocError>
    requires { innings < begun_in score.now }
    ensures { ForEachHistory score.now (λ n h. Puts result out.old out.new (card.batters_html sheet.now h innings)) }
{
    let order = score.batting_order(innings);
    for place in order {
        if let Some(player) = place {
            put_batter(alloc, out, sheet, score, innings, player)?;
        }
    }
    Ok(())
}

/// Returns the sum of all extras of an innings.
fn all_extras(extras: &Extras) -> u64
    ensures { result ≡ all_extras extras.now }
{
    let off_deliveries = u64::from(extras.byes) + u64::from(extras.legs) + u64::from(extras.wides);
    off_deliveries + u64::from(extras.noballs) + u64::from(extras.penalty)
}

/// Returns the extras by kind, as text.
fn kinds_of(alloc: Global, extras: &Extras) -> Result<String, AllocError>
    ensures { IfOk result (λ text. string_bytes text ≡ card.kinds_text extras.now) }
{
    let byes = extras.byes;
    let legs = extras.legs;
    let wides = extras.wides;
    let noballs = extras.noballs;
    let penalty = extras.penalty;
    format!(in alloc; "b {byes}, lb {legs}, w {wides}, nb {noballs}, p {penalty}")
}

/// Writes runs of the whole innings, to the end of the row.
fn put_runs(out: &mut String, runs: u64) -> Result<(), AllocError>
    ensures { Puts result out.old out.new (card.runs_cells runs) }
{
    writeln!(
        out,
        "<td class='runs'>{runs}</td><td colspan='3'></td></tr>"
    )
}

/// Writes a row of the table's foot.
fn put_foot_row(out: &mut String, label: &str, words: &str, runs: u64) -> Result<(), AllocError>
    ensures { Puts result out.old out.new (card.foot_row label.now words.now runs) }
{
    out.push_str("<tr><th scope='row'>")?;
    out.push_str(label)?;
    put_words(out, words)?;
    put_runs(out, runs)
}

fn put_extras(alloc: Global, out: &mut String, extras: &Extras) -> Result<(), AllocError>
    ensures { Puts result out.old out.new (card.extras_row extras.now) }
{
    let kinds = kinds_of(alloc, extras)?;
    put_foot_row(out, "Extras", kinds.as_str(), all_extras(extras))
}

/// Writes the run rate, given in hundredths of a run an over, or nothing if there is no rate.
fn put_rate(out: &mut String, rate: Option<u64>) -> Result<(), AllocError>
    ensures { Puts result out.old out.new (card.rate_text rate) }
{
    match rate {
        None => Ok(()),
        Some(hundredths) => {
            let rate = TwoPlaces { hundredths };
            write!(out, ", {rate} an over")
        }
    }
}

/// Writes the wickets, the overs called, and the balls since.
fn put_down(out: &mut String, down: u32, called: u32, since: u32) -> Result<(), AllocError>
    ensures { Puts result out.old out.new (card.down_text down called since) }
{
    write!(out, "for {down} ({called}.{since} overs")
}

/// Returns the wickets and overs of an innings, and its run rate, as text.
fn at_of(alloc: Global, score: &Match, innings: usize) -> Result<String, AllocError>
    requires { innings < begun_in score.now }
    ensures { ForEachHistory score.now (λ n h. IfOk result (λ text. string_bytes text ≡ card.at_text h innings)) }
{
    let (called, since) = score.overs(innings);
    let mut out = String::new(alloc);
    put_down(&mut out, score.wickets(innings), called, since)?;
    put_rate(&mut out, run_rate(score, innings))?;
    out.push_str(")")?;
    Ok(out)
}

fn put_total(
    alloc: Global,
    out: &mut String,
    score: &Match,
    innings: usize,
) -> Result<(), AllocError>
    requires { innings < begun_in score.now }
    ensures { ForEachHistory score.now (λ n h. Puts result out.old out.new (card.total_row h innings)) }
{
    let at = at_of(alloc, score, innings)?;
    let total = score.total(innings);
    put_foot_row(out, "Total", at.as_str(), u64::from(total))
}

/// Writes the caption and the head of the table.
fn put_front(
    out: &mut String,
    sheet: &NamedSheet<'_>,
    score: &Match,
    innings: usize,
) -> Result<(), AllocError>
    requires { innings < begun_in score.now }
    ensures { ForEachHistory score.now (λ n h. Puts result out.old out.new (card.table_front sheet.now h innings)) }
{
    let side = score.side(innings);
    out.push_str("<table><caption>")?;
    put_name(out, sheet.name(side))?;
    out.push_str(" batting</caption>")?;
    out.push_str(HEADINGS)
}

/// Writes the foot of the table: the extras and the total.
fn put_foot(
    alloc: Global,
    out: &mut String,
    score: &Match,
    innings: usize,
) -> Result<(), AllocError>
    requires { innings < begun_in score.now }
    ensures { ForEachHistory score.now (λ n h. Puts result out.old out.new (card.table_foot h innings)) }
{
    out.push_str("</tbody><tfoot>\n")?;
    put_extras(alloc, out, &score.extras(innings))?;
    put_total(alloc, out, score, innings)?;
    out.push_str("</tfoot></table>\n")
}

/// Writes the batting card of an innings.
pub fn put_batting(
    alloc: Global,
    out: &mut String,
    sheet: &NamedSheet<'_>,
    score: &Match,
    innings: usize,
) -> Result<(), AllocError>
    requires { innings < begun_in score.now }
    ensures { ForEachHistory score.now (λ n h. Puts result out.old out.new (card.batting_html sheet.now h innings)) }
{
    put_front(out, sheet, score, innings)?;
    put_batters(alloc, out, sheet, score, innings)?;
    put_foot(alloc, out, score, innings)
}
