//! The falls of the wickets of an innings.

ghost use Rattle.std.specs.Prelude.{◌≡◌, ◌+◌, ◌<◌, Some, slice_get};
ghost use Rattle.match_laws.specs.Stands.{ForEachHistory, begun_in};
ghost use Rattle.falls.specs.Falls.{falls_at, falls_in as those_in};
ghost use Rattle.page.specs.Falls as laws;
ghost use Rattle.page.specs.Escapes.{Puts};

use crate::escapes::put_name;
use archive_deliveries::NamedSheet;
use falls::{FallAt, falls_in};
use match_laws::{Fall, Match};
use notation::Side;
use std::alloc::{AllocError, Global};

/// Writes the number of the wicket, and the total at its fall.
fn put_score(out: &mut String, number: usize, total: u32) -> Result<(), AllocError>
    ensures { Puts result out.old out.new (laws.score_html number total) }
{
    write!(out, "<span class='fall'>{number}-{total} ")
}

/// Writes the over and the ball of a fall.
fn put_over(out: &mut String, at: FallAt) -> Result<(), AllocError>
    ensures { Puts result out.old out.new (laws.at_html (Some at)) }
{
    let overs = at.overs;
    let balls = at.balls;
    write!(out, " ({overs}.{balls})</span> ")
}

/// Writes the over and the ball of a fall, if they are known.
fn put_at(out: &mut String, at: Option<FallAt>) -> Result<(), AllocError>
    ensures { Puts result out.old out.new (laws.at_html at) }
{
    match at {
        Some(at) => put_over(out, at),
        None => out.push_str("</span> "),
    }
}

/// Returns the fall at an index, if there is one.
fn at_index(there: &[FallAt], index: usize) -> Option<FallAt>
    ensures { result ≡ slice_get there.now index }
{
    there.get(index).copied()
}

/// Writes a fall of the side's wickets, by its index. `there` has the over and ball of each fall of the innings.
fn put_fall(
    out: &mut String,
    sheet: &NamedSheet<'_>,
    side: Side,
    there: &[FallAt],
    index: usize,
    fall: Fall,
) -> Result<(), AllocError>
    requires { index < 10 }
    ensures { Puts result out.old out.new (laws.fall_html sheet.now side there.now index fall) }
{
    put_score(out, index + 1, fall.total)?;
    put_name(out, sheet.player(side, fall.player))?;
    put_at(out, at_index(there, index))
}

/// Writes each fall of an innings. `there` has the over and ball of each.
fn put_each_fall(
    out: &mut String,
    sheet: &NamedSheet<'_>,
    score: &Match,
    innings: usize,
    there: &[FallAt],
) -> Result<(), AllocError>
    requires { innings < begun_in score.now }
    ensures { ForEachHistory score.now (λ n h. there.now ≡ those_in (innings + 1) (falls_at h) →
        Puts result out.old out.new (laws.each_fall sheet.now h innings)) }
{
    let side = score.side(innings);
    let falls = score.falls(innings);
    for (index, place) in falls.iter().enumerate() {
        if let Some(fall) = place {
            put_fall(out, sheet, side, there, index, *fall)?;
        }
    }
    Ok(())
}

/// Writes the falls of an innings, from the overs and balls of the falls of all innings.
pub fn put_falls(
    alloc: Global,
    out: &mut String,
    sheet: &NamedSheet<'_>,
    score: &Match,
    innings: usize,
    falls: &[FallAt],
) -> Result<(), AllocError>
    requires { innings < begun_in score.now }
    ensures { ForEachHistory score.now (λ n h. falls.now ≡ falls_at h →
        Puts result out.old out.new (laws.falls_html sheet.now h innings)) }
{
    let begun = score.begun();
    prove!(innings < begun);
    if score.wickets(innings) == 0 {
        return Ok(());
    }
    let there = falls_in(alloc, innings + 1, falls)?;
    out.push_str("<p class='falls'><b>Fall of wickets, with the over: </b>")?;
    put_each_fall(out, sheet, score, innings, there.as_slice())?;
    out.push_str("</p>\n")
}
