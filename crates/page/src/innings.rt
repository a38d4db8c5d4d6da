//! An innings with its cards.

ghost use Rattle.std.specs.Prelude.{◌≡◌, ◌+◌, ◌<◌, ◌≤◌};
ghost use Rattle.match_laws.specs.History.{side_eq};
ghost use Rattle.match_laws.specs.Stands.{ForEachHistory, begun_in};
ghost use Rattle.cards.specs.Batting.{earlier_innings};
ghost use Rattle.export.specs.Innings.{needed_in};
ghost use Rattle.falls.specs.Falls.{falls_at};
ghost use Rattle.page.specs.Escapes.{Puts};
ghost use Rattle.page.specs.Innings as laws;

use crate::batting::put_batting;
use crate::bowling::put_bowling;
use crate::escapes::put_escaped;
use crate::fall_list::put_falls;
use crate::idle::put_idle;
use crate::moments::{Moment, moment_at};
use crate::stands::put_partnerships;
use archive_deliveries::NamedSheet;
use falls::FallAt;
use match_laws::{Match, opponent};
use notation::{Cause, Plain, Side};
use std::alloc::{AllocError, Global};

/// Returns why an item ends the innings, if it does.
fn end_in(innings: usize, moment: &Moment) -> Option<Cause>
    ensures { result ≡ laws.end_in innings moment.now }
{
    if moment.innings != innings {
        return None;
    }
    match moment.item {
        Plain::End(cause) => Some(cause),
        _ => None,
    }
}

/// Returns why an innings ended, if it has.
fn cause_in(innings: usize, moments: &[Moment]) -> Option<Cause>
    ensures { result ≡ laws.cause_in innings moments.now }
{
    for index in 0..moments.len() {
        let moment = moment_at(moments, index);
        let cause = end_in(innings, &moment);
        if cause.is_some() {
            return cause;
        }
    }
    None
}

/// Writes the runs for the wickets, and then these words.
fn put_runs_for(out: &mut String, runs: u32, down: u32, words: &str) -> Result<(), AllocError>
    ensures { Puts result out.old out.new (laws.runs_for runs down words.now) }
{
    write!(out, "{runs} for {down}{words}")
}

/// Writes a score, with how the innings ended.
fn put_score(out: &mut String, cause: Option<Cause>, runs: u32, down: u32) -> Result<(), AllocError>
    ensures { Puts result out.old out.new (laws.score_text cause runs down) }
{
    match cause {
        Some(Cause::AllOut) | Some(Cause::NoBatter) => write!(out, "{runs} all out"),
        Some(Cause::Declared) => put_runs_for(out, runs, down, " declared"),
        Some(Cause::Forfeited) => put_runs_for(out, runs, down, " forfeited"),
        Some(Cause::Overs) | None => put_runs_for(out, runs, down, ""),
    }
}

fn put_overs(out: &mut String, called: u32, since: u32) -> Result<(), AllocError>
    ensures { Puts result out.old out.new (laws.overs_text called since) }
{
    write!(out, " ({called}.{since} overs)")
}

/// Whether both are the same side.
fn is_same(one: Side, other: Side) -> bool
    ensures { result ≡ side_eq one other }
{
    matches!(
        (one, other),
        (Side::Home, Side::Home) | (Side::Away, Side::Away)
    )
}

/// Returns how many innings the side had before this one.
fn earlier_innings(score: &Match, side: Side, innings: usize) -> usize
    requires { innings < begun_in score.now }
    ensures value { ForEachHistory score.now (λ n h. result ≡ earlier_innings h side innings) }
    ensures bound { result ≤ innings }
{
    let mut count = 0;
    for earlier in 0..innings {
        if is_same(score.side(earlier), side) {
            count += 1;
        }
    }
    count
}

/// Writes which of the side's innings it is, if each side has two.
fn put_nth(out: &mut String, innings_a_side: u32, earlier: usize) -> Result<(), AllocError>
    requires { earlier < 4 }
    ensures { Puts result out.old out.new (laws.nth_text innings_a_side earlier) }
{
    if innings_a_side == 1 {
        return Ok(());
    }
    let number = 1 + earlier;
    write!(out, ", innings {number}")
}

/// Writes the name of the side that bats in an innings, and which of its innings it is.
pub fn put_title(
    out: &mut String,
    sheet: &NamedSheet<'_>,
    score: &Match,
    innings: usize,
) -> Result<(), AllocError>
    requires { innings < begun_in score.now }
    ensures { ForEachHistory score.now (λ n h.
        Puts result out.old out.new (laws.title_html sheet.now sheet.now.innings h innings)) }
{
    let begun = score.begun();
    prove!(innings < begun);
    let side = score.side(innings);
    let earlier = earlier_innings(score, side, innings);
    out.push_str("<span class='name'>")?;
    put_escaped(out, sheet.name(side))?;
    put_nth(out, sheet.innings(), earlier)?;
    out.push_str("</span>")
}

/// Writes the score of an innings, with how it ended.
fn put_total(
    out: &mut String,
    score: &Match,
    innings: usize,
    cause: Option<Cause>,
) -> Result<(), AllocError>
    requires { innings < begun_in score.now }
    ensures { ForEachHistory score.now (λ n h. Puts result out.old out.new (laws.score_html h innings cause)) }
{
    let (called, since) = score.overs(innings);
    out.push_str("<span>")?;
    put_score(out, cause, score.total(innings), score.wickets(innings))?;
    put_overs(out, called, since)?;
    out.push_str("</span></h2>\n")
}

fn side_word(side: Side) -> &'static str
    ensures { result.now ≡ laws.side_word side }
{
    match side {
        Side::Home => "home",
        Side::Away => "away",
    }
}

/// Writes the front of an innings' section, by its number from 1.
fn put_section(out: &mut String, number: usize, side: &str) -> Result<(), AllocError>
    ensures { Puts result out.old out.new (laws.section_front number side.now) }
{
    write!(
        out,
        "<section class='innings {side}' aria-labelledby='innings-{number}'>\n<h2 id='innings-{number}'>"
    )
}

/// Writes the heading of an innings.
fn put_heading(
    out: &mut String,
    sheet: &NamedSheet<'_>,
    score: &Match,
    moments: &[Moment],
    innings: usize,
) -> Result<(), AllocError>
    requires { innings < begun_in score.now }
    ensures { ForEachHistory score.now (λ n h.
        Puts result out.old out.new (laws.heading_html sheet.now sheet.now.innings h innings moments.now)) }
{
    let begun = score.begun();
    prove!(innings < begun);
    put_section(out, innings + 1, side_word(score.side(innings)))?;
    put_title(out, sheet, score, innings)?;
    out.push_str(" ")?;
    put_total(out, score, innings, cause_in(innings, moments))
}

/// Returns the total that the batting side needs in the innings to win.
fn needed_in(score: &Match, innings: usize) -> u32
    requires { innings < begun_in score.now }
    ensures { ForEachHistory score.now (λ n h. result ≡ needed_in h innings) }
{
    let side = score.side(innings);
    let before = score.side_total(side).saturating_sub(score.total(innings));
    (score.side_total(opponent(side)) + 1).saturating_sub(before)
}

/// Whether this is the last innings that the match can have.
fn is_last(sheet: &NamedSheet<'_>, innings: usize) -> bool
    requires { innings < 4 }
    ensures { result ≡ laws.is_last sheet.now innings }
{
    innings as u32 + 1 == 2 * sheet.innings()
}

/// Writes the target, if it is the last innings.
fn put_needed(out: &mut String, last: bool, needed: u32) -> Result<(), AllocError>
    ensures { Puts result out.old out.new (laws.needed_html last needed) }
{
    if last {
        return writeln!(out, "<p class='target'><b>Target: </b>{needed}</p>");
    }
    Ok(())
}

/// Writes the target of the last innings of a match, and nothing for an earlier one.
fn put_target(
    out: &mut String,
    sheet: &NamedSheet<'_>,
    score: &Match,
    innings: usize,
) -> Result<(), AllocError>
    requires { innings < begun_in score.now }
    ensures { ForEachHistory score.now (λ n h. Puts result out.old out.new (laws.target_html sheet.now h innings)) }
{
    let begun = score.begun();
    prove!(innings < begun);
    let last = is_last(sheet, innings);
    put_needed(out, last, needed_in(score, innings))
}

/// Writes the batting side's part: the target, the card, who didn't bat, and the falls, from the falls of all innings.
fn put_batting_part(
    alloc: Global,
    out: &mut String,
    sheet: &NamedSheet<'_>,
    score: &Match,
    falls: &[FallAt],
    innings: usize,
) -> Result<(), AllocError>
    requires { innings < begun_in score.now }
    ensures { ForEachHistory score.now (λ n h. falls.now ≡ falls_at h →
        Puts result out.old out.new (laws.batting_part sheet.now n h innings)) }
{
    put_target(out, sheet, score, innings)?;
    put_batting(alloc, out, sheet, score, innings)?;
    put_idle(alloc, out, sheet, score, innings)?;
    put_falls(alloc, out, sheet, score, innings, falls)
}

/// Writes the bowling card and the partnerships, to the end of the section.
fn put_bowling_part(
    alloc: Global,
    out: &mut String,
    sheet: &NamedSheet<'_>,
    score: &Match,
    moments: &[Moment],
    innings: usize,
) -> Result<(), AllocError>
    requires { innings < begun_in score.now }
    ensures { ForEachHistory score.now (λ n h. Puts result out.old out.new (laws.bowling_part sheet.now h moments.now innings)) }
{
    out.push_str("</div><div>\n")?;
    put_bowling(out, sheet, score, innings)?;
    put_partnerships(alloc, out, innings, moments)?;
    out.push_str("</div></div></section>\n")
}

/// Writes an innings with its cards, from the items of the match and the falls of all innings.
pub fn put_innings(
    alloc: Global,
    out: &mut String,
    sheet: &NamedSheet<'_>,
    score: &Match,
    moments: &[Moment],
    falls: &[FallAt],
    innings: usize,
) -> Result<(), AllocError>
    requires { innings < begun_in score.now }
    ensures { ForEachHistory score.now (λ n h. falls.now ≡ falls_at h → n ≡ sheet.now.innings →
        Puts result out.old out.new (laws.innings_html sheet.now n h moments.now innings)) }
{
    put_heading(out, sheet, score, moments, innings)?;
    out.push_str("<div class='both'><div>\n")?;
    put_batting_part(alloc, out, sheet, score, falls, innings)?;
    put_bowling_part(alloc, out, sheet, score, moments, innings)
}
