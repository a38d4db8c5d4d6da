//! Each over of an innings, ball by ball.

ghost use Rattle.std.specs.Prelude.{◌≡◌, ℕ, ◌<◌, ◌++◌, IfOk, Some, codes, length, slice_get, string_bytes};
ghost use Rattle.std.specs.List.{flat_map};
ghost use Rattle.match_laws.specs.Stands.{ForEachHistory, begun_in};
ghost use Rattle.notation.specs.declared.entry.Plain.{Plain as APlain};
ghost use Rattle.cards.specs.Marks.{mark_text};
ghost use Rattle.cards.specs.Sheet.{name_of};
ghost use Rattle.page.specs.Innings.{title_html};
ghost use Rattle.page.specs.Escapes.{Puts, name_html};
ghost use Rattle.page.specs.Overs as laws;

use crate::dismissals::left_words;
use crate::escapes::put_name;
use crate::innings::put_title;
use crate::moments::{Moment, moment_at};
use archive_deliveries::NamedSheet;
use cards::{Mark, all_runs, dead_mark, mark_of};
use match_laws::{Match, opponent};
use notation::{Ball, Kind, Leave, Plain, Player, Side};
use std::alloc::{AllocError, Global};

/// The end of a table's caption, and the names of its columns.
pub const HEADINGS: &str =
    "</caption><thead><tr><th scope='col'>Over</th><th scope='col' class='words'>Bowler, and each ball</th>\
<th scope='col'><abbr title='runs of its balls'>R</abbr></th><th scope='col'>Score</th></tr></thead><tbody>\n";

/// The front of the section.
pub const OVERS: &str =
    "<section id='overs' aria-labelledby='overs-heading'>\n<h2 id='overs-heading'>Over by over</h2>\n\
<p class='key'>Each ball's runs, and what they came off: b byes, lb leg byes, wd wides, nb no balls. W is a wicket, d a dead ball, \
<span aria-hidden='true'>&bull;</span><span class='unseen'>a dot</span> no run. <span class='name'>22/1</span> is 22 for 1.</p>\n\
<div id='all-overs'>\n";

fn is_bat(kind: Kind) -> bool
    ensures { result ≡ laws.is_bat kind }
{
    matches!(kind, Kind::Bat)
}

/// Returns the front of a delivery, by what stands out: a wicket, or four runs or more, or extras.
fn ball_front(ball: &Ball) -> &'static str
    ensures { result.now ≡ laws.ball_front ball.now }
{
    if ball.out.is_some() {
        "<li class='wicket'>"
    } else if 4 <= all_runs(ball) || !is_bat(ball.kind) {
        "<li class='more'>"
    } else {
        "<li>"
    }
}

/// Writes a delivery's mark.
fn put_text(out: &mut String, mark: Mark) -> Result<(), AllocError>
    ensures { Puts result out.old out.new (mark_text mark) }
{
    match mark {
        Mark::Dot(text) => out.push_str(text),
        Mark::Runs(count, kind, wicket) => write!(out, "{count}{kind}{wicket}"),
    }
}

/// Writes the mark of a delivery, with a bullet for a dot ball.
fn put_mark(out: &mut String, ball: &Ball) -> Result<(), AllocError>
    ensures { Puts result out.old out.new (laws.mark_html ball.now) }
{
    if all_runs(ball) == 0 && !ball.out.is_some() {
        out.push_str("&bull;")
    } else {
        put_text(out, mark_of(ball))
    }
}

/// Writes a delivery: its mark, and whether it was a dead ball.
fn put_delivery(out: &mut String, ball: &Ball) -> Result<(), AllocError>
    ensures { Puts result out.old out.new (laws.ball_html ball.now) }
{
    out.push_str(ball_front(ball))?;
    put_mark(out, ball)?;
    out.push_str(dead_mark(ball.dead))?;
    out.push_str("</li>")
}

/// Writes who bowls the deliveries that follow.
fn put_bowler(out: &mut String, name: &str) -> Result<(), AllocError>
    ensures { Puts result out.old out.new (laws.bowler_html name.now) }
{
    out.push_str("<span class='bowlers'>")?;
    put_name(out, name)?;
    out.push_str("</span> <ol class='marks'>")
}

/// Writes the front of an over's row, with its number from 1.
fn put_row_front(out: &mut String, number: u64) -> Result<(), AllocError>
    ensures { Puts result out.old out.new (laws.row_front number) }
{
    write!(out, "<tr><th scope='row'>{number}</th><td class='words'>")
}

/// Writes the front of an over before its first delivery; later, the bowler, if he has changed.
fn put_before(
    out: &mut String,
    last: Option<Player>,
    overs: u32,
    bowler: Player,
    name: &str,
) -> Result<(), AllocError>
    ensures { Puts result out.old out.new (laws.before_ball last overs bowler name.now) }
{
    match last {
        None => {
            put_row_front(out, u64::from(overs) + 1)?;
            put_bowler(out, name)
        }
        Some(last) => put_another(out, last, bowler, name),
    }
}

/// Writes the bowler, if he didn't bowl the last delivery.
fn put_another(out: &mut String, last: Player, bowler: Player, name: &str) -> Result<(), AllocError>
    ensures { (overs : ℕ) → Puts result out.old out.new (laws.before_ball (Some last) overs bowler name.now) }
{
    if last == bowler {
        return Ok(());
    }
    out.push_str("</ol> ")?;
    put_bowler(out, name)
}

/// Writes a score, to the end of the row.
fn put_score(out: &mut String, total: u32, wickets: u32) -> Result<(), AllocError>
    ensures { Puts result out.old out.new (laws.score_html total wickets) }
{
    writeln!(out, "</td><td>{total}/{wickets}</td></tr>")
}

/// Writes the runs of an over, and the score after it.
fn put_row_end(out: &mut String, moment: &Moment) -> Result<(), AllocError>
    ensures { Puts result out.old out.new (laws.row_end moment.now) }
{
    let runs = moment.over.runs;
    write!(out, "</td><td>{runs}")?;
    put_score(out, moment.total, moment.wickets)
}

fn balls_word(balls: u32) -> &'static str
    ensures { result.now ≡ laws.balls_word balls }
{
    if balls == 1 {
        " ball)</span>"
    } else {
        " balls)</span>"
    }
}

/// Writes a count of deliveries, with this word.
fn put_counted(out: &mut String, balls: u32, word: &str) -> Result<(), AllocError>
    ensures { Puts result out.old out.new (laws.counted_html balls word.now) }
{
    write!(out, "</ol> <span class='note'>({balls}{word}")
}

/// Writes how many deliveries of an over count, unless there are six.
fn put_count(out: &mut String, balls: u32) -> Result<(), AllocError>
    ensures { Puts result out.old out.new (laws.count_html balls) }
{
    if balls == 6 {
        out.push_str("</ol>")
    } else {
        put_counted(out, balls, balls_word(balls))
    }
}

/// Writes the end of an over that was called.
fn put_over_end(out: &mut String, moment: &Moment) -> Result<(), AllocError>
    ensures { Puts result out.old out.new (laws.count_html moment.now.balls ++ laws.row_end moment.now) }
{
    put_count(out, moment.balls)?;
    put_row_end(out, moment)
}

/// Writes the end of an over that wasn't called, if it has a delivery.
fn put_open_end(out: &mut String, moment: &Moment) -> Result<(), AllocError>
    ensures { Puts result out.old out.new (laws.open_end moment.now) }
{
    if moment.over.bowler.is_none() {
        return Ok(());
    }
    out.push_str("</ol>")?;
    put_row_end(out, moment)
}

/// Writes what happened among the deliveries of an over.
fn put_among(out: &mut String, text: &str) -> Result<(), AllocError>
    ensures { Puts result out.old out.new (laws.among_html text.now) }
{
    out.push_str("<li class='aside'>")?;
    out.push_str(text)?;
    out.push_str("</li>")
}

/// Writes what happened between overs, in a row of its own with the score.
fn put_between(out: &mut String, moment: &Moment, text: &str) -> Result<(), AllocError>
    ensures { Puts result out.old out.new (laws.between_html moment.now text.now) }
{
    out.push_str("<tr><th scope='row'></th><td class='words'><span class='note'>")?;
    out.push_str(text)?;
    out.push_str("</span></td><td>")?;
    put_score(out, moment.total, moment.wickets)
}

/// Writes an event other than a delivery: within the over if one is on, or else in a row of its own.
fn put_aside(out: &mut String, moment: &Moment, text: &str) -> Result<(), AllocError>
    ensures { Puts result out.old out.new (laws.aside_html moment.now text.now) }
{
    if moment.over.bowler.is_some() {
        put_among(out, text)
    } else {
        put_between(out, moment, text)
    }
}

/// Returns who left, and how.
fn gone_text(alloc: Global, name: &str, way: Leave) -> Result<String, AllocError>
    ensures { IfOk result (λ text. string_bytes text ≡ laws.gone_html name.now way) }
{
    let mut out = String::new(alloc);
    put_name(&mut out, name)?;
    out.push_str(" ")?;
    out.push_str(left_words(way))?;
    Ok(out)
}

/// Returns that a side was awarded penalty runs.
fn penalty_text(alloc: Global, name: &str) -> Result<String, AllocError>
    ensures { IfOk result (λ text. string_bytes text ≡ codes "5 penalty runs to " ++ name_html name.now) }
{
    let mut out = String::from_str(alloc, "5 penalty runs to ")?;
    put_name(&mut out, name)?;
    Ok(out)
}

/// Writes a delivery to a batter of the side, with the bowler where he is new.
fn put_ball(
    out: &mut String,
    sheet: &NamedSheet<'_>,
    side: Side,
    moment: &Moment,
    ball: &Ball,
) -> Result<(), AllocError>
    ensures { Puts result out.old out.new (laws.item_html sheet.now side moment.now (APlain.Ball ball.now)) }
{
    let name = sheet.player(opponent(side), ball.bowler);
    put_before(out, moment.over.bowler, moment.overs, ball.bowler, name)?;
    put_delivery(out, ball)
}

/// Writes that a batter of the side left.
fn put_gone(
    alloc: Global,
    out: &mut String,
    sheet: &NamedSheet<'_>,
    side: Side,
    moment: &Moment,
    way: Leave,
    player: Player,
) -> Result<(), AllocError>
    ensures { Puts result out.old out.new (laws.item_html sheet.now side moment.now (APlain.Gone way player)) }
{
    let text = gone_text(alloc, sheet.player(side, player), way)?;
    put_aside(out, moment, text.as_str())
}

/// Writes that a side was awarded penalty runs.
fn put_penalty(
    alloc: Global,
    out: &mut String,
    sheet: &NamedSheet<'_>,
    moment: &Moment,
    to: Side,
) -> Result<(), AllocError>
    ensures { Puts result out.old out.new
        (laws.aside_html moment.now (codes "5 penalty runs to " ++ name_html (name_of sheet.now to))) }
{
    let text = penalty_text(alloc, sheet.name(to))?;
    put_aside(out, moment, text.as_str())
}

/// Writes an item of an innings in which the side bats.
fn put_item(
    alloc: Global,
    out: &mut String,
    sheet: &NamedSheet<'_>,
    side: Side,
    moment: &Moment,
) -> Result<(), AllocError>
    ensures { Puts result out.old out.new (laws.item_html sheet.now side moment.now moment.now.item) }
{
    match moment.item {
        Plain::Ball(ball) => put_ball(out, sheet, side, moment, &ball),
        Plain::Over => put_over_end(out, moment),
        Plain::Gone(way, player) => put_gone(alloc, out, sheet, side, moment, way, player),
        Plain::Penalty(to, _, _) => put_penalty(alloc, out, sheet, moment, to),
        Plain::End(_) | Plain::Void => put_open_end(out, moment),
        Plain::Innings(_) | Plain::Come(_) | Plain::Swap | Plain::Close => Ok(()),
    }
}

/// Writes an item, if it belongs to this innings and the innings was open before it.
fn put_moment(
    alloc: Global,
    out: &mut String,
    sheet: &NamedSheet<'_>,
    side: Side,
    innings: usize,
    moment: &Moment,
) -> Result<(), AllocError>
    ensures { Puts result out.old out.new (laws.moment_html sheet.now side innings moment.now) }
{
    if moment.innings == innings && moment.on {
        return put_item(alloc, out, sheet, side, moment);
    }
    Ok(())
}

/// Returns the rows of an innings in which the side bats.
fn rows_of(
    alloc: Global,
    sheet: &NamedSheet<'_>,
    side: Side,
    innings: usize,
    moments: &[Moment],
) -> Result<String, AllocError>
    ensures { IfOk result (λ rows. string_bytes rows ≡ flat_map (laws.moment_html sheet.now side innings) moments.now) }
{
    let mut out = String::new(alloc);
    for index in 0..moments.len() {
        let moment = moment_at(moments, index);
        put_moment(alloc, &mut out, sheet, side, innings, &moment)?;
    }
    Ok(out)
}

/// Writes the caption and the column names of an innings' table.
fn put_caption(
    out: &mut String,
    sheet: &NamedSheet<'_>,
    score: &Match,
    innings: usize,
) -> Result<(), AllocError>
    requires { innings < begun_in score.now }
    ensures { ForEachHistory score.now (λ n h.
        Puts result out.old out.new (laws.caption_html (title_html sheet.now sheet.now.innings h innings))) }
{
    out.push_str("<table><caption>")?;
    put_title(out, sheet, score, innings)?;
    out.push_str(HEADINGS)
}

/// Writes the rows of an innings as a table.
fn put_rows(
    out: &mut String,
    sheet: &NamedSheet<'_>,
    score: &Match,
    innings: usize,
    rows: &str,
) -> Result<(), AllocError>
    requires { innings < begun_in score.now }
    ensures { ForEachHistory score.now (λ n h.
        Puts result out.old out.new (laws.table_html (title_html sheet.now sheet.now.innings h innings) rows.now)) }
{
    put_caption(out, sheet, score, innings)?;
    out.push_str(rows)?;
    out.push_str("</tbody></table>\n")
}

/// Writes the table of an innings, if it has any rows.
fn put_table(
    out: &mut String,
    sheet: &NamedSheet<'_>,
    score: &Match,
    innings: usize,
    rows: &str,
) -> Result<(), AllocError>
    requires { innings < begun_in score.now }
    ensures { ForEachHistory score.now (λ n h.
        Puts result out.old out.new (laws.in_table (title_html sheet.now sheet.now.innings h innings) rows.now)) }
{
    if rows.is_empty() {
        return Ok(());
    }
    put_rows(out, sheet, score, innings, rows)
}

/// Writes each over of an innings.
fn put_overs_of(
    alloc: Global,
    out: &mut String,
    sheet: &NamedSheet<'_>,
    score: &Match,
    moments: &[Moment],
    innings: usize,
) -> Result<(), AllocError>
    requires { innings < begun_in score.now }
    ensures { ForEachHistory score.now (λ n h.
        Puts result out.old out.new (laws.overs_html sheet.now sheet.now.innings h moments.now innings)) }
{
    let rows = rows_of(alloc, sheet, score.side(innings), innings, moments)?;
    put_table(out, sheet, score, innings, rows.as_str())
}

/// Returns the tables of all innings.
fn all_overs(
    alloc: Global,
    sheet: &NamedSheet<'_>,
    score: &Match,
    moments: &[Moment],
) -> Result<String, AllocError>
    ensures { ForEachHistory score.now (λ n h. IfOk result (λ text.
        string_bytes text ≡ laws.all_overs sheet.now sheet.now.innings h moments.now)) }
{
    let mut out = String::new(alloc);
    for innings in 0..score.begun() {
        put_overs_of(alloc, &mut out, sheet, score, moments, innings)?;
    }
    Ok(out)
}

/// Writes these tables as a section.
fn put_part(out: &mut String, tables: &str) -> Result<(), AllocError>
    ensures { Puts result out.old out.new (laws.section_html tables.now) }
{
    out.push_str(OVERS)?;
    out.push_str(tables)?;
    out.push_str("</div>\n</section>\n")
}

/// Writes the section, if there are any tables.
fn put_section(out: &mut String, tables: &str) -> Result<(), AllocError>
    ensures { Puts result out.old out.new (laws.in_section tables.now) }
{
    if tables.is_empty() {
        return Ok(());
    }
    put_part(out, tables)
}

/// Writes each over of a match.
pub fn put_overs(
    alloc: Global,
    out: &mut String,
    sheet: &NamedSheet<'_>,
    score: &Match,
    moments: &[Moment],
) -> Result<(), AllocError>
    ensures { ForEachHistory score.now (λ n h.
        Puts result out.old out.new (laws.in_section (laws.all_overs sheet.now sheet.now.innings h moments.now))) }
{
    let tables = all_overs(alloc, sheet, score, moments)?;
    put_section(out, tables.as_str())
}
