//! The chart of how the totals of a match grew.

ghost use Rattle.std.specs.Prelude.{◌≡◌, ◌<◌, IfOk, string_bytes};
ghost use Rattle.std.specs.List.{flat_map};
ghost use Rattle.match_laws.specs.Stands.{ForEachHistory, begun_in};
ghost use Rattle.page.specs.Growth as laws;
ghost use Rattle.page.specs.Escapes.{Puts};
ghost use Rattle.page.specs.Innings.{title_html};

use crate::bars::{
    is_drawn, larger, line_class, moment_at, most_overs, put_figure, put_picture, put_ring,
    width_of,
};
use crate::innings::put_title;
use crate::moments::Moment;
use archive_deliveries::NamedSheet;
use match_laws::Match;
use std::alloc::{AllocError, Global};

/// Writes a point of a line: the total after an over.
fn put_point(out: &mut String, moment: &Moment) -> Result<(), AllocError>
    ensures { Puts result out.old out.new (laws.point_svg moment.now) }
{
    let x = width_of(moment.overs);
    let total = moment.total;
    write!(out, "L{x} {total}")
}

/// Writes the point of an item, if an over of the innings ends there.
fn put_point_in(out: &mut String, innings: usize, moment: &Moment) -> Result<(), AllocError>
    ensures { Puts result out.old out.new (laws.point_in innings moment.now) }
{
    if is_drawn(innings, moment) {
        put_point(out, moment)
    } else {
        Ok(())
    }
}

/// Returns the points of an innings' line.
fn points_of(alloc: Global, innings: usize, moments: &[Moment]) -> Result<String, AllocError>
    ensures { IfOk result (λ points. string_bytes points ≡ flat_map (laws.point_in innings) moments.now) }
{
    let mut out = String::new(alloc);
    for index in 0..moments.len() {
        let moment = moment_at(moments, index);
        put_point_in(&mut out, innings, &moment)?;
    }
    Ok(out)
}

/// Writes a ring on the line, if a wicket fell in the over.
fn put_mark(out: &mut String, moment: &Moment) -> Result<(), AllocError>
    ensures { Puts result out.old out.new (laws.mark_svg moment.now) }
{
    if moment.over.down == 0 {
        Ok(())
    } else {
        put_ring(out, width_of(moment.overs), u64::from(moment.total))
    }
}

/// Writes the ring of an item, if an over of the innings ends there.
fn put_mark_in(out: &mut String, innings: usize, moment: &Moment) -> Result<(), AllocError>
    ensures { Puts result out.old out.new (laws.mark_in innings moment.now) }
{
    if is_drawn(innings, moment) {
        put_mark(out, moment)
    } else {
        Ok(())
    }
}

/// Returns the rings of an innings' line.
fn marks_of(alloc: Global, innings: usize, moments: &[Moment]) -> Result<String, AllocError>
    ensures { IfOk result (λ marks. string_bytes marks ≡ flat_map (laws.mark_in innings) moments.now) }
{
    let mut out = String::new(alloc);
    for index in 0..moments.len() {
        let moment = moment_at(moments, index);
        put_mark_in(&mut out, innings, &moment)?;
    }
    Ok(out)
}

/// Writes a line of this CSS class, with its rings.
fn put_line(out: &mut String, class: &str, points: &str, marks: &str) -> Result<(), AllocError>
    ensures { Puts result out.old out.new (laws.line_svg class.now points.now marks.now) }
{
    write!(
        out,
        "<path class='growth {class}' vector-effect='non-scaling-stroke' d='M0 0{points}'/>{marks}"
    )
}

/// Writes the line of an innings, with its rings.
fn put_line_of(
    alloc: Global,
    out: &mut String,
    score: &Match,
    moments: &[Moment],
    innings: usize,
) -> Result<(), AllocError>
    requires { innings < begun_in score.now }
    ensures { ForEachHistory score.now (λ n h. Puts result out.old out.new (laws.line_of h moments.now innings)) }
{
    let points = points_of(alloc, innings, moments)?;
    let marks = marks_of(alloc, innings, moments)?;
    let class = line_class(score.side(innings), innings);
    put_line(out, class, points.as_str(), marks.as_str())
}

/// Returns the lines of all innings.
fn all_lines(alloc: Global, score: &Match, moments: &[Moment]) -> Result<String, AllocError>
    ensures { ForEachHistory score.now (λ n h. IfOk result (λ text. string_bytes text ≡ laws.all_lines h moments.now)) }
{
    let mut out = String::new(alloc);
    for innings in 0..score.begun() {
        put_line_of(alloc, &mut out, score, moments, innings)?;
    }
    Ok(out)
}

/// Writes a sample of a line of this CSS class.
fn put_stroke(out: &mut String, class: &str) -> Result<(), AllocError>
    ensures { Puts result out.old out.new (laws.stroke_svg class.now) }
{
    write!(
        out,
        "<li><svg viewBox='0 0 36 10' aria-hidden='true'><path class='growth {class}' d='M1 5L35 5'/></svg>"
    )
}

/// Writes the legend's item of an innings: a sample of its line, and its title.
fn put_key(
    out: &mut String,
    sheet: &NamedSheet<'_>,
    score: &Match,
    innings: usize,
) -> Result<(), AllocError>
    requires { innings < begun_in score.now }
    ensures { ForEachHistory score.now (λ n h.
        Puts result out.old out.new (laws.key_html h innings (title_html sheet.now sheet.now.innings h innings))) }
{
    put_stroke(out, line_class(score.side(innings), innings))?;
    put_title(out, sheet, score, innings)?;
    out.push_str("</li>")
}

/// Returns the legend's items of all innings.
fn all_keys(alloc: Global, sheet: &NamedSheet<'_>, score: &Match) -> Result<String, AllocError>
    ensures { ForEachHistory score.now (λ n h. IfOk result (λ text.
        string_bytes text ≡ laws.all_keys sheet.now sheet.now.innings h)) }
{
    let mut out = String::new(alloc);
    for innings in 0..score.begun() {
        put_key(&mut out, sheet, score, innings)?;
    }
    Ok(out)
}

/// Returns the largest total of any innings so far.
fn most_total(score: &Match) -> u32
    ensures { ForEachHistory score.now (λ n h. result ≡ laws.most_total h) }
{
    let mut most = 0;
    for innings in 0..score.begun() {
        most = larger(most, score.total(innings));
    }
    most
}

/// Writes the caption and the legend, with these items.
fn put_caption(out: &mut String, keys: &str) -> Result<(), AllocError>
    ensures { Puts result out.old out.new (laws.caption_html keys.now) }
{
    write!(
        out,
        "How the totals grew, over by over</figcaption><ul class='legend'>{keys}</ul>"
    )
}

/// Writes these lines, to the end of the figure.
fn put_lines(out: &mut String, lines: &str) -> Result<(), AllocError>
    ensures { Puts result out.old out.new (laws.lines_svg lines.now) }
{
    write!(out, "{lines}</g></svg></figure>\n")
}

/// Writes the chart with these lines and this legend, for this many overs and for totals up to `most`.
fn put_chart(
    out: &mut String,
    overs: u32,
    most: u32,
    keys: &str,
    lines: &str,
) -> Result<(), AllocError>
    ensures { Puts result out.old out.new (laws.chart_html overs most keys.now lines.now) }
{
    put_figure(out, 0)?;
    put_caption(out, keys)?;
    put_picture(out, 0, width_of(overs), u64::from(most) + 10)?;
    put_lines(out, lines)
}

/// Writes the chart of how the totals grew.
pub fn put_growth(
    alloc: Global,
    out: &mut String,
    sheet: &NamedSheet<'_>,
    score: &Match,
    moments: &[Moment],
) -> Result<(), AllocError>
    ensures { ForEachHistory score.now (λ n h.
        Puts result out.old out.new (laws.growth_html sheet.now sheet.now.innings h moments.now)) }
{
    let keys = all_keys(alloc, sheet, score)?;
    let lines = all_lines(alloc, score, moments)?;
    put_chart(
        out,
        most_overs(score),
        most_total(score),
        keys.as_str(),
        lines.as_str(),
    )
}
