//! The chart of the runs of each over of an innings. A chart's y axis points up, and an over is ten units wide.

ghost use Rattle.std.specs.Prelude.{◌≡◌, ◌+◌, ◌<◌, IfOk, Some, length, slice_get, string_bytes};
ghost use Rattle.std.specs.List.{flat_map};
ghost use Rattle.match_laws.specs.Stands.{ForEachHistory, begun_in};
ghost use Rattle.page.specs.Bars as laws;
ghost use Rattle.page.specs.Escapes.{Puts};
ghost use Rattle.page.specs.Innings.{title_html};

use crate::innings::put_title;
use crate::moments::Moment;
use archive_deliveries::NamedSheet;
use match_laws::Match;
use notation::{Plain, Side};
use std::alloc::{AllocError, Global};

/// Whether an over ends at an item: its call, or the end of the innings or the book, if the over has a delivery.
fn ends_over(moment: &Moment) -> bool
    ensures { result ≡ laws.ends_over moment.now }
{
    match moment.item {
        Plain::Over => true,
        Plain::End(_) | Plain::Void => moment.over.bowler.is_some(),
        _ => false,
    }
}

/// Whether an over of an innings ends at an item.
pub fn is_drawn(innings: usize, moment: &Moment) -> bool
    ensures { result ≡ laws.is_drawn innings moment.now }
{
    moment.innings == innings && (moment.on && ends_over(moment))
}

/// Writes a bar of this height at x.
fn put_rect(out: &mut String, x: u64, height: u64) -> Result<(), AllocError>
    ensures { Puts result out.old out.new (laws.rect_svg x height) }
{
    write!(out, "<rect x='{x}' y='0' width='8' height='{height}'/>")
}

/// Writes the bar of an over with these runs, after this many overs.
fn put_bar(out: &mut String, overs: u32, runs: u32) -> Result<(), AllocError>
    ensures { Puts result out.old out.new (laws.bar_svg overs runs) }
{
    put_rect(out, u64::from(overs) * 10, u64::from(runs) * 6)
}

/// Writes a ring with this centre.
pub fn put_ring(out: &mut String, x: u64, y: u64) -> Result<(), AllocError>
    ensures { Puts result out.old out.new (laws.ring_svg x y) }
{
    write!(out, "<circle class='wicket' cx='{x}' cy='{y}' r='3'/>")
}

/// Writes the ring of a wicket above the bar, after this many others of the over.
fn put_wicket(out: &mut String, overs: u32, runs: u32, others: u32) -> Result<(), AllocError>
    ensures { Puts result out.old out.new (laws.wicket_svg overs runs others) }
{
    let x = u64::from(overs) * 10 + 4;
    let y = u64::from(runs) * 6 + (u64::from(others) * 7 + 5);
    put_ring(out, x, y)
}

/// Writes a ring for each wicket of an over.
fn put_wickets(out: &mut String, overs: u32, runs: u32, down: u32) -> Result<(), AllocError>
    ensures { Puts result out.old out.new (laws.wickets_svg overs runs down) }
{
    for others in 0..down {
        put_wicket(out, overs, runs, others)?;
    }
    Ok(())
}

/// Writes the bar of an over, with its rings.
fn put_over(out: &mut String, moment: &Moment) -> Result<(), AllocError>
    ensures { Puts result out.old out.new (laws.over_svg moment.now) }
{
    put_bar(out, moment.overs, moment.over.runs)?;
    put_wickets(out, moment.overs, moment.over.runs, moment.over.down)
}

/// Writes the bar of an over, if an over of the innings ends at the item.
fn put_over_in(out: &mut String, innings: usize, moment: &Moment) -> Result<(), AllocError>
    ensures { Puts result out.old out.new (laws.over_in innings moment.now) }
{
    if is_drawn(innings, moment) {
        put_over(out, moment)
    } else {
        Ok(())
    }
}

/// Returns the item at an index.
pub fn moment_at(moments: &[Moment], index: usize) -> Moment
    requires { index < length moments.now }
    ensures { slice_get moments.now index ≡ Some result }
{
    moments[index]
}

/// Returns the bars of an innings.
fn bars_of(alloc: Global, innings: usize, moments: &[Moment]) -> Result<String, AllocError>
    ensures { IfOk result (λ bars. string_bytes bars ≡ flat_map (laws.over_in innings) moments.now) }
{
    let mut out = String::new(alloc);
    for index in 0..moments.len() {
        let moment = moment_at(moments, index);
        put_over_in(&mut out, innings, &moment)?;
    }
    Ok(out)
}

/// Returns the larger of two numbers.
pub fn larger(one: u32, other: u32) -> u32
    ensures { result ≡ laws.larger one other }
{
    if one < other { other } else { one }
}

/// Returns the runs of the innings' over that ends at an item, or 0 if none ends there.
fn runs_in(innings: usize, moment: &Moment) -> u32
    ensures { result ≡ laws.runs_in innings (Some moment.now) }
{
    if is_drawn(innings, moment) {
        moment.over.runs
    } else {
        0
    }
}

/// Returns the most runs of any over of an innings.
fn most_runs(innings: usize, moments: &[Moment]) -> u32
    ensures { result ≡ laws.most_runs innings moments.now }
{
    let mut most = 0;
    for index in 0..moments.len() {
        let moment = moment_at(moments, index);
        most = larger(most, runs_in(innings, &moment));
    }
    most
}

/// Returns the most overs called in any innings so far.
pub fn most_overs(score: &Match) -> u32
    ensures { ForEachHistory score.now (λ n h. result ≡ laws.most_overs h) }
{
    let mut most = 0;
    for innings in 0..score.begun() {
        most = larger(most, score.overs(innings).0);
    }
    most
}

/// Returns the width of a chart of this many called overs and one more.
pub fn width_of(overs: u32) -> u64
    ensures { result ≡ laws.width_of overs }
{
    u64::from(overs) * 10 + 10
}

/// Writes the front of a figure, up to its caption.
pub fn put_figure(out: &mut String, number: usize) -> Result<(), AllocError>
    ensures { Puts result out.old out.new (laws.figure_front number) }
{
    write!(out, "<figure><figcaption id='chart-{number}'>")
}

/// Writes the front of a figure's picture, of this width and height.
pub fn put_picture(
    out: &mut String,
    number: usize,
    width: u64,
    height: u64,
) -> Result<(), AllocError>
    ensures { Puts result out.old out.new (laws.picture_front number width height) }
{
    write!(
        out,
        "<svg role='img' overflow='visible' aria-labelledby='chart-{number}' viewBox='0 -{height} {width} {height}'><g transform='scale(1 -1)'>"
    )
}

/// Writes the end of a caption: the most runs of an over.
fn put_most(out: &mut String, runs: u32) -> Result<(), AllocError>
    ensures { Puts result out.old out.new (laws.most_html runs) }
{
    write!(out, ", {runs} at most</figcaption>")
}

/// Returns the CSS class of an innings: each side has a colour, and each of its innings a line style.
pub fn line_class(side: Side, innings: usize) -> &'static str
    ensures { result.now ≡ laws.line_class side innings }
{
    match side {
        Side::Home => { if innings < 2 { "s0" } else { "s2" } }
        Side::Away => { if innings < 2 { "s1" } else { "s3" } }
    }
}

/// Writes the front of a group of bars of this CSS class.
fn put_group(out: &mut String, class: &str) -> Result<(), AllocError>
    ensures { Puts result out.old out.new (laws.group_front class.now) }
{
    write!(out, "<g class='{class}'>")
}

/// Writes the caption of the bars of an innings, with the most runs of an over.
fn put_bars_caption(
    out: &mut String,
    sheet: &NamedSheet<'_>,
    score: &Match,
    innings: usize,
    most: u32,
) -> Result<(), AllocError>
    requires { innings < begun_in score.now }
    ensures { ForEachHistory score.now (λ n h.
        Puts result out.old out.new (laws.bars_caption (innings + 1) (title_html sheet.now sheet.now.innings h innings) most)) }
{
    let begun = score.begun();
    prove!(innings < begun);
    put_figure(out, innings + 1)?;
    out.push_str("Runs an over: ")?;
    put_title(out, sheet, score, innings)?;
    put_most(out, most)
}

/// Writes the picture of the bars of an innings, in this CSS class.
fn put_bars_picture(
    out: &mut String,
    number: usize,
    overs: u32,
    most: u32,
    class: &str,
    bars: &str,
) -> Result<(), AllocError>
    ensures { Puts result out.old out.new (laws.bars_picture number overs most class.now bars.now) }
{
    put_picture(out, number, width_of(overs), u64::from(most) * 6 + 20)?;
    put_group(out, class)?;
    out.push_str(bars)?;
    out.push_str("</g></g></svg></figure>\n")
}

/// Writes the chart of the runs of each over of an innings.
fn put_bars(
    alloc: Global,
    out: &mut String,
    sheet: &NamedSheet<'_>,
    score: &Match,
    moments: &[Moment],
    innings: usize,
) -> Result<(), AllocError>
    requires { innings < begun_in score.now }
    ensures { ForEachHistory score.now (λ n h.
        Puts result out.old out.new (laws.bars_html sheet.now sheet.now.innings h moments.now innings)) }
{
    let begun = score.begun();
    prove!(innings < begun);
    let bars = bars_of(alloc, innings, moments)?;
    let most = most_runs(innings, moments);
    let overs = most_overs(score);
    let class = line_class(score.side(innings), innings);
    put_bars_caption(out, sheet, score, innings, most)?;
    put_bars_picture(out, innings + 1, overs, most, class, bars.as_str())
}

/// Returns the charts of the runs of each over, for all innings.
pub fn all_bars(
    alloc: Global,
    sheet: &NamedSheet<'_>,
    score: &Match,
    moments: &[Moment],
) -> Result<String, AllocError>
    ensures { ForEachHistory score.now (λ n h. IfOk result (λ text.
        string_bytes text ≡ laws.all_bars sheet.now sheet.now.innings h moments.now)) }
{
    let mut out = String::new(alloc);
    for innings in 0..score.begun() {
        put_bars(alloc, &mut out, sheet, score, moments, innings)?;
    }
    Ok(out)
}
