//! The charts of a match.

ghost use Rattle.match_laws.specs.Stands.{ForEachHistory};
ghost use Rattle.page.specs.Charts as laws;
ghost use Rattle.page.specs.Escapes.{Puts};

use crate::bars::all_bars;
use crate::growth::put_growth;
use crate::moments::Moment;
use crate::overs::put_overs;
use archive_deliveries::NamedSheet;
use match_laws::Match;
use std::alloc::{AllocError, Global};

/// The front of the section.
pub const CHARTS: &str =
    "<section id='charts' aria-labelledby='charts-heading'>\n<h2 id='charts-heading'>Charts</h2>\n\
<p class='key'>A bar is an over, six units high for each run; a ring is a wicket. A line goes through the total behind each over.</p>\n\
<div id='figures'>\n";

/// Writes the charts of a match that has begun.
fn put_figures(
    alloc: Global,
    out: &mut String,
    sheet: &NamedSheet<'_>,
    score: &Match,
    moments: &[Moment],
) -> Result<(), AllocError>
    ensures { ForEachHistory score.now (λ n h.
        Puts result out.old out.new (laws.figures_html sheet.now sheet.now.innings h moments.now)) }
{
    let bars = all_bars(alloc, sheet, score, moments)?;
    out.push_str(CHARTS)?;
    out.push_str(bars.as_str())?;
    put_growth(alloc, out, sheet, score, moments)?;
    out.push_str("</div>\n</section>\n")
}

/// Writes the charts of a match, if it has begun.
fn put_charts(
    alloc: Global,
    out: &mut String,
    sheet: &NamedSheet<'_>,
    score: &Match,
    moments: &[Moment],
) -> Result<(), AllocError>
    ensures { ForEachHistory score.now (λ n h.
        Puts result out.old out.new (laws.charts_html sheet.now sheet.now.innings h moments.now)) }
{
    if score.begun() == 0 {
        return Ok(());
    }
    put_figures(alloc, out, sheet, score, moments)
}

/// Writes the course of a match: each over, and then the charts.
pub fn put_course(
    alloc: Global,
    out: &mut String,
    sheet: &NamedSheet<'_>,
    score: &Match,
    moments: &[Moment],
) -> Result<(), AllocError>
    ensures { ForEachHistory score.now (λ n h.
        Puts result out.old out.new (laws.course_html sheet.now sheet.now.innings h moments.now)) }
{
    put_overs(alloc, out, sheet, score, moments)?;
    put_charts(alloc, out, sheet, score, moments)
}
