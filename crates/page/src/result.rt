//! The result of a match, in words.

ghost use Rattle.std.specs.Prelude.{◌≡◌, ◌==◌, ◌++◌, IfOk, codes, decimal, string_bytes, if◌then◌else◌};
ghost use Rattle.match_laws.specs.Stands.{ForEachHistory};
ghost use Rattle.cards.specs.Results.{counted as so_many, result_text};
ghost use Rattle.page.specs.Escapes.{Puts};
ghost use Rattle.page.specs.Page as page;

use crate::escapes::escaped;
use archive_deliveries::NamedSheet;
use match_laws::{Match, Outcome};
use std::alloc::{AllocError, Global};

/// Returns the singular for a count of 1, or else the plural.
fn unit_of(count: u32, one: &'static str, many: &'static str) -> &'static str
    ensures { result.now ≡ (if count == 1 then one.now else many.now) }
{
    if count == 1 { one } else { many }
}

/// Writes a count with its unit.
fn put_count(
    out: &mut String,
    count: u32,
    one: &'static str,
    many: &'static str,
) -> Result<(), AllocError>
    ensures { Puts result out.old out.new (so_many count one.now many.now) }
{
    write!(out, "{count} ")?;
    out.push_str(unit_of(count, one, many))
}

/// Returns that a side won by this count of runs or wickets.
fn win_by(
    alloc: Global,
    side: &str,
    how: &str,
    count: u32,
    one: &'static str,
    many: &'static str,
) -> Result<String, AllocError>
    ensures { IfOk result (λ text. string_bytes text ≡ side.now ++ how.now ++ so_many count one.now many.now) }
{
    let mut out = String::from_str(alloc, side)?;
    out.push_str(how)?;
    put_count(&mut out, count, one, many)?;
    Ok(out)
}

/// Returns the words of a result, or `no result yet`.
fn result_words(
    alloc: Global,
    sheet: &NamedSheet<'_>,
    outcome: Outcome,
) -> Result<String, AllocError>
    ensures { IfOk result (λ text. string_bytes text ≡ page.result_or_none (result_text sheet.now outcome)) }
{
    match outcome {
        Outcome::Undecided => String::from_str(alloc, "no result yet"),
        Outcome::Draw => String::from_str(alloc, "match drawn"),
        Outcome::Tie => String::from_str(alloc, "match tied"),
        Outcome::Runs(side, count) => {
            win_by(alloc, sheet.name(side), " won by ", count, "run", "runs")
        }
        Outcome::Wickets(side, count) => win_by(
            alloc,
            sheet.name(side),
            " won by ",
            count,
            "wicket",
            "wickets",
        ),
        Outcome::InningsAnd(side, count) => win_by(
            alloc,
            sheet.name(side),
            " won by an innings and ",
            count,
            "run",
            "runs",
        ),
        Outcome::PenaltyRuns(side) => {
            let name = sheet.name(side);
            format!(in alloc; "{name} won by penalty runs")
        }
    }
}

/// Returns the result of a match by the Laws, escaped for HTML.
pub fn result_of(alloc: Global, sheet: &NamedSheet<'_>, score: &Match) -> Result<String, AllocError>
    ensures { ForEachHistory score.now (λ n h. IfOk result (λ text. string_bytes text ≡ page.result_html sheet.now n h)) }
{
    let words = result_words(alloc, sheet, score.result())?;
    escaped(alloc, words.as_str())
}
