//! The result as the umpires gave it.

ghost use Rattle.std.specs.Prelude.{◌≡◌, IfOk, option_map, string_bytes};
ghost use Rattle.toml.specs.View.{table_view};
ghost use Rattle.page.specs.Escapes.{Puts};
ghost use Rattle.page.specs.Ruled as laws;

use crate::facts::{join, table_at, told, told_in};
use crate::title::or_words;
use std::alloc::{AllocError, Global};
use toml::Table;

/// Returns a number with its unit, or nothing if there is no number.
fn counted(alloc: Global, number: &str, one: &str, many: &str) -> Result<String, AllocError>
    ensures { IfOk result (λ text. string_bytes text ≡ laws.counted_text number.now one.now many.now) }
{
    if number.is_empty() {
        return Ok(String::new(alloc));
    }
    let unit = if number == "1" { one } else { many };
    format!(in alloc; "{number}{unit}")
}

/// Returns `an innings`, or nothing if the sheet gives no innings.
fn innings_of(alloc: Global, number: &str) -> Result<String, AllocError>
    ensures { IfOk result (λ text. string_bytes text ≡ laws.innings_text number.now) }
{
    if number.is_empty() {
        return Ok(String::new(alloc));
    }
    String::from_str(alloc, "an innings")
}

/// Returns the margin: an innings, runs and wickets.
fn margin_of(alloc: Global, by: Option<&Table>) -> Result<String, AllocError>
    ensures { IfOk result (λ text. string_bytes text ≡ laws.margin_text (option_map (λ inner. table_view inner.now) by.entry)) }
{
    let innings = told_in(alloc, by, "innings")?;
    let runs = told_in(alloc, by, "runs")?;
    let wickets = told_in(alloc, by, "wickets")?;
    let mut out = innings_of(alloc, innings.as_str())?;
    let runs = counted(alloc, runs.as_str(), " run", " runs")?;
    let wickets = counted(alloc, wickets.as_str(), " wicket", " wickets")?;
    join(&mut out, " and ", runs.as_str())?;
    join(&mut out, " and ", wickets.as_str())?;
    Ok(out)
}

/// Writes words between two texts, or nothing if there are no words.
fn put_behind(out: &mut String, before: &str, words: &str, after: &str) -> Result<(), AllocError>
    ensures { Puts result out.old out.new (laws.behind_words before.now words.now after.now) }
{
    if words.is_empty() {
        return Ok(());
    }
    out.push_str(before)?;
    out.push_str(words)?;
    out.push_str(after)
}

/// Returns the method if it is penalty runs, which are a margin.
fn penalty_in<'a>(method: &'a str) -> &'a str
    ensures { result.now ≡ laws.penalty_in method.now }
{
    if method == "penalty runs" { method } else { "" }
}

/// Returns the method unless it is penalty runs.
fn method_in<'a>(method: &'a str) -> &'a str
    ensures { result.now ≡ laws.method_in method.now }
{
    if method == "penalty runs" { "" } else { method }
}

/// Returns `match drawn` for a draw, `match tied` for a tie, and any other word as it is.
fn result_word<'a>(word: &'a str) -> &'a str
    ensures { result.now ≡ laws.result_word word.now }
{
    if word == "draw" {
        "match drawn"
    } else if word == "tie" {
        "match tied"
    } else {
        word
    }
}

/// Returns who won, by how much and by which method, or nothing if there is no winner.
fn won_text(alloc: Global, winner: &str, margin: &str, method: &str) -> Result<String, AllocError>
    ensures { IfOk result (λ text. string_bytes text ≡ laws.won_text winner.now margin.now method.now) }
{
    if winner.is_empty() {
        return Ok(String::new(alloc));
    }
    let mut out = format!(in alloc; "{winner} won")?;
    put_behind(&mut out, " by ", margin, "")?;
    put_behind(&mut out, " by ", penalty_in(method), "")?;
    put_behind(&mut out, " (", method_in(method), ")")?;
    Ok(out)
}

/// Returns the words of an outcome: the win, or else its result.
fn ruled_by(alloc: Global, outcome: &Table) -> Result<String, AllocError>
    ensures { IfOk result (λ text. string_bytes text ≡ laws.ruled_by (table_view outcome.now)) }
{
    let winner = told(alloc, outcome, "winner")?;
    let margin = margin_of(alloc, table_at(outcome, "by"))?;
    let method = told(alloc, outcome, "method")?;
    let won = won_text(alloc, winner.as_str(), margin.as_str(), method.as_str())?;
    let word = told(alloc, outcome, "result")?;
    or_words(alloc, won, result_word(word.as_str()))
}

/// Returns what the umpires said of the result, or nothing.
pub fn ruled_of(alloc: Global, info: &Table) -> Result<String, AllocError>
    ensures { IfOk result (λ text. string_bytes text ≡ laws.ruled_text (table_view info.now)) }
{
    match table_at(info, "outcome") {
        Some(outcome) => ruled_by(alloc, outcome),
        None => Ok(String::new(alloc)),
    }
}
