//! The result of a match, in words.

ghost use Rattle.std.specs.Prelude.{◌≡◌, ◌==◌, ◌++◌, IfOk, codes, decimal, option_map, string_bytes, if◌then◌else◌};
ghost use Rattle.cards.specs.Results as results;
ghost use Rattle.cards.specs.inner.Words.{result_in};

use crate::sheet::MatchSheet;
use itoa::Buffer;
use match_laws::Outcome;
use std::alloc::{AllocError, Global};

/// The words of a result: these texts, one after another.
#[derive(Clone, Copy)]
pub enum ResultWords<'a> {
    /// A side or an empty text, and how the match ended.
    Plain(&'a str, &'a str),
    /// The side that won, how, by how many, and of which unit.
    Counted(&'a str, &'a str, u32, &'a str),
}

/// Returns the word for a count of one, or for any other count.
fn word(count: u32, one: &'static str, many: &'static str) -> &'static str
    ensures { result.now ≡ (if count == 1 then one.now else many.now) }
{
    if count == 1 { one } else { many }
}

/// Returns the words of a result, or none if the match is undecided.
pub fn result_words(sheet: &MatchSheet, outcome: Outcome) -> Option<ResultWords<'_>>
    ensures { option_map result_in result ≡ results.result_text sheet.now outcome }
{
    Some(match outcome {
        Outcome::Undecided => return None,
        Outcome::Draw => ResultWords::Plain("", "match drawn"),
        Outcome::Tie => ResultWords::Plain("", "match tied"),
        Outcome::Runs(side, count) => {
            let unit = word(count, "run", "runs");
            ResultWords::Counted(sheet.name(side), " won by ", count, unit)
        }
        Outcome::Wickets(side, count) => {
            let unit = word(count, "wicket", "wickets");
            ResultWords::Counted(sheet.name(side), " won by ", count, unit)
        }
        Outcome::InningsAnd(side, count) => {
            let unit = word(count, "run", "runs");
            ResultWords::Counted(sheet.name(side), " won by an innings and ", count, unit)
        }
        Outcome::PenaltyRuns(side) => ResultWords::Plain(sheet.name(side), " won by penalty runs"),
    })
}

/// Returns the text of a win by this count of a unit.
fn counted_text(
    alloc: Global,
    side: &str,
    how: &str,
    count: u32,
    unit: &str,
) -> Result<String, AllocError>
    ensures { IfOk result (λ text.
        string_bytes text ≡ side.now ++ how.now ++ decimal count ++ codes " " ++ unit.now) }
{
    let mut buffer = Buffer::new();
    let count = buffer.format(count);
    let mut text = String::from_str(alloc, side)?;
    text.push_str(how)?;
    text.push_str(count)?;
    text.push_str(" ")?;
    text.push_str(unit)?;
    Ok(text)
}

/// Returns the text of a result's words.
fn text_of(alloc: Global, words: ResultWords<'_>) -> Result<String, AllocError>
    ensures { IfOk result (λ text. string_bytes text ≡ result_in words.entry) }
{
    match words {
        ResultWords::Plain(side, how) => format!(in alloc; "{side}{how}"),
        ResultWords::Counted(side, how, count, unit) => {
            counted_text(alloc, side, how, count, unit)
        }
    }
}

/// Returns the result of a match as a board's last line shows it, or none if the match is undecided.
pub fn result_text(
    alloc: Global,
    sheet: &MatchSheet,
    outcome: Outcome,
) -> Result<Option<String>, AllocError>
    ensures { IfOk result (λ text. option_map string_bytes text ≡ results.result_text sheet.now outcome) }
{
    match result_words(sheet, outcome) {
        Some(words) => Ok(Some(text_of(alloc, words)?)),
        None => Ok(None),
    }
}
