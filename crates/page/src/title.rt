//! The title of a match.

ghost use Rattle.std.specs.Prelude.{◌≡◌, IfOk, option_map, string_bytes};
ghost use Rattle.toml.specs.View.{table_view};
ghost use Rattle.page.specs.Title as laws;

use crate::facts::{join, table_at, told, told_in};
use archive_deliveries::NamedSheet;
use std::alloc::{AllocError, Global};
use toml::Table;

/// Returns the words, or the other text if they are empty.
pub fn or_words(alloc: Global, words: String, other: &str) -> Result<String, AllocError>
    ensures { IfOk result (λ text. string_bytes text ≡ laws.or_words (string_bytes words) other.now) }
{
    if words.is_empty() {
        return String::from_str(alloc, other);
    }
    Ok(words)
}

/// Returns the name in the table `event`, or the word `event`.
fn name_of(alloc: Global, info: &Table) -> Result<String, AllocError>
    ensures { IfOk result (λ text. string_bytes text ≡ laws.name_text (table_view info.now)) }
{
    let name = told_in(alloc, table_at(info, "event"), "name")?;
    let word = told(alloc, info, "event")?;
    or_words(alloc, name, word.as_str())
}

/// Returns which part of the event the match belongs to: its group, stage and sub-name.
fn part_of(alloc: Global, event: Option<&Table>) -> Result<String, AllocError>
    ensures { IfOk result (λ text. string_bytes text ≡ laws.part_text (option_map (λ inner. table_view inner.now) event.entry)) }
{
    let mut out = told_in(alloc, event, "group")?;
    let stage = told_in(alloc, event, "stage")?;
    let name = told_in(alloc, event, "sub_name")?;
    join(&mut out, ", ", stage.as_str())?;
    join(&mut out, ", ", name.as_str())?;
    Ok(out)
}

/// Returns which match of the event this is, or nothing without a number.
fn numbered(alloc: Global, number: &str) -> Result<String, AllocError>
    ensures { IfOk result (λ text. string_bytes text ≡ laws.numbered number.now) }
{
    if number.is_empty() {
        return Ok(String::new(alloc));
    }
    format!(in alloc; "match {number}")
}

/// Returns the event, or the sheet's title if the event has no name, and then which part and match of the event this is.
pub fn title_of(alloc: Global, sheet: &NamedSheet<'_>, info: &Table) -> Result<String, AllocError>
    ensures { IfOk result (λ text. string_bytes text ≡ laws.title_text sheet.now (table_view info.now)) }
{
    let event = table_at(info, "event");
    let mut out = or_words(alloc, name_of(alloc, info)?, sheet.title())?;
    let part = part_of(alloc, event)?;
    let number = told_in(alloc, event, "match_number")?;
    let number = numbered(alloc, number.as_str())?;
    join(&mut out, ", ", part.as_str())?;
    join(&mut out, ", ", number.as_str())?;
    Ok(out)
}
