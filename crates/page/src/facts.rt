//! The facts of a match beside its sides: the sheet's table `[info]`, whose values are not checked.

ghost use Rattle.std.specs.Prelude.{◌≡◌, Some, OnOk, IfOk, codes, option_map, string_bytes};
ghost use Rattle.std.specs.Fmt.{signed_decimal};
ghost use Rattle.toml.specs.Data.{at, get_member};
ghost use Rattle.toml.specs.View.{table_view, view};
ghost use Rattle.export.specs.Given.{table_in};
ghost use Rattle.page.specs.Escapes.{Puts};
ghost use Rattle.page.specs.Facts as laws;

use crate::escapes::put_escaped;
use itoa::Buffer;
use std::alloc::{AllocError, Global};
use toml::{Table, Value};

/// The most values of a list that are shown.
const MOST: usize = 12;

/// Returns a whole number as text.
fn whole_text(alloc: Global, number: i64) -> Result<String, AllocError>
    ensures { IfOk result (λ text. string_bytes text ≡ signed_decimal number) }
{
    let mut buffer = Buffer::new();
    String::from_str(alloc, buffer.format(number))
}

/// Returns a text, a whole number or a date as text, and nothing for any other value.
fn word_of(alloc: Global, value: &Value) -> Result<String, AllocError>
    ensures { IfOk result (λ text. string_bytes text ≡ laws.word_of (view value.now)) }
{
    match value {
        Value::String(text) => String::from_str(alloc, text.as_str()),
        Value::Integer(number) => whole_text(alloc, *number),
        Value::Datetime(datetime) => datetime.to_string(alloc),
        Value::Float(_) | Value::Boolean(_) | Value::Array(_) | Value::Table(_) => {
            Ok(String::new(alloc))
        }
    }
}

/// Returns the word at an index of a list, or nothing.
fn word_at(alloc: Global, list: &Value, index: usize) -> Result<String, AllocError>
    ensures { IfOk result (λ text. string_bytes text ≡ laws.word_at (at index (view list.now))) }
{
    match list.get(index) {
        Some(value) => word_of(alloc, value),
        None => Ok(String::new(alloc)),
    }
}

/// Adds a word to a text, with this between them if neither is empty.
pub fn join(out: &mut String, between: &str, word: &str) -> Result<(), AllocError>
    ensures { OnOk result (string_bytes out.new ≡ laws.joined (string_bytes out.old) between.now word.now) }
{
    if !out.is_empty() && !word.is_empty() {
        out.push_str(between)?;
    }
    out.push_str(word)
}

/// Returns the first 12 words of a list, with commas between them.
fn list_of(alloc: Global, value: &Value) -> Result<String, AllocError>
    ensures { IfOk result (λ text. string_bytes text ≡ laws.first_of (view value.now) 12) }
{
    let mut out = String::new(alloc);
    for index in 0..MOST {
        let word = word_at(alloc, value, index)?;
        join(&mut out, ", ", word.as_str())?;
    }
    Ok(out)
}

/// Returns the word of a value, or the words of a list.
fn words_of(alloc: Global, value: &Value) -> Result<String, AllocError>
    ensures { IfOk result (λ text. string_bytes text ≡ laws.words_of (Some (view value.now))) }
{
    let mut out = word_of(alloc, value)?;
    let list = list_of(alloc, value)?;
    join(&mut out, ", ", list.as_str())?;
    Ok(out)
}

/// Returns the words at a key of a table, or nothing.
pub fn told(alloc: Global, table: &Table, key: &str) -> Result<String, AllocError>
    ensures { IfOk result (λ text. string_bytes text ≡ laws.told key.now (table_view table.now)) }
{
    match table.get(key) {
        Some(value) => words_of(alloc, value),
        None => Ok(String::new(alloc)),
    }
}

/// Returns the table at a key of a table.
pub fn table_at<'a>(table: &'a Table, key: &str) -> Option<&'a Table>
    ensures { option_map (λ inner. table_view inner.now) result ≡ table_in key.now (table_view table.now) }
{
    match table.get(key) {
        Some(value) => value.as_table(),
        None => None,
    }
}

/// Returns the words at a key of a table, or nothing if there is no table.
pub fn told_in(alloc: Global, table: Option<&Table>, key: &str) -> Result<String, AllocError>
    ensures { IfOk result (λ text. string_bytes text ≡ laws.told_in (option_map (λ inner. table_view inner.now) table.entry) key.now) }
{
    match table {
        Some(table) => told(alloc, table, key),
        None => Ok(String::new(alloc)),
    }
}

/// Writes a fact with its label, or nothing if its words are empty.
fn put_fact(out: &mut String, label: &str, words: &str) -> Result<(), AllocError>
    ensures { Puts result out.old out.new (laws.fact label.now words.now) }
{
    if words.is_empty() {
        return Ok(());
    }
    out.push_str("<span>")?;
    out.push_str(label)?;
    put_escaped(out, words)?;
    out.push_str("</span> ")
}

/// Returns who won the toss and what they chose.
fn toss_of(alloc: Global, toss: Option<&Table>) -> Result<String, AllocError>
    ensures { IfOk result (λ text. string_bytes text ≡ laws.toss_text (option_map (λ inner. table_view inner.now) toss.entry)) }
{
    let mut out = told_in(alloc, toss, "winner")?;
    let decision = told_in(alloc, toss, "decision")?;
    join(&mut out, ", who chose to ", decision.as_str())?;
    Ok(out)
}

/// Returns the ground: the venue and the city.
fn place_of(alloc: Global, info: &Table) -> Result<String, AllocError>
    ensures { IfOk result (λ text. string_bytes text ≡ laws.place_text (table_view info.now)) }
{
    let mut out = told(alloc, info, "venue")?;
    let city = told(alloc, info, "city")?;
    join(&mut out, ", ", city.as_str())?;
    Ok(out)
}

/// Writes the dates and the ground.
fn put_where(alloc: Global, out: &mut String, info: &Table) -> Result<(), AllocError>
    ensures { Puts result out.old out.new (laws.where_html (table_view info.now)) }
{
    let dates = told(alloc, info, "dates")?;
    let place = place_of(alloc, info)?;
    put_fact(out, "", dates.as_str())?;
    put_fact(out, "", place.as_str())
}

/// Writes the toss, the umpires and the player of the match.
fn put_who(alloc: Global, out: &mut String, info: &Table) -> Result<(), AllocError>
    ensures { Puts result out.old out.new (laws.who_html (table_view info.now)) }
{
    let toss = toss_of(alloc, table_at(info, "toss"))?;
    let umpires = told_in(alloc, table_at(info, "officials"), "umpires")?;
    let player = told(alloc, info, "player_of_match")?;
    put_fact(out, "Toss: ", toss.as_str())?;
    put_fact(out, "Umpires: ", umpires.as_str())?;
    put_fact(out, "Player of the match: ", player.as_str())
}

/// Returns the facts of a match beside its sides, escaped for HTML.
pub fn facts_of(alloc: Global, info: &Table) -> Result<String, AllocError>
    ensures { IfOk result (λ text. string_bytes text ≡ laws.facts_html (table_view info.now)) }
{
    let mut out = String::new(alloc);
    put_where(alloc, &mut out, info)?;
    put_who(alloc, &mut out, info)?;
    Ok(out)
}
