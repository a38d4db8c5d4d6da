//! The faults of a sheet's table of stations.

ghost use Rattle.std.specs.Prelude.{◌≡◌, ◌++◌, codes, option_map, string_bytes, IfOk, Some};
ghost use Rattle.toml.specs.Data.{as_array, as_str};
ghost use Rattle.toml.specs.View.{items_view, table_view, view};
ghost use Rattle.sheet_check.specs.Letters as letters;
ghost use Rattle.sheet_check.specs.Reports.{Puts};
ghost use Rattle.sheet_check.specs.Stations as stations;

use crate::faults::{put_number, value_in};
use crate::letters::push_quoted;
use crate::putting::{Fault, joined, put_kind, put_unless};
use crate::sides::count_of;
use crate::twice::put_all_twice;
use cards::SheetFault;
use std::alloc::{AllocError, Global};
use toml::{Table, Value};

/// The greatest number of boards of a desk.
const MOST_BOARDS: usize = 4;

/// Whether the value of a key is the name of a copy.
fn is_copy_key(key: &str) -> bool
    ensures { result ≡ stations.is_copy_key key.now }
{
    key == "copy" || key == "copy_a" || key == "copy_b"
}

/// Whether the value of a key is a text.
fn is_text_key(key: &str) -> bool
    ensures { result ≡ stations.is_text_key key.now }
{
    key == "a" || key == "b" || key == "key" || key == "votes" || is_copy_key(key)
}

/// Appends the fault that the value of a key isn't a text, if so.
fn put_text_key(
    alloc: Global,
    out: &mut Vec<Fault>,
    key: &str,
    value: &Value,
) -> Result<(), AllocError>
    ensures { Puts result out.old out.new (stations.text_key_faults key.now (as_str (view value.now))) }
{
    let place = joined(alloc, "stations, ", key)?;
    match value.as_str() {
        Some(_) => Ok(()),
        None => put_kind(alloc, out, place.as_str(), "isn't a text in quotes"),
    }
}

/// Whether all items are texts.
fn are_texts(items: &[Value]) -> bool
    ensures { result ≡ stations.are_texts (items_view items.now) }
{
    match items.split_first() {
        Some((item, more)) => item.is_str() && are_texts(more),
        None => true,
    }
}

/// Appends the faults of the list of boards.
fn put_items(alloc: Global, out: &mut Vec<Fault>, items: &[Value]) -> Result<(), AllocError>
    ensures { Puts result out.old out.new (stations.boards_faults (Some (items_view items.now))) }
{
    let are_texts = are_texts(items);
    let are_few = count_of(items) <= MOST_BOARDS;
    let why = SheetFault::WrongKind;
    let place = "stations, boards";
    put_unless(
        alloc,
        out,
        are_texts,
        why,
        place,
        "isn't a list of texts in quotes",
    )?;
    put_unless(alloc, out, are_few, why, place, "are more than 4")
}

/// Appends the faults of the value of `boards`.
fn put_boards(alloc: Global, out: &mut Vec<Fault>, value: &Value) -> Result<(), AllocError>
    ensures { Puts result out.old out.new (stations.boards_faults (as_array (view value.now))) }
{
    match value.as_array() {
        Some(items) => put_items(alloc, out, items.as_slice()),
        None => put_kind(
            alloc,
            out,
            "stations, boards",
            "isn't a list of texts in quotes",
        ),
    }
}

/// Appends the fault of the width of a scorer's rows, which must be 60 to 200 columns.
fn put_columns(alloc: Global, out: &mut Vec<Fault>, value: &Value) -> Result<(), AllocError>
    ensures { Puts result out.old out.new (stations.columns_faults (view value.now)) }
{
    let words = "isn't from 60 to 200";
    put_number(alloc, out, 60, 200, "stations, columns", words, Some(value))
}

/// Returns the words for a key that the table can't have.
fn unknown_words(alloc: Global, key: &str) -> Result<String, AllocError>
    ensures { IfOk result (λ words. string_bytes words
        ≡ letters.quoted key.now ++ codes " isn't one of a, b, boards, key, votes, copy, copy_a, copy_b, columns") }
{
    let mut words = String::new(alloc);
    push_quoted(alloc, &mut words, key)?;
    words.push_str(" isn't one of a, b, boards, key, votes, copy, copy_a, copy_b, columns")?;
    Ok(words)
}

/// Appends the faults of a key and its value.
fn put_key(alloc: Global, out: &mut Vec<Fault>, key: &str, value: &Value) -> Result<(), AllocError>
    ensures { Puts result out.old out.new (stations.key_faults key.now (view value.now)) }
{
    if key == "boards" {
        return put_boards(alloc, out, value);
    }
    if key == "columns" {
        return put_columns(alloc, out, value);
    }
    if is_text_key(key) {
        return put_text_key(alloc, out, key, value);
    }
    let words = unknown_words(alloc, key)?;
    put_kind(alloc, out, "stations", words.as_str())
}

/// Appends the faults of each key of the table.
fn put_members(alloc: Global, out: &mut Vec<Fault>, table: &Table) -> Result<(), AllocError>
    ensures { Puts result out.old out.new (stations.members_faults (table_view table.now)) }
{
    for (key, value) in table.iter() {
        put_key(alloc, out, key.as_str(), value)?;
    }
    Ok(())
}

/// Appends the faults of each key, and then the duplicates.
fn put_table(alloc: Global, out: &mut Vec<Fault>, table: &Table) -> Result<(), AllocError>
    ensures { Puts result out.old out.new (stations.table_faults (Some (table_view table.now))) }
{
    put_members(alloc, out, table)?;
    put_all_twice(alloc, out, table)
}

/// Appends all faults of the table of stations, if the sheet has one.
pub fn put_stations(alloc: Global, out: &mut Vec<Fault>, table: &Table) -> Result<(), AllocError>
    ensures { Puts result out.old out.new (stations.station_faults (table_view table.now)) }
{
    let Some(value) = value_in(table, "stations") else {
        return Ok(());
    };
    match value.as_table() {
        Some(stations) => put_table(alloc, out, stations),
        None => put_kind(alloc, out, "stations", "isn't a table"),
    }
}
