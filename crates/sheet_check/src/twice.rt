//! Duplicates in a sheet's table of stations: an address of two stations, or a copy that is another of the desks' files.

ghost use Rattle.std.specs.Prelude.{◌≡◌, ◌++◌, map, option_map, string_bytes, IfOk};
ghost use Rattle.toml.specs.View.{table_view};
ghost use Rattle.sheet_check.specs.Letters as letters;
ghost use Rattle.sheet_check.specs.Reports.{Puts};
ghost use Rattle.sheet_check.specs.Twice as twice;

use crate::faults::value_in;
use crate::letters::push_quoted;
use crate::putting::{Fault, put_unless};
use cards::SheetFault;
use std::alloc::{AllocError, Global};
use toml::Table;

/// Returns the text at a key of the table, if there is one.
pub fn text_in<'a>(table: &'a Table, key: &str) -> Option<&'a str>
    ensures { option_map (λ text. text.now) result ≡ twice.text_in key.now (table_view table.now) }
{
    value_in(table, key)?.as_str()
}

/// Returns the address of a board in the table, counted from 0, if there is one.
pub fn board_in(table: &Table, index: usize) -> Option<&str>
    ensures { option_map (λ text. text.now) result ≡ twice.board_in index (table_view table.now) }
{
    value_in(table, "boards")?.get(index)?.as_str()
}

/// Whether `text` is among these texts.
fn is_among(text: &str, others: &[Option<&str>]) -> bool
    ensures { result ≡ twice.is_among text.now (map (λ other. option_map (λ text. text.now) other) others.now) }
{
    match others.split_first() {
        Some((Some(other), more)) => text == *other || is_among(text, more),
        Some((None, more)) => is_among(text, more),
        None => false,
    }
}

/// Returns the text in quotes, followed by the words.
fn told_of(alloc: Global, text: &str, words: &str) -> Result<String, AllocError>
    ensures { IfOk result (λ told. string_bytes told ≡ letters.quoted text.now ++ words.now) }
{
    let mut told = String::new(alloc);
    push_quoted(alloc, &mut told, text)?;
    told.push_str(words)?;
    Ok(told)
}

/// Appends the fault that a text, if there is one, is also among the others.
fn put_twice(
    alloc: Global,
    out: &mut Vec<Fault>,
    place: &str,
    words: &str,
    text: Option<&str>,
    others: &[Option<&str>],
) -> Result<(), AllocError>
    ensures { Puts result out.old out.new (twice.twice place.now words.now (option_map (λ text. text.now) text.entry)
        (map (λ other. option_map (λ text. text.now) other) others.now)) }
{
    let Some(text) = text else {
        return Ok(());
    };
    let told = told_of(alloc, text, words)?;
    let is_alone = !is_among(text, others);
    put_unless(
        alloc,
        out,
        is_alone,
        SheetFault::BadText,
        place,
        told.as_str(),
    )
}

/// Appends a fault for each station that has another station's address.
fn put_addresses(alloc: Global, out: &mut Vec<Fault>, table: &Table) -> Result<(), AllocError>
    ensures { Puts result out.old out.new (twice.addresses_twice (table_view table.now)) }
{
    let a = text_in(table, "a");
    let b = text_in(table, "b");
    let first = board_in(table, 0);
    let second = board_in(table, 1);
    let third = board_in(table, 2);
    let fourth = board_in(table, 3);
    let place = "stations, boards";
    let words = " is another station's too";
    put_twice(alloc, out, "stations, b", words, b, &[a])?;
    put_twice(alloc, out, place, words, first, &[a, b])?;
    put_twice(alloc, out, place, words, second, &[a, b, first])?;
    put_twice(alloc, out, place, words, third, &[a, b, first, second])?;
    put_twice(
        alloc,
        out,
        place,
        words,
        fourth,
        &[a, b, first, second, third],
    )
}

/// Returns the votes file of a desk: the one that the table names, or else the desk's own.
fn votes_file<'a>(named: Option<&'a str>, own: &'static str) -> Option<&'a str>
    ensures { option_map (λ text. text.now) result
        ≡ twice.votes_file (option_map (λ text. text.now) named.entry) own.now }
{
    match named {
        Some(named) => Some(named),
        None => Some(own),
    }
}

/// Appends a fault for each copy that is another of the desks' files.
fn put_copies(alloc: Global, out: &mut Vec<Fault>, table: &Table) -> Result<(), AllocError>
    ensures { Puts result out.old out.new (twice.copies_twice (table_view table.now)) }
{
    let votes = text_in(table, "votes");
    let a = votes_file(votes, "a.votes");
    let b = votes_file(votes, "b.votes");
    let copy = text_in(table, "copy");
    let first = text_in(table, "copy_a");
    let second = text_in(table, "copy_b");
    let words = " is another of the desks' files";
    put_twice(alloc, out, "stations, copy", words, copy, &[a, b])?;
    put_twice(alloc, out, "stations, copy_a", words, first, &[a, b, copy])?;
    put_twice(
        alloc,
        out,
        "stations, copy_b",
        words,
        second,
        &[a, b, copy, first],
    )
}

/// Appends all duplicates in the table.
pub fn put_all_twice(alloc: Global, out: &mut Vec<Fault>, table: &Table) -> Result<(), AllocError>
    ensures { Puts result out.old out.new (twice.twice_faults (table_view table.now)) }
{
    put_addresses(alloc, out, table)?;
    put_copies(alloc, out, table)
}
