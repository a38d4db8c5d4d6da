//! The faults of a sheet's table of limits.

ghost use Rattle.std.specs.Prelude.{◌≡◌, ◌++◌, codes, string_bytes, IfOk};
ghost use Rattle.toml.specs.View.{table_view};
ghost use Rattle.limits.specs.Reading.{table_of};
ghost use Rattle.sheet_check.specs.Letters.{quoted};
ghost use Rattle.sheet_check.specs.Limits as laws;
ghost use Rattle.sheet_check.specs.Reports.{Puts};

use crate::faults::value_in;
use crate::letters::push_quoted;
use crate::putting::{Fault, put_fault, put_kind, put_unless};
use cards::SheetFault;
use limits::{Key, Unfit, why_unfit};
use std::alloc::{AllocError, Global};
use toml::Table;

/// Returns where a key is, as reports name it.
fn place(key: Key) -> &'static str
    ensures { result.now ≡ laws.place key }
{
    match key {
        Key::Table => "limits",
        Key::Overs => "limits, overs",
        Key::OversABowler => "limits, overs_a_bowler",
        Key::FreeHits => "limits, free_hits",
        Key::Powerplays => "limits, powerplays",
    }
}

/// Returns the words for a key whose value is of another kind.
fn kind_words(key: Key) -> &'static str
    ensures { result.now ≡ laws.kind_words key }
{
    match key {
        Key::Table => "isn't a table",
        Key::Overs => "isn't a whole number, or a list of them",
        Key::OversABowler => "isn't a whole number",
        Key::FreeHits => "isn't true or false",
        Key::Powerplays => "isn't a list of first and last overs, as [[1, 8], [33, 40]]",
    }
}

/// Returns the words for a key with a number that is out of its range.
fn range_words(key: Key) -> &'static str
    ensures { result.now ≡ laws.range_words key }
{
    match key {
        Key::Powerplays => "has an over that isn't from 1 to 450, or a last one before the first",
        Key::Table | Key::Overs | Key::OversABowler | Key::FreeHits => "isn't from 1 to 450",
    }
}

/// Appends the fault that the value of a key is unfit, if it is.
fn put_key(
    alloc: Global,
    out: &mut Vec<Fault>,
    document: &Table,
    key: Key,
) -> Result<(), AllocError>
    ensures { Puts result out.old out.new (laws.key_faults key (table_view document.now)) }
{
    match why_unfit(alloc, document, key) {
        None => Ok(()),
        Some(Unfit::NoMemory) => Err(AllocError),
        Some(Unfit::OtherKind) => put_kind(alloc, out, place(key), kind_words(key)),
        Some(Unfit::OutOfRange) => {
            let why = SheetFault::BadNumber;
            put_fault(alloc, out, why, place(key), range_words(key))
        }
    }
}

/// Whether the table may have the key.
fn is_key(key: &str) -> bool
    ensures { result ≡ laws.is_key key.now }
{
    key == "overs" || key == "overs_a_bowler" || key == "free_hits" || key == "powerplays"
}

/// Returns the words for a key that the table can't have.
fn unknown_words(alloc: Global, key: &str) -> Result<String, AllocError>
    ensures { IfOk result (λ words. string_bytes words
        ≡ quoted key.now ++ codes " isn't one of overs, overs_a_bowler, free_hits, powerplays") }
{
    let mut words = String::new(alloc);
    push_quoted(alloc, &mut words, key)?;
    words.push_str(" isn't one of overs, overs_a_bowler, free_hits, powerplays")?;
    Ok(words)
}

/// Appends the fault that the table can't have a key, if so.
fn put_unknown(alloc: Global, out: &mut Vec<Fault>, key: &str) -> Result<(), AllocError>
    ensures { Puts result out.old out.new (laws.unknown_of key.now) }
{
    let words = unknown_words(alloc, key)?;
    let why = SheetFault::WrongKind;
    put_unless(alloc, out, is_key(key), why, "limits", words.as_str())
}

/// Appends a fault for each key that the table can't have.
fn put_unknowns(alloc: Global, out: &mut Vec<Fault>, table: &Table) -> Result<(), AllocError>
    ensures { Puts result out.old out.new (laws.unknown_faults (table_view table.now)) }
{
    for (key, _) in table.iter() {
        put_unknown(alloc, out, key.as_str())?;
    }
    Ok(())
}

/// Appends a fault for each key that the table of limits can't have, if the sheet has that table.
fn put_unknowns_in(alloc: Global, out: &mut Vec<Fault>, document: &Table) -> Result<(), AllocError>
    ensures { Puts result out.old out.new (laws.unknown_in (table_of (table_view document.now))) }
{
    let Some(value) = value_in(document, "limits") else {
        return Ok(());
    };
    match value.as_table() {
        Some(table) => put_unknowns(alloc, out, table),
        None => Ok(()),
    }
}

/// Appends all faults of a sheet's limits.
pub fn put_limits(alloc: Global, out: &mut Vec<Fault>, document: &Table) -> Result<(), AllocError>
    ensures { Puts result out.old out.new (laws.limit_faults (table_view document.now)) }
{
    put_key(alloc, out, document, Key::Table)?;
    put_key(alloc, out, document, Key::Overs)?;
    put_key(alloc, out, document, Key::OversABowler)?;
    put_key(alloc, out, document, Key::FreeHits)?;
    put_key(alloc, out, document, Key::Powerplays)?;
    put_unknowns_in(alloc, out, document)
}
