//! Texts in a sheet's table of stations that aren't addresses.

ghost use Rattle.std.specs.Prelude.{◌≡◌, ◌++◌, codes, map, option_map, string_bytes, IfOk};
ghost use Rattle.std.specs.Bool.{MatchBool};
ghost use Rattle.toml.specs.View.{table_view};
ghost use Rattle.sheet_check.specs.Addresses as laws;
ghost use Rattle.sheet_check.specs.Letters as letters;
ghost use Rattle.sheet_check.specs.Reports.{PutsSuch};

use crate::faults::value_in;
use crate::letters::push_quoted;
use crate::putting::{Fault, joined, put_fault};
use crate::twice::{board_in, text_in};
use cards::SheetFault;
use std::alloc::{AllocError, Global};
use std::net::SocketAddr;
use toml::Table;

/// Whether a text is an address and a port, as a desk reads it.
pub fn is_address(text: &str) -> bool
    ensures { MatchBool result (laws.IsAddress text.now) (laws.IsAddress text.now → ⊥) }
{
    match text.parse::<SocketAddr>() {
        Ok(_) => true,
        Err(_) => false,
    }
}

/// Returns the words for a text that isn't an address.
fn no_address_words(alloc: Global, text: &str) -> Result<String, AllocError>
    ensures { IfOk result (λ words. string_bytes words
        ≡ letters.quoted text.now ++ codes " isn't an address with a port, such as 192.168.1.20:4711") }
{
    let mut words = String::new(alloc);
    push_quoted(alloc, &mut words, text)?;
    words.push_str(" isn't an address with a port, such as 192.168.1.20:4711")?;
    Ok(words)
}

/// Appends the fault that a text, if there is one, isn't an address.
fn put_text(
    alloc: Global,
    out: &mut Vec<Fault>,
    key: &str,
    text: Option<&str>,
) -> Result<(), AllocError>
    ensures { PutsSuch result out.old out.new (laws.TellsText key.now (option_map (λ text. text.now) text.entry)) }
{
    let Some(text) = text else {
        return Ok(());
    };
    if is_address(text) {
        return Ok(());
    }
    let place = joined(alloc, "stations, ", key)?;
    let words = no_address_words(alloc, text)?;
    put_fault(
        alloc,
        out,
        SheetFault::BadText,
        place.as_str(),
        words.as_str(),
    )
}

/// Appends a fault for each of these texts that isn't an address.
fn put_each(
    alloc: Global,
    out: &mut Vec<Fault>,
    texts: &[(&str, Option<&str>)],
) -> Result<(), AllocError>
    ensures { PutsSuch result out.old out.new
        (laws.TellsEach (map (λ it. (it.0.now, option_map (λ text. text.now) it.1)) texts.now)) }
{
    let Some(((key, text), more)) = texts.split_first() else {
        return Ok(());
    };
    put_text(alloc, out, *key, *text)?;
    put_each(alloc, out, more)
}

/// Appends a fault for each desk's or board's text in the table of stations that isn't an address.
fn put_table(alloc: Global, out: &mut Vec<Fault>, table: &Table) -> Result<(), AllocError>
    ensures { PutsSuch result out.old out.new (laws.TellsEach (laws.addressed (table_view table.now))) }
{
    let texts = [
        ("a", text_in(table, "a")),
        ("b", text_in(table, "b")),
        ("boards", board_in(table, 0)),
        ("boards", board_in(table, 1)),
        ("boards", board_in(table, 2)),
        ("boards", board_in(table, 3)),
    ];
    put_each(alloc, out, &texts)
}

/// Appends a fault for each text that isn't an address in the table of stations, if the sheet has one.
pub fn put_addresses(alloc: Global, out: &mut Vec<Fault>, table: &Table) -> Result<(), AllocError>
    ensures { PutsSuch result out.old out.new (laws.TellsAddresses (table_view table.now)) }
{
    match value_in(table, "stations") {
        Some(value) => match value.as_table() {
            Some(stations) => put_table(alloc, out, stations),
            None => Ok(()),
        },
        None => Ok(()),
    }
}
