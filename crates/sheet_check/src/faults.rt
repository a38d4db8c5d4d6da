//! All faults of a sheet's table, key by key.

ghost use Rattle.std.specs.Prelude.{◌≡◌, ◌++◌, codes, decimal, option_map, string_bytes, IfOk};
ghost use Rattle.toml.specs.Data.{get_member};
ghost use Rattle.toml.specs.View.{table_view, view};
ghost use Rattle.sheet_check.specs.Faults as faults;
ghost use Rattle.sheet_check.specs.Letters as letters;
ghost use Rattle.sheet_check.specs.Reports.{Puts};

use crate::letters::{are_plain, odd_letters, push_quoted};
use crate::putting::{Fault, push_number, put_absent, put_kind, put_unless};
use crate::sides::put_side;
use cards::SheetFault;
use std::alloc::{AllocError, Global};
use toml::{Table, Value};

/// The greatest length of a title in bytes.
const LONGEST_TITLE: usize = 60;

/// Returns the value at a key of a table, if there is one.
pub fn value_in<'a>(table: &'a Table, key: &str) -> Option<&'a Value>
    ensures { option_map (λ value. view value.now) result ≡ get_member key.now (table_view table.now) }
{
    match table.get(key) {
        Some(value) => Some(value),
        None => None,
    }
}

/// Returns the words for a text that is too long.
fn long_words(alloc: Global, most: usize, text: &str) -> Result<String, AllocError>
    ensures { IfOk result (λ words. string_bytes words
        ≡ letters.quoted text.now ++ codes ": longer than " ++ decimal most ++ codes " letters") }
{
    let mut words = String::new(alloc);
    push_quoted(alloc, &mut words, text)?;
    words.push_str(": longer than ")?;
    push_number(&mut words, most as u64)?;
    words.push_str(" letters")?;
    Ok(words)
}

/// Returns the words for a text with letters that aren't plain.
fn odd_words(alloc: Global, text: &str) -> Result<String, AllocError>
    ensures { IfOk result (λ words. string_bytes words
        ≡ letters.quoted text.now ++ codes ": " ++ letters.odd_letters text.now ++ codes "isn't plain") }
{
    let odd = odd_letters(alloc, text)?;
    let mut words = String::new(alloc);
    push_quoted(alloc, &mut words, text)?;
    words.push_str(": ")?;
    words.push_str(odd.as_str())?;
    words.push_str("isn't plain")?;
    Ok(words)
}

/// Appends the faults of a text: it is empty, is longer than `most` bytes, or has letters that aren't plain.
pub fn put_text_faults(
    alloc: Global,
    out: &mut Vec<Fault>,
    most: usize,
    place: &str,
    text: &str,
) -> Result<(), AllocError>
    ensures { Puts result out.old out.new (faults.text_faults most place.now text.now) }
{
    let long = long_words(alloc, most, text)?;
    let odd = odd_words(alloc, text)?;
    let why = SheetFault::BadText;
    put_unless(alloc, out, 1 <= text.len(), why, place, "is empty")?;
    put_unless(alloc, out, text.len() <= most, why, place, long.as_str())?;
    put_unless(alloc, out, are_plain(text), why, place, odd.as_str())
}

/// Appends the faults of a value that must be a text, or that the value is absent.
pub fn put_text(
    alloc: Global,
    out: &mut Vec<Fault>,
    most: usize,
    place: &str,
    value: Option<&Value>,
) -> Result<(), AllocError>
    ensures { Puts result out.old out.new (faults.text_at most place.now (option_map (λ value. view value.now) value.entry)) }
{
    let Some(value) = value else {
        return put_absent(alloc, out, place);
    };
    match value.as_str() {
        Some(text) => put_text_faults(alloc, out, most, place, text),
        None => put_kind(alloc, out, place, "isn't a text in quotes"),
    }
}

/// Whether a number is from `low` to `high`.
fn is_from(low: u64, high: u64, number: i64) -> bool
    ensures { result ≡ faults.is_from low high number }
{
    match u64::try_from(number) {
        Ok(number) => low <= number && number <= high,
        Err(_) => false,
    }
}

/// Appends the fault of a value that must be a whole number from `low` to `high`, or that the value is absent.
pub fn put_number(
    alloc: Global,
    out: &mut Vec<Fault>,
    low: u64,
    high: u64,
    place: &str,
    words: &str,
    value: Option<&Value>,
) -> Result<(), AllocError>
    ensures { Puts result out.old out.new
        (faults.number_at low high place.now words.now (option_map (λ value. view value.now) value.entry)) }
{
    let Some(value) = value else {
        return put_absent(alloc, out, place);
    };
    match value.as_integer() {
        Some(number) => put_unless(
            alloc,
            out,
            is_from(low, high, number),
            SheetFault::BadNumber,
            place,
            words,
        ),
        None => put_kind(alloc, out, place, "isn't a whole number"),
    }
}

/// Appends all faults of a sheet's table.
pub fn put_faults(alloc: Global, out: &mut Vec<Fault>, table: &Table) -> Result<(), AllocError>
    ensures { Puts result out.old out.new (faults.faults (table_view table.now)) }
{
    put_text(alloc, out, LONGEST_TITLE, "title", value_in(table, "title"))?;
    put_number(
        alloc,
        out,
        0,
        i64::MAX as u64,
        "number",
        "is below 0",
        value_in(table, "number"),
    )?;
    put_number(
        alloc,
        out,
        1,
        2,
        "innings",
        "isn't 1 or 2",
        value_in(table, "innings"),
    )?;
    put_side(alloc, out, "home", value_in(table, "home"))?;
    put_side(alloc, out, "away", value_in(table, "away"))
}
