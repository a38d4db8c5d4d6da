//! The parts of a sheet's document that are passed on to archives and pages, and their faults.

ghost use Rattle.std.specs.Prelude.{◌≡◌, option_and_then, option_map};
ghost use Rattle.toml.specs.View.{table_view, view};
ghost use Rattle.toml_datetime.specs.Parse.{parse_datetime};
ghost use Rattle.sheet_check.specs.Handed as laws;
ghost use Rattle.sheet_check.specs.Reports.{Puts};

use crate::faults::value_in;
use crate::putting::{Fault, put_unless};
use cards::SheetFault;
use std::alloc::{AllocError, Global};
use std::str::FromStr;
use toml::value::{Date, Datetime};
use toml::{Table, Value};

/// Returns the value at a key of the table `[meta]` of a sheet's document, if there is one.
pub fn meta_at<'a>(document: &'a Table, key: &str) -> Option<&'a Value>
    ensures { option_map (λ value. view value.now) result ≡ laws.meta_at key.now (table_view document.now) }
{
    value_in(value_in(document, "meta")?.as_table()?, key)
}

/// Returns the date of a date without a time or an offset.
fn local_date(datetime: Datetime) -> Option<Date>
    ensures { result ≡ laws.local_date datetime }
{
    if datetime.time.is_none() && datetime.offset.is_none() {
        datetime.date
    } else {
        None
    }
}

/// Reads a text as a day.
fn day_in(text: &str) -> Option<Date>
    ensures { result ≡ option_and_then laws.local_date (parse_datetime text.now) }
{
    match Datetime::from_str(text) {
        Ok(datetime) => local_date(datetime),
        Err(_) => None,
    }
}

/// Reads a value as a day: a date, or a text that is one.
pub fn day_of(value: &Value) -> Option<Date>
    ensures { result ≡ laws.day_of (view value.now) }
{
    match value {
        Value::Datetime(datetime) => local_date(*datetime),
        Value::String(text) => day_in(text.as_str()),
        _ => None,
    }
}

/// Reads a value as a revision: a whole number from 1 on.
pub fn revision_of(value: &Value) -> Option<u64>
    ensures { result ≡ laws.revision_of (view value.now) }
{
    match u64::try_from(value.as_integer()?) {
        Ok(number) if 1 <= number => Some(number),
        _ => None,
    }
}

/// Whether the value at a key of a document is absent or a table.
fn has_fine_table(document: &Table, key: &str) -> bool
    ensures { result ≡ laws.has_fine_table key.now (table_view document.now) }
{
    match value_in(document, key) {
        Some(value) => value.is_table(),
        None => true,
    }
}

/// Whether `[meta]` has no `created`, or one that is a day.
fn has_fine_day(document: &Table) -> bool
    ensures { result ≡ laws.has_fine_day (table_view document.now) }
{
    match meta_at(document, "created") {
        Some(value) => day_of(value).is_some(),
        None => true,
    }
}

/// Whether `[meta]` has no `revision`, or one that is a whole number from 1 on.
fn has_fine_revision(document: &Table) -> bool
    ensures { result ≡ laws.has_fine_revision (table_view document.now) }
{
    match meta_at(document, "revision") {
        Some(value) => revision_of(value).is_some(),
        None => true,
    }
}

/// Whether the parts of a document that are passed on are fine: `[info]`, `[meta]`, and `created` and `revision` in `[meta]`.
pub fn is_fine_document(document: &Table) -> bool
    ensures { result ≡ laws.is_fine_document (table_view document.now) }
{
    has_fine_table(document, "info")
        && has_fine_table(document, "meta")
        && has_fine_day(document)
        && has_fine_revision(document)
}

/// Appends the fault that the value at a key of a document isn't a table, if so.
fn put_table(
    alloc: Global,
    out: &mut Vec<Fault>,
    document: &Table,
    key: &str,
) -> Result<(), AllocError>
    ensures { Puts result out.old out.new (laws.table_faults key.now (table_view document.now)) }
{
    let is_fine = has_fine_table(document, key);
    put_unless(
        alloc,
        out,
        is_fine,
        SheetFault::WrongKind,
        key,
        "isn't a table",
    )
}

/// Appends the fault that `created` in `[meta]` isn't a day, if so.
fn put_day(alloc: Global, out: &mut Vec<Fault>, document: &Table) -> Result<(), AllocError>
    ensures { Puts result out.old out.new (laws.day_faults (table_view document.now)) }
{
    let is_fine = has_fine_day(document);
    let words = "isn't a day, such as 2026-08-22";
    put_unless(
        alloc,
        out,
        is_fine,
        SheetFault::WrongKind,
        "meta, created",
        words,
    )
}

/// Appends the fault that `revision` in `[meta]` isn't a whole number from 1 on, if so.
fn put_revision(alloc: Global, out: &mut Vec<Fault>, document: &Table) -> Result<(), AllocError>
    ensures { Puts result out.old out.new (laws.revision_faults (table_view document.now)) }
{
    let is_fine = has_fine_revision(document);
    let words = "isn't a whole number from 1 on";
    put_unless(
        alloc,
        out,
        is_fine,
        SheetFault::WrongKind,
        "meta, revision",
        words,
    )
}

/// Appends all faults of the parts of a document that are passed on.
pub fn put_handed(alloc: Global, out: &mut Vec<Fault>, document: &Table) -> Result<(), AllocError>
    ensures { Puts result out.old out.new (laws.handed_faults (table_view document.now)) }
{
    put_table(alloc, out, document, "info")?;
    put_table(alloc, out, document, "meta")?;
    put_day(alloc, out, document)?;
    put_revision(alloc, out, document)
}
