//! The day of a match.

ghost use Rattle.std.specs.Prelude.{◌≡◌, string_bytes, IfOk, Some};
ghost use Rattle.toml.specs.View.{table_view, view};
ghost use Rattle.delivery_rows.specs.Day as days;

use export::info_or;
use std::alloc::{AllocError, Global};
use toml::{Table, Value};

/// Returns a text, or a date as text, and nothing for any other value.
fn data_text(alloc: Global, value: &Value) -> Result<String, AllocError>
    ensures { IfOk result (λ text. string_bytes text ≡ days.data_text (view value.now)) }
{
    match value {
        Value::String(text) => String::from_str(alloc, text.as_str()),
        Value::Datetime(datetime) => datetime.to_string(alloc),
        Value::Integer(_)
        | Value::Float(_)
        | Value::Boolean(_)
        | Value::Array(_)
        | Value::Table(_) => Ok(String::new(alloc)),
    }
}

/// Returns the first value of a list as text, or nothing.
fn first_text(alloc: Global, dates: &Value) -> Result<String, AllocError>
    ensures { IfOk result (λ text. string_bytes text ≡ days.first_text (Some (view dates.now))) }
{
    match dates.get(0_usize) {
        Some(day) => data_text(alloc, day),
        None => Ok(String::new(alloc)),
    }
}

/// Returns the first of the `dates` in the table `[info]` of a sheet's document as text, or nothing if it has none.
pub fn day_of(alloc: Global, document: &Table) -> Result<String, AllocError>
    ensures { IfOk result (λ day. string_bytes day ≡ days.day_of (table_view document.now)) }
{
    let empty = Table::new(alloc);
    match info_or(document, &empty).get("dates") {
        Some(dates) => first_text(alloc, dates),
        None => Ok(String::new(alloc)),
    }
}
