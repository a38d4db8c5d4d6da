//! What the export copies from a sheet's table `[info]`.

ghost use Rattle.std.specs.Prelude.{◌≡◌, ◌∷◌, [], option_map, OnOk};
ghost use Rattle.std.specs.Fmt.{signed_decimal};
ghost use Rattle.toml.specs.Data.{no_members};
ghost use Rattle.toml.specs.View.{array_view, table_view, view};
ghost use Rattle.toml_datetime.specs.Text.{datetime_text};
ghost use Rattle.json.specs.Json as json_values;
ghost use Rattle.export.specs.Given as laws;
ghost use Rattle.export.specs.inner.Putting.{PutsFloat, PutsGiven, PutsHanded, PutsItems, PutsMembers, PutsRuled, PutsValue};
ghost use Rattle.json_fields.specs.Values.{PutsValues};

use json::{Pretty, Token};
use std::alloc::{AllocError, Global};
use toml::value::{Array, Datetime};
use toml::{Table, Value};

/// Returns the table at a key of a sheet's document, where it has one.
pub fn table_in<'a>(document: &'a Table, key: &str) -> Option<&'a Table>
    ensures { option_map (λ table. table_view table.now) result ≡ laws.table_in key.now (table_view document.now) }
{
    match document.get(key) {
        Some(value) => value.as_table(),
        None => None,
    }
}

/// Returns the table `[info]` of a sheet's document, or `empty` where it has none.
pub fn info_or<'a>(document: &'a Table, empty: &'a Table) -> &'a Table
    requires { table_view empty.now ≡ no_members }
    ensures { table_view result.now ≡ laws.info_in (table_view document.now) }
{
    table_in(document, "info").unwrap_or(empty)
}

/// Whether the export itself writes this key.
fn is_own(key: &str) -> bool
    ensures { result ≡ laws.is_own key.now }
{
    key == "teams" || key == "players" || key == "balls_per_over" || key == "outcome"
}

/// Puts a whole number.
fn put_whole(out: &mut Pretty, number: i64) -> Result<(), AllocError>
    ensures { PutsValues result out.old out.new (json_values.number (signed_decimal number) ∷ []) }
{
    let mut buffer = itoa::Buffer::new();
    out.token(Token::Number(buffer.format(number)))
}

/// Puts a float, or null where it is infinite or NaN.
fn put_float(out: &mut Pretty, number: f64) -> Result<(), AllocError>
    ensures { OnOk result (PutsFloat number out.old out.new) }
{
    if !number.is_finite() {
        return out.token(Token::Null);
    }
    let mut buffer = ryu::Buffer::new();
    out.token(Token::Number(buffer.format_finite(number)))
}

/// Puts a date or a time as its text.
fn put_datetime(alloc: Global, out: &mut Pretty, datetime: Datetime) -> Result<(), AllocError>
    ensures { PutsValues result out.old out.new (json_values.string (datetime_text datetime) ∷ []) }
{
    let text = datetime.to_string(alloc)?;
    out.token(Token::String(text.as_str()))
}

/// Puts a TOML value as a JSON value.
#[cycle(put)]
fn put_value(alloc: Global, out: &mut Pretty, value: &Value) -> Result<(), AllocError>
    ensures { OnOk result (PutsValue (view value.now) out.old out.new) }
{
    match value {
        Value::String(text) => out.token(Token::String(text.as_str())),
        Value::Integer(number) => put_whole(out, *number),
        Value::Float(number) => put_float(out, *number),
        Value::Boolean(holds) => out.token(Token::Bool(*holds)),
        Value::Datetime(datetime) => put_datetime(alloc, out, *datetime),
        Value::Array(items) => {
            out.token(Token::BeginArray)?;
            put_items(alloc, out, items)
        }
        Value::Table(members) => {
            out.token(Token::BeginObject)?;
            put_members(alloc, out, members)
        }
    }
}

/// Puts the items of an array, and its closing bracket.
#[cycle(put)]
fn put_items(alloc: Global, out: &mut Pretty, items: &Array) -> Result<(), AllocError>
    ensures { OnOk result (PutsItems (array_view items.now) out.old out.new) }
{
    for item in items {
        put_value(alloc, out, item)?;
    }
    out.token(Token::EndArray)
}

/// Puts the members of a table, and its closing brace.
#[cycle(put)]
fn put_members(alloc: Global, out: &mut Pretty, members: &Table) -> Result<(), AllocError>
    ensures { OnOk result (PutsMembers (table_view members.now) out.old out.new) }
{
    for (key, value) in members.iter() {
        out.token(Token::Key(key.as_str()))?;
        put_value(alloc, out, value)?;
    }
    out.token(Token::EndObject)
}

/// Puts a member of `[info]`, unless the export itself writes its key.
fn put_handed(alloc: Global, out: &mut Pretty, key: &str, value: &Value) -> Result<(), AllocError>
    ensures { OnOk result (PutsHanded key.now (view value.now) out.old out.new) }
{
    if is_own(key) {
        return Ok(());
    }
    out.token(Token::Key(key))?;
    put_value(alloc, out, value)
}

/// Puts the outcome in `[info]` unchanged, where there is one.
pub fn put_ruled(alloc: Global, out: &mut Pretty, info: &Table) -> Result<(), AllocError>
    ensures { OnOk result (PutsRuled (table_view info.now) out.old out.new) }
{
    match info.get("outcome") {
        Some(outcome) => {
            out.token(Token::Key("outcome"))?;
            put_value(alloc, out, outcome)
        }
        None => Ok(()),
    }
}

/// Puts each member of `[info]` whose key the export doesn't write itself.
pub fn put_given(alloc: Global, out: &mut Pretty, info: &Table) -> Result<(), AllocError>
    ensures { OnOk result (PutsGiven (table_view info.now) out.old out.new) }
{
    for (key, value) in info.iter() {
        put_handed(alloc, out, key.as_str(), value)?;
    }
    Ok(())
}
