//! Looking up values in a sheet's table `[stations]`.

ghost use Rattle.std.specs.Prelude.{◌≡◌, option_map};
ghost use Rattle.toml.specs.Data.{as_table, get_member};
ghost use Rattle.toml.specs.View.{table_view, view};
ghost use Rattle.station_table.specs.Stations as stations;
ghost use Rattle.station_table.specs.Begun as begun;
ghost use Rattle.station_table.specs.Begun.{or_else};

use cards::Columns;
use toml::{Table, Value};

/// Returns the value at a key of a table.
fn member<'a>(table: &'a Table, key: &str) -> Option<&'a Value>
    ensures { option_map (λ value. view value.now) result ≡ get_member key.now (table_view table.now) }
{
    match table.get(key) {
        Some(value) => Some(value),
        None => None,
    }
}

/// Returns the value at a key of a sheet's table `[stations]`.
fn value_in<'a>(sheet: &'a Table, key: &str) -> Option<&'a Value>
    ensures { option_map (λ value. view value.now) result ≡ stations.value_in key.now (table_view sheet.now) }
{
    let stations = member(sheet, "stations")?.as_table()?;
    member(stations, key)
}

/// Returns the text at a key of a sheet's table `[stations]`.
pub fn text_in<'a>(sheet: &'a Table, key: &str) -> Option<&'a str>
    ensures { option_map (λ text. text.now) result ≡ stations.text_in key.now (table_view sheet.now) }
{
    value_in(sheet, key)?.as_str()
}

/// Returns the address of a board in a sheet's table `[stations]`; boards are counted from 0.
pub fn board_in(sheet: &Table, index: usize) -> Option<&str>
    ensures { option_map (λ text. text.now) result ≡ stations.board_in index (table_view sheet.now) }
{
    value_in(sheet, "boards")?.get(index)?.as_str()
}

/// Returns the width of a scorer's rows in a sheet's table `[stations]`, if rows can have that width.
pub fn columns_in(sheet: &Table) -> Option<Columns>
    ensures { result ≡ stations.columns_in (table_view sheet.now) }
{
    let number = value_in(sheet, "columns")?.as_integer()?;
    match usize::try_from(number) {
        Ok(number) => Columns::new(number),
        Err(_) => None,
    }
}

/// Returns the named width, or else the other width.
pub fn columns_or(named: Option<Columns>, other: Option<Columns>) -> Option<Columns>
    ensures { result ≡ begun.columns_or named other }
{
    match named {
        Some(columns) => Some(columns),
        None => other,
    }
}

/// Returns the named text, or else the other text.
pub fn or_else<'a>(named: Option<&'a str>, other: Option<&'a str>) -> Option<&'a str>
    ensures { option_map (λ text. text.now) result
        ≡ or_else (option_map (λ text. text.now) named.entry) (option_map (λ text. text.now) other.entry) }
{
    match named {
        Some(text) => Some(text),
        None => other,
    }
}
