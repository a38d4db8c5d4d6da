//! The TOML document of a match sheet.

ghost use Rattle.std.specs.Prelude.{◌≡◌, ◌≢◌, Err};
ghost use Rattle.toml.specs.View.{table_view};
ghost use Rattle.cards.specs.Reading.{Reads};
ghost use Rattle.export.specs.Document as reads;
ghost use Rattle.export.specs.Document.{IsDocument};

use cards::SheetFault;
use sheet_check::is_fine_document;
use std::alloc::Global;
use toml::Table;

/// Returns a sheet's table, or `WrongKind` where its `info` or `meta` can't stand in an export.
fn checked(table: Table) -> Result<Table, SheetFault>
    ensures { Reads table_view result (reads.checked (table_view table)) }
{
    if is_fine_document(&table) {
        Ok(table)
    } else {
        Err(SheetFault::WrongKind)
    }
}

/// Reads a sheet's text as TOML, for the export. Refuses text that isn't TOML, and as `WrongKind` an `info` or a `meta` that
/// isn't a table, and in `[meta]` a `created` that isn't a day or a `revision` that isn't a whole number from 1 on.
pub fn document_of(alloc: Global, text: &[u8]) -> Result<Table, SheetFault>
    ensures { result ≢ Err SheetFault.NoMemory → IsDocument text.now result }
{
    match toml::table_from_slice(alloc, text) {
        Ok(table) => checked(table),
        Err(error) => {
            if error.is_memory() {
                return Err(SheetFault::NoMemory);
            }
            Err(SheetFault::NotToml)
        }
    }
}
