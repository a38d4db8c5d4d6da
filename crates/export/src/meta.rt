//! The export's `meta`: facts about the file, some of them from the sheet's table `[meta]`.

ghost use Rattle.std.specs.Prelude.{◌≡◌, ◌∷◌, []};
ghost use Rattle.toml.specs.View.{table_view};
ghost use Rattle.json_fields.specs.Values.{PutsFields};
ghost use Rattle.export.specs.Meta as laws;

use json::Pretty;
use json_fields::{begin_field, end_object, put_number, put_text};
use sheet_check::{day_of, meta_at, revision_of};
use std::alloc::{AllocError, Global};
use toml::Table;
use toml::value::Date;

/// Returns the day on which the file was made, where the sheet gives it.
fn created_in(document: &Table) -> Option<Date>
    ensures { result ≡ laws.created_in (table_view document.now) }
{
    match meta_at(document, "created") {
        Some(value) => day_of(value),
        None => None,
    }
}

/// Returns the revision of the file: 1, where the sheet gives none.
fn revision_in(document: &Table) -> u64
    ensures { result ≡ laws.revision_in (table_view document.now) }
{
    match meta_at(document, "revision") {
        Some(value) => revision_of(value).unwrap_or(1),
        None => 1,
    }
}

/// Puts the day on which the file was made, where it is known.
fn put_created(alloc: Global, out: &mut Pretty, created: Option<Date>) -> Result<(), AllocError>
    ensures { PutsFields result out.old out.new (laws.created_fields created) }
{
    let Some(day) = created else {
        return Ok(());
    };
    let text = day.to_string(alloc)?;
    put_text(out, "created", text.as_str())
}

/// Puts the field `meta`: the version of the format, the day, and the revision.
pub fn put_meta(alloc: Global, out: &mut Pretty, document: &Table) -> Result<(), AllocError>
    ensures { PutsFields result out.old out.new (laws.meta_field (table_view document.now) ∷ []) }
{
    begin_field(out, "meta")?;
    put_text(out, "data_version", "1.1.0")?;
    put_created(alloc, out, created_in(document))?;
    put_number(out, "revision", revision_in(document))?;
    end_object(out)
}
