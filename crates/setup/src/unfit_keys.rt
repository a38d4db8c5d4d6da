//! Keys of a sheet's table `limits` whose value can't be right. Such a sheet is taken: standard error is told, and the match
//! goes on without these keys.

use limits::{KEYS, Key, why_unfit};
use std::alloc::Global;
use std::io::{self, Write};
use toml::Table;

/// Tells why a key's value can't be right, if it can't.
fn tell_key<W: Write>(errors: &mut W, alloc: Global, document: &Table, key: Key) -> io::Result<()> {
    let Some(why) = why_unfit(alloc, document, key) else {
        return Ok(());
    };
    let name = key.name();
    writeln!(errors, "sheet: {name} {why}")
}

/// Tells why each unfit key of a sheet's text is unfit. Tells nothing if the text can't be read as TOML.
pub fn tell_unfit_keys<W: Write>(errors: &mut W, alloc: Global, text: &[u8]) -> io::Result<()> {
    let Ok(document) = toml::table_from_slice(alloc, text) else {
        return Ok(());
    };
    for key in KEYS {
        tell_key(errors, alloc, &document, key)?;
    }
    Ok(())
}
