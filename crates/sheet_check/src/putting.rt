//! Appending faults to a list.

ghost use Rattle.std.specs.Prelude.{◌≡◌, ◌∷◌, [], ◌++◌, decimal, string_bytes, IfOk, OnOk};
ghost use Rattle.sheet_check.specs.Faults as faults;
ghost use Rattle.sheet_check.specs.Reports.{Puts};

use cards::SheetFault;
use itoa::Buffer;
use std::alloc::{AllocError, Global};

/// A fault of a sheet: the kind, which gives its number, and the words in which it is reported.
#[derive(Drop)]
pub struct Fault {
    pub why: SheetFault,
    pub words: String,
}

/// Appends a fault: its kind, where it is, and its words.
pub fn put_fault(
    alloc: Global,
    out: &mut Vec<Fault>,
    why: SheetFault,
    place: &str,
    words: &str,
) -> Result<(), AllocError>
    ensures { Puts result out.old out.new (faults.at why place.now words.now ∷ []) }
{
    let mut text = joined(alloc, place, ": ")?;
    text.push_str(words)?;
    out.push(Fault { why, words: text })?;
    Ok(())
}

/// Appends a fault unless `holds`.
pub fn put_unless(
    alloc: Global,
    out: &mut Vec<Fault>,
    holds: bool,
    why: SheetFault,
    place: &str,
    words: &str,
) -> Result<(), AllocError>
    ensures { Puts result out.old out.new (faults.unless holds (faults.at why place.now words.now)) }
{
    if holds {
        return Ok(());
    }
    put_fault(alloc, out, why, place, words)
}

/// Appends the fault that a value is of another kind.
pub fn put_kind(
    alloc: Global,
    out: &mut Vec<Fault>,
    place: &str,
    words: &str,
) -> Result<(), AllocError>
    ensures { Puts result out.old out.new (faults.kind place.now words.now) }
{
    put_fault(alloc, out, SheetFault::WrongKind, place, words)
}

/// Appends the fault that a required value isn't there.
pub fn put_absent(alloc: Global, out: &mut Vec<Fault>, place: &str) -> Result<(), AllocError>
    ensures { Puts result out.old out.new (faults.absent place.now) }
{
    put_fault(alloc, out, SheetFault::MissingKey, place, "isn't there")
}

/// Appends a number to a text.
pub fn push_number(out: &mut String, number: u64) -> Result<(), AllocError>
    ensures { OnOk result (string_bytes out.new ≡ string_bytes out.old ++ decimal number) }
{
    let mut buffer = Buffer::new();
    out.push_str(buffer.format(number))
}

/// Returns the two texts joined.
pub fn joined(alloc: Global, front: &str, back: &str) -> Result<String, AllocError>
    ensures { IfOk result (λ text. string_bytes text ≡ front.now ++ back.now) }
{
    let mut text = String::from_str(alloc, front)?;
    text.push_str(back)?;
    Ok(text)
}
