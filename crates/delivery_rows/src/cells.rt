//! Cells as CSV text, and the end of a row.

ghost use Rattle.std.specs.Prelude.{◌≡◌, ◌==◌, ◌<◌, ◌≤◌, ◌∷◌, ◌++◌, [], decimal, length, slice_get, IfOk, OnOk, Some};
ghost use Rattle.csv.specs.Writing.{default_writer};
ghost use Rattle.csv.specs.Writing as writing;
ghost use Rattle.delivery_rows.specs.Cells as cells;
ghost use Rattle.delivery_rows.specs.Cells.{PutsCells};

use csv::WriterBuilder;
use itoa::Buffer;
use std::alloc::{AllocError, Global};

/// Whether a spreadsheet takes this byte at the front of a cell as the start of a formula, or skips it.
fn is_sign(byte: u8) -> bool
    ensures { result ≡ cells.is_sign byte }
{
    byte == b'='
        || byte == b'+'
        || byte == b'-'
        || byte == b'@'
        || byte == b'\t'
        || byte == b'\n'
        || byte == b'\r'
}

fn is_quote(byte: u8) -> bool
    ensures { result ≡ (byte == 39) }
{
    byte == b'\''
}

/// Returns the byte at an index.
fn byte_at(text: &[u8], index: usize) -> u8
    requires { index < length text.now }
    ensures { slice_get text.now index ≡ Some result }
{
    text[index]
}

/// Whether a text begins with such a sign, after any quotes of its own.
fn is_formula(text: &[u8]) -> bool
    ensures { result ≡ cells.is_formula text.now }
{
    for index in 0..text.len() {
        let byte = byte_at(text, index);
        if !is_quote(byte) {
            return is_sign(byte);
        }
    }
    false
}

/// Whether a byte of a cell calls for quotes around the cell.
fn is_mark(byte: u8) -> bool
    ensures { result ≡ writing.needs_byte default_writer byte }
{
    byte == b',' || byte == b'"' || byte == b'\r' || byte == b'\n'
}

/// Whether a cell needs quotes around it.
fn needs_quotes(cell: &[u8]) -> bool
    ensures { result ≡ writing.needs_quotes default_writer cell.now }
{
    cell.iter().any(|byte| is_mark(*byte))
}

/// Returns a cell as CSV text.
fn field_text(alloc: Global, cell: &[u8]) -> Result<Vec<u8>, csv::Error>
    ensures { IfOk result (λ text. text.items ≡ writing.field_text default_writer cell.now) }
{
    let mut writer = WriterBuilder::new().from_writer(Vec::new(alloc));
    writer.write_field(cell)?;
    match writer.into_inner() {
        Ok(text) => Ok(text),
        Err(why) => Err(why.into_error()),
    }
}

/// Adds the text of a cell, without a comma.
fn put_field(alloc: Global, out: &mut Vec<u8>, cell: &[u8]) -> Result<(), AllocError>
    ensures { OnOk result (out.new.items ≡ out.old.items ++ writing.field_text default_writer cell.now) }
{
    match field_text(alloc, cell) {
        Ok(text) => out.extend_from_slice(text.as_slice()),
        // A writer to memory fails only for lack of memory.
        Err(_) => Err(AllocError),
    }
}

/// Adds a cell as it is. Few cells need the writer of `csv`, which is slow to begin.
#[tactic(auto, using(crate::proofs::Putting::one_cell, crate::proofs::Putting::plain_cell, crate::proofs::Putting::append_assoc))]
pub fn put(alloc: Global, out: &mut Vec<u8>, cell: &[u8]) -> Result<(), AllocError>
    ensures { PutsCells result out.old.items out.new.items (cell.now ∷ []) }
{
    out.push(b',')?;
    if needs_quotes(cell) {
        put_field(alloc, out, cell)
    } else {
        out.extend_from_slice(cell)
    }
}

/// Adds an empty cell.
#[tactic(auto, using(crate::proofs::Putting::empty_cell))]
pub fn put_nothing(out: &mut Vec<u8>) -> Result<(), AllocError>
    ensures { PutsCells result out.old.items out.new.items ([] ∷ []) }
{
    Ok(out.push(b',')?)
}

/// Adds a figure of one digit.
#[tactic(auto, using(crate::proofs::Putting::digit_cell))]
fn put_digit(out: &mut Vec<u8>, digit: u8) -> Result<(), AllocError>
    requires { digit < 10 }
    ensures { PutsCells result out.old.items out.new.items (decimal digit ∷ []) }
{
    out.extend_from_slice(&[b',', b'0' + digit])
}

/// Adds a figure of two digits.
#[tactic(auto, using(crate::proofs::Putting::two_cell))]
fn put_two(out: &mut Vec<u8>, figure: u8) -> Result<(), AllocError>
    requires { (10 ≤ figure) × (figure < 100) }
    ensures { PutsCells result out.old.items out.new.items (decimal figure ∷ []) }
{
    out.extend_from_slice(&[b',', b'0' + figure / 10, b'0' + figure % 10])
}

/// Adds a figure of three digits.
#[tactic(auto, using(crate::proofs::Putting::three_cell))]
fn put_three(out: &mut Vec<u8>, figure: u16) -> Result<(), AllocError>
    requires { (100 ≤ figure) × (figure < 1000) }
    ensures { PutsCells result out.old.items out.new.items (decimal figure ∷ []) }
{
    let tens = figure / 10;
    out.extend_from_slice(&[
        b',',
        b'0' + (tens / 10) as u8,
        b'0' + (tens % 10) as u8,
        b'0' + (figure % 10) as u8,
    ])
}

/// Adds a figure of any length.
#[tactic(auto, using(crate::proofs::Putting::figure_cell, crate::proofs::Putting::append_assoc))]
fn put_long(out: &mut Vec<u8>, figure: u64) -> Result<(), AllocError>
    ensures { PutsCells result out.old.items out.new.items (decimal figure ∷ []) }
{
    let mut buffer = Buffer::new();
    out.push(b',')?;
    out.extend_from_slice(buffer.format(figure).as_bytes())
}

/// Adds a figure. Nearly all have one to three digits.
pub fn put_figure(out: &mut Vec<u8>, figure: u64) -> Result<(), AllocError>
    ensures { PutsCells result out.old.items out.new.items (decimal figure ∷ []) }
{
    match figure {
        0..10 => put_digit(out, figure as u8),
        10..100 => put_two(out, figure as u8),
        100..1000 => put_three(out, figure as u16),
        _ => put_long(out, figure),
    }
}

/// Adds a text with a quote before it.
fn put_quoted(alloc: Global, out: &mut Vec<u8>, text: &[u8]) -> Result<(), AllocError>
    ensures { PutsCells result out.old.items out.new.items ((39 ∷ text.now) ∷ []) }
{
    let mut cell = Vec::new(alloc);
    cell.push(b'\'')?;
    cell.extend_from_slice(text)?;
    put(alloc, out, cell.as_slice())
}

/// Adds a text, with a quote before it if a spreadsheet would run it as a formula.
pub fn put_text(alloc: Global, out: &mut Vec<u8>, text: &[u8]) -> Result<(), AllocError>
    ensures { PutsCells result out.old.items out.new.items (cells.cell text.now ∷ []) }
{
    if is_formula(text) {
        put_quoted(alloc, out, text)
    } else {
        put(alloc, out, text)
    }
}

/// Begins a row with a figure.
#[tactic(auto, using(crate::proofs::Putting::figure_text))]
pub fn begin_row(out: &mut Vec<u8>, figure: u64) -> Result<(), AllocError>
    ensures { OnOk result (out.new.items ≡ out.old.items ++ writing.field_text default_writer (decimal figure)) }
{
    let mut buffer = Buffer::new();
    out.extend_from_slice(buffer.format(figure).as_bytes())
}

/// Ends a row.
pub fn end_row(out: &mut Vec<u8>) -> Result<(), AllocError>
    ensures { OnOk result (out.new.items ≡ out.old.items ++ 10 ∷ []) }
{
    Ok(out.push(b'\n')?)
}
