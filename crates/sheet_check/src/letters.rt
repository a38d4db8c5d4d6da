//! How a text of a sheet is shown, and which of its letters aren't plain.

ghost use Rattle.std.specs.Prelude.{◌≡◌, ◌++◌, string_bytes, IfOk, OnOk};
ghost use Rattle.std.specs.Int.{is_in_range};
ghost use Rattle.std.specs.List.{list_all};
ghost use Rattle.cards.specs.Sheet.{is_printable};
ghost use Rattle.sheet_check.specs.Letters as letters;

use std::alloc::{AllocError, Global};

/// Whether a letter's number is from `low` to `high`.
fn is_within(low: u32, high: u32, code: u32) -> bool
    ensures { result ≡ is_in_range low high code }
{
    low <= code && code <= high
}

/// Whether a letter controls a terminal, or changes the direction of the line in which it is shown or breaks that line.
fn is_obeyed(letter: char) -> bool
    ensures { result ≡ letters.is_obeyed letter }
{
    let code = letter as u32;
    is_within(0, 0x1f, code)
        || is_within(0x7f, 0x9f, code)
        || is_within(0x200b, 0x200f, code)
        || is_within(0x2028, 0x202e, code)
        || is_within(0x2060, 0x206f, code)
}

/// Whether a letter is plain: printable ASCII.
fn is_plain(letter: char) -> bool
    ensures { result ≡ is_printable letter }
{
    let code = letter as u32;
    32 <= code && code <= 126
}

/// Whether every letter of a text is plain.
pub fn are_plain(text: &str) -> bool
    ensures { result ≡ list_all is_printable text.now }
{
    text.as_bytes().iter().all(|byte| (32..=126).contains(byte))
}

/// Appends a letter as it is shown: `?` for one that a terminal obeys.
fn push_letter(out: &mut String, letter: char) -> Result<(), AllocError>
    ensures { OnOk result (string_bytes out.new ≡ string_bytes out.old ++ letters.shown_letter letter) }
{
    if is_obeyed(letter) {
        out.push_str("?")
    } else {
        out.push(letter)
    }
}

/// Returns a text as it is shown, without quotes.
pub fn shown(alloc: Global, text: &str) -> Result<String, AllocError>
    ensures { IfOk result (λ shown. string_bytes shown ≡ letters.shown text.now) }
{
    let mut out = String::new(alloc);
    for letter in text.chars() {
        push_letter(&mut out, letter)?;
    }
    Ok(out)
}

/// Appends a text as it is shown, in quotes.
pub fn push_quoted(alloc: Global, out: &mut String, text: &str) -> Result<(), AllocError>
    ensures { OnOk result (string_bytes out.new ≡ string_bytes out.old ++ letters.quoted text.now) }
{
    let shown = shown(alloc, text)?;
    out.push_str("\"")?;
    out.push_str(shown.as_str())?;
    out.push_str("\"")
}

/// Appends a letter that isn't plain, followed by a space; nothing for a plain letter.
fn push_odd(out: &mut String, letter: char) -> Result<(), AllocError>
    ensures { OnOk result (string_bytes out.new ≡ string_bytes out.old ++ letters.odd_letter letter) }
{
    if is_plain(letter) {
        return out.push_str("");
    }
    if is_obeyed(letter) {
        return out.push_str("a control character ");
    }
    out.push(letter)?;
    out.push_str(" ")
}

/// Returns the letters of a text that aren't plain, each followed by a space.
pub fn odd_letters(alloc: Global, text: &str) -> Result<String, AllocError>
    ensures { IfOk result (λ odd. string_bytes odd ≡ letters.odd_letters text.now) }
{
    let mut out = String::new(alloc);
    for letter in text.chars() {
        push_odd(&mut out, letter)?;
    }
    Ok(out)
}
