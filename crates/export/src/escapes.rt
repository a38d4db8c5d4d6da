//! The characters that an export writes as JSON escapes.

ghost use Rattle.std.specs.Prelude.{◌≡◌, ◌<◌, ◌∷◌, [], ◌++◌, string_bytes, IfOk, OnOk, nat_lt};
ghost use Rattle.std.specs.Char.{digit_char};
ghost use Rattle.std.specs.Int.{is_in_range};
ghost use Rattle.std.specs.List.{list_all};
ghost use Rattle.export.specs.Escapes as escapes;

use memchr::memchr;
use std::alloc::{AllocError, Global};

/// Whether a character's code is from `low` to `high`, both included.
fn is_within(low: u32, high: u32, code: u32) -> bool
    ensures { result ≡ is_in_range low high code }
{
    low <= code && code <= high
}

/// Whether a terminal obeys a character, or the character turns or breaks the line in which it is shown.
fn is_obeyed(letter: char) -> bool
    ensures { result ≡ escapes.is_obeyed letter }
{
    let code = letter as u32;
    is_within(0x7f, 0x9f, code)
        || is_within(0x200b, 0x200f, code)
        || is_within(0x2028, 0x202e, code)
        || is_within(0x2060, 0x206f, code)
}

/// Appends a hex digit to a text.
fn push_digit(out: &mut String, digit: u32) -> Result<(), AllocError>
    requires { digit < 16 }
    ensures { OnOk result (string_bytes out.new ≡ string_bytes out.old ++ digit_char digit ∷ []) }
{
    let letter = char::from_digit(digit, 16).unwrap();
    out.push(letter)
}

/// Appends the escape of a character to a text, by the character's code, which is below 65,536.
fn push_escape(out: &mut String, code: u32) -> Result<(), AllocError>
    ensures { OnOk result (string_bytes out.new ≡ string_bytes out.old ++ escapes.escape_of code) }
{
    out.push_str("\\u")?;
    push_digit(out, code / 4096 % 16)?;
    push_digit(out, code / 256 % 16)?;
    push_digit(out, code / 16 % 16)?;
    push_digit(out, code % 16)
}

/// Appends a character to a text, or its escape where `is_obeyed` says so.
fn push_shown(out: &mut String, letter: char) -> Result<(), AllocError>
    ensures { OnOk result (string_bytes out.new ≡ string_bytes out.old ++ escapes.shown_char letter) }
{
    if is_obeyed(letter) {
        push_escape(out, letter as u32)
    } else {
        out.push(letter)
    }
}

/// Whether each byte of a text is below DEL (0x7f): such a text needs no escapes.
fn is_below_del(text: &str) -> bool
    ensures { result ≡ list_all (λ byte. nat_lt byte 0x7f) text.now }
{
    let bytes = text.as_bytes();
    match memchr(0x7f, bytes) {
        Some(_) => false,
        None => bytes.is_ascii(),
    }
}

/// Appends a text to another, escaping it character by character.
fn push_letters(out: &mut String, text: &str) -> Result<(), AllocError>
    ensures { OnOk result (string_bytes out.new ≡ string_bytes out.old ++ escapes.shown text.now) }
{
    for letter in text.chars() {
        push_shown(out, letter)?;
    }
    Ok(())
}

/// Appends a text to another, escaped; a text that needs no escapes is appended in one go.
fn push_text(out: &mut String, text: &str) -> Result<(), AllocError>
    ensures { OnOk result (string_bytes out.new ≡ string_bytes out.old ++ escapes.shown text.now) }
{
    if is_below_del(text) {
        out.push_str(text)
    } else {
        push_letters(out, text)
    }
}

/// Returns a text with those characters escaped that a terminal obeys, or that turn or break a line.
pub fn shown(alloc: Global, text: &str) -> Result<String, AllocError>
    ensures { IfOk result (λ shown. string_bytes shown ≡ escapes.shown text.now) }
{
    let mut out = String::new(alloc);
    push_text(&mut out, text)?;
    Ok(out)
}
