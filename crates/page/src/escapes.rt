//! Texts escaped for HTML.

ghost use Rattle.std.specs.Prelude.{◌≡◌, ◌++◌, IfOk, string_bytes};
ghost use Rattle.page.specs.Escapes as escapes;
ghost use Rattle.page.specs.Escapes.{Puts};

use std::alloc::{AllocError, Global};

/// Writes a character, or its HTML reference.
fn put_char(out: &mut String, letter: char) -> Result<(), AllocError>
    ensures { Puts result out.old out.new (escapes.escaped_char letter) }
{
    match letter {
        '&' => out.push_str("&amp;"),
        '<' => out.push_str("&lt;"),
        '>' => out.push_str("&gt;"),
        '"' => out.push_str("&quot;"),
        '\'' => out.push_str("&#39;"),
        _ => out.push(letter),
    }
}

/// Writes a text, escaped for HTML.
pub fn put_escaped(out: &mut String, text: &str) -> Result<(), AllocError>
    ensures { Puts result out.old out.new (escapes.escaped text.now) }
{
    for letter in text.chars() {
        put_char(out, letter)?;
    }
    Ok(())
}

/// Writes a name in an element that keeps it on one line.
pub fn put_name(out: &mut String, name: &str) -> Result<(), AllocError>
    ensures { Puts result out.old out.new (escapes.name_html name.now) }
{
    out.push_str("<span class='name'>")?;
    put_escaped(out, name)?;
    out.push_str("</span>")
}

/// Returns a text, escaped for HTML.
pub fn escaped(alloc: Global, text: &str) -> Result<String, AllocError>
    ensures { IfOk result (λ shown. string_bytes shown ≡ escapes.escaped text.now) }
{
    let mut out = String::new(alloc);
    put_escaped(&mut out, text)?;
    Ok(out)
}
