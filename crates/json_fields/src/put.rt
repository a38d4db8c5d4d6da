//! Appends JSON fields and values to the output.

ghost use Rattle.std.specs.Prelude.{◌≡◌, ◌++◌, ◌∷◌, [], OnOk};
ghost use Rattle.json.specs.Json.{boolean, null, string};
ghost use Rattle.json.specs.Token as tokens;
ghost use Rattle.json_fields.specs.Values.{PutsFields, PutsValues, count_field, flag_if, number_field, number_value, text_field};

use crate::tokens::Tokens;
use itoa::Buffer;
use json::Token;
use std::alloc::AllocError;

/// Appends a field's name.
fn put_name<T: Tokens>(out: &mut T, name: &str) -> Result<(), AllocError>
    ensures { OnOk result (T.tokens out.new ≡ T.tokens out.old ++ tokens.key name.now ∷ []) }
{
    out.token(Token::Key(name))
}

/// Begins an object.
pub fn begin_object<T: Tokens>(out: &mut T) -> Result<(), AllocError>
    ensures { OnOk result (T.tokens out.new ≡ T.tokens out.old ++ tokens.begin_object ∷ []) }
{
    out.token(Token::BeginObject)
}

/// Begins a field that is an object.
pub fn begin_field<T: Tokens>(out: &mut T, name: &str) -> Result<(), AllocError>
    ensures { OnOk result (T.tokens out.new ≡ T.tokens out.old ++ tokens.key name.now ∷ tokens.begin_object ∷ []) }
{
    put_name(out, name)?;
    out.token(Token::BeginObject)
}

/// Ends an object.
pub fn end_object<T: Tokens>(out: &mut T) -> Result<(), AllocError>
    ensures { OnOk result (T.tokens out.new ≡ T.tokens out.old ++ tokens.end_object ∷ []) }
{
    out.token(Token::EndObject)
}

/// Begins a field that is an array.
pub fn begin_array<T: Tokens>(out: &mut T, name: &str) -> Result<(), AllocError>
    ensures { OnOk result (T.tokens out.new ≡ T.tokens out.old ++ tokens.key name.now ∷ tokens.begin_array ∷ []) }
{
    put_name(out, name)?;
    out.token(Token::BeginArray)
}

/// Ends an array.
pub fn end_array<T: Tokens>(out: &mut T) -> Result<(), AllocError>
    ensures { OnOk result (T.tokens out.new ≡ T.tokens out.old ++ tokens.end_array ∷ []) }
{
    out.token(Token::EndArray)
}

/// Appends a string.
pub fn put_string<T: Tokens>(out: &mut T, text: &str) -> Result<(), AllocError>
    ensures { PutsValues result (T.tokens out.old) (T.tokens out.new) (string text.now ∷ []) }
{
    out.token(Token::String(text))
}

/// Appends a number.
pub fn put_integer<T: Tokens>(out: &mut T, figure: u64) -> Result<(), AllocError>
    ensures { PutsValues result (T.tokens out.old) (T.tokens out.new) (number_value figure ∷ []) }
{
    let mut buffer = Buffer::new();
    out.token(Token::Number(buffer.format(figure)))
}

/// Appends a string field.
pub fn put_text<T: Tokens>(out: &mut T, name: &str, text: &str) -> Result<(), AllocError>
    ensures { PutsFields result (T.tokens out.old) (T.tokens out.new) (text_field name.now text.now ∷ []) }
{
    put_name(out, name)?;
    put_string(out, text)
}

/// Appends a number field.
pub fn put_number<T: Tokens>(out: &mut T, name: &str, figure: u64) -> Result<(), AllocError>
    ensures { PutsFields result (T.tokens out.old) (T.tokens out.new) (number_field name.now figure ∷ []) }
{
    put_name(out, name)?;
    put_integer(out, figure)
}

/// Appends a number field from 32 bits.
pub fn put_figure<T: Tokens>(out: &mut T, name: &str, figure: u32) -> Result<(), AllocError>
    ensures { PutsFields result (T.tokens out.old) (T.tokens out.new) (number_field name.now figure ∷ []) }
{
    put_number(out, name, u64::from(figure))
}

/// Appends a field that is null.
pub fn put_null<T: Tokens>(out: &mut T, name: &str) -> Result<(), AllocError>
    ensures { PutsFields result (T.tokens out.old) (T.tokens out.new) ((name.now, null) ∷ []) }
{
    put_name(out, name)?;
    out.token(Token::Null)
}

/// Appends a number field, or nothing if the number is 0.
pub fn put_count<T: Tokens>(out: &mut T, name: &str, count: u32) -> Result<(), AllocError>
    ensures { PutsFields result (T.tokens out.old) (T.tokens out.new) (count_field name.now count) }
{
    if count == 0 {
        return Ok(());
    }
    put_figure(out, name, count)
}

/// Appends a field that is true, or nothing if `holds` is false.
pub fn put_flag<T: Tokens>(out: &mut T, name: &str, holds: bool) -> Result<(), AllocError>
    ensures { PutsFields result (T.tokens out.old) (T.tokens out.new) (flag_if holds name.now) }
{
    if !holds {
        return Ok(());
    }
    put_name(out, name)?;
    out.token(Token::Bool(true))
}

/// Appends a field that is true or false.
pub fn put_bool<T: Tokens>(out: &mut T, name: &str, holds: bool) -> Result<(), AllocError>
    ensures { PutsFields result (T.tokens out.old) (T.tokens out.new) ((name.now, boolean holds) ∷ []) }
{
    put_name(out, name)?;
    out.token(Token::Bool(holds))
}
