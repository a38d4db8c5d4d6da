//! JSON written part by part: each field or value is appended to the output.
#![tactic(auto, unfolding(crate::specs::Values::fields_tokens, crate::specs::Values::values_tokens))]

mod put;
mod tokens;

pub use put::{
    begin_array, begin_field, begin_object, end_array, end_object, put_bool, put_count, put_figure,
    put_flag, put_integer, put_null, put_number, put_string, put_text,
};
pub use tokens::{Compact, Tokens};
