//! Outputs that JSON is written to, one token at a time.

ghost use Rattle.std.specs.Prelude.{◌≡◌, ◌++◌, ◌∷◌, [], List, OnOk};
ghost use Rattle.json.specs.Print.{IsPrintable, print};
ghost use Rattle.json.specs.Reads.{token_of};
ghost use Rattle.json.specs.Token.{Token as JsonToken};

use json::{Pretty, Token, Writer};
use std::alloc::{AllocError, Global};
use std::marker::Model;

/// An output for JSON tokens; the `json` library does the layout.
pub trait Tokens {
    /// The tokens written so far.
    ghost tokens: { Self → List JsonToken };

    /// Appends a token.
    fn token(&mut self, token: Token<'_>) -> Result<(), AllocError>
        requires { IsPrintable (token_of token) }
        ensures { OnOk result (tokens self.new ≡ tokens self.old ++ token_of token.entry ∷ []) };
}

impl Tokens for Pretty {
    ghost tokens = { λ out. out };

    /// Appends a token, with each field and each value on a line of its own.
    fn token(&mut self, token: Token<'_>) -> Result<(), AllocError> {
        Pretty::token(self, token)
    }
}

/// JSON without whitespace.
#[derive(Drop)]
pub struct Compact {
    writer: Writer,
}

impl Model for Compact {
    ghost use Rattle.std.specs.Prelude.{◌≡◌, List, []};
    ghost use Rattle.json.specs.Token.{Token as JsonToken, tokens_code};

    ghost Value = { List JsonToken };

    ghost coded = { tokens_code };

    ghost view = { λ out. out.writer.tokens };

    ghost invariant = { λ out. out.writer.before ≡ [] };
}

impl Compact {
    /// Begins an empty output.
    pub fn new(alloc: Global) -> Compact
        ensures { result ≡ [] }
    {
        Compact {
            writer: Writer::new(Vec::new(alloc)),
        }
    }

    /// Returns the text of the tokens written.
    pub fn into_inner(self) -> Vec<u8>
        ensures { result.items ≡ print self }
    {
        self.writer.into_inner()
    }
}

impl Tokens for Compact {
    ghost tokens = { λ out. out };

    /// Appends a token, without whitespace.
    fn token(&mut self, token: Token<'_>) -> Result<(), AllocError> {
        self.writer.token(token)
    }
}
