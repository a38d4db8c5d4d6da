//! What a desk tells only its scorer.

ghost use Rattle.std.specs.Prelude.{◌≡◌, ◌++◌, IfOk, codes, true};
ghost use Rattle.hex.specs.Hex.{encode_lower};
ghost use Rattle.sha2.specs.Sha256.{sha256};
ghost use Rattle.viewers.specs.Veiled.{told_alone};

use hex::encode;
use sha2::{Digest, Sha256};
use std::alloc::{AllocError, Global};

/// What a desk tells only its scorer: its whole state, the SHA-256 of the book's text that all may read, by which a page sees
/// that it has the desk's book, and the newest rows.
#[derive(Drop)]
pub struct Own {
    pub state: Vec<u8>,
    pub digest: [u8; 32],
    pub rows: Vec<u8>,
    /// Whether something is new, or the secret has changed.
    pub is_new: bool,
}

/// The text of `Own`, encrypted by the secret of the desk's page.
#[derive(Drop)]
pub struct Veiled {
    /// Its number.
    pub number: u64,
    /// The encrypted bytes in hex digits, as one line.
    pub text: Vec<u8>,
}

impl Own {
    /// Begins with nothing told.
    pub fn new(alloc: Global) -> Own {
        Own {
            state: Vec::new(alloc),
            digest: [0; 32],
            rows: Vec::new(alloc),
            is_new: false,
        }
    }

    /// Sets the state.
    pub fn put_state(&mut self, state: Vec<u8>)
        ensures state { self.new.state ≡ state }
        ensures digest { self.new.digest ≡ self.old.digest }
        ensures rows { self.new.rows ≡ self.old.rows }
        ensures is_new { self.new.is_new ≡ true }
    {
        self.state = state;
        self.is_new = true;
    }

    /// Sets the digest to that of the book's text.
    pub fn put_book(&mut self, book: &[u8])
        ensures state { self.new.state ≡ self.old.state }
        ensures digest { self.new.digest ≡ sha256 book.now }
        ensures rows { self.new.rows ≡ self.old.rows }
        ensures is_new { self.new.is_new ≡ true }
    {
        self.digest = Sha256::digest(book);
        self.is_new = true;
    }

    /// Sets the rows.
    pub fn put_rows(&mut self, rows: Vec<u8>)
        ensures rows { self.new.rows ≡ rows }
        ensures state { self.new.state ≡ self.old.state }
        ensures digest { self.new.digest ≡ self.old.digest }
        ensures is_new { self.new.is_new ≡ true }
    {
        self.rows = rows;
        self.is_new = true;
    }

    /// Returns the whole text: one line each for the state, the digest and the rows.
    pub fn text(&self, alloc: Global) -> Result<Vec<u8>, AllocError>
        ensures { IfOk result (λ text. text.items ≡ told_alone self.now) }
    {
        let digest = hex_line(alloc, &self.digest)?;
        let mut text = Vec::new(alloc);
        text.extend_from_slice(self.state.as_slice())?;
        text.extend_from_slice(digest.as_slice())?;
        text.extend_from_slice(self.rows.as_slice())?;
        Ok(text)
    }
}

/// Returns bytes in hex digits, as one line.
pub fn hex_line(alloc: Global, bytes: &[u8]) -> Result<Vec<u8>, AllocError>
    ensures { IfOk result (λ line. line.items ≡ encode_lower bytes.now ++ codes "\n") }
{
    let mut line = encode(alloc, bytes)?.into_bytes();
    line.push(b'\n')?;
    Ok(line)
}
