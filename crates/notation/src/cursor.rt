//! The rest of a line while it is read.

ghost use Rattle.std.specs.Prelude.{◌≡◌, ◌==◌, ◌≤◌, ℕ, List, [], ◌∷◌, length, true, MatchOption, IfOk, IfSome};
ghost use Rattle.notation.specs.Written.{tokens, found_number, is_token};
ghost use Rattle.notation.specs.inner.TokenReading.{Reads, word_at, number_at, skip};
ghost use Rattle.notation.specs.inner.Cursor.{tokens_left};

use crate::fault::LineFault;
use crate::tokens::number_in;
use crate::words::Word;
use std::marker::Model;
use std::str;

/// The remaining tokens of a line, kept as the bytes that hold them.
#[derive(Drop)]
pub struct Cursor<'a> {
    left: Option<&'a [u8]>,
}

impl<'a> Model for Cursor<'a> {
    ghost use Rattle.std.specs.Prelude.{List, ℕ};
    ghost use Rattle.notation.specs.inner.Cursor.{tokens_left};

    ghost Value = { List (List ℕ) };

    ghost view = { λ c. tokens_left c.left };
}

/// Returns the first token of some bytes, and the rest after the space that follows the token, if there is one.
fn cut(bytes: &[u8]) -> (&[u8], Option<&[u8]>)
    ensures { tokens bytes.now ≡ result.0.now ∷ tokens_left result.1 }
{
    match bytes.iter().position(|b| *b == b' ') {
        Some(at) => {
            let (token, behind) = bytes.split_at(at);
            let (_, rest) = behind.split_at(1);
            (token, Some(rest))
        }
        None => (bytes, None),
    }
}

/// Returns what `number_in` does, with a short path for one digit, as most numbers have.
fn number_of(token: &[u8], low: u16, high: u16) -> Option<u16>
    ensures value { result ≡ found_number low high token.now }
    ensures range { IfSome result (λ n. (low ≤ n) × (n ≤ high)) }
{
    if token.len() == 1 && b'0' <= token[0] && token[0] <= b'9' {
        let number = u16::from(token[0] - b'0');
        return if low <= number && number <= high {
            Some(number)
        } else {
            None
        };
    }
    match str::from_utf8(token) {
        Ok(text) => number_in(text, low, high),
        Err(_) => None,
    }
}

impl<'a> Cursor<'a> {
    /// Returns the tokens of a line.
    pub fn new(line: &'a [u8]) -> Cursor<'a>
        ensures { result ≡ tokens line.entry.now }
    {
        Cursor { left: Some(line) }
    }

    /// Whether no token is left.
    pub fn is_empty(&self) -> bool
        ensures { result ≡ (length self.now == 0) }
    {
        self.left.is_none()
    }

    /// Takes the next token, if there is one.
    #[inline]
    pub fn next(&mut self) -> Option<&'a [u8]>
        ensures { MatchOption result ((self.old ≡ []) × (self.new ≡ []))
            (λ t. self.old ≡ t.now ∷ self.new) }
    {
        let left = self.left?;
        let (token, rest) = cut(left);
        self.left = rest;
        Some(token)
    }

    /// Takes the next token if it is this word, and returns whether it was.
    #[inline]
    pub fn skip(&mut self, word: &[u8]) -> bool
        requires { is_token word.now ≡ true }
        ensures { (result, self.new) ≡ skip word.now self.old }
    {
        let Some(left) = self.left else {
            return false;
        };
        let Some(behind) = left.strip_prefix(word) else {
            return false;
        };
        if behind.is_empty() {
            self.left = None;
            return true;
        }
        if behind[0] != b' ' {
            return false;
        }
        let (_, rest) = behind.split_at(1);
        self.left = Some(rest);
        true
    }

    /// Takes a word of this kind. `Missing` if no token is left, `UnknownWord` if the token is no such word.
    #[inline]
    #[tactic(auto, unfolding(crate::specs::inner::TokenReading::word_at))]
    pub fn word<W: Word>(&mut self) -> Result<W, LineFault>
        ensures { Reads result self.new (word_at W.text W.all self.old) }
    {
        let token = self.next().ok_or(LineFault::Missing)?;
        W::of(token).ok_or(LineFault::UnknownWord)
    }

    /// Takes a number in the range. `Missing` if no token is left, `BadNumber` if the token is no such number.
    #[inline(always)]
    #[tactic(auto, unfolding(crate::specs::inner::TokenReading::number_at))]
    pub fn number(&mut self, low: u16, high: u16) -> Result<u16, LineFault>
        ensures read { Reads result self.new (number_at low high self.old) }
        ensures range { IfOk result (λ n. (low ≤ n) × (n ≤ high)) }
    {
        let token = self.next().ok_or(LineFault::Missing)?;
        number_of(token, low, high).ok_or(LineFault::BadNumber)
    }
}
