//! The words left of a line, which can be looked at before they are taken.

ghost use Rattle.std.specs.Prelude.{◌≡◌, ◌∷◌, [], MatchOption};
ghost use Rattle.notation.specs.Written.{tokens};
ghost use Rattle.shorthand.specs.Words as words;

use notation::cut;
use std::marker::Model;

/// The tokens that are left of a line: its pieces between spaces.
#[derive(Drop)]
pub struct Rest<'a> {
    text: Option<&'a str>,
}

impl<'a> Model for Rest<'a> {
    ghost use Rattle.std.specs.Prelude.{List, ℕ};
    ghost use Rattle.notation.specs.inner.Cursor.{tokens_left};

    ghost Value = { List (List ℕ) };

    ghost view = { λ r. tokens_left r.text };
}

impl<'a> Rest<'a> {
    /// Returns all tokens of a line.
    pub fn of(line: &'a str) -> Rest<'a>
        ensures { result ≡ tokens line.entry.now }
    {
        Rest { text: Some(line) }
    }

    /// Returns no tokens.
    pub fn nothing() -> Rest<'a>
        ensures { result ≡ [] }
    {
        Rest { text: None }
    }

    /// Returns the same tokens, to be looked at without taking them.
    pub fn ahead(&self) -> Rest<'a>
        ensures { result ≡ self.now }
    {
        Rest { text: self.text }
    }

    /// Takes the next token, if there is one.
    pub fn next(&mut self) -> Option<&'a str>
        ensures { MatchOption result ((self.old ≡ []) × (self.new ≡ [])) (λ t. self.old ≡ t.now ∷ self.new) }
    {
        let text = self.text?;
        let (token, rest) = cut(text);
        self.text = rest;
        Some(token)
    }

    /// Skips the next token.
    pub fn pass_one(&mut self)
        ensures { self.new ≡ words.behind_one self.old }
    {
        let _ = self.next();
    }

    /// Whether this word comes next.
    pub fn has_next(&self, word: &str) -> bool
        ensures { result ≡ words.has_next word.now self.now }
    {
        let mut ahead = self.ahead();
        match ahead.next() {
            Some(token) => token == word,
            None => false,
        }
    }
}
