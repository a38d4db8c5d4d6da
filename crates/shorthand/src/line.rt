//! A line that is written word by word.

ghost use Rattle.std.specs.Prelude.{◌≡◌, ◌≤◌, [], decimal, Ok, Err, IfOk, IsErr, MatchOption, MatchResult};
ghost use Rattle.notation.specs.Written.{IsEntry, text_of};
ghost use Rattle.shorthand.specs.Lines.{as_typed, plus, plus_all, reason_of};
ghost use Rattle.shorthand.specs.Full as full;

use crate::rest::Rest;
use crate::unclear::Unclear;
use crate::unknown::why_refused;
use arrayvec::ArrayString;
use itoa::Buffer;
use notation::{Entry, LineFault, LineText, read_line};
use std::marker::Model;

/// A line of at most 96 bytes, or the reason why there is none.
#[derive(Drop)]
pub struct Line {
    text: LineText,
    unclear: Option<Unclear>,
}

impl Model for Line {
    ghost use Rattle.std.specs.Prelude.{List, ℕ, Result};
    ghost use Rattle.shorthand.specs.Lines.{Reason};
    ghost use Rattle.shorthand.specs.inner.Writing.{text_or_reason};

    ghost Value = { Result (List ℕ) Reason };

    ghost view = { λ l. text_or_reason (l.text).bytes l.unclear };
}

/// Returns the digits of a player's number or of a substitute's, 0 to 12.
#[tactic(auto, using(crate::proofs::Numerals::to_twelve))]
pub fn digits(number: u8) -> &'static str
    requires { number ≤ 12 }
    ensures { result.now ≡ decimal number }
{
    match number {
        0 => "0",
        1 => "1",
        2 => "2",
        3 => "3",
        4 => "4",
        5 => "5",
        6 => "6",
        7 => "7",
        8 => "8",
        9 => "9",
        10 => "10",
        11 => "11",
        _ => "12",
    }
}

impl Line {
    /// Returns a line without words.
    pub fn new() -> Line
        ensures { result ≡ Ok [] }
    {
        Line {
            text: ArrayString::new(),
            unclear: None,
        }
    }

    /// Returns a line of one word.
    pub fn of(word: &str) -> Line
        ensures { result ≡ plus (Ok []) (Ok word.now) }
    {
        let mut line = Line::new();
        line.word(word);
        line
    }

    /// Returns a copy of the line with one word more.
    pub fn with(&self, word: &str) -> Line
        ensures { result ≡ plus self.now (Ok word.now) }
    {
        let mut line = Line {
            text: self.text,
            unclear: self.unclear,
        };
        line.word(word);
        line
    }

    /// Returns the text, unless there is a reason against it.
    pub fn text(&self) -> Option<&str>
        ensures { MatchOption result (IsErr self.now) (λ text. self.now ≡ Ok text.now) }
    {
        match self.unclear {
            Some(_) => None,
            None => Some(self.text.as_str()),
        }
    }

    /// Adds a word after a space, if the line stays within 96 bytes; else notes that it is too long.
    pub fn word(&mut self, word: &str)
        ensures { self.new ≡ plus self.old (Ok word.now) }
    {
        if self.unclear.is_some() {
            return;
        }
        let space = if self.text.is_empty() { 0 } else { 1 };
        if self.text.len() + space + word.len() > 96 {
            self.unclear = Some(Unclear::Fault(LineFault::TooLong));
            return;
        }
        if !self.text.is_empty() {
            self.text.push(' ');
        }
        self.text.push_str(word);
    }

    /// Notes why there is no line, unless a reason is noted already.
    pub fn fail(&mut self, unclear: Unclear)
        ensures { self.new ≡ plus self.old (Err (reason_of unclear)) }
    {
        if self.unclear.is_none() {
            self.unclear = Some(unclear);
        }
    }

    /// Adds a player's number.
    pub fn number(&mut self, number: u8)
        requires { number ≤ 12 }
        ensures { self.new ≡ plus self.old (Ok (decimal number)) }
    {
        self.word(digits(number));
    }

    /// Adds a place.
    pub fn place(&mut self, place: u32)
        ensures { self.new ≡ plus self.old (Ok (decimal place)) }
    {
        let mut buffer = Buffer::new();
        self.word(buffer.format(place));
    }

    /// Adds the words that are left as they were typed.
    pub fn rest(&mut self, words: &mut Rest<'_>)
        ensures { self.new ≡ plus_all self.old (as_typed words.old) }
    {
        if let Some(word) = words.next() {
            self.word(word);
            self.rest(words);
        }
    }

    /// Returns the text, or why there is none.
    fn done(self) -> Result<LineText, Unclear>
        ensures { MatchResult result (λ text. self ≡ Ok text.bytes)
            (λ unclear. self ≡ Err (reason_of unclear)) }
    {
        match self.unclear {
            Some(unclear) => Err(unclear),
            None => Ok(self.text),
        }
    }

    /// Returns the entry of the line, or why it means none.
    pub fn entry(self) -> Result<Entry, Unclear>
        ensures value { MatchResult result (λ entry. full.read_full (full.with_words self) ≡ Ok entry)
            (λ unclear. full.read_full (full.with_words self) ≡ Err (reason_of unclear)) }
        ensures entry { IfOk result (λ entry. IsEntry entry × (full.with_words self ≡ Ok (text_of entry))) }
    {
        let text = self.done()?;
        match read_line(text.as_str().as_bytes()) {
            Ok(entry) => Ok(entry),
            Err(fault) => Err(why_refused(text.as_str(), fault)),
        }
    }
}
