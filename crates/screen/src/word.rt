//! The words by which a scorer asks for something, and which write no entry.

ghost use Rattle.std.specs.Prelude.{◌≡◌, drop, option_map};
ghost use Rattle.notation.specs.Written.{found_number};
ghost use Rattle.cards.specs.Sheet as sheets;
ghost use Rattle.std.specs.List.{list_all};
ghost use Rattle.screen.specs.Words as words;

use crate::topic::{Topic, topic_of};
use notation::{Side, Tokens, number_in};
use std::str;

/// How many entries `list` shows if no number is given.
const LISTED: u32 = 12;

/// The largest number that `list` takes.
const MOST_LISTED: u16 = 8192;

/// The last place of a book.
const LAST_PLACE: u16 = 8191;

/// What a scorer asks for beside entries. None of it is written down.
#[derive(Clone, Copy)]
pub enum Word {
    /// An empty line: where the match and the desk stand.
    Where,
    /// `list`: the last entries of the book, this many.
    Entries(u32),
    /// `list` with two places: the entries from the first to the last of them.
    Range(u32, u32),
    /// `over` with a number: the entries of this over of the innings begun last.
    Over(u32),
    /// `over` with a number, a side and 1 or 2: the entries of this over of the side's first or second innings.
    OverOf(u32, Side, u8),
    /// `score`: the check of an over.
    Total,
    /// `card`: both cards of the innings begun last.
    Cards,
    /// `card` with a number: both cards of this innings.
    CardsOf(u8),
    /// `players`: both sides.
    Sides,
    /// `bowlers`: who may bowl the next delivery.
    Bowlers,
    /// `who`: the batting side's players who are neither out nor in.
    Waiting,
    /// `plan` with corrections after it: the lines by which the book comes to have these corrections.
    Plan,
    /// `go on`: a held-up desk goes on with its file as it is.
    GoOn,
    /// `help`: the forms of all lines.
    Forms,
    /// `help` with a word: what this word does.
    More(Topic),
}

/// Returns what a line of one token asks for.
fn single(token: &str) -> Option<Word>
    ensures { result ≡ words.single token.now }
{
    if token.len() == 0 {
        return Some(Word::Where);
    }
    match token {
        "list" => Some(Word::Entries(LISTED)),
        "score" => Some(Word::Total),
        "card" => Some(Word::Cards),
        "players" => Some(Word::Sides),
        "bowlers" => Some(Word::Bowlers),
        "who" => Some(Word::Waiting),
        "help" => Some(Word::Forms),
        "plan" => Some(Word::More(Topic::Plan)),
        _ => None,
    }
}

/// Returns what `list` with this token asks for: a number from 1 to 8192.
fn listed(token: &str) -> Option<Word>
    ensures { result ≡ option_map Word.Entries (found_number 1 8192 token.now) }
{
    let count = number_in(token, 1, MOST_LISTED)?;
    Some(Word::Entries(u32::from(count)))
}

/// Returns what `card` with this token asks for: a number from 1 to 4.
fn carded(token: &str) -> Option<Word>
    ensures { result ≡ option_map Word.CardsOf (found_number 1 4 token.now) }
{
    let number = number_in(token, 1, 4)?;
    Some(Word::CardsOf(number as u8))
}

/// Returns what `list` with these tokens asks for: two places, each from 0 to 8191.
fn ranged(first: &str, last: &str) -> Option<Word>
    ensures { result ≡ words.range (found_number 0 8191 first.now) (found_number 0 8191 last.now) }
{
    let first = number_in(first, 0, LAST_PLACE)?;
    let last = number_in(last, 0, LAST_PLACE)?;
    Some(Word::Range(u32::from(first), u32::from(last)))
}

/// Returns what `over` with this token asks for: a number from 1 to 8191.
fn numbered(token: &str) -> Option<Word>
    ensures { result ≡ option_map Word.Over (found_number 1 8191 token.now) }
{
    let number = number_in(token, 1, LAST_PLACE)?;
    Some(Word::Over(u32::from(number)))
}

/// Returns the side that a token names, `home` or `away`.
fn side_in(token: &str) -> Option<Side>
    ensures { result ≡ words.side_in token.now }
{
    match token {
        "home" => Some(Side::Home),
        "away" => Some(Side::Away),
        _ => None,
    }
}

/// Returns what `over` with these tokens asks for: a number from 1 to 8191, a side, and 1 or 2.
fn numbered_of(number: &str, side: &str, innings: &str) -> Option<Word>
    ensures { result ≡ words.over_of (found_number 1 8191 number.now) (words.side_in side.now) (found_number 1 2 innings.now) }
{
    let number = number_in(number, 1, LAST_PLACE)?;
    let side = side_in(side)?;
    let innings = number_in(innings, 1, 2)?;
    Some(Word::OverOf(u32::from(number), side, innings as u8))
}

/// Returns what a line of four tokens asks for.
fn quadruple(token: &str, next: &str, third: &str, fourth: &str) -> Option<Word>
    ensures { result ≡ words.quadruple token.now next.now third.now fourth.now }
{
    match token {
        "over" => numbered_of(next, third, fourth),
        _ => None,
    }
}

/// Returns what a line of three tokens asks for.
fn triple(token: &str, next: &str, third: &str) -> Option<Word>
    ensures { result ≡ words.triple token.now next.now third.now }
{
    match token {
        "list" => ranged(next, third),
        _ => None,
    }
}

/// Returns what `help` with this token asks for.
fn more(token: &str) -> Option<Word>
    ensures { result ≡ option_map Word.More (words.topic_of token.now) }
{
    Some(Word::More(topic_of(token)?))
}

/// Returns what `go` with this token asks for.
fn going(token: &str) -> Option<Word>
    ensures { result ≡ words.going token.now }
{
    match token {
        "on" => Some(Word::GoOn),
        _ => None,
    }
}

/// Returns what a line of two tokens asks for.
fn pair(token: &str, next: &str) -> Option<Word>
    ensures { result ≡ words.pair token.now next.now }
{
    match token {
        "list" => listed(next),
        "card" => carded(next),
        "over" => numbered(next),
        "go" => going(next),
        "help" => more(next),
        _ => None,
    }
}

/// Returns what a line of two tokens or more asks for.
fn several(token: &str, next: &str, tokens: &mut Tokens<'_>) -> Option<Word>
    ensures { result ≡ words.several token.now next.now tokens.old }
{
    let Some(third) = tokens.next() else {
        return pair(token, next);
    };
    let Some(fourth) = tokens.next() else {
        return triple(token, next, third);
    };
    if tokens.is_empty() {
        quadruple(token, next, third, fourth)
    } else {
        None
    }
}

/// Returns what a line of these tokens asks for.
fn word_from(tokens: &mut Tokens<'_>) -> Option<Word>
    ensures { result ≡ words.word_from tokens.old }
{
    let token = tokens.next()?;
    let Some(next) = tokens.next() else {
        return single(token);
    };
    if token == "plan" {
        return Some(Word::Plan);
    }
    several(token, next, tokens)
}

/// Returns a line without the blanks at its end.
fn trimmed(line: &[u8]) -> &[u8]
    ensures { result.now ≡ words.trimmed line.now }
{
    line.trim_ascii_end()
}

/// Whether a line is printable ASCII.
fn is_plain(line: &[u8]) -> bool
    ensures { result ≡ list_all sheets.is_printable line.now }
{
    line.iter().all(|byte| *byte >= 32 && *byte <= 126)
}

/// Returns all but the first `count` bytes of a text.
fn behind(text: &[u8], count: usize) -> &[u8]
    ensures { result.now ≡ drop count text.now }
{
    if text.len() < count {
        return &text[text.len()..];
    }
    &text[count..]
}

/// Returns a text if it is printable ASCII, and the empty text if not.
fn plain(text: &[u8]) -> &str
    ensures { result.now ≡ words.plain text.now }
{
    if !is_plain(text) {
        return "";
    }
    match str::from_utf8(text) {
        Ok(text) => text,
        Err(_) => "",
    }
}

/// Returns what follows `plan ` in a line that begins with it.
pub fn behind_plan(line: &[u8]) -> &str
    ensures { result.now ≡ words.behind_plan line.now }
{
    plain(behind(trimmed(line), 5))
}

/// Returns what a line without blanks at its end asks for.
fn asked(line: &[u8]) -> Option<Word>
    ensures { result ≡ words.asked line.now }
{
    if !is_plain(line) {
        return None;
    }
    match str::from_utf8(line) {
        Ok(text) => word_from(&mut Tokens::new(text)),
        Err(_) => None,
    }
}

/// Returns what a line asks for if it is one of these words, with any blanks at its end.
#[tactic(auto, unfolding(crate::specs::Words::word_of))]
pub fn word_of(line: &[u8]) -> Option<Word>
    ensures { result ≡ words.word_of line.now }
{
    asked(trimmed(line))
}

/// Whether the line ends the desk: `quit` or `exit`, with any blanks at its end.
#[tactic(auto, unfolding(crate::specs::Words::is_end))]
pub fn is_end(line: &[u8]) -> bool
    ensures { result ≡ words.is_end line.now }
{
    let word = trimmed(line);
    word == b"quit".as_slice() || word == b"exit".as_slice()
}
