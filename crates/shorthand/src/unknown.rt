//! The word for which a line is refused as unknown.

ghost use Rattle.std.specs.Prelude.{◌≡◌, Err, None, Some, MatchOption};
ghost use Rattle.notation.specs.Reading.{line_answer};
ghost use Rattle.shorthand.specs.Lines.{reason_of};
ghost use Rattle.shorthand.specs.Full as full;
ghost use Rattle.shorthand.specs.Words as words;

use crate::line::Line;
use crate::names::unknown_word;
use crate::rest::Rest;
use crate::unclear::Unclear;
use notation::{LineFault, read_line};

/// Whether the line, if it ended here, would be refused for an unknown word.
fn is_cut_there(front: &Line) -> bool
    ensures { result ≡ full.is_cut_there front.now }
{
    match front.text() {
        Some(text) => matches!(read_line(text.as_bytes()), Err(LineFault::UnknownWord)),
        None => false,
    }
}

/// Returns the first word at which the line, if it ended there, would be refused for an unknown word.
fn word_from<'a>(front: &Line, rest: &Rest<'a>) -> Option<&'a str>
    ensures { MatchOption result (full.word_from front.now rest.now ≡ None)
        (λ word. full.word_from front.now rest.now ≡ Some word.now) }
{
    let mut behind = rest.ahead();
    let token = behind.next()?;
    let longer = front.with(token);
    if is_cut_there(&longer) {
        Some(token)
    } else {
        word_from(&longer, &behind)
    }
}

/// Whether the token is one of a desk's words that write no entry.
fn is_desk_word(token: &str) -> bool
    ensures { result ≡ words.is_desk_word token.now }
{
    matches!(
        token,
        "list" | "score" | "card" | "players" | "bowlers" | "who" | "help" | "quit" | "exit"
    )
}

/// Whether the token begins a line, or is one of a desk's words.
pub fn is_line_word(token: &str) -> bool
    ensures { result ≡ words.is_line_word token.now }
{
    matches!(
        token,
        "innings"
            | "in"
            | "ball"
            | "gone"
            | "over"
            | "penalty"
            | "swap"
            | "end"
            | "close"
            | "void"
            | "fix"
            | "late"
            | "again"
    ) || is_desk_word(token)
}

/// Returns the second word, if the first is one of a desk's words.
fn asked_for<'a>(rest: &Rest<'a>) -> Option<&'a str>
    ensures { MatchOption result (full.asked_for rest.now ≡ None) (λ word. full.asked_for rest.now ≡ Some word.now) }
{
    let mut behind = rest.ahead();
    let token = behind.next()?;
    let next = behind.next()?;
    if is_desk_word(token) {
        Some(next)
    } else {
        None
    }
}

/// Returns the unknown word for which a text with this fault is refused, if there is one.
fn lacking(text: &str, fault: LineFault) -> Option<&str>
    requires { line_answer text.now ≡ Err fault }
    ensures { MatchOption result (full.lacking text.now ≡ None) (λ word. full.lacking text.now ≡ Some word.now) }
{
    if !matches!(fault, LineFault::UnknownWord) {
        return None;
    }
    let words = Rest::of(text);
    match asked_for(&words) {
        Some(word) => Some(word),
        None => word_from(&Line::new(), &words),
    }
}

/// Returns why a text with this fault is no entry's: the unknown word if it is refused for one, else the fault.
pub fn why_refused(text: &str, fault: LineFault) -> Unclear
    requires { line_answer text.now ≡ Err fault }
    ensures { full.read_full (full.or_word text.now (full.lacking text.now)) ≡ Err (reason_of result) }
{
    match lacking(text, fault) {
        Some(word) => unknown_word(word),
        None => Unclear::Fault(fault),
    }
}
