//! The row that tells a scorer of an unknown word, with the known words near it.

ghost use Rattle.std.specs.Prelude.{◌≡◌, ◌++◌, OnOk, true};
ghost use Rattle.notation.specs.Written.{tokens};
ghost use Rattle.streams.specs.Watched.{Prints, TellsFailure};
ghost use Rattle.screen.specs.Near as near;

use notation::Tokens;
use streams::{Sink, Watched, WriteFailed};

/// The words that a scorer may type, and from the marks `b1`, `lb1`, `wd1` and `nb1`.
const VOCABULARY: &str =
    "wide wd nb lbw bowled caught stumped runout hitwicket hittwice obstructing striker other crossed b1 lb1 wd1 nb1 bat bye leg nbbye nbleg four six dot overthrow short dead over in innings home away gone retiredhurt retiredout timedout penalty swap end allout nobatter declared forfeited overs close void fix late again undo list score card players bowlers who plan help quit exit";

/// The most near words that are shown.
const MOST_NEAR: usize = 3;

/// Whether the token and the word have the same letters, in either case.
fn is_same(token: &[u8], word: &[u8]) -> bool
    ensures { result ≡ near.is_same token.now word.now }
{
    token.eq_ignore_ascii_case(word)
}

/// Whether the token is the word with its first two letters swapped, in either case.
fn is_swapped(token: &[u8], word: &[u8]) -> bool
    ensures { result ≡ near.is_swapped token.now word.now }
{
    let Some((first, behind)) = token.split_first() else {
        return false;
    };
    let Some((second, rest)) = behind.split_first() else {
        return false;
    };
    let Some((other, word_behind)) = word.split_first() else {
        return false;
    };
    let Some((next, word_rest)) = word_behind.split_first() else {
        return false;
    };
    first.to_ascii_lowercase() == *next
        && second.to_ascii_lowercase() == *other
        && is_same(rest, word_rest)
}

/// Whether the token is at most one slip away from the word, in either case of
/// letters: one letter replaced, added or left out, or two neighbours swapped.
fn one_off(token: &[u8], word: &[u8]) -> bool
    ensures { result ≡ near.one_off token.now word.now }
{
    let Some((first, behind)) = token.split_first() else {
        return word.len() <= 1;
    };
    let Some((other, word_behind)) = word.split_first() else {
        return behind.len() == 0;
    };
    if first.to_ascii_lowercase() == *other {
        return one_off(behind, word_behind);
    }
    is_same(behind, word_behind)
        || is_same(behind, word)
        || is_same(token, word_behind)
        || is_swapped(token, word)
}

/// Whether the token has two letters or more and the word begins with it, in either case.
fn is_beginning(token: &[u8], word: &[u8]) -> bool
    ensures { result ≡ near.is_beginning token.now word.now }
{
    if token.len() < 2 || word.len() < token.len() {
        return false;
    }
    is_same(token, &word[..token.len()])
}

/// Whether the word is near the token: another word, one slip away from it or begun by it.
fn is_near(token: &str, word: &str) -> bool
    ensures { result ≡ near.is_near token.now word.now }
{
    if token == word {
        return false;
    }
    one_off(token.as_bytes(), word.as_bytes()) || is_beginning(token.as_bytes(), word.as_bytes())
}

/// Prints a near word, after the heading if it is the first and after a comma if not.
fn print_word<W: Sink>(out: &mut Watched<W>, is_first: bool, word: &str) -> Result<(), WriteFailed>
    ensures text { OnOk result (Prints W.contents out.old out.new (near.before_near is_first ++ word.now)) }
    ensures failed { TellsFailure result out.old out.new }
{
    if is_first {
        write!(out, "; near: {word}")
    } else {
        write!(out, ", {word}")
    }
}

/// Prints the first of these words that are near the token, at most this many.
fn print_nearest<W: Sink>(
    out: &mut Watched<W>,
    token: &str,
    words: &mut Tokens<'_>,
    most: usize,
    is_first: bool,
) -> Result<(), WriteFailed>
    ensures text { OnOk result (Prints W.contents out.old out.new
        (near.near_text is_first (near.nearest most token.now words.old))) }
    ensures failed { TellsFailure result out.old out.new }
{
    let Some(word) = words.next() else {
        return Ok(());
    };
    if most == 0 {
        return Ok(());
    }
    if !is_near(token, word) {
        return print_nearest(out, token, words, most, is_first);
    }
    print_word(out, is_first, word)?;
    print_nearest(out, token, words, most - 1, false)
}

/// Returns the words among which near ones are searched.
#[tactic(auto, unfolding(crate::specs::Near::vocabulary))]
fn vocabulary() -> &'static str
    ensures { result.now ≡ near.vocabulary }
{
    VOCABULARY
}

/// Prints the words near the token, at most three.
fn print_all_near<W: Sink>(out: &mut Watched<W>, token: &str) -> Result<(), WriteFailed>
    ensures text { OnOk result (Prints W.contents out.old out.new
        (near.near_text true (near.nearest 3 token.now (tokens near.vocabulary)))) }
    ensures failed { TellsFailure result out.old out.new }
{
    print_nearest(out, token, &mut Tokens::new(vocabulary()), MOST_NEAR, true)
}

/// Prints that the token is an unknown word, with up to three words near it.
pub fn print_unknown<W: Sink>(out: &mut Watched<W>, token: &str) -> Result<(), WriteFailed>
    ensures text { OnOk result (Prints W.contents out.old out.new (near.unknown_text token.now)) }
    ensures failed { TellsFailure result out.old out.new }
{
    write!(out, "fault 2 UnknownWord: no word here is {token}")?;
    print_all_near(out, token)?;
    writeln!(out)
}
