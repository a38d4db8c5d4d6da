//! Batters who come in or leave, in full.

ghost use Rattle.std.specs.Prelude.{◌≡◌, ◌∷◌, None, Some, MatchOption};
ghost use Rattle.shorthand.specs.Lines.{plus_all};
ghost use Rattle.shorthand.specs.Full as full;
ghost use Rattle.shorthand.specs.Words as words;

use crate::line::Line;
use crate::names::{Among, player};
use crate::rest::Rest;
use cards::MatchSheet;
use notation::Side;

/// Writes a batter's number, and the other words as typed.
pub fn batter_first(
    line: &mut Line,
    sheet: &MatchSheet,
    side: Side,
    among: &Among,
    rest: &mut Rest<'_>,
)
    ensures { line.new ≡ plus_all line.old (full.batter_first sheet.now side among.now rest.old) }
{
    if let Some(token) = rest.next() {
        player(line, sheet, side, among, token, rest);
        line.rest(rest);
    }
}

/// Writes the number of a batter who leaves in this way, and the other words as typed.
fn leaver(
    line: &mut Line,
    sheet: &MatchSheet,
    side: Side,
    among: &Among,
    how: &str,
    rest: &mut Rest<'_>,
)
    ensures { line.new
        ≡ plus_all line.old (full.batter_first sheet.now side (full.leavers how.now among.now) rest.old) }
{
    if how == "timedout" {
        batter_first(line, sheet, side, &Among::Anyone, rest);
    } else {
        batter_first(line, sheet, side, among, rest);
    }
}

/// Returns the way of leaving that two words say.
fn leave_apart(token: &str, rest: &Rest<'_>) -> Option<&'static str>
    ensures { MatchOption result (words.leave_apart token.now rest.now ≡ None)
        (λ how. words.leave_apart token.now rest.now ≡ Some how.now) }
{
    if token == "retired" && rest.has_next("hurt") {
        Some("retiredhurt")
    } else if token == "retired" && rest.has_next("out") {
        Some("retiredout")
    } else if token == "timed" && rest.has_next("out") {
        Some("timedout")
    } else {
        None
    }
}

/// Whether the tokens begin with a way of leaving, in one word or two.
pub fn is_leave(token: &str, rest: &Rest<'_>) -> bool
    ensures { result ≡ words.is_leave token.now rest.now }
{
    matches!(token, "retiredhurt" | "retiredout" | "timedout") || leave_apart(token, rest).is_some()
}

/// Writes how a batter leaves, from this token on, his number, and the other words as typed.
pub fn left_from(
    line: &mut Line,
    sheet: &MatchSheet,
    side: Side,
    among: &Among,
    token: &str,
    rest: &mut Rest<'_>,
)
    ensures { line.new ≡ plus_all line.old (full.left_so sheet.now side among.now (token.now ∷ rest.old)) }
{
    match leave_apart(token, rest) {
        Some(how) => {
            rest.pass_one();
            line.word(how);
            leaver(line, sheet, side, among, how, rest);
        }
        None => {
            line.word(token);
            leaver(line, sheet, side, among, token, rest);
        }
    }
}

/// Writes how a batter leaves, his number, and the other words as typed.
pub fn left_so(line: &mut Line, sheet: &MatchSheet, side: Side, among: &Among, rest: &mut Rest<'_>)
    ensures { line.new ≡ plus_all line.old (full.left_so sheet.now side among.now rest.old) }
{
    if let Some(token) = rest.next() {
        left_from(line, sheet, side, among, token, rest);
    }
}
