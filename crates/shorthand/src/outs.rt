//! How a batter is out, in full.

ghost use Rattle.std.specs.Prelude.{◌≡◌, ◌∷◌};
ghost use Rattle.shorthand.specs.Lines.{plus_all};
ghost use Rattle.shorthand.specs.Full as full;
ghost use Rattle.shorthand.specs.Words as words;

use crate::line::Line;
use crate::names::{fielder, no_fielder};
use crate::rest::Rest;
use crate::unclear::{Unaided, Unclear};
use cards::MatchSheet;
use notation::Side;

/// Returns the way of being out that a short word stands for, or the word itself.
fn way_of(token: &str) -> &str
    ensures { result.now ≡ words.way_of token.now }
{
    match token {
        "c" | "ct" | "c&b" => "caught",
        "st" => "stumped",
        "ro" => "runout",
        _ => token,
    }
}

/// Whether the token is a way of being out, by its own word or a short one.
fn is_how(token: &str) -> bool
    ensures { result ≡ words.is_how token.now }
{
    matches!(
        way_of(token),
        "bowled"
            | "caught"
            | "lbw"
            | "stumped"
            | "hitwicket"
            | "hittwice"
            | "obstructing"
            | "runout"
    )
}

/// Whether the tokens are `run out` in two words.
fn is_run_out(token: &str, rest: &Rest<'_>) -> bool
    ensures { result ≡ words.is_run_out token.now rest.now }
{
    token == "run" && rest.has_next("out")
}

/// Whether the tokens are `hit wicket` in two words.
fn is_hit_wicket(token: &str, rest: &Rest<'_>) -> bool
    ensures { result ≡ words.is_hit_wicket token.now rest.now }
{
    token == "hit" && rest.has_next("wicket")
}

/// Whether the tokens are `& b`, as in `c & b`.
fn is_and_bowled(how: &str, token: &str, rest: &Rest<'_>) -> bool
    ensures { result ≡ words.is_and_bowled how.now token.now rest.now }
{
    how == "caught"
        && matches!(token, "&" | "and")
        && (rest.has_next("b") || rest.has_next("bowled"))
}

/// Whether the tokens begin the options or the dismissal.
pub fn is_behind_runs(token: &str, rest: &Rest<'_>) -> bool
    ensures { result ≡ full.is_behind_runs token.now rest.now }
{
    matches!(token, "short" | "overthrow" | "dead" | "out")
        || is_how(token)
        || is_run_out(token, rest)
        || is_hit_wicket(token, rest)
}

/// Returns the way of being out, if no fielder has a part in it.
fn without_fielder(how: &str) -> Option<Unaided>
    ensures { result ≡ words.without_fielder how.now }
{
    match how {
        "bowled" => Some(Unaided::Bowled),
        "lbw" => Some(Unaided::Lbw),
        _ => None,
    }
}

/// Returns the way of being out, if no fielder has a part in it and the token names one.
fn refused_fielder(how: &str, token: &str) -> Option<Unaided>
    ensures { result ≡ full.refused_fielder (words.without_fielder how.now) token.now }
{
    let how = without_fielder(how)?;
    if token == "0" { None } else { Some(how) }
}

/// Whether a line with this way of being out must say who is out.
fn needs_who(how: &str) -> bool
    ensures { result ≡ full.needs_who how.now }
{
    matches!(how, "runout" | "obstructing")
}

/// Writes a fielder and the other words, or that no fielder has a part in this way of being out.
fn fielder_word(
    line: &mut Line,
    sheet: &MatchSheet,
    side: Side,
    refused: Option<Unaided>,
    token: &str,
    rest: &mut Rest<'_>,
)
    ensures { line.new ≡ plus_all line.old (full.fielder_word sheet.now side refused token.now rest.old) }
{
    match refused {
        Some(how) => line.fail(no_fielder(how, token)),
        None => {
            fielder(line, sheet, side, token, rest);
            line.rest(rest);
        }
    }
}

/// Writes the fielder from this token on, 0 if none is named.
fn fielder_from(
    line: &mut Line,
    sheet: &MatchSheet,
    side: Side,
    bowler: &str,
    how: &str,
    token: &str,
    rest: &mut Rest<'_>,
)
    ensures { line.new ≡ plus_all line.old (full.by_fielder sheet.now side bowler.now how.now (token.now ∷ rest.old)) }
{
    if token == "crossed" {
        line.word("0");
        line.word(token);
        line.rest(rest);
    } else if is_and_bowled(how, token, rest) {
        rest.pass_one();
        line.word(bowler);
        line.rest(rest);
    } else {
        fielder_word(line, sheet, side, refused_fielder(how, token), token, rest);
    }
}

/// Writes the fielder, 0 if none is named.
fn by_fielder(
    line: &mut Line,
    sheet: &MatchSheet,
    side: Side,
    bowler: &str,
    how: &str,
    rest: &mut Rest<'_>,
)
    ensures { line.new ≡ plus_all line.old (full.by_fielder sheet.now side bowler.now how.now rest.old) }
{
    match rest.next() {
        Some(token) => fielder_from(line, sheet, side, bowler, how, token, rest),
        None => line.word("0"),
    }
}

/// Writes who is out, from this token on, and the fielder.
fn who_from(
    line: &mut Line,
    sheet: &MatchSheet,
    side: Side,
    bowler: &str,
    how: &str,
    token: &str,
    rest: &mut Rest<'_>,
)
    ensures { line.new
        ≡ plus_all line.old (full.who_is_out sheet.now side bowler.now how.now (token.now ∷ rest.old)) }
{
    if matches!(token, "striker" | "other") {
        line.word(token);
        by_fielder(line, sheet, side, bowler, how, rest);
    } else if needs_who(how) {
        line.fail(Unclear::WhoIsOut);
    } else {
        line.word("striker");
        fielder_from(line, sheet, side, bowler, how, token, rest);
    }
}

/// Writes who is out in this way, and the fielder.
fn who_is_out(
    line: &mut Line,
    sheet: &MatchSheet,
    side: Side,
    bowler: &str,
    how: &str,
    rest: &mut Rest<'_>,
)
    ensures { line.new ≡ plus_all line.old (full.who_is_out sheet.now side bowler.now how.now rest.old) }
{
    match rest.next() {
        Some(token) => who_from(line, sheet, side, bowler, how, token, rest),
        None => {
            if !needs_who(how) {
                line.word("striker");
                line.word("0");
            }
        }
    }
}

/// Writes how a batter is out, from this token on, who is out, and the fielder.
fn dismissal_from(
    line: &mut Line,
    sheet: &MatchSheet,
    side: Side,
    bowler: &str,
    token: &str,
    rest: &mut Rest<'_>,
)
    ensures { line.new ≡ plus_all line.old (full.dismissal sheet.now side bowler.now (token.now ∷ rest.old)) }
{
    let how = way_of(token);
    line.word(how);
    if token == "c&b" {
        line.word("striker");
        line.word(bowler);
        line.rest(rest);
    } else {
        who_is_out(line, sheet, side, bowler, how, rest);
    }
}

/// Writes what follows `out`.
fn dismissal(line: &mut Line, sheet: &MatchSheet, side: Side, bowler: &str, rest: &mut Rest<'_>)
    ensures { line.new ≡ plus_all line.old (full.dismissal sheet.now side bowler.now rest.old) }
{
    if let Some(token) = rest.next() {
        dismissal_from(line, sheet, side, bowler, token, rest);
    }
}

/// Writes a way of being out whose second word comes next, who is out, and the fielder.
fn out_apart(
    line: &mut Line,
    sheet: &MatchSheet,
    side: Side,
    bowler: &str,
    how: &str,
    rest: &mut Rest<'_>,
)
    ensures { line.new
        ≡ plus_all line.old (full.out_apart sheet.now side bowler.now how.now (words.behind_one rest.old)) }
{
    rest.pass_one();
    line.word("out");
    line.word(how);
    who_is_out(line, sheet, side, bowler, how, rest);
}

/// Writes what follows the runs, from this token on. `bowler` is the bowler's number.
pub fn behind_runs_from(
    line: &mut Line,
    sheet: &MatchSheet,
    side: Side,
    bowler: &str,
    token: &str,
    rest: &mut Rest<'_>,
)
    ensures { line.new ≡ plus_all line.old (full.behind_runs sheet.now side bowler.now (token.now ∷ rest.old)) }
{
    if token == "out" {
        line.word(token);
        dismissal(line, sheet, side, bowler, rest);
    } else if is_how(token) {
        line.word("out");
        dismissal_from(line, sheet, side, bowler, token, rest);
    } else if is_run_out(token, rest) {
        out_apart(line, sheet, side, bowler, "runout", rest);
    } else if is_hit_wicket(token, rest) {
        out_apart(line, sheet, side, bowler, "hitwicket", rest);
    } else {
        line.word(token);
        if let Some(next) = rest.next() {
            behind_runs_from(line, sheet, side, bowler, next, rest);
        }
    }
}

/// Writes what follows the runs: the options and the dismissal. `bowler` is the bowler's number.
pub fn behind_runs(
    line: &mut Line,
    sheet: &MatchSheet,
    side: Side,
    bowler: &str,
    rest: &mut Rest<'_>,
)
    ensures { line.new ≡ plus_all line.old (full.behind_runs sheet.now side bowler.now rest.old) }
{
    if let Some(token) = rest.next() {
        behind_runs_from(line, sheet, side, bowler, token, rest);
    }
}
