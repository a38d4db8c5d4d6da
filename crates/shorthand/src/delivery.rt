//! The full form of a delivery: its bowler and its outcome, which is the runs, the options and the dismissal.

ghost use Rattle.std.specs.Prelude.{◌≡◌, ◌∷◌, [], Ok};
ghost use Rattle.cards.specs.Sheet.{team_of};
ghost use Rattle.shorthand.specs.Lines as lines;
ghost use Rattle.shorthand.specs.Lines.{known, plus, plus_all};
ghost use Rattle.shorthand.specs.declared.names.Among.TheVariants.{Anyone};
ghost use Rattle.shorthand.specs.Full as full;
ghost use Rattle.shorthand.specs.Marks as marks;
ghost use Rattle.shorthand.specs.Names as names;
ghost use Rattle.shorthand.specs.Words as words;

use crate::line::{Line, digits};
use crate::marks::{kind_word, mark};
use crate::names::{
    Among, Found, colon_name, is_digit_first, named, named_bowler, number_word, player,
};
use crate::outs::{behind_runs, behind_runs_from, is_behind_runs};
use crate::rest::Rest;
use crate::unclear::{Letter, Unclear};
use crate::unknown::is_line_word;
use cards::MatchSheet;
use match_laws::opponent;
use notation::{Player, Side};

/// Who bowls and who bats at a point of a match.
#[derive(Clone, Copy)]
pub struct Point {
    /// The bowler of the last delivery of the open over, if it has one.
    pub bowler: Option<Player>,
    /// The side whose innings began last; home before any innings.
    pub batting: Side,
}

/// Whether a number comes next.
fn has_number(rest: &Rest<'_>) -> bool
    ensures { result ≡ full.has_number rest.now }
{
    let mut ahead = rest.ahead();
    match ahead.next() {
        Some(token) => is_digit_first(token),
        None => false,
    }
}

/// Writes the runs of a kind, 0 if no number follows, and what follows the runs.
fn from_none(line: &mut Line, sheet: &MatchSheet, side: Side, bowler: &str, rest: &mut Rest<'_>)
    ensures { line.new ≡ plus_all line.old (full.from_none sheet.now side bowler.now rest.old) }
{
    if !has_number(rest) {
        line.word("0");
    }
    behind_runs(line, sheet, side, bowler, rest);
}

/// Writes a delivery's outcome, if the token is neither a mark nor another word for a kind.
fn unmarked(
    line: &mut Line,
    sheet: &MatchSheet,
    side: Side,
    bowler: &str,
    token: &str,
    rest: &mut Rest<'_>,
)
    ensures { line.new ≡ plus_all line.old (full.unmarked sheet.now side bowler.now token.now rest.old) }
{
    if is_behind_runs(token, rest) {
        line.word("bat");
        line.word("0");
    }
    behind_runs_from(line, sheet, side, bowler, token, rest);
}

/// Whether the tokens are `no ball` in two words.
fn is_no_ball(token: &str, rest: &Rest<'_>) -> bool
    ensures { result ≡ words.is_no_ball token.now rest.now }
{
    token == "no" && rest.has_next("ball")
}

/// Writes a delivery's outcome, if the token is no mark.
fn by_kind(
    line: &mut Line,
    sheet: &MatchSheet,
    side: Side,
    bowler: &str,
    token: &str,
    rest: &mut Rest<'_>,
)
    ensures { line.new ≡ plus_all line.old (full.by_kind sheet.now side bowler.now token.now rest.old) }
{
    if matches!(token, "wd" | "wide") {
        line.word("wide");
        from_none(line, sheet, side, bowler, rest);
    } else if matches!(token, "nb" | "noball") {
        line.word("nb");
        from_none(line, sheet, side, bowler, rest);
    } else if is_no_ball(token, rest) {
        rest.pass_one();
        line.word("nb");
        from_none(line, sheet, side, bowler, rest);
    } else if token == "lb" && has_number(rest) {
        line.word("leg");
        behind_runs(line, sheet, side, bowler, rest);
    } else {
        unmarked(line, sheet, side, bowler, token, rest);
    }
}

/// Writes a delivery's outcome, if the token is no letter that means two things.
fn marked_from(
    line: &mut Line,
    sheet: &MatchSheet,
    side: Side,
    bowler: &str,
    token: &str,
    rest: &mut Rest<'_>,
)
    ensures { line.new ≡ plus_all line.old (full.marked sheet.now side bowler.now (marks.mark token.now) token.now rest.old) }
{
    match mark(token) {
        Some((kind, runs)) => {
            line.word(kind_word(kind));
            line.word(runs.word());
            behind_runs(line, sheet, side, bowler, rest);
        }
        None => by_kind(line, sheet, side, bowler, token, rest),
    }
}

/// Returns the letter that the token is, if scorers use it for two things.
fn two_meanings(token: &str) -> Option<Letter>
    ensures { result ≡ words.two_meanings token.now }
{
    match token {
        "b" => Some(Letter::B),
        "w" => Some(Letter::W),
        _ => None,
    }
}

/// Writes a delivery's outcome, from this token on.
#[tactic(auto, unfolding(crate::specs::Full::runs_from))]
fn runs_from(
    line: &mut Line,
    sheet: &MatchSheet,
    side: Side,
    bowler: &str,
    token: &str,
    rest: &mut Rest<'_>,
)
    ensures { line.new ≡ plus_all line.old (full.runs_from sheet.now side bowler.now token.now rest.old) }
{
    match two_meanings(token) {
        Some(letter) => line.fail(Unclear::TwoMeanings(letter)),
        None => marked_from(line, sheet, side, bowler, token, rest),
    }
}

/// Writes a delivery's outcome.
pub fn runs(line: &mut Line, sheet: &MatchSheet, side: Side, bowler: &str, rest: &mut Rest<'_>)
    ensures { line.new ≡ plus_all line.old (full.runs sheet.now side bowler.now rest.old) }
{
    if let Some(token) = rest.next() {
        runs_from(line, sheet, side, bowler, token, rest);
    }
}

/// Writes a delivery's outcome; `token` is what follows the bowler's colon without a space, and may be empty.
fn runs_behind_colon(
    line: &mut Line,
    sheet: &MatchSheet,
    side: Side,
    bowler: &str,
    token: &str,
    rest: &mut Rest<'_>,
)
    ensures { line.new ≡ plus_all line.old (full.runs sheet.now side bowler.now (full.behind_colon token.now rest.old)) }
{
    if token.is_empty() {
        runs(line, sheet, side, bowler, rest);
    } else {
        runs_from(line, sheet, side, bowler, token, rest);
    }
}

/// Whether the token is a kind, by its own word or another.
fn is_kind(token: &str) -> bool
    ensures { result ≡ full.is_kind token.now }
{
    matches!(
        token,
        "wd" | "noball" | "lb" | "bat" | "bye" | "leg" | "wide" | "nb" | "nbbye" | "nbleg"
    )
}

/// Whether the tokens begin a delivery's outcome.
#[tactic(auto, unfolding(crate::specs::Full::begins_delivery))]
fn begins_delivery(token: &str, rest: &Rest<'_>) -> bool
    ensures { result ≡ full.begins_delivery token.now rest.now }
{
    mark(token).is_some()
        || is_kind(token)
        || is_no_ball(token, rest)
        || is_behind_runs(token, rest)
}

/// Whether a delivery's outcome comes next, or a letter that means two things.
fn has_delivery(rest: &Rest<'_>) -> bool
    ensures { result ≡ full.has_delivery rest.now }
{
    let mut ahead = rest.ahead();
    match ahead.next() {
        Some(token) => begins_delivery(token, &ahead) || two_meanings(token).is_some(),
        None => false,
    }
}

/// Writes the number of the last delivery's bowler, or that it isn't clear who bowls. Returns the number, 0 if there is none.
fn same_bowler(line: &mut Line, bowler: Option<Player>) -> &'static str
    ensures word { line.new ≡ plus line.old (full.same_bowler bowler) }
    ensures number { result.now ≡ known (full.same_bowler bowler) }
{
    match bowler {
        Some(player) => {
            let number = digits(player.number());
            line.word(number);
            number
        }
        None => {
            line.fail(Unclear::WhoBowls);
            "0"
        }
    }
}

/// Writes a line's words as they were typed.
fn as_typed(line: &mut Line, token: &str, rest: &mut Rest<'_>)
    ensures { line.new ≡ plus_all line.old (lines.as_typed (token.now ∷ rest.old)) }
{
    line.word(token);
    line.rest(rest);
}

/// Whether a name means someone.
fn is_someone(found: &Found) -> bool
    ensures { result ≡ full.is_someone found.now }
{
    !matches!(found, Found::NoOne)
}

/// Writes a delivery that begins with its bowler's name and no colon, or any other line as typed.
fn spoken(line: &mut Line, sheet: &MatchSheet, side: Side, token: &str, rest: &mut Rest<'_>)
    ensures { line.new ≡ plus_all line.old (full.spoken sheet.now side token.now rest.old
        (names.named (team_of sheet.now side) Anyone token.now rest.old)) }
{
    let mut behind = rest.ahead();
    let found = named(sheet, side, &Among::Anyone, token, &mut behind);
    if has_delivery(&behind) && is_someone(&found) {
        line.word("ball");
        let number = number_word(line, side, token, found);
        runs(line, sheet, side, number, &mut behind);
    } else {
        as_typed(line, token, rest);
    }
}

/// Writes a delivery that begins with its bowler's whole name before a colon or with his name and no colon, or another line.
fn by_colon(line: &mut Line, sheet: &MatchSheet, side: Side, token: &str, rest: &mut Rest<'_>)
    ensures { line.new ≡ plus_all line.old (full.by_colon sheet.now side token.now rest.old
        (names.colon_name (team_of sheet.now side) (plus (Ok []) (Ok token.now)) rest.old)) }
{
    match colon_name(sheet, side, &Line::of(token), rest) {
        Some((player, more, mut behind)) => {
            line.word("ball");
            let number = digits(player.number());
            line.word(number);
            runs_behind_colon(line, sheet, side, number, more, &mut behind);
        }
        None => spoken(line, sheet, side, token, rest),
    }
}

/// Whether a token begins no line and is no number, so that it may be a bowler's name.
fn may_name(token: &str) -> bool
    ensures { result ≡ full.may_name token.now }
{
    !(is_line_word(token) || is_digit_first(token))
}

/// Writes a delivery that begins with its bowler's name, or another line.
#[tactic(auto, unfolding(crate::specs::Full::by_bowler))]
fn by_bowler(line: &mut Line, sheet: &MatchSheet, side: Side, token: &str, rest: &mut Rest<'_>)
    ensures { line.new ≡ plus_all line.old (full.by_bowler sheet.now side token.now rest.old) }
{
    if may_name(token) {
        by_colon(line, sheet, side, token, rest);
    } else {
        as_typed(line, token, rest);
    }
}

/// Writes a delivery with the bowler left out, who is then the last delivery's, or with his name, or another line.
#[tactic(auto, unfolding(crate::specs::Full::by_same_bowler))]
fn by_same_bowler(line: &mut Line, sheet: &MatchSheet, at: Point, token: &str, rest: &mut Rest<'_>)
    ensures { line.new ≡ plus_all line.old (full.by_same_bowler sheet.now at token.now rest.old) }
{
    let side = opponent(at.batting);
    if begins_delivery(token, rest) {
        line.word("ball");
        let number = same_bowler(line, at.bowler);
        runs_from(line, sheet, side, number, token, rest);
    } else {
        by_bowler(line, sheet, side, token, rest);
    }
}

/// Writes such a line, or refuses a token that is a letter with two meanings.
#[tactic(auto, unfolding(crate::specs::Full::by_letter))]
fn by_letter(line: &mut Line, sheet: &MatchSheet, at: Point, token: &str, rest: &mut Rest<'_>)
    ensures { line.new ≡ plus_all line.old (full.by_letter sheet.now at token.now rest.old) }
{
    match two_meanings(token) {
        Some(letter) => line.fail(Unclear::TwoMeanings(letter)),
        None => by_same_bowler(line, sheet, at, token, rest),
    }
}

/// Writes a delivery whose bowler is named before a colon; `more` follows the colon without a space.
#[tactic(auto, unfolding(crate::specs::Full::colon_delivery))]
fn colon_delivery(
    line: &mut Line,
    sheet: &MatchSheet,
    side: Side,
    name: &str,
    more: &str,
    rest: &mut Rest<'_>,
)
    ensures { line.new ≡ plus_all line.old (full.colon_delivery sheet.now side name.now more.now rest.old) }
{
    line.word("ball");
    let number = player(
        line,
        sheet,
        side,
        &Among::Anyone,
        name,
        &mut Rest::nothing(),
    );
    runs_behind_colon(line, sheet, side, number, more, rest);
}

/// Writes a delivery that doesn't begin with `ball`, or another line.
#[tactic(auto, unfolding(crate::specs::Full::unnamed))]
pub fn unnamed(line: &mut Line, sheet: &MatchSheet, at: Point, token: &str, rest: &mut Rest<'_>)
    ensures { line.new ≡ plus_all line.old (full.unnamed sheet.now at token.now rest.old) }
{
    match named_bowler(token) {
        Some((name, more)) => {
            colon_delivery(line, sheet, opponent(at.batting), name, more, rest);
        }
        None => by_letter(line, sheet, at, token, rest),
    }
}
