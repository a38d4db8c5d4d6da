//! Players by number and by name.

ghost use Rattle.std.specs.Prelude.{◌≡◌, ◌∷◌, [], false, true, None, Some, Ok, MatchOption};
ghost use Rattle.std.specs.List.{after_first, before_first, list_any};
ghost use Rattle.notation.specs.Written.{tokens};
ghost use Rattle.cards.specs.Sheet.{player_in, team_of};
ghost use Rattle.shorthand.specs.Candidates.{has_beginning};
ghost use Rattle.shorthand.specs.Lines.{known, plus, reason_of};
ghost use Rattle.shorthand.specs.Names as names;
ghost use Rattle.shorthand.specs.inner.Writing.{and_one};

use crate::line::{Line, digits};
use crate::rest::Rest;
use crate::unclear::{Unaided, Unclear};
use arrayvec::ArrayString;
use ball_laws::Ends;
use cards::MatchSheet;
use notation::{LineFault, Player, Side, Tokens};

/// How a text fits a name.
#[derive(Clone, Copy)]
pub enum Fit {
    /// The text is the name.
    Whole,
    /// The text is the name's last word.
    LastWord,
    /// One of the name's words begins with the text.
    Beginning,
}

/// How many players a text fits.
#[derive(Clone, Copy)]
pub enum Found {
    NoOne,
    One(Player),
    Several,
}

/// Which players of a side a name may mean.
#[derive(Clone, Copy)]
pub enum Among {
    Anyone,
    /// The batters at these ends.
    AnEnd(Ends),
}

/// Whether the word is the token, in either case of letters.
pub fn is_same(word: &[u8], token: &[u8]) -> bool
    ensures { result ≡ names.is_same word.now token.now }
{
    word.eq_ignore_ascii_case(token)
}

/// Whether the word begins with the token, in either case of letters.
fn begins_with(word: &[u8], token: &[u8]) -> bool
    ensures { result ≡ names.begins_with word.now token.now }
{
    if word.len() < token.len() {
        return false;
    }
    is_same(&word[..token.len()], token)
}

/// Whether the last of these words is the token.
fn ends_in(word: &str, more: &mut Tokens<'_>, token: &str) -> bool
    ensures { result ≡ names.ends_in word.now more.old token.now }
{
    match more.next() {
        Some(next) => ends_in(next, more, token),
        None => is_same(word.as_bytes(), token.as_bytes()),
    }
}

/// Whether one of these words begins with the token.
fn any_begins(words: &mut Tokens<'_>, token: &str) -> bool
    ensures { result ≡ list_any (λ w. names.begins_with w token.now) words.old }
{
    match words.next() {
        Some(word) => { begins_with(word.as_bytes(), token.as_bytes()) || any_begins(words, token) }
        None => false,
    }
}

/// Whether the text fits a name in this way.
fn fits(fit: Fit, name: &str, token: &str) -> bool
    ensures { result ≡ names.fits fit name.now token.now }
{
    let mut words = Tokens::new(name);
    match fit {
        Fit::Whole => is_same(name.as_bytes(), token.as_bytes()),
        Fit::LastWord => match words.next() {
            Some(word) => ends_in(word, &mut words, token),
            None => false,
        },
        Fit::Beginning => any_begins(&mut words, token),
    }
}

/// Whether this player is at the end.
fn is_at(end: Option<Player>, player: Player) -> bool
    ensures { result ≡ names.is_at end player }
{
    match end {
        Some(batter) => batter.number() == player.number(),
        None => false,
    }
}

/// Whether the player is among those whom a name may mean.
fn is_among(among: &Among, player: Player) -> bool
    ensures { result ≡ names.is_among among.now player }
{
    match among {
        Among::Anyone => true,
        Among::AnEnd(ends) => is_at(ends.striker, player) || is_at(ends.other, player),
    }
}

/// Whether a name may mean the player, and the text fits his name in this way.
fn suits(
    sheet: &MatchSheet,
    side: Side,
    among: &Among,
    fit: Fit,
    token: &str,
    player: Player,
) -> bool
    ensures { result ≡ names.suits among.now fit (team_of sheet.now side) token.now player }
{
    is_among(among, player) && fits(fit, sheet.player(side, player), token)
}

/// Whether a word of the player's name begins with this text, in either case of letters.
pub fn has_beginning(sheet: &MatchSheet, side: Side, player: Player, beginning: &str) -> bool
    ensures { result ≡ has_beginning (team_of sheet.now side) beginning.now player }
{
    fits(Fit::Beginning, sheet.player(side, player), beginning)
}

/// Returns what is found with one more player.
fn and_one(found: Found, player: Player) -> Found
    ensures { result ≡ and_one found player }
{
    match found {
        Found::NoOne => Found::One(player),
        Found::One(_) | Found::Several => Found::Several,
    }
}

/// Returns the players of a side, among these, whose names the text fits in this way.
fn fitting(sheet: &MatchSheet, side: Side, among: &Among, token: &str, fit: Fit) -> Found
    ensures { result ≡ names.found_in (names.fitting among.now fit (team_of sheet.now side) token.now) }
{
    let mut found = Found::NoOne;
    for number in [1, 2, 3, 4, 5, 6, 7, 8, 9, 10, 11] {
        if let Some(player) = Player::new(number) {
            if suits(sheet, side, among, fit, token, player) {
                found = and_one(found, player);
            }
        }
    }
    found
}

/// Returns the player of a side, among these, whom a token means by his last word or by the beginning of a word.
fn meant(sheet: &MatchSheet, side: Side, among: &Among, token: &str) -> Found
    ensures { result ≡ names.meant among.now (team_of sheet.now side) token.now }
{
    match fitting(sheet, side, among, token, Fit::LastWord) {
        Found::One(player) => Found::One(player),
        Found::NoOne | Found::Several => fitting(sheet, side, among, token, Fit::Beginning),
    }
}

/// Returns what is found; or if that is several players, the one of the others if it is just one.
fn among_several(found: Found, others: Found) -> Found
    ensures { result ≡ names.among_several found others }
{
    match found {
        Found::NoOne | Found::One(_) => found,
        Found::Several => match others {
            Found::One(player) => Found::One(player),
            Found::NoOne | Found::Several => found,
        },
    }
}

/// Returns the one player with exactly this name, and the words after it.
fn exactly<'a>(
    sheet: &MatchSheet,
    side: Side,
    name: &Line,
    rest: &Rest<'a>,
) -> Option<(Player, Rest<'a>)>
    ensures { result ≡ names.exactly (team_of sheet.now side) name.now rest.now }
{
    let text = name.text()?;
    match fitting(sheet, side, &Among::Anyone, text, Fit::Whole) {
        Found::One(player) => Some((player, rest.ahead())),
        Found::NoOne | Found::Several => None,
    }
}

/// Returns the player named by the longest run of words from `front` on that is a whole name, and the words after it.
fn whole_name<'a>(
    sheet: &MatchSheet,
    side: Side,
    front: &Line,
    rest: &Rest<'a>,
) -> Option<(Player, Rest<'a>)>
    ensures { result ≡ names.whole_name (team_of sheet.now side) front.now rest.now }
{
    let mut behind = rest.ahead();
    if let Some(token) = behind.next() {
        let longer = front.with(token);
        if let Some(found) = whole_name(sheet, side, &longer, &behind) {
            return Some(found);
        }
    }
    exactly(sheet, side, front, rest)
}

/// Returns what names the bowler before the token's first colon, if anything does, and what follows that colon.
pub fn named_bowler(token: &str) -> Option<(&str, &str)>
    ensures { MatchOption result (names.names_bowler token.now ≡ false)
        (λ parts. (names.names_bowler token.now ≡ true)
        × (parts.0.now ≡ before_first names.is_colon token.now)
        × (parts.1.now ≡ after_first names.is_colon token.now)) }
{
    let (name, more) = token.split_once(':')?;
    if name.is_empty() {
        return None;
    }
    Some((name, more))
}

/// Returns the player whose whole name is `front` with the words up to the
/// first colon; what follows the colon in its token; and the words after that.
pub fn colon_name<'a>(
    sheet: &MatchSheet,
    side: Side,
    front: &Line,
    rest: &Rest<'a>,
) -> Option<(Player, &'a str, Rest<'a>)>
    ensures { MatchOption result (names.colon_name (team_of sheet.now side) front.now rest.now ≡ None)
        (λ found. names.colon_name (team_of sheet.now side) front.now rest.now ≡ Some (found.0, found.1.now, found.2)) }
{
    let mut behind = rest.ahead();
    let token = behind.next()?;
    match named_bowler(token) {
        Some((name, more)) => match exactly(sheet, side, &front.with(name), &behind) {
            Some((player, left)) => Some((player, more, left)),
            None => None,
        },
        None => colon_name(sheet, side, &front.with(token), &behind),
    }
}

/// Returns whom the token and the words after it mean, and takes the words that name him.
pub fn named<'a>(
    sheet: &MatchSheet,
    side: Side,
    among: &Among,
    token: &str,
    rest: &mut Rest<'a>,
) -> Found
    ensures found { result ≡ (names.named (team_of sheet.now side) among.now token.now rest.old).0 }
    ensures rest { rest.new ≡ (names.named (team_of sheet.now side) among.now token.now rest.old).1 }
{
    if let Some((player, behind)) = whole_name(sheet, side, &Line::of(token), rest) {
        *rest = behind;
        return Found::One(player);
    }
    let found = meant(sheet, side, &Among::Anyone, token);
    among_several(found, meant(sheet, side, among, token))
}

/// Whether the token begins with a digit, and so is a number.
pub fn is_digit_first(token: &str) -> bool
    ensures { result ≡ names.is_digit_first token.now }
{
    match token.as_bytes().first() {
        Some(byte) => byte.is_ascii_digit(),
        None => false,
    }
}

/// Returns that no player has this name.
fn no_such_player(token: &str) -> Unclear
    ensures { reason_of result ≡ names.no_such_player token.now }
{
    match ArrayString::from(token) {
        Ok(name) => Unclear::NoSuchPlayer(name),
        Err(_) => Unclear::Fault(LineFault::TooLong),
    }
}

/// Returns that several players of the side have this name.
fn which_player(side: Side, token: &str) -> Unclear
    ensures { reason_of result ≡ names.which_player side token.now }
{
    match ArrayString::from(token) {
        Ok(name) => Unclear::WhichPlayer(side, name),
        Err(_) => Unclear::Fault(LineFault::TooLong),
    }
}

/// Returns that no fielder of this name can have a part in this way of being out.
pub fn no_fielder(how: Unaided, token: &str) -> Unclear
    ensures { reason_of result ≡ names.no_fielder how token.now }
{
    match ArrayString::from(token) {
        Ok(name) => Unclear::NoFielder(how, name),
        Err(_) => Unclear::Fault(LineFault::TooLong),
    }
}

/// Returns that this word is unknown where it stands.
pub fn unknown_word(token: &str) -> Unclear
    ensures { reason_of result ≡ names.unknown_word token.now }
{
    match ArrayString::from(token) {
        Ok(word) => Unclear::UnknownWord(word),
        Err(_) => Unclear::Fault(LineFault::TooLong),
    }
}

/// Returns that there is no delivery of this name.
pub fn no_such_ball(token: &str) -> Unclear
    ensures { reason_of result ≡ names.no_such_ball token.now }
{
    match ArrayString::from(token) {
        Ok(name) => Unclear::NoSuchBall(name),
        Err(_) => Unclear::Fault(LineFault::TooLong),
    }
}

/// Writes the number of the player whom a token means, or why it means none. Returns the number, 0 if there is none.
pub fn number_word(line: &mut Line, side: Side, token: &str, found: Found) -> &'static str
    ensures word { line.new ≡ plus line.old (names.number_word side token.now found) }
    ensures number { result.now ≡ known (names.number_word side token.now found) }
{
    match found {
        Found::One(player) => {
            let number = digits(player.number());
            line.word(number);
            number
        }
        Found::NoOne => {
            line.fail(no_such_player(token));
            "0"
        }
        Found::Several => {
            line.fail(which_player(side, token));
            "0"
        }
    }
}

/// Writes a player's number, given as a number or a name, and takes the words that name him. Returns the number, 0 if there
/// is none.
pub fn player<'a>(
    line: &mut Line,
    sheet: &MatchSheet,
    side: Side,
    among: &Among,
    token: &'a str,
    rest: &mut Rest<'_>,
) -> &'a str
    ensures word { line.new ≡ plus line.old (names.player sheet.now side among.now token.now rest.old).0 }
    ensures number { result.now ≡ known (names.player sheet.now side among.now token.now rest.old).0 }
    ensures rest { rest.new ≡ (names.player sheet.now side among.now token.now rest.old).1 }
{
    if is_digit_first(token) {
        line.word(token);
        return token;
    }
    let found = named(sheet, side, among, token, rest);
    number_word(line, side, token, found)
}

/// Writes a fielder's number, given as a number, a name or `sub`, and takes the words that name him.
pub fn fielder(line: &mut Line, sheet: &MatchSheet, side: Side, token: &str, rest: &mut Rest<'_>)
    ensures word { line.new ≡ plus line.old (names.fielder sheet.now side token.now rest.old).0 }
    ensures rest { rest.new ≡ (names.fielder sheet.now side token.now rest.old).1 }
{
    if token == "sub" {
        line.word("12");
    } else {
        player(line, sheet, side, &Among::Anyone, token, rest);
    }
}
