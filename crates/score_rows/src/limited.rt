//! The rows about what the sheet limits: overs, a bowler's overs, and free hits.

ghost use Rattle.std.specs.Prelude.{◌≡◌, ◌<◌};
ghost use Rattle.match_laws.specs.History.{begun};
ghost use Rattle.corrections.specs.CleanList.{history_of};
ghost use Rattle.cards.specs.Begun.{ForInnings};
ghost use Rattle.limits.specs.Rates as rates;
ghost use Rattle.score_rows.specs.Limited as limited;

use crate::text::Text;
use cards::{Innings, MatchSheet};
use corrections::{BookOf, overs_of};
use limits::{an_over, deliveries_left, is_free_hit, overs_bowled, overs_left};
use match_laws::opponent;
use notation::Player;

pub type OfOvers = Option<(&'static str, u32)>;

/// Returns ` of` and the overs of an innings, if these are limited.
pub fn of_overs(overs: Option<u16>) -> OfOvers
    ensures { ⟦<OfOvers as Text>⟧.bytes result ≡ limited.of_overs overs }
{
    match overs {
        None => None,
        Some(overs) => Some((" of ", u32::from(overs))),
    }
}

type TwoPlaces = (u64, &'static str, u64, u64);

/// Returns a number of hundredths as a decimal with two places.
fn two_places(hundredths: u64) -> TwoPlaces
    ensures { ⟦<TwoPlaces as Text>⟧.bytes result ≡ rates.two_places hundredths }
{
    (hundredths / 100, ".", hundredths / 10 % 10, hundredths % 10)
}

type Rate = Option<(&'static str, TwoPlaces, &'static str)>;

/// Returns a rate in brackets, if there is one.
fn rate(hundredths: Option<u64>) -> Rate
    ensures { ⟦<Rate as Text>⟧.bytes result ≡ limited.rate_text hundredths }
{
    match hundredths {
        None => None,
        Some(hundredths) => Some((" (", two_places(hundredths), ")")),
    }
}

pub type Off = (&'static str, u32, Rate);

/// Returns the deliveries left to score these runs, and the runs an over that this asks for.
pub fn off(runs: u32, left: u32) -> Off
    ensures { ⟦<Off as Text>⟧.bytes result ≡ limited.off_text runs left }
{
    (" off ", left, rate(an_over(runs, left)))
}

/// Returns how many deliveries are left in an innings, if the sheet limits its overs.
pub fn left_now(innings: Innings<'_>) -> Option<u32>
    ensures { ForInnings innings.entry (λ s h i. result ≡ limited.left_now s h i) }
{
    match innings.sheet.limits().overs_for(innings.index) {
        None => None,
        Some(overs) => Some(deliveries_left(innings.score, innings.index, overs)),
    }
}

/// Whether the next delivery is a free hit, by the sheet and the book.
fn is_free<B: BookOf>(sheet: &MatchSheet, book: &B) -> bool
    ensures { result ≡ limited.is_free sheet.now (history_of (B.content book.now)) }
{
    sheet.limits().free_hits() && is_free_hit(book)
}

/// Returns the note of a free hit, if the next delivery is one and the note belongs here.
pub fn free<B: BookOf>(is_here: bool, sheet: &MatchSheet, book: &B) -> &'static str
    ensures { result.now ≡ limited.free_text is_here sheet.now (history_of (B.content book.now)) }
{
    if is_here && is_free(sheet, book) {
        "  free hit"
    } else {
        ""
    }
}

/// Returns a row with the note of a free hit, if the next delivery is one and the note belongs here.
pub fn free_row<B: BookOf>(is_here: bool, sheet: &MatchSheet, book: &B) -> &'static str
    ensures { result.now ≡ limited.free_row is_here sheet.now (history_of (B.content book.now)) }
{
    if is_here && is_free(sheet, book) {
        "  free hit\n"
    } else {
        ""
    }
}

pub type Past = Option<(&'static str, u32)>;

/// Returns that a bowler is past his most overs, if he is.
fn past_of(most: u16, bowled: u32) -> Past
    ensures { ⟦<Past as Text>⟧.bytes result ≡ limited.past_text most bowled }
{
    if u32::from(most) < bowled {
        Some((" past ", u32::from(most)))
    } else {
        None
    }
}

/// Returns that this bowler is past his most overs, if he is; nothing if there is no bowler or no limit.
pub fn past<B: BookOf>(book: &B, most: Option<u16>, bowler: Option<Player>) -> Past
    ensures { ⟦<Past as Text>⟧.bytes result ≡ limited.past most (history_of (B.content book.now)) bowler }
{
    match (most, bowler) {
        (Some(most), Some(player)) => past_of(most, overs_bowled(book, player)),
        _ => None,
    }
}

type Rest = Option<(&'static str, u32)>;

/// Returns the deliveries beyond whole overs, after a point, if there are any.
fn rest(deliveries: u32) -> Rest
    ensures { ⟦<Rest as Text>⟧.bytes result ≡ limited.rest_text deliveries }
{
    if deliveries == 0 {
        None
    } else {
        Some((".", deliveries))
    }
}

fn overs_word(deliveries: u32) -> &'static str
    ensures { result.now ≡ limited.overs_word deliveries }
{
    if deliveries == 6 {
        " over left"
    } else {
        " overs left"
    }
}

type Left = (u32, Rest, &'static str);

/// Returns a number of deliveries in overs.
fn left(deliveries: u32) -> Left
    ensures { ⟦<Left as Text>⟧.bytes result ≡ limited.left_text deliveries }
{
    (deliveries / 6, rest(deliveries % 6), overs_word(deliveries))
}

/// Returns that all overs of the innings are bowled.
fn all_bowled(overs: u16) -> Left
    ensures { ⟦<Left as Text>⟧.bytes result ≡ limited.all_bowled overs }
{
    let word = if overs == 1 {
        " over: end overs"
    } else {
        " overs: end overs"
    };
    (u32::from(overs), None, word)
}

/// Returns what is left of an innings of this many overs.
fn innings_left(innings: Innings<'_>, overs: u16) -> Left
    ensures { ForInnings innings.entry (λ s h i. ⟦<Left as Text>⟧.bytes result ≡ limited.innings_left overs h i) }
{
    if overs_left(innings.score, innings.index, overs) == 0 {
        all_bowled(overs)
    } else {
        left(deliveries_left(innings.score, innings.index, overs))
    }
}

type BowledOf<'a> = (
    &'static str,
    &'a str,
    &'static str,
    (u32, &'static str, u32),
);

/// Returns a bowler's name, with how many overs he has bowled in and how many he may.
fn bowled_of<'a, B: BookOf>(
    sheet: &'a MatchSheet,
    book: &B,
    innings: usize,
    most: u16,
    player: Player,
) -> BowledOf<'a>
    requires { innings < begun (history_of (B.content book.now)) }
    ensures { ⟦<BowledOf<'static> as Text>⟧.bytes result
        ≡ limited.bowled_of sheet.now (history_of (B.content book.now)) innings most player }
{
    let side = opponent(book.score().side(innings));
    let bowled = overs_bowled(book, player);
    (
        "  ",
        sheet.player(side, player),
        " ",
        (bowled, " of ", u32::from(most)),
    )
}

type BowlerPart<'a> = Option<BowledOf<'a>>;

/// Returns that text for the bowler of the last delivery, if there is one and bowlers are limited.
fn bowler_part<'a, B: BookOf>(
    sheet: &'a MatchSheet,
    book: &B,
    innings: usize,
    most: Option<u16>,
    bowler: Option<Player>,
) -> BowlerPart<'a>
    requires { innings < begun (history_of (B.content book.now)) }
    ensures { ⟦<BowlerPart<'static> as Text>⟧.bytes result
        ≡ limited.bowler_part sheet.now (history_of (B.content book.now)) innings most bowler }
{
    match (most, bowler) {
        (Some(most), Some(player)) => Some(bowled_of(sheet, book, innings, most, player)),
        _ => None,
    }
}

pub type BowlerRow<'a> = Option<(BowledOf<'a>, &'static str)>;

/// Returns that text as a row of its own.
fn bowler_line<'a, B: BookOf>(
    sheet: &'a MatchSheet,
    book: &B,
    innings: usize,
    most: Option<u16>,
    bowler: Option<Player>,
) -> BowlerRow<'a>
    requires { innings < begun (history_of (B.content book.now)) }
    ensures { ⟦<BowlerRow<'static> as Text>⟧.bytes result
        ≡ limited.bowler_line sheet.now (history_of (B.content book.now)) innings most bowler }
{
    match (most, bowler) {
        (Some(most), Some(player)) => Some((bowled_of(sheet, book, innings, most, player), "\n")),
        _ => None,
    }
}

/// Returns that text as a row of its own, if the player is past his most overs.
fn past_line<'a, B: BookOf>(
    sheet: &'a MatchSheet,
    book: &B,
    innings: usize,
    most: u16,
    player: Player,
) -> BowlerRow<'a>
    requires { innings < begun (history_of (B.content book.now)) }
    ensures { ⟦<BowlerRow<'static> as Text>⟧.bytes result
        ≡ limited.past_line sheet.now (history_of (B.content book.now)) innings most player }
{
    if u32::from(most) < overs_bowled(book, player) {
        Some((bowled_of(sheet, book, innings, most, player), "\n"))
    } else {
        None
    }
}

/// Returns such a row for the bowler of the last delivery, if there is one and bowlers are limited.
pub fn past_row<'a, B: BookOf>(
    sheet: &'a MatchSheet,
    book: &B,
    innings: usize,
    most: Option<u16>,
    bowler: Option<Player>,
) -> BowlerRow<'a>
    requires { innings < begun (history_of (B.content book.now)) }
    ensures { ⟦<BowlerRow<'static> as Text>⟧.bytes result
        ≡ limited.past_row sheet.now (history_of (B.content book.now)) innings most bowler }
{
    match (most, bowler) {
        (Some(most), Some(player)) => past_line(sheet, book, innings, most, player),
        _ => None,
    }
}

type LeftLine<'a> = (&'static str, Left, BowlerPart<'a>, &'static str);

/// Returns the row with what is left of an innings of this many overs, and its bowler's overs.
fn left_line<'a, B: BookOf>(
    sheet: &'a MatchSheet,
    book: &B,
    innings: usize,
    overs: u16,
) -> LeftLine<'a>
    requires { innings < begun (history_of (B.content book.now)) }
    ensures { ⟦<LeftLine<'static> as Text>⟧.bytes result
        ≡ limited.left_line sheet.now (history_of (B.content book.now)) innings overs }
{
    let most = sheet.limits().overs_a_bowler();
    let bowler = overs_of(book).bowler();
    let open = Innings {
        sheet,
        score: book.score(),
        index: innings,
    };
    (
        "  ",
        innings_left(open, overs),
        bowler_part(sheet, book, innings, most, bowler),
        "\n",
    )
}

type LineFor<'a> = (Option<LeftLine<'a>>, BowlerRow<'a>);

/// Returns the row with what is left of the innings, or with the bowler's overs alone if the innings isn't limited.
fn line_for<'a, B: BookOf>(
    sheet: &'a MatchSheet,
    book: &B,
    innings: usize,
    overs: Option<u16>,
) -> LineFor<'a>
    requires { innings < begun (history_of (B.content book.now)) }
    ensures { ⟦<LineFor<'static> as Text>⟧.bytes result
        ≡ limited.line_for sheet.now (history_of (B.content book.now)) innings overs }
{
    match overs {
        None => {
            let most = sheet.limits().overs_a_bowler();
            let bowler = overs_of(book).bowler();
            (None, bowler_line(sheet, book, innings, most, bowler))
        }
        Some(overs) => (Some(left_line(sheet, book, innings, overs)), None),
    }
}

pub type LimitsLine<'a> = Option<LineFor<'a>>;

/// Returns the row with what is left of the innings and of the
/// bowler's overs, if the sheet limits either and an innings is open.
pub fn limits_line<'a, B: BookOf>(sheet: &'a MatchSheet, book: &B, innings: usize) -> LimitsLine<'a>
    requires { innings < begun (history_of (B.content book.now)) }
    ensures { ⟦<LimitsLine<'static> as Text>⟧.bytes result
        ≡ limited.limits_line sheet.now (history_of (B.content book.now)) innings }
{
    if book.score().is_open() {
        let overs = sheet.limits().overs_for(innings);
        Some(line_for(sheet, book, innings, overs))
    } else {
        None
    }
}
