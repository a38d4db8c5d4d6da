//! What a match wants next.

ghost use Rattle.std.specs.Prelude.{◌≡◌, true};
ghost use Rattle.match_laws.specs.History.{is_open};
ghost use Rattle.corrections.specs.CleanList.{history_of};
ghost use Rattle.desk_state.specs.Wants as laws;

use corrections::{BookOf, bowler_of, overs_of};
use match_laws::Outcome;
use notation::Player;

/// What the scorer has to write next.
#[derive(Clone, Copy)]
pub enum Wants {
    /// The beginning of an innings.
    Innings,
    /// The batter who comes in: a place at the crease is empty.
    Batter,
    /// A delivery and its bowler: the over has no delivery yet.
    Bowler,
    /// A delivery.
    Ball,
    /// The call of over: six deliveries have counted.
    Over,
    /// Nothing: the match has a result.
    Nothing,
}

impl Wants {
    /// Returns the word for it.
    pub fn text(self) -> &'static str
        ensures { result.now ≡ laws.wants_text self }
    {
        match self {
            Wants::Innings => "innings",
            Wants::Batter => "batter",
            Wants::Bowler => "bowler",
            Wants::Ball => "ball",
            Wants::Over => "over",
            Wants::Nothing => "nothing",
        }
    }
}

/// Whether there is no result yet.
fn is_undecided(outcome: Outcome) -> bool
    ensures { result ≡ laws.is_undecided outcome }
{
    matches!(outcome, Outcome::Undecided)
}

/// Returns what an over wants after this many deliveries that count, the last of them by this bowler.
fn wants_of_over(counted: u32, bowler: Option<Player>) -> Wants
    ensures { result ≡ laws.wants_of_over counted bowler }
{
    if counted >= 6 {
        return Wants::Over;
    }
    match bowler {
        None => Wants::Bowler,
        Some(_) => Wants::Ball,
    }
}

/// Returns what an open innings wants.
fn wants_in_play<B: BookOf>(book: &B) -> Wants
    requires { is_open (history_of (B.content book.now)) ≡ true }
    ensures { result ≡ laws.wants_in_play (history_of (B.content book.now)) }
{
    let score = book.score();
    if score.ends().has_vacancy() {
        return Wants::Batter;
    }
    let innings = score.begun() - 1;
    let (_, counted) = score.overs(innings);
    wants_of_over(counted, bowler_of(overs_of(book).this))
}

/// Returns what the match of a book wants next.
pub fn wants_of<B: BookOf>(book: &B) -> Wants
    ensures { result ≡ laws.wants (B.innings_a_side book.now) (history_of (B.content book.now)) }
{
    let score = book.score();
    if !is_undecided(score.result()) {
        return Wants::Nothing;
    }
    if !score.is_open() {
        return Wants::Innings;
    }
    wants_in_play(book)
}
