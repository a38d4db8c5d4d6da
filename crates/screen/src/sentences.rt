//! The sentences that a desk prints after the name of a fault or a refusal.

ghost use Rattle.std.specs.Prelude.{◌≡◌};
ghost use Rattle.screen.specs.Sentences as sentences;

use ball_laws::BallRefusal;
use desk::Refusal;
use match_laws::LawRefusal;
use notation::LineFault;

/// Returns the sentence for a line's fault.
pub fn fault_sentence(why: LineFault) -> &'static str
    ensures { result.now ≡ sentences.of_fault why }
{
    match why {
        LineFault::TooLong => "a line has at most 96 bytes",
        LineFault::UnknownWord => "another word belongs here",
        LineFault::BadNumber => "a number is missing, or out of its range",
        LineFault::Missing => "the line ends too early",
        LineFault::Extra => "the line has more words than belong to it",
        LineFault::Spaces => "one space between words, and none at the ends",
    }
}

/// Returns the sentence for a refusal by the ends, the over or the players.
fn ball_sentence(why: BallRefusal) -> &'static str
    ensures { result.now ≡ sentences.of_ball why }
{
    match why {
        BallRefusal::NoBatter => "an end is vacant: enter who came in",
        BallRefusal::BowlerTwoOvers => "he bowled in the last over",
        BallRefusal::NotOutSoHere => "nobody can be out that way off this delivery",
        BallRefusal::WrongBatter => "this way of being out is the other batter's",
        BallRefusal::RunsWithOut => "no run is scored if a batter is out that way",
        BallRefusal::BoundaryAndOut => "a boundary and a dismissal don't go together",
        BallRefusal::SixNotStruck => "only the bat makes a six",
        BallRefusal::CrossedNotHere => "crossed goes only with runout and obstructing",
        BallRefusal::OverLong => "the over has 60 deliveries: call over",
        BallRefusal::NoBall => "no delivery of this over counts yet",
        BallRefusal::NoVacancy => "there is a batter at each end",
        BallRefusal::NotAvailable => "this player can't come in",
        BallRefusal::NotIn => "this player isn't at that end",
    }
}

/// Returns the sentence for a refusal by the Laws.
fn law_sentence(why: LawRefusal) -> &'static str
    ensures { result.now ≡ sentences.of_law why }
{
    match why {
        LawRefusal::Ball(why) => ball_sentence(why),
        LawRefusal::NotInPlay => "no innings is open, or ten wickets are down",
        LawRefusal::WrongSide => "it isn't this side's turn to bat",
        LawRefusal::InningsOpen => "an innings is open: end it first",
        LawRefusal::MatchWon => "the match is won",
        LawRefusal::MatchClosed => "the match was closed",
        LawRefusal::EndNotSo => "the innings can't end for this cause now",
        LawRefusal::TooMany => "the match takes no more entries",
    }
}

/// Returns the sentence for a refusal by the book.
fn book_sentence(why: corrections::Refusal) -> &'static str
    ensures { result.now ≡ sentences.of_book why }
{
    match why {
        corrections::Refusal::Law(why) => law_sentence(why),
        corrections::Refusal::NoSuchPlace => "the book has no such place yet",
        corrections::Refusal::NotFixable => {
            "a correction stands there: name the place of the entry itself"
        }
        corrections::Refusal::Later { .. } => "then the entry at that place would be refused",
        corrections::Refusal::NotAnchor => "name the place of an entry of play",
    }
}

/// Returns the sentence for a refusal by the desk.
pub fn refusal_sentence(why: Refusal) -> &'static str
    ensures { result.now ≡ sentences.of_desk why }
{
    match why {
        Refusal::Book(why) => book_sentence(why),
        Refusal::SlotsFull => "the votes file is full",
        Refusal::Failed => "the disk failed: open the desk again",
        Refusal::Waiting => "your line is cast: wait for the other scorer",
        Refusal::PlacesFull => "the book is full",
        Refusal::RoundsFull => "you two differed 256 times at this place",
        Refusal::Device => "a call on the disk failed",
    }
}
