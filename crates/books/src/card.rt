//! The printed cards of a book.

ghost use Rattle.std.specs.Prelude.{OnOk};
ghost use Rattle.match_laws.specs.History.{begun};
ghost use Rattle.match_laws.specs.Stands.{ForEachHistory};
ghost use Rattle.cards.specs.Begun.{ForInnings};
ghost use Rattle.streams.specs.Watched.{IsHandedOn, Prints, TellsFailure};
ghost use Rattle.books.specs.Card.{both_cards, card_text, cards_of};

use cards::{Innings, MatchSheet, batting_card, book_page, bowling_card};
use corrections::BookOf;
use match_laws::Match;
use streams::{Sink, Watched, WriteFailed};

/// Prints the batting and bowling cards of an innings.
fn print_both<W: Sink>(innings: Innings<'_>, out: &mut Watched<W>) -> Result<(), WriteFailed>
    ensures text { ForInnings innings.entry (λ s h i.
        OnOk result (Prints W.contents out.old out.new (both_cards s h i))) }
    ensures failed { TellsFailure result out.old out.new }
{
    batting_card(innings.sheet, innings.score, innings.index, out)?;
    bowling_card(innings.sheet, innings.score, innings.index, out)
}

/// Prints both cards of each innings.
fn print_innings<W: Sink>(
    sheet: &MatchSheet,
    score: &Match,
    out: &mut Watched<W>,
) -> Result<(), WriteFailed>
    ensures text { ForEachHistory score.now (λ n h.
        OnOk result (Prints W.contents out.old out.new (cards_of sheet.now h (begun h)))) }
    ensures failed { TellsFailure result out.old out.new }
{
    for innings in 0..score.begun() {
        let now = Innings {
            sheet,
            score,
            index: innings,
        };
        print_both(now, out)?;
    }
    Ok(())
}

/// Prints both cards of each innings of a book, and then the book's page. It fails only if a write fails, and
/// doesn't say how much was written by then.
pub fn print_card<W: Sink, B: BookOf>(
    sheet: &MatchSheet,
    book: &B,
    out: &mut Watched<W>,
) -> Result<(), WriteFailed>
    ensures text { OnOk result (Prints W.contents out.old out.new
        (card_text sheet.now (B.content book.now))) }
    ensures handed_on { OnOk result (IsHandedOn W.calls out.new) }
    ensures failed { TellsFailure result out.old out.new }
{
    print_innings(sheet, book.score(), out)?;
    book_page(sheet, book, out)?;
    out.flush()
}
