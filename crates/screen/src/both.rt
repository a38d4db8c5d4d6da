//! Both cards of the innings begun last.

ghost use Rattle.std.specs.Prelude.{◌<◌, OnOk};
ghost use Rattle.match_laws.specs.History.{begun};
ghost use Rattle.corrections.specs.CleanList.{history_of};
ghost use Rattle.streams.specs.Watched.{Prints, TellsFailure};
ghost use Rattle.screen.specs.Both.{both_cards, cards_number, cards_of, headed_cards};

use cards::{MatchSheet, batting_card, bowling_card};
use corrections::BookOf;
use streams::{Sink, Watched, WriteFailed};

/// The header of the batting card's columns.
const BATTING_HEAD: &str =
    "batting                                                    R    B  4s  6s\n";

/// The header of the bowling card's columns.
const BOWLING_HEAD: &str = "bowling               O   M    R   W  Wd  Nb\n";

/// Prints both cards of an innings.
fn print_innings<W: Sink, B: BookOf>(
    out: &mut Watched<W>,
    sheet: &MatchSheet,
    book: &B,
    innings: usize,
) -> Result<(), WriteFailed>
    requires { innings < begun (history_of (B.content book.now)) }
    ensures text { OnOk result (Prints W.contents out.old out.new
        (cards_of sheet.now (history_of (B.content book.now)) innings)) }
    ensures failed { TellsFailure result out.old out.new }
{
    let score = book.score();
    batting_card(sheet, score, innings, out)?;
    bowling_card(sheet, score, innings, out)
}

/// Prints both cards of an innings, each under the header of its columns.
fn print_headed<W: Sink, B: BookOf>(
    out: &mut Watched<W>,
    sheet: &MatchSheet,
    book: &B,
    innings: usize,
) -> Result<(), WriteFailed>
    requires { innings < begun (history_of (B.content book.now)) }
    ensures text { OnOk result (Prints W.contents out.old out.new
        (headed_cards sheet.now (history_of (B.content book.now)) innings)) }
    ensures failed { TellsFailure result out.old out.new }
{
    let score = book.score();
    write!(out, "{BATTING_HEAD}")?;
    batting_card(sheet, score, innings, out)?;
    write!(out, "{BOWLING_HEAD}")?;
    bowling_card(sheet, score, innings, out)
}

/// Prints both cards of the innings with this number, counted from 1, or `no such innings yet`.
pub fn print_cards_of<W: Sink, B: BookOf>(
    out: &mut Watched<W>,
    sheet: &MatchSheet,
    book: &B,
    number: usize,
) -> Result<(), WriteFailed>
    ensures text { OnOk result (Prints W.contents out.old out.new
        (cards_number sheet.now (history_of (B.content book.now)) number)) }
    ensures failed { TellsFailure result out.old out.new }
{
    let begun = book.score().begun();
    if number < 1 || number > begun {
        return writeln!(out, "no such innings yet");
    }
    print_headed(out, sheet, book, number - 1)
}

/// Prints both cards of the innings begun last.
pub fn print_cards<W: Sink, B: BookOf>(
    out: &mut Watched<W>,
    sheet: &MatchSheet,
    book: &B,
) -> Result<(), WriteFailed>
    ensures text { OnOk result (Prints W.contents out.old out.new
        (both_cards sheet.now (history_of (B.content book.now)))) }
    ensures failed { TellsFailure result out.old out.new }
{
    let begun = book.score().begun();
    if begun == 0 {
        return writeln!(out, "No play");
    }
    print_innings(out, sheet, book, begun - 1)
}
