//! What is unclear in a line, and who may bowl if the line doesn't name the bowler.

ghost use Rattle.std.specs.Prelude.{◌++◌, OnOk};
ghost use Rattle.corrections.specs.CleanList.{history_of};
ghost use Rattle.streams.specs.Watched.{Prints, TellsFailure};
ghost use Rattle.station_texts.specs.Questions as questions;

use crate::questions::print_unclear;
use cards::MatchSheet;
use corrections::BookOf;
use score_rows::print_bowlers;
use shorthand::Unclear;
use streams::{Sink, Watched, WriteFailed};

/// Prints who may bowl, if the sheet limits a bowler's overs.
fn print_limited_bowlers<B: BookOf, W: Sink>(
    out: &mut Watched<W>,
    sheet: &MatchSheet,
    book: &B,
) -> Result<(), WriteFailed>
    ensures text { OnOk result (Prints W.contents out.old out.new
        (questions.limited_bowlers sheet.now (history_of (B.content book.now)))) }
    ensures failed { TellsFailure result out.old out.new }
{
    if sheet.limits().overs_a_bowler().is_some() {
        print_bowlers(out, sheet, book)
    } else {
        Ok(())
    }
}

/// Prints who may bowl, if the line doesn't name the bowler and the sheet limits a bowler's overs.
fn print_who_may<B: BookOf, W: Sink>(
    out: &mut Watched<W>,
    sheet: &MatchSheet,
    unclear: &Unclear,
    book: &B,
) -> Result<(), WriteFailed>
    ensures text { OnOk result (Prints W.contents out.old out.new
        (questions.who_may sheet.now (history_of (B.content book.now)) unclear.now)) }
    ensures failed { TellsFailure result out.old out.new }
{
    match unclear {
        Unclear::WhoBowls => print_limited_bowlers(out, sheet, book),
        Unclear::Fault(_) => Ok(()),
        Unclear::WhoIsOut => Ok(()),
        Unclear::NoSuchPlayer(_) => Ok(()),
        Unclear::WhichPlayer(_, _) => Ok(()),
        Unclear::TwoMeanings(_) => Ok(()),
        Unclear::NoFielder(_, _) => Ok(()),
        Unclear::UnknownWord(_) => Ok(()),
        Unclear::NoSuchBall(_) => Ok(()),
        Unclear::NothingStands => Ok(()),
    }
}

/// Prints what is unclear in a line; if that is the bowler and overs are limited, also who may bowl.
pub(crate) fn print_question<B: BookOf, W: Sink>(
    out: &mut Watched<W>,
    sheet: &MatchSheet,
    unclear: &Unclear,
    book: &B,
) -> Result<(), WriteFailed>
    ensures text { OnOk result (Prints W.contents out.old out.new
        (questions.unclear_text sheet.now unclear.now
        ++ questions.who_may sheet.now (history_of (B.content book.now)) unclear.now)) }
    ensures failed { TellsFailure result out.old out.new }
{
    print_unclear(out, sheet, unclear)?;
    print_who_may(out, sheet, unclear, book)
}
