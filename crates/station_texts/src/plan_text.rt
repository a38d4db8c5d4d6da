//! What the scorer is told of a plan.

ghost use Rattle.std.specs.Prelude.{◌++◌, codes, All, OnOk};
ghost use Rattle.notation.specs.Written.{IsEntry, IsPlain, text_of};
ghost use Rattle.streams.specs.Watched.{Prints, TellsFailure};
ghost use Rattle.plans.specs.Planning.{IsFinePlan, IsFinePlanned};
ghost use Rattle.station_texts.specs.Laters.{later_words};
ghost use Rattle.station_texts.specs.Planning as planning;

use crate::refusals::print_later_words;
use crate::who_bowls::print_question;
use cards::MatchSheet;
use corrections::{BookOf, Placed};
use match_laws::LawRefusal;
use notation::{Entry, line_of};
use plans::{Plan, Planned};
use streams::{Sink, Watched, WriteFailed};

/// Prints an entry's line.
fn print_row<W: Sink>(out: &mut Watched<W>, entry: &Entry) -> Result<(), WriteFailed>
    requires { IsEntry entry.now }
    ensures text { OnOk result (Prints W.contents out.old out.new (text_of entry.now ++ codes "\n")) }
    ensures failed { TellsFailure result out.old out.new }
{
    let line = line_of(entry);
    let words = line.as_str();
    writeln!(out, "{words}")
}

/// Prints the lines of entries, one per row.
fn print_rows<W: Sink>(out: &mut Watched<W>, entries: &[Entry]) -> Result<(), WriteFailed>
    requires { All IsEntry entries.now }
    ensures text { OnOk result (Prints W.contents out.old out.new (planning.rows entries.now)) }
    ensures failed { TellsFailure result out.old out.new }
{
    let Some((entry, more)) = entries.split_first() else {
        return Ok(());
    };
    print_row(out, entry)?;
    print_rows(out, more)
}

/// Prints how many lines a plan has, if it has more than the 24 that a desk holds.
fn print_many<W: Sink>(out: &mut Watched<W>, count: usize) -> Result<(), WriteFailed>
    ensures text { OnOk result (Prints W.contents out.old out.new (planning.many_text count)) }
    ensures failed { TellsFailure result out.old out.new }
{
    if count > 24 {
        writeln!(out, "{count} lines: paste 24 at most at once")
    } else {
        Ok(())
    }
}

/// Prints the lines of a plan.
fn print_lines<W: Sink>(out: &mut Watched<W>, lines: &[Entry]) -> Result<(), WriteFailed>
    requires { All IsEntry lines.now }
    ensures text { OnOk result (Prints W.contents out.old out.new (planning.lines_text lines.now)) }
    ensures failed { TellsFailure result out.old out.new }
{
    if lines.is_empty() {
        return writeln!(out, "nothing is to be corrected");
    }
    print_rows(out, lines)?;
    print_many(out, lines.len())
}

/// Prints words.
fn print_words<W: Sink>(out: &mut Watched<W>, words: &str) -> Result<(), WriteFailed>
    ensures text { OnOk result (Prints W.contents out.old out.new words.now) }
    ensures failed { TellsFailure result out.old out.new }
{
    write!(out, "{words}")
}

/// Prints that this entry corrects or follows no entry of the book.
fn print_unnamed<W: Sink>(out: &mut Watched<W>, entry: &Entry) -> Result<(), WriteFailed>
    requires { IsEntry entry.now }
    ensures text { OnOk result (Prints W.contents out.old out.new
        (codes "no plan: the book has no entry that this corrects or follows:\n  " ++ text_of entry.now ++ codes "\n")) }
    ensures failed { TellsFailure result out.old out.new }
{
    print_words(
        out,
        "no plan: the book has no entry that this corrects or follows:\n  ",
    )?;
    print_row(out, entry)
}

/// Prints the entry that the Laws refuse once everything wanted is in, and why.
fn print_against<W: Sink>(
    out: &mut Watched<W>,
    placed: &Placed,
    why: LawRefusal,
) -> Result<(), WriteFailed>
    requires { IsPlain placed.now.item }
    ensures text { OnOk result (Prints W.contents out.old out.new
        (codes "no plan" ++ later_words placed.now.place placed.now.item why)) }
    ensures failed { TellsFailure result out.old out.new }
{
    print_words(out, "no plan")?;
    print_later_words(out, placed.place, placed.item, why)
}

/// Prints a plan, or why there is none.
fn print_plan<W: Sink>(out: &mut Watched<W>, plan: &Plan) -> Result<(), WriteFailed>
    requires { IsFinePlan plan.now }
    ensures text { OnOk result (Prints W.contents out.old out.new (planning.plan_text plan.now)) }
    ensures failed { TellsFailure result out.old out.new }
{
    match plan {
        Plan::Lines(lines) => print_lines(out, lines),
        Plan::Unnamed(entry) => print_unnamed(out, entry),
        Plan::Against(placed, why) => print_against(out, placed, *why),
        Plan::TooLong => print_words(
            out,
            "no plan found: void the later entries, the last first; correct; put them back\n",
        ),
    }
}

/// Prints the answer to a line that begins with `plan`.
pub fn print_planned<B: BookOf, W: Sink>(
    out: &mut Watched<W>,
    sheet: &MatchSheet,
    planned: &Planned,
    book: &B,
) -> Result<(), WriteFailed>
    requires { IsFinePlanned planned.now }
    ensures text { OnOk result (Prints W.contents out.old out.new
        (planning.planned_text sheet.now (B.content book.now) planned.now)) }
    ensures failed { TellsFailure result out.old out.new }
{
    match planned {
        Planned::Plan(plan) => print_plan(out, plan),
        Planned::Unclear(unclear) => print_question(out, sheet, unclear, book),
        Planned::NoMemory => writeln!(out, "no memory for a plan"),
    }
}
