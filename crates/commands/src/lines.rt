//! The full lines of a book, from which the match can be started again.

ghost use Rattle.std.specs.Prelude.{ℕ, OnOk};
ghost use Rattle.notation.specs.Written.{IsEntry};
ghost use Rattle.streams.specs.Watched.{IsHandedOn, Prints, TellsFailure};
ghost use Rattle.commands.specs.Lines as texts;
ghost use Rattle.commands.specs.Lines.{AreReadAgain};

use corrections::BookOf;
use notation::{Entry, line_of};
use streams::{Sink, Watched, WriteFailed};

/// Prints the full line of an entry.
fn print_line<W: Sink>(entry: &Entry, out: &mut Watched<W>) -> Result<(), WriteFailed>
    requires { IsEntry entry.now }
    ensures text { (place : ℕ) → OnOk result (Prints W.contents out.old out.new (texts.full_line place entry.now)) }
    ensures failed { TellsFailure result out.old out.new }
{
    let line = line_of(entry);
    let text = line.as_str();
    writeln!(out, "{text}")
}

/// Prints the full line of each entry of a book, in order.
fn print_each<W: Sink, B: BookOf>(book: &B, out: &mut Watched<W>) -> Result<(), WriteFailed>
    ensures text { OnOk result (Prints W.contents out.old out.new (texts.lines_text (B.content book.now))) }
    ensures again { OnOk result (AreReadAgain (B.content book.now)) }
    ensures failed { TellsFailure result out.old out.new }
{
    for place in 0..book.len() {
        print_line(&book.entry(place), out)?;
    }
    Ok(())
}

/// Prints the full line of each entry of a book, in order, and flushes. Fails only where a write fails, and doesn't say how
/// much was written by then.
pub fn print_lines<W: Sink, B: BookOf>(book: &B, out: &mut Watched<W>) -> Result<(), WriteFailed>
    ensures text { OnOk result (Prints W.contents out.old out.new (texts.lines_text (B.content book.now))) }
    ensures again { OnOk result (AreReadAgain (B.content book.now)) }
    ensures failed { TellsFailure result out.old out.new }
    ensures handed_on { OnOk result (IsHandedOn W.calls out.new) }
{
    print_each(book, out)?;
    out.flush()
}
