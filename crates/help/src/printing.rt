//! How a text is printed.

ghost use Rattle.std.specs.Prelude.{OnOk};
ghost use Rattle.streams.specs.Watched.{IsHandedOn, Prints, TellsFailure};
ghost use Rattle.help.specs.Texts as texts;

use crate::subject::Subject;
use crate::texts::help_on;
use streams::{Sink, Watched, WriteFailed};

/// Prints the help text of a word, and flushes it.
pub fn print_help<W: Sink>(out: &mut Watched<W>, subject: Subject) -> Result<(), WriteFailed>
    ensures text { OnOk result (Prints W.contents out.old out.new (texts.help_on subject)) }
    ensures handed_on { OnOk result (IsHandedOn W.calls out.new) }
    ensures failed { TellsFailure result out.old out.new }
{
    write!(out, "{}", help_on(subject))?;
    out.flush()
}
