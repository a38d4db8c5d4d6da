//! What a desk's scorer is told when a line lacks `again` after the scorers differed.

ghost use Rattle.std.specs.Prelude.{OnOk};
ghost use Rattle.streams.specs.Watched.{Prints, TellsFailure};
ghost use Rattle.station_texts.specs.Texts as texts;

use crate::refusals::print_refused;
use crate::said::BehindAgain;
use crate::texts::{print_at, why_full};
use agree_core::Position;
use streams::{Sink, Watched, WriteFailed};

/// Prints the line as it must be typed, with `again` before it, since the scorers differed.
fn print_with_again<W: Sink>(
    out: &mut Watched<W>,
    place: u32,
    line: &str,
) -> Result<(), WriteFailed>
    ensures text { OnOk result (Prints W.contents out.old out.new (texts.with_again place line.now)) }
    ensures failed { TellsFailure result out.old out.new }
{
    writeln!(
        out,
        "{place} differs: begin the line with again: again {line}"
    )
}

/// Prints that the line must begin with `again`, since the scorers differed; shows it so if it fits.
fn print_ask_again<W: Sink>(
    out: &mut Watched<W>,
    place: u32,
    line: &Option<BehindAgain>,
) -> Result<(), WriteFailed>
    ensures text { OnOk result (Prints W.contents out.old out.new (texts.ask_again place line.now)) }
    ensures failed { TellsFailure result out.old out.new }
{
    match line {
        Some(line) => print_with_again(out, place, line.as_str()),
        None => print_at(out, place, "differs: begin the line with again"),
    }
}

/// Prints that the line must begin with `again`, since the scorers differed at this position (shown so if it fits); or, where
/// no vote can be cast, why.
pub fn print_again<W: Sink>(
    out: &mut Watched<W>,
    at: Position,
    line: &Option<BehindAgain>,
) -> Result<(), WriteFailed>
    ensures text { OnOk result (Prints W.contents out.old out.new (texts.again_text at line.now (texts.why_full at))) }
    ensures failed { TellsFailure result out.old out.new }
{
    match why_full(at) {
        Some(why) => print_refused(out, why),
        None => print_ask_again(out, at.place, line),
    }
}
