//! `ground check` reads pen lines, and prints the lines that aren't taken and the board.

ghost use Rattle.std.specs.Prelude.{◌≡◌, ◌≤◌, [], length, not, true};
ghost use Rattle.std.specs.Prelude.{IfErr, IfOk, IfSome, OnOk};
ghost use Rattle.streams.specs.Watched.{IsHandedOn, Prints, TellsFailure, stream_of};
ghost use Rattle.notation.specs.Lines.{lines_of};
ghost use Rattle.books.specs.Table.{IsInStep, agreed_in, innings_in};
ghost use Rattle.books.specs.Taking.{answer_to, with_taken};
ghost use Rattle.commands.specs.Check as texts;
ghost use Rattle.commands.specs.Check.{printed, is_rejected, has_rejected, output_of};
ghost use Rattle.setup.specs.Ends.{EndsReading, EndsWriting};
ghost use Rattle.setup.specs.Fault.{IsOfStreams};

use books::{Table, print_rejected};
use cards::{MatchSheet, board_lines, plain_sheet};
use corrections::BookOf;
use notation::Lines;
use setup::{StopFault, Stopped, output};
use std::alloc::Global;
use streams::{Feed, LONGEST_INPUT, Sink, Watched, WriteFailed, read_all};

/// Takes one line, or prints why it isn't taken. Returns whether it was taken.
fn take_line<W: Sink>(
    table: &mut Table,
    out: &mut Watched<W>,
    number: u64,
    line: &[u8],
) -> Result<bool, WriteFailed>
    requires { IsInStep table.old }
    ensures in_step { IsInStep table.new }
    ensures book { agreed_in table.new ≡
        with_taken (answer_to (innings_in table.old) (agreed_in table.old) line.now) (agreed_in table.old) }
    ensures same_match { innings_in table.new ≡ innings_in table.old }
    ensures printed { OnOk result (Prints W.contents out.old out.new
        (printed number (answer_to (innings_in table.old) (agreed_in table.old) line.now))) }
    ensures taken { IfOk result (λ taken.
        taken ≡ not (is_rejected (answer_to (innings_in table.old) (agreed_in table.old) line.now))) }
    ensures failed { TellsFailure result out.old out.new }
{
    match table.take(line) {
        Ok(()) => Ok(true),
        Err(why) => {
            print_rejected(out, number, why)?;
            Ok(false)
        }
    }
}

/// Takes the lines of an input, and prints why a line isn't taken, and then the board. Returns whether a line wasn't taken.
fn check_lines<W: Sink>(
    table: &mut Table,
    sheet: &MatchSheet,
    out: &mut Watched<W>,
    input: &[u8],
) -> Result<bool, WriteFailed>
    requires short { length input.now ≤ LONGEST_INPUT }
    requires in_step { IsInStep table.old }
    requires empty { agreed_in table.old ≡ [] }
    requires plain { sheet.now ≡ texts.sheet (innings_in table.old) }
    ensures written { OnOk result (Prints W.contents out.old out.new (output_of (innings_in table.old) input.now)) }
    ensures rejected { IfOk result (λ rejected.
        rejected ≡ has_rejected (innings_in table.old) [] (lines_of input.now)) }
    ensures handed_on { OnOk result (IsHandedOn W.calls out.new) }
    ensures failed { TellsFailure result out.old out.new }
{
    let mut lines = Lines::new(input);
    let mut number = 0;
    let mut rejected = false;
    while let Some(line) = lines.next() {
        number += 1;
        let taken = take_line(table, out, number, line)?;
        rejected |= !taken;
    }
    board_lines(sheet, table.book.score(), out)?;
    out.flush()?;
    Ok(rejected)
}

/// `ground check`: reads pen lines to the end, has two seats agree each line that the book takes, in a match of one or two
/// innings a side, and writes a line for each one that isn't taken, and then the six board lines of the book. Returns whether
/// a line wasn't taken.
pub fn check_run<R: Feed, W: Sink>(
    alloc: Global,
    innings: u32,
    reader: &mut Watched<R>,
    writer: &mut Watched<W>,
) -> Result<bool, StopFault>
    requires { (1 ≤ innings) × (innings ≤ 2) }
    ensures written { OnOk result (IfSome (R.remaining (stream_of reader.old)) (λ input.
        Prints W.contents writer.old writer.new (output_of innings input))) }
    ensures rejected { IfOk result (λ rejected. IfSome (R.remaining (stream_of reader.old)) (λ input.
        rejected ≡ has_rejected innings [] (lines_of input))) }
    ensures only { IfErr result IsOfStreams }
    ensures read { EndsReading R.remaining StopFault.Read result reader.old reader.new }
    ensures writes { EndsWriting W.calls StopFault.Write result writer.old writer.new }
{
    let input = read_all(alloc, reader)?;
    let mut table = Table::new(alloc, innings)?;
    let sheet = plain_sheet(alloc, 0, innings)?;
    match check_lines(&mut table, &sheet, writer, input.as_slice()) {
        Ok(rejected) => Ok(rejected),
        Err(_) => Err(StopFault::Write),
    }
}

/// Runs `check` from standard input to standard output.
#[inline(never)]
pub fn start_check(rt: &HostRuntime, innings: u32) -> Result<bool, Stopped<'static>>
    requires { (1 ≤ innings) × (innings ≤ 2) }
{
    let mut writer = output(rt)?;
    let mut reader = Watched::new(rt.reader());
    check_run(rt.alloc(), innings, &mut reader, &mut writer).map_err(|fault| Stopped::at(
        "-", fault,
    ))
}
