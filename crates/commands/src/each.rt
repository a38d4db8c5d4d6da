//! `--each` of `card`, `lines`, `export` and `page`: a product of many matches in one process.

ghost use Rattle.std.specs.Prelude.{◌≡◌, ◌≤◌, ℕ, length, IfErr, IfOk, IfSome, MatchOption, OnOk};
ghost use Rattle.streams.specs.Watched.{IsHandedOn, TellsFailure, stream_of};
ghost use Rattle.commands.specs.Each as texts;
ghost use Rattle.commands.specs.Each.{DoesEach, DoesLine, IsFolder, Tells, TellsRefusal};
ghost use Rattle.commands.specs.Frames.{WhyNoFrame};
ghost use Rattle.setup.specs.Ends.{EndsReading, EndsWriting};
ghost use Rattle.setup.specs.Fault.{IsOfStreams};

use crate::frames::{MatchFault, frame_of, print_frame, print_refusal};
use crate::match_files::{Files, path_of};
use crate::product::Product;
use notation::Lines;
use setup::{StopFault, Stopped, output, printable};
use std::alloc::Global;
use streams::{Feed, LONGEST_INPUT, Sink, Watched, WriteFailed, read_all};

/// Whether a byte is no control character.
fn is_plain(byte: u8) -> bool
    ensures { result ≡ texts.is_plain byte }
{
    byte >= 32 && byte != 127
}

/// Returns a line as the name of a folder, if it is one: text, without a control character.
fn folder_in(line: &[u8]) -> Option<&str>
    ensures { MatchOption result (¬ (IsFolder line.now)) (λ folder. (folder.now ≡ line.now) × IsFolder line.now) }
{
    if line.is_empty() || !line.iter().all(|byte| is_plain(*byte)) {
        return None;
    }
    match str::from_utf8(line) {
        Ok(folder) => Some(folder),
        Err(_) => None,
    }
}

/// Tells that a line of the list names no folder.
fn tell_no_folder<E: Sink>(errors: &mut Watched<E>, number: u64)
    ensures { Tells E.contents errors.old errors.new (texts.no_folder_line number) }
{
    let _ = writeln!(errors, "line {number}: no name of a folder");
}

/// Tells why the match in a folder has no frame, or that there is no memory to tell it.
fn tell_refusal<F: Files, E: Sink>(
    alloc: Global,
    product: Product,
    files: &F,
    folder: &str,
    fault: &MatchFault,
    errors: &mut Watched<E>,
)
    requires { WhyNoFrame (F.known files.now) product folder.now fault.now }
    ensures { TellsRefusal (F.known files.now) product folder.now E.contents errors.old errors.new }
{
    let shown = printable(folder);
    let _ = match path_of(alloc, folder, fault.file()) {
        Ok(path) => print_refusal(errors, shown, printable(path.as_str()), fault),
        Err(_) => print_refusal(errors, shown, "?", &MatchFault::NoMemory),
    };
}

/// Prints the frame of the match in a folder, or tells why it has none. The answer is whether it was printed.
fn print_match<F: Files, W: Sink, E: Sink>(
    alloc: Global,
    product: Product,
    files: &F,
    folder: &str,
    out: &mut Watched<W>,
    errors: &mut Watched<E>,
) -> Result<bool, WriteFailed>
    requires { IsFolder folder.now }
    ensures does { (n : ℕ) → IfOk result (DoesLine (F.known files.now) product
        W.contents out.old out.new E.contents errors.old errors.new n folder.now) }
    ensures failed { TellsFailure result out.old out.new }
{
    match frame_of(alloc, product, files, folder) {
        Ok(frame) => {
            print_frame(out, folder, &frame)?;
            Ok(true)
        }
        Err(fault) => {
            tell_refusal(alloc, product, files, folder, &fault, errors);
            Ok(false)
        }
    }
}

/// Prints the frame of the match whose folder is a line of the list, or tells why the line has none. The answer is whether it was
/// printed.
fn print_line<F: Files, W: Sink, E: Sink>(
    alloc: Global,
    product: Product,
    files: &F,
    number: u64,
    line: &[u8],
    out: &mut Watched<W>,
    errors: &mut Watched<E>,
) -> Result<bool, WriteFailed>
    ensures does { IfOk result (DoesLine (F.known files.now) product
        W.contents out.old out.new E.contents errors.old errors.new number line.now) }
    ensures failed { TellsFailure result out.old out.new }
{
    match folder_in(line) {
        Some(folder) => print_match(alloc, product, files, folder, out, errors),
        None => {
            tell_no_folder(errors, number);
            Ok(false)
        }
    }
}

/// Prints the frames of the matches in the list, in its order, and tells why a line has none. The answer is whether any line has
/// none.
fn print_each<F: Files, W: Sink, E: Sink>(
    alloc: Global,
    product: Product,
    files: &F,
    list: &[u8],
    out: &mut Watched<W>,
    errors: &mut Watched<E>,
) -> Result<bool, WriteFailed>
    requires short { length list.now ≤ LONGEST_INPUT }
    ensures does { IfOk result (DoesEach (F.known files.now) product
        W.contents out.old out.new E.contents errors.old errors.new list.now) }
    ensures handed_on { OnOk result (IsHandedOn W.calls out.new) }
    ensures failed { TellsFailure result out.old out.new }
{
    let mut lines = Lines::new(list);
    let mut number = 0;
    let mut any_told = false;
    while let Some(line) = lines.next() {
        number += 1;
        let was_printed = print_line(alloc, product, files, number, line, out, errors)?;
        any_told |= !was_printed;
    }
    out.flush()?;
    Ok(any_told)
}

/// Reads a list of folders to its end, a name a line, and prints of the match in each, in order, the frame of a product: a line
/// with the folder, how many places the files of a and of b have, how many entries both have agreed and how many bytes follow,
/// and then those. Of a match without one, and of a line that names no folder, standard error is told; the others go on. It
/// answers whether that was so of any. No more than one match is in memory at once.
pub fn each_run<R: Feed, F: Files, W: Sink, E: Sink>(
    alloc: Global,
    product: Product,
    list: &mut Watched<R>,
    files: &F,
    writer: &mut Watched<W>,
    errors: &mut Watched<E>,
) -> Result<bool, StopFault>
    ensures does { IfOk result (λ any_told. IfSome (R.remaining (stream_of list.old)) (λ folders.
        DoesEach (F.known files.now) product W.contents writer.old writer.new
        E.contents errors.old errors.new folders any_told)) }
    ensures only { IfErr result IsOfStreams }
    ensures read { EndsReading R.remaining StopFault.Read result list.old list.new }
    ensures writes { EndsWriting W.calls StopFault.Write result writer.old writer.new }
{
    let folders = read_all(alloc, list)?;
    match print_each(alloc, product, files, folders.as_slice(), writer, errors) {
        Ok(any_told) => Ok(any_told),
        Err(_) => Err(StopFault::Write),
    }
}

/// Runs `--each` over the files of this machine, with the list on standard input.
#[inline(never)]
pub fn start_each(rt: &HostRuntime, product: Product) -> Result<bool, Stopped<'static>> {
    let mut writer = output(rt)?;
    let mut list = Watched::new(rt.reader());
    let mut errors = Watched::new(rt.stderr());
    each_run(rt.alloc(), product, &mut list, rt, &mut writer, &mut errors).map_err(
        |fault| Stopped::at("-", fault),
    )
}
