//! `ground compare` tells what both desks' votes files have in common, and where they differ.

ghost use Rattle.std.specs.Prelude.{IfErr, IfOk, IfSome};
ghost use Rattle.agree_core.specs.declared.messages.DeskId.TheVariants.{A, B};
ghost use Rattle.streams.specs.Watched.{stream_of};
ghost use Rattle.commands.specs.BothFiles.{PrintsComparison, WhyNotCompared};
ghost use Rattle.setup.specs.Ends.{EndsReading, EndsWriting};

use crate::both_files::{BothPrintFault, read_both, stopped_at};
use books::{compare_files, print_comparison};
use cards::MatchSheet;
use setup::{Stopped, open_input, output, short_sheet_at};
use std::alloc::Global;
use streams::{Feed, Sink, Watched};

/// `ground compare`: reads both desks' votes files to the end, and prints a line for each position at which the desks differ,
/// and then how many entries are agreed, and how many of these lines are of both desks, of A alone and of B alone; and, where
/// the files aren't of one history, from which place on. Returns whether they aren't. Writes nothing where a file is refused.
pub fn compare_run<R: Feed, W: Sink>(
    alloc: Global,
    sheet: &MatchSheet,
    a: &mut Watched<R>,
    b: &mut Watched<R>,
    writer: &mut Watched<W>,
) -> Result<bool, BothPrintFault>
    ensures written { IfOk result (λ refused. IfSome (R.remaining (stream_of a.old)) (λ first.
        IfSome (R.remaining (stream_of b.old)) (λ second.
        PrintsComparison W.contents writer.old writer.new sheet.now first second refused))) }
    ensures why { IfErr result (λ fault. IfSome (R.remaining (stream_of a.old)) (λ first.
        IfSome (R.remaining (stream_of b.old)) (λ second. WhyNotCompared sheet.now first second fault))) }
    ensures read_first { EndsReading R.remaining (BothPrintFault.Read A) result a.old a.new }
    ensures read_second { EndsReading R.remaining (BothPrintFault.Read B) result b.old b.new }
    ensures writes { EndsWriting W.calls BothPrintFault.Write result writer.old writer.new }
{
    let (first, second) = read_both(alloc, a, b)?;
    let comparison = compare_files(alloc, sheet.game(), first.as_slice(), second.as_slice())?;
    match print_comparison(&comparison, writer) {
        Ok(()) => Ok(comparison.torn.is_some()),
        Err(_) => Err(BothPrintFault::Write),
    }
}

/// Runs `compare` on both desks' votes files.
#[inline(never)]
pub fn start_compare<'a>(
    rt: &HostRuntime,
    sheet: &'a str,
    a: &'a str,
    b: &'a str,
) -> Result<bool, Stopped<'a>> {
    let sheet = short_sheet_at(rt, sheet)?;
    let mut first = open_input(rt, a)?;
    let mut second = open_input(rt, b)?;
    let mut writer = output(rt)?;
    match compare_run(rt.alloc(), &sheet, &mut first, &mut second, &mut writer) {
        Ok(refused) => Ok(refused),
        Err(fault) => Err(stopped_at(fault, a, b)),
    }
}
