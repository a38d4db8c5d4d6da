//! `ground replay`: reads a schedule's events, and prints the answer to each and what the stations show.

ghost use Rattle.std.specs.Prelude.{◌≡◌, ◌≢◌, ◌≤◌, ◌⊎◌, All, Err, IfErr, IfOk, IfSome, OnOk};
ghost use Rattle.streams.specs.Watched.{IsHandedOn, MeetsFailure, failures, stream_of};
ghost use Rattle.headline.specs.Events.{IsEvent};
ghost use Rattle.replay_command.specs.ReplayRun.{IsOfReplay, PrintsReplay, PrintsRun, WhyNoReplay};
ghost use Rattle.setup.specs.Ends.{EndsReading, EndsWriting};

mod print;
mod step;

use cards::MatchSheet;
use headline::{Event, FileVersion};
use print::{print_refused, print_whole, stations_text};
use schedules::read_schedule;
use setup::{StopFault, Stopped, open_input, output, sheet_at};
use std::alloc::Global;
use step::{Stepped, step_all};
use streams::{Feed, Sink, Watched, read_all};

/// Runs these events in a world, and prints how they ran. Returns whether the world refused one.
fn print_run<W: Sink>(
    alloc: Global,
    sheet: &MatchSheet,
    version: FileVersion,
    boards: u8,
    events: &[Event],
    out: &mut Watched<W>,
) -> Result<bool, StopFault>
    requires boards { boards ≤ 4 }
    requires events { All IsEvent events.now }
    ensures written { IfOk result (PrintsRun W.contents out.old out.new sheet.now version boards events.now) }
    ensures only { IfErr result (λ fault. (fault ≡ StopFault.NoMemory) ⊎ (fault ≡ StopFault.Write)) }
    ensures write { result ≡ Err StopFault.Write → MeetsFailure out.old out.new }
    ensures sound { OnOk result (failures out.new ≡ failures out.old) }
    ensures handed_on { OnOk result (IsHandedOn W.calls out.new) }
    ensures unwritten { IfErr result (λ fault. fault ≢ StopFault.Write → out.new ≡ out.old) }
{
    match step_all(alloc, sheet, version, boards, events)? {
        Stepped::Whole(outcomes, world) => {
            let stations = stations_text(alloc, &world)?;
            let agreed = world.agreed()?;
            match print_whole(out, outcomes.as_slice(), agreed.len(), stations.as_str()) {
                Ok(()) => Ok(false),
                Err(_) => Err(StopFault::Write),
            }
        }
        Stepped::Refused(outcomes, event, why) => {
            match print_refused(out, outcomes.as_slice(), event, why) {
                Ok(()) => Ok(true),
                Err(_) => Err(StopFault::Write),
            }
        }
    }
}

/// `ground replay`: reads a schedule to its end and runs it in a world of the sheet's match, with desks on files of this
/// version and this many boards. Prints the answer to each event, how many entries are agreed, and what each station shows; or,
/// if the world refuses an event, the answers to those before it, and the refusal. Returns whether the world refused one. A
/// schedule with a fault is refused with `Schedule`.
pub fn replay_run<R: Feed, W: Sink>(
    alloc: Global,
    sheet: &MatchSheet,
    version: FileVersion,
    boards: u8,
    reader: &mut Watched<R>,
    writer: &mut Watched<W>,
) -> Result<bool, StopFault>
    requires { boards ≤ 4 }
    ensures written { IfOk result (λ refused. IfSome (R.remaining (stream_of reader.old)) (λ input.
        PrintsReplay W.contents writer.old writer.new sheet.now version boards input refused)) }
    ensures why { IfErr result (λ fault. IfSome (R.remaining (stream_of reader.old)) (λ input.
        WhyNoReplay input fault)) }
    ensures only { IfErr result IsOfReplay }
    ensures read { EndsReading R.remaining StopFault.Read result reader.old reader.new }
    ensures writes { EndsWriting W.calls StopFault.Write result writer.old writer.new }
{
    let input = read_all(alloc, reader)?;
    let events = read_schedule(alloc, input.as_slice())?;
    print_run(alloc, sheet, version, boards, events.as_slice(), writer)
}

/// Runs `replay` over a schedule in a file.
#[inline(never)]
pub fn start_replay<'a>(
    rt: &HostRuntime,
    sheet: &'a str,
    schedule: &'a str,
    boards: u8,
    is_old: bool,
) -> Result<bool, Stopped<'a>>
    requires { boards ≤ 4 }
{
    let sheet = sheet_at(rt, sheet)?;
    let mut reader = open_input(rt, schedule)?;
    let mut writer = output(rt)?;
    let version = if is_old {
        FileVersion::Old
    } else {
        FileVersion::New
    };
    let answer = replay_run(
        rt.alloc(),
        &sheet,
        version,
        boards,
        &mut reader,
        &mut writer,
    );
    answer.map_err(|fault| Stopped::at(schedule, fault))
}
