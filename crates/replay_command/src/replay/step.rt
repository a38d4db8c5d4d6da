//! Running the events of a schedule in a world.

ghost use Rattle.std.specs.Prelude.{◌≤◌, All, IfOk};
ghost use Rattle.schedule_replay.specs.CodeWorlds.{BeginsWorld};
ghost use Rattle.headline.specs.Events.{IsEvent};
ghost use Rattle.replay_command.specs.ReplayRun.{IsStepped};

use cards::MatchSheet;
use headline::{Event, FileVersion};
use schedule_replay::{Seen, World};
use std::alloc::{AllocError, Global};

/// How the events of a schedule ran.
#[derive(Drop)]
pub enum Stepped {
    /// The world took all events: their answers, and the world after them.
    Whole(Vec<Seen>, World),
    /// The world refused an event: the answers of those before it, its number, counted from 1, and the number of the refusal.
    Refused(Vec<Seen>, u64, u8),
}

/// Makes a new world for the match of a sheet, on files of this version.
fn begin(
    alloc: Global,
    sheet: &MatchSheet,
    version: FileVersion,
    boards: u8,
) -> Result<World, AllocError>
    requires { boards ≤ 4 }
    ensures { IfOk result (BeginsWorld sheet.now.game sheet.now.innings version boards) }
{
    match version {
        FileVersion::Old => World::old(alloc, sheet.game(), sheet.innings(), boards),
        FileVersion::New => World::new(alloc, sheet.game(), sheet.innings(), boards),
    }
}

/// Runs the events in a new world, up to the first that the world refuses.
pub fn step_all(
    alloc: Global,
    sheet: &MatchSheet,
    version: FileVersion,
    boards: u8,
    events: &[Event],
) -> Result<Stepped, AllocError>
    requires boards { boards ≤ 4 }
    requires events { All IsEvent events.now }
    ensures stepped { IfOk result (IsStepped sheet.now version boards events.now) }
{
    let mut world = begin(alloc, sheet, version, boards)?;
    let mut outcomes = Vec::with_capacity(alloc, events.len())?;
    for (before, event) in events.iter().enumerate() {
        match world.step(event) {
            Ok(seen) => outcomes.push(seen).unwrap(),
            Err(refusal) => {
                let Some(why) = refusal.number() else {
                    return Err(AllocError);
                };
                return Ok(Stepped::Refused(outcomes, before as u64 + 1, why));
            }
        }
    }
    Ok(Stepped::Whole(outcomes, world))
}
