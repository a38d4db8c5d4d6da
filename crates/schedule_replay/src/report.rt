//! A replay: a new world, run over a whole schedule, and the report of that run.

ghost use Rattle.std.specs.Prelude.{◌≤◌, ℕ, All, IfErr, IfOk, length};
ghost use Rattle.schedule_replay.specs.CodeWorlds.{IsNew, boards_of, match_version};
ghost use Rattle.schedule_replay.specs.inner.RunsSoFar.{HasTaken};
ghost use Rattle.headline.specs.Events.{IsEvent};
ghost use Rattle.schedule_replay.specs.Replays.{EndsAt, EndsOrNeverBegins, IsReplay};
ghost use Rattle.headline.specs.declared.version.FileVersion.{FileVersion as AVersion};
ghost use Rattle.headline.specs.declared.version.FileVersion.TheVariants as versions;

use crate::seen::{Seen, WorldRefusal};
use crate::shown_scores::ShownScores;
use crate::world::World;
use headline::{Event, Station};
use match_laws::Match;
use notation::Entry;
use std::alloc::Global;

/// The report of a replay.
pub struct Report {
    /// The outcome of each event.
    pub outcomes: Vec<Seen>,
    /// The agreed list of all votes, as both files show it.
    pub agreed: Vec<Entry>,
    /// Each station with its book's length and score, as shown at the start or after an event; once each.
    pub seen: Vec<(Station, u32, Match)>,
}

// one step for a caller that drops it, instead of one for each part
impl Drop for Report {
    fn drop(self) {
        let Report {
            outcomes: _,
            agreed: _,
            seen: _,
        } = self;
    }
}

/// Runs a new world on files of version 2 over these events, and reports the run as `replay_in` does. The match has this
/// number, one or two innings a side and 0 to 4 boards. It ends as `replay_in` does, and also with the number 0 if there is no
/// memory for the world.
pub fn replay(
    alloc: Global,
    game: u64,
    innings_a_side: u32,
    boards: u8,
    events: &[Event],
) -> Result<Report, (u64, WorldRefusal)>
    requires innings { (1 ≤ innings_a_side) × (innings_a_side ≤ 2) }
    requires boards { boards ≤ 4 }
    requires events { All IsEvent events.now }
    ensures reported { IfOk result (IsReplay game innings_a_side versions.New boards events.now) }
    ensures ends { IfErr result (EndsOrNeverBegins game innings_a_side versions.New boards events.now) }
{
    match World::new(alloc, game, innings_a_side, boards) {
        Ok(world) => replay_in(alloc, world, events),
        Err(_) => Err(NO_MEMORY),
    }
}

/// Does what `replay` does, on files of version 1.
pub fn replay_old(
    alloc: Global,
    game: u64,
    innings_a_side: u32,
    boards: u8,
    events: &[Event],
) -> Result<Report, (u64, WorldRefusal)>
    requires innings { (1 ≤ innings_a_side) × (innings_a_side ≤ 2) }
    requires boards { boards ≤ 4 }
    requires events { All IsEvent events.now }
    ensures reported { IfOk result (IsReplay game innings_a_side versions.Old boards events.now) }
    ensures ends { IfErr result (EndsOrNeverBegins game innings_a_side versions.Old boards events.now) }
{
    match World::old(alloc, game, innings_a_side, boards) {
        Ok(world) => replay_in(alloc, world, events),
        Err(_) => Err(NO_MEMORY),
    }
}

/// Runs a given new world over these events, and reports the run.
///
/// Whatever the events are, in this run of any two books that desks or boards show at any two moments one is a prefix of the
/// other; both scorers voted for each entry in one round; each score is the Laws' score of its book; and a running station that
/// noted both equal votes of its position has the entry.
///
/// It ends at the first event that the world refuses, with the event's number, counted from 1, and why; all this holds of the
/// events before. The number is 0 if the world takes all the events, and memory runs out for the report alone.
pub fn replay_in(
    alloc: Global,
    mut world: World,
    events: &[Event],
) -> Result<Report, (u64, WorldRefusal)>
    requires new { IsNew world }
    requires boards { boards_of world ≤ 4 }
    requires events { All IsEvent events.now }
    ensures reported { IfOk result (IsReplay world.game world.innings_a_side (match_version world)
        (boards_of world) events.now) }
    ensures ends { IfErr result (EndsAt world.game world.innings_a_side (match_version world)
        (boards_of world) events.now) }
{
    let Ok(mut shown) = ShownScores::new(alloc) else {
        return Err(end_unreported(world, events, 0));
    };
    let Ok(mut outcomes) = Vec::with_capacity(alloc, events.len()) else {
        return Err(end_unreported(world, events, 0));
    };
    let Ok(()) = world.note(&mut shown) else {
        return Err(end_unreported(world, events, 0));
    };
    for (number, event) in events.iter().enumerate() {
        match world.step(event) {
            Ok(seen) => outcomes.push(seen).unwrap(),
            Err(why) => return Err((number as u64 + 1, why)),
        }
        let Ok(()) = world.note(&mut shown) else {
            return Err(end_unreported(world, events, number + 1));
        };
    }
    let Ok(agreed) = world.agreed() else {
        return Err(NO_MEMORY);
    };
    Ok(Report {
        outcomes,
        agreed,
        seen: shown.seen,
    })
}

/// Memory ran out, and no event was refused.
const NO_MEMORY: (u64, WorldRefusal) = (0, WorldRefusal::NoMemory);

/// Returns why there is no report, when memory for it ran out after this many events: the world takes all later events too, or
/// refuses one of them.
fn end_unreported(mut world: World, events: &[Event], after: usize) -> (u64, WorldRefusal)
    requires after { after ≤ length events.now }
    requires events { All IsEvent events.now }
    ensures { (game innings boards : ℕ) (version : AVersion) →
        HasTaken game innings version boards events.now after world →
        EndsAt game innings version boards events.now result }
{
    for number in after..events.len() {
        if let Err(why) = world.step(&events[number]) {
            return (number as u64 + 1, why);
        }
    }
    NO_MEMORY
}
