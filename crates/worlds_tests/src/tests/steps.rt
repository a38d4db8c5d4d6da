//! What a world answers, event by event, on files of either version. If memory is refused once, a second try has it.

ghost use Rattle.headline.specs.Events.{IsEvent};

use agree_core::{DeskId, Heard, Settled};
use notation::{Entry, Plain, Side};
use schedule_replay::{Event, FileVersion, Seen, Station, World, WorldRefusal};
use std::alloc::{AllocError, Global};
use std::process::Abort;

const HOME: Entry = Entry::Write(Plain::Innings(Side::Home));

/// Makes a world of match 7, with two innings a side and one board.
fn begun(alloc: Global, version: FileVersion) -> Result<World, AllocError> {
    match version {
        FileVersion::Old => World::old(alloc, 7, 2, 1),
        FileVersion::New => World::new(alloc, 7, 2, 1),
    }
}

/// Returns what the world answers to an event.
fn told(world: &mut World, event: &Event) -> Result<Seen, WorldRefusal>
    requires { IsEvent event.now }
{
    match world.step(event) {
        Err(WorldRefusal::NoMemory) => world.step(event),
        answer => answer,
    }
}

/// Checks that both desks pen the line, and each hears the other.
fn goes_on(rt: &impl Abort, alloc: Global, version: FileVersion) {
    let mut world = match begun(alloc, version) {
        Ok(world) => world,
        Err(_) => begun(alloc, version).expect(rt, "room for a world"),
    };
    let [a, b] = [Station::Desk(DeskId::A), Station::Desk(DeskId::B)];
    assert!(rt;
        told(&mut world, &Event::Pen(DeskId::A, HOME)) == Ok(Seen::Penned(Settled::Pending))
    );
    assert!(rt;
        told(&mut world, &Event::Pen(DeskId::B, HOME)) == Ok(Seen::Penned(Settled::Pending))
    );
    assert!(rt; told(&mut world, &Event::Give(1, a)) == Ok(Seen::Heard(Heard::Agreed)));
    assert!(rt; told(&mut world, &Event::Give(0, b)) == Ok(Seen::Heard(Heard::Agreed)));
}

#[test]
fn a_world_goes_on(rt: HostRuntime) {
    goes_on(&rt, rt.alloc(), FileVersion::New);
    goes_on(&rt, rt.alloc(), FileVersion::Old);
}
