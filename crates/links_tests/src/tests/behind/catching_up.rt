//! What a station that is behind asks for ahead of its place, and what it asks for again.
ghost use Rattle.std.specs.Prelude.{◌+◌, ◌<◌};

use super::*;

/// Brings both votes of a place to a board, which asks for the next place.
fn agrees(rt: &impl Abort, window: &mut Windowed<'_>, world: &World, place: u32)
    requires { place + 1 < PLACES }
{
    hears(rt, window, world, DeskId::A, place);
    hears(rt, window, world, DeskId::B, place);
    window.send(&ask_at(Asker::Board, place + 1, 0));
}

// A station asks ahead for as many places as votes came, and for at most one block behind them if a round trip is short.
#[test]
fn what_is_ahead_is_asked_for_as_votes_come(rt: HostRuntime) {
    let world = World::new();
    let mut window = windowed(&rt, rt.alloc(), &world);
    window.send(&ask_at(Asker::Board, 0, 0));
    for place in 0..33 {
        agrees(&rt, &mut window, &world, place);
    }
    has_sent_back(&rt, &world, 0);
    is_silent(&rt, &mut window);
    has_sent_back(&rt, &world, 2);
    has_said(&rt, &world, &ask_at(Asker::Board, 64, 0));
    for place in 33..65 {
        agrees(&rt, &mut window, &world, place);
    }
    is_silent(&rt, &mut window);
    has_sent_back(&rt, &world, 4);
    has_said(&rt, &world, &ask_at(Asker::Board, 128, 0));
    is_silent(&rt, &mut window);
    has_sent_back(&rt, &world, 4);
    has_sent(&rt, &world, 1);
}

// If many votes in a row are lacking, their ask was lost: it is said again for the first of them.
#[test]
fn a_lost_block_is_asked_for_as_one(rt: HostRuntime) {
    let world = World::new();
    let mut window = windowed(&rt, rt.alloc(), &world);
    window.send(&ask_at(Asker::B, 0, 0));
    for place in 0..34 {
        hears(&rt, &mut window, &world, DeskId::A, place);
        window.send(&ask_at(Asker::B, place + 1, 0));
    }
    for place in 35..48 {
        hears(&rt, &mut window, &world, DeskId::A, place);
    }
    // nothing of 48 to 127 has come: once they are late, 48 and 64 are asked for
    has_sent_back(&rt, &world, 1);
    for (now, back) in [(4, 2), (12, 3), (28, 6)] {
        world.now.set(now);
        is_silent(&rt, &mut window);
        has_sent_back(&rt, &world, back);
    }
    has_said(&rt, &world, &ask_at(Asker::B, 64, 0));
}
