//! The calls of an innings, item by item.

use ball_laws::{BallRefusal, Crease, Ends};
use notation::{Ball, Bound, Kind, Leave, Player};
use std::process::Abort;

fn player(rt: &impl Abort, number: u8) -> Player {
    Player::new(number).expect(rt, "a player")
}

fn taken(rt: &impl Abort, answer: Result<Crease, BallRefusal>) -> Crease {
    answer.expect(rt, "an item that is taken")
}

/// Two batters, a single, over, a swap and a run out.
#[test]
fn each_call(rt: HostRuntime) {
    let (one, two) = (player(&rt, 1), player(&rt, 2));
    let single = Ball {
        bowler: player(&rt, 7),
        kind: Kind::Bat,
        ran: 1,
        short: 0,
        bound: Bound::Run,
        dead: false,
        out: None,
    };
    let crease = taken(&rt, Crease::empty().come_in(one));
    let crease = taken(&rt, crease.come_in(two));
    let crease = taken(&rt, crease.play(&single));
    let crease = taken(&rt, crease.call_over());
    let crease = taken(&rt, crease.swap());
    assert!(rt; crease.wickets() < 10);
    let crease = taken(&rt, crease.go(Leave::RunOut, one));
    let ends = Ends {
        striker: Some(two),
        other: None,
    };
    assert!(rt; crease.ends() == ends && crease.wickets() == 1);
}
