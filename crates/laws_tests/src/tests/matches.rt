//! A match, which a board or a desk copies at each line, and the calls that return another match.

use corrections::Tally;
use match_laws::{Match, start, step};
use notation::{Plain, Side};

#[test]
fn size_of_a_match(rt: HostRuntime) {
    assert!(rt; std::mem::size_of::<Match>() == 3304);
}

#[test]
fn steps(rt: HostRuntime) {
    let item = Plain::Innings(Side::Home);
    let mut tally = Tally::new();
    let game = start(2);
    let mut taken = game;
    assert!(rt; tally.take(&mut taken, &item).is_ok());
    assert!(rt; taken.begun() == 1 && game.begun() == 0);
    assert!(rt; step(&game, &item) == Ok(taken));
    assert!(rt; tally.step(&game, &item) == Ok(taken) && tally.count() == 2);
}
