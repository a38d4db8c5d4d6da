//! What the clock makes a desk tell its scorer of the other desk: that it has written, that it isn't heard, and that it is
//! heard again.

use super::*;
use wire::SIZE;

/// Checks what a new desk A, which is given these datagrams, tells its scorer, who types these lines: each text in its turn, up
/// to its time.
fn is_told(rt: &impl Abort, alloc: Global, keys: &[Key], brings: &[Bring], texts: &[(u64, &str)]) {
    let world = World::new();
    let link = Timed::new(alloc, &world, brings);
    let keys = Keyboard::new(&world, keys, false);
    let (told, _link) = run(rt, alloc, &world, link, keys, 150);
    let mut had = 0;
    for (at, text) in texts {
        let now = told.by(*at);
        let from = had.min(now.len());
        assert_eq!(rt; &now[from..], text.as_bytes(), "{at}");
        had = now.len();
    }
    assert_eq!(rt; had, told.text.len());
}

const GREETING: &str = "No play\n0 next\n";

const MISSED: &str = "the other desk isn't heard\n";

const HEARD: &str = "the other desk is heard again\n";

const WRITTEN_AND_MISSED: &str = "0 the other has written\nthe other desk isn't heard\n";

const ALL_OF_THESE: &str = "No play\n0 next\n0 the other has written\nthe other desk isn't heard\n";

const DIFFERS: &str = "0 differs: you innings home,\n  the other void\n";

// The other desk's vote is told 5 seconds after it came, once for a position, unless the scorer's own vote is cast.
#[test]
fn the_other_has_written(rt: HostRuntime) {
    let brings = [
        once(1000, void(&rt, 0, 0)),
        each_second(2, 9, ask(Asker::B, 0, 0)),
        once(9000, void(&rt, 1, 0)),
        each_second(10, 16, ask(Asker::B, 1, 0)),
        once(16_000, void(&rt, 2, 0)),
        each_second(17, 20, ask(Asker::B, 2, 0)),
        each_second(20, 60, ask(Asker::B, 3, 0)),
    ];
    let keys = [(8000, "void"), (14_700, "void"), (19_000, "void")];
    let texts = [
        (5900, GREETING),
        (6500, "0 the other has written\n"),
        (7900, ""),
        (8500, "0 agreed: void\nNo play\n"),
        (13_900, ""),
        (14_500, "1 the other has written\n"),
        (15_300, "1 agreed: void\nNo play\n"),
        (18_900, ""),
        (19_500, "2 agreed: void\nNo play\n"),
        (60_000, ""),
    ];
    is_told(&rt, rt.alloc(), &keys, &brings, &texts);
}

// The two votes differ: in the next round it is told once more.
#[test]
fn in_each_round(rt: HostRuntime) {
    let brings = [
        once(1000, void(&rt, 0, 0)),
        each_second(2, 8, ask(Asker::B, 0, 0)),
        once(8000, void(&rt, 0, 1)),
        each_second(9, 60, ask(Asker::B, 0, 1)),
    ];
    let keys = [(7000, "innings home")];
    let texts = [
        (5900, GREETING),
        (6500, "0 the other has written\n"),
        (6900, ""),
        (7500, DIFFERS),
        (12_900, ""),
        (13_500, "0 the other has written\n"),
        (60_000, ""),
    ];
    is_told(&rt, rt.alloc(), &keys, &brings, &texts);
}

// None of these counts as hearing the other desk: a board's asks, those of a laptop that was started as the same desk, and
// bytes that are no message.
#[test]
fn the_other_desk_is_missed(rt: HostRuntime) {
    let texts = [(4900, GREETING), (5500, MISSED), (60_000, "")];
    is_told(&rt, rt.alloc(), &[], &[], &texts);
    let (board, own) = (ask(Asker::Board, 0, 0), ask(Asker::A, 0, 0));
    let brings = [
        once(1000, [0; SIZE]),
        each_second(1, 3, board),
        each_second(3, 6, own),
        each_second(6, 15, board),
        each_second(15, 22, own),
        each_second(22, 30, [0; SIZE]),
    ];
    let texts = [
        (900, GREETING),
        (1500, "peer: 51 NotOurs\n"),
        (4900, ""),
        (5500, MISSED),
        (60_000, ""),
    ];
    is_told(&rt, rt.alloc(), &[], &brings, &texts);
}

// An ask or a vote of the other desk for the position ends its silence; silence and end are told in turns. An ask or a vote for
// another position may be a repeat.
#[test]
fn the_other_desk_is_heard_again(rt: HostRuntime) {
    let brings = [
        once(7000, ask(Asker::B, 0, 0)),
        once(13_000, void(&rt, 0, 0)),
        once(19_000, void(&rt, 0, 0)),
        once(26_000, ask(Asker::B, 4, 0)),
    ];
    let texts = [
        (4900, GREETING),
        (5500, MISSED),
        (6900, ""),
        (7000, HEARD),
        (11_900, ""),
        (12_500, MISSED),
        (12_900, ""),
        (13_000, HEARD),
        (17_900, ""),
        (18_500, WRITTEN_AND_MISSED),
        (18_900, ""),
        (19_000, HEARD),
        (23_900, ""),
        (24_500, MISSED),
        (90_000, ""),
    ];
    is_told(&rt, rt.alloc(), &[], &brings, &texts);
}

// An empty line asks where the scorer stands with the other desk.
#[test]
fn an_empty_line(rt: HostRuntime) {
    let brings = [
        once(1500, void(&rt, 0, 0)),
        once(7500, ask(Asker::B, 0, 0)),
        once(9500, void(&rt, 0, 1)),
    ];
    let keys = [
        (1000, ""),
        (2100, ""),
        (7000, ""),
        (8000, ""),
        (8500, "innings home"),
        (9000, ""),
        (10_000, ""),
        (15_200, "again innings home"),
    ];
    let texts = [
        (900, GREETING),
        (1600, GREETING),
        (2000, ""),
        (2600, "No play\n0 next\n0 the other has written\n"),
        (6400, ""),
        (6999, WRITTEN_AND_MISSED),
        (7499, ALL_OF_THESE),
        (7500, HEARD),
        (7900, ""),
        (8499, "No play\n0 next\n0 the other has written\n"),
        (8999, DIFFERS),
        (9499, "No play\n0 differs\n"),
        (9900, ""),
        (10_499, "No play\n0 differs\n0 the other has written\n"),
        (14_400, ""),
        (14_999, WRITTEN_AND_MISSED),
        (15_100, ""),
        (15_699, DIFFERS),
        (90_000, ""),
    ];
    is_told(&rt, rt.alloc(), &keys, &brings, &texts);
}

// An empty line doesn't tell of the other desk's vote either, once the scorer's own vote is cast.
#[test]
fn an_empty_line_of_a_desk_alone(rt: HostRuntime) {
    let keys = [(1000, "void"), (2000, ""), (6000, "")];
    let texts = [
        (900, GREETING),
        (1600, "0 pending: void\n"),
        (2600, "No play\n0 pending: void\n"),
        (4900, ""),
        (5500, MISSED),
        (5900, ""),
        (
            6500,
            "No play\n0 pending: void\nthe other desk isn't heard\n",
        ),
        (90_000, ""),
    ];
    is_told(&rt, rt.alloc(), &keys, &[], &texts);
}
