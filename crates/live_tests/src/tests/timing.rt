//! When stations ask, how long they wait, and that they have handed on by then all that they have told.

use super::*;
use board::{Board, Trouble, Witness};
use corrections::BookOf;
use live::{HearingLog, Scoreboard, Shows, SightLog, Watch, run_board};
use station_texts::{Notice, NoticeLog, Notices};
use streams::WriteFailed;
use wire::SIZE;

/// The notices of a board.
#[derive(Drop)]
struct Notes {
    log: NoticeLog,
}

impl Notices for Notes {
    ghost use Rattle.station_texts.specs.NoticeLogs.{notices_of};

    ghost told = { λ notes. notices_of notes.log };

    fn tell(&mut self, notice: Notice) {
        self.log = self.log.told(notice);
    }
}

/// The states that a board has shown; and what it has heard: how many messages, and when the last one came.
#[derive(Drop)]
struct States {
    log: SightLog<Book>,
    heard: HearingLog,
    messages: u32,
    last: u64,
}

impl Shows<Book> for States {
    ghost use Rattle.std.specs.Prelude.{⊤, false};
    ghost use Rattle.live.specs.HearingLogs.{hearings_of};
    ghost use Rattle.live.specs.SightLogs.{sights_of};

    ghost seen = { λ states. sights_of ⟦<Book as BookOf>⟧.content ⟦<Book as BookOf>⟧.innings_a_side states.log };

    ghost heard = { λ states. hearings_of states.heard };

    ghost goes_on = { λ _ _ _ _. ⊤ };

    ghost failed = { λ states. false };

    fn hear(&mut self, message: &Message, now: u64) {
        self.heard = self.heard.heard(message, now);
        self.messages = self.messages.saturating_add(1);
        self.last = now;
    }

    fn show(
        &mut self,
        sheet: &MatchSheet,
        book: &Book,
        trouble: Option<Trouble>,
        _now: u64,
    ) -> Result<(), WriteFailed> {
        self.log = self.log.handed(sheet, book, trouble);
        Ok(())
    }

    fn longest_wait(&self) -> u64 {
        u64::MAX
    }
}

/// Runs a board for some turns. Returns what it has shown and heard.
fn show(rt: &impl Abort, alloc: Global, world: &World, link: &mut Timed<'_>, turns: u64) -> States {
    let sheet = sheet(rt, alloc);
    let mut board = Board::new(7, empty_book(rt, alloc));
    let mut clock = Hand::new(world);
    let mut watch = Watch {
        notices: Notes {
            log: NoticeLog::Empty,
        },
        witness: Witness::new(alloc).expect(rt, "room for a witness"),
    };
    let mut scoreboard = Scoreboard {
        lines: Watched::new(Screen::new(alloc, world)),
        state: States {
            log: SightLog::Empty,
            heard: HearingLog::Empty,
            messages: 0,
            last: 0,
        },
    };
    let answer = run_board(
        &mut board,
        &sheet,
        link,
        &mut clock,
        &mut watch,
        &mut scoreboard,
        turns,
    );
    assert!(rt; answer.is_ok());
    scoreboard.state
}

/// Checks that a desk sends at these times, in this many turns, while its scorer types these lines and these datagrams come;
/// and that it has handed on what it has told before it waits.
fn sends(
    rt: &impl Abort,
    alloc: Global,
    keys: &[Key],
    brings: &[Bring],
    turns: u64,
    times: &[u64],
) {
    let world = World::new();
    let link = Timed::new(alloc, &world, brings);
    let keys = Keyboard::new(&world, keys, false);
    let (_told, link) = run(rt, alloc, &world, link, keys, turns);
    assert_eq!(rt; link.sends.as_slice(), times);
    assert!(rt; !world.was_held.get());
}

/// Checks that a board asks at these times, in this many turns, while these datagrams come; and that it has handed on what it
/// has told before it waits.
fn asks(rt: &impl Abort, alloc: Global, brings: &[Bring], turns: u64, times: &[u64]) {
    let world = World::new();
    let mut link = Timed::new(alloc, &world, brings);
    let _states = show(rt, alloc, &world, &mut link, turns);
    assert_eq!(rt; link.sends.as_slice(), times);
    assert!(rt; !world.was_held.get());
}

/// When a station asks if nobody answers: at once, after 20 ms, after 40 ms, and so on, up to 500 ms.
const UNANSWERED: [u64; 10] = [0, 20, 60, 140, 300, 620, 1120, 1620, 2120, 2620];

// Each turn lasts until the next ask is due, so a station at rest is woken twice a second.
#[test]
fn stations_at_rest(rt: HostRuntime) {
    sends(&rt, rt.alloc(), &[], &[], 10, &UNANSWERED);
    asks(&rt, rt.alloc(), &[], 10, &UNANSWERED);
}

/// When a station asks that is told something at 810 ms: sooner than it would have.
const SOONER: [u64; 10] = [0, 20, 60, 140, 300, 620, 830, 850, 890, 970];

// The first vote for a board's position, or a vote of a station that is further ahead, tells that more may come: the board asks
// soon. An ask, or bytes of another match, doesn't.
#[test]
fn what_promises_more(rt: HostRuntime) {
    let alloc = rt.alloc();
    for place in [0, 5] {
        asks(&rt, alloc, &[once(810, void(&rt, place, 0))], 11, &SOONER);
    }
    for bytes in [ask(Asker::A, 0, 0), [0; SIZE]] {
        asks(&rt, alloc, &[once(810, bytes)], 11, &UNANSWERED);
    }
}

// The second vote for a place is B's, or the scorer's own: the desk asks for the next place at once, and again 20 ms later.
#[test]
fn a_new_position_of_a_desk(rt: HostRuntime) {
    let theirs = [once(10, void(&rt, 0, 0))];
    sends(
        &rt,
        rt.alloc(),
        &[(0, "void")],
        &theirs,
        3,
        &[0, 0, 0, 10, 30],
    );
    sends(
        &rt,
        rt.alloc(),
        &[(10, "void")],
        &theirs,
        3,
        &[0, 10, 10, 30],
    );
}

#[test]
fn a_new_position_of_a_board(rt: HostRuntime) {
    let votes = [
        once(10, vote(&rt, DeskId::A, 0, 0, "void")),
        once(10, void(&rt, 0, 0)),
    ];
    asks(&rt, rt.alloc(), &votes, 3, &[0, 10, 30]);
}

// A board hears each message as it comes, also an old one, but no other bytes.
#[test]
fn what_a_board_hears(rt: HostRuntime) {
    let alloc = rt.alloc();
    let brings = [
        once(10, void(&rt, 0, 0)),
        once(30, ask(Asker::A, 0, 0)),
        once(70, void(&rt, 0, 0)),
        once(90, [0; SIZE]),
    ];
    let world = World::new();
    let mut link = Timed::new(alloc, &world, &brings);
    let states = show(&rt, alloc, &world, &mut link, 10);
    assert_eq!(rt; states.messages, 3);
    assert_eq!(rt; states.last, 70);
}

// While lines are typed ahead, the desk waits for nothing.
#[test]
fn lines_typed_ahead(rt: HostRuntime) {
    let world = World::new();
    let link = Timed::new(rt.alloc(), &world, &[]);
    let keys = Keyboard::new(&world, &[], true);
    let _told = run(&rt, rt.alloc(), &world, link, keys, 5);
    assert_eq!(rt; world.now.get(), 0);
}
