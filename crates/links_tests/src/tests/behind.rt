//! A window over a carrier in memory, with a clock that the test sets.
ghost use Rattle.std.specs.Prelude.{◌<◌};

use super::*;
use links::{Link, Receivers, Taken, Window};
use seal::{
    CarriedLog, Receipts, Ring, Seal, Sealed, SealedBuffer, SealedBytes, SealedCarrier,
    TaggedMessage, form_for,
};
use wire::MessageBytes;

mod catching_up;

const KEY: &[u8] = b"a key of sixteen";

const SHEET: [u8; 32] = [9; 32];

/// The time, what the carrier brings next, and what it was handed.
#[derive(Drop)]
struct World {
    now: Cell<u64>,
    peer: Cell<usize>,
    /// The peer that a datagram was last sent to alone.
    to: Cell<usize>,
    brings: Cell<Option<SealedBytes>>,
    /// How many datagrams were sent to all and how many back, and the last of them.
    sent: Cell<usize>,
    back: Cell<usize>,
    last: Cell<TaggedMessage>,
    /// How long the last take waited.
    waited: Cell<u64>,
}

impl World {
    fn new() -> World {
        World {
            now: Cell::new(0),
            peer: Cell::new(0),
            to: Cell::new(9),
            brings: Cell::new(None),
            sent: Cell::new(0),
            back: Cell::new(0),
            last: Cell::new(TaggedMessage {
                message: [0; 48],
                receipt: None,
                tags: [[0; 16]; 5],
            }),
            waited: Cell::new(0),
        }
    }
}

/// A carrier that brings the world's datagram.
#[derive(Drop)]
struct Post<'a> {
    world: &'a World,
    log: CarriedLog,
}

impl SealedCarrier for Post<'_> {
    ghost use Rattle.seal.specs.Carried.{carried_of};

    ghost carried = { λ post. carried_of post.log };

    fn carry(&mut self, message: &TaggedMessage) {
        self.world.sent.set(self.world.sent.get().saturating_add(1));
        self.world.last.set(*message);
        self.log = self.log.sent(Receivers::ToAll, message);
    }

    fn carry_back(&mut self, message: &TaggedMessage) {
        self.world.back.set(self.world.back.get().saturating_add(1));
        self.world.last.set(*message);
        self.log = self.log.sent(Receivers::ToOne, message);
    }

    fn carry_to(&mut self, peer: usize, message: &TaggedMessage) {
        self.world.to.set(peer);
        self.carry_back(message);
    }

    fn last_peer(&self) -> usize {
        self.world.peer.get()
    }

    fn bring(&mut self, buffer: &mut SealedBuffer, wait: u64) -> Taken {
        self.world.waited.set(wait);
        match self.world.brings.take() {
            Some(bytes) => {
                buffer[..64].copy_from_slice(bytes.as_slice());
                self.log = self.log.came(buffer, 64);
                Taken::Datagram(64)
            }
            None => Taken::Nothing,
        }
    }
}

type Windowed<'a> = Window<Sealed<Post<'a>>, Hand<'a>>;

fn windowed<'a>(rt: &impl Abort, alloc: Global, world: &'a World) -> Windowed<'a> {
    let ring = Ring::new(
        Asker::Board,
        [seal(), seal(), seal(), seal(), seal()],
        false,
    );
    let Ok(receipts) = Receipts::of(alloc, &ring) else {
        panic!(rt; "no memory");
    };
    let post = Post {
        world,
        log: CarriedLog::Empty,
    };
    let hand = Hand {
        now: &world.now,
        log: ClockLog::Empty,
    };
    let log = ring.opened_log();
    Window::new(alloc, Sealed::new(post, ring, receipts), hand, 7, log)
}

/// Returns the match's seal.
fn seal() -> Seal {
    Seal::new(KEY, &SHEET)
}

/// Returns a vote for a position.
fn over(rt: &impl Abort, desk: DeskId, place: u32, round: u32) -> MessageBytes
    requires place { place < PLACES }
    requires round { round < ROUNDS }
{
    vote(rt, desk, place, round, "over")
}

/// Brings this message, sealed, and returns what is given.
fn given(window: &mut Windowed<'_>, world: &World, message: &MessageBytes) -> Taken {
    world.brings.set(Some(seal().sealed(message)));
    window.take(&mut [0; 64], 0)
}

/// Checks that the message is given as it comes.
fn is_given(rt: &impl Abort, window: &mut Windowed<'_>, world: &World, message: &MessageBytes) {
    assert_eq!(rt; given(window, world, message), Taken::Datagram(48));
}

/// Brings a desk's first vote for a place, which must be given.
fn hears(rt: &impl Abort, window: &mut Windowed<'_>, world: &World, desk: DeskId, place: u32)
    requires { place < PLACES }
{
    is_given(rt, window, world, &over(rt, desk, place, 0));
}

/// Returns the message that is given although nothing comes.
fn kept(window: &mut Windowed<'_>) -> Option<MessageBytes> {
    let mut buffer = [0; 64];
    match window.take(&mut buffer, 250) {
        Taken::Datagram(48) => {
            let mut bytes = [0; 48];
            bytes.copy_from_slice(&buffer[..48]);
            Some(bytes)
        }
        _ => None,
    }
}

/// Checks that nothing is given if nothing comes.
fn is_silent(rt: &impl Abort, window: &mut Windowed<'_>) {
    assert!(rt; kept(window).is_none());
}

/// Checks that this message is given if nothing comes.
fn gives(rt: &impl Abort, window: &mut Windowed<'_>, message: &MessageBytes) {
    assert!(rt; kept(window).as_ref() == Some(message));
}

/// Checks how many datagrams were sent to all.
fn has_sent(rt: &impl Abort, world: &World, sent: usize) {
    assert_eq!(rt; world.sent.get(), sent);
}

/// Checks how many datagrams were sent back.
fn has_sent_back(rt: &impl Abort, world: &World, back: usize) {
    assert_eq!(rt; world.back.get(), back);
}

/// Checks that nothing is given if nothing comes at this time, and for how long the window waited.
fn rests(rt: &impl Abort, window: &mut Windowed<'_>, world: &World, now: u64, waited: u64) {
    world.now.set(now);
    is_silent(rt, window);
    assert_eq!(rt; world.waited.get(), waited, "{now}");
}

/// Checks that this was the last datagram.
fn has_said(rt: &impl Abort, world: &World, message: &MessageBytes) {
    assert!(rt; form_for(0, &world.last.get()).as_slice() == seal().sealed(message).as_slice());
}

/// Brings a board's ask for a place, which must be given, and lets desk A answer it.
fn is_answered(rt: &impl Abort, window: &mut Windowed<'_>, world: &World, place: u32)
    requires { place < PLACES }
{
    is_given(rt, window, world, &ask_at(Asker::Board, place, 0));
    window.reply(&over(rt, DeskId::A, place, 0));
}

/// Checks that an ask for a place is given although nothing comes, and lets desk A answer it to peer 2.
fn goes_on(rt: &impl Abort, window: &mut Windowed<'_>, world: &World, place: u32)
    requires { place < PLACES }
{
    world.peer.set(0);
    gives(rt, window, &ask_at(Asker::Board, place, 0));
    window.reply(&over(rt, DeskId::A, place, 0));
    assert_eq!(rt; world.to.get(), 2);
}

#[test]
fn an_ask_stands_for_those_behind_it(rt: HostRuntime) {
    let world = World::new();
    let mut window = windowed(&rt, rt.alloc(), &world);
    world.peer.set(2);
    is_answered(&rt, &mut window, &world, 0);
    for place in 1..64 {
        goes_on(&rt, &mut window, &world, place);
    }
    is_silent(&rt, &mut window);
    has_sent(&rt, &world, 0);
    has_sent_back(&rt, &world, 64);
    // in that block the same peer's ask now stands for itself alone, in the next block for others too
    world.peer.set(2);
    is_answered(&rt, &mut window, &world, 5);
    is_silent(&rt, &mut window);
    is_answered(&rt, &mut window, &world, 64);
    gives(&rt, &mut window, &ask_at(Asker::Board, 65, 0));
    // without an answer the ask stands for no more
    is_silent(&rt, &mut window);
    // and it stands for no more places than its block has
    is_answered(&rt, &mut window, &world, 190);
    goes_on(&rt, &mut window, &world, 191);
    is_silent(&rt, &mut window);
}

#[test]
fn a_block_may_be_asked_for_again_after_half_a_second(rt: HostRuntime) {
    let world = World::new();
    let mut window = windowed(&rt, rt.alloc(), &world);
    world.now.set(1_000);
    is_answered(&rt, &mut window, &world, 62);
    gives(&rt, &mut window, &ask_at(Asker::Board, 63, 0));
    world.now.set(1_499);
    is_answered(&rt, &mut window, &world, 62);
    is_silent(&rt, &mut window);
    world.now.set(1_500);
    is_answered(&rt, &mut window, &world, 62);
    gives(&rt, &mut window, &ask_at(Asker::Board, 63, 0));
}

// An ask every 10 ms, each for another block, so that it may stand for those behind it: 130 do, and one more every 100 ms.
#[test]
fn a_peer_has_so_many_windows(rt: HostRuntime) {
    let world = World::new();
    let mut window = windowed(&rt, rt.alloc(), &world);
    let mut opened: u32 = 0;
    for turn in 0..600_u32 {
        world.now.set(u64::from(turn) * 10);
        is_answered(&rt, &mut window, &world, turn % 128 * 64);
        opened = opened.saturating_add(u32::from(kept(&mut window).is_some()));
        is_silent(&rt, &mut window);
    }
    assert_eq!(rt; opened, 189);
}

#[test]
fn early_votes_come_again_when_the_board_is_there(rt: HostRuntime) {
    let world = World::new();
    let mut window = windowed(&rt, rt.alloc(), &world);
    window.send(&ask_at(Asker::Board, 0, 0));
    let one = over(&rt, DeskId::A, 1, 0);
    let other = over(&rt, DeskId::B, 1, 0);
    // each vote is given as it comes, so that a board sees whether a desk has told it different lines
    for early in [one, one, other] {
        is_given(&rt, &mut window, &world, &early);
    }
    hears(&rt, &mut window, &world, DeskId::A, 0);
    hears(&rt, &mut window, &world, DeskId::B, 0);
    is_silent(&rt, &mut window);
    window.send(&ask_at(Asker::Board, 1, 0));
    has_sent(&rt, &world, 1);
    gives(&rt, &mut window, &one);
    gives(&rt, &mut window, &other);
    is_silent(&rt, &mut window);
    // a board asks for the votes that it lacks
    hears(&rt, &mut window, &world, DeskId::A, 2);
    world.now.set(4);
    window.send(&ask_at(Asker::Board, 2, 0));
    has_sent(&rt, &world, 2);
}

#[test]
fn a_second_round_comes_in_its_turn(rt: HostRuntime) {
    let world = World::new();
    let mut window = windowed(&rt, rt.alloc(), &world);
    window.send(&over(&rt, DeskId::A, 3, 0));
    let second = over(&rt, DeskId::B, 3, 1);
    let next = over(&rt, DeskId::B, 4, 0);
    is_given(&rt, &mut window, &world, &next);
    is_given(&rt, &mut window, &world, &second);
    window.send(&ask_at(Asker::A, 3, 1));
    gives(&rt, &mut window, &second);
    is_silent(&rt, &mut window);
    window.send(&ask_at(Asker::A, 4, 0));
    gives(&rt, &mut window, &next);
    has_sent(&rt, &world, 1);
    // votes for a place that the station has passed are of no use
    hears(&rt, &mut window, &world, DeskId::B, 5);
    window.send(&over(&rt, DeskId::A, 6, 0));
    is_silent(&rt, &mut window);
}

/// Brings bytes that don't open, instead of desk A's vote for a place.
fn is_unopened(rt: &impl Abort, window: &mut Windowed<'_>, world: &World, place: u32)
    requires { place < PLACES }
{
    let mut forged = seal().sealed(&over(rt, DeskId::A, place, 0));
    forged[63] ^= 1;
    world.brings.set(Some(forged));
    assert_eq!(rt; window.take(&mut [0; 64], 0), Taken::Unopened);
}

#[test]
fn what_is_far_ahead_or_forged_is_not_kept(rt: HostRuntime) {
    let world = World::new();
    let mut window = windowed(&rt, rt.alloc(), &world);
    window.send(&ask_at(Asker::B, 0, 0));
    hears(&rt, &mut window, &world, DeskId::A, 2_049);
    hears(&rt, &mut window, &world, DeskId::A, 2_048);
    // bytes that don't open don't change when an ask is said
    world.now.set(19);
    is_unopened(&rt, &mut window, &world, 0);
    is_unopened(&rt, &mut window, &world, 1);
    world.now.set(20);
    window.send(&ask_at(Asker::B, 1, 0));
    has_sent(&rt, &world, 2);
    window.send(&ask_at(Asker::B, 2_048, 0));
    gives(&rt, &mut window, &over(&rt, DeskId::A, 2_048, 0));
    window.send(&ask_at(Asker::B, 2_049, 0));
    is_silent(&rt, &mut window);
}

#[test]
fn an_ask_is_said_again_where_later_votes_are_here(rt: HostRuntime) {
    let world = World::new();
    let mut window = windowed(&rt, rt.alloc(), &world);
    let ask = ask_at(Asker::B, 0, 0);
    window.send(&ask);
    rests(&rt, &mut window, &world, 0, 250);
    has_sent(&rt, &world, 1);
    hears(&rt, &mut window, &world, DeskId::A, 1);
    rests(&rt, &mut window, &world, 5, 15);
    // the ask goes to the desk whose vote is lacking, each time after twice as long
    for (now, back, waited) in [
        (20, 1, 40),
        (59, 1, 1),
        (60, 2, 80),
        (139, 2, 1),
        (140, 4, 160),
    ] {
        rests(&rt, &mut window, &world, now, waited);
        has_sent_back(&rt, &world, back);
    }
    has_sent(&rt, &world, 1);
    // the last ask is for what may stand behind the later vote too
    has_said(&rt, &world, &ask_at(Asker::B, 2, 0));
}

/// Sends an ask at this time, and checks how many datagrams were sent to all by then.
fn asks(
    rt: &impl Abort,
    window: &mut Windowed<'_>,
    world: &World,
    now: u64,
    ask: &MessageBytes,
    sent: usize,
) {
    world.now.set(now);
    window.send(ask);
    has_sent(rt, world, sent);
}

#[test]
fn an_answer_is_waited_for_a_round_trip_and_a_half(rt: HostRuntime) {
    let world = World::new();
    let mut window = windowed(&rt, rt.alloc(), &world);
    window.send(&ask_at(Asker::B, 0, 0));
    world.now.set(30);
    hears(&rt, &mut window, &world, DeskId::A, 0);
    let ask = ask_at(Asker::B, 64, 0);
    for (now, sent) in [(30, 2), (74, 2), (75, 3), (119, 3), (120, 4)] {
        asks(&rt, &mut window, &world, now, &ask, sent);
    }
}

// An ask brings the votes of its block. Another ask for that block waits until no lacking vote has come for a pause, or until
// later votes show that its own votes were lost.
#[test]
fn an_ask_waits_for_what_was_asked_before(rt: HostRuntime) {
    let world = World::new();
    let mut window = windowed(&rt, rt.alloc(), &world);
    window.send(&ask_at(Asker::B, 0, 0));
    world.now.set(30);
    hears(&rt, &mut window, &world, DeskId::A, 0);
    let ask = ask_at(Asker::B, 1, 0);
    asks(&rt, &mut window, &world, 50, &ask, 1);
    hears(&rt, &mut window, &world, DeskId::A, 3);
    // asks for places 1 and 2, and again after twice as long
    for (now, back, waited) in [(50, 2, 90), (139, 2, 1), (140, 4, 180), (141, 4, 179)] {
        rests(&rt, &mut window, &world, now, waited);
        has_sent_back(&rt, &world, back);
    }
    has_said(&rt, &world, &ask_at(Asker::B, 2, 0));
    hears(&rt, &mut window, &world, DeskId::A, 4);
    // the ask for 0 brings the votes of 0 to 63, and the ask for 64 those of 64 to 127
    asks(&rt, &mut window, &world, 141, &ask_at(Asker::B, 63, 0), 1);
    asks(&rt, &mut window, &world, 141, &ask_at(Asker::B, 64, 0), 2);
    asks(&rt, &mut window, &world, 141, &ask_at(Asker::B, 127, 0), 2);
    asks(&rt, &mut window, &world, 141, &ask_at(Asker::B, 128, 0), 3);
}

/// Checks that nothing is given if nothing comes at this time, how many datagrams were sent to all, and which was the last.
fn is_heard(
    rt: &impl Abort,
    window: &mut Windowed<'_>,
    world: &World,
    now: u64,
    sent: usize,
    last: &MessageBytes,
) {
    rests(rt, window, world, now, 250);
    has_sent(rt, world, sent);
    has_said(rt, world, last);
}

// A station with nothing else to say asks for its position every two seconds, and waits for datagrams as long as ever.
#[test]
fn a_silent_station_asks(rt: HostRuntime) {
    let world = World::new();
    let mut window = windowed(&rt, rt.alloc(), &world);
    rests(&rt, &mut window, &world, 10_000, 250);
    has_sent(&rt, &world, 0);
    window.send(&over(&rt, DeskId::A, 0, 0));
    let ask = ask_at(Asker::A, 1, 0);
    window.send(&ask);
    hears(&rt, &mut window, &world, DeskId::B, 1);
    for (now, sent) in [(11_999, 2), (12_000, 3), (13_999, 3), (14_000, 4)] {
        is_heard(&rt, &mut window, &world, now, sent, &ask);
    }
    let next = over(&rt, DeskId::A, 1, 0);
    asks(&rt, &mut window, &world, 15_500, &next, 5);
    is_heard(&rt, &mut window, &world, 16_000, 5, &next);
    is_heard(&rt, &mut window, &world, 17_499, 5, &next);
    is_heard(&rt, &mut window, &world, 17_500, 6, &ask);
}
