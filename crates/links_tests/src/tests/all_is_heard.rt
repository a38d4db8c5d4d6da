//! A board behind a window hears both votes of each place, whatever the network loses, repeats and reorders: votes that
//! came but weren't given are asked for again.
ghost use Rattle.std.specs.Prelude.{◌≡◌, ◌<◌};

use super::*;
use links::{DatagramBuffer, Link, Log, PeerLink, Receivers, Taken, Window};
use std::mem;
use tests_support::{entry_in, vote_of};
use wire::{MessageBytes, message_of};

/// The number of places that both desks have votes for.
const LENGTH: usize = 192;

/// The number of votes.
const VOTES: usize = 2 * LENGTH;

/// The number of blocks of 64 places that the votes make.
const BLOCKS: usize = VOTES / 64;

/// What both desks answer to asks, and which votes are on their way, desk A's first.
#[derive(Drop)]
struct Network {
    random: u64,
    on_its_way: [bool; VOTES],
    /// Which blocks have been answered.
    is_answered: [bool; BLOCKS],
    /// One datagram in this many is lost.
    lost: Option<u64>,
}

impl Network {
    /// Returns the next number of Knuth's MMIX generator, without its lowest bits.
    fn random(&mut self) -> u64 {
        let next = self.random.wrapping_mul(6_364_136_223_846_793_005);
        self.random = next.wrapping_add(1_442_695_040_888_963_407);
        self.random >> 33
    }

    /// Whether an event happens that happens one time in `times`.
    fn happens(&mut self, times: u64) -> bool {
        self.random().checked_rem(times) == Some(0)
    }

    fn is_lost(&mut self) -> bool {
        match self.lost {
            Some(times) => self.happens(times),
            None => false,
        }
    }

    /// Marks whether a vote is on its way.
    fn set(&mut self, vote: usize, is_on_its_way: bool) {
        if let Some(it) = self.on_its_way.get_mut(vote) {
            *it = is_on_its_way;
        }
    }

    /// Whether this vote's block was answered before; from now on it counts as answered.
    fn answers_again(&mut self, vote: usize) -> bool {
        match self.is_answered.get_mut(vote / 64) {
            Some(it) => mem::replace(it, true),
            None => true,
        }
    }

    /// Lets a desk answer an ask for a place, with its votes for this place and those behind it in its block or, if it
    /// has answered the block before, for this place alone.
    fn answer(&mut self, desk: usize, place: u32) {
        let place = place as usize;
        if place >= LENGTH {
            return;
        }
        let vote = desk.saturating_mul(LENGTH).saturating_add(place);
        let count = if self.answers_again(vote) {
            1
        } else {
            64 - place % 64
        };
        for behind in 0..count {
            if !self.is_lost() {
                self.set(vote.saturating_add(behind), true);
            }
        }
    }

    /// Brings an ask to a desk, or loses it.
    fn ask(&mut self, desk: usize, bytes: &MessageBytes) {
        if let Ok(Message::Ask(ask)) = message_of(7, bytes.as_slice())
            && desk < 2
            && !self.is_lost()
        {
            self.answer(desk, ask.place);
        }
    }

    /// Returns one of the votes on their way; one vote in eight comes once more.
    fn next(&mut self) -> Option<usize> {
        let from = self.random() as usize;
        for behind in 0..VOTES {
            let vote = from.wrapping_add(behind) % VOTES;
            if self.on_its_way.get(vote) == Some(&true) {
                let comes_again = self.happens(8);
                self.set(vote, comes_again);
                return Some(vote);
            }
        }
        None
    }
}

/// A link to both desks: peer 0 is desk A, peer 1 desk B.
#[derive(Drop)]
struct Line {
    network: Network,
    peer: usize,
    log: Log,
}

impl Line {
    /// Puts a vote that comes into the front of a buffer.
    fn bring(&mut self, vote: usize, buffer: &mut DatagramBuffer) -> bool
        ensures { self.new.log ≡ self.old.log }
    {
        let (peer, desk) = if vote < LENGTH {
            (0, DeskId::A)
        } else {
            (1, DeskId::B)
        };
        let place = (vote % LENGTH) as u32;
        let Some(entry) = entry_in("over") else {
            return false;
        };
        if place >= PLACES {
            return false;
        }
        self.peer = peer;
        buffer[..48].copy_from_slice(vote_of(desk, place, 0, entry).as_slice());
        true
    }
}

impl Link for Line {
    ghost use Rattle.links.specs.Logs.{passed_of};

    ghost log = { λ line. passed_of line.log };

    fn send(&mut self, bytes: &MessageBytes) {
        self.network.ask(0, bytes);
        self.network.ask(1, bytes);
        self.log = self.log.sent(Receivers::ToAll, bytes);
    }

    fn reply(&mut self, bytes: &MessageBytes) {
        self.network.ask(self.peer, bytes);
        self.log = self.log.sent(Receivers::ToOne, bytes);
    }

    fn take(&mut self, buffer: &mut DatagramBuffer, _wait: u64) -> Taken {
        match self.network.next() {
            Some(vote) if self.bring(vote, buffer) => {
                self.log = self.log.came(buffer, 48);
                Taken::Datagram(48)
            }
            _ => Taken::Nothing,
        }
    }
}

impl PeerLink for Line {
    fn send_to(&mut self, peer: usize, bytes: &MessageBytes) {
        self.network.ask(peer, bytes);
        self.log = self.log.sent(Receivers::ToOne, bytes);
    }

    fn last_peer(&self) -> usize {
        self.peer
    }
}

/// A board: the place that it is at, and the desks whose votes for that place it has.
#[derive(Drop)]
struct Board {
    place: u32,
    has_a: bool,
    has_b: bool,
}

impl Board {
    fn ask(&self, window: &mut Window<Line, Hand<'_>>) {
        if self.place < PLACES {
            window.send(&ask_at(Asker::Board, self.place, 0));
        }
    }

    /// Hears a datagram. With both votes of its place the board goes on to the next place, and asks for it.
    fn hear(&mut self, bytes: &DatagramBuffer, window: &mut Window<Line, Hand<'_>>) {
        if let Ok(Message::Vote(vote)) = message_of(7, &bytes[..48])
            && vote.place == self.place
        {
            match vote.desk {
                DeskId::A => self.has_a = true,
                DeskId::B => self.has_b = true,
            }
        }
        if self.has_a && self.has_b {
            self.place = self.place.saturating_add(1);
            self.has_a = false;
            self.has_b = false;
            self.ask(window);
        }
    }

    /// Takes a turn: at most eight datagrams.
    fn turn(&mut self, window: &mut Window<Line, Hand<'_>>) {
        for _ in 0..8 {
            let mut buffer = [0; 64];
            match window.take(&mut buffer, 0) {
                Taken::Datagram(_) => self.hear(&buffer, window),
                Taken::Lost => {}
                Taken::Nothing | Taken::Unopened => break,
            }
        }
    }
}

/// Whether a board that asks by itself every half second has all votes within `most` turns of 10 ms.
fn hears(alloc: Global, seed: u64, lost: Option<u64>, most: u64) -> bool {
    let now = Cell::new(0);
    let network = Network {
        random: seed,
        on_its_way: [false; VOTES],
        is_answered: [false; BLOCKS],
        lost,
    };
    let line = Line {
        network,
        peer: 0,
        log: Log::Empty,
    };
    let log = ClockLog::Empty;
    let mut window = Window::new(alloc, line, Hand { now: &now, log }, 7, Log::Empty);
    let mut board = Board {
        place: 0,
        has_a: false,
        has_b: false,
    };
    for turn in 0..most {
        now.set(turn.saturating_mul(10));
        if turn % 50 == 0 {
            board.ask(&mut window);
        }
        board.turn(&mut window);
    }
    board.place as usize >= LENGTH
}

/// All votes are heard, whatever the network does.
fn all_is_heard(rt: &impl Abort, alloc: Global, lost: Option<u64>, most: u64) {
    for seed in 0..20 {
        assert!(rt; hears(alloc, seed, lost, most), "{seed}");
    }
}

// A turn takes eight votes, and each of the 384 votes takes at most two: it comes early, and it is given. One in eight comes
// once more. That makes 108 turns, plus the waiting. By its own asks alone, one every half second, a board would take 9,600.
#[test]
fn all_is_heard_where_nothing_is_lost(rt: HostRuntime) {
    all_is_heard(&rt, rt.alloc(), None, 250);
}

#[test]
fn all_is_heard_where_a_quarter_is_lost(rt: HostRuntime) {
    all_is_heard(&rt, rt.alloc(), Some(4), 500);
}

#[test]
fn all_is_heard_where_half_is_lost(rt: HostRuntime) {
    all_is_heard(&rt, rt.alloc(), Some(2), 2_000);
}
