//! The places that a peer's ask stands for: those after it in its block.

use crate::catch_up::{BLOCK, end_of_block};
use crate::times::{WINDOW_PAUSE, WINDOW_REFILL};
use agree_core::PLACES;

/// How many blocks a book has.
const BLOCKS: usize = (PLACES / BLOCK) as usize;

/// How many peers are told apart.
const PEERS: usize = 8;

/// How many windows a peer may open at once: enough for a whole book.
const MOST_WINDOWS: u32 = 130;

/// A peer's window: the next place to ask for, and the first place after the window.
#[derive(Clone, Copy)]
struct Order {
    next: u32,
    until: u32,
    /// From when on each block may be asked for as a whole again.
    rests: [u64; BLOCKS],
    /// How many more windows may be opened, and when the last was added.
    left: u32,
    refilled: u64,
}

impl Order {
    const NONE: Order = Order {
        next: 0,
        until: 0,
        rests: [0; BLOCKS],
        left: MOST_WINDOWS,
        refilled: 0,
    };

    /// Adds the windows that have become available by now.
    fn refill(&mut self, now: u64) {
        if self.left >= MOST_WINDOWS || now < self.refilled {
            self.refilled = now;
            return;
        }
        let more = (now - self.refilled) / WINDOW_REFILL;
        if more > 0 {
            let more = more.min(u64::from(MOST_WINDOWS)) as u32;
            self.left = MOST_WINDOWS.min(self.left.saturating_add(more));
            self.refilled = now;
        }
    }

    /// Opens a window once an ask for this place is answered: the places after it in its block are asked for too, unless the
    /// block was lately or no window is left.
    fn open(&mut self, place: u32, now: u64) {
        self.refill(now);
        let block = (place / BLOCK) as usize;
        if self.left == 0 || block >= BLOCKS || now < self.rests[block] {
            return;
        }
        self.next = place.saturating_add(1);
        self.until = end_of_block(place);
        self.rests[block] = now.saturating_add(WINDOW_PAUSE);
        self.left = self.left.saturating_sub(1);
    }
}

/// The windows of all peers.
#[derive(Clone, Copy)]
pub struct Company {
    orders: [Order; PEERS],
}

impl Company {
    /// Returns the windows of all peers, none of them open.
    pub fn new() -> Company {
        Company {
            orders: [Order::NONE; PEERS],
        }
    }

    /// Notes that a peer's ask for this place was answered: the places after it are asked for too, if they may be.
    pub fn open(&mut self, peer: usize, place: u32, now: u64) {
        if peer < PEERS {
            self.orders[peer].open(place, now);
        }
    }

    /// Ends a peer's window here: there was no answer.
    pub fn close(&mut self, peer: usize) {
        if peer < PEERS {
            let order = &mut self.orders[peer];
            order.until = order.until.min(order.next);
        }
    }

    /// Returns the next place of an open window, and its peer.
    pub fn next(&mut self) -> Option<(usize, u32)> {
        for peer in 0..PEERS {
            let order = &mut self.orders[peer];
            if order.next < order.until {
                let place = order.next;
                order.next = place.saturating_add(1);
                return Some((peer, place));
            }
        }
        None
    }
}
