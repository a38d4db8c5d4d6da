//! The places of a page: who has one, and who loses one to whom.

ghost use Rattle.std.specs.Prelude.{◌≡◌, [], None, false, get_or};
ghost use Rattle.viewers.specs.Places.{HasNoSigned, KeepsAll, KeepsOthers, KeepsSigned, KeepsUnsigned, is_signed};

use crate::guest::Stay;
use crate::inbox::Inbox;
use crate::page_texts::PageTexts;
use crate::station::Station;
use crate::stream::Stream;
use crate::viewer::Viewer;
use std::alloc::{AllocError, Global};
use std::net::IpAddr;

/// The number of seats.
const SEATS: usize = 256;

/// The number of all places. Whoever finds no seat has a place behind the seats until told so.
const PLACES: usize = 272;

/// The largest number of seats that one network keeps while others need some.
const QUARTER: usize = 64;

/// The largest number of signed viewers: of more, the one who came first loses its place.
const MOST_SIGNED: usize = 8;

/// How long a viewer that hasn't asked yet, or was answered, keeps a seat which others need, in milliseconds.
const GRACE: u64 = 2_000;

/// Somebody who needs a place.
#[derive(Clone, Copy)]
struct Newcomer {
    from: u64,
    /// Whether its network already has a quarter of the seats.
    is_many: bool,
    now: u64,
}

/// Decides who loses a place first: viewers that haven't asked yet, then those that were answered, then those that watch; among
/// equals the one who came first.
#[derive(Clone, Copy)]
struct Turn {
    place: usize,
    stay: Stay,
    came: u64,
}

/// Returns the network of an address: all four bytes of IPv4, or the first eight of IPv6.
pub fn network_of(address: IpAddr) -> u64 {
    match address.to_canonical() {
        IpAddr::V4(four) => u64::from(u32::from_be_bytes(four.octets())),
        IpAddr::V6(sixteen) => {
            let [a, b, c, d, e, f, g, h, _, _, _, _, _, _, _, _] = sixteen.octets();
            u64::from_be_bytes([a, b, c, d, e, f, g, h])
        }
    }
}

/// Whether a place is behind the seats: its viewer is told that none is free.
pub fn is_behind(place: usize) -> bool {
    place >= SEATS
}

/// Returns the rank of a stay in the order of losing a place.
fn order_of(stay: Stay) -> u8 {
    match stay {
        Stay::Asking => 0,
        Stay::Answered => 1,
        Stay::Watching => 2,
    }
}

/// Whether one viewer loses its place before the other, if there is another.
fn is_before(one: Turn, other: Option<Turn>) -> bool {
    match other {
        None => true,
        Some(other) => {
            let (first, second) = (order_of(one.stay), order_of(other.stay));
            first < second || (first == second && one.came < other.came)
        }
    }
}

/// All viewers of a page, each at a place.
#[derive(Drop)]
pub struct Places<S: Stream> {
    station: Station,
    viewers: Vec<Option<Viewer<S>>>,
}

impl<S: Stream + Drop> Places<S> {
    /// Begins with nobody.
    pub fn new(alloc: Global, station: Station) -> Places<S>
        ensures { result.viewers.items ≡ [] }
    {
        Places {
            station,
            viewers: Vec::new(alloc),
        }
    }

    /// Returns how many places were ever taken at once.
    pub fn len(&self) -> usize {
        self.viewers.len()
    }

    /// Counts the viewers from a network.
    fn count_from(&self, from: u64) -> usize {
        let mut count: usize = 0;
        for slot in &self.viewers {
            if slot.as_ref().is_some_and(|viewer| viewer.from() == from) {
                count = count.saturating_add(1);
            }
        }
        count
    }

    /// Whether a viewer has had enough time when others need a place. Watching viewers of a board may stay.
    fn has_had_time(&self, viewer: &Viewer<S>, now: u64) -> bool {
        match viewer.stay() {
            Stay::Watching => matches!(self.station, Station::Desk),
            _ => now.saturating_sub(viewer.came()) >= GRACE,
        }
    }

    /// Whether a viewer gives way to a newcomer. A signed viewer doesn't.
    fn gives_way(&self, viewer: &Viewer<S>, newcomer: Newcomer) -> bool {
        if viewer.is_signed() {
            return false;
        }
        if newcomer.is_many {
            return viewer.from() == newcomer.from && self.has_had_time(viewer, newcomer.now);
        }
        self.has_had_time(viewer, newcomer.now) || self.count_from(viewer.from()) > QUARTER
    }

    /// Returns the viewer at a place, and its turn to lose the place.
    fn turn_at(&self, place: usize) -> Option<(&Viewer<S>, Turn)> {
        match self.viewers.get(place) {
            Some(Some(viewer)) => {
                let turn = Turn {
                    place,
                    stay: viewer.stay(),
                    came: viewer.came(),
                };
                Some((viewer, turn))
            }
            _ => None,
        }
    }

    /// Returns the seat that a newcomer gets when none is free.
    fn given_up(&self, newcomer: Newcomer) -> Option<usize> {
        let mut next: Option<Turn> = None;
        for place in 0..SEATS {
            if let Some((viewer, turn)) = self.turn_at(place)
                && is_before(turn, next)
                && self.gives_way(viewer, newcomer)
            {
                next = Some(turn);
            }
        }
        next.map(|turn| turn.place)
    }

    /// Returns the place of the unsigned viewer who came first, among the places from `from` on.
    fn first_unsigned(&self, from: usize) -> Option<usize> {
        let mut next: Option<Turn> = None;
        for place in from..PLACES {
            if let Some((viewer, turn)) = self.turn_at(place)
                && !viewer.is_signed()
                && next.is_none_or(|other| turn.came < other.came)
            {
                next = Some(turn);
            }
        }
        next.map(|turn| turn.place)
    }

    /// Returns a place from `from` to before `end` that is empty again.
    fn emptied(&self, from: usize, end: usize) -> Option<usize> {
        for place in from..end.min(self.viewers.len()) {
            if self.turn_at(place).is_none() {
                return Some(place);
            }
        }
        None
    }

    /// Returns a free place from `from` to before `end`, if there is one; it may be a new one.
    fn free_place(&mut self, from: usize, end: usize) -> Result<Option<usize>, AllocError>
        ensures { KeepsAll self.old.viewers.items self.new.viewers.items }
    {
        if let Some(place) = self.emptied(from, end) {
            return Ok(Some(place));
        }
        let place = self.viewers.len();
        if place < from || place >= end {
            return Ok(None);
        }
        self.viewers.push(None)?;
        Ok(Some(place))
    }

    /// Returns a place for somebody from a network: a seat, or if none is free and nobody gives way, a place behind the seats.
    pub fn place_for(&mut self, from: u64, now: u64) -> Result<Option<usize>, AllocError>
        ensures { KeepsAll self.old.viewers.items self.new.viewers.items }
    {
        if let Some(place) = self.free_place(0, SEATS)? {
            return Ok(Some(place));
        }
        let newcomer = Newcomer {
            from,
            is_many: self.count_from(from) >= QUARTER,
            now,
        };
        if let Some(place) = self.given_up(newcomer) {
            return Ok(Some(place));
        }
        match self.free_place(SEATS, PLACES)? {
            Some(place) => Ok(Some(place)),
            None => Ok(self.first_unsigned(SEATS)),
        }
    }

    /// Gives a place to a viewer, unless a signed viewer has it.
    pub fn give(&mut self, place: usize, viewer: Viewer<S>)
        ensures { KeepsSigned self.old.viewers.items self.new.viewers.items }
    {
        if let Some(slot) = self.viewers.get_mut(place) {
            match slot {
                Some(there) if there.is_signed() => {}
                _ => *slot = Some(viewer),
            }
        }
    }

    /// Notes that the viewer at a place may have something to read, or may take more.
    pub fn wake(&mut self, place: usize)
        ensures { KeepsOthers place self.old.viewers.items self.new.viewers.items }
    {
        if let Some(Some(viewer)) = self.viewers.get_mut(place) {
            viewer.wake();
        }
    }

    /// Whether the viewer at a place is signed.
    fn is_signed_at(&self, place: usize) -> bool
        ensures { result ≡ is_signed (get_or self.now.viewers.items place None) }
    {
        match self.viewers.get(place) {
            Some(Some(viewer)) => viewer.is_signed(),
            _ => false,
        }
    }

    /// Drops the viewer at a place.
    fn let_go(&mut self, place: usize)
        ensures here { get_or self.new.viewers.items place None ≡ None }
        ensures others { KeepsOthers place self.old.viewers.items self.new.viewers.items }
    {
        if let Some(slot) = self.viewers.get_mut(place) {
            *slot = None;
        }
    }

    /// Drops the viewer at a place if it is signed.
    fn let_signed_go_at(&mut self, place: usize)
        ensures here { is_signed (get_or self.new.viewers.items place None) ≡ false }
        ensures others { KeepsOthers place self.old.viewers.items self.new.viewers.items }
        ensures unsigned { KeepsUnsigned self.old.viewers.items self.new.viewers.items }
    {
        if self.is_signed_at(place) {
            self.let_go(place);
        }
    }

    /// Drops all signed viewers.
    pub fn let_signed_go(&mut self)
        ensures gone { HasNoSigned self.new.viewers.items }
        ensures others { KeepsUnsigned self.old.viewers.items self.new.viewers.items }
    {
        for place in 0..self.viewers.len() {
            self.let_signed_go_at(place);
        }
    }

    /// Serves the viewer at a place, and drops it if it has left or its time is over.
    fn serve_at(
        &mut self,
        place: usize,
        alloc: Global,
        shown: &PageTexts,
        inbox: &mut Option<Inbox>,
        now: u64,
    )
        ensures { KeepsOthers place self.old.viewers.items self.new.viewers.items }
    {
        let Some(slot) = self.viewers.get_mut(place) else {
            return;
        };
        if let Some(viewer) = slot {
            viewer.serve(alloc, shown, inbox, now);
            if viewer.is_over(now) {
                *slot = None;
            }
        }
    }

    /// Returns the signed viewer who came first, other than the one at place `but`, and how many others are signed.
    fn first_signed(&self, but: usize) -> (Option<usize>, usize) {
        let mut next: Option<Turn> = None;
        let mut count: usize = 0;
        for place in 0..self.viewers.len() {
            if let Some((viewer, turn)) = self.turn_at(place)
                && place != but
                && viewer.is_signed()
            {
                count = count.saturating_add(1);
                if next.is_none_or(|other| turn.came < other.came) {
                    next = Some(turn);
                }
            }
        }
        (next.map(|turn| turn.place), count)
    }

    /// Drops the signed viewer who came first if there are too many; the one at place `but`, which was just signed, stays.
    fn limit_signed(&mut self, but: usize)
        ensures { get_or self.new.viewers.items but None ≡ get_or self.old.viewers.items but None }
    {
        let (first, count) = self.first_signed(but);
        if let Some(first) = first
            && count >= MOST_SIGNED
            && first != but
        {
            self.let_go(first);
        }
    }

    /// Serves the viewer at a place. Unless that viewer is signed, nobody else is touched.
    pub fn serve(
        &mut self,
        place: usize,
        alloc: Global,
        shown: &PageTexts,
        inbox: &mut Option<Inbox>,
        now: u64,
    )
        ensures { is_signed (get_or self.new.viewers.items place None) ≡ false
            → KeepsOthers place self.old.viewers.items self.new.viewers.items }
    {
        let was_signed = self.is_signed_at(place);
        self.serve_at(place, alloc, shown, inbox, now);
        if !was_signed && self.is_signed_at(place) {
            self.limit_signed(place);
        }
    }

    /// Whether more can be done at once for any viewer.
    pub fn has_more(&self) -> bool {
        self.viewers.iter().any(|slot| slot.as_ref().is_some_and(|viewer| viewer.has_more()))
    }

    /// Returns how many viewers watch.
    pub fn watching(&self) -> usize {
        let mut count: usize = 0;
        for slot in &self.viewers {
            if slot.as_ref().is_some_and(|viewer| viewer.is_watching()) {
                count = count.saturating_add(1);
            }
        }
        count
    }

    /// Tells each viewer what is shown, or that the station is there.
    pub fn tell(&mut self, alloc: Global, shown: &PageTexts, is_beat: bool, now: u64) {
        for slot in self.viewers.iter_mut() {
            if let Some(viewer) = slot {
                viewer.tell(alloc, shown, is_beat, now);
            }
        }
    }
}
