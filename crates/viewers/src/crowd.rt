//! All viewers of a page.

ghost use Rattle.std.specs.Prelude.{◌≡◌, ◌⊎◌};
ghost use Rattle.viewers.specs.Places.{HasNoSigned, KeepsSigned, KeepsUnsigned};
ghost use Rattle.viewers.specs.Replies.{SameOpenly, ShowsBook, ShowsOpenly};
ghost use Rattle.sha2.specs.Sha256.{sha256};
ghost use Rattle.viewers.specs.Veiled.{IsVeiled};

use crate::guest::Guest;
use crate::inbox::Inbox;
use crate::listening::listener_at;
use crate::own::Own;
use crate::page_texts::PageTexts;
use crate::places::{Places, is_behind, network_of};
use crate::station::Station;
use crate::times::VIEWER_BEAT;
use crate::viewer::Viewer;
use agree_core::Position;
use mio::net::{TcpListener, TcpStream};
use mio::{Events, Interest, Poll, Token};
use posts::PostedLine;
use std::alloc::Global;
use std::io;
use std::net::{Net, SocketAddr};
use std::os::fd::{AsRawFd, RawFd};
use std::time::Duration;

/// The largest number of viewers let in at once.
const MOST_GUESTS: usize = 256;

/// The largest number of events taken from the operating system at once.
const MOST_EVENTS: usize = 64;

/// The listener's token among those of the poll.
const LISTENER: Token = Token(usize::MAX);

/// Returns the address that somebody connected to: the connection's own if the page listens at all addresses.
fn came_at(stream: &TcpStream, at: SocketAddr) -> SocketAddr {
    if !at.ip().is_unspecified() {
        return at;
    }
    match stream.local_addr() {
        Ok(here) => SocketAddr::new(here.ip().to_canonical(), here.port()),
        Err(_) => at,
    }
}

/// The viewers of a page, and its listener.
#[derive(Drop)]
struct Crowd {
    alloc: Global,
    at: SocketAddr,
    poll: Poll,
    events: Events<Global>,
    listener: TcpListener,
    places: Places<TcpStream>,
    /// Whether somebody may be waiting to connect.
    has_guests: bool,
    /// When the last beat was sent to them.
    beat: u64,
    /// When they were last told what is shown.
    told: u64,
}

impl Crowd {
    /// Listens at this address.
    fn new(net: &impl Net, alloc: Global, at: SocketAddr, station: Station) -> io::Result<Crowd> {
        let mut listener = listener_at(net, at)?;
        let poll = Poll::new(net)?;
        poll.registry()
            .register(&mut listener, LISTENER, Interest::READABLE)?;
        Ok(Crowd {
            alloc,
            at,
            poll,
            events: Events::with_capacity(alloc, MOST_EVENTS)?,
            listener,
            places: Places::new(alloc, station),
            has_guests: true,
            beat: 0,
            told: 0,
        })
    }

    /// Gives somebody this place.
    fn seat(&mut self, place: usize, stream: TcpStream, from: u64, now: u64) -> io::Result<()>
        ensures { KeepsSigned self.old.places.viewers.items self.new.places.viewers.items }
    {
        let mut stream = stream;
        let _ = stream.set_nodelay(true);
        let both = Interest::READABLE | Interest::WRITABLE;
        self.poll
            .registry()
            .register(&mut stream, Token(place), both)?;
        let guest = Guest {
            at: came_at(&stream, self.at),
            from,
            is_behind: is_behind(place),
        };
        let viewer = Viewer::new(self.alloc, stream, guest, now);
        self.places.give(place, viewer);
        Ok(())
    }

    /// Lets in the next who waits. No signed viewer loses its place to that newcomer.
    fn admit(&mut self, now: u64) -> io::Result<()>
        ensures { KeepsSigned self.old.places.viewers.items self.new.places.viewers.items }
    {
        let (stream, address) = self.listener.accept()?;
        let from = network_of(address.ip());
        match self.places.place_for(from, now)? {
            Some(place) => self.seat(place, stream, from, now),
            None => Ok(()),
        }
    }

    /// Lets in those who wait, until nobody is left or a call fails; a failed call is repeated in the next turn.
    fn admit_all(&mut self, now: u64)
        ensures { KeepsSigned self.old.places.viewers.items self.new.places.viewers.items }
    {
        for _ in 0..MOST_GUESTS {
            match self.admit(now) {
                Ok(()) => {}
                Err(why) => {
                    self.has_guests = why.kind() != io::ErrorKind::WouldBlock;
                    break;
                }
            }
        }
    }

    /// Notes which viewers may have something to read, or may take more.
    fn note(&mut self) {
        for event in self.events.iter() {
            let Token(at) = event.token();
            if event.token() == LISTENER {
                self.has_guests = true;
            } else {
                self.places.wake(at);
            }
        }
    }

    /// Takes the events of the operating system, so that no wait ends for them again.
    fn look(&mut self) {
        let wait = Some(Duration::from_millis(0));
        if self.poll.poll(&mut self.events, wait).is_ok() {
            self.note();
        }
    }

    /// Does what can be done at once. Unless a wait ended for this page, the operating system isn't asked for events.
    fn pump(&mut self, shown: &PageTexts, inbox: &mut Option<Inbox>, is_called: bool, now: u64) {
        if is_called {
            self.look();
        }
        if self.has_guests {
            self.admit_all(now);
        }
        for place in 0..self.places.len() {
            self.places.serve(place, self.alloc, shown, inbox, now);
        }
    }

    /// Whether a beat is due; if so, notes that it is sent now.
    fn take_beat(&mut self, now: u64) -> bool {
        let is_due = now.saturating_sub(self.beat) >= VIEWER_BEAT;
        if is_due {
            self.beat = now;
        }
        is_due
    }

    /// Tells all what is shown, or sends them a beat.
    fn tell(&mut self, shown: &PageTexts, now: u64) {
        let is_beat = self.take_beat(now);
        self.places.tell(self.alloc, shown, is_beat, now);
        self.told = now;
    }

    /// Returns for how many milliseconds the viewers need nothing, since they were last told what is shown.
    fn longest_wait(&self) -> u64 {
        if self.places.has_more() {
            return 0;
        }
        if self.places.watching() == 0 {
            return u64::MAX;
        }
        VIEWER_BEAT.saturating_sub(self.told.saturating_sub(self.beat))
    }
}

/// A page at an address, with all its viewers. Nothing that they send changes what is shown; at a desk's page they may send
/// lines for the desk.
#[derive(Drop)]
pub struct Viewers {
    alloc: Global,
    crowd: Crowd,
    shown: PageTexts,
    /// What a desk tells only its scorer.
    own: Own,
    inbox: Option<Inbox>,
}

impl Viewers {
    /// Opens a page at this address, which shows nothing yet.
    pub fn new(
        net: &impl Net,
        alloc: Global,
        at: SocketAddr,
        station: Station,
        inbox: Option<Inbox>,
    ) -> io::Result<Viewers> {
        Ok(Viewers {
            alloc,
            crowd: Crowd::new(net, alloc, at, station)?,
            shown: PageTexts::new(alloc, station),
            own: Own::new(alloc),
            inbox,
        })
    }

    /// Shows these lines from now on.
    pub fn put_lines(&mut self, lines: Vec<u8>)
        ensures lines { self.new.shown.lines ≡ lines }
        ensures state { self.new.shown.state ≡ self.old.shown.state }
    {
        self.shown.put_lines(lines);
    }

    /// Shows this state from now on.
    pub fn put_state(&mut self, state: Vec<u8>)
        ensures state { self.new.shown.state ≡ state }
        ensures lines { self.new.shown.lines ≡ self.old.shown.lines }
        ensures openly { ShowsOpenly state.items self.old.shown self.new.shown }
    {
        self.shown.put_state(state);
    }

    /// Shows these items of a desk's book from now on, and tells only its scorer their digest.
    pub fn put_book(&mut self, book: Vec<u8>)
        ensures shown { ShowsBook book.items self.old.shown self.new.shown }
        ensures digest { self.new.own.digest ≡ sha256 book.items }
    {
        self.own.put_book(book.as_slice());
        self.shown.put_book(book);
    }

    /// Sets the whole state of a desk from now on: only its scorer reads it.
    pub fn put_own_state(&mut self, state: Vec<u8>)
        ensures state { self.new.own.state ≡ state }
        ensures shown { self.new.shown ≡ self.old.shown }
    {
        self.own.put_state(state);
    }

    /// Sets the newest rows of a desk: only its scorer reads them.
    pub fn put_own_rows(&mut self, rows: Vec<u8>)
        ensures rows { self.new.own.rows ≡ rows }
        ensures shown { self.new.shown ≡ self.old.shown }
    {
        self.own.put_rows(rows);
    }

    /// Encrypts what is new at a desk for its scorer, once for all signed viewers. Nothing changes for the others.
    pub fn veil(&mut self)
        ensures openly { SameOpenly self.old.shown self.new.shown }
        ensures veiled { (self.new.shown.veiled ≡ self.old.shown.veiled)
            ⊎ IsVeiled self.old.inbox self.old.own self.new.shown.veiled }
    {
        if !self.own.is_new {
            return;
        }
        if let Some(inbox) = &mut self.inbox
            && let Some(veiled) = inbox.veil(self.alloc, &self.own)
        {
            self.own.is_new = false;
            self.shown.put_veiled(veiled);
        }
    }

    /// Returns the descriptor that ends a wait when somebody connects, asks, or may take more.
    pub fn descriptor(&self) -> RawFd {
        self.crowd.poll.as_raw_fd()
    }

    /// Lets in those who wait, answers those who ask, and drops those who have left or whose time is over, as far as that goes
    /// at once. Unless a wait ended for the descriptor, nobody has called.
    pub fn pump(&mut self, is_called: bool, now: u64)
        ensures { self.new.shown ≡ self.old.shown }
    {
        self.crowd
            .pump(&self.shown, &mut self.inbox, is_called, now);
    }

    /// Returns for how many milliseconds the viewers need nothing, since they were last told what is shown: 0 if more can be
    /// done at once, and otherwise until the next beat, if anyone watches.
    pub fn longest_wait(&self) -> u64 {
        self.crowd.longest_wait()
    }

    /// Tells those who watch what is shown, if it is new to them, and every two seconds that the station is there.
    pub fn tell(&mut self, now: u64)
        ensures { self.new.shown ≡ self.old.shown }
    {
        self.crowd.tell(&self.shown, now);
    }

    /// Shows a square with this ticket in its link from now on.
    pub fn show(&mut self, ticket: [u8; 16], now: u64)
        ensures { self.new.shown ≡ self.old.shown }
    {
        if let Some(inbox) = &mut self.inbox {
            inbox.show(ticket, now);
        }
    }

    /// Changes the page's secret. Signed viewers are dropped.
    pub fn renew(&mut self, secret: [u8; 16])
        ensures shown { self.new.shown ≡ self.old.shown }
        ensures gone { HasNoSigned self.new.crowd.places.viewers.items }
        ensures others { KeepsUnsigned self.old.crowd.places.viewers.items self.new.crowd.places.viewers.items }
    {
        if let Some(inbox) = &mut self.inbox {
            inbox.renew(secret);
        }
        self.own.is_new = true;
        self.crowd.places.let_signed_go();
    }

    /// Returns how many viewers watch.
    pub fn watching(&self) -> usize {
        self.crowd.places.watching()
    }

    /// Sets the desk's position. Drops the lines posted for another one, and returns how many.
    pub fn stand(&mut self, at: Position) -> usize
        ensures { self.new.shown ≡ self.old.shown }
    {
        match &mut self.inbox {
            Some(inbox) => inbox.stand(at),
            None => 0,
        }
    }

    /// Takes the oldest posted line, if there is one.
    pub fn next_line(&mut self) -> Option<PostedLine>
        ensures { self.new.shown ≡ self.old.shown }
    {
        match &mut self.inbox {
            Some(inbox) => inbox.next_line(),
            None => None,
        }
    }

    /// Whether a line waits.
    pub fn has_lines(&self) -> bool {
        match &self.inbox {
            Some(inbox) => inbox.has_lines(),
            None => false,
        }
    }
}
