//! The page of a desk, and the squares by which a scorer gets to it.

use hex::encode_to_slice;
use links::Clock;
use machine::{Address, MonotonicClock, WaitEnds, draw};
use qr::code_of;
use setup::{StopFault, Stopped};
use station_pages::{PageWord, ScorersPage, Squares};
use std::cell::{Cell, RefCell};
use std::io::{self, ErrorKind, IsTerminal, Write};
use std::net::SocketAddr;
use std::os::fd::RawFd;
use std::random::RandomSource;
use std::str;
use viewers::{Inbox, Station, Viewers, reached_at};

/// A page, with the secret that a scorer's lines are signed with. No link contains the secret.
#[derive(Drop)]
struct Served {
    /// The address at which others reach the page.
    at: SocketAddr,
    /// The descriptor that ends a wait when a viewer comes or types.
    ends: RawFd,
    page: RefCell<ScorersPage>,
}

/// The page of a desk, if there is one.
#[derive(Drop)]
pub struct Page {
    served: Option<Served>,
    /// Whether a viewer came or asks at the page: true at first.
    called: Cell<bool>,
}

/// The page, if there is one, and whether a viewer came or asks there.
#[derive(Clone, Copy)]
pub struct Audience<'p> {
    pub page: Option<&'p RefCell<ScorersPage>>,
    pub called: &'p Cell<bool>,
}

/// Shows the squares of a page while its desk runs.
#[derive(Drop)]
pub struct PageSquares<'p, E> {
    rt: &'p HostRuntime,
    page: &'p Page,
    errors: E,
}

/// Returns sixteen bytes of the system's randomness.
fn random(rt: &HostRuntime) -> io::Result<[u8; 16]> {
    let mut bytes = [0; 16];
    rt.fill_bytes(&mut bytes[..])?;
    Ok(bytes)
}

/// Returns the link to a page at an address, with a ticket in hex digits after `#`.
fn link_to(rt: &HostRuntime, at: SocketAddr, ticket: &[u8; 16]) -> io::Result<String> {
    let mut digits = [0; 32];
    let made = encode_to_slice(&ticket[..], &mut digits[..]).is_ok();
    match str::from_utf8(&digits[..]) {
        Ok(ticket) if made => {
            let link = format!(in rt.alloc(); "http://{at}/#{ticket}");
            link.map_err(|_| io::Error::from(ErrorKind::OutOfMemory))
        }
        _ => Err(io::Error::from(ErrorKind::InvalidData)),
    }
}

/// Opens a page at an address, with a secret from the system's randomness.
fn served_at(rt: &HostRuntime, at: &Address<'_>) -> io::Result<Served> {
    let inbox = Some(Inbox::new(random(rt)?));
    let viewers = Viewers::new(rt, rt.alloc(), at.socket, Station::Desk, inbox)?;
    let now = MonotonicClock::new(rt).millis();
    Ok(Served {
        at: reached_at(rt, at.socket),
        ends: viewers.descriptor(),
        page: RefCell::new(ScorersPage::new(rt.alloc(), viewers, now)),
    })
}

/// Draws a link as a code on a terminal.
fn draw_code(rt: &HostRuntime, link: &str) {
    let Some(code) = code_of(link.as_bytes()) else {
        return;
    };
    let mut drawing = Vec::new(rt.alloc());
    if write!(drawing, "{code}").is_ok() {
        draw(rt, &drawing);
    }
}

impl Served {
    /// Puts a new ticket into a link: only that ticket is good from then on. If all viewers are to be let in anew, the page
    /// gets a new secret first.
    fn new_link(&self, rt: &HostRuntime, word: PageWord) -> io::Result<String> {
        let ticket = random(rt)?;
        let link = link_to(rt, self.at, &ticket)?;
        let Ok(mut page) = self.page.try_borrow_mut() else {
            return Err(io::Error::from(ErrorKind::WouldBlock));
        };
        if matches!(word, PageWord::Anew) {
            page.renew(random(rt)?);
        }
        page.show_square(ticket);
        Ok(link)
    }
}

impl Page {
    /// Opens the page at an address, if one is given. Its secret is new each time.
    pub fn at<'a>(rt: &HostRuntime, at: Option<Address<'a>>) -> Result<Page, Stopped<'a>> {
        let Some(at) = at else {
            return Ok(Page {
                served: None,
                called: Cell::new(true),
            });
        };
        match served_at(rt, &at) {
            Ok(served) => Ok(Page {
                served: Some(served),
                called: Cell::new(true),
            }),
            Err(_) => Err(Stopped::at(at.text, StopFault::Listen)),
        }
    }

    /// Returns the page itself, if there is one.
    pub fn scorers(&self) -> Option<&RefCell<ScorersPage>> {
        match &self.served {
            Some(served) => Some(&served.page),
            None => None,
        }
    }

    /// Returns the cell that says whether a viewer came or asks at the page.
    pub fn called(&self) -> &Cell<bool> {
        &self.called
    }

    /// Returns the page, if there is one, with that cell.
    pub fn audience(&self) -> Audience<'_> {
        Audience {
            page: self.scorers(),
            called: &self.called,
        }
    }

    /// Returns what ends a desk's waits: this keyboard, and the page's viewers if there is a page.
    pub fn ends_with(&self, keyboard: RawFd) -> WaitEnds {
        WaitEnds {
            keyboard: Some(keyboard),
            page: self.served.as_ref().map(|served| served.ends),
        }
    }

    /// Tells a link with a new ticket, if there is a page; on a terminal also as a square that a camera reads. Not being able
    /// to tell it is no fault.
    pub fn tell<W: Write>(&self, rt: &HostRuntime, word: PageWord, errors: &mut W) {
        let Some(served) = &self.served else {
            return;
        };
        let Ok(link) = served.new_link(rt, word) else {
            let _ = writeln!(errors, "page: no square can be made");
            return;
        };
        if rt.stderr().is_terminal() {
            draw_code(rt, link.as_str());
        }
        let _ = writeln!(errors, "page: {link}");
    }
}

impl<'p, E> PageSquares<'p, E> {
    /// The squares of this page.
    pub fn of(rt: &'p HostRuntime, page: &'p Page, errors: E) -> PageSquares<'p, E> {
        PageSquares { rt, page, errors }
    }
}

impl<E: Write> Squares for PageSquares<'_, E> {
    fn show(&mut self, word: PageWord) {
        if self.page.scorers().is_none() {
            let _ = writeln!(
                self.errors,
                "page: this desk has none: start it with --serve"
            );
            return;
        }
        self.page.tell(self.rt, word, &mut self.errors);
    }
}
