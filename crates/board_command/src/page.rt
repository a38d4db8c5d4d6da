//! The page of a board.

use crate::begin::Told;
use crate::files::{Files, Kept};
use crate::pane::{Kind, Pane, copy_of};
use crate::waiting::{LINES, waiting_state};
use cards::MatchSheet;
use corrections::CheckedBook;
use machine::{Address, WaitEnds};
use setup::{StopFault, Stopped};
use station_pages::BoardPage;
use station_screens::{Errors, Shared};
use std::alloc::Global;
use std::cell::{Cell, RefCell};
use std::io::Write;
use std::os::fd::RawFd;
use viewers::{Station, Viewers, reached_at};

/// The texts that a page shows of a board, kept as its files are.
type Panes<'v, 's, 'a> = Files<'a, Pane<'v>, Told<'s, 'a>, CheckedBook>;

/// A page at an address, with all its viewers.
#[derive(Drop)]
struct Served<'a> {
    at: Address<'a>,
    /// The descriptor that ends a wait when a viewer comes.
    ends: RawFd,
    page: RefCell<BoardPage>,
}

/// The page of a board, if there is one.
#[derive(Drop)]
pub struct Page<'a> {
    served: Option<Served<'a>>,
    /// Whether a viewer came or asks at the page: true at first.
    called: Cell<bool>,
}

/// The page, if there is one, and whether a viewer came or asks at the page.
#[derive(Clone, Copy)]
pub struct Audience<'v> {
    pub page: Option<&'v RefCell<BoardPage>>,
    pub called: &'v Cell<bool>,
}

impl Audience<'_> {
    /// Serves the page's viewers, if there is a page, and sends them what it shows now.
    pub fn attend(self, now: u64) {
        if let Some(page) = self.page
            && let Ok(mut page) = page.try_borrow_mut()
        {
            page.attend(self.called.get(), now);
            self.called.set(false);
        }
    }

    /// Returns for how many milliseconds the page needs nothing, since it was last attended to.
    pub fn longest_wait(self) -> u64 {
        match self.page {
            Some(page) => match page.try_borrow() {
                Ok(page) => page.longest_wait(),
                Err(_) => u64::MAX,
            },
            None => u64::MAX,
        }
    }
}

impl<'a> Page<'a> {
    /// Opens the page at an address, if one is given.
    pub fn at(rt: &HostRuntime, at: Option<Address<'a>>) -> Result<Page<'a>, Stopped<'a>> {
        let Some(at) = at else {
            return Ok(Page {
                served: None,
                called: Cell::new(true),
            });
        };
        match Viewers::new(rt, rt.alloc(), at.socket, Station::Board, None) {
            Ok(viewers) => {
                let ends = viewers.descriptor();
                Ok(Page {
                    served: Some(Served {
                        at,
                        ends,
                        page: RefCell::new(BoardPage::new(viewers)),
                    }),
                    called: Cell::new(true),
                })
            }
            Err(_) => Err(Stopped::at(at.text, StopFault::Listen)),
        }
    }

    /// Returns the cell that says whether a viewer came or asks at the page.
    pub fn called(&self) -> &Cell<bool> {
        &self.called
    }

    /// Returns the page, if there is one, with the cell that says whether a viewer came or asks at it.
    pub fn audience(&self) -> Audience<'_> {
        Audience {
            page: self.shown(),
            called: &self.called,
        }
    }

    /// Returns the page itself, if there is one.
    fn shown(&self) -> Option<&RefCell<BoardPage>> {
        match &self.served {
            Some(served) => Some(&served.page),
            None => None,
        }
    }

    /// Returns what ends a board's waits: the page's viewers, if there is a page.
    pub fn wait_ends(&self) -> WaitEnds {
        WaitEnds {
            keyboard: None,
            page: self.served.as_ref().map(|served| served.ends),
        }
    }

    /// Tells the page's address. Not being able to tell it is no fault.
    pub fn tell<W: Write>(&self, rt: &HostRuntime, errors: &mut W) {
        if let Some(served) = &self.served {
            let at = reached_at(rt, served.at.socket);
            let _ = writeln!(errors, "page: http://{at}/");
        }
    }

    /// Shows that the board waits for the desks: the match as the board's state file has it, if there is one, and otherwise
    /// this book. If memory runs out, nothing is shown yet.
    pub fn wait(
        &self,
        rt: &HostRuntime,
        sheet: &MatchSheet,
        book: &CheckedBook,
        path: Option<&str>,
    ) {
        if let Some(served) = &self.served
            && let Ok(waiting) = waiting_state(rt, sheet, book, path)
            && let Ok(lines) = copy_of(rt.alloc(), LINES)
            && let Ok(mut page) = served.page.try_borrow_mut()
        {
            page.put_lines(lines);
            page.put_state(waiting.state);
        }
    }

    /// Returns the texts that the page shows of a board, none given yet.
    pub fn panes<'v, 's>(
        &'v self,
        alloc: Global,
        errors: &'s RefCell<Errors<'a>>,
    ) -> Panes<'v, 's, 'a> {
        let Some(served) = &self.served else {
            return Files::new(alloc, None, None, None);
        };
        let place = served.at.text;
        let lines = Pane::of(alloc, &served.page, Kind::Lines);
        let state = Pane::of(alloc, &served.page, Kind::State);
        Files::new(
            alloc,
            Some(Kept::new(lines, place, Shared::of(errors))),
            Some(Kept::new(state, place, Shared::of(errors))),
            None,
        )
    }
}
