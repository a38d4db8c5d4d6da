//! A text that a board's page shows.

ghost use Rattle.std.specs.Prelude.{◌≡◌, [], IfOk, Some};
ghost use Rattle.station_pages.specs.Handed.{texts_in};

use machine_files::{Cause, Name, Replaces, WriteFault};
use station_pages::{BoardPage, HandedLog};
use std::alloc::{AllocError, Global};
use std::cell::RefCell;

/// Which of a board's texts a pane shows.
#[derive(Clone, Copy)]
pub enum Kind {
    Lines,
    State,
}

/// One of the texts that a page shows: the newest one that the pane was given.
#[derive(Drop)]
pub struct Pane<'v> {
    alloc: Global,
    page: &'v RefCell<BoardPage>,
    kind: Kind,
    log: HandedLog,
}

/// Returns a copy of a text.
pub fn copy_of(alloc: Global, text: &[u8]) -> Result<Vec<u8>, AllocError>
    ensures { IfOk result (λ copy. copy.items ≡ text.now) }
{
    let mut copy = Vec::new(alloc);
    copy.extend_from_slice(text)?;
    Ok(copy)
}

/// Returns the fault of a text that can't be shown.
fn fault(why: Cause) -> WriteFault {
    WriteFault {
        name: Name::Own,
        why,
    }
}

impl<'v> Pane<'v> {
    /// Makes a pane of this page, which hasn't been given a text yet.
    pub fn of(alloc: Global, page: &'v RefCell<BoardPage>, kind: Kind) -> Pane<'v>
        ensures { texts_in result.log ≡ [] }
    {
        Pane {
            alloc,
            page,
            kind,
            log: HandedLog::Empty,
        }
    }

    /// Has the page show this text.
    fn show(&self, text: Vec<u8>) -> Result<(), WriteFault> {
        let Ok(mut page) = self.page.try_borrow_mut() else {
            return Err(fault(Cause::System));
        };
        match self.kind {
            Kind::Lines => page.put_lines(text),
            Kind::State => page.put_state(text),
        }
        Ok(())
    }
}

impl Replaces for Pane<'_> {
    ghost given = { λ pane. Some (texts_in pane.log) };

    fn replace(&mut self, text: &[u8]) -> Result<(), WriteFault> {
        let Ok(copy) = copy_of(self.alloc, text) else {
            return Err(fault(Cause::NoMemory));
        };
        let log = self.log.handed(&copy);
        self.show(copy)?;
        self.log = log;
        Ok(())
    }
}
