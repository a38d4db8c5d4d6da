//! The screen that a desk's scorer reads.

ghost use Rattle.std.specs.Prelude.{Some};
ghost use Rattle.machine.specs.Screens.{written_of};

use crate::ending::Recorded;
use machine::{Pieces, StandardStream, Written};
use screen::Told;
use station_pages::ScorersPage;
use station_screens::{Errors, Output, Shared, retry};
use std::cell::RefCell;
use std::io::{self, Write};
use std::rt::Stderr;

/// A desk's screen. What is written to it is also shown in the page, if there is one. Each flush also hands on what waits for
/// standard error.
#[derive(Drop)]
pub struct DeskScreen<'s, 'a> {
    pub output: Output<'a>,
    pub errors: &'s RefCell<Errors<'a>>,
    pub page: Option<&'s RefCell<ScorersPage>>,
}

/// Adds what was printed to a page.
fn note(page: Option<&RefCell<ScorersPage>>, printed: &[u8]) {
    if let Some(page) = page
        && let Ok(mut page) = page.try_borrow_mut()
    {
        page.print(printed);
    }
}

/// Has a page show what was told.
fn show(page: Option<&RefCell<ScorersPage>>) {
    if let Some(page) = page
        && let Ok(mut page) = page.try_borrow_mut()
    {
        page.show_told();
    }
}

impl Write for DeskScreen<'_, '_> {
    ghost contents = { λ screen. Some (written_of screen.output) };

    fn write(&mut self, bytes: &[u8]) -> io::Result<usize> {
        let count = self.output.write(bytes)?;
        if let Some(printed) = bytes.get(..count) {
            note(self.page, printed);
        }
        Ok(count)
    }

    fn flush(&mut self) -> io::Result<()> {
        show(self.page);
        retry(self.errors);
        self.output.flush()
    }
}

impl Recorded for DeskScreen<'_, '_> {
    fn written(&self) -> Written {
        self.output.written()
    }
}

/// Standard error, for what a desk's link tells there. The page is told it too, if there is one.
#[derive(Drop)]
pub struct LinkErrors<'s, 'a> {
    errors: Shared<'s, Pieces<StandardStream<'a, Stderr>>>,
    page: Option<&'s RefCell<ScorersPage>>,
    /// Whether the last row is ended.
    is_ended: bool,
}

impl<'s, 'a> LinkErrors<'s, 'a> {
    /// Writes to standard error, and tells this page.
    pub fn of(
        errors: &'s RefCell<Errors<'a>>,
        page: Option<&'s RefCell<ScorersPage>>,
    ) -> LinkErrors<'s, 'a> {
        LinkErrors {
            errors: Shared::of(errors),
            page,
            is_ended: true,
        }
    }

    /// Tells the page a new row, or more of one.
    fn tell(&mut self, printed: &[u8]) {
        if let Some(page) = self.page
            && let Ok(mut page) = page.try_borrow_mut()
        {
            if self.is_ended {
                page.tell(Told::Network);
            }
            page.print(printed);
        }
        self.is_ended = printed.ends_with(b"\n");
    }
}

impl Write for LinkErrors<'_, '_> {
    fn write(&mut self, bytes: &[u8]) -> io::Result<usize> {
        let count = self.errors.write(bytes)?;
        if let Some(printed) = bytes.get(..count) {
            self.tell(printed);
        }
        Ok(count)
    }

    fn flush(&mut self) -> io::Result<()> {
        self.errors.flush()
    }
}
