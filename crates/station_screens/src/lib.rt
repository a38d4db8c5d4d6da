//! A station's standard output and standard error, which may go unread for long.
#![tactic(auto)]

ghost use Rattle.std.specs.Prelude.{◌≡◌, [], IfOk};
ghost use Rattle.machine.specs.Screens.{written_of};

use machine::{Outlet, Pieces, Screen, StandardStream};
use setup::{StopFault, Stopped};
use std::cell::RefCell;
use std::io::{self, ErrorKind, Write};
use std::rt::{Stderr, Stdout};

/// Standard output.
pub type Output<'a> = Screen<Pieces<StandardStream<'a, Stdout>>>;

/// Standard error.
pub type Errors<'a> = Screen<Pieces<StandardStream<'a, Stderr>>>;

/// Opens standard output, which never keeps the station waiting. Nothing is written yet.
pub fn output_at(rt: &HostRuntime) -> Result<Output<'_>, Stopped<'static>>
    ensures { IfOk result (λ output. written_of output ≡ []) }
{
    let stream = Pieces::of(StandardStream::output(rt));
    Screen::new(rt.alloc(), stream).map_err(|_| Stopped::at("-", StopFault::NoMemory))
}

/// Opens standard error, which never keeps the station waiting.
pub fn errors_at(rt: &HostRuntime) -> Result<Errors<'_>, Stopped<'static>> {
    let stream = Pieces::of(StandardStream::errors(rt));
    Screen::new(rt.alloc(), stream).map_err(|_| Stopped::at("-", StopFault::NoMemory))
}

/// Writes as much of a screen's waiting text as is taken. A failure isn't told here: the next write to the screen fails too.
pub fn retry<O: Outlet>(screen: &RefCell<Screen<O>>) {
    if let Ok(mut screen) = screen.try_borrow_mut() {
        let _ = screen.flush();
    }
}

/// A screen that several share, each writing whole rows.
#[derive(Drop)]
pub struct Shared<'s, O: Outlet> {
    screen: &'s RefCell<Screen<O>>,
}

impl<'s, O: Outlet> Shared<'s, O> {
    /// Writes to this screen.
    pub fn of(screen: &'s RefCell<Screen<O>>) -> Shared<'s, O> {
        Shared { screen }
    }
}

impl<O: Outlet> Write for Shared<'_, O> {
    /// Writes to the screen, and hands the text on at once if it ends a row, as far as it is taken.
    fn write(&mut self, bytes: &[u8]) -> io::Result<usize> {
        let Ok(mut screen) = self.screen.try_borrow_mut() else {
            return Err(io::Error::from(ErrorKind::WouldBlock));
        };
        let count = screen.write(bytes)?;
        if bytes.ends_with(b"\n") {
            screen.flush()?;
        }
        Ok(count)
    }

    fn flush(&mut self) -> io::Result<()> {
        match self.screen.try_borrow_mut() {
            Ok(mut screen) => screen.flush(),
            Err(_) => Err(io::Error::from(ErrorKind::WouldBlock)),
        }
    }
}
