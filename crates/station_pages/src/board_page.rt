//! The page of a board.

ghost use Rattle.std.specs.Prelude.{◌≡◌, ◌∷◌, ◌++◌, []};
ghost use Rattle.station_pages.specs.Handed.{newest_or, texts_in};

use crate::handed::HandedLog;
use std::os::fd::RawFd;
use viewers::Viewers;

/// The page of a board: its viewers, and the six lines and the states that it was handed. Whatever its viewers send, it shows
/// the newest of each.
#[derive(Drop)]
pub struct BoardPage {
    viewers: Viewers,
    lines: HandedLog,
    states: HandedLog,
    ghost newest_lines: { viewers.shown.lines.items ≡ newest_or viewers.shown.lines.items lines },
    ghost newest_state: { viewers.shown.state.items ≡ newest_or viewers.shown.state.items states },
}

impl BoardPage {
    /// Begins with these viewers, before anything is handed to it.
    pub fn new(viewers: Viewers) -> BoardPage
        ensures lines { texts_in result.lines ≡ [] }
        ensures states { texts_in result.states ≡ [] }
    {
        BoardPage {
            viewers,
            lines: HandedLog::Empty,
            states: HandedLog::Empty,
        }
    }

    /// Returns the descriptor that ends a board's wait when a viewer needs something.
    pub fn descriptor(&self) -> RawFd {
        self.viewers.descriptor()
    }

    /// Shows these lines from now on.
    pub fn put_lines(&mut self, text: Vec<u8>)
        ensures lines { texts_in self.new.lines ≡ texts_in self.old.lines ++ text.items ∷ [] }
        ensures states { self.new.states ≡ self.old.states }
    {
        self.lines = self.lines.handed(&text);
        self.viewers.put_lines(text);
    }

    /// Shows this state from now on.
    pub fn put_state(&mut self, text: Vec<u8>)
        ensures states { texts_in self.new.states ≡ texts_in self.old.states ++ text.items ∷ [] }
        ensures lines { self.new.lines ≡ self.old.lines }
    {
        self.states = self.states.handed(&text);
        self.viewers.put_state(text);
    }

    /// Does what can be done at once for the viewers, and tells them what is shown if it is new to them. Unless `is_called`,
    /// nobody has connected or asked.
    pub fn attend(&mut self, is_called: bool, now: u64)
        ensures lines { self.new.lines ≡ self.old.lines }
        ensures states { self.new.states ≡ self.old.states }
    {
        self.viewers.pump(is_called, now);
        self.viewers.tell(now);
    }

    /// Returns for how many milliseconds the page needs nothing, since it was last attended to.
    pub fn longest_wait(&self) -> u64 {
        self.viewers.longest_wait()
    }
}
