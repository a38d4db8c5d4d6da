//! The page of a desk.

ghost use Rattle.std.specs.Prelude.{◌≡◌};
ghost use Rattle.screen.specs.Telling.{IsTold};
ghost use Rattle.sha2.specs.Sha256.{sha256};
ghost use Rattle.viewers.specs.Replies.{ShowsBook, ShowsOpenly};

use crate::tellings::Tellings;
use agree_core::Position;
use posts::PostedLine;
use screen::Told;
use std::alloc::Global;
use std::os::fd::RawFd;
use viewers::Viewers;

/// How long the count of a desk's viewers stays as it is, in milliseconds, so that strangers who come and go don't fill the
/// screen.
const WATCHERS_COUNT_PAUSE: u64 = 5_000;

/// The page of a desk: its viewers, and what was told last, with its rows.
#[derive(Drop)]
pub struct ScorersPage {
    viewers: Viewers,
    tellings: Tellings,
    /// The number of viewers last counted, when it was counted, and the number last printed.
    watching: usize,
    counted: u64,
    told: usize,
    /// When the page was last attended to, by the desk's clock.
    now: u64,
}

impl ScorersPage {
    /// Begins with these viewers.
    pub fn new(alloc: Global, viewers: Viewers, now: u64) -> ScorersPage {
        ScorersPage {
            viewers,
            tellings: Tellings::new(alloc),
            watching: 0,
            counted: 0,
            told: 0,
            now,
        }
    }

    /// Returns the descriptor that ends a desk's wait when a viewer asks or types.
    pub fn descriptor(&self) -> RawFd {
        self.viewers.descriptor()
    }

    /// Shows a square with this ticket in its link from now on.
    pub fn show_square(&mut self, ticket: [u8; 16]) {
        self.viewers.show(ticket, self.now);
    }

    /// Changes the page's secret. Signed viewers are dropped.
    pub fn renew(&mut self, secret: [u8; 16]) {
        self.viewers.renew(secret);
    }

    /// Takes what the rows tell that are printed next.
    pub fn tell(&mut self, told: Told)
        requires { IsTold told }
    {
        self.tellings.begin(told);
    }

    /// Takes what was printed for the scorer.
    pub fn print(&mut self, printed: &[u8]) {
        self.tellings.take(printed);
    }

    /// Shows what was told last, to the scorer only.
    pub fn show_told(&mut self)
        ensures { self.new.viewers.shown ≡ self.old.viewers.shown }
    {
        if let Ok(Some(text)) = self.tellings.take_news() {
            self.viewers.put_own_rows(text);
        }
    }

    /// Shows this state to all from now on, and the whole one to the scorer only.
    pub fn show_state(&mut self, openly: Vec<u8>, whole: Vec<u8>)
        ensures openly { ShowsOpenly openly.items self.old.viewers.shown self.new.viewers.shown }
        ensures own { self.new.viewers.own.state ≡ whole }
    {
        self.viewers.put_state(openly);
        self.viewers.put_own_state(whole);
    }

    /// Shows these items of the book from now on.
    pub fn show_book(&mut self, book: Vec<u8>)
        ensures shown { ShowsBook book.items self.old.viewers.shown self.new.viewers.shown }
        ensures digest { self.new.viewers.own.digest ≡ sha256 book.items }
    {
        self.viewers.put_book(book);
    }

    /// Sets the desk's position. Lines typed here for another position are dropped, and a row says so.
    pub fn stand(&mut self, at: Position) {
        if self.viewers.stand(at) > 0 {
            self.tellings.begin(Told::PageDropped);
            self.tellings
                .take(b"page: dropped, the desk is at another place\n");
            self.show_told();
        }
    }

    /// Takes the next line typed here, if there is one.
    pub fn next_line(&mut self) -> Option<PostedLine> {
        self.viewers.next_line()
    }

    /// Counts the viewers once in a while: strangers who come and go don't fill the screen.
    fn count(&mut self, now: u64) {
        if now.saturating_sub(self.counted) >= WATCHERS_COUNT_PAUSE {
            self.counted = now;
            self.watching = self.viewers.watching();
        }
    }

    /// Returns the number of viewers, if it isn't the one last printed.
    pub fn take_change(&mut self) -> Option<usize> {
        if self.watching == self.told {
            return None;
        }
        self.told = self.watching;
        Some(self.watching)
    }

    /// Whether a line waits.
    pub fn has_lines(&self) -> bool {
        self.viewers.has_lines()
    }

    /// Does what can be done at once for those who look or type, and tells them what is new. Unless `is_called`, nobody has
    /// connected, asked or typed.
    pub fn attend(&mut self, is_called: bool, now: u64) {
        self.now = now;
        self.viewers.pump(is_called, now);
        self.viewers.veil();
        self.viewers.tell(now);
        self.count(now);
    }

    /// Returns for how many milliseconds the page needs nothing, since it was last attended to.
    pub fn longest_wait(&self) -> u64 {
        self.viewers.longest_wait()
    }
}
