//! The newest texts of a station.

ghost use Rattle.std.specs.Prelude.{◌≡◌};
ghost use Rattle.viewers.specs.Replies.{SameOpenly, ShowsBook, ShowsOpenly};

use crate::own::Veiled;
use crate::station::Station;
use std::alloc::Global;

/// The newest texts of a station, and the kind of its page.
#[derive(Drop)]
pub struct PageTexts {
    pub station: Station,
    /// A board's six lines.
    pub lines: Vec<u8>,
    /// The state as JSON, one line; a desk's is without what its scorer wrote.
    pub state: Vec<u8>,
    /// The items of a desk's book as JSON, one line.
    pub book: Vec<u8>,
    /// How often the state has changed.
    pub number: u64,
    /// What only the holder of a desk's page secret reads.
    pub veiled: Veiled,
}

impl PageTexts {
    /// Begins with no texts.
    pub fn new(alloc: Global, station: Station) -> PageTexts
        ensures { result.station ≡ station }
    {
        PageTexts {
            station,
            lines: Vec::new(alloc),
            state: Vec::new(alloc),
            book: Vec::new(alloc),
            number: 0,
            veiled: Veiled {
                number: 0,
                text: Vec::new(alloc),
            },
        }
    }

    /// Shows these lines from now on.
    pub fn put_lines(&mut self, lines: Vec<u8>)
        ensures lines { self.new.lines ≡ lines }
        ensures state { self.new.state ≡ self.old.state }
        ensures book { self.new.book ≡ self.old.book }
        ensures number { self.new.number ≡ self.old.number }
        ensures station { self.new.station ≡ self.old.station }
    {
        self.lines = lines;
    }

    /// Shows this state from now on. Its number grows by one if the state has changed.
    pub fn put_state(&mut self, state: Vec<u8>)
        ensures state { self.new.state ≡ state }
        ensures lines { self.new.lines ≡ self.old.lines }
        ensures station { self.new.station ≡ self.old.station }
        ensures openly { ShowsOpenly state.items self.old self.new }
    {
        if self.state.as_slice() != state.as_slice() {
            self.number = self.number.saturating_add(1);
        }
        self.state = state;
    }

    /// Shows these items of the book from now on.
    pub fn put_book(&mut self, book: Vec<u8>)
        ensures { ShowsBook book.items self.old self.new }
    {
        self.book = book;
    }

    /// Shows this to the holders of the secret from now on.
    pub fn put_veiled(&mut self, veiled: Veiled)
        ensures veiled { self.new.veiled ≡ veiled }
        ensures openly { SameOpenly self.old self.new }
    {
        self.veiled = veiled;
    }
}
