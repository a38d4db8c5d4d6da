//! The state of a desk on its page.

ghost use Rattle.std.specs.Prelude.{◌≡◌, ◌⊎◌, ◌∷◌, ◌++◌, [], IfOk, IfSome, Some, length, true};
ghost use Rattle.notation.specs.Written.{IsEntry};
ghost use Rattle.screen.specs.Sights.{sight_at};
ghost use Rattle.station_pages.specs.Sights.{ServesBook, ServesOthers, ServesState, ShowsState, open_of, texts_in};
ghost use Rattle.viewers.specs.Replies.{ShowsBook};
ghost use Rattle.desk_state.specs.Book.{book_text as book_of};
ghost use Rattle.desk_state.specs.Value.{state_text as state_of};

use crate::scorers_page::ScorersPage;
use agree_core::{DeskId, Position};
use cards::MatchSheet;
use corrections::BookOf;
use desk_state::{book_text, open_text, state_text};
use links::{HeldLine, HeldLines};
use notation::Entry;
use screen::ShowsDesk;
use std::alloc::{AllocError, Global};
use std::cell::{Cell, RefCell};
use std::snapshot::Snapshot;

/// The state of a desk: as all may read it, and the whole of it for its scorer.
#[derive(Drop)]
struct Texts {
    openly: Vec<u8>,
    own: Vec<u8>,
}

/// The texts that a page was given, in order. Only clauses read it.
#[derive(Drop)]
enum TextLog {
    Empty,
    Given(Snapshot<TextLog>, Snapshot<Vec<u8>>, Snapshot<Vec<u8>>),
}

/// What was last shown; the state is shown again once any of it changes.
#[derive(Clone, Copy, PartialEq, Eq)]
struct Seen {
    entries: u32,
    place: u32,
    round: u32,
    has_voted: bool,
}

/// Shows a desk on its page: its state, whenever it has changed. The page is attended to each time.
#[derive(Drop)]
pub struct PageSight<'p> {
    alloc: Global,
    desk: DeskId,
    page: Option<&'p RefCell<ScorersPage>>,
    /// Whether a wait ended for the page.
    called: &'p Cell<bool>,
    /// How many entries the book last shown had.
    entries: Option<u32>,
    seen: Option<Seen>,
    /// The held lines last shown.
    held: HeldLines,
    log: TextLog,
}

impl TextLog {
    /// Adds the two texts of a desk.
    fn given(&self, texts: &Texts) -> TextLog
        ensures { texts_in result ≡ texts_in self.now ++ (texts.now.openly.items, texts.now.own.items) ∷ [] }
    {
        TextLog::Given(
            Snapshot::of(self),
            Snapshot::of(&texts.openly),
            Snapshot::of(&texts.own),
        )
    }
}

/// Returns the texts of a desk with this book, position, own vote and held lines.
fn texts_of<B: BookOf>(
    alloc: Global,
    sheet: &MatchSheet,
    book: &B,
    desk: DeskId,
    at: Position,
    own: Option<Entry>,
    held: &[HeldLine],
) -> Result<Texts, AllocError>
    requires { IfSome own IsEntry }
    ensures openly { IfOk result (λ texts. texts.openly.items ≡
        open_of desk (sight_at sheet.now (B.innings_a_side book.now) (B.content book.now) at own)) }
    ensures own { IfOk result (λ texts. texts.own.items ≡
        state_of sheet.now (B.innings_a_side book.now) (B.content book.now) desk at own held.now) }
{
    let openly = open_text(alloc, sheet, book, desk, at)?;
    let own = state_text(alloc, sheet, book, desk, at, own, held)?;
    Ok(Texts { openly, own })
}

impl<'p> PageSight<'p> {
    /// Begins with this desk, of which nothing was shown yet. `called` is set elsewhere when somebody connects or asks.
    pub fn new(
        alloc: Global,
        desk: DeskId,
        page: Option<&'p RefCell<ScorersPage>>,
        called: &'p Cell<bool>,
    ) -> PageSight<'p>
        ensures desk { result.desk ≡ desk }
        ensures log { texts_in result.log ≡ [] }
    {
        PageSight {
            alloc,
            desk,
            page,
            called,
            entries: None,
            seen: None,
            held: HeldLines::new(),
            log: TextLog::Empty,
        }
    }

    /// Shows the items of a book on the page, unless the last book shown had as many entries. Returns whether they are shown.
    fn put_book<B: BookOf>(&mut self, page: &mut ScorersPage, book: &B) -> bool
        ensures others { ServesBook page.old.viewers.shown page.new.viewers.shown (B.content book.now) }
        ensures shows { result ≡ true → (self.old.entries ≡ Some (length (B.content book.now)))
            ⊎ ShowsBook (book_of (B.content book.now)) page.old.viewers.shown page.new.viewers.shown }
        ensures entries { result ≡ true → self.new.entries ≡ Some (length (B.content book.now)) }
        ensures desk { self.new.desk ≡ self.old.desk }
        ensures log { self.new.log ≡ self.old.log }
    {
        let entries = book.len();
        if self.entries == Some(entries) {
            return true;
        }
        match book_text(self.alloc, book) {
            Ok(text) => {
                page.show_book(text);
                self.entries = Some(entries);
                true
            }
            Err(_) => false,
        }
    }

    /// Shows this state on the page, unless it already does.
    fn put_state<B: BookOf>(
        &mut self,
        page: &mut ScorersPage,
        sheet: &MatchSheet,
        book: &B,
        at: Position,
        own: Option<Entry>,
        held: &[HeldLine],
    )
        requires { IfSome own IsEntry }
        ensures shows { ShowsState self.old.desk (texts_in self.old.log) (texts_in self.new.log)
            (sight_at sheet.now (B.innings_a_side book.now) (B.content book.now) at own) }
        ensures others { ServesState self.old.desk page.old.viewers.shown page.new.viewers.shown
            (sight_at sheet.now (B.innings_a_side book.now) (B.content book.now) at own) }
        ensures desk { self.new.desk ≡ self.old.desk }
    {
        let seen = Seen {
            entries: book.len(),
            place: at.place,
            round: at.round,
            has_voted: own.is_some(),
        };
        if self.seen == Some(seen) && self.held.as_slice() == held {
            return;
        }
        let made = texts_of(self.alloc, sheet, book, self.desk, at, own, held);
        if let Ok(texts) = made {
            self.log = self.log.given(&texts);
            self.seen = Some(seen);
            self.held.clear();
            let _fits = self.held.try_extend_from_slice(held);
            page.show_state(texts.openly, texts.own);
        }
    }

    /// Shows the book and then the state: so a page that reads of an entry can already fetch the book with it.
    fn put<B: BookOf>(
        &mut self,
        page: &mut ScorersPage,
        sheet: &MatchSheet,
        book: &B,
        at: Position,
        own: Option<Entry>,
        held: &[HeldLine],
    )
        requires { IfSome own IsEntry }
        ensures shows { ShowsState self.old.desk (texts_in self.old.log) (texts_in self.new.log)
            (sight_at sheet.now (B.innings_a_side book.now) (B.content book.now) at own) }
        ensures others { ServesOthers self.old.desk page.old.viewers.shown page.new.viewers.shown
            (sight_at sheet.now (B.innings_a_side book.now) (B.content book.now) at own) }
        ensures desk { self.new.desk ≡ self.old.desk }
    {
        if self.put_book(page, book) {
            self.put_state(page, sheet, book, at, own, held);
        }
    }
}

impl<B: BookOf> ShowsDesk<B> for PageSight<'_> {
    ghost goes_on = { λ old sight new.
        ShowsState old.desk (texts_in old.log) (texts_in new.log) sight × (new.desk ≡ old.desk) };

    fn show(
        &mut self,
        sheet: &MatchSheet,
        book: &B,
        at: Position,
        own: Option<Entry>,
        held: &[HeldLine],
        now: u64,
    ) {
        let Some(page) = self.page else {
            return;
        };
        if let Ok(mut page) = page.try_borrow_mut() {
            self.put(&mut page, sheet, book, at, own, held);
            page.attend(self.called.get(), now);
            self.called.set(false);
        }
    }

    fn longest_wait(&self) -> u64 {
        match self.page {
            Some(page) => match page.try_borrow() {
                Ok(page) => page.longest_wait(),
                Err(_) => u64::MAX,
            },
            None => u64::MAX,
        }
    }
}
