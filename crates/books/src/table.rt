//! The table of a match in memory: two seats, and the book that both have agreed.

ghost use Rattle.std.specs.Prelude.{◌≡◌, ◌≤◌, [], IfOk, OnOk};
ghost use Rattle.books.specs.Taking.{answer_to, with_taken};

use crate::rejected::{Refusal, Rejected};
use crate::seats::agree;
use agree_core::{DeskId, PLACES, Seat};
use corrections::{BookOf, CheckedBook};
use notation::read_line;
use std::alloc::{AllocError, Global};

/// The two scorers' seats, and the book that both have agreed.
#[derive(Drop)]
pub struct Table {
    pub a: Seat,
    pub b: Seat,
    pub book: CheckedBook,
}

impl Table {
    ghost use Rattle.books.specs.Table.{IsInStep, IsToldOf, agreed_in, innings_in};

    /// Creates a table with both seats free at the first place, and an empty book with this many innings a side.
    pub fn new(alloc: Global, innings: u32) -> Result<Table, AllocError>
        requires { (1 ≤ innings) × (innings ≤ 2) }
        ensures in_step { IfOk result (λ table. IsInStep table) }
        ensures empty { IfOk result (λ table. agreed_in table ≡ []) }
        ensures innings { IfOk result (λ table. innings_in table ≡ innings) }
    {
        let book = CheckedBook::new(alloc, innings)?;
        Ok(Table {
            a: Seat::fresh(DeskId::A),
            b: Seat::fresh(DeskId::B),
            book,
        })
    }

    /// Takes one line, which both seats agree on, or says why it isn't taken: first the line's fault, then that
    /// the book is full, then the book's refusal.
    pub fn take(&mut self, line: &[u8]) -> Result<(), Rejected>
        requires { IsInStep self.old }
        ensures in_step { IsInStep self.new }
        ensures book { agreed_in self.new ≡
            with_taken (answer_to (innings_in self.old) (agreed_in self.old) line.now) (agreed_in self.old) }
        ensures same_match { innings_in self.new ≡ innings_in self.old }
        ensures told { IsToldOf result (answer_to (innings_in self.old) (agreed_in self.old) line.now) }
    {
        let entry = match read_line(line) {
            Ok(entry) => entry,
            Err(fault) => return Err(Rejected::Fault(fault)),
        };
        let place = self.book.len();
        if place >= PLACES {
            return Err(Rejected::Refused(Refusal::PlacesFull));
        }
        if let Err(why) = self.book.enter(&entry) {
            return Err(Rejected::Refused(Refusal::Book(why)));
        }
        agree(&mut self.a, &mut self.b, &entry, place);
        Ok(())
    }
}
