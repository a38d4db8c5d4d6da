//! What goes on in every match. These functions do nothing: they stand for the laws that they ensure.

ghost use Rattle.std.specs.Prelude.{ℕ};
ghost use Rattle.notation.specs.declared.entry.Entry.{Entry};
ghost use Rattle.agree_core.specs.Books.{Rules};
ghost use Rattle.progress.specs.Laws.{GoesOnInEachRun};
ghost use Rattle.progress.specs.WorkedExchange.{WorkedExchange};

use entry_log::Disk;

/// In every run of a match, with any code and on any disks, after any kills, power losses and faults: once both desks run and
/// their messages reach each other for one exchange, both stand at one position with one book, and wait only for a scorer, who
/// hasn't written there and may; an entry that both write there is next in both books; and a board that goes on hearing both
/// desks has their book.
pub fn every_match_goes_on<D: Disk>()
    ensures { GoesOnInEachRun D.seen D.images }
{}

// An exchange that brings desk B a lost vote of desk A.
fn worked_exchange()
    ensures { (rules : Rules ℕ) (e : Entry) → WorkedExchange rules e }
{}
