//! A draft of a plan: lines that a book takes one after another.

ghost use Rattle.std.specs.Prelude.{◌≡◌, ◌≤◌, ◌+◌, ◌++◌, ◌∷◌, [], ℕ, IfOk, OnOk, length};
ghost use Rattle.notation.specs.declared.entry.TheConstants.{PLACES};
ghost use Rattle.notation.specs.Written.{IsEntry};
ghost use Rattle.plans.specs.inner.Standing.{IsDraft};

use crate::naming::names;
use crate::scoring::first_refused;
use crate::standing::stand;
use crate::target::items_of;
use corrections::{BookOf, Placed};
use notation::{Entry, PLACES, Plain};
use std::alloc::{AllocError, Global};

/// The lines that a book takes one after another, and the items that stand after them.
#[derive(Drop)]
pub struct Draft {
    pub lines: Vec<Entry>,
    pub items: Vec<Placed>,
}

/// What became of a line.
#[derive(Clone, Copy)]
pub enum Trial {
    /// The book takes the line.
    Taken,
    /// The Laws would then refuse the item at this place.
    InTheWay(u32),
    /// The line names no entry of its kind, or the book has no place left for it.
    NoRoom,
}

/// Returns a draft without lines.
pub fn draft_of<B: BookOf>(alloc: Global, book: &B) -> Result<Draft, AllocError>
    ensures { (n : ℕ) → IfOk result (λ draft. IsDraft n (B.content book.now) draft.lines.items draft.items.items) }
{
    // The length tells the prover that a book has room for all its entries.
    let _len = book.len();
    Ok(Draft {
        lines: Vec::new(alloc),
        items: items_of(alloc, book)?,
    })
}

/// Returns a copy of these items.
fn copy_of(alloc: Global, items: &[Placed]) -> Result<Vec<Placed>, AllocError>
    ensures { IfOk result (λ copy. copy.items ≡ items.now) }
{
    let mut copy = Vec::new(alloc);
    copy.extend_from_slice(items)?;
    Ok(copy)
}

impl Draft {
    /// Returns the place of the draft's next line.
    fn place<B: BookOf>(&self, book: &B) -> u32
        requires { length (B.content book.now) + length self.now.lines.items ≤ PLACES }
        ensures { result ≡ length (B.content book.now) + length self.now.lines.items }
    {
        book.len() + self.lines.len() as u32
    }

    /// Adds a line, after which these items stand.
    fn add(&mut self, entry: &Entry, items: Vec<Placed>) -> Result<Trial, AllocError>
        ensures { OnOk result ((self.new.lines.items ≡ self.old.lines.items ++ entry.now ∷ []) × (self.new.items ≡ items)) }
    {
        // The prover must know the crate of `Plain`, which `Placed` names; a local of that type tells it.
        let _item: Option<Plain> = None;
        self.lines.push(*entry)?;
        self.items = items;
        Ok(Trial::Taken)
    }

    /// Adds a line, if the book takes it after the lines before it.
    pub fn enter<B: BookOf>(
        &mut self,
        alloc: Global,
        innings_a_side: u32,
        book: &B,
        entry: &Entry,
    ) -> Result<Trial, AllocError>
        requires innings { (1 ≤ innings_a_side) × (innings_a_side ≤ 2) }
        requires entry { IsEntry entry.now }
        requires draft { IsDraft innings_a_side (B.content book.now) self.old.lines.items self.old.items.items }
        ensures { OnOk result (IsDraft innings_a_side (B.content book.now) self.new.lines.items self.new.items.items) }
    {
        let place = self.place(book);
        if place >= PLACES || !names(book, entry) {
            return Ok(Trial::NoRoom);
        }
        let mut items = copy_of(alloc, &self.items)?;
        stand(&mut items, place, entry)?;
        match first_refused(innings_a_side, &items) {
            Some((placed, _)) => Ok(Trial::InTheWay(placed.place)),
            None => self.add(entry, items),
        }
    }

    /// Returns the draft's lines.
    pub fn into_lines(self) -> Vec<Entry>
        ensures { result ≡ self.lines }
    {
        let Draft { lines, items: _ } = self;
        lines
    }
}
