//! A plan for the wanted corrections, or why there is none.

ghost use Rattle.std.specs.Prelude.{◌≡◌, ◌≤◌, ◌++◌, ℕ, List, None, All, IfOk, IfSome, length, true};
ghost use Rattle.notation.specs.declared.entry.TheConstants.{PLACES};
ghost use Rattle.notation.specs.declared.entry.Entry.{Entry as AnEntry};
ghost use Rattle.notation.specs.Written.{IsEntry};
ghost use Rattle.corrections.specs.Refusal.{first_refused_in};
ghost use Rattle.plans.specs.Answers.{IsAnswer};
ghost use Rattle.plans.specs.Plans.{IsPlan, names};
ghost use Rattle.plans.specs.inner.Standing.{IsDraft, IsStanding};

use crate::draft::Draft;
use crate::naming::first_unnamed;
use crate::scoring::first_refused;
use crate::search::{direct, search};
use crate::target::{is_same, target_of};
use corrections::{BookOf, Placed};
use match_laws::LawRefusal;
use notation::Entry;
use std::alloc::{AllocError, Global};

/// The answer to wanted corrections.
#[derive(Drop)]
pub enum Plan {
    /// The lines that the book takes one after another, and then has what is wanted.
    Lines(Vec<Entry>),
    /// A correction that names no entry of its kind: a `fix` an entry of play or a late one, a `late` an entry of play.
    Unnamed(Entry),
    /// The first item that the Laws refuse once all wanted corrections are made, so that there is no plan.
    Against(Placed, LawRefusal),
    /// No plan was found in the 1,000 lines that were tried, or the book has too few places left.
    TooLong,
}

/// Returns the lines of a draft, if these items stand after them.
fn lines_to(draft: Draft, target: &[Placed]) -> Option<Vec<Entry>>
    ensures { (n : ℕ) → (book wanted : List AnEntry) → IsDraft n book draft.lines.items draft.items.items
        → IsStanding (book ++ wanted) target.now → IfSome result (λ lines. IsPlan n book wanted lines.items) }
{
    if is_same(&draft.items, target) {
        Some(draft.into_lines())
    } else {
        None
    }
}

/// Returns a plan for corrections that the Laws don't refuse, if one is found.
fn plan_to<B: BookOf>(
    alloc: Global,
    innings_a_side: u32,
    book: &B,
    wanted: &[Entry],
    target: &[Placed],
) -> Result<Plan, AllocError>
    requires innings { (1 ≤ innings_a_side) × (innings_a_side ≤ 2) }
    requires in_range { All IsEntry wanted.now }
    requires target { IsStanding (B.content book.now ++ wanted.now) target.now }
    requires taken { first_refused_in innings_a_side (B.content book.now ++ wanted.now) ≡ None }
    ensures { IfOk result (IsAnswer innings_a_side (B.content book.now) wanted.now) }
{
    let draft = direct(alloc, innings_a_side, book, wanted)?;
    if let Some(lines) = lines_to(draft, target) {
        return Ok(Plan::Lines(lines));
    }
    let draft = search(alloc, innings_a_side, book, target)?;
    match lines_to(draft, target) {
        Some(lines) => Ok(Plan::Lines(lines)),
        None => Ok(Plan::TooLong),
    }
}

/// Returns a plan for corrections that name entries of their kind, or why there is none.
fn plan_of_named<B: BookOf>(
    alloc: Global,
    innings_a_side: u32,
    book: &B,
    wanted: &[Entry],
) -> Result<Plan, AllocError>
    requires innings { (1 ≤ innings_a_side) × (innings_a_side ≤ 2) }
    requires in_range { All IsEntry wanted.now }
    requires named { All (λ entry. names (B.content book.now) entry ≡ true) wanted.now }
    requires few { length wanted.now ≤ PLACES }
    ensures { IfOk result (IsAnswer innings_a_side (B.content book.now) wanted.now) }
{
    let target = target_of(alloc, book, wanted)?;
    match first_refused(innings_a_side, &target) {
        Some((placed, why)) => Ok(Plan::Against(placed, why)),
        None => plan_to(alloc, innings_a_side, book, wanted, &target),
    }
}

/// Returns the lines by which a book comes to have these corrections and late
/// entries, in a match with one or two innings a side; or why there are none.
pub fn plan_of<B: BookOf>(
    alloc: Global,
    innings_a_side: u32,
    book: &B,
    wanted: &[Entry],
) -> Result<Plan, AllocError>
    requires innings { (1 ≤ innings_a_side) × (innings_a_side ≤ 2) }
    requires in_range { All IsEntry wanted.now }
    requires few { length wanted.now ≤ PLACES }
    ensures { IfOk result (IsAnswer innings_a_side (B.content book.now) wanted.now) }
{
    match first_unnamed(book, wanted) {
        Some(entry) => Ok(Plan::Unnamed(entry)),
        None => plan_of_named(alloc, innings_a_side, book, wanted),
    }
}
