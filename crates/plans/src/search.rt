//! The search for a plan: it corrects the first place where the book differs from what is wanted; if the Laws then refuse a
//! later place, it first voids that one.

ghost use Rattle.std.specs.Prelude.{◌≤◌, All, IfOk, IfSome, OnOk};
ghost use Rattle.notation.specs.Written.{IsEntry, IsPlain};
ghost use Rattle.corrections.specs.inner.Scoring.{AreInRange};
ghost use Rattle.plans.specs.inner.Standing.{IsDraft};

use crate::draft::{Draft, Trial, draft_of};
use corrections::{BookOf, Placed};
use notation::{Entry, PLACES, Plain};
use std::alloc::{AllocError, Global};

/// The most lines that are tried. Each takes some 0.3 ms if the book is full.
const MOST_TRIED: u32 = 1000;

/// Enters these entries in their order, up to the first that isn't taken.
pub fn direct<B: BookOf>(
    alloc: Global,
    innings_a_side: u32,
    book: &B,
    wanted: &[Entry],
) -> Result<Draft, AllocError>
    requires innings { (1 ≤ innings_a_side) × (innings_a_side ≤ 2) }
    requires in_range { All IsEntry wanted.now }
    ensures { IfOk result (λ draft. IsDraft innings_a_side (B.content book.now) draft.lines.items draft.items.items) }
{
    let mut draft = draft_of(alloc, book)?;
    for index in 0..wanted.len() {
        match draft.enter(alloc, innings_a_side, book, &wanted[index])? {
            Trial::Taken => {}
            Trial::InTheWay(_) | Trial::NoRoom => break,
        }
    }
    Ok(draft)
}

/// Whether the item that stands is the wanted one, at the same place of a book of `len` places, or both after them.
fn is_there(stands: &Placed, wanted: &Placed, len: u32) -> bool {
    stands.place.min(len) == wanted.place.min(len) && stands.item == wanted.item
}

/// Returns the first wanted item that doesn't stand.
fn first_missing(items: &[Placed], target: &[Placed], len: u32) -> Option<Placed>
    requires { AreInRange target.now }
    ensures { IfSome result (λ placed. IsPlain placed.item) }
{
    for index in 0..target.len() {
        if index >= items.len() || !is_there(&items[index], &target[index], len) {
            return Some(target[index]);
        }
    }
    None
}

/// Returns the line that makes the item stand, in a book of `len` places.
fn line_for(placed: &Placed, len: u32) -> Option<Entry>
    requires { IsPlain placed.now.item }
    ensures { IfSome result IsEntry }
{
    if placed.place < len && placed.place < PLACES {
        Some(Entry::Fix(placed.place, placed.item))
    } else if placed.anchor < PLACES {
        Some(Entry::Late(placed.anchor, placed.item))
    } else {
        None
    }
}

/// Returns the line that voids a place.
fn void_of(place: u32) -> Option<Entry>
    ensures { IfSome result IsEntry }
{
    if place < PLACES {
        Some(Entry::Fix(place, Plain::Void))
    } else {
        None
    }
}

/// Returns the next line to try: the one that voids the place in the way, or else the one that corrects the first place.
fn next_line(
    items: &[Placed],
    target: &[Placed],
    len: u32,
    in_the_way: Option<u32>,
) -> Option<Entry>
    requires { AreInRange target.now }
    ensures { IfSome result IsEntry }
{
    match in_the_way {
        Some(place) => void_of(place),
        None => line_for(&first_missing(items, target, len)?, len),
    }
}

/// Tries one more line, and returns whether the search goes on.
fn go_on<B: BookOf>(
    alloc: Global,
    innings_a_side: u32,
    book: &B,
    target: &[Placed],
    draft: &mut Draft,
    in_the_way: &mut Vec<u32>,
) -> Result<bool, AllocError>
    requires innings { (1 ≤ innings_a_side) × (innings_a_side ≤ 2) }
    requires target { AreInRange target.now }
    requires draft { IsDraft innings_a_side (B.content book.now) draft.old.lines.items draft.old.items.items }
    ensures { OnOk result (IsDraft innings_a_side (B.content book.now) draft.new.lines.items draft.new.items.items) }
{
    let last = in_the_way.last().copied();
    let Some(entry) = next_line(&draft.items, target, book.len(), last) else {
        return Ok(false);
    };
    match draft.enter(alloc, innings_a_side, book, &entry)? {
        Trial::Taken => {
            in_the_way.pop();
            Ok(true)
        }
        Trial::InTheWay(place) => {
            in_the_way.push(place)?;
            Ok(true)
        }
        Trial::NoRoom => Ok(false),
    }
}

/// Returns lines that lead to what is wanted, or part of the way.
pub fn search<B: BookOf>(
    alloc: Global,
    innings_a_side: u32,
    book: &B,
    target: &[Placed],
) -> Result<Draft, AllocError>
    requires innings { (1 ≤ innings_a_side) × (innings_a_side ≤ 2) }
    requires target { AreInRange target.now }
    ensures { IfOk result (λ draft. IsDraft innings_a_side (B.content book.now) draft.lines.items draft.items.items) }
{
    let mut draft = draft_of(alloc, book)?;
    let mut in_the_way = Vec::new(alloc);
    for tried in 0..MOST_TRIED {
        if !go_on(
            alloc,
            innings_a_side,
            book,
            target,
            &mut draft,
            &mut in_the_way,
        )? {
            break;
        }
    }
    Ok(draft)
}
