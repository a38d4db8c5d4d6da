//! The corrections that make another player the bowler of an over.

ghost use Rattle.std.specs.Prelude.{◌≡◌, ◌<◌, ◌≤◌, ◌+◌, ◌++◌, ◌∷◌, [], All, IfOk, IfSome, MatchOption, OnOk, length};
ghost use Rattle.notation.specs.declared.entry.TheConstants.{PLACES};
ghost use Rattle.notation.specs.Written.{IsEntry, IsPlain};
ghost use Rattle.plans.specs.Bowlers as bowlers;

use corrections::{BookOf, Placed};
use notation::{Ball, Entry, Plain, Player};
use over_numbers::Count;
use std::alloc::{AllocError, Global};

/// Returns the delivery with this player as its bowler.
fn bowled_by(ball: Ball, bowler: Player) -> Ball
    ensures { result ≡ record ball { bowler = bowler } }
{
    Ball { bowler, ..ball }
}

/// Returns the correction that makes this player the bowler of the item at a place, if that is a delivery of the over.
fn fix_by(is_of_over: bool, bowler: Player, placed: &Placed) -> Option<Entry>
    requires { IsPlain placed.now.item }
    ensures value { MatchOption result (bowlers.fix_by is_of_over bowler placed.now.place placed.now.item ≡ [])
        (λ fix. bowlers.fix_by is_of_over bowler placed.now.place placed.now.item ≡ fix ∷ []) }
    ensures in_range { placed.now.place < PLACES → IfSome result IsEntry }
{
    if !is_of_over {
        return None;
    }
    match placed.item {
        Plain::Ball(ball) => Some(Entry::Fix(placed.place, Plain::Ball(bowled_by(ball, bowler)))),
        _ => None,
    }
}

/// Adds that correction to others, if there is one.
fn add_fix(
    fixes: &mut Vec<Entry>,
    is_of_over: bool,
    bowler: Player,
    placed: &Placed,
) -> Result<(), AllocError>
    requires { IsPlain placed.now.item }
    ensures items { OnOk result
        (fixes.new.items ≡ fixes.old.items ++ bowlers.fix_by is_of_over bowler placed.now.place placed.now.item) }
    ensures in_range { placed.now.place < PLACES → All IsEntry fixes.old.items → OnOk result (All IsEntry fixes.new.items) }
    ensures few { OnOk result (length fixes.new.items ≤ length fixes.old.items + 1) }
{
    // The prover must know the crate of `Plain`, which `Entry` names; a local of that type tells it.
    let _item: Option<Plain> = None;
    match fix_by(is_of_over, bowler, placed) {
        Some(fix) => {
            fixes.push(fix)?;
            Ok(())
        }
        None => Ok(()),
    }
}

/// Returns the corrections that make this player the bowler of each delivery of an over, from 1, of the innings begun last.
pub fn over_by<B: BookOf>(
    alloc: Global,
    book: &B,
    over: u32,
    bowler: Player,
) -> Result<Vec<Entry>, AllocError>
    requires { over ≤ PLACES }
    ensures fixes { IfOk result (λ fixes. fixes.items ≡ bowlers.over_by (B.content book.now) over bowler) }
    ensures in_range { IfOk result (λ fixes. All IsEntry fixes.items) }
    ensures few { IfOk result (λ fixes. length fixes.items ≤ PLACES) }
{
    let innings = book.score().begun().saturating_sub(1);
    // The length tells the prover that a book has room for all its entries.
    let _len = book.len();
    let items = book.clean_items();
    let mut count = Count::none();
    let mut fixes = Vec::new(alloc);
    for index in 0..items.len() {
        let placed = items[index];
        let is_of_over = count.is_in_over(innings, over);
        add_fix(&mut fixes, is_of_over, bowler, &placed)?;
        count = count.after(&placed.item);
    }
    Ok(fixes)
}
