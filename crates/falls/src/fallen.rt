//! Where the wickets of a book fell.

ghost use Rattle.std.specs.Prelude.{◌≡◌, ◌+◌, ◌≤◌, IfOk, codes, length, string_bytes};
ghost use Rattle.notation.specs.declared.entry.TheConstants.{PLACES};
ghost use Rattle.ball_laws.specs.History as history;
ghost use Rattle.corrections.specs.CleanList.{history_of};
ghost use Rattle.limits.specs.inner.Walks.{walk};
ghost use Rattle.falls.specs.Falls as laws;
ghost use Rattle.falls.specs.inner.Falling as falling;

use ball_laws::counts;
use corrections::{BookOf, Placed};
use itoa::Buffer;
use notation::{Leave, Plain};
use std::alloc::{AllocError, Global};

/// The point at which a wicket fell.
#[derive(Clone, Copy)]
pub struct FallAt {
    /// The number of the innings, from 1.
    pub innings: usize,
    /// How many overs of the innings had been called.
    pub overs: u32,
    /// How many balls of the next over counted, including the wicket's own.
    pub balls: u32,
}

/// Whether a wicket falls at an item.
fn is_wicket(item: &Plain) -> bool
    ensures { result ≡ history.is_wicket item.now }
{
    match item {
        Plain::Ball(ball) => ball.out.is_some(),
        Plain::Gone(way, _) => *way != Leave::RetiredHurt,
        Plain::Innings(_)
        | Plain::Come(_)
        | Plain::Over
        | Plain::Penalty(..)
        | Plain::Swap
        | Plain::End(_)
        | Plain::Close
        | Plain::Void => false,
    }
}

/// Returns how many balls an item adds to its over: 1 or 0.
fn counted(item: &Plain) -> u32
    ensures value { result ≡ laws.counted item.now }
    ensures in_range { result ≤ 1 }
{
    match item {
        Plain::Ball(ball) if counts(ball) => 1,
        Plain::Ball(_)
        | Plain::Innings(_)
        | Plain::Come(_)
        | Plain::Gone(..)
        | Plain::Over
        | Plain::Penalty(..)
        | Plain::Swap
        | Plain::End(_)
        | Plain::Close
        | Plain::Void => 0,
    }
}

/// Returns where a wicket falls at an item, given where the match stood before.
fn fall_at(at: FallAt, item: &Plain) -> FallAt
    requires { at.balls ≤ PLACES }
    ensures { result ≡ falling.fall_from at item.now }
{
    FallAt {
        balls: at.balls + counted(item),
        ..at
    }
}

/// Returns where the match stands after an item.
fn behind(at: FallAt, item: &Plain) -> FallAt
    requires innings { at.innings ≤ PLACES }
    requires overs { at.overs ≤ PLACES }
    requires balls { at.balls ≤ PLACES }
    ensures value { result ≡ falling.behind item.now at }
    ensures innings { result.innings ≤ at.innings + 1 }
    ensures overs { result.overs ≤ at.overs + 1 }
    ensures balls { result.balls ≤ at.balls + 1 }
{
    match item {
        Plain::Ball(_) => fall_at(at, item),
        Plain::Over => FallAt {
            overs: at.overs + 1,
            balls: 0,
            ..at
        },
        Plain::Innings(_) => FallAt {
            innings: at.innings + 1,
            overs: 0,
            balls: 0,
        },
        Plain::End(_) => FallAt {
            overs: 0,
            balls: 0,
            ..at
        },
        _ => at,
    }
}

/// Returns where the wickets of these items fell.
fn falls_behind(alloc: Global, items: &[Placed]) -> Result<Vec<FallAt>, AllocError>
    requires { length items.now ≤ PLACES }
    ensures { IfOk result (λ falls.
        falls.items ≡ (walk falling.falling_after falling.nothing items.now).falls) }
{
    let mut falls = Vec::new(alloc);
    let mut at = FallAt {
        innings: 0,
        overs: 0,
        balls: 0,
    };
    for placed in items {
        if is_wicket(&placed.item) {
            falls.push(fall_at(at, &placed.item))?;
        }
        at = behind(at, &placed.item);
    }
    Ok(falls)
}

/// Returns where all wickets of a book fell, in every innings, in order.
pub fn falls_at<B: BookOf>(alloc: Global, book: &B) -> Result<Vec<FallAt>, AllocError>
    ensures { IfOk result (λ falls. falls.items ≡ laws.falls_at (history_of (B.content book.now))) }
{
    falls_behind(alloc, book.clean_items())
}

/// Returns the falls of one innings, by its number from 1.
pub fn falls_in(alloc: Global, number: usize, falls: &[FallAt]) -> Result<Vec<FallAt>, AllocError>
    ensures { IfOk result (λ its. its.items ≡ laws.falls_in number falls.now) }
{
    let mut its = Vec::new(alloc);
    for fall in falls {
        if fall.innings == number {
            its.push(*fall)?;
        }
    }
    Ok(its)
}

/// Returns the text of a fall's over and ball: the overs, a point, and the balls.
pub fn over_and_ball(alloc: Global, fall: FallAt) -> Result<String, AllocError>
    ensures { IfOk result (λ text. string_bytes text ≡ laws.over_and_ball fall) }
{
    let mut buffer = Buffer::new();
    let mut text = String::from_str(alloc, buffer.format(fall.overs))?;
    text.push_str(".")?;
    text.push_str(buffer.format(fall.balls))?;
    Ok(text)
}
