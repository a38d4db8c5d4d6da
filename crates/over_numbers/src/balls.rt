//! Deliveries named by their over and their number in it.

ghost use Rattle.std.specs.Prelude.{◌≡◌, ◌≤◌, [], length};
ghost use Rattle.notation.specs.declared.entry.TheConstants.{PLACES};
ghost use Rattle.over_numbers.specs.Balls as balls;

use crate::count::Count;
use corrections::{BookOf, Placed};
use notation::{Plain, number_in};

/// A delivery of an innings: its over, as the overs were called, and its number in that over, both from 1.
#[derive(Clone, Copy)]
pub struct Named {
    pub over: u32,
    pub ball: u32,
}

impl Named {
    /// Whether the next item is this delivery of an innings.
    fn is_next(self, count: Count, innings: usize, item: &Plain) -> bool
        requires innings { innings ≤ PLACES }
        requires overs { count.overs ≤ PLACES }
        requires balls { count.balls ≤ PLACES }
        ensures { result ≡ balls.is_named count innings self item.now }
    {
        match item {
            Plain::Ball(_) => {
                count.is_in_over(innings, self.over) && count.balls + 1 == self.ball
            }
            _ => false,
        }
    }
}

/// Returns the place of a delivery of an innings, among the standing items.
fn place_among(items: &[Placed], innings: usize, named: Named) -> Option<u32>
    requires innings { innings ≤ PLACES }
    requires items { length items.now ≤ PLACES }
    ensures { result ≡ balls.place_among innings named [] items.now }
{
    let mut count = Count::none();
    for index in 0..items.len() {
        let placed = &items[index];
        if named.is_next(count, innings, &placed.item) {
            return Some(placed.place);
        }
        count = count.after(&placed.item);
    }
    None
}

/// Returns the place of a delivery, if the innings that began last has it.
pub fn place_of<B: BookOf>(book: &B, named: Named) -> Option<u32>
    ensures { result ≡ balls.place_of (B.content book.now) named }
{
    let innings = book.score().begun().saturating_sub(1);
    place_among(book.clean_items(), innings, named)
}

/// Returns the delivery that a token such as `9.2` names.
pub fn named_ball(token: &str) -> Option<Named>
    ensures { result ≡ balls.named_ball token.now }
{
    let (over, ball) = token.split_once('.')?;
    let over = number_in(over, 1, 8191)?;
    let ball = number_in(ball, 1, 60)?;
    Some(Named {
        over: u32::from(over),
        ball: u32::from(ball),
    })
}
