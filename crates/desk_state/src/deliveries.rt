//! The deliveries of the current over and of the last one, with their places.

ghost use Rattle.std.specs.Prelude.{◌≡◌, [], IfOk, OnOk};
ghost use Rattle.desk_state.specs.Over as laws;
ghost use Rattle.desk_state.specs.inner.Items as items;

use corrections::{BookOf, Placed};
use notation::{Ball, Plain};
use std::alloc::{AllocError, Global};
use std::marker::Model;
use std::mem;

/// A delivery with the place of its entry.
#[derive(Clone, Copy)]
pub struct Delivery {
    pub place: u32,
    pub ball: Ball,
}

/// The current over and the over called last.
#[derive(Drop)]
struct Deliveries {
    this: Vec<Delivery>,
    last: Vec<Delivery>,
}

impl Model for Deliveries {
    ghost use Rattle.desk_state.specs.inner.Items.{Noted};

    ghost Value = { Noted };

    ghost view = { λ d. record { this = d.this.items; last = d.last.items } };
}

impl Deliveries {
    /// Begins before the first item.
    fn new(alloc: Global) -> Deliveries
        ensures { result ≡ items.none_noted }
    {
        Deliveries {
            this: Vec::new(alloc),
            last: Vec::new(alloc),
        }
    }

    /// Ends the current over, when it is called.
    fn call(&mut self)
        ensures this { self.new.this ≡ [] }
        ensures last { self.new.last ≡ self.old.this }
    {
        mem::swap(&mut self.this, &mut self.last);
        self.this.clear();
    }

    /// Forgets both overs, when an innings begins or ends.
    fn clear(&mut self)
        ensures { self.new ≡ items.none_noted }
    {
        self.this.clear();
        self.last.clear();
    }

    /// Takes one more item.
    fn take(&mut self, placed: &Placed) -> Result<(), AllocError>
        ensures { OnOk result (self.new ≡ items.noted_after placed.now self.old) }
    {
        match placed.item {
            Plain::Ball(ball) => self.this.push(Delivery {
                place: placed.place,
                ball,
            })?,
            Plain::Over => self.call(),
            Plain::Innings(_) | Plain::End(_) => self.clear(),
            _ => {}
        }
        Ok(())
    }
}

/// Returns both overs after these items.
fn deliveries_behind(alloc: Global, placed: &[Placed]) -> Result<Deliveries, AllocError>
    ensures { IfOk result (λ d. d ≡ items.noted_behind items.none_noted placed.now) }
{
    let mut deliveries = Deliveries::new(alloc);
    for item in placed {
        deliveries.take(item)?;
    }
    Ok(deliveries)
}

/// Returns the deliveries of the current over, or of the last one while the current over has none.
pub fn over_shown<B: BookOf>(alloc: Global, book: &B) -> Result<Vec<Delivery>, AllocError>
    ensures { IfOk result (λ over. over.items ≡ laws.over_shown (B.content book.now)) }
{
    let deliveries = deliveries_behind(alloc, book.clean_items())?;
    let Deliveries { this, last } = deliveries;
    let is_between = this.as_slice().is_empty();
    if is_between { Ok(last) } else { Ok(this) }
}
