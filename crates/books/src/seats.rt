//! Two desks at one table.

ghost use Rattle.std.specs.Prelude.{◌≡◌, ◌+◌, ◌<◌, true};
ghost use Rattle.notation.specs.declared.entry.TheConstants.{PLACES};
ghost use Rattle.agree_core.specs.declared.messages.DeskId.TheVariants.{A, B};
ghost use Rattle.books.specs.inner.Seats.{free_at};

use agree_core::{DeskId, Heard, Seat, Settled, Vote};
use notation::Entry;

/// Has both desks vote for an entry and hear each other's vote; returns true, as both find the entry agreed.
pub fn agree(a: &mut Seat, b: &mut Seat, entry: &Entry, place: u32) -> bool
    requires places { place < PLACES }
    requires first { a.old ≡ free_at A place }
    requires second { b.old ≡ free_at B place }
    ensures agreed { result ≡ true }
    ensures first { a.new ≡ free_at A (place + 1) }
    ensures second { b.new ≡ free_at B (place + 1) }
{
    let mut vote = Vote {
        desk: DeskId::A,
        place,
        round: 0,
        entry: *entry,
    };
    let _pending = a.cast(vote.entry);
    let _noted = b.hear(&vote);
    vote.desk = DeskId::B;
    let settled = b.cast(vote.entry);
    let heard = a.hear(&vote);
    settled == Settled::Agreed && heard == Heard::Agreed
}
