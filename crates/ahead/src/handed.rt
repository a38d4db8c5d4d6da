//! The held line that the desk was given last, and an `undo` that may be meant for it.

ghost use Rattle.std.specs.Prelude.{◌≡◌, IfSome};
ghost use Rattle.ahead.specs.Dropping.{HoldsNone};
ghost use Rattle.ahead.specs.Sorts.{is_undo};
ghost use Rattle.ahead.specs.Undoing as undoing;

use crate::taking::{Sort, may_cast, sort_of};
use links::{Aside, HeldLine, Stand};

/// For how many milliseconds after the desk is given a held line an `undo` that would hit that line writes nothing: whoever
/// began to type while the line was held is done by then.
const HELD_UNDO_WAIT: u64 = 5_000;

/// A line that was held, the place at which the desk was given it, and the clock's time then, in milliseconds.
#[derive(Clone, Copy)]
pub struct Handed {
    pub line: HeldLine,
    pub place: u32,
    pub millis: u64,
}

impl Handed {
    /// Whether the desk was given the line less than five seconds ago.
    fn is_recent(&self, now: u64) -> bool
        ensures { result ≡ undoing.is_recent self.now now }
    {
        now.saturating_sub(self.millis) < HELD_UNDO_WAIT
    }

    /// Returns what the scorer is told of the line at a place: at its own that it wasn't taken, at the next that it is cast.
    fn row_at(&self, place: u32) -> Option<Aside>
        ensures row { result ≡ undoing.row_at place self.now }
        ensures none { IfSome result HoldsNone }
    {
        if place == self.place {
            Some(Aside::Untaken(self.place, self.line))
        } else if place.saturating_sub(self.place) == 1 {
            Some(Aside::WasHeld(self.place, self.line))
        } else {
            None
        }
    }
}

/// Whether a line is `undo`.
fn is_undo(line: &[u8]) -> bool
    ensures { result ≡ is_undo line.now }
{
    matches!(sort_of(line), Sort::Undo)
}

/// Returns the held line that the desk was given last, unless it has now been given a typed line that it may cast.
pub fn handed_behind(handed: Option<Handed>, line: &[u8]) -> Option<Handed>
    ensures { result ≡ undoing.handed_behind handed line.now }
{
    if may_cast(line) { None } else { handed }
}

/// Returns what the scorer is told of an `undo` that may be meant for the held line that the desk was given last.
pub fn answer_to(handed: Option<Handed>, at: Stand, now: u64, line: &[u8]) -> Option<Aside>
    ensures row { result ≡ undoing.answer_to handed at now line.now }
    ensures none { IfSome result HoldsNone }
{
    match &handed {
        Some(handed) if is_undo(line) && at.round == 0 && handed.is_recent(now) => {
            handed.row_at(at.place)
        }
        _ => None,
    }
}
