//! Where a desk stands after a line that it was given.

ghost use Rattle.std.specs.Prelude.{◌≡◌};
ghost use Rattle.ahead.specs.Dropping.{differs_since, is_not_taken};

use crate::taking::may_cast;
use links::{HeldLine, Stand};

/// A line that the desk was given at this position, and whether it was held before.
#[derive(Clone, Copy)]
pub struct Tried {
    pub line: HeldLine,
    pub place: u32,
    pub round: u32,
    pub was_held: bool,
}

/// Whether the two scorers have differed since the desk was last seen.
pub fn differs_since(seen: Option<Stand>, at: Stand) -> bool
    ensures { result ≡ differs_since seen at }
{
    match seen {
        None => false,
        Some(seen) => at.place == seen.place && at.round > seen.round,
    }
}

/// Whether the desk cast no vote for the line that it was given last, though it may cast that line.
pub fn is_not_taken(tried: Option<Tried>, at: Stand) -> bool
    ensures { result ≡ is_not_taken tried at }
{
    match tried {
        None => false,
        Some(tried) => {
            at.place == tried.place
                && at.round == tried.round
                && !at.has_voted
                && may_cast(tried.line.as_str().as_bytes())
        }
    }
}
