//! The votes of the two scorers at one position.

use agree_core::Position;
use notation::Entry;

/// Both votes at one position, as far as they are known: the desk's own, and the other desk's.
#[derive(Clone, Copy)]
pub struct Both {
    pub at: Position,
    pub own: Option<Entry>,
    pub other: Option<Entry>,
}
