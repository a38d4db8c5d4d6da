//! What holds for every board. The function does nothing: it stands for the law that it ensures.

ghost use Rattle.board.specs.Rounds.{SplitsAreSeen};

/// If a board has heard both desks agree on an entry, and they later agree on another entry for that place, in
/// any round, then one of their votes shows it.
pub fn splits_are_seen()
    ensures { SplitsAreSeen }
{}
