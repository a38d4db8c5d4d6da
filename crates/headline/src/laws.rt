//! What holds in every run of a match. This function does nothing: it stands for the law that it ensures.

ghost use Rattle.headline.specs.Laws.{HoldsInEachRun};

use entry_log::Disk;

/// In every run of a match, with any code and on any disks, the headline holds: of any two books that desks or boards show at
/// any two moments, one is a prefix of the other; both scorers voted for each entry in one round; each score is the Laws' score
/// of its book; and a running station that noted both equal votes of its position has the entry. Besides, no vote is lost, each
/// vote that was handed out is in every image of its desk's disk, and no event is answered as unsound.
pub fn every_run_is_sound<D: Disk>()
    ensures { HoldsInEachRun D.seen D.images }
{}
