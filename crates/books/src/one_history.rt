//! Whether both desks' votes can be of one history.

ghost use Rattle.std.specs.Prelude.{◌≡◌, ◌<◌, true, false, OnOk};
ghost use Rattle.agree_core.specs.declared.position.TheConstants.{ROUNDS};
ghost use Rattle.notation.specs.declared.entry.TheConstants.{PLACES};
ghost use Rattle.books.specs.DeskVotes.{read_votes, votes_of_both};
ghost use Rattle.books.specs.OneHistory as history;
ghost use Rattle.streams.specs.Watched.{Prints, TellsFailure};

use crate::compare::is_alike;
use crate::desk_votes::DeskVotes;
use agree_core::ROUNDS;
use notation::PLACES;
use streams::{Sink, Watched, WriteFailed};

/// Whether a desk has a vote there.
fn has_vote(votes: &DeskVotes, place: u32, round: u32) -> bool
    ensures { result ≡ history.has_vote (read_votes votes.now) place round }
{
    votes.at(place, round).is_some()
}

/// Whether a desk went on from this round as no desk does: after equal votes to the next round, or after
/// different votes to the next place without a vote in the next round.
fn goes_wrong(alike: bool, votes: &DeskVotes, place: u32, round: u32) -> bool
    requires place { place < PLACES }
    requires round { round < ROUNDS }
    ensures { result ≡ history.goes_wrong alike (read_votes votes.now) place round }
{
    if alike {
        has_vote(votes, place, round + 1)
    } else {
        has_vote(votes, place + 1, 0) && !has_vote(votes, place, round + 1)
    }
}

/// Whether both desks voted in this round of a place, and one of them went on as no desk does.
fn is_torn(a: &DeskVotes, b: &DeskVotes, place: u32, round: u32) -> bool
    requires place { place < PLACES }
    requires round { round < ROUNDS }
    ensures { result ≡ history.is_torn (votes_of_both a.now b.now) place round }
{
    let (first, second) = (a.at(place, round), b.at(place, round));
    let alike = is_alike(&first, &second);
    first.is_some()
        && second.is_some()
        && (goes_wrong(alike, a, place, round) || goes_wrong(alike, b, place, round))
}

/// Whether the votes are torn in some round of a place. No round after the first without a vote of A has votes
/// of A.
fn is_torn_at(a: &DeskVotes, b: &DeskVotes, place: u32) -> bool
    requires { place < PLACES }
    ensures torn { result ≡ true → history.IsTornAt (votes_of_both a.now b.now) place }
    ensures whole { result ≡ false → history.IsWholeAt (votes_of_both a.now b.now) place ROUNDS }
{
    for round in 0..ROUNDS {
        if !has_vote(a, place, round) {
            return false;
        }
        if is_torn(a, b, place, round) {
            return true;
        }
    }
    false
}

/// Returns the first place at which both desks' votes aren't of one history: both voted alike there and one
/// voted in the next round, or they voted differently and one went on to the next place. Returns `None` if the
/// votes are of one history. No place after the first without a vote of A has votes of A.
pub fn first_torn(a: &DeskVotes, b: &DeskVotes) -> Option<u32>
    ensures { history.Tears (votes_of_both a.now b.now) result }
{
    for place in 0..PLACES {
        if !has_vote(a, place, 0) {
            return None;
        }
        if is_torn_at(a, b, place) {
            return Some(place);
        }
    }
    None
}

/// Prints that the votes aren't of one history from this place on.
pub fn print_torn<W: Sink>(out: &mut Watched<W>, place: u32) -> Result<(), WriteFailed>
    ensures text { OnOk result (Prints W.contents out.old out.new (history.torn_line place)) }
    ensures failed { TellsFailure result out.old out.new }
{
    writeln!(
        out,
        "not one history from place {place} on: a file was lost or replaced"
    )
}
