//! Entries and votes.

ghost use Rattle.std.specs.Prelude.{◌≡◌, ◌<◌, List, IfSome, MatchOption};
ghost use Rattle.notation.specs.Written.{IsEntry};
ghost use Rattle.notation.specs.declared.entry.Entry.{Entry as AnEntry};
ghost use Rattle.agree_core.specs.declared.messages.DeskId.{DeskId as ADesk};
ghost use Rattle.agree_core.specs.Ballots.{Ballot, ComesNext};
ghost use Rattle.agree_core.specs.Positions.{InRange, first, next_position, position_of};
ghost use Rattle.vote_store.specs.VoteList.{last_vote};

use agree_core::{DeskId, Message, PLACES, Position, ROUNDS, Vote};
use notation::{Entry, read_line};
use wire::{MessageBytes, bytes_of};

/// Returns the entry of a line, or `None` if the line is no entry's.
pub fn entry_in(line: &str) -> Option<Entry>
    ensures { IfSome result IsEntry }
{
    match read_line(line.as_bytes()) {
        Ok(entry) => Some(entry),
        Err(_) => None,
    }
}

/// Returns a desk's vote for an entry, as the bytes of a datagram of match 7.
pub fn vote_of(desk: DeskId, place: u32, round: u32, entry: Entry) -> MessageBytes
    requires place { place < PLACES }
    requires round { round < ROUNDS }
    requires entry { IsEntry entry }
{
    let vote = Vote {
        desk,
        place,
        round,
        entry,
    };
    bytes_of(7, &Message::Vote(vote))
}

/// Returns the position of the vote after this one: the next place, or the next round of the same place.
pub fn next_position(last: &Option<Vote>, agreed: bool) -> Position
    requires { IfSome last.now (λ vote. InRange (position_of vote)) }
    ensures value { MatchOption last.now (result ≡ first) (λ vote. result ≡ next_position agreed (position_of vote)) }
    ensures next { (desk : ADesk) → (votes : List Ballot) → last.now ≡ last_vote desk votes
        → (e : AnEntry) → ComesNext (record { at = result; entry = e }) votes }
{
    match *last {
        None => Position::FIRST,
        Some(Vote { place, round, .. }) => {
            if agreed {
                Position {
                    place: place + 1,
                    round: 0,
                }
            } else {
                Position {
                    place,
                    round: round + 1,
                }
            }
        }
    }
}
