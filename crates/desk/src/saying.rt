//! What a desk says at a position.

ghost use Rattle.std.specs.Prelude.{◌≡◌};
ghost use Rattle.agree_core.specs.Ballots.{vote_of};
ghost use Rattle.agree_core.specs.Desks.{ask_for, asker};
ghost use Rattle.agree_core.specs.declared.messages.Message.{Message};

use agree_core::{Ask, Asker, DeskId, Position, Vote};
use notation::Entry;

/// Returns a desk's vote for an entry.
pub(crate) fn vote_at(desk: DeskId, at: Position, entry: Entry) -> Vote
    ensures { result ≡ vote_of desk (record { at = at; entry = entry }) }
{
    Vote {
        desk,
        place: at.place,
        round: at.round,
        entry,
    }
}

/// Returns a desk's ask for the votes of a position.
pub(crate) fn ask_for(desk: DeskId, at: Position) -> Ask
    ensures { Message.Ask result ≡ ask_for (asker desk) at }
{
    Ask {
        from: match desk {
            DeskId::A => Asker::A,
            DeskId::B => Asker::B,
        },
        place: at.place,
        round: at.round,
    }
}
