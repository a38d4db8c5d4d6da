//! Which desks a board has heard to be ahead of it.

ghost use Rattle.std.specs.Prelude.{◌≡◌, Ok};
ghost use Rattle.agree_core.specs.declared.messages.Vote.{Vote as AVote};
ghost use Rattle.live.specs.Boards as laws;

use agree_core::{DeskId, Heard, Message};
use board::BoardRefusal;
use wire::{What, WireFault};

/// The desks that a board has heard vote for a later place since it came to its position.
#[derive(Clone, Copy, Debug)]
pub struct Later {
    pub a: bool,
    pub b: bool,
}

impl Later {
    /// Neither desk.
    pub const NEITHER: Later = Later { a: false, b: false };

    /// Adds this desk, if one is given.
    fn joined_by(self, desk: Option<DeskId>) -> Later
        ensures { result ≡ laws.with_desk self desk }
    {
        match desk {
            Some(DeskId::A) => Later { a: true, ..self },
            Some(DeskId::B) => Later { b: true, ..self },
            None => self,
        }
    }

    /// Returns the desks ahead after this answer; `desk` is the desk that voted for a later place, if one did.
    pub fn after(self, desk: Option<DeskId>, answer: Result<What, BoardRefusal>) -> Later
        ensures { result ≡ laws.later_after self desk answer }
    {
        match answer {
            Ok(What::Heard(Heard::Agreed | Heard::Differ)) => Later::NEITHER,
            Ok(What::Heard(Heard::Ahead)) => self.joined_by(desk),
            _ => self,
        }
    }
}

/// Returns the desk of the received vote, if that is for a later place than this one.
pub fn desk_later(read: &Result<Message, WireFault>, place: u32) -> Option<DeskId>
    ensures { (v : AVote) → read.now ≡ Ok (Message.Vote v) → result ≡ laws.desk_ahead place v }
{
    match read {
        Ok(Message::Vote(vote)) if vote.place > place => Some(vote.desk),
        _ => None,
    }
}
