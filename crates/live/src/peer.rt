//! When the other desk was heard.

ghost use Rattle.std.specs.Prelude.{◌≡◌, ◌⊎◌, true};
ghost use Rattle.agree_core.specs.Desks as desks;
ghost use Rattle.agree_core.specs.Readers as readers;
ghost use Rattle.agree_core.specs.declared.messages.Message.{Message as AMessage};
ghost use Rattle.live.specs.Signs as signs;
ghost use Rattle.live.specs.Signs.{IsSign};

use crate::hearing::position_of;
use crate::times::{LONGEST_REPEAT_WAIT, REMINDER_WAIT};
use agree_core::{Asker, DeskId, Heard, Message, Position};
use wire::{What, WireFault};

/// Returns the asker that a desk is.
fn asker(desk: DeskId) -> Asker
    ensures { result ≡ desks.asker desk }
{
    match desk {
        DeskId::A => Asker::A,
        DeskId::B => Asker::B,
    }
}

/// Returns the other desk's letter.
fn other(desk: DeskId) -> DeskId
    ensures { result ≡ readers.other desk }
{
    match desk {
        DeskId::A => DeskId::B,
        DeskId::B => DeskId::A,
    }
}

/// Returns the sender of a message.
fn sender_of(message: &Message) -> Asker
    ensures { result ≡ signs.sender_of message.now }
{
    match message {
        Message::Vote(vote) => asker(vote.desk),
        Message::Ask(ask) => ask.from,
    }
}

/// When a desk last heard the other desk.
#[derive(Clone, Copy)]
pub struct Peer {
    /// This desk's letter.
    own: DeskId,
    /// When the other desk's last vote or ask for this desk's position came; at first, when the process began. For this time
    /// and `noted`, time in which the desk itself was held up isn't counted.
    heard: u64,
    /// When the other desk's last noted vote came.
    noted: u64,
    /// The clock's last reading.
    looked: u64,
}

impl Peer {
    /// Returns the state as this desk's process begins.
    pub fn new(own: DeskId, now: u64) -> Peer {
        Peer {
            own,
            heard: now,
            noted: now,
            looked: now,
        }
    }

    /// Notes the clock's reading, once a turn. A turn waits half a second at most: in any longer time the desk itself was held
    /// up, as by a slow disk. It could hear nobody then, so that time doesn't count.
    pub fn pass(&mut self, now: u64)
        ensures heard { self.new.heard ≡ signs.counted_from self.old.heard self.old.looked now }
        ensures noted { self.new.noted ≡ signs.counted_from self.old.noted self.old.looked now }
        ensures looked { self.new.looked ≡ now }
        ensures own { self.new.own ≡ self.old.own }
    {
        let held = now
            .saturating_sub(self.looked)
            .saturating_sub(LONGEST_REPEAT_WAIT);
        self.heard = now.min(self.heard.saturating_add(held));
        self.noted = now.min(self.noted.saturating_add(held));
        self.looked = now;
    }

    /// Notes a message, with the desk's position and answer as it came. Only a sign of the other desk counts as hearing it: a
    /// message for an earlier position may be a repeat by anyone who keeps datagrams.
    pub fn note(&mut self, at: Position, read: Result<Message, WireFault>, what: What, now: u64)
        ensures heard { self.new.heard ≡ self.old.heard
            ⊎ ((m : AMessage) × (read ≡ Ok m) × IsSign self.old.own at m) }
    {
        if self.is_sign(at, read) {
            self.heard = now;
        }
        if matches!(what, What::Heard(Heard::Noted)) {
            self.noted = now;
        }
    }

    /// Whether the other desk hasn't been heard for `REMINDER_WAIT` or longer.
    pub fn is_missed(&self, now: u64) -> bool {
        now.saturating_sub(self.heard) >= REMINDER_WAIT
    }

    /// Whether the other desk's vote was noted `REMINDER_WAIT` or longer ago.
    pub fn is_late(&self, now: u64) -> bool {
        now.saturating_sub(self.noted) >= REMINDER_WAIT
    }

    /// Whether the message is a sign of the other desk.
    fn is_sign(&self, at: Position, read: Result<Message, WireFault>) -> bool
        ensures { result ≡ true → (m : AMessage) × (read ≡ Ok m) × IsSign self.now.own at m }
    {
        match read {
            Ok(message) => {
                sender_of(&message) == asker(other(self.own))
                    && (position_of(&message) == at || at.is_full())
            }
            Err(_) => false,
        }
    }
}
