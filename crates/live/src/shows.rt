//! How a board shows its book, besides its six lines.

ghost use Rattle.std.specs.Prelude.{◌≡◌, ◌∷◌, ◌++◌, [], ℕ, Bool, List, OnErr, true};
ghost use Rattle.live.specs.Hearings.{Hearing, heard_at, hearing_of};

use agree_core::Message;
use board::Trouble;
use cards::MatchSheet;
use corrections::BookOf;
use streams::WriteFailed;
use wire::WireFault;

/// Shows a board's book, as text and as state. It decides by itself how often to do so; what was handed to it is known, and
/// so is what it was told of whom the board heard.
pub trait Shows<B: BookOf> {
    ghost use Rattle.live.specs.Sights.{Sight, sight_of};

    /// What was handed to it, the oldest first.
    ghost seen: { Self → List Sight };

    /// What it was told that its board heard, the oldest first.
    ghost heard: { Self → List Hearing };

    /// How it changes when this sight is handed to it at this time: what it shows of it, and how.
    ghost goes_on: { Self → Sight → ℕ → Self → Type 0 };

    /// Whether it has failed to show a book.
    ghost failed: { Self → Bool };

    /// Is told that the board hears this message now. The time is in milliseconds from some moment.
    fn hear(&mut self, message: &Message, now: u64)
        ensures heard { heard self.new ≡ heard self.old ++ hearing_of message.now now ∷ [] }
        ensures seen { seen self.new ≡ seen self.old }
        ensures failed { failed self.new ≡ failed self.old };

    /// Shows this book, and what keeps its board from going on, if that is due. The time is in milliseconds from some moment.
    fn show(
        &mut self,
        sheet: &MatchSheet,
        book: &B,
        trouble: Option<Trouble>,
        now: u64,
    ) -> Result<(), WriteFailed>
        ensures seen { seen self.new ≡
            seen self.old ++ sight_of sheet.now (B.innings_a_side book.now) (B.content book.now) trouble ∷ [] }
        ensures heard { heard self.new ≡ heard self.old }
        ensures goes_on { goes_on self.old
            (sight_of sheet.now (B.innings_a_side book.now) (B.content book.now) trouble) now self.new }
        ensures failed { OnErr result (failed self.new ≡ true) };

    /// Returns how many milliseconds it may be left alone after it was handed the book: 0 if it has more to do at once.
    fn longest_wait(&self) -> u64;
}

/// Tells what shows a board's book of the message that was read now, if one was.
pub fn tell_heard<B: BookOf, S: Shows<B>>(
    state: &mut S,
    read: &Result<Message, WireFault>,
    now: u64,
)
    ensures heard { S.heard state.new ≡ S.heard state.old ++ heard_at read.now now }
    ensures seen { S.seen state.new ≡ S.seen state.old }
    ensures failed { S.failed state.new ≡ S.failed state.old }
{
    if let Ok(message) = read {
        state.hear(message, now);
    }
}
