//! What a desk's scorer has been told of a peer.

ghost use Rattle.std.specs.Prelude.{◌≡◌};
ghost use Rattle.station_texts.specs.Texts as texts;

use crate::doubt::{Doubt, Evidence};
use crate::reminder::Reminder;
use crate::said::Said;
use agree_core::Heard;
use screen::Word;
use wire::What;

/// What a desk's scorer was told of a peer since the last vote that was news. Only such a vote is a sign that all is right:
/// anyone's ask looks like a desk's, and a waiting desk repeats its vote twice a second. The silence of the other desk stands
/// until it is heard, the desk's own doubt until it is cleared.
#[derive(Clone, Copy, Debug)]
pub struct Warned {
    /// A datagram came that is no message of the match.
    pub of_bytes: bool,
    /// A datagram came that doesn't open.
    pub of_seal: bool,
    /// Two votes of the other desk came for one position.
    pub of_votes: bool,
    /// The other desk's file lacks lines.
    pub of_lines: bool,
    /// The other desk has written its vote of this position.
    pub of_writing: bool,
    /// The other desk isn't heard, and it wasn't told yet that it is heard again.
    pub of_silence: bool,
    /// Whether this desk doubts that its file has all its lines.
    pub doubt: Doubt,
}

impl Warned {
    /// The state in which nothing was told.
    pub const NOTHING: Warned = Warned {
        of_bytes: false,
        of_seal: false,
        of_votes: false,
        of_lines: false,
        of_writing: false,
        of_silence: false,
        doubt: Doubt::No,
    };

    /// Returns the state after a datagram that doesn't open.
    pub fn after_unopened(self) -> Warned
        ensures { result ≡ texts.warned_unopened self }
    {
        Warned {
            of_seal: true,
            ..self
        }
    }

    /// Returns the state after a message has shown this evidence.
    fn shown(self, evidence: Evidence) -> Warned
        ensures { result ≡ texts.warned_shown self evidence }
    {
        Warned {
            of_lines: self.of_lines || matches!(evidence, Evidence::OtherLacks),
            doubt: self.doubt.after(evidence),
            ..self
        }
    }

    /// Returns the state after the answer to a datagram, which shows this evidence of both desks' files.
    pub fn after(self, evidence: Evidence, what: What) -> Warned
        ensures { result ≡ texts.warned_after self evidence what }
    {
        match what {
            What::Bad(_) => Warned {
                of_bytes: true,
                ..self
            },
            What::Heard(Heard::TwoVotes) => Warned {
                of_votes: true,
                ..self
            },
            What::Heard(Heard::Noted | Heard::Agreed | Heard::Differ) => Warned {
                of_silence: self.of_silence,
                doubt: self.doubt,
                ..Warned::NOTHING
            },
            What::Heard(Heard::Mine | Heard::Old | Heard::Ahead) | What::Asked => {
                self.shown(evidence)
            }
            What::Heard(Heard::Again) | What::Device | What::Failed => self,
        }
    }

    /// Returns the state after a line came to this.
    pub fn after_said(self, said: &Said) -> Warned
        ensures { result ≡ texts.warned_said self said.now }
    {
        match said {
            Said::Asks(Word::GoOn) => Warned {
                doubt: self.doubt.dismissed(),
                ..self
            },
            _ => self,
        }
    }

    /// Returns the state after this reminder.
    pub fn after_reminder(self, reminder: Reminder) -> Warned
        ensures { result ≡ texts.warned_reminded self reminder }
    {
        match reminder {
            Reminder::HasWritten => Warned {
                of_writing: true,
                ..self
            },
            Reminder::IsMissed => Warned {
                of_silence: true,
                ..self
            },
            Reminder::IsHeard => Warned {
                of_silence: false,
                ..self
            },
        }
    }
}
