//! What a board tells when it can't take something.

ghost use Rattle.std.specs.Prelude.{◌≡◌, ◌∷◌, ◌++◌, [], List, OnOk};
ghost use Rattle.streams.specs.Watched.{Prints, TellsFailure};
ghost use Rattle.board.specs.Troubles.{left_of};
ghost use Rattle.station_texts.specs.Notices as texts;

use crate::doubt::Evidence;
use crate::warned::Warned;
use agree_core::Heard;
use board::{BoardRefusal, Trouble, Why};
use streams::{Sink, Watched, WriteFailed};
use wire::{What, WireFault};

/// Something that a board can't take.
#[derive(Clone, Copy)]
pub enum Notice {
    /// A datagram that is no message of the match.
    Bytes(WireFault),
    /// A datagram that doesn't open.
    Unopened,
    /// Two votes of one desk for one position.
    TwoVotes,
    /// Both desks' votes at this place for an entry that the board's book refuses. What the board has shown may be wrong.
    BadVotes { place: u32 },
    /// A vote for this place that no desk casts whose file has all its lines: the desk had voted for another entry at this
    /// position, or both desks had voted alike in an earlier round.
    Parted { place: u32 },
    /// The desks vote for later places and not for the round of this place that the board has come to, after votes for the
    /// place that weren't alike.
    Apart { place: u32 },
}

/// Takes a board's notices. Nothing is known of who reads them; each notice handed to `tell` counts as told.
pub trait Notices {
    ghost use Rattle.station_texts.specs.declared.notices.Notice.{Notice};

    /// The notices handed to `tell`, the oldest first.
    ghost told: { Self → List Notice };

    /// Tells a notice. It is no fault if the notice can't be delivered.
    fn tell(&mut self, notice: Notice)
        ensures { told self.new ≡ told self.old ++ notice ∷ [] };
}

/// Prints a notice, on a line of its own.
pub fn print_notice<W: Sink>(out: &mut Watched<W>, notice: Notice) -> Result<(), WriteFailed>
    ensures text { OnOk result (Prints W.contents out.old out.new (texts.notice_text notice)) }
    ensures failed { TellsFailure result out.old out.new }
{
    match notice {
        Notice::Bytes(fault) => {
            let code = fault.number();
            writeln!(out, "peer: {code} {fault}")
        }
        Notice::Unopened => writeln!(out, "peer: another sheet or another key"),
        Notice::TwoVotes => writeln!(out, "peer: two votes"),
        Notice::BadVotes { place } => {
            writeln!(out, "{place} refused 64 BadVotes: no later score is shown")
        }
        Notice::Parted { place } => writeln!(
            out,
            "{place} is written anew: a desk's file lacks lines that this board has; no later score is shown"
        ),
        Notice::Apart { place } => {
            writeln!(out, "{place} the desks told this board different lines")
        }
    }
}

/// What a board has told since it last took a vote, and the trouble that it told of which keeps it from going on.
#[derive(Clone, Copy, Debug)]
pub struct Telling {
    pub warned: Warned,
    pub trouble: Option<Trouble>,
}

/// Tells a notice, unless it was already told.
fn note<N: Notices>(notices: &mut N, is_told: bool, notice: Notice)
    ensures { N.told notices.new ≡ texts.noted is_told (N.told notices.old) notice }
{
    if !is_told {
        notices.tell(notice);
    }
}

/// Whether this answer brings the board to another position: the board has now heard both votes of its own.
pub fn opens(answer: What) -> bool
    ensures { result ≡ texts.opens answer }
{
    matches!(answer, What::Heard(Heard::Agreed | Heard::Differ))
}

impl Telling {
    /// The state in which nothing was told.
    pub const NOTHING: Telling = Telling {
        warned: Warned::NOTHING,
        trouble: None,
    };

    /// Whether the board takes no further votes.
    pub fn is_stopped(self) -> bool
        ensures { result ≡ texts.is_stopped self }
    {
        match self.trouble {
            Some(trouble) => trouble.why.stops(),
            None => false,
        }
    }

    /// Returns the trouble that remains after the board has come to another position: only one that stops it.
    fn left(self) -> Option<Trouble>
        ensures { result ≡ left_of self.trouble }
    {
        match self.trouble {
            Some(trouble) if trouble.why.stops() => Some(trouble),
            _ => None,
        }
    }

    /// Returns the same state with this trouble.
    fn troubled(self, place: u32, why: Why) -> Telling
        ensures { result ≡ texts.with_trouble self place why }
    {
        Telling {
            trouble: Some(Trouble { place, why }),
            ..self
        }
    }

    /// Tells what is news in the answer to a datagram.
    pub fn tell<N: Notices>(self, answer: Result<What, BoardRefusal>, notices: &mut N)
        ensures { N.told notices.new ≡ texts.notices_after self (N.told notices.old) answer }
    {
        match answer {
            Ok(What::Bad(fault)) => note(notices, self.warned.of_bytes, Notice::Bytes(fault)),
            Ok(What::Heard(Heard::TwoVotes)) => {
                note(notices, self.warned.of_votes, Notice::TwoVotes);
            }
            Ok(_) => {}
            Err(BoardRefusal::BadVotes { place }) => {
                note(notices, self.is_stopped(), Notice::BadVotes { place });
            }
        }
    }

    /// Tells that a datagram doesn't open, unless that was already told, and returns the new state.
    pub fn unopened<N: Notices>(self, notices: &mut N) -> Telling
        ensures told { N.told notices.new ≡ texts.notices_unopened self (N.told notices.old) }
        ensures after { result ≡ texts.telling_unopened self }
    {
        note(notices, self.warned.of_seal, Notice::Unopened);
        Telling {
            warned: self.warned.after_unopened(),
            ..self
        }
    }

    /// Tells that a vote for this place shows that a desk's file lacks lines, and returns the new state.
    pub fn part<N: Notices>(self, place: u32, notices: &mut N) -> Telling
        ensures told { N.told notices.new ≡ N.told notices.old ++ Notice.Parted place ∷ [] }
        ensures after { result ≡ texts.with_trouble self place Why.Anew }
    {
        notices.tell(Notice::Parted { place });
        self.troubled(place, Why::Anew)
    }

    /// Tells that the desks vote for later places than this one, and returns the new state.
    pub fn split<N: Notices>(self, place: u32, notices: &mut N) -> Telling
        ensures told { N.told notices.new ≡ N.told notices.old ++ Notice.Apart place ∷ [] }
        ensures after { result ≡ texts.with_trouble self place Why.Apart }
    {
        notices.tell(Notice::Apart { place });
        self.troubled(place, Why::Apart)
    }

    /// Returns the state after that answer.
    pub fn after(self, answer: Result<What, BoardRefusal>) -> Telling
        ensures { result ≡ texts.telling_after self answer }
    {
        match answer {
            Ok(what) => Telling {
                warned: self.warned.after(Evidence::Nothing, what),
                trouble: if opens(what) {
                    self.left()
                } else {
                    self.trouble
                },
            },
            Err(BoardRefusal::BadVotes { place }) => self.troubled(place, Why::Refused),
        }
    }
}
