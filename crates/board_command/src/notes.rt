//! What a board tells standard error.

use board::Witness;
use live::Watch;
use station_texts::{Notice, NoticeLog, Notices, print_notice};
use streams::{Sink, Watched};

/// A writer for a board's notices, each of which is written at once.
#[derive(Drop)]
pub struct Notes<E> {
    errors: Watched<E>,
    log: NoticeLog,
}

impl<E: Sink + Drop> Notes<E> {
    ghost use Rattle.std.specs.Prelude.{◌≡◌, []};
    ghost use Rattle.station_texts.specs.NoticeLogs.{notices_of};

    /// Makes a writer that hasn't told any notice yet.
    pub fn new(errors: E) -> Notes<E>
        ensures { notices_of result.log ≡ [] }
    {
        Notes {
            errors: Watched::new(errors),
            log: NoticeLog::Empty,
        }
    }

    /// Returns the notices that were told. Only clauses read them.
    pub fn log(&self) -> &NoticeLog
        ensures { result.now ≡ self.now.log }
    {
        &self.log
    }

    /// Makes the watch of a board that remembers this much and hasn't told any notice yet.
    pub fn watching(witness: Witness, errors: E) -> Watch<Notes<E>>
        ensures witness { result.witness ≡ witness }
        ensures untold { notices_of (result.notices).log ≡ [] }
    {
        Watch {
            notices: Notes::new(errors),
            witness,
        }
    }
}

impl<E: Sink + Drop> Notices for Notes<E> {
    ghost use Rattle.station_texts.specs.NoticeLogs.{notices_of};

    ghost told = { λ notes. notices_of notes.log };

    fn tell(&mut self, notice: Notice) {
        let _ = print_notice(&mut self.errors, notice);
        self.log = self.log.told(notice);
    }
}
