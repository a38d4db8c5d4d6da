//! Why an input has no book.

ghost use Rattle.std.specs.Prelude.{◌≡◌};

use crate::rejected::Rejected;
use agree_core::DeskId;
use desk::OpenRefusal;
use std::alloc::AllocError;

/// Why an input has no book.
#[derive(Clone, Copy)]
pub enum BookFault {
    /// Memory was refused.
    NoMemory,
    /// The votes file is refused.
    Votes(vote_store::Refusal),
    /// The votes of a file are no legal book: `place` is the first place whose last vote is refused.
    BadVotes { place: u32 },
    /// A pen line isn't taken. Lines are numbered from 1.
    Line { number: u64, why: Rejected },
}

impl From<AllocError> for BookFault {
    ghost use Rattle.books.specs.declared.fault.BookFault.TheVariants.{NoMemory};

    ghost from_gives = { λ _ fault. fault ≡ NoMemory };

    fn from(_why: AllocError) -> Self {
        BookFault::NoMemory
    }
}

impl From<vote_store::Refusal> for BookFault {
    ghost use Rattle.books.specs.CardBook.{of_votes};

    ghost from_gives = { λ why fault. fault ≡ of_votes why };

    fn from(why: vote_store::Refusal) -> Self {
        match why {
            vote_store::Refusal::NoMemory => BookFault::NoMemory,
            _ => BookFault::Votes(why),
        }
    }
}

impl From<OpenRefusal> for BookFault {
    ghost use Rattle.books.specs.CardBook.{of_opening};

    ghost from_gives = { λ why fault. fault ≡ of_opening why };

    fn from(why: OpenRefusal) -> Self {
        match why {
            OpenRefusal::Votes(why) => BookFault::from(why),
            OpenRefusal::BadVotes { place } => BookFault::BadVotes { place },
        }
    }
}

/// Why both desks' votes files have no book.
#[derive(Clone, Copy)]
pub enum BothFault {
    /// Memory was refused.
    NoMemory,
    /// The votes file of this desk is refused.
    Votes {
        desk: DeskId,
        why: vote_store::Refusal,
    },
    /// The votes of both files aren't of one history: `place` is the first place at which they can't be.
    NotOneHistory {
        place: u32,
    },
    /// The agreed list of both files is no legal book: `place` is the first refused place.
    BadVotes {
        place: u32,
    },
}

impl BothFault {
    ghost use Rattle.books.specs.BothFiles.{of_file};

    /// Returns the fault of a desk's refused votes file: being out of memory becomes `NoMemory`.
    pub fn of(desk: DeskId, why: vote_store::Refusal) -> BothFault
        ensures { result ≡ of_file desk why }
    {
        match why {
            vote_store::Refusal::NoMemory => BothFault::NoMemory,
            _ => BothFault::Votes { desk, why },
        }
    }
}

impl From<AllocError> for BothFault {
    ghost use Rattle.books.specs.declared.fault.BothFault.TheVariants.{NoMemory};

    ghost from_gives = { λ _ fault. fault ≡ NoMemory };

    fn from(_why: AllocError) -> Self {
        BothFault::NoMemory
    }
}
