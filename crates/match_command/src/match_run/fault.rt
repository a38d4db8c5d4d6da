//! Why a match of both desks ends.

ghost use Rattle.std.specs.Prelude.{◌≡◌};

use books::Rejected;
use entry_log::Refusal as FileRefusal;
use setup::StopFault;
use std::alloc::AllocError;
use vote_store::Refusal;

/// Why `match` ends early.
#[derive(Clone, Copy)]
pub enum MatchFault {
    /// Memory was refused.
    NoMemory,
    /// A write failed.
    Write,
    /// The disk of a votes file failed.
    Device,
    /// A disk has a file already.
    NotEmpty,
    /// A pen line is refused. Lines are numbered from 1.
    Line { number: u64, why: Rejected },
    /// The stations didn't agree this place within `TURNS` turns each.
    NotAgreed { place: u32 },
}

impl From<AllocError> for MatchFault {
    ghost use Rattle.match_command.specs.declared.match_run.fault.MatchFault.TheVariants.{NoMemory};

    ghost from_gives = { λ _ fault. fault ≡ NoMemory };

    fn from(_why: AllocError) -> Self {
        MatchFault::NoMemory
    }
}

impl From<MatchFault> for StopFault {
    ghost use Rattle.match_command.specs.MatchRun.{stop_of};

    ghost from_gives = { λ why fault. fault ≡ stop_of why };

    fn from(why: MatchFault) -> Self {
        match why {
            MatchFault::NoMemory => StopFault::NoMemory,
            MatchFault::Write | MatchFault::Device => StopFault::Write,
            MatchFault::NotEmpty => StopFault::Votes(Refusal::File(FileRefusal::NotEmpty)),
            MatchFault::Line { number, why } => StopFault::Line { number, why },
            MatchFault::NotAgreed { place } => StopFault::NotAgreed { place },
        }
    }
}
