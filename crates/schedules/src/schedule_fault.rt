//! Why a text is no schedule.

ghost use Rattle.std.specs.Prelude.{◌≡◌, Some};
ghost use Rattle.schedules.specs.ScheduleFault.{name_of, number_of};

use notation::LineFault;
use std::alloc::AllocError;
use std::error::Error;
use std::fmt;

/// Why a text is no schedule: the fault of its first wrong line, counted from 1.
#[derive(Clone, Copy, Debug)]
pub enum ScheduleFault {
    /// An allocation failed.
    NoMemory,
    /// 85: the line is neither an event's nor a pen's (`pen D ` and anything behind it).
    BadEvent { line: u64 },
    /// 86: the text behind `pen D ` has this fault, so it is no entry line.
    BadEntry { line: u64, fault: LineFault },
}

impl ScheduleFault {
    /// Returns the number by which the fault is reported, or `None` for running out of memory.
    pub fn number(self) -> Option<u8>
        ensures { result ≡ number_of self }
    {
        match self {
            ScheduleFault::NoMemory => None,
            ScheduleFault::BadEvent { .. } => Some(85),
            ScheduleFault::BadEntry { .. } => Some(86),
        }
    }
}

impl From<AllocError> for ScheduleFault {
    ghost use Rattle.schedules.specs.declared.schedule_fault.ScheduleFault.TheVariants.{NoMemory};

    ghost from_gives = { λ _ fault. fault ≡ NoMemory };

    fn from(_why: AllocError) -> Self {
        ScheduleFault::NoMemory
    }
}

impl fmt::Display for ScheduleFault {
    ghost output = { λ fault. Some (name_of fault) };

    /// Writes the fault's name.
    fn fmt<W: fmt::Write>(&self, f: &mut fmt::Formatter<W>) -> fmt::Result {
        f.write_str(match self {
            ScheduleFault::NoMemory => "NoMemory",
            ScheduleFault::BadEvent { .. } => "BadEvent",
            ScheduleFault::BadEntry { .. } => "BadEntry",
        })
    }
}

impl Error for ScheduleFault {}
