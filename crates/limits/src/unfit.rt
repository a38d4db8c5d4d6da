//! Why the value of a key in the table `limits` is unfit.

ghost use Rattle.std.specs.Prelude.{◌≡◌, Some};
ghost use Rattle.limits.specs.declared.unfit.Unfit.TheVariants.{NoMemory};

use std::alloc::{AllocError, AllocFailed};
use std::fmt;

/// Why the value of a key in the table `limits` is unfit.
#[derive(Clone, Copy)]
pub enum Unfit {
    /// An allocation failed: whether the value is fit is unknown.
    NoMemory,
    /// The value is of another kind.
    OtherKind,
    /// A number is out of its range, or a powerplay ends before it begins.
    OutOfRange,
}

impl fmt::Display for Unfit {
    ghost use Rattle.limits.specs.Keys.{why_text};

    ghost output = { λ why. Some (why_text why) };

    /// Writes the reason in words.
    fn fmt<W: fmt::Write>(&self, f: &mut fmt::Formatter<W>) -> fmt::Result {
        f.write_str(match self {
            Unfit::NoMemory => "can't be read",
            Unfit::OtherKind => "is of another kind",
            Unfit::OutOfRange => "is out of range",
        })
    }
}

impl From<AllocError> for Unfit {
    ghost from_gives = { λ _ why. why ≡ NoMemory };

    fn from(_: AllocError) -> Self {
        Unfit::NoMemory
    }
}

impl<T: Drop> From<AllocFailed<T>> for Unfit {
    ghost from_gives = { λ _ why. why ≡ NoMemory };

    fn from(_: AllocFailed<T>) -> Self {
        Unfit::NoMemory
    }
}
