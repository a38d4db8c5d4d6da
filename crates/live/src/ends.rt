//! How a desk's process ends.

ghost use Rattle.std.specs.Prelude.{◌≡◌};
ghost use Rattle.live.specs.Ends as ends;

use streams::WriteFailed;
use wire::What;

/// Why a desk's process ends before its turns are over.
#[derive(Clone, Copy)]
pub enum DeskEnd {
    /// The scorer said `quit`.
    Quit,
    /// The scorer's input is over.
    NoMoreLines,
    /// The disk failed. The same command, started again, goes on.
    Device,
    /// Writing to the scorer's screen failed.
    Write,
}

/// Returns how the process goes on after this answer to a datagram: `Ok`, or its end.
pub fn end_at(what: What) -> Result<(), DeskEnd>
    ensures { result ≡ ends.end_at what }
{
    match what {
        What::Device | What::Failed => Err(DeskEnd::Device),
        _ => Ok(()),
    }
}

/// Turns a failed write to the scorer's screen into the end of the process.
pub fn told(answer: Result<(), WriteFailed>) -> Result<(), DeskEnd>
    ensures { result ≡ ends.written answer }
{
    match answer {
        Ok(()) => Ok(()),
        Err(_) => Err(DeskEnd::Write),
    }
}
