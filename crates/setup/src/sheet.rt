//! Reading a match sheet from a file.

ghost use Rattle.std.specs.Prelude.{◌≡◌, ◌<◌, ◌⊎◌, length, Err, IfErr, IfSome};
ghost use Rattle.streams.specs.Watched.{MeetsFailure, stream_of};
ghost use Rattle.setup.specs.SheetText.{IsSheetFault, Tells};

use crate::fault::StopFault;
use cards::{MatchSheet, read_sheet};
use std::alloc::Global;
use streams::{Feed, LONGEST_INPUT, Watched, read_all};

/// Reads a match sheet to the end of its file. A refused sheet is refused with its first fault.
pub fn sheet_run<R: Feed>(alloc: Global, reader: &mut Watched<R>) -> Result<MatchSheet, StopFault>
    ensures told { IfSome (R.remaining (stream_of reader.old)) (λ bytes. Tells bytes result) }
    ensures only { IfErr result IsSheetFault }
    ensures read { result ≡ Err StopFault.Read → MeetsFailure reader.old reader.new
        ⊎ IfSome (R.remaining (stream_of reader.old)) (λ bytes. LONGEST_INPUT < length bytes) }
{
    let text = read_all(alloc, reader)?;
    match read_sheet(alloc, text.as_slice()) {
        Ok(sheet) => Ok(sheet),
        Err(why) => Err(StopFault::from(why)),
    }
}
