//! Reading an input to its end, up to a limit.

ghost use Rattle.std.specs.Prelude.{◌≡◌, ◌≢◌, ◌≤◌, ◌<◌, ◌⊎◌, length, vec_len, IfOk, IfSome};
ghost use Rattle.streams.specs.Watched.{MeetsFailure, stream_of};

use crate::feed::Feed;
use crate::limit::LONGEST_INPUT;
use crate::watched::Watched;
use std::alloc::{AllocError, Global};
use thiserror::Error;

/// Why an input isn't read to its end.
#[derive(Clone, Copy, Debug, Error)]
pub enum InputFault {
    /// Memory ran out.
    #[error("no memory")]
    NoMemory,
    /// A read failed or was interrupted, or the input is longer than 16,777,216 bytes.
    #[error("cannot read")]
    Read,
}

impl From<AllocError> for InputFault {
    ghost use Rattle.streams.specs.declared.input.InputFault.TheVariants.{NoMemory};

    ghost from_gives = { λ _ fault. fault ≡ NoMemory };

    fn from(_why: AllocError) -> Self {
        InputFault::NoMemory
    }
}

/// Reads a reader to its end. Refuses an input longer than `LONGEST_INPUT` bytes, a failed read and a lack of memory.
pub fn read_all<R: Feed>(alloc: Global, reader: &mut Watched<R>) -> Result<Vec<u8>, InputFault>
    ensures whole { IfOk result (λ input.
        IfSome (R.remaining (stream_of reader.old)) (λ bytes. input.items ≡ bytes)) }
    ensures bound { IfOk result (λ input. vec_len input ≤ LONGEST_INPUT) }
    ensures read { result ≡ Err InputFault.Read → MeetsFailure reader.old reader.new
        ⊎ IfSome (R.remaining (stream_of reader.old)) (λ bytes. LONGEST_INPUT < length bytes) }
{
    let mut input = Vec::new(alloc);
    let mut chunk = [0; 4096];
    loop {
        let count = match reader.read(&mut chunk) {
            Ok(count) => count,
            Err(_) => return Err(InputFault::Read),
        };
        if count == 0 {
            return Ok(input);
        }
        if count > LONGEST_INPUT - input.len() {
            return Err(InputFault::Read);
        }
        input.extend_from_slice(&chunk[..count])?;
    }
}
