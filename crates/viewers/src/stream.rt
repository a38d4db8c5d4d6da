//! The connection to a browser.

ghost use Rattle.std.specs.Prelude.{◌≡◌, ◌++◌, ◌+◌, ◌≤◌, [], IfOk, MatchResult, drop, take, vec_len};

use crate::logs::TakenLog;
use mio::net::TcpStream;
use std::io::{self, ErrorKind, Read, Write};
use std::net::Shutdown;

/// A stream that never blocks.
pub trait Stream: Read + Write {
    /// Shuts down its write side.
    fn end(&mut self);
}

impl Stream for TcpStream {
    fn end(&mut self) {
        let _ = self.shutdown(Shutdown::Write);
    }
}

/// A stream, and the bytes that it has taken.
#[derive(Drop)]
pub struct Wire<S> {
    stream: S,
    taken: TakenLog,
}

/// Whether a call failed only for now.
fn is_passing(error: &io::Error) -> bool {
    matches!(error.kind(), ErrorKind::WouldBlock | ErrorKind::Interrupted)
}

impl<S: Stream> Wire<S> {
    ghost use Rattle.viewers.specs.Said.{taken_by};

    /// Begins with this stream, which has taken nothing yet.
    pub fn of(stream: S) -> Wire<S>
        ensures { taken_by result ≡ [] }
    {
        Wire {
            stream,
            taken: TakenLog::Empty,
        }
    }

    /// Reads what has come, as much as the buffer holds: `None` if nothing is there now.
    pub fn read(&mut self, buffer: &mut [u8; 2048]) -> io::Result<Option<usize>>
        ensures { taken_by self.new ≡ taken_by self.old }
    {
        match self.stream.read(buffer.as_mut_slice()) {
            Ok(count) => Ok(Some(count)),
            Err(why) if is_passing(&why) => Ok(None),
            Err(why) => Err(why),
        }
    }

    /// Hands it these bytes from an index on, and returns how many it took: 0 if it takes none now.
    pub fn hand(&mut self, bytes: &Vec<u8>, from: usize) -> io::Result<usize>
        requires { from ≤ vec_len bytes.now }
        ensures bound { IfOk result (λ count. from + count ≤ vec_len bytes.now) }
        ensures took { MatchResult result
            (λ count. taken_by self.new ≡ taken_by self.old ++ take count (drop from bytes.now.items))
            (λ _. taken_by self.new ≡ taken_by self.old) }
    {
        let count = match self.stream.write(&bytes[from..]) {
            Ok(count) => count,
            Err(why) if is_passing(&why) => 0,
            Err(why) => return Err(why),
        };
        self.taken = self.taken.more(bytes, from, count);
        Ok(count)
    }

    /// Hands it nothing more.
    pub fn end(&mut self)
        ensures { taken_by self.new ≡ taken_by self.old }
    {
        self.stream.end();
    }
}
