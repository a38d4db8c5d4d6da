//! A scorer's keys and a desk's rows, whichever come.

ghost use Rattle.std.specs.Prelude.{◌≡◌, ◌≤◌, [], length};
ghost use Rattle.typing.specs.Logs.{heard_in};

use arrayvec::ArrayVec;
use libc::net::{POLLIN, poll};
use libc::types::pollfd;
use std::fs::File;
use std::io::{ErrorKind, Read};
use std::os::fd::{AsRawFd, RawFd};
use std::rt::Stdin;
use typing::{Came, HeardLog, Inputs};

/// The descriptor that a wait passes over.
const NO_DESCRIPTOR: RawFd = -1;

/// Ctrl-U and Ctrl-D: they end the desk when its terminal has ended.
const LAST_KEYS: [u8; 2] = [21, 4];

/// What can be read now.
enum Ready {
    Nothing,
    Keys,
    Rows,
}

/// Standard input, where keys are typed, and a file or a pipe from which the desk's rows are read.
#[derive(Drop)]
pub struct KeysAndRows {
    keys: Stdin,
    /// The keys that were typed and not given yet, the oldest first.
    typed: ArrayVec<u8, 64>,
    is_over: bool,
    /// Whether a read of keys failed, which ends the keys too.
    has_failed: bool,
    rows: File,
    pub(crate) log: HeardLog,
}

/// Returns a question to `poll` whether a descriptor can be read.
fn reads_of(descriptor: RawFd) -> pollfd {
    pollfd {
        fd: descriptor,
        events: POLLIN,
        revents: 0,
    }
}

impl KeysAndRows {
    /// Reads keys from standard input, and rows from this file or pipe.
    pub fn new(rt: &HostRuntime, rows: File) -> KeysAndRows
        ensures { heard_in result.log ≡ [] }
    {
        KeysAndRows {
            keys: rt.stdin(),
            typed: ArrayVec::new(),
            is_over: false,
            has_failed: false,
            rows,
            log: HeardLog::Empty,
        }
    }

    /// Waits until keys or rows can be read. Keys come first: a scorer types less than a desk writes. A failed wait answers
    /// that keys can be read (or rows, once the keys are over), so that no loop spins.
    fn wait(&self) -> Ready {
        let keys = if self.is_over {
            NO_DESCRIPTOR
        } else {
            self.keys.as_raw_fd()
        };
        let mut asked = [reads_of(keys), reads_of(self.rows.as_raw_fd())];
        let has_failed = poll(&mut asked, -1) < 0;
        if asked[0].revents != 0 || (has_failed && !self.is_over) {
            Ready::Keys
        } else if asked[1].revents != 0 || has_failed {
            Ready::Rows
        } else {
            Ready::Nothing
        }
    }

    /// Whether a read of keys failed.
    pub fn has_failed(&self) -> bool {
        self.has_failed
    }

    /// Keeps keys, to give them one by one.
    fn keep(&mut self, keys: &[u8])
        requires { length keys.now ≤ 64 }
        ensures { heard_in self.new.log ≡ heard_in self.old.log }
    {
        self.typed.clear();
        self.typed.try_extend_from_slice(keys).unwrap();
    }

    /// Reads the keys that are typed. When there are no more, or the read fails, the last keys end the desk.
    fn read_keys(&mut self)
        ensures { heard_in self.new.log ≡ heard_in self.old.log }
    {
        let mut read = [0; 64];
        match self.keys.read(&mut read) {
            Ok(count) if count > 0 => self.keep(&read[..count]),
            Err(why) if why.kind() == ErrorKind::Interrupted => {}
            ended => {
                self.is_over = true;
                self.has_failed = ended.is_err();
                self.keep(&LAST_KEYS);
            }
        }
    }
}

impl Inputs for KeysAndRows {
    ghost use Rattle.typing.specs.Logs.{heard_in};

    ghost heard = { λ inputs. heard_in inputs.log };

    fn next(&mut self, rows: &mut [u8; 256]) -> Came {
        if !self.typed.is_empty() {
            let byte = self.typed.remove(0);
            self.log = self.log.key(byte);
            return Came::Key(byte);
        }
        match self.wait() {
            Ready::Nothing => Came::Nothing,
            Ready::Keys => {
                self.read_keys();
                Came::Nothing
            }
            Ready::Rows => match self.rows.read(rows.as_mut_slice()) {
                Ok(0) => Came::NoMoreRows,
                Ok(count) => {
                    self.log = self.log.rows(rows, count);
                    Came::Rows(count)
                }
                Err(why) if why.kind() == ErrorKind::Interrupted => Came::Nothing,
                Err(_) => Came::Failed,
            },
        }
    }
}
