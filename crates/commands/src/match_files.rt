//! The three files of a match, each match in a folder of its own.

ghost use Rattle.std.specs.Prelude.{◌≡◌, ℕ, List, None, Option, string_bytes, IfOk};
ghost use Rattle.commands.specs.MatchFiles.{HasBytes, IsUnreadable, path_in};

use setup::{StopFault, Stopped, bytes_at};
use std::alloc::{AllocError, Global};
use streams::InputFault;

/// One of the three files of a match.
#[derive(Clone, Copy)]
pub enum MatchFile {
    /// The match's sheet.
    Sheet,
    /// The votes file of desk A.
    A,
    /// The votes file of desk B.
    B,
}

impl MatchFile {
    ghost use Rattle.commands.specs.MatchFiles.{file_name};

    /// Returns the file's name in the match's folder.
    pub fn name(self) -> &'static str
        ensures { result.now ≡ file_name self }
    {
        match self {
            MatchFile::Sheet => "sheet.toml",
            MatchFile::A => "a.votes",
            MatchFile::B => "b.votes",
        }
    }
}

/// Files that are read whole, of which it may be known what they hold.
pub trait Files {
    /// The bytes of the file of each path, `None` where it can't be read; `None` where nothing is known of files.
    ghost known: { Self → Option (List ℕ → Option (List ℕ)) };

    /// Reads all bytes of a file that has no more than 16,777,216: one that is longer can't be read.
    fn bytes_of(&self, alloc: Global, path: &str) -> Result<Vec<u8>, InputFault>
        ensures bytes { IfOk result (λ bytes. HasBytes (known self.now) path.now bytes.items) }
        ensures unread { result ≡ Err InputFault.Read → IsUnreadable (known self.now) path.now };
}

/// The files of this machine.
impl Files for HostRuntime {
    ghost known = { λ _. None };

    fn bytes_of(&self, _alloc: Global, path: &str) -> Result<Vec<u8>, InputFault> {
        match bytes_at(self, path) {
            Ok(bytes) => Ok(bytes),
            Err(
                Stopped {
                    fault: StopFault::NoMemory,
                    ..
                },
            ) => Err(InputFault::NoMemory),
            Err(_) => Err(InputFault::Read),
        }
    }
}

/// Returns the path of a match's file in its folder.
pub fn path_of(alloc: Global, folder: &str, file: MatchFile) -> Result<String, AllocError>
    ensures { IfOk result (λ path. string_bytes path ≡ path_in folder.now file) }
{
    let name = file.name();
    format!(in alloc; "{folder}/{name}")
}
