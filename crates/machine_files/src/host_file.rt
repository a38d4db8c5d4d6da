//! A file of the host.

ghost use Rattle.std.specs.Prelude.{◌≡◌, ℕ, List, None, Option};
ghost use Rattle.machine_files.specs.Calls.{Answers, Call, CutTo, ReadFront, Sync, TakeName, WriteAt};

use std::fs::{File, OpenFile};
use std::io::{self, Read, Seek, SeekFrom};
use std::os::unix::fs::FileExt;

/// A file that is written in place. Only its calls and answers are known, not what it holds.
pub trait Host {
    /// The file's calls and their answers, oldest first; `None` if they aren't known.
    ghost calls: { Self → Option (List Call) };

    /// The file's name, or the name that it will take; `None` without a name.
    ghost name: { Self → Option (List ℕ) };

    /// Returns the length of the file in bytes.
    fn len(&mut self) -> io::Result<u64>
        ensures asked { calls self.new ≡ calls self.old }
        ensures name { name self.new ≡ name self.old };

    /// Fills the buffer from the beginning of the file.
    fn read_front(&mut self, buffer: &mut [u8]) -> io::Result<()>
        ensures asked { Answers result (ReadFront buffer.new) (calls self.old) (calls self.new) }
        ensures name { name self.new ≡ name self.old };

    /// Writes at an offset, in place and past the end.
    fn write_at(&mut self, at: u64, bytes: &[u8]) -> io::Result<()>
        ensures asked { Answers result (WriteAt at bytes.now) (calls self.old) (calls self.new) }
        ensures name { name self.new ≡ name self.old };

    /// Cuts the file to this length.
    fn cut(&mut self, len: u64) -> io::Result<()>
        ensures asked { Answers result (CutTo len) (calls self.old) (calls self.new) }
        ensures name { name self.new ≡ name self.old };

    /// Waits until everything that was written is kept.
    fn sync(&mut self) -> io::Result<()>
        ensures asked { Answers result Sync (calls self.old) (calls self.new) }
        ensures name { name self.new ≡ name self.old };
}

/// A new file that will take the name of another.
pub trait Successor: Host {
    /// Takes the name, and waits until the folder keeps the change.
    fn take_name(&mut self) -> io::Result<()>
        ensures asked { Answers result TakeName (Self.calls self.old) (Self.calls self.new) }
        ensures name { Self.name self.new ≡ Self.name self.old };
}

impl Host for File {
    ghost calls = { λ _. None };

    ghost name = { λ _. None };

    fn len(&mut self) -> io::Result<u64> {
        Ok(self.metadata()?.len())
    }

    fn read_front(&mut self, buffer: &mut [u8]) -> io::Result<()> {
        self.seek(SeekFrom::Start(0))?;
        self.read_exact(buffer)
    }

    fn write_at(&mut self, at: u64, bytes: &[u8]) -> io::Result<()> {
        self.write_all_at(bytes, at)
    }

    fn cut(&mut self, len: u64) -> io::Result<()> {
        self.set_len(len)
    }

    fn sync(&mut self) -> io::Result<()> {
        self.sync_all()
    }
}

/// No file: a disk on it keeps its bytes in memory only. Each call is done at once, and the file is empty.
#[derive(Drop)]
pub struct NoFile;

impl Host for NoFile {
    ghost calls = { λ _. None };

    ghost name = { λ _. None };

    fn len(&mut self) -> io::Result<u64> {
        Ok(0)
    }

    fn read_front(&mut self, _buffer: &mut [u8]) -> io::Result<()> {
        Ok(())
    }

    fn write_at(&mut self, _at: u64, _bytes: &[u8]) -> io::Result<()> {
        Ok(())
    }

    fn cut(&mut self, _len: u64) -> io::Result<()> {
        Ok(())
    }

    fn sync(&mut self) -> io::Result<()> {
        Ok(())
    }
}
