//! A file that others read while it is replaced: it always holds a whole text.

ghost use Rattle.std.specs.Prelude.{◌≡◌, IfSome, List, None, OnOk, Option, Some, ℕ};
ghost use Rattle.machine_files.specs.Texts.{Takes, TakesBeside};

mod front;

use crate::file_limit::may_have;
use crate::write_fault::{Cause, Name, WriteFault, cause_of};
use front::{Front, front_of};
use std::alloc::AllocError;
use std::fs::{self, File, Metadata, OpenOptions, TryLockError};
use std::io::{self, ErrorKind, Write};
use std::os::unix::fs::{MetadataExt, OpenOptionsExt};
use std::path::Path;

/// Something that a text is put into. Only the texts that it was given are known, not what it holds.
pub trait Replaces {
    /// The texts that were given whole, oldest first; `None` if they aren't known.
    ghost given: { Self → Option (List (List ℕ)) };

    /// Replaces what is held by this text alone.
    fn replace(&mut self, text: &[u8]) -> Result<(), WriteFault>
        ensures { Takes result (given self.old) (given self.new) text.now };
}

/// The two names of a text: its own, and that of the new file beside it, which will take that name. Only what was put
/// under them is known, not what is there.
pub trait TwoNames {
    /// The whole texts that took the text's own name, oldest first; `None` if they aren't known.
    ghost given: { Self → Option (List (List ℕ)) };

    /// The whole text in the new file, if it has one and that text is known.
    ghost beside: { Self → Option (List ℕ) };

    /// Checks that what is there may be replaced, and removes the new file that a killed board left behind.
    fn make_room(&mut self) -> Result<(), WriteFault>
        ensures { given self.new ≡ given self.old };

    /// Writes a text to the new file.
    fn put(&mut self, text: &[u8]) -> Result<(), WriteFault>
        ensures given { given self.new ≡ given self.old }
        ensures beside { OnOk result (IfSome (given self.old) (λ _. beside self.new ≡ Some text.now)) };

    /// Renames the new file to the text's own name.
    fn rename(&mut self) -> Result<(), WriteFault>
        ensures { TakesBeside result (given self.old) (given self.new) (beside self.old) };
}

/// A file that always holds a whole text: each text is written to a new file beside it, which is then renamed to it.
#[derive(Drop)]
pub struct WholeText<F> {
    names: F,
}

impl<F> WholeText<F> {
    /// Returns the file with these two names.
    pub fn new(names: F) -> WholeText<F> {
        WholeText { names }
    }
}

impl<F: TwoNames> Replaces for WholeText<F> {
    ghost given = { λ file. F.given file.names };

    /// Nothing is synced: a board that begins again writes its text anew.
    fn replace(&mut self, text: &[u8]) -> Result<(), WriteFault> {
        self.names.make_room()?;
        self.names.put(text)?;
        self.names.rename()
    }
}

/// The name of a text file on this machine, and that of the new file beside it that the next text is written to. Neither
/// replaces anything but a text.
#[derive(Drop)]
pub struct TextFile<'a> {
    rt: &'a HostRuntime,
    path: &'a str,
    beside: String,
    sheet: &'a str,
    key: Option<&'a str>,
}

/// Whether both are the same file.
fn is_same(one: &Metadata, other: &Metadata) -> bool {
    one.dev() == other.dev() && one.ino() == other.ino()
}

/// Whether the file at this path is the one that was found.
fn is_at(rt: &HostRuntime, path: &str, found: &Metadata) -> bool {
    match fs::metadata(rt, path) {
        Ok(other) => is_same(&other, found),
        Err(_) => false,
    }
}

/// Whether both paths lead to one file.
pub fn is_same_file(rt: &HostRuntime, one: &str, other: &str) -> bool {
    match fs::metadata(rt, one) {
        Ok(found) => is_at(rt, other, &found),
        Err(_) => false,
    }
}

/// Returns the folder that a file with this path is in.
fn folder_of(rt: &HostRuntime, path: &str) -> io::Result<Metadata> {
    match Path::new(path).parent() {
        Some(folder) if !folder.as_str().is_empty() => fs::metadata(rt, folder.as_str()),
        _ => fs::metadata(rt, "."),
    }
}

/// Whether one of two paths ends in the name that the other ends in, or in the name of the new file beside the other.
fn names_meet(one: &str, other: &str) -> bool {
    let (one, other) = (Path::new(one).file_name(), Path::new(other).file_name());
    let (Some(one), Some(other)) = (one, other) else {
        return false;
    };
    one == other
        || one.strip_suffix(".new") == Some(other)
        || other.strip_suffix(".new") == Some(one)
}

/// Whether another process has locked the file, as a desk locks its votes file. If the system has no locks, none has.
fn is_locked(file: &File) -> bool {
    match file.try_lock_shared() {
        Err(TryLockError::WouldBlock) => true,
        Ok(()) | Err(TryLockError::Error(_)) => false,
    }
}

/// Checks that a text may replace what a file holds: the file is empty and no other process has locked it, or it begins
/// as a board's file does.
fn expect_text(file: &mut File, len: u64) -> Result<(), Cause> {
    match front_of(file, len).map_err(|why| cause_of(&why))? {
        Front::Text => Ok(()),
        Front::Nothing if is_locked(file) => Err(Cause::InUse),
        Front::Nothing => Ok(()),
        Front::Votes => Err(Cause::Votes),
        Front::Other => Err(Cause::Other),
    }
}

/// Returns the fault of a file's own name, or of the new file's name.
fn fault(name: Name, why: Cause) -> WriteFault {
    WriteFault { name, why }
}

impl<'a> TextFile<'a> {
    /// Returns a text file with this name, beside the sheet and the key with these names. It isn't opened yet.
    pub fn new(
        rt: &'a HostRuntime,
        path: &'a str,
        sheet: &'a str,
        key: Option<&'a str>,
    ) -> Result<TextFile<'a>, AllocError> {
        let beside = format!(in rt.alloc(); "{path}.new")?;
        Ok(TextFile {
            rt,
            path,
            beside,
            sheet,
            key,
        })
    }

    /// Whether the file that was found is the key.
    fn is_key(&self, found: &Metadata) -> bool {
        match self.key {
            Some(key) => is_at(self.rt, key, found),
            None => false,
        }
    }

    /// Checks that a text may replace what was found: it is a plain file, neither the sheet nor the key, and a text.
    fn expect_way(&self, path: &str, found: &Metadata) -> Result<(), Cause> {
        if found.is_symlink() {
            return Err(Cause::Link);
        }
        if !found.is_file() {
            return Err(Cause::NotAFile);
        }
        if is_at(self.rt, self.sheet, found) {
            return Err(Cause::Sheet);
        }
        if self.is_key(found) {
            return Err(Cause::Key);
        }
        let mut file = File::open(self.rt, path).map_err(|why| cause_of(&why))?;
        expect_text(&mut file, found.len())
    }

    /// Whether there is something at a path. If a text may not replace it, that is a fault.
    fn finds(&self, path: &str) -> Result<bool, Cause> {
        match fs::symlink_metadata(self.rt, path) {
            Ok(found) => {
                self.expect_way(path, &found)?;
                Ok(true)
            }
            Err(why) if why.kind() == ErrorKind::NotFound => Ok(false),
            Err(why) => Err(cause_of(&why)),
        }
    }

    /// Whether there is a file with its own name, and whether there is a new file. A text may then replace both.
    fn finds_both(&self) -> Result<(bool, bool), WriteFault> {
        let own = self.finds(self.path).map_err(|why| fault(Name::Own, why))?;
        let new = self
            .finds(self.beside.as_str())
            .map_err(|why| fault(Name::New, why))?;
        Ok((own, new))
    }

    /// Checks that the text may be written under both names. What is there stays as it is.
    pub fn expect_room(&self) -> Result<(), WriteFault> {
        let _found = self.finds_both()?;
        match folder_of(self.rt, self.path) {
            Ok(_) => Ok(()),
            Err(why) => Err(fault(Name::Own, cause_of(&why))),
        }
    }

    /// Whether two text files would be written to one file: they are in one folder, and one's own name, or its new
    /// file's, is one of the other's names.
    pub fn meets(&self, other: &TextFile<'_>) -> io::Result<bool> {
        if !names_meet(self.path, other.path) {
            return Ok(false);
        }
        let one = folder_of(self.rt, self.path)?;
        Ok(is_same(&one, &folder_of(other.rt, other.path)?))
    }

    /// Removes the new file that a killed board left behind.
    fn clear(&self) -> Result<(), Cause> {
        fs::remove_file(self.rt, self.beside.as_str()).map_err(|why| cause_of(&why))
    }

    /// Writes a text to a new file, which only its owner may write, and others may read as far as the umask allows. If
    /// writing fails, the new file is removed again.
    fn write(&self, text: &[u8]) -> Result<(), Cause> {
        if !may_have(text.len() as u64) {
            return Err(Cause::Limit);
        }
        let made = OpenOptions::new()
            .write(true)
            .create_new(true)
            .mode(0o644)
            .open(self.rt, self.beside.as_str());
        let mut file = made.map_err(|why| cause_of(&why))?;
        match file.write_all(text) {
            Ok(()) => Ok(()),
            Err(why) => {
                let _ = self.clear();
                Err(cause_of(&why))
            }
        }
    }
}

impl TwoNames for TextFile<'_> {
    ghost given = { λ _. None };

    ghost beside = { λ _. None };

    fn make_room(&mut self) -> Result<(), WriteFault> {
        let (_, is_left) = self.finds_both()?;
        if is_left {
            self.clear().map_err(|why| fault(Name::New, why))?;
        }
        Ok(())
    }

    fn put(&mut self, text: &[u8]) -> Result<(), WriteFault> {
        self.write(text).map_err(|why| fault(Name::New, why))
    }

    fn rename(&mut self) -> Result<(), WriteFault> {
        fs::rename(self.rt, self.beside.as_str(), self.path).map_err(|why| fault(
            Name::Own,
            cause_of(&why),
        ))
    }
}
