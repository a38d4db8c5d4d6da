//! A file of the host that is held by its name, and a new file beside it that will take that name.

ghost use Rattle.std.specs.Prelude.{◌≡◌, [], IfOk, Some};

use crate::call_log::{AskedLog, CallLog};
use crate::file_limit::may_have;
use crate::host_file::{Host, Successor};
use crate::write_fault::{Cause, Name, WriteFault, cause_of};
use std::cell::Cell;
use std::fs::{self, File, Metadata, OpenOptions, Permissions, TryLockError};
use std::io::{self, ErrorKind};
use std::os::unix::fs::{MetadataExt, OpenOptionsExt, PermissionsExt, fchown};

/// Where a file notes why its last failed call failed, so that the cause outlives the file.
pub type LastFault = Cell<Option<WriteFault>>;

/// A file that this process has locked, and its name. It is written, cut and synced only while the name leads to this
/// very file and the file is as long as it was left: each call fails if the file was moved, deleted, replaced, or
/// changed in length.
pub struct NamedFile<'a> {
    rt: &'a HostRuntime,
    file: File,
    /// The name that the file has, or that it will take.
    name: String,
    /// The name that the file has until then.
    beside: Option<String>,
    /// The file whose name it will take, which stays locked.
    before: Option<File>,
    /// The file's device, and its number there when it was opened.
    known: (u64, u64),
    /// The length at which the file was left, if that is known.
    len: Option<u64>,
    last_fault: Option<&'a LastFault>,
    log: CallLog,
}

// one step for whoever drops the file, instead of one for each field
impl Drop for NamedFile<'_> {
    fn drop(self) {
        let NamedFile {
            rt: _,
            file: _,
            name: _,
            beside: _,
            before: _,
            known: _,
            len: _,
            last_fault: _,
            log: _,
        } = self;
    }
}

/// Returns the metadata of the file with this name.
fn found(rt: &HostRuntime, name: &str) -> Result<Metadata, Cause> {
    match fs::metadata(rt, name) {
        Ok(found) => Ok(found),
        Err(why) if why.kind() == ErrorKind::NotFound => Err(Cause::Lost),
        Err(why) => Err(cause_of(&why)),
    }
}

/// Returns the device of an open file, and its number there.
fn known_of(file: &File) -> Result<(u64, u64), Cause> {
    let open = file.metadata().map_err(|why| cause_of(&why))?;
    Ok((open.dev(), open.ino()))
}

/// Checks that this name leads to an open file, and returns its metadata. Some file systems give an open file another
/// number, as when it is renamed: so if the number isn't the known one, the open file is asked for its number again.
fn named(rt: &HostRuntime, name: &str, file: &File, known: (u64, u64)) -> Result<Metadata, Cause> {
    let found = found(rt, name)?;
    let number = (found.dev(), found.ino());
    if number == known || number == known_of(file)? {
        Ok(found)
    } else {
        Err(Cause::Lost)
    }
}

/// Syncs the folder that a file is in, so that a power loss can't undo its name.
fn sync_folder(rt: &HostRuntime, name: &str) -> io::Result<()> {
    let whole = fs::canonicalize(rt, name)?;
    match whole.parent() {
        Some(folder) => File::open(rt, folder)?.sync_all(),
        None => Ok(()),
    }
}

/// Returns why a file couldn't be locked.
fn cause_of_lock(why: TryLockError) -> Cause {
    match why {
        TryLockError::WouldBlock => Cause::InUse,
        TryLockError::Error(why) => match why.kind() {
            ErrorKind::Interrupted => Cause::System,
            _ => Cause::NoLock,
        },
    }
}

/// Locks a file for this process, then checks that this name leads to it. Refuses a file that another process has locked.
fn locked(rt: &HostRuntime, name: &str, file: File) -> Result<File, Cause> {
    file.try_lock().map_err(cause_of_lock)?;
    let _found = named(rt, name, &file, known_of(&file)?)?;
    Ok(file)
}

/// Removes what a start that was cut off left under this name, unless it is locked by another process or no file.
fn clear(rt: &HostRuntime, name: &str) -> Result<(), Cause> {
    match fs::symlink_metadata(rt, name) {
        Ok(found) if found.is_file() => {}
        Ok(found) if found.is_symlink() => return Err(Cause::Link),
        Ok(_) => return Err(Cause::NotAFile),
        Err(why) if why.kind() == ErrorKind::NotFound => return Ok(()),
        Err(why) => return Err(cause_of(&why)),
    }
    let left = File::open(rt, name).map_err(|why| cause_of(&why))?;
    let _left = locked(rt, name, left)?;
    fs::remove_file(rt, name).map_err(|why| cause_of(&why))
}

/// Turns a refused permission into success.
fn if_allowed(answer: io::Result<()>) -> io::Result<()> {
    match answer {
        Err(why) if why.kind() == ErrorKind::PermissionDenied => Ok(()),
        _ => answer,
    }
}

/// Gives a new file the mode of an old one, and its group and owner if this process may.
fn give_access(old: &File, new: &File) -> io::Result<()> {
    let (from, to) = (old.metadata()?, new.metadata()?);
    if from.gid() != to.gid() {
        if_allowed(fchown(new, None, Some(from.gid())))?;
    }
    if from.uid() != to.uid() {
        if_allowed(fchown(new, Some(from.uid()), None))?;
    }
    let mode = from.mode() & 0o777;
    if mode != to.mode() & 0o777 {
        new.set_permissions(Permissions::from_mode(mode))?;
    }
    Ok(())
}

/// Makes a new file with this name, locked for this process.
fn made(rt: &HostRuntime, name: &str) -> Result<File, Cause> {
    clear(rt, name)?;
    let made = OpenOptions::new()
        .read(true)
        .write(true)
        .create_new(true)
        .mode(0o600)
        .open(rt, name);
    locked(rt, name, made.map_err(|why| cause_of(&why))?)
}

impl<'a> NamedFile<'a> {
    ghost use Rattle.machine_files.specs.Named as named;

    /// Opens a file and locks it for this process; if there is none, makes one that only its owner may use. A file that
    /// another process has locked is left alone, and so is one that lost its name before it was locked.
    pub fn open(rt: &'a HostRuntime, name: &str) -> Result<NamedFile<'a>, Cause>
        ensures name { IfOk result (λ file. named.name file ≡ Some name.now) }
        ensures calls { IfOk result (λ file. named.calls file ≡ Some []) }
    {
        let file = OpenOptions::new()
            .read(true)
            .write(true)
            .create(true)
            .mode(0o600)
            .open(rt, name)
            .map_err(|why| cause_of(&why))?;
        let file = locked(rt, name, file)?;
        let known = known_of(&file)?;
        sync_folder(rt, name).map_err(|why| cause_of(&why))?;
        let name = String::from_str(rt.alloc(), name).map_err(|_| Cause::NoMemory)?;
        Ok(NamedFile {
            rt,
            file,
            name,
            beside: None,
            before: None,
            known,
            len: None,
            last_fault: None,
            log: CallLog::Empty,
        })
    }

    /// Returns the file, which from now on notes there why a call failed.
    pub fn telling(self, last_fault: &'a LastFault) -> NamedFile<'a>
        ensures name { named.name result ≡ named.name self.entry }
        ensures calls { named.calls result ≡ named.calls self.entry }
    {
        let mut file = self;
        file.last_fault = Some(last_fault);
        file
    }

    /// Makes a new, empty file beside this one, which will take its name. Until then the new file has that name without links
    /// and with `.unfinished` behind it; what a start that was cut off left there is removed. Both files stay locked.
    pub fn beside(self) -> Result<NamedFile<'a>, Cause>
        ensures name { IfOk result (λ file. named.name file ≡ named.name self.entry) }
        ensures calls { IfOk result (λ file. named.calls file ≡ named.calls self.entry) }
    {
        let rt = self.rt;
        let whole = match fs::canonicalize(rt, self.name.as_str()) {
            Ok(whole) => whole.into_string(),
            Err(why) => return Err(cause_of(&why)),
        };
        let beside = format!(in rt.alloc(); "{whole}.unfinished").map_err(|_| Cause::NoMemory)?;
        let file = made(rt, beside.as_str())?;
        let known = known_of(&file)?;
        give_access(&self.file, &file).map_err(|why| cause_of(&why))?;
        let NamedFile {
            rt: _,
            file: before,
            name,
            beside: _,
            before: _,
            known: _,
            len: _,
            last_fault,
            log,
        } = self;
        Ok(NamedFile {
            rt,
            file,
            name,
            beside: Some(beside),
            before: Some(before),
            known,
            len: Some(0),
            last_fault,
            log,
        })
    }

    /// Whether the file is known to be on the same device as another file.
    pub fn is_on_disk_of(&self, other: &NamedFile<'_>) -> bool {
        match (self.file.metadata(), other.file.metadata()) {
            (Ok(one), Ok(another)) => one.dev() == another.dev(),
            _ => false,
        }
    }

    /// Checks that the name still leads to the file, and that the file is as long as it was left.
    fn expect_kept(&self) -> Result<(), Cause> {
        let name = match &self.beside {
            Some(beside) => beside,
            None => &self.name,
        };
        let found = named(self.rt, name.as_str(), &self.file, self.known)?;
        match self.len {
            Some(len) if found.len() != len => Err(Cause::Lost),
            _ => Ok(()),
        }
    }

    /// Notes why a call failed.
    fn note<T>(&self, answer: Result<T, Cause>) -> io::Result<T> {
        match answer {
            Ok(done) => Ok(done),
            Err(why) => {
                let name = match &self.beside {
                    Some(_) => Name::Unfinished,
                    None => Name::Own,
                };
                if let Some(last) = self.last_fault {
                    last.set(Some(WriteFault { name, why }));
                }
                Err(io::Error::from(ErrorKind::Other))
            }
        }
    }

    /// Notes why the system failed a call.
    fn noted<T>(&self, answer: io::Result<T>) -> io::Result<T> {
        self.note(answer.map_err(|why| cause_of(&why)))
    }

    /// Checks that the file is as it was left and may grow to this length.
    fn expect_room(&self, end: u64) -> Result<(), Cause> {
        self.expect_kept()?;
        if may_have(end) {
            Ok(())
        } else {
            Err(Cause::Limit)
        }
    }

    /// Renames the file to the name that it will take.
    fn rename(&mut self) -> Result<(), Cause>
        ensures name { self.new.name ≡ self.old.name }
        ensures log { self.new.log ≡ self.old.log }
    {
        let (Some(beside), Some(before)) = (&self.beside, &self.before) else {
            return Err(Cause::System);
        };
        let whole = fs::canonicalize(self.rt, self.name.as_str()).map_err(|_| Cause::Lost)?;
        let _found = named(self.rt, whole.as_str(), before, known_of(before)?)?;
        let _found = named(self.rt, beside.as_str(), &self.file, self.known)?;
        fs::rename(self.rt, beside.as_str(), whole.as_str()).map_err(|why| cause_of(&why))?;
        self.beside = None;
        sync_folder(self.rt, whole.as_str()).map_err(|why| cause_of(&why))?;
        self.expect_kept()
    }

    /// Writes while the name leads to the file, and notes the new length.
    fn write(&mut self, at: u64, bytes: &[u8]) -> io::Result<()>
        ensures name { self.new.name ≡ self.old.name }
        ensures log { self.new.log ≡ self.old.log }
    {
        let end = at.saturating_add(bytes.len() as u64);
        self.note(self.expect_room(end))?;
        let before = self.len.take();
        let written = self.file.write_at(at, bytes);
        self.noted(written)?;
        self.len = before.map(|len| len.max(end));
        Ok(())
    }

    /// Cuts the file to this length while the name leads to it, and notes the new length.
    fn end_at(&mut self, len: u64) -> io::Result<()>
        ensures name { self.new.name ≡ self.old.name }
        ensures log { self.new.log ≡ self.old.log }
    {
        self.note(self.expect_kept())?;
        self.len = None;
        let cut = self.file.cut(len);
        self.noted(cut)?;
        self.len = Some(len);
        Ok(())
    }

    /// Syncs the file, and then checks that the name still leads to it.
    fn keep(&mut self) -> io::Result<()>
        ensures name { self.new.name ≡ self.old.name }
        ensures log { self.new.log ≡ self.old.log }
    {
        let synced = self.file.sync();
        self.noted(synced)?;
        self.note(self.expect_kept())
    }

    /// Drops the file. If it didn't take its name, it is removed.
    pub fn give_up(self) {
        if let Some(beside) = &self.beside {
            if named(self.rt, beside.as_str(), &self.file, self.known).is_ok() {
                let _ = fs::remove_file(self.rt, beside.as_str());
            }
        }
    }
}

impl Host for NamedFile<'_> {
    ghost use Rattle.machine_files.specs.Named as named;

    ghost calls = { named.calls };

    ghost name = { named.name };

    /// Nobody else may change the length from here on.
    fn len(&mut self) -> io::Result<u64> {
        let len = self.file.len()?;
        self.len = Some(len);
        Ok(len)
    }

    fn read_front(&mut self, buffer: &mut [u8]) -> io::Result<()> {
        let read = self.file.read_front(buffer);
        self.log = self.log.answered(&AskedLog::read_front(buffer), &read);
        read
    }

    fn write_at(&mut self, at: u64, bytes: &[u8]) -> io::Result<()> {
        let written = self.write(at, bytes);
        self.log = self.log.answered(&AskedLog::write_at(at, bytes), &written);
        written
    }

    fn cut(&mut self, len: u64) -> io::Result<()> {
        let cut = self.end_at(len);
        self.log = self.log.answered(&AskedLog::cut(len), &cut);
        cut
    }

    /// Keeps what was written, in a file that still has the name once all of it is kept.
    fn sync(&mut self) -> io::Result<()> {
        let synced = self.keep();
        self.log = self.log.answered(&AskedLog::Sync, &synced);
        synced
    }
}

impl Successor for NamedFile<'_> {
    fn take_name(&mut self) -> io::Result<()> {
        let renamed = self.rename();
        let taken = self.note(renamed);
        self.log = self.log.answered(&AskedLog::TakeName, &taken);
        taken
    }
}
