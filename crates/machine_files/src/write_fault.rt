//! Why a file can't be written, as far as the system says.

ghost use Rattle.std.specs.Prelude.{◌≡◌};
ghost use Rattle.machine_files.specs.WriteFault as texts;

use std::io::{self, ErrorKind};

/// One of a file's two names: its own, or that of the new file beside it that will take it.
#[derive(Clone, Copy)]
pub enum Name {
    Own,
    /// The own name with `.unfinished` behind it: a votes file that is written anew.
    Unfinished,
    /// The own name with `.new` behind it: a board's next text.
    New,
}

/// Why nothing is written.
#[derive(Clone, Copy)]
pub enum Cause {
    /// Another process has locked the file, as a desk locks its votes file.
    InUse,
    /// The disk, or this user's part of it, is full.
    NoSpace,
    /// The file would be longer than this user's files may be.
    Limit,
    /// The file system knows no locks.
    NoLock,
    /// This user isn't allowed to.
    NotAllowed,
    /// The file system can only be read.
    ReadOnly,
    /// The file's folder isn't there.
    NoFolder,
    /// The file's name is longer than the file system takes.
    LongName,
    /// The name is a link.
    Link,
    /// The name is a folder, a pipe, a device or the like.
    NotAFile,
    /// The file exists already.
    There,
    /// The sheet, the key, or a votes file is there.
    Sheet,
    Key,
    Votes,
    /// Something is there that doesn't begin as a board's file does.
    Other,
    /// Two of a board's files would be one.
    Both,
    /// The copy would be the votes file itself.
    Itself,
    /// The file was moved, deleted or replaced, or is shorter or longer than it was left.
    Lost,
    /// The disk fails.
    Device,
    /// Memory was refused.
    NoMemory,
    /// Any other cause that the system gives.
    System,
}

/// Which file isn't written, and why.
#[derive(Clone, Copy)]
pub struct WriteFault {
    pub name: Name,
    pub why: Cause,
}

/// Returns the cause that an answer of the system stands for.
pub fn cause_of(error: &io::Error) -> Cause {
    match error.kind() {
        ErrorKind::StorageFull | ErrorKind::QuotaExceeded => Cause::NoSpace,
        ErrorKind::FileTooLarge => Cause::Limit,
        ErrorKind::PermissionDenied => Cause::NotAllowed,
        ErrorKind::ReadOnlyFilesystem => Cause::ReadOnly,
        ErrorKind::NotFound | ErrorKind::NotADirectory => Cause::NoFolder,
        ErrorKind::InvalidFilename => Cause::LongName,
        ErrorKind::IsADirectory => Cause::NotAFile,
        ErrorKind::FilesystemLoop => Cause::Link,
        ErrorKind::AlreadyExists => Cause::There,
        ErrorKind::OutOfMemory => Cause::NoMemory,
        _ if error.raw_os_error() == Some(libc::EIO) => Cause::Device,
        _ => Cause::System,
    }
}

impl Name {
    /// Returns what stands behind the file's own name.
    pub fn ending(self) -> &'static str
        ensures { result.now ≡ texts.ending_of self }
    {
        match self {
            Name::Own => "",
            Name::Unfinished => ".unfinished",
            Name::New => ".new",
        }
    }
}

impl Cause {
    /// Returns what a scorer is told of the cause.
    pub fn words(self) -> &'static str
        ensures { result.now ≡ texts.words_of self }
    {
        match self {
            Cause::InUse => "in use by another desk",
            Cause::NoSpace => "no space",
            Cause::Limit => "larger than this user's files may be (ulimit -f)",
            Cause::NoLock => "no lock on this file system",
            Cause::NotAllowed => "not allowed",
            Cause::ReadOnly => "this file system is read-only",
            Cause::NoFolder => "no such folder",
            Cause::LongName => "the name is too long",
            Cause::Link => "is a link",
            Cause::NotAFile => "isn't a plain file",
            Cause::There => "is there already",
            Cause::Sheet => "is the sheet",
            Cause::Key => "is the key",
            Cause::Votes => "is a votes file",
            Cause::Other => "belongs to something else: choose another name",
            Cause::Both => "is another file of this board",
            Cause::Itself => "is the votes file itself, and no copy of it",
            Cause::Lost => "isn't as it was left",
            Cause::Device => "the disk fails",
            Cause::NoMemory => "no memory",
            Cause::System => "the system refuses it",
        }
    }
}
