//! Files that votes are written to: new ones, and a desk's, which is written anew before it is used.

ghost use Rattle.std.specs.Prelude.{◌≡◌, IfOk};
ghost use Rattle.entry_log.specs.Disk.{only};
ghost use Rattle.machine_files.specs.FileDisk.{file_of, images_of};
ghost use Rattle.setup.specs.Fault as faults;
ghost use Rattle.setup.specs.Files.{IsReadAgain, IsRenewed, WasRead};
ghost use Rattle.setup.specs.inner.Opening as texts;

use crate::fault::{StopFault, Stopped};
use crate::opening::fault_of_old;
use entry_log::LONGEST_FILE;
use machine_files::{
    Cause, FileDisk, LastFault, Name, NamedFile, OpenFault, WriteFault, bytes_of, renewed,
};
use vote_store::Refusal;

/// A disk on a votes file.
pub type VotesDisk<'a> = FileDisk<NamedFile<'a>>;

/// Returns the fault of a run that needs an empty file: one that is too long isn't empty.
fn fault_of_new(fault: OpenFault) -> StopFault
    ensures { result ≡ texts.fault_of_new fault }
{
    match fault {
        OpenFault::NoMemory => StopFault::NoMemory,
        OpenFault::Host => StopFault::Write,
        OpenFault::TooLong => StopFault::Votes(Refusal::File(entry_log::Refusal::NotEmpty)),
    }
}

/// Returns the fault of a run that can't write its file anew.
fn fault_of_copy(fault: OpenFault) -> StopFault
    ensures { result ≡ texts.fault_of_copy fault }
{
    match fault {
        OpenFault::NoMemory => StopFault::NoMemory,
        OpenFault::Host | OpenFault::TooLong => StopFault::Write,
    }
}

/// Opens a file for votes as a disk, and makes the file if there is none.
fn new_disk<'r>(rt: &'r HostRuntime, path: &str) -> Result<VotesDisk<'r>, StopFault> {
    match NamedFile::open(rt, path) {
        Ok(file) => FileDisk::new(rt.alloc(), file, LONGEST_FILE).map_err(fault_of_new),
        Err(_) => Err(StopFault::Write),
    }
}

/// Opens a file for votes as a disk, for this process alone, and makes the file if there is none. A file longer than any
/// votes file is refused as not empty.
pub fn new_disk_at<'r, 'a>(
    rt: &'r HostRuntime,
    path: &'a str,
) -> Result<VotesDisk<'r>, Stopped<'a>> {
    new_disk(rt, path).map_err(|fault| Stopped::at(path, fault))
}

/// Returns the fault of a desk's votes file, or of the new one beside it.
fn file_fault<'a>(path: &'a str, name: Name, why: Cause) -> Stopped<'a> {
    Stopped::at(path, StopFault::File(WriteFault { name, why }))
}

/// Returns the fault of a running desk that has lost its file, or can't write it.
fn lost_for(fault: WriteFault) -> StopFault
    ensures { result ≡ faults.lost_for fault fault.why }
{
    match fault.why {
        Cause::Lost => StopFault::FileMoved,
        _ => StopFault::Lost(fault),
    }
}

/// Returns the fault of a run that can't write its file, with the cause if that is known.
pub fn with_cause(fault: StopFault, last: Option<WriteFault>) -> StopFault
    ensures { result ≡ faults.with_cause fault last }
{
    match (fault, last) {
        (StopFault::Write, Some(why)) => StopFault::File(why),
        (StopFault::Disk, Some(why)) => lost_for(why),
        _ => fault,
    }
}

/// Returns the fault of a run that can't write its file's copy, with the cause if that is known.
pub fn with_copys_cause(fault: StopFault, last: Option<WriteFault>) -> StopFault
    ensures { result ≡ faults.with_copys_cause fault last }
{
    match (fault, last) {
        (StopFault::Write, Some(why)) => StopFault::File(why),
        (StopFault::Disk, Some(why)) => StopFault::CopyLost(why),
        _ => fault,
    }
}

/// Opens a desk's votes file for this process alone, makes it if there is none, and reads its bytes. `last` gets the cause of
/// each call of the file that fails.
pub fn kept_votes<'r, 'a>(
    rt: &'r HostRuntime,
    path: &'a str,
    last: &'r LastFault,
) -> Result<(NamedFile<'r>, Vec<u8>), Stopped<'a>>
    ensures { IfOk result (λ kept. WasRead path.now kept.1.items kept.0) }
{
    let mut file = match NamedFile::open(rt, path) {
        Ok(file) => file.telling(last),
        Err(why) => return Err(file_fault(path, Name::Own, why)),
    };
    match bytes_of(rt.alloc(), &mut file) {
        Ok(bytes) => Ok((file, bytes)),
        Err(fault) => Err(Stopped::at(path, fault_of_old(fault))),
    }
}

/// Opens a desk's empty votes file as a disk.
pub fn empty_disk<'r, 'a>(
    rt: &HostRuntime,
    path: &'a str,
    file: NamedFile<'r>,
) -> Result<VotesDisk<'r>, Stopped<'a>>
    ensures { IfOk result (λ disk. IsReadAgain file.entry disk) }
{
    FileDisk::new(rt.alloc(), file, LONGEST_FILE).map_err(|fault| Stopped::at(
        path,
        fault_of_old(fault),
    ))
}

/// Writes the bytes of a desk's votes file to a new file, which takes its place, and returns a disk on it. If that fails, the
/// votes file is left as it was.
pub fn renewed_disk<'r, 'a>(
    rt: &HostRuntime,
    path: &'a str,
    file: NamedFile<'r>,
    bytes: &[u8],
    last: &LastFault,
) -> Result<VotesDisk<'r>, Stopped<'a>>
    ensures held { IfOk result (λ disk. file_of disk ≡ bytes.now) }
    ensures kept { IfOk result (λ disk. images_of disk ≡ only bytes.now) }
    ensures renewed { IfOk result (λ disk. IsRenewed file.entry bytes.now disk) }
{
    let beside = match file.beside() {
        Ok(beside) => beside,
        Err(why) => return Err(file_fault(path, Name::Unfinished, why)),
    };
    let room = LONGEST_FILE.max(bytes.len());
    match renewed(rt.alloc(), beside, bytes, room) {
        Ok(disk) => Ok(disk),
        Err((fault, beside)) => {
            beside.give_up();
            let fault = with_cause(fault_of_copy(fault), last.get());
            Err(Stopped::at(path, fault))
        }
    }
}
