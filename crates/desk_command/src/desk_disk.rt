//! The disk of a desk's votes: which files it is on, and what was read of them.

ghost use Rattle.std.specs.Prelude.{◌≡◌, [], IfOk, option_copied};
ghost use Rattle.desk_command.specs.Disks as shows;
ghost use Rattle.desk_command.specs.OnFiles.{AreOnFiles, IsOnFile, IsOnFiles};
ghost use Rattle.setup.specs.Files.{WasRead};

use agree_core::DeskId;
use cards::MatchSheet;
use corrections::CheckedBook;
use desk::restore::Restoring;
use entry_log::{Disk, DiskFault, Slots};
use machine_files::{Cause, FileDisk, LastFault, Name, NoFile, WriteFault, is_same_file};
use setup::{
    CopiedDisk, Kept, StopFault, Stopped, VotesDisk, compared, empty_disk, kept_votes, paired_disk,
    renewed_disk, tell_copies,
};
use vote_store::Votes;

/// Makes an empty book of the sheet's match.
pub fn empty_book(rt: &HostRuntime, sheet: &MatchSheet) -> Result<CheckedBook, Stopped<'static>>
    ensures { IfOk result (λ book. (book.entries ≡ []) × (book.innings_a_side ≡ sheet.now.innings)) }
{
    CheckedBook::new(rt.alloc(), sheet.innings()).map_err(|why| Stopped::at(
        "-",
        StopFault::from(why),
    ))
}

/// Returns these bytes unless they aren't the desk's votes, or make no legal book: a desk that starts on them would refuse them
/// in the same way. No disk is read, and the bytes aren't copied.
fn judged<'a>(
    rt: &HostRuntime,
    sheet: &MatchSheet,
    desk: DeskId,
    bytes: Vec<u8>,
    path: &'a str,
) -> Result<Vec<u8>, Stopped<'a>>
    ensures same { IfOk result (λ judged. judged.items ≡ bytes.items) }
{
    let disk = FileDisk::in_memory(bytes);
    let restoring = Restoring::new(empty_book(rt, sheet)?);
    match Votes::<Slots<FileDisk<NoFile>>>::open_with(
        rt.alloc(),
        disk,
        desk,
        sheet.game(),
        restoring,
    ) {
        Ok((votes, restoring)) => match restoring.end(desk) {
            Ok(_) => Ok(votes.into_disk().into_bytes()),
            Err(why) => Err(Stopped::at(path, StopFault::from(why))),
        },
        Err((why, _disk)) => Err(Stopped::at(path, StopFault::from(why))),
    }
}

/// Returns a disk on this file of the desk's votes, or on a new one. A file with votes is written anew first, so that its votes
/// are on the disk whatever became of earlier writes; a file that is refused stays as it was.
fn disk_at<'r, 'a>(
    rt: &'r HostRuntime,
    sheet: &MatchSheet,
    desk: DeskId,
    path: &'a str,
    last: &'r LastFault,
) -> Result<VotesDisk<'r>, Stopped<'a>>
    ensures { IfOk result (λ disk. IsOnFile path.now disk) }
{
    let (file, bytes) = kept_votes(rt, path, last)?;
    if bytes.is_empty() {
        return empty_disk(rt, path, file);
    }
    let bytes = judged(rt, sheet, desk, bytes, path)?;
    renewed_disk(rt, path, file, bytes.as_slice(), last)
}

/// Opens one of two files of the desk's votes, which may be empty, for this process alone. It is refused as a single file is,
/// and named.
fn kept_at<'r, 'a>(
    rt: &'r HostRuntime,
    sheet: &MatchSheet,
    desk: DeskId,
    path: &'a str,
    last: &'r LastFault,
) -> Result<Kept<'r, 'a>, Stopped<'a>>
    ensures { IfOk result (λ kept. WasRead path.now kept.bytes.items kept.file) }
{
    let (file, bytes) = kept_votes(rt, path, last)?;
    let bytes = if bytes.is_empty() {
        bytes
    } else {
        judged(rt, sheet, desk, bytes, path).map_err(|stopped| stopped.named())?
    };
    Ok(Kept {
        path,
        file,
        bytes,
        last,
    })
}

/// Refuses a copy that is the votes file itself. The votes file exists by now.
fn expect_two<'a>(rt: &HostRuntime, file: &str, copy: &'a str) -> Result<(), Stopped<'a>> {
    if !is_same_file(rt, file, copy) {
        return Ok(());
    }
    let fault = WriteFault {
        name: Name::Own,
        why: Cause::Itself,
    };
    Err(Stopped::at(copy, StopFault::File(fault)))
}

/// Returns a disk on both files of the desk's votes, of which the one with more votes counts. If either is refused, both are
/// one file, or each lacks votes of the other, both stay as they were.
fn copied_disk_at<'r, 'a>(
    rt: &'r HostRuntime,
    sheet: &MatchSheet,
    desk: DeskId,
    file: &'a str,
    copy: &'a str,
    lasts: &'r [LastFault; 2],
) -> Result<CopiedDisk<'r>, Stopped<'a>>
    ensures { IfOk result (λ pair. AreOnFiles file.now copy.now pair) }
{
    let first = kept_at(rt, sheet, desk, file, &lasts[0])?;
    expect_two(rt, file, copy)?;
    let second = kept_at(rt, sheet, desk, copy, &lasts[1])?;
    let counting = compared(first.bytes.as_slice(), second.bytes.as_slice());
    let _ = tell_copies(&mut rt.stderr(), &first, &second, counting);
    paired_disk(rt, first, second, counting)
}

/// The disk of a desk's votes: on its file alone, or on the file and its copy.
#[derive(Drop)]
pub enum DeskDisk<'r> {
    One(VotesDisk<'r>),
    Two(CopiedDisk<'r>),
}

impl Disk for DeskDisk<'_> {
    ghost seen = { shows.file_of };

    ghost images = { shows.images_of };

    ghost faults = { shows.faults_of };

    ghost cap = { shows.cap_of };

    ghost seen_is_image = { shows.is_image };

    fn len(&mut self) -> Result<usize, DiskFault> {
        match self {
            DeskDisk::One(disk) => disk.len(),
            DeskDisk::Two(disk) => disk.len(),
        }
    }

    fn read_at(&mut self, at: usize, buffer: &mut [u8]) -> Result<(), DiskFault> {
        match self {
            DeskDisk::One(disk) => disk.read_at(at, buffer),
            DeskDisk::Two(disk) => disk.read_at(at, buffer),
        }
    }

    fn write_at(&mut self, at: usize, bytes: &[u8]) -> Result<(), DiskFault> {
        match self {
            DeskDisk::One(disk) => disk.write_at(at, bytes),
            DeskDisk::Two(disk) => disk.write_at(at, bytes),
        }
    }

    fn cut(&mut self, len: usize) -> Result<(), DiskFault> {
        match self {
            DeskDisk::One(disk) => disk.cut(len),
            DeskDisk::Two(disk) => disk.cut(len),
        }
    }

    fn sync(&mut self) -> Result<(), DiskFault> {
        match self {
            DeskDisk::One(disk) => disk.sync(),
            DeskDisk::Two(disk) => disk.sync(),
        }
    }
}

/// Returns the disk of a desk's votes. `lasts` gets the cause of the last failed call, of the file and of the copy.
pub fn desk_disk_at<'r, 'a>(
    rt: &'r HostRuntime,
    sheet: &MatchSheet,
    desk: DeskId,
    file: &'a str,
    copy: Option<&'a str>,
    lasts: &'r [LastFault; 2],
) -> Result<DeskDisk<'r>, Stopped<'a>>
    ensures { IfOk result (λ disk. IsOnFiles file.now (option_copied copy.entry) disk) }
{
    match copy {
        None => Ok(DeskDisk::One(disk_at(rt, sheet, desk, file, &lasts[0])?)),
        Some(copy) => Ok(DeskDisk::Two(copied_disk_at(rt, sheet, desk, file, copy, lasts)?)),
    }
}
