//! A desk's votes in two files, which begin alike and are written together.

ghost use Rattle.std.specs.Prelude.{◌≡◌, IfOk};
ghost use Rattle.machine_files.specs.Pairs.{file_of, first_of, second_of};
ghost use Rattle.setup.specs.Counting.{counting_bytes};
ghost use Rattle.setup.specs.Files.{IsRenewed};

use crate::counting::{Counting, place_of_difference};
use crate::fault::{StopFault, Stopped, printable};
use crate::votes_file::renewed_disk;
use machine_files::{LastFault, NamedFile, Pair};
use std::io::{self, Write};

/// A disk on a votes file and its copy.
pub type CopiedDisk<'a> = Pair<NamedFile<'a>, NamedFile<'a>>;

/// A desk's votes file or its copy: its path, the file, its bytes, and where the cause of a failed call is left.
#[derive(Drop)]
pub struct Kept<'r, 'a> {
    pub path: &'a str,
    pub file: NamedFile<'r>,
    pub bytes: Vec<u8>,
    pub last: &'r LastFault,
}

/// Tells by how many votes a file was behind.
fn tell_votes<W: Write>(errors: &mut W, what: &str, lacking: usize) -> io::Result<()> {
    let ending = if lacking == 1 { "" } else { "s" };
    writeln!(errors, "{what} was behind by {lacking} vote{ending}")
}

/// Tells a scorer what is unexpected about the votes file and its copy: that both are on one disk; and that one lacks votes, or
/// is made from the other, or that each lacks votes of the other.
pub fn tell_copies<W: Write>(
    errors: &mut W,
    first: &Kept<'_, '_>,
    second: &Kept<'_, '_>,
    counting: Counting,
) -> io::Result<()> {
    if first.file.is_on_disk_of(&second.file) {
        writeln!(errors, "the copy is on the same disk as the file")?;
    }
    let (file, copy) = (printable(first.path), printable(second.path));
    match counting {
        Counting::First { lacking: 0 } => Ok(()),
        Counting::First { .. } if second.bytes.is_empty() => {
            writeln!(errors, "the copy is new: it gets all votes of the file")
        }
        Counting::First { lacking } => tell_votes(errors, "the copy", lacking),
        Counting::Second { .. } if first.bytes.is_empty() => {
            writeln!(errors, "the file is new: it gets all votes of the copy")
        }
        Counting::Second { lacking } => tell_votes(errors, "the file", lacking),
        Counting::Neither { .. } => {
            writeln!(
                errors,
                "neither {file} nor {copy} has all votes of the other"
            )
        }
    }
}

/// Turns a fault of writing the copy of a file that counts into `CopyLost`: a desk can go on without the copy.
fn of_copy(stopped: Stopped<'_>) -> Stopped<'_> {
    match stopped.fault {
        StopFault::File(why) => Stopped::at(stopped.path, StopFault::CopyLost(why)),
        _ => stopped,
    }
}

/// Returns a disk on both files, which are written anew with the bytes that count, the file that has them first. If neither
/// counts, both stay as they were and the run is refused.
pub fn paired_disk<'r, 'a>(
    rt: &HostRuntime,
    first: Kept<'r, 'a>,
    second: Kept<'r, 'a>,
    counting: Counting,
) -> Result<CopiedDisk<'r>, Stopped<'a>>
    ensures held { IfOk result (λ pair. file_of pair ≡ counting_bytes counting first.entry.bytes.items second.entry.bytes.items) }
    ensures first { IfOk result (λ pair. IsRenewed first.entry.file
        (counting_bytes counting first.entry.bytes.items second.entry.bytes.items) (first_of pair)) }
    ensures second { IfOk result (λ pair. IsRenewed second.entry.file
        (counting_bytes counting first.entry.bytes.items second.entry.bytes.items) (second_of pair)) }
{
    let Kept {
        path,
        file,
        bytes,
        last,
    } = first;
    let Kept {
        path: copys_path,
        file: copy,
        bytes: copied,
        last: copys_last,
    } = second;
    let (bytes, copied) = (bytes.as_slice(), copied.as_slice());
    match counting {
        Counting::First { .. } => {
            let one = renewed_disk(rt, path, file, bytes, last)?;
            let other = renewed_disk(rt, copys_path, copy, bytes, copys_last).map_err(of_copy)?;
            Ok(Pair::new(one, other))
        }
        Counting::Second { .. } => {
            let other = renewed_disk(rt, copys_path, copy, copied, copys_last)?;
            let one = renewed_disk(rt, path, file, copied, last)?;
            Ok(Pair::new(one, other))
        }
        Counting::Neither { same } => Err(Stopped::at(
            path,
            StopFault::FilesDiffer {
                place: place_of_difference(bytes, copied, same),
            },
        )),
    }
}
