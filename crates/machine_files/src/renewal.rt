//! A file that is written anew: its bytes are read, and a new file holds them before it takes the name.

ghost use Rattle.std.specs.Prelude.{◌≡◌, ◌≤◌, IfErr, IfOk, OnErr, OnOk, length, vec_len};
ghost use Rattle.entry_log.specs.Disk.{only};
ghost use Rattle.machine_files.specs.Calls.{Adds, AddsDone, AddsUntilFailed, Done, IsLeft, IsUnread, ReadFront, renewal};
ghost use Rattle.machine_files.specs.FileDisk.{calls_of, cap_of, file_of, images_of, name_of};
ghost use Rattle.streams.specs.declared.limit.TheConstants.{LONGEST_INPUT};

use crate::file_disk::{FileDisk, OpenFault, with_room};
use crate::host_file::{Host, Successor};
use std::alloc::Global;
use std::io;
use streams::LONGEST_INPUT;

/// Returns the length of a file in bytes, if that is at most 16,777,216.
pub fn length_of<F: Host>(file: &mut F) -> Result<usize, OpenFault>
    ensures most { IfOk result (λ len. len ≤ LONGEST_INPUT) }
    ensures only_read { F.calls file.new ≡ F.calls file.old }
    ensures name { F.name file.new ≡ F.name file.old }
{
    match file.len() {
        Ok(len) if len <= LONGEST_INPUT as u64 => Ok(len as usize),
        Ok(_) => Err(OpenFault::TooLong),
        Err(_) => Err(OpenFault::Host),
    }
}

/// Returns all bytes of a file, which it only reads, and once. Refuses as a disk on the file does.
pub fn bytes_of<F: Host>(alloc: Global, file: &mut F) -> Result<Vec<u8>, OpenFault>
    ensures most { IfOk result (λ bytes. vec_len bytes ≤ LONGEST_INPUT) }
    ensures read { IfOk result (λ bytes. Adds (F.calls file.old) (F.calls file.new) (Done (ReadFront bytes.items))) }
    ensures unread { IfErr result (λ why. IsUnread (F.calls file.old) (F.calls file.new) why) }
    ensures name { F.name file.new ≡ F.name file.old }
{
    let len = length_of(file)?;
    let mut bytes = vec![in alloc; 0; len]?;
    match file.read_front(bytes.as_mut_slice()) {
        Ok(()) => Ok(bytes),
        Err(_) => Err(OpenFault::Host),
    }
}

/// Writes exactly these bytes to a new file, syncs it, and only then has it take its name.
#[tactic(auto, using(crate::proofs::CallLemmas::first_failed, crate::proofs::CallLemmas::later_failed))]
fn renew<F: Successor>(file: &mut F, bytes: &[u8]) -> io::Result<()>
    ensures done { OnOk result (AddsDone (F.calls file.old) (F.calls file.new) (renewal bytes.now)) }
    ensures failed { OnErr result (AddsUntilFailed (F.calls file.old) (F.calls file.new) (renewal bytes.now)) }
    ensures name { F.name file.new ≡ F.name file.old }
{
    file.cut(0)?;
    file.write_at(0, bytes)?;
    file.sync()?;
    file.take_name()
}

/// Returns a disk on a new file that takes the name of another, with room for `room` bytes: the file gets exactly these
/// bytes, is synced, and only then takes the name. If one of these calls fails, the rest aren't made, and the file is
/// handed back.
pub fn renewed<F: Successor + Drop>(
    alloc: Global,
    file: F,
    bytes: &[u8],
    room: usize,
) -> Result<FileDisk<F>, (OpenFault, F)>
    requires room { length bytes.now ≤ room }
    ensures held { IfOk result (λ disk. file_of disk ≡ bytes.now) }
    ensures kept { IfOk result (λ disk. images_of disk ≡ only bytes.now) }
    ensures room { IfOk result (λ disk. cap_of disk ≡ room) }
    ensures asked { IfOk result (λ disk. AddsDone (F.calls file) (calls_of F.calls disk) (renewal bytes.now)) }
    ensures left { IfErr result (λ left. IsLeft (F.calls file) (F.calls left.1) left.0 (renewal bytes.now)) }
    ensures name { IfOk result (λ disk. name_of F.name disk ≡ F.name file) }
    ensures name_left { IfErr result (λ left. F.name left.1 ≡ F.name file) }
{
    let mut file = file;
    let Ok(held) = with_room(alloc, bytes, room) else {
        return Err((OpenFault::NoMemory, file));
    };
    match renew(&mut file, bytes) {
        Ok(()) => Ok(FileDisk::over(file, held, room)),
        Err(_) => Err((OpenFault::Host, file)),
    }
}
