//! Opening files, standard output and sockets. Each fault names its file or address.

ghost use Rattle.std.specs.Prelude.{◌≡◌, ◌≤◌, [], IfOk, vec_len};
ghost use Rattle.streams.specs.declared.limit.TheConstants.{LONGEST_INPUT};
ghost use Rattle.seal.specs.Carried.{carried_of};
ghost use Rattle.setup.specs.inner.Opening as texts;

use crate::fault::{StopFault, Stopped};
use crate::sheet::sheet_run;
use agree_core::DeskId;
use cards::MatchSheet;
use entry_log::OldSlots;
use machine::{Address, MOST_PEERS, Peers, StandardStream, Strangers, WaitEnds};
use machine_files::{FileDisk, OpenFault};
use std::cell::Cell;
use std::fs::File;
use std::io::{BufWriter, Write};
use std::net::{Net, SocketAddr};
use std::rt::Stdout;
use streams::{Watched, read_all};
use vote_store::Votes;

/// Standard output, buffered.
pub type Output<'a> = Watched<BufWriter<StandardStream<'a, Stdout>>>;

/// Returns the fault of a run that can't open a file as a disk to read it.
pub fn fault_of_old(fault: OpenFault) -> StopFault
    ensures { result ≡ texts.fault_of_old fault }
{
    match fault {
        OpenFault::NoMemory => StopFault::NoMemory,
        OpenFault::Host | OpenFault::TooLong => StopFault::Read,
    }
}

/// Opens a file for reading only.
fn file_at<'a>(rt: &HostRuntime, path: &'a str) -> Result<File, Stopped<'a>> {
    File::open(rt, path).map_err(|_| Stopped::at(path, StopFault::Read))
}

/// Opens a file that is read from start to end.
pub fn open_input<'a>(rt: &HostRuntime, path: &'a str) -> Result<Watched<File>, Stopped<'a>> {
    Ok(Watched::new(file_at(rt, path)?))
}

/// Reads the match sheet in a file.
pub fn sheet_at<'a>(rt: &HostRuntime, path: &'a str) -> Result<MatchSheet, Stopped<'a>> {
    let mut reader = open_input(rt, path)?;
    sheet_run(rt.alloc(), &mut reader).map_err(|fault| Stopped::at(path, fault))
}

/// Reads all bytes of a file.
pub fn bytes_at<'a>(rt: &HostRuntime, path: &'a str) -> Result<Vec<u8>, Stopped<'a>>
    ensures { IfOk result (λ bytes. vec_len bytes ≤ LONGEST_INPUT) }
{
    let mut reader = open_input(rt, path)?;
    match read_all(rt.alloc(), &mut reader) {
        Ok(bytes) => Ok(bytes),
        Err(fault) => Err(Stopped::at(path, StopFault::from(fault))),
    }
}

/// Opens a file as a disk for reading only. A file longer than 16,777,216 bytes is refused with `Read`.
fn reading_disk<'a>(rt: &HostRuntime, path: &'a str) -> Result<FileDisk<File>, Stopped<'a>> {
    let file = file_at(rt, path)?;
    FileDisk::new(rt.alloc(), file, 0).map_err(|fault| Stopped::at(path, fault_of_old(fault)))
}

/// Opens a desk's votes file of version 1 as a disk, once its votes have been read and found right.
pub fn old_votes_at<'a>(
    rt: &HostRuntime,
    path: &'a str,
    desk: DeskId,
    game: u64,
) -> Result<FileDisk<File>, Stopped<'a>> {
    let disk = reading_disk(rt, path)?;
    match Votes::<OldSlots<FileDisk<File>>>::open(rt.alloc(), disk, desk, game) {
        Ok(votes) => Ok(votes.into_disk()),
        Err((why, _disk)) => Err(Stopped::at(path, StopFault::from(why))),
    }
}

/// Returns standard output, buffered.
pub fn printer(
    rt: &HostRuntime,
) -> Result<BufWriter<StandardStream<'_, Stdout>>, Stopped<'static>> {
    let stream = StandardStream::output(rt);
    BufWriter::new(rt.alloc(), stream).map_err(|_| Stopped::at("-", StopFault::NoMemory))
}

/// Returns standard output, buffered and watched.
pub fn output(rt: &HostRuntime) -> Result<Output<'_>, Stopped<'static>> {
    Ok(Watched::new(printer(rt)?))
}

/// Opens a station's socket at its address, in a match whose datagrams `strangers` knows. `ends` is what else ends a wait; a
/// wait that ends because of the page sets `called`.
pub fn peers_at<'a, 'w, E: Write + Drop>(
    net: &impl Net,
    at: Address<'a>,
    peers: [Option<SocketAddr>; MOST_PEERS],
    ends: WaitEnds,
    called: &'w Cell<bool>,
    strangers: Strangers,
    errors: E,
) -> Result<Peers<'w, E>, Stopped<'a>>
    ensures { IfOk result (λ peers. carried_of peers.log ≡ []) }
{
    match Peers::new(net, at.socket, peers, ends, called, strangers, errors) {
        Ok(peers) => Ok(peers),
        Err(_) => Err(Stopped {
            path: at.text,
            fault: StopFault::Listen,
        }),
    }
}
