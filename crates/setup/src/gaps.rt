//! The three standard streams of a program that may have been started without some of them.

use crate::fault::{StopFault, Stopped};
use std::fs::{File, OpenOptions};
use std::os::fd::AsFd;

/// The file that is opened in place of a closed stream.
const NULL: &str = "/dev/null";

/// The files in place of the standard streams that were closed.
#[derive(Drop)]
pub struct Gaps {
    files: [Option<File>; 3],
}

/// Whether a stream is closed.
fn is_closed(stream: &impl AsFd) -> bool {
    match stream.as_fd().try_clone_to_owned() {
        Ok(_copy) => false,
        Err(why) => why.raw_os_error() == Some(libc::EBADF),
    }
}

/// Opens a file in place of a stream, if that is closed. The system gives the lowest free number, so the streams with lower
/// numbers have to be filled first.
fn fill(
    rt: &HostRuntime,
    stream: &impl AsFd,
    how: &OpenOptions,
) -> Result<Option<File>, Stopped<'static>> {
    if !is_closed(stream) {
        return Ok(None);
    }
    match how.open(rt, NULL) {
        Ok(file) => Ok(Some(file)),
        Err(_) => Err(Stopped::at(NULL, StopFault::Read)),
    }
}

/// Opens files in place of closed standard streams, so that no file or socket that is opened later gets their numbers. Input
/// gets a file that can't be read, the others one that can't be written: a read or write of the stream fails as it would
/// without. Call this before anything is opened, and keep the result to the end.
pub fn fill_gaps(rt: &HostRuntime) -> Result<Gaps, Stopped<'static>> {
    let mut unreadable = OpenOptions::new();
    unreadable.write(true);
    let mut unwritable = OpenOptions::new();
    unwritable.read(true);
    Ok(Gaps {
        files: [
            fill(rt, &rt.stdin(), &unreadable)?,
            fill(rt, &rt.stdout(), &unwritable)?,
            fill(rt, &rt.stderr(), &unwritable)?,
        ],
    })
}
