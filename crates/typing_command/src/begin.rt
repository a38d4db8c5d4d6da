//! `ground typing`: a desk's terminal.

use crate::keys_and_rows::KeysAndRows;
use machine::StandardStream;
use setup::{StopFault, Stopped};
use std::fs::{File, OpenOptions};
use std::io::Write;
use typing::{Fault, Kept, keep_terminal};

/// Opens a file or a pipe for writing only.
fn written_at<'a>(rt: &HostRuntime, path: &'a str) -> Result<File, Stopped<'a>> {
    let mut how = OpenOptions::new();
    how.write(true);
    how.open(rt, path)
        .map_err(|_| Stopped::at(path, StopFault::Write))
}

/// Opens a file or a pipe for reading only.
fn read_at<'a>(rt: &HostRuntime, path: &'a str) -> Result<File, Stopped<'a>> {
    File::open(rt, path).map_err(|_| Stopped::at(path, StopFault::Read))
}

/// Returns a terminal that was kept to the desk's end, or why it wasn't. `told` is the path that its rows come from.
fn kept_or<'a>(kept: Result<Kept, Fault>, told: &'a str) -> Result<Kept, Stopped<'a>> {
    match kept {
        Ok(kept) => Ok(kept),
        Err(Fault::Read) => Err(Stopped::at(told, StopFault::Read)),
        Err(Fault::Write) => Err(Stopped::at("-", StopFault::Write)),
    }
}

/// `ground typing`: edits what is typed at a terminal of `columns` columns, hands each line to a desk through a file or a pipe,
/// and shows the rows that the desk writes to another one, until its last row. The file of the lines is opened first. It is no
/// fault if a line isn't taken: the desk has ended, and told why.
#[inline(never)]
pub fn start_typing<'a>(
    rt: &HostRuntime,
    lines: &'a str,
    told: &'a str,
    columns: u16,
) -> Result<bool, Stopped<'a>> {
    let mut desk = written_at(rt, lines)?;
    let mut inputs = KeysAndRows::new(rt, read_at(rt, told)?);
    let mut screen = StandardStream::output(rt);
    let (keys, to, on) = (&mut inputs, &mut desk, &mut screen);
    let kept = keep_terminal(keys, to, on, usize::from(columns), u64::MAX);
    let kept = kept_or(kept, told)?;
    match screen.write_all(kept.terminal.ending().as_slice()) {
        Ok(()) if inputs.has_failed() => Err(Stopped::at("-", StopFault::Read)),
        Ok(()) => Ok(false),
        Err(_) => Err(Stopped::at("-", StopFault::Write)),
    }
}
