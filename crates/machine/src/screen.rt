//! A screen that makes nobody wait, and the standard streams.

ghost use Rattle.std.specs.Prelude.{◌≡◌, ◌++◌, ◌+◌, ◌-◌, ◌≤◌, ℕ, List, MatchResult, OnOk, if◌then◌else◌, IfOk, Some, [], true, drop, length, map, take, vec_len};
ghost use Rattle.machine.specs.Rows as rows;
ghost use Rattle.machine.specs.Rows.{are_whole, ends_row, lacks_last, shown_in};

use crate::row_log::{RowLog, TakenLog, Written};
use crate::times::SCREEN_PIECE_WAIT;
use libc::net::{POLLOUT, poll};
use libc::types::pollfd;
use machine_files::may_have;
use std::alloc::{AllocError, Global};
use std::fs;
use std::io::{self, ErrorKind, Write};
use std::os::fd::{AsRawFd, RawFd};
use std::rt::{Stderr, Stdout};
use std::snapshot::Snapshot;

/// The most bytes of one write: a terminal or a pipe that reports itself writable has room for them.
const PIECE: usize = 128;

/// The most bytes that wait, and the most bytes of rows whose writing has begun.
const ROOM: usize = 32_768;

/// The row that replaces rows that are left out.
const POINTS: [u8; 3] = [b'.', b'.', b'\n'];

/// How many waits for a piece a screen that takes bytes may let pass before it is left alone.
const PATIENCE: u8 = 50;

/// How many milliseconds to wait for a terminal that takes nothing of a drawing.
const DRAWING_WAIT: u64 = 200;

/// The most pieces that are handed on in one go.
const MOST_PIECES: u32 = 400;

/// Standard output or standard error. It isn't reopened, and none of its flags is changed: so it stays as it is for other
/// programs. If it is a file, a write past this user's file size limit isn't made, but fails.
#[derive(Drop)]
pub struct StandardStream<'a, S> {
    rt: &'a HostRuntime,
    stream: S,
    /// The path that names it among this process's open files.
    path: &'static str,
}

impl<'a> StandardStream<'a, Stdout> {
    /// Returns standard output.
    pub fn output(rt: &'a HostRuntime) -> StandardStream<'a, Stdout> {
        StandardStream {
            rt,
            stream: rt.stdout(),
            path: "/proc/self/fd/1",
        }
    }
}

impl<'a> StandardStream<'a, Stderr> {
    /// Returns standard error.
    pub fn errors(rt: &'a HostRuntime) -> StandardStream<'a, Stderr> {
        StandardStream {
            rt,
            stream: rt.stderr(),
            path: "/proc/self/fd/2",
        }
    }
}

impl<S> StandardStream<'_, S> {
    /// Whether there is room for this many more bytes, if it is a file.
    fn has_room(&self, count: usize) -> bool {
        if may_have(u64::MAX) {
            return true;
        }
        match fs::metadata(self.rt, self.path) {
            Ok(found) if found.is_file() => may_have(found.len().saturating_add(count as u64)),
            _ => true,
        }
    }
}

impl<S: AsRawFd> AsRawFd for StandardStream<'_, S> {
    fn as_raw_fd(&self) -> RawFd {
        self.stream.as_raw_fd()
    }
}

impl<S: Write> Write for StandardStream<'_, S> {
    fn write(&mut self, bytes: &[u8]) -> io::Result<usize> {
        if !self.has_room(bytes.len()) {
            return Err(io::Error::from(ErrorKind::FileTooLarge));
        }
        self.stream.write(bytes)
    }

    fn flush(&mut self) -> io::Result<()> {
        self.stream.flush()
    }
}

/// A stream that takes bytes, or takes none for now.
pub trait Outlet {
    /// The bytes that it has taken, oldest first.
    ghost taken: { Self → List ℕ };

    /// Hands it a piece of these bytes, starting at `from`, and returns how many it took: 0 if it takes none within `wait`
    /// milliseconds.
    fn hand(&mut self, bytes: &Vec<u8>, from: usize, wait: u64) -> io::Result<usize>
        requires { from ≤ vec_len bytes.now }
        ensures bound { IfOk result (λ count. from + count ≤ vec_len bytes.now) }
        ensures took { MatchResult result
            (λ count. taken self.new ≡ taken self.old ++ take count (drop from bytes.now.items))
            (λ _. taken self.new ≡ taken self.old) };

    /// Hands it all of these bytes from `from` on, however long it takes.
    fn hand_all(&mut self, bytes: &Vec<u8>, from: usize) -> io::Result<()>
        requires { from ≤ vec_len bytes.now }
        ensures { OnOk result (taken self.new ≡ taken self.old ++ drop from bytes.now.items) };
}

/// Whether a write of a few bytes to a descriptor would return at once, now or within this many milliseconds.
fn can_write(descriptor: RawFd, limit: u64) -> bool {
    let asked = pollfd {
        fd: descriptor,
        events: POLLOUT,
        revents: 0,
    };
    let limit = i32::try_from(limit).unwrap_or(i32::MAX);
    poll(&mut [asked], limit) > 0
}

/// Whether a write failed only for now.
fn is_passing(error: &io::Error) -> bool {
    matches!(error.kind(), ErrorKind::WouldBlock | ErrorKind::Interrupted)
}

/// A stream that is handed one piece at a time, when it can take one.
#[derive(Drop)]
pub struct Pieces<S> {
    stream: S,
    taken: TakenLog,
}

impl<S> Pieces<S> {
    ghost use Rattle.machine.specs.Outlets.{taken_by};

    /// Returns the pieces of this stream, which has taken nothing yet.
    pub fn of(stream: S) -> Pieces<S>
        ensures { taken_by result ≡ [] }
    {
        Pieces {
            stream,
            taken: TakenLog::Empty,
        }
    }
}

impl<S: Write + AsRawFd> Outlet for Pieces<S> {
    ghost use Rattle.machine.specs.Outlets.{taken_by};

    ghost taken = { taken_by };

    fn hand(&mut self, bytes: &Vec<u8>, from: usize, wait: u64) -> io::Result<usize> {
        if !can_write(self.stream.as_raw_fd(), wait) {
            return Ok(0);
        }
        let end = bytes.len().min(from.saturating_add(PIECE));
        let count = match self.stream.write(&bytes[from..end]) {
            Ok(count) => count,
            Err(why) if is_passing(&why) => 0,
            Err(why) => return Err(why),
        };
        self.taken = self.taken.more(bytes, from, count);
        Ok(count)
    }

    fn hand_all(&mut self, bytes: &Vec<u8>, from: usize) -> io::Result<()> {
        self.stream.write_all(&bytes[from..])?;
        self.taken = self.taken.more(bytes, from, bytes.len() - from);
        Ok(())
    }
}

/// Draws on standard error, for a terminal, what a terminal obeys and no screen hands on: a drawing of the program's own, such
/// as a code. A terminal that takes nothing for long gets no more of it.
pub fn draw(rt: &HostRuntime, drawing: &Vec<u8>) {
    let mut outlet = Pieces::of(StandardStream::errors(rt));
    let mut done = 0;
    for _ in 0..drawing.len() {
        if done >= drawing.len() {
            break;
        }
        match outlet.hand(drawing, done, DRAWING_WAIT) {
            Ok(count) if count > 0 => done += count,
            _ => break,
        }
    }
}

/// Returns the length of the whole rows at the front of these bytes.
fn rows_len(bytes: &[u8]) -> usize
    ensures bound { result ≤ length bytes.now }
    ensures rows { ends_row (take result bytes.now) ≡ true }
{
    let mut len = bytes.len();
    while len > 0 {
        if bytes[len - 1] == b'\n' {
            return len;
        }
        len -= 1;
    }
    0
}

/// Returns a byte as it is shown: a byte that a terminal may obey becomes a question mark.
fn plain(byte: u8) -> u8
    ensures { result ≡ rows.plain byte }
{
    if byte == b'\n' || (32 <= byte && byte <= 126) {
        byte
    } else {
        b'?'
    }
}

/// Appends bytes as they are shown.
fn put_plain(out: &mut Vec<u8>, bytes: &[u8]) -> Result<(), AllocError>
    ensures { OnOk result (out.new.items ≡ out.old.items ++ map rows.plain bytes.now) }
{
    for byte in bytes {
        out.push(plain(*byte))?;
    }
    Ok(())
}

/// Replaces the contents by bytes as they are shown. If there is no memory for them, the contents are empty.
fn set_plain(out: &mut Vec<u8>, bytes: &[u8]) -> Result<(), AllocError>
    ensures { MatchResult result (λ _. out.new.items ≡ map rows.plain bytes.now) (λ _. out.new.items ≡ []) }
{
    out.clear();
    let put = put_plain(out, bytes);
    if put.is_err() {
        out.clear();
    }
    put
}

/// Removes this many bytes from the front.
fn drop_front(held: &mut Vec<u8>, count: usize)
    requires { count ≤ vec_len held.old }
    ensures items { held.new.items ≡ drop count held.old.items }
    ensures len { vec_len held.new ≡ vec_len held.old - count }
{
    held.drain(..count);
}

/// A writer to a screen that may not be read for long, such as a terminal after Ctrl-S or a full pipe. No write or flush waits
/// longer than a moment. Rows are handed on as far as they are taken, and the others wait. If too many wait, the older half is
/// left out, by whole rows, and a row of two points replaces it. Whatever is written, wherever it came from, each byte handed
/// on is a newline or printable ASCII: so no terminal obeys it.
#[derive(Drop)]
pub struct Screen<O: Outlet> {
    outlet: O,
    /// Rows whose writing has begun.
    begun: Vec<u8>,
    /// How many bytes of those rows are taken.
    done: usize,
    /// The bytes that were written since.
    waits: Vec<u8>,
    /// Whether the rows before the waiting ones are left out.
    lacks: bool,
    /// Whether the screen wasn't left alone when it was last handed something.
    takes: bool,
    log: RowLog,
    ghost within: { done ≤ vec_len begun },
    ghost shown: { O.taken outlet ++ drop done begun.items ≡ shown_in log },
    ghost lacking: { lacks ≡ lacks_last log },
    ghost whole: { are_whole log ≡ true },
    ghost few_begun: { vec_len begun ≤ (if lacks then 32771 else 32768) },
    ghost few_wait: { vec_len waits ≤ 32768 },
}

impl<O: Outlet> Screen<O> {
    ghost use Rattle.machine.specs.Screens.{shown_of, text_of, written_of};

    /// Returns a screen over a stream that has taken nothing yet.
    pub fn new(alloc: Global, outlet: O) -> Result<Screen<O>, AllocError>
    where
        O: Drop,
        requires { O.taken outlet ≡ [] }
        ensures { IfOk result (λ screen. written_of screen ≡ []) }
    {
        let begun = Vec::with_capacity(alloc, ROOM + POINTS.len())?;
        let waits = Vec::with_capacity(alloc, ROOM)?;
        Ok(Screen {
            outlet,
            begun,
            done: 0,
            waits,
            lacks: false,
            takes: true,
            log: RowLog::Empty,
        })
    }

    /// Returns what was written to the screen, which only clauses read.
    pub fn written(&self) -> Written
        ensures { text_of result ≡ written_of self.now }
    {
        Written {
            rows: Snapshot::of(&self.log),
            waits: Snapshot::of(&self.waits),
        }
    }

    /// Hands on a piece of the begun rows, and returns how many bytes were taken within this many milliseconds.
    fn hand_piece(&mut self, wait: u64) -> io::Result<usize>
        ensures { written_of self.new ≡ written_of self.old }
    {
        let count = self.outlet.hand(&self.begun, self.done, wait)?;
        self.done += count;
        Ok(count)
    }

    /// Hands on a piece of the begun rows, and returns whether to go on. If nothing is taken, waits as long as there is
    /// patience.
    fn hand_patiently(&mut self, patience: &mut u8) -> io::Result<bool>
        ensures { written_of self.new ≡ written_of self.old }
    {
        let wait = if *patience > 0 { SCREEN_PIECE_WAIT } else { 0 };
        if self.hand_piece(wait)? > 0 {
            if !self.takes {
                self.takes = true;
                *patience = PATIENCE;
            }
            return Ok(true);
        }
        if *patience == 0 {
            self.takes = false;
            return Ok(false);
        }
        *patience -= 1;
        Ok(true)
    }

    /// Hands on the begun rows, as far as they are taken.
    fn hand_on(&mut self) -> io::Result<()>
        ensures { written_of self.new ≡ written_of self.old }
    {
        let mut patience = if self.takes { PATIENCE } else { 0 };
        for _ in 0..MOST_PIECES {
            if self.done == self.begun.len() {
                break;
            }
            if !self.hand_patiently(&mut patience)? {
                break;
            }
        }
        Ok(())
    }

    /// Begins writing the rows that wait, if all begun rows are taken.
    fn begin(&mut self) -> io::Result<()>
        ensures { written_of self.new ≡ written_of self.old }
    {
        let count = rows_len(self.waits.as_slice());
        if count == 0 || self.done < self.begun.len() {
            return Ok(());
        }
        self.done = 0;
        set_plain(&mut self.begun, &self.waits[..count])?;
        self.log = self.log.shown(&self.waits, count);
        self.lacks = false;
        drop_front(&mut self.waits, count);
        Ok(())
    }

    /// Hands on as much as is taken now.
    fn put(&mut self) -> io::Result<()>
        ensures { written_of self.new ≡ written_of self.old }
    {
        self.hand_on()?;
        self.begin()?;
        self.hand_on()
    }

    /// Leaves out the older half of the waiting bytes, by whole rows.
    fn leave_out(&mut self) -> io::Result<()>
        ensures { written_of self.new ≡ written_of self.old }
    {
        let half = self.waits.len() / 2;
        let count = rows_len(&self.waits[..half]);
        if count == 0 {
            return Ok(());
        }
        if !self.lacks {
            self.begun.extend_from_slice(&POINTS)?;
        }
        self.log = self.log.left_out(&self.waits, count);
        self.lacks = true;
        drop_front(&mut self.waits, count);
        Ok(())
    }

    /// Makes room if none is left.
    fn make_room(&mut self) -> io::Result<()>
        ensures { written_of self.new ≡ written_of self.old }
    {
        if self.waits.len() == ROOM {
            self.put()?;
        }
        if self.waits.len() == ROOM {
            self.leave_out()?;
        }
        Ok(())
    }

    /// Hands on everything that was written, waiting for the screen as any program does at its end.
    pub fn end(self) -> io::Result<O>
    where
        O: Drop,
        ensures { IfOk result (λ outlet. O.taken outlet ≡ shown_of self) }
    {
        let Screen {
            outlet,
            begun,
            done,
            waits,
            ..
        } = self;
        let mut outlet = outlet;
        let mut begun = begun;
        outlet.hand_all(&begun, done)?;
        set_plain(&mut begun, waits.as_slice())?;
        outlet.hand_all(&begun, 0)?;
        Ok(outlet)
    }
}

impl<O: Outlet> Write for Screen<O> {
    ghost use Rattle.std.specs.Io.KnownBytes.{Keeps};
    ghost use Rattle.machine.specs.Screens.{IsHeld, written_of};

    ghost contents = { λ screen. Some (written_of screen) };

    /// Takes as many bytes as there is room for.
    fn write(&mut self, bytes: &[u8]) -> io::Result<usize> {
        self.make_room()?;
        let count = bytes.len().min(ROOM - self.waits.len());
        self.waits.extend_from_slice(&bytes[..count])?;
        Ok(count)
    }

    /// Hands on as much as is taken now. The rest waits until the next flush.
    fn flush(&mut self) -> io::Result<()>
        ensures bytes { Keeps (Some (written_of self.old)) (Some (written_of self.new)) }
        ensures held { IsHeld O.taken self.new }
    {
        self.put()
    }
}
