//! A scorer's keyboard: standard input, read without waiting, and lines from elsewhere.

ghost use Rattle.std.specs.Prelude.{◌≡◌, ◌≤◌, ◌<◌, ℕ, List, [], None, Some, IfSome, IsTrue, drop, false, length, take, true};
ghost use Rattle.links.specs.Logs.{elsewhere_of, inputs_of};

use crate::entered::Entered;
use arrayvec::ArrayVec;
use libc::net::{POLLIN, poll};
use libc::types::pollfd;
use links::{InputLog, Keys, LINE_ROOM, LineBuffer, MoreLines, Stand, Typed};
use std::io::{self, ErrorKind, Read};
use std::os::fd::{AsRawFd, RawFd};
use std::rt::Stdin;

/// The bytes that were read and not given yet.
type Unread = ArrayVec<u8, LINE_ROOM>;

/// A scorer's lines, from a reader that returns `WouldBlock` when nothing was typed. A line ends with its newline: bytes after
/// the last newline are no line. Of a line that is too long the first 128 bytes are given, and the rest is skipped. If no line
/// was typed, the next one from elsewhere is given, as if it were typed.
#[derive(Drop)]
pub struct Keyboard<R: Read, M: MoreLines> {
    reader: R,
    entered: Entered<M>,
    held: Unread,
    /// Whether the rest of a line that was too long is being skipped.
    skips: bool,
    ended: bool,
    /// Whether a read failed, which also ends the lines.
    failed: bool,
    ghost at_end: { ended ≡ true → failed ≡ false → (bytes : List ℕ) → R.remaining reader ≡ Some bytes → bytes ≡ [] },
}

/// Standard input, read without waiting: a read returns `WouldBlock` if nothing is there.
#[derive(Drop)]
pub struct StandardInput {
    stream: Stdin,
}

/// Whether a read of a descriptor would return at once.
fn can_read(descriptor: RawFd) -> bool {
    let asked = pollfd {
        fd: descriptor,
        events: POLLIN,
        revents: 0,
    };
    poll(&mut [asked], 0) > 0
}

impl Read for StandardInput {
    fn read(&mut self, buffer: &mut [u8]) -> io::Result<usize> {
        if can_read(self.stream.as_raw_fd()) {
            self.stream.read(buffer)
        } else {
            Err(io::Error::from(ErrorKind::WouldBlock))
        }
    }
}

impl<M: MoreLines> Keyboard<StandardInput, M> {
    /// Returns a keyboard on standard input, from where it stands. It isn't reopened, and none of its flags is changed: so it
    /// may be a file, a pipe, a terminal or anyone's socket, and stays as it is for other programs.
    pub fn of_standard_input(rt: &HostRuntime, more: M) -> Keyboard<StandardInput, M>
        requires { M.given more ≡ [] }
        ensures { inputs_of result.entered.given ≡ [] }
    {
        Keyboard::new(StandardInput { stream: rt.stdin() }, more)
    }

    /// Returns the descriptor of standard input, to wait at.
    pub fn descriptor(&self) -> RawFd {
        self.reader.stream.as_raw_fd()
    }
}

/// Returns the bytes after the first `count`.
fn behind(held: &Unread, count: usize) -> Unread
    requires { count ≤ length held.now.items }
    ensures { result.items ≡ drop count held.now.items }
{
    let mut rest = ArrayVec::new();
    rest.try_extend_from_slice(&held.as_slice()[count..])
        .unwrap();
    rest
}

/// Copies a line into the front of a buffer.
fn put(line: &[u8], buffer: &mut LineBuffer)
    requires { length line.now ≤ 128 }
    ensures { take (length line.now) buffer.new ≡ line.now }
{
    buffer[..line.len()].copy_from_slice(line);
}

impl<R: Read, M: MoreLines> Keyboard<R, M> {
    ghost use Rattle.machine.specs.Keyboards.{GivesLine, HasNoLines, KeepsLines, first_newline, left_of, lines_left};

    /// Returns a keyboard that gives the lines of this reader, and those from elsewhere.
    pub fn new(reader: R, more: M) -> Keyboard<R, M>
        requires { M.given more ≡ [] }
        ensures lines { lines_left R.remaining result ≡ left_of false [] (R.remaining reader) }
        ensures given { inputs_of result.entered.given ≡ [] }
    {
        Keyboard {
            reader,
            entered: Entered::of(more),
            held: ArrayVec::new(),
            skips: false,
            ended: false,
            failed: false,
        }
    }

    /// Reads what is there, as far as there is room.
    fn fill(&mut self)
        requires room { length self.old.held.items < 128 }
        requires going { self.old.ended ≡ false }
        ensures lines { KeepsLines (lines_left R.remaining self.old) (lines_left R.remaining self.new) }
        ensures entered { self.new.entered ≡ self.old.entered }
    {
        let mut read = [0; LINE_ROOM];
        let room = self.held.remaining_capacity();
        match self.reader.read(&mut read[..room]) {
            Ok(0) => self.ended = true,
            Ok(count) => self.held.try_extend_from_slice(&read[..count]).unwrap(),
            Err(error) => match error.kind() {
                ErrorKind::WouldBlock | ErrorKind::Interrupted => {}
                _ => {
                    self.ended = true;
                    self.failed = true;
                }
            },
        }
    }

    /// Returns the length of the first unread line, if its newline is there.
    fn first_line(&self) -> Option<usize>
        ensures { result ≡ first_newline self.now.held.items }
    {
        self.held.as_slice().iter().position(|byte| *byte == b'\n')
    }

    /// Takes the first line of the unread bytes, with its newline, and gives it unless it is the rest of a line that was too
    /// long.
    fn take_line(&mut self, count: usize, buffer: &mut LineBuffer) -> Option<usize>
        requires { first_newline self.old.held.items ≡ Some count }
        ensures count { IfSome result (λ count. count ≤ 128) }
        ensures lines { GivesLine result buffer.new (lines_left R.remaining self.old) (lines_left R.remaining self.new) }
        ensures entered { self.new.entered ≡ self.old.entered }
    {
        put(&self.held.as_slice()[..count], buffer);
        self.held = behind(&self.held, count + 1);
        let is_rest = self.skips;
        self.skips = false;
        if is_rest { None } else { Some(count) }
    }

    /// Takes the front of a line that is too long, or more of its rest, which isn't given.
    fn take_front(&mut self, buffer: &mut LineBuffer) -> Option<usize>
        requires none { first_newline self.old.held.items ≡ None }
        requires full { length self.old.held.items ≡ 128 }
        ensures count { IfSome result (λ count. count ≤ 128) }
        ensures lines { GivesLine result buffer.new (lines_left R.remaining self.old) (lines_left R.remaining self.new) }
        ensures entered { self.new.entered ≡ self.old.entered }
    {
        put(self.held.as_slice(), buffer);
        self.held = ArrayVec::new();
        let is_rest = self.skips;
        self.skips = true;
        if is_rest { None } else { Some(LINE_ROOM) }
    }

    /// Takes the unread bytes up to the first newline, or all of them if they fill the buffer without one.
    fn take_held(&mut self, buffer: &mut LineBuffer) -> Option<usize>
        ensures count { IfSome result (λ count. count ≤ 128) }
        ensures lines { GivesLine result buffer.new (lines_left R.remaining self.old) (lines_left R.remaining self.new) }
        ensures entered { self.new.entered ≡ self.old.entered }
    {
        match self.first_line() {
            Some(count) => self.take_line(count, buffer),
            None if self.held.is_full() => self.take_front(buffer),
            None => None,
        }
    }

    /// Puts the next typed line into the front of the buffer and returns its length, if there is one. Lines come in the order
    /// in which they are read; none is left out or given twice.
    fn next(&mut self, buffer: &mut LineBuffer) -> Option<usize>
        ensures count { IfSome result (λ count. count ≤ 128) }
        ensures lines { GivesLine result buffer.new (lines_left R.remaining self.old) (lines_left R.remaining self.new) }
        ensures entered { self.new.entered ≡ self.old.entered }
    {
        if self.first_line().is_none() && !self.held.is_full() && !self.ended {
            self.fill();
        }
        self.take_held(buffer)
    }

    /// Returns the log of what was given.
    pub fn given(&self) -> &InputLog
        ensures { result.now ≡ self.now.entered.given }
    {
        self.entered.given()
    }

    /// Returns the source of the lines from elsewhere: each such line that was given came from it.
    pub fn more(&self) -> &M
        ensures more { result.now ≡ self.now.entered.more }
        ensures each { elsewhere_of self.now.entered.given ≡ M.given result.now }
    {
        self.entered.more()
    }

    /// Whether a read failed.
    pub fn has_failed(&self) -> bool
        ensures { result ≡ self.now.failed }
    {
        self.failed
    }

    /// Whether all lines were given.
    fn is_over(&self) -> bool
        ensures { IsTrue result → self.now.failed ≡ false → HasNoLines (lines_left R.remaining self.now) }
    {
        if !self.ended || self.held.is_full() {
            return false;
        }
        self.first_line().is_none()
    }
}

impl<R: Read, M: MoreLines> Keys for Keyboard<R, M> {
    ghost use Rattle.links.specs.Logs.{inputs_of};
    ghost use Rattle.links.specs.Typing.{IsTyped};
    ghost use Rattle.machine.specs.Keyboards.{Gives, lines_left};

    ghost inputs = { λ keyboard. inputs_of keyboard.entered.given };

    /// Gives each typed line unchanged, in its turn.
    fn line(&mut self, at: Stand, buffer: &mut LineBuffer) -> Typed
        ensures typed { IsTyped result buffer.new (inputs_of self.old.entered.given) (inputs_of self.new.entered.given) }
        ensures lines { Gives result buffer.new self.new.failed (lines_left R.remaining self.old) (lines_left R.remaining self.new)
            (M.given self.old.entered.more) (M.given self.new.entered.more) }
    {
        if let Some(count) = self.next(buffer) {
            self.entered.line(buffer, count);
            return Typed::Line(count);
        }
        if self.is_over() {
            self.entered.end();
            return Typed::Ended;
        }
        match self.entered.next_line(at, buffer) {
            Some(count) => Typed::Line(count),
            None => Typed::Nothing,
        }
    }

    fn has_more(&self) -> bool {
        self.ended || self.first_line().is_some() || self.entered.has_lines()
    }
}
