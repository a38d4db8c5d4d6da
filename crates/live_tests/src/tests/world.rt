//! The clock, link, keyboard and screen of one world.
ghost use Rattle.std.specs.Prelude.{◌≡◌};

use links::{
    Clock, ClockLog, DatagramBuffer, InputLog, Keys, LineBuffer, Link, Log, Receivers, Stand,
    Taken, Typed,
};
use std::alloc::Global;
use std::cell::Cell;
use std::io::{self, Write};
use wire::{MessageBytes, SIZE};

/// A clock, and whether something is written but not handed on.
#[derive(Drop)]
pub struct World {
    pub now: Cell<u64>,
    is_held: Cell<bool>,
    pub was_held: Cell<bool>,
}

impl World {
    pub fn new() -> World {
        World {
            now: Cell::new(0),
            is_held: Cell::new(false),
            was_held: Cell::new(false),
        }
    }
}

/// The world's clock.
#[derive(Drop)]
pub struct Hand<'a> {
    world: &'a World,
    log: ClockLog,
}

impl<'a> Hand<'a> {
    pub fn new(world: &'a World) -> Hand<'a> {
        Hand {
            world,
            log: ClockLog::Empty,
        }
    }
}

impl Clock for Hand<'_> {
    ghost use Rattle.links.specs.Logs.{readings_of};

    ghost readings = { λ hand. readings_of hand.log };

    fn millis(&mut self) -> u64 {
        let now = self.world.now.get();
        self.log = self.log.read(now);
        now
    }
}

/// The bytes written, and how many of them by which time.
#[derive(Drop)]
pub struct Screen<'a> {
    world: &'a World,
    pub text: Vec<u8>,
    marks: Vec<(u64, usize)>,
}

impl<'a> Screen<'a> {
    pub fn new(alloc: Global, world: &'a World) -> Screen<'a> {
        Screen {
            world,
            text: Vec::new(alloc),
            marks: Vec::new(alloc),
        }
    }

    /// Returns the bytes written up to this time.
    pub fn by(&self, at: u64) -> &[u8] {
        let mut count = 0;
        for mark in self.marks.as_slice() {
            if mark.0 <= at {
                count = mark.1;
            }
        }
        &self.text.as_slice()[..count.min(self.text.len())]
    }
}

impl Write for Screen<'_> {
    fn write(&mut self, buffer: &[u8]) -> io::Result<usize> {
        self.world.is_held.set(true);
        self.text.extend_from_slice(buffer)?;
        self.marks.push((self.world.now.get(), self.text.len()))?;
        Ok(buffer.len())
    }

    fn flush(&mut self) -> io::Result<()> {
        self.world.is_held.set(false);
        Ok(())
    }
}

/// A datagram, the time at which it first comes, and how often it comes, once a second.
#[derive(Clone, Copy)]
pub struct Bring {
    at: u64,
    times: u64,
    bytes: MessageBytes,
}

/// Returns a datagram that comes once.
pub fn once(at: u64, bytes: MessageBytes) -> Bring {
    Bring {
        at,
        times: 1,
        bytes,
    }
}

/// Returns a datagram that comes at each of these seconds but the last.
pub fn each_second(from: u64, to: u64, bytes: MessageBytes) -> Bring {
    Bring {
        at: from.saturating_mul(1000),
        times: to.saturating_sub(from),
        bytes,
    }
}

/// A link whose datagrams come at their times. It notes when it was asked to send.
#[derive(Drop)]
pub struct Timed<'a> {
    world: &'a World,
    brings: &'a [Bring],
    taken: usize,
    /// How often the next datagram has come.
    came: u64,
    pub sends: Vec<u64>,
    log: Log,
}

impl<'a> Timed<'a> {
    pub fn new(alloc: Global, world: &'a World, brings: &'a [Bring]) -> Timed<'a> {
        Timed {
            world,
            brings,
            taken: 0,
            came: 0,
            sends: Vec::new(alloc),
            log: Log::Empty,
        }
    }

    /// Returns the datagram that comes up to this time.
    fn due(&mut self, until: u64) -> Option<Bring>
        ensures { self.new.log ≡ self.old.log }
    {
        let mut bring = *self.brings.get(self.taken)?;
        bring.at = bring.at.saturating_add(self.came.saturating_mul(1000));
        if bring.at > until {
            return None;
        }
        self.came = self.came.saturating_add(1);
        if self.came >= bring.times {
            self.taken += 1;
            self.came = 0;
        }
        Some(bring)
    }

    /// Returns the datagram that comes within `wait` milliseconds, and lets the time until then pass.
    fn next(&mut self, wait: u64) -> Option<Bring>
        ensures { self.new.log ≡ self.old.log }
    {
        let now = self.world.now.get();
        let until = now.saturating_add(wait);
        if wait > 0 && self.world.is_held.get() {
            self.world.was_held.set(true);
        }
        match self.due(until) {
            Some(bring) => {
                self.world.now.set(now.max(bring.at));
                Some(bring)
            }
            None => {
                self.world.now.set(until);
                None
            }
        }
    }
}

impl Link for Timed<'_> {
    ghost use Rattle.links.specs.Logs.{passed_of};

    ghost log = { λ timed. passed_of timed.log };

    fn send(&mut self, bytes: &MessageBytes) {
        let _ = self.sends.push(self.world.now.get());
        self.log = self.log.sent(Receivers::ToAll, bytes);
    }

    fn reply(&mut self, bytes: &MessageBytes) {
        let _ = self.sends.push(self.world.now.get());
        self.log = self.log.sent(Receivers::ToOne, bytes);
    }

    fn take(&mut self, buffer: &mut DatagramBuffer, wait: u64) -> Taken {
        match self.next(wait) {
            Some(came) => {
                buffer[..SIZE].copy_from_slice(&came.bytes);
                self.log = self.log.came(buffer, SIZE);
                Taken::Datagram(SIZE)
            }
            None => Taken::Nothing,
        }
    }
}

/// The time at which a line is typed, and the line.
pub type Key = (u64, &'static str);

/// A keyboard at which lines are typed at their times.
#[derive(Drop)]
pub struct Keyboard<'a> {
    world: &'a World,
    keys: &'a [Key],
    typed: usize,
    /// Whether more lines are typed ahead.
    is_ahead: bool,
    log: InputLog,
}

impl<'a> Keyboard<'a> {
    pub fn new(world: &'a World, keys: &'a [Key], is_ahead: bool) -> Keyboard<'a> {
        Keyboard {
            world,
            keys,
            typed: 0,
            is_ahead,
            log: InputLog::Empty,
        }
    }

    fn next(&mut self) -> Option<&'static str>
        ensures { self.new.log ≡ self.old.log }
    {
        let key = *self.keys.get(self.typed)?;
        if key.0 > self.world.now.get() {
            return None;
        }
        self.typed += 1;
        Some(key.1)
    }
}

impl Keys for Keyboard<'_> {
    ghost use Rattle.links.specs.Logs.{inputs_of};

    ghost inputs = { λ keyboard. inputs_of keyboard.log };

    fn line(&mut self, _at: Stand, buffer: &mut LineBuffer) -> Typed {
        let line = match self.next() {
            Some(line) => line.as_bytes(),
            None => return Typed::Nothing,
        };
        let count = line.len().min(128);
        buffer[..count].copy_from_slice(&line[..count]);
        self.log = self.log.line(buffer, count);
        Typed::Line(count)
    }

    fn has_more(&self) -> bool {
        self.is_ahead
    }
}
