//! Readers: what bytes are read from.

ghost use Rattle.std.specs.Prelude.{ℕ, List, None, Option, length};
ghost use Rattle.std.specs.Io.{ReadsAtMost};
ghost use Rattle.std.specs.Io.KnownBytes.{ReadConsumes};
ghost use Rattle.streams.specs.Calls.{Answers, Call, ReadUpTo};

use std::io::{self, Read};

/// A reader whose calls may be known. Every `Read` is a `Feed`.
pub trait Feed {
    /// The bytes that reads will give from here on, if they are known.
    ghost remaining: { Self → Option (List ℕ) };

    /// The reader's calls, the last one first; `None` if they aren't known.
    ghost calls: { Self → Option (List Call) };

    /// Reads once, as `Read` does.
    fn read(&mut self, buffer: &mut [u8]) -> io::Result<usize>
        ensures bound { ReadsAtMost result buffer.new }
        ensures bytes { ReadConsumes (remaining self.old) (remaining self.new) result buffer.new }
        ensures asked { Answers result (ReadUpTo (length buffer.old)) (calls self.old) (calls self.new) };
}

impl<R: Read> Feed for R {
    ghost remaining = { R.remaining };

    ghost calls = { λ _. None };

    fn read(&mut self, buffer: &mut [u8]) -> io::Result<usize> {
        Read::read(self, buffer)
    }
}
