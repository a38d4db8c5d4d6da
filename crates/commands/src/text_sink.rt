//! A text in memory, to which a product is printed before it is known how long it is.

ghost use Rattle.std.specs.Prelude.{None, Some, string_bytes};

use std::alloc::Global;
use std::fmt::Display;
use std::io;
use streams::Sink;

/// A text in memory.
#[derive(Drop)]
pub struct TextSink {
    text: String,
}

impl TextSink {
    ghost use Rattle.std.specs.Prelude.{◌≡◌, []};
    ghost use Rattle.commands.specs.Frames.{text_in};

    /// Makes an empty text.
    pub fn new(alloc: Global) -> TextSink
        ensures { text_in result ≡ [] }
    {
        TextSink {
            text: String::new(alloc),
        }
    }

    /// Returns what was printed to it.
    pub fn into_text(self) -> String
        ensures { string_bytes result ≡ text_in self }
    {
        self.text
    }
}

impl Sink for TextSink {
    ghost use Rattle.commands.specs.Frames.{text_in};

    ghost contents = { λ sink. Some (text_in sink) };

    ghost calls = { λ _. None };

    fn write_fmt<D: Display + Drop>(&mut self, text: D) -> io::Result<()> {
        match self.text.write_fmt(text) {
            Ok(()) => Ok(()),
            Err(_) => Err(io::Error::from(io::ErrorKind::OutOfMemory)),
        }
    }

    fn flush(&mut self) -> io::Result<()> {
        Ok(())
    }
}
