//! A writer that fails.

use std::io::{self, Error, ErrorKind, Write};

/// A writer that takes this many writes and flushes, and fails at the next one.
#[derive(Drop)]
pub struct Failing {
    pub calls: usize,
}

impl Failing {
    fn call(&mut self) -> io::Result<()> {
        if self.calls == 0 {
            return Err(Error::from(ErrorKind::Other));
        }
        self.calls -= 1;
        Ok(())
    }
}

impl Write for Failing {
    fn write(&mut self, buffer: &[u8]) -> io::Result<usize> {
        self.call()?;
        Ok(buffer.len())
    }

    fn flush(&mut self) -> io::Result<()> {
        self.call()
    }
}
