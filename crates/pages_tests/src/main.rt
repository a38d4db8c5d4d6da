//! Prints the QR code of each line of standard input. Beside that are tests of who may type from a desk's page.
#![tactic(auto)]

#[cfg(test)]
mod tests;

use qr::code_of;
use std::io::{self, Write};

fn main(rt: HostRuntime) -> io::Result<()> {
    let mut out = rt.stdout();
    for line in rt.lines(rt.alloc()) {
        let line = line?;
        match code_of(line.as_bytes()) {
            Some(code) => write!(out, "{code}")?,
            None => writeln!(out, "too long")?,
        }
    }
    Ok(())
}
