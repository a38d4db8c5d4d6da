//! A terminal that is kept until its desk ends.

ghost use Rattle.std.specs.Prelude.{◌≡◌, ◌≤◌, ◌<◌, [], IfOk, OnOk, length, true};
ghost use Rattle.std.specs.Io.KnownBytes.{Appends};
ghost use Rattle.typing.specs.Courses.{bytes_of, handed_from, key_pieces, pieces_from, row_pieces, standing_behind};
ghost use Rattle.typing.specs.Terminals.{begun, handed, pressed, told};

use crate::heard::{Came, Inputs};
use crate::terminal::{ROWS_ROOM, Terminal};
use std::io::Write;

/// Why a terminal isn't kept to the desk's end.
#[derive(Clone, Copy)]
pub enum Fault {
    /// The desk's rows can't be read.
    Read,
    /// The terminal can't be written.
    Write,
}

/// A terminal, and whether all entered lines were handed to the desk: they weren't if the desk ended before.
#[derive(Drop)]
pub struct Kept {
    pub terminal: Terminal,
    pub is_handed: bool,
}

/// Hands bytes to the desk, unless earlier bytes couldn't be handed; returns whether all were.
fn is_handed<L: Write>(lines: &mut L, bytes: &[u8], were_others: bool) -> bool
    ensures { result ≡ true → (were_others ≡ true) × Appends (L.contents lines.old) (L.contents lines.new) bytes.now }
{
    were_others && lines.write_all(bytes).is_ok()
}

/// Writes bytes to the terminal.
fn show<S: Write>(screen: &mut S, bytes: &[u8]) -> Result<(), Fault>
    ensures { OnOk result (Appends (S.contents screen.old) (S.contents screen.new) bytes.now) }
{
    match screen.write_all(bytes) {
        Ok(()) => Ok(()),
        Err(_) => Err(Fault::Write),
    }
}

impl Kept {
    /// Takes a typed byte.
    fn press<L: Write, S: Write>(
        &mut self,
        byte: u8,
        lines: &mut L,
        screen: &mut S,
    ) -> Result<(), Fault>
        ensures standing { self.new.terminal ≡ pressed self.old.terminal byte }
        ensures handed { self.new.is_handed ≡ true → (self.old.is_handed ≡ true)
            × Appends (L.contents lines.old) (L.contents lines.new) (handed self.old.terminal byte) }
        ensures shown { OnOk result
            (Appends (S.contents screen.old) (S.contents screen.new) (bytes_of (key_pieces self.old.terminal byte))) }
    {
        let handed = self.terminal.press(byte);
        self.is_handed = is_handed(lines, handed.as_slice(), self.is_handed);
        let drawing = self.terminal.drawing(handed.as_slice());
        show(screen, drawing.as_slice())
    }

    /// Takes a piece of the desk's rows.
    fn tell<S: Write>(&mut self, rows: &[u8], screen: &mut S) -> Result<(), Fault>
        requires some { 0 < length rows.now }
        requires bound { length rows.now ≤ 256 }
        ensures standing { self.new.terminal ≡ told self.old.terminal rows.now }
        ensures handed { self.new.is_handed ≡ self.old.is_handed }
        ensures shown { OnOk result
            (Appends (S.contents screen.old) (S.contents screen.new) (bytes_of (row_pieces self.old.terminal rows.now))) }
    {
        let drawing = self.terminal.tell(rows);
        show(screen, drawing.as_slice())
    }
}

/// Keeps a terminal with this many columns until the desk's last row, for at most `turns` turns: hands entered lines to the
/// desk, and shows the desk's rows above the line being typed.
pub fn keep_terminal<I: Inputs, L: Write, S: Write>(
    inputs: &mut I,
    lines: &mut L,
    screen: &mut S,
    columns: usize,
    turns: u64,
) -> Result<Kept, Fault>
    requires { I.heard inputs.old ≡ [] }
    ensures standing { IfOk result (λ kept. kept.terminal ≡ standing_behind (begun columns) (I.heard inputs.new)) }
    ensures handed { IfOk result (λ kept. kept.is_handed ≡ true →
        Appends (L.contents lines.old) (L.contents lines.new) (handed_from (begun columns) (I.heard inputs.new))) }
    ensures shown { OnOk result (Appends (S.contents screen.old) (S.contents screen.new)
        (bytes_of (pieces_from (begun columns) (I.heard inputs.new)))) }
{
    let mut kept = Kept {
        terminal: Terminal::new(columns),
        is_handed: true,
    };
    let mut rows = [0; ROWS_ROOM];
    for _ in 0..turns {
        match inputs.next(&mut rows) {
            Came::Nothing => {}
            Came::Key(byte) => kept.press(byte, lines, screen)?,
            Came::Rows(count) => kept.tell(&rows[..count], screen)?,
            Came::NoMoreRows => return Ok(kept),
            Came::Failed => return Err(Fault::Read),
        }
    }
    Ok(kept)
}
