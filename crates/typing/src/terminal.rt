//! How a terminal shows the desk's rows, and below them the line being typed.

ghost use Rattle.std.specs.Prelude.{◌≡◌, ◌≤◌, ◌<◌, ◌+◌, ◌++◌, length};
ghost use Rattle.typing.specs.Terminals as terminals;

use crate::editor::Editor;
use crate::key::Key;
use crate::reading::Reading;
use arrayvec::ArrayVec;
use std::marker::Model;

/// The most bytes of the desk's rows that are shown at once.
pub const ROWS_ROOM: usize = 256;

/// Moves the cursor to the start of a terminal's row, and clears the row.
const CLEAR: [u8; 4] = *b"\r\x1b[K";

/// Stands before the line being typed.
const PROMPT: [u8; 2] = *b"> ";

/// The line that Ctrl-D enters.
const QUIT: [u8; 4] = *b"quit";

/// What is handed to the desk: nothing, or a line and its newline.
pub type Handed = ArrayVec<u8, 129>;

/// What is written to the terminal at once.
pub type Drawing = ArrayVec<u8, 1024>;

/// A terminal with this many columns. The line being typed is shown in one row, a longer one in part; it isn't shown while a
/// row of the desk's is incomplete.
#[derive(Drop)]
pub struct Terminal {
    editor: Editor,
    reading: Reading,
    is_within: bool,
    columns: usize,
}

impl Model for Terminal {
    ghost use Rattle.typing.specs.Terminals.{Standing};

    ghost Value = { Standing };

    ghost view = { λ t. record {
      draft = t.editor;
      reading = t.reading;
      is_within = t.is_within;
      columns = t.columns;
    } };
}

/// Adds bytes to a drawing.
fn put(drawing: &mut Drawing, bytes: &[u8])
    requires { length drawing.old.items + length bytes.now ≤ 1024 }
    ensures items { drawing.new.items ≡ drawing.old.items ++ bytes.now }
    ensures bound { length drawing.new.items ≡ length drawing.old.items + length bytes.now }
{
    drawing.try_extend_from_slice(bytes).unwrap();
}

/// Returns a line and its newline.
fn with_newline(line: &[u8]) -> Handed
    requires { length line.now ≤ 128 }
    ensures { result.items ≡ terminals.with_newline line.now }
{
    let mut handed = ArrayVec::new();
    handed.try_extend_from_slice(line).unwrap();
    handed.push(b'\n');
    handed
}

/// Returns what a key hands to the desk.
fn handed_by(editor: &Editor, key: Option<Key>) -> Handed
    ensures { result.items ≡ terminals.handed_by editor.now key }
{
    match key {
        Some(Key::Enter) => with_newline(editor.text()),
        Some(Key::Stop) if editor.text().is_empty() => with_newline(&QUIT),
        _ => ArrayVec::new(),
    }
}

impl Terminal {
    ghost use Rattle.std.specs.Prelude.{◌≡◌, ◌≤◌, ◌<◌, ◌+◌, ◌++◌, length};
    ghost use Rattle.typing.specs.Terminals as terminals;

    /// Returns a terminal with this many columns, and nothing typed.
    pub fn new(columns: usize) -> Terminal
        ensures { result ≡ terminals.begun columns }
    {
        Terminal {
            editor: Editor::new(),
            reading: Reading::Begun,
            is_within: false,
            columns,
        }
    }

    /// Takes a typed byte, and returns what is handed to the desk.
    pub fn press(&mut self, byte: u8) -> Handed
        ensures standing { self.new ≡ terminals.pressed self.old byte }
        ensures handed { result.items ≡ terminals.handed self.old byte }
    {
        let key = self.reading.key(byte);
        self.reading = self.reading.behind(byte);
        let handed = handed_by(&self.editor, key);
        if let Some(key) = key {
            self.editor.press(key);
        }
        handed
    }

    /// Returns how many bytes of a line fit in the row.
    fn room(&self) -> usize
        ensures { result ≡ terminals.room self.now }
    {
        self.columns.saturating_sub(3)
    }

    /// Returns the shown part of the line before the cursor.
    fn front(&self) -> &[u8]
        ensures front { result.now ≡ terminals.front self.now }
        ensures bound { length result.now ≤ 128 }
    {
        let cursor = self.editor.cursor();
        &self.editor.text()[cursor.saturating_sub(self.room())..cursor]
    }

    /// Returns the shown part of the line from the cursor on.
    fn rest(&self) -> &[u8]
        ensures rest { result.now ≡ terminals.rest self.now }
        ensures bound { length result.now ≤ 128 }
    {
        let left = self.room().saturating_sub(self.front().len());
        let behind = &self.editor.text()[self.editor.cursor()..];
        if left < behind.len() {
            &behind[..left]
        } else {
            behind
        }
    }

    /// Draws the prompt and the line up to the cursor.
    fn draw_front(&self, drawing: &mut Drawing)
        requires { length drawing.old.items ≤ 850 }
        ensures items { drawing.new.items ≡ drawing.old.items ++ terminals.front_drawn self.now }
        ensures bound { length drawing.new.items ≤ length drawing.old.items + 130 }
    {
        put(drawing, &PROMPT);
        put(drawing, self.front());
    }

    /// Draws the line being typed in place of the terminal's row, with the cursor where it stands.
    fn draw_line(&self, drawing: &mut Drawing)
        requires { length drawing.old.items ≤ 512 }
        ensures { drawing.new.items ≡ drawing.old.items ++ terminals.line_drawn self.now }
    {
        put(drawing, &CLEAR);
        self.draw_front(drawing);
        put(drawing, self.rest());
        put(drawing, b"\r");
        self.draw_front(drawing);
    }

    /// Returns the drawing after a typed byte, which handed these bytes to the desk: the entered line, if any, and the line
    /// being typed.
    pub fn drawing(&self, handed: &[u8]) -> Drawing
        requires { length handed.now ≤ 129 }
        ensures { result.items ≡ terminals.key_drawn handed.now self.now }
    {
        let mut drawing = ArrayVec::new();
        if self.is_within {
            return drawing;
        }
        if !handed.is_empty() {
            put(&mut drawing, &CLEAR);
            put(&mut drawing, &PROMPT);
            put(&mut drawing, handed);
        }
        self.draw_line(&mut drawing);
        drawing
    }

    /// Returns the drawing of a piece of the desk's rows, above the line being typed.
    pub fn tell(&mut self, rows: &[u8]) -> Drawing
        requires some { 0 < length rows.now }
        requires bound { length rows.now ≤ 256 }
        ensures standing { self.new ≡ terminals.told self.old rows.now }
        ensures drawn { result.items ≡ terminals.rows_drawn self.old rows.now }
    {
        let mut drawing = ArrayVec::new();
        if !self.is_within {
            put(&mut drawing, &CLEAR);
        }
        put(&mut drawing, rows);
        self.is_within = rows[rows.len() - 1] != b'\n';
        if !self.is_within {
            self.draw_line(&mut drawing);
        }
        drawing
    }

    /// Returns what is written after the desk's last row, so that the terminal's row is empty.
    pub fn ending(&self) -> Drawing
        ensures { result.items ≡ terminals.ending self.now }
    {
        let mut drawing = ArrayVec::new();
        if self.is_within {
            put(&mut drawing, b"\n");
        } else {
            put(&mut drawing, &CLEAR);
        }
        drawing
    }
}
