//! The line being typed, and the lines entered before.

ghost use Rattle.std.specs.Prelude.{◌≡◌, ◌≤◌, length};
ghost use Rattle.typing.specs.Drafts as drafts;

use crate::key::Key;
use arrayvec::ArrayVec;
use std::marker::Model;

/// The most bytes of a line. A desk's buffer for a line has as many, so the desk notices a line that is too long.
pub const LINE_ROOM: usize = 128;

/// The most entered lines that are kept.
pub const MOST_LINES: usize = 100;

/// The bytes of a line.
pub type Line = ArrayVec<u8, 128>;

/// The line being typed, with its cursor, and the lines entered before. While an earlier line is shown in its place, the line
/// being typed is kept in `aside`.
#[derive(Drop)]
pub struct Editor {
    text: Line,
    cursor: usize,
    /// The lines entered before, the oldest first.
    earlier: ArrayVec<Line, 100>,
    /// How many lines back the shown line is; 0 for the line being typed.
    back: usize,
    aside: Line,
}

impl Model for Editor {
    ghost use Rattle.std.specs.Prelude.{◌≤◌, length, map};
    ghost use Rattle.typing.specs.Drafts.{Draft, bytes};

    ghost Value = { Draft };

    ghost view = { λ e. record {
      text = e.text.items;
      cursor = e.cursor;
      earlier = map bytes e.earlier.items;
      back = e.back;
      aside = e.aside.items;
    } };

    ghost invariant = { λ e. (e.cursor ≤ length e.text.items) × (e.back ≤ length e.earlier.items) };
}

/// Returns a copy of a line.
fn copied(line: &[u8]) -> Line
    requires { length line.now ≤ 128 }
    ensures { result.items ≡ line.now }
{
    let mut same = ArrayVec::new();
    same.try_extend_from_slice(line).unwrap();
    same
}

/// Returns where the last word of a text begins; 0 if it has no word.
fn word_start(text: &[u8]) -> usize
    ensures bound { result ≤ length text.now }
    ensures start { result ≡ drafts.word_start text.now }
{
    let mut start = 0;
    let mut is_behind_blank = true;
    for index in 0..text.len() {
        let is_blank = text[index] == b' ';
        if is_behind_blank && !is_blank {
            start = index;
        }
        is_behind_blank = is_blank;
    }
    start
}

impl Editor {
    ghost use Rattle.std.specs.Prelude.{◌≡◌, ◌≤◌, length};
    ghost use Rattle.typing.specs.Drafts as drafts;

    /// Returns an editor with an empty line, and no earlier lines.
    pub fn new() -> Editor
        ensures { result ≡ drafts.blank }
    {
        Editor {
            text: ArrayVec::new(),
            cursor: 0,
            earlier: ArrayVec::new(),
            back: 0,
            aside: ArrayVec::new(),
        }
    }

    /// Returns the shown line.
    pub fn text(&self) -> &[u8]
        ensures text { result.now ≡ self.now.text }
        ensures bound { length result.now ≤ 128 }
    {
        self.text.as_slice()
    }

    /// Returns the cursor's place in the shown line.
    pub fn cursor(&self) -> usize
        ensures cursor { result ≡ self.now.cursor }
        ensures bound { result ≤ length self.now.text }
    {
        self.cursor
    }

    /// Inserts a character at the cursor, if there is room.
    fn insert(&mut self, sign: u8)
        ensures { self.new ≡ drafts.inserted sign self.old }
    {
        if !self.text.is_full() {
            self.text.insert(self.cursor, sign);
            self.cursor += 1;
        }
    }

    /// Removes the character before the cursor.
    fn erase(&mut self)
        ensures { self.new ≡ drafts.erased self.old }
    {
        if self.cursor > 0 {
            self.text.remove(self.cursor - 1);
            self.cursor -= 1;
        }
    }

    /// Removes the character at the cursor.
    fn delete(&mut self)
        ensures { self.new ≡ drafts.deleted self.old }
    {
        if self.cursor < self.text.len() {
            self.text.remove(self.cursor);
        }
    }

    /// Removes the word before the cursor.
    fn erase_word(&mut self)
        ensures { self.new ≡ drafts.without_word self.old }
    {
        let start = word_start(&self.text.as_slice()[..self.cursor]);
        let rest = copied(&self.text.as_slice()[self.cursor..]);
        self.text.truncate(start);
        self.text.try_extend_from_slice(rest.as_slice()).unwrap();
        self.cursor = start;
    }

    /// Shows another line, with the cursor at its end.
    fn put(&mut self, text: Line)
        ensures { self.new ≡ drafts.with_text text.items self.old }
    {
        self.cursor = text.len();
        self.text = text;
    }

    /// Shows the previous entered line, if there is one.
    fn go_back(&mut self)
        ensures { self.new ≡ drafts.earlier_shown self.old }
    {
        if self.back == self.earlier.len() {
            return;
        }
        if self.back == 0 {
            self.aside = copied(self.text.as_slice());
        }
        self.back += 1;
        let line = copied(self.earlier.as_slice()[self.earlier.len() - self.back].as_slice());
        self.put(line);
    }

    /// Shows the next entered line, or after the last one the line being typed.
    fn go_on(&mut self)
        ensures { self.new ≡ drafts.later_shown self.old }
    {
        if self.back == 0 {
            return;
        }
        self.back -= 1;
        let line = if self.back == 0 {
            copied(self.aside.as_slice())
        } else {
            copied(self.earlier.as_slice()[self.earlier.len() - self.back].as_slice())
        };
        self.put(line);
    }

    /// Keeps the line among the entered lines, unless it is empty, and begins the next one.
    fn enter(&mut self)
        ensures { self.new ≡ drafts.next_line self.old }
    {
        if !self.text.is_empty() {
            if self.earlier.is_full() {
                self.earlier.remove(0);
            }
            self.earlier.push(copied(self.text.as_slice()));
        }
        self.text.clear();
        self.cursor = 0;
        self.back = 0;
        self.aside.clear();
    }

    /// Applies a key to the line.
    pub fn press(&mut self, key: Key)
        ensures { self.new ≡ drafts.after self.old key }
    {
        match key {
            Key::Sign(sign) => self.insert(sign),
            Key::Erase => self.erase(),
            Key::Delete => self.delete(),
            Key::EraseWord => self.erase_word(),
            Key::EraseLine => self.put(ArrayVec::new()),
            Key::Front => self.cursor = 0,
            Key::End => self.cursor = self.text.len(),
            Key::Left => self.cursor = self.cursor.saturating_sub(1),
            Key::Right => self.cursor = self.text.len().min(self.cursor + 1),
            Key::Earlier => self.go_back(),
            Key::Later => self.go_on(),
            Key::Enter => self.enter(),
            Key::Stop => {}
        }
    }
}
