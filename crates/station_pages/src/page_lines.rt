//! The lines typed in a desk's page.

ghost use Rattle.std.specs.Prelude.{◌≡◌, ◌≤◌, [], take};
ghost use Rattle.posts.specs.PostedLogs.{lines_of};

use crate::scorers_page::ScorersPage;
use agree_core::Position;
use links::{LineBuffer, MoreLines, Stand};
use posts::{PostedLine, PostedLog};
use std::cell::RefCell;
use std::io::Write;
use std::str;

/// The lines of a page, if there is one: each was posted there, and is printed.
#[derive(Drop)]
pub struct PageLines<'p, E> {
    page: Option<&'p RefCell<ScorersPage>>,
    errors: E,
    log: PostedLog,
}

impl<'p, E: Write> PageLines<'p, E> {
    /// Begins with this page, before any of its lines was given to the desk.
    pub fn of(page: Option<&'p RefCell<ScorersPage>>, errors: E) -> PageLines<'p, E>
        ensures { lines_of result.log ≡ [] }
    {
        PageLines {
            page,
            errors,
            log: PostedLog::Empty,
        }
    }

    /// Returns the lines that were given to the desk; only clauses read them.
    pub fn posted(&self) -> &PostedLog
        ensures { result.now ≡ self.now.log }
    {
        &self.log
    }

    /// Prints how many viewers the page has, if that has changed.
    fn tell_change(&mut self)
        ensures { self.new.log ≡ self.old.log }
    {
        let _ = match change_of(self.page) {
            None => Ok(()),
            Some(0) => writeln!(self.errors, "no page"),
            Some(1) => writeln!(self.errors, "page: 1 viewer"),
            Some(count) => writeln!(self.errors, "page: {count} viewers"),
        };
    }

    /// Prints a line that was typed in the page.
    fn tell(&mut self, line: &[u8])
        ensures { self.new.log ≡ self.old.log }
    {
        let text = as_told(line);
        let _ = writeln!(self.errors, "page: {text}");
    }
}

/// Returns a line as it is printed: a question mark if it isn't UTF-8 or has a control character.
fn as_told(line: &[u8]) -> &str {
    match str::from_utf8(line) {
        Ok(text) if !text.chars().any(|letter| letter.is_control()) => text,
        _ => "?",
    }
}

/// Returns how many viewers a page has, if that has changed since it was last printed.
fn change_of(page: Option<&RefCell<ScorersPage>>) -> Option<usize> {
    let mut page = page?.try_borrow_mut().ok()?;
    page.take_change()
}

/// Returns the next line of a page, for the desk at this position.
fn next_of(page: Option<&RefCell<ScorersPage>>, at: Stand) -> Option<PostedLine> {
    let mut page = page?.try_borrow_mut().ok()?;
    page.stand(Position {
        place: at.place,
        round: at.round,
    });
    page.next_line()
}

/// Copies a line to the front of a buffer, and returns its length.
fn put(line: &PostedLine, buffer: &mut LineBuffer) -> usize
    ensures length { (result ≤ 128) × (take result buffer.new ≡ line.now.text.items) }
{
    let text = line.text.as_slice();
    buffer[..text.len()].copy_from_slice(text);
    text.len()
}

impl<E: Write> MoreLines for PageLines<'_, E> {
    ghost use Rattle.posts.specs.PostedLogs.{lines_of};

    ghost given = { λ lines. lines_of lines.log };

    fn next_line(&mut self, at: Stand, buffer: &mut LineBuffer) -> Option<usize> {
        self.tell_change();
        let line = next_of(self.page, at)?;
        let count = put(&line, buffer);
        self.tell(&buffer[..count]);
        self.log = self.log.line(&line);
        Some(count)
    }

    fn has_lines(&self) -> bool {
        match self.page {
            Some(page) => page.try_borrow().is_ok_and(|page| page.has_lines()),
            None => false,
        }
    }
}
