//! What a scorer types.

ghost use Rattle.std.specs.Prelude.{ℕ, List};
ghost use Rattle.links.specs.Typing.{GivesMore, Input, IsTyped};

use crate::aside::{Aside, HeldLine};
use crate::stand::Stand;

/// How many bytes of a line are taken at most: more than an entry has, so that a longer line is noticed.
pub const LINE_ROOM: usize = 128;

/// A buffer for a typed line.
pub type LineBuffer = [u8; LINE_ROOM];

/// What was typed: no whole line yet, a line of this many bytes, news of lines that aren't passed to the desk, or the end of
/// the lines.
#[derive(Drop)]
pub enum Typed {
    Nothing,
    Line(usize),
    Aside(Aside),
    Ended,
}

/// A source of a scorer's lines. Nothing is known of when they come.
pub trait Keys {
    /// What it gave, oldest first: lines, and their end.
    ghost inputs: { Self → List Input };

    /// Returns the next line for a desk that stands here, without its newline, if there is one. Doesn't wait for one.
    fn line(&mut self, at: Stand, buffer: &mut LineBuffer) -> Typed
        ensures { IsTyped result buffer.new (inputs self.old) (inputs self.new) };

    /// Whether `line` has more to give at once, so that nothing else is waited for.
    fn has_more(&self) -> bool;

    /// Returns the held lines, oldest first; `line` gives them later.
    fn held(&self) -> &[HeldLine] {
        &[]
    }
}

/// A source of a scorer's lines other than the keyboard, such as a page.
pub trait MoreLines {
    /// What it gave, oldest first.
    ghost given: { Self → List (List ℕ) };

    /// Puts the next line for a desk that stands here into the front of the buffer, and returns its length, if there is one.
    fn next_line(&mut self, at: Stand, buffer: &mut LineBuffer) -> Option<usize>
        ensures { GivesMore result buffer.new (given self.old) (given self.new) };

    /// Whether there is a line.
    fn has_lines(&self) -> bool;
}
