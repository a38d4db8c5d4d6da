//! What a scorer entered at the keyboard and elsewhere.

ghost use Rattle.std.specs.Prelude.{◌≡◌, ◌≤◌, ◌∷◌, ◌++◌, [], MatchOption, take};
ghost use Rattle.links.specs.Logs.{elsewhere_of, inputs_of};
ghost use Rattle.links.specs.Typing.{End, GivesMore, Line};

use links::{InputLog, LineBuffer, MoreLines, Stand};

/// A source of lines other than the keyboard, and a log of all lines that were given, in order.
#[derive(Drop)]
pub struct Entered<M: MoreLines> {
    more: M,
    given: InputLog,
    ghost each: { elsewhere_of given ≡ M.given more },
}

impl<M: MoreLines> Entered<M> {
    /// Returns an empty log with this source, which has given no line yet.
    pub fn of(more: M) -> Entered<M>
        requires { M.given more ≡ [] }
        ensures { inputs_of result.given ≡ [] }
    {
        Entered {
            more,
            given: InputLog::Empty,
        }
    }

    /// Returns the log of what was given.
    pub fn given(&self) -> &InputLog
        ensures { result.now ≡ self.now.given }
    {
        &self.given
    }

    /// Whether there is another line from elsewhere.
    pub fn has_lines(&self) -> bool {
        self.more.has_lines()
    }

    /// Returns the source of the lines from elsewhere.
    pub fn more(&self) -> &M
        ensures { result.now ≡ self.now.more }
    {
        &self.more
    }

    /// Notes that the keyboard's next line is given: the first `count` bytes of the buffer.
    pub fn line(&mut self, buffer: &LineBuffer, count: usize)
        ensures typed { inputs_of self.new.given ≡ inputs_of self.old.given ++ Line (take count buffer.now) ∷ [] }
        ensures more { self.new.more ≡ self.old.more }
    {
        self.given = self.given.line(buffer, count);
    }

    /// Puts the next line from elsewhere into the front of the buffer and returns its length, if there is one.
    pub fn next_line(&mut self, at: Stand, buffer: &mut LineBuffer) -> Option<usize>
        ensures typed { MatchOption result (self.new.given ≡ self.old.given) (λ count. (count ≤ 128)
            × (inputs_of self.new.given ≡ inputs_of self.old.given ++ Line (take count buffer.new) ∷ [])) }
        ensures more { GivesMore result buffer.new (M.given self.old.more) (M.given self.new.more) }
    {
        let count = self.more.next_line(at, buffer)?;
        self.given = self.given.elsewhere(buffer, count);
        Some(count)
    }

    /// Notes that no more lines come.
    pub fn end(&mut self)
        ensures typed { inputs_of self.new.given ≡ inputs_of self.old.given ++ End ∷ [] }
        ensures more { self.new.more ≡ self.old.more }
    {
        self.given = self.given.end();
    }
}
