//! The held lines, and what is due next.

ghost use Rattle.std.specs.Prelude.{◌≡◌, ◌<◌, ◌++◌, [], IfNone, None, false, length, true};
ghost use Rattle.links.specs.Typing.{IsTyped};
ghost use Rattle.ahead.specs.Ahead.{dropped_of, given_of, handed_of, held_of, is_ordered, lost_of, typed_of};
ghost use Rattle.ahead.specs.Dropping.{Keeps, differs_since, dropped, dropped_by, dropped_in, is_not_taken};

use crate::handed::Handed;
use crate::lines::{copied, place_behind, put};
use crate::log::AheadLog;
use crate::tried::{Tried, differs_since, is_not_taken};
use arrayvec::ArrayVec;
use links::{Aside, HeldLines, LineBuffer, Stand, Typed};

/// What the desk is given once the scorer was told of all dropped lines.
#[derive(Clone, Copy)]
pub enum Last {
    /// `quit`.
    Quit,
    /// The end of the lines.
    End,
}

/// The held lines, and what happens to the next one.
#[derive(Drop)]
pub struct Queue {
    pub(crate) held: HeldLines,
    /// The lines that were dropped when typed and that the scorer wasn't told of yet.
    pub(crate) lost: HeldLines,
    /// The line that the desk was given last, until it is seen whether the desk cast it.
    pub(crate) tried: Option<Tried>,
    /// The held line that the desk was given, if it is the last line that the desk may cast.
    pub(crate) handed: Option<Handed>,
    /// Where the desk was last seen to stand.
    pub(crate) seen: Option<Stand>,
    /// Whether typed lines are dropped, as they were typed before
    /// the scorer was told why; until a pause in typing or `again`.
    pub(crate) is_deaf: bool,
    /// Whether the held lines are to be shown.
    pub(crate) lists: bool,
    pub(crate) last: Option<Last>,
    pub(crate) log: AheadLog,
    ghost holds: { held.items ≡ held_of log },
    ghost loses: { lost.items ≡ lost_of log },
    ghost hands: { handed ≡ handed_of log },
    ghost ordered: { is_ordered log ≡ true },
}

impl Queue {
    /// Returns an empty queue, of which nothing was typed yet.
    pub fn new() -> Queue
        ensures given { given_of result.log ≡ [] }
        ensures typed { typed_of result.log ≡ [] }
    {
        Queue {
            held: ArrayVec::new(),
            lost: ArrayVec::new(),
            tried: None,
            handed: None,
            seen: None,
            is_deaf: false,
            lists: false,
            last: None,
            log: AheadLog::Empty,
        }
    }

    /// Whether there is something to do at once.
    pub fn is_busy(&self) -> bool {
        self.tried.is_some()
            || self.is_deaf
            || self.lists
            || self.last.is_some()
            || !self.lost.is_empty()
    }

    /// Drops all held lines, and returns them.
    fn drop_all(&mut self) -> HeldLines
        ensures lines { result.items ≡ held_of self.old.log }
        ensures lost { lost_of self.new.log ≡ lost_of self.old.log }
        ensures held { held_of self.new.log ≡ [] }
        ensures given { given_of self.new.log ≡ given_of self.old.log }
        ensures handed { handed_of self.new.log ≡ handed_of self.old.log }
        ensures typed { typed_of self.new.log ≡ typed_of self.old.log }
        ensures told { dropped_of self.new.log ≡ dropped_of self.old.log ++ result.items }
        ensures last { self.new.last ≡ self.old.last }
    {
        self.log = self.log.dropped();
        self.held.take()
    }

    /// Drops all held lines, and returns them and the lines dropped when typed that the scorer wasn't told of.
    pub fn drop_rest(&mut self) -> (HeldLines, HeldLines)
        ensures held { (result.0).items ≡ held_of self.old.log }
        ensures lost { (result.1).items ≡ lost_of self.old.log }
        ensures told { dropped_of self.new.log ≡ dropped_of self.old.log ++ (held_of self.old.log ++ lost_of self.old.log) }
        ensures none { (held_of self.new.log ≡ []) × (lost_of self.new.log ≡ []) }
        ensures given { given_of self.new.log ≡ given_of self.old.log }
        ensures typed { typed_of self.new.log ≡ typed_of self.old.log }
    {
        let held = self.drop_all();
        self.log = self.log.told();
        (held, self.lost.take())
    }

    /// Drops all held lines, and the lines typed until the scorer is told. Returns the row that tells him, with the line
    /// that wasn't taken if that was a held one.
    fn drop_behind(&mut self, tried: Option<Tried>) -> Aside
        ensures row { dropped result ≡ held_of self.old.log }
        ensures held { held_of self.new.log ≡ [] }
        ensures given { given_of self.new.log ≡ given_of self.old.log }
        ensures handed { handed_of self.new.log ≡ handed_of self.old.log }
        ensures typed { typed_of self.new.log ≡ typed_of self.old.log }
        ensures told { dropped_of self.new.log ≡ dropped_of self.old.log ++ dropped result }
        ensures last { self.new.last ≡ self.old.last }
    {
        self.is_deaf = true;
        let behind = self.drop_all();
        match tried {
            Some(tried) if tried.was_held => Aside::NotTaken(tried.place, tried.line, behind),
            _ => Aside::Dropped(behind),
        }
    }

    /// Checks what became of the line that the desk was given last. If it wasn't taken, or if the two scorers differ, drops
    /// all held lines and returns one row about them.
    fn settle(&mut self, at: Stand) -> Option<Aside>
        ensures differs { differs_since self.old.seen at ≡ true
            → (held_of self.new.log ≡ []) × (dropped_in result ≡ held_of self.old.log) }
        ensures not_taken { is_not_taken self.old.tried at ≡ true
            → (held_of self.new.log ≡ []) × (dropped_in result ≡ held_of self.old.log) }
        ensures given { given_of self.new.log ≡ given_of self.old.log }
        ensures handed { handed_of self.new.log ≡ handed_of self.old.log }
        ensures typed { typed_of self.new.log ≡ typed_of self.old.log }
        ensures none { IfNone result ((differs_since self.old.seen at ≡ false) × (is_not_taken self.old.tried at ≡ false)) }
        ensures keeps { differs_since self.old.seen at ≡ false → is_not_taken self.old.tried at ≡ false
            → held_of self.new.log ≡ held_of self.old.log }
        ensures told { dropped_of self.new.log ≡ dropped_of self.old.log ++ dropped_in result }
        ensures last { self.new.last ≡ self.old.last }
    {
        let differs = differs_since(self.seen, at);
        let stays = is_not_taken(self.tried, at);
        self.seen = Some(at);
        let tried = self.tried.take();
        if differs {
            return Some(self.drop_behind(None));
        }
        if stays {
            return Some(self.drop_behind(tried));
        }
        None
    }

    /// Returns a row with the lines dropped when typed, once no more are dropped or there is no room for more.
    fn tell_lost(&mut self) -> Option<Aside>
        ensures room { IfNone result (length (lost_of self.new.log) < 24) }
        ensures held { held_of self.new.log ≡ held_of self.old.log }
        ensures given { given_of self.new.log ≡ given_of self.old.log }
        ensures handed { handed_of self.new.log ≡ handed_of self.old.log }
        ensures typed { typed_of self.new.log ≡ typed_of self.old.log }
        ensures told { dropped_of self.new.log ≡ dropped_of self.old.log ++ dropped_in result }
        ensures last { self.new.last ≡ self.old.last }
    {
        if self.lost.is_empty() {
            return None;
        }
        if self.is_deaf && !self.lost.is_full() {
            return None;
        }
        self.log = self.log.told();
        Some(Aside::Dropped(self.lost.take()))
    }

    /// Returns a row with the held lines, if the scorer asked for them.
    fn show(&mut self, at: Stand) -> Option<Aside>
        ensures same { self.new.log ≡ self.old.log }
        ensures row { dropped_in result ≡ [] }
    {
        if !self.lists {
            return None;
        }
        self.lists = false;
        if self.held.is_empty() {
            return None;
        }
        Some(Aside::Holds(place_behind(at, 0), copied(&self.held)))
    }

    /// Gives the desk the oldest held line.
    fn hand_on(&mut self, at: Stand, now: u64, buffer: &mut LineBuffer) -> Typed
        requires { at.has_voted ≡ false }
        ensures given { IsTyped result buffer.new (given_of self.old.log) (given_of self.new.log) }
        ensures lost { lost_of self.new.log ≡ lost_of self.old.log }
        ensures typed { typed_of self.new.log ≡ typed_of self.old.log }
        ensures keeps { Keeps at now self.old.log self.new.log }
        ensures some { result ≡ Typed.Nothing → held_of self.new.log ≡ [] }
        ensures told { dropped_of self.new.log ≡ dropped_of self.old.log ++ dropped_by result }
    {
        match self.held.pop_at(0) {
            None => Typed::Nothing,
            Some(line) => {
                let handed = Handed {
                    line,
                    place: at.place,
                    millis: now,
                };
                self.log = self.log.cast(&handed);
                self.handed = Some(handed);
                self.tried = Some(Tried {
                    line,
                    place: at.place,
                    round: at.round,
                    was_held: true,
                });
                Typed::Line(put(line.as_str(), buffer))
            }
        }
    }

    /// Drops the held lines and returns a row with them; if none is held, gives the desk what ends it.
    fn leave(&mut self, last: Last, buffer: &mut LineBuffer) -> Typed
        ensures given { IsTyped result buffer.new (given_of self.old.log) (given_of self.new.log) }
        ensures some { result ≡ Typed.Nothing → ⊥ }
        ensures typed { typed_of self.new.log ≡ typed_of self.old.log }
        ensures told { dropped_of self.new.log ≡ dropped_of self.old.log ++ dropped_by result }
    {
        if !self.held.is_empty() {
            return Typed::Aside(Aside::Dropped(self.drop_all()));
        }
        self.last = None;
        match last {
            Last::End => {
                self.log = self.log.ended();
                Typed::Ended
            }
            Last::Quit => {
                self.log = self.log.quit();
                Typed::Line(put("quit", buffer))
            }
        }
    }

    /// Returns a row about lines that are dropped, if there is one to print.
    fn tell(&mut self, at: Stand) -> Option<Aside>
        ensures differs { differs_since self.old.seen at ≡ true
            → (held_of self.new.log ≡ []) × (dropped_in result ≡ held_of self.old.log) }
        ensures not_taken { is_not_taken self.old.tried at ≡ true
            → (held_of self.new.log ≡ []) × (dropped_in result ≡ held_of self.old.log) }
        ensures room { IfNone result (length (lost_of self.new.log) < 24) }
        ensures given { given_of self.new.log ≡ given_of self.old.log }
        ensures handed { handed_of self.new.log ≡ handed_of self.old.log }
        ensures typed { typed_of self.new.log ≡ typed_of self.old.log }
        ensures none { IfNone result ((differs_since self.old.seen at ≡ false) × (is_not_taken self.old.tried at ≡ false)) }
        ensures keeps { differs_since self.old.seen at ≡ false → is_not_taken self.old.tried at ≡ false
            → held_of self.new.log ≡ held_of self.old.log }
        ensures told { dropped_of self.new.log ≡ dropped_of self.old.log ++ dropped_in result }
        ensures last { self.new.last ≡ self.old.last }
    {
        if let Some(aside) = self.settle(at) {
            return Some(aside);
        }
        self.tell_lost()
    }

    /// Does what is due before the keyboard is asked for a line.
    pub fn due(&mut self, at: Stand, now: u64, buffer: &mut LineBuffer) -> Typed
        ensures differs { differs_since self.old.seen at ≡ true
            → (held_of self.new.log ≡ []) × (dropped_by result ≡ held_of self.old.log) }
        ensures not_taken { is_not_taken self.old.tried at ≡ true
            → (held_of self.new.log ≡ []) × (dropped_by result ≡ held_of self.old.log) }
        ensures given { IsTyped result buffer.new (given_of self.old.log) (given_of self.new.log) }
        ensures typed { typed_of self.new.log ≡ typed_of self.old.log }
        ensures room { result ≡ Typed.Nothing → length (lost_of self.new.log) < 24 }
        ensures none { result ≡ Typed.Nothing
            → (differs_since self.old.seen at ≡ false) × (is_not_taken self.old.tried at ≡ false) }
        ensures keeps { differs_since self.old.seen at ≡ false → is_not_taken self.old.tried at ≡ false
            → self.old.last ≡ None → Keeps at now self.old.log self.new.log }
        ensures hands_on { result ≡ Typed.Nothing → at.has_voted ≡ false → held_of self.new.log ≡ [] }
        ensures told { dropped_of self.new.log ≡ dropped_of self.old.log ++ dropped_by result }
    {
        if let Some(aside) = self.tell(at) {
            return Typed::Aside(aside);
        }
        if let Some(last) = self.last {
            return self.leave(last, buffer);
        }
        if let Some(aside) = self.show(at) {
            return Typed::Aside(aside);
        }
        if at.has_voted {
            return Typed::Nothing;
        }
        self.hand_on(at, now, buffer)
    }
}
