//! Values that are texts: strings, numbers, and several in a row. Each states its width and its print once.

#![tactic(auto, using(crate::proofs::Rooms::behind_both, crate::proofs::Rooms::behind_nothing))]

ghost use Rattle.std.specs.Prelude.{◌≡◌, ◌++◌, [], List, ℕ, None, OnOk, Some, decimal};
ghost use Rattle.streams.specs.Watched.{Prints, TellsFailure};
ghost use Rattle.score_rows.specs.Fit as fit;

use crate::room::Room;
use itoa::Buffer;
use streams::{Sink, Watched, WriteFailed};

/// A value that can be measured and printed as a text.
pub trait Text {
    /// The bytes of the text.
    ghost bytes: { Self → List ℕ };

    /// Returns the room left in a row after the text.
    fn behind(&self, room: Room) -> Room
        ensures { result ≡ fit.behind room (bytes self.now) };

    /// Prints the text.
    fn print<W: Sink>(&self, out: &mut Watched<W>) -> Result<(), WriteFailed>
        ensures text { OnOk result (Prints W.contents out.old out.new (bytes self.now)) }
        ensures failed { TellsFailure result out.old out.new };
}

impl<'a> Text for &'a str {
    ghost bytes = { λ text. text.now };

    fn behind(&self, room: Room) -> Room {
        room.text(self)
    }

    fn print<W: Sink>(&self, out: &mut Watched<W>) -> Result<(), WriteFailed> {
        let text = *self;
        write!(out, "{text}")
    }
}

impl Text for u32 {
    ghost bytes = { decimal };

    fn behind(&self, room: Room) -> Room {
        let mut digits = Buffer::new();
        room.text(digits.format(*self))
    }

    fn print<W: Sink>(&self, out: &mut Watched<W>) -> Result<(), WriteFailed> {
        let number = *self;
        write!(out, "{number}")
    }
}

impl Text for u64 {
    ghost bytes = { decimal };

    fn behind(&self, room: Room) -> Room {
        let mut digits = Buffer::new();
        room.text(digits.format(*self))
    }

    fn print<W: Sink>(&self, out: &mut Watched<W>) -> Result<(), WriteFailed> {
        let number = *self;
        write!(out, "{number}")
    }
}

/// The text of a value that may be absent: empty if it is.
impl<T: Text> Text for Option<T> {
    ghost bytes = { elim [ None ↦ [] | Some text ↦ T.bytes text ] };

    fn behind(&self, room: Room) -> Room {
        match self {
            None => room,
            Some(text) => text.behind(room),
        }
    }

    fn print<W: Sink>(&self, out: &mut Watched<W>) -> Result<(), WriteFailed> {
        match self {
            None => Ok(()),
            Some(text) => text.print(out),
        }
    }
}

/// Two texts, one after the other.
impl<A: Text, B: Text> Text for (A, B) {
    ghost bytes = { λ texts. A.bytes texts.0 ++ B.bytes texts.1 };

    fn behind(&self, room: Room) -> Room {
        let room = self.0.behind(room);
        self.1.behind(room)
    }

    fn print<W: Sink>(&self, out: &mut Watched<W>) -> Result<(), WriteFailed> {
        self.0.print(out)?;
        self.1.print(out)
    }
}

impl<A: Text, B: Text, C: Text> Text for (A, B, C) {
    ghost bytes = { λ texts. A.bytes texts.0 ++ B.bytes texts.1 ++ C.bytes texts.2 };

    fn behind(&self, room: Room) -> Room {
        let room = self.0.behind(room);
        let room = self.1.behind(room);
        self.2.behind(room)
    }

    fn print<W: Sink>(&self, out: &mut Watched<W>) -> Result<(), WriteFailed> {
        self.0.print(out)?;
        self.1.print(out)?;
        self.2.print(out)
    }
}

impl<A: Text, B: Text, C: Text, D: Text> Text for (A, B, C, D) {
    ghost bytes = { λ texts. A.bytes texts.0 ++ B.bytes texts.1 ++ C.bytes texts.2 ++ D.bytes texts.3 };

    fn behind(&self, room: Room) -> Room {
        let room = self.0.behind(room);
        let room = self.1.behind(room);
        let room = self.2.behind(room);
        self.3.behind(room)
    }

    fn print<W: Sink>(&self, out: &mut Watched<W>) -> Result<(), WriteFailed> {
        self.0.print(out)?;
        self.1.print(out)?;
        self.2.print(out)?;
        self.3.print(out)
    }
}
