//! What can be unclear in a line.

use arrayvec::ArrayString;
use notation::{LineFault, LineText, Side};

/// A letter that scorers use for two things.
#[derive(Clone, Copy)]
pub enum Letter {
    /// Byes, or bowled.
    B,
    /// A Wide, or a wicket.
    W,
}

/// A way of being out in which no fielder has a part.
#[derive(Clone, Copy)]
pub enum Unaided {
    Bowled,
    Lbw,
}

/// Why a line has no full form.
#[derive(Clone, Copy)]
pub enum Unclear {
    /// The line, as typed or in full, has this fault.
    Fault(LineFault),
    /// No bowler is named, and the open over has no delivery that tells who bowls.
    WhoBowls,
    /// Either batter can be out so, and the line doesn't say which, as `striker` or `other`.
    WhoIsOut,
    /// No player of the side has a name with a word that begins with this text.
    NoSuchPlayer(LineText),
    /// Several players of this side have a name with a word that begins with this text.
    WhichPlayer(Side, LineText),
    /// No entry stands that `undo` could make void.
    NothingStands,
    /// A letter that scorers use for two things stands for a delivery's outcome.
    TwoMeanings(Letter),
    /// This fielder is named for a way of being out in which no fielder has a part.
    NoFielder(Unaided, LineText),
    /// A word is unknown where it stands: the full line would be refused for this word.
    UnknownWord(LineText),
    /// The innings begun last has no delivery with this name, as `9.2`.
    NoSuchBall(LineText),
}
