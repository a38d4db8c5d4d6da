//! Why a file has no key.

ghost use Rattle.std.specs.Prelude.{◌≡◌};
ghost use Rattle.setup.specs.Fault as texts;

/// Why a file that can be read has no key.
#[derive(Clone, Copy)]
pub enum KeyFault {
    /// The file is a folder, a pipe, a device or the like.
    NotAFile,
    /// The file is the match's sheet.
    Sheet,
    /// The file is a votes file.
    Votes,
    /// The key has fewer than 16 bytes, without the white space at its end.
    Short,
    /// The key has more than 1,024 bytes.
    Long,
    /// The key has fewer than 8 different bytes.
    Alike,
    /// The file begins as one of two keys, one for each pair, but isn't one.
    NoPair,
    /// The file has the keys of desk A.
    OfDeskA,
    /// The file has the keys of desk B.
    OfDeskB,
    /// The file has the keys of a board.
    OfBoard,
}

impl KeyFault {
    /// Returns what a scorer is told of the fault.
    pub fn words(self) -> &'static str
        ensures { result.now ≡ texts.key_words self }
    {
        match self {
            KeyFault::NotAFile => "isn't a plain file",
            KeyFault::Sheet => "is the sheet",
            KeyFault::Votes => "is a votes file",
            KeyFault::Short => "a key has 16 bytes or more",
            KeyFault::Long => "a key has 1024 bytes or fewer",
            KeyFault::Alike => "a key has 8 different bytes or more",
            KeyFault::NoPair => "isn't as ground key wrote it",
            KeyFault::OfDeskA => "is the key of desk a",
            KeyFault::OfDeskB => "is the key of desk b",
            KeyFault::OfBoard => "is the key of a board",
        }
    }
}
