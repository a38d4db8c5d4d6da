//! The owner of a file of keys for each pair.

ghost use Rattle.std.specs.Prelude.{◌≡◌};
ghost use Rattle.setup.specs.KeyOwners as owners;

use agree_core::Asker;

/// The owner of a file of keys for each pair: a desk, or one of four boards.
#[derive(Clone, Copy)]
pub enum KeyOwner {
    DeskA,
    DeskB,
    Board1,
    Board2,
    Board3,
    Board4,
}

/// All owners of such a file.
pub const KEY_OWNERS: [KeyOwner; 6] = [
    KeyOwner::DeskA,
    KeyOwner::DeskB,
    KeyOwner::Board1,
    KeyOwner::Board2,
    KeyOwner::Board3,
    KeyOwner::Board4,
];

impl KeyOwner {
    /// Returns the first line of the owner's file.
    pub fn line(self) -> &'static [u8]
        ensures { result.now ≡ owners.owner_line self }
    {
        match self {
            KeyOwner::DeskA => b"yermudosh key of desk a\n",
            KeyOwner::DeskB => b"yermudosh key of desk b\n",
            KeyOwner::Board1 => b"yermudosh key of board1\n",
            KeyOwner::Board2 => b"yermudosh key of board2\n",
            KeyOwner::Board3 => b"yermudosh key of board3\n",
            KeyOwner::Board4 => b"yermudosh key of board4\n",
        }
    }

    /// Returns the name of the owner's file, to be put after its folder's name.
    pub fn file_name(self) -> &'static str
        ensures { result.now ≡ owners.file_name self }
    {
        match self {
            KeyOwner::DeskA => "/a.key",
            KeyOwner::DeskB => "/b.key",
            KeyOwner::Board1 => "/board1.key",
            KeyOwner::Board2 => "/board2.key",
            KeyOwner::Board3 => "/board3.key",
            KeyOwner::Board4 => "/board4.key",
        }
    }

    /// Returns the owner's station.
    pub fn station(self) -> Asker
        ensures { result ≡ owners.owner_station self }
    {
        match self {
            KeyOwner::DeskA => Asker::A,
            KeyOwner::DeskB => Asker::B,
            _ => Asker::Board,
        }
    }
}

/// Returns the owner whose first line the text begins with, if any.
pub fn owner_of(text: &[u8]) -> Option<KeyOwner> {
    KEY_OWNERS
        .iter()
        .copied()
        .find(|owner| text.starts_with(owner.line()))
}
