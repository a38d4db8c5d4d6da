//! What keeps a board from going on.

ghost use Rattle.std.specs.Prelude.{◌≡◌};
ghost use Rattle.board.specs.Troubles as laws;

/// Why a board doesn't go on.
#[derive(Clone, Copy, Debug)]
pub enum Why {
    /// Both desks' votes are for an entry that the book refuses.
    Refused,
    /// A vote was heard that no desk casts if its file has all its lines.
    Anew,
    /// Both desks vote for later places, and neither votes in the round that the board has come to.
    Apart,
}

impl Why {
    /// Whether this stops the board: it takes nothing more, and its book stays as it is.
    pub fn stops(self) -> bool
        ensures { result ≡ laws.stops self }
    {
        match self {
            Why::Refused | Why::Anew => true,
            Why::Apart => false,
        }
    }
}

/// What keeps a board from going on: the place, and the reason.
#[derive(Clone, Copy, Debug)]
pub struct Trouble {
    pub place: u32,
    pub why: Why,
}
