//! The columns of a row that are still free.

ghost use Rattle.std.specs.Prelude.{◌≡◌};
ghost use Rattle.score_rows.specs.Fit as fit;

use cards::MatchSheet;

/// The room left in a row.
#[derive(Clone, Copy)]
pub enum Room {
    /// This many columns.
    Left(usize),
    /// Something didn't fit.
    Full,
}

impl Room {
    /// Returns the room of an empty row.
    pub fn row(sheet: &MatchSheet) -> Room
        ensures { result ≡ fit.all_columns sheet.now }
    {
        Room::Left(sheet.columns())
    }

    /// Whether everything put in the row so far has fitted.
    pub fn is_left(self) -> bool
        ensures { result ≡ fit.is_left self }
    {
        matches!(self, Room::Left(_))
    }

    /// Returns the room left after a text.
    pub fn text(self, text: &str) -> Room
        ensures { result ≡ fit.behind self text.now }
    {
        match self {
            Room::Left(left) if text.len() <= left => Room::Left(left - text.len()),
            _ => Room::Full,
        }
    }
}
