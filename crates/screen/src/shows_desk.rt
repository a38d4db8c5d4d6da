//! How a desk is shown, beside the rows that it prints.

ghost use Rattle.std.specs.Prelude.{◌≡◌, IfSome};
ghost use Rattle.notation.specs.Written.{IsEntry};

use agree_core::Position;
use cards::MatchSheet;
use corrections::BookOf;
use links::HeldLine;
use notation::Entry;

/// Shows where a desk stands, as a page does. It gets only what the desk's own scorer may see: the book, the position, his
/// own vote there and the held lines, and nothing of the other desk's.
pub trait ShowsDesk<B: BookOf> {
    ghost use Rattle.screen.specs.Sights.{DeskSight, sight_at};

    /// How it may change when it is shown a sight of the desk.
    ghost goes_on: { Self → DeskSight → Self → Type 0 };

    /// Shows the desk, if that is new, at the time `now` in milliseconds since some fixed moment.
    fn show(
        &mut self,
        sheet: &MatchSheet,
        book: &B,
        at: Position,
        own: Option<Entry>,
        held: &[HeldLine],
        now: u64,
    )
        requires { IfSome own IsEntry }
        ensures { goes_on self.old (sight_at sheet.now (B.innings_a_side book.now) (B.content book.now) at own) self.new };

    /// Returns how many milliseconds may pass before it must be shown the desk again: 0 if it has more to do at once.
    fn longest_wait(&self) -> u64;
}

/// No view of the desk but its printed rows.
#[derive(Clone, Copy)]
pub struct RowsAlone;

impl<B: BookOf> ShowsDesk<B> for RowsAlone {
    ghost goes_on = { λ old sight new. new ≡ old };

    fn show(
        &mut self,
        _sheet: &MatchSheet,
        _book: &B,
        _at: Position,
        _own: Option<Entry>,
        _held: &[HeldLine],
        _now: u64,
    ) {}

    fn longest_wait(&self) -> u64 {
        u64::MAX
    }
}
