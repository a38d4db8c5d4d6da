//! An innings that has begun.

ghost use Rattle.std.specs.Prelude.{◌<◌};
ghost use Rattle.match_laws.specs.Stands.{begun_in};

use crate::sheet::MatchSheet;
use match_laws::Match;
use notation::Side;

/// An innings that has begun in a match, and the match's sheet. Innings are numbered from 0.
#[derive(Clone, Copy)]
pub struct Innings<'m> {
    pub sheet: &'m MatchSheet,
    pub score: &'m Match,
    pub index: usize,
    ghost has_begun: { index < begun_in score.now },
}

impl<'m> Innings<'m> {
    ghost use Rattle.std.specs.Prelude.{◌≡◌};
    ghost use Rattle.match_laws.specs.History.{side_of};
    ghost use Rattle.cards.specs.Begun.{ForInnings};

    /// Returns the side that bats.
    pub fn side(&self) -> Side
        ensures { ForInnings self.now (λ s h i. result ≡ side_of h i) }
    {
        self.score.side(self.index)
    }
}
