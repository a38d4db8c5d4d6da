//! Scores that stations have shown, each kept once.

ghost use Rattle.std.specs.Prelude.{◌≡◌, ◌≤◌, ◌<◌, [], IfOk, OnErr, OnOk, Contains};
ghost use Rattle.notation.specs.declared.entry.TheConstants.{PLACES};
ghost use Rattle.match_laws.specs.declared.standing.Standing.{Standing};
ghost use Rattle.schedule_replay.specs.inner.ShownScores.{Adds, IsKept, IsStation, mark_of, most_marks};

use agree_core::DeskId;
use headline::Station;
use match_laws::Match;
use std::alloc::{AllocError, Global};

/// The number of lengths of a book, which has 0 to 8,192 entries.
const LENGTHS: usize = 8_193;

/// The number of marks: two desks and four boards, with each length of a book.
const MARKS: usize = 49_158;

/// Returns the index of the mark of a station and its book's length.
fn mark_of(station: Station, length: u32) -> usize
    requires station { IsStation station }
    requires length { length ≤ PLACES }
    ensures mark { result ≡ mark_of station length }
    ensures within { result < most_marks }
{
    let number = match station {
        Station::Desk(DeskId::A) => 0,
        Station::Desk(DeskId::B) => 1,
        Station::Board(board) => board as usize + 1,
    };
    number * LENGTHS + length as usize
}

/// Stations with their book's length and score. Each station and length is kept once, so that it takes no more room however
/// often it is shown.
#[derive(Drop)]
pub struct ShownScores {
    marks: Vec<bool>,
    pub seen: Vec<(Station, u32, Match)>,
}

impl ShownScores {
    /// Makes a list without scores. The room for all marks is taken at once.
    pub fn new(alloc: Global) -> Result<ShownScores, AllocError>
        ensures empty { IfOk result (λ shown. shown.seen.items ≡ []) }
        ensures kept { IfOk result IsKept }
    {
        let marks = vec![in alloc; false; MARKS]?;
        Ok(ShownScores {
            marks,
            seen: Vec::new(alloc),
        })
    }

    /// Adds the score of a station's book of this length, unless that is already noted.
    pub fn note(&mut self, station: Station, length: u32, score: &Match) -> Result<(), AllocError>
        requires station { IsStation station }
        requires length { length ≤ PLACES }
        requires kept { IsKept self.old }
        requires one { (other : Standing) →
            Contains self.old.seen.items (station, length, other) → other ≡ score.now }
        ensures noted { OnOk result (Adds station (λ n shown. (n ≡ length) × (shown ≡ score.now))
            self.old.seen.items self.new.seen.items) }
        ensures same { OnErr result (self.new.seen.items ≡ self.old.seen.items) }
        ensures kept { IsKept self.new }
    {
        let mark = mark_of(station, length);
        if self.marks[mark] {
            return Ok(());
        }
        self.seen.push((station, length, *score))?;
        self.marks[mark] = true;
        Ok(())
    }
}
