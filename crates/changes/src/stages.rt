//! The two stages of a match that are compared.

use cards::MatchSheet;
use match_laws::Match;

/// A match before a correction and after it, and its sheet.
#[derive(Clone, Copy)]
pub struct Stages<'m> {
    pub sheet: &'m MatchSheet,
    pub before: &'m Match,
    pub after: &'m Match,
}
