//! The forms of a row, by which it fits the columns of a screen.

ghost use Rattle.std.specs.Prelude.{◌≡◌, ◌-◌, ◌<◌, take, true};
ghost use Rattle.cards.specs.Sheet as sheets;
ghost use Rattle.std.specs.List.{list_all};
ghost use Rattle.score_rows.specs.Fit as fit;

use crate::text::Text;

/// What a row shows, from the most to the least.
#[derive(Clone, Copy)]
pub enum Form {
    /// The team's name and the players' full names.
    Whole,
    /// The players' full names, without the team's.
    WithoutTeam,
    /// Twelve letters of a player's name.
    TwelveLetters,
    /// Ten letters of a player's name.
    TenLetters,
    /// Eight letters of a player's name.
    EightLetters,
    /// Seven letters of a player's name.
    SevenLetters,
    /// Six letters of a player's name.
    SixLetters,
    /// Five letters of a player's name.
    FiveLetters,
    /// Four letters of a player's name.
    FourLetters,
    /// Four letters, and no number of overs of the innings.
    WithoutLimit,
    /// As `WithoutLimit`, with the bowler's limit and a free hit on rows below.
    FiguresAlone,
    /// Eight letters of a player's name; the bowler on a row of his own, with his limit and a free hit on rows below it.
    TwoRows,
}

impl Form {
    /// Whether the team's name is shown.
    pub fn has_team(self) -> bool
        ensures { result ≡ fit.has_team self }
    {
        matches!(self, Form::Whole)
    }

    /// Returns the most letters of a player's name that are shown.
    pub fn letters(self) -> usize
        ensures value { result ≡ fit.letters self }
        ensures some { 0 < result }
    {
        match self {
            Form::Whole | Form::WithoutTeam => 16,
            Form::TwelveLetters => 12,
            Form::TenLetters => 10,
            Form::EightLetters | Form::TwoRows => 8,
            Form::SevenLetters => 7,
            Form::SixLetters => 6,
            Form::FiveLetters => 5,
            Form::FourLetters | Form::WithoutLimit | Form::FiguresAlone => 4,
        }
    }

    /// Returns the number of overs of an innings, if the form shows it.
    pub fn limit_in(self, overs: Option<u16>) -> Option<u16>
        ensures { result ≡ fit.limit_in self overs }
    {
        match self {
            Form::WithoutLimit | Form::FiguresAlone | Form::TwoRows => None,
            _ => overs,
        }
    }

    /// Whether the bowler's limit and a free hit stand in the row, not below it.
    pub fn is_beside(self) -> bool
        ensures { result ≡ fit.is_beside self }
    {
        !matches!(self, Form::FiguresAlone | Form::TwoRows)
    }

    /// Whether the bowler has a row of his own.
    pub fn is_two(self) -> bool
        ensures { result ≡ fit.is_two self }
    {
        matches!(self, Form::TwoRows)
    }

    /// Returns a bowler's most overs if the form tells his limit in the row.
    pub fn beside(self, most: Option<u16>) -> Option<u16>
        ensures { result ≡ fit.beside self most }
    {
        if self.is_beside() { most } else { None }
    }

    /// Returns a bowler's most overs if the form tells his limit below the row.
    pub fn below(self, most: Option<u16>) -> Option<u16>
        ensures { result ≡ fit.below self most }
    {
        if self.is_beside() { None } else { most }
    }
}

/// Whether a text is printable ASCII.
pub fn is_plain(text: &[u8]) -> bool
    ensures { result ≡ list_all sheets.is_printable text.now }
{
    text.iter().all(|byte| *byte >= 32 && *byte <= 126)
}

/// Whether a name is printable ASCII and has more than `most` letters.
pub fn is_long(name: &str, most: usize) -> bool
    ensures { result ≡ fit.is_long most name.now }
{
    name.len() > most && is_plain(name.as_bytes())
}

/// Whether two names look alike when cut to `most` letters.
pub fn are_alike(one: &str, other: &str, most: usize) -> bool
    requires { 0 < most }
    ensures { result ≡ fit.are_alike most one.now other.now }
{
    is_long(one, most) && is_long(other, most) && front_of(one, most) == front_of(other, most)
}

/// Returns the letters of a long name that are shown: one fewer than `most`, which leaves room for the point.
pub fn front_of(name: &str, most: usize) -> &str
    requires some { 0 < most }
    requires long { fit.is_long most name.now ≡ true }
    ensures { result.now ≡ take (most - 1) name.now }
{
    let (front, _) = name.split_at(most - 1);
    front
}

/// A name as it is shown: its letters, and the point after a cut one.
pub type Name<'a> = (&'a str, &'static str);

/// Returns a name cut to at most `most` letters.
pub fn cut(name: &str, most: usize) -> Name<'_>
    requires { 0 < most }
    ensures { ⟦<Name<'static> as Text>⟧.bytes result ≡ fit.cut most name.now }
{
    if is_long(name, most) {
        (front_of(name, most), ".")
    } else {
        (name, "")
    }
}
