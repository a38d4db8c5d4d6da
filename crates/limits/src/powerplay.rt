//! Powerplays.

/// The overs in which the field is restricted: the first and the last of them, numbered from 1.
#[derive(Clone, Copy)]
pub struct Powerplay {
    pub first: u16,
    pub last: u16,
}
