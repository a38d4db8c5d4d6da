//! An innings in an archive, and the items that a delivery carries.

use crate::begun::Begun;
use crate::named::NamedSheet;
use crate::notes::Noted;
use notation::Side;

/// An innings in an archive: the match's sheet, the side that bats, the innings that each side has begun, and the innings'
/// own number, from 0.
#[derive(Clone, Copy)]
pub struct NamedInnings<'m> {
    pub sheet: &'m NamedSheet<'m>,
    pub side: Side,
    pub begun: &'m Begun,
    pub index: usize,
}

/// An item with the items that it carries if it is a delivery: those before it if it is the first delivery of the innings,
/// and those after it up to the next delivery.
#[derive(Clone, Copy)]
pub struct Carrier<'n> {
    pub early: &'n [Noted],
    pub noted: &'n Noted,
    pub late: &'n [Noted],
}
