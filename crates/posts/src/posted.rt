//! A line that a post typed.

ghost use Rattle.posts.specs.Posted.{WasPosted};

use crate::nonces::Nonces;
use crate::stamp::Stamp;
use agree_core::Position;
use arrayvec::ArrayVec;
use links::LINE_ROOM;
use std::snapshot::Snapshot;

/// The bytes of a line.
pub type LineText = ArrayVec<u8, LINE_ROOM>;

/// A line that a post typed at a desk, of 1 to 128 bytes of printable ASCII. `Posts::judge` alone makes one.
#[derive(Drop)]
pub struct PostedLine {
    pub text: LineText,
    /// The position of the desk.
    pub at: Position,
    /// The page's secret, the nonces that were out, and the post's stamp: only clauses read them.
    pub secret: Snapshot<[u8; 16]>,
    pub out: Snapshot<Nonces>,
    pub stamp: Snapshot<Stamp>,
    pub ghost posted: { WasPosted secret.value out.value.items stamp.value at text.items },
}
