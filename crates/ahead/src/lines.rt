//! Copies of held lines, and their places.

ghost use Rattle.std.specs.Prelude.{◌≡◌, ◌≤◌, length, take};

use arrayvec::ArrayVec;
use links::{HeldLines, LineBuffer, Stand};

/// Returns the place of a line with `held` lines held before it.
pub fn place_behind(at: Stand, held: usize) -> u32 {
    let pending = u32::from(at.has_voted);
    let ahead = u32::try_from(held).unwrap_or(u32::MAX);
    at.place.saturating_add(pending).saturating_add(ahead)
}

/// Copies a text to the front of a buffer, and returns its length.
pub fn put(text: &str, buffer: &mut LineBuffer) -> usize
    requires { length text.now ≤ 128 }
    ensures count { result ≤ 128 }
    ensures bytes { take result buffer.new ≡ text.now }
{
    let bytes = text.as_bytes();
    let count = bytes.len();
    buffer[..count].copy_from_slice(bytes);
    count
}

/// Returns a copy of the lines.
pub fn copied(lines: &HeldLines) -> HeldLines
    ensures { result.items ≡ lines.now.items }
{
    let mut same = ArrayVec::new();
    same.try_extend_from_slice(lines.as_slice()).unwrap();
    same
}
