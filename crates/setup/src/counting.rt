//! Which of two files of one desk's votes counts.

ghost use Rattle.std.specs.Prelude.{◌≡◌, ◌*◌, ◌+◌, ◌<◌, ◌≤◌, IsTrue, drop, false, length, take};
ghost use Rattle.setup.specs.Counting.{BeginAlike, Compares, Counts, HasBlocks};

/// The bytes of the header, and of each slot.
const BLOCK: usize = 64;

/// The first byte of a slot that counts.
pub const OPEN_GATE: u8 = 0xa5;

/// Which of two files counts.
#[derive(Clone, Copy)]
pub enum Counting {
    /// The first: it has all blocks of the second, and `lacking` more.
    First { lacking: usize },
    /// The second: it has all blocks of the first, and `lacking` more, at least one.
    Second { lacking: usize },
    /// Neither: they differ in the block after this many blocks that are alike.
    Neither { same: usize },
}

/// Counts the blocks that count: the header, and the slots after it up to the first whose gate isn't open.
fn blocks_of(bytes: &[u8]) -> usize
    ensures { HasBlocks bytes.now result }
{
    let most = bytes.len() / BLOCK;
    for count in 1..most {
        if bytes[BLOCK * count] != OPEN_GATE {
            return count;
        }
    }
    most
}

/// Returns a block of a file.
fn block(bytes: &[u8], number: usize) -> &[u8]
    requires { 64 * number + 64 ≤ length bytes.now }
    ensures { result.now ≡ take 64 (drop (64 * number) bytes.now) }
{
    let at = BLOCK * number;
    &bytes[at..at + BLOCK]
}

/// Whether both have the same bytes.
pub fn are_same(one: &[u8], other: &[u8]) -> bool
    ensures same { IsTrue result → one.now ≡ other.now }
    ensures differ { result ≡ false → one.now ≡ other.now → ⊥ }
{
    one == other
}

/// Counts the first blocks that are alike, at most `most`.
fn same_blocks(first: &[u8], second: &[u8], most: usize) -> usize
    requires first { 64 * most ≤ length first.now }
    requires second { 64 * most ≤ length second.now }
    ensures most { result ≤ most }
    ensures same { BeginAlike result first.now second.now }
    ensures differ { result < most → BeginAlike (result + 1) first.now second.now → ⊥ }
{
    for count in 0..most {
        if !are_same(block(first, count), block(second, count)) {
            return count;
        }
    }
    most
}

/// Returns which of two files with `m` and `n` blocks counts.
fn which_counts(first: &[u8], second: &[u8], m: usize, n: usize) -> Counting
    requires first { 64 * m ≤ length first.now }
    requires second { 64 * n ≤ length second.now }
    ensures { Counts result m n first.now second.now }
{
    let most = m.min(n);
    let same = same_blocks(first, second, most);
    if same < most {
        Counting::Neither { same }
    } else if m < n {
        Counting::Second { lacking: n - m }
    } else {
        Counting::First { lacking: m - n }
    }
}

/// Returns which of two files counts.
pub fn compared(first: &[u8], second: &[u8]) -> Counting
    ensures { Compares result first.now second.now }
{
    which_counts(first, second, blocks_of(first), blocks_of(second))
}

/// Returns the place of a slot's vote, and 0 if there is no such slot.
fn place_at(bytes: &[u8], slot: usize) -> u32 {
    let at = slot.saturating_mul(BLOCK);
    match bytes.get(at..at.saturating_add(BLOCK)) {
        Some(slot) => u32::from_be_bytes([slot[1], slot[2], slot[3], slot[4]]),
        None => 0,
    }
}

/// Returns the place at which two files differ after `same` blocks: the lower of both, if one file has a further round there.
pub fn place_of_difference(first: &[u8], second: &[u8], same: usize) -> u32 {
    if same == 0 {
        return 0;
    }
    place_at(first, same).min(place_at(second, same))
}
