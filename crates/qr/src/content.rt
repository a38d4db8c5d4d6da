//! The codewords of a text.

ghost use Rattle.std.specs.Prelude.{◌≡◌, ◌≤◌, ◌+◌, ◌++◌, [], length};
ghost use Rattle.arrayvec.specs.ArrayVec.{array_vec_len};
ghost use Rattle.qr.specs.Content as content;

use crate::check::check_of;
use arrayvec::ArrayVec;

/// The largest length of a text, in bytes.
pub const LONGEST: usize = 78;

/// Puts the mode, the length and the text: each codeword has the second half of a byte and the first half of the next.
fn put_text(codewords: &mut ArrayVec<u8, 100>, text: &[u8])
    requires empty { codewords.old.items ≡ [] }
    requires fits { length text.now ≤ LONGEST }
    ensures text { codewords.new.items ≡ content.text_codewords text.now }
    ensures len { array_vec_len codewords.new ≡ length text.now + 2 }
{
    let mut before = text.len() as u8;
    codewords.push(64 + before / 16);
    for byte in text {
        codewords.push(before % 16 * 16 + byte / 16);
        before = *byte;
    }
    codewords.push(before % 16 * 16);
}

/// Returns pad codeword k.
fn pad(k: usize) -> u8
    ensures { result ≡ content.pad k }
{
    if k % 2 == 0 { 0xEC } else { 0x11 }
}

/// Puts this many pad codewords.
fn put_pads(codewords: &mut ArrayVec<u8, 100>, count: usize)
    requires { array_vec_len codewords.old + count ≤ 100 }
    ensures text { codewords.new.items ≡ codewords.old.items ++ content.pads count }
    ensures len { array_vec_len codewords.new ≡ array_vec_len codewords.old + count }
{
    for k in 0..count {
        codewords.push(pad(k));
    }
}

/// Returns the codewords of a text: 80 of data, and 20 for error correction.
pub fn codewords_of(text: &[u8]) -> ArrayVec<u8, 100>
    requires { length text.now ≤ LONGEST }
    ensures { result.items ≡ content.codewords text.now }
{
    let mut codewords = ArrayVec::new();
    put_text(&mut codewords, text);
    put_pads(&mut codewords, LONGEST - text.len());
    let check = check_of(codewords.as_slice());
    codewords.try_extend_from_slice(check.as_slice()).unwrap();
    codewords
}
